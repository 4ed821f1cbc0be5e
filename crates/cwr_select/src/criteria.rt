//! What transactions are chosen by.

ghost use Rattle.std.specs.Prelude.{◌≡◌, ◌≤◌, length, IfSome, IsSome, ◌↔◌};
ghost use Rattle.cwr_fields.specs.Format.Bytes.{filled};
ghost use Rattle.cwr_select.specs.Format.Criteria.{has_number, number_cell};

use crate::choices::Chooses;
use crate::listed::Listed;
use cwr_fields::Kind;
use cwr_findings::work_number;
use cwr_values::Transaction;

/// The bytes of the widest number.
const NUMBER: usize = 20;

/// A number filled up with spaces to the width of the widest. `None` where it is wider.
pub fn number_cell(number: &[u8]) -> Option<[u8; NUMBER]>
    ensures some { IsSome result ↔ length number.now ≤ NUMBER }
    ensures value { IfSome result (λ cell. cell ≡ filled NUMBER number.now) }
{
    if number.len() > NUMBER {
        return None;
    }
    Some(filled_number(number))
}

/// The same of one that is known to be no wider.
fn filled_number(number: &[u8]) -> [u8; NUMBER]
    requires { length number.now ≤ NUMBER }
    ensures { result ≡ filled NUMBER number.now }
{
    let mut cell = [b' '; NUMBER];
    cell[..number.len()].copy_from_slice(number);
    cell
}

/// The number of a transaction by which it may be chosen, filled up with spaces to the width of the widest.
pub fn number_of(transaction: &Transaction) -> [u8; NUMBER]
    ensures { result ≡ number_cell transaction.now }
{
    match transaction.record(0) {
        Some(head) => filled_number(work_number(&head)),
        None => filled_number(b""),
    }
}

/// Chooses transactions by their numbers: submitter work numbers, submitter agreement numbers, and of an acknowledgement the submitter
/// creation number. That of a copy isn't looked at.
#[derive(Clone, Copy)]
pub struct ByNumber<'a>(pub &'a Listed<[u8; NUMBER]>);

impl Chooses for ByNumber<'_> {
    ghost use Rattle.cwr_select.specs.Format.Criteria.{has_number};

    ghost choice = { λ by group place t. has_number by.0.now t };

    fn chooses(&self, _: u32, _: u32, transaction: &Transaction) -> bool {
        self.0.has(&number_of(transaction))
    }
}

/// Chooses transactions by their places: that of the group, from 1, and that in it, from 0.
#[derive(Clone, Copy)]
pub struct ByPlace<'a>(pub &'a Listed<(u32, u32)>);

impl Chooses for ByPlace<'_> {
    ghost use Rattle.cwr_select.specs.Format.Criteria.{has_place};

    ghost choice = { λ by group place t. has_place by.0.now group place };

    fn chooses(&self, group: u32, place: u32, _: &Transaction) -> bool {
        self.0.has(&(group, place))
    }
}

/// Chooses transactions by the kinds of their headers.
#[derive(Clone, Copy, Debug, PartialEq, Eq)]
pub struct ByKind {
    /// AGR.
    pub agreements: bool,
    /// NWR.
    pub new_works: bool,
    /// REV.
    pub revised_works: bool,
    /// ACK.
    pub acknowledgements: bool,
}

impl Chooses for ByKind {
    ghost use Rattle.cwr_select.specs.Format.Criteria.{has_kind};

    ghost choice = { λ by group place t. has_kind by t };

    fn chooses(&self, _: u32, _: u32, transaction: &Transaction) -> bool {
        match transaction.kind() {
            Kind::Agr => self.agreements,
            Kind::Nwr => self.new_works,
            Kind::Rev => self.revised_works,
            Kind::Ack => self.acknowledgements,
            _ => false,
        }
    }
}
