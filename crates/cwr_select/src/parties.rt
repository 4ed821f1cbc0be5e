//! Transactions that are chosen by a party.

ghost use Rattle.std.specs.Prelude.{◌≡◌, ◌<◌, ◌↔◌, IfSome, IsSome, IsTrue, length};
ghost use Rattle.std.specs.List.{list_all};
ghost use Rattle.std.specs.Char.{is_ascii_digit};
ghost use Rattle.cwr_select.specs.Format.Criteria.{has_party, is_party, names_party, significant};
ghost use Rattle.cwr_select.specs.Steps.Parties.{party_fields};

use crate::choices::Chooses;
use cwr_fields::{Kind, trimmed};
use cwr_findings::cell;
use cwr_lines::RecordRef;
use cwr_values::Transaction;
use std::marker::Model;

/// Digits without leading zeros.
fn significant(digits: &[u8]) -> &[u8]
    ensures { result.now ≡ significant digits.now }
{
    let mut rest = digits;
    while let [first, others @ ..] = rest {
        if *first != b'0' {
            break;
        }
        rest = others;
    }
    rest
}

/// Whether each byte is a digit.
fn are_digits(text: &[u8]) -> bool
    ensures { result ≡ list_all is_ascii_digit text.now }
{
    text.iter().all(|b| b.is_ascii_digit())
}

/// Whether a cell is the number, which has no leading zeros.
fn is_party(number: &[u8], cell: &[u8]) -> bool
    ensures { result ≡ is_party number.now cell.now }
{
    significant(trimmed(cell)) == number
}

/// The fields of a kind that have IPI name numbers, and 0 in the place of one that there isn't.
fn party_fields(kind: Kind) -> (u8, u8)
    ensures { result ≡ party_fields kind }
{
    match kind {
        Kind::Ipa => (5, 0),
        Kind::Spu | Kind::Opu | Kind::Swr | Kind::Owr => (10, 0),
        Kind::Per => (6, 0),
        Kind::Ewt | Kind::Ver => (10, 14),
        Kind::Com => (10, 13),
        _ => (0, 0),
    }
}

/// Whether a record names the party.
fn names_party(number: &[u8], shown: &RecordRef<'_>) -> bool
    requires { 0 < length number.now }
    ensures { result ≡ names_party number.now shown.now }
{
    let (first, second) = party_fields(shown.kind());
    is_party(number, cell(shown, first)) || is_party(number, cell(shown, second))
}

/// Whether a record of the transaction names the party.
fn has_party(number: &[u8], transaction: &Transaction) -> bool
    requires { 0 < length number.now }
    ensures { result ≡ has_party number.now transaction.now }
{
    let count = transaction.len();
    let mut i = 0;
    'records: while i < count {
        let Some(shown) = transaction.record(i) else {
            unreachable!();
        };
        if names_party(number, &shown) {
            return true;
        }
        i += 1;
    }
    false
}

/// Chooses transactions of which a record names a party, by its IPI name number. Those of a copy, and of the writers of another work,
/// count too.
#[derive(Drop)]
pub struct ByParty<'a> {
    /// The number without leading zeros.
    number: &'a [u8],
}

impl<'a> Model for ByParty<'a> {
    ghost use Rattle.std.specs.Prelude.{List, ℕ, ◌<◌, length};

    ghost Value = { List ℕ };

    ghost view = { λ by. by.number.now };

    ghost invariant = { λ by. 0 < length by.number.now };
}

impl<'a> ByParty<'a> {
    /// The party of that number, which is digits, and not all of them zeros. `None` of any other text.
    pub fn new(number: &'a [u8]) -> Option<ByParty<'a>>
        ensures some { IsSome result
            ↔ ((0 < length (significant number.now)) × IsTrue (list_all is_ascii_digit number.now)) }
        ensures value { IfSome result (λ by. by ≡ significant number.now) }
    {
        let kept = significant(number);
        if kept.is_empty() || !are_digits(number) {
            return None;
        }
        Some(ByParty { number: kept })
    }
}

impl Chooses for ByParty<'_> {
    ghost use Rattle.cwr_select.specs.Format.Criteria.{has_party};

    ghost choice = { λ by group place t. has_party by t };

    fn chooses(&self, _: u32, _: u32, transaction: &Transaction) -> bool {
        has_party(self.number, transaction)
    }
}
