//! What is kept of a transaction that was sent.

ghost use Rattle.std.specs.Prelude.{◌≡◌, ◌<◌, ◌^◌, length, option_map, slice_get};
ghost use Rattle.cwr_fields.specs.Format.Bytes.{trimmed};
ghost use Rattle.cwr_sent.specs.Format.SentFacts.{facts_of, header_check, header_number, is_work_header, submitter_number, title_check, title_of};

use cwr_fields::{Kind, trimmed};
use cwr_findings::{cell, is_of};
use cwr_lines::RecordRef;
use cwr_values::Transaction;

/// NWR, REV: title.
const TITLE: u8 = 4;

/// NWR, REV: submitter work number.
const WORK_NUMBER: u8 = 6;

/// AGR: submitter agreement number.
const AGREEMENT_NUMBER: u8 = 4;

/// What stands for a number that isn't there.
const NO_NUMBER: [u8; 14] = [b' '; 14];

/// What is kept of a transaction that was sent.
#[derive(Clone, Copy, Debug)]
pub struct SentFacts {
    /// The kind of its header.
    pub kind: Kind,
    /// The check of its title, or 0 without one.
    pub title: u32,
    /// Its submitter's number of the work or the agreement, filled up with spaces.
    pub number: [u8; 14],
}

/// The check of a title. Equal titles have the same, and others hardly ever.
pub fn title_check(title: &[u8]) -> u32
    ensures { result ≡ title_check title.now }
{
    let mut check: u32 = 0;
    for b in title {
        check = ((257 * u64::from(check) + u64::from(*b)) % 4_294_967_296) as u32;
    }
    check
}

/// Whether a record is the header of a work.
fn is_work(head: &RecordRef<'_>) -> bool
    ensures { result ≡ is_work_header head.now }
{
    is_of(head, Kind::Nwr) || is_of(head, Kind::Rev)
}

/// The check of the title of a transaction with that header.
fn check_of(head: &RecordRef<'_>) -> u32
    ensures { result ≡ title_check (trimmed (title_of head.now)) }
{
    if is_work(head) {
        title_check(trimmed(cell(head, TITLE)))
    } else {
        0
    }
}

/// The check of a transaction's title.
fn header_check(transaction: &Transaction) -> u32
    ensures { result ≡ header_check transaction.now }
{
    match transaction.record(0) {
        Some(head) => check_of(&head),
        None => 0,
    }
}

/// Bytes of that width, copied.
fn copied(cell: &[u8]) -> [u8; 14]
    requires { length cell.now ≡ 14 }
    ensures { result ≡ cell.now }
{
    let mut copy = NO_NUMBER;
    copy.copy_from_slice(cell);
    copy
}

/// The submitter's number of a transaction with that header.
fn number_of_head(head: &RecordRef<'_>) -> [u8; 14]
    ensures { result ≡ submitter_number head.now }
{
    if is_work(head) {
        copied(cell(head, WORK_NUMBER))
    } else if is_of(head, Kind::Agr) {
        copied(cell(head, AGREEMENT_NUMBER))
    } else {
        NO_NUMBER
    }
}

/// The submitter's number of a transaction.
fn header_number(transaction: &Transaction) -> [u8; 14]
    ensures { result ≡ header_number transaction.now }
{
    match transaction.record(0) {
        Some(head) => number_of_head(&head),
        None => NO_NUMBER,
    }
}

impl SentFacts {
    /// What is kept of a transaction.
    pub(crate) fn of(transaction: &Transaction) -> Self
        ensures { result ≡ facts_of transaction.now }
    {
        SentFacts {
            kind: transaction.kind(),
            title: header_check(transaction),
            number: header_number(transaction),
        }
    }
}
