//! What follows a writer of a work: territories and publishers, and which writer these name.

ghost use Rattle.std.specs.Prelude.{◌≡◌, ◌+◌, ◌<◌, ◌^◌, Some, slice_get, take};
ghost use Rattle.std.specs.List.{list_any};
ghost use Rattle.cwr_findings.specs.Format.Findings.{has_party_number, is_a};
ghost use Rattle.cwr_advice.specs.Format.Rules.{has_no_publisher, has_no_territory, has_nothing, last_writer, names_other_writer};
ghost use Rattle.cwr_advice.specs.Format.Rules.{records_of_writer};
ghost use Rattle.cwr_advice.specs.Steps.Facts.{AreFacts};

use crate::facts::Facts;
use crate::owners::{is_writer, owns_shares};
use cwr_fields::{Kind, is_spaces};
use cwr_findings::{cell, is_of};
use cwr_lines::RecordRef;
use cwr_values::Transaction;

/// SWR, OWR: interested party number.
pub(crate) const WRITER_NUMBER: u8 = 4;

/// PWR: interested party number of the writer.
pub(crate) const NAMED_WRITER: u8 = 8;

/// Whether one of the records of the writer that stands after `sequence` others is of the kind.
fn writer_has(transaction: &Transaction, sequence: usize, kind: Kind) -> bool
    requires { sequence + 1 < 2 ^ 64 }
    ensures { result ≡ list_any (is_a kind) (records_of_writer transaction.now sequence) }
{
    for at in sequence + 1..transaction.len() {
        let Some(shown) = transaction.record(at) else {
            return false;
        };
        if is_writer(&shown) {
            return false;
        }
        if is_of(&shown, kind) {
            return true;
        }
    }
    false
}

/// Whether a writer whom the submitter controls has no publisher, though the work has one.
pub(crate) fn has_no_publisher(
    transaction: &Transaction,
    facts: &Facts,
    sequence: usize,
    shown: &RecordRef<'_>,
) -> bool
    requires facts { AreFacts transaction.now facts.now }
    requires room { sequence + 1 < 2 ^ 64 }
    ensures { result ≡ has_no_publisher transaction.now sequence shown.now }
{
    is_of(shown, Kind::Swr) && facts.has_publisher && !writer_has(transaction, sequence, Kind::Pwr)
}

/// Whether such a writer owns shares, and no record says where they are collected.
pub(crate) fn has_no_territory(
    transaction: &Transaction,
    sequence: usize,
    shown: &RecordRef<'_>,
) -> bool
    requires { sequence + 1 < 2 ^ 64 }
    ensures { result ≡ has_no_territory transaction.now sequence shown.now }
{
    is_of(shown, Kind::Swr) && owns_shares(shown) && !writer_has(transaction, sequence, Kind::Swt)
}

/// Whether such a writer owns nothing, and no record says that something is collected.
pub(crate) fn has_nothing(transaction: &Transaction, sequence: usize, shown: &RecordRef<'_>) -> bool
    requires { sequence + 1 < 2 ^ 64 }
    ensures { result ≡ has_nothing transaction.now sequence shown.now }
{
    is_of(shown, Kind::Swr) && !owns_shares(shown) && !writer_has(transaction, sequence, Kind::Swt)
}

/// Whether the last writer among the first `end` records has that number.
fn last_writer_has(transaction: &Transaction, end: usize, number: &[u8]) -> bool
    ensures { result ≡ has_party_number number.now (last_writer (take end transaction.now)) }
{
    let mut left = end;
    while left > 0 {
        left -= 1;
        if let Some(other) = transaction.record(left) {
            if is_writer(&other) {
                return number == cell(&other, WRITER_NUMBER);
            }
        }
    }
    false
}

/// Whether the record is the publisher of a writer, and names another writer than the one before it.
pub(crate) fn names_other_writer(
    transaction: &Transaction,
    sequence: usize,
    shown: &RecordRef<'_>,
) -> bool
    ensures { result ≡ names_other_writer transaction.now sequence shown.now }
{
    if !is_of(shown, Kind::Pwr) {
        return false;
    }
    let number = cell(shown, NAMED_WRITER);
    if is_spaces(number) {
        return false;
    }
    !last_writer_has(transaction, sequence, number)
}
