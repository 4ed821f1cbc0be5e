//! What is kept of the last writer of a work: the number by which the publishers behind it name it.

ghost use Rattle.std.specs.Prelude.{◌≡◌, ◌++◌, ◌∷◌, [], List, length, option_map, false, IfSome, IsFalse};
ghost use Rattle.cwr_lines.specs.Format.Records.{RecordValue};
ghost use Rattle.cwr_advice.specs.Format.Rules.{names_other_writer};
ghost use Rattle.cwr_advice.specs.Steps.Kept.{IsLastWriter};

use crate::owners::is_writer;
use crate::writers::{NAMED_WRITER, WRITER_NUMBER};
use cwr_fields::{Kind, is_spaces};
use cwr_findings::{cell, is_of};
use cwr_lines::RecordRef;

/// The bytes of a party's number.
pub(crate) type Number = [u8; 9];

/// The number in a cell that is as wide as those of parties are.
#[inline(always)]
fn number_in(cell: &[u8]) -> Option<Number>
    ensures { IfSome result (λ number. number ≡ cell.now) }
{
    match Number::try_from(cell) {
        Ok(number) => Some(number),
        Err(_) => None,
    }
}

/// A number as a cell.
#[inline(always)]
fn cell_of(number: &Option<Number>) -> Option<&[u8]>
    ensures { option_map (λ cell. cell.now) result ≡ number.now }
{
    match number {
        Some(number) => Some(&number[..]),
        None => None,
    }
}

/// The number of the last writer, with one more record.
#[inline(always)]
pub(crate) fn writer_with(writer: Option<Number>, shown: &RecordRef<'_>) -> Option<Number>
    ensures { (rs : List RecordValue) → IsLastWriter rs writer
        → IsLastWriter (rs ++ shown.now ∷ []) result }
{
    if !is_writer(shown) {
        return writer;
    }
    number_in(cell(shown, WRITER_NUMBER))
}

/// Whether the record may be a publisher who names another writer than that one.
#[inline(always)]
pub(crate) fn may_name_other(writer: &Option<Number>, shown: &RecordRef<'_>) -> bool
    ensures { (rs : List RecordValue) → IsLastWriter rs writer.now → IsFalse result
        → names_other_writer (rs ++ shown.now ∷ []) (length rs) shown.now ≡ false }
{
    if !is_of(shown, Kind::Pwr) {
        return false;
    }
    let number = cell(shown, NAMED_WRITER);
    if is_spaces(number) {
        return false;
    }
    match cell_of(writer) {
        Some(writer) => number != writer,
        None => true,
    }
}
