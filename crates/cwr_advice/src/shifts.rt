//! Text that goes on over the end of its cell, as where blanks were lost before it.

ghost use Rattle.std.specs.Prelude.{◌≡◌};
ghost use Rattle.cwr_advice.specs.Format.Rules.{is_shifted};
ghost use Rattle.cwr_advice.specs.Format.Shifts.{begins_with_letter, ends_with_letter, has_gap};

use crate::numbers::is_letter;
use cwr_fields::fields;
use cwr_findings::cell;
use cwr_lines::RecordRef;

/// Whether a letter ends the cell.
#[inline(always)]
fn ends_with_letter(cell: &[u8]) -> bool
    ensures { result ≡ ends_with_letter cell.now }
{
    !cell.is_empty() && is_letter(cell[cell.len() - 1])
}

/// Whether a letter begins the cell.
#[inline(always)]
fn begins_with_letter(cell: &[u8]) -> bool
    ensures { result ≡ begins_with_letter cell.now }
{
    !cell.is_empty() && is_letter(cell[0])
}

/// Whether three blanks stand together in the cell behind something else.
fn has_gap(cell: &[u8]) -> bool
    ensures { result ≡ has_gap cell.now }
{
    let mut rest = cell;
    while let Some((byte, after)) = rest.split_first() {
        if *byte != b' ' && after.starts_with(b"   ") {
            return true;
        }
        rest = after;
    }
    false
}

/// Whether the text of a field goes on over its end, and stands behind a gap.
#[inline(always)]
pub(crate) fn is_shifted(shown: &RecordRef<'_>, field: u8) -> bool
    ensures { result ≡ is_shifted shown.now field }
{
    let text = cell(shown, field);
    if !ends_with_letter(text) {
        return false;
    }
    if field >= fields(shown.kind()) {
        return false;
    }
    begins_with_letter(cell(shown, field + 1)) && has_gap(text)
}
