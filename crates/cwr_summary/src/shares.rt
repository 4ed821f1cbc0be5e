//! The shares of those who own a work.

ghost use Rattle.std.specs.Prelude.{◌≡◌, ◌<◌, ◌≤◌, length, true};
ghost use Rattle.cwr_findings.specs.Format.Fields.{HasSharesFrom};
ghost use Rattle.cwr_findings.specs.Format.Findings.{is_owner};
ghost use Rattle.cwr_summary.specs.Format.Summaries.{is_controlled};
ghost use Rattle.cwr_summary.specs.Steps.Shares.{joined, share_in, share_of_cell};

use crate::columns::Right;
use cwr_fields::{Kind, is_spaces};
use cwr_findings::{PUBLISHER_SHARES, WRITER_SHARES, cell, is_of, number_of};
use cwr_lines::RecordRef;

/// Whether a record is a controlled publisher or writer.
pub(crate) fn is_controlled(shown: &RecordRef<'_>) -> bool
    ensures { result ≡ is_controlled shown.now }
{
    is_of(shown, Kind::Spu) || is_of(shown, Kind::Swr)
}

/// Both shares, if there are two, and else the one that there is. The sum stays at `u64::MAX`.
pub(crate) fn joined(share: Option<u64>, more: Option<u64>) -> Option<u64>
    ensures { result ≡ joined share more }
{
    match (share, more) {
        (Some(share), Some(more)) => Some(share.saturating_add(more)),
        (Some(share), None) => Some(share),
        (None, more) => more,
    }
}

/// The share that stands in a cell, if that isn't blank.
fn share_of_cell(cell: &[u8]) -> Option<u64>
    requires { length cell.now ≤ 8 }
    ensures { result ≡ share_of_cell cell.now }
{
    if is_spaces(cell) {
        None
    } else {
        Some(number_of(cell))
    }
}

/// The share in the right, where that in the performing right stands in this field, and those in the others in the next but one, and in the
/// one two further.
fn share_from(shown: &RecordRef<'_>, first: u8, right: Right) -> Option<u64>
    requires few { first < 20 }
    requires there { HasSharesFrom shown.now.kind first }
    ensures { result ≡ share_in right shown.now }
{
    match right {
        Right::Performing => share_of_cell(cell(shown, first)),
        Right::Mechanical => share_of_cell(cell(shown, first + 2)),
        Right::Synchronization => share_of_cell(cell(shown, first + 4)),
    }
}

/// The share of an owner of a work in the right, in hundredths of a percent, if that isn't blank.
pub(crate) fn share_in(shown: &RecordRef<'_>, right: Right) -> Option<u64>
    requires { is_owner shown.now ≡ true }
    ensures { result ≡ share_in right shown.now }
{
    match shown.kind() {
        Kind::Spu | Kind::Opu => share_from(shown, PUBLISHER_SHARES, right),
        _ => share_from(shown, WRITER_SHARES, right),
    }
}
