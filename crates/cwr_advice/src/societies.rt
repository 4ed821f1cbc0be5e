//! Societies of the rights in which shares are owned.

ghost use Rattle.std.specs.Prelude.{◌≡◌};
ghost use Rattle.cwr_advice.specs.Format.Rules.{is_share, lacks_society};

use crate::numbers::is_zero;
use cwr_fields::{fields, is_spaces};
use cwr_findings::cell;
use cwr_lines::RecordRef;

/// Whether the cell of a share is filled in, and not with zero.
#[inline(always)]
fn is_share(cell: &[u8]) -> bool
    ensures { result ≡ is_share cell.now }
{
    !is_spaces(cell) && !is_zero(cell)
}

/// Whether the society in the field is blank, and the share in the field after it is filled in, and not with zero.
#[inline(always)]
pub(crate) fn lacks_society(shown: &RecordRef<'_>, field: u8) -> bool
    ensures { result ≡ lacks_society shown.now field }
{
    if !is_spaces(cell(shown, field)) {
        return false;
    }
    if field >= fields(shown.kind()) {
        return false;
    }
    is_share(cell(shown, field + 1))
}
