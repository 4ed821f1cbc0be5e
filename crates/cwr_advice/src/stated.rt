//! In which rights shares are filled in.

ghost use Rattle.std.specs.Prelude.{◌≡◌, ◌<◌, ◌++◌, ◌∷◌, [], List, false, true};
ghost use Rattle.cwr_lines.specs.Format.Records.{RecordValue};
ghost use Rattle.cwr_findings.specs.Format.Fields.{HasSharesFrom};
ghost use Rattle.cwr_findings.specs.Format.Findings.{is_owner};
ghost use Rattle.cwr_advice.specs.Steps.Facts.{AreFilledIn, AreStated, AreStatedBy};

use crate::owners::is_publisher;
use cwr_fields::is_spaces;
use cwr_findings::{PUBLISHER_SHARES, WRITER_SHARES, cell, is_owner};
use cwr_lines::RecordRef;

/// In which of the three rights a share is filled in.
#[derive(Clone, Copy)]
pub(crate) struct Stated {
    pub(crate) performing: bool,
    pub(crate) mechanical: bool,
    pub(crate) synchronization: bool,
}

/// In which rights shares are filled in that stand in this field, in the next but one, and in the one two further.
#[inline(always)]
fn stated_from(shown: &RecordRef<'_>, first: u8) -> Stated
    requires few { first < 20 }
    requires there { HasSharesFrom shown.now.kind first }
    ensures { AreFilledIn shown.now result }
{
    Stated {
        performing: !is_spaces(cell(shown, first)),
        mechanical: !is_spaces(cell(shown, first + 2)),
        synchronization: !is_spaces(cell(shown, first + 4)),
    }
}

/// In which rights the shares of an owner are filled in.
#[inline(always)]
fn stated_of(shown: &RecordRef<'_>) -> Stated
    requires { is_owner shown.now ≡ true }
    ensures { AreFilledIn shown.now result }
{
    if is_publisher(shown) {
        stated_from(shown, PUBLISHER_SHARES)
    } else {
        stated_from(shown, WRITER_SHARES)
    }
}

/// In which rights the record's shares are filled in: in none, where it is no owner.
#[inline(always)]
fn stated_by(shown: &RecordRef<'_>) -> Stated
    ensures { AreStatedBy shown.now result }
{
    if !is_owner(shown) {
        return Stated::nowhere();
    }
    stated_of(shown)
}

impl Stated {
    /// In none.
    #[inline(always)]
    pub(crate) fn nowhere() -> Stated
        ensures none { AreStated [] result }
        ensures fields { result
            ≡ record { performing = false; mechanical = false; synchronization = false } }
    {
        Stated {
            performing: false,
            mechanical: false,
            synchronization: false,
        }
    }

    /// With those of one more record.
    #[inline(always)]
    pub(crate) fn with(self, shown: &RecordRef<'_>) -> Stated
        ensures { (rs : List RecordValue) → AreStated rs self
            → AreStated (rs ++ shown.now ∷ []) result }
    {
        let more = stated_by(shown);
        Stated {
            performing: self.performing | more.performing,
            mechanical: self.mechanical | more.mechanical,
            synchronization: self.synchronization | more.synchronization,
        }
    }
}
