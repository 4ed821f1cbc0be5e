//! What headers of works stand among records.

ghost use Rattle.std.specs.Prelude.{◌≡◌, List, [], ◌++◌, ◌∷◌};
ghost use Rattle.cwr_lines.specs.Format.Records.{RecordValue};
ghost use Rattle.cwr_advice.specs.Steps.Kept.{AreHeaders};

use crate::advice_questions::{has_composite_type, has_no_composite_type, is_version};
use cwr_lines::RecordRef;

/// What headers there are.
#[derive(Clone, Copy)]
pub(crate) struct Headers {
    /// One with a composite type.
    pub(crate) has_composite: bool,
    /// One without.
    pub(crate) has_plain: bool,
    /// That of a version.
    pub(crate) has_version: bool,
}

impl Headers {
    /// None.
    #[inline(always)]
    pub(crate) fn none() -> Headers
        ensures { AreHeaders [] result }
    {
        Headers {
            has_composite: false,
            has_plain: false,
            has_version: false,
        }
    }

    /// With one more record.
    #[inline(always)]
    pub(crate) fn with(self, shown: &RecordRef<'_>) -> Headers
        ensures { (rs : List RecordValue) → AreHeaders rs self
            → AreHeaders (rs ++ shown.now ∷ []) result }
    {
        let composite = has_composite_type(shown);
        let plain = has_no_composite_type(shown);
        let version = is_version(shown);
        Headers {
            has_composite: self.has_composite | composite,
            has_plain: self.has_plain | plain,
            has_version: self.has_version | version,
        }
    }
}
