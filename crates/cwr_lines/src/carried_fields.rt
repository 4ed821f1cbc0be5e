//! The fields of a kind whose cells are in values.

ghost use Rattle.std.specs.Prelude.{◌≡◌, option_map};
ghost use Rattle.cwr_fields.specs.Steps.Views.{field_view};
ghost use Rattle.cwr_lines.specs.Format.Carried.{carried_with_start};

use cwr_fields::{Field, Kind, field};

/// Field `j` of a kind's layout, from 1, where its cells are in values. `None` where the kind has no such field, and
/// where that is derived.
#[inline(always)]
pub(crate) fn carried_field(kind: Kind, j: u8) -> Option<Field>
    ensures { option_map field_view result ≡ carried_with_start kind j }
{
    let place = field(kind, j)?;
    if place.derived {
        return None;
    }
    Some(place)
}
