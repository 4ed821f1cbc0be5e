//! What the tables of layouts say of a kind.

ghost use Rattle.std.specs.Prelude.{◌≡◌, option_map, length};
ghost use Rattle.cwr_fields.specs.Format.Layouts.{field_with_start, layout as layout_of, line_width};
ghost use Rattle.cwr_fields.specs.Steps.Views.{field_view};

use crate::kinds::Kind;
use crate::layouts::{Field, layout};

/// Field `j` of a kind's layout, from 1. `None` where the kind has no such field.
#[inline(always)]
pub fn field(kind: Kind, j: u8) -> Option<Field>
    ensures { option_map field_view result ≡ field_with_start kind j }
{
    if j == 0 {
        return None;
    }
    layout(kind).get(j as usize - 1).copied()
}

/// How many fields a kind has, the record type counted.
#[inline(always)]
pub fn fields(kind: Kind) -> u8
    ensures { result ≡ length (layout_of kind) }
{
    layout(kind).len() as u8
}

/// The bytes of a kind's whole line, without its line end.
#[inline(always)]
pub fn width(kind: Kind) -> usize
    ensures { result ≡ line_width kind }
{
    match layout(kind).last() {
        Some(last) => last.start + last.width,
        None => 0,
    }
}
