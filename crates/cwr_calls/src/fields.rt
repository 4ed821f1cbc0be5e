//! The kinds of records and their layouts.

ghost use Rattle.std.specs.Prelude.{◌≡◌, ◌++◌, [], length, take, slice_get, option_and_then, option_map};
ghost use Rattle.cwr_fields.specs.Format.Kinds.{all_kinds, kind_of, letters as letters_of};
ghost use Rattle.cwr_fields.specs.Format.Layouts.{FieldLayout, field_with_start};
ghost use Rattle.cwr_fields.specs.Steps.Views.{field_view};
ghost use Rattle.cwr_calls.specs.Format.FieldNumbers.{field_named, field_in_c, type_number};

use cwr_fields::{CellType, Field, Kind, all_kinds, field};

/// Where a field stands in the lines of its kind, and what its cells hold.
#[repr(C)]
#[derive(Clone, Copy, Debug, PartialEq, Eq)]
pub struct CwrField {
    /// Its first byte, from 0.
    pub start: usize,
    /// How many bytes it has.
    pub width: usize,
    /// 1 text, 2 text that isn't blank, 3 digits, 4 digits or spaces, 5 a date, 6 a date, zeros or spaces, 7 a time, 8 a time or
    /// spaces, 9 a duration or spaces, 10 a share in hundredths of a percent or spaces, 11 a flag, 12 a code, 13 a code or spaces,
    /// 14 a constant.
    pub ty: u32,
    /// 1 where its cells are computed, and else 0.
    pub derived: u32,
}

/// The kind at a place of a list, from 0.
fn kind_in(kinds: &[Kind], i: usize) -> Option<Kind>
    ensures { result ≡ slice_get kinds.now i }
{
    kinds.get(i).copied()
}

/// Kind number `i`, from 0. `None` where there are no more.
pub(crate) fn kind_at(i: usize) -> Option<Kind>
    ensures { result ≡ slice_get all_kinds i }
{
    kind_in(all_kinds(), i)
}

/// Field `j`, from 1, of the kind that the letters name.
pub(crate) fn find_field(letters: &[u8], j: u8) -> Option<Field>
    ensures { option_map field_view result ≡ field_named letters.now j }
{
    let kind = Kind::of(letters)?;
    field(kind, j)
}

/// What the cells of a type hold, as a number.
fn type_number(ty: CellType) -> u32
    ensures { result ≡ type_number ty }
{
    match ty {
        CellType::Text => 1,
        CellType::Required => 2,
        CellType::Number => 3,
        CellType::OptNumber => 4,
        CellType::Date => 5,
        CellType::OptDate => 6,
        CellType::Time => 7,
        CellType::OptTime => 8,
        CellType::OptDuration => 9,
        CellType::Share => 10,
        CellType::Flag => 11,
        CellType::Code(_) => 12,
        CellType::OptCode(_) => 13,
        CellType::Constant(_) => 14,
    }
}

/// The place of a field.
pub(crate) fn place_of(place: &Field) -> CwrField
    ensures { result ≡ field_in_c (field_view place.now) }
{
    CwrField {
        start: place.start,
        width: place.width,
        ty: type_number(place.ty),
        derived: u32::from(place.derived),
    }
}
