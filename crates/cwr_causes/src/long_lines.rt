//! A line that is too long by some bytes, behind which its cells stand further right.

ghost use Rattle.std.specs.Prelude.{◌≡◌, ◌++◌, option_map, string_bytes, OnOk};
ghost use Rattle.std.specs.List.{list_all};
ghost use Rattle.cwr_fields.specs.Format.Bytes.{are_digits};
ghost use Rattle.cwr_fields.specs.Steps.Views.{field_view};
ghost use Rattle.cwr_causes.specs.Format.LongLines.{cell_in, digits_or_spaces, has_long_id, has_no_space, is_flag, long_id_line, long_id_of, long_id_words, long_line, long_line_if, one_too_many, part, some_too_many};
ghost use Rattle.cwr_causes.specs.Format.LongLines.{long_line_words, looks_like, looks_right, right_from, run_with, shows_shift, tells};
ghost use Rattle.cwr_causes.specs.Format.LongLines.{begins_well, filled_with, first_wrong, is_filled, is_told, is_typed, is_wrong, last_filled};
ghost use Rattle.cwr_causes.specs.Format.LongLines.{stands_well, told_with, too_long_in, too_long_of, wrong_with};

use crate::texts::add_label;
use cwr_fields::{CellType, Field, Kind, field, fields, is_spaces, width};
use std::alloc::AllocError;
use std::fmt::Write;

/// Whether each byte is a digit.
pub(crate) fn are_digits(cell: &[u8]) -> bool
    ensures { result ≡ are_digits cell.now }
{
    cell.iter().all(|byte| byte.is_ascii_digit())
}

/// Whether no byte is a space.
fn has_no_space(cell: &[u8]) -> bool
    ensures { result ≡ has_no_space cell.now }
{
    cell.iter().all(|byte| *byte != b' ')
}

/// Whether the byte is a flag.
fn is_flag(byte: u8) -> bool
    ensures { result ≡ is_flag byte }
{
    byte == b'Y' || byte == b'N' || byte == b'U' || byte == b' '
}

/// Whether each byte is a flag.
fn are_flags(cell: &[u8]) -> bool
    ensures { result ≡ list_all is_flag cell.now }
{
    cell.iter().all(|byte| is_flag(*byte))
}

/// Whether the bytes are digits or spaces.
fn digits_or_spaces(cell: &[u8]) -> bool
    ensures { result ≡ digits_or_spaces cell.now }
{
    are_digits(cell) || is_spaces(cell)
}

/// Whether a cell of the type may look so, as far as spaces, digits and flags tell.
fn looks_like(ty: CellType, cell: &[u8]) -> bool
    ensures { result ≡ looks_like ty cell.now }
{
    match ty {
        CellType::Text | CellType::Required => true,
        CellType::Number | CellType::Date | CellType::Time => are_digits(cell),
        CellType::OptNumber
        | CellType::OptDate
        | CellType::OptTime
        | CellType::OptDuration
        | CellType::Share => digits_or_spaces(cell),
        CellType::Flag => are_flags(cell),
        CellType::Code(_) => has_no_space(cell),
        CellType::OptCode(_) => has_no_space(cell) || is_spaces(cell),
        CellType::Constant(word) => *cell == *word.text(),
    }
}

/// So many bytes of a text from a place on, as far as it goes.
pub(crate) fn part(text: &[u8], start: usize, width: usize) -> &[u8]
    ensures { result.now ≡ part text.now start width }
{
    let rest = &text[start.min(text.len())..];
    &rest[..width.min(rest.len())]
}

/// The cell of a field in a text.
fn cell_in<'a>(text: &'a [u8], place: &Field) -> &'a [u8]
    ensures { result.now ≡ cell_in text.now (field_view place.now) }
{
    part(text, place.start, place.width)
}

/// Whether it looks right. Numbers of the file's own stand before all others, and aren't asked.
fn looks_right(text: &[u8], place: &Field) -> bool
    ensures { result ≡ looks_right text.now (field_view place.now) }
{
    !place.derived && looks_like(place.ty, cell_in(text, place))
}

/// The field from which on all look right, with one field more.
fn run_with(text: &[u8], first: Option<Field>, next: Option<Field>) -> Option<Field>
    ensures { option_map field_view result
        ≡ run_with text.now (option_map field_view first) (option_map field_view next) }
{
    match next {
        None => first,
        Some(place) => {
            if looks_right(text, &place) {
                first.or(Some(place))
            } else {
                None
            }
        }
    }
}

/// The field of the kind from which on all look right.
fn right_from(kind: Kind, text: &[u8]) -> Option<Field>
    ensures { option_map field_view result ≡ right_from kind text.now }
{
    let mut first = None;
    for before in 0..fields(kind) {
        first = run_with(text, first, field(kind, before + 1));
    }
    first
}

/// Whether cells of the type aren't any text.
fn is_typed(ty: CellType) -> bool
    ensures { result ≡ is_typed ty }
{
    !matches!(ty, CellType::Text | CellType::Required)
}

/// Whether the field starts there or behind, isn't any text, and isn't blank.
fn tells(text: &[u8], start: usize, place: &Field) -> bool
    ensures { result ≡ tells text.now start (field_view place.now) }
{
    start <= place.start && is_typed(place.ty) && !is_spaces(cell_in(text, place))
}

/// Whether one field more is such.
fn told_with(text: &[u8], start: usize, told: bool, next: Option<Field>) -> bool
    ensures { result ≡ told_with text.now start told (option_map field_view next) }
{
    match next {
        Some(place) => told || tells(text, start, &place),
        None => told,
    }
}

/// Whether a field of the kind is.
fn is_told(kind: Kind, text: &[u8], start: usize) -> bool
    ensures { result ≡ is_told kind text.now start }
{
    let mut told = false;
    for before in 0..fields(kind) {
        told = told_with(text, start, told, field(kind, before + 1));
    }
    told
}

/// Whether the refused field stands behind that one or is it, and cells look right of which blanks and text alone don't tell.
fn shows_shift(kind: Kind, text: &[u8], first: &Field, refused: Option<Field>) -> bool
    ensures { result ≡ shows_shift kind text.now (field_view first.now) (option_map field_view refused) }
{
    match refused {
        Some(refused) => first.start <= refused.start && is_told(kind, text, first.start),
        None => false,
    }
}

/// Whether a text begins with no blank, or is all blank.
fn begins_well(cell: &[u8]) -> bool
    ensures { result ≡ begins_well cell.now }
{
    match cell {
        [] => true,
        [first, rest @ ..] => *first != b' ' || is_spaces(rest),
    }
}

/// Whether a cell of the type may stand so.
fn stands_well(ty: CellType, cell: &[u8]) -> bool
    ensures { result ≡ stands_well ty cell.now }
{
    match ty {
        CellType::Text | CellType::Required => begins_well(cell),
        ty => looks_like(ty, cell),
    }
}

/// Whether the field is the one that starts there, or its cell looks wrong.
fn is_wrong(line: &[u8], refused: usize, place: &Field) -> bool
    ensures { result ≡ is_wrong line.now refused (field_view place.now) }
{
    !place.derived && (place.start == refused || !stands_well(place.ty, cell_in(line, place)))
}

/// The first such field, with one field more.
fn wrong_with(
    line: &[u8],
    refused: usize,
    first: Option<Field>,
    next: Option<Field>,
) -> Option<Field>
    ensures { option_map field_view result
        ≡ wrong_with line.now refused (option_map field_view first) (option_map field_view next) }
{
    match next {
        Some(place) if is_wrong(line, refused, &place) => first.or(Some(place)),
        _ => first,
    }
}

/// The first such field of the kind.
fn first_wrong(kind: Kind, line: &[u8], refused: usize) -> Option<Field>
    ensures { option_map field_view result ≡ first_wrong kind line.now refused }
{
    let mut first = None;
    for before in 0..fields(kind) {
        first = wrong_with(line, refused, first, field(kind, before + 1));
    }
    first
}

/// Whether the cell stands before that place, and isn't blank.
fn is_filled(line: &[u8], end: usize, place: &Field) -> bool
    ensures { result ≡ is_filled line.now end (field_view place.now) }
{
    !place.derived && place.start < end && !is_spaces(cell_in(line, place))
}

/// The last such field, with one field more.
fn filled_with(line: &[u8], end: usize, last: Option<Field>, next: Option<Field>) -> Option<Field>
    ensures { option_map field_view result
        ≡ filled_with line.now end (option_map field_view last) (option_map field_view next) }
{
    match next {
        Some(place) if is_filled(line, end, &place) => Some(place),
        _ => last,
    }
}

/// The last such field of the kind.
fn last_filled(kind: Kind, line: &[u8], end: usize) -> Option<Field>
    ensures { option_map field_view result ≡ last_filled kind line.now end }
{
    let mut last = None;
    for before in 0..fields(kind) {
        last = filled_with(line, end, last, field(kind, before + 1));
    }
    last
}

/// The cell that is too long, where those from the first field on look right further right, and that one is the first that looks wrong in
/// its place.
fn too_long_of(kind: Kind, line: &[u8], first: Field, wrong: Option<Field>) -> Field
    ensures { field_view result
        ≡ too_long_of kind line.now (field_view first) (option_map field_view wrong) }
{
    let Some(wrong) = wrong else {
        return first;
    };
    if first.start <= wrong.start {
        last_filled(kind, line, wrong.start).unwrap_or(wrong)
    } else {
        wrong
    }
}

/// The same of a line that is refused at that field.
fn too_long_in(kind: Kind, line: &[u8], first: Field, refused: Option<Field>) -> Field
    ensures { field_view result
        ≡ too_long_in kind line.now (field_view first) (option_map field_view refused) }
{
    match refused {
        Some(refused) => too_long_of(kind, line, first, first_wrong(kind, line, refused.start)),
        None => first,
    }
}

/// Adds that the line is too long by one byte, from the field of that name on.
#[tactic(auto, unfolding(crate::specs::Format::LongLines::one_too_many))]
fn add_one_too_many(text: &mut String, name: &str) -> Result<(), AllocError>
    ensures { OnOk result (string_bytes text.new ≡ string_bytes text.old ++ one_too_many name.now) }
{
    add_label(text, "note")?;
    writeln!(
        text,
        "this line is 1 byte too long: from {name} on, everything stands 1 byte further right"
    )
}

/// Adds that it is too long by several.
#[tactic(auto, unfolding(crate::specs::Format::LongLines::some_too_many))]
fn add_some_too_many(text: &mut String, shift: usize, name: &str) -> Result<(), AllocError>
    ensures { OnOk result (string_bytes text.new ≡ string_bytes text.old ++ some_too_many shift name.now) }
{
    add_label(text, "note")?;
    writeln!(
        text,
        "this line is {shift} bytes too long: from {name} on, everything stands {shift} bytes further right"
    )
}

/// Adds the one or the other.
fn add_long_line(text: &mut String, shift: usize, name: &str) -> Result<(), AllocError>
    ensures { OnOk result (string_bytes text.new ≡ string_bytes text.old ++ long_line shift name.now) }
{
    if shift == 1 {
        add_one_too_many(text, name)
    } else {
        add_some_too_many(text, shift, name)
    }
}

/// Adds the same, where the cells of the line without so many bytes at its begin show it.
fn add_long_line_if(
    text: &mut String,
    kind: Kind,
    line: &[u8],
    moved: &[u8],
    shift: usize,
    first: Option<Field>,
    refused: Option<Field>,
) -> Result<(), AllocError>
    ensures { OnOk result (string_bytes text.new ≡ string_bytes text.old
        ++ long_line_if kind line.now moved.now shift (option_map field_view first)
        (option_map field_view refused)) }
{
    let Some(first) = first else {
        return Ok(());
    };
    if shows_shift(kind, moved, &first, refused) {
        add_long_line(text, shift, too_long_in(kind, line, first, refused).name)
    } else {
        Ok(())
    }
}

/// Adds the same of a line of the kind that is refused at that field, where it has more bytes than its fields.
pub(crate) fn add_long(
    text: &mut String,
    kind: Kind,
    refused: u8,
    line: &[u8],
) -> Result<(), AllocError>
    ensures { OnOk result (string_bytes text.new ≡ string_bytes text.old
        ++ long_line_words kind refused line.now) }
{
    let whole = width(kind);
    if line.len() <= whole {
        return Ok(());
    }
    let shift = line.len() - whole;
    let moved = &line[shift..];
    add_long_line_if(
        text,
        kind,
        line,
        moved,
        shift,
        right_from(kind, moved),
        field(kind, refused),
    )
}

/// Whether in HDR eleven digits stand where a sender id of nine bytes begins, and the version two bytes further right.
fn has_long_id(line: &[u8]) -> bool
    ensures { result ≡ has_long_id line.now }
{
    *part(line, 61, 5) == *b"01.10".as_slice() && are_digits(part(line, 5, 11))
}

/// Adds that the sender id has eleven digits.
#[tactic(auto, unfolding(crate::specs::Format::LongLines::long_id_line))]
fn add_long_id_line(text: &mut String) -> Result<(), AllocError>
    ensures { OnOk result (string_bytes text.new ≡ string_bytes text.old ++ long_id_line) }
{
    add_label(text, "note")?;
    text.push_str(
        "the sender id has eleven digits: of an IPI name number of eleven digits the first two stand in the sender type, bytes 4 and 5 of the line\n",
    )
}

/// Adds the same of a line of the kind, if it has.
pub(crate) fn add_long_id(
    text: &mut String,
    kind: Option<Kind>,
    line: &[u8],
) -> Result<(), AllocError>
    ensures { OnOk result (string_bytes text.new ≡ string_bytes text.old ++ long_id_words kind line.now) }
{
    match kind {
        Some(Kind::Hdr) if has_long_id(line) => add_long_id_line(text),
        _ => Ok(()),
    }
}
