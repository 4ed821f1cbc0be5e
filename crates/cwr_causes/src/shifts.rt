//! Why the cells of a line may stand elsewhere than in their places.

ghost use Rattle.std.specs.Prelude.{◌≡◌, ◌-◌, ◌≤◌, ◌++◌, ◌&&◌, nat_le, length, slice_get, take, drop, option_map, string_bytes, Some, OnOk};
ghost use Rattle.std.specs.List.{list_any};
ghost use Rattle.std.specs.Str.{is_utf8};
ghost use Rattle.cwr_fields.specs.Format.Layouts.{field_with_start, line_width};
ghost use Rattle.cwr_fields.specs.Steps.Views.{field_view};
ghost use Rattle.cwr_causes.specs.Format.Shifts.{are_alphanumeric, bytes_beyond, character_words, field_with_sign, goes_over, has_gap, has_text_after_gap, lost_words};
ghost use Rattle.cwr_causes.specs.Format.Shifts.{several_bytes_words, shift_of, shift_words, shifting_words, sign_between, sign_in, sign_line, sign_of, sign_said};
ghost use Rattle.cwr_causes.specs.Format.Shifts.{sign_words, without_leading};
ghost use Rattle.cwr_causes.specs.Format.Shifts.{ends_blank, is_filled_up, is_moved, lacks_bytes, lost_bytes, is_tab, is_zero_byte, lost_by, moved_of, one_short_line, short_line_if, some_short_line, tab_line, zero_line};
ghost use Rattle.cwr_causes.specs.Steps.Shifts.{found_sign};

use crate::ahead::is_outside;
use crate::expected::letters_of;
use crate::long_lines::add_long;
use crate::texts::add_label;
use crate::truncated_words::kind_of;
use crate::wrapped_lines::{is_cut, is_full, without_cr};
use cwr_fields::{Field, Kind, field, fields, trimmed, width};
use std::alloc::AllocError;
use std::fmt::Write;
use std::str::from_utf8;

/// Whether the bytes are a text in UTF-8.
fn is_utf8(bytes: &[u8]) -> bool
    ensures { result ≡ is_utf8 bytes.now }
{
    from_utf8(bytes).is_ok()
}

/// How many bytes a text in UTF-8 has beyond one for each character. None where it isn't in UTF-8.
fn bytes_beyond(bytes: &[u8]) -> usize
    ensures { result ≡ bytes_beyond bytes.now }
{
    if is_utf8(bytes) {
        bytes.iter().filter(|byte| **byte & 0xc0 == 0x80).count()
    } else {
        0
    }
}

/// Adds that a line has characters of several bytes, which take so many bytes more than one each.
#[tactic(auto, unfolding(crate::specs::Format::Shifts::several_bytes_words))]
fn add_several_bytes(text: &mut String, count: usize) -> Result<(), AllocError>
    ensures { OnOk result (string_bytes text.new ≡ string_bytes text.old ++ several_bytes_words count) }
{
    add_label(text, "note")?;
    write!(
        text,
        "the line has characters of several bytes (UTF-8), which take {count} more than one each"
    )
}

/// Adds what that does to its cells.
fn add_shifting(text: &mut String, is_long: bool) -> Result<(), AllocError>
    ensures { OnOk result (string_bytes text.new ≡ string_bytes text.old ++ shifting_words is_long) }
{
    match is_long {
        true => text.push_str(
            ": what stands behind them is shifted, as where a line is filled up by characters; fill it up by bytes\n",
        ),
        false => text.push_str(
            ": if it was filled up by characters, what stands behind them is shifted\n",
        ),
    }
}

/// Adds both.
#[tactic(auto, unfolding(crate::specs::Format::Shifts::character_words))]
fn add_characters(
    text: &mut String,
    kind: Kind,
    bytes: &[u8],
    count: usize,
) -> Result<(), AllocError>
    ensures { OnOk result (string_bytes text.new ≡ string_bytes text.old
        ++ character_words kind bytes.now count) }
{
    add_several_bytes(text, count)?;
    add_shifting(text, width(kind) < bytes.len())
}

/// The byte at that place, from 0, if there is one.
fn byte_at(bytes: &[u8], at: usize) -> Option<u8>
    ensures { result ≡ slice_get bytes.now at }
{
    bytes.get(at).copied()
}

/// Whether there are two bytes, and both are letters or digits.
fn are_alphanumeric(last: Option<u8>, next: Option<u8>) -> bool
    ensures { result ≡ are_alphanumeric last next }
{
    match (last, next) {
        (Some(last), Some(next)) => last.is_ascii_alphanumeric() && next.is_ascii_alphanumeric(),
        _ => false,
    }
}

/// Whether a letter or a digit of a text stands at both sides of where a field ends.
fn goes_over(bytes: &[u8], end: usize) -> bool
    ensures { result ≡ goes_over bytes.now end }
{
    if end == 0 {
        false
    } else {
        are_alphanumeric(byte_at(bytes, end - 1), byte_at(bytes, end))
    }
}

/// The text without leading spaces.
fn without_leading(text: &[u8]) -> &[u8]
    ensures { result.now ≡ without_leading text.now }
{
    let mut rest = text;
    while let [first, behind @ ..] = rest {
        if *first != b' ' {
            break;
        }
        rest = behind;
    }
    rest
}

/// Whether three spaces stand side by side.
fn has_gap(text: &[u8]) -> bool
    ensures { result ≡ has_gap text.now }
{
    let mut rest = text;
    while let [_, behind @ ..] = rest {
        if rest.starts_with(b"   ") {
            return true;
        }
        rest = behind;
    }
    false
}

/// Whether a cell has text again after a gap of blanks.
fn has_text_after_gap(cell: &[u8]) -> bool
    ensures { result ≡ has_text_after_gap cell.now }
{
    has_gap(trimmed(without_leading(cell)))
}

/// Why blanks may have been lost in a line before a field ends.
#[derive(Clone, Copy, Debug, PartialEq, Eq)]
pub(crate) enum Sign {
    /// Its text goes on over its end.
    GoesOn,
    /// It has text again after blanks.
    Gap,
}

impl Sign {
    /// What is said of the field.
    fn words(self) -> &'static str
        ensures { result.now ≡ sign_said self }
    {
        match self {
            Sign::GoesOn => "goes on over its end",
            Sign::Gap => "has text again after blanks",
        }
    }
}

/// The least width of a field of which text is expected to end within it.
const WIDE: usize = 14;

/// Whether the part of a line between these bytes has text again after a gap of blanks.
fn has_gap_between(bytes: &[u8], start: usize, end: usize) -> bool
    requires { start ≤ end }
    ensures { result ≡ (nat_le end (length bytes.now)
        && has_text_after_gap (take (end - start) (drop start bytes.now))) }
{
    end <= bytes.len() && has_text_after_gap(&bytes[start..end])
}

/// What a field shows of lost blanks, which starts and ends there.
fn sign_between(bytes: &[u8], start: usize, end: usize) -> Option<Sign>
    requires { start ≤ end }
    ensures { result ≡ sign_between bytes.now start end }
{
    if goes_over(bytes, end) {
        Some(Sign::GoesOn)
    } else if has_gap_between(bytes, start, end) {
        Some(Sign::Gap)
    } else {
        None
    }
}

/// The same of one that is so wide.
fn sign_in(bytes: &[u8], start: usize, width: usize) -> Option<Sign>
    ensures { result ≡ sign_in bytes.now start width }
{
    if width < WIDE {
        None
    } else {
        sign_between(bytes, start, start.saturating_add(width))
    }
}

/// A field that shows that blanks were lost.
#[derive(Clone, Copy, Debug)]
struct Found {
    place: Field,
    sign: Sign,
}

/// What field `j` of the kind shows, from 1.
fn sign_of(bytes: &[u8], kind: Kind, j: u8) -> Option<Found>
    ensures { option_map found_sign result ≡ sign_of bytes.now (field_with_start kind j) }
{
    let place = field(kind, j)?;
    match sign_in(bytes, place.start, place.width) {
        Some(sign) => Some(Found { place, sign }),
        None => None,
    }
}

/// The first field before the refused one that shows that blanks were lost. The last field isn't asked.
fn field_with_sign(kind: Kind, refused: u8, bytes: &[u8]) -> Option<Found>
    ensures { option_map found_sign result ≡ field_with_sign kind refused bytes.now }
{
    let last = fields(kind)
        .saturating_sub(1)
        .min(refused.saturating_sub(1));
    for before in 0..last {
        if let Some(found) = sign_of(bytes, kind, before + 1) {
            return Some(found);
        }
    }
    None
}

/// Adds what a field of that name shows, which ends with that byte.
#[tactic(auto, unfolding(crate::specs::Format::Shifts::sign_line))]
fn add_sign_line(
    text: &mut String,
    letters: &str,
    name: &str,
    said: &str,
    last: usize,
) -> Result<(), AllocError>
    ensures { OnOk result (string_bytes text.new ≡ string_bytes text.old
        ++ sign_line letters.now name.now said.now last) }
{
    add_label(text, "note")?;
    writeln!(
        text,
        "{letters} {name} {said} (byte {last}), and the line is short: blanks or letters may have been lost before that"
    )
}

/// Adds what a field shows, if one does.
fn add_sign(text: &mut String, kind: Kind, found: Option<Found>) -> Result<(), AllocError>
    ensures { OnOk result (string_bytes text.new ≡ string_bytes text.old
        ++ sign_words kind (option_map found_sign found)) }
{
    match found {
        Some(Found { place, sign }) => add_sign_line(
            text,
            letters_of(kind),
            place.name,
            sign.words(),
            place.start.saturating_add(place.width),
        ),
        None => Ok(()),
    }
}

/// Whether its last byte is a space.
fn ends_blank(line: &[u8]) -> bool
    ensures { result ≡ ends_blank line.now }
{
    &line[line.len().saturating_sub(1)..] == b" ".as_slice()
}

/// Whether the line before has all bytes of one of its kind, and blanks at its end.
fn is_filled_up(before: Option<&[u8]>) -> bool
    ensures { result ≡ is_filled_up (option_map (λ b. b.now) before.entry) }
{
    match before {
        Some(before) => {
            let line = without_cr(before);
            is_full(kind_of(line), line) && ends_blank(line)
        }
        None => false,
    }
}

/// Whether a short line of the kind isn't just one without the blanks at its end: it stands in a transaction, as others are often written
/// without their last fields, and has such blanks, or lacks two bytes at most.
fn lacks_bytes(kind: Kind, line: &[u8]) -> bool
    ensures { result ≡ lacks_bytes kind line.now }
{
    !is_outside(Some(kind)) && (ends_blank(line) || width(kind).saturating_sub(line.len()) <= 2)
}

/// Whether that is so, and the line before is filled up.
fn lost_bytes(kind: Kind, before: Option<&[u8]>, line: &[u8]) -> bool
    ensures { result ≡ lost_bytes kind (option_map (λ b. b.now) before.entry) line.now }
{
    lacks_bytes(kind, line) && is_filled_up(before)
}

/// Adds that a line has one byte less than one of its kind.
#[tactic(auto, unfolding(crate::specs::Format::Shifts::one_short_line))]
fn add_one_short(text: &mut String) -> Result<(), AllocError>
    ensures { OnOk result (string_bytes text.new ≡ string_bytes text.old ++ one_short_line) }
{
    add_label(text, "note")?;
    text.push_str(
        "this line is 1 byte shorter than one of its kind, and the line before it is filled up: a byte was lost in the first wrong cell or before it, and what stands behind it has moved to the left; put it back, and don't mend the cells behind one by one\n",
    )
}

/// Adds that it has so many bytes less.
#[tactic(auto, unfolding(crate::specs::Format::Shifts::some_short_line))]
fn add_some_short(text: &mut String, count: usize) -> Result<(), AllocError>
    ensures { OnOk result (string_bytes text.new ≡ string_bytes text.old ++ some_short_line count) }
{
    add_label(text, "note")?;
    writeln!(
        text,
        "this line is {count} bytes shorter than one of its kind, and the line before it is filled up: bytes were lost in the first wrong cell or before it, and what stands behind them has moved to the left; put them back, and don't mend the cells behind one by one"
    )
}

/// Adds that it has so many bytes less, where the line before is filled up.
fn add_short_if(text: &mut String, filled_up: bool, count: usize) -> Result<(), AllocError>
    ensures { OnOk result (string_bytes text.new ≡ string_bytes text.old ++ short_line_if filled_up count) }
{
    if !filled_up {
        Ok(())
    } else if count == 1 {
        add_one_short(text)
    } else {
        add_some_short(text, count)
    }
}

/// Adds what a short line of the kind, which is refused at that field, shows: a field of it, or where that field stands whole in it, its
/// length beside the line before.
fn add_lost_by(
    text: &mut String,
    kind: Kind,
    refused: u8,
    found: Option<Found>,
    before: Option<&[u8]>,
    bytes: &[u8],
) -> Result<(), AllocError>
    ensures { OnOk result (string_bytes text.new ≡ string_bytes text.old
        ++ lost_by kind refused (option_map found_sign found) (option_map (λ b. b.now) before.entry) bytes.now) }
{
    match found {
        Some(found) => add_sign(text, kind, Some(found)),
        None => add_short_if(
            text,
            !is_cut(field(kind, refused), bytes) && lost_bytes(kind, before, bytes),
            width(kind).saturating_sub(bytes.len()),
        ),
    }
}

/// Adds that bytes may have been lost in a short line of the kind, which is refused at that field after that line.
fn add_lost(
    text: &mut String,
    kind: Kind,
    refused: u8,
    before: Option<&[u8]>,
    bytes: &[u8],
) -> Result<(), AllocError>
    ensures { OnOk result (string_bytes text.new ≡ string_bytes text.old
        ++ lost_words kind refused (option_map (λ b. b.now) before.entry) bytes.now) }
{
    if width(kind) <= bytes.len() {
        Ok(())
    } else {
        add_lost_by(
            text,
            kind,
            refused,
            field_with_sign(kind, refused, bytes),
            before,
            bytes,
        )
    }
}

/// Whether a byte of zeros stands in the line.
fn has_zero_byte(bytes: &[u8]) -> bool
    ensures { result ≡ list_any is_zero_byte bytes.now }
{
    bytes.iter().any(|byte| *byte == 0)
}

/// Whether a tab stands in the line.
fn has_tab(bytes: &[u8]) -> bool
    ensures { result ≡ list_any is_tab bytes.now }
{
    bytes.iter().any(|byte| *byte == 9)
}

/// Adds that bytes of zeros stand in the line.
#[tactic(auto, unfolding(crate::specs::Format::Shifts::zero_line))]
fn add_zero_bytes(text: &mut String) -> Result<(), AllocError>
    ensures { OnOk result (string_bytes text.new ≡ string_bytes text.old ++ zero_line) }
{
    add_label(text, "note")?;
    text.push_str(
        "bytes of zeros (00) stand in the line: where they stand for blanks, put blanks there; else a block was lost on a disk or on the way: get the file again\n",
    )
}

/// Adds that tabs stand in the line.
#[tactic(auto, unfolding(crate::specs::Format::Shifts::tab_line))]
fn add_tabs(text: &mut String) -> Result<(), AllocError>
    ensures { OnOk result (string_bytes text.new ≡ string_bytes text.old ++ tab_line) }
{
    add_label(text, "note")?;
    text.push_str(
        "tabs (09) stand in the line, where blanks were: each cell has its place; take the file as it was before that\n",
    )
}

/// Adds why the cells of a line of the kind, in which all bytes may be text, may stand elsewhere.
fn add_moved_of(
    text: &mut String,
    kind: Kind,
    refused: u8,
    before: Option<&[u8]>,
    bytes: &[u8],
) -> Result<(), AllocError>
    ensures { OnOk result (string_bytes text.new ≡ string_bytes text.old
        ++ moved_of kind refused (option_map (λ b. b.now) before.entry) bytes.now) }
{
    let beyond = bytes_beyond(bytes);
    if beyond == 0 {
        add_lost(text, kind, refused, before, bytes)?;
        add_long(text, kind, refused, bytes)
    } else {
        add_characters(text, kind, bytes, beyond)
    }
}

/// Adds why the cells of a line of the kind may stand elsewhere.
fn add_shift_of(
    text: &mut String,
    kind: Kind,
    refused: u8,
    before: Option<&[u8]>,
    bytes: &[u8],
) -> Result<(), AllocError>
    ensures { OnOk result (string_bytes text.new ≡ string_bytes text.old
        ++ shift_of kind refused (option_map (λ b. b.now) before.entry) bytes.now) }
{
    if has_zero_byte(bytes) {
        add_zero_bytes(text)
    } else if has_tab(bytes) {
        add_tabs(text)
    } else {
        add_moved_of(text, kind, refused, before, bytes)
    }
}

/// Adds why the cells of a refused line may stand elsewhere than in their places: bytes that are no text, characters of several bytes,
/// bytes that were lost, or bytes too many. `refused` is the number of the field at which it is refused.
pub(crate) fn add_shift(
    text: &mut String,
    kind: Option<Kind>,
    refused: u8,
    before: Option<&[u8]>,
    bytes: &[u8],
) -> Result<(), AllocError>
    ensures { OnOk result (string_bytes text.new ≡ string_bytes text.old
        ++ shift_words kind refused (option_map (λ b. b.now) before.entry) bytes.now) }
{
    match kind {
        Some(kind) => add_shift_of(text, kind, refused, before, bytes),
        None => Ok(()),
    }
}

/// Whether a line of the kind after that one is longer than such lines, but for blanks, or shorter than those around it.
pub(crate) fn is_moved(kind: Option<Kind>, before: Option<&[u8]>, bytes: &[u8]) -> bool
    ensures { result ≡ is_moved kind (option_map (λ b. b.now) before.entry) bytes.now }
{
    match kind {
        Some(kind) => {
            trimmed(bytes).len() > width(kind)
                || (bytes.len() < width(kind) && lost_bytes(kind, before, bytes))
        }
        None => false,
    }
}
