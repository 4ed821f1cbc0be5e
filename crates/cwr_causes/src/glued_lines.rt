//! Lines of which the end between them was lost.

ghost use Rattle.std.specs.Prelude.{◌≡◌, ◌++◌, option_map, string_bytes, OnOk};
ghost use Rattle.cwr_causes.specs.Format.GluedLines.{has_digits, begins_record, first_record, glued_after, glued_by, glued_file, glued_line, head_in, hidden_after, hidden_line, hidden_text};

use crate::expected::letters_of;
use crate::long_lines::{are_digits, part};
use crate::openings::opening_of;
use crate::texts::add_label;
use crate::truncated_words::kind_of;
use crate::versions::from_byte;
use cwr_fields::Kind;
use std::alloc::AllocError;
use std::fmt::Write;

/// Whether the text has so many digits from that place on.
fn has_digits(text: &[u8], from: usize, count: usize) -> bool
    ensures { result ≡ has_digits text.now from count }
{
    let digits = part(text, from, count);
    digits.len() == count && are_digits(digits)
}

/// Whether a text begins as a record does: with its letters and two sequences or counts, as GRH with its type and ID, or as HDR with the
/// sender's type and ID.
fn begins_record(text: &[u8]) -> bool
    ensures { result ≡ begins_record text.now }
{
    (kind_of(text).is_some() && has_digits(text, 3, 16))
        || (text.starts_with(b"GRH") && has_digits(text, 6, 5))
        || (text.starts_with(b"HDR") && has_digits(text, 5, 9))
}

/// What a text has from the first place on at which such a line begins.
pub(crate) fn first_record(text: &[u8]) -> Option<&[u8]>
    ensures { option_map (λ found. found.now) result ≡ first_record text.now }
{
    let mut rest = text;
    while let [_, behind @ ..] = rest {
        if begins_record(rest) {
            return Some(rest);
        }
        rest = behind;
    }
    None
}

/// The text, where it begins as a file or a group does.
pub(crate) fn head_in(text: &[u8]) -> Option<&[u8]>
    ensures { option_map (λ found. found.now) result ≡ head_in text.now }
{
    if text.starts_with(b"HDR") || text.starts_with(b"GRH") {
        Some(text)
    } else {
        None
    }
}

/// Adds that a line with those letters begins at that byte of a line, and of the file, from 1.
#[tactic(auto, unfolding(crate::specs::Format::GluedLines::glued_line))]
fn add_glued_line(
    text: &mut String,
    letters: &str,
    first: u64,
    of_file: u64,
) -> Result<(), AllocError>
    ensures { OnOk result (string_bytes text.new ≡ string_bytes text.old ++ glued_line letters.now first of_file) }
{
    add_label(text, "note")?;
    writeln!(
        text,
        "another line, {letters}, begins at byte {first} of this one, byte {of_file} of the file: the line end between them is missing"
    )
}

/// Adds that a file does.
#[tactic(auto, unfolding(crate::specs::Format::GluedLines::glued_file))]
fn add_glued_file(text: &mut String, first: u64, of_file: u64) -> Result<(), AllocError>
    ensures { OnOk result (string_bytes text.new ≡ string_bytes text.old ++ glued_file first of_file) }
{
    add_label(text, "note")?;
    writeln!(
        text,
        "another file begins at byte {first} of this line, byte {of_file} of the file: cut them apart before it, and put them together by cwr join -o OUT --new A B"
    )
}

/// Adds which line, of that kind, begins there.
fn add_glued_at(
    text: &mut String,
    kind: Option<Kind>,
    first: u64,
    of_file: u64,
) -> Result<(), AllocError>
    ensures { OnOk result (string_bytes text.new ≡ string_bytes text.old ++ glued_by kind first of_file) }
{
    match kind {
        None => Ok(()),
        Some(Kind::Hdr) => add_glued_file(text, first, of_file),
        Some(kind) => add_glued_line(text, letters_of(kind), first, of_file),
    }
}

/// Adds which line, of that kind, begins after so many bytes of a line, before which so many stand in the file.
pub(crate) fn add_glued(
    text: &mut String,
    kind: Option<Kind>,
    at: u64,
    offset: u64,
) -> Result<(), AllocError>
    ensures { OnOk result (string_bytes text.new ≡ string_bytes text.old ++ glued_after kind at offset) }
{
    let first = at.saturating_add(1);
    add_glued_at(text, kind, first, offset.saturating_add(first))
}

/// Adds that a line with those letters begins at that byte of one that names no record, from 1.
#[tactic(auto, unfolding(crate::specs::Format::GluedLines::hidden_line))]
fn add_hidden_line(text: &mut String, letters: &str, first: u64) -> Result<(), AllocError>
    ensures { OnOk result (string_bytes text.new ≡ string_bytes text.old ++ hidden_line letters.now first) }
{
    add_label(text, "note")?;
    writeln!(
        text,
        "{letters} begins at byte {first} of this line: what stands before that is no part of it; remove just that"
    )
}

/// Adds that a line of that kind begins after so many bytes of one that names no record.
pub(crate) fn add_hidden(text: &mut String, kind: Option<Kind>, at: u64) -> Result<(), AllocError>
    ensures { OnOk result (string_bytes text.new ≡ string_bytes text.old ++ hidden_after kind at) }
{
    match kind {
        None => Ok(()),
        Some(kind) => add_hidden_line(text, letters_of(kind), at.saturating_add(1)),
    }
}

/// What a line that names no record, and looks like nothing else, has from there on where a record begins in it.
pub(crate) fn hidden(line: &[u8]) -> Option<&[u8]>
    ensures { option_map (λ found. found.now) result ≡ hidden_text line.now }
{
    if opening_of(line).is_other() {
        first_record(from_byte(line, 1))
    } else {
        None
    }
}
