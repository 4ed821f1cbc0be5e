//! What the header of a transmission says of its characters, texts that don't go with that, and what conversions leave in texts.

ghost use Rattle.std.specs.Prelude.{◌≡◌};
ghost use Rattle.cwr_advice.specs.Format.Characters.{begins_with_name, characters_in, has_html, has_lost_letter, is_ampersand, is_ascii, is_unlike, names_utf8};
ghost use Rattle.std.specs.List.{list_any};
ghost use Rattle.std.specs.Str.{is_utf8};

use cwr_fields::{is_spaces, trimmed};
use memchr::memchr;

/// What the header of a transmission says of its characters.
#[derive(Clone, Copy, Debug, PartialEq, Eq)]
pub enum Characters {
    /// Nothing: each byte is a character.
    Unsaid,
    /// They are in UTF-8.
    Utf8,
    /// They are of another set.
    Other,
}

/// Whether the cell names UTF-8.
fn names_utf8(cell: &[u8]) -> bool
    ensures { result ≡ names_utf8 cell.now }
{
    let name = trimmed(cell);
    name.eq_ignore_ascii_case(b"UTF-8") || name.eq_ignore_ascii_case(b"UTF8")
}

impl Characters {
    /// What the header's character set says.
    pub fn in_cell(cell: &[u8]) -> Characters
        ensures { result ≡ characters_in cell.now }
    {
        if names_utf8(cell) {
            return Characters::Utf8;
        }
        if is_spaces(cell) {
            Characters::Unsaid
        } else {
            Characters::Other
        }
    }
}

/// Whether every byte is one of ASCII.
#[inline(always)]
pub(crate) fn is_ascii(cell: &[u8]) -> bool
    ensures { result ≡ is_ascii cell.now }
{
    cell.is_ascii()
}

/// Whether the bytes are UTF-8.
fn is_utf8(cell: &[u8]) -> bool
    ensures { result ≡ is_utf8 cell.now }
{
    std::str::from_utf8(cell).is_ok()
}

/// Whether the text doesn't go with what is said.
pub(crate) fn is_unlike(said: Characters, cell: &[u8]) -> bool
    ensures { result ≡ is_unlike said cell.now }
{
    match said {
        Characters::Unsaid => !is_ascii(cell) && is_utf8(cell),
        Characters::Utf8 => !is_utf8(cell),
        Characters::Other => false,
    }
}

/// Whether U+FFFD stands in the text, in UTF-8.
pub(crate) fn has_lost_letter(cell: &[u8]) -> bool
    ensures { result ≡ has_lost_letter cell.now }
{
    let mut rest = cell;
    while let Some((byte, after)) = rest.split_first() {
        if *byte == 0xEF && after.starts_with(b"\xBF\xBD") {
            return true;
        }
        rest = after;
    }
    false
}

/// Whether the text behind `&` begins with the name or the number by which HTML writes a character.
fn begins_with_name(text: &[u8]) -> bool
    ensures { result ≡ begins_with_name text.now }
{
    text.starts_with(b"amp;")
        || text.starts_with(b"lt;")
        || text.starts_with(b"gt;")
        || text.starts_with(b"quot;")
        || text.starts_with(b"#39;")
}

/// Whether the text has an ampersand.
fn has_ampersand(cell: &[u8]) -> bool
    ensures { result ≡ list_any is_ampersand cell.now }
{
    memchr(b'&', cell).is_some()
}

/// Whether a character stands in the text as HTML writes it. Few texts have an ampersand.
pub(crate) fn has_html(cell: &[u8]) -> bool
    ensures { result ≡ has_html cell.now }
{
    if !has_ampersand(cell) {
        return false;
    }
    let mut rest = cell;
    while let Some((byte, after)) = rest.split_first() {
        if *byte == b'&' && begins_with_name(after) {
            return true;
        }
        rest = after;
    }
    false
}
