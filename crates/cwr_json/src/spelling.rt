//! The characters that the bytes of a cell are shown as, and how these stand in JSON, between quotes.

ghost use Rattle.std.specs.Prelude.{◌≡◌, ◌<◌, ◌≤◌, [], ◌∷◌, length, IsTrue};
ghost use Rattle.std.specs.Str.{is_utf8};
ghost use Rattle.json.specs.Print.{escape, escape_byte};
ghost use Rattle.cwr_devices.specs.Steps.Pens.{Adds};
ghost use Rattle.cwr_json.specs.Steps.FormTexts.{IsSimple, spelled_byte, spelled_bytes};
ghost use Rattle.cwr_json.specs.Format.Encodings.{are_shown_as_is, begins_escape, byte_by_byte, character, characters, has_escape, high_character};

use crate::encodings::Encoding;
use cwr_devices::{Pen, Target};
use std::str::from_utf8;

/// Whether an escape begins with the two bytes.
#[inline(always)]
fn begins_escape(first: u8, second: u8) -> bool
    ensures { result ≡ begins_escape first (second ∷ []) }
{
    (first == 239) & ((second == 158) | (second == 159))
}

/// Whether a text in UTF-8 has an escape, U+F780 to U+F7FF.
pub fn has_escape(text: &[u8]) -> bool
    ensures { result ≡ has_escape text.now }
{
    for i in 1..text.len() {
        if begins_escape(text[i - 1], text[i]) {
            return true;
        }
    }
    false
}

/// Whether bytes are a text in UTF-8.
fn is_utf8(bytes: &[u8]) -> bool
    ensures { result ≡ is_utf8 bytes.now }
{
    from_utf8(bytes).is_ok()
}

/// Whether bytes are shown as they stand.
pub fn are_shown_as_is(encoding: Encoding, cell: &[u8]) -> bool
    ensures { result ≡ are_shown_as_is encoding cell.now }
{
    match encoding {
        Encoding::Latin1 => false,
        Encoding::Utf8 => is_utf8(cell) && !has_escape(cell),
    }
}

/// Whether each byte is the character of its number, whatever the encoding.
#[inline(always)]
fn is_ascii(cell: &[u8]) -> bool
    ensures { IsTrue result → (encoding : Encoding) → characters encoding cell.now ≡ cell.now }
{
    let mut ascii = true;
    for b in cell {
        ascii &= *b < 128;
    }
    ascii
}

/// Adds the character of a byte from 128 on.
#[inline(always)]
fn high_character<W: Target>(encoding: Encoding, b: u8, pen: &mut Pen<'_, W>)
    requires { 128 ≤ b }
    ensures { Adds W.contents W.failures (high_character encoding b) pen.old pen.new }
{
    match encoding {
        Encoding::Latin1 => pen.text(&[192 + b / 64, 128 + b % 64]),
        Encoding::Utf8 if b < 192 => pen.text(&[239, 158, b]),
        Encoding::Utf8 => pen.text(&[239, 159, b - 64]),
    }
}

/// Adds the one character of a byte.
#[inline(always)]
pub fn character<W: Target>(encoding: Encoding, b: u8, pen: &mut Pen<'_, W>)
    ensures { Adds W.contents W.failures (character encoding b) pen.old pen.new }
{
    if b < 128 {
        pen.text(&[b]);
    } else {
        high_character(encoding, b, pen);
    }
}

/// Adds each byte as a character of its own.
fn byte_by_byte<W: Target>(encoding: Encoding, cell: &[u8], pen: &mut Pen<'_, W>)
    ensures { Adds W.contents W.failures (byte_by_byte encoding cell.now) pen.old pen.new }
{
    for b in cell {
        character(encoding, *b, pen);
    }
}

/// Adds the characters that the bytes of a cell are shown as, in UTF-8.
#[inline(always)]
pub fn characters<W: Target>(encoding: Encoding, cell: &[u8], pen: &mut Pen<'_, W>)
    ensures { Adds W.contents W.failures (characters encoding cell.now) pen.old pen.new }
{
    if is_ascii(cell) || are_shown_as_is(encoding, cell) {
        pen.text(cell);
    } else {
        byte_by_byte(encoding, cell, pen);
    }
}

/// What stands between quotes for a byte below 32.
#[tactic(auto, unfolding(json::specs::Print::escape_byte))]
pub(crate) fn low_escape(b: u8) -> &'static [u8]
    ensures value { b < 32 → result.now ≡ escape_byte b }
    ensures len { length result.now ≤ 6 }
{
    match b {
        0 => b"\\u0000",
        1 => b"\\u0001",
        2 => b"\\u0002",
        3 => b"\\u0003",
        4 => b"\\u0004",
        5 => b"\\u0005",
        6 => b"\\u0006",
        7 => b"\\u0007",
        8 => b"\\b",
        9 => b"\\t",
        10 => b"\\n",
        11 => b"\\u000b",
        12 => b"\\f",
        13 => b"\\r",
        14 => b"\\u000e",
        15 => b"\\u000f",
        16 => b"\\u0010",
        17 => b"\\u0011",
        18 => b"\\u0012",
        19 => b"\\u0013",
        20 => b"\\u0014",
        21 => b"\\u0015",
        22 => b"\\u0016",
        23 => b"\\u0017",
        24 => b"\\u0018",
        25 => b"\\u0019",
        26 => b"\\u001a",
        27 => b"\\u001b",
        28 => b"\\u001c",
        29 => b"\\u001d",
        30 => b"\\u001e",
        31 => b"\\u001f",
        _ => b"",
    }
}

/// Whether a byte stands for itself, whatever the encoding.
#[inline(always)]
fn is_simple_byte(b: u8) -> bool
    ensures { IsTrue result → IsSimple (b ∷ []) }
{
    (b >= 32) & (b < 128) & (b != b'"') & (b != b'\\')
}

/// Whether every byte stands for itself.
#[inline(always)]
fn is_simple(cell: &[u8]) -> bool
    ensures { IsTrue result → IsSimple cell.now }
{
    let mut simple = true;
    for b in cell {
        simple &= is_simple_byte(*b);
    }
    simple
}

/// Adds a byte as it stands between quotes.
#[inline(always)]
fn escape_byte<W: Target>(b: u8, pen: &mut Pen<'_, W>)
    ensures { Adds W.contents W.failures (escape_byte b) pen.old pen.new }
{
    if b < 32 {
        pen.text(low_escape(b));
    } else if b == b'"' || b == b'\\' {
        pen.text(&[b'\\', b]);
    } else {
        pen.text(&[b]);
    }
}

/// Adds bytes that are characters as they stand, between quotes.
fn escape<W: Target>(cell: &[u8], pen: &mut Pen<'_, W>)
    ensures { Adds W.contents W.failures (escape cell.now) pen.old pen.new }
{
    for b in cell {
        escape_byte(*b, pen);
    }
}

/// Adds the one character of a byte as it stands between quotes.
#[inline(always)]
fn spelled_byte<W: Target>(encoding: Encoding, b: u8, pen: &mut Pen<'_, W>)
    ensures { Adds W.contents W.failures (spelled_byte encoding b) pen.old pen.new }
{
    if b < 128 {
        escape_byte(b, pen);
    } else {
        high_character(encoding, b, pen);
    }
}

/// Adds each byte as a character of its own, between quotes.
fn spelled_bytes<W: Target>(encoding: Encoding, cell: &[u8], pen: &mut Pen<'_, W>)
    ensures { Adds W.contents W.failures (spelled_bytes encoding cell.now) pen.old pen.new }
{
    for b in cell {
        spelled_byte(encoding, *b, pen);
    }
}

/// Adds the characters that the bytes of a cell are shown as, as they stand between the quotes of JSON. The bytes may be any.
#[inline(always)]
pub fn escaped_characters<W: Target>(encoding: Encoding, cell: &[u8], pen: &mut Pen<'_, W>)
    ensures { Adds W.contents W.failures (escape (characters encoding cell.now)) pen.old pen.new }
{
    if is_simple(cell) {
        pen.text(cell);
    } else if are_shown_as_is(encoding, cell) {
        escape(cell, pen);
    } else {
        spelled_bytes(encoding, cell, pen);
    }
}
