//! What spreadsheets, word processors and web pages leave of a line, and groups that aren't taken.

ghost use Rattle.std.specs.Prelude.{◌≡◌, ◌<◌, ◌==◌, length, option_map, position, IfSome};
ghost use Rattle.std.specs.List.{list_all, list_any};
ghost use Rattle.cwr_causes.specs.Format.Handling.{converted_of, has_hard_space, has_html, has_lost_letter, holds, is_hard_space, is_name, is_name_up_to, is_of_name, is_separated, is_separator, is_societies_group};
ghost use Rattle.cwr_causes.specs.Format.Handling.{begins_exponent, begins_with_letter, has_exponent, is_territory, lacks_party, names_character, names_country};

use cwr_fields::{Kind, is_spaces};

/// Whether the byte separates cells in a table of a spreadsheet.
fn is_separator(byte: u8) -> bool
    ensures { result ≡ is_separator byte }
{
    byte == b'\t' || byte == b',' || byte == b';'
}

/// Whether such a byte stands after the record type.
pub(crate) fn is_separated(line: &[u8]) -> bool
    ensures { result ≡ is_separated line.now }
{
    match line {
        [_, _, _, byte, ..] => is_separator(*byte),
        _ => false,
    }
}

/// Whether the byte is a space that may not be broken.
fn is_hard_space(byte: u8) -> bool
    ensures { result ≡ is_hard_space byte }
{
    byte == 0xa0
}

/// Whether some byte is.
fn have_hard_space(bytes: &[u8]) -> bool
    ensures { result ≡ list_any is_hard_space bytes.now }
{
    bytes.iter().any(|byte| is_hard_space(*byte))
}

/// Whether the cell has such a space.
pub(crate) fn has_hard_space(cell: Option<&[u8]>) -> bool
    ensures { result ≡ has_hard_space (option_map (λ c. c.now) cell.entry) }
{
    match cell {
        Some(cell) => have_hard_space(cell),
        None => false,
    }
}

/// Whether the bytes stand in the line.
fn holds(part: &[u8], line: &[u8]) -> bool
    ensures { result ≡ holds part.now line.now }
{
    let mut rest = line;
    while let [_, behind @ ..] = rest {
        if rest.starts_with(part) {
            return true;
        }
        rest = behind;
    }
    false
}

/// Whether a conversion put its mark in the place of a letter: U+FFFD in UTF-8.
fn has_lost_letter(line: &[u8]) -> bool
    ensures { result ≡ has_lost_letter line.now }
{
    holds(b"\xef\xbf\xbd", line)
}

/// Whether names of characters in HTML have that byte.
fn is_of_name(byte: u8) -> bool
    ensures { result ≡ is_of_name byte }
{
    byte.is_ascii_alphanumeric() || byte == b'#'
}

/// Whether names have all these bytes.
fn are_of_name(text: &[u8]) -> bool
    ensures { result ≡ list_all is_of_name text.now }
{
    text.iter().all(|byte| is_of_name(*byte))
}

/// Whether the text is such a name.
fn is_name(text: &[u8]) -> bool
    ensures { result ≡ is_name text.now }
{
    text.len() >= 2 && text.len() <= 8 && are_of_name(text)
}

/// Whether a text that stands behind an ampersand names a character, up to that semicolon.
fn is_name_up_to(end: Option<usize>, text: &[u8]) -> bool
    requires { IfSome end (λ at. at < length text.now) }
    ensures { result ≡ is_name_up_to end text.now }
{
    match end {
        Some(at) => is_name(&text[..at]),
        None => false,
    }
}

/// The first semicolon, from 0.
fn first_semicolon(text: &[u8]) -> Option<usize>
    ensures value { result ≡ position (λ b. b == 59) text.now }
    ensures within { IfSome result (λ at. at < length text.now) }
{
    text.iter().position(|byte| *byte == b';')
}

/// Whether a text that stands behind an ampersand names a character.
fn names_character(text: &[u8]) -> bool
    ensures { result ≡ names_character text.now }
{
    is_name_up_to(first_semicolon(text), text)
}

/// Whether a character stands in the line as HTML writes it.
fn has_html(line: &[u8]) -> bool
    ensures { result ≡ has_html line.now }
{
    let mut rest = line;
    while let [first, behind @ ..] = rest {
        if *first == b'&' && names_character(behind) {
            return true;
        }
        rest = behind;
    }
    false
}

/// Whether a text begins with a digit and E+, as spreadsheets write large numbers.
fn begins_exponent(text: &[u8]) -> bool
    ensures { result ≡ begins_exponent text.now }
{
    match text {
        [first, behind @ ..] => first.is_ascii_digit() && behind.starts_with(b"E+"),
        [] => false,
    }
}

/// Whether such a number stands in the line.
fn has_exponent(line: &[u8]) -> bool
    ensures { result ≡ has_exponent line.now }
{
    let mut rest = line;
    while let [_, behind @ ..] = rest {
        if begins_exponent(rest) {
            return true;
        }
        rest = behind;
    }
    false
}

/// What to say of a conversion or a spreadsheet that shows in the line.
pub(crate) fn converted_words(line: &[u8]) -> Option<&'static str>
    ensures { option_map (λ words. words.now) result ≡ converted_of line.now }
{
    if has_lost_letter(line) {
        Some(
            "EF BF BD stands where a conversion lost a letter: take the file as it was before that",
        )
    } else if has_html(line) {
        Some(
            "the line has HTML, as &amp; for &: write the character itself in each line that has it, also where no fault is told",
        )
    } else if has_exponent(line) {
        Some(
            "a spreadsheet wrote a large number of the line so: 7.77E+09; its digits are lost: take the file as it was before that",
        )
    } else {
        None
    }
}

/// Whether the field is that of the number of one whom the submitter controls, and the cell is blank.
pub(crate) fn lacks_party(kind: Option<Kind>, field: u8, cell: Option<&[u8]>) -> bool
    ensures { result ≡ lacks_party kind field (option_map (λ c. c.now) cell.entry) }
{
    match (kind, cell) {
        (Some(Kind::Spu), Some(cell)) => field == 5 && is_spaces(cell),
        (Some(Kind::Swr), Some(cell)) => field == 4 && is_spaces(cell),
        _ => false,
    }
}

/// Whether the field is that of a territory.
fn is_territory(kind: Option<Kind>, field: u8) -> bool
    ensures { result ≡ is_territory kind field }
{
    match kind {
        Some(Kind::Spt) => field == 10,
        Some(Kind::Swt) => field == 9,
        Some(Kind::Ter) => field == 5,
        _ => false,
    }
}

/// Whether a cell begins with a letter.
fn begins_with_letter(cell: Option<&[u8]>) -> bool
    ensures { result ≡ begins_with_letter (option_map (λ c. c.now) cell.entry) }
{
    match cell {
        Some([first, ..]) => first.is_ascii_alphabetic(),
        _ => false,
    }
}

/// Whether the cell of a territory names a country by letters.
pub(crate) fn names_country(kind: Option<Kind>, field: u8, cell: Option<&[u8]>) -> bool
    ensures { result ≡ names_country kind field (option_map (λ c. c.now) cell.entry) }
{
    is_territory(kind, field) && begins_with_letter(cell)
}

/// Whether a line of that kind, with that cell, begins a group of transactions that societies send.
pub(crate) fn is_societies_group(kind: Option<Kind>, cell: Option<&[u8]>) -> bool
    ensures { result ≡ is_societies_group kind (option_map (λ c. c.now) cell.entry) }
{
    match (kind, cell) {
        (Some(Kind::Grh), Some(cell)) => cell == b"ISW".as_slice() || cell == b"EXC".as_slice(),
        _ => false,
    }
}
