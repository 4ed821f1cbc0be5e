//! Names of files, as lines and shells take them.

ghost use Rattle.std.specs.Prelude.{◌≡◌, IfOk, string_bytes};
ghost use Rattle.cwr_files.specs.Format.Inputs.{shown_char, shown_name, shown_text};

use crate::faults::STANDARD_INPUT;
use crate::inputs::DASH;
use std::alloc::{AllocError, Global};
use std::fmt;
use std::fmt::{Display, Formatter};

/// A character as a line shows it: `?` for one that would break the line or change the terminal.
fn shown_char(c: char) -> char
    ensures { result ≡ shown_char c }
{
    if c.is_control() { '?' } else { c }
}

/// A text as a line shows it, with `?` for each control character.
fn shown_text(alloc: Global, text: &str) -> Result<String, AllocError>
    ensures { IfOk result (λ shown. string_bytes shown ≡ shown_text text.now) }
{
    text.chars().map(|c| shown_char(c)).collect(alloc)
}

/// What the input that a word names is called in data.
pub fn input_name(word: &str) -> &str {
    if word == DASH { STANDARD_INPUT } else { word }
}

/// What the input that a word names is called in lines.
pub fn shown_name(alloc: Global, word: &str) -> Result<String, AllocError>
    ensures { IfOk result (λ shown. string_bytes shown ≡ shown_name word.now) }
{
    if word == DASH {
        STANDARD_INPUT.to_string(alloc)
    } else {
        shown_text(alloc, word)
    }
}

/// A name in a message, with `?` for each control character.
#[derive(Clone, Copy, Debug)]
pub struct Shown<'a>(pub &'a str);

impl Display for Shown<'_> {
    fn fmt<W: fmt::Write>(&self, f: &mut Formatter<W>) -> fmt::Result {
        for c in self.0.chars() {
            f.write_char(shown_char(c))?;
        }
        Ok(())
    }
}

/// The name of a file as a word of a command that is shown: a shell takes it for that name.
#[derive(Clone, Copy, Debug)]
pub struct ShellWord<'a>(pub &'a str);

/// Whether a shell takes the character as it is, wherever it stands in a word.
fn is_plain(c: char) -> bool {
    c.is_ascii_alphanumeric()
        || matches!(c, '_' | '-' | '.' | ',' | '/' | ':' | '+' | '@' | '%')
        || (!c.is_ascii() && !c.is_control())
}

/// Puts a character between the quotes that take escapes.
fn put_escaped<W: fmt::Write>(c: char, f: &mut Formatter<W>) -> fmt::Result {
    match c {
        '\'' => f.write_str("\\'"),
        '\\' => f.write_str("\\\\"),
        c if c.is_control() => {
            for byte in c.encode_utf8(&mut [0; 4]).bytes() {
                write!(f, "\\{byte:03o}")?;
            }
            Ok(())
        }
        c => f.write_char(c),
    }
}

/// Puts a name between quotes.
fn put_quoted<W: fmt::Write>(name: &str, f: &mut Formatter<W>) -> fmt::Result {
    f.write_str("'")?;
    for c in name.chars() {
        if c == '\'' {
            f.write_str("'\\''")?;
        } else {
            f.write_char(c)?;
        }
    }
    f.write_str("'")
}

impl Display for ShellWord<'_> {
    fn fmt<W: fmt::Write>(&self, f: &mut Formatter<W>) -> fmt::Result {
        let name = self.0;
        if name.starts_with('-') {
            // Without this it were an option.
            f.write_str("./")?;
        }
        if name.chars().any(|c| c.is_control()) {
            f.write_str("$'")?;
            for c in name.chars() {
                put_escaped(c, f)?;
            }
            return f.write_str("'");
        }
        if !name.is_empty() && name.chars().all(|c| is_plain(c)) {
            f.write_str(name)
        } else {
            put_quoted(name, f)
        }
    }
}
