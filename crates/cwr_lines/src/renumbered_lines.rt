//! Lines with other numbers in the place of their own.

ghost use Rattle.std.specs.Prelude.{◌≡◌, ◌≤◌, [], ◌∷◌, length, IfSome};
ghost use Rattle.cwr_fields.specs.Format.Layouts.{line_width};
ghost use Rattle.cwr_lines.specs.Steps.Held.{held_kind};
ghost use Rattle.cwr_lines.specs.Steps.Numbered.{line_end, numbered_as, renumbered, set_text};

use crate::canonical_lines::set_numbers;
use crate::lines::{CutLine, LONGEST_LINE};
use cwr_fields::{Kind, width};
use std::marker::Model;

/// Sets the numbers in a line that is filled up to the width of its kind, each in its cell. What stands after the last field
/// stays. A line of unknown kind has no numbers.
fn set_all(line: &mut [u8], kind: Option<Kind>, numbers: &[u64])
    requires { IfSome kind (λ kind. line_width kind ≤ length line.old) }
    ensures { line.new ≡ numbered_as kind numbers.now line.old }
{
    if let Some(kind) = kind {
        set_numbers(&mut line[..width(kind)], kind, numbers);
    }
}

/// The most bytes: those of the longest line, and its line end.
const LONGEST: usize = LONGEST_LINE + 2;

/// What stands behind a line that is filled up: its line end, or where it is too long more bytes.
fn line_end(is_too_long: bool) -> (u8, u8)
    ensures { result.0 ∷ result.1 ∷ [] ≡ line_end is_too_long }
{
    if is_too_long {
        (b'+', b'+')
    } else {
        (b'\r', b'\n')
    }
}

/// What is set of a line: its cells, and where its excess is bad that too.
fn set_text<'a>(line: &CutLine<'a>) -> &'a [u8]
    ensures value { result.now ≡ set_text line.now }
    ensures short { length result.now ≤ LONGEST_LINE }
    ensures wide { IfSome (held_kind line.now) (λ kind. line_width kind ≤ length result.now) }
{
    let filled = line.filled();
    match line.kind() {
        Some(kind) if !line.excess() => &filled[..width(kind)],
        _ => filled,
    }
}

/// A buffer for one line in which other numbers were set. It takes no memory.
#[derive(Drop)]
pub struct RenumberedLine {
    text: [u8; LONGEST],
    len: usize,
}

impl Model for RenumberedLine {
    ghost use Rattle.std.specs.Prelude.{ℕ, ◌≤◌, List, take};
    ghost use Rattle.cwr_lines.specs.declared.renumbered_lines.TheConstants.{LONGEST};

    ghost Value = { List ℕ };

    ghost view = { λ l. take l.len l.text };

    ghost invariant = { λ l. l.len ≤ LONGEST };
}

impl RenumberedLine {
    /// An empty buffer.
    pub fn new() -> Self
        ensures { result ≡ [] }
    {
        RenumberedLine {
            text: [b' '; LONGEST],
            len: 0,
        }
    }

    /// The line that was set.
    pub fn as_slice(&self) -> &[u8]
        ensures { result.now ≡ self.now }
    {
        &self.text[..self.len]
    }

    /// Sets the cells of a line in full width, with the numbers in its derived cells, in their order and with leading zeros, and
    /// then CR and LF. A number that isn't given is 0, and of one that is too large for its cell the last digits are set. A
    /// line of unknown kind has no numbers. Bad excess stays; of a line that is too long these are the first 1,024 bytes,
    /// and in the place of CR and LF two bytes more.
    pub fn set(&mut self, line: &CutLine<'_>, numbers: &[u64])
        ensures { self.new ≡ renumbered numbers.now line.now }
    {
        let cells = set_text(line);
        let end = cells.len();
        self.text[..end].copy_from_slice(cells);
        set_all(&mut self.text[..end], line.kind(), numbers);
        let (first, second) = line_end(line.is_too_long());
        self.text[end] = first;
        self.text[end + 1] = second;
        self.len = end + 2;
    }
}
