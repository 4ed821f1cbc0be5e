//! Lines as they are written: a record's cells and its numbers in full width, and the line end.

ghost use Rattle.std.specs.Prelude.{◌≡◌, ◌+◌, ◌≤◌, ◌++◌, ◌∷◌, [], length, replicate, slice_index, take};
ghost use Rattle.cwr_fields.specs.Format.Bytes.{digits};
ghost use Rattle.cwr_fields.specs.Format.Layouts.{line_width};
ghost use Rattle.cwr_lines.specs.Format.Records.{full_line, row_of};
ghost use Rattle.cwr_lines.specs.Steps.Numbered.{numbered_part, with_part};

use crate::records::{RecordRef, WIDEST_LINE};
use cwr_fields::{Kind, letters};
use std::marker::Model;

/// The most bytes of a canonical line: those of the widest line, and CR and LF.
const LONGEST: usize = WIDEST_LINE + 2;

/// Writes the number's last decimal digits, as many as the cell is wide, into a cell of zeros.
#[inline(always)]
fn write_digits(cell: &mut [u8], number: u64)
    requires { cell.old ≡ replicate (length cell.old) 48 }
    ensures { cell.new ≡ digits (length cell.old) number }
{
    let mut rest = number;
    let mut at = cell.len();
    while at > 0 && rest > 0 {
        at -= 1;
        cell[at] = b'0' + (rest % 10) as u8;
        rest /= 10;
    }
}

/// Sets the number's last decimal digits, so many, with leading zeros, in a line from byte `start` on.
#[inline(always)]
fn set_digits<const WIDTH: usize>(line: &mut [u8], start: usize, number: u64)
    requires { start + WIDTH ≤ length line.old }
    ensures { line.new ≡ with_part start (digits WIDTH number) line.old }
{
    let mut cell = [b'0'; WIDTH];
    write_digits(&mut cell, number);
    line[start..start + WIDTH].copy_from_slice(&cell);
}

/// Number `i` of those given, and 0 where there is none.
#[inline(always)]
fn number(numbers: &[u64], i: usize) -> u64
    ensures { result ≡ slice_index numbers.now i }
{
    numbers.get(i).copied().unwrap_or(0)
}

/// Sets the numbers in a whole line of the kind, each in its cell.
#[inline(always)]
pub(crate) fn set_numbers(line: &mut [u8], kind: Kind, numbers: &[u64])
    requires { length line.old ≡ line_width kind }
    ensures { line.new ≡ take 3 line.old ++ numbered_part kind numbers.now line.old }
{
    match kind {
        Kind::Hdr => {}
        Kind::Grh => set_digits::<5>(line, 6, number(numbers, 0)),
        Kind::Grt | Kind::Trl => {
            set_digits::<5>(line, 3, number(numbers, 0));
            set_digits::<8>(line, 8, number(numbers, 1));
            set_digits::<8>(line, 16, number(numbers, 2));
        }
        _ => {
            set_digits::<8>(line, 3, number(numbers, 0));
            set_digits::<8>(line, 11, number(numbers, 1));
        }
    }
}

/// A buffer for one line of canonical text. It takes no memory.
#[derive(Drop)]
pub struct CanonicalLine {
    text: [u8; LONGEST],
    len: usize,
}

impl Model for CanonicalLine {
    ghost use Rattle.std.specs.Prelude.{ℕ, ◌≤◌, List, take};
    ghost use Rattle.cwr_lines.specs.declared.canonical_lines.TheConstants.{LONGEST};

    ghost Value = { List ℕ };

    ghost view = { λ l. take l.len l.text };

    ghost invariant = { λ l. l.len ≤ LONGEST };
}

impl CanonicalLine {
    /// An empty buffer.
    pub fn new() -> Self
        ensures { result ≡ [] }
    {
        CanonicalLine {
            text: [b' '; LONGEST],
            len: 0,
        }
    }

    /// The line that was set, with its line end.
    pub fn as_slice(&self) -> &[u8]
        ensures { result.now ≡ self.now }
    {
        &self.text[..self.len]
    }

    /// Sets the line of a record: its cells in full width, in the place of its derived cells the numbers, in their
    /// order and with leading zeros, and then CR and LF. A number that isn't given is 0, and of one that is too large
    /// for its cell the last digits are set.
    pub fn set(&mut self, shown: &RecordRef<'_>, numbers: &[u64])
        ensures { self.new ≡ full_line (row_of numbers.now shown.now) ++ 13 ∷ 10 ∷ [] }
    {
        let kind = shown.kind();
        let line = shown.whole_line();
        let end = line.len();
        self.text[..end].copy_from_slice(line);
        set_numbers(&mut self.text[..end], kind, numbers);
        self.text[..3].copy_from_slice(letters(kind));
        self.text[end..end + 2].copy_from_slice(b"\r\n");
        self.len = end + 2;
    }
}
