//! Parts of a split that have a moment of their own.

ghost use Rattle.std.specs.Prelude.{◌≡◌, ◌≤◌, ◌-◌, ◌^◌, ◌++◌, ℕ, List, [], true, length, min, take};
ghost use Rattle.cwr_files.specs.Format.Stamps.{created_by, stamped};

use crate::outputs::Written;
use crate::taken_texts::{Piece, TakenText};
use std::io;
use std::io::Write;

/// Where HDR's creation date begins in its line, and where its creation time ends.
const BEGIN: u64 = 64;

const END: u64 = 78;

/// A file to which a transmission is written in full width, as one that was created at a moment of its own.
#[derive(Drop)]
pub struct Stamped<F> {
    file: F,
    /// The cells of the moment, if there is one.
    cells: Option<[u8; 14]>,
    /// How many bytes were written.
    at: u64,
    /// What was written, without the cells.
    given: TakenText,
    ghost counted: { at ≡ min (length given.text) (2 ^ 64 - 1) },
}

impl<F> Stamped<F> {
    ghost use Rattle.cwr_files.specs.Format.Written.{cells_of, stamped_file};

    /// Nothing was written. Without cells the transmission keeps its own.
    pub(crate) fn new(file: F, cells: Option<[u8; 14]>) -> Stamped<F>
        ensures file { stamped_file result ≡ file }
        ensures cells { cells_of result ≡ cells }
        ensures given { result.given.text ≡ [] }
    {
        Stamped {
            file,
            cells,
            at: 0,
            given: TakenText::new(),
        }
    }
}

/// The first of the bytes that are written after so many: up to the cells of the moment, of these, or after them.
fn next_piece<'t>(cells: &'t [u8; 14], at: u64, text: &'t [u8]) -> &'t [u8]
    ensures within { length result.now ≤ length text.now }
    ensures piece { stamped cells.now at text.now result.now }
    ensures wide { length cells.now ≡ 14 }
{
    if at >= END {
        return text;
    }
    if at < BEGIN {
        let room = (BEGIN - at) as usize;
        return &text[..text.len().min(room)];
    }
    let from = (at - BEGIN) as usize;
    &cells[from..from + text.len().min(14 - from)]
}

/// The first of the bytes that are written in the place of a text, after so many, where these cells stand in it, if there are any.
fn piece_with<'t>(cells: &'t Option<[u8; 14]>, at: u64, text: &'t [u8]) -> &'t [u8]
    ensures within { length result.now ≤ length text.now }
    // What was given before grows by these bytes, with its cells, as it does by those of the text without them.
    ensures piece { (given : List ℕ) (n : ℕ) → at ≡ min (length given) (2 ^ 64 - 1) → n ≤ length result.now
        → created_by cells.now (given ++ take n text.now) ≡ created_by cells.now given ++ take n result.now }
{
    match cells {
        Some(cells) => next_piece(cells, at, text),
        None => text,
    }
}

/// Whether both are the same cells, or both are none.
pub(crate) fn are_same(one: Option<[u8; 14]>, other: Option<[u8; 14]>) -> bool
    ensures { result ≡ true → one ≡ other }
{
    match (one, other) {
        (Some(one), Some(other)) => one == other,
        (None, None) => true,
        _ => false,
    }
}

impl<F> Written<Stamped<F>> {
    ghost use Rattle.cwr_files.specs.Format.Written.{cells_of, is_whole, stamped_file, times_failed, writer_in};

    /// The cells that stand in it.
    pub(crate) fn cells(&self) -> Option<[u8; 14]>
        ensures { result ≡ cells_of (writer_in self.now) }
    {
        self.writer.cells
    }

    /// The file itself, which isn't whole where it isn't that of the part in hand.
    pub(crate) fn unstamped(self, is_own: bool) -> Written<F>
        ensures writer { writer_in result ≡ stamped_file (writer_in self) }
        ensures whole { is_whole result ≡ true → is_whole self ≡ true }
        ensures own { is_whole result ≡ true → is_own ≡ true }
        ensures failures { times_failed result ≡ times_failed self }
    {
        Written {
            writer: self.writer.file,
            failures: self.failures,
            is_whole: self.is_whole && is_own,
        }
    }
}

impl<F: Write> Write for Stamped<F> {
    ghost use Rattle.cwr_files.specs.Format.Written.{text_of_stamped};

    ghost contents = { text_of_stamped F.contents };

    fn write(&mut self, text: &[u8]) -> io::Result<usize> {
        let count = self.file.write(piece_with(&self.cells, self.at, text))?;
        self.at = self.at.saturating_add(count as u64);
        self.given = self.given.and(&Piece {
            bytes: &text[..count],
        });
        Ok(count)
    }

    fn flush(&mut self) -> io::Result<()> {
        self.file.flush()
    }
}
