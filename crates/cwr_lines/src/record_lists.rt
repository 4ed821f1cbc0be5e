//! Records that are kept one after another.

ghost use Rattle.std.specs.Prelude.{◌≡◌, ◌+◌, ◌≤◌, [], ◌∷◌, ◌++◌, length, slice_get, vec_len, vec_capacity, IfSome, IsTrue, OnOk, OnErr};
ghost use Rattle.std.specs.List.{AllByRecursion};
ghost use Rattle.cwr_fields.specs.Format.Growth.{Outgrows};
ghost use Rattle.cwr_fields.specs.Steps.Growth.{IsRoom};
ghost use Rattle.cwr_lines.specs.Format.Growth.{AsksMemory};
ghost use Rattle.cwr_fields.specs.Format.Layouts.{line_width};
ghost use Rattle.cwr_lines.specs.Format.Records.{IsRecord, full_line, row_of};
ghost use Rattle.cwr_lines.specs.Steps.Carried.{record_in};
ghost use Rattle.cwr_lines.specs.Steps.KeptLines.{AreNumbered, IsKeptLine, line_at};
ghost use Rattle.cwr_lines.specs.Steps.NumberedTexts.{text_from};

use crate::records::RecordRef;
use cwr_fields::{Kind, SpelledPair, is_in_transaction, letters, make_room, width};
use std::alloc::{AllocError, Global};
use std::fmt::{self, Debug};
use std::marker::Model;

/// Where a record's line begins, and its kind.
#[derive(Clone, Copy)]
struct LineStart {
    kind: Kind,
    start: usize,
}

/// The line that begins there in the text.
#[inline(always)]
fn line_at(text: &[u8], line: LineStart) -> &[u8]
    requires { line.start + line_width line.kind ≤ length text.now }
    ensures { result.now ≡ line_at text.now line }
{
    &text[line.start..][..width(line.kind)]
}

/// How many bytes there is room for from the first record on: a transaction seldom has more than a dozen lines.
const FIRST_BYTES: usize = 2048;

/// Of how many lines the starts have room from the first record on.
const FIRST_STARTS: usize = 16;

/// Adds a line, and CR and LF, at the end of the text, which has room for so many bytes. It fails where memory was refused,
/// and then the text is as it was.
#[inline(always)]
fn add_line(text: &mut Vec<u8>, room: &mut usize, line: &[u8]) -> Result<(), AllocError>
    requires { IsRoom 2048 room.old (vec_len text.old) (vec_capacity text.old) }
    ensures ok { OnOk result (text.new.items ≡ text.old.items ++ (line.now ++ 13 ∷ 10 ∷ [])) }
    ensures err { OnErr result (text.new.items ≡ text.old.items) }
    ensures room { IsRoom 2048 room.new (vec_len text.new) (vec_capacity text.new) }
    ensures asks { OnErr result
        (Outgrows 2048 (length text.old.items) (length text.old.items + (length line.now + 2))) }
{
    *room = make_room(text, *room, FIRST_BYTES, line.len() + 2)?;
    text.extend_from_slice(line)?;
    text.push_reserved(b'\r');
    text.push_reserved(b'\n');
    Ok(())
}

/// Makes room for the start of one line more in a list that has room for so many. It fails where memory was refused, and then the list
/// is as it was.
#[inline(always)]
fn make_start(starts: &mut Vec<LineStart>, room: &mut usize) -> Result<(), AllocError>
    requires { IsRoom 16 room.old (vec_len starts.old) (vec_capacity starts.old) }
    ensures items { starts.new.items ≡ starts.old.items }
    ensures len { vec_len starts.new ≡ vec_len starts.old }
    ensures ok { OnOk result (IsRoom 16 room.new (vec_len starts.old + 1) (vec_capacity starts.new)) }
    ensures room { IsRoom 16 room.new (vec_len starts.new) (vec_capacity starts.new) }
    ensures asks { OnErr result
        (Outgrows 16 (length starts.old.items) (length starts.old.items + 1)) }
{
    *room = make_room(starts, *room, FIRST_STARTS, 1)?;
    Ok(())
}

/// Whether a whole line of the kind is the canonical one of its record, with these numbers. A no says nothing.
#[inline(always)]
fn is_numbered(
    kind: Kind,
    line: &[u8],
    expected: &mut SpelledPair,
    transaction: u64,
    place: u64,
) -> bool
    requires { length line.now ≡ line_width kind }
    ensures { IsTrue result → line.now
        ≡ full_line (row_of (transaction ∷ place ∷ []) (record_in kind line.now)) }
{
    if !is_in_transaction(kind) {
        return false;
    }
    if letters(kind) != &line[..3] {
        return false;
    }
    expected.are_in(&line[3..19], transaction, place)
}

/// Whether the lines at these starts are the canonical ones of their records, with the transaction's number and with theirs, from 0. A
/// no says nothing.
fn are_numbered(
    text: &[u8],
    starts: &[LineStart],
    expected: &mut SpelledPair,
    transaction: u64,
) -> bool
    requires { AllByRecursion (IsKeptLine text.now) starts.now }
    ensures { IsTrue result → AreNumbered transaction 0 text.now starts.now }
{
    let mut i = 0;
    while i < starts.len() {
        let line = starts[i];
        let whole = line_at(text, line);
        if !is_numbered(line.kind, whole, expected, transaction, i as u64) {
            return false;
        }
        i += 1;
    }
    true
}

/// Records in order, in one buffer of bytes: the whole line of each with its line end, and a list of where they begin.
#[derive(Drop)]
pub struct RecordList {
    text: Vec<u8>,
    /// How many bytes of text there is room for.
    text_room: usize,
    starts: Vec<LineStart>,
    /// How many of these there is room for.
    starts_room: usize,
}

impl Model for RecordList {
    ghost use Rattle.std.specs.Prelude.{List, vec_len, vec_capacity};
    ghost use Rattle.cwr_fields.specs.Steps.Growth.{IsRoom};
    ghost use Rattle.cwr_lines.specs.Format.Records.{RecordValue};
    ghost use Rattle.cwr_lines.specs.Steps.KeptLines.{KeepsLines, kept_records};

    ghost Value = { List RecordValue };

    ghost view = { λ l. kept_records l.text.items l.starts.items };

    ghost invariant = { λ l. KeepsLines l.text.items l.starts.items
        × (IsRoom 2048 l.text_room (vec_len l.text) (vec_capacity l.text)
        × IsRoom 16 l.starts_room (vec_len l.starts) (vec_capacity l.starts)) };
}

impl RecordList {
    /// No records. It takes no memory.
    pub fn new(alloc: Global) -> RecordList
        ensures { result ≡ [] }
    {
        RecordList {
            text: Vec::new(alloc),
            text_room: 0,
            starts: Vec::new(alloc),
            starts_room: 0,
        }
    }

    /// Drops all records, and keeps the room for others.
    pub fn clear(&mut self)
        ensures { self.new ≡ [] }
    {
        self.text.clear();
        self.starts.clear();
    }

    /// How many records it has.
    #[inline(always)]
    pub fn len(&self) -> usize
        ensures len { result ≡ length self.now }
        ensures fits { AllByRecursion IsRecord self.now }
    {
        self.starts.len()
    }

    /// Record `i`, from 0: a part of the buffer, nothing is copied. `None` where it has no such record.
    #[inline(always)]
    pub fn record(&self, i: usize) -> Option<RecordRef<'_>>
        ensures value { result ≡ slice_get self.now i }
        ensures fits { AllByRecursion IsRecord self.now }
    {
        match self.starts.get(i) {
            Some(line) => Some(RecordRef::of_line(line.kind, line_at(self.text.as_slice(), *line))),
            None => None,
        }
    }

    /// The canonical text of the records as those of a transaction with that number in its group, where just that is kept: nothing
    /// is copied. `None` says nothing. `expected` keeps the two sequences of the line before with their digits; whatever it keeps, the
    /// answer is right.
    pub fn numbered_text(&self, expected: &mut SpelledPair, transaction: u64) -> Option<&[u8]>
        ensures { IfSome result (λ text. text.now ≡ text_from transaction 0 self.now) }
    {
        let text = self.text.as_slice();
        if are_numbered(text, self.starts.as_slice(), expected, transaction) {
            Some(text)
        } else {
            None
        }
    }

    /// Adds a record at the end. It fails only where the list asks for memory and that was refused, and then nothing is
    /// changed.
    #[inline(always)]
    pub fn push(&mut self, next: &RecordRef<'_>) -> Result<(), AllocError>
        ensures ok { OnOk result (self.new ≡ self.old ++ next.now ∷ []) }
        ensures err { OnErr result (self.new ≡ self.old) }
        ensures asks { OnErr result (AsksMemory self.old next.now) }
        ensures fits { IsRecord next.now }
    {
        let line = next.whole_line();
        let start = LineStart {
            kind: next.kind(),
            start: self.text.as_slice().len(),
        };
        make_start(&mut self.starts, &mut self.starts_room)?;
        add_line(&mut self.text, &mut self.text_room, line)?;
        self.starts.push_reserved(start);
        Ok(())
    }
}

impl Debug for RecordList {
    fn fmt<W: fmt::Write>(&self, f: &mut fmt::Formatter<W>) -> fmt::Result {
        let mut records = f.debug_list();
        for i in 0..self.starts.len() {
            if let Some(shown) = self.record(i) {
                records.entry(&shown);
            }
        }
        records.finish()
    }
}
