//! The lines that a reader still has.

ghost use Rattle.std.specs.Prelude.{◌≡◌, ◌≢◌, ℕ, ◌+◌, ◌≤◌, ◌<◌, ◌||◌, nat_lt, List, [], ◌∷◌, ◌++◌, length, take, slice_index, true, false, IfOk, IsFalse};
ghost use Rattle.std.specs.Prelude.{MatchOption};
ghost use Rattle.std.specs.List.{list_any};
ghost use Rattle.cwr_devices.specs.Steps.Sinks.{CountsOn};
ghost use Rattle.cwr_causes.specs.Format.Trailing.{TakesMore};
ghost use Rattle.cwr_fields.specs.Format.Bytes.{is_spaces};
ghost use Rattle.cwr_lines.specs.Format.Lines.{is_lf, without_cr};
ghost use Rattle.cwr_lines.specs.Steps.Held.{empty_line, held_body};
ghost use Rattle.cwr_lint.specs.Steps.LinesRead.{AddsPiece, HoldsRaw, IsOfLine, ReadsLast, ReadsLineIf, ReadsPiece, ReadsRest, held_raw};

use arrayvec::ArrayVec;
use cwr_causes::{LineAtEnd, line_at_end};
use cwr_decode::LastBytes;
use cwr_devices::{DeviceFault, Source};
use cwr_fields::is_spaces;
use cwr_lines::{LONGEST_LINE, LineBuf, LineEnd};
use memchr::memchr;

const LF: u8 = b'\n';

/// The place of the first line feed.
fn line_feed(piece: &[u8]) -> Option<usize>
    ensures { MatchOption result (IsFalse (list_any is_lf piece.now)) (λ at. (at < length piece.now)
        × IsFalse (list_any is_lf (take at piece.now)) × (slice_index piece.now at ≡ 10)) }
{
    memchr(LF, piece)
}

/// What stands before the first line feed.
fn before_feed(text: &[u8]) -> &[u8]
    ensures no_lf { IsFalse (list_any is_lf result.now) }
    ensures same { IsFalse (list_any is_lf text.now) → result.now ≡ text.now }
{
    match line_feed(text) {
        Some(at) => &text[..at],
        None => text,
    }
}

/// Whether the text ends with a line feed.
fn ends_with_feed(text: &[u8]) -> bool
    ensures ended { result ≡ true → (front : List ℕ) × (text.now ≡ front ++ 10 ∷ []) }
    ensures still_open { result ≡ false → (front : List ℕ) → text.now ≢ front ++ 10 ∷ [] }
{
    match text {
        [_front @ .., LF] => true,
        _ => false,
    }
}

/// The text without one carriage return at its end.
fn without_return(text: &[u8]) -> &[u8]
    ensures { result.now ≡ without_cr text.now }
{
    match text {
        [front @ .., b'\r'] => front,
        _ => text,
    }
}

/// Takes bytes without a line feed, no more than a line may have, into an empty line buffer.
fn take_whole(line: &mut LineBuf, bytes: &[u8])
    requires empty { line.old ≡ empty_line }
    requires short { length bytes.now ≤ LONGEST_LINE }
    requires no_lf { IsFalse (list_any is_lf bytes.now) }
    ensures { line.new ≡ record { bytes = bytes.now; ended = LineEnd.Open } }
{
    line.take(bytes);
}

/// Takes a byte into a line buffer that has as many as a line may have: that is one too many.
fn take_one_more(line: &mut LineBuf)
    requires open { line.old.ended ≡ LineEnd.Open }
    requires full { length line.old.bytes ≡ LONGEST_LINE }
    ensures { line.new ≡ record { bytes = line.old.bytes; ended = LineEnd.Over } }
{
    line.take(b" ");
}

/// Whether a line is too long once so many bytes are added, for which it has that room.
fn is_longer(is_too_long: bool, count: usize, room: usize) -> bool
    ensures { result ≡ (is_too_long || nat_lt room count) }
{
    is_too_long || room < count
}

/// Appends as many of the bytes as there is room for.
fn extend(text: &mut ArrayVec<u8, LONGEST_LINE>, bytes: &[u8], room: usize)
    requires { length text.old.items + room ≤ LONGEST_LINE }
    ensures { text.new.items ≡ text.old.items ++ take room bytes.now }
{
    let _fits = text.try_extend_from_slice(&bytes[..room.min(bytes.len())]);
}

/// A line as it was read.
#[derive(Drop)]
pub(crate) struct RawLine {
    /// Its bytes, without its line feed: of one that is too long the first 1,024.
    bytes: ArrayVec<u8, LONGEST_LINE>,
    /// Whether its line feed was read.
    ended: bool,
    /// Whether it has more bytes.
    is_too_long: bool,
    /// The bytes of the input before it.
    offset: u64,
    /// The bytes of the input up to its end.
    end: u64,
}

impl RawLine {
    /// The empty line at the start of an input.
    pub fn new() -> RawLine
        ensures held { HoldsRaw [] result }
        ensures unended { result.ended ≡ false }
    {
        RawLine {
            bytes: ArrayVec::new(),
            ended: false,
            is_too_long: false,
            offset: 0,
            end: 0,
        }
    }

    /// Begins the line after another one.
    fn begin(&mut self, end: u64)
        ensures held { HoldsRaw [] self.new }
        ensures unended { self.new.ended ≡ false }
    {
        self.bytes.truncate(0);
        self.ended = false;
        self.is_too_long = false;
        self.offset = end;
        self.end = end;
    }

    /// Adds bytes of the line.
    fn add(&mut self, bytes: &[u8])
        ensures held { (line : List ℕ) → IsFalse (list_any is_lf bytes.now) → HoldsRaw line self.old
            → HoldsRaw (line ++ bytes.now) self.new }
        ensures unended { self.new.ended ≡ self.old.ended }
    {
        let room = LONGEST_LINE - self.bytes.len();
        self.is_too_long = is_longer(self.is_too_long, bytes.len(), room);
        extend(&mut self.bytes, bytes, room);
        self.end = self.end.saturating_add(bytes.len() as u64);
    }

    /// Adds its line feed.
    fn end(&mut self)
        ensures held { (line : List ℕ) → HoldsRaw line self.old → HoldsRaw line self.new }
        ensures ended { self.new.ended ≡ true }
    {
        self.ended = true;
        self.end = self.end.saturating_add(1);
    }

    /// Whether its line feed was read.
    pub fn has_ended(&self) -> bool
        ensures { result ≡ self.now.ended }
    {
        self.ended
    }

    /// Whether it has more than 1,024 bytes.
    pub fn is_too_long(&self) -> bool {
        self.is_too_long
    }

    /// Its bytes, at most 1,024. A carriage return at its end is counted.
    pub fn as_slice(&self) -> &[u8] {
        self.bytes.as_slice()
    }

    /// Whether nothing but spaces stands in it.
    pub fn is_blank(&self) -> bool
        ensures { result ≡ is_spaces (held_body (held_raw self.now)) }
    {
        let bytes = self.bytes.as_slice();
        if self.is_too_long {
            is_spaces(bytes)
        } else {
            is_spaces(without_return(bytes))
        }
    }

    /// The line, as an explanation has it.
    pub fn shown(&self) -> LineAtEnd<'_> {
        LineAtEnd {
            bytes: self.bytes.as_slice(),
            ended: self.ended,
            offset: self.offset,
        }
    }

    /// The line once more in a line buffer, which cuts it into cells.
    pub fn cut_into(&self, line: &mut LineBuf)
        requires { IsOfLine self.now }
        ensures { line.new ≡ held_raw self.now }
    {
        line.clear();
        take_whole(line, self.bytes.as_slice());
        if self.is_too_long {
            take_one_more(line);
        } else {
            line.close();
        }
    }

    /// Adds what a piece has of the line, its line feed counted: how many bytes, and whether the line or the input has ended with them.
    fn add_piece(&mut self, piece: &[u8]) -> (usize, bool)
        requires { self.old.ended ≡ false }
        ensures within { result.0 ≤ length piece.now }
        ensures added { AddsPiece self.old self.new piece.now result.0 result.1 }
    {
        match line_feed(piece) {
            Some(at) => {
                self.add(&piece[..at]);
                self.end();
                (at + 1, true)
            }
            None => {
                self.add(piece);
                (piece.len(), piece.is_empty())
            }
        }
    }

    /// Takes what the reader shows next of an open line. The answer is whether the line or the input has ended with that.
    fn take_piece<R: Source>(&mut self, reader: &mut R) -> Result<bool, DeviceFault>
        requires { self.old.ended ≡ false }
        ensures read { IfOk result
            (ReadsPiece (R.remaining reader.old) (R.remaining reader.new) self.old self.new) }
        ensures taken { TakesMore (R.remaining reader.old) (R.remaining reader.new) }
        ensures failures { CountsOn result (R.failures reader.old) (R.failures reader.new) }
    {
        let piece = match reader.fill() {
            Ok(piece) => piece,
            Err(_) => return Err(DeviceFault),
        };
        let (count, has_ended) = self.add_piece(piece);
        reader.consume(count);
        Ok(has_ended)
    }

    /// Takes what is left of an open line, up to its line feed or the end of the input.
    fn take_rest<R: Source>(&mut self, reader: &mut R) -> Result<(), DeviceFault>
        requires { self.old.ended ≡ false }
        ensures read { IfOk result
            (λ _. ReadsRest (R.remaining reader.old) (R.remaining reader.new) self.old self.new) }
        ensures taken { TakesMore (R.remaining reader.old) (R.remaining reader.new) }
        ensures failures { CountsOn result (R.failures reader.old) (R.failures reader.new) }
    {
        for _ in 0..u64::MAX {
            match self.take_piece(reader) {
                Ok(true) => break,
                Ok(false) => {}
                Err(_) => return Err(DeviceFault),
            }
        }
        Ok(())
    }

    /// A line of these bytes, whose line feed was read or not.
    fn of_bytes(bytes: &[u8], ended: bool, offset: u64) -> RawLine
        requires { IsFalse (list_any is_lf bytes.now) }
        ensures held { HoldsRaw bytes.now result }
        ensures ended { result.ended ≡ ended }
    {
        let mut line = RawLine::new();
        line.begin(offset);
        line.add(bytes);
        if ended {
            line.end();
        }
        line
    }

    /// The line that was read last, of which the reader may have more.
    pub fn of_last<R: Source>(last: &LastBytes, reader: &mut R) -> Result<RawLine, DeviceFault>
        ensures read { IfOk result
            (ReadsLast (R.remaining reader.old) (R.remaining reader.new) last.now) }
        ensures held { IfOk result IsOfLine }
        ensures taken { TakesMore (R.remaining reader.old) (R.remaining reader.new) }
        ensures failures { CountsOn result (R.failures reader.old) (R.failures reader.new) }
    {
        let found = line_at_end(last);
        let mut line = RawLine::of_bytes(
            before_feed(found.bytes),
            ends_with_feed(last.as_slice()),
            found.offset,
        );
        if line.ended {
            return Ok(line);
        }
        match line.take_rest(reader) {
            Ok(()) => Ok(line),
            Err(_) => Err(DeviceFault),
        }
    }

    /// Reads the line after another one. The answer is whether there is one.
    pub fn read_after<R: Source>(&mut self, end: u64, reader: &mut R) -> Result<bool, DeviceFault>
        ensures read { IfOk result
            (ReadsLineIf (R.remaining reader.old) (R.remaining reader.new) self.new) }
        ensures taken { TakesMore (R.remaining reader.old) (R.remaining reader.new) }
        ensures failures { CountsOn result (R.failures reader.old) (R.failures reader.new) }
    {
        self.begin(end);
        match self.take_rest(reader) {
            Ok(()) => Ok(self.ended || !self.bytes.is_empty()),
            Err(_) => Err(DeviceFault),
        }
    }

    /// The bytes of the input up to its end.
    pub fn end_offset(&self) -> u64 {
        self.end
    }
}
