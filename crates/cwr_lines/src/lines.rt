//! Lines of a text: each is taken piece by piece, and cut into cells where it stands. A line ends by its line feed, and
//! one carriage return directly before that belongs to the line end. The most bytes of a line, and that spaces may be
//! left out or added at its end, are rules of this profile.

ghost use Rattle.std.specs.Prelude.{◌≡◌, ◌≢◌, ◌≤◌, ◌<◌, ◌+◌, ◌++◌, length, take, drop, slice_index, ◌↔◌, IsFalse, IsNone, IsSome, IsSomeAnd, IsTrue, IfSome};
ghost use Rattle.std.specs.Prelude.{Some, MatchOption, option_map};
ghost use Rattle.std.specs.List.{list_any};
ghost use Rattle.cwr_fields.specs.Format.Bytes.{filled, is_plain};
ghost use Rattle.cwr_lines.specs.Format.Lines.{is_lf, without_cr, body_kind};
ghost use Rattle.cwr_fields.specs.Format.Kinds.{is_in_transaction, kind_of};
ghost use Rattle.cwr_lines.specs.Format.Records.{IsRecord};
ghost use Rattle.cwr_lines.specs.Steps.Held.{held_record, HeldLine, Takes, IsHeld, empty_line, ended_too_long, held_body, held_kind, held_cell, held_excess};
ghost use Rattle.cwr_lines.specs.Steps.Held.{filled_as, return_if};

mod pads;

use crate::records::RecordRef;
use arrayvec::ArrayVec;
use cwr_fields::{Field, Kind, field, is_in_transaction, is_plain, is_spaces, width};
use memchr::memchr;
pub use pads::LinePad;
use std::marker::Model;

/// The most bytes that a line may have before its line feed, a carriage return counted, by this profile.
pub const LONGEST_LINE: usize = 1024;

const LF: u8 = b'\n';

const CR: u8 = b'\r';

static SPACES: [u8; LONGEST_LINE] = [b' '; LONGEST_LINE];

/// How a line ended, if it did.
#[derive(Clone, Copy, Debug, PartialEq, Eq)]
pub enum LineEnd {
    /// More bytes may follow.
    Open,
    /// The line ended by its line feed, or was closed without one.
    Line,
    /// The line has more than 1,024 bytes before its line feed. It is judged by the first 1,024.
    Over,
}

/// What a call of `take` did with its piece.
#[derive(Clone, Copy, Debug, PartialEq, Eq)]
pub struct Taken {
    /// How many bytes of the piece were used, from its start.
    pub used: usize,
    /// How the line ended, if it did.
    pub ended: LineEnd,
}

/// The place of the first line feed.
fn line_feed(piece: &[u8]) -> Option<usize>
    ensures { MatchOption result (IsFalse (list_any is_lf piece.now)) (λ at. (at < length piece.now)
        × IsFalse (list_any is_lf (take at piece.now)) × (slice_index piece.now at ≡ 10)) }
{
    memchr(LF, piece)
}

/// Copies bytes over a text. Most that wait are as long as the one before, and then nothing is dropped first.
fn copy_over(text: &mut ArrayVec<u8, LONGEST_LINE>, bytes: &[u8])
    requires { length bytes.now ≤ LONGEST_LINE }
    ensures { text.new.items ≡ bytes.now }
{
    if text.len() == bytes.len() {
        text.as_mut_slice().copy_from_slice(bytes);
    } else {
        text.truncate(0);
        let _fits = text.try_extend_from_slice(bytes);
    }
}

/// Drops one carriage return at the end of the text, and answers whether there was one.
fn drop_return(text: &mut ArrayVec<u8, LONGEST_LINE>) -> bool
    ensures body { text.new.items ≡ without_cr text.old.items }
    ensures returned { text.old.items ≡ text.new.items ++ return_if result }
{
    let ends = text.as_slice().last().copied() == Some(CR);
    if ends {
        text.pop();
    }
    ends
}

/// Fills the text up with spaces to a width in bytes.
pub(crate) fn fill_up<const N: usize>(text: &mut ArrayVec<u8, N>, width: usize)
    requires fits { width ≤ N }
    requires most { N ≤ LONGEST_LINE }
    ensures { text.new.items ≡ filled width text.old.items }
{
    if width <= text.len() {
        return;
    }
    let missing = width.saturating_sub(text.len());
    let _fits = text.try_extend_from_slice(&SPACES[..missing]);
}

/// Fills the text up with spaces to the width of its kind, or to three bytes where they name none.
#[inline(always)]
fn fill_by_kind(text: &mut ArrayVec<u8, LONGEST_LINE>) -> Option<Kind>
    ensures kind { result ≡ body_kind text.old.items }
    ensures filled { text.new.items ≡ filled_as result text.old.items }
{
    fill_up(text, 3);
    let kind = Kind::of(&text.as_slice()[..3])?;
    fill_up(text, width(kind));
    Some(kind)
}

/// The part of a text that a field takes.
#[inline(always)]
pub(crate) fn part(text: &[u8], place: Field) -> &[u8]
    requires { place.start + place.width ≤ length text.now }
    ensures { result.now ≡ take place.width (drop place.start text.now) }
{
    &text[place.start..][..place.width]
}

/// Whether the piece begins with so many bytes, none of them a control byte, and then CR and LF.
#[inline(always)]
fn begins_whole(piece: &[u8], width: usize) -> bool
    requires { width + 2 ≤ length piece.now }
    ensures plain { IsTrue result → IsTrue (is_plain (take width piece.now)) }
    ensures carriage { IsTrue result → slice_index piece.now width ≡ 13 }
    ensures feed { IsTrue result → slice_index piece.now (width + 1) ≡ 10 }
{
    if piece[width] != CR || piece[width + 1] != LF {
        return false;
    }
    is_plain(&piece[..width])
}

/// Whether a line is known to have no control byte: it ended by its line feed, and the bytes that were taken have none.
#[inline(always)]
fn is_known_plain(text: &[u8], count: usize, ended: LineEnd) -> bool
    requires { count ≤ length text.now }
    ensures { IsTrue result → (ended ≡ LineEnd.Line) × IsTrue (is_plain (take count text.now)) }
{
    matches!(ended, LineEnd::Line) && is_plain(&text[..count])
}

/// One line of a text, taken piece by piece. It holds 1,024 bytes at most, and takes no memory.
///
/// A line that ended is kept filled up with spaces to the width of its kind, so that each of its cells is a part of
/// what is kept.
#[derive(Drop)]
pub struct LineBuf {
    /// The bytes that were taken. Once the line ended: without the carriage return of its end, and filled up.
    text: ArrayVec<u8, LONGEST_LINE>,
    /// How many bytes of the text were taken.
    count: usize,
    /// Whether a carriage return was dropped after them.
    has_return: bool,
    /// The kind of a line that ended.
    kind: Option<Kind>,
    ended: LineEnd,
}

impl Model for LineBuf {
    ghost use Rattle.cwr_lines.specs.Format.Records.{IsRecord};
    ghost use Rattle.cwr_lines.specs.Steps.Held.{held_record, HeldLine, line_kept, IsKept};

    ghost Value = { HeldLine };

    ghost view = { λ l. line_kept l.text.items l.count l.has_return l.ended };

    ghost invariant = { λ l. IsKept l.text.items l.count l.has_return l.kind l.ended };
}

impl LineBuf {
    /// The empty open line.
    pub fn new() -> Self
        ensures { result ≡ empty_line }
    {
        LineBuf {
            text: ArrayVec::new(),
            count: 0,
            has_return: false,
            kind: None,
            ended: LineEnd::Open,
        }
    }

    /// Begins a new line: the buffer is the empty open line again.
    pub fn clear(&mut self)
        ensures { self.new ≡ empty_line }
    {
        self.text.clear();
        self.count = 0;
        self.has_return = false;
        self.ended = LineEnd::Open;
    }

    /// How many bytes were taken before the line feed, a carriage return counted; at most 1,024.
    pub fn len(&self) -> usize
        ensures len { result ≡ length self.now.bytes }
        ensures held { IsHeld self.now }
    {
        self.count + usize::from(self.has_return)
    }

    /// Appends bytes to an open line.
    fn hold(&mut self, bytes: &[u8])
        requires open { self.old.ended ≡ LineEnd.Open }
        requires fits { length self.old.bytes + length bytes.now ≤ LONGEST_LINE }
        requires no_lf { IsFalse (list_any is_lf bytes.now) }
        ensures { self.new ≡ record { bytes = self.old.bytes ++ bytes.now; ended = LineEnd.Open } }
    {
        let _fits = self.text.try_extend_from_slice(bytes);
        self.count = self.text.len();
    }

    /// Holds a line that ended, wherever it stands.
    pub fn keep(&mut self, line: &CutLine<'_>)
        ensures { self.new ≡ line.now }
    {
        copy_over(&mut self.text, line.text);
        self.count = line.count;
        self.has_return = line.has_return;
        self.kind = line.kind;
        self.ended = line.ended;
    }

    /// Ends an open line without a line feed, as if one stood there.
    pub fn close(&mut self)
        requires { self.old.ended ≡ LineEnd.Open }
        ensures { self.new ≡ record { bytes = self.old.bytes; ended = LineEnd.Line } }
    {
        self.has_return = drop_return(&mut self.text);
        self.count = self.text.len();
        self.kind = fill_by_kind(&mut self.text);
        self.ended = LineEnd::Line;
    }

    /// Ends an open line that is too long.
    fn close_too_long(&mut self)
        requires open { self.old.ended ≡ LineEnd.Open }
        requires full { length self.old.bytes ≡ LONGEST_LINE }
        ensures { self.new ≡ record { bytes = self.old.bytes; ended = LineEnd.Over } }
    {
        self.kind = fill_by_kind(&mut self.text);
        self.ended = LineEnd::Over;
    }

    /// Takes the line's next bytes from a piece: up to its line feed, that included, or the whole piece, or as many
    /// as may stand before the line's 1,025th byte where that is no line feed. The line must be open.
    pub fn take(&mut self, piece: &[u8]) -> Taken
        requires { self.old.ended ≡ LineEnd.Open }
        ensures takes { Takes self.old piece.now result.used self.new }
        ensures ended { result.ended ≡ self.new.ended }
        ensures held { IsHeld self.new }
    {
        let room = LONGEST_LINE - self.len();
        match line_feed(&piece[..piece.len().min(room + 1)]) {
            Some(at) => {
                self.hold(&piece[..at]);
                self.close();
                Taken {
                    used: at + 1,
                    ended: LineEnd::Line,
                }
            }
            None if piece.len() <= room => {
                self.hold(piece);
                Taken {
                    used: piece.len(),
                    ended: LineEnd::Open,
                }
            }
            None => {
                self.hold(&piece[..room]);
                self.close_too_long();
                Taken {
                    used: room,
                    ended: LineEnd::Over,
                }
            }
        }
    }

    /// Takes the line's next bytes from a piece up to its line feed, where that stands in the piece and the line isn't too
    /// long, and answers how many bytes they are, the line feed counted. `None` where nothing was taken.
    pub fn take_ended(&mut self, piece: &[u8]) -> Option<usize>
        requires { self.old.ended ≡ LineEnd.Open }
        ensures takes { IfSome result (λ used. Takes self.old piece.now used self.new) }
        ensures ended { IfSome result (λ _. self.new.ended ≡ LineEnd.Line) }
        ensures held { IsHeld self.new }
        ensures none { IsNone result → self.new ≡ self.old }
    {
        let reach = LONGEST_LINE + 1 - self.len();
        let Some(at) = line_feed(&piece[..reach.min(piece.len())]) else {
            return None;
        };
        self.hold(&piece[..at]);
        self.close();
        Some(at + 1)
    }

    /// The cells of a line that ended, borrowed from the buffer.
    pub fn cut(&self) -> CutLine<'_>
        requires { self.now.ended ≢ LineEnd.Open }
        ensures { result ≡ self.now }
    {
        CutLine {
            text: self.text.as_slice(),
            count: self.count,
            has_return: self.has_return,
            kind: self.kind,
            ended: self.ended,
            plain: false,
        }
    }

    /// The same cells, for a line that is to be judged: what was taken is looked through for control bytes. The spaces that
    /// it was filled up with are none.
    #[inline(always)]
    pub fn cut_looked_through(&self) -> CutLine<'_>
        requires { self.now.ended ≢ LineEnd.Open }
        ensures { result ≡ self.now }
    {
        let cut = self.cut();
        let plain = is_known_plain(cut.text, cut.count, cut.ended);
        CutLine { plain, ..cut }
    }
}

/// A line that ended, cut into the cells of its kind by the layouts of CWR 2.1. A line that is too short for its kind
/// represents the line filled up with spaces, and one that is too long is judged by its first 1,024 bytes.
///
/// Its bytes are borrowed from where it stands: a line buffer, or a piece of the text.
#[derive(Drop)]
pub struct CutLine<'a> {
    /// The line without the carriage return of its end, filled up to the width of its kind.
    text: &'a [u8],
    /// How many bytes of the text stand in the line.
    count: usize,
    /// Whether a carriage return follows them.
    has_return: bool,
    kind: Option<Kind>,
    ended: LineEnd,
    /// Whether the text is known to have no control byte.
    plain: bool,
}

impl<'a> Model for CutLine<'a> {
    ghost use Rattle.cwr_lines.specs.Steps.Held.{HeldLine, line_kept, IsCut};

    ghost Value = { HeldLine };

    ghost view = { λ c. line_kept c.text.now c.count c.has_return c.ended };

    ghost invariant = { λ c. IsCut c.text.now c.count c.has_return c.kind c.ended c.plain };
}

impl<'a> CutLine<'a> {
    /// The line that a piece begins with, where it stands, and how many bytes it takes with its end: `kind` is the kind that its
    /// first three bytes name, and one that is constant where this is called makes the width and the places of all cells constant
    /// too. `None` of each front but a line as it is written: in the full width of its kind, with no control byte, and with CR
    /// and LF.
    #[inline(always)]
    pub fn at_front(kind: Kind, piece: &'a [u8]) -> Option<(CutLine<'a>, usize)>
        requires named { kind_of (take 3 piece.now) ≡ Some kind }
        requires three { 3 ≤ length piece.now }
        ensures takes { IfSome result (λ found. Takes empty_line piece.now found.1 found.0) }
        ensures held { IfSome result (λ found. IsHeld found.0) }
        ensures ended { IfSome result (λ found. found.0.ended ≡ LineEnd.Line) }
        ensures kind { IfSome result (λ found. held_kind found.0 ≡ Some kind) }
    {
        let count = width(kind);
        if piece.len() < count + 2 || !begins_whole(piece, count) {
            return None;
        }
        let line = CutLine {
            text: &piece[..count],
            count,
            has_return: true,
            kind: Some(kind),
            ended: LineEnd::Line,
            plain: true,
        };
        Some((line, count + 2))
    }

    /// The line that a piece begins with, and how many bytes it takes with its end: where it stands, or filled up in the pad.
    /// `kind` is the kind that its first three bytes name, and one that is constant where this is called makes the width and
    /// the places of all cells constant too. `None` says nothing.
    #[inline(always)]
    pub fn front_of(
        kind: Kind,
        piece: &'a [u8],
        pad: &'a mut LinePad,
    ) -> Option<(CutLine<'a>, usize)>
        requires named { kind_of (take 3 piece.now) ≡ Some kind }
        requires three { 3 ≤ length piece.now }
        ensures takes { IfSome result (λ found. Takes empty_line piece.now found.1 found.0) }
        ensures held { IfSome result (λ found. IsHeld found.0) }
        ensures ended { IfSome result (λ found. found.0.ended ≡ LineEnd.Line) }
        ensures kind { IfSome result (λ found. held_kind found.0 ≡ Some kind) }
    {
        match CutLine::at_front(kind, piece) {
            Some(found) => Some(found),
            None => CutLine::in_pad(kind, piece, pad),
        }
    }

    /// The kind that the line's first three bytes name. `None` where they name none.
    pub fn kind(&self) -> Option<Kind>
        ensures { result ≡ held_kind self.now }
    {
        self.kind
    }

    /// Cell `j` of the line, from 1: a part of the line, in its field's full width. `None` where the kind is unknown or
    /// has no field `j`.
    pub fn cell(&self, j: u8) -> Option<&'a [u8]>
        ensures { option_map (λ cell. cell.now) result ≡ held_cell self.now j }
    {
        let place = field(self.kind?, j)?;
        Some(part(self.text, place))
    }

    /// The transaction sequence and the record sequence of a line whose kind stands in transactions, one after the other:
    /// its second and its third cell. `None` of any other line.
    #[inline(always)]
    pub fn sequences(&self) -> Option<&'a [u8]>
        ensures some { IsSome result
            ↔ IsSomeAnd (held_kind self.now) (λ kind. IsTrue (is_in_transaction kind)) }
        ensures transaction { IfSome result
            (λ cells. held_cell self.now 2 ≡ Some (take 8 cells.now)) }
        ensures record { IfSome result (λ cells. held_cell self.now 3 ≡ Some (drop 8 cells.now)) }
        ensures wide { IfSome result (λ cells. length cells.now ≡ 16) }
    {
        let kind = self.kind?;
        if !is_in_transaction(kind) {
            return None;
        }
        Some(&self.text[3..19])
    }

    /// The record that the line's cells carry, borrowed from the line: nothing is copied. `None` where the kind is unknown,
    /// or one of these cells isn't one of its field's type. Derived cells and the excess aren't judged.
    #[inline(always)]
    pub fn record(&self) -> Option<RecordRef<'a>>
        ensures some { IsSome result ↔ IsSomeAnd (held_record self.now) IsRecord }
        ensures value { IfSome result (λ found. held_record self.now ≡ Some found) }
    {
        let kind = self.kind?;
        RecordRef::from_line(kind, &self.text[..width(kind)], self.plain)
    }

    /// The record that the line's cells carry, where they are known to carry one: nothing is judged.
    #[inline(always)]
    pub fn known_record(&self) -> RecordRef<'a>
        requires { IsSomeAnd (held_record self.now) IsRecord }
        ensures { held_record self.now ≡ Some result }
    {
        let Some(kind) = self.kind else {
            unreachable!()
        };
        RecordRef::of_line(kind, &self.text[..width(kind)])
    }

    /// The bytes that are judged, filled up to the width of the kind: without a carriage return at the end, and of a line that is
    /// too long the first 1,024.
    pub(crate) fn filled(&self) -> &'a [u8]
        ensures value { result.now ≡ filled_as (held_kind self.now) (held_body self.now) }
        ensures short { length result.now ≤ LONGEST_LINE }
    {
        self.text
    }

    /// Whether the line is too long.
    pub(crate) fn is_too_long(&self) -> bool
        ensures { result ≡ ended_too_long self.now.ended }
    {
        matches!(self.ended, LineEnd::Over)
    }

    /// Whether what stands after the last field is bad: it isn't all spaces, or the line is too long. A line of
    /// unknown kind has nothing after its last field.
    #[inline(always)]
    pub fn excess(&self) -> bool
        ensures { result ≡ held_excess self.now }
    {
        let Some(kind) = self.kind else {
            return false;
        };
        if let LineEnd::Over = self.ended {
            return true;
        }
        !is_spaces(&self.text[width(kind)..])
    }
}
