//! What a reader has after the line in hand, and a refused line explained.

ghost use Rattle.std.specs.Prelude.{◌≡◌, ◌↔◌, ◌<◌, [], length, IsTrue, IfOk, IfSome, OnOk, option_map, string_bytes};
ghost use Rattle.std.specs.Io.KnownBytes.{Keeps};
ghost use Rattle.std.specs.Option.{is_some};
ghost use Rattle.cwr_causes.specs.Format.Lookings.{LooksAfterLine, asks_numbers, is_open, number_at};
ghost use Rattle.cwr_causes.specs.Format.NumbersAfter.{FindsAfterLine, SeesNumbers, followed_at};
ghost use Rattle.cwr_causes.specs.Format.Refusals.{first_kind};
ghost use Rattle.cwr_causes.specs.Format.Trailing.{CountsRead, TakesMore};
ghost use Rattle.cwr_causes.specs.Steps.Refused.{ExplainsLine, ExplainsRefusal, IsLineBefore, ahead_in, fault_line, goes_on};
ghost use Rattle.cwr_causes.specs.Steps.Trailing.{found_in};

use crate::ahead::{Ahead, Sequence, look_ahead, peek_ahead, sequence_at};
use crate::causes::Refused;
use crate::lines_at_end::{LineAtEnd, line_again, line_at_end, line_before};
use crate::trailing::Trailing;
use crate::truncated_words::kind_of;
use crate::works::refused_work;
use cwr_decode::{LastBytes, LastRead, Refusal};
use cwr_devices::{DeviceFault, Source};
use cwr_lines::LONGEST_LINE;
use cwr_notes::WorkLine;
use cwr_shape::{Limits, Reason, Stage};
use std::alloc::{AllocError, Global};

/// What the reader has after a run.
#[derive(Clone, Copy, Debug)]
pub enum Beyond {
    /// After a transmission: these bytes.
    Trailing(Trailing),
    /// After a refused line that had no line feed: whether it goes on.
    GoesOn(bool),
    /// After a line whose number is wrong: how the numbers go on.
    Numbers(Ahead),
    /// Nobody asked.
    Unasked,
}

impl Beyond {
    /// Whether the line goes on after what is shown.
    fn goes_on(self) -> bool
        ensures { result ≡ goes_on self }
    {
        match self {
            Beyond::GoesOn(more) => more,
            Beyond::Trailing(_) | Beyond::Numbers(_) | Beyond::Unasked => false,
        }
    }

    /// How the numbers after it go on, where they were looked at.
    fn ahead(self) -> Option<Ahead>
        ensures { result ≡ ahead_in self }
    {
        match self {
            Beyond::Numbers(ahead) => Some(ahead),
            Beyond::Trailing(_) | Beyond::GoesOn(_) | Beyond::Unasked => None,
        }
    }

    /// What was found after a transmission, if that was looked for.
    pub fn found(self) -> Option<Trailing>
        ensures { result ≡ found_in self }
    {
        match self {
            Beyond::Trailing(found) => Some(found),
            Beyond::GoesOn(_) | Beyond::Numbers(_) | Beyond::Unasked => None,
        }
    }
}

/// Whether the reader shows a byte more.
fn has_more<R: Source>(reader: &mut R) -> Result<bool, DeviceFault>
    ensures more { IfSome (R.remaining reader.old)
        (λ left. IfOk result (λ more. IsTrue more ↔ 0 < length left)) }
    ensures taken { TakesMore (R.remaining reader.old) (R.remaining reader.new) }
    ensures failures { CountsRead result (R.failures reader.old) (R.failures reader.new) }
{
    Ok(!reader.fill()?.is_empty())
}

/// The sequence of a line whose number is refused, and that number.
fn wrong_sequence(refusal: &Refusal, line: &LineAtEnd<'_>) -> Option<(Sequence, u64)>
    ensures asks { is_some result ≡ asks_numbers refusal.now line.now }
    ensures number { IfSome result (λ s. number_at (first_kind line.now.bytes.now) refusal.now.field line.now.bytes.now ≡ Some s.1) }
    ensures which { IfSome result (λ s. s.0 ≡ followed_at refusal.now.field) }
{
    match refusal.reason {
        Reason::Number { .. } => {
            if line.ended {
                sequence_at(kind_of(line.bytes), refusal.field, line.bytes)
            } else {
                None
            }
        }
        _ => None,
    }
}

/// Whether the line has as many bytes as a line may have, and no line feed so far.
fn is_open(line: &LineAtEnd<'_>) -> bool
    ensures { result ≡ is_open line.now }
{
    !line.ended && line.bytes.len() == LONGEST_LINE
}

/// Looks at what the reader has after a refused line: whether there is a byte after one of 1,024 bytes, and how the numbers go on after
/// a wrong one.
pub fn look_after_line<R: Source>(
    reader: &mut R,
    refusal: &Refusal,
    line: &LineAtEnd<'_>,
) -> Result<Beyond, DeviceFault>
    ensures taken { TakesMore (R.remaining reader.old) (R.remaining reader.new) }
    ensures failures { CountsRead result (R.failures reader.old) (R.failures reader.new) }
    // Nothing that helps is left unasked, and what is answered is what the reader has there.
    ensures looks { IfOk result (LooksAfterLine refusal.now line.now) }
    ensures finds { IfOk result (FindsAfterLine refusal.now line.now
        (R.remaining reader.old) (R.remaining reader.new)) }
{
    if is_open(line) {
        return Ok(Beyond::GoesOn(has_more(reader)?));
    }
    match wrong_sequence(refusal, line) {
        Some((sequence, number)) => Ok(Beyond::Numbers(look_ahead(reader, sequence, number)?)),
        None => Ok(Beyond::Unasked),
    }
}

/// How the numbers go on after the refused line, where one of it is wrong, on what the reader shows next of the lines after it. Nothing is
/// taken.
pub fn peek_numbers<R: Source>(
    reader: &mut R,
    refusal: &Refusal,
    line: &LineAtEnd<'_>,
) -> Result<Option<Ahead>, DeviceFault>
    ensures kept { Keeps (R.remaining reader.old) (R.remaining reader.new) }
    ensures failures { CountsRead result (R.failures reader.old) (R.failures reader.new) }
    ensures asked { IfOk result (λ found. is_some found ≡ asks_numbers refusal.now line.now) }
    ensures finds { IfOk result (λ found. IfSome found (SeesNumbers refusal.now line.now (R.remaining reader.old))) }
{
    match wrong_sequence(refusal, line) {
        Some((sequence, number)) => Ok(Some(peek_ahead(reader, sequence, number)?)),
        None => Ok(None),
    }
}

/// The line before the one with which the bytes end that were read, where all of it is still held.
pub fn before_last(last: &LastBytes) -> Option<&[u8]>
    ensures { IsLineBefore last.now (option_map (λ b. b.now) result) }
{
    line_before(last)
}

/// The lines that explain a refusal.
pub fn add_refused(
    alloc: Global,
    text: &mut String,
    limits: &Limits,
    name: &str,
    refusal: &Refusal,
    last: &LastRead,
    beyond: Beyond,
) -> Result<(), AllocError>
    ensures { OnOk result (ExplainsRefusal limits.now name.now refusal.now last.now beyond
        (string_bytes text.old) (string_bytes text.new)) }
{
    let line = line_at_end(&last.bytes);
    let again = line_again(line.bytes);
    let work = refused_work(&last.header, &refusal.reason, &again.cut());
    let refused = Refused {
        name,
        refusal,
        line,
        before: line_before(&last.bytes),
        kind: kind_of(line.bytes),
        is_too_long: beyond.goes_on(),
        ahead: beyond.ahead(),
        is_first: true,
        is_later: false,
        work: &work,
    };
    refused.add(alloc, text, limits, Some(last.stage))
}

/// A line with a fault, and what is known beside it.
#[derive(Clone, Copy)]
pub struct FaultyLine<'a> {
    /// The line.
    pub line: LineAtEnd<'a>,
    /// The line before it, where that is held.
    pub before: Option<&'a [u8]>,
    /// The line on its work.
    pub work: &'a WorkLine,
    /// How far the records before it have come, if that is known.
    pub stage: Option<Stage>,
    /// Whether it has more bytes than are shown.
    pub is_too_long: bool,
    /// How the numbers after a wrong one go on, where they were looked at.
    pub ahead: Option<Ahead>,
    /// Whether this is the first fault of the line that is explained: what is to be said of the whole line is said with that one.
    pub is_first: bool,
    /// Whether there are faults in the lines before it, so that what is counted may be too little.
    pub is_later: bool,
}

/// The lines that explain a fault of a line.
pub fn explain_fault(
    alloc: Global,
    limits: &Limits,
    name: &str,
    fault: &Refusal,
    line: FaultyLine<'_>,
) -> Result<String, AllocError>
    ensures { IfOk result (λ text. ExplainsLine limits.now line.entry.stage (fault_line name.now fault.now line.entry)
        [] (string_bytes text)) }
{
    let mut text = String::new(alloc);
    let refused = Refused {
        name,
        refusal: fault,
        line: line.line,
        before: line.before,
        kind: kind_of(line.line.bytes),
        is_too_long: line.is_too_long,
        ahead: line.ahead,
        is_first: line.is_first,
        is_later: line.is_later,
        work: line.work,
    };
    refused.add(alloc, &mut text, limits, line.stage)?;
    Ok(text)
}
