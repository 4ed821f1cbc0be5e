//! The line that was read last.

ghost use Rattle.std.specs.Prelude.{◌≡◌, ◌≢◌, ◌≤◌, ◌<◌, ◌-◌, ◌^◌, ◌==◌, ℕ, List, [], ◌∷◌, ◌++◌, length, true, false, None, IfSome, IsFalse, MatchOption};
ghost use Rattle.std.specs.List.{list_any};
ghost use Rattle.cwr_lines.specs.declared.lines.TheConstants.{LONGEST_LINE};
ghost use Rattle.cwr_lines.specs.declared.lines.LineEnd.{LineEnd};
ghost use Rattle.cwr_lines.specs.Format.Lines.{is_lf};
ghost use Rattle.cwr_decode.specs.Steps.LastReads.{HoldsLast, last_held};
ghost use Rattle.cwr_causes.specs.Steps.LinesAtEnd.{EndsInLine, EndsWithLine, IsAfterFeed, IsLastLine, IsLineAtEnd, NoLineKnown};

use cwr_decode::LastBytes;
use cwr_lines::{LineBuf, LineEnd};
use memchr::memrchr;

const LF: u8 = b'\n';

/// The line with which the bytes that were read end, and where it begins.
#[derive(Clone, Copy, Debug)]
pub struct LineAtEnd<'a> {
    /// Its bytes, without its line feed. A carriage return at its end is counted.
    pub bytes: &'a [u8],
    /// Whether its line feed was read.
    pub ended: bool,
    /// How many bytes were read before it.
    pub offset: u64,
}

/// The text without a line feed at its end, and whether there was one.
fn without_feed(text: &[u8]) -> (&[u8], bool)
    ensures ended { result.1 ≡ true → text.now ≡ result.0.now ++ 10 ∷ [] }
    ensures open { result.1 ≡ false → result.0.now ≡ text.now }
    ensures other { result.1 ≡ false → (front : List ℕ) → text.now ≢ front ++ 10 ∷ [] }
{
    match text {
        [front @ .., LF] => (front, true),
        _ => (text, false),
    }
}

/// What stands after the last line feed.
fn after_last_feed(text: &[u8]) -> &[u8]
    ensures { IsAfterFeed text.now result.now }
{
    match memrchr(LF, text) {
        Some(at) => &text[at + 1..],
        None => text,
    }
}

/// The line with which the bytes end that were read. A carriage return at its end is shown.
pub fn line_at_end(last: &LastBytes) -> LineAtEnd<'_>
    ensures { IsLineAtEnd last.now result }
{
    let (text, ended) = without_feed(last.as_slice());
    let bytes = after_last_feed(text);
    let feed: u64 = if ended { 1 } else { 0 };
    LineAtEnd {
        bytes,
        ended,
        offset: last
            .read()
            .saturating_sub(bytes.len() as u64)
            .saturating_sub(feed),
    }
}

/// A text's last line, which has no line feed, and what stands before it.
fn last_line(text: &[u8]) -> (&[u8], &[u8])
    ensures { IsLastLine text.now result.0.now result.1.now }
{
    let line = after_last_feed(text);
    let front = &text[..text.len() - line.len()];
    (front, line)
}

/// The last of these lines, each with its line feed. `None` where there is none, or where its begin isn't known: the text is all that was
/// read, or that line stands after a line feed.
fn last_of_lines(lines: &[u8], is_all: bool) -> Option<&[u8]>
    ensures { MatchOption result (NoLineKnown lines.now is_all)
        (λ line. EndsInLine lines.now is_all line.now) }
{
    let (text, ended) = without_feed(lines);
    if !ended {
        return None;
    }
    let (front, line) = last_line(text);
    if is_all || !front.is_empty() {
        Some(line)
    } else {
        None
    }
}

/// Whether all bytes are held that were read.
fn is_whole(last: &LastBytes) -> bool
    ensures whole { result ≡ true → (read : List ℕ) → HoldsLast read last.now
        → read ≡ last_held last.now }
    ensures part { result ≡ false → (read : List ℕ) → HoldsLast read last.now
        → length read < 2 ^ 64 - 1 → read ≢ last_held last.now }
{
    let count = last.as_slice().len() as u64;
    count < u64::MAX && last.read() == count
}

/// The line before the one with which the bytes end, without its line feed. `None` where not all of it is still held, or there is
/// none.
pub(crate) fn line_before(last: &LastBytes) -> Option<&[u8]>
    ensures told { (read front line : List ℕ) → HoldsLast read last.now → EndsWithLine read front line
        → IfSome result (λ before. EndsInLine front true before.now) }
    ensures untold { (read front line shown : List ℕ) → (held : HoldsLast read last.now) → EndsWithLine read front line
        → front ≡ held.before ++ shown → length read < 2 ^ 64 - 1 → result ≡ None → NoLineKnown shown (length held.before == 0) }
{
    let (text, _) = without_feed(last.as_slice());
    let (front, _) = last_line(text);
    last_of_lines(front, is_whole(last))
}

/// An open line of these bytes, or where they have a line feed or are too many, of their front. How that ended is answered too.
fn line_of(bytes: &[u8]) -> (LineBuf, LineEnd)
    ensures ended { result.1 ≡ result.0.ended }
    ensures whole { length bytes.now ≤ LONGEST_LINE → IsFalse (list_any is_lf bytes.now)
        → result.0 ≡ record { bytes = bytes.now; ended = LineEnd.Open } }
{
    let mut line = LineBuf::new();
    let taken = line.take(bytes);
    (line, taken.ended)
}

/// The line once more in a line buffer, which cuts it into cells.
pub(crate) fn line_again(bytes: &[u8]) -> LineBuf
    ensures ended { result.ended ≢ LineEnd.Open }
    ensures whole { length bytes.now ≤ LONGEST_LINE → IsFalse (list_any is_lf bytes.now)
        → result ≡ record { bytes = bytes.now; ended = LineEnd.Line } }
{
    let (mut line, ended) = line_of(bytes);
    if let LineEnd::Open = ended {
        line.close();
    }
    line
}
