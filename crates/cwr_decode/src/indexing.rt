//! An index of the records of a text in memory. It takes no memory: what is found is put where the caller says.

ghost use Rattle.std.specs.Prelude.{◌≡◌, ◌≢◌, ◌↔◌, ◌≤◌, ◌++◌, [], ◌∷◌, List, length, take, IsNone, IsTrue, IfSome, IfOk, IfErr, IsOk, IsOkAnd, Some};
ghost use Rattle.cwr_fields.specs.Format.Kinds.{kind_of};
ghost use Rattle.cwr_lines.specs.declared.lines.LineEnd.TheVariants.{Open};
ghost use Rattle.cwr_lines.specs.Steps.Held.{empty_line};
ghost use Rattle.cwr_shape.specs.declared.symbols.Symbol.{Symbol};
ghost use Rattle.cwr_shape.specs.Steps.Tallies.{IsTallyOf};
ghost use Rattle.cwr_decode.specs.Steps.TextLines.{AcceptsLine, RefusesLine};
ghost use Rattle.cwr_decode.specs.Format.Entries.{IndexesTo};
ghost use Rattle.cwr_decode.specs.Steps.TakenLines.{BeginsWithLine, PutsAt, RefusesText, TakesLine};

use crate::endings::End;
use crate::first_lines::{first_line, length_without_return};
use cwr_fields::{Kind, SpelledPair};
use cwr_judge::{Refusal, count_quickly, judge};
use cwr_lines::{CutLine, LineBuf};
use cwr_shape::{Limits, Symbol, Tally, level};
use cwr_values::symbol_of;

/// Where a record's line stands in the text, and how far the transmission has come with it.
#[repr(C)]
#[derive(Clone, Copy, Debug, PartialEq, Eq)]
pub struct IndexEntry {
    /// The line's first byte, from 0.
    pub offset: usize,
    /// How many bytes it has before its end: neither its line feed nor a carriage return before that counts.
    pub length: usize,
    /// How many groups have begun.
    pub group: u32,
    /// How many transactions have begun, in all groups.
    pub transaction: u32,
}

/// What a line took.
#[derive(Clone, Copy, Debug)]
struct Accepted {
    /// Its bytes, with its end.
    taken: usize,
    /// Its bytes before that.
    length: usize,
    /// Whether its record is the last one of a transmission.
    last: bool,
}

/// Whether a record is the last one of a transmission.
#[inline(always)]
fn is_trailer(symbol: Symbol) -> bool
    ensures { IsTrue result ↔ (symbol ≡ Symbol.Plain Kind.Trl) }
{
    matches!(symbol, Symbol::Plain(Kind::Trl))
}

/// Counts the record of a line that may come next, and answers whether it is the last one; else why the line is refused.
fn judge_line(tally: &mut Tally, line: &LineBuf) -> Result<bool, Refusal>
    requires { line.now.ended ≢ Open }
    ensures ok { (xs : List Symbol) → IsTallyOf tally.old xs
        → IfOk result (λ last. AcceptsLine tally.old xs line.now last tally.new) }
    ensures err { (xs : List Symbol) → IsTallyOf tally.old xs
        → IfErr result (λ refusal. RefusesLine tally.old xs line.now refusal) }
{
    let cut = line.cut();
    match judge(tally, &cut) {
        Ok((symbol, _)) => Ok(is_trailer(symbol)),
        Err(fault) => Err(Refusal {
            rec: tally.records() + 1,
            field: fault.field,
            level: level(cut.kind(), fault.field, &fault.reason, tally.scope()),
            reason: fault.reason,
        }),
    }
}

/// Puts an entry at its place, where there is room for it.
fn put_entry(entries: &mut [IndexEntry], at: usize, entry: IndexEntry)
    ensures { PutsAt at entry entries.old entries.new }
{
    if at < entries.len() {
        entries[at] = entry;
    }
}

/// Counts the record of the line that the text begins with, where quick tests find that it may come next. Else nothing is said, and
/// nothing changes.
#[inline(always)]
fn take_cut(
    tally: &mut Tally,
    expected: &mut SpelledPair,
    cut: &CutLine<'_>,
    taken: usize,
    text: &[u8],
) -> Option<Accepted>
    requires { BeginsWithLine text.now taken cut.now }
    ensures some { (xs : List Symbol) → IsTallyOf tally.old xs
        → IfSome result (λ got. TakesLine tally.old xs text.now got tally.new) }
    ensures none { IsNone result → tally.new ≡ tally.old }
{
    if !count_quickly(tally, cut, expected) {
        return None;
    }
    let symbol = symbol_of(&cut.known_record());
    let length = length_without_return(&text[..taken.saturating_sub(1)]);
    Some(Accepted {
        taken,
        length,
        last: is_trailer(symbol),
    })
}

/// Takes the line at the front of the text, which is of the kind, where it stands in full width and quick tests find that its record
/// may come next. A kind that is constant where this is called makes each width and place constant too.
#[inline(always)]
fn take_as(
    kind: Kind,
    tally: &mut Tally,
    expected: &mut SpelledPair,
    text: &[u8],
) -> Option<Accepted>
    requires named { kind_of (take 3 text.now) ≡ Some kind }
    requires three { 3 ≤ length text.now }
    ensures some { (xs : List Symbol) → IsTallyOf tally.old xs
        → IfSome result (λ got. TakesLine tally.old xs text.now got tally.new) }
    ensures none { IsNone result → tally.new ≡ tally.old }
{
    let Some((cut, taken)) = CutLine::at_front(kind, text) else {
        return None;
    };
    take_cut(tally, expected, &cut, taken, text)
}

/// The same of whatever kind. The kinds of most lines have a branch each.
fn take_where_it_stands(
    tally: &mut Tally,
    expected: &mut SpelledPair,
    text: &[u8],
) -> Option<Accepted>
    ensures some { (xs : List Symbol) → IsTallyOf tally.old xs
        → IfSome result (λ got. TakesLine tally.old xs text.now got tally.new) }
    ensures none { IsNone result → tally.new ≡ tally.old }
{
    if text.len() < 3 {
        return None;
    }
    let Some(kind) = Kind::of(&text[..3]) else {
        return None;
    };
    match kind {
        Kind::Nwr => take_as(Kind::Nwr, tally, expected, text),
        Kind::Rev => take_as(Kind::Rev, tally, expected, text),
        Kind::Spu => take_as(Kind::Spu, tally, expected, text),
        Kind::Spt => take_as(Kind::Spt, tally, expected, text),
        Kind::Opu => take_as(Kind::Opu, tally, expected, text),
        Kind::Swr => take_as(Kind::Swr, tally, expected, text),
        Kind::Swt => take_as(Kind::Swt, tally, expected, text),
        Kind::Pwr => take_as(Kind::Pwr, tally, expected, text),
        Kind::Owr => take_as(Kind::Owr, tally, expected, text),
        Kind::Alt => take_as(Kind::Alt, tally, expected, text),
        Kind::Per => take_as(Kind::Per, tally, expected, text),
        Kind::Rec => take_as(Kind::Rec, tally, expected, text),
        _ => take_as(kind, tally, expected, text),
    }
}

/// Takes the line at the front of the text, filled up in the line buffer, where quick tests find that its record may come next.
fn take_filled(
    tally: &mut Tally,
    expected: &mut SpelledPair,
    line: &mut LineBuf,
    text: &[u8],
) -> Option<Accepted>
    requires { line.old ≡ empty_line }
    ensures some { (xs : List Symbol) → IsTallyOf tally.old xs
        → IfSome result (λ got. TakesLine tally.old xs text.now got tally.new) }
    ensures none { IsNone result → tally.new ≡ tally.old }
    ensures line { line.new ≡ empty_line }
{
    let Some(taken) = line.take_ended(text) else {
        return None;
    };
    let found = take_cut(tally, expected, &line.cut_looked_through(), taken, text);
    line.clear();
    found
}

/// Takes the line at the front of the text and counts its record. `None` at the end of the text, and a refusal where the record may
/// not come next.
fn take_slowly(
    tally: &mut Tally,
    line: &mut LineBuf,
    text: &[u8],
) -> Result<Option<Accepted>, Refusal>
    requires { line.old ≡ empty_line }
    ensures some { (xs : List Symbol) → IsTallyOf tally.old xs → IfOk result
        (λ found. IfSome found (λ got. TakesLine tally.old xs text.now got tally.new)) }
    ensures none { IsOkAnd result IsNone → (text.now ≡ []) × (tally.new ≡ tally.old) }
    ensures err { (xs : List Symbol) → IsTallyOf tally.old xs
        → IfErr result (λ refusal. RefusesText tally.old xs text.now refusal) }
    ensures line { IsOk result → line.new ≡ empty_line }
{
    let Some(taken) = first_line(line, text) else {
        line.clear();
        return Ok(None);
    };
    let length = length_without_return(&text[..line.len()]);
    match judge_line(tally, line) {
        Ok(last) => {
            line.clear();
            Ok(Some(Accepted {
                taken,
                length,
                last,
            }))
        }
        Err(refusal) => Err(refusal),
    }
}

/// Takes the line at the front of the text by quick tests: where it stands, or filled up in the line buffer.
#[inline(always)]
fn take_quickly(
    tally: &mut Tally,
    expected: &mut SpelledPair,
    line: &mut LineBuf,
    text: &[u8],
) -> Option<Accepted>
    requires { line.old ≡ empty_line }
    ensures some { (xs : List Symbol) → IsTallyOf tally.old xs
        → IfSome result (λ got. TakesLine tally.old xs text.now got tally.new) }
    ensures none { IsNone result → tally.new ≡ tally.old }
    ensures line { line.new ≡ empty_line }
{
    match take_where_it_stands(tally, expected, text) {
        Some(accepted) => Some(accepted),
        None => take_filled(tally, expected, line, text),
    }
}

/// Takes the line at the front of the text and counts its record, by quick tests first. `None` at the end of the text, and a refusal
/// where the record may not come next.
fn take_line(
    tally: &mut Tally,
    expected: &mut SpelledPair,
    line: &mut LineBuf,
    text: &[u8],
) -> Result<Option<Accepted>, Refusal>
    requires { line.old ≡ empty_line }
    ensures some { (xs : List Symbol) → IsTallyOf tally.old xs → IfOk result
        (λ found. IfSome found (λ got. TakesLine tally.old xs text.now got tally.new)) }
    ensures none { IsOkAnd result IsNone → (text.now ≡ []) × (tally.new ≡ tally.old) }
    ensures err { (xs : List Symbol) → IsTallyOf tally.old xs
        → IfErr result (λ refusal. RefusesText tally.old xs text.now refusal) }
    ensures line { IsOk result → line.new ≡ empty_line }
{
    match take_quickly(tally, expected, line, text) {
        Some(accepted) => Ok(Some(accepted)),
        None => take_slowly(tally, line, text),
    }
}

/// Walks the text to its end, within the limits, and puts an entry for each record that is accepted, as far as there is room.
/// Answers how many these are, and the text's end.
pub fn index(limits: Limits, text: &[u8], entries: &mut [IndexEntry]) -> (usize, End)
    ensures { IndexesTo limits text.now entries.old entries.new result.0 result.1 }
{
    let mut tally = Tally::new(limits);
    let mut expected = SpelledPair::new();
    let mut line = LineBuf::new();
    let mut used = 0;
    'lines: loop {
        let records = tally.records();
        let at = records as usize;
        match take_line(&mut tally, &mut expected, &mut line, &text[used..]) {
            Ok(Some(accepted)) => {
                let entry = IndexEntry {
                    offset: used,
                    length: accepted.length,
                    group: tally.groups(),
                    transaction: tally.transactions(),
                };
                put_entry(entries, at, entry);
                used += accepted.taken;
                if accepted.last {
                    return (at + 1, End::Accepted { used });
                }
            }
            Ok(None) => return (at, End::Truncated { records }),
            Err(refusal) => return (at, End::Refused(refusal)),
        }
    }
}
