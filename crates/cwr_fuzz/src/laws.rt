//! What must be so of the answers on any text.

use crate::answers::{WHOLE, Wrong, canonical, joined, parts, report, unless, verdict};
use crate::chances::Chance;
use crate::lines::{LineSpan, bytes_at, line_at, places, replaced};
use crate::numbering::counted_in;
use cwr_shape::Limits;
use cwr_tools::Verdict;
use std::alloc::Global;

/// The largest limits.
pub fn largest() -> Limits {
    Limits::new(99_999_999, 99_999, 999_999).unwrap()
}

/// A number of lines, as a number of records.
fn number_of(lines: usize) -> u32 {
    u32::try_from(lines).unwrap_or(u32::MAX)
}

/// What may follow a line that is refused.
const FOLLOWING: &[&[u8]] = &[
    b"",
    b"\n\n\n",
    b"TRL000010000000100000005\n",
    b"\x00\xff GRT",
    b"HDR",
];

/// One of the first lines of a text, of so many, with the number of lines before it.
fn some_line(
    alloc: Global,
    text: &[u8],
    first: usize,
    chance: &mut Chance,
) -> Result<(usize, LineSpan), Wrong> {
    let lines = places(alloc, text)?;
    let before = chance.below(first.min(lines.len()));
    let end = LineSpan {
        start: text.len(),
        length: 0,
    };
    Ok((before, lines.get(before).copied().unwrap_or(end)))
}

/// A text of which so many records are good, cut before that.
fn check_cut(
    alloc: Global,
    limits: Limits,
    text: &[u8],
    good: usize,
    chance: &mut Chance,
) -> Result<(), Wrong> {
    let (before, place) = some_line(alloc, text, good, chance)?;
    if place.length == 0 {
        return Ok(());
    }
    let records = number_of(before);
    let at_end = Verdict::Truncated { records };
    let found = verdict(alloc, limits, bytes_at(text, 0, place.start))?;
    unless(
        found == at_end,
        "cut behind a good line it isn't truncated there",
    )?;
    let cut = place.start.saturating_add(chance.below(place.length));
    let found = verdict(alloc, limits, bytes_at(text, 0, cut))?;
    let next = records.saturating_add(1);
    let holds = match found {
        Verdict::Truncated { records: read } => read == next || found == at_end,
        Verdict::Refused(refusal) => refusal.rec == next,
        Verdict::Good { records: all, .. } => all == next,
    };
    unless(holds, "cut within a good line it is refused elsewhere")
}

/// The line of a record, by its number from 1.
fn line_of(alloc: Global, text: &[u8], record: u32) -> Result<LineSpan, Wrong> {
    let lines = places(alloc, text)?;
    let place = lines.get((record as usize).saturating_sub(1)).copied();
    place.ok_or(Wrong::Law("a record that isn't there is refused"))
}

/// A text cut at the start of the line of this record is truncated there.
fn check_before(
    alloc: Global,
    limits: Limits,
    text: &[u8],
    start: usize,
    record: u32,
) -> Result<(), Wrong> {
    let found = verdict(alloc, limits, bytes_at(text, 0, start))?;
    let truncated = Verdict::Truncated {
        records: record.saturating_sub(1),
    };
    unless(
        found == truncated,
        "cut before its line what is refused isn't truncated",
    )
}

/// What is refused is refused so where something else follows its line, which ends there.
fn check_followed(
    alloc: Global,
    limits: Limits,
    text: &[u8],
    end: usize,
    chance: &mut Chance,
) -> Result<(), Wrong> {
    let found = verdict(alloc, limits, text)?;
    let other = chance.one_of(FOLLOWING).copied().unwrap_or(b"");
    let followed = replaced(alloc, text, end, text.len(), other)?;
    let again = verdict(alloc, limits, followed.as_slice());
    unless(
        again == Ok(found),
        "refused otherwise where something else follows",
    )
}

/// A text that is refused at a record stays so, and is truncated before it.
fn check_refused(
    alloc: Global,
    limits: Limits,
    text: &[u8],
    record: u32,
    chance: &mut Chance,
) -> Result<(), Wrong> {
    let before = (record as usize).saturating_sub(1);
    check_cut(alloc, limits, text, before, chance)?;
    let place = line_of(alloc, text, record)?;
    check_before(alloc, limits, text, place.start, record)?;
    if line_at(text, place).last() != Some(&b'\n') {
        return Ok(());
    }
    let end = place.start.saturating_add(place.length);
    check_followed(alloc, limits, text, end, chance)
}

/// A digit that isn't this one.
fn other_digit(digit: u8, chance: &mut Chance) -> u8 {
    let more = u8::try_from(chance.number_below(9).saturating_add(1)).unwrap_or(1);
    b'0'.saturating_add(digit.saturating_sub(b'0').saturating_add(more) % 10)
}

/// A number of a canonical text that is changed is refused there.
fn check_number(alloc: Global, text: &[u8], chance: &mut Chance) -> Result<(), Wrong> {
    let (before, place) = some_line(alloc, text, text.len(), chance)?;
    let Some(number) = chance.one_of(counted_in(line_at(text, place))) else {
        return Ok(());
    };
    let column = number.start.saturating_add(chance.below(number.width));
    let start = place.start.saturating_add(column);
    let digit = text.get(start).copied().unwrap_or(b'0');
    let changed = replaced(alloc, text, start, 1, &[other_digit(digit, chance)])?;
    let holds = match verdict(alloc, largest(), changed.as_slice()) {
        Ok(Verdict::Refused(refusal)) => {
            refusal.rec == number_of(before).saturating_add(1) && refusal.field == number.field
        }
        _ => false,
    };
    unless(holds, "a changed number isn't refused there")
}

/// The parts of a good text are good, of so many transactions each and together.
fn check_each_part(
    alloc: Global,
    texts: &[Vec<u8>],
    transactions: u32,
    size: u32,
) -> Result<(), Wrong> {
    let mut left = transactions;
    for part in texts {
        let some = match verdict(alloc, largest(), part.as_slice())? {
            Verdict::Good { transactions, .. } => transactions,
            _ => return Err(Wrong::Law("a part isn't good")),
        };
        unless(some == left.min(size), "a part has other transactions")?;
        left = left.saturating_sub(size);
    }
    unless(left == 0, "parts have fewer transactions")
}

/// The join of some parts.
fn joined_parts(alloc: Global, parts: &[Vec<u8>]) -> Result<Vec<u8>, Wrong> {
    let mut texts = Vec::new(alloc);
    for part in parts {
        texts.push(part.as_slice())?;
    }
    let (whole, _) = joined(alloc, largest(), texts.as_slice())?;
    Ok(whole)
}

/// The parts of a good text are good, and those of their join.
fn check_parts(
    alloc: Global,
    text: &[u8],
    transactions: u32,
    chance: &mut Chance,
) -> Result<(), Wrong> {
    let size = chance.number_below(3).saturating_add(1);
    let (shelf, report) = parts(alloc, largest(), text, size)?;
    unless(
        report.transactions == transactions && report.outputs as usize == shelf.texts().len(),
        "a split tells other transactions or parts",
    )?;
    check_each_part(alloc, shelf.texts(), transactions, size)?;
    let whole = joined_parts(alloc, shelf.texts())?;
    let (again, _) = parts(alloc, largest(), whole.as_slice(), size)?;
    unless(
        again.texts() == shelf.texts(),
        "parts that are joined and split again are others",
    )
}

/// The canonical text of a good one is its own canonical text, and is reported on as that one.
fn check_written(alloc: Global, limits: Limits, text: &[u8], once: &[u8]) -> Result<(), Wrong> {
    let twice = canonical(alloc, limits, once)?;
    unless(
        twice.as_slice() == once,
        "canonical text is written otherwise",
    )?;
    let first = report(alloc, limits, text, WHOLE)?;
    let second = report(alloc, limits, once, WHOLE)?;
    unless(
        first.text == second.text,
        "what is written is another transmission",
    )
}

/// A good text joined with its canonical text has each transaction twice, and joined alone is its canonical text.
fn check_joined(alloc: Global, text: &[u8], once: &[u8], transactions: u32) -> Result<(), Wrong> {
    let (alone, _) = joined(alloc, largest(), &[text])?;
    unless(
        alone.as_slice() == once,
        "a join of one text isn't its canonical text",
    )?;
    let (twofold, numbers) = joined(alloc, largest(), &[text, once])?;
    unless(
        numbers.transactions == transactions.saturating_mul(2),
        "a join lost transactions",
    )?;
    let whole = matches!(
        verdict(alloc, largest(), twofold.as_slice()),
        Ok(Verdict::Good { .. })
    );
    unless(whole, "a join isn't good")
}

/// A good text is kept where it is written, joined and split.
fn check_good(
    alloc: Global,
    limits: Limits,
    text: &[u8],
    transactions: u32,
    chance: &mut Chance,
) -> Result<(), Wrong> {
    let once = canonical(alloc, limits, text)?;
    check_written(alloc, limits, text, once.as_slice())?;
    check_joined(alloc, text, once.as_slice(), transactions)?;
    check_number(alloc, once.as_slice(), chance)?;
    check_parts(alloc, text, transactions, chance)
}

/// Limits, mostly the largest.
fn some_limits(chance: &mut Chance) -> Limits {
    if !chance.is_one_in(4) {
        return largest();
    }
    let records = chance.number_below(40).saturating_add(5);
    let groups = chance.number_below(4).saturating_add(1);
    let transaction = chance.number_below(20).saturating_add(1);
    Limits::new(records, groups, transaction).unwrap_or(largest())
}

/// What is reported on a text in pieces of these sizes is this.
fn check_sizes(
    alloc: Global,
    limits: Limits,
    text: &[u8],
    whole: &[u8],
    sizes: &[usize],
) -> Result<(), Wrong> {
    let pieces = report(alloc, limits, text, sizes)?;
    unless(
        pieces.text.as_slice() == whole,
        "in other pieces the answer is another",
    )
}

/// The answer on a text is the same in any pieces: of one byte, of some sizes, and two, of which the second begins with a line
/// or within it.
fn check_pieces(
    alloc: Global,
    limits: Limits,
    text: &[u8],
    whole: &[u8],
    chance: &mut Chance,
) -> Result<(), Wrong> {
    check_sizes(alloc, limits, text, whole, &[1])?;
    let sizes = [
        chance.below(9).saturating_add(1),
        chance.below(90).saturating_add(1),
        chance.below(900).saturating_add(1),
    ];
    check_sizes(alloc, limits, text, whole, sizes.as_slice())?;
    let (_, place) = some_line(alloc, text, text.len(), chance)?;
    let cut = place.start.saturating_add(chance.below(5));
    check_sizes(alloc, limits, text, whole, &[usize::MAX, cut])
}

/// Holds the answers on a text to what must be so of any, and tells the verdict.
pub fn judge(alloc: Global, text: &[u8], chance: &mut Chance) -> Result<Verdict, Wrong> {
    let limits = some_limits(chance);
    let whole = report(alloc, limits, text, WHOLE)?;
    unless(
        whole.checked == whole.shown,
        "a show has another verdict than a check",
    )?;
    check_pieces(alloc, limits, text, whole.text.as_slice(), chance)?;
    let found = whole.checked;
    match found {
        Verdict::Good {
            transactions,
            records,
            ..
        } => {
            check_cut(alloc, limits, text, records as usize, chance)?;
            check_good(alloc, limits, text, transactions, chance)?;
        }
        Verdict::Refused(refusal) => check_refused(alloc, limits, text, refusal.rec, chance)?,
        Verdict::Truncated { records } => {
            let lines = places(alloc, text)?.len();
            unless(lines == records as usize, "truncated after other records")?;
            check_cut(alloc, limits, text, lines, chance)?;
        }
    }
    Ok(found)
}
