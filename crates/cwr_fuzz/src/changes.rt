//! Changes in a text.

use crate::chances::Chance;
use crate::lines::{LineSpan, bytes_at, line_at, places, replaced, trimmed};
use crate::numbering::renumbered;
use std::alloc::{AllocError, Global};

/// What is put between other bytes.
const PUT_BETWEEN: &[&[u8]] = &[
    b" ",
    b"0",
    b"\n",
    b"\r",
    b"\r\n",
    b"\x7f",
    b"\xff",
    b"TRL",
    &[b'A'; 1100],
];

/// What is written over cells.
const CELLS: &[&[u8]] = &[
    b"        ",
    b"00000000",
    b"99999999",
    b"20240229",
    b"20230229",
    b"235959",
    b"240000",
    b"ZZ",
    b"N",
    b"Y",
    b"05000",
    b"10000",
    b"10006",
    b"T0345246801",
    b"A ",
    b"AS",
    b"AC",
    b"ORI",
    b"NWR",
    b"ACK",
    b"AGR",
    b"\x1f",
    b" ",
];

/// A line of a text.
fn some_place(places: &[LineSpan], chance: &mut Chance) -> LineSpan {
    match chance.one_of(places) {
        Some(place) => *place,
        None => LineSpan {
            start: 0,
            length: 0,
        },
    }
}

/// The place of some lines that follow one another, mostly of one.
fn some_lines(places: &[LineSpan], chance: &mut Chance) -> LineSpan {
    let at = chance.below(places.len());
    let most = if chance.is_one_in(2) { 1 } else { 9 };
    let count = chance.below(most).saturating_add(1);
    let mut lines = some_place(
        places.get(at..).unwrap_or(&[]).get(..1).unwrap_or(&[]),
        chance,
    );
    for place in places.iter().skip(at).take(count).skip(1) {
        lines.length = lines.length.saturating_add(place.length);
    }
    lines
}

/// The text with some bytes changed.
fn with_other_bytes(
    alloc: Global,
    text: &[u8],
    chance: &mut Chance,
) -> Result<Vec<u8>, AllocError> {
    let at = chance.below(text.len());
    match chance.below(5) {
        0 => {
            let byte = (chance.below(256) & 0xff) as u8;
            replaced(alloc, text, at, 1, &[byte])
        }
        1 => replaced(alloc, text, at, chance.below(30).saturating_add(1), b""),
        2 => {
            let put = chance.one_of(PUT_BETWEEN).copied().unwrap_or(b" ");
            replaced(alloc, text, at, 0, put)
        }
        3 => {
            let cell = chance.one_of(CELLS).copied().unwrap_or(b" ");
            replaced(alloc, text, at, cell.len(), cell)
        }
        _ => replaced(alloc, text, at, text.len(), b""),
    }
}

/// The text with the cells of some columns of a line from a line of another.
fn with_other_columns(
    alloc: Global,
    text: &[u8],
    line: LineSpan,
    other: &[u8],
    chance: &mut Chance,
) -> Result<Vec<u8>, AllocError> {
    let column = chance.below(line.length);
    let width = chance.below(30).saturating_add(1);
    let cell = bytes_at(other, column, width);
    let start = line.start.saturating_add(column);
    replaced(alloc, text, start, cell.len(), cell)
}

/// The text with spaces at the end of a line, so that it is about as long as a line may be.
fn with_long_line(
    alloc: Global,
    text: &[u8],
    line: LineSpan,
    chance: &mut Chance,
) -> Result<Vec<u8>, AllocError> {
    let short = trimmed(line_at(text, line));
    let mut long = Vec::new(alloc);
    long.extend_from_slice(short)?;
    for _ in short.len()..chance.below(12).saturating_add(1018) {
        long.push(b' ')?;
    }
    let end = if chance.is_one_in(2) {
        b"\n".as_slice()
    } else {
        b"\r\n"
    };
    long.extend_from_slice(end)?;
    replaced(alloc, text, line.start, line.length, long.as_slice())
}

/// The text with some lines changed, for which there are those of another.
fn with_other_lines(
    alloc: Global,
    text: &[u8],
    other: &[u8],
    chance: &mut Chance,
) -> Result<Vec<u8>, AllocError> {
    let here = places(alloc, text)?;
    let there = places(alloc, other)?;
    let line = some_place(here.as_slice(), chance);
    match chance.below(8) {
        0 => {
            let lines = some_lines(here.as_slice(), chance);
            replaced(alloc, text, lines.start, lines.length, b"")
        }
        1 => {
            let lines = some_lines(here.as_slice(), chance);
            replaced(alloc, text, line.start, 0, line_at(text, lines))
        }
        2 => {
            let lines = some_lines(there.as_slice(), chance);
            replaced(alloc, text, line.start, 0, line_at(other, lines))
        }
        3 => {
            let short = trimmed(line_at(text, line));
            let cut = replaced(alloc, text, line.start, line.length, short)?;
            replaced(
                alloc,
                cut.as_slice(),
                line.start.saturating_add(short.len()),
                0,
                b"\n",
            )
        }
        4 => {
            let source = line_at(other, some_place(there.as_slice(), chance));
            with_other_columns(alloc, text, line, source, chance)
        }
        5 => with_long_line(alloc, text, line, chance),
        6 => {
            let put = chance.one_of(PUT_BETWEEN).copied().unwrap_or(b" ");
            replaced(alloc, text, line.start, 0, put)
        }
        _ => {
            let source = line_at(text, some_place(here.as_slice(), chance));
            with_other_columns(alloc, text, line, source, chance)
        }
    }
}

/// The text with something changed, for which there is another text.
pub fn changed(
    alloc: Global,
    text: &[u8],
    other: &[u8],
    chance: &mut Chance,
) -> Result<Vec<u8>, AllocError> {
    match chance.below(4) {
        0 => with_other_bytes(alloc, text, chance),
        1 => renumbered(alloc, text),
        _ => with_other_lines(alloc, text, other, chance),
    }
}
