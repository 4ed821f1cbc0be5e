//! Texts as lines.

use std::alloc::{AllocError, Global};

/// Where a line stands in a text: its first byte, and how many there are, its line feed among them.
#[derive(Clone, Copy, Debug, PartialEq, Eq)]
pub struct LineSpan {
    /// How many bytes stand before it.
    pub start: usize,
    /// How many bytes it has.
    pub length: usize,
}

/// The bytes from one place on, so many of them as there are.
pub fn bytes_at(text: &[u8], start: usize, length: usize) -> &[u8] {
    let rest = text.get(start..).unwrap_or(b"");
    rest.get(..length).unwrap_or(rest)
}

/// How long the first line is.
fn first_length(text: &[u8]) -> usize {
    let mut length: usize = 0;
    for byte in text {
        length = length.saturating_add(1);
        if *byte == b'\n' {
            break;
        }
    }
    length
}

/// Where the lines of a text stand; the last may have no line feed.
pub fn places(alloc: Global, text: &[u8]) -> Result<Vec<LineSpan>, AllocError> {
    let mut places = Vec::new(alloc);
    let mut start: usize = 0;
    for _ in 0..text.len() {
        let length = first_length(text.get(start..).unwrap_or(b""));
        if length == 0 {
            break;
        }
        places.push(LineSpan { start, length })?;
        start = start.saturating_add(length);
    }
    Ok(places)
}

/// The bytes of the line at a place.
pub fn line_at(text: &[u8], place: LineSpan) -> &[u8] {
    bytes_at(text, place.start, place.length)
}

/// A line without the spaces and the line end at its end.
pub fn trimmed(line: &[u8]) -> &[u8] {
    let mut left = line;
    for _ in 0..line.len() {
        match left.split_last() {
            Some((b' ' | b'\r' | b'\n', front)) => left = front,
            _ => break,
        }
    }
    left
}

/// The text with other bytes in place of some of its own.
pub fn replaced(
    alloc: Global,
    text: &[u8],
    start: usize,
    length: usize,
    with: &[u8],
) -> Result<Vec<u8>, AllocError> {
    let mut changed = Vec::new(alloc);
    changed.extend_from_slice(bytes_at(text, 0, start))?;
    changed.extend_from_slice(with)?;
    let rest = text.get(start.saturating_add(length)..).unwrap_or(b"");
    changed.extend_from_slice(rest)?;
    Ok(changed)
}
