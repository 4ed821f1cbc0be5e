//! Tests of lines: that they are taken in pieces and cut into cells as the written tables of CWR 2.1 have it.

ghost use Rattle.std.specs.Prelude.{◌≢◌};

use crate::checks::check_equal;
use cwr_fields::{Kind, all_kinds, letters, width};
use cwr_lines::{CutLine, LineBuf, LineEnd, LinePad};
use std::process::Abort;

/// Takes two pieces: how many bytes of the second are used, how the line ends, and how long it is. `None` where it ends in
/// the first, or not all of that is used.
fn take_two(first: &[u8], second: &[u8]) -> Option<(usize, LineEnd, usize)> {
    let mut line = LineBuf::new();
    let begun = line.take(first);
    if begun.ended != LineEnd::Open || begun.used != first.len() {
        return None;
    }
    let taken = line.take(second);
    Some((taken.used, taken.ended, line.len()))
}

/// As many bytes as the longest line has.
const LONG: [u8; 1024] = [b'A'; 1024];

#[test]
fn takes_by_pieces(rt: HostRuntime) {
    let table: [(&[u8], &[u8], usize, LineEnd, usize); 5] = [
        (b"", b"", 0, LineEnd::Open, 0),
        (b"", b"AB\nC", 3, LineEnd::Line, 2),
        (&LONG, b"x", 0, LineEnd::Over, 1024),
        (&LONG, b"\n", 1, LineEnd::Line, 1024),
        (b"A\r", b"\n", 1, LineEnd::Line, 2),
    ];
    for (first, second, used, ended, len) in table {
        check_equal(&rt, take_two(first, second), Some((used, ended, len)));
    }
}

/// The line that a text begins with.
fn line_of(text: &[u8]) -> LineBuf
    ensures { result.ended ≢ LineEnd.Open }
{
    let mut line = LineBuf::new();
    let taken = line.take(text);
    if taken.ended == LineEnd::Open {
        line.close();
    }
    line
}

/// Cells by the numbers of their fields, or none where there is no such field.
type Cells = &'static [(u8, Option<&'static [u8]>)];

/// Checks cells of a line.
fn check_cells(rt: &impl Abort, cut: &CutLine<'_>, cells: Cells) {
    for (j, cell) in cells {
        check_equal(rt, (j, cut.cell(*j)), (j, *cell));
    }
}

/// Checks the cells of a line of TRL, and whether its excess is bad.
fn check_trailer(rt: &impl Abort, text: &[u8], cells: Cells, excess: bool) {
    let line = line_of(text);
    let cut = line.cut();
    check_equal(rt, (cut.kind(), cut.excess()), (Some(Kind::Trl), excess));
    check_cells(rt, &cut, cells);
}

#[rattlefmt::skip]
const WHOLE: Cells = &[(0, None), (1, Some(b"TRL")), (2, Some(b"00001")), (3, Some(b"00000001")), (4, Some(b"00000005")), (5, None)];

#[rattlefmt::skip]
const SECOND: Cells = &[(0, None), (1, Some(b"TRL")), (2, Some(b"00002")), (3, Some(b"        ")), (4, Some(b"        ")), (5, None)];

#[rattlefmt::skip]
const THIRD: Cells = &[(0, None), (1, Some(b"TRL")), (2, Some(b"00003")), (3, Some(b"   9    ")), (4, Some(b"        ")), (5, None)];

#[test]
fn cells_and_excess_of_trailers(rt: HostRuntime) {
    check_trailer(&rt, b"TRL000010000000100000005\r\n", WHOLE, false);
    check_trailer(&rt, b"TRL000010000000100000005   ", WHOLE, false);
    check_trailer(&rt, b"TRL000010000000100000005X\n", WHOLE, true);
    check_trailer(&rt, b"TRL000010000000100000005\r\r\n", WHOLE, true);
    // Lines that are filled up.
    check_trailer(&rt, b"TRL00002\r\nTRL", SECOND, false);
    check_trailer(&rt, b"TRL00003   9\n", THIRD, false);
}

#[test]
fn unknown_kinds_have_no_cells(rt: HostRuntime) {
    let texts: [&[u8]; 5] = [b"", b"\r\n", b"HD\n", b"hdr\n", b"EXC000000000000000X\n"];
    for text in texts {
        let line = line_of(text);
        let cut = line.cut();
        let answer = (cut.kind(), cut.cell(1), cut.excess());
        check_equal(&rt, answer, (None, None, false));
    }
}

#[test]
fn lines_that_are_too_long(rt: HostRuntime) {
    let mut text = [b' '; 1025];
    text[..3].copy_from_slice(b"TRL");
    text[1023] = b'\r';
    let line = line_of(&text);
    check_equal(&rt, line.len(), 1024);
    let cut = line.cut();
    check_equal(&rt, cut.kind(), Some(Kind::Trl));
    check_equal(&rt, cut.cell(2), Some(&b"     "[..]));
    assert!(rt; cut.excess());
}

#[test]
fn cleared_lines_are_new(rt: HostRuntime) {
    let mut line = line_of(b"TRL000010000000100000005\r\n");
    let before = line.len();
    line.clear();
    let cleared = line.len();
    let taken = line.take(b"GRH");
    check_equal(&rt, (before, cleared, line.len()), (25, 0, 3));
    check_equal(&rt, (taken.used, taken.ended), (3, LineEnd::Open));
}

/// An acknowledgement in full width.
const ACK: [u8; 159] =
    *b"ACK0000000000000000202401021015000000100000000NWRBLUE RIVER                                                  W0001                                   20240110AS";

/// The kind of a record, and its cells 13 and 2.
type Found<'a> = (Kind, Option<&'a [u8]>, Option<&'a [u8]>);

/// What is found in a line, if it is a record.
fn found_in<'a>(cut: &CutLine<'a>) -> Option<Found<'a>> {
    let found = cut.record()?;
    Some((found.kind(), found.cell(13), found.cell(2)))
}

/// Checks the record of a text's first line, if it is one, and whether the line's excess is bad.
fn check_record(rt: &impl Abort, text: &[u8], wanted: Option<Found<'_>>, excess: bool) {
    let line = line_of(text);
    let cut = line.cut();
    check_equal(rt, (found_in(&cut), cut.excess()), (wanted, excess));
}

#[test]
fn records_of_lines(rt: HostRuntime) {
    let accepted: Found<'_> = (Kind::Ack, Some(b"AS"), None);
    check_record(&rt, &ACK, Some(accepted), false);
    let mut unknown_status = ACK;
    unknown_status[157..].copy_from_slice(b"ZZ");
    check_record(&rt, &unknown_status, None, false);
    let mut longer = [b'X'; 160];
    longer[..159].copy_from_slice(&ACK);
    check_record(&rt, &longer, Some(accepted), true);
    check_record(&rt, b"XYZ", None, false);
}

#[test]
fn sequences_of_lines_inside_transactions(rt: HostRuntime) {
    let line = line_of(b"SPT0000000100000002P1\r\n");
    check_equal(
        &rt,
        line.cut().sequences(),
        Some(b"0000000100000002".as_slice()),
    );
    let texts: [&[u8]; 3] = [
        b"TRL000010000000100000005\n",
        b"GRH",
        b"XYZ0000000100000002",
    ];
    for text in texts {
        assert!(rt; line_of(text).cut().sequences().is_none());
    }
}

/// How many bytes the line takes that a text begins with, where it is taken before its kind is looked up again.
fn taken_by_kind(text: &[u8]) -> Option<usize> {
    if text.len() < 3 {
        return None;
    }
    let kind = Kind::of(&text[..3])?;
    let mut pad = LinePad::new();
    match CutLine::front_of(kind, text, &mut pad) {
        Some((_, used)) => Some(used),
        None => None,
    }
}

/// A line of the kind's letters and of spaces up to a place, where its line end stands, and what follows it.
fn line_up_to(kind: Kind, at: usize, returned: bool) -> [u8; 2048] {
    let mut text = [b' '; 2048];
    for (place, letter) in letters(kind).iter().enumerate() {
        if place < text.len() {
            text[place] = *letter;
        }
    }
    let end = if returned { at.saturating_add(1) } else { at };
    if end < text.len() {
        text[at] = b'\r';
        text[end] = b'\n';
    }
    text
}

#[test]
fn lines_of_each_kind_with_and_without_trailing_spaces(rt: HostRuntime) {
    for kind in all_kinds() {
        for at in [3, 12, width(*kind)] {
            let line = line_up_to(*kind, at, false);
            check_equal(&rt, taken_by_kind(&line), at.checked_add(1));
            let line = line_up_to(*kind, at, true);
            check_equal(&rt, taken_by_kind(&line), at.checked_add(2));
        }
        let behind = width(*kind).saturating_add(1);
        let line = line_up_to(*kind, behind, true);
        check_equal(&rt, taken_by_kind(&line), None);
    }
}
