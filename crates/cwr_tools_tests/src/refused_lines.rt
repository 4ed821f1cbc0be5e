//! Tests of the first field of a line that is wrong, and why, on written lines after the records of worked transmissions.

use crate::decoders::{LARGEST, text_of};
use crate::refused_texts::check_refused;
use cwr_decode::Refusal;
use cwr_fields::CellFault;
use cwr_shape::{Level, Reason};
use cwr_worked::lines::{
    ACK_0, GRH_ACK, GRH_NWR, HDR, HDR_OF_ANOTHER_VERSION, IND_0_1, NWR_0, SWR_0_1,
};
use std::process::Abort;

/// Lines that were accepted, how many items they give, and the number of the next record.
type Before = (&'static [&'static [u8]], usize, u32);

const NOTHING: Before = (&[], 0, 1);

const HEADER: Before = (&[HDR], 1, 2);

const GROUP: Before = (&[HDR, GRH_ACK], 2, 3);

const ACKNOWLEDGEMENT: Before = (&[HDR, GRH_ACK, ACK_0], 2, 4);

const WORK_HEADER: Before = (&[HDR, GRH_NWR, NWR_0], 2, 4);

const WORK: Before = (&[HDR, GRH_NWR, NWR_0, SWR_0_1], 2, 5);

/// An acknowledgement in full width, and a space after its last field.
const ACK: &[u8] =
    b"ACK0000000000000000202401021015000000100000000NWRBLUE RIVER                                                  W0001                                   20240110AS ";

/// A new work that ends with its distribution category, which is no code.
const ROCK: &[u8] =
    b"NWR0000000100000000BLUE RIVER                                                    W0001                                        ROC";

/// The records before a line, the line, bytes that stand in it instead from a place on, before which spaces stand where the
/// line is shorter, and the field at which it is refused, the level and the reason.
type RefusedLine = (
    Before,
    &'static [u8],
    &'static [(usize, &'static [u8])],
    u8,
    Level,
    Reason,
);

#[rattlefmt::skip]
static LINES: [RefusedLine; 26] = [
    (HEADER, b"GRHXYZ0000102.100000000001", &[], 2, Level::G, Reason::Cell(CellFault::NotACode)),
    (HEADER, b"GRHACK0000202.100000000001", &[], 3, Level::G, Reason::Number { expected: 1 }),
    (HEADER, b"GRHACK0000102.000000000001", &[], 4, Level::G, Reason::Cell(CellFault::NotConstant)),
    (GROUP, b"XYZ", &[], 1, Level::G, Reason::UnknownKind),
    (GROUP, b"", &[], 1, Level::G, Reason::UnknownKind),
    (GROUP, b"GRT000010000000000000002", &[], 1, Level::G, Reason::Misplaced),
    (GROUP, b"MSG", &[], 1, Level::G, Reason::Misplaced),
    (GROUP, ACK, &[(3, b"00000001")], 2, Level::T, Reason::Number { expected: 0 }),
    (GROUP, ACK, &[(11, b"00000001")], 3, Level::T, Reason::Number { expected: 0 }),
    (GROUP, ACK, &[(11, b"0000000A")], 3, Level::T, Reason::Cell(CellFault::NotDigits)),
    (GROUP, ACK, &[(11, b"        ")], 3, Level::T, Reason::Cell(CellFault::Blank)),
    (GROUP, ACK, &[(11, b"00000001"), (157, b"ZZ")], 3, Level::T, Reason::Number { expected: 0 }),
    (GROUP, ACK, &[(19, b"20240230")], 4, Level::T, Reason::Cell(CellFault::NotADate)),
    (GROUP, ACK, &[(46, b"   ")], 8, Level::T, Reason::Cell(CellFault::Blank)),
    (GROUP, ACK, &[(157, b"ZZ")], 13, Level::T, Reason::Cell(CellFault::NotACode)),
    (GROUP, ACK, &[(157, b"  ")], 13, Level::T, Reason::Cell(CellFault::Blank)),
    (GROUP, ACK, &[(159, b"X")], 14, Level::T, Reason::Excess),
    (ACKNOWLEDGEMENT, b"GRT000020000000100000003", &[], 2, Level::G, Reason::Number { expected: 1 }),
    (ACKNOWLEDGEMENT, b"GRT000010000000100000004             X", &[], 4, Level::G, Reason::Number { expected: 3 }),
    (ACKNOWLEDGEMENT, b"GRT000010000000100000003             X", &[], 7, Level::G, Reason::Excess),
    (WORK, b"SPU", &[], 1, Level::T, Reason::Misplaced),
    (WORK, b"SWR0000000000000003", &[], 3, Level::T, Reason::Number { expected: 2 }),
    (WORK, ROCK, &[], 10, Level::T, Reason::Cell(CellFault::NotACode)),
    (WORK_HEADER, IND_0_1, &[(719, b"X")], 5, Level::R, Reason::Excess),
    (NOTHING, HDR, &[(1024, b" ")], 10, Level::E, Reason::Excess),
    (NOTHING, HDR_OF_ANOTHER_VERSION, &[(1024, b" ")], 5, Level::E, Reason::Cell(CellFault::NotConstant)),
];

/// A line that is filled up with spaces to so many bytes, and its line feed.
pub(crate) fn filled_up(rt: &(impl Abort + AllocGlobal), line: &[u8], len: usize) -> Vec<u8> {
    let mut text = line.to_vec(rt.alloc()).expect(rt, "no memory");
    text.resize(len, b' ').expect(rt, "no memory");
    text.push(b'\n').expect(rt, "no memory");
    text
}

/// Writes over the bytes of a text from a place on.
fn put(text: &mut [u8], start: usize, bytes: &[u8]) {
    for (k, byte) in bytes.iter().enumerate() {
        if let Some(place) = text.get_mut(start.saturating_add(k)) {
            *place = *byte;
        }
    }
}

/// The line of a row with the other bytes in it, and its line feed.
fn line_of(rt: &(impl Abort + AllocGlobal), row: &RefusedLine) -> Vec<u8> {
    let (_, line, changes, ..) = *row;
    let mut len = line.len();
    for (at, bytes) in changes {
        len = len.max(at.saturating_add(bytes.len()));
    }
    let mut text = filled_up(rt, line, len);
    for (at, bytes) in changes {
        put(text.as_mut_slice(), *at, bytes);
    }
    text
}

/// Checks that the line of a row is refused after the records before it.
fn check_line(rt: &(impl Abort + AllocGlobal), row: &RefusedLine) {
    let (before, .., field, level, reason) = *row;
    let line = line_of(rt, row);
    let mut text = text_of(rt, before.0);
    // Of a line that is too long so many bytes are used.
    let used = text.len().saturating_add(line.len().min(1024));
    text.extend_from_slice(line.as_slice())
        .expect(rt, "no memory");
    let expected = Refusal {
        rec: before.2,
        field,
        level,
        reason,
    };
    let given = (LARGEST, text.as_slice());
    check_refused(rt, given, (before.1, used), expected);
}

#[test]
fn lines_are_refused_at_their_first_wrong_field(rt: HostRuntime) {
    for row in &LINES {
        check_line(&rt, row);
    }
}
