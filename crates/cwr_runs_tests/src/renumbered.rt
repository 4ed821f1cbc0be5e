//! Tests of what is written and answered.

use crate::devices::{Bounded, FailsAfter};
use cwr_devices::{Counted, ReadAhead};
use cwr_judge::Refusal;
use cwr_renumber::renumber;
use cwr_shape::{Level, Limits, Reason};
use cwr_tools::{JoinReport, ToolFault};
use cwr_worked::lines::*;
use cwr_worked::texts::{ONE_ACKNOWLEDGEMENT, TWO_GROUPS, canonical};
use std::process::Abort;

/// The canonical text of lines, with that byte in the place of each byte of their derived cells.
fn scrambled(rt: &(impl Abort + AllocGlobal), lines: &[&[u8]], byte: u8) -> Vec<u8> {
    let mut text = canonical(rt.alloc(), lines).expect(&rt, "memory for a text");
    let mut start: usize = 0;
    for line in lines {
        let (from, to) = match line.get(..3).unwrap_or(line) {
            b"HDR" => (0, 0),
            b"GRH" => (6, 11),
            b"GRT" | b"TRL" => (3, 24),
            _ => (3, 19),
        };
        for k in from..to {
            if let Some(place) = text.get_mut(start.saturating_add(k)) {
                *place = byte;
            }
        }
        let rest = text.get(start..).unwrap_or(&[]);
        start = start.saturating_add(rest.iter().take_while(|it| **it != b'\n').count() + 1);
    }
    text
}

/// What is written of a text to a writer of so much room, and what is answered, where the reader fails after so many reads.
fn renumbered(
    rt: &(impl Abort + AllocGlobal),
    text: &[u8],
    reads: usize,
    room: usize,
) -> (Vec<u8>, Result<JoinReport, ToolFault>) {
    let limits = Limits::new(99_999_999, 99_999, 999_999).expect(&rt, "largest limits");
    let reader = ReadAhead::new(FailsAfter { left: text, reads });
    let writer = Counted::new(Bounded {
        text: Vec::new(rt.alloc()),
        room,
    });
    let (_, writer, answer) = renumber(rt.alloc(), limits, reader, writer);
    (writer.into_inner().text, answer)
}

/// Transmissions, and what their numbers are replaced by: by zeros, by nines and by spaces.
const GOOD: &[(&[&[u8]], u8)] = &[
    (ONE_ACKNOWLEDGEMENT, b'0'),
    (TWO_GROUPS, b'9'),
    (TWO_GROUPS, b' '),
];

#[test]
fn each_number_is_put_right(rt: HostRuntime) {
    for (row, (lines, byte)) in GOOD.iter().enumerate() {
        let text = scrambled(&rt, *lines, *byte);
        let wanted = canonical(rt.alloc(), *lines).expect(&rt, "memory for a text");
        let (written, answer) = renumbered(&rt, text.as_slice(), usize::MAX, 9999);
        assert!(rt; answer.is_ok(), "row {row}");
        assert!(rt; written.as_slice() == wanted.as_slice(), "row {row}");
    }
}

/// Lines whose numbers are wrong, and why no transmission continues from them once these are right.
const BAD: &[(&[&[u8]], ToolFault)] = &[
    // A writer right after GRH.
    (
        &[HDR, GRH_NWR, SWR_0_1],
        ToolFault::Refused(Refusal {
            rec: 3,
            field: 1,
            level: Level::G,
            reason: Reason::Misplaced,
        }),
    ),
    // A line of unknown kind in a transaction.
    (
        &[HDR, GRH_ACK, ACK_0, b"XYZ", ACK_1],
        ToolFault::Refused(Refusal {
            rec: 4,
            field: 1,
            level: Level::T,
            reason: Reason::UnknownKind,
        }),
    ),
    // Nothing after the header of a work.
    (&[HDR, GRH_NWR, NWR_0], ToolFault::Truncated { records: 3 }),
];

#[test]
fn what_is_wrong_beside_numbers_is_refused(rt: HostRuntime) {
    for (row, (lines, wanted)) in BAD.iter().enumerate() {
        let text = scrambled(&rt, *lines, b'7');
        let (_, answer) = renumbered(&rt, text.as_slice(), usize::MAX, 9999);
        assert!(rt; answer == Err(*wanted), "row {row}");
    }
}

#[test]
fn each_device_that_fails_is_answered(rt: HostRuntime) {
    let text = scrambled(&rt, TWO_GROUPS, b'0');
    for reads in 0..16 {
        let (_, answer) = renumbered(&rt, text.as_slice(), reads, 9999);
        assert!(rt; answer == Err(ToolFault::Reader), "after {reads} reads");
    }
    for room in [0, 1, 358, 1598] {
        let (written, answer) = renumbered(&rt, text.as_slice(), usize::MAX, room);
        assert!(rt; answer.is_err() && written.len() == room, "in {room} bytes");
    }
}
