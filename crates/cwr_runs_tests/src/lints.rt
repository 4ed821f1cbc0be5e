//! Tests of what a lint writes and answers.

use crate::devices::{Bounded, FailsAfter};
use cwr_devices::{Counted, ReadAhead};
use cwr_lint::lint;
use cwr_shape::Limits;
use cwr_tools::{ToolFault, Verdict};
use cwr_worked::lines::*;
use cwr_worked::texts::{ONE_ACKNOWLEDGEMENT, canonical};
use std::process::Abort;

/// The lines of a transmission, and what a lint writes of it.
type Linted = (&'static [&'static [u8]], &'static str);

/// A good one, one of whose transactions has no writer and whose last count is wrong, and one that ends too early; one with an HDR
/// between its groups, and one whose header is of unknown kind, with a wrong number after it; one with a finding, whose last count is wrong.
const LINTED: &[Linted] = &[
    (
        ONE_ACKNOWLEDGEMENT,
        "GOOD groups 1 transactions 1 records 5\n",
    ),
    (
        &[
            HDR,
            GRH_NWR,
            NWR_0,
            b"GRT000010000000100000004",
            GRH_REV_2,
            REV_0,
            SWR_0_1,
            REV_1,
            SWR_1_1,
            b"GRT000020000000200000006",
            b"TRL000020000000300000013",
        ],
        "FAULT record 4 field 1 level T misplaced\n\
         FAULT record 11 field 4 level E number expected 12\n\
         FAULTS 2 findings 0 records 11\n",
    ),
    (
        &[
            HDR,
            GRH_ACK,
            ACK_0,
            b"XYZ",
            ACK_1,
            b"GRT000010000000200000005",
        ],
        "FAULT record 4 field 1 level T unknown kind\n\
         TRUNCATED records 6\n\
         FAULTS 1 findings 0 records 6\n",
    ),
    (
        &[
            HDR,
            GRH_ACK,
            ACK_0,
            b"GRT000010000000100000003",
            HDR,
            b"GRHACK0000202.100000000001",
            ACK_0,
            b"GRT000020000000100000003",
            b"TRL000020000000200000008",
        ],
        "FAULT record 5 field 1 level E misplaced\n\
         FAULTS 1 findings 0 records 9\n",
    ),
    (
        &[
            HDR,
            GRH_NWR,
            b"NWX0000000000000000",
            b"IND0000000000000002GUITAR",
            b"GRT000010000000100000004",
            b"TRL000010000000100000006",
        ],
        "FAULT record 3 field 1 level G unknown kind\n\
         FAULT record 4 field 3 level T number expected 1\n\
         FAULTS 2 findings 0 records 6\n",
    ),
    (
        &[
            HDR,
            GRH_NWR,
            NWR_0_WITH_WRONG_ISWC,
            SWR_0_1,
            b"GRT000010000000100000004",
            b"TRL000010000000100000007",
        ],
        "FINDING group 1 transaction 0 record 0 field 7 level F rule V1\n\
         FAULT record 6 field 4 level E number expected 6\n\
         FAULTS 1 findings 1 records 6\n",
    ),
];

/// What a lint of a text writes to a writer of so much room, and what it answers, where the reader fails after so many reads.
fn linted(
    rt: &(impl Abort + AllocGlobal),
    text: &[u8],
    reads: usize,
    room: usize,
) -> (Vec<u8>, Result<Verdict, ToolFault>) {
    let limits = Limits::new(99_999_999, 99_999, 999_999).expect(&rt, "largest limits");
    let mut reader = ReadAhead::new(FailsAfter { left: text, reads });
    let writer = Counted::new(Bounded {
        text: Vec::new(rt.alloc()),
        room,
    });
    let (writer, answer) = lint(rt.alloc(), limits, None, false, false, &mut reader, writer);
    (writer.into_inner().text, answer)
}

/// The text of a row.
fn text_of(rt: &(impl Abort + AllocGlobal), row: usize) -> Vec<u8> {
    canonical(rt.alloc(), LINTED[row % 6].0).expect(&rt, "memory for a text")
}

#[test]
fn each_fault_is_told(rt: HostRuntime) {
    for (row, (_, wanted)) in LINTED.iter().enumerate() {
        let text = text_of(&rt, row);
        let (written, _) = linted(&rt, text.as_slice(), usize::MAX, 9999);
        assert!(rt; written.as_slice() == wanted.as_bytes(), "row {row}");
    }
}

#[test]
fn each_device_that_fails_is_answered(rt: HostRuntime) {
    let text = text_of(&rt, 1);
    for reads in 0..15 {
        let (_, answer) = linted(&rt, text.as_slice(), reads, 9999);
        assert!(rt; answer == Err(ToolFault::Reader), "after {reads} reads");
    }
}

#[test]
fn a_writer_that_fails_has_the_bytes_that_are_told(rt: HostRuntime) {
    let text = text_of(&rt, 5);
    let wanted = LINTED[5].1.as_bytes();
    for room in 0..wanted.len() {
        let (written, answer) = linted(&rt, text.as_slice(), usize::MAX, room);
        let fault = ToolFault::Writer {
            written: room as u64,
        };
        assert!(rt; answer == Err(fault), "in room for {room}");
        assert!(rt; written.as_slice() == &wanted[..room], "in room for {room}");
    }
}
