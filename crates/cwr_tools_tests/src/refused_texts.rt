//! Tests of decoders over texts that are refused: how many items come before that, and the record, the field, the level
//! and the reason of the refusal.

use crate::answers::{BYTES, answers_on, check_same};
use crate::checks::check_equal;
use crate::decoders::{LARGEST, Numbers, text_of};
use cwr_decode::{End, Refusal};
use cwr_fields::CellFault;
use cwr_shape::Reason::{Limit, Misplaced, UnknownKind};
use cwr_shape::{Level, LimitKind, Reason};
use cwr_worked::lines::*;
use cwr_worked::texts::AGREEMENT_OF_TWO_BLOCKS;
use std::process::Abort;

/// HDR, GRH and the bare header of a work, which ends without a writer.
const WORK_WITHOUT_WRITER: &[&[u8]] = &[HDR, GRH_NWR, NWR_0, b"GRT000010000000100000003"];

/// Limits, lines, how many items they give, and the record and the field at which they are refused, the level and the
/// reason.
type Refused = (
    Numbers,
    &'static [&'static [u8]],
    usize,
    (u32, u8, Level, Reason),
);

#[rattlefmt::skip]
static COUNTS_AND_CELLS: [Refused; 8] = [
    (LARGEST, &[HDR, GRH_ACK, ACK_0, b"GRT000010000000100000002"], 2, (4, 4, Level::G, Reason::Number { expected: 3 })),
    (LARGEST, &[HDR, GRH_ACK, ACK_0, b"GRT000010000000100000003", b"TRL000010000000200000005"], 4, (5, 3, Level::E, Reason::Number { expected: 1 })),
    (LARGEST, &[HDR, GRH_NWR, NWR_0, SPU_0_1, SPT_0_2, OPU_0_3, SWR_0_3_WITH_SHARE, SWT_0_5], 2, (7, 3, Level::T, Reason::Number { expected: 4 })),
    (LARGEST, &[HDR, GRH_NWR, NWR_0, SWR_0_1, NWR_1_OF_UNKNOWN_CATEGORY], 2, (5, 10, Level::T, Reason::Cell(CellFault::NotACode))),
    (LARGEST, &[HDR, GRH_NWR, NWR_0, SWR_0_1, NWR_1, SWR_1_1_WITHOUT_NAME], 3, (6, 5, Level::R, Reason::Cell(CellFault::Blank))),
    (LARGEST, &[HDR, GRH_NWR, NWR_0, SWR_0_1, NWR_1, SWR_1_1_OVER_THE_WHOLE], 3, (6, 12, Level::F, Reason::Cell(CellFault::OverShare))),
    (LARGEST, &[b"\xef\xbb\xbfHDRPB123456789MUSIC HOUSE"], 0, (1, 1, Level::E, UnknownKind)),
    (LARGEST, &[b"hdrPB123456789MUSIC HOUSE"], 0, (1, 1, Level::E, UnknownKind)),
];

#[rattlefmt::skip]
static ORDERS: [Refused; 12] = [
    (LARGEST, WORK_WITHOUT_WRITER, 2, (4, 1, Level::T, Misplaced)),
    (LARGEST, &[HDR, GRH_NWR, NWR_0, SWR_0_1, SPU_0_2], 2, (5, 1, Level::T, Misplaced)),
    (LARGEST, &[HDR, GRH_NWR, NWR_0, SWR_0_1, EWT_0_2, SWR_0_3], 2, (6, 1, Level::T, Misplaced)),
    (LARGEST, &[HDR, HDR], 1, (2, 1, Level::E, Misplaced)),
    (LARGEST, &[HDR, GRH_NWR, REV_0], 2, (3, 1, Level::G, Misplaced)),
    (LARGEST, &[HDR, GRH_AGR, AGR_0, TER_0_1, IPA_AS_0_2, IPA_AS_0_3, b"GRT000010000000100000006"], 2, (7, 1, Level::T, Misplaced)),
    (LARGEST, &[HDR, GRH_ACK, ACK_0, b""], 2, (4, 1, Level::T, UnknownKind)),
    (LARGEST, &[HDR, GRH_NWR, NWR_0, SWR_0_1, ALT_0_2, IND_0_3, SWR_0_4], 2, (7, 1, Level::T, Misplaced)),
    (LARGEST, &[HDR, GRH_NWR, ARI_0_0], 2, (3, 1, Level::G, Misplaced)),
    (LARGEST, &[HDR, GRH_ACK, ACK_0, ARI_0_1], 2, (4, 1, Level::T, Misplaced)),
    (LARGEST, &[HDR, GRH_ACK, ACK_0, NWR_0_1, SWR_0_2, MSG_0_3], 2, (6, 1, Level::T, Misplaced)),
    (LARGEST, &[HDR, GRH_ACK, ACK_0, AGR_0_1, TER_0_2, IPA_AS_0_3, b"GRT000010000000100000006"], 2, (7, 1, Level::T, Misplaced)),
];

#[rattlefmt::skip]
static LIMITS: [Refused; 13] = [
    ((7, 99_999, 999_999), &[HDR, GRH_AGR], 1, (2, 2, Level::E, Limit(LimitKind::Records))),
    ((8, 1, 3), &[HDR, GRH_AGR], 1, (2, 2, Level::G, Limit(LimitKind::Transaction))),
    ((8, 99_999, 999_999), &[HDR, GRH_AGR, AGR_0, TER_0_1, IPA_AS_0_2, IPA_AS_0_3], 2, (6, 4, Level::E, Limit(LimitKind::Records))),
    ((9, 99_999, 999_999), &[HDR, GRH_AGR, AGR_0, TER_0_1, TER_0_2, TER_0_3], 2, (6, 1, Level::E, Limit(LimitKind::Records))),
    ((10, 99_999, 999_999), AGREEMENT_OF_TWO_BLOCKS, 2, (7, 1, Level::E, Limit(LimitKind::Records))),
    ((5, 1, 1), &[HDR, GRH_ACK, ACK_0, ACK_1], 2, (4, 1, Level::E, Limit(LimitKind::Records))),
    ((5, 1, 1), &[HDR, GRH_ACK, ACK_0, MSG_0_1], 2, (4, 1, Level::E, Limit(LimitKind::Records))),
    ((99_999_999, 99_999, 1), &[HDR, GRH_ACK, ACK_0, MSG_0_1], 2, (4, 1, Level::T, Limit(LimitKind::Transaction))),
    ((99_999_999, 1, 999_999), &[HDR, GRH_ACK, ACK_0, b"GRT000010000000100000003", GRH_ACK_2], 4, (5, 1, Level::E, Limit(LimitKind::Groups))),
    ((99, 1, 1), &[HDR, GRH_ACK, ACK_0, b"GRT000010000000100000003", b"GRH"], 4, (5, 1, Level::E, Limit(LimitKind::Groups))),
    ((99_999_999, 99_999, 2), &[HDR, GRH_NWR, NWR_0, IND_0_1], 2, (4, 1, Level::T, Limit(LimitKind::Transaction))),
    ((6, 99_999, 999_999), &[HDR, GRH_ACK, ACK_0, NWR_0_1], 2, (4, 1, Level::E, Limit(LimitKind::Records))),
    ((99_999_999, 99_999, 2), &[HDR, GRH_ACK, ACK_0, NWR_0_1], 2, (4, 1, Level::T, Limit(LimitKind::Transaction))),
];

/// Checks that a text gives so many items and is refused so, once so many bytes are used, in one piece and byte by byte.
pub(crate) fn check_refused(
    rt: &(impl Abort + AllocGlobal),
    (numbers, text): (Numbers, &[u8]),
    (items, used): (usize, usize),
    expected: Refusal,
) {
    let answers = answers_on(rt, numbers, text, &[]);
    let wanted = (items, used, Some(End::Refused(expected)));
    check_equal(rt, answers.numbers(), wanted);
    check_same(rt, (numbers, text), BYTES, &answers);
}

/// Checks that the lines are refused as the row says, with the line feed of the refused one.
fn check_row(rt: &(impl Abort + AllocGlobal), row: &Refused) {
    let (numbers, lines, items, (rec, field, level, reason)) = *row;
    let text = text_of(rt, lines);
    let taken = lines.get(..rec as usize).unwrap_or(lines);
    let used = text_of(rt, taken).len();
    let expected = Refusal {
        rec,
        field,
        level,
        reason,
    };
    check_refused(rt, (numbers, text.as_slice()), (items, used), expected);
}

#[test]
fn texts_are_refused_at_their_first_wrong_field(rt: HostRuntime) {
    for rows in [
        COUNTS_AND_CELLS.as_slice(),
        ORDERS.as_slice(),
        LIMITS.as_slice(),
    ] {
        for row in rows {
            check_row(&rt, row);
        }
    }
}
