//! Tests of the rules on agreements, and of acknowledgements, on which there are none.

use crate::edited_records::{Case, check_findings};
use cwr_findings::Rule;
use cwr_shape::Level;
use cwr_worked::lines::*;

/// An agreement that is only begun.
const BEGUN: &[&[u8]] = &[AGR_0];

/// An agreement of one block.
const ONE_BLOCK: &[&[u8]] = &[AGR_0, TER_0_1, IPA_AS_0_2, IPA_AS_0_3, IPA_AC_0_4];

/// An agreement of two blocks, the second for two territories.
const TWO_BLOCKS: &[&[u8]] = &[
    AGR_0, TER_0_1, IPA_AS_0_2, IPA_AC_0_3, TER_0_4, TER_0_4, IPA_AC_0_5, IPA_AS_0_6, IPA_AC_0_5,
    IPA_AS_0_6,
];

const CASES: &[Case] = &[
    (
        BEGUN,
        &[(0, 7, b"20240101"), (0, 8, b"20231231")],
        &[(0, 8, Level::F, Rule::V10)],
    ),
    (BEGUN, &[(0, 7, b"20240101"), (0, 8, b"20240101")], &[]),
    (BEGUN, &[(0, 7, b"20240101"), (0, 8, b"00000000")], &[]),
    (BEGUN, &[(0, 7, b"20240101")], &[]),
    (
        ONE_BLOCK,
        &[(2, 11, b"06000"), (3, 11, b"04007")],
        &[(1, 1, Level::T, Rule::V11)],
    ),
    (
        ONE_BLOCK,
        &[(2, 11, b"06000"), (3, 11, b"04006"), (4, 11, b"10000")],
        &[],
    ),
    // both sides of the second block have too much, one of them in two rights: one finding, at its first territory
    (
        TWO_BLOCKS,
        &[
            (2, 11, b"10000"),
            (3, 13, b"10000"),
            (6, 13, b"10000"),
            (6, 15, b"10000"),
            (7, 15, b"10000"),
            (8, 13, b"00007"),
            (8, 15, b"00007"),
            (9, 15, b"00007"),
        ],
        &[(4, 1, Level::T, Rule::V11)],
    ),
];

#[test]
fn agreements(rt: HostRuntime) {
    check_findings(&rt, CASES);
}

const ACKNOWLEDGEMENT: &[Case] = &[
    (&[ACK_0, MSG_0_1], &[], &[]),
    (&[ACK_0, MSG_0_1, NWR_0_2, SWR_0_3], &[], &[]),
    // the copy of a work is judged as a work of its own, at its records' places in the acknowledgement
    (
        &[ACK_0, MSG_0_1, NWR_0_2, SWR_0_3],
        &[(2, 7, b"T0345246802"), (3, 8, b"AR")],
        &[(2, 7, Level::F, Rule::V1), (2, 1, Level::T, Rule::V6)],
    ),
    (
        &[ACK_0, AGR_0_1, TER_0_2, IPA_AS_0_3, IPA_AC_0_4],
        &[(1, 7, b"20240101"), (1, 8, b"20231231")],
        &[(1, 8, Level::F, Rule::V10)],
    ),
];

#[test]
fn acknowledgements(rt: HostRuntime) {
    check_findings(&rt, ACKNOWLEDGEMENT);
}
