//! Tests of the rules on works.

use crate::edited_records::{Case, check_findings};
use cwr_findings::Rule;
use cwr_shape::Level;
use cwr_worked::lines::*;
use cwr_worked::texts::ELEVEN_RECORDS;

/// The work of eleven records.
const LONG: &[&[u8]] = ELEVEN_RECORDS;

/// A work of one writer.
const SHORT: &[&[u8]] = &[NWR_0, SWR_0_1];

/// A work of one writer, taken from another.
const EXCERPT: &[&[u8]] = &[NWR_0, SWR_0_1, EWT_0_2];

const LONG_CASES: &[Case] = &[
    (LONG, &[], &[]),
    (LONG, &[(5, 4, b"W9")], &[(5, 4, Level::R, Rule::V2)]),
    (LONG, &[(1, 15, b"04993")], &[(0, 1, Level::T, Rule::V4)]),
    (LONG, &[(1, 17, b"05007")], &[(0, 1, Level::T, Rule::V5)]),
    (LONG, &[(1, 17, b"05006")], &[]),
    (LONG, &[(6, 4, b"P9")], &[(6, 4, Level::R, Rule::V7)]),
];

const SHORT_CASES: &[Case] = &[
    (SHORT, &[], &[]),
    (
        SHORT,
        &[(0, 7, b"T0345246802")],
        &[(0, 7, Level::F, Rule::V1)],
    ),
    (SHORT, &[(0, 7, b"T0345246801")], &[]),
    (SHORT, &[(1, 12, b"09993")], &[(0, 1, Level::T, Rule::V3)]),
    (SHORT, &[(1, 12, b"09994")], &[]),
    (SHORT, &[(1, 8, b"AR")], &[(0, 1, Level::T, Rule::V6)]),
    (SHORT, &[(0, 23, b"001")], &[(0, 23, Level::T, Rule::V9)]),
    (SHORT, &[(0, 23, b"000")], &[]),
    (
        SHORT,
        &[(0, 7, b"T0345246802"), (1, 8, b"AR")],
        &[(0, 7, Level::F, Rule::V1), (0, 1, Level::T, Rule::V6)],
    ),
    (EXCERPT, &[], &[(2, 1, Level::R, Rule::V8)]),
    (EXCERPT, &[(0, 16, b"MOV")], &[]),
    // a record that is carried as text is counted, and seen through
    (
        &[NWR_0, IND_0_1, SWR_0_2, EWT_0_3],
        &[],
        &[(3, 1, Level::R, Rule::V8)],
    ),
    // only begun: no writer has come yet, and so none who has written words or music
    (&[NWR_0], &[], &[(0, 1, Level::T, Rule::V6)]),
];

/// The second SPT names the publisher before the nearest one, and PWR either.
const NEAREST_CASES: &[Case] = &[(
    &[
        NWR_0,
        SPU_0_1,
        SPT_0_2,
        SPU_0_2,
        SPT_0_2,
        SWR_0_4_WITH_SHARE,
        PWR_0_6,
        PWR_0_6,
    ],
    &[(3, 5, b"P2"), (3, 13, b"05000"), (6, 4, b"P2")],
    &[(4, 4, Level::R, Rule::V2)],
)];

/// A work of so many publishers that their numbers are kept in a set. The first, the twentieth and the last have numbers of
/// their own; of the publishers that the PWR records name four are there, and three aren't.
const MANY_PUBLISHERS: &[Case] = &[(
    &[
        NWR_0,
        SPU_0_1,
        SPU_0_1,
        SPU_0_1,
        SPU_0_1,
        SPU_0_1,
        SPU_0_1,
        SPU_0_1,
        SPU_0_1,
        SPU_0_1,
        SPU_0_1,
        SPU_0_1,
        SPU_0_1,
        SPU_0_1,
        SPU_0_1,
        SPU_0_1,
        SPU_0_1,
        SPU_0_1,
        SPU_0_1,
        SPU_0_1,
        SPU_0_1,
        SPU_0_1,
        SPU_0_1,
        SPU_0_1,
        SPU_0_1,
        SPU_0_1,
        SPU_0_1,
        SPU_0_1,
        SPU_0_1,
        SPU_0_1,
        SPU_0_1,
        SPU_0_1,
        SPU_0_1,
        SPU_0_1,
        SWR_0_4_WITH_SHARE,
        PWR_0_6,
        PWR_0_6,
        PWR_0_6,
        PWR_0_6,
        PWR_0_6,
        PWR_0_6,
        PWR_0_6,
    ],
    &[
        (1, 5, b"P2"),
        (20, 5, b"P3"),
        (33, 5, b"P4"),
        (36, 4, b"P2"),
        (37, 4, b"P3"),
        (38, 4, b"P4"),
        (39, 4, b"P5"),
        (40, 4, b"P"),
        (41, 4, b"P11"),
    ],
    &[
        (0, 1, Level::T, Rule::V3),
        (0, 1, Level::T, Rule::V4),
        (0, 1, Level::T, Rule::V5),
        (39, 4, Level::R, Rule::V7),
        (40, 4, Level::R, Rule::V7),
        (41, 4, Level::R, Rule::V7),
    ],
)];

/// A work that breaks each rule on works.
const ALL_AT_ONCE: &[Case] = &[(
    &[
        NWR_0,
        SPU_0_1,
        SPT_0_2,
        SWR_0_3_WITH_SHARE,
        SWT_0_5,
        PWR_0_6,
        EWT_0_2,
        VER_0_2,
        COM_0_4,
    ],
    &[
        (0, 7, b"T0345246802"),
        (0, 23, b"002"),
        (1, 15, b"04000"),
        (1, 17, b"04000"),
        (2, 4, b"P2"),
        (3, 8, b"AR"),
        (4, 4, b"W2"),
        (5, 4, b"P3"),
        (6, 5, b"T0345246802"),
        (7, 5, b"T0345246801"),
        (8, 5, b"W0345246801"),
    ],
    &[
        (0, 7, Level::F, Rule::V1),
        (0, 1, Level::T, Rule::V3),
        (0, 1, Level::T, Rule::V4),
        (0, 1, Level::T, Rule::V5),
        (0, 1, Level::T, Rule::V6),
        (0, 23, Level::T, Rule::V9),
        (2, 4, Level::R, Rule::V2),
        (4, 4, Level::R, Rule::V2),
        (5, 4, Level::R, Rule::V7),
        (6, 5, Level::F, Rule::V1),
        (6, 1, Level::R, Rule::V8),
        (8, 5, Level::F, Rule::V1),
    ],
)];

#[test]
fn works(rt: HostRuntime) {
    for cases in [
        LONG_CASES,
        SHORT_CASES,
        NEAREST_CASES,
        MANY_PUBLISHERS,
        ALL_AT_ONCE,
    ] {
        check_findings(&rt, cases);
    }
}
