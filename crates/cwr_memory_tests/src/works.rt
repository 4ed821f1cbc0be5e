//! Worked transmissions, as texts that take no memory.

use crate::checks::check_equal;
use arrayvec::ArrayVec;
use cwr_shape::Limits;
use cwr_worked::lines::*;
use std::fmt::Debug;
use std::process::Abort;
use std::test::Fail;

/// A text of some lines.
pub(crate) type Text = ArrayVec<u8, 4096>;

/// Two groups, with a finding in the first.
pub(crate) const TWO_GROUPS_WITH_A_FINDING: &[&[u8]] = &[
    HDR,
    GRH_NWR,
    NWR_0_WITH_WRONG_ISWC,
    SWR_0_1,
    b"GRT000010000000100000004",
    GRH_REV_2,
    REV_0,
    SWR_0_1,
    REV_1,
    SWR_1_1,
    b"GRT000020000000200000006",
    b"TRL000020000000300000012",
];

/// The text of lines, each with its line end.
pub(crate) fn text_of(rt: &impl Abort, lines: &[&[u8]]) -> Text {
    let mut text = ArrayVec::new();
    for line in lines {
        text.try_extend_from_slice(line).expect(rt, "no room");
        text.try_extend_from_slice(b"\n").expect(rt, "no room");
    }
    text
}

/// The largest limits.
pub(crate) fn largest() -> Limits {
    Limits::new(99_999_999, 99_999, 999_999).unwrap()
}

/// Ends a test: its answer is the wanted one, or there is none since memory was refused.
pub(crate) fn ended<T: PartialEq + Debug + Drop>(
    rt: &impl Abort,
    answer: Option<T>,
    wanted: T,
) -> Result<(), Fail> {
    if answer.is_none() {
        return Err(Fail::new("memory was refused"));
    }
    check_equal(rt, answer, Some(wanted));
    Ok(())
}
