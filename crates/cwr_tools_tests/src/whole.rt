//! Tests of whole transmissions, which are written as a value and call by call.

use crate::checks::check_equal;
use crate::encoders::encoded;
use crate::worked_values::{
    ACKNOWLEDGED, COPY_FIRST, NEW_AND_REVISED, OF_ELEVEN, WITH_AGREEMENT, WITH_CARRIED, WITH_COPY,
    WorkedGroup, transmission,
};
use crate::writers::{
    LARGEST, Narrow, Numbers, ONE_BYTE, WIDE, Width, limits_of, narrow_writer, text_in, text_of,
};
use cwr_devices::Counted;
use cwr_encode::{EncodeFault, encode};
use cwr_shape::LimitKind;
use cwr_values::Transmission;
use cwr_worked::texts::{
    CARRIED_RECORDS, COPIED_AGREEMENT, COPIED_WORK, COPY_BEFORE_ANOTHER, ONE_ACKNOWLEDGEMENT,
    TWO_GROUPS, WORK_OF_ELEVEN,
};
use std::process::Abort;

/// What is written of a transmission, and what is answered.
pub(crate) type Written = (Counted<Narrow>, Result<u64, EncodeFault>);

/// Checks what is answered, and that so many bytes are written: the first ones of a text.
pub(crate) fn check_written(
    rt: &impl Abort,
    written: Written,
    answer: Result<u64, EncodeFault>,
    text: &[u8],
    len: usize,
) {
    check_equal(rt, written.1, answer);
    let kept = text_in(written.0);
    check_equal(rt, Some(kept.as_slice()), text.get(..len));
}

/// Writes a value within these limits.
fn encode_within(
    rt: &(impl Abort + AllocGlobal),
    value: &Transmission,
    numbers: Numbers,
    width: Width,
) -> Written {
    encode(value, limits_of(rt, numbers), narrow_writer(rt, width))
}

/// Writes a transmission into writers of this width, as a value and call by call: so it is answered, and so many of the
/// text's bytes are written.
fn check_both(
    rt: &(impl Abort + AllocGlobal),
    (groups, value): (&[WorkedGroup<'_>], &Transmission),
    width: Width,
    answer: Result<u64, EncodeFault>,
    (text, len): (&[u8], usize),
) {
    let whole = encode_within(rt, value, LARGEST, width);
    check_written(rt, whole, answer, text, len);
    let by_calls = encoded(rt, groups, narrow_writer(rt, width));
    check_written(rt, by_calls, answer, text, len);
}

/// Writes the transmission of groups, whose text is that of lines, into writers that take all, or one byte a call.
fn check_worked(
    rt: &(impl Abort + AllocGlobal),
    groups: &[WorkedGroup<'_>],
    lines: &[&[u8]],
    length: u64,
) {
    let value = transmission(rt, groups);
    let text = text_of(rt, lines);
    let all = (text.as_slice(), text.len());
    check_both(rt, (groups, &value), WIDE, Ok(length), all);
    check_both(rt, (groups, &value), ONE_BYTE, Ok(length), all);
}

#[test]
fn worked_transmissions(rt: HostRuntime) {
    check_worked(&rt, ACKNOWLEDGED, ONE_ACKNOWLEDGEMENT, 359);
    check_worked(&rt, NEW_AND_REVISED, TWO_GROUPS, 1599);
    check_worked(&rt, OF_ELEVEN, WORK_OF_ELEVEN, 1893);
    check_worked(&rt, WITH_CARRIED, CARRIED_RECORDS, 2084);
    check_worked(&rt, WITH_COPY, COPIED_WORK, 990);
    check_worked(&rt, COPY_FIRST, COPY_BEFORE_ANOTHER, 964);
    check_worked(&rt, WITH_AGREEMENT, COPIED_AGREEMENT, 1539);
}

/// What a writer takes that fails after so many bytes of one acknowledgement: where it has room for all of them, it can't hand
/// them on.
fn failing_after(room: usize) -> Width {
    Width {
        room,
        stuck: room == 359,
        ..WIDE
    }
}

#[test]
fn writers_that_fail(rt: HostRuntime) {
    let value = transmission(&rt, ACKNOWLEDGED);
    let text = text_of(&rt, ONE_ACKNOWLEDGEMENT);
    check_equal(&rt, text.len(), 359);
    for room in 0..360 {
        let fault = EncodeFault::Writer {
            written: room as u64,
        };
        let written = (text.as_slice(), room);
        let width = failing_after(room);
        check_both(&rt, (ACKNOWLEDGED, &value), width, Err(fault), written);
    }
}

/// Groups, limits, and what the encoder answers.
type Limited = (
    &'static [WorkedGroup<'static>],
    Numbers,
    Result<u64, EncodeFault>,
);

#[rattlefmt::skip]
const LIMITED: &[Limited] = &[
    (NEW_AND_REVISED, (11, 2, 2), Err(EncodeFault::Limit(LimitKind::Records))),
    (NEW_AND_REVISED, (12, 1, 2), Err(EncodeFault::Limit(LimitKind::Groups))),
    (NEW_AND_REVISED, (12, 2, 1), Err(EncodeFault::Limit(LimitKind::Transaction))),
    (NEW_AND_REVISED, (12, 2, 2), Ok(1599)),
    (&[], LARGEST, Err(EncodeFault::Incomplete)),
];

/// Writes a value of a row: nothing is written where it doesn't fit.
fn check_limited(rt: &(impl Abort + AllocGlobal), row: &Limited) {
    let (groups, numbers, answer) = *row;
    let value = transmission(rt, groups);
    let text = text_of(rt, TWO_GROUPS);
    let written = encode_within(rt, &value, numbers, WIDE);
    let len = answer.unwrap_or(0) as usize;
    check_written(rt, written, answer, text.as_slice(), len);
}

#[test]
fn values_at_limits(rt: HostRuntime) {
    for row in LIMITED {
        check_limited(&rt, row);
    }
}
