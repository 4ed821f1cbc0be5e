//! Tests of encoders, call by call.

use crate::checks::check_equal;
use crate::worked_values::{WorkedGroup, record, transaction};
use crate::writers::{
    LARGEST, Narrow, Numbers, WIDE, Width, limits_of, narrow_writer, text_in, text_of,
};
use cwr_devices::{Counted, Target};
use cwr_encode::{EncodeFault, Encoder};
use cwr_shape::LimitKind;
use cwr_worked::lines::*;
use cwr_worked::texts::ONE_ACKNOWLEDGEMENT;
use std::process::Abort;

/// A call of an encoder with what worked lines carry.
#[derive(Clone, Copy)]
enum Call<'a> {
    /// The record that opens the transmission.
    Open(&'a [u8]),
    /// That which opens a group.
    Group(&'a [u8]),
    /// A transaction.
    Transaction(&'a [&'a [u8]]),
    /// A GRT in which nothing is set.
    EndGroup,
}

/// Makes the call.
fn make_call<W: Target>(
    rt: &(impl Abort + AllocGlobal),
    call: Call<'_>,
    encoder: &mut Encoder<W>,
) -> Result<(), EncodeFault> {
    match call {
        Call::Open(line) => encoder.open(&record(rt, line)),
        Call::Group(line) => encoder.group(&record(rt, line)),
        Call::Transaction(lines) => encoder.transaction(&transaction(rt, lines)),
        Call::EndGroup => encoder.end_group(&record(rt, b"GRT")),
    }
}

/// Writes all but TRL.
fn write_groups<W: Target>(
    rt: &(impl Abort + AllocGlobal),
    groups: &[WorkedGroup<'_>],
    encoder: &mut Encoder<W>,
) -> Result<(), EncodeFault> {
    make_call(rt, Call::Open(HDR), encoder)?;
    for (head, transactions) in groups {
        make_call(rt, Call::Group(head), encoder)?;
        for lines in *transactions {
            make_call(rt, Call::Transaction(lines), encoder)?;
        }
        make_call(rt, Call::EndGroup, encoder)?;
    }
    Ok(())
}

/// Writes a worked transmission.
pub(crate) fn encoded<W: Target>(
    rt: &(impl Abort + AllocGlobal),
    groups: &[WorkedGroup<'_>],
    writer: W,
) -> (W, Result<u64, EncodeFault>) {
    let mut encoder = Encoder::new(writer, limits_of(rt, LARGEST));
    match write_groups(rt, groups, &mut encoder) {
        Ok(()) => encoder.finish(),
        Err(fault) => (encoder.abandon(), Err(fault)),
    }
}

/// A call, and what it answers.
type Answered = (Call<'static>, Result<(), EncodeFault>);

/// How an encoder ends: it is finished, which is answered so, or abandoned.
type Ended = Option<Result<u64, EncodeFault>>;

/// Limits, how much room the writer has, calls that are made in turn, how the encoder ends, and the lines and the number of
/// bytes that are written: the first ones of their canonical text.
type Run = (
    Numbers,
    usize,
    &'static [Answered],
    Ended,
    (&'static [&'static [u8]], usize),
);

/// A fault after 50 bytes.
const FAILED: EncodeFault = EncodeFault::Writer { written: 50 };

/// A transmission of one work twice.
const TWICE: &[&[u8]] = &[
    HDR,
    GRH_NWR,
    NWR_0,
    SWR_0_1,
    NWR_1,
    SWR_1_1,
    b"GRT000010000000200000006",
    b"TRL000010000000200000008",
];

#[rattlefmt::skip]
const RUNS: &[Run] = &[
    (LARGEST, 9999, &[
        (Call::Open(GRH_ACK), Err(EncodeFault::WrongKind)),
        (Call::Open(HDR), Ok(())),
        (Call::Group(GRH_ACK), Ok(())),
    ], None, (ONE_ACKNOWLEDGEMENT, 133)),
    (LARGEST, 50, &[
        (Call::Open(HDR), Err(FAILED)),
        (Call::Open(HDR), Err(FAILED)),
    ], Some(Err(FAILED)), (ONE_ACKNOWLEDGEMENT, 50)),
    ((5, 1, 1), 9999, &[
        (Call::Group(GRH_NWR), Err(EncodeFault::OutOfOrder)),
        (Call::Open(GRH_NWR), Err(EncodeFault::WrongKind)),
        (Call::Open(HDR), Ok(())),
        (Call::Group(GRH_NWR), Err(EncodeFault::Limit(LimitKind::Records))),
        (Call::Group(GRH_ACK), Ok(())),
        (Call::EndGroup, Err(EncodeFault::Incomplete)),
        (Call::Transaction(&[NWR_0, SWR_0_1]), Err(EncodeFault::WrongKind)),
    ], Some(Err(EncodeFault::OutOfOrder)), (ONE_ACKNOWLEDGEMENT, 133)),
    ((8, 1, 2), 9999, &[
        (Call::Open(HDR), Ok(())),
        (Call::Group(GRH_NWR), Ok(())),
        (Call::Transaction(&[NWR_0]), Err(EncodeFault::Incomplete)),
        (Call::Transaction(&[NWR_0, SWR_0_1, SWR_0_1]), Err(EncodeFault::Limit(LimitKind::Transaction))),
        (Call::Transaction(&[NWR_0, SWR_0_1]), Ok(())),
        (Call::Transaction(&[NWR_0, SWR_0_1]), Ok(())),
        (Call::Transaction(&[NWR_0, SWR_0_1]), Err(EncodeFault::Limit(LimitKind::Records))),
        (Call::Transaction(&[ACK_0]), Err(EncodeFault::WrongKind)),
        (Call::EndGroup, Ok(())),
    ], Some(Ok(1086)), (TWICE, 1086)),
    (LARGEST, 9999, &[(Call::Open(HDR), Ok(()))], Some(Err(EncodeFault::Incomplete)), (ONE_ACKNOWLEDGEMENT, 103)),
];

/// Makes calls in turn, each of which gives its answer.
fn check_calls(
    rt: &(impl Abort + AllocGlobal),
    encoder: &mut Encoder<Counted<Narrow>>,
    calls: &[Answered],
) {
    for (call, answer) in calls {
        check_equal(rt, make_call(rt, *call, encoder), *answer);
    }
}

/// Ends an encoder: it is finished where there is an answer to that, and else abandoned.
fn end(encoder: Encoder<Counted<Narrow>>, ended: Ended) -> (Counted<Narrow>, Ended) {
    if ended.is_some() {
        let (writer, answer) = encoder.finish();
        (writer, Some(answer))
    } else {
        (encoder.abandon(), None)
    }
}

/// Makes the calls of a row, and ends the encoder.
fn check_run(rt: &(impl Abort + AllocGlobal), row: &Run) {
    let (numbers, room, calls, ended, (lines, len)) = *row;
    let writer = narrow_writer(rt, Width { room, ..WIDE });
    let mut encoder = Encoder::new(writer, limits_of(rt, numbers));
    check_calls(rt, &mut encoder, calls);
    let (writer, answer) = end(encoder, ended);
    check_equal(rt, answer, ended);
    check_text(rt, writer, (lines, len));
}

/// Checks that so many bytes of a text are written.
fn check_text(
    rt: &(impl Abort + AllocGlobal),
    writer: Counted<Narrow>,
    (lines, len): (&[&[u8]], usize),
) {
    let text = text_of(rt, lines);
    let kept = text_in(writer);
    check_equal(rt, Some(kept.as_slice()), text.get(..len));
}

#[test]
fn calls_in_turn(rt: HostRuntime) {
    for row in RUNS {
        check_run(&rt, row);
    }
}
