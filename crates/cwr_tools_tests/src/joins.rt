//! Tests of joins of worked texts: what they write and answer.

use crate::checks::check_equal;
use crate::devices::{Reader, STUCK, WIDE, Width, reader_of, writer_of};
use crate::runs::joined;
use crate::works::{Given, LARGEST, Numbers, Worked, text_given, text_of};
use cwr_decode::Refusal;
use cwr_fields::CellFault;
use cwr_shape::{Level, LimitKind, Reason};
use cwr_tools::{JoinFault, JoinReport, ToolFault};
use std::process::Abort;

/// A worked text, and what is given of it.
type Input = (Worked, Given);

/// One acknowledgement.
const ONE: Input = (Worked::OneAcknowledgement, Given::Whole);

/// A new work and a revised one.
const FIRST: Input = (Worked::NewAndRevised, Given::Whole);

/// Another revised work.
const SECOND: Input = (Worked::Revised, Given::Whole);

/// Limits, the inputs, whether each reader fails once its text is read, what the writer takes, the answer, and how much
/// is written of a worked text.
type Join = (
    Numbers,
    (&'static [Input], bool),
    Width,
    Result<JoinReport, JoinFault>,
    (Worked, usize),
);

/// The version of the EDI standard is the fifth field of HDR.
const OTHER_VERSION: Refusal = Refusal {
    rec: 1,
    field: 5,
    level: Level::E,
    reason: Reason::Cell(CellFault::NotConstant),
};

#[rattlefmt::skip]
const JOINS: &[Join] = &[
    (LARGEST, (&[ONE], false), WIDE, Ok(JoinReport { inputs: 1, groups: 1, transactions: 1, records: 5 }), (Worked::OneAcknowledgement, 359)),
    (LARGEST, (&[(Worked::OneAcknowledgement, Given::Trimmed)], false), WIDE, Ok(JoinReport { inputs: 1, groups: 1, transactions: 1, records: 5 }), (Worked::OneAcknowledgement, 359)),
    (LARGEST, (&[ONE, ONE], false), WIDE, Ok(JoinReport { inputs: 2, groups: 2, transactions: 2, records: 8 }), (Worked::Twice, 589)),
    ((14, 3, 2), (&[FIRST, SECOND], false), WIDE, Ok(JoinReport { inputs: 2, groups: 3, transactions: 3, records: 14 }), (Worked::Both, 1668)),
    // What is written is all of the first text but TRL, which takes 26 bytes.
    ((13, 3, 2), (&[FIRST, SECOND], false), WIDE, Err(JoinFault { input: 2, fault: ToolFault::Limit(LimitKind::Records) }), (Worked::Both, 1129)),
    ((14, 2, 2), (&[FIRST, SECOND], false), WIDE, Err(JoinFault { input: 2, fault: ToolFault::Limit(LimitKind::Groups) }), (Worked::Both, 1129)),
    // And the second one's GRH, which takes 30 bytes. Its transaction isn't joined before a record is accepted after it.
    (LARGEST, (&[ONE, (Worked::OneAcknowledgement, Given::Front(294))], false), WIDE, Err(JoinFault { input: 2, fault: ToolFault::Truncated { records: 3 } }), (Worked::Twice, 363)),
    (LARGEST, (&[(Worked::OtherVersion, Given::Whole), ONE], false), WIDE, Err(JoinFault { input: 1, fault: ToolFault::Refused(OTHER_VERSION) }), (Worked::Twice, 0)),
    // The second input is in hand once the group of the first is written, which takes 333 bytes.
    ((8, 2, 1), (&[ONE, ONE], false), Width { at_once: 9999, room: 300, stuck: false }, Err(JoinFault { input: 1, fault: ToolFault::Writer { written: 300 } }), (Worked::Twice, 300)),
    ((8, 2, 1), (&[ONE, ONE], false), Width { at_once: 9999, room: 333, stuck: false }, Err(JoinFault { input: 2, fault: ToolFault::Writer { written: 333 } }), (Worked::Twice, 333)),
    ((8, 2, 1), (&[ONE, ONE], false), Width { at_once: 9999, room: 340, stuck: false }, Err(JoinFault { input: 2, fault: ToolFault::Writer { written: 340 } }), (Worked::Twice, 340)),
    ((8, 2, 1), (&[ONE, ONE], false), STUCK, Err(JoinFault { input: 2, fault: ToolFault::Writer { written: 589 } }), (Worked::Twice, 589)),
    // Both groups are written, and nothing of TRL.
    ((8, 2, 1), (&[ONE, (Worked::OneAcknowledgement, Given::Front(333))], true), WIDE, Err(JoinFault { input: 2, fault: ToolFault::Reader }), (Worked::Twice, 563)),
];

/// The texts of inputs.
fn texts_of(rt: &(impl Abort + AllocGlobal), inputs: &[Input]) -> Vec<Vec<u8>> {
    let mut texts = Vec::new(rt.alloc());
    for (worked, what) in inputs {
        let text = text_given(rt, *worked, *what);
        texts.push(text).expect(rt, "no memory");
    }
    texts
}

/// Readers of the texts.
fn readers_of<'a>(
    rt: &(impl Abort + AllocGlobal),
    texts: &'a [Vec<u8>],
    fail: bool,
) -> Vec<Reader<'a>> {
    let mut readers = Vec::new(rt.alloc());
    for text in texts {
        let reader = reader_of(text.as_slice(), fail);
        readers.push(reader).expect(rt, "no memory");
    }
    readers
}

/// Joins the readers' texts: so it is answered. What is written comes back.
fn join_readers(
    rt: &(impl Abort + AllocGlobal),
    numbers: Numbers,
    readers: &mut [Reader<'_>],
    width: Width,
    wanted: Result<JoinReport, JoinFault>,
) -> Vec<u8> {
    assert!(rt; !readers.is_empty());
    let writer = writer_of(rt.alloc(), width);
    let (writer, answer) = joined(rt, numbers, readers, writer);
    check_equal(rt, answer, wanted);
    writer.into_inner().text
}

/// Checks that a text is the first bytes of a worked one, so many of them.
fn check_front(rt: &(impl Abort + AllocGlobal), text: &[u8], (worked, len): (Worked, usize)) {
    let whole = text_of(rt, worked);
    check_equal(rt, Some(text), whole.get(..len));
}

/// Joins the inputs of a row.
fn check_join(rt: &(impl Abort + AllocGlobal), row: &Join) {
    let (numbers, (inputs, fail), width, wanted, front) = *row;
    let texts = texts_of(rt, inputs);
    let mut readers = readers_of(rt, texts.as_slice(), fail);
    let written = join_readers(rt, numbers, readers.as_mut_slice(), width, wanted);
    check_front(rt, written.as_slice(), front);
}

#[test]
fn joins_of_worked_texts(rt: HostRuntime) {
    for row in JOINS {
        check_join(&rt, row);
    }
}
