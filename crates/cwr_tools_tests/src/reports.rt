//! Tests of what a check and a show write on a worked text, and of what they answer.

use crate::checks::check_equal;
use crate::devices::{Reader, STUCK, WIDE, Width, reader_of, writer_of};
use crate::runs::{Tool, reported};
use crate::works::{Given, Judged, LARGEST, Numbers, WITHOUT_NAME, Worked, text_given, text_of};
use cwr_devices::Counted;
use cwr_tools::{ToolFault, Verdict};
use std::io;
use std::process::Abort;

/// Limits, a text, what is given of it, and the lines that a check writes on that. `tools/check_samples` has one for each
/// reason.
type Checked = (Numbers, Worked, Given, &'static str);

#[rattlefmt::skip]
const WHOLE: &[Checked] = &[
    ((5, 1, 1), Worked::OneAcknowledgement, Given::Whole, "GOOD groups 1 transactions 1 records 5\n"),
    (LARGEST, Worked::Judged(Judged::WorkOfEleven), Given::Whole, "GOOD groups 1 transactions 1 records 15\n"),
    (LARGEST, Worked::Judged(Judged::WorkOfElevenReordered), Given::Whole, "GOOD groups 1 transactions 1 records 15\n"),
    (LARGEST, Worked::Judged(Judged::TwoBlocks), Given::Whole, "GOOD groups 1 transactions 1 records 11\n"),
    (LARGEST, Worked::TwoGroups, Given::Whole, "GOOD groups 2 transactions 3 records 12\n"),
    (LARGEST, Worked::Judged(Judged::TwoFindings), Given::Whole, "FINDING group 1 transaction 0 record 0 field 7 level F rule V1\nFINDING group 2 transaction 1 record 0 field 1 level T rule V6\nGOOD groups 2 transactions 3 records 12\n"),
    (LARGEST, Worked::Judged(Judged::FindingBeforeRefusal), Given::Whole, "REFUSED record 5 field 10 level T cell not a code\n"),
    (LARGEST, Worked::Judged(Judged::WrongTrailer), Given::Whole, "REFUSED record 5 field 3 level E number expected 1\n"),
    (LARGEST, Worked::Judged(Judged::WrongSequence), Given::Whole, "REFUSED record 7 field 3 level T number expected 4\n"),
    (LARGEST, Worked::Judged(Judged::OneSide), Given::Whole, "REFUSED record 7 field 1 level T misplaced\n"),
    ((99_999_999, 1, 999_999), Worked::Judged(Judged::SecondGroup), Given::Whole, "REFUSED record 5 field 1 level E limit groups\n"),
    ((99_999_999, 99_999, 1), Worked::Judged(Judged::Message), Given::Whole, "REFUSED record 4 field 1 level T limit transaction\n"),
];

#[rattlefmt::skip]
const IN_PART: &[Checked] = &[
    (LARGEST, Worked::TwoGroups, Given::Changed(228, b"T0345246802"), "FINDING group 1 transaction 0 record 0 field 7 level F rule V1\nGOOD groups 2 transactions 3 records 12\n"),
    (LARGEST, Worked::TwoGroups, Given::Changed(228, b"T0345246801"), "GOOD groups 2 transactions 3 records 12\n"),
    ((5, 1, 1), Worked::OneAcknowledgement, Given::Trimmed, "GOOD groups 1 transactions 1 records 5\n"),
    (LARGEST, Worked::OneAcknowledgement, Given::Front(0), "TRUNCATED records 0\n"),
    (LARGEST, Worked::OneAcknowledgement, Given::Front(80), "REFUSED record 1 field 8 level E cell not a date\n"),
    (LARGEST, Worked::OneAcknowledgement, Given::Front(100), "TRUNCATED records 1\n"),
    (LARGEST, Worked::OneAcknowledgement, Given::Front(133), "TRUNCATED records 2\n"),
    (LARGEST, Worked::OneAcknowledgement, Given::Front(294), "TRUNCATED records 3\n"),
    (LARGEST, Worked::OneAcknowledgement, Given::Front(331), "TRUNCATED records 4\n"),
    (LARGEST, Worked::OneAcknowledgement, Given::Front(356), "REFUSED record 5 field 4 level E cell not digits\n"),
    (LARGEST, Worked::OneAcknowledgement, Given::Front(357), "GOOD groups 1 transactions 1 records 5\n"),
    (LARGEST, Worked::OneAcknowledgement, Given::Front(358), "GOOD groups 1 transactions 1 records 5\n"),
    (LARGEST, Worked::OneAcknowledgement, Given::Filled(1025), "REFUSED record 1 field 10 level E excess\n"),
    (LARGEST, Worked::OtherVersion, Given::Filled(1025), "REFUSED record 1 field 5 level E cell not constant\n"),
    (LARGEST, Worked::OneAcknowledgement, Given::Filled(1024), "TRUNCATED records 1\n"),
];

/// What is shown of HDR, and of GRH its number and its kind.
const OPENING: &str = "\
1 HDR
  2 sender type: PB
  3 sender id: 123456789
  4 sender name: MUSIC HOUSE
  5 edi standard version: 01.10
  6 creation date: 20240102
  7 creation time: 101500
  8 transmission date: 20240103
2 GRH
";

/// What is shown of the cells of a GRH of acknowledgements.
const OF_ACKNOWLEDGEMENTS: &str = "  2 transaction type: ACK
  4 version: 02.10
  5 batch request: 0000000001
";

/// What is shown of the cells of a GRH of new works.
const OF_WORKS: &str = "  2 transaction type: NWR
  4 version: 02.10
  5 batch request: 0000000001
";

/// What is shown of its transaction and of GRT.
const TRANSACTION: &str = "\
3 ACK
  4 creation date: 20240102
  5 creation time: 101500
  6 original group id: 00001
  7 original transaction sequence: 00000000
  8 original transaction type: NWR
  9 creation title: BLUE RIVER
  10 submitter creation number: W0001
  12 processing date: 20240110
  13 transaction status: AS
4 GRT
";

/// What is shown of TRL, and the verdict.
const ENDING: &str = "\
5 TRL
GOOD groups 1 transactions 1 records 5
";

/// What is shown of a work of one writer, and that the second work's writer has no name.
const ONE_WORK: &str = "\
3 NWR
  4 title: BLUE RIVER
  6 submitter work number: W0001
  10 distribution category: POP
  15 version type: ORI
4 SWR
  4 interested party number: W1
  5 last name: SMITH
  6 first name: ANNA
  8 designation: CA
REFUSED record 6 field 5 level R cell blank
";

/// All that is shown of one acknowledgement.
const SHOWN: &[&str] = &[OPENING, OF_ACKNOWLEDGEMENTS, TRANSACTION, ENDING];

/// What is checked of it.
const CHECKED_WELL: &[&str] = &["GOOD groups 1 transactions 1 records 5\n"];

/// The verdict on it.
const GOOD: Verdict = Verdict::Good {
    groups: 1,
    transactions: 1,
    records: 5,
};

/// A tool, a text and what is given of it, whether the reader then fails, what the writer takes, the answer, and the parts of
/// the text that is written, as far as there is room.
type Reported = (
    Tool,
    (Worked, Given, bool),
    Width,
    Result<Verdict, ToolFault>,
    &'static [&'static str],
);

#[rattlefmt::skip]
const REPORTED: &[Reported] = &[
    (Tool::Show, (Worked::OneAcknowledgement, Given::Whole, false), WIDE, Ok(GOOD), SHOWN),
    (Tool::Show, (Worked::Nameless, Given::Whole, false), WIDE, Ok(Verdict::Refused(WITHOUT_NAME)), &[OPENING, OF_WORKS, ONE_WORK]),
    (Tool::Show, (Worked::OneAcknowledgement, Given::Front(0), false), WIDE, Ok(Verdict::Truncated { records: 0 }), &["TRUNCATED records 0\n"]),
    // The transaction isn't shown before a record is accepted after it.
    (Tool::Show, (Worked::OneAcknowledgement, Given::Front(294), false), WIDE, Ok(Verdict::Truncated { records: 3 }), &[OPENING, OF_ACKNOWLEDGEMENTS, "TRUNCATED records 3\n"]),
    (Tool::Show, (Worked::OneAcknowledgement, Given::Front(331), false), WIDE, Ok(Verdict::Truncated { records: 4 }), &[OPENING, OF_ACKNOWLEDGEMENTS, TRANSACTION, "TRUNCATED records 4\n"]),
    (Tool::Show, (Worked::OneAcknowledgement, Given::Whole, false), Width { at_once: 1, room: 9999, stuck: false }, Ok(GOOD), SHOWN),
    (Tool::Show, (Worked::OneAcknowledgement, Given::Whole, false), Width { at_once: 9999, room: 40, stuck: false }, Err(ToolFault::Writer { written: 40 }), SHOWN),
    (Tool::Show, (Worked::OneAcknowledgement, Given::Front(333), true), WIDE, Err(ToolFault::Reader), &[OPENING, OF_ACKNOWLEDGEMENTS, TRANSACTION]),
    (Tool::Check, (Worked::OneAcknowledgement, Given::Whole, false), STUCK, Err(ToolFault::Writer { written: 39 }), CHECKED_WELL),
    (Tool::Check, (Worked::OneAcknowledgement, Given::Whole, false), Width { at_once: 9999, room: 38, stuck: false }, Err(ToolFault::Writer { written: 38 }), CHECKED_WELL),
];

/// Checks that a text is that of parts, one after the other, as far as there is room.
fn check_parts(rt: &(impl Abort + AllocGlobal), text: &[u8], parts: &[&str], room: usize) {
    let mut wanted = Vec::new(rt.alloc());
    for part in parts {
        wanted
            .extend_from_slice(part.as_bytes())
            .expect(rt, "no memory");
    }
    wanted.truncate(room);
    check_equal(rt, text, wanted.as_slice());
}

/// Reports on a text within limits: these parts are written. The answer comes back.
fn check_report(
    rt: &(impl Abort + AllocGlobal),
    (tool, numbers): (Tool, Numbers),
    (text, fails): (&[u8], bool),
    width: Width,
    parts: &[&str],
) -> Result<Verdict, ToolFault> {
    let mut reader = reader_of(text, fails);
    let writer = writer_of(rt.alloc(), width);
    let (writer, answer) = reported(rt, tool, numbers, &mut reader, writer);
    check_parts(rt, writer.into_inner().text.as_slice(), parts, width.room);
    answer
}

/// Checks the lines of a row.
fn check_lines(rt: &(impl Abort + AllocGlobal), row: &Checked) {
    let (numbers, worked, what, wanted) = *row;
    let text = text_given(rt, worked, what);
    let read = (text.as_slice(), false);
    let answer = check_report(rt, (Tool::Check, numbers), read, WIDE, &[wanted]);
    assert!(rt; answer.is_ok(), "{wanted}");
}

#[test]
fn lines_on_worked_texts(rt: HostRuntime) {
    for row in WHOLE {
        check_lines(&rt, row);
    }
    for row in IN_PART {
        check_lines(&rt, row);
    }
}

/// Checks the report of a row.
fn check_row(rt: &(impl Abort + AllocGlobal), row: &Reported) {
    let (tool, (worked, what, fails), width, wanted, parts) = *row;
    let text = text_given(rt, worked, what);
    let read = (text.as_slice(), fails);
    let answer = check_report(rt, (tool, (8, 1, 2)), read, width, parts);
    check_equal(rt, answer, wanted);
}

#[test]
fn reports_over_devices(rt: HostRuntime) {
    for row in REPORTED {
        check_row(&rt, row);
    }
}

/// Checks what comes next of a reader: the verdict on it.
fn check_next(rt: &(impl Abort + AllocGlobal), reader: &mut Reader<'_>, wanted: Verdict) {
    let writer = Counted::new(io::empty());
    let (_, answer) = reported(rt, Tool::Check, LARGEST, reader, writer);
    check_equal(rt, answer, Ok(wanted));
}

#[test]
fn one_transmission_after_another(rt: HostRuntime) {
    let text = text_of(&rt, Worked::OneAcknowledgement);
    let twice = text.as_slice().repeat(rt.alloc(), 2);
    let twice = twice.expect(&rt, "no memory");
    let mut reader = reader_of(twice.as_slice(), false);
    for wanted in [GOOD, GOOD, Verdict::Truncated { records: 0 }] {
        check_next(&rt, &mut reader, wanted);
    }
}
