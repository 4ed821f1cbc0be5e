//! Tests of splits of worked texts: their outputs, and what they answer.

use crate::checks::check_equal;
use crate::devices::reader_of;
use crate::outputs::{Mishap, Shelf, check_texts};
use crate::runs::parted;
use crate::works::{Given, WITHOUT_NAME, Worked, text_given, text_of};
use cwr_tools::{SplitReport, ToolFault};
use std::process::Abort;

/// The outputs that are done.
type Outputs = &'static [Worked];

/// A worked text and what is given of it, whether the reader then fails, how many transactions an output has, what fails of an
/// output, the answer, the outputs that are done, and whether the writer of another is given up.
type Split = (
    (Worked, Given, bool),
    u32,
    Mishap,
    Result<SplitReport, ToolFault>,
    (Outputs, bool),
);

/// All of three works in two groups.
const ALL: (Worked, Given, bool) = (Worked::TwoGroups, Given::Whole, false);

/// The same without TRL.
const CUT: (Worked, Given, bool) = (Worked::TwoGroups, Given::Front(1573), false);

/// What is answered on the text without TRL.
const TRUNCATED: Result<SplitReport, ToolFault> = Err(ToolFault::Truncated { records: 11 });

/// What is answered where an output can't be made or finished.
const FAILED: Result<SplitReport, ToolFault> = Err(ToolFault::Output);

/// What is answered where the reader fails.
const UNREAD: Result<SplitReport, ToolFault> = Err(ToolFault::Reader);

#[rattlefmt::skip]
const SPLITS: &[Split] = &[
    (ALL, 1, Mishap::Nothing, Ok(SplitReport { outputs: 3, transactions: 3 }), (&[Worked::New, Worked::RevisedFirst, Worked::Revised], false)),
    (ALL, 2, Mishap::Nothing, Ok(SplitReport { outputs: 2, transactions: 3 }), (&[Worked::NewAndRevised, Worked::Revised], false)),
    (ALL, 3, Mishap::Nothing, Ok(SplitReport { outputs: 1, transactions: 3 }), (&[Worked::TwoGroups], false)),
    (ALL, 99_999_999, Mishap::Nothing, Ok(SplitReport { outputs: 1, transactions: 3 }), (&[Worked::TwoGroups], false)),
    (CUT, 1, Mishap::Nothing, TRUNCATED, (&[Worked::New, Worked::RevisedFirst, Worked::Revised], false)),
    (CUT, 2, Mishap::Nothing, TRUNCATED, (&[Worked::NewAndRevised], true)),
    (CUT, 3, Mishap::Nothing, TRUNCATED, (&[Worked::TwoGroups], false)),
    (CUT, 4, Mishap::Nothing, TRUNCATED, (&[], true)),
    ((Worked::TwoGroups, Given::Front(0), false), 1, Mishap::Nothing, Err(ToolFault::Truncated { records: 0 }), (&[], false)),
    // The second transaction isn't whole, so no output is asked for it.
    ((Worked::Nameless, Given::Whole, false), 1, Mishap::Nothing, Err(ToolFault::Refused(WITHOUT_NAME)), (&[Worked::New], false)),
    (ALL, 1, Mishap::Next(1), FAILED, (&[], false)),
    (ALL, 1, Mishap::Next(2), FAILED, (&[Worked::New], false)),
    (ALL, 1, Mishap::Next(3), FAILED, (&[Worked::New, Worked::RevisedFirst], false)),
    (ALL, 2, Mishap::Next(2), FAILED, (&[Worked::NewAndRevised], false)),
    (ALL, 1, Mishap::Done(1), FAILED, (&[], false)),
    (ALL, 1, Mishap::Done(2), FAILED, (&[Worked::New], false)),
    (ALL, 1, Mishap::Done(3), FAILED, (&[Worked::New, Worked::RevisedFirst], false)),
    (ALL, 3, Mishap::Done(1), FAILED, (&[], false)),
    // A transaction comes with the record after it: the second one with REV, which ends at byte 1,352.
    ((Worked::TwoGroups, Given::Front(0), true), 2, Mishap::Nothing, UNREAD, (&[], false)),
    ((Worked::TwoGroups, Given::Front(616), true), 2, Mishap::Nothing, UNREAD, (&[], true)),
    ((Worked::TwoGroups, Given::Front(1351), true), 2, Mishap::Nothing, UNREAD, (&[], true)),
    ((Worked::TwoGroups, Given::Front(1352), true), 2, Mishap::Nothing, UNREAD, (&[Worked::NewAndRevised], false)),
    ((Worked::TwoGroups, Given::Front(1573), true), 2, Mishap::Nothing, UNREAD, (&[Worked::NewAndRevised], true)),
];

/// How many calls of outputs failed and how many failed writers were given up, by the answer of a split.
fn counts_of(answer: &Result<SplitReport, ToolFault>) -> (u64, u64) {
    match answer {
        Err(ToolFault::Output) => (1, 0),
        Err(ToolFault::Writer { .. }) => (0, 1),
        _ => (0, 0),
    }
}

/// Splits a text into outputs of `n` transactions: so it is answered, these outputs are done, and each output is asked for
/// once. What became of them comes back.
fn check_split(
    rt: &(impl Abort + AllocGlobal),
    (text, fails): (&[u8], bool),
    (n, mishap): (u32, Mishap),
    wanted: Result<SplitReport, ToolFault>,
    (outputs, is_open): (&[Worked], bool),
) -> Shelf {
    let mut reader = reader_of(text, fails);
    let (shelf, answer) = parted(rt, (12, 2, 2), &mut reader, n, mishap);
    check_equal(rt, (mishap, answer), (mishap, wanted));
    check_texts(rt, shelf.texts(), outputs);
    check_counts(rt, &shelf, counts_of(&wanted), (outputs.len(), is_open));
    shelf
}

/// Checks what outputs have counted, where so many are done, and whether a writer was given up.
fn check_counts(
    rt: &impl Abort,
    shelf: &Shelf,
    counts: (u64, u64),
    (done, is_open): (usize, bool),
) {
    // The output that failed was asked for too.
    let others = (is_open as usize).saturating_add(counts.0 as usize);
    let asked = done.saturating_add(others);
    let found = (
        shelf.asked() as usize,
        shelf.counts(),
        shelf.given_up().is_some(),
    );
    check_equal(rt, found, (asked, counts, is_open));
}

/// Splits the text of a row.
fn check_row(rt: &(impl Abort + AllocGlobal), row: &Split) {
    let ((worked, what, fails), n, mishap, wanted, outputs) = *row;
    let text = text_given(rt, worked, what);
    let _shelf = check_split(rt, (text.as_slice(), fails), (n, mishap), wanted, outputs);
}

#[test]
fn splits_of_worked_texts(rt: HostRuntime) {
    for row in SPLITS {
        check_row(&rt, row);
    }
}

/// The outputs that are done, the number of the next one, and that one.
#[rattlefmt::skip]
const FULL: &[(Outputs, u32, Worked)] = &[
    (&[], 1, Worked::NewAndRevised),
    (&[Worked::NewAndRevised], 2, Worked::Revised),
];

/// Splits three works where the writer of that output, of this number, is full once it has the text.
fn check_full(
    rt: &(impl Abort + AllocGlobal),
    all: &[u8],
    (outputs, next): (&[Worked], u32),
    text: &[u8],
) {
    let room = text.len();
    let fault = Err(ToolFault::Writer {
        written: room as u64,
    });
    let split = (2, Mishap::Writer(next, room));
    let shelf = check_split(rt, (all, false), split, fault, (outputs, true));
    check_equal(rt, (room, shelf.given_up()), (room, Some(text)));
}

#[test]
fn writers_that_are_full(rt: HostRuntime) {
    let all = text_of(&rt, Worked::TwoGroups);
    for (outputs, next, worked) in FULL {
        let text = text_of(&rt, *worked);
        for room in 0..text.len() {
            let front = text.get(..room).unwrap_or(b"");
            check_full(&rt, all.as_slice(), (outputs, *next), front);
        }
    }
}
