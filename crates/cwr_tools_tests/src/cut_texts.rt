//! Tests of decoders over worked transmissions that are cut into pieces, and cut off.

use crate::answers::{Answers, BYTES, answers_on, check_same};
use crate::checks::check_equal;
use crate::decoders::{LARGEST, limits_of, short_text_of, text_of, twice_of};
use cwr_decode::{End, Refusal, end_of};
use cwr_fields::CellFault;
use cwr_shape::{Level, Reason};
use cwr_worked::texts::{AGREEMENT_OF_TWO_BLOCKS, ONE_ACKNOWLEDGEMENT, TWO_GROUPS, WORK_OF_ELEVEN};
use std::process::Abort;

/// Checks that a text is answered alike in two pieces that are cut at one of these places, with an empty piece between them.
fn check_cuts(
    rt: &(impl Abort + AllocGlobal),
    text: &[u8],
    (from, to): (usize, usize),
    wanted: &Answers,
) {
    for at in from..to {
        check_same(rt, (LARGEST, text), &[at, 0], wanted);
    }
}

/// Checks that a text is accepted, with so many items, and answered alike byte by byte, and in two pieces that are cut at one
/// of these places.
fn check_accepted(
    rt: &(impl Abort + AllocGlobal),
    text: &[u8],
    items: usize,
    places: (usize, usize),
) -> Answers {
    let answers = answers_on(rt, LARGEST, text, &[]);
    let used = text.len();
    check_equal(
        rt,
        answers.numbers(),
        (items, used, Some(End::Accepted { used })),
    );
    check_same(rt, (LARGEST, text), BYTES, &answers);
    check_cuts(rt, text, places, &answers);
    answers
}

/// Whether a text may end so that is cut off after so many whole lines, and within a line where one is begun. Where just the
/// end of the last line is cut off, the text is a transmission.
fn may_end(end: End, lines: u32, is_begun: bool, is_whole: bool) -> bool {
    let count = lines.saturating_add(is_begun as u32);
    match end {
        End::Accepted { .. } => is_whole,
        End::Truncated { records } => records == count && !is_whole,
        End::Refused(refusal) => is_begun && refusal.rec == count && !is_whole,
    }
}

/// What is answered on the first bytes of a text, with so many whole lines. It ends as it may, and all of it is used.
fn answers_on_front(
    rt: &(impl Abort + AllocGlobal),
    (text, len): (&[u8], usize),
    (lines, is_begun): (u32, bool),
) -> Answers {
    let front = text.get(..len).unwrap_or(text);
    let answers = answers_on(rt, LARGEST, front, &[]);
    let is_whole = len.saturating_add(2) >= text.len();
    let end = answers.end.expect(rt, "no end");
    assert!(rt;
        may_end(end, lines, is_begun, is_whole),
        "after {len} bytes: {end:?}"
    );
    check_equal(rt, answers.used, len);
    answers
}

/// Checks that the items of one text are the first of those of another.
fn check_first(rt: &impl Abort, first: &Answers, all: &Answers) {
    let are_first = all.items.as_slice().starts_with(first.items.as_slice());
    assert!(rt; are_first, "at {} bytes", first.used);
}

/// Checks each front of a text. The items of whole lines are the first of the text's, and of any front that begins with them.
fn check_fronts(rt: &(impl Abort + AllocGlobal), text: &[u8], wanted: &Answers) {
    let mut lines: u32 = 0;
    let mut of_lines = answers_on(rt, LARGEST, b"", &[]);
    let mut is_begun = false;
    for (len, byte) in text.iter().enumerate() {
        let answers = answers_on_front(rt, (text, len), (lines, is_begun));
        check_first(rt, &of_lines, &answers);
        if !is_begun {
            check_first(rt, &answers, wanted);
            of_lines = answers;
        }
        is_begun = *byte != b'\n';
        lines = lines.saturating_add(!is_begun as u32);
    }
}

/// Cuts a transmission that gives so many items.
fn check_transmission(rt: &(impl Abort + AllocGlobal), lines: &[&[u8]], items: usize) {
    let text = text_of(rt, lines);
    let everywhere = (0, text.len().saturating_add(1));
    let answers = check_accepted(rt, text.as_slice(), items, everywhere);
    check_fronts(rt, text.as_slice(), &answers);
    let short = short_text_of(rt, lines);
    let same = check_accepted(rt, short.as_slice(), items, (300, 400));
    assert!(rt; same.items.as_slice() == answers.items.as_slice());
}

#[test]
fn transmissions_cut_at_each_byte(rt: HostRuntime) {
    check_transmission(&rt, ONE_ACKNOWLEDGEMENT, 5);
    check_transmission(&rt, WORK_OF_ELEVEN, 5);
    check_transmission(&rt, AGREEMENT_OF_TWO_BLOCKS, 5);
    check_transmission(&rt, TWO_GROUPS, 9);
}

/// Bytes that are changed in the work of eleven records. They stand in SPT: the last letter of its kind, a sequence, a cell of
/// text, a share, and its line end.
static CHANGES: [(usize, u8); 8] = [
    (582, b'X'),
    (590, b'X'),
    (600, 7),
    (615, b'X'),
    (615, 7),
    (638, b'X'),
    (639, b'X'),
    (639, 7),
];

/// Checks that a work with another byte there is refused, and answered alike wherever it is cut in SPT.
fn check_changed(rt: &(impl Abort + AllocGlobal), mut text: Vec<u8>, at: usize, byte: u8) {
    if let Some(changed) = text.as_mut_slice().get_mut(at) {
        *changed = byte;
    }
    let answers = answers_on(rt, LARGEST, text.as_slice(), &[]);
    assert!(rt; matches!(answers.end, Some(End::Refused(_))));
    check_cuts(rt, text.as_slice(), (570, 840), &answers);
}

#[test]
fn refused_lines_cut_at_each_byte(rt: HostRuntime) {
    for (at, byte) in &CHANGES {
        check_changed(&rt, text_of(&rt, WORK_OF_ELEVEN), *at, *byte);
    }
}

/// The transmission of one acknowledgement is refused for the transmission date of HDR.
const NO_DATE: End = End::Refused(Refusal {
    rec: 1,
    field: 8,
    level: Level::E,
    reason: Reason::Cell(CellFault::NotADate),
});

/// It is refused for the record count of TRL.
const NO_DIGITS: End = End::Refused(Refusal {
    rec: 5,
    field: 4,
    level: Level::E,
    reason: Reason::Cell(CellFault::NotDigits),
});

/// After how many bytes of two such transmissions the text is cut off, how many items come, how many bytes are used, and how
/// the text ends.
static FRONTS: [(usize, usize, usize, End); 11] = [
    (0, 0, 0, End::Truncated { records: 0 }),
    (80, 0, 80, NO_DATE),
    (100, 1, 100, End::Truncated { records: 1 }),
    (133, 2, 133, End::Truncated { records: 2 }),
    (294, 2, 294, End::Truncated { records: 3 }),
    (331, 4, 331, End::Truncated { records: 4 }),
    (356, 4, 356, NO_DIGITS),
    (357, 5, 357, End::Accepted { used: 357 }),
    (358, 5, 358, End::Accepted { used: 358 }),
    (359, 5, 359, End::Accepted { used: 359 }),
    (718, 5, 359, End::Accepted { used: 359 }),
];

/// Checks how the front of a text ends.
fn check_end(rt: &(impl Abort + AllocGlobal), front: &[u8], numbers: (usize, usize, End)) {
    let (items, used, end) = numbers;
    let answers = answers_on(rt, LARGEST, front, &[]);
    check_equal(rt, answers.numbers(), (items, used, Some(end)));
    check_equal(rt, end_of(limits_of(rt, LARGEST), front), end);
}

#[test]
fn fronts_of_acknowledgements(rt: HostRuntime) {
    let text = twice_of(&rt, ONE_ACKNOWLEDGEMENT);
    for (len, items, used, end) in &FRONTS {
        let front = text.get(..*len).unwrap_or(b"");
        check_end(&rt, front, (*items, *used, *end));
    }
}
