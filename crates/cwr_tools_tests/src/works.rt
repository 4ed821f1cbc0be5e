//! Worked transmissions of new and revised works, the parts of a larger one and the joins of them; and what tests of runs
//! share: texts and limits.

use crate::checks::check_equal;
use cwr_decode::Refusal;
use cwr_fields::CellFault;
use cwr_shape::{Level, Limits, Reason};
use cwr_worked::lines::*;
use cwr_worked::texts::{
    AGREEMENT_OF_TWO_BLOCKS, ONE_ACKNOWLEDGEMENT, TWO_GROUPS, WORK_OF_ELEVEN,
    WORK_OF_ELEVEN_REORDERED, canonical, trimmed_text,
};
use std::process::Abort;

/// The most records, groups and records of a transaction.
pub(crate) type Numbers = (u32, u32, u32);

/// The largest numbers of limits.
pub(crate) const LARGEST: Numbers = (99_999_999, 99_999, 999_999);

/// These limits.
pub(crate) fn limits_of(rt: &impl Abort, numbers: Numbers) -> Limits {
    Limits::new(numbers.0, numbers.1, numbers.2).expect(rt, "no limits")
}

/// The canonical text of a worked transmission.
pub(crate) fn text_of(rt: &(impl Abort + AllocGlobal), worked: Worked) -> Vec<u8> {
    canonical(rt.alloc(), lines_of(worked)).expect(rt, "no memory")
}

/// What is given of a worked transmission.
#[derive(Clone, Copy)]
pub(crate) enum Given {
    /// Its canonical text.
    Whole,
    /// Its text without trailing spaces, and without the last line feed.
    Trimmed,
    /// So many bytes of its canonical text.
    Front(usize),
    /// Its canonical text with these bytes in the place of as many, from there on.
    Changed(usize, &'static [u8]),
    /// Its first line, filled up with spaces to so many bytes, and a line feed.
    Filled(usize),
}

/// A line that is filled up with spaces to so many bytes, and its line feed.
fn filled_up(rt: &(impl Abort + AllocGlobal), line: &[u8], len: usize) -> Vec<u8> {
    let mut text = line.to_vec(rt.alloc()).expect(rt, "no memory");
    text.resize(len, b' ').expect(rt, "no memory");
    text.push(b'\n').expect(rt, "no memory");
    text
}

/// The text with these bytes in the place of as many, from there on.
fn changed(mut text: Vec<u8>, at: usize, new: &[u8]) -> Vec<u8> {
    put(text.as_mut_slice(), at, new);
    text
}

/// Writes over the bytes of a text from a place on.
fn put(text: &mut [u8], at: usize, new: &[u8]) {
    for (byte, other) in text.iter_mut().skip(at).zip(new) {
        *byte = *other;
    }
}

/// The front of a text.
fn cut_off(mut text: Vec<u8>, len: usize) -> Vec<u8> {
    text.truncate(len);
    text
}

/// The text that is given of a worked transmission.
pub(crate) fn text_given(rt: &(impl Abort + AllocGlobal), worked: Worked, what: Given) -> Vec<u8> {
    let lines = lines_of(worked);
    match what {
        Given::Whole => text_of(rt, worked),
        Given::Trimmed => trimmed_text(rt.alloc(), lines).expect(rt, "no memory"),
        Given::Front(len) => cut_off(text_of(rt, worked), len),
        Given::Changed(at, new) => changed(text_of(rt, worked), at, new),
        Given::Filled(len) => filled_up(rt, lines.first().copied().unwrap_or(b""), len),
    }
}

/// GRH of type REV, the first group.
const GRH_REV: &[u8] = b"GRHREV0000102.100000000001";

/// REV, which opens transaction 0, of the second revised work.
pub(crate) const REV_0_OF_GREEN_SEA: &[u8] =
    b"REV0000000000000000GREEN SEA                                                     W0003                                                        ORI";

/// A new work in one group, and a revised work in another: 1,155 bytes.
const NEW_AND_REVISED: &[&[u8]] = &[
    HDR,
    GRH_NWR,
    NWR_0,
    SWR_0_1,
    b"GRT000010000000100000004",
    GRH_REV_2,
    REV_0,
    SWR_0_1,
    b"GRT000020000000100000004",
    b"TRL000020000000200000010",
];

/// Another revised work: 642 bytes.
const REVISED: &[&[u8]] = &[
    HDR,
    GRH_REV,
    REV_0_OF_GREEN_SEA,
    SWR_0_1,
    b"GRT000010000000100000004",
    b"TRL000010000000100000006",
];

/// The new work alone: 642 bytes.
const NEW: &[&[u8]] = &[
    HDR,
    GRH_NWR,
    NWR_0,
    SWR_0_1,
    b"GRT000010000000100000004",
    b"TRL000010000000100000006",
];

/// The first revised work alone: 642 bytes.
const REVISED_FIRST: &[&[u8]] = &[
    HDR,
    GRH_REV,
    REV_0,
    SWR_0_1,
    b"GRT000010000000100000004",
    b"TRL000010000000100000006",
];

/// GRH of type REV, the third group.
const GRH_REV_3: &[u8] = b"GRHREV0000302.100000000001";

/// The first of these transmissions joined with the second: the groups of revised works stay apart.
const BOTH: &[&[u8]] = &[
    HDR,
    GRH_NWR,
    NWR_0,
    SWR_0_1,
    b"GRT000010000000100000004",
    GRH_REV_2,
    REV_0,
    SWR_0_1,
    b"GRT000020000000100000004",
    GRH_REV_3,
    REV_0_OF_GREEN_SEA,
    SWR_0_1,
    b"GRT000030000000100000004",
    b"TRL000030000000300000014",
];

/// The transmission of one acknowledgement, joined with itself.
const TWICE: &[&[u8]] = &[
    HDR,
    GRH_ACK,
    ACK_0,
    b"GRT000010000000100000003",
    GRH_ACK_2,
    ACK_0,
    b"GRT000020000000100000003",
    b"TRL000020000000200000008",
];

/// Two works, of which the second one's writer has no name: its last record is refused.
const NAMELESS: &[&[u8]] = &[HDR, GRH_NWR, NWR_0, SWR_0_1, NWR_1, SWR_1_1_WITHOUT_NAME];

/// One acknowledgement, whose TRL counts two transactions.
const WRONG_TRAILER: &[&[u8]] = &[
    HDR,
    GRH_ACK,
    ACK_0,
    b"GRT000010000000100000003",
    b"TRL000010000000200000005",
];

/// A work whose fifth record has the number of its fourth.
const WRONG_SEQUENCE: &[&[u8]] = &[
    HDR,
    GRH_NWR,
    NWR_0,
    SPU_0_1,
    SPT_0_2,
    OPU_0_3,
    SWR_0_3_WITH_SHARE,
    SWT_0_5,
];

/// An agreement that ends without an acquirer.
const ONE_SIDE: &[&[u8]] = &[
    HDR,
    GRH_AGR,
    AGR_0,
    TER_0_1,
    IPA_AS_0_2,
    IPA_AS_0_3,
    b"GRT000010000000100000006",
];

/// One acknowledgement, and the head of another group.
const SECOND_GROUP: &[&[u8]] = &[HDR, GRH_ACK, ACK_0, b"GRT000010000000100000003", GRH_ACK_2];

/// An acknowledgement and its message.
const MESSAGE: &[&[u8]] = &[HDR, GRH_ACK, ACK_0, MSG_0_1];

/// Three works in two groups, of which two have a finding.
const TWO_FINDINGS: &[&[u8]] = &[
    HDR,
    GRH_NWR,
    NWR_0_WITH_WRONG_ISWC,
    SWR_0_1,
    b"GRT000010000000100000004",
    GRH_REV_2,
    REV_0,
    SWR_0_1,
    REV_1,
    SWR_1_1_OF_AN_ARRANGER,
    b"GRT000020000000200000006",
    b"TRL000020000000300000012",
];

/// A work with a finding, which isn't whole where the next one is refused.
const FINDING_BEFORE_REFUSAL: &[&[u8]] = &[
    HDR,
    GRH_NWR,
    NWR_0_WITH_WRONG_ISWC,
    SWR_0_1,
    NWR_1_OF_UNKNOWN_CATEGORY,
];

/// The refusal of the work without a name.
pub(crate) const WITHOUT_NAME: Refusal = Refusal {
    rec: 6,
    field: 5,
    level: Level::R,
    reason: Reason::Cell(CellFault::Blank),
};

/// A worked transmission, or the beginning of one, by its name in tables.
#[derive(Clone, Copy, Debug)]
pub(crate) enum Worked {
    OneAcknowledgement,
    Twice,
    TwoGroups,
    New,
    RevisedFirst,
    Revised,
    NewAndRevised,
    Both,
    Nameless,
    OtherVersion,
    /// One that reports alone are tested on.
    Judged(Judged),
}

/// The lines of a worked transmission.
pub(crate) fn lines_of(worked: Worked) -> &'static [&'static [u8]] {
    match worked {
        Worked::OneAcknowledgement => ONE_ACKNOWLEDGEMENT,
        Worked::Twice => TWICE,
        Worked::TwoGroups => TWO_GROUPS,
        Worked::New => NEW,
        Worked::RevisedFirst => REVISED_FIRST,
        Worked::Revised => REVISED,
        Worked::NewAndRevised => NEW_AND_REVISED,
        Worked::Both => BOTH,
        Worked::Nameless => NAMELESS,
        Worked::OtherVersion => &[HDR_OF_ANOTHER_VERSION],
        Worked::Judged(judged) => lines_judged(judged),
    }
}

/// A worked transmission that reports alone are tested on, or the beginning of one.
#[derive(Clone, Copy, Debug)]
pub(crate) enum Judged {
    WorkOfEleven,
    WorkOfElevenReordered,
    TwoBlocks,
    WrongTrailer,
    WrongSequence,
    OneSide,
    SecondGroup,
    Message,
    TwoFindings,
    FindingBeforeRefusal,
}

/// Its lines.
fn lines_judged(judged: Judged) -> &'static [&'static [u8]] {
    match judged {
        Judged::WorkOfEleven => WORK_OF_ELEVEN,
        Judged::WorkOfElevenReordered => WORK_OF_ELEVEN_REORDERED,
        Judged::TwoBlocks => AGREEMENT_OF_TWO_BLOCKS,
        Judged::WrongTrailer => WRONG_TRAILER,
        Judged::WrongSequence => WRONG_SEQUENCE,
        Judged::OneSide => ONE_SIDE,
        Judged::SecondGroup => SECOND_GROUP,
        Judged::Message => MESSAGE,
        Judged::TwoFindings => TWO_FINDINGS,
        Judged::FindingBeforeRefusal => FINDING_BEFORE_REFUSAL,
    }
}

/// How many bytes each text has.
static LENGTHS: [(Worked, usize); 8] = [
    (Worked::OneAcknowledgement, 359),
    (Worked::Twice, 589),
    (Worked::TwoGroups, 1599),
    (Worked::New, 642),
    (Worked::RevisedFirst, 642),
    (Worked::Revised, 642),
    (Worked::NewAndRevised, 1155),
    (Worked::Both, 1668),
];

#[test]
fn lengths_of_texts(rt: HostRuntime) {
    for (worked, len) in &LENGTHS {
        check_equal(&rt, text_of(&rt, *worked).len(), *len);
    }
    let short = text_given(&rt, Worked::OneAcknowledgement, Given::Trimmed);
    check_equal(&rt, short.len(), 323);
}
