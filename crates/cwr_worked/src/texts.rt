//! Worked transmissions, as lists of lines, and their texts.

use crate::lines::*;
use cwr_fields::{Kind, width};
use std::alloc::{AllocError, Global};

/// One group of one acknowledgement: 359 bytes.
pub const ONE_ACKNOWLEDGEMENT: &[&[u8]] = &[
    HDR,
    GRH_ACK,
    ACK_0,
    b"GRT000010000000100000003",
    b"TRL000010000000100000005",
];

/// One group of two acknowledgements: 520 bytes.
pub const TWO_ACKNOWLEDGEMENTS: &[&[u8]] = &[
    HDR,
    GRH_ACK,
    ACK_0,
    ACK_1,
    b"GRT000010000000200000004",
    b"TRL000010000000200000006",
];

/// A new work of one writer in one group, and two revised works in another: 1,599 bytes.
pub const TWO_GROUPS: &[&[u8]] = &[
    HDR,
    GRH_NWR,
    NWR_0,
    SWR_0_1,
    b"GRT000010000000100000004",
    GRH_REV_2,
    REV_0,
    SWR_0_1,
    REV_1,
    SWR_1_1,
    b"GRT000020000000200000006",
    b"TRL000020000000300000012",
];

/// The eleven records of a new work.
pub const ELEVEN_RECORDS: &[&[u8]] = &[
    NWR_0,
    SPU_0_1,
    SPT_0_2,
    OPU_0_3,
    SWR_0_4_WITH_SHARE,
    SWT_0_5,
    PWR_0_6,
    OWR_0_7,
    ALT_0_8,
    PER_0_9,
    REC_0_10,
];

/// The transmission of that work: 1,893 bytes.
pub const WORK_OF_ELEVEN: &[&[u8]] = &[
    HDR,
    GRH_NWR,
    NWR_0,
    SPU_0_1,
    SPT_0_2,
    OPU_0_3,
    SWR_0_4_WITH_SHARE,
    SWT_0_5,
    PWR_0_6,
    OWR_0_7,
    ALT_0_8,
    PER_0_9,
    REC_0_10,
    b"GRT000010000000100000013",
    b"TRL000010000000100000015",
];

/// The same with its last three records in another order.
pub const WORK_OF_ELEVEN_REORDERED: &[&[u8]] = &[
    HDR,
    GRH_NWR,
    NWR_0,
    SPU_0_1,
    SPT_0_2,
    OPU_0_3,
    SWR_0_4_WITH_SHARE,
    SWT_0_5,
    PWR_0_6,
    OWR_0_7,
    REC_0_8,
    PER_0_9,
    ALT_0_10,
    b"GRT000010000000100000013",
    b"TRL000010000000100000015",
];

/// One agreement, in whose second block the parties come in the other order.
pub const AGREEMENT_OF_TWO_BLOCKS: &[&[u8]] = &[
    HDR,
    GRH_AGR,
    AGR_0,
    TER_0_1,
    IPA_AS_0_2,
    IPA_AC_0_3,
    TER_0_4,
    IPA_AC_0_5,
    IPA_AS_0_6,
    b"GRT000010000000100000009",
    b"TRL000010000000100000011",
];

/// A new work with two records that are carried as text: 2,084 bytes.
pub const CARRIED_RECORDS: &[&[u8]] = &[
    HDR,
    GRH_NWR,
    NWR_0,
    IND_0_1,
    SWR_0_2,
    ARI_0_3,
    b"GRT000010000000100000006",
    b"TRL000010000000100000008",
];

/// An acknowledgement with a message and the copy of a new work: 990 bytes.
pub const COPIED_WORK: &[&[u8]] = &[
    HDR,
    GRH_ACK,
    ACK_0,
    MSG_0_1,
    NWR_0_2,
    SWR_0_3,
    b"GRT000010000000100000006",
    b"TRL000010000000100000008",
];

/// Two acknowledgements, the first with the copy of a new work: 964 bytes.
pub const COPY_BEFORE_ANOTHER: &[&[u8]] = &[
    HDR,
    GRH_ACK,
    ACK_0,
    NWR_0_1,
    SWR_0_2,
    ACK_1,
    b"GRT000010000000200000006",
    b"TRL000010000000200000008",
];

/// An acknowledgement with the copy of an agreement, and a carried record in it: 1,539 bytes.
pub const COPIED_AGREEMENT: &[&[u8]] = &[
    HDR,
    GRH_ACK,
    ACK_0,
    AGR_0_1,
    TER_0_2,
    IPA_AS_0_3,
    NPA_0_4,
    IPA_AC_0_5,
    b"GRT000010000000100000008",
    b"TRL000010000000100000010",
];

/// The canonical text of lines: each in the full width of its kind, with CR LF after it. Of a line of unknown kind just
/// its bytes, with CR LF.
pub fn canonical(alloc: Global, lines: &[&[u8]]) -> Result<Vec<u8>, AllocError> {
    let mut text = Vec::new(alloc);
    for line in lines {
        text.extend_from_slice(line)?;
        for _ in line.len()..full_width(line) {
            text.push(b' ')?;
        }
        text.extend_from_slice(b"\r\n")?;
    }
    Ok(text)
}

/// The width of a line's kind.
fn full_width(line: &[u8]) -> usize {
    match Kind::of(line.get(..3).unwrap_or(line)) {
        Some(kind) => width(kind),
        None => 0,
    }
}

/// The same text without trailing spaces: LF stands between the lines, and none after the last.
pub fn trimmed_text(alloc: Global, lines: &[&[u8]]) -> Result<Vec<u8>, AllocError> {
    let mut text = Vec::new(alloc);
    for (i, line) in lines.iter().enumerate() {
        if i > 0 {
            text.push(b'\n')?;
        }
        text.extend_from_slice(line)?;
    }
    Ok(text)
}
