//! Tests of decoders over worked transmissions that are fed whole: the items, the kinds of each transaction's records, and
//! the used bytes.

use crate::checks::check_equal;
use crate::decoders::{LARGEST, Numbers, decoder_within, feed, text_of};
use cwr_decode::{Decoder, Outcome};
use cwr_fields::Kind::{
    self, Ack, Agr, Alt, Ari, Com, Ind, Ipa, Msg, Npa, Nwr, Opu, Orn, Owr, Per, Pwr, Rec, Rev, Spt,
    Spu, Swr, Swt, Ter, Ver,
};
use cwr_values::{Item, Transaction};
use cwr_worked::lines::*;
use cwr_worked::texts::{
    AGREEMENT_OF_TWO_BLOCKS, CARRIED_RECORDS, COPIED_AGREEMENT, COPIED_WORK, COPY_BEFORE_ANOTHER,
    ONE_ACKNOWLEDGEMENT, TWO_GROUPS, WORK_OF_ELEVEN, WORK_OF_ELEVEN_REORDERED,
};
use std::process::Abort;

/// One acknowledgement and its message.
const MESSAGE: &[&[u8]] = &[
    HDR,
    GRH_ACK,
    ACK_0,
    MSG_0_1,
    b"GRT000010000000100000004",
    b"TRL000010000000100000006",
];

/// One work with its original, its origin and a component.
const VERSIONED_WORK: &[&[u8]] = &[
    HDR,
    GRH_NWR,
    NWR_0,
    SWR_0_1,
    VER_0_2,
    ORN_0_3,
    COM_0_4,
    b"GRT000010000000100000007",
    b"TRL000010000000100000009",
];

/// An agreement of one block of two parties.
const AGREEMENT: &[&[u8]] = &[
    HDR,
    GRH_AGR,
    AGR_0,
    TER_0_1,
    IPA_AS_0_2,
    IPA_AC_0_3,
    b"GRT000010000000100000006",
    b"TRL000010000000100000008",
];

/// An agreement of one block of three parties.
const AGREEMENT_OF_THREE: &[&[u8]] = &[
    HDR,
    GRH_AGR,
    AGR_0,
    TER_0_1,
    IPA_AS_0_2,
    IPA_AS_0_3,
    IPA_AC_0_4,
    b"GRT000010000000100000007",
    b"TRL000010000000100000009",
];

/// A work in which a carried record stands between a publisher and its territories.
const CARRIED_AMONG_PUBLISHERS: &[&[u8]] = &[
    HDR,
    GRH_NWR,
    NWR_0,
    SPU_0_1,
    IND_0_2,
    SPT_0_3,
    SWR_0_4,
    b"GRT000010000000100000007",
    b"TRL000010000000100000009",
];

/// An agreement with carried records after its header and between its parties.
const CARRIED_AMONG_PARTIES: &[&[u8]] = &[
    HDR,
    GRH_AGR,
    AGR_0,
    NPA_0_1,
    TER_0_2,
    IPA_AS_0_3,
    NPA_0_4,
    IPA_AC_0_5,
    b"GRT000010000000100000008",
    b"TRL000010000000100000010",
];

/// A work of three records, of which one is carried.
const CARRIED_BEFORE_WRITER: &[&[u8]] = &[
    HDR,
    GRH_NWR,
    NWR_0,
    IND_0_1,
    SWR_0_2,
    b"GRT000010000000100000005",
    b"TRL000010000000100000007",
];

/// An acknowledgement with the copy of a work.
const BARE_COPY: &[&[u8]] = &[
    HDR,
    GRH_ACK,
    ACK_0,
    NWR_0_1,
    SWR_0_2,
    b"GRT000010000000100000005",
    b"TRL000010000000100000007",
];

/// Whether the record there is of that kind.
fn is_of_kind(transaction: &Transaction, i: usize, kind: Kind) -> bool {
    match transaction.record(i) {
        Some(record) => record.kind() == kind,
        None => false,
    }
}

/// Checks that the transaction has records of just these kinds, and is complete.
fn check_kinds(rt: &impl Abort, transaction: &Transaction, kinds: &[Kind]) {
    check_equal(rt, transaction.len(), kinds.len());
    assert!(rt; transaction.complete());
    for (i, kind) in kinds.iter().enumerate() {
        assert!(rt; is_of_kind(transaction, i, *kind));
    }
}

/// Feeds a text whole, up to the end of its transmission, and checks its transactions. The answer is how many bytes were
/// used, and how many transactions were handed out.
fn feed_whole(
    rt: &impl Abort,
    decoder: &mut Decoder,
    text: &[u8],
    transactions: &[&[Kind]],
) -> (usize, usize) {
    let mut used: usize = 0;
    let mut count: usize = 0;
    for _ in 0..99 {
        let step = decoder.feed(text.get(used..).unwrap_or(b""));
        used = used.saturating_add(step.used);
        let Outcome::Item(item) = &step.outcome else {
            break;
        };
        if let Item::Transaction(transaction) = item {
            check_kinds(
                rt,
                transaction,
                transactions.get(count).copied().unwrap_or(&[]),
            );
            count = count.saturating_add(1);
        }
    }
    (used, count)
}

/// Checks that the canonical text of lines, of so many bytes, is handed out within the limits in transactions of these kinds,
/// and that the decoder is done then.
fn check_accepted(
    rt: &(impl Abort + AllocGlobal),
    limits: Numbers,
    lines: &[&[u8]],
    bytes: usize,
    transactions: &[&[Kind]],
) {
    let text = text_of(rt, lines);
    let mut decoder = decoder_within(rt, limits);
    let answer = feed_whole(rt, &mut decoder, text.as_slice(), transactions);
    check_equal(
        rt,
        (text.len(), answer),
        (bytes, (bytes, transactions.len())),
    );
    let done = (decoder.records() as usize, feed(&mut decoder, b""));
    check_equal(rt, done, (lines.len(), (0, "done")));
}

/// Transmissions of works, acknowledgements and agreements.
#[rattlefmt::skip]
fn check_plain(rt: &(impl Abort + AllocGlobal)) {
    check_accepted(rt, LARGEST, MESSAGE, 546, &[&[Ack, Msg]]);
    check_accepted(rt, LARGEST, WORK_OF_ELEVEN, 1893, &[&[Nwr, Spu, Spt, Opu, Swr, Swt, Pwr, Owr, Alt, Per, Rec]]);
    check_accepted(rt, LARGEST, WORK_OF_ELEVEN_REORDERED, 1893, &[&[Nwr, Spu, Spt, Opu, Swr, Swt, Pwr, Owr, Rec, Per, Alt]]);
    check_accepted(rt, LARGEST, TWO_GROUPS, 1599, &[&[Nwr, Swr], &[Rev, Swr], &[Rev, Swr]]);
    check_accepted(rt, LARGEST, VERSIONED_WORK, 1621, &[&[Nwr, Swr, Ver, Orn, Com]]);
    check_accepted(rt, (11, 99_999, 999_999), AGREEMENT_OF_TWO_BLOCKS, 993, &[&[Agr, Ter, Ipa, Ipa, Ter, Ipa, Ipa]]);
    check_accepted(rt, (8, 99_999, 999_999), AGREEMENT, 657, &[&[Agr, Ter, Ipa, Ipa]]);
    check_accepted(rt, (9, 99_999, 999_999), AGREEMENT_OF_THREE, 812, &[&[Agr, Ter, Ipa, Ipa, Ipa]]);
    check_accepted(rt, (5, 1, 1), ONE_ACKNOWLEDGEMENT, 359, &[&[Ack]]);
}

/// Transmissions with carried records.
#[rattlefmt::skip]
fn check_carried(rt: &(impl Abort + AllocGlobal)) {
    check_accepted(rt, (8, 1, 4), CARRIED_RECORDS, 2084, &[&[Nwr, Ind, Swr, Ari]]);
    check_accepted(rt, LARGEST, CARRIED_AMONG_PUBLISHERS, 1608, &[&[Nwr, Spu, Ind, Spt, Swr]]);
    check_accepted(rt, LARGEST, CARRIED_AMONG_PARTIES, 2099, &[&[Agr, Npa, Ter, Ipa, Npa, Ipa]]);
    check_accepted(rt, (99_999_999, 99_999, 3), CARRIED_BEFORE_WRITER, 1363, &[&[Nwr, Ind, Swr]]);
}

/// Acknowledgements with copies.
#[rattlefmt::skip]
fn check_copies(rt: &(impl Abort + AllocGlobal)) {
    check_accepted(rt, LARGEST, COPIED_WORK, 990, &[&[Ack, Msg, Nwr, Swr]]);
    check_accepted(rt, LARGEST, COPY_BEFORE_ANOTHER, 964, &[&[Ack, Nwr, Swr], &[Ack]]);
    check_accepted(rt, LARGEST, COPIED_AGREEMENT, 1539, &[&[Ack, Agr, Ter, Ipa, Npa, Ipa]]);
    check_accepted(rt, (7, 1, 3), BARE_COPY, 803, &[&[Ack, Nwr, Swr]]);
}

#[test]
fn transmissions_are_handed_out_by_items(rt: HostRuntime) {
    check_plain(&rt);
    check_carried(&rt);
    check_copies(&rt);
}
