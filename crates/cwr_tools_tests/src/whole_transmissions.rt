//! Tests of reading whole worked transmissions, with ample memory.

use crate::checks::check_equal;
use crate::decoders::{LARGEST, Numbers, limits_of, short_text_of, text_of, twice_of};
use cwr_decode::{ReadFault, read_all, read_pieces};
use cwr_devices::{ReadAhead, Source};
use cwr_fields::Kind;
use cwr_values::{Group, Transmission};
use cwr_worked::texts::ONE_ACKNOWLEDGEMENT;
use std::process::Abort;

/// The kind of a group's transaction, and how many records it has.
fn transaction_of(group: &Group, i: usize) -> Option<(Kind, usize)> {
    let transaction = group.transaction(i)?;
    Some((transaction.kind(), transaction.len()))
}

/// Checks that it is the group of one acknowledgement.
fn check_group(rt: &impl Abort, group: &Group) {
    let acknowledgements: &[u8] = b"ACK";
    let kinds = (group.foot().view().kind(), transaction_of(group, 0));
    check_equal(
        rt,
        (group.len(), kinds),
        (1, (Kind::Grt, Some((Kind::Ack, 1)))),
    );
    check_equal(rt, group.head().view().cell(2), Some(acknowledgements));
}

/// Checks that it is the transmission of one acknowledgement.
fn check_acknowledgement(rt: &impl Abort, transmission: &Transmission) {
    let sender: &[u8] = b"123456789";
    check_equal(rt, transmission.open().view().cell(3), Some(sender));
    check_equal(rt, transmission.len(), 1);
    check_group(rt, transmission.group(0).expect(rt, "no group"));
}

/// Reads the transmission of one acknowledgement within these limits.
fn check_read<R: Source>(rt: &(impl Abort + AllocGlobal), numbers: Numbers, reader: &mut R) {
    let read = read_all(rt.alloc(), limits_of(rt, numbers), reader);
    check_acknowledgement(rt, &read.expect(rt, "no transmission"));
}

#[test]
fn acknowledgements_from_readers(rt: HostRuntime) {
    let text = twice_of(&rt, ONE_ACKNOWLEDGEMENT);
    check_equal(&rt, text.len(), 718);
    let mut reader = ReadAhead::new(text.as_slice());
    for _ in 0..2 {
        check_read(&rt, LARGEST, &mut reader);
    }
    let third = read_all(rt.alloc(), limits_of(&rt, LARGEST), &mut reader).err();
    check_equal(&rt, third, Some(ReadFault::Truncated { records: 0 }));
    let short = short_text_of(&rt, ONE_ACKNOWLEDGEMENT);
    check_read(&rt, (5, 1, 1), &mut ReadAhead::new(short.as_slice()));
}

#[test]
fn one_acknowledgement_in_two_pieces(rt: HostRuntime) {
    let text = text_of(&rt, ONE_ACKNOWLEDGEMENT);
    for cut in 0..text.len() {
        let (first, second) = text.as_slice().split_at(cut);
        let pieces = [first, &[], second];
        let read = read_pieces(rt.alloc(), limits_of(&rt, LARGEST), &pieces);
        check_acknowledgement(&rt, &read.expect(&rt, "no transmission"));
    }
}
