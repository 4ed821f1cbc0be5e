//! The records of the worked transactions.

use crate::checks::check_equal;
use cwr_fields::Kind;
use cwr_lines::{Draft, Record};
use cwr_values::{PushFault, Transaction};
use std::process::Abort;

/// The record of the kind in which these cells are set.
pub(crate) fn record_with(rt: &impl Abort, kind: Kind, cells: &[(u8, &[u8])]) -> Record {
    let mut draft = Draft::blank(kind);
    for (j, text) in cells {
        check_equal(rt, draft.set(*j, text), Ok(()));
    }
    draft.done().expect(rt, "no record")
}

/// HDR.
pub(crate) fn opening(rt: &impl Abort) -> Record {
    record_with(
        rt,
        Kind::Hdr,
        &[
            (2, b"PB"),
            (3, b"123456789"),
            (4, b"MUSIC HOUSE"),
            (6, b"20240102"),
            (7, b"101500"),
            (8, b"20240103"),
        ],
    )
}

/// GRH of a type.
pub(crate) fn group_head(rt: &impl Abort, ty: &[u8]) -> Record {
    record_with(rt, Kind::Grh, &[(2, ty), (5, b"0000000001")])
}

/// NWR.
pub(crate) fn work(rt: &impl Abort) -> Record {
    record_with(
        rt,
        Kind::Nwr,
        &[
            (4, b"BLUE RIVER"),
            (6, b"W0001"),
            (10, b"POP"),
            (15, b"ORI"),
        ],
    )
}

/// REV of a title and a number of the work.
pub(crate) fn revision<'a>(rt: &impl Abort, title: &'a [u8], number: &'a [u8]) -> Record {
    record_with(rt, Kind::Rev, &[(4, title), (6, number), (15, b"ORI")])
}

/// SWR.
pub(crate) fn writer(rt: &impl Abort) -> Record {
    record_with(
        rt,
        Kind::Swr,
        &[(4, b"W1"), (5, b"SMITH"), (6, b"ANNA"), (8, b"CA")],
    )
}

/// SPU.
pub(crate) fn publisher(rt: &impl Abort) -> Record {
    record_with(
        rt,
        Kind::Spu,
        &[
            (4, b"01"),
            (5, b"P1"),
            (6, b"MUSIC HOUSE"),
            (8, b"E"),
            (13, b"02500"),
            (15, b"05000"),
            (17, b"05000"),
        ],
    )
}

/// A transaction that has its header alone.
pub(crate) fn begun_with(rt: &(impl Abort + AllocGlobal), header: &Record) -> Transaction {
    Transaction::new(rt.alloc(), header.view()).expect(rt, "no transaction")
}

/// Adds a record to a transaction: the fault, how many records it has then, and whether it is complete.
pub(crate) fn push(
    transaction: &mut Transaction,
    record: &Record,
) -> (Result<(), PushFault>, usize, bool) {
    let pushed = transaction.push(record.view());
    (pushed, transaction.len(), transaction.complete())
}

/// A work of its header and one writer.
pub(crate) fn short_work(rt: &(impl Abort + AllocGlobal), header: &Record) -> Transaction {
    let mut transaction = begun_with(rt, header);
    let pushed = push(&mut transaction, &writer(rt));
    check_equal(rt, pushed, (Ok(()), 2, true));
    transaction
}
