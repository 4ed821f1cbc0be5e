//! Tests of transactions, on the worked orders of records.

use crate::checks::check_equal;
use crate::worked_records::{begun_with, publisher, push, record_with, short_work, work, writer};
use cwr_fields::Kind;
use cwr_lines::Record;
use cwr_values::{PushFault, Transaction};
use std::process::Abort;

#[test]
fn transactions_that_begin_with_a_writer(rt: HostRuntime) {
    let refused = Transaction::new(rt.alloc(), writer(&rt).view()).err();
    check_equal(&rt, refused, Some(PushFault::Misplaced));
}

#[test]
fn works(rt: HostRuntime) {
    assert!(rt; !begun_with(&rt, &work(&rt)).complete());
    let mut transaction = short_work(&rt, &work(&rt));
    let misplaced = push(&mut transaction, &publisher(&rt));
    check_equal(&rt, misplaced, (Err(PushFault::Misplaced), 2, true));
    check_work(&rt, &transaction);
}

/// Checks the records of a work of its header and one writer.
fn check_work(rt: &impl Abort, transaction: &Transaction) {
    check_equal(rt, transaction.kind(), Kind::Nwr);
    check_equal(rt, width_of(transaction, 0, 4), Some(60));
    assert!(rt; transaction.record(2).is_none());
}

/// How many bytes a cell of a transaction has.
fn width_of(transaction: &Transaction, i: usize, j: u8) -> Option<usize> {
    transaction.record(i)?.cell(j).map(<[u8]>::len)
}

#[test]
fn faults_are_printed(rt: HostRuntime) {
    for (fault, text) in [
        (PushFault::Misplaced, "misplaced record"),
        (PushFault::Memory, "out of memory"),
    ] {
        let printed = format!(in rt.alloc(); "{fault}").expect(&rt, "no memory");
        check_equal(&rt, printed.as_str(), text);
    }
}

/// IPA of a role.
fn party(rt: &impl Abort, role: &[u8]) -> Record {
    record_with(rt, Kind::Ipa, &[(4, role), (8, b"SMITH")])
}

/// An agreement of its header and a territory.
fn begun_agreement(rt: &(impl Abort + AllocGlobal)) -> Transaction {
    let cells: [(u8, &[u8]); 3] = [(4, b"A0000000000001"), (6, b"OS"), (15, b"00001")];
    let mut transaction = begun_with(rt, &record_with(rt, Kind::Agr, &cells));
    let territory = record_with(rt, Kind::Ter, &[(4, b"I"), (5, b"2136")]);
    check_equal(rt, push(&mut transaction, &territory), (Ok(()), 2, false));
    transaction
}

#[test]
fn agreements(rt: HostRuntime) {
    let mut transaction = begun_agreement(&rt);
    let roles: [(&[u8], usize, bool); 3] = [(b"AS", 3, false), (b"AS", 4, false), (b"AC", 5, true)];
    for (role, len, complete) in roles {
        let pushed = push(&mut transaction, &party(&rt, role));
        check_equal(&rt, pushed, (Ok(()), len, complete));
    }
}
