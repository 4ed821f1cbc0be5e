//! Tests of groups and transmissions, on the worked transactions.

use crate::checks::check_equal;
use crate::worked_records::{
    begun_with, group_head, opening, push, record_with, revision, short_work, work, writer,
};
use cwr_fields::Kind;
use cwr_lines::Record;
use cwr_shape::Limits;
use cwr_values::{Group, GroupFault, Transaction, Transmission, TransmissionFault, ValueFault};
use std::fmt::Display;
use std::process::Abort;

/// An empty group of the type.
fn group(rt: &(impl Abort + AllocGlobal), ty: &[u8]) -> Group {
    Group::new(rt.alloc(), group_head(rt, ty)).expect(rt, "no group")
}

/// The fault of a refused push, without what it handed back.
fn fault_of<F, T: Drop>(pushed: Result<(), (F, T)>) -> Result<(), F> {
    pushed.map_err(|(fault, _given)| fault)
}

/// Adds a work of the header and one writer.
fn push_written(rt: &(impl Abort + AllocGlobal), group: &mut Group, header: &Record) {
    check_equal(rt, fault_of(group.push(short_work(rt, header))), Ok(()));
}

/// A transmission without a group.
fn begun_transmission(rt: &(impl Abort + AllocGlobal)) -> Transmission {
    Transmission::new(rt.alloc(), opening(rt)).expect(rt, "no transmission")
}

/// Adds a group.
fn push_group(rt: &impl Abort, transmission: &mut Transmission, group: Group) {
    check_equal(rt, fault_of(transmission.push(group)), Ok(()));
}

/// A group of two revised works.
fn two_revisions(rt: &(impl Abort + AllocGlobal)) -> Group {
    let mut works = group(rt, b"REV");
    push_written(rt, &mut works, &revision(rt, b"RED HILL", b"W0002"));
    push_written(rt, &mut works, &revision(rt, b"GREEN SEA", b"W0003"));
    works
}

/// A group of one new work, and a group of two revised ones.
fn two_groups(rt: &(impl Abort + AllocGlobal)) -> Transmission {
    let mut works = group(rt, b"NWR");
    push_written(rt, &mut works, &work(rt));
    let mut transmission = begun_transmission(rt);
    push_group(rt, &mut transmission, works);
    push_group(rt, &mut transmission, two_revisions(rt));
    transmission
}

/// Adds a transaction to an empty group of the type, which refuses it for that, stays empty, and hands it back.
fn refused_by(
    rt: &(impl Abort + AllocGlobal),
    ty: &[u8],
    transaction: Transaction,
    fault: GroupFault,
) -> Transaction {
    let mut group = group(rt, ty);
    let (found, given) = group.push(transaction).expect_err(rt, "not refused");
    check_equal(rt, (found, group.len()), (fault, 0));
    given
}

/// A work of its header, to which its writer is added.
fn completed(rt: &impl Abort, mut transaction: Transaction) -> Transaction {
    check_equal(rt, push(&mut transaction, &writer(rt)), (Ok(()), 2, true));
    transaction
}

/// How many transactions a group has, and how many records each of its first two.
fn lengths_of(group: &Group) -> (usize, Option<usize>, Option<usize>) {
    (
        group.len(),
        group.transaction(0).map(Transaction::len),
        group.transaction(1).map(Transaction::len),
    )
}

#[test]
fn transactions_into_groups(rt: HostRuntime) {
    let begun = begun_with(&rt, &work(&rt));
    let begun = refused_by(&rt, b"NWR", begun, GroupFault::Incomplete);
    let whole = refused_by(&rt, b"ACK", completed(&rt, begun), GroupFault::WrongKind);
    let mut works = group(&rt, b"NWR");
    check_equal(&rt, fault_of(works.push(whole)), Ok(()));
    check_equal(&rt, lengths_of(&works), (1, Some(2), None));
}

/// Adds a group without a transaction, which is refused and handed back.
fn refused_empty(rt: &impl Abort, transmission: &mut Transmission, group: Group) -> Group {
    let refused = transmission.push(group);
    let (fault, given) = refused.expect_err(rt, "without transaction");
    check_equal(
        rt,
        (fault, transmission.len()),
        (TransmissionFault::Empty, 0),
    );
    given
}

/// How many groups a transmission has, and how many transactions each of its first two.
fn groups_of(transmission: &Transmission) -> (usize, Option<usize>, Option<usize>) {
    (
        transmission.len(),
        transmission.group(0).map(Group::len),
        transmission.group(1).map(Group::len),
    )
}

#[test]
fn groups_into_transmissions(rt: HostRuntime) {
    let mut transmission = begun_transmission(&rt);
    let mut works = refused_empty(&rt, &mut transmission, group(&rt, b"NWR"));
    push_written(&rt, &mut works, &work(&rt));
    push_group(&rt, &mut transmission, works);
    let found = (groups_of(&transmission), transmission.open().view().kind());
    check_equal(&rt, found, ((1, Some(1), None), Kind::Hdr));
}

/// The kind of the record that is handed back.
fn kind_returned<T: Drop>(refused: Result<T, Record>) -> Option<Kind> {
    refused.err().map(|given| given.view().kind())
}

#[test]
fn records_of_another_kind(rt: HostRuntime) {
    let refused = [
        kind_returned(Group::new(rt.alloc(), opening(&rt))),
        kind_returned(Transmission::new(rt.alloc(), group_head(&rt, b"NWR"))),
        kind_returned(group(&rt, b"NWR").set_foot(opening(&rt))),
    ];
    let kinds = [Kind::Hdr, Kind::Grh, Kind::Hdr];
    check_equal(&rt, refused, kinds.map(Some));
}

/// Checks the type of a group's head, and the currency of its foot.
fn check_ends(rt: &impl Abort, group: &Group, ty: &[u8], currency: &[u8]) {
    let foot = group.foot().view();
    check_equal(rt, foot.kind(), Kind::Grt);
    let cells = (group.head().view().cell(2), foot.cell(5));
    check_equal(rt, cells, (Some(ty), Some(currency)));
}

#[test]
fn feet(rt: HostRuntime) {
    let mut works = group(&rt, b"NWR");
    check_ends(&rt, &works, b"NWR", b"   ");
    let foot = record_with(&rt, Kind::Grt, &[(5, b"EUR")]);
    assert!(rt; works.set_foot(foot).is_ok());
    check_ends(&rt, &works, b"NWR", b"EUR");
}

/// Checks whether a transmission is within limits of these numbers.
fn check_fit(
    rt: &impl Abort,
    transmission: &Transmission,
    (records, groups, longest): (u32, u32, u32),
    wanted: Result<(), ValueFault>,
) {
    let limits = Limits::new(records, groups, longest).expect(rt, "no limits");
    check_equal(rt, transmission.fits(limits), wanted);
}

/// The first transaction is too long.
const LONG: ValueFault = ValueFault::Transaction {
    group: 0,
    transaction: 0,
};

#[test]
fn limits(rt: HostRuntime) {
    let none = begun_transmission(&rt);
    check_fit(&rt, &none, (5, 1, 1), Err(ValueFault::NoGroup));
    let transmission = two_groups(&rt);
    check_fit(&rt, &transmission, (11, 2, 2), Err(ValueFault::Records));
    check_fit(&rt, &transmission, (12, 1, 2), Err(ValueFault::Groups));
    check_fit(&rt, &transmission, (12, 2, 1), Err(LONG));
    check_fit(&rt, &transmission, (12, 2, 2), Ok(()));
}

/// Checks the text of a fault.
fn check_text(rt: &(impl Abort + AllocGlobal), fault: impl Display + Copy, wanted: &str) {
    let text = format!(in rt.alloc(); "{fault}").expect(rt, "no memory");
    check_equal(rt, text.as_str(), wanted);
}

#[test]
fn faults_print(rt: HostRuntime) {
    check_text(&rt, GroupFault::WrongKind, "transaction of another kind");
    check_text(&rt, GroupFault::Incomplete, "incomplete transaction");
    check_text(&rt, GroupFault::Memory, "out of memory");
    check_text(&rt, TransmissionFault::Empty, "group without transaction");
    check_text(&rt, TransmissionFault::Memory, "out of memory");
    check_text(&rt, ValueFault::NoGroup, "no group");
    check_text(&rt, ValueFault::Records, "too many records");
    check_text(&rt, ValueFault::Groups, "too many groups");
    let long = ValueFault::Transaction {
        group: 1,
        transaction: 0,
    };
    check_text(&rt, long, "group 1, transaction 0: too many records");
}
