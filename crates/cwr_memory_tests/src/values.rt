//! Transactions, groups and transmissions that are put together, and findings.

use crate::checks::check_equal;
use crate::works::{TWO_GROUPS_WITH_A_FINDING, ended, largest, text_of};
use cwr_decode::{ReadFault, Reading};
use cwr_devices::{InMemory, Source};
use cwr_findings::findings;
use cwr_values::{
    Group, GroupFault, Item, PushFault, Transaction, Transmission, TransmissionFault,
};
use cwr_worked::texts::{ONE_ACKNOWLEDGEMENT, TWO_GROUPS, WORK_OF_ELEVEN};
use std::alloc::AllocError;
use std::fmt::Debug;
use std::process::Abort;
use std::test::Fail;

/// A transaction with the same records. `None` where memory is refused.
fn copied(rt: &(impl Abort + AllocGlobal), transaction: &Transaction) -> Option<Transaction> {
    let head = transaction.record(0).expect(rt, "no header");
    let begun = Transaction::new(rt.alloc(), head);
    let mut copy = with_memory(rt, begun, PushFault::Memory)?;
    for i in 1..transaction.len() {
        let next = transaction.record(i).expect(rt, "no record");
        let pushed = with_memory(rt, copy.push(next), PushFault::Memory);
        check_equal(rt, copy.len(), i.saturating_add(pushed.is_some() as usize));
        pushed?;
    }
    Some(copy)
}

/// What a call gives. `None` where memory is refused, for which this is the fault.
fn with_memory<T: Drop, F: PartialEq + Debug + Drop>(
    rt: &impl Abort,
    answer: Result<T, F>,
    memory: F,
) -> Option<T> {
    match answer {
        Ok(value) => Some(value),
        Err(fault) => {
            check_equal(rt, fault, memory);
            None
        }
    }
}

/// Adds a transaction to a group: whether it is added. One that isn't is handed back, since memory was refused.
fn add_transaction(rt: &impl Abort, group: &mut Group, transaction: Transaction) -> bool {
    let (before, records) = (group.len(), transaction.len());
    match group.push(transaction) {
        Ok(()) => true,
        Err((fault, given)) => {
            check_equal(rt, fault, GroupFault::Memory);
            check_equal(rt, (group.len(), given.len()), (before, records));
            false
        }
    }
}

/// Adds a group to a transmission: whether it is added. One that isn't is handed back, since memory was refused.
fn add_group(rt: &impl Abort, transmission: &mut Transmission, group: Group) -> bool {
    let (before, transactions) = (transmission.len(), group.len());
    match transmission.push(group) {
        Ok(()) => true,
        Err((fault, given)) => {
            check_equal(rt, fault, TransmissionFault::Memory);
            check_equal(
                rt,
                (transmission.len(), given.len()),
                (before, transactions),
            );
            false
        }
    }
}

/// A transmission that is put together of items, and how many findings its transactions have.
#[derive(Drop)]
struct Parts {
    whole: Option<Transmission>,
    open: Option<Group>,
    findings: usize,
}

/// Adds a copy of a transaction to the open group, and counts its findings. No where memory is refused.
fn add_copy(rt: &(impl Abort + AllocGlobal), parts: &mut Parts, transaction: &Transaction) -> bool {
    let Some(copy) = copied(rt, transaction) else {
        return false;
    };
    let Ok(found) = count_findings(rt, &copy) else {
        return false;
    };
    parts.findings = parts.findings.saturating_add(found);
    match &mut parts.open {
        Some(group) => add_transaction(rt, group, copy),
        None => true,
    }
}

/// How many findings a transaction has.
fn count_findings(rt: &impl AllocGlobal, transaction: &Transaction) -> Result<usize, AllocError> {
    findings(rt.alloc(), transaction).map(|found| found.len())
}

/// Adds the open group to the transmission. No where memory is refused.
fn close_group(rt: &impl Abort, parts: &mut Parts) -> bool {
    match (&mut parts.whole, parts.open.take()) {
        (Some(transmission), Some(group)) => add_group(rt, transmission, group),
        _ => true,
    }
}

/// Adds an item. No where memory is refused.
fn add_item(rt: &(impl Abort + AllocGlobal), parts: &mut Parts, item: Item) -> bool {
    match item {
        Item::Opened(head) => parts.whole = Transmission::new(rt.alloc(), head.to_record()).ok(),
        Item::GroupOpened(head) => parts.open = Group::new(rt.alloc(), head.to_record()).ok(),
        Item::Transaction(transaction) => return add_copy(rt, parts, &transaction),
        Item::GroupClosed(_) => return close_group(rt, parts),
        Item::Ended => {}
    }
    true
}

/// Reads the next item and adds it: whether there is one. `None` where memory is refused.
fn add_next<R: Source>(
    rt: &(impl Abort + AllocGlobal),
    reading: &mut Reading<'_, R>,
    parts: &mut Parts,
) -> Option<bool> {
    match with_memory(rt, reading.next_item(), ReadFault::Memory)? {
        Some(item) => add_item(rt, parts, item).then_some(true),
        None => Some(false),
    }
}

/// Puts together the transmission of a reader, and lists the findings in its transactions: how many groups and how many
/// findings there are. `None` where memory is refused.
fn count_values<R: Source>(
    rt: &(impl Abort + AllocGlobal),
    reader: &mut R,
) -> Option<(usize, usize)> {
    let mut reading = Reading::new(rt.alloc(), largest(), reader);
    let mut parts = Parts {
        whole: None,
        open: None,
        findings: 0,
    };
    for _ in 0..100 {
        if !add_next(rt, &mut reading, &mut parts)? {
            break;
        }
    }
    let groups = parts.whole.as_ref().map_or(0, |whole| whole.len());
    Some((groups, parts.findings))
}

/// Puts together a text's transmission: so many groups, and so many findings.
fn check_values(
    rt: &(impl Abort + AllocGlobal),
    lines: &[&[u8]],
    numbers: (usize, usize),
) -> Result<(), Fail> {
    let text = text_of(rt, lines);
    let answer = count_values(rt, &mut InMemory::new(text.as_slice()));
    ended(rt, answer, numbers)
}

#[test]
fn values_of_one_acknowledgement(rt: HostRuntime) -> Result<(), Fail> {
    check_values(&rt, ONE_ACKNOWLEDGEMENT, (1, 0))
}

#[test]
fn values_of_a_work(rt: HostRuntime) -> Result<(), Fail> {
    check_values(&rt, WORK_OF_ELEVEN, (1, 0))
}

#[test]
fn values_of_two_groups(rt: HostRuntime) -> Result<(), Fail> {
    check_values(&rt, TWO_GROUPS, (2, 0))
}

#[test]
fn values_with_a_finding(rt: HostRuntime) -> Result<(), Fail> {
    check_values(&rt, TWO_GROUPS_WITH_A_FINDING, (2, 1))
}
