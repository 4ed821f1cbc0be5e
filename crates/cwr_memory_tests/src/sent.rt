//! What is kept of transmissions that were sent.

use crate::checks::check_equal;
use crate::works::{ended, largest, text_of};
use cwr_decode::ReadFault;
use cwr_devices::InMemory;
use cwr_sent::read_sent;
use cwr_worked::texts::{ONE_ACKNOWLEDGEMENT, TWO_GROUPS, WORK_OF_ELEVEN};
use std::process::Abort;
use std::test::Fail;

/// How many groups are kept of a text, and how many transactions of the last of them. `None` where memory is refused.
fn count_kept(rt: &(impl Abort + AllocGlobal), text: &[u8]) -> Option<(usize, usize)> {
    match read_sent(rt.alloc(), largest(), &mut InMemory::new(text)) {
        Ok(sent) => {
            let groups = sent.groups();
            let of_the_last = groups.last().map_or(0, |group| group.len());
            Some((groups.len(), of_the_last))
        }
        Err(fault) => {
            check_equal(rt, fault, ReadFault::Memory);
            None
        }
    }
}

/// Reads a text that was sent. So many groups are kept, and so many transactions of the last of them.
fn check_kept(
    rt: &(impl Abort + AllocGlobal),
    lines: &[&[u8]],
    numbers: (usize, usize),
) -> Result<(), Fail> {
    let text = text_of(rt, lines);
    ended(rt, count_kept(rt, text.as_slice()), numbers)
}

#[test]
fn sent_of_one_acknowledgement(rt: HostRuntime) -> Result<(), Fail> {
    check_kept(&rt, ONE_ACKNOWLEDGEMENT, (1, 1))
}

#[test]
fn sent_of_a_work(rt: HostRuntime) -> Result<(), Fail> {
    check_kept(&rt, WORK_OF_ELEVEN, (1, 1))
}

#[test]
fn sent_of_two_groups(rt: HostRuntime) -> Result<(), Fail> {
    check_kept(&rt, TWO_GROUPS, (2, 2))
}
