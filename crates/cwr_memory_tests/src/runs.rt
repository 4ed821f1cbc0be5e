//! Whole runs over texts.

use crate::outputs::{Nowhere, Numbered};
use crate::works::{TWO_GROUPS_WITH_A_FINDING, ended, largest, text_of};
use cwr_devices::{Counted, InMemory};
use cwr_explain::explain;
use cwr_parts::{join, split};
use cwr_tools::{JoinFault, JoinReport, SplitReport, ToolFault, Verdict, check, show};
use cwr_worked::texts::{ONE_ACKNOWLEDGEMENT, TWO_GROUPS, WORK_OF_ELEVEN};
use std::process::Abort;
use std::test::Fail;

/// What a check of a good text answers.
const fn good(groups: u32, transactions: u32, records: u32) -> Verdict {
    Verdict::Good {
        groups,
        transactions,
        records,
    }
}

/// What a check of a text answers.
fn checked(rt: &impl AllocGlobal, text: &[u8]) -> Result<Verdict, ToolFault> {
    let mut reader = InMemory::new(text);
    check(rt.alloc(), largest(), &mut reader, Counted::new(Nowhere)).1
}

/// What a show of a text answers.
fn shown(rt: &impl AllocGlobal, text: &[u8]) -> Result<Verdict, ToolFault> {
    let mut reader = InMemory::new(text);
    show(rt.alloc(), largest(), &mut reader, Counted::new(Nowhere)).1
}

/// What an explanation of a text answers.
fn explained(rt: &impl AllocGlobal, text: &[u8]) -> Result<Verdict, ToolFault> {
    let mut reader = InMemory::new(text);
    let writer = Counted::new(Nowhere);
    explain(rt.alloc(), largest(), "it", &mut reader, writer).1
}

/// What a run answers. `None` where that is out of memory.
fn with_memory<T: Copy>(answer: Result<T, ToolFault>) -> Option<Result<T, ToolFault>> {
    match answer {
        Err(ToolFault::Memory) => None,
        answer => Some(answer),
    }
}

/// Checks, shows and explains a text. Each answers the verdict.
fn check_verdict(
    rt: &(impl Abort + AllocGlobal),
    lines: &[&[u8]],
    verdict: Verdict,
) -> Result<(), Fail> {
    let text = text_of(rt, lines);
    let given = text.as_slice();
    for answer in [checked(rt, given), shown(rt, given), explained(rt, given)] {
        ended(rt, with_memory(answer), Ok(verdict))?;
    }
    Ok(())
}

/// Splits a text into outputs of two transactions: what is answered, and how many outputs are done. `None` where memory is
/// refused; fewer outputs are done then than all.
fn parted(
    rt: &(impl Abort + AllocGlobal),
    text: &[u8],
    all: u32,
) -> Option<(Result<SplitReport, ToolFault>, u32)> {
    let mut reader = InMemory::new(text);
    let mut outputs = Numbered::new();
    let answer = split(rt.alloc(), largest(), &mut reader, 2, &mut outputs);
    if answer == Err(ToolFault::Memory) {
        assert!(rt; outputs.done() < all);
        return None;
    }
    Some((answer, outputs.done()))
}

/// Splits a text into outputs of two transactions. All are done.
fn check_split(
    rt: &(impl Abort + AllocGlobal),
    lines: &[&[u8]],
    report: SplitReport,
) -> Result<(), Fail> {
    let text = text_of(rt, lines);
    let answer = parted(rt, text.as_slice(), report.outputs);
    ended(rt, answer, (Ok(report), report.outputs))
}

/// Joins a text with itself: what is answered.
fn joined_twice(rt: &impl AllocGlobal, text: &[u8]) -> Result<JoinReport, JoinFault> {
    let mut readers = [InMemory::new(text), InMemory::new(text)];
    let writer = Counted::new(Nowhere);
    join(rt.alloc(), largest(), readers.as_mut_slice(), writer).1
}

/// Joins a text with itself.
fn check_join(
    rt: &(impl Abort + AllocGlobal),
    lines: &[&[u8]],
    report: JoinReport,
) -> Result<(), Fail> {
    let text = text_of(rt, lines);
    let answer = joined_twice(rt, text.as_slice()).map_err(|it| it.fault);
    ended(rt, with_memory(answer), Ok(report))
}

/// The numbers of a join of two inputs.
const fn joined(groups: u32, transactions: u32, records: u32) -> JoinReport {
    JoinReport {
        inputs: 2,
        groups,
        transactions,
        records,
    }
}

/// The numbers of a split.
const fn parts(outputs: u32, transactions: u32) -> SplitReport {
    SplitReport {
        outputs,
        transactions,
    }
}

#[test]
fn verdict_on_one_acknowledgement(rt: HostRuntime) -> Result<(), Fail> {
    check_verdict(&rt, ONE_ACKNOWLEDGEMENT, good(1, 1, 5))
}

#[test]
fn verdict_on_a_work(rt: HostRuntime) -> Result<(), Fail> {
    check_verdict(&rt, WORK_OF_ELEVEN, good(1, 1, 15))
}

#[test]
fn verdict_on_two_groups(rt: HostRuntime) -> Result<(), Fail> {
    check_verdict(&rt, TWO_GROUPS, good(2, 3, 12))
}

#[test]
fn verdict_with_a_finding(rt: HostRuntime) -> Result<(), Fail> {
    check_verdict(&rt, TWO_GROUPS_WITH_A_FINDING, good(2, 3, 12))
}

#[test]
fn split_of_one_acknowledgement(rt: HostRuntime) -> Result<(), Fail> {
    check_split(&rt, ONE_ACKNOWLEDGEMENT, parts(1, 1))
}

#[test]
fn split_of_a_work(rt: HostRuntime) -> Result<(), Fail> {
    check_split(&rt, WORK_OF_ELEVEN, parts(1, 1))
}

#[test]
fn split_of_two_groups(rt: HostRuntime) -> Result<(), Fail> {
    check_split(&rt, TWO_GROUPS, parts(2, 3))
}

#[test]
fn split_with_a_finding(rt: HostRuntime) -> Result<(), Fail> {
    check_split(&rt, TWO_GROUPS_WITH_A_FINDING, parts(2, 3))
}

#[test]
fn join_of_one_acknowledgement(rt: HostRuntime) -> Result<(), Fail> {
    check_join(&rt, ONE_ACKNOWLEDGEMENT, joined(2, 2, 8))
}

#[test]
fn join_of_a_work(rt: HostRuntime) -> Result<(), Fail> {
    check_join(&rt, WORK_OF_ELEVEN, joined(2, 2, 28))
}

#[test]
fn join_of_two_groups(rt: HostRuntime) -> Result<(), Fail> {
    check_join(&rt, TWO_GROUPS, joined(4, 6, 22))
}

#[test]
fn join_with_a_finding(rt: HostRuntime) -> Result<(), Fail> {
    check_join(&rt, TWO_GROUPS_WITH_A_FINDING, joined(4, 6, 22))
}
