//! Tests of whole runs whose reader fails in one of its reads.

use crate::checks::check_equal;
use crate::devices::{Reader, WIDE, failing_after, writer_of};
use crate::outputs::Mishap;
use crate::runs::{Tool, joined, parted, reported};
use crate::works::{Numbers, Worked, text_of};
use cwr_tools::{JoinFault, ToolFault};
use std::process::Abort;

/// The limits of all runs.
const LEAST: Numbers = (24, 4, 2);

/// What a check or a show answers, if it fails.
fn fault_of(
    rt: &(impl Abort + AllocGlobal),
    tool: Tool,
    mut reader: Reader<'_>,
) -> Option<ToolFault> {
    let writer = writer_of(rt.alloc(), WIDE);
    let (_, answer) = reported(rt, tool, LEAST, &mut reader, writer);
    answer.err()
}

/// What a split answers, if it fails.
fn split_fault(rt: &(impl Abort + AllocGlobal), mut reader: Reader<'_>) -> Option<ToolFault> {
    let (_, answer) = parted(rt, LEAST, &mut reader, 2, Mishap::Nothing);
    answer.err()
}

/// What a join answers, if it fails.
fn join_fault(rt: &(impl Abort + AllocGlobal), mut readers: [Reader<'_>; 2]) -> Option<JoinFault> {
    let writer = writer_of(rt.alloc(), WIDE);
    let (_, answer) = joined(rt, LEAST, readers.as_mut_slice(), writer);
    answer.err()
}

/// Runs over a text whose reader fails after so many reads, in a join the second reader.
fn check_failing(rt: &(impl Abort + AllocGlobal), left: &[u8], reads: usize) {
    let fault = Some(ToolFault::Reader);
    let answers = [
        fault_of(rt, Tool::Check, failing_after(left, reads)),
        fault_of(rt, Tool::Show, failing_after(left, reads)),
        split_fault(rt, failing_after(left, reads)),
    ];
    check_equal(rt, (reads, answers), (reads, [fault; 3]));
    let readers = [failing_after(left, 16), failing_after(left, reads)];
    let wanted = JoinFault {
        input: 2,
        fault: ToolFault::Reader,
    };
    check_equal(rt, (reads, join_fault(rt, readers)), (reads, Some(wanted)));
}

#[test]
fn each_read_that_fails_is_answered(rt: HostRuntime) {
    let text = text_of(&rt, Worked::TwoGroups);
    for reads in 0..16 {
        check_failing(&rt, text.as_slice(), reads);
    }
}
