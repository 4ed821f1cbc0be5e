//! What stands in a text, in numbers.

ghost use Rattle.std.specs.Prelude.{IfErr, IfOk};
ghost use Rattle.cwr_calls.specs.Format.Copies.{CopiesOut};
ghost use Rattle.cwr_calls.specs.Steps.Checked.{MayLackMemory};
ghost use Rattle.cwr_calls.specs.Steps.Summed.{IsSummedOn};
ghost use Rattle.cwr_summary.specs.Format.Summaries.{lines_of_nothing};

use crate::calls::Nowhere;
use cwr_devices::InMemory;
use cwr_shape::Limits;
use cwr_summary::{Summary, SummedItems};
use cwr_tools::{ToolFault, Verdict, write_report};
use std::alloc::Global;

/// The summary of the text's items, up to where it ends or is refused, and the verdict.
pub(crate) fn summarize(
    alloc: Global,
    limits: Limits,
    text: &[u8],
) -> (Summary, Result<Verdict, ToolFault>)
    ensures summed { IfOk result.1 (λ verdict. IsSummedOn limits text.now verdict result.0) }
    ensures memory { IfErr result.1 (λ fault. MayLackMemory lines_of_nothing limits text.now) }
{
    let mut reader = InMemory::new(text);
    let mut items = SummedItems::new();
    let (_, found) = write_report(&mut items, alloc, limits, &mut reader, Nowhere::new());
    (items.summary(), found)
}

/// Copies as many numbers as both have, and answers how many there are.
pub(crate) fn copy_numbers(numbers: &[u64], room: &mut [u64]) -> usize
    ensures { CopiesOut numbers.now room.old room.new result }
{
    let most = numbers.len().min(room.len());
    room[..most].copy_from_slice(&numbers[..most]);
    numbers.len()
}
