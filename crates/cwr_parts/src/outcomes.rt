//! The lines that say how a split or a join ended.

ghost use Rattle.std.specs.Prelude.{◌≡◌};
ghost use Rattle.cwr_devices.specs.Steps.Pens.{Adds};
ghost use Rattle.cwr_devices.specs.Steps.Sinks.{PutsText};
ghost use Rattle.cwr_parts.specs.Format.Outcomes.{input_line, is_of_input, join_outcome, split_outcome};

use cwr_devices::{Pen, Sink, SinkFault, Target};
use cwr_findings::{input_mark, joined_line, limit_line, refusal_line, split_line, truncated_line};
use cwr_tools::{JoinFault, JoinReport, SplitReport, ToolFault};

/// Adds the line on an input that is refused, that ended too early, or with which the result would pass a limit. Where a
/// device or memory failed there is none.
pub fn input_line<W: Target>(fault: &ToolFault, pen: &mut Pen<'_, W>)
    ensures { Adds W.contents W.failures (input_line fault.now) pen.old pen.new }
{
    match fault {
        ToolFault::Refused(refusal) => refusal_line(refusal, pen),
        ToolFault::Truncated { records } => truncated_line(*records, pen),
        ToolFault::Limit(limit) => limit_line(*limit, pen),
        ToolFault::Reader | ToolFault::Writer { .. } | ToolFault::Memory | ToolFault::Output => {}
    }
}

/// Adds the line that says how a split ended.
fn split_outcome<W: Target>(outcome: &Result<SplitReport, ToolFault>, pen: &mut Pen<'_, W>)
    ensures { Adds W.contents W.failures (split_outcome outcome.now) pen.old pen.new }
{
    match outcome {
        Ok(report) => split_line(report.outputs, report.transactions, pen),
        Err(fault) => input_line(fault, pen),
    }
}

/// Puts the line that says how a split ended: `SPLIT` with its numbers, or what became of its input. Where a device or memory
/// failed it puts nothing.
pub fn put_split_outcome<W: Target>(
    outcome: &Result<SplitReport, ToolFault>,
    sink: &mut Sink<W>,
) -> Result<(), SinkFault>
    ensures { PutsText W.contents W.failures (split_outcome outcome.now) result sink.old sink.new }
{
    let mut pen = Pen::new(sink);
    split_outcome(outcome, &mut pen);
    pen.end()
}

/// Whether the fault is that of an input, which has a line.
fn is_of_input(fault: &ToolFault) -> bool
    ensures { result ≡ is_of_input fault.now }
{
    matches!(
        fault,
        ToolFault::Refused(_) | ToolFault::Truncated { .. } | ToolFault::Limit(_)
    )
}

/// Adds the line that says how a join ended.
fn join_outcome<W: Target>(outcome: &Result<JoinReport, JoinFault>, pen: &mut Pen<'_, W>)
    ensures { Adds W.contents W.failures (join_outcome outcome.now) pen.old pen.new }
{
    match outcome {
        Ok(report) => joined_line(
            report.inputs,
            report.groups,
            report.transactions,
            report.records,
            pen,
        ),
        Err(stopped) => {
            if is_of_input(&stopped.fault) {
                input_mark(stopped.input, pen);
                input_line(&stopped.fault, pen);
            }
        }
    }
}

/// Puts the line that says how a join ended: `JOINED` with its numbers, or what became of the input that it names. Where a
/// device or memory failed it puts nothing.
pub fn put_join_outcome<W: Target>(
    outcome: &Result<JoinReport, JoinFault>,
    sink: &mut Sink<W>,
) -> Result<(), SinkFault>
    ensures { PutsText W.contents W.failures (join_outcome outcome.now) result sink.old sink.new }
{
    let mut pen = Pen::new(sink);
    join_outcome(outcome, &mut pen);
    pen.end()
}
