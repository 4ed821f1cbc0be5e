//! The line that says how a renumbering ended.

ghost use Rattle.cwr_devices.specs.Steps.Pens.{Adds};
ghost use Rattle.cwr_devices.specs.Steps.Sinks.{PutsText};
ghost use Rattle.cwr_renumber.specs.Format.Outcomes.{renumber_outcome};

use cwr_devices::{Pen, Sink, SinkFault, Target};
use cwr_findings::good_line;
use cwr_parts::input_line;
use cwr_tools::{JoinReport, ToolFault};

/// Adds the line that says how a renumbering ended.
fn renumber_outcome<W: Target>(outcome: &Result<JoinReport, ToolFault>, pen: &mut Pen<'_, W>)
    ensures { Adds W.contents W.failures (renumber_outcome outcome.now) pen.old pen.new }
{
    match outcome {
        Ok(report) => good_line(report.groups, report.transactions, report.records, pen),
        Err(fault) => input_line(fault, pen),
    }
}

/// Puts the line that says how a renumbering ended: `GOOD` with the numbers of what was written, or what became of the input. Where a
/// device or memory failed it puts nothing.
pub fn put_renumber_outcome<W: Target>(
    outcome: &Result<JoinReport, ToolFault>,
    sink: &mut Sink<W>,
) -> Result<(), SinkFault>
    ensures { PutsText W.contents W.failures (renumber_outcome outcome.now) result sink.old sink.new }
{
    let mut pen = Pen::new(sink);
    renumber_outcome(outcome, &mut pen);
    pen.end()
}
