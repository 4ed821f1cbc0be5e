//! Checking and showing a transmission.

ghost use Rattle.cwr_tools.specs.Format.Reports.{lines_of_findings, lines_of_records};
ghost use Rattle.cwr_tools.specs.Steps.Runs.{Runs};

use crate::finding_lines::FindingLines;
use crate::reporting::write_report;
use crate::shown_records::ShownRecords;
use crate::verdicts::{ToolFault, Verdict};
use cwr_devices::{Source, Target};
use cwr_shape::Limits;
use std::alloc::Global;

/// Checks a transmission: reads it up to its end or to where it is refused, writes a line for each finding in each
/// transaction that is handed out, and at the end the line of the verdict. The writer comes back.
///
/// It is good exactly where the reader's bytes begin with a spelling of a transmission within the limits. Then just that
/// front is consumed, and the verdict has the transmission's numbers. It answers `ToolFault::Reader` or
/// `ToolFault::Writer` where that device failed, and `ToolFault::Memory` where memory for a transaction or for its findings
/// was refused.
pub fn check<R: Source, W: Target + Drop>(
    alloc: Global,
    limits: Limits,
    reader: &mut R,
    writer: W,
) -> (W, Result<Verdict, ToolFault>)
    ensures runs { Runs lines_of_findings limits R.remaining R.failures reader.old reader.new
        W.contents W.failures W.handed_on writer result.0 result.1 }
{
    let mut lines = FindingLines::new();
    write_report(&mut lines, alloc, limits, reader, writer)
}

/// Shows a transmission: reads it up to its end or to where it is refused, and writes each record's number and kind,
/// its cells that aren't blank, each under its field's number and name, and at the end the line of the verdict. The
/// writer comes back.
///
/// The verdict and the faults are those of a check. Where the text is refused or ends too early, the records are those
/// of the items before: of a transaction that isn't followed by a record that may come next, none is shown. It holds one
/// transaction and the lines of one record, whatever the text.
pub fn show<R: Source, W: Target + Drop>(
    alloc: Global,
    limits: Limits,
    reader: &mut R,
    writer: W,
) -> (W, Result<Verdict, ToolFault>)
    ensures runs { Runs lines_of_records limits R.remaining R.failures reader.old reader.new
        W.contents W.failures W.handed_on writer result.0 result.1 }
{
    let mut lines = ShownRecords::new();
    write_report(&mut lines, alloc, limits, reader, writer)
}
