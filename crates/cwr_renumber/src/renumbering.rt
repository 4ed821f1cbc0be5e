//! A transmission with its numbers put right.

ghost use Rattle.std.specs.Prelude.{◌≡◌, true, IfErr, OnOk, option_map};
ghost use Rattle.cwr_renumber.specs.Steps.Renumbered.{renumbered_text};
ghost use Rattle.cwr_tools.specs.Format.Viewing.{SeesText};
ghost use Rattle.cwr_renumber.specs.Steps.Renumberings.{CountsReader, CountsWriter, LeavesRenumbered, Renumbers, RenumbersAccepted, of_one};

use crate::jumps::Jumps;
use crate::sources::Renumbered;
use cwr_devices::{Source, Target};
use cwr_parts::join_alone;
use cwr_shape::Limits;
use cwr_tools::{Blind, JoinFault, JoinReport, ToolFault, Viewer};
use std::alloc::Global;

/// What a join of one input answered, without that one's number.
fn of_one(joined: Result<JoinReport, JoinFault>) -> Result<JoinReport, ToolFault>
    ensures { result ≡ of_one joined }
{
    match joined {
        Ok(report) => Ok(report),
        Err(stopped) => Err(stopped.fault),
    }
}

/// Writes the transmission that a reader has, with each of its numbers put right: transaction and record sequences, group
/// IDs and counts, whatever stands in their cells. The reader and the writer come back.
///
/// It writes the canonical text of the transmission exactly where the text with these numbers is accepted within the limits; the
/// report has its numbers. Else it answers `ToolFault::Refused` or `ToolFault::Truncated`, as that text is refused or
/// truncated, and `ToolFault::Reader`, `ToolFault::Writer` and `ToolFault::Memory` where a device failed or memory for a
/// transaction was refused.
///
/// It holds one transaction and two lines, whatever the input.
pub fn renumber<R: Source, W: Target + Drop>(
    alloc: Global,
    limits: Limits,
    reader: R,
    writer: W,
) -> (R, W, Result<JoinReport, ToolFault>)
    ensures renumbers { Renumbers limits (R.remaining reader) W.contents writer result.1 result.2 }
    ensures accepted { RenumbersAccepted limits (R.remaining reader) W.contents writer result.1
        result.2 }
    // Else the items before that are written, and no TRL; or their first bytes, so many as a fault of the writer tells.
    ensures leaves { IfErr result.2 (LeavesRenumbered limits (R.remaining reader) W.contents writer
        result.1) }
    // No failure is passed over: a device failed only where that is the answer.
    ensures reader_failures { CountsReader result.2 (R.failures reader) (R.failures result.0) }
    ensures writer_failures { CountsWriter result.2 (W.failures writer) (W.failures result.1) }
    // All that was written was handed on.
    ensures handed_on { OnOk result.2 (W.handed_on result.1 ≡ true) }
{
    let (reader, writer, outcome, _) = renumber_viewed(alloc, limits, reader, &mut Blind, writer);
    (reader, writer, outcome)
}

/// Puts numbers right as `renumber` does. The viewer sees the items of the transmission while it is read. Where the sequences of the lines
/// that were read don't go on is answered too.
pub fn renumber_viewed<R: Source, W: Target + Drop, V: Viewer>(
    alloc: Global,
    limits: Limits,
    reader: R,
    viewer: &mut V,
    writer: W,
) -> (R, W, Result<JoinReport, ToolFault>, Jumps)
    ensures renumbers { Renumbers limits (R.remaining reader) W.contents writer result.1 result.2 }
    ensures accepted { RenumbersAccepted limits (R.remaining reader) W.contents writer result.1
        result.2 }
    ensures leaves { IfErr result.2 (LeavesRenumbered limits (R.remaining reader) W.contents writer
        result.1) }
    ensures reader_failures { CountsReader result.2 (R.failures reader) (R.failures result.0) }
    ensures writer_failures { CountsWriter result.2 (W.failures writer) (W.failures result.1) }
    ensures handed_on { OnOk result.2 (W.handed_on result.1 ≡ true) }
    // Where the text with its numbers put right is accepted, it saw the items of its transmission.
    ensures seen { OnOk result.2 (SeesText limits V.has_seen
        (option_map renumbered_text (R.remaining reader)) viewer.old viewer.new) }
{
    let mut source = Renumbered::new(reader);
    let (writer, joined) = join_alone(alloc, limits, &mut source, viewer, writer);
    let (reader, jumps) = source.into_parts();
    (reader, writer, of_one(joined), jumps)
}
