//! Some transactions of a transmission, written as one of their own.

ghost use Rattle.std.specs.Prelude.{◌≡◌, ◌<◌, [], IfErr, IfOk, OnOk, false, true};
ghost use Rattle.cwr_encode.specs.Steps.Encoders.{Encodes, is_stopped, encoder_limits, target_of};
ghost use Rattle.cwr_tools.specs.Format.Viewing.{SeesText};
ghost use Rattle.cwr_parts.specs.Steps.Joined.{reading_fault};
ghost use Rattle.cwr_parts.specs.Format.Splitting.{CountsSplitReader, CountsSplitWriter};
ghost use Rattle.cwr_select.specs.Format.Selecting.{Selects, SelectsAccepted};
ghost use Rattle.cwr_select.specs.Steps.Held.{none_held};
ghost use Rattle.cwr_select.specs.Steps.Selecting.{HasFewItems, LeavesSelected, SelectsItems};

use crate::changes::Changes;
use crate::choices::Chooses;
use crate::headers::created_item;
use crate::reports::SelectReport;
use crate::selecting::Selecting;
use crate::viewing::SelectViewer;
use cwr_decode::{ReadFault, Reading};
use cwr_devices::{Source, Target};
use cwr_shape::Limits;
use cwr_tools::{Blind, ToolFault};
use std::alloc::Global;

/// What the fault of a reading is reported as.
fn reading_fault(fault: ReadFault) -> ToolFault
    ensures { result ≡ reading_fault fault }
{
    match fault {
        ReadFault::Refused(refusal) => ToolFault::Refused(refusal),
        ReadFault::Truncated { records } => ToolFault::Truncated { records },
        ReadFault::Reader => ToolFault::Reader,
        ReadFault::Memory => ToolFault::Memory,
    }
}

/// Reads a transmission item by item, up to its end or a fault, and writes what is chosen but TRL.
fn select_items<R: Source, W: Target, C: Chooses, V: SelectViewer>(
    alloc: Global,
    limits: Limits,
    reader: &mut R,
    changes: Changes,
    choice: &C,
    viewer: &mut V,
    selecting: &mut Selecting<W>,
) -> Result<(), ToolFault>
    requires unfailed { is_stopped selecting.old.encoder ≡ false }
    requires limits { encoder_limits selecting.old.encoder ≡ limits }
    requires encodes { Encodes W.contents (W.contents (target_of selecting.old.encoder)) []
        selecting.old.encoder }
    requires held { selecting.old.held ≡ none_held }
    ensures selects { SelectsItems limits changes (C.choice choice.now) W.contents W.failures
        (R.remaining reader.old) (R.remaining reader.new) result selecting.old selecting.new }
    ensures seen { OnOk result
        ((first : V) → SeesText limits (V.has_seen first) (R.remaining reader.old) viewer.old viewer.new) }
    ensures few { OnOk result (HasFewItems limits (R.remaining reader.old)) }
    ensures failures { CountsSplitReader result (R.failures reader.old) (R.failures reader.new) }
{
    let mut reading = Reading::new(alloc, limits, reader);
    let mut handed_out: u64 = 0;
    let mut spent = None;
    'items: loop {
        match reading.next_item_after(spent) {
            Ok(Some(item)) => {
                viewer.see(&item);
                spent = selecting.take(
                    alloc,
                    changes.works,
                    choice,
                    created_item(changes.created, item),
                )?;
                handed_out += 1;
            }
            Ok(None) => return Ok(()),
            Err(fault) => return Err(reading_fault(fault)),
        }
    }
}

/// Writes the transactions of a transmission that are chosen, as a transmission: its HDR, and each group of which one is chosen, with
/// its GRH, these transactions in their order, and its GRT, without currency and total where others are left out. With a moment among the
/// changes that is HDR's creation date and time, and a transmission date before that day is that day. With a kind of works their headers
/// have it, and the GRH of groups of works its type. The writer comes back.
///
/// It writes the canonical text of that exactly where the input is accepted; then just the input is consumed, and the report says how
/// many were chosen. Where none is, nothing is written. Else it stops at the first fault: `ToolFault::Refused` or
/// `ToolFault::Truncated` where the input isn't accepted, `ToolFault::Reader`, `ToolFault::Writer` and `ToolFault::Memory` where a
/// device failed or memory for a transaction was refused. It never answers `ToolFault::Limit`.
///
/// HDR and GRH are written with the first transaction that is chosen of the transmission and of the group. It holds these, one
/// transaction, where that is sent with another kind a second time, and one line, whatever the input.
pub fn select<R: Source, W: Target + Drop, C: Chooses>(
    alloc: Global,
    limits: Limits,
    reader: &mut R,
    changes: Changes,
    choice: &C,
    writer: W,
) -> (W, Result<SelectReport, ToolFault>)
    ensures selects { Selects limits changes (C.choice choice.now) (R.remaining reader.old)
        (R.remaining reader.new) (W.contents writer) (W.contents result.0) result.1 }
    ensures accepted { SelectsAccepted limits changes (C.choice choice.now) (R.remaining reader.old)
        (R.remaining reader.new) (W.contents writer) (W.contents result.0) result.1 }
    // Else what is selected of the items before that is written, and no TRL; or the first bytes, so many as a fault of the writer tells.
    ensures leaves { IfErr result.1 (LeavesSelected limits changes (C.choice choice.now)
        (R.remaining reader.old) (R.remaining reader.new) W.contents writer result.0) }
    // No failure is passed over: a reader or the writer failed only where that is the answer.
    ensures reader_failures { CountsSplitReader result.1 (R.failures reader.old)
        (R.failures reader.new) }
    ensures writer_failures { CountsSplitWriter result.1 (W.failures writer) (W.failures result.0) }
    // All that was written was handed on.
    ensures handed_on { IfOk result.1
        (λ report. 0 < report.selected → W.handed_on result.0 ≡ true) }
{
    select_viewed(alloc, limits, reader, changes, choice, &mut Blind, writer)
}

/// Selects as `select` does. The viewer sees the items of the input while they are read.
pub fn select_viewed<R: Source, W: Target + Drop, C: Chooses, V: SelectViewer>(
    alloc: Global,
    limits: Limits,
    reader: &mut R,
    changes: Changes,
    choice: &C,
    viewer: &mut V,
    writer: W,
) -> (W, Result<SelectReport, ToolFault>)
    ensures selects { Selects limits changes (C.choice choice.now) (R.remaining reader.old)
        (R.remaining reader.new) (W.contents writer) (W.contents result.0) result.1 }
    ensures accepted { SelectsAccepted limits changes (C.choice choice.now) (R.remaining reader.old)
        (R.remaining reader.new) (W.contents writer) (W.contents result.0) result.1 }
    ensures leaves { IfErr result.1 (LeavesSelected limits changes (C.choice choice.now)
        (R.remaining reader.old) (R.remaining reader.new) W.contents writer result.0) }
    ensures reader_failures { CountsSplitReader result.1 (R.failures reader.old)
        (R.failures reader.new) }
    ensures writer_failures { CountsSplitWriter result.1 (W.failures writer) (W.failures result.0) }
    ensures handed_on { IfOk result.1
        (λ report. 0 < report.selected → W.handed_on result.0 ≡ true) }
    // Where the text is accepted, it saw the items of its transmission.
    ensures seen { OnOk result.1
        ((first : V) → SeesText limits (V.has_seen first) (R.remaining reader.old) viewer.old viewer.new) }
    // These are few.
    ensures few { OnOk result.1 (HasFewItems limits (R.remaining reader.old)) }
{
    let mut selecting = Selecting::new(writer, limits);
    match select_items(
        alloc,
        limits,
        reader,
        changes,
        choice,
        viewer,
        &mut selecting,
    ) {
        Ok(()) => selecting.finish(),
        Err(fault) => (selecting.abandon(), Err(fault)),
    }
}
