//! Joining transmissions.

ghost use Rattle.std.specs.Prelude.{◌≡◌, ◌<◌, [], ◌∷◌, true, false, length, OnOk};
ghost use Rattle.cwr_encode.specs.Steps.Encoders.{is_stopped, encoder_limits};
ghost use Rattle.cwr_parts.specs.Format.Joins.{CountsJoinWriter, JoinsAccepted, SeesInputs};
ghost use Rattle.cwr_parts.specs.Format.Told.{JoinsTexts};
ghost use Rattle.cwr_parts.specs.Steps.Joined.{AddsInput, AddsInputs, CountsAddFault, HasJoined, IsBetweenInputs, SeesInput, reading_fault, joined_writer};

use crate::joined::Joined;
use cwr_decode::{ReadFault, Reading};
use cwr_devices::{Source, Target};
use cwr_shape::Limits;
use cwr_tools::{Blind, JoinFault, JoinReport, ToolFault, Viewer};
use std::alloc::Global;

/// What the fault of a reading is reported as.
pub(crate) fn reading_fault(fault: ReadFault) -> ToolFault
    ensures { result ≡ reading_fault fault }
{
    match fault {
        ReadFault::Refused(refusal) => ToolFault::Refused(refusal),
        ReadFault::Truncated { records } => ToolFault::Truncated { records },
        ReadFault::Reader => ToolFault::Reader,
        ReadFault::Memory => ToolFault::Memory,
    }
}

/// Joins an input, which is the first one or not: reads it item by item, up to its end or a fault.
fn add_input<R: Source, W: Target, V: Viewer>(
    alloc: Global,
    limits: Limits,
    first: bool,
    reader: &mut R,
    viewer: &mut V,
    joined: &mut Joined<W>,
) -> Result<(), ToolFault>
    requires unfailed { is_stopped joined.old.encoder ≡ false }
    requires limits { encoder_limits joined.old.encoder ≡ limits }
    requires between { IsBetweenInputs W.contents first joined.old }
    ensures adds { AddsInput limits W.contents W.failures first (R.remaining reader.old)
        (R.remaining reader.new) result joined.old joined.new }
    ensures seen { OnOk result (SeesInput limits V.has_seen (R.remaining reader.old)
        (R.remaining reader.new) viewer.old viewer.new) }
    ensures failures { CountsAddFault result (R.failures reader.old) (R.failures reader.new) }
{
    let mut reading = Reading::new(alloc, limits, reader);
    let mut handed_out: u64 = 0;
    let mut spent = None;
    'items: loop {
        match reading.next_item_after(spent) {
            Ok(Some(item)) => {
                viewer.see(&item);
                joined.add(first, &item)?;
                handed_out += 1;
                spent = Some(item);
            }
            Ok(None) => return Ok(()),
            Err(fault) => return Err(reading_fault(fault)),
        }
    }
}

/// Joins all inputs, in order, up to a fault.
fn add_inputs<R: Source, W: Target, V: Viewer>(
    alloc: Global,
    limits: Limits,
    readers: &mut [R],
    viewer: &mut V,
    joined: &mut Joined<W>,
) -> Result<(), JoinFault>
    requires unfailed { is_stopped joined.old.encoder ≡ false }
    requires limits { encoder_limits joined.old.encoder ≡ limits }
    requires empty { HasJoined W.contents (W.contents (joined_writer joined.old)) [] joined.old }
    ensures joins { AddsInputs limits R.remaining R.failures W.contents readers.old readers.new
        result joined.old joined.new }
    ensures writer_failures { CountsJoinWriter result (W.failures (joined_writer joined.old))
        (W.failures (joined_writer joined.new)) }
    ensures seen { OnOk result
        (SeesInputs limits R.remaining V.has_seen readers.old viewer.old viewer.new) }
{
    let mut i = 0;
    'inputs: while i < readers.len() {
        match add_input(alloc, limits, i == 0, &mut readers[i], viewer, joined) {
            Ok(()) => i += 1,
            Err(fault) => {
                return Err(JoinFault {
                    input: i + 1,
                    fault,
                });
            }
        }
    }
    Ok(())
}

/// Joins the one input, up to a fault.
fn add_alone<R: Source, W: Target, V: Viewer>(
    alloc: Global,
    limits: Limits,
    reader: &mut R,
    viewer: &mut V,
    joined: &mut Joined<W>,
) -> Result<(), JoinFault>
    requires unfailed { is_stopped joined.old.encoder ≡ false }
    requires limits { encoder_limits joined.old.encoder ≡ limits }
    requires empty { HasJoined W.contents (W.contents (joined_writer joined.old)) [] joined.old }
    ensures joins { AddsInputs limits R.remaining R.failures W.contents (reader.old ∷ []) (reader.new ∷ [])
        result joined.old joined.new }
    ensures writer_failures { CountsJoinWriter result (W.failures (joined_writer joined.old))
        (W.failures (joined_writer joined.new)) }
    ensures seen { OnOk result
        (SeesInputs limits R.remaining V.has_seen (reader.old ∷ []) viewer.old viewer.new) }
{
    match add_input(alloc, limits, true, reader, viewer, joined) {
        Ok(()) => Ok(()),
        Err(fault) => Err(JoinFault { input: 1, fault }),
    }
}

/// Joins transmissions to one, and writes that: the first input's HDR, and the groups of all inputs in order, each with
/// the cells of its own GRH and GRT, and with new numbers. There is at least one input. The writer comes back.
///
/// It writes the canonical text of that transmission exactly where each input is accepted and the transmission is within
/// the limits; then just those inputs are consumed, and the report has its numbers. Else it stops at the first fault, with
/// the number of the input in hand: `ToolFault::Refused` or `ToolFault::Truncated` where the input isn't accepted,
/// `ToolFault::Limit` at an item after which no transmission within the limits continues, `ToolFault::Reader`,
/// `ToolFault::Writer` and `ToolFault::Memory` where a device failed or memory for a transaction was refused. What is
/// written before is the first part of a canonical text, and inputs after the one in hand aren't read.
///
/// It holds one transaction and one line, whatever the inputs.
pub fn join<R: Source, W: Target + Drop>(
    alloc: Global,
    limits: Limits,
    readers: &mut [R],
    writer: W,
) -> (W, Result<JoinReport, JoinFault>)
    requires { 0 < length readers.old }
    // What is written of the readers' texts, and what is answered.
    ensures told { JoinsTexts limits R.remaining R.failures W.contents readers.old readers.new writer
        result.0 result.1 }
    // No failure is passed over: the writer failed only where that is the answer.
    ensures writer_failures { CountsJoinWriter result.1 (W.failures writer) (W.failures result.0) }
    // All that was written was handed on.
    ensures handed_on { OnOk result.1 (W.handed_on result.0 ≡ true) }
    ensures accepted { JoinsAccepted limits R.remaining W.contents readers.old writer result.0
        result.1 }
{
    join_viewed(alloc, limits, readers, &mut Blind, writer)
}

/// Joins transmissions as `join` does. The viewer sees the items of the inputs while they are read.
pub fn join_viewed<R: Source, W: Target + Drop, V: Viewer>(
    alloc: Global,
    limits: Limits,
    readers: &mut [R],
    viewer: &mut V,
    writer: W,
) -> (W, Result<JoinReport, JoinFault>)
    requires { 0 < length readers.old }
    ensures told { JoinsTexts limits R.remaining R.failures W.contents readers.old readers.new writer
        result.0 result.1 }
    ensures writer_failures { CountsJoinWriter result.1 (W.failures writer) (W.failures result.0) }
    ensures handed_on { OnOk result.1 (W.handed_on result.0 ≡ true) }
    ensures accepted { JoinsAccepted limits R.remaining W.contents readers.old writer result.0
        result.1 }
    // Where the inputs are accepted, it saw the items of all.
    ensures seen { OnOk result.1
        (SeesInputs limits R.remaining V.has_seen readers.old viewer.old viewer.new) }
{
    let mut joined = Joined::new(writer, limits);
    match add_inputs(alloc, limits, readers, viewer, &mut joined) {
        Ok(()) => joined.finish(readers.len()),
        Err(stopped) => (joined.abandon(), Err(stopped)),
    }
}

/// Writes the transmission of one input as `join_viewed` does where there is no other.
pub fn join_alone<R: Source, W: Target + Drop, V: Viewer>(
    alloc: Global,
    limits: Limits,
    reader: &mut R,
    viewer: &mut V,
    writer: W,
) -> (W, Result<JoinReport, JoinFault>)
    ensures told { JoinsTexts limits R.remaining R.failures W.contents (reader.old ∷ []) (reader.new ∷ []) writer
        result.0 result.1 }
    ensures writer_failures { CountsJoinWriter result.1 (W.failures writer) (W.failures result.0) }
    ensures handed_on { OnOk result.1 (W.handed_on result.0 ≡ true) }
    ensures accepted { JoinsAccepted limits R.remaining W.contents (reader.old ∷ []) writer result.0
        result.1 }
    // Where the input is accepted, it saw its items.
    ensures seen { OnOk result.1
        (SeesInputs limits R.remaining V.has_seen (reader.old ∷ []) viewer.old viewer.new) }
{
    let mut joined = Joined::new(writer, limits);
    match add_alone(alloc, limits, reader, viewer, &mut joined) {
        Ok(()) => joined.finish(1),
        Err(fault) => (joined.abandon(), Err(fault)),
    }
}
