//! Splitting a transmission.

ghost use Rattle.std.specs.Prelude.{◌≡◌, ◌≢◌, ℕ, ◌+◌, ◌<◌, List, Option, Some, None, IfSome, OnOk};
ghost use Rattle.cwr_values.specs.declared.items.Item.{Item};
ghost use Rattle.cwr_devices.specs.Format.Outputs.{given_up_with};
ghost use Rattle.cwr_parts.specs.Steps.SplitOutputs.{open_failures, told_by};
ghost use Rattle.cwr_parts.specs.Steps.SplitItems.{MayTake, SplitsItems, TakesItem};
ghost use Rattle.cwr_parts.specs.Format.Splitting.{CountsSplitOutput, CountsSplitReader, CountsSplitWriter, TellsWritten};
ghost use Rattle.cwr_parts.specs.Format.Told.{SplitsText};
ghost use Rattle.cwr_tools.specs.Format.Viewing.{SeesText};
ghost use Rattle.cwr_parts.specs.Steps.SplitSteps.{AddsTransaction, EndsGroup, FinishesOutput, GivesUp, MayAddTransaction, MayEndGroup, MayFinish, KeepsLent};
ghost use Rattle.cwr_parts.specs.Steps.SplitSteps.{MayWrite, OpensOutput, Writes, has_all, is_new, open_outputs};
ghost use Rattle.cwr_parts.specs.Steps.SplitWriters.{CountsOpen, CountsWritten, had_after};

use crate::joining::reading_fault;
use crate::split_output::{SplitOutput, hand_over};
use cwr_decode::Reading;
use cwr_devices::{Outputs, Source, Target};
use cwr_shape::Limits;
use cwr_tools::{Blind, SplitReport, ToolFault, Viewer};
use cwr_values::Item;
use std::alloc::Global;

/// What a split holds between two items.
#[derive(Drop)]
struct Splitting<W: Target> {
    limits: Limits,
    /// How many transactions an output has.
    size: u32,
    /// HDR, once it was handed out.
    opening: Option<Item>,
    /// The last GRH that was handed out.
    head: Option<Item>,
    /// The output to which the next transaction goes.
    output: Option<SplitOutput<W>>,
    /// The outputs that were handed over, and the transactions that were written.
    report: SplitReport,
}

impl<W: Target> Splitting<W> {
    /// Nothing was handed out.
    fn new(limits: Limits, size: u32) -> Splitting<W>
        ensures { result ≡ is_new limits size }
    {
        Splitting {
            limits,
            size,
            opening: None,
            head: None,
            output: None,
            report: SplitReport {
                outputs: 0,
                transactions: 0,
            },
        }
    }

    /// Writes a transaction to the open output.
    fn put(&mut self, transaction: &Item) -> Result<(), ToolFault>
        requires not_ended { transaction.now ≢ Item.Ended }
        requires room { self.old.report.transactions < 199999999 }
        requires may { MayWrite W.contents transaction.now self.old }
        ensures writes { Writes W.contents W.failures transaction.now result self.old self.new }
        ensures output { open_outputs self.new.output ≡ open_outputs self.old.output }
        ensures written { (had : Option (List ℕ))
            → CountsOpen W.contents result self.old.output self.new.output had }
    {
        let Some(opening) = &self.opening else {
            unreachable!();
        };
        let Some(head) = &self.head else {
            unreachable!();
        };
        let Some(output) = &mut self.output else {
            unreachable!();
        };
        output.add(opening, head, transaction)?;
        self.report.transactions += 1;
        Ok(())
    }

    /// Whether the open output has all its transactions.
    fn is_full(&self) -> bool
        ensures { result ≡ has_all self.now.size self.now.output }
    {
        match &self.output {
            Some(output) => output.transactions() == self.size,
            None => false,
        }
    }

    /// Ends the group of the open output, if one is open there.
    fn end_group(&mut self) -> Result<(), ToolFault>
        requires { MayEndGroup W.contents self.old.output }
        ensures ends { EndsGroup W.contents W.failures result self.old self.new }
        ensures output { open_outputs self.new.output ≡ open_outputs self.old.output }
        ensures written { (had : Option (List ℕ))
            → CountsOpen W.contents result self.old.output self.new.output had }
    {
        match &mut self.output {
            Some(output) => output.end_group(),
            None => Ok(()),
        }
    }
}

/// Opens an output, unless one is open.
fn open_output<O: Outputs>(
    splitting: &mut Splitting<O::W>,
    outputs: &mut O,
) -> Result<(), ToolFault>
    ensures opens { OpensOutput (told_by O.texts O.failures O.given_up O.W.contents O.W.failures)
        result splitting.old splitting.new outputs.old outputs.new }
    ensures lent { KeepsLent (O.lent outputs.old) splitting.old.output (O.lent outputs.new)
        splitting.new.output }
    ensures written { CountsWritten O.W.contents (O.texts outputs.old) result splitting.old.output
        splitting.new.output (O.had outputs.new) }
{
    if splitting.output.is_some() {
        return Ok(());
    }
    match outputs.next() {
        Ok(writer) => {
            splitting.output = Some(SplitOutput::new(writer, splitting.limits));
            Ok(())
        }
        Err(_) => Err(ToolFault::Output),
    }
}

/// Finishes the open output, if there is one.
fn finish_output<O: Outputs>(
    splitting: &mut Splitting<O::W>,
    outputs: &mut O,
) -> Result<(), ToolFault>
    requires room { splitting.old.report.outputs < 199999999 }
    requires may { MayFinish (told_by O.texts O.failures O.given_up O.W.contents O.W.failures)
        splitting.old outputs.old }
    ensures finishes { FinishesOutput
        (told_by O.texts O.failures O.given_up O.W.contents O.W.failures) result splitting.old
        splitting.new outputs.old outputs.new }
    ensures lent { KeepsLent (O.lent outputs.old) splitting.old.output (O.lent outputs.new)
        splitting.new.output }
    ensures written { CountsWritten O.W.contents (O.texts outputs.old) result splitting.old.output
        splitting.new.output (O.had outputs.new) }
{
    splitting.end_group()?;
    match splitting.output.take() {
        Some(output) => {
            hand_over(output, outputs)?;
            splitting.report.outputs += 1;
            Ok(())
        }
        None => Ok(()),
    }
}

/// Writes a transaction, and finishes the output that has all its transactions with it.
fn add_transaction<O: Outputs>(
    splitting: &mut Splitting<O::W>,
    transaction: &Item,
    outputs: &mut O,
) -> Result<(), ToolFault>
    requires not_ended { transaction.now ≢ Item.Ended }
    requires may { MayAddTransaction
        (told_by O.texts O.failures O.given_up O.W.contents O.W.failures) transaction.now
        splitting.old outputs.old }
    ensures adds { AddsTransaction (told_by O.texts O.failures O.given_up O.W.contents O.W.failures)
        transaction.now result splitting.old splitting.new outputs.old outputs.new }
    ensures lent { KeepsLent (O.lent outputs.old) splitting.old.output (O.lent outputs.new)
        splitting.new.output }
    ensures written { CountsWritten O.W.contents (O.texts outputs.old) result splitting.old.output
        splitting.new.output (O.had outputs.new) }
{
    open_output(splitting, outputs)?;
    splitting.put(transaction)?;
    if splitting.is_full() {
        return finish_output(splitting, outputs);
    }
    Ok(())
}

/// Takes an item of the input.
fn take_item<O: Outputs>(
    splitting: &mut Splitting<O::W>,
    item: Item,
    outputs: &mut O,
) -> Result<(), ToolFault>
    requires { MayTake (told_by O.texts O.failures O.given_up O.W.contents O.W.failures) item
        splitting.old outputs.old }
    ensures takes { TakesItem (told_by O.texts O.failures O.given_up O.W.contents O.W.failures) item
        result splitting.old splitting.new outputs.old outputs.new }
    ensures lent { KeepsLent (O.lent outputs.old) splitting.old.output (O.lent outputs.new)
        splitting.new.output }
    ensures written { CountsWritten O.W.contents (O.texts outputs.old) result splitting.old.output
        splitting.new.output (O.had outputs.new) }
{
    match &item {
        Item::Opened(_) => {
            splitting.opening = Some(item);
            Ok(())
        }
        Item::GroupOpened(_) => {
            splitting.head = Some(item);
            Ok(())
        }
        Item::Transaction(_) => add_transaction(splitting, &item, outputs),
        Item::GroupClosed(_) => splitting.end_group(),
        Item::Ended => finish_output(splitting, outputs),
    }
}

/// Gives the writer of an open output up, if there is one.
fn give_up<O: Outputs>(output: Option<SplitOutput<O::W>>, outputs: &mut O)
    ensures gives_up { GivesUp (told_by O.texts O.failures O.given_up O.W.contents O.W.failures) output
        outputs.old outputs.new }
    ensures lent { (others : ℕ) → O.lent outputs.old ≡ others + open_outputs output
        → O.lent outputs.new ≡ others }
    ensures written { IfSome (O.texts outputs.old)
        (λ _. O.had outputs.new ≡ had_after O.W.contents output (O.had outputs.old)) }
{
    if let Some(output) = output {
        outputs.give_up(output.abandon());
    }
}

/// Splits what the reader has, item by item, up to its end or a fault.
fn split_items<R: Source, O: Outputs, V: Viewer>(
    alloc: Global,
    limits: Limits,
    reader: &mut R,
    viewer: &mut V,
    splitting: &mut Splitting<O::W>,
    outputs: &mut O,
) -> Result<(), ToolFault>
    requires some { 0 < splitting.old.size }
    requires fresh { splitting.old ≡ is_new limits splitting.old.size }
    ensures splits { SplitsItems limits splitting.old.size (R.remaining reader.old)
        (R.remaining reader.new) (O.texts outputs.old) (O.texts outputs.new) splitting.new.report
        result }
    ensures seen { OnOk result
        (SeesText limits V.has_seen (R.remaining reader.old) viewer.old viewer.new) }
    ensures ended { OnOk result (splitting.new.output ≡ None) }
    ensures lent { KeepsLent (O.lent outputs.old) splitting.old.output (O.lent outputs.new)
        splitting.new.output }
    ensures written { CountsWritten O.W.contents (O.texts outputs.old) result splitting.old.output
        splitting.new.output (O.had outputs.new) }
    ensures reader_failures { CountsSplitReader result (R.failures reader.old)
        (R.failures reader.new) }
    ensures failures { CountsSplitOutput result (O.failures outputs.old) (O.failures outputs.new) }
    ensures given_up { CountsSplitWriter result (O.given_up outputs.old)
        (given_up_with (open_failures O.W.failures splitting.new.output) (O.given_up outputs.new)) }
{
    let mut reading = Reading::new(alloc, limits, reader);
    let mut handed_out: u64 = 0;
    'items: loop {
        match reading.next_item() {
            Ok(Some(item)) => {
                viewer.see(&item);
                take_item(splitting, item, outputs)?;
                handed_out += 1;
            }
            Ok(None) => return Ok(()),
            Err(fault) => return Err(reading_fault(fault)),
        }
    }
}

/// Splits a transmission into outputs of `n` transactions each, the last perhaps of fewer. `n` is at least 1.
///
/// Each output is the canonical text of a transmission: the HDR of the input, for each group of the input of which it has
/// transactions a group with that one's GRH, and GRT records without currency and total. An output is opened when its
/// first transaction was read, and done as soon as its last one is written.
///
/// Where the input is accepted all its outputs are done, and the report has their number and that of the transactions. Else
/// it stops at the first fault: `ToolFault::Refused` or `ToolFault::Truncated` where the input isn't accepted,
/// `ToolFault::Reader` and `ToolFault::Memory` where the reader failed or memory for a transaction was refused,
/// `ToolFault::Output` where an output couldn't be made or finished, and `ToolFault::Writer` where the writer of one
/// failed, with how many bytes that one has. The outputs that are done are then the first ones, each whole, and the writer
/// of an open one is given up. It never answers `ToolFault::Limit`.
///
/// It holds one transaction and one line, whatever the input.
pub fn split<R: Source, O: Outputs>(
    alloc: Global,
    limits: Limits,
    reader: &mut R,
    n: u32,
    outputs: &mut O,
) -> Result<SplitReport, ToolFault>
    requires { 0 < n }
    // What is handed over of the reader's text, and what is answered.
    ensures told { SplitsText limits n (R.remaining reader.old) (R.remaining reader.new)
        (O.texts outputs.old) (O.texts outputs.new) result }
    // No failure is passed over: a reader, an output or a writer failed only where that is the answer.
    ensures reader_failures { CountsSplitReader result (R.failures reader.old)
        (R.failures reader.new) }
    ensures failures { CountsSplitOutput result (O.failures outputs.old) (O.failures outputs.new) }
    ensures given_up { CountsSplitWriter result (O.given_up outputs.old) (O.given_up outputs.new) }
    // No writer is lost: each that was given came back, done or given up.
    ensures lent { O.lent outputs.new ≡ O.lent outputs.old }
    // A writer's fault tells how many bytes that writer had.
    ensures written { IfSome (O.texts outputs.old) (λ _. TellsWritten result (O.had outputs.new)) }
{
    split_viewed(alloc, limits, reader, n, &mut Blind, outputs)
}

/// Splits a transmission as `split` does. The viewer sees its items while it is read.
pub fn split_viewed<R: Source, O: Outputs, V: Viewer>(
    alloc: Global,
    limits: Limits,
    reader: &mut R,
    n: u32,
    viewer: &mut V,
    outputs: &mut O,
) -> Result<SplitReport, ToolFault>
    requires { 0 < n }
    ensures told { SplitsText limits n (R.remaining reader.old) (R.remaining reader.new)
        (O.texts outputs.old) (O.texts outputs.new) result }
    ensures reader_failures { CountsSplitReader result (R.failures reader.old)
        (R.failures reader.new) }
    ensures failures { CountsSplitOutput result (O.failures outputs.old) (O.failures outputs.new) }
    ensures given_up { CountsSplitWriter result (O.given_up outputs.old) (O.given_up outputs.new) }
    ensures lent { O.lent outputs.new ≡ O.lent outputs.old }
    ensures written { IfSome (O.texts outputs.old) (λ _. TellsWritten result (O.had outputs.new)) }
    // Where the text is accepted, it saw the items of its transmission.
    ensures seen { OnOk result
        (SeesText limits V.has_seen (R.remaining reader.old) viewer.old viewer.new) }
{
    let mut splitting = Splitting::new(limits, n);
    match split_items(alloc, limits, reader, viewer, &mut splitting, outputs) {
        Ok(()) => Ok(splitting.report),
        Err(fault) => {
            give_up(splitting.output, outputs);
            Err(fault)
        }
    }
}
