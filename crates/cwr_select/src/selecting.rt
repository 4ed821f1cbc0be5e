//! A selection while it is written.

ghost use Rattle.std.specs.Prelude.{◌≡◌, ◌≢◌, ◌<◌, ◌∷◌, ◌++◌, ℕ, List, [], Err, IfOk, OnOk, false, option_map, true};
ghost use Rattle.std.specs.Option.{option_to_list};
ghost use Rattle.cwr_lines.specs.Format.Records.{RecordValue};
ghost use Rattle.cwr_values.specs.declared.items.Item.{Item};
ghost use Rattle.cwr_judge.specs.Format.Items.{item_records};
ghost use Rattle.cwr_encode.specs.Format.Encoders.{IsNoMistake};
ghost use Rattle.cwr_encode.specs.Steps.Encoders.{AddsRecords, Encodes, is_stopped, encoder_limits, target_of};
ghost use Rattle.cwr_parts.specs.Steps.Joined.{JudgesNext, is_fault_of};
ghost use Rattle.cwr_parts.specs.Steps.SplitOutputs.{MayPut, blank_end};
ghost use Rattle.cwr_parts.specs.Format.Splitting.{CountsSplitWriter};
ghost use Rattle.cwr_select.specs.Steps.Held.{HasRoom, end_with, held_with, none_held, with_selected};
ghost use Rattle.cwr_select.specs.Steps.Selecting.{Finishes, IsControl, MayFinish, MayTake, TakesItem, WritesItems};
ghost use Rattle.cwr_select.specs.Steps.Sent.{sent_before, sent_item, sent_with};

use crate::changes::WorkKind;
use crate::choices::Chooses;
use crate::held::Held;
use crate::reports::SelectReport;
use crate::sent::{sent_control, sent_transaction};
use cwr_devices::Target;
use cwr_encode::{EncodeFault, Encoder};
use cwr_fields::Kind;
use cwr_lines::Draft;
use cwr_shape::Limits;
use cwr_tools::ToolFault;
use cwr_values::{Item, Transaction};
use std::alloc::Global;

/// What the fault of an encoder is reported as.
fn fault_of(fault: EncodeFault) -> ToolFault
    requires { IsNoMistake {A = ℕ} (Err fault) }
    ensures { is_fault_of fault result }
{
    match fault {
        EncodeFault::Limit(limit) => ToolFault::Limit(limit),
        EncodeFault::Writer { written } => ToolFault::Writer { written },
        EncodeFault::OutOfOrder | EncodeFault::WrongKind | EncodeFault::Incomplete => {
            unreachable!()
        }
    }
}

/// The end of a group, with a GRT record in which nothing was set.
fn blank_foot() -> Item
    ensures { result ≡ blank_end }
{
    match Draft::blank(Kind::Grt).done() {
        Ok(foot) => Item::GroupClosed(foot.view().to_control()),
        Err(_) => unreachable!(),
    }
}

/// Writes the record of an item that is none of a transaction. It is rare, and kept out of the way of transactions.
#[inline(never)]
fn encode_control<W: Target>(encoder: &mut Encoder<W>, item: &Item) -> Result<(), EncodeFault>
    requires unfailed { is_stopped encoder.old ≡ false }
    requires not_ended { item.now ≢ Item.Ended }
    requires outside { (records : List RecordValue) → item.now ≢ Item.Transaction records }
    ensures judged { JudgesNext W.contents item.now result encoder.old }
    ensures adds { AddsRecords W.contents W.failures (item_records item.now) result encoder.old
        encoder.new }
    ensures limits { encoder_limits encoder.new ≡ encoder_limits encoder.old }
{
    match item {
        Item::Opened(opening) => encoder.open(&opening.to_record()),
        Item::GroupOpened(head) => encoder.group(&head.to_record()),
        Item::GroupClosed(foot) => encoder.end_group(&foot.to_record()),
        Item::Transaction(_) | Item::Ended => unreachable!(),
    }
}

/// Writes the record or the transaction of an item.
fn encode<W: Target>(encoder: &mut Encoder<W>, item: &Item) -> Result<(), EncodeFault>
    requires unfailed { is_stopped encoder.old ≡ false }
    requires not_ended { item.now ≢ Item.Ended }
    ensures judged { JudgesNext W.contents item.now result encoder.old }
    ensures adds { AddsRecords W.contents W.failures (item_records item.now) result encoder.old
        encoder.new }
    ensures limits { encoder_limits encoder.new ≡ encoder_limits encoder.old }
{
    match item {
        Item::Transaction(transaction) => encoder.transaction(transaction),
        _ => encode_control(encoder, item),
    }
}

/// Writes an item.
fn put<W: Target>(encoder: &mut Encoder<W>, item: &Item) -> Result<(), ToolFault>
    requires unfailed { is_stopped encoder.old ≡ false }
    requires not_ended { item.now ≢ Item.Ended }
    requires may { MayPut W.contents (item.now ∷ []) encoder.old }
    ensures { WritesItems W.contents W.failures (item.now ∷ []) result encoder.old encoder.new }
{
    match encode(encoder, item) {
        Ok(()) => Ok(()),
        Err(fault) => Err(fault_of(fault)),
    }
}

/// Writes an item that is none of a transaction as it is sent, where there is one.
fn put_held<W: Target>(
    encoder: &mut Encoder<W>,
    works: Option<WorkKind>,
    held: Option<Item>,
) -> Result<(), ToolFault>
    requires unfailed { is_stopped encoder.old ≡ false }
    requires control { IsControl held }
    requires may { MayPut W.contents (option_to_list (option_map (sent_item works) held))
        encoder.old }
    ensures { WritesItems W.contents W.failures
        (option_to_list (option_map (sent_item works) held)) result encoder.old encoder.new }
{
    match held {
        Some(item) => put(encoder, &sent_control(works, item)),
        None => Ok(()),
    }
}

/// A selection while it is written.
#[derive(Drop)]
pub(crate) struct Selecting<W: Target> {
    encoder: Encoder<W>,
    held: Held,
}

impl<W: Target> Selecting<W> {
    /// Nothing was handed out.
    pub(crate) fn new(writer: W, limits: Limits) -> Selecting<W>
        ensures encodes { Encodes W.contents (W.contents writer) [] result.encoder }
        ensures limits { encoder_limits result.encoder ≡ limits }
        ensures unfailed { is_stopped result.encoder ≡ false }
        ensures writer { target_of result.encoder ≡ writer }
        ensures held { result.held ≡ none_held }
    {
        Selecting {
            encoder: Encoder::new(writer, limits),
            held: Held::new(),
        }
    }

    /// Writes a transaction that is selected, as it is sent, after HDR and GRH where these weren't written.
    fn select(&mut self, works: Option<WorkKind>, transaction: &Item) -> Result<(), ToolFault>
        requires unfailed { is_stopped self.old.encoder ≡ false }
        requires opening { IsControl self.old.held.opening }
        requires head { IsControl self.old.held.head }
        requires not_ended { transaction.now ≢ Item.Ended }
        requires room { HasRoom self.old.held }
        requires may { MayPut W.contents (sent_before works self.old.held ++ transaction.now ∷ [])
            self.old.encoder }
        ensures writes { WritesItems W.contents W.failures
            (sent_before works self.old.held ++ transaction.now ∷ []) result self.old.encoder
            self.new.encoder }
        ensures held { OnOk result (self.new.held ≡ with_selected self.old.held) }
    {
        put_held(&mut self.encoder, works, self.held.opening.take())?;
        put_held(&mut self.encoder, works, self.held.head.take())?;
        put(&mut self.encoder, transaction)?;
        self.held.count_selected();
        Ok(())
    }

    /// Writes a transaction where it is chosen, as it is sent.
    fn weigh<C: Chooses>(
        &mut self,
        alloc: Global,
        works: Option<WorkKind>,
        choice: &C,
        transaction: &Transaction,
        item: &Item,
    ) -> Result<(), ToolFault>
        requires same { item.now ≡ Item.Transaction transaction.now }
        requires may { MayTake W.contents works (C.choice choice.now) item.now self.old }
        ensures writes { TakesItem W.contents W.failures works
            (sent_with works (C.choice choice.now) self.old.held item.now) result self.old.encoder
            self.new.encoder }
        ensures held { OnOk result
            (self.new.held ≡ held_with (C.choice choice.now) self.old.held item.now) }
    {
        if !choice.chooses(self.held.group, self.held.transactions, transaction) {
            self.held.leave_out();
            return Ok(());
        }
        match sent_transaction(alloc, works, transaction)? {
            Some(sent) => self.select(works, &Item::Transaction(sent)),
            None => self.select(works, item),
        }
    }

    /// Ends a group of which a transaction was selected: with its GRT, or with a blank one where a transaction was left out.
    fn end_group(&mut self, foot: &Item) -> Result<(), ToolFault>
        requires unfailed { is_stopped self.old.encoder ≡ false }
        requires not_ended { foot.now ≢ Item.Ended }
        requires may { MayPut W.contents (end_with self.old.held foot.now) self.old.encoder }
        ensures writes { WritesItems W.contents W.failures (end_with self.old.held foot.now) result
            self.old.encoder self.new.encoder }
        ensures held { self.new.held ≡ self.old.held }
    {
        if self.held.selected == 0 {
            return Ok(());
        }
        if self.held.selected == self.held.transactions {
            return put(&mut self.encoder, foot);
        }
        put(&mut self.encoder, &blank_foot())
    }

    /// Takes an item of the input, and gives it back where it isn't held.
    pub(crate) fn take<C: Chooses>(
        &mut self,
        alloc: Global,
        works: Option<WorkKind>,
        choice: &C,
        item: Item,
    ) -> Result<Option<Item>, ToolFault>
        requires { MayTake W.contents works (C.choice choice.now) item self.old }
        ensures writes { TakesItem W.contents W.failures works
            (sent_with works (C.choice choice.now) self.old.held item) result self.old.encoder
            self.new.encoder }
        ensures held { OnOk result
            (self.new.held ≡ held_with (C.choice choice.now) self.old.held item) }
    {
        match &item {
            Item::Opened(_) => {
                self.held.opening = Some(item);
                Ok(None)
            }
            Item::GroupOpened(_) => {
                self.held.enter(item);
                Ok(None)
            }
            Item::Transaction(transaction) => {
                self.weigh(alloc, works, choice, transaction, &item)?;
                Ok(Some(item))
            }
            Item::GroupClosed(_) => {
                self.end_group(&item)?;
                Ok(None)
            }
            Item::Ended => Ok(None),
        }
    }

    /// Writes TRL where a transaction was selected, and has the writer hand on what was written. The writer comes back.
    pub(crate) fn finish(self) -> (W, Result<SelectReport, ToolFault>)
        requires unfailed { is_stopped self.encoder ≡ false }
        requires may { MayFinish W.contents self }
        ensures ends { Finishes W.contents self result.0 result.1 }
        ensures failures { CountsSplitWriter result.1 (W.failures (target_of self.encoder))
            (W.failures result.0) }
        ensures handed_on { IfOk result.1
            (λ report. 0 < report.selected → W.handed_on result.0 ≡ true) }
    {
        let report = self.held.report;
        if report.selected == 0 {
            return (self.encoder.abandon(), Ok(report));
        }
        let (writer, outcome) = self.encoder.finish();
        match outcome {
            Ok(_) => (writer, Ok(report)),
            Err(fault) => (writer, Err(fault_of(fault))),
        }
    }

    /// Gives the writer back, with what was written.
    pub(crate) fn abandon(self) -> W
        ensures { result ≡ target_of self.encoder }
    {
        self.encoder.abandon()
    }
}
