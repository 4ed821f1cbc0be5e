//! What was joined so far: the encoder of the result, and the numbers of what it wrote.

ghost use Rattle.std.specs.Prelude.{◌≡◌, ◌≢◌, ◌+◌, ◌≤◌, ◌∷◌, ℕ, Bool, List, Option, [], length, true, false, filter, Result, Ok, Err, OnOk};
ghost use Rattle.std.specs.List.{AllByRecursion};
ghost use Rattle.cwr_lines.specs.Format.Records.{RecordValue};
ghost use Rattle.cwr_shape.specs.Format.Ranges.{AreInRange};
ghost use Rattle.cwr_values.specs.Format.Values.{IsTransmission, TransmissionValue};
ghost use Rattle.cwr_values.specs.declared.items.Item.{Item};
ghost use Rattle.cwr_judge.specs.Format.Items.{item_records};
ghost use Rattle.cwr_encode.specs.Format.Encoders.{IsNoMistake};
ghost use Rattle.cwr_encode.specs.Steps.Encoders.{AddsRecords, is_stopped, encoder_limits, target_of};
ghost use Rattle.cwr_parts.specs.Format.Joins.{is_joined, joined_inputs};
ghost use Rattle.cwr_parts.specs.Steps.Joined.{AddsItems, EndsJoin, HasJoined, HasJoinedAll, IsAnswerOf, JudgesNext, MayAdd, is_fault_of, joined_writer};

use cwr_devices::Target;
use cwr_encode::{EncodeFault, Encoder};
use cwr_shape::Limits;
use cwr_tools::{JoinFault, JoinReport, ToolFault, Totals};
use cwr_values::Item;

/// Writes the record of an item that is none of a transaction. It is rare, and kept out of the way of transactions.
#[inline(never)]
fn put_control<W: Target>(encoder: &mut Encoder<W>, item: &Item) -> Result<(), EncodeFault>
    requires unfailed { is_stopped encoder.old ≡ false }
    requires not_ended { item.now ≢ Item.Ended }
    requires outside { (records : List RecordValue) → item.now ≢ Item.Transaction records }
    ensures judged { JudgesNext W.contents item.now result encoder.old }
    ensures adds { AddsRecords W.contents W.failures (item_records item.now) result encoder.old
        encoder.new }
    ensures limits { encoder_limits encoder.new ≡ encoder_limits encoder.old }
{
    match item {
        Item::Opened(opening) => encoder.open(&opening.to_record()),
        Item::GroupOpened(head) => encoder.group(&head.to_record()),
        Item::GroupClosed(foot) => encoder.end_group(&foot.to_record()),
        Item::Transaction(_) | Item::Ended => unreachable!(),
    }
}

/// Writes the record or the transaction of an item.
pub(crate) fn put_item<W: Target>(encoder: &mut Encoder<W>, item: &Item) -> Result<(), EncodeFault>
    requires unfailed { is_stopped encoder.old ≡ false }
    requires not_ended { item.now ≢ Item.Ended }
    ensures judged { JudgesNext W.contents item.now result encoder.old }
    ensures adds { AddsRecords W.contents W.failures (item_records item.now) result encoder.old
        encoder.new }
    ensures limits { encoder_limits encoder.new ≡ encoder_limits encoder.old }
{
    match item {
        Item::Transaction(transaction) => encoder.transaction(transaction),
        _ => put_control(encoder, item),
    }
}

/// What the fault of an encoder is reported as.
pub(crate) fn fault_of(fault: EncodeFault) -> ToolFault
    requires { IsNoMistake {A = ℕ} (Err fault) }
    ensures { is_fault_of fault result }
{
    match fault {
        EncodeFault::Limit(limit) => ToolFault::Limit(limit),
        EncodeFault::Writer { written } => ToolFault::Writer { written },
        EncodeFault::OutOfOrder | EncodeFault::WrongKind | EncodeFault::Incomplete => {
            unreachable!()
        }
    }
}

/// Whether an item of an input is joined: HDR is of the first input only, and TRL comes once, at the end.
fn is_joined(first: bool, item: &Item) -> bool
    ensures { result ≡ is_joined first item.now }
{
    match item {
        Item::Opened(_) => first,
        Item::Ended => false,
        _ => true,
    }
}

/// The answer of a join of so many inputs whose encoder finished so. Of what it wrote all but TRL is counted.
fn answer_of(
    outcome: Result<u64, EncodeFault>,
    counts: Totals,
    inputs: usize,
) -> Result<JoinReport, JoinFault>
    requires few { counts.records ≤ 99999999 }
    requires no_mistake { IsNoMistake outcome }
    ensures { IsAnswerOf outcome counts inputs result }
{
    match outcome {
        Ok(_) => Ok(JoinReport {
            inputs,
            groups: counts.groups,
            transactions: counts.transactions,
            records: counts.records + 1,
        }),
        Err(fault) => Err(JoinFault {
            input: inputs,
            fault: fault_of(fault),
        }),
    }
}

/// What was joined so far.
#[derive(Drop)]
pub(crate) struct Joined<W: Target> {
    encoder: Encoder<W>,
    counts: Totals,
}

impl<W: Target> Joined<W> {
    /// Nothing was joined.
    pub(crate) fn new(writer: W, limits: Limits) -> Joined<W>
        ensures joined { HasJoined W.contents (W.contents writer) [] result }
        ensures limits { encoder_limits result.encoder ≡ limits }
        ensures unfailed { is_stopped result.encoder ≡ false }
        ensures writer { joined_writer result ≡ writer }
        ensures range { AreInRange limits }
    {
        // Each limit is in its range.
        let most = limits.records();
        prove!(most <= 99_999_999);
        Joined {
            encoder: Encoder::new(writer, limits),
            counts: Totals::new(),
        }
    }

    /// Writes an item, and counts it.
    fn put(&mut self, item: &Item) -> Result<(), ToolFault>
        requires unfailed { is_stopped self.old.encoder ≡ false }
        requires not_ended { item.now ≢ Item.Ended }
        requires may { MayAdd W.contents (item.now ∷ []) self.old }
        ensures { AddsItems W.contents W.failures (item.now ∷ []) result self.old self.new }
    {
        match put_item(&mut self.encoder, item) {
            Ok(()) => {
                self.counts.count(item);
                Ok(())
            }
            Err(fault) => Err(fault_of(fault)),
        }
    }

    /// Joins an item of an input, which is the first one or not.
    pub(crate) fn add(&mut self, first: bool, item: &Item) -> Result<(), ToolFault>
        requires unfailed { is_stopped self.old.encoder ≡ false }
        requires may { MayAdd W.contents (filter (is_joined first) (item.now ∷ [])) self.old }
        ensures { AddsItems W.contents W.failures (filter (is_joined first) (item.now ∷ [])) result
            self.old self.new }
    {
        if is_joined(first, item) {
            self.put(item)
        } else {
            Ok(())
        }
    }

    /// Writes TRL after all inputs, so many, and has the writer hand on what was written. The writer comes back.
    pub(crate) fn finish(self, inputs: usize) -> (W, Result<JoinReport, JoinFault>)
        requires unfailed { is_stopped self.encoder ≡ false }
        requires all { HasJoinedAll W.contents inputs self }
        ensures ends { EndsJoin W.contents W.failures inputs self result.0 result.1 }
        ensures handed_on { OnOk result.1 (W.handed_on result.0 ≡ true) }
    {
        let counts = self.counts;
        let (writer, outcome) = self.encoder.finish();
        (writer, answer_of(outcome, counts, inputs))
    }

    /// Gives the writer back, with what was written.
    pub(crate) fn abandon(self) -> W
        ensures { result ≡ joined_writer self }
    {
        self.encoder.abandon()
    }
}
