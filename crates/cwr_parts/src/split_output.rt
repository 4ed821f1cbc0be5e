//! One output of a split, while it is written.

ghost use Rattle.std.specs.Prelude.{◌≡◌, ◌≢◌, ℕ, ◌+◌, ◌-◌, ◌<◌, ◌++◌, ◌∷◌, [], List, Option, Some, Ok, Err, OnOk, IfSome, false, true};
ghost use Rattle.cwr_values.specs.declared.items.Item.{Item};
ghost use Rattle.cwr_judge.specs.Format.Items.{records_in};
ghost use Rattle.cwr_encode.specs.Steps.Encoders.{Encodes, is_stopped, encoder_limits, target_of};
ghost use Rattle.cwr_parts.specs.Format.Splitting.{TellsWritten};
ghost use Rattle.cwr_parts.specs.Steps.SplitOutputs.{HandsOver, MayHandOver, MayPut, PutsItems, blank_end, end_of, front_of, opening_of, head_of, told_by};
ghost use Rattle.cwr_parts.specs.Steps.SplitWriters.{BeganEmpty, CountsBytes};

use crate::joined::{fault_of, put_item};
use cwr_devices::{Outputs, Target};
use cwr_encode::Encoder;
use cwr_fields::Kind;
use cwr_lines::Draft;
use cwr_shape::Limits;
use cwr_tools::ToolFault;
use cwr_values::Item;

/// The end of a group, with a GRT record in which nothing was set.
fn blank_foot() -> Item
    ensures { result ≡ blank_end }
{
    match Draft::blank(Kind::Grt).done() {
        Ok(foot) => Item::GroupClosed(foot.view().to_control()),
        Err(_) => unreachable!(),
    }
}

/// Writes an item.
fn put<W: Target>(encoder: &mut Encoder<W>, item: &Item) -> Result<(), ToolFault>
    requires unfailed { is_stopped encoder.old ≡ false }
    requires not_ended { item.now ≢ Item.Ended }
    requires may { MayPut W.contents (item.now ∷ []) encoder.old }
    ensures puts { PutsItems W.contents W.failures (item.now ∷ []) result encoder.old encoder.new }
    ensures written { CountsBytes W.contents result encoder.old encoder.new }
{
    match put_item(encoder, item) {
        Ok(()) => Ok(()),
        Err(fault) => Err(fault_of(fault)),
    }
}

/// One output of a split, while it is written.
#[derive(Drop)]
pub(crate) struct SplitOutput<W: Target> {
    encoder: Encoder<W>,
    /// The transactions in it.
    transactions: u32,
    /// Whether a group is open in it.
    in_group: bool,
}

impl<W: Target> SplitOutput<W> {
    /// Nothing was written.
    pub(crate) fn new(writer: W, limits: Limits) -> SplitOutput<W>
        ensures encodes { Encodes W.contents (W.contents writer) [] result.encoder }
        ensures limits { encoder_limits result.encoder ≡ limits }
        ensures unfailed { is_stopped result.encoder ≡ false }
        ensures writer { target_of result.encoder ≡ writer }
        ensures none { result.transactions ≡ 0 }
        ensures outside { result.in_group ≡ false }
    {
        SplitOutput {
            encoder: Encoder::new(writer, limits),
            transactions: 0,
            in_group: false,
        }
    }

    /// The transactions in it.
    pub(crate) fn transactions(&self) -> u32
        ensures { result ≡ self.now.transactions }
    {
        self.transactions
    }

    /// Writes HDR, unless it was written.
    fn begin(&mut self, opening: &Item) -> Result<(), ToolFault>
        requires unfailed { is_stopped self.old.encoder ≡ false }
        requires not_ended { opening.now ≢ Item.Ended }
        requires may { MayPut W.contents (opening_of opening.now self.old) self.old.encoder }
        ensures puts { PutsItems W.contents W.failures (opening_of opening.now self.old) result
            self.old.encoder self.new.encoder }
        ensures written { CountsBytes W.contents result self.old.encoder self.new.encoder }
        ensures counted { self.new.transactions ≡ self.old.transactions }
        ensures group { self.new.in_group ≡ self.old.in_group }
    {
        if self.transactions > 0 {
            return Ok(());
        }
        put(&mut self.encoder, opening)
    }

    /// Writes GRH, unless a group is open.
    fn enter_group(&mut self, head: &Item) -> Result<(), ToolFault>
        requires unfailed { is_stopped self.old.encoder ≡ false }
        requires not_ended { head.now ≢ Item.Ended }
        requires may { MayPut W.contents (head_of head.now self.old) self.old.encoder }
        ensures puts { PutsItems W.contents W.failures (head_of head.now self.old) result
            self.old.encoder self.new.encoder }
        ensures written { CountsBytes W.contents result self.old.encoder self.new.encoder }
        ensures counted { self.new.transactions ≡ self.old.transactions }
        ensures group { OnOk result (self.new.in_group ≡ true) }
    {
        if self.in_group {
            return Ok(());
        }
        put(&mut self.encoder, head)?;
        self.in_group = true;
        Ok(())
    }

    /// Writes a transaction, after HDR and GRH where these weren't written.
    pub(crate) fn add(
        &mut self,
        opening: &Item,
        head: &Item,
        transaction: &Item,
    ) -> Result<(), ToolFault>
        requires unfailed { is_stopped self.old.encoder ≡ false }
        requires opening { opening.now ≢ Item.Ended }
        requires head { head.now ≢ Item.Ended }
        requires transaction { transaction.now ≢ Item.Ended }
        requires few { self.old.transactions < 199999999 }
        requires may { MayPut W.contents
            (front_of opening.now head.now self.old ++ transaction.now ∷ []) self.old.encoder }
        ensures puts { PutsItems W.contents W.failures
            (front_of opening.now head.now self.old ++ transaction.now ∷ []) result self.old.encoder
            self.new.encoder }
        ensures written { CountsBytes W.contents result self.old.encoder self.new.encoder }
        ensures counted { OnOk result (self.new.transactions ≡ self.old.transactions + 1) }
        ensures group { OnOk result (self.new.in_group ≡ true) }
    {
        self.begin(opening)?;
        self.enter_group(head)?;
        put(&mut self.encoder, transaction)?;
        self.transactions += 1;
        Ok(())
    }

    /// Writes a blank GRT where a group is open.
    pub(crate) fn end_group(&mut self) -> Result<(), ToolFault>
        requires unfailed { is_stopped self.old.encoder ≡ false }
        requires may { MayPut W.contents (end_of self.old) self.old.encoder }
        ensures puts { PutsItems W.contents W.failures (end_of self.old) result self.old.encoder
            self.new.encoder }
        ensures written { CountsBytes W.contents result self.old.encoder self.new.encoder }
        ensures counted { self.new.transactions ≡ self.old.transactions }
        ensures group { OnOk result (self.new.in_group ≡ false) }
    {
        if !self.in_group {
            return Ok(());
        }
        put(&mut self.encoder, &blank_foot())?;
        self.in_group = false;
        Ok(())
    }

    /// Gives the writer back, with what was written.
    pub(crate) fn abandon(self) -> W
        ensures { result ≡ target_of self.encoder }
    {
        self.encoder.abandon()
    }
}

/// Writes TRL, and hands the output over. A writer that fails in it is given up.
pub(crate) fn hand_over<O: Outputs>(
    output: SplitOutput<O::W>,
    outputs: &mut O,
) -> Result<(), ToolFault>
    requires unfailed { is_stopped output.encoder ≡ false }
    requires quiet { O.W.failures (target_of output.encoder) ≡ 0 }
    requires may { MayHandOver O.W.contents output }
    ensures hands_over { HandsOver (told_by O.texts O.failures O.given_up O.W.contents O.W.failures) output
        result outputs.old outputs.new }
    ensures lent { O.lent outputs.new ≡ O.lent outputs.old - 1 }
    ensures written { IfSome (O.texts outputs.old)
        (λ _. BeganEmpty O.W.contents output.encoder → TellsWritten result (O.had outputs.new)) }
{
    let (writer, outcome) = output.encoder.finish();
    match outcome {
        Ok(_) => match outputs.done(writer) {
            Ok(()) => Ok(()),
            Err(_) => Err(ToolFault::Output),
        },
        Err(fault) => {
            outputs.give_up(writer);
            Err(fault_of(fault))
        }
    }
}
