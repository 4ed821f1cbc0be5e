//! Reading a transmission in pieces of any size.

ghost use Rattle.std.specs.Prelude.{◌≡◌, ◌≢◌, ◌↔◌, ◌≤◌, ◌++◌, [], List, ℕ, length, take, IfSome, IsNone, IsTrue, IsFalse, Option, None, true, false};
ghost use Rattle.cwr_decode.specs.Steps.Calls.{Fed, Feeds};
ghost use Rattle.cwr_decode.specs.Steps.Decoding.{EndsAgain, FeedsRight, FinishesLast, FinishesRight, IsStageNow, LacksMemory, StandsAfter};
ghost use Rattle.cwr_decode.specs.Steps.Decoding.{accepted_records, final_answer, has_ended, limits_of};
ghost use Rattle.cwr_decode.specs.Steps.Machines.{Empties, TakesRoom, WaitsOutside, held_list};
ghost use Rattle.cwr_decode.specs.Steps.Passing.{Passes};
ghost use Rattle.cwr_decode.specs.Steps.Readings.{FeedsOn};
ghost use Rattle.cwr_decode.specs.Steps.Represents.{RepresentsSome, Represents, items_out};
ghost use Rattle.cwr_decode.specs.Steps.LastReads.{counts_of_records, header_of_records, stage_of_records};
ghost use Rattle.cwr_shape.specs.declared.symbols.Symbol.{Symbol};
ghost use Rattle.cwr_values.specs.declared.items.Item.{Item};

use crate::keepers::Keeper;
use crate::machine::{Machine, Passed, State};
use crate::outcomes::{Answer, Outcome};
use cwr_lines::Record;
use cwr_shape::{Counts, Limits, Stage};
use cwr_values::{Item, Transaction};
use std::alloc::Global;
use std::marker::Model;

/// A decoder of one transmission, which is fed in pieces of any size. It holds at most one line and one transaction.
#[derive(Drop)]
pub struct Decoder {
    machine: Machine,
}

impl Model for Decoder {
    ghost use Rattle.cwr_decode.specs.Steps.Machines.{Standing};
    ghost use Rattle.cwr_decode.specs.Steps.Represents.{IsSound};

    ghost Value = { Standing };

    ghost view = { λ d. d.machine };

    ghost invariant = { λ d. IsSound d.machine };
}

impl Decoder {
    /// A decoder of a transmission within the limits, of which nothing was read.
    pub fn new(alloc: Global, limits: Limits) -> Self
        ensures represents { Represents result [] [] }
        ensures limits { limits_of result ≡ limits }
        ensures open { final_answer result ≡ None }
        ensures fresh { has_ended result ≡ false }
    {
        Decoder {
            machine: Machine::new(alloc, limits),
        }
    }

    /// How many records were accepted.
    pub fn records(&self) -> u32
        ensures { result ≡ accepted_records self.now }
    {
        self.machine.records()
    }

    /// How far the accepted records have come.
    pub fn stage(&self) -> Stage
        ensures value { result ≡ stage_of_records self.now }
        ensures named { IsStageNow self.now result }
    {
        self.machine.stage()
    }

    /// What was counted of the accepted records.
    pub fn counts(&self) -> Counts
        ensures { result ≡ counts_of_records self.now }
    {
        self.machine.counts()
    }

    /// The header of the open transaction: after a refusal, of the one that was open before the refused line.
    pub fn header(&self) -> Option<Record>
        ensures { result ≡ header_of_records self.now }
    {
        self.machine.header()
    }

    /// How many bytes of the line that is read or waits are held, its line feed not counted, and how many records of
    /// the open transaction: at most 1,024 bytes, and at most as many records as the limit of a transaction.
    pub fn holds(&self) -> (usize, usize)
        ensures line { result.0 ≡ length self.now.line.bytes }
        ensures transaction { result.1 ≡ length (held_list self.now.held) }
        ensures bounded { (result.0 ≤ 1024) × (result.1 ≤ (limits_of self.now).transaction) }
    {
        self.machine.holds()
    }

    /// Takes an item that nobody needs any more, and says whether it keeps the item's room: where it is a transaction within the limit,
    /// no transaction is open, and nothing was answered for good. The next transaction then has that room in place of any kept before,
    /// and asks for memory only where it isn't enough. Else the item is dropped. The decoder's one list is the
    /// open transaction's or a spare one, with whatever room the item has. No end leaves a spare one, and a refusal leaves the open
    /// transaction's.
    pub fn reuse(&mut self, spent: Option<Item>) -> bool
        ensures same { self.new ≡ self.old }
        ensures taken { IsTrue result ↔ TakesRoom self.old spent }
    {
        self.machine.reuse(spent)
    }

    /// Enters the record that waits, where that needs no answer, and says whether a byte is needed now. A no says nothing,
    /// and then nothing changes.
    pub(crate) fn is_settled(&mut self) -> bool
        ensures continues { IsTrue result → (left : Option (List ℕ))
            → FeedsOn 0 self.old left self.new left }
        ensures fresh { IsTrue result → has_ended self.old ≡ false }
        ensures inside { IsTrue result → WaitsOutside self.old → ⊥ }
        ensures kept { IsFalse result → self.new ≡ self.old }
    {
        !self.machine.has_ended() && self.machine.is_settled()
    }

    /// Takes lines of the piece by quick tests alone, up to the next transaction: how many bytes these are, and that. Where
    /// none is answered, what is left of the piece is left to `feed`.
    pub(crate) fn feed_quickly(&mut self, piece: &[u8]) -> (usize, Option<Transaction>)
        requires reading { self.old.state ≡ State.Reading }
        requires fresh { self.old.finished ≡ false }
        ensures some { IfSome result.1 (λ whole. Feeds self.old piece.now result.0
            (Outcome.Item (Item.Transaction whole)) self.new) }
        ensures none { IsNone result.1 → Fed self.old piece.now result.0 self.new }
        ensures under_way { RepresentsSome self.old }
    {
        self.machine.feed_quickly(piece)
    }

    /// Passes over whole transactions of the piece, from the header on that was read last: by quick tests, and only where the keeper
    /// finds each surely as it should be. What follows them is left.
    pub(crate) fn pass<K: Keeper>(&mut self, keeper: &mut K, piece: &[u8]) -> Passed
        requires reading { self.old.state ≡ State.Reading }
        requires fresh { self.old.finished ≡ false }
        ensures passes { Passes K.are_clean self.old piece.now result self.new }
        ensures under_way { RepresentsSome self.old }
    {
        self.machine.pass(keeper, piece)
    }

    /// Takes bytes of the next piece, up to the next item, and answers how many bytes it used and what came of them: an
    /// item; `More`, where the piece is used up and no item is whole; or one of the ends `Refused`, `Memory` and `Done`,
    /// which each later call answers again. What wasn't used is fed again. The record that ends a transaction waits until
    /// that was handed out; the next call then begins with it, and uses no byte where it is an item of its own or finds
    /// no memory. After `finish` no byte is used, and the answer is the one that `finish` would give.
    pub fn feed(&mut self, piece: &[u8]) -> Answer
        // What it represents: some input, and the items of that. Afterwards with the used bytes, and the item answered.
        ensures used { result.used ≤ length piece.now }
        ensures some { RepresentsSome self.old }
        ensures represents { (input : List ℕ) (given : List Item) → Represents self.old input given
            → Represents self.new (input ++ take result.used piece.now) (given ++ items_out result.outcome) }
        // What the answer means: the end that it reports is the input's, however that continues. A refusal comes with the
        // line feed of the refused line, before its byte too many, or once the input has ended.
        ensures right { FeedsRight self.old piece.now result.used result.outcome }
        ensures more { result.outcome ≡ Outcome.More
            → (result.used ≡ length piece.now) × (has_ended self.old ≡ false) }
        // What stays held: after an item nothing, but after a transaction the line that ended it.
        ensures leaves { StandsAfter result.outcome self.new }
        ensures empties { Empties result.outcome self.new }
        // What uses no byte: a record that waits and is an item of its own, and all once the input has ended.
        ensures alone { WaitsOutside self.old
            → (result.used ≡ 0) × (result.outcome ≢ Outcome.More) }
        ensures unused { has_ended self.old ≡ true → result.used ≡ 0 }
        // What was answered for good is answered again.
        ensures again { IfSome (final_answer self.old)
            (λ outcome. (result.outcome ≡ outcome) × (result.used ≡ 0) × (self.new ≡ self.old)) }
        // Out of memory comes only with a record that was being added: where none was accepted, it was the one that waited.
        ensures memory { LacksMemory self.old result.used result.outcome self.new }
        ensures kept { accepted_records self.old ≤ accepted_records self.new }
        ensures input_ended { has_ended self.new ≡ has_ended self.old }
        ensures limits { limits_of self.new ≡ limits_of self.old }
    {
        self.machine.feed(piece)
    }

    /// Takes the end of the input, and answers an item, a refusal, `Memory`, `Truncated` or `Done`; after an item it is
    /// called again. A last line without its line feed is one that has it. No byte is used.
    pub fn finish(&mut self) -> Answer
        // What it represents: some input, and the items of that. Afterwards the same input, with the item answered.
        ensures used { result.used ≡ 0 }
        ensures some { RepresentsSome self.old }
        ensures represents { (input : List ℕ) (given : List Item) → Represents self.old input given
            → Represents self.new input (given ++ items_out result.outcome) }
        // What the answer means: the end that it reports is the input's. What it refuses is the last line, which ended with
        // the input and isn't too long.
        ensures right { FinishesRight self.old result.outcome }
        ensures last { FinishesLast self.old result.outcome self.new }
        ensures more { result.outcome ≡ Outcome.More → ⊥ }
        // What stays held: after an item nothing, but after a transaction the line that ended it.
        ensures leaves { StandsAfter result.outcome self.new }
        ensures empties { Empties result.outcome self.new }
        // What was answered for good is answered again.
        ensures again { EndsAgain self.old result.outcome self.new }
        // Out of memory comes only with a record that was being added: where none was accepted, it was the one that waited.
        ensures memory { LacksMemory self.old 0 result.outcome self.new }
        ensures kept { accepted_records self.old ≤ accepted_records self.new }
        ensures input_ended { has_ended self.new ≡ true }
        ensures limits { limits_of self.new ≡ limits_of self.old }
    {
        self.machine.finish()
    }
}
