//! The steps of a decoder.

ghost use Rattle.std.specs.Prelude.{List, [], ◌≡◌, ◌↔◌, IsTrue, length};
ghost use Rattle.cwr_shape.specs.Format.Ranges.{AreInRange};
ghost use Rattle.cwr_shape.specs.Steps.Stages.{stage_after};
ghost use Rattle.cwr_shape.specs.Steps.Tallies.{IsTallyOf};
ghost use Rattle.cwr_shape.specs.declared.symbols.Symbol.{Symbol};
ghost use Rattle.cwr_decode.specs.Steps.Machines.{FinishesRecord, TakesRoom, at_start, held_list, reading, stopped};
ghost use Rattle.cwr_decode.specs.Steps.LastReads.{header_of_records};
ghost use Rattle.cwr_decode.specs.Steps.Represents.{IsSound};
ghost use Rattle.cwr_decode.specs.Steps.Calls.{Feeds, Finishes};

use crate::outcomes::{Answer, Outcome};
use cwr_fields::SpelledPair;
use cwr_judge::Refusal;
use cwr_lines::{LineBuf, LinePad, Record};
use cwr_shape::{Counts, Limits, Stage, Tally};
use cwr_values::Item;
use holding::Held;
use std::alloc::{AllocError, Global};
use std::marker::Model;

mod holding;
mod passing;
mod quickly;
mod taking;
mod waiting;

/// What a decoder does next.
#[derive(Clone, Copy, Debug, PartialEq, Eq)]
pub enum State {
    /// It reads lines.
    Reading,
    /// A line was accepted that ends the transaction before it: that was handed out first, and the line is next.
    Pending,
    /// The transmission ended.
    Ended,
    /// A line was refused.
    Refused(Refusal),
    /// The input ended too early, after so many lines.
    Truncated(u32),
    /// Memory was refused.
    Memory,
}

/// What quick tests find of a line.
#[derive(Clone, Copy, Debug)]
pub enum Found {
    /// Its record was added to the open transaction.
    Added,
    /// It is accepted and counted, and its record waits: it ends the open transaction, which is to be handed out.
    Ends,
    /// Nothing is said of the line, and nothing has changed.
    Nothing,
}

/// What was passed over.
#[derive(Clone, Copy, Debug, PartialEq, Eq)]
pub struct Passed {
    /// How many bytes.
    pub used: usize,
    /// How many transactions.
    pub transactions: usize,
    /// How many records these have.
    pub records: usize,
}

impl Passed {
    /// Nothing.
    pub fn nothing() -> Passed
        ensures { result ≡ record { used = 0; transactions = 0; records = 0 } }
    {
        Passed {
            used: 0,
            transactions: 0,
            records: 0,
        }
    }
}

/// What a decoder holds: at most one line and one transaction.
#[derive(Drop)]
pub struct Machine {
    alloc: Global,
    /// The line that is read, or waits.
    line: LineBuf,
    /// Room for a line that is judged.
    pad: LinePad,
    tally: Tally,
    /// The records of the open transaction, or room for the next one: the one thing here that grows.
    held: Held,
    /// The sequences of the line before, with their digits.
    expected: SpelledPair,
    state: State,
    /// The input has ended.
    finished: bool,
}

impl Model for Machine {
    ghost use Rattle.cwr_decode.specs.Steps.Machines.{Standing};

    ghost Value = { Standing };

    ghost view = { λ m. record { line = m.line; tally = m.tally; held = m.held; state = m.state; finished = m.finished } };
}

impl Machine {
    /// Nothing was read.
    pub fn new(alloc: Global, limits: Limits) -> Self
        ensures limits { result.tally.limits ≡ limits }
        ensures in_range { AreInRange result.tally.limits }
        ensures stands { IsTallyOf result.tally [] }
        ensures at_start { result ≡ at_start result.tally }
    {
        Machine {
            alloc,
            line: LineBuf::new(),
            pad: LinePad::new(),
            tally: Tally::new(limits),
            held: Held::nothing(alloc),
            expected: SpelledPair::new(),
            state: State::Reading,
            finished: false,
        }
    }

    /// How many records were accepted.
    pub fn records(&self) -> u32
        ensures { result ≡ self.now.tally.counts.records }
    {
        self.tally.records()
    }

    /// How far the accepted records have come.
    pub fn stage(&self) -> Stage
        ensures value { result ≡ self.now.tally.stage }
        ensures named { (xs : List Symbol) → IsTallyOf self.now.tally xs → result ≡ stage_after xs }
    {
        self.tally.stage()
    }

    /// What was counted of the accepted records.
    pub fn counts(&self) -> Counts
        ensures { result ≡ self.now.tally.counts }
    {
        self.tally.counts()
    }

    /// Whether the end of the input was taken.
    #[inline(always)]
    pub fn has_ended(&self) -> bool
        ensures { result ≡ self.now.finished }
    {
        self.finished
    }

    /// The header of the open transaction.
    pub fn header(&self) -> Option<Record>
        ensures { result ≡ header_of_records self.now }
    {
        Some(self.held.header()?.to_record())
    }

    /// How many bytes of the line, and how many records of the transaction.
    pub fn holds(&self) -> (usize, usize)
        ensures line { result.0 ≡ length self.now.line.bytes }
        ensures transaction { result.1 ≡ length (held_list self.now.held) }
    {
        (self.line.len(), self.held.len())
    }

    /// Takes an item that nobody needs any more, and says whether the next transaction has its room: where it is a transaction within
    /// the limit, none is open, and more is read.
    pub fn reuse(&mut self, spent: Option<Item>) -> bool
        ensures same { self.new ≡ self.old }
        ensures taken { IsTrue result ↔ TakesRoom self.old spent }
    {
        match (self.state, spent) {
            (State::Reading | State::Pending, Some(Item::Transaction(whole))) => {
                whole.len() <= self.tally.limits().transaction() as usize && self.held.reuse(whole)
            }
            _ => false,
        }
    }

    /// Stops for good: nothing is held from then on.
    fn stop(&mut self, state: State)
        ensures { self.new ≡ stopped self.old state }
    {
        self.line.clear();
        self.held = Held::nothing(self.alloc);
        self.state = state;
    }

    /// Begins a new line.
    fn begin_line(&mut self)
        ensures { self.new ≡ reading self.old self.old.held }
    {
        self.line.clear();
        self.state = State::Reading;
    }

    /// Begins a new line after an accepted record, or stops for good where that was the last one or found no memory.
    fn finish_record(&mut self, added: Result<Option<Item>, AllocError>) -> Option<Outcome>
        ensures { FinishesRecord added self.old result self.new }
    {
        match added {
            Err(_) => {
                self.stop(State::Memory);
                Some(Outcome::Memory)
            }
            Ok(Some(Item::Ended)) => {
                self.stop(State::Ended);
                Some(Outcome::Item(Item::Ended))
            }
            Ok(Some(item)) => {
                self.begin_line();
                Some(Outcome::Item(item))
            }
            Ok(None) => {
                self.begin_line();
                None
            }
        }
    }

    /// Takes the next piece of the input, up to the next item.
    pub fn feed(&mut self, piece: &[u8]) -> Answer
        requires { IsSound self.old }
        ensures { Feeds self.old piece.now result.used result.outcome self.new }
    {
        if self.finished {
            return self.finish();
        }
        if self.is_settled() {
            return self.feed_lines(piece);
        }
        if let Some(outcome) = self.settle() {
            return Answer { used: 0, outcome };
        }
        self.feed_lines(piece)
    }

    /// Takes the end of the input.
    pub fn finish(&mut self) -> Answer
        requires { IsSound self.old }
        ensures used { result.used ≡ 0 }
        ensures finishes { Finishes self.old result.outcome self.new }
    {
        if let Some(outcome) = self.last_line() {
            return Answer { used: 0, outcome };
        }
        if let Some(outcome) = self.settle() {
            return Answer { used: 0, outcome };
        }
        let records = self.tally.records();
        self.stop(State::Truncated(records));
        Answer {
            used: 0,
            outcome: Outcome::Truncated { records },
        }
    }
}
