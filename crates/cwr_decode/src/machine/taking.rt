//! Lines that are taken one after another, and judged.

ghost use Rattle.std.specs.Prelude.{◌≡◌, ◌≢◌, false, Some};
ghost use Rattle.cwr_lines.specs.Steps.Held.{IsHeld, Takes};
ghost use Rattle.cwr_decode.specs.Steps.Machines.{ClosesLine, HoldsOpen, IsReady, Judges, ReportsFault, with_refusal};
ghost use Rattle.cwr_decode.specs.Steps.Represents.{IsSound};
ghost use Rattle.cwr_decode.specs.Steps.Calls.{Advances, TakesEnd};

use super::holding::{add_accepted, hand_out, stays_open};
use super::{Found, Machine, State};
use crate::outcomes::{Answer, Outcome};
use cwr_fields::Kind;
use cwr_judge::{LineFault, Refusal, judge};
use cwr_lines::{LineEnd, Taken};
use cwr_shape::level;
use cwr_values::Item;

impl Machine {
    /// Stops for good with a refusal. The open transaction stays as it is, and no room is spare.
    fn stop_refused(&mut self, refusal: Refusal)
        ensures { self.new ≡ with_refusal self.old refusal }
    {
        self.line.clear();
        self.held.drop_room(self.alloc);
        self.state = State::Refused(refusal);
    }

    /// Refuses the line for good.
    fn refuse(&mut self, kind: Option<Kind>, fault: LineFault) -> Outcome
        ensures { ReportsFault self.old kind fault result self.new }
    {
        let refusal = Refusal {
            rec: self.tally.records() + 1,
            field: fault.field,
            level: level(kind, fault.field, &fault.reason, self.tally.scope()),
            reason: fault.reason,
        };
        self.stop_refused(refusal);
        Outcome::Refused(refusal)
    }

    /// Judges the line that ended, and accepts or refuses it. An accepted record that ends a transaction waits, since
    /// that is handed out first.
    fn take_line(&mut self) -> Option<Outcome>
        requires ended { self.old.line.ended ≢ LineEnd.Open }
        requires holds { HoldsOpen self.old }
        ensures { Judges self.old result self.new }
    {
        let cut = self.line.cut();
        let before = self.tally;
        let (_, accepted) = match judge(&mut self.tally, &cut) {
            Ok(found) => found,
            Err(fault) => {
                let kind = cut.kind();
                return Some(self.refuse(kind, fault));
            }
        };
        let continues = stays_open(&before, &self.tally);
        if let Some(whole) = hand_out(continues, &mut self.held, self.alloc) {
            self.state = State::Pending;
            return Some(Outcome::Item(Item::Transaction(whole)));
        }
        let outcome = add_accepted(self.alloc, &mut self.held, accepted, self.tally.stage());
        self.finish_record(outcome)
    }

    /// Takes more of the line.
    fn take(&mut self, piece: &[u8]) -> Taken
        requires { self.old.line.ended ≡ LineEnd.Open }
        ensures takes { Takes self.old.line piece.now result.used self.new.line }
        ensures ended { result.ended ≡ self.new.line.ended }
        ensures held { IsHeld self.new.line }
        ensures others { self.new ≡ record self.old { line = self.new.line } }
    {
        self.line.take(piece)
    }

    /// Takes the end of the input, and answers whether a last line is there that had no line feed.
    fn close(&mut self) -> bool
        requires { IsReady self.old.state self.old.finished self.old.line }
        ensures { ClosesLine result self.old self.new }
    {
        self.finished = true;
        let unended = matches!(self.state, State::Reading) && self.line.len() > 0;
        if unended {
            self.line.close();
        }
        unended
    }

    /// Takes the end of the input, and with it a last line that had no line feed.
    pub(super) fn last_line(&mut self) -> Option<Outcome>
        requires { IsSound self.old }
        ensures { TakesEnd self.old result self.new }
    {
        if self.close() {
            return self.take_line();
        }
        None
    }

    /// Takes lines of the piece, up to the next item.
    pub(super) fn feed_lines(&mut self, piece: &[u8]) -> Answer
        requires sound { IsSound self.old }
        requires reading { self.old.state ≡ State.Reading }
        requires fresh { self.old.finished ≡ false }
        ensures { Advances self.old piece.now result.used (Some result.outcome) self.new }
    {
        let mut used = 0;
        loop {
            let (front, found) = self.feed_quickly(&piece[used..]);
            used += front;
            if let Some(whole) = found {
                return Answer {
                    used,
                    outcome: Outcome::Item(Item::Transaction(whole)),
                };
            }
            let taken = self.take(&piece[used..]);
            used += taken.used;
            if let LineEnd::Open = taken.ended {
                return Answer {
                    used,
                    outcome: Outcome::More,
                };
            }
            match self.enter_line() {
                Found::Added => continue,
                Found::Ends => {
                    return Answer {
                        used,
                        outcome: Outcome::Item(Item::Transaction(self.take_whole())),
                    };
                }
                Found::Nothing => {}
            }
            if let Some(outcome) = self.take_line() {
                return Answer { used, outcome };
            }
        }
    }
}
