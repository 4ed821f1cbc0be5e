//! The record that waits, and what is answered without a further byte.

ghost use Rattle.std.specs.Prelude.{◌≡◌, None, IsTrue, IsFalse, IfSome};
ghost use Rattle.cwr_lines.specs.Steps.Held.{held_record};
ghost use Rattle.cwr_decode.specs.Steps.Machines.{EntersHeld, HasRecord, FitsHeld, FitsWaiting, IsReady, Settles};

use super::holding::add_accepted;
use super::{Machine, State};
use crate::outcomes::Outcome;
use cwr_fields::is_in_transaction;

impl Machine {
    /// Enters the record that waits, which was judged when its line came.
    fn enter(&mut self) -> Option<Outcome>
        requires carries { HasRecord self.old.line }
        requires fits { IfSome (held_record self.old.line) (λ r. FitsHeld self.old.tally.stage r self.old.held) }
        ensures { EntersHeld (held_record self.old.line) self.old result self.new }
    {
        let accepted = self.line.cut().known_record();
        let outcome = add_accepted(self.alloc, &mut self.held, accepted, self.tally.stage());
        self.finish_record(outcome)
    }

    /// Enters the record that waits, where it stands inside a transaction and memory is found. Else nothing changes.
    fn begin_waiting(&mut self) -> bool
        requires carries { HasRecord self.old.line }
        requires fits { IfSome (held_record self.old.line) (λ r. FitsHeld self.old.tally.stage r self.old.held) }
        ensures entered { IsTrue result
            → EntersHeld (held_record self.old.line) self.old None self.new }
        ensures kept { IsFalse result → self.new ≡ self.old }
    {
        let accepted = self.line.cut().known_record();
        if !is_in_transaction(accepted.kind()) {
            return false;
        }
        match self.held.add(self.alloc, accepted, self.tally.stage()) {
            Ok(()) => {
                self.begin_line();
                true
            }
            Err(_) => false,
        }
    }

    /// Settles what needs no further byte and no answer, and says whether a byte is needed now. A no says nothing, and
    /// then nothing changes.
    #[inline(always)]
    pub fn is_settled(&mut self) -> bool
        requires ready { IsReady self.old.state self.old.finished self.old.line }
        requires fits { FitsWaiting self.old }
        ensures settled { IsTrue result → Settles self.old.state self.old None self.new }
        ensures kept { IsFalse result → self.new ≡ self.old }
    {
        match self.state {
            State::Reading => true,
            State::Pending => self.begin_waiting(),
            _ => false,
        }
    }

    /// What is answered without a further byte. `None` where one is needed.
    pub(super) fn settle(&mut self) -> Option<Outcome>
        requires ready { IsReady self.old.state self.old.finished self.old.line }
        requires fits { FitsWaiting self.old }
        ensures { Settles self.old.state self.old result self.new }
    {
        match self.state {
            State::Reading => None,
            State::Pending => self.enter(),
            State::Ended => Some(Outcome::Done),
            State::Refused(refusal) => Some(Outcome::Refused(refusal)),
            State::Truncated(records) => Some(Outcome::Truncated { records }),
            State::Memory => Some(Outcome::Memory),
        }
    }
}
