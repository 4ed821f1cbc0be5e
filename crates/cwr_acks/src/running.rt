//! Whole runs over a text: its acknowledgements.

ghost use Rattle.std.specs.Prelude.{◌≡◌, [], OnOk, Option, None, true};
ghost use Rattle.cwr_delivery.specs.Steps.Deliveries.{Held};
ghost use Rattle.cwr_tools.specs.Format.Reports.{CountsReaderFault, CountsWriterFault, ReportsText};
ghost use Rattle.cwr_acks.specs.Format.AckLines.{IsToldSo, Matched, Telling, lines_of_acks};
ghost use Rattle.cwr_acks.specs.Steps.AckSteps.{IsKept, KeepsAnswers, LeavesHeld, ReportsAcks, held_if, lines_of_held};
ghost use Rattle.cwr_acks.specs.Format.AckLines.{telling_of};
ghost use Rattle.cwr_tools.specs.Steps.Runs.{Runs};

use crate::counts::Answers;
use crate::forms::Manner;
use crate::item_lines::lines_at;
use crate::matching::keep_item_if;
use cwr_delivery::Delivery;
use cwr_devices::{Pen, Source, Target};
use cwr_shape::Limits;
use cwr_tools::{NothingKept, Report, ToolFault, Totals, Verdict, write_report};
use cwr_values::Item;
use std::alloc::{AllocError, Global};
use std::marker::{Brand, PhantomData};

/// What is kept before a run, for clauses to name.
trait Before {
    ghost held: { Option Held };
}

impl Before for Brand {
    ghost held = { None };
}

/// The lines of acknowledgements, and nothing for the verdict.
#[derive(Drop)]
struct AnswerLines<'a, B: Before> {
    manner: Manner<'a>,
    /// What was sent, and what is kept of the acknowledgements so far.
    delivery: Option<Delivery>,
    /// How many there were.
    answers: Answers,
    /// What was kept before these.
    before: PhantomData<B>,
}

impl<B: Before> Report for AnswerLines<'_, B> {
    ghost use Rattle.std.specs.Prelude.{◌≡◌};
    ghost use Rattle.cwr_acks.specs.Format.AckLines.{telling_of};
    ghost use Rattle.cwr_acks.specs.Steps.AckSteps.{answers_of, held_after, held_if, lines_of_held};

    type Works = NothingKept;

    ghost stands = { λ report of given. (of ≡ lines_of_held (telling_of report.manner) B.held) × (held_if report.delivery ≡ held_after B.held given) × (report.answers ≡ answers_of given) };

    fn works(&self) -> NothingKept {
        NothingKept
    }

    fn passes(&self) -> bool {
        false
    }

    fn first_lines<W: Target>(&self, _: &mut Pen<'_, W>) {}

    fn item_lines<W: Target>(
        &mut self,
        _: Global,
        _: &Totals,
        item: &Item,
        pen: &mut Pen<'_, W>,
    ) -> Result<(), AllocError> {
        let notes = keep_item_if(&mut self.delivery, item)?;
        lines_at(
            &self.manner,
            &self.delivery,
            &notes,
            &self.answers,
            item,
            pen,
        );
        self.answers.count_answer(item);
        Ok(())
    }

    fn last_lines<W: Target>(&self, _: &Verdict, _: &mut Pen<'_, W>) {}
}

/// Writes what the acknowledgements of a transmission say, as `acks` does, where that is what is kept before it.
fn write_answers<B: Before, R: Source, W: Target + Drop>(
    alloc: Global,
    limits: Limits,
    manner: Manner<'_>,
    delivery: Option<Delivery>,
    reader: &mut R,
    writer: W,
) -> (W, Option<Delivery>, Answers, Result<Verdict, ToolFault>)
    requires { held_if delivery ≡ B.held }
    ensures runs { Runs (lines_of_held (telling_of manner.entry) B.held) limits R.remaining
        R.failures reader.old reader.new W.contents W.failures W.handed_on writer result.0
        result.3 }
    ensures kept { LeavesHeld B.held limits (R.remaining reader.old) (R.remaining reader.new)
        result.3 (held_if result.1) result.2 }
{
    let mut lines: AnswerLines<'_, B> = AnswerLines {
        manner,
        delivery,
        answers: Answers::new(),
        before: PhantomData,
    };
    let (writer, outcome) = write_report(&mut lines, alloc, limits, reader, writer);
    let AnswerLines {
        delivery,
        answers,
        ..
    } = lines;
    (writer, delivery, answers, outcome)
}

/// Writes what the acknowledgements of a transmission say: a line for each and one for each of its messages, or an object of JSON for
/// each; matched with what was sent, where a delivery is given. It reads the transmission up to its end or to where it is refused. Where
/// it is whole a line with their counts is last, and before that, where there is one file alone, what isn't answered. Of the verdict
/// nothing is written; it is answered. The writer comes back, with the delivery, which has taken the acknowledgements up, and how many there
/// were.
///
/// The verdict and the faults are those of a check. Where the text is refused or ends too early, the lines are those of the items
/// before. It holds one transaction and the text of one line, whatever the input, and what the delivery keeps.
pub fn acks<R: Source, W: Target + Drop>(
    alloc: Global,
    limits: Limits,
    manner: Manner<'_>,
    delivery: Option<Delivery>,
    reader: &mut R,
    writer: W,
) -> (W, Option<Delivery>, Answers, Result<Verdict, ToolFault>)
    // Of any reader, by what was read of it, and by what was sent and what was read before, where the delivery is as these leave it.
    ensures reported { ReportsAcks manner.entry delivery limits (R.remaining reader.old)
        (R.remaining reader.new) W.contents writer result.0 result.3 }
    // Of bytes that are known, in the words of the text alone.
    ensures told { (telling : Telling) (matched : Option Matched) → IsToldSo telling manner.entry
        → IsKept (held_if delivery) matched [] → ReportsText (lines_of_acks telling matched) limits
        (R.remaining reader.old) (R.remaining reader.new) W.contents writer result.0 result.3 }
    // What comes back is as the items leave it that were handed out before the verdict, or before the reader failed.
    ensures kept { KeepsAnswers delivery limits (R.remaining reader.old) (R.remaining reader.new)
        result.3 result.1 result.2 }
    // No failure is passed over: a device failed only where that is the answer.
    ensures reader_failures { CountsReaderFault result.3 (R.failures reader.old)
        (R.failures reader.new) }
    ensures writer_failures { CountsWriterFault result.3 (W.failures writer) (W.failures result.0) }
    // All that was written was handed on.
    ensures handed_on { OnOk result.3 (W.handed_on result.0 ≡ true) }
{
    write_answers::<Brand, R, W>(alloc, limits, manner, delivery, reader, writer)
}
