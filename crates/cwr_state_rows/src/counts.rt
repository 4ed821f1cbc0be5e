//! How many transactions were sent, and how many rows have each state.

ghost use Rattle.std.specs.Prelude.{◌≡◌, ◌+◌, ◌<◌, ◌≤◌, IfOk, List, OnOk, fold, length, ℕ};
ghost use Rattle.std.specs.List.{enumerate_from};
ghost use Rattle.cwr_devices.specs.Steps.Pens.{Adds};
ghost use Rattle.cwr_devices.specs.Steps.Sinks.{PutsText};
ghost use Rattle.cwr_sent.specs.Format.SentRows.{shown_in};
ghost use Rattle.cwr_delivery.specs.Steps.Deliveries.{held_in};
ghost use Rattle.cwr_state_rows.specs.Format.StateCounts.{first_counts, has_any, is_there, last_counts, named, state_line, tally_counts};
ghost use Rattle.cwr_state_rows.specs.Steps.HeldRows.{counts_by, counts_with, counts_with_answers, counts_with_group, counts_with_one, counts_with_sent, no_counts, one_more};
ghost use Rattle.cwr_state_rows.specs.Steps.PutRows.{CountsHeld, CountsTold};

use crate::senders::{Collected, sort_to};
use cwr_delivery::{Delivery, Tally, wants_answer};
use cwr_devices::{Pen, Sink, SinkFault, Target};
use cwr_sent::{AnsweringFile, KeptAnswer, Sent, SentFacts, SentGroup};
use cwr_states::{State, States};
use std::alloc::{AllocError, Global};

/// How many transactions were sent, but for acknowledgements, and how many rows have each state. Each number stays at `u64::MAX`.
#[derive(Clone, Copy, Debug, PartialEq, Eq)]
pub struct Counts {
    /// The transactions that were sent.
    pub sent: u64,
    /// The rows of those that are registered.
    pub accepted: u64,
    /// Of those that are accepted for processing.
    pub pending: u64,
    /// Of those that are rejected.
    pub rejected: u64,
    /// Of those with a conflict.
    pub conflict: u64,
    /// Of those that were sent before.
    pub duplicate: u64,
    /// Of those of which the claim is rejected.
    pub claim_rejected: u64,
    /// Of those without participation.
    pub no_participation: u64,
    /// Of those that nobody answers.
    pub unanswered: u64,
}

/// One more.
fn one_more(number: u64) -> u64
    ensures { result ≡ one_more number }
{
    number.saturating_add(1)
}

/// Whether a state that is wanted has rows.
fn is_there(wanted: bool, rows: u64) -> bool
    ensures { result ≡ is_there wanted rows }
{
    wanted && rows > 0
}

impl Counts {
    /// None.
    fn none() -> Counts
        ensures { result ≡ no_counts }
    {
        Counts {
            sent: 0,
            accepted: 0,
            pending: 0,
            rejected: 0,
            conflict: 0,
            duplicate: 0,
            claim_rejected: 0,
            no_participation: 0,
            unanswered: 0,
        }
    }

    /// With a row of that state more.
    fn with(self, state: State) -> Counts
        ensures { result ≡ counts_with self state }
    {
        match state {
            State::Accepted => Counts {
                accepted: one_more(self.accepted),
                ..self
            },
            State::Pending => Counts {
                pending: one_more(self.pending),
                ..self
            },
            State::Rejected => Counts {
                rejected: one_more(self.rejected),
                ..self
            },
            State::Conflict => Counts {
                conflict: one_more(self.conflict),
                ..self
            },
            State::Duplicate => Counts {
                duplicate: one_more(self.duplicate),
                ..self
            },
            State::ClaimRejected => Counts {
                claim_rejected: one_more(self.claim_rejected),
                ..self
            },
            State::NoParticipation => Counts {
                no_participation: one_more(self.no_participation),
                ..self
            },
            State::Unanswered => Counts {
                unanswered: one_more(self.unanswered),
                ..self
            },
        }
    }

    /// With the rows of these answers more.
    fn with_each(self, answers: &[KeptAnswer]) -> Counts
        ensures { result ≡ counts_by self answers.now }
    {
        let mut counts = self;
        for answer in answers {
            counts = counts.with(State::of(answer.status));
        }
        counts
    }

    /// With the rows of a transaction more that has these answers.
    fn with_answers(self, answers: &[KeptAnswer]) -> Counts
        ensures { result ≡ counts_with_answers self answers.now }
    {
        if answers.is_empty() {
            self.with(State::Unanswered)
        } else {
            self.with_each(answers)
        }
    }

    /// With a transaction more.
    fn with_sent(self) -> Counts
        ensures { result ≡ record self { sent = one_more self.sent } }
    {
        Counts {
            sent: one_more(self.sent),
            ..self
        }
    }

    /// Whether a row has one of these states.
    pub fn has_any(&self, states: &States) -> bool
        ensures { result ≡ has_any self.now states.now }
    {
        is_there(states.contains(State::Accepted), self.accepted)
            || is_there(states.contains(State::Pending), self.pending)
            || is_there(states.contains(State::Rejected), self.rejected)
            || is_there(states.contains(State::Conflict), self.conflict)
            || is_there(states.contains(State::Duplicate), self.duplicate)
            || is_there(states.contains(State::ClaimRejected), self.claim_rejected)
            || is_there(
                states.contains(State::NoParticipation),
                self.no_participation,
            )
            || is_there(states.contains(State::Unanswered), self.unanswered)
    }
}

/// Counts transaction `t` of a group, with its rows.
fn count_transaction(
    files: &[AnsweringFile],
    group: &SentGroup,
    t: usize,
    facts: &SentFacts,
    answers: &mut Collected,
    counts: Counts,
) -> Result<Counts, AllocError>
    requires { t < length group.now.facts }
    ensures { IfOk result (λ c. c ≡ counts_with_one files.now group.now.answers counts (t, facts.now)) }
{
    if !wants_answer(facts) {
        return Ok(counts);
    }
    sort_to(files, group, t, &mut answers.collected, &mut answers.sorted)?;
    Ok(counts.with_sent().with_answers(answers.sorted.as_slice()))
}

/// Counts the transactions of a group.
fn count_group(
    files: &[AnsweringFile],
    group: &SentGroup,
    answers: &mut Collected,
    counts: Counts,
) -> Result<Counts, AllocError>
    ensures { IfOk result (λ c. c ≡ counts_with_group files.now counts group.now) }
{
    let mut so_far = counts;
    let count = group.len();
    let mut t: usize = 0;
    while let Some(facts) = group.facts(t) {
        prove!(t < count);
        so_far = count_transaction(files, group, t, &facts, answers, so_far)?;
        t += 1;
    }
    Ok(so_far)
}

/// Counts the transactions of a transmission that was sent.
fn count_sent(
    files: &[AnsweringFile],
    sent: &Sent,
    answers: &mut Collected,
    counts: Counts,
) -> Result<Counts, AllocError>
    ensures { IfOk result (λ c. c ≡ counts_with_sent files.now counts (shown_in sent.now)) }
{
    let mut so_far = counts;
    for group in sent.groups() {
        so_far = count_group(files, group, answers, so_far)?;
    }
    Ok(so_far)
}

/// How many transactions were sent, and how many rows have each state.
pub fn count_rows(alloc: Global, delivery: &Delivery) -> Result<Counts, AllocError>
    // Of a delivery that stands for what was sent and read, by its rows, whatever the names in them.
    ensures told { IfOk result (CountsTold delivery.now) }
    // Of any delivery, by what that keeps.
    ensures held { IfOk result (CountsHeld delivery.now) }
{
    let mut answers = Collected::new(alloc);
    let mut so_far = Counts::none();
    for sent in delivery.sent() {
        so_far = count_sent(delivery.files(), sent, &mut answers, so_far)?;
    }
    Ok(so_far)
}

/// Adds a number after its name.
fn named<W: Target>(name: &[u8], number: u64, pen: &mut Pen<'_, W>)
    ensures { Adds W.contents W.failures (named name.now number) pen.old pen.new }
{
    pen.text(b" ");
    pen.text(name);
    pen.text(b" ");
    pen.number(number);
}

/// Adds the first counts.
fn first_counts<W: Target>(counts: &Counts, pen: &mut Pen<'_, W>)
    ensures { Adds W.contents W.failures (first_counts counts.now) pen.old pen.new }
{
    pen.text(b"STATE");
    named(b"sent", counts.sent, pen);
    named(b"accepted", counts.accepted, pen);
    named(b"pending", counts.pending, pen);
    named(b"rejected", counts.rejected, pen);
    named(b"conflict", counts.conflict, pen);
}

/// Adds the others.
fn last_counts<W: Target>(counts: &Counts, pen: &mut Pen<'_, W>)
    ensures { Adds W.contents W.failures (last_counts counts.now) pen.old pen.new }
{
    named(b"duplicate", counts.duplicate, pen);
    named(b"claim-rejected", counts.claim_rejected, pen);
    named(b"no-participation", counts.no_participation, pen);
    named(b"unanswered", counts.unanswered, pen);
}

/// Adds how many acknowledgements answer nothing, and how many have no key.
fn tally_counts<W: Target>(tally: &Tally, pen: &mut Pen<'_, W>)
    ensures { Adds W.contents W.failures (tally_counts tally.now) pen.old pen.new }
{
    named(b"unsent", tally.unsent, pen);
    named(b"unclear", tally.unclear, pen);
    named(b"unkeyed", tally.unkeyed, pen);
    pen.text(b"\n");
}

/// Adds the line of counts.
fn state_line<W: Target>(counts: &Counts, tally: &Tally, pen: &mut Pen<'_, W>)
    ensures { Adds W.contents W.failures (state_line counts.now tally.now) pen.old pen.new }
{
    first_counts(counts, pen);
    last_counts(counts, pen);
    tally_counts(tally, pen);
}

/// Puts the line of counts: of rows, and of acknowledgements that answer nothing or have no key.
pub fn put_state_line<W: Target>(
    counts: &Counts,
    tally: &Tally,
    sink: &mut Sink<W>,
) -> Result<(), SinkFault>
    ensures { PutsText W.contents W.failures (state_line counts.now tally.now) result sink.old sink.new }
{
    let mut pen = Pen::new(sink);
    state_line(counts, tally, &mut pen);
    pen.end()
}
