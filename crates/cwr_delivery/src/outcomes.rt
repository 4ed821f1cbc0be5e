//! What an acknowledgement answers of what was sent.

ghost use Rattle.std.specs.Prelude.{◌≡◌, ◌<◌, ◌++◌, length, map, true};
ghost use Rattle.cwr_sent.specs.Format.SentRows.{content_in};
ghost use Rattle.cwr_delivery.specs.Format.Acknowledgements.{is_ack};
ghost use Rattle.cwr_delivery.specs.Format.Answering.{agreeing_of, agrees, agrees_number, agrees_type, differing, has_key, is_candidate, named_created, named_in, outcome_of, standing_in, wants_answer};
ghost use Rattle.cwr_delivery.specs.Format.Told.{are_different, is_retitled, is_unkeyed};
ghost use Rattle.cwr_delivery.specs.Steps.Outcomes.{few_with, few_with_found, outcome_few};

use crate::acknowledgements::{
    CREATION_DATE, CREATION_TIME, ORIGINAL_TYPE, SUBMITTER_NUMBER, group_of, named_check,
    sequence_of,
};
use cwr_fields::{Kind, is_spaces, letters, trimmed};
use cwr_findings::{cell, number_of};
use cwr_lines::RecordRef;
use cwr_sent::{Created, Sent, SentFacts, small_number};

/// What an acknowledgement answers of what was sent, or why it answers nothing.
#[derive(Clone, Copy, Debug)]
pub enum Outcome {
    /// The transaction at its place in the transmission of that number, from 0, and what is kept of that.
    Answers { sent: usize, facts: SentFacts },
    /// There is none at its place that it agrees with, in no transmission that it may answer.
    Unsent,
    /// It agrees with transactions of more than one transmission.
    Unclear,
    /// The only transaction at its place is of that other kind.
    Retyped(Kind),
    /// The only transaction at its place has that other number of its submitter's.
    Renumbered([u8; 14]),
}

/// What is told of an acknowledgement beside what it says, where it is matched with what was sent.
#[derive(Clone, Copy, Debug)]
pub struct Notes {
    /// It doesn't say when the transmission was created that it answers.
    pub unkeyed: bool,
    /// What it answers.
    pub outcome: Outcome,
    /// That has another title.
    pub retitled: bool,
    /// Its sender answered that before.
    pub again: bool,
}

/// Whether an acknowledgement says when the transmission was created that it answers.
fn has_key(head: &RecordRef<'_>) -> bool
    requires { is_ack head.now ≡ true }
    ensures { result ≡ has_key head.now }
{
    number_of(cell(head, CREATION_DATE)) != 0 && !is_spaces(cell(head, CREATION_TIME))
}

/// Whether it doesn't say that where it is looked at.
pub(crate) fn is_unkeyed(by_place: bool, head: &RecordRef<'_>) -> bool
    requires { is_ack head.now ≡ true }
    ensures { result ≡ is_unkeyed by_place head.now }
{
    !by_place && !has_key(head)
}

/// When that was, as it says.
fn named_created(head: &RecordRef<'_>) -> Created
    requires { is_ack head.now ≡ true }
    ensures { result ≡ named_created head.now }
{
    Created {
        date: small_number(cell(head, CREATION_DATE)),
        time: small_number(cell(head, CREATION_TIME)),
    }
}

/// Whether it may answer a transmission that was created then.
fn is_candidate(by_place: bool, head: &RecordRef<'_>, created: &Created) -> bool
    requires { is_ack head.now ≡ true }
    ensures { result ≡ is_candidate by_place head.now created.now }
{
    if by_place || !has_key(head) {
        return true;
    }
    let named = named_created(head);
    named.date == created.date && named.time == created.time
}

/// Whether a transaction that was sent wants an answer: no acknowledgement does.
pub fn wants_answer(facts: &SentFacts) -> bool
    ensures { result ≡ wants_answer facts.now }
{
    facts.kind != Kind::Ack
}

/// What is kept of the transaction at the place that an acknowledgement names.
fn named_in(sent: &Sent, head: &RecordRef<'_>) -> Option<SentFacts>
    requires { is_ack head.now ≡ true }
    ensures { result ≡ named_in (content_in sent.now) head.now }
{
    let group = group_of(head);
    if group == 0 {
        return None;
    }
    let facts = sent.facts(group - 1, sequence_of(head))?;
    if wants_answer(&facts) {
        Some(facts)
    } else {
        None
    }
}

/// The same of a transmission that it may answer.
fn standing_in(by_place: bool, head: &RecordRef<'_>, sent: &Sent) -> Option<SentFacts>
    requires { is_ack head.now ≡ true }
    ensures { result ≡ standing_in by_place head.now (content_in sent.now) }
{
    if !is_candidate(by_place, head, &sent.created()) {
        return None;
    }
    named_in(sent, head)
}

/// Whether it names the type of a transaction.
fn agrees_type(head: &RecordRef<'_>, facts: &SentFacts) -> bool
    requires { is_ack head.now ≡ true }
    ensures { result ≡ agrees_type head.now facts.now }
{
    letters(facts.kind) == cell(head, ORIGINAL_TYPE)
}

/// Whether it names the number that the submitter gave a transaction, or one of the two is blank.
fn agrees_number(head: &RecordRef<'_>, facts: &SentFacts) -> bool
    requires { is_ack head.now ≡ true }
    ensures { result ≡ agrees_number head.now facts.now }
{
    let named = cell(head, SUBMITTER_NUMBER);
    is_spaces(&facts.number) || is_spaces(named) || trimmed(&facts.number) == trimmed(named)
}

/// Whether it agrees with a transaction.
fn agrees(head: &RecordRef<'_>, facts: &SentFacts) -> bool
    requires { is_ack head.now ≡ true }
    ensures { result ≡ agrees head.now facts.now }
{
    agrees_type(head, facts) && agrees_number(head, facts)
}

/// In what it differs from a transaction.
fn differing(head: &RecordRef<'_>, facts: &SentFacts) -> Outcome
    requires { is_ack head.now ≡ true }
    ensures { result ≡ differing head.now facts.now }
{
    if agrees_type(head, facts) {
        Outcome::Renumbered(facts.number)
    } else {
        Outcome::Retyped(facts.kind)
    }
}

/// How many transactions were found: none, the one in the transmission of that number, or several.
#[derive(Clone, Copy, Debug)]
enum Few {
    Nothing,
    One { sent: usize, facts: SentFacts },
    Several,
}

impl Few {
    /// With what was found in a transmission more.
    fn with_found(self, sent: usize, found: Option<SentFacts>) -> Self
        ensures { result ≡ few_with_found self sent found }
    {
        match found {
            Some(facts) => self.with(sent, facts),
            None => self,
        }
    }

    /// With one more.
    fn with(self, sent: usize, facts: SentFacts) -> Self
        ensures { result ≡ few_with self sent facts }
    {
        match self {
            Few::Nothing => Few::One { sent, facts },
            Few::One { .. } | Few::Several => Few::Several,
        }
    }
}

/// The transaction that was found, where an acknowledgement agrees with it.
fn agreeing_of(head: &RecordRef<'_>, found: Option<SentFacts>) -> Option<SentFacts>
    requires { is_ack head.now ≡ true }
    ensures { result ≡ agreeing_of head.now found }
{
    match found {
        Some(facts) if agrees(head, &facts) => Some(facts),
        _ => None,
    }
}

/// What an acknowledgement answers that agrees with so many transactions, of so many at its place.
fn outcome_few(agreeing: Few, standing: Few, head: &RecordRef<'_>) -> Outcome
    requires { is_ack head.now ≡ true }
    ensures { result ≡ outcome_few agreeing standing head.now }
{
    match (agreeing, standing) {
        (Few::One { sent, facts }, _) => Outcome::Answers { sent, facts },
        (Few::Several, _) => Outcome::Unclear,
        (Few::Nothing, Few::One { facts, .. }) => differing(head, &facts),
        (Few::Nothing, _) => Outcome::Unsent,
    }
}

/// What an acknowledgement answers of what was sent.
pub(crate) fn outcome_of(by_place: bool, sent: &[Sent], head: &RecordRef<'_>) -> Outcome
    requires { is_ack head.now ≡ true }
    ensures { result ≡ outcome_of by_place (map content_in sent.now) head.now }
{
    let mut agreeing = Few::Nothing;
    let mut standing = Few::Nothing;
    for i in 0..sent.len() {
        let found = standing_in(by_place, head, &sent[i]);
        standing = standing.with_found(i, found);
        agreeing = agreeing.with_found(i, agreeing_of(head, found));
    }
    outcome_few(agreeing, standing, head)
}

/// Whether two checks are of different titles, neither of which is blank.
fn are_different(one: u32, other: u32) -> bool
    ensures { result ≡ are_different one other }
{
    one != 0 && other != 0 && one != other
}

/// Whether an acknowledgement names another title than the transaction that it answers has.
pub(crate) fn is_retitled(outcome: &Outcome, head: &RecordRef<'_>) -> bool
    requires { is_ack head.now ≡ true }
    ensures { result ≡ is_retitled outcome.now head.now }
{
    match outcome {
        Outcome::Answers { facts, .. } => are_different(facts.title, named_check(head)),
        _ => false,
    }
}
