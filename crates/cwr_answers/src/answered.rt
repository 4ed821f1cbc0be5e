//! What became of the transactions of a transmission, by acknowledgements of it.

ghost use Rattle.std.specs.Prelude.{◌≡◌, IfOk, List, None, OnOk, Option, Some, [], map, ℕ};
ghost use Rattle.cwr_values.specs.Format.Values.{TransmissionValue};
ghost use Rattle.cwr_sent.specs.Format.SentFacts.{content_of};
ghost use Rattle.cwr_sent.specs.Format.SentRows.{IsFresh, content_in};
ghost use Rattle.cwr_acks.specs.Format.AckLines.{Matched};
ghost use Rattle.cwr_acks.specs.Steps.AckSteps.{IsKept, held_if};
ghost use Rattle.cwr_files.specs.Format.Inputs.{IsThereOrRead};
ghost use Rattle.cwr_files.specs.Steps.Inputs.{remaining_of};
ghost use Rattle.cwr_answers.specs.Format.Answered.{AreAnswered, IsAcceptedAt};
ghost use Rattle.cwr_answers.specs.Steps.Seeking.{ReadsEach, ReadsIfGood, judged_by};

use crate::answers::tell_named;
use cwr_acks::{Form, Manner, acks};
use cwr_delivery::{Delivery, Tally};
use cwr_devices::{Counted, ReadAhead};
use cwr_endings::{
    Judgement, Look, Status, Wanted, judgement_of, look_after, tell_following, tell_unanswering,
};
use cwr_files::{Fault, Input, Name, Pace, Store, Told, end_input, open_input};
use cwr_sent::{Sent, read_sent};
use cwr_shape::Limits;
use cwr_state_rows::places_with;
use cwr_states::States;
use cwr_tools::{ToolFault, Verdict, verdict_of};
use std::alloc::Global;
use std::io;
use std::io::{Read, Write};

/// Acknowledgements of one transmission, and what is sought by them.
#[derive(Clone, Copy, Debug)]
pub struct Answered<'t, 'a> {
    pub alloc: Global,
    pub limits: Limits,
    /// Nothing may follow a transmission.
    pub whole: bool,
    /// The name of the file of the transmission that they answer.
    pub sent: &'a str,
    /// The names of their files.
    pub files: &'t [&'a str],
    /// They are matched by the place that they name alone.
    pub by_place: bool,
    /// Those transactions are sought that have one of these states.
    pub states: States,
}

/// Why nothing is sought.
#[derive(Clone, Copy, Debug, PartialEq, Eq)]
pub enum Unsought<'a> {
    /// A transmission isn't good. Standard error says which, and how.
    Refused,
    Fault(Fault<'a>),
}

/// Why nothing is sought where an input failed so.
fn unsought_by<'a>(fault: ToolFault, told: Told<'a>) -> Unsought<'a> {
    match fault {
        ToolFault::Reader => Unsought::Fault(Fault::Read(told)),
        _ => Unsought::Fault(Fault::Memory),
    }
}

/// What was sent.
fn read_what_was_sent<'a, S: Store, I: Read + Drop, P: Pace, E: Write>(
    store: &mut S,
    answered: &Answered<'_, 'a>,
    standard: &mut Option<I>,
    pace: &mut P,
    error: &mut E,
) -> Result<Sent, Unsought<'a>>
    ensures sent { IfOk result (λ sent. IsFresh sent × ((input : I) → IsThereOrRead input standard.old → (v : TransmissionValue)
        × IsAcceptedAt answered.now.limits (S.held store.old) (I.remaining input) answered.now.sent.now v × (content_in sent ≡ content_of v))) }
    ensures failures { OnOk result (S.failures store.new ≡ S.failures store.old) }
    ensures kept { S.held store.new ≡ S.held store.old }
    ensures making { S.making store.new ≡ S.making store.old }
    ensures standard { (input : I) → IsThereOrRead input standard.old → IsThereOrRead input standard.new }
{
    let input = match open_input(store, Some(answered.sent), standard, &mut *pace) {
        Ok(input) => input,
        Err(fault) => return Err(Unsought::Fault(fault)),
    };
    let mut reader = ReadAhead::new(input);
    let read = read_sent(answered.alloc, answered.limits, &mut reader);
    let told: Told<'a> = end_input(store, reader);
    match read {
        Ok(sent) => Ok(sent),
        Err(fault) => match verdict_of(fault) {
            Ok(verdict) => {
                tell_named(error, told.name, &verdict);
                Err(Unsought::Refused)
            }
            Err(fault) => Err(unsought_by(fault, told)),
        },
    }
}

/// How a transmission of acknowledgements is judged. It fails where its input does after it.
fn judged(
    whole: bool,
    outcome: Result<Verdict, ToolFault>,
    look: Look,
) -> Result<Judgement, ToolFault>
    ensures { result ≡ judged_by whole outcome look }
{
    let wanted = Wanted {
        whole,
        fail_on: None,
    };
    match look {
        Look::Failed => Err(ToolFault::Reader),
        look => judgement_of(wanted, outcome, look, false),
    }
}

/// Reads a transmission of acknowledgements. The delivery comes back. The last answer is how many there are.
fn read_answers<'a, S: Store, I: Read + Drop, P: Pace + Drop>(
    store: &mut S,
    answered: &Answered<'_, 'a>,
    delivery: Option<Delivery>,
    input: Input<'a, S::Reader, I, P>,
) -> (
    Option<Delivery>,
    Result<Judgement, ToolFault>,
    Told<'a>,
    u64,
)
    ensures answers { (matched : Option Matched) → IsKept (held_if delivery) matched []
        → ReadsIfGood answered.now.limits (remaining_of S.Reader.remaining I.remaining input.entry) matched (held_if result.0) result.1 }
    ensures failures { OnOk result.1 (S.failures store.new ≡ S.failures store.old) }
    ensures kept { S.held store.new ≡ S.held store.old }
    ensures making { S.making store.new ≡ S.making store.old }
{
    let mut reader = ReadAhead::new(input);
    let manner = Manner {
        form: Form::Words(cwr_acks::Cells::Bytes),
        statuses: &[],
        file: None,
        names: &[],
    };
    let (_, delivery, more, outcome) = acks(
        answered.alloc,
        answered.limits,
        manner,
        delivery,
        &mut reader,
        Counted::new(io::sink()),
    );
    let look = look_after(&mut reader, &outcome);
    let told = end_input(store, reader);
    let judged = judged(answered.whole, outcome, look);
    (delivery, judged, told, more.all)
}

/// Reads the transmissions of acknowledgements of all files, one after another. The delivery comes back.
fn read_each<'a, S: Store, I: Read + Drop, P: Pace, E: Write>(
    store: &mut S,
    answered: &Answered<'_, 'a>,
    delivery: Option<Delivery>,
    standard: &mut Option<I>,
    pace: &mut P,
    error: &mut E,
) -> Result<Option<Delivery>, Unsought<'a>>
    ensures answers { (input : I) → IsThereOrRead input standard.old → (matched : Option Matched) → IsKept (held_if delivery) matched []
        → IfOk result (λ left. ReadsEach answered.now.limits (S.held store.old) (I.remaining input)
        (map (λ name. name.now) answered.now.files.now) matched (held_if left)) }
    ensures failures { OnOk result (S.failures store.new ≡ S.failures store.old) }
    ensures kept { S.held store.new ≡ S.held store.old }
    ensures making { S.making store.new ≡ S.making store.old }
    ensures standard { (input : I) → IsThereOrRead input standard.old → IsThereOrRead input standard.new }
{
    let mut delivery = delivery;
    for name in answered.files {
        let input = match open_input(store, Some(*name), standard, &mut *pace) {
            Ok(input) => input,
            Err(fault) => return Err(Unsought::Fault(fault)),
        };
        let (after, read, told, count) = read_answers(store, answered, delivery, input);
        delivery = after;
        let judgement = match read {
            Ok(judgement) => judgement,
            Err(fault) => return Err(unsought_by(fault, told)),
        };
        match judgement.status {
            Status::Good => {
                tell_following(error, told.name, &judgement.look);
                tell_unanswering(error, told.name, &judgement, count, false);
            }
            _ => {
                tell_named(error, told.name, &judgement.verdict);
                tell_following(error, told.name, &judgement.look);
                return Err(Unsought::Refused);
            }
        }
    }
    Ok(delivery)
}

/// Tells on standard error how many acknowledgements answer no transaction of what was sent, agree with several, or have no key, where any do.
/// What standard error doesn't take is lost.
fn tell_unsent<E: Write>(error: &mut E, sent: &str, tally: Tally) {
    if tally.unsent == 0 && tally.unclear == 0 && tally.unkeyed == 0 {
        return;
    }
    let _ = writeln!(
        error,
        "cwr: {}: acknowledgements that answer none of its transactions: unsent {} unclear {} unkeyed {}",
        Name::File(sent),
        tally.unsent,
        tally.unclear,
        tally.unkeyed
    );
}

/// The places of the transactions that have one of the states that are sought: that of the group, from 1, and that in it, from 0. What was
/// sent and each transmission of acknowledgements is good; else nothing is sought, and standard error says which isn't.
pub fn answered_places<'a, S: Store, I: Read + Drop, P: Pace, E: Write>(
    store: &mut S,
    answered: &Answered<'_, 'a>,
    standard: &mut Option<I>,
    pace: &mut P,
    error: &mut E,
) -> Result<Vec<(u32, u32)>, Unsought<'a>>
    ensures places { (input : I) → IsThereOrRead input standard.old → IfOk result (λ places. AreAnswered answered.now.limits
        answered.now.by_place answered.now.states (S.held store.old) (I.remaining input) answered.now.sent.now
        (map (λ name. name.now) answered.now.files.now) places.items) }
    ensures failures { OnOk result (S.failures store.new ≡ S.failures store.old) }
    ensures kept { S.held store.new ≡ S.held store.old }
    ensures making { S.making store.new ≡ S.making store.old }
    // Standard input is there, or was read.
    ensures standard { (input : I) → IsThereOrRead input standard.old → IsThereOrRead input standard.new }
{
    let sent = read_what_was_sent(store, answered, standard, &mut *pace, &mut *error)?;
    let Ok(mut delivery) = Delivery::new(answered.alloc, answered.by_place) else {
        return Err(Unsought::Fault(Fault::Memory));
    };
    let Ok(()) = delivery.add(sent) else {
        return Err(Unsought::Fault(Fault::Memory));
    };
    let Some(delivery) = read_each(
        store,
        answered,
        Some(delivery),
        standard,
        &mut *pace,
        &mut *error,
    )?
    else {
        return Err(Unsought::Fault(Fault::Memory));
    };
    tell_unsent(error, answered.sent, delivery.tally());
    match places_with(answered.alloc, &delivery, &answered.states) {
        Ok(places) => Ok(places),
        Err(_) => Err(Unsought::Fault(Fault::Memory)),
    }
}
