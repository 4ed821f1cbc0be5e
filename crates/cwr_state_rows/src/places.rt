//! Where the transactions stand that have one of some states.

ghost use Rattle.std.specs.Prelude.{◌≡◌, ◌<◌, ◌++◌, IfOk, OnOk, length};
ghost use Rattle.cwr_sent.specs.Format.SentRows.{shown_in};
ghost use Rattle.cwr_state_rows.specs.Format.StatePlaces.{place_if};
ghost use Rattle.cwr_state_rows.specs.Steps.HeldPlaces.{PlacesTold, each_place, group_places, kept_places, sent_places, transaction_places};

use crate::senders::{Collected, sort_to};
use cwr_delivery::{Delivery, wants_answer};
use cwr_sent::{AnsweringFile, KeptAnswer, Sent, SentFacts, SentGroup};
use cwr_states::{State, States};
use std::alloc::{AllocError, Global};

/// The place of a transaction: that of its group, from 1, and that in it, from 0.
type Place = (u32, u32);

/// A number of a place. No memory holds more.
fn number(number: usize) -> Result<u32, AllocError>
    ensures { IfOk result (λ n. n ≡ number) }
{
    u32::try_from(number).map_err(|_| AllocError)
}

/// Adds the place, where the state is one of these.
fn add_if(
    states: &States,
    state: State,
    place: Place,
    places: &mut Vec<Place>,
) -> Result<(), AllocError>
    ensures { OnOk result
        (places.new.items ≡ places.old.items ++ place_if states.now state place) }
{
    if states.contains(state) {
        places.push(place)?;
    }
    Ok(())
}

/// Adds the place of a transaction for each of its answers by which it has one of the states.
fn add_each(
    states: &States,
    answers: &[KeptAnswer],
    place: Place,
    places: &mut Vec<Place>,
) -> Result<(), AllocError>
    ensures { OnOk result
        (places.new.items ≡ places.old.items ++ each_place states.now place answers.now) }
{
    for answer in answers {
        add_if(states, State::of(answer.status), place, places)?;
    }
    Ok(())
}

/// Adds the place of a transaction for each of its rows that has one of the states.
fn add_rows(
    states: &States,
    answers: &[KeptAnswer],
    place: Place,
    places: &mut Vec<Place>,
) -> Result<(), AllocError>
    ensures { OnOk result
        (places.new.items ≡ places.old.items ++ kept_places states.now place answers.now) }
{
    if answers.is_empty() {
        add_if(states, State::Unanswered, place, places)
    } else {
        add_each(states, answers, place, places)
    }
}

/// Adds that of transaction `t` of group `g`.
fn add_transaction(
    states: &States,
    files: &[AnsweringFile],
    g: u32,
    group: &SentGroup,
    t: usize,
    facts: &SentFacts,
    answers: &mut Collected,
    places: &mut Vec<Place>,
) -> Result<(), AllocError>
    requires { t < length group.now.facts }
    ensures { OnOk result (places.new.items ≡ places.old.items
        ++ transaction_places states.now files.now g group.now.answers (t, facts.now)) }
{
    if !wants_answer(facts) {
        return Ok(());
    }
    sort_to(files, group, t, &mut answers.collected, &mut answers.sorted)?;
    add_rows(states, answers.sorted.as_slice(), (g, number(t)?), places)
}

/// Adds those of the transactions of group `g`.
fn add_group(
    states: &States,
    files: &[AnsweringFile],
    g: u32,
    group: &SentGroup,
    answers: &mut Collected,
    places: &mut Vec<Place>,
) -> Result<(), AllocError>
    ensures { OnOk result (places.new.items ≡ places.old.items ++ group_places states.now files.now (g, group.now)) }
{
    let count = group.len();
    let mut t: usize = 0;
    while let Some(facts) = group.facts(t) {
        prove!(t < count);
        add_transaction(states, files, g, group, t, &facts, answers, places)?;
        t += 1;
    }
    Ok(())
}

/// Adds those of the transactions of a transmission that was sent.
fn add_sent(
    states: &States,
    files: &[AnsweringFile],
    sent: &Sent,
    answers: &mut Collected,
    places: &mut Vec<Place>,
) -> Result<(), AllocError>
    ensures { OnOk result
        (places.new.items ≡ places.old.items ++ sent_places states.now files.now (shown_in sent.now)) }
{
    let mut g: usize = 0;
    for group in sent.groups() {
        g += 1;
        add_group(states, files, number(g)?, group, answers, places)?;
    }
    Ok(())
}

/// The places of the transactions of which a row has one of the states, once for each such row, in the order of rows.
pub fn places_with(
    alloc: Global,
    delivery: &Delivery,
    states: &States,
) -> Result<Vec<(u32, u32)>, AllocError>
    // Of a delivery that stands for what was sent and read, by its rows, whatever the names in them.
    ensures { IfOk result (λ places. PlacesTold delivery.now states.now places.items) }
{
    let mut answers = Collected::new(alloc);
    let mut places = Vec::new(alloc);
    for sent in delivery.sent() {
        add_sent(states, delivery.files(), sent, &mut answers, &mut places)?;
    }
    Ok(places)
}
