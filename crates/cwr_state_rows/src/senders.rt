//! Answers in the order of their senders.

ghost use Rattle.std.specs.Prelude.{◌≡◌, ◌<◌, ◌≤◌, OnOk, length};
ghost use Rattle.cwr_state_rows.specs.Format.StateRows.{bytes_before};
ghost use Rattle.cwr_state_rows.specs.Steps.HeldRows.{kept_before, place_of, sorted_from, sorted_to};

use cwr_sent::{AnsweringFile, KeptAnswer, SentGroup, file_of};
use std::alloc::{AllocError, Global};

/// The answers to one transaction, and the same by their senders.
#[derive(Drop)]
pub(crate) struct Collected {
    pub(crate) collected: Vec<KeptAnswer>,
    pub(crate) sorted: Vec<KeptAnswer>,
}

impl Collected {
    /// None.
    pub(crate) fn new(alloc: Global) -> Collected {
        Collected {
            collected: Vec::new(alloc),
            sorted: Vec::new(alloc),
        }
    }
}

/// Whether one text stands before another as bytes.
fn bytes_before(one: &[u8], other: &[u8]) -> bool
    ensures { result ≡ bytes_before one.now other.now }
{
    let [y, ys @ ..] = other else {
        return false;
    };
    let [x, xs @ ..] = one else {
        return true;
    };
    if x == y { bytes_before(xs, ys) } else { x < y }
}

/// Whether the sender of one answer stands before that of another.
fn is_before(files: &[AnsweringFile], one: &KeptAnswer, other: &KeptAnswer) -> bool
    ensures { result ≡ kept_before files.now one.now other.now }
{
    bytes_before(&file_of(files, one).sender, &file_of(files, other).sender)
}

/// How many of the answers stand before another.
fn place_of(files: &[AnsweringFile], new: &KeptAnswer, sorted: &[KeptAnswer]) -> usize
    ensures value { result ≡ place_of files.now new.now sorted.now }
    ensures within { result ≤ length sorted.now }
{
    let mut place = 0;
    while place < sorted.len() && !is_before(files, new, &sorted[place]) {
        place += 1;
    }
    place
}

/// Puts answers, the last one first, into a list by their senders.
fn sort_answers(
    files: &[AnsweringFile],
    answers: &[KeptAnswer],
    sorted: &mut Vec<KeptAnswer>,
) -> Result<(), AllocError>
    ensures { OnOk result (sorted.new.items ≡ sorted_from files.now answers.now) }
{
    sorted.clear();
    for answer in answers {
        let place = place_of(files, answer, sorted.as_slice());
        sorted.insert(place, *answer)?;
    }
    Ok(())
}

/// Puts the answers to transaction `t` of a group into a list by their senders. They are collected in another one.
pub(crate) fn sort_to(
    files: &[AnsweringFile],
    group: &SentGroup,
    t: usize,
    collected: &mut Vec<KeptAnswer>,
    sorted: &mut Vec<KeptAnswer>,
) -> Result<(), AllocError>
    requires { t < length group.now.facts }
    ensures { OnOk result (sorted.new.items ≡ sorted_to files.now t group.now.answers) }
{
    collected.clear();
    group.collect(t, collected)?;
    sort_answers(files, collected.as_slice(), sorted)
}
