//! Texts that are decoded, piece by piece and whole.

use crate::checks::check_equal;
use crate::works::{TWO_GROUPS_WITH_A_FINDING, ended, largest, text_of};
use cwr_decode::{Decoder, Outcome, ReadFault, Reading, read_all};
use cwr_devices::{InMemory, Source};
use cwr_values::Item;
use cwr_worked::texts::{ONE_ACKNOWLEDGEMENT, TWO_GROUPS, WORK_OF_ELEVEN};
use std::process::Abort;
use std::test::Fail;

/// What a decoder answers, in a word.
fn word_for(outcome: &Outcome) -> &'static str {
    match outcome {
        Outcome::More => "more",
        Outcome::Item(Item::Ended) => "ended",
        Outcome::Item(_) => "item",
        Outcome::Memory => "memory",
        Outcome::Done => "done",
        _ => "fault",
    }
}

/// Feeds a decoder: how many bytes are used, and what it answers.
fn feed(decoder: &mut Decoder, left: &[u8]) -> (usize, &'static str) {
    let step = decoder.feed(left);
    (step.used, word_for(&step.outcome))
}

/// Feeds a decoder, or where nothing is left takes the end of the input.
fn call(decoder: &mut Decoder, left: &[u8]) -> (usize, &'static str) {
    if left.is_empty() {
        (0, word_for(&decoder.finish().outcome))
    } else {
        feed(decoder, left)
    }
}

/// Feeds a decoder with a text and finishes it, call by call, until no item comes: how many came, how many bytes are left, and
/// what is answered last. `None` where that is out of memory, which it stays.
fn read_by_calls(
    rt: &impl Abort,
    decoder: &mut Decoder,
    text: &[u8],
) -> Option<(usize, usize, &'static str)> {
    let mut left = text;
    let mut count: usize = 0;
    for _ in 0..100 {
        let (used, word) = call(decoder, left);
        left = left.get(used..).unwrap_or(&[]);
        match word {
            "item" | "ended" => count = count.saturating_add(1),
            "more" => {}
            "memory" => {
                let again = (feed(decoder, left), call(decoder, b""));
                check_equal(rt, again, ((0, word), (0, word)));
                return None;
            }
            _ => return Some((count, left.len(), word)),
        }
    }
    Some((count, left.len(), "items without an end"))
}

/// Feeds a decoder with the first bytes of a text and finishes it. So many items come, all is used, and the decoder is done.
fn check_calls(rt: &(impl Abort + AllocGlobal), text: &[u8], items: usize) -> Result<(), Fail> {
    let mut decoder = Decoder::new(rt.alloc(), largest());
    let answer = read_by_calls(rt, &mut decoder, text);
    ended(rt, answer, (items, 0, "done"))
}

/// Feeds a decoder with a text.
fn check_feed(rt: &(impl Abort + AllocGlobal), lines: &[&[u8]], items: usize) -> Result<(), Fail> {
    check_calls(rt, text_of(rt, lines).as_slice(), items)
}

/// Feeds a decoder with a text but for its last line feed.
fn check_finish(
    rt: &(impl Abort + AllocGlobal),
    lines: &[&[u8]],
    items: usize,
) -> Result<(), Fail> {
    let text = text_of(rt, lines);
    let cut = text.len().saturating_sub(1);
    check_calls(rt, text.get(..cut).unwrap_or(&[]), items)
}

/// Reads the next item: whether there is one. `None` where memory is refused.
fn read_item<R: Source>(rt: &impl Abort, reading: &mut Reading<'_, R>) -> Option<bool> {
    match reading.next_item() {
        Ok(item) => Some(item.is_some()),
        Err(fault) => {
            check_equal(rt, fault, ReadFault::Memory);
            None
        }
    }
}

/// Reads item by item to the end: how many items come. `None` where memory is refused, which it stays.
fn count_items<R: Source>(rt: &(impl Abort + AllocGlobal), reader: &mut R) -> Option<usize> {
    let mut reading = Reading::new(rt.alloc(), largest(), reader);
    let mut count: usize = 0;
    for _ in 0..100 {
        match read_item(rt, &mut reading) {
            Some(true) => count = count.saturating_add(1),
            Some(false) => break,
            None => {
                check_equal(rt, read_item(rt, &mut reading), None);
                return None;
            }
        }
    }
    Some(count)
}

/// Reads a transmission whole: how many groups it has. `None` where memory is refused.
fn count_groups<R: Source>(rt: &(impl Abort + AllocGlobal), reader: &mut R) -> Option<usize> {
    match read_all(rt.alloc(), largest(), reader) {
        Ok(transmission) => Some(transmission.len()),
        Err(fault) => {
            check_equal(rt, fault, ReadFault::Memory);
            None
        }
    }
}

/// Reads a text item by item, and whole: how many items and groups come. `None` where memory is refused.
fn read_twice(rt: &(impl Abort + AllocGlobal), text: &[u8]) -> Option<(usize, usize)> {
    let items = count_items(rt, &mut InMemory::new(text))?;
    let groups = count_groups(rt, &mut InMemory::new(text))?;
    Some((items, groups))
}

/// Reads a text item by item, and whole. So many items and groups come.
fn check_reading(
    rt: &(impl Abort + AllocGlobal),
    lines: &[&[u8]],
    numbers: (usize, usize),
) -> Result<(), Fail> {
    let text = text_of(rt, lines);
    ended(rt, read_twice(rt, text.as_slice()), numbers)
}

#[test]
fn feed_of_one_acknowledgement(rt: HostRuntime) -> Result<(), Fail> {
    check_feed(&rt, ONE_ACKNOWLEDGEMENT, 5)
}

#[test]
fn feed_of_a_work(rt: HostRuntime) -> Result<(), Fail> {
    check_feed(&rt, WORK_OF_ELEVEN, 5)
}

#[test]
fn feed_of_two_groups(rt: HostRuntime) -> Result<(), Fail> {
    check_feed(&rt, TWO_GROUPS, 9)
}

#[test]
fn feed_with_a_finding(rt: HostRuntime) -> Result<(), Fail> {
    check_feed(&rt, TWO_GROUPS_WITH_A_FINDING, 9)
}

#[test]
fn finish_of_one_acknowledgement(rt: HostRuntime) -> Result<(), Fail> {
    check_finish(&rt, ONE_ACKNOWLEDGEMENT, 5)
}

#[test]
fn finish_of_a_work(rt: HostRuntime) -> Result<(), Fail> {
    check_finish(&rt, WORK_OF_ELEVEN, 5)
}

#[test]
fn finish_of_two_groups(rt: HostRuntime) -> Result<(), Fail> {
    check_finish(&rt, TWO_GROUPS, 9)
}

#[test]
fn finish_with_a_finding(rt: HostRuntime) -> Result<(), Fail> {
    check_finish(&rt, TWO_GROUPS_WITH_A_FINDING, 9)
}

#[test]
fn reading_of_one_acknowledgement(rt: HostRuntime) -> Result<(), Fail> {
    check_reading(&rt, ONE_ACKNOWLEDGEMENT, (5, 1))
}

#[test]
fn reading_of_a_work(rt: HostRuntime) -> Result<(), Fail> {
    check_reading(&rt, WORK_OF_ELEVEN, (5, 1))
}

#[test]
fn reading_of_two_groups(rt: HostRuntime) -> Result<(), Fail> {
    check_reading(&rt, TWO_GROUPS, (9, 2))
}

#[test]
fn reading_with_a_finding(rt: HostRuntime) -> Result<(), Fail> {
    check_reading(&rt, TWO_GROUPS_WITH_A_FINDING, (9, 2))
}
