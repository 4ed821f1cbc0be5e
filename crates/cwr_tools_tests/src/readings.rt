//! Tests of reading worked transmissions from a reader.

ghost use Rattle.std.specs.Prelude.{◌≡◌, ◌≤◌, Some, length};

use crate::answers::answers_on;
use crate::checks::check_equal;
use crate::decoders::{LARGEST, limits_of, text_of, twice_of};
use crate::item_lines::add_item;
use cwr_decode::{ReadFault, Reading};
use cwr_devices::{DeviceFault, ReadAhead, Source};
use cwr_values::Item;
use cwr_worked::texts::{ONE_ACKNOWLEDGEMENT, TWO_GROUPS};
use std::fmt::Write;
use std::process::Abort;

/// What was read, in a word.
fn word_for(answer: &Result<Option<Item>, ReadFault>) -> &'static str {
    match answer {
        Ok(Some(Item::Opened(_))) => "opened",
        Ok(Some(Item::GroupOpened(_))) => "group opened",
        Ok(Some(Item::Transaction(_))) => "transaction",
        Ok(Some(Item::GroupClosed(_))) => "group closed",
        Ok(Some(Item::Ended)) => "ended",
        Ok(None) => "none",
        Err(ReadFault::Reader) => "reader",
        Err(ReadFault::Refused(_)) => "refused",
        Err(ReadFault::Truncated { .. }) => "truncated",
        Err(ReadFault::Memory) => "memory",
    }
}

/// What calls of a reading answer.
#[derive(Drop)]
struct Called {
    /// Each answer in a word, and a comma after it.
    words: String,
    /// The lines of the items.
    items: Vec<u8>,
    /// How often the reader failed.
    faults: u64,
}

/// Adds an answer.
fn add(rt: &impl Abort, called: &mut Called, answer: &Result<Option<Item>, ReadFault>) {
    write!(called.words, "{}, ", word_for(answer)).expect(rt, "no memory");
    match answer {
        Ok(Some(item)) => add_item(rt, &mut called.items, item),
        Err(ReadFault::Reader) => called.faults = called.faults.saturating_add(1),
        _ => {}
    }
}

/// Reads by so many calls.
fn read_items<R: Source>(rt: &(impl Abort + AllocGlobal), reader: &mut R, calls: usize) -> Called {
    let mut reading = Reading::new(rt.alloc(), limits_of(rt, LARGEST), reader);
    let mut called = Called {
        words: String::new(rt.alloc()),
        items: Vec::new(rt.alloc()),
        faults: 0,
    };
    for _ in 0..calls {
        add(rt, &mut called, &reading.next_item());
    }
    called
}

/// A reader over memory. It shows so many bytes at most. One of its calls fails, or each where nothing is left.
#[derive(Drop)]
struct Failing<'a> {
    left: &'a [u8],
    at_once: usize,
    // How many calls come before the one that fails, where that is still to come.
    until: Option<u8>,
    fails_at_end: bool,
    shown: usize,
    failures: u64,
    ghost within: { shown ≤ length left.now },
}

impl Source for Failing<'_> {
    ghost remaining = { λ reader. Some reader.left.now };

    ghost shown = { λ reader. reader.shown };

    ghost failures = { λ reader. reader.failures };

    fn fill(&mut self) -> Result<&[u8], DeviceFault> {
        self.shown = 0;
        if self.failures == u64::MAX {
            return Err(DeviceFault);
        }
        let is_at_end = self.fails_at_end && self.left.is_empty();
        if is_at_end || self.until == Some(0) {
            self.until = None;
            self.failures += 1;
            return Err(DeviceFault);
        }
        if let Some(calls) = self.until {
            self.until = calls.checked_sub(1);
        }
        let all: &[u8] = self.left;
        let count = all.len().min(self.at_once.max(1));
        self.shown = count;
        Ok(&all[..count])
    }

    fn consume(&mut self, count: usize) {
        let all: &[u8] = self.left;
        self.shown -= count;
        self.left = &all[count..];
    }
}

/// A reader over the text in pieces of a hundred bytes, whose call after so many others fails.
fn failing_once(text: &[u8], until: u8) -> Failing<'_> {
    Failing {
        left: text,
        at_once: 100,
        until: Some(until),
        fails_at_end: false,
        shown: 0,
        failures: 0,
    }
}

/// A reader over the text, which shows all that is left and fails where nothing is.
fn failing_at_end(text: &[u8]) -> Failing<'_> {
    Failing {
        left: text,
        at_once: usize::MAX,
        until: None,
        fails_at_end: true,
        shown: 0,
        failures: 0,
    }
}

/// What seven calls answer on one acknowledgement.
const ITEMS: &str = "opened, group opened, transaction, group closed, ended, none, none, ";

/// The same where the second call of the reader fails.
const AFTER_FAULT: &str = "reader, opened, group opened, transaction, group closed, ended, none, ";

/// The same where TRL is missing, and the reader fails in its place.
const BEFORE_FAULT: &str =
    "opened, group opened, transaction, group closed, reader, reader, reader, ";

/// The same where nothing is left.
const NOTHING: &str =
    "truncated, truncated, truncated, truncated, truncated, truncated, truncated, ";

/// Checks what seven calls answer.
fn check_words<R: Source>(rt: &(impl Abort + AllocGlobal), reader: &mut R, words: &str) {
    let called = read_items(rt, reader, 7);
    check_equal(rt, called.words.as_str(), words);
}

/// Reads one transmission after another: so each is answered, and then so many bytes are left, and so many calls have failed.
fn check_reader(
    rt: &(impl Abort + AllocGlobal),
    mut reader: Failing<'_>,
    answers: &[&str],
    numbers: (usize, u64),
) {
    for words in answers {
        check_words(rt, &mut reader, words);
    }
    check_equal(rt, (reader.left.len(), reader.failures), numbers);
}

#[test]
fn acknowledgements_from_readers_that_fail(rt: HostRuntime) {
    let text = twice_of(&rt, ONE_ACKNOWLEDGEMENT);
    let twice = text.as_slice();
    let once = twice.get(..359).unwrap_or(b"");
    let front = twice.get(..333).unwrap_or(b"");
    check_reader(&rt, failing_once(once, 1), &[AFTER_FAULT], (0, 1));
    check_reader(&rt, failing_at_end(twice), &[ITEMS], (359, 0));
    check_reader(&rt, failing_at_end(twice), &[ITEMS, ITEMS], (0, 0));
    check_reader(&rt, failing_at_end(front), &[BEFORE_FAULT], (0, 3));
}

#[test]
fn acknowledgements_one_after_another(rt: HostRuntime) {
    let text = twice_of(&rt, ONE_ACKNOWLEDGEMENT);
    let mut reader = ReadAhead::new(text.as_slice());
    for words in [ITEMS, ITEMS, NOTHING] {
        check_words(&rt, &mut reader, words);
    }
}

/// Reads a text by a reader whose call after so many others fails: these items come all the same.
fn check_once(rt: &(impl Abort + AllocGlobal), text: &[u8], until: u8, wanted: &[u8]) {
    let called = read_items(rt, &mut failing_once(text, until), 12);
    check_equal(
        rt,
        (until, (called.faults, called.items.as_slice())),
        (until, (1, wanted)),
    );
    assert!(rt;
        called.words.as_str().ends_with("ended, none, none, "),
        "call {until}"
    );
}

#[test]
fn each_call_of_a_reader_fails_once(rt: HostRuntime) {
    let text = text_of(&rt, TWO_GROUPS);
    let answers = answers_on(&rt, LARGEST, text.as_slice(), &[]);
    for until in 0..16 {
        check_once(&rt, text.as_slice(), until, answers.items.as_slice());
    }
}
