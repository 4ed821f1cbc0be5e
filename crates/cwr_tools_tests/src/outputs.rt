//! Outputs of a split over memory, which fail where a test wants them to.

ghost use Rattle.std.specs.Prelude.{◌≡◌, Some, map, option_map};
ghost use Rattle.cwr_devices.specs.Format.Failures.{one_more_failure};

use crate::checks::check_equal;
use crate::devices::{Bounded, WIDE, Width};
use crate::works::{Worked, text_of};
use cwr_devices::{Counted, OutputFault, Outputs};
use std::alloc::Global;
use std::process::Abort;

/// What fails of some outputs, by its number from 1.
#[derive(Clone, Copy, Debug, PartialEq, Eq)]
pub(crate) enum Mishap {
    /// Nothing does.
    Nothing,
    /// That call of `next`.
    Next(u32),
    /// That call of `done`.
    Done(u32),
    /// The writer that the call of `next` gave, after so many bytes.
    Writer(u32, usize),
}

/// Where the outputs of a split go.
#[derive(Drop)]
pub(crate) struct Shelf {
    alloc: Global,
    mishap: Mishap,
    /// How often `next` and `done` were called.
    asked: u32,
    handed_over: u32,
    /// The texts of the outputs that are done.
    texts: Vec<Vec<u8>>,
    /// What stood in the writer that was given up, if one was.
    given_up: Option<Vec<u8>>,
    failures: u64,
    failed_writers: u64,
    /// How many writers are lent.
    lent: u64,
}

impl Shelf {
    /// Nothing was asked for.
    pub(crate) fn new(alloc: Global, mishap: Mishap) -> Shelf {
        Shelf {
            alloc,
            mishap,
            asked: 0,
            handed_over: 0,
            texts: Vec::new(alloc),
            given_up: None,
            failures: 0,
            failed_writers: 0,
            lent: 0,
        }
    }

    /// How often `next` was called.
    pub(crate) fn asked(&self) -> u32 {
        self.asked
    }

    /// How many calls of `next` and `done` failed, and how many failed writers were given up.
    pub(crate) fn counts(&self) -> (u64, u64) {
        (self.failures, self.failed_writers)
    }

    /// The texts of the outputs that are done.
    pub(crate) fn texts(&self) -> &[Vec<u8>] {
        self.texts.as_slice()
    }

    /// What stood in the writer that was given up, if one was.
    pub(crate) fn given_up(&self) -> Option<&[u8]> {
        match &self.given_up {
            Some(text) => Some(text.as_slice()),
            None => None,
        }
    }

    /// What the writer of this output takes.
    fn width(&self) -> Width {
        match self.mishap {
            Mishap::Writer(number, room) if number == self.asked => Width { room, ..WIDE },
            _ => WIDE,
        }
    }

    /// Counts a failure.
    fn count_failure(&mut self) -> OutputFault
        ensures failures { self.new.failures ≡ one_more_failure self.old.failures }
        ensures failed_writers { self.new.failed_writers ≡ self.old.failed_writers }
        ensures lent { self.new.lent ≡ self.old.lent }
        ensures texts { self.new.texts ≡ self.old.texts }
    {
        self.failures = self.failures.saturating_add(1);
        OutputFault
    }
}

impl Outputs for Shelf {
    type W = Counted<Bounded>;

    ghost texts = { λ shelf. Some (map (λ text. text.items) shelf.texts.items) };

    ghost failures = { λ shelf. shelf.failures };

    ghost given_up = { λ shelf. shelf.failed_writers };

    ghost lent = { λ shelf. shelf.lent };

    ghost had = { λ shelf. option_map (λ text. text.items) shelf.given_up };

    fn next(&mut self) -> Result<Counted<Bounded>, OutputFault> {
        self.asked = self.asked.saturating_add(1);
        let full = self.failures == u64::MAX || self.lent == u64::MAX;
        if self.mishap == Mishap::Next(self.asked) || full {
            return Err(self.count_failure());
        }
        self.lent += 1;
        Ok(Counted::new(Bounded {
            text: Vec::new(self.alloc),
            width: self.width(),
        }))
    }

    fn done(&mut self, writer: Counted<Bounded>) -> Result<(), OutputFault> {
        self.handed_over = self.handed_over.saturating_add(1);
        self.lent = self.lent.saturating_sub(1);
        if self.mishap == Mishap::Done(self.handed_over) || self.failures == u64::MAX {
            return Err(self.count_failure());
        }
        match self.texts.push(writer.into_inner().text) {
            Ok(()) => Ok(()),
            Err(_) => Err(self.count_failure()),
        }
    }

    fn give_up(&mut self, writer: Counted<Bounded>) {
        if writer.failures() > 0 {
            self.failed_writers = self.failed_writers.saturating_add(1);
        }
        self.lent = self.lent.saturating_sub(1);
        self.given_up = Some(writer.into_inner().text);
    }
}

/// Checks that a text is the canonical one of this.
fn check_text(rt: &(impl Abort + AllocGlobal), text: &Vec<u8>, worked: Worked) {
    check_equal(rt, text.as_slice(), text_of(rt, worked).as_slice());
}

/// Checks that the texts are the canonical ones of these.
pub(crate) fn check_texts(rt: &(impl Abort + AllocGlobal), texts: &[Vec<u8>], wanted: &[Worked]) {
    check_equal(rt, texts.len(), wanted.len());
    for (text, worked) in texts.iter().zip(wanted) {
        check_text(rt, text, *worked);
    }
}
