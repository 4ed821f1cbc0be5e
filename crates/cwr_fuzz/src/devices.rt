//! Readers and writers over memory.

ghost use Rattle.std.specs.Prelude.{◌≡◌, ◌≤◌, None, Some, length};

use cwr_devices::{Counted, DeviceFault, OutputFault, Outputs, Source};
use std::alloc::Global;
use std::io::{self, Write};

/// A reader that shows its text in pieces of these sizes, in turn, and from the first again.
#[derive(Drop)]
pub struct Pieces<'a> {
    left: &'a [u8],
    sizes: &'a [usize],
    turn: usize,
    shown: usize,
    ghost within: { shown ≤ length left.now },
}

impl<'a> Pieces<'a> {
    /// Before its first piece.
    pub fn new(text: &'a [u8], sizes: &'a [usize]) -> Pieces<'a> {
        Pieces {
            left: text,
            sizes,
            turn: 0,
            shown: 0,
        }
    }
}

impl Source for Pieces<'_> {
    ghost remaining = { λ reader. Some reader.left.now };

    ghost shown = { λ reader. reader.shown };

    ghost failures = { λ reader. 0 };

    fn fill(&mut self) -> Result<&[u8], DeviceFault> {
        self.turn = self
            .turn
            .saturating_add(1)
            .checked_rem(self.sizes.len())
            .unwrap_or(0);
        let size = self
            .sizes
            .get(self.turn)
            .copied()
            .unwrap_or(usize::MAX)
            .max(1);
        let all: &[u8] = self.left;
        let count = all.len().min(size);
        self.shown = count;
        Ok(&all[..count])
    }

    fn consume(&mut self, count: usize) {
        let all: &[u8] = self.left;
        self.shown -= count;
        self.left = &all[count..];
    }
}

/// A writer that keeps nothing.
#[derive(Drop)]
pub struct Nowhere;

impl Write for Nowhere {
    fn write(&mut self, text: &[u8]) -> io::Result<usize> {
        Ok(text.len())
    }

    fn flush(&mut self) -> io::Result<()> {
        Ok(())
    }
}

/// The outputs of a split, as texts.
#[derive(Drop)]
pub struct Shelf {
    alloc: Global,
    texts: Vec<Vec<u8>>,
    failures: u64,
    failed_writers: u64,
    lent: u64,
}

impl Shelf {
    /// None was asked for.
    pub fn new(alloc: Global) -> Shelf {
        Shelf {
            alloc,
            texts: Vec::new(alloc),
            failures: 0,
            failed_writers: 0,
            lent: 0,
        }
    }

    /// The texts.
    pub fn texts(&self) -> &[Vec<u8>] {
        self.texts.as_slice()
    }
}

impl Outputs for Shelf {
    type W = Counted<Vec<u8>>;

    ghost texts = { λ shelf. None };

    ghost failures = { λ shelf. shelf.failures };

    ghost given_up = { λ shelf. shelf.failed_writers };

    ghost lent = { λ shelf. shelf.lent };

    ghost had = { λ shelf. None };

    fn next(&mut self) -> Result<Counted<Vec<u8>>, OutputFault> {
        if self.failures == u64::MAX || self.lent == u64::MAX {
            self.failures = self.failures.saturating_add(1);
            return Err(OutputFault);
        }
        self.lent += 1;
        Ok(Counted::new(Vec::new(self.alloc)))
    }

    fn done(&mut self, writer: Counted<Vec<u8>>) -> Result<(), OutputFault> {
        self.lent = self.lent.saturating_sub(1);
        if self.failures == u64::MAX || self.texts.push(writer.into_inner()).is_err() {
            self.failures = self.failures.saturating_add(1);
            return Err(OutputFault);
        }
        Ok(())
    }

    fn give_up(&mut self, writer: Counted<Vec<u8>>) {
        if writer.failures() > 0 {
            self.failed_writers = self.failed_writers.saturating_add(1);
        }
        self.lent = self.lent.saturating_sub(1);
    }
}
