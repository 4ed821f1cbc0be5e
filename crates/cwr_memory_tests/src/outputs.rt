//! Outputs of a split that keep nothing, and take no memory.

ghost use Rattle.std.specs.Prelude.{None};

use cwr_devices::{Counted, OutputFault, Outputs};
use std::io::{self, Write};

/// A writer that keeps nothing.
#[derive(Drop)]
pub(crate) struct Nowhere;

impl Write for Nowhere {
    fn write(&mut self, text: &[u8]) -> io::Result<usize> {
        Ok(text.len())
    }

    fn flush(&mut self) -> io::Result<()> {
        Ok(())
    }
}

/// Outputs of which only the number is kept.
#[derive(Drop)]
pub(crate) struct Numbered {
    /// How many are done.
    done: u32,
    /// How many calls failed. None does.
    failures: u64,
    failed_writers: u64,
    /// How many writers are lent.
    lent: u64,
}

impl Numbered {
    /// None was asked for.
    pub(crate) fn new() -> Numbered {
        Numbered {
            done: 0,
            failures: 0,
            failed_writers: 0,
            lent: 0,
        }
    }

    /// How many are done.
    pub(crate) fn done(&self) -> u32 {
        self.done
    }
}

impl Outputs for Numbered {
    type W = Counted<Nowhere>;

    ghost texts = { λ numbered. None };

    ghost failures = { λ numbered. numbered.failures };

    ghost given_up = { λ numbered. numbered.failed_writers };

    ghost lent = { λ numbered. numbered.lent };

    ghost had = { λ numbered. None };

    fn next(&mut self) -> Result<Counted<Nowhere>, OutputFault> {
        if self.failures == u64::MAX || self.lent == u64::MAX {
            self.failures = self.failures.saturating_add(1);
            return Err(OutputFault);
        }
        self.lent += 1;
        Ok(Counted::new(Nowhere))
    }

    fn done(&mut self, _writer: Counted<Nowhere>) -> Result<(), OutputFault> {
        self.lent = self.lent.saturating_sub(1);
        if self.failures == u64::MAX {
            return Err(OutputFault);
        }
        self.done = self.done.saturating_add(1);
        Ok(())
    }

    fn give_up(&mut self, writer: Counted<Nowhere>) {
        if writer.failures() > 0 {
            self.failed_writers = self.failed_writers.saturating_add(1);
        }
        self.lent = self.lent.saturating_sub(1);
    }
}
