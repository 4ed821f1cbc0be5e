//! A source over one of std's readers, and one over a text in memory.

ghost use Rattle.std.specs.Prelude.{◌≡◌, ◌+◌, ◌≤◌, [], length, IfOk, OnErr, Some};
ghost use Rattle.cwr_devices.specs.declared.sources.TheConstants.{AHEAD};

use crate::devices::{DeviceFault, Source, count_failure};
use std::io::Read;

/// How many bytes are read ahead at most.
const AHEAD: usize = 131_072;

/// One of std's readers, with a count of its failures.
///
/// It is read ahead: what it gave and nobody consumed stays in here.
#[derive(Drop)]
pub struct ReadAhead<R> {
    inner: R,
    // The bytes from `start` to `end` were read and not consumed. The last `fill` showed the first `shown` of them.
    ahead: [u8; AHEAD],
    start: usize,
    end: usize,
    shown: usize,
    failures: u64,
    ghost ordered: { start + shown ≤ end },
    ghost within: { end ≤ AHEAD },
}

impl<R> ReadAhead<R> {
    ghost use Rattle.cwr_devices.specs.Steps.Sources.{inner_of, ahead_of, shown_of, failures_of};

    /// A reader that hasn't failed.
    pub fn new(inner: R) -> ReadAhead<R>
        ensures inner { inner_of result ≡ inner }
        ensures ahead { ahead_of result ≡ [] }
        ensures shown { shown_of result ≡ 0 }
        ensures failures { failures_of result ≡ 0 }
    {
        ReadAhead {
            inner,
            ahead: [0; AHEAD],
            start: 0,
            end: 0,
            shown: 0,
            failures: 0,
        }
    }

    /// The bytes that were read ahead: the reader gave them, and they weren't consumed.
    pub fn ahead(&self) -> &[u8]
        ensures { result.now ≡ ahead_of self.now }
    {
        &self.ahead[self.start..self.end]
    }

    /// How many of its calls failed. The count stays at `u64::MAX`, and each of these calls then fails.
    pub fn failures(&self) -> u64
        ensures { result ≡ failures_of self.now }
    {
        self.failures
    }

    /// The reader itself. What was read ahead is lost, unless it was copied from `ahead` before.
    pub fn into_inner(self) -> R
        ensures { result ≡ inner_of self }
    {
        self.inner
    }
}

impl<R: Read> ReadAhead<R> {
    ghost use Rattle.std.specs.Io.KnownBytes.{prepend_known, Keeps, IsAtEnd};
    ghost use Rattle.cwr_devices.specs.Format.Failures.{CountsFailure};
    ghost use Rattle.cwr_devices.specs.Steps.Sources.{inner_of, ahead_of, shown_of, failures_of};

    /// Reads where nothing is left of what was read ahead, and shows all of it.
    fn load(&mut self) -> Result<(), DeviceFault>
        ensures bytes { Keeps (prepend_known (ahead_of self.old) (R.remaining (inner_of self.old)))
            (prepend_known (ahead_of self.new) (R.remaining (inner_of self.new))) }
        ensures shown { IfOk result (λ _. self.new.start + self.new.shown ≡ self.new.end) }
        ensures end { IfOk result
            (λ _. self.new.shown ≡ 0 → IsAtEnd (R.remaining (inner_of self.new))) }
        ensures none { OnErr result (self.new.shown ≡ 0) }
        ensures failures { CountsFailure result (failures_of self.old) (failures_of self.new) }
    {
        self.shown = 0;
        if self.failures == u64::MAX {
            return Err(DeviceFault);
        }
        if self.start == self.end {
            match self.inner.read(&mut self.ahead[..]) {
                Ok(count) => {
                    self.start = 0;
                    self.end = count;
                }
                Err(_) => return Err(count_failure(&mut self.failures)),
            }
        }
        self.shown = self.end - self.start;
        Ok(())
    }
}

impl<R: Read> Source for ReadAhead<R> {
    ghost use Rattle.std.specs.Io.KnownBytes.{prepend_known};
    ghost use Rattle.cwr_devices.specs.Steps.Sources.{inner_of, ahead_of, shown_of, failures_of};

    ghost remaining = { λ reader. prepend_known (ahead_of reader) (R.remaining (inner_of reader)) };

    ghost shown = { shown_of };

    ghost failures = { failures_of };

    fn fill(&mut self) -> Result<&[u8], DeviceFault> {
        self.load()?;
        let loaded = &*self;
        Ok(&loaded.ahead[loaded.start..loaded.end])
    }

    fn consume(&mut self, count: usize) {
        self.shown -= count;
        self.start += count;
    }
}

/// A text in memory. It shows all that is left, and never fails.
#[derive(Drop)]
pub struct InMemory<'a> {
    left: &'a [u8],
    // How many of its bytes were shown.
    shown: usize,
    ghost within: { shown ≤ length left.now },
}

impl<'a> InMemory<'a> {
    ghost use Rattle.cwr_devices.specs.Steps.Sources.{left_of};

    /// The whole text.
    pub fn new(text: &'a [u8]) -> InMemory<'a>
        ensures left { left_of result ≡ text.now }
        ensures shown { result.shown ≡ 0 }
    {
        InMemory {
            left: text,
            shown: 0,
        }
    }
}

impl Source for InMemory<'_> {
    ghost use Rattle.cwr_devices.specs.Steps.Sources.{left_of};

    ghost remaining = { λ text. Some (left_of text) };

    ghost shown = { λ text. text.shown };

    ghost failures = { λ text. 0 };

    fn fill(&mut self) -> Result<&[u8], DeviceFault> {
        self.shown = self.left.len();
        Ok(self.left)
    }

    fn consume(&mut self, count: usize) {
        self.shown -= count;
        self.left = &self.left[count..];
    }
}
