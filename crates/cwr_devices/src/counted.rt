//! A target over one of std's writers.

ghost use Rattle.std.specs.Prelude.{◌≡◌};

use crate::devices::{DeviceFault, Target, count_failure};
use std::io::Write;

/// One of std's writers, with a count of its failures.
#[derive(Drop)]
pub struct Counted<W> {
    inner: W,
    failures: u64,
    // All that was written was handed on.
    handed_on: bool,
}

impl<W> Counted<W> {
    ghost use Rattle.cwr_devices.specs.Steps.Counted.{inner_of, failures_of};

    /// A writer that hasn't failed.
    pub fn new(inner: W) -> Counted<W>
        ensures inner { inner_of result ≡ inner }
        ensures failures { failures_of result ≡ 0 }
    {
        Counted {
            inner,
            failures: 0,
            handed_on: true,
        }
    }

    /// How many of its calls failed. The count stays at `u64::MAX`, and each of these calls then fails.
    pub fn failures(&self) -> u64
        ensures { result ≡ failures_of self.now }
    {
        self.failures
    }

    /// The writer itself.
    pub fn into_inner(self) -> W
        ensures { result ≡ inner_of self }
    {
        self.inner
    }
}

impl<W: Write> Target for Counted<W> {
    ghost use Rattle.cwr_devices.specs.Steps.Counted.{inner_of, failures_of, has_handed_on};

    ghost contents = { λ counted. W.contents (inner_of counted) };

    ghost handed_on = { has_handed_on };

    ghost failures = { failures_of };

    fn write(&mut self, text: &[u8]) -> Result<usize, DeviceFault> {
        self.handed_on = false;
        if self.failures == u64::MAX {
            return Err(DeviceFault);
        }
        match self.inner.write(text) {
            Ok(count) if count > 0 || text.is_empty() => Ok(count),
            _ => Err(count_failure(&mut self.failures)),
        }
    }

    fn flush(&mut self) -> Result<(), DeviceFault> {
        if self.failures == u64::MAX {
            return Err(DeviceFault);
        }
        match self.inner.flush() {
            Ok(()) => {
                self.handed_on = true;
                Ok(())
            }
            Err(_) => Err(count_failure(&mut self.failures)),
        }
    }
}
