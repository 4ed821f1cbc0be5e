//! A writer that gathers what it is given, of which it is known when nothing is left in it.

ghost use Rattle.std.specs.Prelude.{◌≡◌, ◌<◌, ◌+◌, [], true, IfOk};
ghost use Rattle.std.specs.Io.Buffered.{writer_buffer};
ghost use Rattle.cwr_devices.specs.Format.Failures.{most_failures};

use crate::faults::{Name, Told};
use crate::outputs::{GATHERED, Output};
use cwr_devices::{DeviceFault, Target};
use std::alloc::{AllocError, Global};
use std::io::{BufWriter, Write};

/// A writer that gathers what it is given before it writes, and counts its failures. What is left is written when it is dropped.
#[derive(Drop)]
pub struct Gatherer<'a, O: Write + Drop> {
    writer: BufWriter<Output<'a, O>>,
    failures: u64,
    handed_on: bool,
    // Where all that was written was handed on, nothing is left in it.
    ghost empty: { handed_on ≡ true → writer_buffer writer ≡ [] },
}

impl<'a, O: Write + Drop> Gatherer<'a, O> {
    ghost use Rattle.cwr_files.specs.Steps.Gatherers.{given_to, has_handed_on, times_failed};

    /// The writer of that name, which gathers what it is given.
    pub fn new(alloc: Global, output: O, name: Name<'a>) -> Result<Gatherer<'a, O>, AllocError>
        ensures failures { IfOk result (λ writer. times_failed writer ≡ 0) }
        ensures contents { IfOk result (λ writer. given_to O.contents writer ≡ O.contents output) }
    {
        match BufWriter::with_capacity(alloc, GATHERED, Output::new(output, name)) {
            Ok(writer) => Ok(Gatherer {
                writer,
                failures: 0,
                handed_on: true,
            }),
            Err(_) => Err(AllocError),
        }
    }

    /// What is known of the writer.
    pub fn told(&self) -> Told<'a> {
        self.writer.get_ref().told()
    }

    /// The writer itself. What is left in the one that gathered is written, where that can be.
    pub fn into_inner(self) -> O
        ensures { has_handed_on self.entry ≡ true → O.contents result ≡ given_to O.contents self.entry }
    {
        let Gatherer { writer, .. } = self;
        if writer.buffer().is_empty() {
            return writer.into_parts().0.into_inner();
        }
        match writer.into_inner() {
            Ok(output) => output.into_inner(),
            Err(fault) => fault.into_inner().into_parts().0.into_inner(),
        }
    }
}

/// Counts a failure, and answers the fault that reports it.
fn count_failure(failures: &mut u64) -> DeviceFault
    requires { failures.old < most_failures }
    ensures { failures.new ≡ failures.old + 1 }
{
    *failures += 1;
    DeviceFault
}

impl<O: Write + Drop> Target for Gatherer<'_, O> {
    ghost use Rattle.cwr_files.specs.Steps.Gatherers.{given_to, has_handed_on, times_failed};

    ghost contents = { λ writer. given_to O.contents writer };

    ghost handed_on = { λ writer. has_handed_on writer };

    ghost failures = { λ writer. times_failed writer };

    fn write(&mut self, text: &[u8]) -> Result<usize, DeviceFault> {
        self.handed_on = false;
        if self.failures == u64::MAX {
            return Err(DeviceFault);
        }
        match self.writer.write(text) {
            Ok(count) if count > 0 || text.is_empty() => Ok(count),
            _ => Err(count_failure(&mut self.failures)),
        }
    }

    fn flush(&mut self) -> Result<(), DeviceFault> {
        self.handed_on = false;
        if self.failures == u64::MAX {
            return Err(DeviceFault);
        }
        match self.writer.flush() {
            Ok(()) => {
                self.handed_on = true;
                Ok(())
            }
            Err(_) => Err(count_failure(&mut self.failures)),
        }
    }
}
