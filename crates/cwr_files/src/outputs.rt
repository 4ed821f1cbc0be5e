//! Outputs: standard output, and files, with what is told of them where they fail.

ghost use Rattle.std.specs.Prelude.{◌≡◌, true, false, IfOk, MatchOption};
ghost use Rattle.std.specs.Io.KnownBytes.{Keeps};
ghost use Rattle.cwr_devices.specs.Steps.Counted.{failures_of};
ghost use Rattle.cwr_files.specs.Format.Written.{is_whole, times_failed, writer_in};
ghost use Rattle.cwr_files.specs.Steps.Gathering.{output_in, written_to};

use crate::faults::{Name, Reason, Told};
use crate::fronts::CHARACTER_SET;
use cwr_devices::Counted;
use std::alloc::{AllocError, Global};
use std::io;
use std::io::{BufWriter, Write};

/// How many bytes of output are gathered before they are written.
pub(crate) const GATHERED: usize = 65_536;

/// A writer, with what is told of it where it fails.
#[derive(Drop)]
pub struct Output<'a, O> {
    output: O,
    name: Name<'a>,
    /// How many bytes were written.
    bytes: u64,
    /// Why the last call failed, if it did.
    reason: Option<Reason>,
}

impl<'a, O> Output<'a, O> {
    /// A writer that was given nothing so far.
    pub fn new(output: O, name: Name<'a>) -> Output<'a, O>
        ensures { output_in result ≡ output }
    {
        Output {
            output,
            name,
            bytes: 0,
            reason: None,
        }
    }

    /// What is known of the writer.
    pub(crate) fn told(&self) -> Told<'a> {
        Told {
            name: self.name,
            bytes: self.bytes,
            reason: self.reason,
            character_set: [b' '; CHARACTER_SET],
        }
    }
}

impl<'a, O> Output<'a, O> {
    /// The writer itself.
    pub(crate) fn into_inner(self) -> O
        ensures { result ≡ self.entry.output }
    {
        self.output
    }
}

impl<O: Write> Write for Output<'_, O> {
    ghost contents = { λ it. O.contents it.output };

    fn write(&mut self, text: &[u8]) -> io::Result<usize> {
        let answer = self.output.write(text);
        match &answer {
            Ok(count) => self.bytes = self.bytes.saturating_add(*count as u64),
            Err(fault) => self.reason = Some(Reason::of(fault)),
        }
        answer
    }

    fn flush(&mut self) -> io::Result<()> {
        let answer = self.output.flush();
        if let Err(fault) = &answer {
            self.reason = Some(Reason::of(fault));
        }
        answer
    }
}

/// A writer that gathers what it is given before it writes. What is left is written when it is dropped.
pub type Gathered<'a, O> = Counted<BufWriter<Output<'a, O>>>;

/// The writer of that name, which gathers what it is given.
pub fn gathered<'a, O: Write + Drop>(
    alloc: Global,
    output: O,
    name: Name<'a>,
) -> Result<Gathered<'a, O>, AllocError>
    ensures failures { IfOk result (λ writer. failures_of writer ≡ 0) }
    ensures contents { IfOk result (λ writer. written_to O.contents writer ≡ O.contents output) }
{
    match BufWriter::with_capacity(alloc, GATHERED, Output::new(output, name)) {
        Ok(writer) => Ok(Counted::new(writer)),
        Err(_) => Err(AllocError),
    }
}

/// What is known of a writer that is given up. What is left in it is written, where that can be.
pub(crate) fn told_of<'a, O: Write + Drop>(writer: Gathered<'a, O>) -> Told<'a> {
    writer.into_inner().get_ref().told()
}

/// A writer that was taken back from the one that gathered for it.
#[derive(Drop)]
pub struct Written<F> {
    pub(crate) writer: F,
    /// How often it failed.
    pub(crate) failures: u64,
    /// It has all that was given to it.
    pub(crate) is_whole: bool,
}

impl<F> Written<F> {
    /// How often it failed.
    pub fn failures(&self) -> u64
        ensures { result ≡ times_failed self.now }
    {
        self.failures
    }

    /// The writer itself, where it has all that was given to it.
    pub(crate) fn into_whole(self) -> Option<F>
    where
        F: Drop,
        ensures { MatchOption result (is_whole self ≡ false)
            (λ writer. (writer ≡ writer_in self) × (is_whole self ≡ true)) }
    {
        if self.is_whole {
            Some(self.writer)
        } else {
            None
        }
    }
}

/// Takes back a writer, with what is known of it. What is left in the one that gathered is written, where that can be.
pub fn take_back<'a, O: Write + Drop>(writer: Gathered<'a, O>) -> (Told<'a>, Written<O>)
    ensures whole { is_whole result.1 ≡ true
        → Keeps (written_to O.contents writer.entry) (O.contents (writer_in result.1)) }
    ensures failures { times_failed result.1 ≡ failures_of writer.entry }
{
    let failures = writer.failures();
    let gathered = writer.into_inner();
    let told = gathered.get_ref().told();
    match gathered.into_inner() {
        Ok(output) => {
            let written = Written {
                writer: output.into_inner(),
                failures,
                is_whole: true,
            };
            (told, written)
        }
        Err(fault) => {
            let written = Written {
                writer: fault.into_inner().into_parts().0.into_inner(),
                failures,
                is_whole: false,
            };
            (told, written)
        }
    }
}

/// Writes a text to standard output, and hands it on. Where that fails, the error is what is known of the output.
pub fn print<'a, O: Write + Drop>(output: O, text: &[u8]) -> Result<(), Told<'a>> {
    let mut output = Output::new(output, Name::StandardOutput);
    let put = output.write_all(text);
    match (put, output.flush()) {
        (Ok(()), Ok(())) => Ok(()),
        _ => Err(output.told()),
    }
}
