//! Texts that are put to a writer, one after another.

ghost use Rattle.std.specs.Prelude.{◌≡◌, ◌≤◌, ℕ, List, Option, [], ◌++◌, IfErr, OnErr, OnOk, IsErr, is_err, true, false, length, take, Some};
ghost use Rattle.std.specs.Io.KnownBytes.{Appends};
ghost use Rattle.cwr_devices.specs.Format.Failures.{CountsFailure};
ghost use Rattle.cwr_devices.specs.Format.DeviceFaultTexts.{writer_fault_text};
ghost use Rattle.cwr_devices.specs.Steps.Sinks.{written_of, writer_of, has_failed, CountsOn, GrowsBy, HasWritten};

use crate::devices::Target;
use std::error::Error;
use std::fmt::{self, Display, Formatter, Write};

/// The writer of a sink failed.
#[derive(Clone, Copy, Debug, PartialEq, Eq)]
pub struct SinkFault {
    /// How many bytes the sink had written when its writer failed; at `u64::MAX`, at least so many.
    pub written: u64,
}

impl Display for SinkFault {
    ghost output = { λ fault. Some (writer_fault_text fault.written) };

    fn fmt<O: Write>(&self, f: &mut Formatter<O>) -> fmt::Result {
        write!(f, "the writer failed after {} bytes", self.written)
    }
}

impl Error for SinkFault {}

/// A writer with a count of the bytes that were written. Once the writer failed, nothing more is written.
#[derive(Debug, Drop)]
pub struct Sink<W: Target> {
    writer: W,
    written: u64,
    failed: bool,
}

/// Writes a text until it is taken whole. Where the writer fails, the error is how many of its bytes were written.
fn write_whole<W: Target>(writer: &mut W, text: &[u8]) -> Result<(), usize>
    ensures whole { OnOk result (Appends (W.contents writer.old) (W.contents writer.new) text.now) }
    ensures part { IfErr result (λ written. (written ≤ length text.now)
        × Appends (W.contents writer.old) (W.contents writer.new) (take written text.now)) }
    ensures failures { OnErr result
        (CountsFailure result (W.failures writer.old) (W.failures writer.new)) }
    ensures unfailed { OnOk result (W.failures writer.new ≡ W.failures writer.old) }
{
    let mut written = 0;
    while written < text.len() {
        match writer.write(&text[written..]) {
            Ok(count) => written += count,
            Err(_) => return Err(written),
        }
    }
    Ok(())
}

impl<W: Target> Sink<W> {
    /// A sink to which nothing was put yet.
    pub fn new(writer: W) -> Sink<W>
        ensures writer { writer_of result ≡ writer }
        ensures unfailed { has_failed result ≡ false }
        ensures written { written_of result ≡ 0 }
        ensures empty { HasWritten W.contents (W.contents writer) [] result }
    {
        Sink {
            writer,
            written: 0,
            failed: false,
        }
    }

    /// Writes the text after those before it. Where the writer fails, only its first bytes are written, and from then
    /// on each call answers the same fault and writes nothing.
    pub fn put(&mut self, text: &[u8]) -> Result<(), SinkFault>
        // Whatever text was put so far, that text followed by this one is now put: it is written whole, or after a fault its first bytes are.
        ensures written { (start : Option (List ℕ)) (before : List ℕ)
            → HasWritten W.contents start before self.old
            → HasWritten W.contents start (before ++ text.now) self.new }
        // Of an unfailed sink whose past isn't known: this call only appends, and counts what it appends.
        ensures grows { has_failed self.old ≡ false
            → GrowsBy W.contents text.now result self.old self.new }
        ensures fault { IfErr result (λ f. f.written ≡ written_of self.new) }
        ensures failed { has_failed self.new ≡ is_err result }
        // A fault is reported only where the writer failed in this call, or in an earlier one.
        ensures failures { has_failed self.old ≡ false
            → CountsOn result (W.failures (writer_of self.old)) (W.failures (writer_of self.new)) }
        ensures again { has_failed self.old ≡ true → IsErr result × (self.new ≡ self.old) }
    {
        if self.failed {
            return Err(SinkFault {
                written: self.written,
            });
        }
        match write_whole(&mut self.writer, text) {
            Ok(()) => {
                self.written = self.written.saturating_add(text.len() as u64);
                Ok(())
            }
            Err(count) => {
                self.written = self.written.saturating_add(count as u64);
                self.failed = true;
                Err(SinkFault {
                    written: self.written,
                })
            }
        }
    }

    /// How many bytes were written; at `u64::MAX`, at least so many.
    pub fn written(&self) -> u64
        ensures { result ≡ written_of self.now }
    {
        self.written
    }

    /// Whether the writer failed.
    pub fn has_failed(&self) -> bool
        ensures { result ≡ has_failed self.now }
    {
        self.failed
    }

    /// The writer, with what was written.
    pub fn into_inner(self) -> W
        ensures { result ≡ writer_of self }
    {
        self.writer
    }
}
