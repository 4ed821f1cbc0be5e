//! Transmissions that are written from lines of JSON.

ghost use Rattle.std.specs.Prelude.{◌≡◌, None, IfOk, OnOk, true};
ghost use Rattle.cwr_write.specs.Format.Imports.{CountsReaderFault, CountsWriterFault, WritesWhole};
ghost use Rattle.cwr_files.specs.Format.Files.{Turns};
ghost use Rattle.cwr_files.specs.Steps.Inputs.{remaining_of};
ghost use Rattle.cwr_endings.specs.Format.Endings.{WritesOut};
ghost use Rattle.cwr_endings.specs.Format.Failures.{FailsSo, FailsToWrite};
ghost use Rattle.cwr_transform.specs.Format.Imports.{EndsAsFileImport, EndsAsImport, HandsOnImport, ImportEndsAs, IsImportOf, JudgesImport, WritesImport};

use cwr_devices::{Counted, ReadAhead, Sink, Target};
use cwr_endings::{Status, Stop, settle};
use cwr_files::{
    Fault, Input, Name, Pace, Store, Told, create_output, end_input, gathered, take_back,
};
use cwr_json::Encoding;
use cwr_shape::Limits;
use cwr_write::{WriteFault, Written, put_hint, put_write_outcome, write};
use std::alloc::Global;
use std::io::{Read, Write};

/// What the end of an import means for the program.
fn import_ending<'a>(
    outcome: Result<Written, WriteFault>,
    input: Told<'a>,
    output: Stop<'a>,
) -> Result<Status, Stop<'a>>
    ensures { ImportEndsAs input.entry output.entry outcome result }
{
    match outcome {
        Ok(_) => Ok(Status::Good),
        Err(WriteFault::Refused(_) | WriteFault::Early { .. }) => Ok(Status::Refused),
        Err(WriteFault::Reader) => Err(Stop::Fault(Fault::Read(input))),
        Err(WriteFault::Writer { .. }) => Err(output),
        Err(WriteFault::Memory) => Err(Stop::Fault(Fault::Memory)),
    }
}

/// Writes to standard error how an import ended, and below a refusal what helps.
fn tell_import<E: Write>(import: &Import, outcome: &Result<Written, WriteFault>, error: &mut E) {
    let mut sink = Sink::new(Counted::new(error));
    // What standard error doesn't take is lost.
    let Ok(()) = put_write_outcome(outcome, &mut sink) else {
        return;
    };
    if let Err(WriteFault::Refused(refusal)) = outcome {
        let _ = put_hint(refusal, import.encoding, &mut sink);
    }
}

/// How lines are written as a transmission.
#[derive(Clone, Copy, Debug)]
pub struct Import {
    /// Its limits.
    pub limits: Limits,
    /// How cells are shown in them.
    pub encoding: Encoding,
    /// The most bytes of a line.
    pub most: usize,
}

/// Writes the transmission that the input's lines are to the writer, which comes back. Beside how that ended comes what is known of the
/// input.
fn import_from<'a, S: Store, I: Read + Drop, P: Pace + Drop, W: Target>(
    store: &mut S,
    alloc: Global,
    import: &Import,
    input: Input<'a, S::Reader, I, P>,
    writer: W,
) -> (W, Result<Written, WriteFault>, Told<'a>)
    ensures judges { JudgesImport import.now (remaining_of S.Reader.remaining I.remaining input.entry) result.1 }
    ensures written { IfOk result.1 (λ w. WritesWhole import.now.encoding import.now.limits
        (remaining_of S.Reader.remaining I.remaining input.entry) W.contents writer result.0 w.bytes) }
    ensures failures { CountsWriterFault result.1 (W.failures writer) (W.failures result.0) }
    ensures handed_on { OnOk result.1 (W.handed_on result.0 ≡ true) }
    ensures reads { CountsReaderFault result.1 (S.failures store.old) (S.failures store.new) }
    ensures kept { S.held store.new ≡ S.held store.old }
    ensures making { S.making store.new ≡ S.making store.old }
{
    let mut reader = ReadAhead::new(input);
    let (writer, outcome) = write(
        alloc,
        import.limits,
        import.encoding,
        import.most,
        &mut reader,
        writer,
    );
    (writer, outcome, end_input(store, reader))
}

/// Hands on what is left of what an output was given, where writing to it failed, if that can be.
fn end_output<W: Target, A, B>(output: W, outcome: &Result<A, B>) -> W
    ensures { OnOk outcome.now (result ≡ output) }
{
    if outcome.is_ok() {
        return output;
    }
    let mut output = output;
    let _ = output.flush();
    output
}

/// Writes the transmission that the input's lines are to the output, which comes back.
pub fn import_input<'a, S: Store, I: Read + Drop, P: Pace + Drop, W: Target, E: Write>(
    store: &mut S,
    alloc: Global,
    import: &Import,
    input: Input<'a, S::Reader, I, P>,
    output: W,
    error: &mut E,
) -> (W, Result<Status, Stop<'a>>)
    ensures ends { EndsAsImport import.now (remaining_of S.Reader.remaining I.remaining input.entry) result.1 }
    ensures told { WritesImport import.now (remaining_of S.Reader.remaining I.remaining input.entry) W.contents output result.0 result.1 }
    ensures handed_on { HandsOnImport result.1 (W.handed_on result.0) }
    ensures failed { FailsSo result.1 (S.failures store.old) (S.failures store.new) }
    ensures kept { S.held store.new ≡ S.held store.old }
{
    let (output, outcome, read) = import_from(store, alloc, import, input, output);
    // What is left is written before that is told.
    let output = end_output(output, &outcome);
    tell_import(import, &outcome, error);
    (output, import_ending(outcome, read, Stop::Output))
}

/// Writes the transmission that the input's lines are to a file, which gets its name where that is whole.
pub fn import_file<'a, S: Store, I: Read + Drop, P: Pace + Drop, E: Write>(
    store: &mut S,
    alloc: Global,
    import: &Import,
    input: Input<'a, S::Reader, I, P>,
    out: &'a str,
    error: &mut E,
) -> Result<Status, Stop<'a>>
    ensures ends { EndsAsFileImport import.now (remaining_of S.Reader.remaining I.remaining input.entry) result }
    // Where it ends well the file holds the transmission that the lines are, and nothing else changed; else nothing did.
    ensures files { S.making store.old ≡ None → Turns (S.held store.old) (S.held store.new)
        (WritesOut out.now (S.failures store.old) (S.failures store.new)
        (IsImportOf import.now (remaining_of S.Reader.remaining I.remaining input.entry)) result) }
    // It ends as what failed does only where a failure was counted, or no such file can be made, or there was no memory.
    ensures failed { FailsToWrite out.entry (S.making store.old) (S.held store.old) (S.held store.new) result (S.failures store.old)
        (S.failures store.new) }
{
    let (made, file) = match create_output(store, alloc, out) {
        Ok(made) => made,
        Err(fault) => return Err(Stop::Fault(fault)),
    };
    let Ok(writer) = gathered(alloc, file, Name::File(out)) else {
        made.discard(store, 0);
        return Err(Stop::Fault(Fault::Memory));
    };
    let (writer, outcome, read) = import_from(store, alloc, import, input, writer);
    let (told, written) = take_back(writer);
    if let Err(fault) = settle(store, made, written, out, outcome.is_ok(), error) {
        return Err(Stop::Fault(fault));
    }
    tell_import(import, &outcome, error);
    import_ending(outcome, read, Stop::Fault(Fault::Write(told)))
}
