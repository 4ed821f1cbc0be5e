//! Checking a transmission, and explaining what was found.

ghost use Rattle.std.specs.Prelude.{◌≡◌, true, string_bytes, IfOk, IsSomeAnd, OnOk};
ghost use Rattle.cwr_tools.specs.Format.Verdicts.{IsAnswerTo, JudgesText};
ghost use Rattle.cwr_tools.specs.Format.Reports.{CountsAfter, CountsReaderFault, CountsWriterFault, CountsWritten};
ghost use Rattle.cwr_tools.specs.Format.Watching.{CountsAccepted};
ghost use Rattle.cwr_causes.specs.Format.Trailing.{CountsRead, IsTrailing, TakesMore};
ghost use Rattle.cwr_explain.specs.Format.Explained.{ExplainsText, FindsAfter, ReadsOnly, WritesOnly};
ghost use Rattle.cwr_explain.specs.Steps.Explained.{AddsExplanation, AddsText, Explains, Looks, SaysVerdict, is_good};

use cwr_causes::{
    Beyond, Trailing, add_refused, add_trailing, add_truncated, line_at_end, look_after_line,
    read_trailing,
};
use cwr_decode::LastRead;
use cwr_devices::{DeviceFault, Sink, Source, Target};
use cwr_shape::Limits;
use cwr_tools::{
    FindingCount, FindingLines, Front, LastStep, ToolFault, Verdict, write_report_and,
};
use std::alloc::{AllocError, Global};

/// Looks at what the reader has after the run: all of it after a transmission, and what tells more of a refused line.
fn look_beyond<R: Source>(
    reader: &mut R,
    verdict: &Verdict,
    last: &LastRead,
) -> Result<Beyond, DeviceFault>
    // Nothing that helps is left unasked, and what is found is what the reader has there.
    ensures looks { IfOk result
        (Looks verdict.now last.now (R.remaining reader.old) (R.remaining reader.new)) }
    ensures taken { TakesMore (R.remaining reader.old) (R.remaining reader.new) }
    ensures failures { CountsRead result (R.failures reader.old) (R.failures reader.new) }
{
    let line = line_at_end(&last.bytes);
    match verdict {
        Verdict::Good { .. } => Ok(Beyond::Trailing(read_trailing(reader)?)),
        Verdict::Refused(refusal) => look_after_line(reader, refusal, &line),
        Verdict::Truncated { .. } => Ok(Beyond::Unasked),
    }
}

/// The lines that explain a verdict.
fn explanation(
    alloc: Global,
    limits: &Limits,
    name: &str,
    verdict: &Verdict,
    last: &LastRead,
    beyond: Beyond,
) -> Result<String, AllocError>
    ensures { IfOk result (λ text. SaysVerdict limits.now name.now verdict.now last.now beyond
        (string_bytes text)) }
{
    let mut text = String::new(alloc);
    match verdict {
        Verdict::Good { .. } => {
            if let Beyond::Trailing(found) = beyond {
                add_trailing(&mut text, name, &found)?;
            }
        }
        Verdict::Refused(refusal) => {
            add_refused(alloc, &mut text, limits, name, refusal, last, beyond)?;
        }
        Verdict::Truncated { records } => add_truncated(alloc, &mut text, name, *records, last)?,
    }
    Ok(text)
}

/// Writes a text, and has the writer hand it on.
fn write_text<W: Target>(writer: W, text: &str) -> (W, Result<(), ToolFault>)
    ensures text { AddsText W.contents text.now writer result.0 result.1 }
    ensures failures { WritesOnly result.1 (W.failures writer) (W.failures result.0) }
    ensures handed_on { OnOk result.1 (W.handed_on result.0 ≡ true) }
{
    let mut sink = Sink::new(writer);
    let put = sink.put(text.as_bytes());
    let written = sink.written();
    let mut writer = sink.into_inner();
    match put {
        Err(fault) => (
            writer,
            Err(ToolFault::Writer {
                written: fault.written,
            }),
        ),
        Ok(()) => match writer.flush() {
            Ok(()) => (writer, Ok(())),
            Err(_) => (writer, Err(ToolFault::Writer { written })),
        },
    }
}

/// The lines that explain the verdict, once it was looked what the reader has after it.
fn explained<R: Source>(
    alloc: Global,
    limits: &Limits,
    name: &str,
    reader: &mut R,
    verdict: &Verdict,
    last: &LastRead,
) -> Result<(String, Beyond), ToolFault>
    ensures looks { IfOk result
        (λ p. Looks verdict.now last.now (R.remaining reader.old) (R.remaining reader.new) p.1) }
    ensures says { IfOk result (λ p. SaysVerdict limits.now name.now verdict.now last.now p.1
        (string_bytes p.0)) }
    ensures taken { TakesMore (R.remaining reader.old) (R.remaining reader.new) }
    ensures failures { ReadsOnly result (R.failures reader.old) (R.failures reader.new) }
{
    let beyond = match look_beyond(reader, verdict, last) {
        Ok(beyond) => beyond,
        Err(_) => return Err(ToolFault::Reader),
    };
    match explanation(alloc, limits, name, verdict, last, beyond) {
        Ok(text) => Ok((text, beyond)),
        Err(_) => Err(ToolFault::Memory),
    }
}

/// Writes the lines that explain the verdict, after so many bytes of the run.
fn add_explanation<R: Source, W: Target>(
    alloc: Global,
    limits: &Limits,
    name: &str,
    reader: &mut R,
    verdict: Verdict,
    last: &LastRead,
    before: u64,
    writer: W,
) -> (W, Result<Verdict, ToolFault>, Option<Trailing>)
    ensures found { is_good verdict ≡ true → OnOk result.1
        (IsSomeAnd result.2 (IsTrailing (R.remaining reader.old) (R.remaining reader.new))) }
    ensures says { AddsExplanation W.contents limits.now name.now verdict last.now
        (R.remaining reader.old) (R.remaining reader.new) writer result.0 result.1 }
    ensures counted { CountsAfter W.contents before writer result.0 result.1 }
    ensures taken { TakesMore (R.remaining reader.old) (R.remaining reader.new) }
    ensures answered { IsAnswerTo verdict result.1 }
    ensures reader_failures { CountsReaderFault result.1 (R.failures reader.old)
        (R.failures reader.new) }
    ensures writer_failures { CountsWriterFault result.1 (W.failures writer) (W.failures result.0) }
    ensures handed_on { OnOk result.1 (W.handed_on result.0 ≡ true) }
{
    match explained(alloc, limits, name, reader, &verdict, last) {
        Err(fault) => (writer, Err(fault), None),
        Ok((text, beyond)) => {
            let (writer, written) = write_text(writer, text.as_str());
            match written {
                Ok(()) => (writer, Ok(verdict), beyond.found()),
                Err(fault) => (writer, Err(fault.after(before)), None),
            }
        }
    }
}

/// What explains a verdict: of a refusal where it is, what stands there and what may; of an input that ends too early what may come next;
/// of a transmission what stands after it.
#[derive(Drop)]
struct LastWords<'a> {
    /// The name of the input in these lines.
    name: &'a str,
    /// What stands after a transmission, once that was looked for.
    found: Option<Trailing>,
}

impl<'a> LastStep<FindingLines> for LastWords<'a> {
    ghost use Rattle.std.specs.Prelude.{true};
    ghost use Rattle.cwr_explain.specs.Steps.Explained.{SaysLast};

    ghost holds = { λ step. true };

    ghost says = { λ before after lines limits. SaysLast limits before.name.now after.found };

    fn holds_last(&self) -> bool {
        true
    }

    fn go_on<R: Source, W: Target>(
        &mut self,
        _: &FindingLines,
        alloc: Global,
        limits: Limits,
        verdict: Verdict,
        front: &Front,
        reader: &mut R,
        writer: W,
    ) -> (W, Result<Verdict, ToolFault>) {
        match &front.last {
            Some(last) => {
                let (writer, explained, found) = add_explanation(
                    alloc,
                    &limits,
                    self.name,
                    reader,
                    verdict,
                    last,
                    front.written,
                    writer,
                );
                self.found = found;
                (writer, explained)
            }
            None => unreachable!(),
        }
    }
}

/// Checks a transmission as `check` does, and writes what that writes. Then it writes lines that explain the verdict: of a
/// refusal where it is, what stands there and what may; of an input that ends too early what may come next; of a transmission
/// what stands after it, which is answered too. `name` is that of the input in these lines. The findings that are told are counted.
///
/// Where the reader or memory fails after the verdict, the lines of `check` are written, and where the writer fails, the first of the
/// bytes that would be: so many as the fault says.
pub fn explain<R: Source, W: Target + Drop>(
    alloc: Global,
    limits: Limits,
    name: &str,
    reader: &mut R,
    writer: W,
) -> (
    W,
    Result<Verdict, ToolFault>,
    Option<Trailing>,
    FindingCount,
)
    // Of any reader, by what was read of it: what is written, and that its last words are those on
    // the verdict and on what the reader has after it.
    ensures explains { Explains limits name.now (R.remaining reader.old) (R.remaining reader.new) W.contents
        writer result.0 result.1 }
    // Of bytes that are known, in the words of the text alone.
    ensures told { ExplainsText limits name.now (R.remaining reader.old) (R.remaining reader.new)
        W.contents writer result.0 result.1 }
    ensures judged { JudgesText limits (R.remaining reader.old) result.1 }
    // Where the text is accepted, what stands after its transmission was found.
    ensures found { OnOk result.1
        (FindsAfter limits (R.remaining reader.old) (R.remaining reader.new) result.2) }
    // Then the findings are those in it.
    ensures told_of { OnOk result.1 (CountsAccepted limits (R.remaining reader.old) result.3) }
    // Where the writer failed, the fault says how many bytes were written in all.
    ensures written { CountsWritten W.contents writer result.0 result.1 }
    // No failure is passed over: a device failed only where that is the answer.
    ensures reader_failures { CountsReaderFault result.1 (R.failures reader.old)
        (R.failures reader.new) }
    ensures writer_failures { CountsWriterFault result.1 (W.failures writer) (W.failures result.0) }
    // All that was written was handed on.
    ensures handed_on { OnOk result.1 (W.handed_on result.0 ≡ true) }
{
    let mut lines = FindingLines::explained();
    let mut words = LastWords { name, found: None };
    let (writer, outcome) = write_report_and(&mut lines, &mut words, alloc, limits, reader, writer);
    (writer, outcome, words.found, lines.told())
}
