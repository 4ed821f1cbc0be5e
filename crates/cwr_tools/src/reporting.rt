//! Whole runs over a text: the lines of its items, and what stands for the verdict.

ghost use Rattle.std.specs.Prelude.{◌≡◌, ◌+◌, ◌≤◌, ◌∷◌, ◌++◌, [], List, length, true, false, IfOk, OnOk, IsSomeAnd, None};
ghost use Rattle.std.specs.Io.KnownBytes.{GrowsBy};
ghost use Rattle.cwr_decode.specs.Steps.Decoding.{final_answer, has_ended, limits_of};
ghost use Rattle.cwr_decode.specs.Steps.LastReads.{AreHeld};
ghost use Rattle.cwr_decode.specs.Steps.Represents.{Represents};
ghost use Rattle.cwr_devices.specs.Steps.Pens.{Adds};
ghost use Rattle.cwr_devices.specs.Steps.Sinks.{PutsText};
ghost use Rattle.cwr_tools.specs.Format.Reports.{CountsReaderFault, CountsWriterFault, ItemLines, unrefused_line};
ghost use Rattle.cwr_tools.specs.Format.Texts.{verdict_line};
ghost use Rattle.cwr_tools.specs.Format.Verdicts.{IsVerdictOf};
ghost use Rattle.cwr_tools.specs.Steps.Reports.{PutsLines, PutsNext, PutsReport, Reports, StandsAtEnd, StandsCounted, StandsPut, tool_result};
ghost use Rattle.cwr_judge.specs.Format.Items.{item_records};
ghost use Rattle.cwr_tools.specs.Steps.Counts.{HasRoomToCount, IsCount};
ghost use Rattle.cwr_tools.specs.Steps.LastSteps.{RunsOn};
ghost use Rattle.cwr_tools.specs.Steps.Runs.{Runs};
ghost use Rattle.cwr_tools.specs.Steps.Verdicts.{IsReadLast};
ghost use Rattle.cwr_values.specs.declared.items.Item.{Item};

use crate::last_steps::LastStep;
use crate::reading_on::{Passing, read_on};
use crate::reports::Report;
use crate::totals::Totals;
use crate::verdicts::{ToolFault, Verdict};
use cwr_decode::{LastRead, ReadFault, Reading};
use cwr_devices::{Pen, Sink, SinkFault, Source, Target};
use cwr_findings::{good_line, refusal_line, truncated_line};
use cwr_shape::Limits;
use cwr_values::Item;
use std::alloc::Global;

/// How far a run came.
#[derive(Drop)]
pub struct Front {
    /// What was read last, where that is held and there is a verdict: the stage of the accepted records, and the last bytes that the
    /// reader lost, of a refused line all.
    pub last: Option<LastRead>,
    /// The bytes that were written. It stays at `u64::MAX`; the text is then at least that long.
    pub written: u64,
}

/// The verdict on a text at whose reading this fault was reported, or the fault that ends the run.
pub fn verdict_of(fault: ReadFault) -> Result<Verdict, ToolFault>
    ensures { IsVerdictOf fault result }
{
    match fault {
        ReadFault::Refused(refusal) => Ok(Verdict::Refused(refusal)),
        ReadFault::Truncated { records } => Ok(Verdict::Truncated { records }),
        ReadFault::Reader => Err(ToolFault::Reader),
        ReadFault::Memory => Err(ToolFault::Memory),
    }
}

/// Adds the line that says how a text ended.
pub fn verdict_line<W: Target>(verdict: &Verdict, pen: &mut Pen<'_, W>)
    ensures { Adds W.contents W.failures (verdict_line verdict.now) pen.old pen.new }
{
    match verdict {
        Verdict::Good {
            groups,
            transactions,
            records,
        } => good_line(*groups, *transactions, *records, pen),
        Verdict::Refused(refusal) => refusal_line(refusal, pen),
        Verdict::Truncated { records } => truncated_line(*records, pen),
    }
}

/// Adds the same of a text that isn't refused, and nothing of one that is.
pub(crate) fn unrefused_line<W: Target>(verdict: &Verdict, pen: &mut Pen<'_, W>)
    ensures { Adds W.contents W.failures (unrefused_line verdict.now) pen.old pen.new }
{
    match verdict {
        Verdict::Good { .. } | Verdict::Truncated { .. } => verdict_line(verdict, pen),
        Verdict::Refused(_) => {}
    }
}

/// Puts the line that says how a text ended.
pub fn put_verdict_line<W: Target>(verdict: &Verdict, sink: &mut Sink<W>) -> Result<(), SinkFault>
    ensures { PutsText W.contents W.failures (verdict_line verdict.now) result sink.old sink.new }
{
    let mut pen = Pen::new(sink);
    verdict_line(verdict, &mut pen);
    pen.end()
}

/// The answer of a sink, as one of a run.
pub fn as_told(put: Result<(), SinkFault>) -> Result<(), ToolFault>
    ensures { result ≡ tool_result put }
{
    match put {
        Ok(()) => Ok(()),
        Err(SinkFault { written }) => Err(ToolFault::Writer { written }),
    }
}

/// Puts what stands before the items.
fn put_first<L: Report, W: Target>(lines: &L, sink: &mut Sink<W>) -> Result<(), ToolFault>
    ensures { (of : ItemLines) → L.stands lines.now of []
        → PutsLines W.contents W.failures false (of.lines []) result sink.old sink.new }
{
    let mut pen = Pen::new(sink);
    lines.first_lines(&mut pen);
    as_told(pen.end())
}

/// Puts the lines of an item that comes after items with these numbers. Where memory for them is refused, none is put.
fn put_item<L: Report, W: Target>(
    lines: &mut L,
    alloc: Global,
    counts: &Totals,
    item: &Item,
    sink: &mut Sink<W>,
) -> Result<(), ToolFault>
    requires room { HasRoomToCount counts.now }
    requires few { counts.now.records + length (item_records item.now) ≤ 99999999 }
    requires stands { StandsCounted (L.stands lines.old) counts.now }
    ensures puts { (of : ItemLines) (given : List Item) → IsCount counts.now given
        → L.stands lines.old of given
        → PutsNext W.contents W.failures of given item.now result sink.old sink.new }
    ensures stands { (of : ItemLines) (given : List Item) → IsCount counts.now given
        → L.stands lines.old of given
        → OnOk result (L.stands lines.new of (given ++ item.now ∷ [])) }
{
    let mut pen = Pen::new(sink);
    match lines.item_lines(alloc, counts, item, &mut pen) {
        Ok(()) => as_told(pen.end()),
        Err(_) => Err(ToolFault::Memory),
    }
}

/// Puts what stands for the verdict.
fn put_verdict<L: Report, W: Target>(
    lines: &L,
    verdict: &Verdict,
    sink: &mut Sink<W>,
) -> Result<(), ToolFault>
    ensures { (of : ItemLines) (given : List Item) → L.stands lines.now of given
        → PutsLines W.contents W.failures false (of.last given verdict.now) result sink.old sink.new }
{
    let mut pen = Pen::new(sink);
    lines.last_lines(verdict, &mut pen);
    as_told(pen.end())
}

/// A reading of a transmission. The last bytes are held where they are asked for.
fn begin_reading<'a, R: Source>(
    holds_last: bool,
    alloc: Global,
    limits: Limits,
    reader: &'a mut R,
) -> Reading<'a, R>
    ensures same_reference { result.reader.ghost_name ≡ reader.entry.ghost_name }
    ensures kept { result.reader.now ≡ reader.old }
    ensures represents { Represents result.decoder [] [] }
    ensures limits { limits_of result.decoder ≡ limits }
    ensures open { final_answer result.decoder ≡ None }
    ensures fresh { has_ended result.decoder ≡ false }
    ensures last { holds_last ≡ true → AreHeld [] result.last }
{
    match holds_last {
        true => Reading::holding_last(alloc, limits, reader),
        false => Reading::new(alloc, limits, reader),
    }
}

/// Reads a transmission item by item, up to its end or to where it is refused or ends too early, and puts the lines of each item;
/// transactions of which nothing is told may be passed over. Then `front` says how far it came.
fn put_items<L: Report, R: Source, W: Target>(
    lines: &mut L,
    holds_last: bool,
    alloc: Global,
    limits: Limits,
    reader: &mut R,
    front: &mut Front,
    sink: &mut Sink<W>,
) -> Result<Verdict, ToolFault>
    requires stands { (of : ItemLines) × L.stands lines.old of [] }
    ensures puts { (of : ItemLines) → L.stands lines.old of [] → PutsReport of (λ given verdict. [])
        limits (R.remaining reader.old) (R.remaining reader.new) W.contents W.failures result
        sink.old sink.new }
    ensures failures { CountsReaderFault result (R.failures reader.old) (R.failures reader.new) }
    ensures stands { (of : ItemLines) → L.stands lines.old of [] → StandsAtEnd
        (L.stands lines.new of) limits (R.remaining reader.old) (R.remaining reader.new) result }
    ensures stands_put { (of : ItemLines) → L.stands lines.old of [] → StandsPut of
        (L.stands lines.new of) limits (R.remaining reader.old) (R.remaining reader.new) W.contents
        W.failures result sink.old sink.new }
    ensures last { holds_last ≡ true → IfOk result (λ verdict. IsSomeAnd front.new.last
        (IsReadLast limits (R.remaining reader.old) (R.remaining reader.new) verdict)) }
{
    let mut reading = begin_reading(holds_last, alloc, limits, reader);
    let mut counts = Totals::new();
    let mut works = Passing::new(lines.works());
    let mut spent = None;
    put_first(&*lines, sink)?;
    'items: loop {
        match read_on(lines.passes(), &mut reading, &mut works, &mut counts, spent) {
            Ok(Some(item)) => {
                put_item(lines, alloc, &counts, &item, sink)?;
                counts.count(&item);
                spent = Some(item);
            }
            Ok(None) => {
                front.last = reading.last_read();
                return Ok(counts.good());
            }
            Err(fault) => {
                front.last = reading.last_read();
                return verdict_of(fault);
            }
        }
    }
}

/// Reads a transmission, and puts the lines of its items and what stands for the verdict. Then `front` says how far it came.
fn put_report<L: Report, R: Source, W: Target>(
    lines: &mut L,
    holds_last: bool,
    alloc: Global,
    limits: Limits,
    reader: &mut R,
    front: &mut Front,
    sink: &mut Sink<W>,
) -> Result<Verdict, ToolFault>
    requires stands { (of : ItemLines) × L.stands lines.old of [] }
    ensures puts { (of : ItemLines) → L.stands lines.old of [] → PutsReport of of.last limits
        (R.remaining reader.old) (R.remaining reader.new) W.contents W.failures result sink.old
        sink.new }
    ensures failures { CountsReaderFault result (R.failures reader.old) (R.failures reader.new) }
    ensures stands { (of : ItemLines) → L.stands lines.old of [] → StandsAtEnd
        (L.stands lines.new of) limits (R.remaining reader.old) (R.remaining reader.new) result }
    ensures last { holds_last ≡ true → IfOk result (λ verdict. IsSomeAnd front.new.last
        (IsReadLast limits (R.remaining reader.old) (R.remaining reader.new) verdict)) }
{
    let verdict = put_items(lines, holds_last, alloc, limits, reader, front, sink)?;
    put_verdict(&*lines, &verdict, sink)?;
    Ok(verdict)
}

/// Reads a transmission as `write_report` does, and writes what that writes. How far the run came is answered too; the last bytes that were
/// read are held where they are asked for.
fn write_lines<L: Report, R: Source, W: Target>(
    lines: &mut L,
    holds_last: bool,
    alloc: Global,
    limits: Limits,
    reader: &mut R,
    writer: W,
) -> (W, Result<Verdict, ToolFault>, Front)
    requires { (of : ItemLines) × L.stands lines.old of [] }
    ensures reported { (of : ItemLines) → L.stands lines.old of [] → Reports of limits
        (R.remaining reader.old) (R.remaining reader.new) W.contents writer result.0 result.1 }
    ensures counted { GrowsBy (W.contents writer) (W.contents result.0) result.2.written }
    ensures stands { (of : ItemLines) → L.stands lines.old of [] → StandsAtEnd
        (L.stands lines.new of) limits (R.remaining reader.old) (R.remaining reader.new) result.1 }
    ensures reader_failures { CountsReaderFault result.1 (R.failures reader.old)
        (R.failures reader.new) }
    ensures writer_failures { CountsWriterFault result.1 (W.failures writer) (W.failures result.0) }
    ensures handed_on { OnOk result.1 (W.handed_on result.0 ≡ true) }
    ensures last { holds_last ≡ true → IfOk result.1 (λ verdict. IsSomeAnd result.2.last
        (IsReadLast limits (R.remaining reader.old) (R.remaining reader.new) verdict)) }
{
    let mut front = Front {
        last: None,
        written: 0,
    };
    let mut sink = Sink::new(writer);
    let put = put_report(
        lines, holds_last, alloc, limits, reader, &mut front, &mut sink,
    );
    let written = sink.written();
    front.written = written;
    let mut writer = sink.into_inner();
    match put {
        Err(fault) => (writer, Err(fault), front),
        Ok(verdict) => match writer.flush() {
            Ok(()) => (writer, Ok(verdict), front),
            Err(_) => (writer, Err(ToolFault::Writer { written }), front),
        },
    }
}

/// Reads a transmission up to its end or to where it is refused or ends too early, writes the lines of its items and what stands for
/// the verdict, and has the writer hand it on. The writer comes back.
///
/// It answers `ToolFault::Reader` or `ToolFault::Writer` where that device failed, and `ToolFault::Memory` where memory for a
/// transaction or for its lines was refused. It holds one transaction.
pub fn write_report<L: Report, R: Source, W: Target>(
    lines: &mut L,
    alloc: Global,
    limits: Limits,
    reader: &mut R,
    writer: W,
) -> (W, Result<Verdict, ToolFault>)
    requires { (of : ItemLines) × L.stands lines.old of [] }
    ensures runs { (of : ItemLines) → L.stands lines.old of [] → Runs of limits R.remaining
        R.failures reader.old reader.new W.contents W.failures W.handed_on writer result.0
        result.1 }
    // It is as the items leave it that were handed out before the verdict, or before the reader failed.
    ensures stands { (of : ItemLines) → L.stands lines.old of [] → StandsAtEnd
        (L.stands lines.new of) limits (R.remaining reader.old) (R.remaining reader.new) result.1 }
{
    let (writer, outcome, _) = write_lines(lines, false, alloc, limits, reader, writer);
    (writer, outcome)
}

/// Writes a report as `write_report` does, and goes on with a last step where there is a verdict. The writer comes back.
///
/// Where the reader or memory fails after the verdict, the report is written, and where the writer fails, the first of the bytes that
/// would be: so many as the fault says.
pub fn write_report_and<L: Report, S: LastStep<L>, R: Source, W: Target>(
    lines: &mut L,
    step: &mut S,
    alloc: Global,
    limits: Limits,
    reader: &mut R,
    writer: W,
) -> (W, Result<Verdict, ToolFault>)
    requires { (of : ItemLines) × L.stands lines.old of [] }
    ensures { (of : ItemLines) → L.stands lines.old of [] → RunsOn of (L.stands lines.new of)
        (S.says step.old step.new lines.new limits) (S.holds step.old) limits R.remaining R.failures
        reader.old reader.new W.contents W.failures W.handed_on writer result.0 result.1 }
{
    let (writer, checked, front) = write_lines(
        lines,
        step.holds_last(),
        alloc,
        limits,
        reader,
        writer,
    );
    match checked {
        Ok(verdict) => step.go_on(&*lines, alloc, limits, verdict, &front, reader, writer),
        Err(fault) => (writer, Err(fault)),
    }
}
