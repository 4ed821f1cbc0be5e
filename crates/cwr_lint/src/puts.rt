//! The lines of a lint: of one fault with what explains it, and how an input ended.

ghost use Rattle.std.specs.Prelude.{◌≡◌, ◌++◌};
ghost use Rattle.std.specs.Io.KnownBytes.{Keeps};
ghost use Rattle.std.specs.Option.{is_some};
ghost use Rattle.cwr_devices.specs.Steps.Pens.{Adds};
ghost use Rattle.cwr_advise.specs.Steps.AdviceCounts.{summary_by};
ghost use Rattle.cwr_causes.specs.Format.Trailing.{CountsRead};
ghost use Rattle.cwr_lint_lines.specs.Format.FaultsAtFields.{report_number};
ghost use Rattle.cwr_lint.specs.Format.FaultsOfLines.{IsFaultText};
ghost use Rattle.cwr_lint.specs.Format.Told.{truncated_unless};
ghost use Rattle.cwr_lint.specs.Steps.CutShort.{IsFrontOf, Leaves, PutsEnd};
ghost use Rattle.cwr_lint.specs.Steps.Puts.{AddsSuch, PutsWith, told_so};
ghost use Rattle.cwr_lint.specs.Steps.Runs.{AreWords, IsEndText, asking_of, sums_text};

use crate::raw_lines::RawLine;
use cwr_advice::Said;
use cwr_advise::AdviceCounts;
use cwr_causes::{Ahead, FaultyLine, add_truncated, explain_fault, line_at_end, peek_numbers};
use cwr_decode::{LastRead, Refusal};
use cwr_devices::{DeviceFault, Pen, Sink, SinkFault, Source, Target};
use cwr_findings::{fault_line, faults_line, truncated_line};
use cwr_notes::WorkLine;
use cwr_shape::{Limits, Stage};
use cwr_tools::{ToolFault, as_told};
use std::alloc::{AllocError, Global};

/// What is asked of a lint.
#[derive(Clone, Copy, Debug)]
pub(crate) struct Asked<'a> {
    pub alloc: Global,
    pub limits: Limits,
    /// The name of the input, where what is told is explained too.
    pub name: Option<&'a str>,
    /// What the header says, where there is to be advice.
    pub said: Option<Said>,
    /// All advice, or of each rule the first three pieces.
    pub all: bool,
}

/// A line that is told, and what is held beside it.
#[derive(Clone, Copy)]
pub(crate) struct Shown<'a> {
    /// The line as it was read.
    pub raw: &'a RawLine,
    /// The line before it, where that is held.
    pub before: Option<&'a [u8]>,
    /// How far the order had come before it, where that is known.
    pub stage: Option<Stage>,
    /// Whether it stands behind the line with the first fault.
    pub is_later: bool,
}

impl<'a> Shown<'a> {
    /// The line with a fault, which is its first that is explained or not: with the line on its work, and with how the numbers after it
    /// go on, where they were looked at.
    pub fn faulty(
        &self,
        work: &'a WorkLine,
        ahead: Option<Ahead>,
        is_first: bool,
    ) -> FaultyLine<'a> {
        FaultyLine {
            line: self.raw.shown(),
            before: self.before,
            work,
            stage: self.stage,
            is_too_long: self.raw.is_too_long(),
            ahead,
            is_first,
            is_later: self.is_later,
        }
    }
}

/// A number as a report has it. It stays at `u32::MAX`.
pub(crate) fn report_number(number: u64) -> u32
    ensures { result ≡ report_number number }
{
    number.min(u64::from(u32::MAX)) as u32
}

/// What was added is put, whether memory for the rest was refused or not. The writer's fault is answered first.
pub(crate) fn told_so(
    put: Result<(), SinkFault>,
    told: Result<(), AllocError>,
) -> Result<(), ToolFault>
    ensures { result ≡ told_so put told }
{
    match put {
        Ok(()) => match told {
            Ok(()) => Ok(()),
            Err(_) => Err(ToolFault::Memory),
        },
        Err(SinkFault { written }) => Err(ToolFault::Writer { written }),
    }
}

/// Adds that an input ended too early, after so many lines, unless it is over.
fn truncated_unless<W: Target>(is_over: bool, lines: u64, pen: &mut Pen<'_, W>)
    ensures { Adds W.contents W.failures (truncated_unless is_over lines) pen.old pen.new }
{
    match is_over {
        true => {}
        false => truncated_line(report_number(lines), pen),
    }
}

/// Adds how much of so much advice isn't told, how an input ended, of which so many lines were read, and how many faults and findings it
/// has.
fn end_lines<W: Target>(
    all: bool,
    advice: &AdviceCounts,
    is_over: bool,
    faults: u64,
    findings: u64,
    lines: u64,
    pen: &mut Pen<'_, W>,
)
    ensures { Adds W.contents W.failures
        (summary_by all advice.now ++ sums_text is_over faults findings lines) pen.old pen.new }
{
    advice.summary(all, pen);
    truncated_unless(is_over, lines, pen);
    faults_line(faults, findings, lines, pen);
}

/// Puts them.
pub(crate) fn put_end<W: Target>(
    all: bool,
    advice: &AdviceCounts,
    is_over: bool,
    faults: u64,
    findings: u64,
    lines: u64,
    sink: &mut Sink<W>,
) -> Result<(), ToolFault>
    ensures puts { PutsWith (λ _. IsEndText all advice.now is_over faults findings lines)
        W.contents W.failures result sink.old sink.new }
    ensures leaves { Leaves (IsFrontOf
        (summary_by all advice.now ++ sums_text is_over faults findings lines)) W.contents result
        sink.old sink.new }
{
    let mut pen = Pen::new(sink);
    end_lines(all, advice, is_over, faults, findings, lines, &mut pen);
    as_told(pen.end())
}

/// Puts words on an input that ends too early.
pub(crate) fn put_end_words<W: Target>(
    alloc: Global,
    name: &str,
    records: u32,
    last: &LastRead,
    sink: &mut Sink<W>,
) -> Result<(), ToolFault>
    ensures { PutsEnd W.contents W.failures result sink.old sink.new }
{
    let mut text = String::new(alloc);
    match add_truncated(alloc, &mut text, name, records, last) {
        Ok(()) => as_told(sink.put(text.as_bytes())),
        Err(_) => Err(ToolFault::Memory),
    }
}

impl Asked<'_> {
    /// How the numbers go on after the refused line, which was read last, where one of it is wrong and what is told is explained. Nothing is
    /// taken.
    pub fn peek<R: Source>(
        &self,
        refusal: &Refusal,
        last: &LastRead,
        reader: &mut R,
    ) -> Result<Option<Ahead>, DeviceFault>
        ensures kept { Keeps (R.remaining reader.old) (R.remaining reader.new) }
        ensures failures { CountsRead result (R.failures reader.old) (R.failures reader.new) }
    {
        match self.name {
            Some(_) => peek_numbers(reader, refusal, &line_at_end(&last.bytes)),
            None => Ok(None),
        }
    }

    /// Adds the lines that explain a fault of a line, and an empty line, where they are asked for.
    fn explanation<W: Target>(
        &self,
        fault: &Refusal,
        line: FaultyLine<'_>,
        pen: &mut Pen<'_, W>,
    ) -> Result<(), AllocError>
        ensures { AddsSuch (AreWords (is_some self.now.name)) W.contents W.failures pen.old pen.new }
    {
        let Some(name) = self.name else {
            return Ok(());
        };
        let text = explain_fault(self.alloc, &self.limits, name, fault, line)?;
        pen.text(text.as_bytes());
        pen.text(b"\n");
        Ok(())
    }

    /// Adds the line of a fault, and under it the lines that explain it, where they are asked for.
    fn fault_lines<W: Target>(
        &self,
        fault: &Refusal,
        line: FaultyLine<'_>,
        pen: &mut Pen<'_, W>,
    ) -> Result<(), AllocError>
        ensures { AddsSuch (IsFaultText (asking_of self.now) fault.now) W.contents W.failures pen.old
            pen.new }
    {
        fault_line(fault, pen);
        self.explanation(fault, line, pen)
    }

    /// Puts them. Where memory for these is refused the line of the fault is put.
    pub fn put_fault<W: Target>(
        &self,
        fault: &Refusal,
        line: FaultyLine<'_>,
        sink: &mut Sink<W>,
    ) -> Result<(), ToolFault>
        ensures puts { PutsWith (λ _. IsFaultText (asking_of self.now) fault.now) W.contents
            W.failures result sink.old sink.new }
        ensures leaves { Leaves (IsFaultText (asking_of self.now) fault.now) W.contents result
            sink.old sink.new }
    {
        let mut pen = Pen::new(sink);
        let told = self.fault_lines(fault, line, &mut pen);
        told_so(pen.end(), told)
    }
}
