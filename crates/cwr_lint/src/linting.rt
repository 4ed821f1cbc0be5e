//! Every fault of a transmission in one pass.

ghost use Rattle.std.specs.Prelude.{◌≡◌, ◌==◌, ◌&&◌, ◌+◌, ◌-◌, ◌<◌, ◌≤◌, ℕ, List, true, false, IfOk, IsTrue, OnOk};
ghost use Rattle.std.specs.Option.{is_some};
ghost use Rattle.std.specs.Io.KnownBytes.{Appends, Keeps};
ghost use Rattle.cwr_devices.specs.Steps.Sinks.{counted_up, writer_of, written_of};
ghost use Rattle.cwr_causes.specs.Format.Trailing.{TakesMore};
ghost use Rattle.cwr_tools.specs.Format.Reports.{AddsWords, CountsAfter, CountsReaderFault, CountsWriterFault, CountsWritten, JudgesAccepted};
ghost use Rattle.cwr_tools.specs.Format.Verdicts.{IsAnswerTo, JudgesText};
ghost use Rattle.cwr_lines.specs.Steps.Held.{held_body, held_kind};
ghost use Rattle.cwr_lint.specs.Format.Wanted.{asking_so, lines_linted, wanting};
ghost use Rattle.cwr_lint_lines.specs.Format.FaultsAtFields.{fields_end, one_more_line};
ghost use Rattle.cwr_lint_lines.specs.Steps.Fronts.{state_at};
ghost use Rattle.cwr_lint.specs.Steps.Walks.{AfterJudged, counts_ended, ended_by, findings_after, judged_in, state_by, told_ended};
ghost use Rattle.cwr_lint.specs.Steps.Works.{is_same_number, open_number, work_after, work_at, work_if};
ghost use Rattle.cwr_fields.specs.Format.Bytes.{is_spaces};
ghost use Rattle.cwr_lint_lines.specs.Steps.JudgedLines.{IsFaultFrom, IsJudged, ends_by, judged_at, scope_by};
ghost use Rattle.cwr_lint_lines.specs.Steps.Cells.{held_cut};
ghost use Rattle.cwr_lint.specs.Steps.LinesRead.{IsOfLine, held_raw};
ghost use Rattle.cwr_lint.specs.Steps.Lints.{AddsEnd, EndsRun, Lints, SaysFollows, Tells, counted};
ghost use Rattle.cwr_lint.specs.Steps.Puts.{TellsWith, AppendsSuch, PutsWith, TellsRead};
ghost use Rattle.cwr_lint.specs.Steps.Runs.{BeginsAt, TakesAll, TakesFirst, TakesFrom, TakesLine, TakesNextIf, TakesRead, TellsJudged, TellsRun, TellsSoMany};
ghost use Rattle.cwr_lint.specs.Steps.CutShort.{AppendsUpTo, IsFirstPart, Leaves, LeavesOrUnread, TakesFromPart, TakesNextPart, TakesSome};
ghost use Rattle.cwr_lint.specs.Steps.CutShort.{TellsAfterUpTo, TellsLastUpTo, TellsPart, TellsSome, TellsUpTo, WalksPart};
ghost use Rattle.cwr_lint.specs.Steps.Runs.{TellsAfter, TellsToEnd, asking_of, walk_of};

use crate::findings::{after_line, put_ended};
use crate::puts::{Asked, Shown, put_end, put_end_words, report_number};
use crate::raw_lines::RawLine;
use cwr_advice::Said;
use cwr_advise::{AdviceCounts, AdviceLines, Manner};
use cwr_causes::{Ahead, before_last, open_work, own_work, refused_work};
use cwr_decode::{LastRead, Refusal};
use cwr_devices::{Sink, Source, Target};
use cwr_lines::{CutLine, LineBuf, Record};
use cwr_lint_lines::{Judged, LintState, Taking};
use cwr_notes::WorkLine;
use cwr_shape::{Limits, level};
use cwr_tools::{FindingLines, Front, LastStep, Report, ToolFault, Verdict, write_report_and};
use cwr_values::Transaction;
use std::alloc::{AllocError, Global};

/// What a lint holds that goes on after the first fault.
#[derive(Drop)]
struct LintRun {
    state: LintState,
    /// The records of the open transaction, as long as it has no fault.
    begun: Option<Transaction>,
    /// The faults that were told. It stays at `u64::MAX`.
    faults: u64,
    /// The findings that were told. It stays at `u64::MAX`.
    findings: u64,
    /// How much advice came from each rule.
    advice: AdviceCounts,
    /// The line on the work of the transaction that the lint is in, where its header came.
    work: WorkLine,
}

/// What is known beside the line that is refused.
#[derive(Clone, Copy)]
struct Beside<'a> {
    /// The line before it, where that is held.
    before: Option<&'a [u8]>,
    /// The header of the transaction that was open before it.
    header: &'a Option<Record>,
    /// How the numbers after it go on, where they were looked at.
    ahead: Option<Ahead>,
}

/// The number of the open transaction.
fn open_number(state: &LintState) -> Option<u64>
    ensures { result ≡ open_number state.now.group }
{
    match &state.group {
        Some(group) => Some(group.open_transaction().number),
        None => None,
    }
}

/// The line on a work, where the transaction is still open.
fn work_if(is_open: bool, work: &WorkLine) -> WorkLine
    ensures { result ≡ work_if is_open work.now }
{
    if is_open {
        work.copy()
    } else {
        WorkLine::none()
    }
}

/// The line on the work of the transaction that the lint is in after a line that was judged, before which that was the one, and with which
/// it stays in the same or not.
fn work_after(judged: &Judged, line: &CutLine<'_>, is_same: bool, before: &WorkLine) -> WorkLine
    ensures { result ≡ work_after judged.now line.now is_same before.now }
{
    match judged {
        Judged::Unknown => work_if(is_same, before),
        Judged::Known(known) => match known.taken {
            Taking::Header(_) => own_work(line),
            Taking::Further | Taking::Other => work_if(is_same, before),
            _ => WorkLine::none(),
        },
    }
}

impl LintRun {
    /// The fault at a field of the line that comes next, if it has one and the field is no earlier than `from`.
    fn fault_at(&self, judged: &Judged, line: &CutLine<'_>, from: u8, field: u8) -> Option<Refusal>
        requires { IsJudged line.now judged.now }
        ensures { IsFaultFrom
            (judged_at self.now.state.lines (scope_by self.now.state.group) line.now judged.now)
            from field result }
    {
        if field < from {
            return None;
        }
        let reason = judged.reason(line, field)?;
        Some(Refusal {
            rec: report_number(self.state.lines.saturating_add(1)),
            field,
            level: level(line.kind(), field, &reason, self.state.scope()),
            reason,
        })
    }

    /// The line, with what is held beside it. It stands behind the line with the first fault or not.
    fn shown<'b>(&self, raw: &'b RawLine, before: Option<&'b [u8]>, is_later: bool) -> Shown<'b> {
        Shown {
            raw,
            before,
            stage: self.state.stage,
            is_later,
        }
    }

    /// The line on the work of the transaction that a fault at a field of the line is in: at the first field of the one that is open before
    /// the line, and at any other of the one that is open with it.
    fn work_at(&self, field: u8, judged: &Judged, line: &CutLine<'_>) -> WorkLine
        ensures { result ≡ work_at self.now.work self.now.state field judged.now line.now }
    {
        match judged {
            Judged::Known(known) if field > 1 => {
                let mut next = self.state;
                next.step(known.taken, known.misplaced, known.kind, line);
                let is_same = open_number(&next) == open_number(&self.state);
                work_after(judged, line, is_same, &self.work)
            }
            _ => self.work.copy(),
        }
    }

    /// Tells the faults of a line from a field on. The answer is how many they are.
    fn tell<W: Target>(
        &self,
        asked: &Asked<'_>,
        judged: &Judged,
        line: &CutLine<'_>,
        from: u8,
        shown: &Shown<'_>,
        sink: &mut Sink<W>,
    ) -> Result<u64, ToolFault>
        requires judged { IsJudged line.now judged.now }
        requires first { 1 ≤ from }
        ensures puts { PutsWith (TellsSoMany (asking_of asked.now)
            (judged_in self.now.state line.now judged.now) from (fields_end (held_kind line.now)))
            W.contents W.failures result sink.old sink.new }
        ensures leaves { Leaves (TellsSome (asking_of asked.now)
            (judged_in self.now.state line.now judged.now) from (fields_end (held_kind line.now)))
            W.contents result sink.old sink.new }
    {
        let mut told: u64 = 0;
        for field in 1..judged.places() {
            let Some(fault) = self.fault_at(judged, line, from, field) else {
                continue;
            };
            let work = self.work_at(field, judged, line);
            let faulty = shown.faulty(&work, None, told == 0 && from == 1);
            if let Err(stop) = asked.put_fault(&fault, faulty, sink) {
                return Err(stop);
            }
            told = told.saturating_add(1);
        }
        Ok(told)
    }

    /// Tells the findings of the transaction that a line ends, and the faults of the line from a field on. The answer is how many
    /// faults they are.
    fn tell_all<W: Target>(
        &mut self,
        asked: &Asked<'_>,
        judged: &Judged,
        line: &CutLine<'_>,
        from: u8,
        shown: &Shown<'_>,
        sink: &mut Sink<W>,
    ) -> Result<u64, ToolFault>
        requires judged { IsJudged line.now judged.now }
        requires first { 1 ≤ from }
        ensures puts { PutsWith (TellsJudged (asking_of asked.now) self.old line.now judged.now
            from) W.contents W.failures result sink.old sink.new }
        ensures leaves { Leaves (TellsPart (asking_of asked.now)
            (judged_in self.old.state line.now judged.now)
            (ended_by judged.now self.old.state self.old.begun)
            (told_ended (asking_of asked.now) self.old.advice
            (ended_by judged.now self.old.state self.old.begun)) from) W.contents result sink.old
            sink.new }
        ensures state { self.new.state ≡ self.old.state }
        ensures begun { self.new.begun ≡ self.old.begun }
        ensures faults { self.new.faults ≡ self.old.faults }
        ensures findings { OnOk result (self.new.findings ≡ findings_after self.old.findings
            (ended_by judged.now self.old.state self.old.begun)) }
        ensures advice { OnOk result
            (self.new.advice ≡ counts_ended (asking_of asked.now) self.old.advice
            (ended_by judged.now self.old.state self.old.begun)) }
    {
        match put_ended(
            asked,
            &self.state,
            &self.begun,
            judged,
            &mut self.findings,
            &mut self.advice,
            sink,
        ) {
            Ok(()) => self.tell(asked, judged, line, from, shown, sink),
            Err(fault) => Err(fault),
        }
    }

    /// Goes on with a line that was judged. It fails only for want of memory.
    fn step(
        &mut self,
        alloc: Global,
        judged: &Judged,
        line: &CutLine<'_>,
        is_good: bool,
        is_blank: bool,
    ) -> Result<(), AllocError>
        requires { is_blank ≡ is_spaces (held_body line.now) }
        ensures state { self.new.state ≡ state_by judged.now self.old.state (held_cut line.now) }
        ensures begun { OnOk result (AfterJudged is_good judged.now (is_some self.new.state.stage)
            self.old.begun (held_cut line.now) self.new.begun) }
        ensures lines { self.new.state.lines ≡ one_more_line self.old.state.lines }
        ensures over { self.new.state.over ≡ ends_by judged.now }
        ensures faults { self.new.faults ≡ self.old.faults }
        ensures findings { self.new.findings ≡ self.old.findings }
        ensures advice { self.new.advice ≡ self.old.advice }
        ensures work { self.new.work ≡ work_after judged.now line.now
            (is_same_number (open_number self.new.state.group) (open_number self.old.state.group))
            self.old.work }
    {
        let number = open_number(&self.state);
        match judged {
            Judged::Known(known) => {
                self.state
                    .step(known.taken, known.misplaced, known.kind, line)
            }
            Judged::Unknown => self.state.step_unknown(is_blank),
        }
        let is_same = open_number(&self.state) == number;
        self.work = work_after(judged, line, is_same, &self.work);
        let in_step = self.state.stage.is_some();
        let begun = self.begun.take();
        self.begun = after_line(alloc, begun, judged, is_good, in_step, line)?;
        Ok(())
    }

    /// Tells what is wrong with a line from a field on, and goes on with it.
    fn take<W: Target>(
        &mut self,
        asked: &Asked<'_>,
        line: &CutLine<'_>,
        from: u8,
        shown: &Shown<'_>,
        is_blank: bool,
        sink: &mut Sink<W>,
    ) -> Result<(), ToolFault>
        requires first { 1 ≤ from }
        requires blank { is_blank ≡ is_spaces (held_body line.now) }
        ensures puts { PutsWith
            (λ _. TakesLine (asking_of asked.now) (held_cut line.now) from self.old self.new)
            W.contents W.failures result sink.old sink.new }
        ensures leaves { Leaves (WalksPart (asking_of asked.now) (walk_of self.old)
            (held_cut line.now) from) W.contents result sink.old sink.new }
    {
        let judged = Judged::of(&self.state, line);
        let told = match self.tell_all(asked, &judged, line, from, shown, sink) {
            Ok(told) => told,
            Err(fault) => return Err(fault),
        };
        self.faults = self.faults.saturating_add(told);
        let is_good = is_good(told, from);
        match self.step(asked.alloc, &judged, line, is_good, is_blank) {
            Ok(()) => Ok(()),
            Err(_) => Err(ToolFault::Memory),
        }
    }

    /// Tells what is wrong with a line that was read after another one.
    fn take_read<W: Target>(
        &mut self,
        asked: &Asked<'_>,
        before: &RawLine,
        raw: &RawLine,
        cut: &mut LineBuf,
        sink: &mut Sink<W>,
    ) -> Result<bool, ToolFault>
        requires line { IsOfLine raw.now }
        ensures puts { PutsWith (λ more. TakesRead (asking_of asked.now)
            (held_cut (held_raw raw.now)) self.old self.new more) W.contents W.failures result
            sink.old sink.new }
        ensures leaves { Leaves (WalksPart (asking_of asked.now) (walk_of self.old)
            (held_cut (held_raw raw.now)) 1) W.contents result sink.old sink.new }
    {
        raw.cut_into(cut);
        let shown = self.shown(raw, Some(before.as_slice()), true);
        match self.take(asked, &cut.cut(), 1, &shown, raw.is_blank(), sink) {
            Ok(()) => Ok(true),
            Err(fault) => Err(fault),
        }
    }

    /// Reads the line after this one, and tells what is wrong with it. The answer is whether there was one.
    fn take_next<R: Source, W: Target>(
        &mut self,
        asked: &Asked<'_>,
        reader: &mut R,
        before: &RawLine,
        raw: &mut RawLine,
        cut: &mut LineBuf,
        sink: &mut Sink<W>,
    ) -> Result<bool, ToolFault>
        ensures tells { TellsWith R.remaining R.failures reader.old reader.new W.contents W.failures
            (TakesNextIf (asking_of asked.now) before.now raw.new self.old self.new)
            result sink.old sink.new }
        ensures leaves { Leaves (TakesNextPart (asking_of asked.now) (R.remaining reader.old)
            before.now self.old) W.contents result sink.old sink.new }
    {
        if self.state.over || !before.has_ended() {
            return Ok(false);
        }
        match raw.read_after(before.end_offset(), reader) {
            Ok(true) => self.take_read(asked, before, raw, cut, sink),
            Ok(false) => Ok(false),
            Err(_) => Err(ToolFault::Reader),
        }
    }

    /// Reads the lines after this one, up to TRL or the end, and tells what is wrong with each.
    fn take_rest<R: Source, W: Target>(
        &mut self,
        asked: &Asked<'_>,
        reader: &mut R,
        first: RawLine,
        cut: &mut LineBuf,
        sink: &mut Sink<W>,
    ) -> Result<(), ToolFault>
        ensures tells { TellsRead R.remaining R.failures reader.old reader.new W.contents W.failures
            (TakesAll (asking_of asked.now) first.ended self.old self.new)
            result sink.old sink.new }
        ensures leaves { Leaves (TakesSome (asking_of asked.now) (R.remaining reader.old)
            first.ended self.old) W.contents result sink.old sink.new }
    {
        let mut before = first;
        let mut raw = RawLine::new();
        for _ in 0..u64::MAX {
            match self.take_next(asked, reader, &before, &mut raw, cut, sink) {
                Ok(true) => {}
                Ok(false) => break,
                Err(fault) => return Err(fault),
            }
            (raw, before) = (before, raw);
        }
        Ok(())
    }

    /// Tells the first fault, which a check has met at this line, and the others of the line.
    fn take_first<W: Target>(
        &mut self,
        asked: &Asked<'_>,
        refusal: &Refusal,
        beside: Beside<'_>,
        raw: &RawLine,
        cut: &mut LineBuf,
        sink: &mut Sink<W>,
    ) -> Result<(), ToolFault>
        requires line { IsOfLine raw.now }
        ensures puts { PutsWith (λ _. TakesFirst (asking_of asked.now) refusal.now
            (held_cut (held_raw raw.now)) self.old
            self.new) W.contents W.failures result sink.old sink.new }
        ensures leaves { Leaves (IsFirstPart (asking_of asked.now) (walk_of self.old) refusal.now
            (held_cut (held_raw raw.now))) W.contents result sink.old sink.new }
    {
        raw.cut_into(cut);
        let shown = self.shown(raw, beside.before, false);
        let work = refused_work(beside.header, &refusal.reason, &cut.cut());
        match asked.put_fault(refusal, shown.faulty(&work, beside.ahead, true), sink) {
            Ok(()) => {
                let from = refusal.field.saturating_add(1);
                self.take(asked, &cut.cut(), from, &shown, raw.is_blank(), sink)
            }
            Err(fault) => Err(fault),
        }
    }

    /// Tells the first fault, which a check has met at this line, and the others of the line and of those after it.
    fn tell_from<R: Source, W: Target>(
        &mut self,
        asked: &Asked<'_>,
        refusal: &Refusal,
        beside: Beside<'_>,
        reader: &mut R,
        raw: RawLine,
        sink: &mut Sink<W>,
    ) -> Result<(), ToolFault>
        requires line { IsOfLine raw }
        ensures tells { TellsRead R.remaining R.failures reader.old reader.new W.contents W.failures
            (TakesFrom (asking_of asked.now) refusal.now raw self.old self.new)
            result sink.old sink.new }
        ensures leaves { Leaves (TakesFromPart (asking_of asked.now) refusal.now raw self.old
            (R.remaining reader.old)) W.contents result sink.old sink.new }
    {
        let mut cut = LineBuf::new();
        match self.take_first(asked, refusal, beside, &raw, &mut cut, sink) {
            Ok(()) => self.take_rest(asked, reader, raw, &mut cut, sink),
            Err(fault) => Err(fault),
        }
    }

    /// Tells the first fault, which a check has met at this line, and all that come after it, and how many they are.
    fn tell_to_end<R: Source, W: Target>(
        &mut self,
        asked: &Asked<'_>,
        refusal: &Refusal,
        beside: Beside<'_>,
        reader: &mut R,
        raw: RawLine,
        sink: &mut Sink<W>,
    ) -> Result<(), ToolFault>
        requires line { IsOfLine raw }
        requires begins { BeginsAt refusal.now self.old }
        ensures tells { TellsRead R.remaining R.failures reader.old reader.new W.contents W.failures
            (TellsToEnd (asking_of asked.now) (walk_of self.old) refusal.now raw)
            result sink.old sink.new }
        ensures leaves { Leaves (TellsUpTo (asking_of asked.now) (walk_of self.old) refusal.now raw
            (R.remaining reader.old)) W.contents result sink.old sink.new }
    {
        match self.tell_from(asked, refusal, beside, reader, raw, sink) {
            Ok(()) => put_end(
                asked.all,
                &self.advice,
                self.state.over,
                self.faults,
                self.findings,
                self.state.lines,
                sink,
            ),
            Err(fault) => Err(fault),
        }
    }

    /// Tells the first fault, which a check has met at the line that was read last, and all that come after it, and how many they
    /// are.
    fn run_on<R: Source, W: Target>(
        &mut self,
        asked: &Asked<'_>,
        refusal: &Refusal,
        last: &LastRead,
        ahead: Option<Ahead>,
        reader: &mut R,
        sink: &mut Sink<W>,
    ) -> Result<(), ToolFault>
        requires begins { BeginsAt refusal.now self.old }
        ensures tells { TellsRead R.remaining R.failures reader.old reader.new W.contents W.failures
            (TellsRun (asking_of asked.now) (walk_of self.old) refusal.now last.now.bytes)
            result sink.old sink.new }
        ensures leaves { LeavesOrUnread (TellsLastUpTo (asking_of asked.now) (walk_of self.old)
            refusal.now last.now.bytes (R.remaining reader.old)) W.contents result sink.old
            sink.new }
    {
        match RawLine::of_last(&last.bytes, reader) {
            Ok(raw) => {
                let beside = Beside {
                    before: before_last(&last.bytes),
                    header: &last.header,
                    ahead,
                };
                self.tell_to_end(asked, refusal, beside, reader, raw, sink)
            }
            Err(_) => Err(ToolFault::Reader),
        }
    }

    /// The same, once it was looked how the numbers go on after that line.
    fn run<R: Source, W: Target>(
        &mut self,
        asked: &Asked<'_>,
        refusal: &Refusal,
        last: &LastRead,
        reader: &mut R,
        sink: &mut Sink<W>,
    ) -> Result<(), ToolFault>
        requires begins { BeginsAt refusal.now self.old }
        ensures tells { TellsRead R.remaining R.failures reader.old reader.new W.contents W.failures
            (TellsRun (asking_of asked.now) (walk_of self.old) refusal.now last.now.bytes)
            result sink.old sink.new }
        ensures leaves { LeavesOrUnread (TellsLastUpTo (asking_of asked.now) (walk_of self.old)
            refusal.now last.now.bytes (R.remaining reader.old)) W.contents result sink.old
            sink.new }
    {
        match asked.peek(refusal, last, reader) {
            Ok(ahead) => self.run_on(asked, refusal, last, ahead, reader, sink),
            Err(_) => Err(ToolFault::Reader),
        }
    }
}

/// Whether a line has no fault of which so many were told at the fields from that one on.
fn is_good(told: u64, from: u8) -> bool
    ensures { result ≡ ((told == 0) && (from == 1)) }
{
    told == 0 && from == 1
}

/// The fault, where so many bytes were written in all.
fn counted(fault: ToolFault, written: u64) -> ToolFault
    ensures { result ≡ counted written fault }
{
    match fault {
        ToolFault::Writer { .. } => ToolFault::Writer { written },
        other => other,
    }
}

/// Hands on what was put after so many bytes of the run, and answers how it ended.
fn finish<W: Target>(
    found: Verdict,
    told: Result<(), ToolFault>,
    before: u64,
    sink: Sink<W>,
) -> (W, Result<Verdict, ToolFault>)
    ensures kept { Keeps (W.contents (writer_of sink)) (W.contents result.0) }
    ensures answer { EndsRun found (counted_up before (written_of sink)) told
        (W.failures (writer_of sink)) (W.failures result.0) result.1 }
    ensures handed_on { OnOk result.1 (W.handed_on result.0 ≡ true) }
{
    let written = before.saturating_add(sink.written());
    let mut writer = sink.into_inner();
    match told {
        Err(fault) => (writer, Err(counted(fault, written))),
        Ok(()) => match writer.flush() {
            Ok(()) => (writer, Ok(found)),
            Err(_) => (writer, Err(ToolFault::Writer { written })),
        },
    }
}

/// What is held before the line that was refused.
fn state_before(last: &LastRead, refusal: &Refusal) -> LintState
    ensures is { result ≡ state_at last.now.stage last.now.counts (refusal.now.rec - 1) }
    ensures lines { result.lines ≡ refusal.now.rec - 1 }
    ensures over { result.over ≡ false }
{
    let lines = u64::from(refusal.rec.saturating_sub(1));
    LintState::at(last.stage, &last.counts, lines)
}

/// Goes on after the first fault, which a check has met and not told, where that has told so many findings, there was so much advice of
/// each rule, and so many bytes were written, and answers the verdict.
fn tell_faults<R: Source, W: Target>(
    asked: &Asked<'_>,
    refusal: Refusal,
    last: &LastRead,
    findings: u64,
    advice: AdviceCounts,
    before: u64,
    reader: &mut R,
    writer: W,
) -> (W, Result<Verdict, ToolFault>)
    ensures told { OnOk result.1 (AppendsSuch W.contents writer result.0 (TellsAfter
        (asking_of asked.now) last.now findings advice refusal (R.remaining reader.old)
        (R.remaining reader.new))) }
    ensures words { AddsWords W.contents writer result.0 }
    ensures leaves { AppendsUpTo W.contents writer result.0 result.1 (TellsAfterUpTo
        (asking_of asked.now) last.now findings advice refusal (R.remaining reader.old)) }
    ensures counted { CountsAfter W.contents before writer result.0 result.1 }
    ensures taken { TakesMore (R.remaining reader.old) (R.remaining reader.new) }
    ensures answered { IsAnswerTo (Verdict.Refused refusal) result.1 }
    ensures reader_failures { CountsReaderFault result.1 (R.failures reader.old)
        (R.failures reader.new) }
    ensures writer_failures { CountsWriterFault result.1 (W.failures writer) (W.failures result.0) }
    ensures handed_on { OnOk result.1 (W.handed_on result.0 ≡ true) }
{
    let begins = state_before(last, &refusal);
    let mut lint = LintRun {
        state: begins,
        begun: None,
        faults: 1,
        findings,
        advice,
        work: open_work(&last.header),
    };
    let mut sink = Sink::new(writer);
    let told = lint.run(asked, &refusal, last, reader, &mut sink);
    finish(Verdict::Refused(refusal), told, before, sink)
}

/// Writes words on an input that ends too early, after so many bytes, and answers that verdict.
fn explain_end<W: Target>(
    alloc: Global,
    name: &str,
    records: u32,
    last: &LastRead,
    before: u64,
    writer: W,
) -> (W, Result<Verdict, ToolFault>)
    ensures added { AddsEnd W.contents writer result.0 result.1 }
    ensures counted { CountsAfter W.contents before writer result.0 result.1 }
    ensures answered { IsAnswerTo (Verdict.Truncated records) result.1 }
    ensures reader_failures { (failures : ℕ) → CountsReaderFault result.1 failures failures }
    ensures writer_failures { CountsWriterFault result.1 (W.failures writer) (W.failures result.0) }
    ensures handed_on { OnOk result.1 (W.handed_on result.0 ≡ true) }
{
    let mut sink = Sink::new(writer);
    let told = put_end_words(alloc, name, records, last, &mut sink);
    finish(Verdict::Truncated { records }, told, before, sink)
}

/// What a check told of a transmission before its first fault.
#[derive(Drop)]
struct Begun {
    /// The findings that were told. It stays at `u64::MAX`.
    findings: u64,
    /// What the header says, where advice is wanted.
    said: Option<Said>,
    /// How much advice came from each rule.
    advice: AdviceCounts,
}

/// Every fault in the place of a refusal, and words on an end that comes too early.
#[derive(Drop)]
struct Faults<'a> {
    /// The name of the input, where what is told is explained too.
    name: Option<&'a str>,
    /// All advice, or of each rule the first three pieces.
    all: bool,
}

impl<'a> Faults<'a> {
    /// Goes on after the verdict of a check that told so much.
    fn go_on_after<R: Source, W: Target>(
        &self,
        begun: Begun,
        alloc: Global,
        limits: Limits,
        verdict: Verdict,
        front: &Front,
        reader: &mut R,
        writer: W,
    ) -> (W, Result<Verdict, ToolFault>)
        requires held { IsTrue (is_some front.now.last) }
        requires handed_on { W.handed_on writer ≡ true }
        ensures says { (words : List ℕ) × Appends (W.contents writer) (W.contents result.0) words
            × SaysFollows (asking_so (is_some self.now.name) begun.said self.now.all) begun.findings
            begun.advice verdict front.now.last (R.remaining reader.old) (R.remaining reader.new)
            result.1 words }
        ensures taken { TakesMore (R.remaining reader.old) (R.remaining reader.new) }
        ensures answered { IsAnswerTo verdict result.1 }
        ensures counted { CountsAfter W.contents front.now.written writer result.0 result.1 }
        ensures reader_failures { CountsReaderFault result.1 (R.failures reader.old)
            (R.failures reader.new) }
        ensures writer_failures { CountsWriterFault result.1 (W.failures writer)
            (W.failures result.0) }
        ensures handed_on { OnOk result.1 (W.handed_on result.0 ≡ true) }
    {
        match verdict {
            Verdict::Good { .. } => (writer, Ok(verdict)),
            Verdict::Truncated { records } => match (self.name, &front.last) {
                (Some(name), Some(last)) => {
                    explain_end(alloc, name, records, last, front.written, writer)
                }
                _ => (writer, Ok(verdict)),
            },
            Verdict::Refused(refusal) => match &front.last {
                Some(last) => {
                    let Begun {
                        findings,
                        said,
                        advice,
                    } = begun;
                    let asked = Asked {
                        alloc,
                        limits,
                        name: self.name,
                        said,
                        all: self.all,
                    };
                    tell_faults(
                        &asked,
                        refusal,
                        last,
                        findings,
                        advice,
                        front.written,
                        reader,
                        writer,
                    )
                }
                None => unreachable!(),
            },
        }
    }
}

impl<'a> LastStep<FindingLines> for Faults<'a> {
    ghost use Rattle.std.specs.Prelude.{true, false, List};
    ghost use Rattle.std.specs.Option.{is_some};
    ghost use Rattle.cwr_values.specs.declared.items.Item.{Item};
    ghost use Rattle.cwr_tools.specs.Format.Reports.{ItemLines};
    ghost use Rattle.cwr_lint.specs.Steps.Lints.{HasBegun, SaysFaults};

    ghost holds = { λ step. true };

    ghost says = { λ before after lines limits. SaysFaults (λ said found advice. (of : ItemLines) (given : List Item)
        → ⟦<FindingLines as Report>⟧.stands lines of given → HasBegun false said found advice given) (is_some before.name) before.all };

    fn holds_last(&self) -> bool {
        true
    }

    fn go_on<R: Source, W: Target>(
        &mut self,
        lines: &FindingLines,
        alloc: Global,
        limits: Limits,
        verdict: Verdict,
        front: &Front,
        reader: &mut R,
        writer: W,
    ) -> (W, Result<Verdict, ToolFault>) {
        let told = lines.told();
        let begun = Begun {
            findings: told.findings,
            said: None,
            advice: AdviceCounts::nothing(),
        };
        self.go_on_after(begun, alloc, limits, verdict, front, reader, writer)
    }
}

impl<'a> LastStep<AdviceLines> for Faults<'a> {
    ghost use Rattle.std.specs.Prelude.{true, List};
    ghost use Rattle.std.specs.Option.{is_some};
    ghost use Rattle.cwr_values.specs.declared.items.Item.{Item};
    ghost use Rattle.cwr_advise.specs.Format.AdviceLines.{lines_advised};
    ghost use Rattle.cwr_advise.specs.declared.item_advice.Manner.{Manner};
    ghost use Rattle.cwr_lint.specs.Steps.Lints.{HasBegun, SaysFaults};

    ghost holds = { λ step. true };

    ghost says = { λ before after lines limits. SaysFaults (λ said found advice. (manner : Manner) (given : List Item)
        → ⟦<AdviceLines as Report>⟧.stands lines (lines_advised manner true 0) given → HasBegun true said found advice given)
        (is_some before.name) before.all };

    fn holds_last(&self) -> bool {
        true
    }

    fn go_on<R: Source, W: Target>(
        &mut self,
        lines: &AdviceLines,
        alloc: Global,
        limits: Limits,
        verdict: Verdict,
        front: &Front,
        reader: &mut R,
        writer: W,
    ) -> (W, Result<Verdict, ToolFault>) {
        let begun = Begun {
            findings: lines.findings(),
            said: Some(lines.said()),
            advice: lines.counts(),
        };
        self.go_on_after(begun, alloc, limits, verdict, front, reader, writer)
    }
}

/// Reads a transmission up to its end, and tells every fault of it.
///
/// Up to the first fault it is a check, and writes what `check` writes. In the place of a refusal it writes a line for each fault, the
/// refusal first, with the findings between them, and at the end how many faults and findings it told, and in how many lines. The
/// answer is the verdict of `check`. With a name for the input, lines under each say what `explain` says of it, and an empty line follows.
/// So they do under the line of an input that ends too early and has no fault before that.
/// Where advice is wanted, that on a transaction follows its findings: all of it, or of each rule the first three pieces, and then at the
/// end how much of each rule isn't told.
///
/// Where the reader or memory fails after the first fault, what is told up to there is written, and where the writer fails, the first of
/// the bytes that would be: so many as the fault says.
pub fn lint<R: Source, W: Target + Drop>(
    alloc: Global,
    limits: Limits,
    name: Option<&str>,
    advised: bool,
    all: bool,
    reader: &mut R,
    writer: W,
) -> (W, Result<Verdict, ToolFault>)
    // Of any reader, by what was read of it: the lines of a check, and what stands after them where a
    // device or memory fails.
    ensures lints { Lints (wanting (is_some name.entry) advised all) limits (R.remaining reader.old)
        (R.remaining reader.new) W.contents writer result.0 result.1 }
    ensures tells { IfOk result.1 (Tells (wanting (is_some name.entry) advised all) limits
        (R.remaining reader.old) (R.remaining reader.new) W.contents writer result.0) }
    ensures judged { JudgesText limits (R.remaining reader.old) result.1 }
    ensures accepted { IfOk result.1 (JudgesAccepted
        (lines_linted (wanting (is_some name.entry) advised all)) limits (R.remaining reader.old)
        (R.remaining reader.new) W.contents writer result.0) }
    // Where the writer failed, the fault says how many bytes were written in all.
    ensures written { CountsWritten W.contents writer result.0 result.1 }
    // No failure is passed over: a device failed only where that is the answer.
    ensures reader_failures { CountsReaderFault result.1 (R.failures reader.old)
        (R.failures reader.new) }
    ensures writer_failures { CountsWriterFault result.1 (W.failures writer) (W.failures result.0) }
    // All that was written was handed on.
    ensures handed_on { OnOk result.1 (W.handed_on result.0 ≡ true) }
{
    let explained = name.is_some();
    let mut faults = Faults { name, all };
    match advised {
        true => {
            let manner = Manner {
                explained,
                apart: explained,
                all,
            };
            let mut lines = AdviceLines::up_to_fault(alloc, manner);
            write_report_and(&mut lines, &mut faults, alloc, limits, reader, writer)
        }
        false => {
            let mut lines = FindingLines::up_to_fault(explained);
            write_report_and(&mut lines, &mut faults, alloc, limits, reader, writer)
        }
    }
}
