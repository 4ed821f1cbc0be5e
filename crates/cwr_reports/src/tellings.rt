//! Transmissions that are judged, shown, or written as data.

ghost use Rattle.std.specs.Prelude.{◌≡◌, ◌<◌, [], Option, option_map, true, false, not, IfOk, Ok, OnOk, None};
ghost use Rattle.cwr_devices.specs.Format.Failures.{most_failures};
ghost use Rattle.cwr_devices.specs.Steps.Sinks.{PutsText, has_failed};
ghost use Rattle.cwr_endings.specs.Format.Puts.{PutsOut, PutsQuiet};
ghost use Rattle.cwr_endings.specs.Steps.Looks.{CountsLook};
ghost use Rattle.cwr_reports.specs.Steps.Marked.{MarksRead, PassesRead, TellsQuiet, passing_asked, unwanted_line, unwanted_verdict};
ghost use Rattle.cwr_acks.specs.Format.AckLines.{lines_of_acks};
ghost use Rattle.cwr_shape.specs.declared.reasons.Level.{Level};
ghost use Rattle.cwr_tools.specs.Format.Reports.{CountsReaderFault, CountsWriterFault, ItemLines, ReportsText};
ghost use Rattle.cwr_tools.specs.Steps.Reports.{Reports};
ghost use Rattle.cwr_tools.specs.Format.Verdicts.{JudgesText};
ghost use Rattle.cwr_tools.specs.Format.Watching.{StandsAccepted, is_reached};
ghost use Rattle.cwr_reports.specs.Format.Endings.{EndsOnInput, advice_asked, advice_in, telling_by};
ghost use Rattle.cwr_files.specs.Format.Faults.{IfErr};
ghost use Rattle.cwr_files.specs.Steps.Inputs.{remaining_of};
ghost use Rattle.cwr_reports.specs.Steps.Tellings.{CountsFindings, CountsInput, CountsReading, CountsStop, CountsWriting, IsStopOf, ReportsUpTo, StopsTold, TellsLines, TellsOf, TellsText, telling_alone};
ghost use Rattle.cwr_reports.specs.Steps.Looks.{IsJudged, IsRead, JudgesOn, JudgesRead, LooksAfter, SeesFound, look_of, tells_findings};

use crate::exports::tell_cut;
use cwr_acks::{Form, Manner, acks};
use cwr_advise::AdviceLines;
use cwr_causes::Trailing;
use cwr_devices::{ReadAhead, Sink, SinkFault, Source, Target};
use cwr_endings::{
    Judgement, Look, Status, Stop, Wanted, hand_on, judgement_of, look_after, tell_characters,
    tell_findings, tell_following, tell_profile, tell_unanswering, tell_verdict, worst_level,
};
use cwr_explain::explain;
use cwr_fields::TransactionStatus;
use cwr_files::{Fault, FileLines, Input, Pace, Passing, Store, Told, Unmarked, end_input};
use cwr_json::Encoding;
use cwr_lint::lint;
use cwr_shape::{Level, Limits, Reason};
use cwr_tables::{Table, TableRows};
use cwr_tools::{
    CountedRecords, DataLines, FindingCount, FindingLines, Report, ToolFault, Verdict,
    put_verdict_line, write_report,
};
use std::alloc::Global;
use std::io::{Read, Write};
use std::marker::Brand;

/// What is written of a transmission.
#[derive(Clone, Copy, Debug)]
pub enum Telling<'a> {
    /// The findings, and the verdict.
    Findings,
    /// The same with what explains them, in which the input has that name.
    Explained(&'a str),
    /// Every fault in the place of a refusal; with what explains them where the input's name is given, and with advice or without: all of
    /// it, or of each rule the first three pieces.
    Faults {
        name: Option<&'a str>,
        advised: bool,
        all: bool,
    },
    /// The records with their cells, and the verdict.
    Records,
    /// The data as lines of JSON, and the verdict to standard error.
    Data {
        /// How cells are shown.
        encoding: Encoding,
        /// With the numbers of groups, transactions and lines.
        numbers: bool,
    },
    /// A table, and the verdict to standard error.
    Rows {
        /// How cells are shown.
        encoding: Encoding,
        /// What it has rows of.
        table: Table,
    },
    /// What the acknowledgements say, and the verdict to standard error.
    Answers {
        /// In what form.
        form: Form,
        /// Those with one of these statuses are told; without one all are.
        statuses: &'a [TransactionStatus],
    },
    /// The findings with what explains them, the advice, and the verdict.
    Advice {
        /// All advice, or of each rule the first three pieces.
        all: bool,
        /// The numbers of so many works are kept.
        repeated: u32,
    },
}

/// What is told of an input that is judged and is called so in lines, where it is explained too.
pub fn telling_of<'a>(asked: &Asked, explained: bool, name: &'a str) -> Telling<'a>
    ensures telling { result ≡ telling_by asked.now explained name.entry }
    ensures findings { tells_findings result ≡ not asked.now.faults }
    ensures advice { advice_in result ≡ advice_asked asked.now }
{
    match (asked.faults, asked.advised, explained) {
        (true, advised, _) => Telling::Faults {
            name: explained.then_some(name),
            advised,
            all: asked.all,
        },
        (false, true, _) => Telling::Advice {
            all: asked.all,
            repeated: asked.repeated,
        },
        (false, false, true) => Telling::Explained(name),
        (false, false, false) => Telling::Findings,
    }
}

/// How an input is judged.
#[derive(Clone, Copy, Debug)]
pub struct Asked {
    pub alloc: Global,
    pub limits: Limits,
    pub wanted: Wanted,
    /// Nothing is written of what is good; but where advice is asked for, only the verdict isn't.
    pub quiet: bool,
    /// Every fault is told.
    pub faults: bool,
    /// Advice is told.
    pub advised: bool,
    /// Of that all, where else of each rule the first three pieces are told.
    pub all: bool,
    /// For that the numbers of so many works are kept.
    pub repeated: u32,
}

impl Asked {
    /// Which of the lines that are told are written. Who asks for advice wants what stands before a good verdict.
    fn passing(&self) -> Passing
        ensures { result ≡ passing_asked self.now }
    {
        match (self.quiet, self.advised, self.faults) {
            (false, _, _) => Passing::All,
            (true, true, false) => Passing::Told,
            (true, _, _) => Passing::Bad,
        }
    }
}

/// What was counted of a transmission while it was told.
#[derive(Clone, Copy, Debug)]
pub(crate) struct Count {
    /// The findings, where these are told or counted.
    pub(crate) findings: FindingCount,
    /// The worst level of what counts for the status: of these, or where advice is told of all that is told.
    worst: Option<Level>,
    /// The acknowledgements, where what they say is told.
    pub(crate) answers: Option<u64>,
}

impl Count {
    /// Nothing was.
    fn nothing() -> Count
        ensures worst { result.worst ≡ None }
    {
        Count {
            findings: FindingCount::new(),
            worst: None,
            answers: None,
        }
    }

    /// These findings were.
    fn of_findings(findings: FindingCount) -> Count
        ensures findings { result.findings ≡ findings }
        ensures worst { result.worst ≡ findings.worst }
    {
        Count {
            findings,
            worst: findings.worst,
            answers: None,
        }
    }

    /// Something was told of which that is the worst level.
    fn of_advice(worst: Option<Level>) -> Count
        ensures worst { result.worst ≡ worst }
    {
        Count {
            findings: FindingCount::new(),
            worst,
            answers: None,
        }
    }

    /// So many acknowledgements were.
    fn of_answers(answers: u64) -> Count
        ensures worst { result.worst ≡ None }
    {
        Count {
            findings: FindingCount::new(),
            worst: None,
            answers: Some(answers),
        }
    }

    /// Whether something that counts for the status has the level, or a worse one; where no level is given, nothing has.
    fn reaches(&self, from: Option<Level>) -> bool
        ensures { result ≡ is_reached from self.now.worst }
    {
        let told = FindingCount {
            findings: 0,
            worst: self.worst,
        };
        told.reaches(from)
    }
}

/// What was found after a transmission, if that was looked for.
fn look_of(found: Option<Trailing>) -> Look
    ensures { result ≡ look_of found }
{
    match found {
        Some(trailing) => Look::Found(trailing),
        None => Look::Unasked,
    }
}

/// Writes what the acknowledgements of one transmission say, matched with nothing. The writer comes back, and how many there are.
fn acks_alone<R: Source, W: Target + Drop>(
    alloc: Global,
    limits: Limits,
    form: Form,
    statuses: &[TransactionStatus],
    reader: &mut R,
    writer: W,
) -> (W, Result<Verdict, ToolFault>, u64)
    ensures reported { Reports (lines_of_acks (telling_alone form statuses.now) None) limits
        (R.remaining reader.old) (R.remaining reader.new) W.contents writer result.0 result.1 }
    ensures told { ReportsText (lines_of_acks (telling_alone form statuses.now) None) limits
        (R.remaining reader.old) (R.remaining reader.new) W.contents writer result.0 result.1 }
    ensures handed_on { OnOk result.1 (W.handed_on result.0 ≡ true) }
    ensures reader_failures { CountsReaderFault result.1 (R.failures reader.old)
        (R.failures reader.new) }
    ensures writer_failures { CountsWriterFault result.1 (W.failures writer) (W.failures result.0) }
{
    let manner = Manner {
        form,
        statuses,
        file: None,
        names: &[],
    };
    let (writer, _, answers, outcome) = acks(alloc, limits, manner, None, reader, writer);
    (writer, outcome, answers.all)
}

/// Writes a report on a transmission, and looks what stands after it. The writer comes back.
fn report_and_look<L: Report, R: Source, W: Target + Drop>(
    alloc: Global,
    limits: Limits,
    lines: &mut L,
    reader: &mut R,
    writer: W,
) -> (W, Result<Verdict, ToolFault>, Look)
    requires { (of : ItemLines) × L.stands lines.old of [] }
    ensures judged { JudgesText limits (R.remaining reader.old) result.1 }
    ensures looks { OnOk result.1 (LooksAfter limits (R.remaining reader.old) result.2) }
    ensures told { (of : ItemLines) → L.stands lines.old of [] → ReportsUpTo of limits
        (R.remaining reader.old) W.contents writer result.0 result.1 }
    // Where the text is accepted, it is as its transmission's items leave it.
    ensures stands { (of : ItemLines) → L.stands lines.old of [] → OnOk result.1
        (StandsAccepted (L.stands lines.new of) limits (R.remaining reader.old)) }
    ensures handed_on { OnOk result.1 (W.handed_on result.0 ≡ true) }
    ensures reader_failures { CountsReading result.1 result.2 (R.failures reader.old)
        (R.failures reader.new) }
    ensures writer_failures { CountsWriterFault result.1 (W.failures writer) (W.failures result.0) }
{
    let (writer, outcome) = write_report(lines, alloc, limits, reader, writer);
    let look = look_after(reader, &outcome);
    (writer, outcome, look)
}

/// Reads a transmission, writes what is told of it, and looks what stands after it. The writer comes back, and what was counted.
fn tell<R: Source, W: Target + Drop>(
    alloc: Global,
    limits: Limits,
    telling: Telling<'_>,
    reader: &mut R,
    writer: W,
) -> (W, Result<Verdict, ToolFault>, Look, Count)
    ensures judged { JudgesText limits (R.remaining reader.old) result.1 }
    // Where the text is accepted, the worst level is that of what counts of its transmission. Where nothing does, no level is asked for.
    ensures seen { (from : Option Level) → (tells_findings telling.entry ≡ false → from ≡ None)
        → OnOk result.1 (SeesFound (advice_in telling.entry) from limits (R.remaining reader.old)
        (is_reached from result.3.worst)) }
    ensures looks { OnOk result.1 (LooksAfter limits (R.remaining reader.old) result.2) }
    ensures counted { OnOk result.1
        (CountsFindings telling.entry limits (R.remaining reader.old) result.3.findings) }
    // What is asked for was written, and handed on.
    ensures told { TellsText telling.entry limits (R.remaining reader.old) W.contents writer
        result.0 result.1 }
    ensures handed_on { OnOk result.1 (W.handed_on result.0 ≡ true) }
    // No failure is passed over, and none is answered that didn't come.
    ensures reader_failures { CountsReading result.1 result.2 (R.failures reader.old)
        (R.failures reader.new) }
    ensures writer_failures { CountsWriterFault result.1 (W.failures writer) (W.failures result.0) }
{
    match telling {
        Telling::Findings => {
            let mut findings = FindingLines::new();
            let (writer, outcome, look) = report_and_look(
                alloc,
                limits,
                &mut findings,
                reader,
                writer,
            );
            (writer, outcome, look, Count::of_findings(findings.told()))
        }
        Telling::Explained(name) => {
            let (writer, outcome, found, findings) = explain(alloc, limits, name, reader, writer);
            (
                writer,
                outcome,
                look_of(found),
                Count::of_findings(findings),
            )
        }
        Telling::Faults { name, advised, all } => {
            let (writer, outcome) = lint(alloc, limits, name, advised, all, reader, writer);
            let look = look_after(reader, &outcome);
            (writer, outcome, look, Count::nothing())
        }
        Telling::Records => {
            let mut records = CountedRecords::new();
            let (writer, outcome, look) = report_and_look(
                alloc,
                limits,
                &mut records,
                reader,
                writer,
            );
            (writer, outcome, look, Count::of_findings(records.found()))
        }
        Telling::Data { encoding, numbers } => {
            let mut data = DataLines::new(encoding, numbers);
            let (writer, outcome, look) = report_and_look(alloc, limits, &mut data, reader, writer);
            (writer, outcome, look, Count::nothing())
        }
        Telling::Rows { encoding, table } => {
            let mut rows = TableRows::new(encoding, table);
            let (writer, outcome, look) = report_and_look(alloc, limits, &mut rows, reader, writer);
            (writer, outcome, look, Count::nothing())
        }
        Telling::Answers { form, statuses } => {
            let (writer, outcome, answers) = acks_alone(
                alloc, limits, form, statuses, reader, writer,
            );
            let look = look_after(reader, &outcome);
            (writer, outcome, look, Count::of_answers(answers))
        }
        Telling::Advice { all, repeated } => {
            let mut advice = AdviceLines::new(alloc, all, repeated);
            let (writer, outcome, look) = report_and_look(
                alloc,
                limits,
                &mut advice,
                reader,
                writer,
            );
            (writer, outcome, look, Count::of_advice(advice.worst()))
        }
    }
}

/// Judges what a reader has, and writes what is told of it. The writer comes back, with how many findings were told.
fn judge_source<R: Source, W: Target + Drop>(
    asked: &Asked,
    telling: Telling<'_>,
    reader: &mut R,
    writer: W,
) -> (W, Result<Judgement, ToolFault>, Count)
    requires { tells_findings telling ≡ false → asked.now.wanted.fail_on ≡ None }
    ensures judges { JudgesOn (advice_in telling.entry) asked.now.limits asked.now.wanted
        (R.remaining reader.old) result.1 }
    ensures read { IfOk result.1 IsJudged }
    ensures counted { OnOk result.1
        (CountsFindings telling.entry asked.now.limits (R.remaining reader.old) result.2.findings) }
    ensures told { IfOk result.1 (λ judgement. TellsText telling.entry asked.now.limits
        (R.remaining reader.old) W.contents writer result.0 (Ok judgement.verdict)) }
    // Where it failed, what was told up to there was written.
    ensures stopped { IfErr result.1 (StopsTold telling.entry asked.now.limits (R.remaining reader.old) W.contents writer result.0) }
    ensures handed_on { OnOk result.1 (W.handed_on result.0 ≡ true) }
    // A fault of a device is answered only where that device counted one more failure.
    ensures reader_failures { CountsInput result.1 (R.failures reader.old) (R.failures reader.new) }
    ensures writer_failures { CountsWriting result.1 (W.failures writer) (W.failures result.0) }
{
    let (writer, outcome, look, count) = tell(asked.alloc, asked.limits, telling, reader, writer);
    let found = count.reaches(asked.wanted.fail_on);
    let judged = judgement_of(asked.wanted, outcome, look, found);
    (writer, judged, count)
}

/// Judges an input, and writes what is told of it. The writer comes back, what is known of the input where it fails, and
/// how many findings were told.
pub(crate) fn judge_input<'a, S: Store, I: Read + Drop, P: Pace + Drop, W: Target + Drop>(
    store: &mut S,
    asked: &Asked,
    telling: Telling<'_>,
    input: Input<'a, S::Reader, I, P>,
    writer: W,
) -> (W, Result<Judgement, ToolFault>, Told<'a>, Count)
    requires { tells_findings telling ≡ false → asked.now.wanted.fail_on ≡ None }
    ensures judges { JudgesOn (advice_in telling.entry) asked.now.limits asked.now.wanted
        (remaining_of S.Reader.remaining I.remaining input.entry) result.1 }
    ensures read { IfOk result.1 IsJudged }
    ensures counted { OnOk result.1 (CountsFindings telling.entry asked.now.limits
        (remaining_of S.Reader.remaining I.remaining input.entry) result.3.findings) }
    ensures told { IfOk result.1 (λ judgement. TellsText telling.entry asked.now.limits
        (remaining_of S.Reader.remaining I.remaining input.entry) W.contents writer result.0
        (Ok judgement.verdict)) }
    ensures stopped { IfErr result.1 (StopsTold telling.entry asked.now.limits
        (remaining_of S.Reader.remaining I.remaining input.entry) W.contents writer result.0) }
    ensures handed_on { OnOk result.1 (W.handed_on result.0 ≡ true) }
    ensures reader_failures { CountsInput result.1 (S.failures store.old) (S.failures store.new) }
    ensures writer_failures { CountsWriting result.1 (W.failures writer) (W.failures result.0) }
    ensures kept { S.held store.new ≡ S.held store.old }
    ensures making { S.making store.new ≡ S.making store.old }
{
    let mut reader = ReadAhead::new(input);
    let (writer, judged, count) = judge_source(asked, telling, &mut reader, writer);
    (writer, judged, end_input(store, reader), count)
}

/// The level at which an input is rejected by this profile, if it is. A limit is the caller's own.
pub(crate) fn rejected_level(verdict: &Verdict, count: &Count) -> Option<Level> {
    match verdict {
        Verdict::Refused(refusal) if matches!(refusal.reason, Reason::Limit(_)) => {
            count.findings.worst
        }
        _ => worst_level(verdict, &count.findings),
    }
}

/// Whether cells of a transmission are shown as characters, and read as ISO 8859-1 for that.
fn reads_latin(telling: Telling<'_>) -> bool {
    matches!(
        telling,
        Telling::Data {
            encoding: Encoding::Latin1,
            ..
        } | Telling::Rows {
            encoding: Encoding::Latin1,
            ..
        } | Telling::Answers {
            form: Form::Json(Encoding::Latin1),
            ..
        }
    )
}

/// Tells on standard error what is not among the lines: what follows the transmission, what findings beside a good verdict mean, and the
/// verdict beside data, with the characters that its header names. Quiet lines have no findings.
pub(crate) fn tell_aside<E: Write>(
    error: &mut E,
    telling: Telling<'_>,
    told: &Told<'_>,
    judgement: &Judgement,
    count: &Count,
    quiet: bool,
) {
    let name = told.name;
    match telling {
        // What follows stands in the explanation, and so do findings.
        Telling::Explained(_) => {
            if let (true, Verdict::Good { .. }) = (quiet, judgement.verdict) {
                tell_findings(&mut *error, name, &count.findings, judgement.status);
            }
        }
        Telling::Findings | Telling::Records => {
            tell_following(&mut *error, name, &judgement.look);
            if let Verdict::Good { .. } = judgement.verdict {
                tell_findings(&mut *error, name, &count.findings, judgement.status);
            }
        }
        Telling::Faults { .. } | Telling::Advice { .. } => {
            tell_following(&mut *error, name, &judgement.look);
        }
        Telling::Data { .. } | Telling::Rows { .. } => {
            tell_verdict(&mut *error, name, judgement);
        }
        Telling::Answers { .. } => {
            tell_verdict(&mut *error, name, judgement);
            if let Some(answers) = count.answers {
                tell_unanswering(&mut *error, name, judgement, answers, false);
            }
        }
    }
    if reads_latin(telling) {
        tell_characters(error, told);
    }
}

/// Puts the verdict on what is good and has less than was wanted, which quiet lines leave out.
fn put_unwanted_verdict<W: Target>(
    judgement: &Judgement,
    sink: &mut Sink<W>,
) -> Result<(), SinkFault>
    requires { has_failed sink.old ≡ false }
    ensures { PutsText W.contents W.failures (unwanted_verdict judgement.now.status judgement.now.verdict) result sink.old sink.new }
{
    match (judgement.status, judgement.verdict) {
        (Status::Refused | Status::CommandLine | Status::Fault, Verdict::Good { .. }) => {
            put_verdict_line(&judgement.verdict, sink)
        }
        (Status::Good, _) | (_, Verdict::Refused(_) | Verdict::Truncated { .. }) => Ok(()),
    }
}

/// Puts it, and has it handed on.
fn put_unwanted<'a, W: Target>(judgement: &Judgement, lines: W) -> (W, Result<(), Stop<'a>>)
    ensures handed_on { OnOk result.1 (W.handed_on result.0 ≡ true) }
    ensures stopped { IfErr result.1 (λ stop. stop ≡ Stop.Output) }
    ensures puts { PutsOut W.contents W.failures (unwanted_verdict judgement.now.status judgement.now.verdict) result.1 lines result.0 }
{
    let mut sink = Sink::new(lines);
    let put = put_unwanted_verdict(judgement, &mut sink);
    hand_on(put, sink)
}

/// Why a run stopped, where an input or its lines failed so.
fn stop_of<'a>(fault: ToolFault, told: Told<'a>) -> Stop<'a>
    ensures { IsStopOf told.entry fault result }
{
    match fault {
        ToolFault::Reader => Stop::Fault(Fault::Read(told)),
        ToolFault::Writer { .. } => Stop::Output,
        _ => Stop::Fault(Fault::Memory),
    }
}

/// The lines on an input that aren't quiet.
fn all_lines_on<'a, S: Store, I: Read + Drop, P: Pace + Drop, W: Target + Drop>(
    store: &mut S,
    asked: &Asked,
    telling: Telling<'_>,
    input: Input<'a, S::Reader, I, P>,
    lines: W,
) -> (W, Result<(Judgement, Told<'a>, Count), Stop<'a>>)
    requires { tells_findings telling ≡ false → asked.now.wanted.fail_on ≡ None }
    ensures judges { JudgesRead (advice_in telling.entry) asked.now.limits asked.now.wanted
        (remaining_of S.Reader.remaining I.remaining input.entry) result.1 }
    ensures read { IfOk result.1 (λ read. IsJudged read.0) }
    ensures told { TellsLines telling.entry asked.now.limits
        (remaining_of S.Reader.remaining I.remaining input.entry) W.contents lines result.0 result.1 }
    ensures handed_on { OnOk result.1 (W.handed_on result.0 ≡ true) }
    ensures failures { CountsStop result.1 (S.failures store.old) (S.failures store.new)
        (W.failures lines) (W.failures result.0) }
    ensures kept { S.held store.new ≡ S.held store.old }
    ensures making { S.making store.new ≡ S.making store.old }
{
    let (lines, judged, told, count) = judge_input(store, asked, telling, input, lines);
    match judged {
        Ok(judgement) => (lines, Ok((judgement, told, count))),
        Err(fault) => (lines, Err(stop_of(fault, told))),
    }
}

/// How lines on an input are marked.
#[derive(Clone, Copy, Debug)]
struct Marks<'n> {
    /// The name before each, if there is one.
    name: Option<&'n str>,
    /// Which are passed on.
    passing: Passing,
}

/// The lines on an input that are passed on, each with the name before it if there is one.
fn write_marked<'a, B: Unmarked, S: Store, I: Read + Drop, P: Pace + Drop, W: Target + Drop>(
    store: &mut S,
    asked: &Asked,
    telling: Telling<'_>,
    marks: Marks<'_>,
    input: Input<'a, S::Reader, I, P>,
    lines: W,
) -> (W, Result<(Judgement, Told<'a>, Count), Stop<'a>>)
    requires wanted { tells_findings telling ≡ false → asked.now.wanted.fail_on ≡ None }
    requires start { B.start ≡ W.contents lines }
    requires failures { B.failures ≡ W.failures lines }
    requires name { B.name ≡ option_map (λ n. n.now) marks.name }
    requires passing { B.passing ≡ marks.passing }
    ensures judges { JudgesRead (advice_in telling.entry) asked.now.limits asked.now.wanted
        (remaining_of S.Reader.remaining I.remaining input.entry) result.1 }
    ensures read { IfOk result.1 (λ read. IsJudged read.0) }
    ensures told { W.failures lines < most_failures → PassesRead asked.now.limits telling.entry (option_map (λ n. n.now) marks.entry.name)
        marks.entry.passing (remaining_of S.Reader.remaining I.remaining input.entry) W.contents lines result.0 result.1 }
    ensures handed_on { OnOk result.1 (W.handed_on result.0 ≡ true) }
    ensures failures { CountsStop result.1 (S.failures store.old) (S.failures store.new)
        (W.failures lines) (W.failures result.0) }
    ensures looks { IfOk result.1 (λ read. CountsLook read.0.look (S.failures store.old) (S.failures store.new)) }
    ensures kept { S.held store.new ≡ S.held store.old }
    ensures making { S.making store.new ≡ S.making store.old }
{
    let marked: FileLines<'_, B, W> = FileLines::new(lines, marks.name, marks.passing);
    let (marked, judged, told, count) = judge_input(store, asked, telling, input, marked);
    let lines = marked.into_inner();
    match judged {
        Ok(judgement) => (lines, Ok((judgement, told, count))),
        Err(fault) => (lines, Err(stop_of(fault, told))),
    }
}

/// Puts the verdict on what is good and has less than was wanted, with the name before it, and has it handed on.
fn put_marked<'a, B: Unmarked, W: Target + Drop>(
    marks: Marks<'_>,
    judgement: &Judgement,
    lines: W,
) -> (W, Result<(), Stop<'a>>)
    requires start { B.start ≡ W.contents lines }
    requires failures { B.failures ≡ W.failures lines }
    requires name { B.name ≡ option_map (λ n. n.now) marks.name }
    requires passing { B.passing ≡ Passing.All }
    ensures handed_on { OnOk result.1 (W.handed_on result.0 ≡ true) }
    ensures stopped { IfErr result.1 (λ stop. stop ≡ Stop.Output) }
    ensures puts { PutsOut W.contents W.failures (unwanted_line true (option_map (λ n. n.now) marks.entry.name) judgement.now)
        result.1 lines result.0 }
{
    let all: FileLines<'_, B, W> = FileLines::new(lines, marks.name, Passing::All);
    let (all, put) = put_unwanted(judgement, all);
    (all.into_inner(), put)
}

/// The lines on an input, each with the name before it if there is one: all of them, or quiet ones.
pub(crate) fn marked_lines_on<'a, S: Store, I: Read + Drop, P: Pace + Drop, W: Target + Drop>(
    store: &mut S,
    asked: &Asked,
    telling: Telling<'_>,
    name: Option<&str>,
    input: Input<'a, S::Reader, I, P>,
    lines: W,
) -> (W, Result<(Judgement, Told<'a>, Count), Stop<'a>>)
    requires { tells_findings telling ≡ false → asked.now.wanted.fail_on ≡ None }
    ensures judges { JudgesRead (advice_in telling.entry) asked.now.limits asked.now.wanted
        (remaining_of S.Reader.remaining I.remaining input.entry) result.1 }
    ensures read { IfOk result.1 (λ read. IsJudged read.0) }
    ensures told { W.failures lines < most_failures → MarksRead asked.now telling.entry (option_map (λ n. n.now) name.entry)
        (remaining_of S.Reader.remaining I.remaining input.entry) W.contents lines result.0 result.1 }
    ensures handed_on { OnOk result.1 (W.handed_on result.0 ≡ true) }
    ensures failures { CountsStop result.1 (S.failures store.old) (S.failures store.new)
        (W.failures lines) (W.failures result.0) }
    ensures looks { IfOk result.1 (λ read. CountsLook read.0.look (S.failures store.old) (S.failures store.new)) }
    ensures kept { S.held store.new ≡ S.held store.old }
    ensures making { S.making store.new ≡ S.making store.old }
{
    let marks = Marks {
        name,
        passing: asked.passing(),
    };
    let (lines, read) = write_marked::<Brand, S, I, P, W>(
        store, asked, telling, marks, input, lines,
    );
    match read {
        Ok((judgement, told, count)) => {
            let (lines, put) = put_quiet(asked, marks, &judgement, lines);
            match put {
                Ok(()) => (lines, Ok((judgement, told, count))),
                Err(stop) => (lines, Err(stop)),
            }
        }
        Err(stop) => (lines, Err(stop)),
    }
}

/// Puts behind quiet lines the verdict on what is good and has less than was wanted, and has it handed on.
fn put_quiet<'a, W: Target + Drop>(
    asked: &Asked,
    marks: Marks<'_>,
    judgement: &Judgement,
    lines: W,
) -> (W, Result<(), Stop<'a>>)
    requires { W.handed_on lines ≡ true }
    ensures handed_on { OnOk result.1 (W.handed_on result.0 ≡ true) }
    ensures stopped { IfErr result.1 (λ stop. stop ≡ Stop.Output) }
    ensures puts { PutsQuiet W.contents W.failures (unwanted_line asked.now.quiet (option_map (λ n. n.now) marks.entry.name) judgement.now)
        result.1 lines result.0 }
{
    if asked.quiet {
        put_marked::<Brand, W>(marks, judgement, lines)
    } else {
        (lines, Ok(()))
    }
}

/// The lines on an input, all of them or quiet ones.
fn lines_on<'a, S: Store, I: Read + Drop, P: Pace + Drop, W: Target + Drop>(
    store: &mut S,
    asked: &Asked,
    telling: Telling<'_>,
    input: Input<'a, S::Reader, I, P>,
    lines: W,
) -> (W, Result<(Judgement, Told<'a>, Count), Stop<'a>>)
    requires { tells_findings telling ≡ false → asked.now.wanted.fail_on ≡ None }
    ensures judges { JudgesRead (advice_in telling.entry) asked.now.limits asked.now.wanted
        (remaining_of S.Reader.remaining I.remaining input.entry) result.1 }
    ensures read { IfOk result.1 (λ read. IsJudged read.0) }
    ensures told { asked.now.quiet ≡ false → TellsLines telling.entry asked.now.limits
        (remaining_of S.Reader.remaining I.remaining input.entry) W.contents lines result.0 result.1 }
    ensures quiet { asked.now.quiet ≡ true → W.failures lines < most_failures → MarksRead asked.now telling.entry None
        (remaining_of S.Reader.remaining I.remaining input.entry) W.contents lines result.0 result.1 }
    ensures handed_on { OnOk result.1 (W.handed_on result.0 ≡ true) }
    ensures failures { CountsStop result.1 (S.failures store.old) (S.failures store.new)
        (W.failures lines) (W.failures result.0) }
    ensures kept { S.held store.new ≡ S.held store.old }
    ensures making { S.making store.new ≡ S.making store.old }
{
    if asked.quiet {
        marked_lines_on(store, asked, telling, None, input, lines)
    } else {
        all_lines_on(store, asked, telling, input, lines)
    }
}

/// Reports on an input: writes what is told of it, and what isn't among those lines to standard error. The writer comes back.
pub fn report_input<'a, S: Store, I: Read + Drop, P: Pace + Drop, W: Target + Drop, E: Write>(
    store: &mut S,
    asked: &Asked,
    telling: Telling<'_>,
    input: Input<'a, S::Reader, I, P>,
    lines: W,
    error: &mut E,
) -> (W, Result<Status, Stop<'a>>)
    requires { tells_findings telling ≡ false → asked.now.wanted.fail_on ≡ None }
    ensures ends { EndsOnInput (advice_in telling.entry) asked.now.limits asked.now.wanted
        (remaining_of S.Reader.remaining I.remaining input.entry) result.1 }
    // It is never that of a fault.
    ensures read { IfOk result.1 IsRead }
    // Where lines aren't quiet, those that are asked for were written.
    ensures told { asked.now.quiet ≡ false → TellsOf telling.entry asked.now.limits S.Reader.remaining I.remaining
        input.entry W.contents lines result.0 result.1 }
    // Where they are, those of them were that aren't on what is good, and on what has less than was wanted its verdict.
    ensures quiet { asked.now.quiet ≡ true → W.failures lines < most_failures → TellsQuiet asked.now telling.entry S.Reader.remaining
        I.remaining input.entry W.contents lines result.0 result.1 }
    ensures handed_on { OnOk result.1 (W.handed_on result.0 ≡ true) }
    // A fault of a device is answered only where that device counted one more failure.
    ensures failures { CountsStop result.1 (S.failures store.old) (S.failures store.new)
        (W.failures lines) (W.failures result.0) }
    ensures kept { S.held store.new ≡ S.held store.old }
    ensures making { S.making store.new ≡ S.making store.old }
{
    let (lines, read) = lines_on(store, asked, telling, input, lines);
    let (judgement, told, count) = match read {
        Ok(read) => read,
        Err(stop) => return (lines, Err(stop)),
    };
    tell_aside(&mut *error, telling, &told, &judgement, &count, asked.quiet);
    if let Telling::Explained(_) = telling {
        tell_profile(&mut *error, rejected_level(&judgement.verdict, &count));
    }
    tell_cut(error, telling, told.name, &judgement.verdict);
    (lines, Ok(judgement.status))
}
