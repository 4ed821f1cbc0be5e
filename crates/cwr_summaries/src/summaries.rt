//! Several inputs that are summed up one after another.

ghost use Rattle.std.specs.Prelude.{◌≡◌, ◌≢◌, ◌++◌, ◌||◌, nat_lt, ℕ, List, [], ◌∷◌, Option, None, Some, true, length, map, option_map, option_to_list, IfOk, IfSome, OnOk};
ghost use Rattle.std.specs.Io.KnownBytes.{Appends};
ghost use Rattle.cwr_sent.specs.Format.SentFacts.{sender_of};
ghost use Rattle.cwr_tools.specs.Format.Texts.{verdict_line};
ghost use Rattle.cwr_files.specs.Format.Faults.{IfErr};
ghost use Rattle.cwr_files.specs.declared.faults.Fault.{Fault};
ghost use Rattle.cwr_files.specs.Steps.Inputs.{remaining_of};
ghost use Rattle.cwr_endings.specs.Format.Endings.{IsStatusBy, worse_status};
ghost use Rattle.cwr_endings.specs.Format.Puts.{PutsOut};
ghost use Rattle.cwr_reports.specs.Format.Endings.{Counts, EndsOnEach};
ghost use Rattle.cwr_reports.specs.Steps.Looks.{IsJudged};
ghost use Rattle.cwr_reports.specs.Steps.Marked.{CountsOutput};
ghost use Rattle.cwr_reports.specs.Steps.Several.{IsFirst};
ghost use Rattle.cwr_answers.specs.Format.Endings.{wanted_of};
ghost use Rattle.cwr_answers.specs.Steps.Reading.{CountsOne, IsMemory, IsUntold};
ghost use Rattle.cwr_digests.specs.Format.Digests.{HasBytes};
ghost use Rattle.cwr_summary_rows.specs.Format.Rows.{row_text};
ghost use Rattle.cwr_summary_rows.specs.Format.Shown.{cells_of, row_value};
ghost use Rattle.cwr_summaries.specs.Format.Rows.{SummedInput, cells_in, failed_row, heading_in, is_among, name_in, rows_text, senders_in, unended};
ghost use Rattle.cwr_summaries.specs.Format.Summed.{summed};
ghost use Rattle.cwr_summaries.specs.Steps.Pieces.{CountsFault};
ghost use Rattle.cwr_summaries.specs.Steps.Rows.{AddsInput, AreTotals, IsFound, IsFoundOf, TellsInputs, TellsNext, TellsRows, WritesSums, failed_input, if_good, input_of, many_with, many_with_if, row_of};
ghost use Rattle.cwr_summaries.specs.Steps.Summing.{EndsOnSummed};

use crate::names::name_in;
use crate::summed_files::{SummedFile, judge, read_on};
use cwr_devices::{Counted, ReadAhead, Sink, Target};
use cwr_digests::{DigestedRead, Whole};
use cwr_endings::{Judgement, Look, Status, Stop, Sums, hand_on, tell_following};
use cwr_fields::Kind;
use cwr_files::{DASH, Fault, Input, Pace, Store, Told, open_input, tell_fault};
use cwr_findings::is_of;
use cwr_lines::{Record, RecordRef};
use cwr_sent::AnsweringFile;
use cwr_shape::Limits;
use cwr_summary::Summary;
use cwr_summary_rows::{Form, Header, Row, put_heading, put_row};
use cwr_tools::{ToolFault, Verdict, put_verdict_line};
use std::alloc::Global;
use std::io;
use std::io::{Read, Write};
use std::marker::Brand;

/// Inputs that are summed up, and how.
#[derive(Clone, Copy, Debug)]
pub struct Summing<'t, 'a> {
    pub alloc: Global,
    pub limits: Limits,
    /// Nothing may follow a transmission.
    pub whole: bool,
    /// How rows are put.
    pub form: Form,
    /// Digests are told.
    pub digests: bool,
    /// How much advice there is.
    pub advised: bool,
    /// Just the sums are told.
    pub quiet: bool,
    /// The names of the files; without one that on standard input is read.
    pub files: &'t [&'a str],
}

impl Summing<'_, '_> {
    /// Whether the sums are told.
    fn tells_sums(&self) -> bool
        ensures { result ≡ (self.now.quiet || nat_lt 1 (length self.now.files.now)) }
    {
        self.quiet || self.files.len() > 1
    }
}

/// What was found of an input that was read to its end.
#[derive(Drop)]
struct Found {
    judgement: Judgement,
    summed: SummedFile,
    bytes: u64,
    after: u64,
    digest: Option<[u8; 32]>,
}

/// What is counted of several inputs.
#[derive(Drop)]
struct Totals {
    sums: Sums,
    /// Of the good ones.
    bytes: u64,
    after: u64,
    summary: Summary,
    /// How many pieces of advice have level T, R and F.
    advice: (u64, u64, u64),
    /// The types and IDs of their senders, each once.
    senders: Vec<[u8; 11]>,
}

/// What was found of an input, where it was judged and read to its end.
fn found_of(
    summed: SummedFile,
    judged: Result<Judgement, ToolFault>,
    rest: Result<u64, ToolFault>,
    bytes: u64,
    digest: Option<[u8; 32]>,
) -> Result<Found, ToolFault>
    ensures judged { IsFoundOf judged rest result }
    ensures kept { IfOk result (λ found. (found.summed ≡ summed) × (found.bytes ≡ bytes) × (found.digest ≡ digest)) }
    ensures seen { IfOk result (λ found. found.judgement.look ≢ Look.Failed) }
{
    let judgement = judged?;
    let rest = rest?;
    let after = match judgement.look {
        Look::Failed => return Err(ToolFault::Reader),
        Look::Found(trailing) => trailing.bytes.saturating_add(rest),
        Look::Unasked => rest,
    };
    Ok(Found {
        judgement,
        summed,
        bytes,
        after,
        digest,
    })
}

/// Reads an input to its end, and sums it up.
fn read_whole<'a, B: Whole, S: Store, I: Read + Drop, P: Pace + Drop>(
    store: &mut S,
    summing: &Summing<'_, 'a>,
    input: Input<'a, S::Reader, I, P>,
) -> (Result<Found, ToolFault>, Told<'a>)
    requires whole { B.whole ≡ remaining_of S.Reader.remaining I.remaining input }
    requires asked { B.digests ≡ summing.now.digests }
    ensures judges { IfOk result.0 (λ found. IfSome (remaining_of S.Reader.remaining I.remaining input.entry) (λ text.
        IsStatusBy (Counts None) summing.now.limits (wanted_of summing.now.whole) text found.judgement.status)) }
    ensures read { IfOk result.0 (λ found. IsJudged found.judgement) }
    // It has so many bytes, and that digest.
    ensures bytes { IfOk result.0 (λ found. HasBytes summing.now.digests (remaining_of S.Reader.remaining I.remaining input.entry)
        found.bytes found.digest) }
    // What is summed up are the items before its end, and so many bytes stand behind a good transmission.
    ensures found { IfOk result.0 (λ found. IfSome (remaining_of S.Reader.remaining I.remaining input.entry) (λ text.
        IsFound summing.now.limits text found)) }
    ensures failures { CountsFault result.0 (S.failures store.old) (S.failures store.new) }
    ensures seen { IfOk result.0 (λ found. found.judgement.look ≢ Look.Failed) }
    ensures kept { S.held store.new ≡ S.held store.old }
{
    let digested: DigestedRead<B, Input<'a, S::Reader, I, P>> = DigestedRead::new(
        input,
        summing.digests,
    );
    let mut reader = ReadAhead::new(digested);
    let mut summed = SummedFile::new(summing);
    let nowhere = Counted::new(io::sink());
    let (_, judged) = judge(summing, &mut summed, &mut reader, nowhere);
    let rest = read_on(&judged, &mut reader);
    let (input, bytes, digest) = store.end(reader).end();
    let found = found_of(summed, judged, rest, bytes, digest);
    (found, input.told())
}

/// The same of an input whose bytes nothing names.
fn read_input<'a, S: Store, I: Read + Drop, P: Pace + Drop>(
    store: &mut S,
    summing: &Summing<'_, 'a>,
    input: Input<'a, S::Reader, I, P>,
) -> (Result<Found, ToolFault>, Told<'a>)
    ensures judges { IfOk result.0 (λ found. IfSome (remaining_of S.Reader.remaining I.remaining input.entry) (λ text.
        IsStatusBy (Counts None) summing.now.limits (wanted_of summing.now.whole) text found.judgement.status)) }
    ensures read { IfOk result.0 (λ found. IsJudged found.judgement) }
    ensures bytes { IfOk result.0 (λ found. HasBytes summing.now.digests (remaining_of S.Reader.remaining I.remaining input.entry)
        found.bytes found.digest) }
    ensures found { IfOk result.0 (λ found. IfSome (remaining_of S.Reader.remaining I.remaining input.entry) (λ text.
        IsFound summing.now.limits text found)) }
    ensures failures { CountsFault result.0 (S.failures store.old) (S.failures store.new) }
    ensures seen { IfOk result.0 (λ found. found.judgement.look ≢ Look.Failed) }
    ensures kept { S.held store.new ≡ S.held store.old }
{
    read_whole::<Brand, S, I, P>(store, summing, input)
}

/// The line that says how a text ended.
fn verdict_text<'a>(alloc: Global, verdict: &Verdict) -> Result<Vec<u8>, Fault<'a>>
    ensures memory { IfErr result IsMemory }
    ensures text { IfOk result (λ text. text.items ≡ verdict_line verdict.now) }
{
    let mut sink = Sink::new(Counted::new(Vec::new(alloc)));
    match put_verdict_line(verdict, &mut sink) {
        Ok(()) => Ok(sink.into_inner().into_inner()),
        Err(_) => Err(Fault::Memory),
    }
}

/// A line without its line feed.
fn unended(line: &[u8]) -> &[u8]
    ensures { result.now ≡ unended line.now }
{
    &line[..line.len().saturating_sub(1)]
}

/// Puts a row, and has it handed on. The writer comes back.
fn write_row<'a, W: Target>(form: Form, row: &Row<'_>, lines: W) -> (W, Result<(), Stop<'a>>)
    ensures handed_on { OnOk result.1 (W.handed_on result.0 ≡ true) }
    ensures stopped { IfErr result.1 (λ stop. stop ≡ Stop.Output) }
    ensures puts { PutsOut W.contents W.failures (row_text form (row_value row.now)) result.1 lines result.0 }
{
    let mut sink = Sink::new(lines);
    let put = put_row(form, row, &mut sink);
    hand_on(put, sink)
}

/// Puts what stands before rows in that form, and has it handed on. The writer comes back.
fn write_heading<'a, W: Target>(form: Form, lines: W) -> (W, Result<(), Stop<'a>>)
    ensures untold { IfErr result.1 IsUntold }
    ensures puts { OnOk result.1 (Appends (W.contents lines) (W.contents result.0) (heading_in form)) }
    ensures output { CountsOutput result.1 (W.failures lines) (W.failures result.0) }
{
    match form {
        Form::Csv => {
            let mut sink = Sink::new(lines);
            let put = put_heading(&mut sink);
            hand_on(put, sink)
        }
        Form::Names | Form::Words | Form::Json => (lines, Ok(())),
    }
}

/// The cells of an HDR; of any other record none.
fn header_in<'a>(shown: &RecordRef<'a>) -> Header<'a>
    ensures { cells_of result ≡ cells_in (Some shown.now) }
{
    if is_of(shown, Kind::Hdr) {
        Header::of(shown)
    } else {
        Header::none()
    }
}

/// The cells of the HDR that was read; where none was, no bytes.
fn header_of(summed: &SummedFile) -> Header<'_>
    ensures { cells_of result ≡ cells_in summed.now.header }
{
    match summed.header() {
        Some(record) => header_in(&record.view()),
        None => Header::none(),
    }
}

/// What is told where a transmission is good.
fn if_good<T: Copy>(verdict: &Verdict, told: Option<T>) -> Option<T>
    ensures { result ≡ if_good verdict.now told }
{
    match verdict {
        Verdict::Good { .. } => told,
        Verdict::Refused(_) | Verdict::Truncated { .. } => None,
    }
}

/// How many senders an input names.
fn senders_in(summed: &SummedFile) -> u64
    ensures { result ≡ senders_in summed.now.header }
{
    match summed.header() {
        Some(_) => 1,
        None => 0,
    }
}

/// The row of an input.
fn row_of<'a>(name: &'a [u8], line: &'a [u8], found: &'a Found) -> Row<'a>
    requires { line.now ≡ verdict_line found.now.judgement.verdict }
    ensures { row_value result ≡ row_of name.now result.advice found.now }
{
    let verdict = &found.judgement.verdict;
    Row {
        file: Some(name),
        bytes: Some(found.bytes),
        after: if_good(verdict, Some(found.after)),
        digest: found.digest,
        canonical: if_good(verdict, found.summed.digest()),
        verdict: unended(line),
        header: header_of(&found.summed),
        summary: Some(found.summed.summary()),
        advice: found.summed.advice(),
        senders: Some(senders_in(&found.summed)),
    }
}

/// Writes the row of an input. The writer comes back.
fn write_found<'a, W: Target>(
    summing: &Summing<'_, 'a>,
    name: &[u8],
    found: &Found,
    lines: W,
) -> (W, Result<(), Stop<'a>>)
    ensures untold { IfErr result.1 IsUntold }
    ensures puts { OnOk result.1 ((advice : Option (ℕ × ℕ × ℕ)) × Appends (W.contents lines) (W.contents result.0)
        (row_text summing.now.form (row_of name.now advice found.now))) }
    ensures output { CountsOutput result.1 (W.failures lines) (W.failures result.0) }
{
    match verdict_text(summing.alloc, &found.judgement.verdict) {
        Ok(line) => write_row(summing.form, &row_of(name, line.as_slice(), found), lines),
        Err(fault) => (lines, Err(Stop::Fault(fault))),
    }
}

/// The row of an input that failed.
fn failed_row(name: &[u8]) -> Row<'_>
    ensures { row_value result ≡ failed_row name.now }
{
    Row {
        file: Some(name),
        bytes: None,
        after: None,
        digest: None,
        canonical: None,
        verdict: b"FAILED",
        header: Header::none(),
        summary: None,
        advice: None,
        senders: None,
    }
}

/// The numbers of pieces of advice of both. They stay at `u64::MAX`.
fn added(one: (u64, u64, u64), other: (u64, u64, u64)) -> (u64, u64, u64) {
    (
        one.0.saturating_add(other.0),
        one.1.saturating_add(other.1),
        one.2.saturating_add(other.2),
    )
}

impl Totals {
    /// Nothing was counted.
    fn new(alloc: Global) -> Totals
        ensures status { result.sums.status ≡ Status.Good }
        ensures totals { AreTotals result [] }
    {
        Totals {
            sums: Sums::new(),
            bytes: 0,
            after: 0,
            summary: Summary::new(),
            advice: (0, 0, 0),
            senders: Vec::new(alloc),
        }
    }

    /// Counts a sender, where it isn't among those that were.
    fn add_sender(&mut self, sender: [u8; 11]) -> Result<(), Fault<'static>>
        ensures memory { IfErr result IsMemory }
        ensures many { OnOk result (length self.new.senders.items ≡ many_with sender self.old.senders.items) }
        ensures among { OnOk result ((one : List ℕ) → is_among one self.new.senders.items ≡ is_among one (self.old.senders.items ++ sender ∷ [])) }
        ensures others { self.new ≡ record (self.old) { senders = self.new.senders } }
    {
        if self.senders.contains(&sender) {
            return Ok(());
        }
        match self.senders.push(sender) {
            Ok(()) => Ok(()),
            Err(_) => Err(Fault::Memory),
        }
    }

    /// Counts the sender of a transmission, where that was read.
    fn add_opening(&mut self, opening: Option<&Record>) -> Result<(), Fault<'static>>
        ensures memory { IfErr result IsMemory }
        ensures many { OnOk result (length self.new.senders.items
            ≡ many_with_if (option_map (λ r. sender_of r.now) opening.entry) self.old.senders.items) }
        ensures among { OnOk result ((one : List ℕ) → is_among one self.new.senders.items
            ≡ is_among one (self.old.senders.items ++ option_to_list (option_map (λ r. sender_of r.now) opening.entry))) }
        ensures others { self.new ≡ record (self.old) { senders = self.new.senders } }
    {
        match opening {
            Some(record) => self.add_sender(AnsweringFile::of(&record.view()).sender),
            None => Ok(()),
        }
    }

    /// Adds what stands in an input, where that is good.
    fn add(&mut self, found: &Found) -> Result<(), Fault<'static>>
        ensures memory { IfErr result IsMemory }
        ensures status { OnOk result (self.new.sums.status ≡ worse_status self.old.sums.status found.now.judgement.status) }
        ensures totals { OnOk result ((name : List ℕ) (advice : Option (ℕ × ℕ × ℕ))
            → AddsInput (input_of name advice found.now) self.old self.new) }
    {
        self.sums.count(&found.judgement);
        let Verdict::Good { .. } = found.judgement.verdict else {
            return Ok(());
        };
        self.add_opening(found.summed.header())?;
        self.bytes = self.bytes.saturating_add(found.bytes);
        self.after = self.after.saturating_add(found.after);
        self.summary.add_all(&found.summed.summary());
        if let Some(advice) = found.summed.advice() {
            self.advice = added(self.advice, advice);
        }
        Ok(())
    }

    /// Counts an input that failed.
    fn count_failed(&mut self)
        ensures status { self.new.sums.status ≡ Status.Fault }
        ensures totals { (name : List ℕ) (fault : Fault) → AddsInput (failed_input name fault) self.old self.new }
    {
        self.sums.count_failed();
    }
}

/// Writes the row of an input that was read. The writer comes back.
fn tell_found<'a, W: Target>(
    summing: &Summing<'_, 'a>,
    word: &str,
    found: &Found,
    lines: W,
) -> (W, Result<(), Stop<'a>>)
    ensures untold { IfErr result.1 IsUntold }
    ensures puts { OnOk result.1 ((advice : Option (ℕ × ℕ × ℕ)) × Appends (W.contents lines) (W.contents result.0)
        (rows_text summing.now.form summing.now.quiet (input_of (name_in summing.now.form word.now) advice found.now ∷ []))) }
    ensures output { CountsOutput result.1 (W.failures lines) (W.failures result.0) }
{
    if summing.quiet {
        return (lines, Ok(()));
    }
    match name_in(summing.alloc, summing.form, word) {
        Ok(name) => write_found(summing, name.as_slice(), found, lines),
        Err(_) => (lines, Err(Stop::Fault(Fault::Memory))),
    }
}

/// Writes the row of an input that failed. The writer comes back.
fn tell_failed<'a, W: Target>(
    summing: &Summing<'_, 'a>,
    word: &str,
    lines: W,
) -> (W, Result<(), Stop<'a>>)
    ensures untold { IfErr result.1 IsUntold }
    ensures puts { OnOk result.1 ((fault : Fault) → Appends (W.contents lines) (W.contents result.0)
        (rows_text summing.now.form summing.now.quiet (failed_input (name_in summing.now.form word.now) fault ∷ []))) }
    ensures output { CountsOutput result.1 (W.failures lines) (W.failures result.0) }
{
    if summing.quiet {
        return (lines, Ok(()));
    }
    match name_in(summing.alloc, summing.form, word) {
        Ok(name) => write_row(summing.form, &failed_row(name.as_slice()), lines),
        Err(_) => (lines, Err(Stop::Fault(Fault::Memory))),
    }
}

/// Sums up the input of that name after others, and writes its row. What fails is told of on standard error.
fn summarize_next<'a, S: Store, I: Read + Drop, P: Pace, W: Target, E: Write>(
    store: &mut S,
    summing: &Summing<'_, 'a>,
    name: &'a str,
    standard: &mut Option<I>,
    pace: &mut P,
    totals: &mut Totals,
    lines: W,
    error: &mut E,
) -> (W, Result<(), Stop<'a>>)
    // Its status was counted, or that of a fault.
    ensures counted { (first : Option (List ℕ)) → IsFirst I.remaining standard.old first → CountsOne summing.now.limits summing.now.whole
        (S.held store.old) first name.entry.now totals.old.sums.status totals.new.sums.status result.1 }
    // Its row was written, and it was counted.
    ensures told { (first : Option (List ℕ)) → IsFirst I.remaining standard.old first → TellsNext summing.now.form summing.now.limits
        summing.now.digests summing.now.whole summing.now.quiet (S.held store.old) first name.entry.now W.contents lines result.0
        (S.failures store.old) (S.failures store.new) totals.old totals.new result.1 }
    ensures output { CountsOutput result.1 (W.failures lines) (W.failures result.0) }
    ensures first { (first : Option (List ℕ)) → IsFirst I.remaining standard.old first → IsFirst I.remaining standard.new first }
    ensures kept { S.held store.new ≡ S.held store.old }
{
    let input = match open_input(store, Some(name), standard, &mut *pace) {
        Ok(input) => input,
        Err(fault) => {
            tell_fault(error, &fault);
            totals.count_failed();
            return tell_failed(summing, name, lines);
        }
    };
    let (found, told) = read_input(store, summing, input);
    match found {
        Ok(found) => {
            tell_following(error, told.name, &found.judgement.look);
            match totals.add(&found) {
                Ok(()) => tell_found(summing, name, &found, lines),
                Err(fault) => (lines, Err(Stop::Fault(fault))),
            }
        }
        Err(fault) => match fault {
            ToolFault::Reader => {
                tell_fault(error, &Fault::Read(told));
                totals.count_failed();
                tell_failed(summing, name, lines)
            }
            _ => (lines, Err(Stop::Fault(Fault::Memory))),
        },
    }
}

/// Sums up the inputs of these names one after another. The writer comes back.
fn summarize_each<'a, S: Store, I: Read + Drop, P: Pace, W: Target, E: Write>(
    store: &mut S,
    summing: &Summing<'_, 'a>,
    names: &[&'a str],
    standard: I,
    pace: &mut P,
    totals: &mut Totals,
    lines: W,
    error: &mut E,
) -> (W, Result<(), Stop<'a>>)
    requires good { totals.old.sums.status ≡ Status.Good }
    requires none { AreTotals totals.old [] }
    ensures ends { EndsOnSummed summing.now.limits summing.now.whole (S.held store.old) (I.remaining standard)
        (map (λ name. name.now) names.now) totals.new.sums.status result.1 }
    ensures told { TellsInputs summing.now.form summing.now.limits summing.now.digests summing.now.whole summing.now.quiet (S.held store.old)
        (I.remaining standard) (map (λ name. name.now) names.now) W.contents lines result.0 (S.failures store.old) (S.failures store.new)
        totals.new result.1 }
    ensures output { CountsOutput result.1 (W.failures lines) (W.failures result.0) }
    ensures kept { S.held store.new ≡ S.held store.old }
{
    let mut lines = lines;
    let mut standard = Some(standard);
    for name in names {
        let (after, told) = summarize_next(
            store,
            summing,
            name,
            &mut standard,
            &mut *pace,
            totals,
            lines,
            error,
        );
        lines = after;
        match told {
            Ok(()) => {}
            Err(stop) => return (lines, Err(stop)),
        }
    }
    (lines, Ok(()))
}

/// Writes the row of the sums. The writer comes back.
fn write_sums<'a, W: Target>(
    summing: &Summing<'_, 'a>,
    files: usize,
    totals: &Totals,
    lines: W,
) -> (W, Result<(), Stop<'a>>)
    ensures handed_on { OnOk result.1 (W.handed_on result.0 ≡ true) }
    ensures untold { IfErr result.1 IsUntold }
    ensures puts { OnOk result.1 ((inputs : List SummedInput) → AreTotals totals.now inputs → WritesSums W.contents summing.now.form true files inputs
        lines result.0) }
    ensures output { CountsOutput result.1 (W.failures lines) (W.failures result.0) }
{
    let Ok(line) = totals.sums.line(summing.alloc, files) else {
        return (lines, Err(Stop::Fault(Fault::Memory)));
    };
    let row = Row {
        file: None,
        bytes: Some(totals.bytes),
        after: Some(totals.after),
        digest: None,
        canonical: None,
        verdict: unended(line.as_bytes()),
        header: Header::none(),
        summary: Some(totals.summary),
        advice: if summing.advised {
            Some(totals.advice)
        } else {
            None
        },
        senders: Some(totals.senders.as_slice().len() as u64),
    };
    write_row(summing.form, &row, lines)
}

/// Writes the row of the sums, where these are told, and has all rows handed on. The writer comes back.
fn end_rows<'a, W: Target>(
    summing: &Summing<'_, 'a>,
    files: usize,
    totals: &Totals,
    lines: W,
) -> (W, Result<(), Stop<'a>>)
    ensures handed_on { OnOk result.1 (W.handed_on result.0 ≡ true) }
    ensures untold { IfErr result.1 IsUntold }
    ensures puts { OnOk result.1 ((inputs : List SummedInput) → AreTotals totals.now inputs → WritesSums W.contents summing.now.form
        (summing.now.quiet || nat_lt 1 (length summing.now.files.now)) files inputs lines result.0) }
    ensures output { CountsOutput result.1 (W.failures lines) (W.failures result.0) }
{
    if summing.tells_sums() {
        write_sums(summing, files, totals, lines)
    } else {
        hand_on(Ok(()), Sink::new(lines))
    }
}

/// Standard input alone.
const ALONE: [&str; 1] = [DASH];

/// What is summed up: what is named, or standard input where nothing is.
fn summed<'n, 'a>(files: &'n [&'a str]) -> &'n [&'a str]
    ensures { map (λ name. name.now) result.now ≡ summed (map (λ name. name.now) files.now) }
{
    if files.is_empty() { &ALONE } else { files }
}

/// Sums up the inputs, one after another: a row of each, and last, of several, one of the good ones together. What fails is told of on
/// standard error, and the next one follows. The writer comes back.
pub fn summarize<'a, S: Store, I: Read + Drop, P: Pace, W: Target, E: Write>(
    store: &mut S,
    summing: &Summing<'_, 'a>,
    standard: I,
    pace: &mut P,
    lines: W,
    error: &mut E,
) -> (W, Result<Status, Stop<'a>>)
    // The status is the worst of theirs, or standard output or memory failed.
    ensures ends { EndsOnEach None summing.now.limits (wanted_of summing.now.whole) (S.held store.old) (I.remaining standard)
        (summed (map (λ name. name.now) summing.now.files.now)) result.1 }
    // The row of each input stands there, and last, of several, that of the sums; of each that failed one more failure was counted.
    ensures told { TellsRows summing.now.form summing.now.limits summing.now.digests summing.now.whole summing.now.quiet (S.held store.old)
        (I.remaining standard) (map (λ name. name.now) summing.now.files.now) W.contents lines result.0 (S.failures store.old)
        (S.failures store.new) result.1 }
    // Standard output's fault is answered only where that counted one more failure.
    ensures output { CountsOutput result.1 (W.failures lines) (W.failures result.0) }
    ensures handed_on { OnOk result.1 (W.handed_on result.0 ≡ true) }
    ensures kept { S.held store.new ≡ S.held store.old }
{
    let names = summed(summing.files);
    let mut totals = Totals::new(summing.alloc);
    let (lines, headed) = write_heading(summing.form, lines);
    match headed {
        Ok(()) => {}
        Err(stop) => return (lines, Err(stop)),
    }
    let (lines, told) = summarize_each(
        store,
        summing,
        names,
        standard,
        pace,
        &mut totals,
        lines,
        error,
    );
    match told {
        Ok(()) => {}
        Err(stop) => return (lines, Err(stop)),
    }
    let (lines, ended) = end_rows(summing, names.len(), &totals, lines);
    match ended {
        Ok(()) => (lines, Ok(totals.sums.status)),
        Err(stop) => (lines, Err(stop)),
    }
}
