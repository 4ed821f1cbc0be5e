//! Acknowledgements of one or several transmissions, matched with what was sent.

ghost use Rattle.std.specs.Prelude.{◌≡◌, ◌≢◌, List, [], ◌∷◌, ℕ, Option, None, Some, codes, map, option_map, unwrap_or, IfOk, IfSome, OnOk};
ghost use Rattle.cwr_values.specs.Format.Values.{TransmissionValue};
ghost use Rattle.cwr_sent.specs.Format.SentFacts.{content_of};
ghost use Rattle.cwr_sent.specs.Format.SentRows.{IsFresh, content_in};
ghost use Rattle.cwr_acks.specs.Format.AckLines.{Matched};
ghost use Rattle.cwr_acks.specs.Steps.AckSteps.{IsKept, held_if};
ghost use Rattle.cwr_files.specs.Format.Faults.{IfErr};
ghost use Rattle.cwr_files.specs.Steps.Inputs.{remaining_of};
ghost use Rattle.cwr_endings.specs.Format.Endings.{IsStatusBy};
ghost use Rattle.cwr_reports.specs.Format.Endings.{Counts, EndsOnEach, EndsOnRead};
ghost use Rattle.cwr_reports.specs.Steps.Looks.{IsJudged};
ghost use Rattle.cwr_reports.specs.Steps.Marked.{CountsOutput};
ghost use Rattle.cwr_reports.specs.Steps.Several.{IsFirst};
ghost use Rattle.cwr_reports.specs.Steps.Tellings.{CountsInput, CountsWriting, IsStopOf};
ghost use Rattle.cwr_answers.specs.Format.Answered.{IsAcceptedAt};
ghost use Rattle.cwr_answers.specs.Format.Endings.{EndsOnAnswers, standard_inputs, wanted_of, words_of};
ghost use Rattle.cwr_answers.specs.Format.Failures.{FailsOnAnswers};
ghost use Rattle.cwr_answers.specs.Steps.Reading.{AreShown, CountsOne, CountsSent, EndsAllSent, EndsByStates, EndsOnFiles, EndsOnSums, EndsSent, HasSent, IsMemory, IsShown, IsStanding, IsStatusKept, IsUnreadOrUntold, IsUntold, StandsAfterRead, TellsSo};
ghost use Rattle.cwr_answers.specs.Steps.Seeking.{ReadsAllIfGood, ReadsEach, ReadsIfGood, ReadsNextIfGood};

use cwr_acks::{Answers, Form, Manner, acks, put_rest};
use cwr_delivery::Delivery;
use cwr_devices::{Counted, ReadAhead, Sink, Source, Target};
use cwr_endings::{
    Judgement, Status, Stop, Sums, Wanted, hand_on, judgement_of, look_after, tell_characters,
    tell_following, tell_unanswering, tell_verdict,
};
use cwr_fields::TransactionStatus;
use cwr_files::{
    Fault, FileLines, Input, Name, Pace, Passing, Store, Told, end_input, input_name, is_standard,
    open_input, shown_name, tell_fault,
};
use cwr_json::Encoding;
use cwr_sent::{Sent, read_sent};
use cwr_shape::Limits;
use cwr_state_rows::{RowFault, count_rows, put_rows, put_state_line};
use cwr_states::States;
use cwr_tools::{ToolFault, Verdict, put_verdict_line, verdict_of};
use std::alloc::Global;
use std::io;
use std::io::{Read, Write};
use std::marker::Brand;

/// Acknowledgements, and how they are told.
#[derive(Clone, Copy, Debug)]
pub struct Answering<'t, 'a> {
    pub alloc: Global,
    pub limits: Limits,
    /// Nothing may follow a transmission of acknowledgements.
    pub whole: bool,
    /// How it is told what they say.
    pub form: Form,
    /// Those with one of these statuses are told; without one all are.
    pub statuses: &'t [TransactionStatus],
    /// How cells are shown in a table and in JSON.
    pub encoding: Encoding,
    /// The names of their transmissions' files; without one that on standard input is read.
    pub files: &'t [&'a str],
    /// The names of the files of what was sent; without one they are matched with nothing.
    pub sent: &'t [&'a str],
    /// They are matched by the place that they name alone.
    pub by_place: bool,
    /// A table of what became of each transaction stands in the place of the lines.
    pub state: bool,
    /// A row of that table with one of these states ends the run as a refusal does.
    pub fail_on: States,
}

impl Answering<'_, '_> {
    /// Whether they are matched with what was sent.
    fn is_matched(&self) -> bool {
        !self.sent.is_empty()
    }

    /// Whether cells are shown as characters, and read as ISO 8859-1 for that.
    fn reads_latin(&self) -> bool {
        let shows = self.state || matches!(self.form, Form::Json(_));
        shows && self.encoding == Encoding::Latin1
    }
}

/// Tells on standard error where cells are read otherwise than as what the header of that input says.
fn tell_misread<E: Write>(error: &mut E, answering: &Answering<'_, '_>, told: &Told<'_>) {
    if answering.reads_latin() {
        tell_characters(error, told);
    }
}

/// Tells on standard error with what verdict a transmission was read, with its name before it. What standard error doesn't take is lost.
pub(crate) fn tell_named<E: Write>(error: &mut E, name: Name<'_>, verdict: &Verdict) {
    let _ = write!(error, "{name}: ");
    let _ = put_verdict_line(verdict, &mut Sink::new(Counted::new(error)));
}

/// What was sent, from the file of that name, or how the run ends.
fn sent_of<'a, S: Store, I: Read + Drop, P: Pace, E: Write>(
    store: &mut S,
    answering: &Answering<'_, 'a>,
    name: &'a str,
    standard: &mut Option<I>,
    pace: &mut P,
    error: &mut E,
) -> Result<Result<Sent, Status>, Fault<'a>>
    // It is accepted, or it is refused.
    ensures ends { (first : Option (List ℕ)) → IsFirst I.remaining standard.old first → EndsSent answering.now.limits (S.held store.old) first
        name.entry.now result }
    ensures first { (first : Option (List ℕ)) → IsFirst I.remaining standard.old first → IsFirst I.remaining standard.new first }
    ensures fresh { IfOk result (λ read. IfOk read IsFresh) }
    ensures sent { (first : Option (List ℕ)) → IsFirst I.remaining standard.old first → IfOk result (λ read. IfOk read (λ sent.
        (v : TransmissionValue) × IsAcceptedAt answering.now.limits (S.held store.old) first name.entry.now v
        × (content_in sent ≡ content_of v))) }
    ensures failed { CountsSent result (S.failures store.old) (S.failures store.new) }
    ensures kept { S.held store.new ≡ S.held store.old }
{
    let input = match open_input(store, Some(name), standard, &mut *pace) {
        Ok(input) => input,
        Err(fault) => return Err(fault),
    };
    let mut reader = ReadAhead::new(input);
    let read = read_sent(answering.alloc, answering.limits, &mut reader);
    let told: Told<'a> = end_input(store, reader);
    match read {
        Ok(sent) => {
            tell_misread(error, answering, &told);
            Ok(Ok(sent))
        }
        Err(fault) => match verdict_of(fault) {
            Ok(verdict) => {
                tell_named(error, told.name, &verdict);
                Ok(Err(Status::Refused))
            }
            Err(ToolFault::Reader) => Err(Fault::Read(told)),
            Err(_) => Err(Fault::Memory),
        },
    }
}

/// All that was sent, or how the run ends; none where no file is named.
fn delivery_of<'a, S: Store, I: Read + Drop, P: Pace, E: Write>(
    store: &mut S,
    answering: &Answering<'_, 'a>,
    standard: &mut Option<I>,
    pace: &mut P,
    error: &mut E,
) -> Result<Result<Option<Delivery>, Status>, Fault<'a>>
    ensures ends { (first : Option (List ℕ)) → IsFirst I.remaining standard.old first → EndsAllSent answering.now.limits (S.held store.old)
        first (map (λ name. name.now) answering.now.sent.now) result }
    ensures first { (first : Option (List ℕ)) → IsFirst I.remaining standard.old first → IsFirst I.remaining standard.new first }
    ensures stands { IfOk result (λ read. IfOk read IsStanding) }
    // It keeps what was sent.
    ensures sent { (first : Option (List ℕ)) → IsFirst I.remaining standard.old first → IfOk result (λ read. IfOk read
        (HasSent answering.now.limits answering.now.by_place (S.held store.old) first (map (λ name. name.now) answering.now.sent.now))) }
    ensures failed { CountsSent result (S.failures store.old) (S.failures store.new) }
    ensures kept { S.held store.new ≡ S.held store.old }
{
    if answering.sent.is_empty() {
        return Ok(Ok(None));
    }
    let Ok(mut delivery) = Delivery::new(answering.alloc, answering.by_place) else {
        return Err(Fault::Memory);
    };
    for name in answering.sent {
        let sent = match sent_of(store, answering, name, standard, &mut *pace, error) {
            Ok(Ok(sent)) => sent,
            Ok(Err(status)) => return Ok(Err(status)),
            Err(fault) => return Err(fault),
        };
        match delivery.add(sent) {
            Ok(()) => {}
            Err(_) => return Err(Fault::Memory),
        }
    }
    Ok(Ok(Some(delivery)))
}

/// The name of an input as it is told in that form: as a line shows it, or as it is in JSON.
fn told_name(alloc: Global, form: Form, word: &str) -> Result<Vec<u8>, Fault<'static>>
    ensures shown { IfOk result (λ told. IsShown form told.items) }
    ensures memory { IfErr result IsMemory }
{
    match form {
        Form::Words(_) => match shown_name(alloc, word) {
            Ok(shown) => Ok(shown.into_bytes()),
            Err(_) => Err(Fault::Memory),
        },
        Form::Json(_) => match cwr_acks::shown_name(alloc, form, input_name(word)) {
            Ok(shown) => Ok(shown),
            Err(_) => Err(Fault::Memory),
        },
    }
}

/// The names of what was sent as they are told, where there are several; else none.
fn names_told(answering: &Answering<'_, '_>) -> Result<Vec<Vec<u8>>, Fault<'static>>
    ensures shown { IfOk result (λ names. AreShown answering.now.form (map (λ name. name.items) names.items)) }
    ensures memory { IfErr result IsMemory }
{
    let mut names = Vec::new(answering.alloc);
    if answering.sent.len() > 1 {
        for name in answering.sent {
            let told = match told_name(answering.alloc, answering.form, name) {
                Ok(told) => told,
                Err(fault) => return Err(fault),
            };
            match names.push(told) {
                Ok(()) => {}
                Err(_) => return Err(Fault::Memory),
            }
        }
    }
    Ok(names)
}

/// Of what lines are told.
#[derive(Drop)]
struct Subjects {
    /// The statuses of the acknowledgements; without one those of all.
    statuses: Vec<TransactionStatus>,
    /// The names of the files of what was sent, where there are several; else none.
    names: Vec<Vec<u8>>,
}

impl Subjects {
    /// How it is told of them what the transmission of the file of that name says, or without it the one transmission.
    fn manner<'n>(&'n self, form: Form, file: Option<&'n [u8]>) -> Manner<'n>
        ensures form { result.form ≡ form }
        ensures file { result.file ≡ file.entry }
        ensures names { result.names.now ≡ self.now.names.items }
    {
        Manner {
            form,
            statuses: self.statuses.as_slice(),
            file,
            names: self.names.as_slice(),
        }
    }
}

/// Of what lines are told, by what is asked for.
fn subjects_of(answering: &Answering<'_, '_>) -> Result<Subjects, Fault<'static>>
    ensures shown { IfOk result (λ subjects. AreShown answering.now.form (map (λ name. name.items) subjects.names.items)) }
    ensures memory { IfErr result IsMemory }
{
    let Ok(statuses) = answering.statuses.to_vec(answering.alloc) else {
        return Err(Fault::Memory);
    };
    match names_told(answering) {
        Ok(names) => Ok(Subjects { statuses, names }),
        Err(fault) => Err(fault),
    }
}

/// What is there while transmissions of acknowledgements are read: where their lines go, what was sent with what answers it, and how
/// many acknowledgements there were.
#[derive(Drop)]
struct Reading<W: Target> {
    lines: W,
    delivery: Option<Delivery>,
    answers: Answers,
}

/// Why the run ends where an input failed so.
fn stop_of<'a>(fault: ToolFault, told: Told<'a>) -> Stop<'a>
    ensures unread { IsUnreadOrUntold result }
    ensures stop { IsStopOf told.entry fault result }
{
    match fault {
        ToolFault::Reader => Stop::Fault(Fault::Read(told)),
        ToolFault::Writer { .. } => Stop::Output,
        _ => Stop::Fault(Fault::Memory),
    }
}

/// Reads a transmission of acknowledgements after others from a reader, and writes its lines. The writer comes back, and what was sent, with what
/// answers it; how many acknowledgements there are in it; and its verdict with its status.
fn read_source<R: Source, W: Target + Drop>(
    answering: &Answering<'_, '_>,
    manner: Manner<'_>,
    delivery: Option<Delivery>,
    reader: &mut R,
    lines: W,
) -> (W, Option<Delivery>, Answers, Result<Judgement, ToolFault>)
    requires told { TellsSo manner }
    requires stands { IsStanding delivery }
    // Its status is that on its bytes.
    ensures judges { IfOk result.3 (λ judgement. IfSome (R.remaining reader.old) (λ text. IsStatusBy (Counts None) answering.now.limits
        (wanted_of answering.now.whole) text judgement.status)) }
    ensures read { IfOk result.3 IsJudged }
    // Where it is good, what it says is kept.
    ensures answers { (matched : Option Matched) → IsKept (held_if delivery) matched []
        → ReadsIfGood answering.now.limits (R.remaining reader.old) matched (held_if result.1) result.3 }
    ensures reader_failures { CountsInput result.3 (R.failures reader.old) (R.failures reader.new) }
    ensures writer_failures { CountsWriting result.3 (W.failures lines) (W.failures result.0) }
    ensures stands { StandsAfterRead result.3 result.1 }
{
    let (lines, delivery, more, outcome) = acks(
        answering.alloc,
        answering.limits,
        manner,
        delivery,
        reader,
        lines,
    );
    let look = look_after(reader, &outcome);
    let wanted = Wanted {
        whole: answering.whole,
        fail_on: None,
    };
    let judged = judgement_of(wanted, outcome, look, false);
    (lines, delivery, more, judged)
}

/// Reads a transmission of acknowledgements after others, and writes its lines, with that before each. The last answer is how many there
/// are in it.
fn read_input<'a, S: Store, I: Read + Drop, P: Pace + Drop, W: Target + Drop>(
    store: &mut S,
    answering: &Answering<'_, 'a>,
    manner: Manner<'_>,
    before_each: Option<&str>,
    input: Input<'a, S::Reader, I, P>,
    reading: Reading<W>,
) -> (Reading<W>, Result<Judgement, ToolFault>, Told<'a>, u64)
    requires told { TellsSo manner }
    requires stands { IsStanding reading.delivery }
    // Its status is that on its bytes.
    ensures judges { IfOk result.1 (λ judgement. IfSome (remaining_of S.Reader.remaining I.remaining input.entry)
        (λ text. IsStatusBy (Counts None) answering.now.limits (wanted_of answering.now.whole) text judgement.status)) }
    ensures read { IfOk result.1 IsJudged }
    ensures answers { (matched : Option Matched) → IsKept (held_if reading.delivery) matched [] → ReadsIfGood answering.now.limits
        (remaining_of S.Reader.remaining I.remaining input.entry) matched (held_if result.0.delivery) result.1 }
    ensures reader_failures { CountsInput result.1 (S.failures store.old) (S.failures store.new) }
    ensures writer_failures { CountsWriting result.1 (W.failures reading.lines) (W.failures result.0.lines) }
    ensures stands { StandsAfterRead result.1 result.0.delivery }
    ensures kept { S.held store.new ≡ S.held store.old }
{
    let Reading {
        lines,
        delivery,
        answers,
    } = reading;
    let mut reader = ReadAhead::new(input);
    let lines: FileLines<'_, Brand, W> = FileLines::new(lines, before_each, Passing::All);
    let (lines, delivery, more, judged) = read_source(
        answering,
        manner,
        delivery,
        &mut reader,
        lines,
    );
    let reading = Reading {
        lines: lines.into_inner(),
        delivery,
        answers: answers.add(&more),
    };
    (reading, judged, end_input(store, reader), more.all)
}

/// Reads the transmission of the one file, or of standard input.
fn read_alone<'a, S: Store, I: Read + Drop, P: Pace, W: Target + Drop, E: Write>(
    store: &mut S,
    answering: &Answering<'_, 'a>,
    subjects: &Subjects,
    name: Option<&'a str>,
    standard: &mut Option<I>,
    pace: &mut P,
    reading: Reading<W>,
    error: &mut E,
) -> (Reading<W>, Result<Status, Stop<'a>>)
    requires shown { AreShown answering.now.form (map (λ name. name.items) subjects.now.names.items) }
    requires stands { IsStanding reading.delivery }
    ensures ends { (first : Option (List ℕ)) → IsFirst I.remaining standard.old first → EndsOnRead None answering.now.limits
        (wanted_of answering.now.whole) (S.held store.old) first (option_map (λ n. n.now) name.entry) result.1 }
    ensures answers { (first : Option (List ℕ)) → IsFirst I.remaining standard.old first → (matched : Option Matched)
        → IsKept (held_if reading.delivery) matched [] → ReadsAllIfGood answering.now.limits (S.held store.old) first
        (unwrap_or (option_map (λ n. n.now) name.entry) (codes "-") ∷ []) matched (held_if result.0.delivery) result.1 }
    ensures failed { FailsOnAnswers result.1 (S.failures store.old) (S.failures store.new) }
    ensures output { CountsOutput result.1 (W.failures reading.lines) (W.failures result.0.lines) }
    ensures kept { S.held store.new ≡ S.held store.old }
{
    let input = match open_input(store, name, standard, &mut *pace) {
        Ok(input) => input,
        Err(fault) => return (reading, Err(Stop::Fault(fault))),
    };
    let manner = subjects.manner(answering.form, None);
    let (reading, judged, told, count) = read_input(store, answering, manner, None, input, reading);
    match judged {
        Ok(judgement) => {
            tell_verdict(&mut *error, told.name, &judgement);
            tell_unanswering(
                &mut *error,
                told.name,
                &judgement,
                count,
                answering.is_matched(),
            );
            tell_misread(error, answering, &told);
            (reading, Ok(judgement.status))
        }
        Err(fault) => (reading, Err(stop_of(fault, told))),
    }
}

/// Reads the transmission of the file of that name after others, and writes its lines. A file that fails is told of on standard error.
fn read_next<'a, S: Store, I: Read + Drop, P: Pace, W: Target + Drop, E: Write>(
    store: &mut S,
    answering: &Answering<'_, 'a>,
    subjects: &Subjects,
    name: &'a str,
    standard: &mut Option<I>,
    pace: &mut P,
    reading: Reading<W>,
    sums: &mut Sums,
    error: &mut E,
) -> (Reading<W>, Result<(), Stop<'a>>)
    requires shown { AreShown answering.now.form (map (λ name. name.items) subjects.now.names.items) }
    requires stands { IsStanding reading.delivery }
    // Its status was counted, or that of a fault.
    ensures counted { (first : Option (List ℕ)) → IsFirst I.remaining standard.old first → CountsOne answering.now.limits answering.now.whole
        (S.held store.old) first name.entry.now sums.old.status sums.new.status result.1 }
    ensures answers { (first : Option (List ℕ)) → IsFirst I.remaining standard.old first → (matched : Option Matched)
        → IsKept (held_if reading.delivery) matched [] → OnOk result.1 (ReadsNextIfGood answering.now.limits (S.held store.old) first
        name.entry.now matched (held_if result.0.delivery) sums.old.status sums.new.status) }
    ensures first { (first : Option (List ℕ)) → IsFirst I.remaining standard.old first → IsFirst I.remaining standard.new first }
    ensures stands { OnOk result.1 (IsStanding result.0.delivery) }
    ensures output { CountsOutput result.1 (W.failures reading.lines) (W.failures result.0.lines) }
    ensures kept { S.held store.new ≡ S.held store.old }
{
    let input = match open_input(store, Some(name), standard, &mut *pace) {
        Ok(input) => input,
        Err(fault) => {
            tell_fault(error, &fault);
            sums.count_failed();
            return (reading, Ok(()));
        }
    };
    let Ok(shown) = shown_name(answering.alloc, name) else {
        return (reading, Err(Stop::Fault(Fault::Memory)));
    };
    let Ok(file) = told_name(answering.alloc, answering.form, name) else {
        return (reading, Err(Stop::Fault(Fault::Memory)));
    };
    let manner = subjects.manner(answering.form, Some(file.as_slice()));
    let before_each = mark_of(answering.form, shown.as_str());
    let (reading, judged, told, count) = read_input(
        store,
        answering,
        manner,
        before_each,
        input,
        reading,
    );
    match judged {
        Ok(judgement) => {
            tell_named(error, told.name, &judgement.verdict);
            tell_following(error, told.name, &judgement.look);
            tell_unanswering(error, told.name, &judgement, count, answering.is_matched());
            tell_misread(error, answering, &told);
            sums.count(&judgement);
            (reading, Ok(()))
        }
        Err(ToolFault::Reader) => {
            tell_fault(error, &Fault::Read(told));
            sums.count_failed();
            (reading, Ok(()))
        }
        Err(ToolFault::Writer { .. }) => (reading, Err(Stop::Output)),
        Err(_) => (reading, Err(Stop::Fault(Fault::Memory))),
    }
}

/// What stands before each line on a file that is called so: its name, where that isn't told within the line.
fn mark_of<'n>(form: Form, shown: &'n str) -> Option<&'n str> {
    match form {
        Form::Words(_) => Some(shown),
        Form::Json(_) => None,
    }
}

/// Reads the transmissions of several files one after another. A file that fails is told of on standard error, and the next one follows.
fn read_several<'a, S: Store, I: Read + Drop, P: Pace, W: Target + Drop, E: Write>(
    store: &mut S,
    answering: &Answering<'_, 'a>,
    subjects: &Subjects,
    standard: &mut Option<I>,
    pace: &mut P,
    reading: Reading<W>,
    error: &mut E,
) -> (Reading<W>, Result<Sums, Stop<'a>>)
    requires shown { AreShown answering.now.form (map (λ name. name.items) subjects.now.names.items) }
    requires stands { IsStanding reading.delivery }
    ensures ends { (first : Option (List ℕ)) → IsFirst I.remaining standard.old first → EndsOnSums answering.now.limits answering.now.whole
        (S.held store.old) first (map (λ name. name.now) answering.now.files.now) result.1 }
    ensures answers { (first : Option (List ℕ)) → IsFirst I.remaining standard.old first → (matched : Option Matched)
        → IsKept (held_if reading.delivery) matched [] → IfOk result.1 (λ sums. sums.status ≡ Status.Good
        → ReadsEach answering.now.limits (S.held store.old) first (map (λ name. name.now) answering.now.files.now) matched
        (held_if result.0.delivery)) }
    ensures output { CountsOutput result.1 (W.failures reading.lines) (W.failures result.0.lines) }
    ensures kept { S.held store.new ≡ S.held store.old }
{
    let mut reading = reading;
    let mut sums = Sums::new();
    for name in answering.files {
        let (after, read) = read_next(
            store, answering, subjects, name, standard, &mut *pace, reading, &mut sums, error,
        );
        reading = after;
        match read {
            Ok(()) => {}
            Err(stop) => return (reading, Err(stop)),
        }
    }
    (reading, Ok(sums))
}

/// Writes what stands after the last of several transmissions.
fn end_lines<'a, W: Target + Drop>(
    form: Form,
    subjects: &Subjects,
    reading: Reading<W>,
) -> (Reading<W>, Result<(), Stop<'a>>)
    ensures untold { IfErr result.1 IsUntold }
    ensures same { result.0.delivery ≡ reading.delivery }
    ensures output { CountsOutput result.1 (W.failures reading.lines) (W.failures result.0.lines) }
{
    let Reading {
        lines,
        delivery,
        answers,
    } = reading;
    let manner = subjects.manner(form, None);
    let mut sink = Sink::new(lines);
    let put = put_rest(&manner, &delivery, &Answers::new().add(&answers), &mut sink);
    let (lines, handed) = hand_on(put, sink);
    let reading = Reading {
        lines,
        delivery,
        answers,
    };
    (reading, handed)
}

/// Reads the transmissions of several files, and writes their lines. On standard error stands what verdict each has, and last the sums.
fn read_each<'a, S: Store, I: Read + Drop, P: Pace, W: Target + Drop, E: Write>(
    store: &mut S,
    answering: &Answering<'_, 'a>,
    subjects: &Subjects,
    standard: &mut Option<I>,
    pace: &mut P,
    reading: Reading<W>,
    error: &mut E,
) -> (Reading<W>, Result<Status, Stop<'a>>)
    requires shown { AreShown answering.now.form (map (λ name. name.items) subjects.now.names.items) }
    requires stands { IsStanding reading.delivery }
    ensures ends { (first : Option (List ℕ)) → IsFirst I.remaining standard.old first → EndsOnEach None answering.now.limits
        (wanted_of answering.now.whole) (S.held store.old) first (map (λ name. name.now) answering.now.files.now) result.1 }
    ensures answers { (first : Option (List ℕ)) → IsFirst I.remaining standard.old first → (matched : Option Matched)
        → IsKept (held_if reading.delivery) matched [] → ReadsAllIfGood answering.now.limits (S.held store.old) first
        (map (λ name. name.now) answering.now.files.now) matched (held_if result.0.delivery) result.1 }
    ensures failed { FailsOnAnswers result.1 (S.failures store.old) (S.failures store.new) }
    ensures output { CountsOutput result.1 (W.failures reading.lines) (W.failures result.0.lines) }
    ensures kept { S.held store.new ≡ S.held store.old }
{
    let (reading, read) = read_several(store, answering, subjects, standard, pace, reading, error);
    let sums = match read {
        Ok(sums) => sums,
        Err(stop) => return (reading, Err(stop)),
    };
    let (reading, handed) = end_lines(answering.form, subjects, reading);
    match handed {
        Ok(()) => {}
        Err(stop) => return (reading, Err(stop)),
    }
    match sums.line(answering.alloc, answering.files.len()) {
        Ok(line) => {
            // What standard error doesn't take is lost.
            let _ = error.write_all(line.as_bytes());
            (reading, Ok(sums.status))
        }
        Err(_) => (reading, Err(Stop::Fault(Fault::Memory))),
    }
}

/// Reads the transmissions of all files, or the one on standard input, and writes their lines. On standard error stands what verdict each has.
fn read_all<'a, S: Store, I: Read + Drop, P: Pace, W: Target + Drop, E: Write>(
    store: &mut S,
    answering: &Answering<'_, 'a>,
    subjects: &Subjects,
    standard: &mut Option<I>,
    pace: &mut P,
    reading: Reading<W>,
    error: &mut E,
) -> (Reading<W>, Result<Status, Stop<'a>>)
    requires shown { AreShown answering.now.form (map (λ name. name.items) subjects.now.names.items) }
    requires stands { IsStanding reading.delivery }
    ensures ends { (first : Option (List ℕ)) → IsFirst I.remaining standard.old first → EndsOnFiles answering.now.limits answering.now.whole
        (S.held store.old) first (map (λ name. name.now) answering.now.files.now) result.1 }
    // Where all are good, what they say is kept.
    ensures answers { (first : Option (List ℕ)) → IsFirst I.remaining standard.old first → (matched : Option Matched)
        → IsKept (held_if reading.delivery) matched [] → ReadsAllIfGood answering.now.limits (S.held store.old) first
        (words_of (map (λ name. name.now) answering.now.files.now)) matched (held_if result.0.delivery) result.1 }
    ensures failed { FailsOnAnswers result.1 (S.failures store.old) (S.failures store.new) }
    ensures output { CountsOutput result.1 (W.failures reading.lines) (W.failures result.0.lines) }
    ensures kept { S.held store.new ≡ S.held store.old }
{
    match answering.files {
        [] => read_alone(
            store, answering, subjects, None, standard, pace, reading, error,
        ),
        [file] => read_alone(
            store,
            answering,
            subjects,
            Some(*file),
            standard,
            pace,
            reading,
            error,
        ),
        _ => read_each(store, answering, subjects, standard, pace, reading, error),
    }
}

/// How a run ends that read all with that status: as with a refusal where a transaction has one of the states that fail it.
fn status_by(
    answering: &Answering<'_, '_>,
    delivery: &Option<Delivery>,
    status: Status,
) -> Result<Status, Fault<'static>>
    ensures states { IfOk result (IsStatusKept answering.now.fail_on delivery.now status) }
    ensures others { status ≢ Status.Good → IfOk result (λ now. now ≡ status) }
    ensures memory { IfErr result IsMemory }
{
    let Some(delivery) = delivery else {
        return Ok(status);
    };
    // Nothing is counted, and no memory asked for, where no state is given.
    if answering.fail_on == States::none() {
        return Ok(status);
    }
    let Ok(counts) = count_rows(answering.alloc, delivery) else {
        return Err(Fault::Memory);
    };
    if counts.has_any(&answering.fail_on) {
        Ok(status.or_worse(Status::Refused))
    } else {
        Ok(status)
    }
}

/// Writes the lines on what the acknowledgements say. The writer comes back.
fn tell_lines<'a, S: Store, I: Read + Drop, P: Pace, W: Target + Drop, E: Write>(
    store: &mut S,
    answering: &Answering<'_, 'a>,
    delivery: Option<Delivery>,
    standard: &mut Option<I>,
    pace: &mut P,
    lines: W,
    error: &mut E,
) -> (W, Result<Status, Stop<'a>>)
    requires stands { IsStanding delivery }
    ensures ends { (first : Option (List ℕ)) → IsFirst I.remaining standard.old first → (matched : Option Matched)
        → IsKept (held_if delivery) matched [] → EndsByStates answering.now.limits answering.now.whole answering.now.fail_on
        (S.held store.old) first (map (λ name. name.now) answering.now.files.now) matched result.1 }
    ensures failed { FailsOnAnswers result.1 (S.failures store.old) (S.failures store.new) }
    ensures output { CountsOutput result.1 (W.failures lines) (W.failures result.0) }
    ensures kept { S.held store.new ≡ S.held store.old }
{
    let subjects = match subjects_of(answering) {
        Ok(subjects) => subjects,
        Err(fault) => return (lines, Err(Stop::Fault(fault))),
    };
    let reading = Reading {
        lines,
        delivery,
        answers: Answers::new(),
    };
    let (reading, read) = read_all(store, answering, &subjects, standard, pace, reading, error);
    let Reading {
        lines,
        delivery,
        ..
    } = reading;
    match read {
        Ok(status) => match status_by(answering, &delivery, status) {
            Ok(status) => (lines, Ok(status)),
            Err(fault) => (lines, Err(Stop::Fault(fault))),
        },
        Err(stop) => (lines, Err(stop)),
    }
}

/// The names of what was sent as the table has them.
fn names_of_rows(
    alloc: Global,
    form: cwr_state_rows::Form,
    sent: &[&str],
) -> Result<Vec<Vec<u8>>, Fault<'static>>
    ensures { IfErr result IsMemory }
{
    let mut names = Vec::new(alloc);
    for name in sent {
        let Ok(told) = cwr_state_rows::shown_name(alloc, form, input_name(name)) else {
            return Err(Fault::Memory);
        };
        match names.push(told) {
            Ok(()) => {}
            Err(_) => return Err(Fault::Memory),
        }
    }
    Ok(names)
}

/// Puts the table of what became of each transaction that was sent, and has it handed on. The writer comes back.
fn put_table<'a, W: Target>(
    answering: &Answering<'_, 'a>,
    form: cwr_state_rows::Form,
    names: &[Vec<u8>],
    delivery: &Delivery,
    lines: W,
) -> (W, Result<(), Stop<'a>>)
    ensures untold { IfErr result.1 IsUntold }
    ensures output { CountsOutput result.1 (W.failures lines) (W.failures result.0) }
{
    let mut sink = Sink::new(lines);
    match put_rows(answering.alloc, form, names, delivery, &mut sink) {
        Ok(()) => hand_on(Ok(()), sink),
        Err(RowFault::Memory) => (sink.into_inner(), Err(Stop::Fault(Fault::Memory))),
        Err(RowFault::Writer(_)) => (sink.into_inner(), Err(Stop::Output)),
    }
}

/// The form in which the table is written.
fn form_of_rows(answering: &Answering<'_, '_>) -> cwr_state_rows::Form {
    match answering.form {
        Form::Words(_) => cwr_state_rows::Form::Csv(answering.encoding),
        Form::Json(_) => cwr_state_rows::Form::Json(answering.encoding),
    }
}

/// Writes the table of what became of each transaction that was sent, and on standard error how many have which state. The writer comes
/// back, and how a run ends that read all with that status: as with a refusal where a row has one of the states that fail it.
fn write_table<'a, W: Target, E: Write>(
    answering: &Answering<'_, 'a>,
    delivery: &Option<Delivery>,
    status: Status,
    lines: W,
    error: &mut E,
) -> (W, Result<Status, Stop<'a>>)
    ensures states { IfOk result.1 (IsStatusKept answering.now.fail_on delivery.now status) }
    ensures others { status ≢ Status.Good → IfOk result.1 (λ now. now ≡ status) }
    ensures untold { IfErr result.1 IsUntold }
    ensures output { CountsOutput result.1 (W.failures lines) (W.failures result.0) }
{
    let Some(delivery) = delivery else {
        return (lines, Ok(status));
    };
    let form = form_of_rows(answering);
    let names = match names_of_rows(answering.alloc, form, answering.sent) {
        Ok(names) => names,
        Err(fault) => return (lines, Err(Stop::Fault(fault))),
    };
    let Ok(counts) = count_rows(answering.alloc, delivery) else {
        return (lines, Err(Stop::Fault(Fault::Memory)));
    };
    let (lines, put) = put_table(answering, form, names.as_slice(), delivery, lines);
    if let Err(stop) = put {
        return (lines, Err(stop));
    }
    // What standard error doesn't take is lost.
    let _ = put_state_line(
        &counts,
        &delivery.tally(),
        &mut Sink::new(Counted::new(error)),
    );
    let fails = counts.has_any(&answering.fail_on);
    if fails {
        (lines, Ok(status.or_worse(Status::Refused)))
    } else {
        (lines, Ok(status))
    }
}

/// Writes the table of what became of each transaction that was sent, once all acknowledgements are read. The writer comes back.
fn tell_table<'a, S: Store, I: Read + Drop, P: Pace, W: Target, E: Write>(
    store: &mut S,
    answering: &Answering<'_, 'a>,
    delivery: Option<Delivery>,
    standard: &mut Option<I>,
    pace: &mut P,
    lines: W,
    error: &mut E,
) -> (W, Result<Status, Stop<'a>>)
    requires stands { IsStanding delivery }
    ensures ends { (first : Option (List ℕ)) → IsFirst I.remaining standard.old first → (matched : Option Matched)
        → IsKept (held_if delivery) matched [] → EndsByStates answering.now.limits answering.now.whole answering.now.fail_on
        (S.held store.old) first (map (λ name. name.now) answering.now.files.now) matched result.1 }
    ensures failed { FailsOnAnswers result.1 (S.failures store.old) (S.failures store.new) }
    ensures output { CountsOutput result.1 (W.failures lines) (W.failures result.0) }
    ensures kept { S.held store.new ≡ S.held store.old }
{
    let reading = Reading {
        lines: Counted::new(io::sink()),
        delivery,
        answers: Answers::new(),
    };
    let nothing = Subjects {
        statuses: Vec::new(answering.alloc),
        names: Vec::new(answering.alloc),
    };
    let (reading, read) = read_all(store, answering, &nothing, standard, pace, reading, error);
    let status = match read {
        Ok(status) => status,
        // What nobody reads is always taken.
        Err(Stop::Output) => return (lines, Err(Stop::Fault(Fault::Memory))),
        Err(Stop::Fault(fault)) => return (lines, Err(Stop::Fault(fault))),
    };
    let Reading { delivery, .. } = reading;
    write_table(answering, &delivery, status, lines, error)
}

/// How many of the inputs are on standard input.
fn standard_inputs(answering: &Answering<'_, '_>) -> usize
    ensures { result ≡ standard_inputs (map (λ name. name.now) answering.now.files.now) (map (λ name. name.now) answering.now.sent.now) }
{
    let files = answering
        .files
        .iter()
        .filter(|name| is_standard(Some(**name)))
        .count();
    let sent = answering
        .sent
        .iter()
        .filter(|name| is_standard(Some(**name)))
        .count();
    let unnamed = usize::from(answering.files.is_empty());
    files + sent + unnamed
}

/// Tells what acknowledgements say, matched with what was sent where that is named, or what became of each transaction. Only one of the
/// inputs can be on standard input. The writer comes back.
pub fn match_answers<'a, S: Store, I: Read + Drop, P: Pace, W: Target + Drop, E: Write>(
    store: &mut S,
    answering: &Answering<'_, 'a>,
    standard: I,
    pace: &mut P,
    lines: W,
    error: &mut E,
) -> (W, Result<Status, Stop<'a>>)
    ensures ends { EndsOnAnswers answering.now.limits answering.now.whole answering.now.by_place answering.now.fail_on (S.held store.old) (I.remaining standard)
        (map (λ name. name.now) answering.now.files.now) (map (λ name. name.now) answering.now.sent.now) result.1 }
    // What an input is told to have failed by is answered only where a failure was counted, or there was no memory.
    ensures failed { FailsOnAnswers result.1 (S.failures store.old) (S.failures store.new) }
    // Standard output's fault is answered only where that counted one more failure.
    ensures output { CountsOutput result.1 (W.failures lines) (W.failures result.0) }
    ensures kept { S.held store.new ≡ S.held store.old }
{
    if standard_inputs(answering) > 1 {
        let fault = Fault::IsTwice(Name::StandardInput);
        return (lines, Err(Stop::Fault(fault)));
    }
    let mut standard = Some(standard);
    let delivery = match delivery_of(store, answering, &mut standard, &mut *pace, error) {
        Ok(Ok(delivery)) => delivery,
        Ok(Err(status)) => return (lines, Ok(status)),
        Err(fault) => return (lines, Err(Stop::Fault(fault))),
    };
    if answering.state {
        tell_table(
            store,
            answering,
            delivery,
            &mut standard,
            pace,
            lines,
            error,
        )
    } else {
        tell_lines(
            store,
            answering,
            delivery,
            &mut standard,
            pace,
            lines,
            error,
        )
    }
}
