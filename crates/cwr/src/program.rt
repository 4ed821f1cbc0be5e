//! The program between its words and its devices.

ghost use Rattle.std.specs.Prelude.{IfOk, codes, count_by, unwrap_or, ◌≡◌, ◌≢◌, ◌<◌, ◌≤◌, length, map, not, option_map, true, false, None, Some, IfSome, IsSome, OnErr, OnOk};
ghost use Rattle.std.specs.Option.{is_some};
ghost use Rattle.std.specs.IoError.{error_kind};
ghost use Rattle.std.specs.declared.io.ErrorKind.TheVariants.{OutOfMemory as lacks_memory};
ghost use Rattle.clap.specs.Values.{kind_of};
ghost use Rattle.cwr.specs.Format.Endings.{AreStandardTwice, EndsAsAnswers, EndsAsData, EndsAsManual, EndsOnFiles, EndsOnWork, fault_status, status_code};
ghost use Rattle.cwr.specs.Format.Failures.{FailsEach, FailsOnFiles, FailsWork, OfOne, one_of};
ghost use Rattle.cwr.specs.Format.Files.{LeavesOut, LeavesWork, RunsRenumbering, RunsTask, RunsWords};
ghost use Rattle.cwr.specs.Steps.Tells.{CountsData, CountsWork, HandsOnData, HandsOnWork, TellsAnswers, TellsAsked, TellsBack, TellsData, TellsFiles, TellsJudged, TellsOut, TellsQuietRead, TellsQuietly, TellsRead, TellsWork};
ghost use Rattle.cwr.specs.Steps.Cleared.{cleared_output};
ghost use Rattle.cwr_terminal.specs.Steps.Held.{output_of};
ghost use Rattle.cwr_devices.specs.Format.Failures.{most_failures};
ghost use Rattle.cwr_answers.specs.Format.Failures.{FailsOnAnswers};
ghost use Rattle.cwr_endings.specs.Format.Endings.{IsRefusedOut};
ghost use Rattle.cwr_endings.specs.Format.Failures.{FailsOut, FailsSo};
ghost use Rattle.cwr_files.specs.Format.Faults.{IfErr};
ghost use Rattle.cwr_files.specs.Format.Files.{Turns};
ghost use Rattle.cwr_files.specs.Format.Inputs.{IsThereOrRead, is_standard};
ghost use Rattle.cwr_files.specs.Steps.NewFiles.{HasKeptCount};
ghost use Rattle.cwr_renumber.specs.Steps.Renumbered.{renumbered_text};
ghost use Rattle.cwr_reports.specs.Format.Endings.{EndsOnRead, advice_asked, advice_in};
ghost use Rattle.cwr_reports.specs.Format.Exports.{IsExportAt, is_data};
ghost use Rattle.cwr.specs.Format.Selected.{AreAnsweredBy, answers_named};
ghost use Rattle.cwr_transform.specs.Format.Selections.{IsApart};
ghost use Rattle.cwr.specs.Format.Tables.{encoding_of, form_of, kinds_by, rows_form, selection_of, table_of, work_kind_of};
ghost use Rattle.cwr_reports.specs.Steps.Looks.{tells_findings};
ghost use Rattle.cwr_reports.specs.Steps.Marked.{CountsOutput};
ghost use Rattle.cwr_summaries.specs.Steps.Rows.{TellsRows};

use crate::manual::MANUAL;
use crate::styles::{help_style, style_of};
use crate::terminal::{Cleared, Shown, Terminals};
use clap::error::ErrorKind;
use cwr_acks::{Cells, Form};
use cwr_answers::{Answered, Answering, Unsought, answered_places, match_answers};
use cwr_devices::{Sink, Target};
use cwr_endings::{Status, Stop, Wanted, hand_on, refuse_out};
use cwr_files::{
    DASH, Fault, Gatherer, Name, Pace, Progress, ShellWord, Store, is_standard, open_input,
    shown_name, tell_fault,
};
use cwr_json::Encoding;
use cwr_reports::{Asked, Telling, export, report_input, report_several, telling_of};
use cwr_select::{ByKind, ByPlace, Changes, Listed, WorkKind};
use cwr_shape::Level;
use cwr_summaries::{Summing, summarize};
use cwr_tables::Table;
use cwr_terminal::{Style, Styled};
use cwr_transform::{
    Cut, Import, Repair, Selection, Union, import_file, import_input, join_files, repair_file,
    repair_input, select_file, split_file,
};
use cwr_words::{
    AcksWords, AdviseWords, CsvWords, JoinWords, JsonWords, Judging, Kinds, LintWords,
    RenumberWords, Rows, SelectWords, SentAs, ShowWords, SplitWords, SummaryWords, Task, Work,
    WriteWords, task_of,
};
use std::alloc::Global;
use std::cell::Cell;
use std::convert::AsStr;
use std::io;
use std::io::{Read, Write};
use std::time::Clock;

/// Runs what the words ask for, the program's name first. The answer is the exit status, and standard output, where the run wasn't stopped.
/// `terminal` is standard error once more, on which it is shown how far a long run is: where that is a terminal, or the words ask for it.
pub fn run<
    F: Store,
    R: Clock + AllocGlobal,
    S: AsStr,
    I: Read + Drop,
    O: Write + Drop,
    E: Write + Drop,
    T: Write + Drop,
>(
    store: &mut F,
    rt: &R,
    words: &[S],
    input: I,
    output: O,
    mut error: E,
    terminal: T,
    terminals: Terminals,
) -> (u8, Option<O>)
    ensures few { result.0 ≤ 3 }
    // It is that of the task that the words ask for, by what lies under the names that they give, and on standard input, and so is what lies
    // under names then, and what was written to standard output; or they ask for none, and nothing was written there.
    ensures runs { RunsWords renumbered_text (TellsOut O.contents terminals output result.1 (F.held store.old) (I.remaining input)
        (F.failures store.old) (F.failures store.new)) (result.1 ≡ Some output) (map S.text words.now) (I.remaining input) (F.held store.old)
        (F.held store.new) (F.making store.old) (F.failures store.old) (F.failures store.new) result.0 }
{
    match task_of(rt.alloc(), words) {
        Ok(task) => {
            let is_shown = Cell::new(false);
            let terminal = Shown::new(terminal, &is_shown);
            let output = Cleared::new(output, terminals.output, &is_shown);
            let style = style_of(&task.work, task.colouring, &terminals);
            let output = Styled::new(output, style);
            let wanted = task.progress.unwrap_or(terminals.error);
            let mut progress = Progress::new(rt, terminal, wanted, terminals.input);
            let (status, output) = carry_out(
                store,
                rt.alloc(),
                &task,
                input,
                &mut progress,
                output,
                &mut error,
            );
            (code_of(status), taken_out(output))
        }
        Err(answer) => {
            let file = file_in_place(store, words, &answer);
            let status = answer_words(error, &answer, file, help_style(&terminals));
            (code_of(status), Some(output))
        }
    }
}

/// Standard output itself, where it came back.
fn taken_out<O>(output: Option<Styled<Cleared<'_, O>>>) -> Option<O>
    ensures { result ≡ option_map (λ it. cleared_output (output_of it)) output.entry }
{
    match output {
        Some(output) => Some(output.into_inner().into_inner()),
        None => None,
    }
}

/// The number of a status.
fn code_of(status: Status) -> u8
    ensures { result ≡ status_code status }
{
    match status {
        Status::Good => 0,
        Status::Refused => 1,
        Status::CommandLine => 2,
        Status::Fault => 3,
    }
}

/// The exit status where the system couldn't hand out the words.
pub fn refuse_words<E: Write + Drop>(fault: &io::Error, mut error: E) -> u8
    ensures memory { error_kind fault.now ≡ lacks_memory → result ≡ 3 }
    ensures words { error_kind fault.now ≢ lacks_memory → result ≡ 2 }
{
    let status = if matches!(fault.kind(), io::ErrorKind::OutOfMemory) {
        report(&mut error, &Fault::Memory)
    } else {
        let _ = error.write_all(b"error: a word of the command line is not UTF-8\n");
        Status::CommandLine
    };
    status as u8
}

/// The first word, where `clap` took it for a subcommand that isn't there, and it is the name of a file.
fn file_in_place<'a, F: Store, S: AsStr>(
    store: &mut F,
    words: &'a [S],
    answer: &clap::Error,
) -> Option<&'a str>
    ensures kept { F.held store.new ≡ F.held store.old }
{
    if !matches!(
        answer.kind(),
        ErrorKind::InvalidSubcommand | ErrorKind::UnknownArgument
    ) {
        return None;
    }
    let word = words.get(1)?.as_str();
    store.size(word).map(|_| word)
}

/// Writes what `clap` answers in place of a task, help included, and how to check the file that a word names.
fn answer_words<E: Write + Drop>(
    mut error: E,
    answer: &clap::Error,
    file: Option<&str>,
    style: Option<Style>,
) -> Status
    ensures memory { kind_of answer.now ≡ ErrorKind.OutOfMemory → result ≡ Status.Fault }
    ensures words { kind_of answer.now ≢ ErrorKind.OutOfMemory → result ≡ Status.CommandLine }
{
    if matches!(answer.kind(), ErrorKind::OutOfMemory) {
        return report(&mut error, &Fault::Memory);
    }
    let mut shown = Styled::new(error, style);
    // What standard error doesn't take is lost.
    let _ = write!(shown, "{answer}");
    if let Some(name) = file {
        let _ = writeln!(shown, "\nTo check that file: cwr check {}", ShellWord(name));
    }
    let _ = shown.flush();
    Status::CommandLine
}

/// Tells of a fault. The status is that of a wrong command line where what was to be written may not be, or what was to be read is there
/// once.
fn report<E: Write>(error: &mut E, fault: &Fault<'_>) -> Status
    ensures { result ≡ fault_status fault.now }
{
    tell_fault(error, fault);
    match fault {
        Fault::IsInput(_)
        | Fault::IsThere(_)
        | Fault::IsTwice(_)
        | Fault::IsOther(_)
        | Fault::IsLate(_) => Status::CommandLine,
        Fault::Open(..) | Fault::Read(_) | Fault::Write(_) | Fault::Output(..) | Fault::Memory =>
            Status::Fault,
    }
}

/// How many of the names are standard input.
fn standard_among(names: &[&str]) -> usize
    ensures { result ≡ count_by (λ name. is_standard (Some name)) (map (λ name. name.now) names.now) }
{
    names
        .iter()
        .filter(|name| is_standard(Some(**name)))
        .count()
}

/// Refuses names of which two are standard input, which is there once.
fn refuse_twice<'a>(names: &[&str]) -> Result<(), Fault<'a>>
    ensures { IfErr result (λ fault. (fault ≡ Fault.IsTwice Name.StandardInput)
        × AreStandardTwice (map (λ name. name.now) names.now)) }
{
    if standard_among(names) > 1 {
        Err(Fault::IsTwice(Name::StandardInput))
    } else {
        Ok(())
    }
}

/// What a task wants of a transmission, where a finding of that level, or of a worse one, ends the run as a refusal does.
fn wanted_by(task: &Task<'_>, fail_on: Option<Level>) -> Wanted
    ensures { result ≡ record { whole = task.now.whole; fail_on = fail_on } }
{
    Wanted {
        whole: task.whole,
        fail_on,
    }
}

/// How a task judges an input, where a finding of that level, or of a worse one, ends the run as a refusal does.
fn asked_by(alloc: Global, task: &Task<'_>, fail_on: Option<Level>) -> Asked
    ensures limits { result.limits ≡ task.now.limits }
    ensures wanted { result.wanted ≡ record { whole = task.now.whole; fail_on = fail_on } }
    ensures lines { result.quiet ≡ false }
    ensures faults { result.faults ≡ false }
    ensures advised { result.advised ≡ false }
    ensures all { result.all ≡ false }
    ensures repeated { result.repeated ≡ 0 }
{
    Asked {
        alloc,
        limits: task.limits,
        wanted: wanted_by(task, fail_on),
        quiet: false,
        faults: false,
        advised: false,
        all: false,
        repeated: 0,
    }
}

/// Whether the transmission may be written to where the words say.
fn refuse_written<'a, S: Store>(store: &mut S, words: &WriteWords<'a>) -> Result<(), Fault<'a>>
    ensures refused { IfErr result (λ fault. IfSome words.now.out (λ out. IsRefusedOut (Name.File out) false fault)) }
    ensures free { words.now.out ≡ None → OnErr result ⊥ }
    ensures kept { S.held store.new ≡ S.held store.old }
    ensures making { S.making store.new ≡ S.making store.old }
    ensures failures { HasKeptCount (S.failures store.old) (S.failures store.new) }
{
    match words.out {
        Some(name) => refuse_out(store, name, false, &[words.file.unwrap_or(DASH)]),
        None => Ok(()),
    }
}

/// Writes the transmission that an input's lines are, to the file of that name, which is another one, or to the output, which comes back.
/// The input is the file of its name, or standard input.
fn import_lines<'a, S: Store, I: Read + Drop, P: Pace, W: Target + Drop, E: Write>(
    store: &mut S,
    alloc: Global,
    task: &Task<'a>,
    words: &WriteWords<'a>,
    standard: I,
    pace: &mut P,
    output: W,
    error: &mut E,
) -> (W, Result<Status, Stop<'a>>)
    ensures ends { EndsOnWork task.now.limits task.now.whole (Work.Write words.now) (S.held store.old)
        (I.remaining standard) result.1 }
    ensures told { TellsWork task.now.limits task.now.whole (Work.Write words.now) (S.held store.old) (I.remaining standard)
        W.contents W.failures output result.0 (S.failures store.old) (S.failures store.new) result.1 }
    ensures handed_on { HandsOnWork (Work.Write words.now) result.1 (W.handed_on result.0) }
    ensures files { S.making store.old ≡ None → LeavesWork task.now.limits task.now.whole (Work.Write words.now)
        (S.held store.old) (I.remaining standard) (S.failures store.old) (S.failures store.new) result.1 (S.held store.new) }
    ensures failed { FailsWork (Work.Write words.now) (S.making store.old) (S.held store.old) (S.held store.new) result.1
        (S.failures store.old) (S.failures store.new) }
{
    let import = Import {
        limits: task.limits,
        encoding: encoding_of(words.utf8),
        most: words.line as usize,
    };
    if let Err(fault) = refuse_written(store, words) {
        return (output, Err(Stop::Fault(fault)));
    }
    let input = match open_input(store, words.file, &mut Some(standard), pace) {
        Ok(input) => input,
        Err(fault) => return (output, Err(Stop::Fault(fault))),
    };
    match words.out {
        Some(name) => {
            let ended = import_file(store, alloc, &import, input, name, error);
            (output, ended)
        }
        None => import_input(store, alloc, &import, input, output, error),
    }
}

/// Cuts the transmission of the file to be cut, or that on standard input.
fn split_input<'a, S: Store, I: Read + Drop, P: Pace, W: Target + Drop, E: Write>(
    store: &mut S,
    alloc: Global,
    task: &Task<'a>,
    words: &SplitWords<'a>,
    standard: I,
    pace: &mut P,
    lines: W,
    error: &mut E,
) -> (W, Result<Status, Stop<'a>>)
    ensures ends { EndsOnWork task.now.limits task.now.whole (Work.Split words.now) (S.held store.old)
        (I.remaining standard) result.1 }
    ensures files { S.making store.old ≡ None → LeavesWork task.now.limits task.now.whole (Work.Split words.now)
        (S.held store.old) (I.remaining standard) (S.failures store.old) (S.failures store.new) result.1 (S.held store.new) }
    ensures failed { FailsWork (Work.Split words.now) (S.making store.old) (S.held store.old) (S.held store.new) result.1
        (S.failures store.old) (S.failures store.new) }
{
    let cut = Cut {
        limits: task.limits,
        wanted: wanted_by(task, words.fail_on),
        transactions: words.transactions,
        file: words.file,
        prefix: words.prefix,
        created: words.created,
        only_new: words.only_new,
    };
    let input = match open_input(store, Some(words.file), &mut Some(standard), pace) {
        Ok(input) => input,
        Err(fault) => return (lines, Err(Stop::Fault(fault))),
    };
    split_file(store, alloc, &cut, input, lines, error)
}

/// Joins the transmissions of files to one, of which one may be that on standard input.
fn join_inputs<'a, S: Store, I: Read + Drop, P: Pace, W: Target + Drop, E: Write>(
    store: &mut S,
    alloc: Global,
    task: &Task<'a>,
    words: &JoinWords<'a>,
    standard: I,
    pace: &mut P,
    lines: W,
    error: &mut E,
) -> (W, Result<Status, Stop<'a>>)
    ensures ends { EndsOnWork task.now.limits task.now.whole (Work.Join words.now) (S.held store.old)
        (I.remaining standard) result.1 }
    ensures files { S.making store.old ≡ None → LeavesWork task.now.limits task.now.whole (Work.Join words.now)
        (S.held store.old) (I.remaining standard) (S.failures store.old) (S.failures store.new) result.1 (S.held store.new) }
    ensures failed { FailsWork (Work.Join words.now) (S.making store.old) (S.held store.old) (S.held store.new) result.1
        (S.failures store.old) (S.failures store.new) }
{
    let union = Union {
        limits: task.limits,
        wanted: wanted_by(task, words.fail_on),
        out: words.out,
        only_new: words.only_new,
        same_sender: words.same_sender,
        repeated: words.repeated,
    };
    let files = words.files.as_slice();
    if let Err(fault) = refuse_twice(files) {
        return (lines, Err(Stop::Fault(fault)));
    }
    join_files(store, alloc, &union, files, standard, pace, lines, error)
}

/// Puts the numbers of a transmission right.
fn renumber<'a, S: Store, I: Read + Drop, P: Pace, W: Target + Drop, E: Write>(
    store: &mut S,
    alloc: Global,
    task: &Task<'a>,
    words: &RenumberWords<'a>,
    standard: I,
    pace: &mut P,
    output: W,
    error: &mut E,
) -> (W, Result<Status, Stop<'a>>)
    ensures runs { RunsRenumbering renumbered_text task.now.limits task.now.whole (Work.Renumber words.now) (I.remaining standard)
        (S.held store.old) (S.held store.new) (S.making store.old) (S.failures store.old) (S.failures store.new) result.1 }
    ensures failed { FailsWork (Work.Renumber words.now) (S.making store.old) (S.held store.old) (S.held store.new) result.1
        (S.failures store.old) (S.failures store.new) }
{
    let repair = Repair {
        limits: task.limits,
        wanted: wanted_by(task, words.fail_on),
        file: words.file,
        only_new: words.only_new,
        anyway: words.anyway,
    };
    let input = match open_input(store, words.file, &mut Some(standard), pace) {
        Ok(input) => input,
        Err(fault) => return (output, Err(Stop::Fault(fault))),
    };
    match words.out {
        Some(out) => repair_file(store, alloc, &repair, input, out, output, error),
        None => repair_input(store, alloc, &repair, input, output, error),
    }
}

/// The kinds by which transactions are chosen.
fn kinds_by(kinds: Option<Kinds>) -> Option<ByKind>
    ensures { result ≡ option_map kinds_by kinds }
{
    match kinds {
        Some(kinds) => Some(ByKind {
            agreements: kinds.agreements,
            new_works: kinds.new_works,
            revised_works: kinds.revised_works,
            acknowledgements: kinds.acknowledgements,
        }),
        None => None,
    }
}

/// The kind of works that they are sent as.
fn works_by(works: Option<SentAs>) -> Option<WorkKind>
    ensures { result ≡ option_map work_kind_of works }
{
    match works {
        Some(SentAs::NewWorks) => Some(WorkKind::NewWork),
        Some(SentAs::RevisedWorks) => Some(WorkKind::RevisedWork),
        None => None,
    }
}

/// How the words ask for transactions.
fn selection_by<'a>(task: &Task<'a>, words: &SelectWords<'a>) -> Selection<'a>
    ensures { result ≡ selection_of task.now.limits task.now.whole words.now }
{
    Selection {
        limits: task.limits,
        wanted: wanted_by(task, words.fail_on),
        file: words.file,
        out: words.out,
        only_new: words.only_new,
        works: words.works,
        places: words.places,
        kinds: kinds_by(words.kinds),
        party: words.party,
        others: words.others,
        changes: Changes {
            created: words.created,
            works: works_by(words.sent_as),
        },
    }
}

/// Refuses standard input where the acknowledgements and the others that the words name have it more than once, which is there once, and
/// a file to write that is one of the acknowledgements.
fn refuse_answers<'a, S: Store>(
    store: &mut S,
    words: &SelectWords<'a>,
    others: &[&str],
) -> Result<(), Fault<'a>>
    ensures apart { (status : Status) → OnOk result (IsApart (option_map (λ name. name.now) words.now.out) (answers_named words.now.answered)
        (S.held store.old) (Ok status)) }
    ensures kept { S.held store.new ≡ S.held store.old }
    ensures making { S.making store.new ≡ S.making store.old }
    ensures failures { HasKeptCount (S.failures store.old) (S.failures store.new) }
{
    let Some(answered) = &words.answered else {
        return refuse_twice(others);
    };
    if standard_among(others) + standard_among(answered.files.as_slice()) > 1 {
        return Err(Fault::IsTwice(Name::StandardInput));
    }
    match words.out {
        Some(out) => refuse_out(store, out, false, answered.files.as_slice()),
        None => Ok(()),
    }
}

/// The name of the transmission of which some is selected.
fn file_named<'a>(words: &SelectWords<'a>) -> &'a str
    ensures { result.now ≡ unwrap_or (option_map (λ name. name.now) words.now.file) (codes "-") }
{
    match words.file {
        Some(name) => name,
        None => DASH,
    }
}

/// The places of the transactions of which the words ask what became of them, in order, if they do.
fn answered_by<'a, S: Store, I: Read + Drop, P: Pace, E: Write>(
    store: &mut S,
    alloc: Global,
    task: &Task<'a>,
    words: &SelectWords<'a>,
    standard: &mut Option<I>,
    pace: &mut P,
    error: &mut E,
) -> Result<Option<Listed<(u32, u32)>>, Unsought<'a>>
    ensures answered { (input : I) → IsThereOrRead input standard.old → IfOk result (λ places. AreAnsweredBy task.now.limits
        (option_map (λ name. name.now) words.now.file) words.now.answered (S.held store.old) (I.remaining input) places) }
    ensures asked { OnErr result (IsSome words.now.answered) }
    ensures kept { S.held store.new ≡ S.held store.old }
    ensures making { S.making store.new ≡ S.making store.old }
    ensures failures { OnOk result (S.failures store.new ≡ S.failures store.old) }
    ensures standard { (input : I) → IsThereOrRead input standard.old → IsThereOrRead input standard.new }
{
    let Some(answered) = &words.answered else {
        return Ok(None);
    };
    let asked = Answered {
        alloc,
        limits: task.limits,
        whole: task.whole,
        sent: file_named(words),
        files: answered.files.as_slice(),
        by_place: answered.by_place,
        states: answered.states,
    };
    match answered_places(store, &asked, standard, pace, error) {
        Ok(places) => Ok(Some(Listed::new(places))),
        Err(unsought) => Err(unsought),
    }
}

/// Who chooses by these places, if any are asked for.
fn by_places(places: &Option<Listed<(u32, u32)>>) -> Option<ByPlace<'_>>
    ensures { option_map (λ by. by.0.now) result ≡ places.now }
{
    match places {
        Some(places) => Some(ByPlace(places)),
        None => None,
    }
}

/// Selects transactions of a transmission.
fn select<'a, S: Store, I: Read + Drop, P: Pace, W: Target + Drop, E: Write>(
    store: &mut S,
    alloc: Global,
    task: &Task<'a>,
    words: &SelectWords<'a>,
    standard: I,
    pace: &mut P,
    output: W,
    error: &mut E,
) -> (W, Result<Status, Stop<'a>>)
    ensures ends { EndsOnWork task.now.limits task.now.whole (Work.Select words.now) (S.held store.old)
        (I.remaining standard) result.1 }
    ensures told { TellsWork task.now.limits task.now.whole (Work.Select words.now) (S.held store.old) (I.remaining standard)
        W.contents W.failures output result.0 (S.failures store.old) (S.failures store.new) result.1 }
    ensures handed_on { HandsOnWork (Work.Select words.now) result.1 (W.handed_on result.0) }
    ensures files { S.making store.old ≡ None → LeavesWork task.now.limits task.now.whole (Work.Select words.now)
        (S.held store.old) (I.remaining standard) (S.failures store.old) (S.failures store.new) result.1 (S.held store.new) }
{
    let selection = selection_by(task, words);
    let inputs = [
        words.file.unwrap_or(DASH),
        words.works.unwrap_or(""),
        words.places.unwrap_or(""),
    ];
    if let Err(fault) = refuse_answers(store, words, &inputs) {
        return (output, Err(Stop::Fault(fault)));
    }
    let mut standard = Some(standard);
    let answered = match answered_by(
        store,
        alloc,
        task,
        words,
        &mut standard,
        &mut *pace,
        &mut *error,
    ) {
        Ok(answered) => answered,
        Err(Unsought::Refused) => return (output, Ok(Status::Refused)),
        Err(Unsought::Fault(fault)) => return (output, Err(Stop::Fault(fault))),
    };
    select_file(
        store,
        alloc,
        &selection,
        by_places(&answered),
        &mut standard,
        pace,
        output,
        error,
    )
}

/// Reports on the transmission of the file of that name, or on that on standard input.
fn report_file<'a, S: Store, I: Read + Drop, P: Pace, W: Target + Drop, E: Write>(
    store: &mut S,
    asked: &Asked,
    telling: Telling<'_>,
    name: Option<&'a str>,
    standard: I,
    pace: &mut P,
    lines: W,
    error: &mut E,
) -> (W, Result<Status, Stop<'a>>)
    requires { tells_findings telling ≡ false → asked.now.wanted.fail_on ≡ None }
    ensures ends { EndsOnRead (advice_in telling.entry) asked.now.limits asked.now.wanted (S.held store.old)
        (I.remaining standard) (option_map (λ n. n.now) name.entry) result.1 }
    ensures told { asked.now.quiet ≡ false → TellsRead telling.entry asked.now.limits (S.held store.old)
        (I.remaining standard) (option_map (λ n. n.now) name.entry) W.contents lines result.0 result.1 }
    ensures quiet { asked.now.quiet ≡ true → W.failures lines < most_failures → TellsQuietRead asked.now telling.entry (S.held store.old)
        (I.remaining standard) (option_map (λ n. n.now) name.entry) W.contents lines result.0 result.1 }
    ensures failed { FailsSo result.1 (S.failures store.old) (S.failures store.new) }
    ensures output { CountsOutput result.1 (W.failures lines) (W.failures result.0) }
    ensures handed_on { OnOk result.1 (W.handed_on result.0 ≡ true) }
    ensures kept { S.held store.new ≡ S.held store.old }
{
    match open_input(store, name, &mut Some(standard), pace) {
        Ok(input) => report_input(store, asked, telling, input, lines, error),
        Err(fault) => (lines, Err(Stop::Fault(fault))),
    }
}

/// Writes data or a table of the transmission of the file of that name, or of that on standard input: to the file OUT, or to the output.
fn write_data<'a, S: Store, I: Read + Drop, P: Pace, W: Target + Drop, E: Write>(
    store: &mut S,
    asked: &Asked,
    telling: Telling<'_>,
    name: Option<&'a str>,
    out: Option<&'a str>,
    standard: I,
    pace: &mut P,
    lines: W,
    error: &mut E,
) -> (W, Result<Status, Stop<'a>>)
    requires wanted { tells_findings telling ≡ false → asked.now.wanted.fail_on ≡ None }
    requires lines { asked.now.quiet ≡ false }
    ensures ends { EndsAsData (advice_in telling.entry) asked.now.limits asked.now.wanted (S.held store.old)
        (I.remaining standard) (option_map (λ n. n.now) name.entry) (is_some out.entry) result.1 }
    ensures told { TellsData (is_some out.entry) telling.entry asked.now.limits (S.held store.old)
        (I.remaining standard) (option_map (λ n. n.now) name.entry) W.contents lines result.0 result.1 }
    ensures failed { FailsOut out.entry (S.making store.old) (S.held store.old) (S.held store.new) result.1 (S.failures store.old)
        (S.failures store.new) }
    ensures output { CountsData (is_some out.entry) result.1 (W.failures lines) (W.failures result.0) }
    ensures handed_on { HandsOnData (is_some out.entry) result.1 (W.handed_on result.0) }
    ensures files { is_data telling.entry ≡ true → S.making store.old ≡ None → Turns (S.held store.old) (S.held store.new)
        (LeavesOut (option_map (λ n. n.now) out.entry) (S.failures store.old) (S.failures store.new)
        (IsExportAt telling.entry asked.now.limits (S.held store.old) (I.remaining standard) (option_map (λ n. n.now) name.entry))
        result.1) }
{
    match out {
        Some(out) => {
            let ended = export(store, asked, telling, name, out, standard, pace, error);
            (lines, ended)
        }
        None => report_file(store, asked, telling, name, standard, pace, lines, error),
    }
}

/// How cells are shown in data.
fn encoding_of(utf8: bool) -> Encoding
    ensures { result ≡ encoding_of utf8 }
{
    if utf8 {
        Encoding::Utf8
    } else {
        Encoding::Latin1
    }
}

/// How it is told what acknowledgements say. In lines for people cells stand byte for byte, where they aren't to be in UTF-8.
fn form_of(as_json: bool, utf8: bool) -> Form
    ensures { result ≡ form_of as_json utf8 }
{
    match (as_json, utf8) {
        (true, utf8) => Form::Json(encoding_of(utf8)),
        (false, true) => Form::Words(Cells::Characters(Encoding::Utf8)),
        (false, false) => Form::Words(Cells::Bytes),
    }
}

/// Judges the transmission of the one file, or the one on standard input.
fn judge_alone<'a, S: Store, I: Read + Drop, P: Pace, W: Target + Drop, E: Write>(
    store: &mut S,
    asked: &Asked,
    explained: bool,
    name: Option<&'a str>,
    standard: I,
    pace: &mut P,
    lines: W,
    error: &mut E,
) -> (W, Result<Status, Stop<'a>>)
    requires { asked.now.faults ≡ true → asked.now.wanted.fail_on ≡ None }
    ensures ends { EndsOnRead (advice_asked asked.now) asked.now.limits asked.now.wanted (S.held store.old)
        (I.remaining standard) (option_map (λ n. n.now) name.entry) result.1 }
    ensures told { asked.now.quiet ≡ false → TellsJudged asked.now explained (S.held store.old)
        (I.remaining standard) (option_map (λ n. n.now) name.entry) W.contents lines result.0 result.1 }
    ensures quiet { asked.now.quiet ≡ true → W.failures lines < most_failures → TellsQuietly asked.now explained (S.held store.old)
        (I.remaining standard) (option_map (λ n. n.now) name.entry) W.contents lines result.0 result.1 }
    ensures failed { FailsSo result.1 (S.failures store.old) (S.failures store.new) }
    ensures output { CountsOutput result.1 (W.failures lines) (W.failures result.0) }
    ensures handed_on { OnOk result.1 (W.handed_on result.0 ≡ true) }
    ensures kept { S.held store.new ≡ S.held store.old }
{
    let Ok(shown) = shown_name(asked.alloc, name.unwrap_or(DASH)) else {
        return (lines, Err(Stop::Fault(Fault::Memory)));
    };
    let telling = telling_of(asked, explained, shown.as_str());
    report_file(store, asked, telling, name, standard, pace, lines, error)
}

/// Judges the transmissions of files, or the one on standard input.
fn judge<'a, S: Store, I: Read + Drop, P: Pace, W: Target + Drop, E: Write>(
    store: &mut S,
    asked: &Asked,
    explained: bool,
    names: &[&'a str],
    standard: I,
    pace: &mut P,
    lines: W,
    error: &mut E,
) -> (W, Result<Status, Stop<'a>>)
    requires { asked.now.faults ≡ true → asked.now.wanted.fail_on ≡ None }
    ensures ends { EndsOnFiles (advice_asked asked.now) asked.now.limits asked.now.wanted (S.held store.old)
        (I.remaining standard) (map (λ name. name.now) names.now) result.1 }
    ensures told { TellsFiles asked.now explained asked.now.quiet (S.held store.old) (I.remaining standard)
        (map (λ name. name.now) names.now) W.contents W.failures lines result.0 (S.failures store.old) (S.failures store.new) result.1 }
    ensures failed { FailsOnFiles (map (λ name. name.now) names.now) result.1 (S.failures store.old) (S.failures store.new) }
    ensures output { CountsOutput result.1 (W.failures lines) (W.failures result.0) }
    ensures handed_on { OnOk result.1 (W.handed_on result.0 ≡ true) }
    ensures kept { S.held store.new ≡ S.held store.old }
{
    match names {
        [] => judge_alone(store, asked, explained, None, standard, pace, lines, error),
        [name] => judge_alone(
            store,
            asked,
            explained,
            Some(*name),
            standard,
            pace,
            lines,
            error,
        ),
        _ => match refuse_twice(names) {
            Ok(()) => report_several(store, asked, explained, names, standard, pace, lines, error),
            Err(fault) => (lines, Err(Stop::Fault(fault))),
        },
    }
}

/// The name of the one input of acknowledgements that are matched with nothing, or none of it for standard input, where there is one.
fn alone<'a>(answering: &Answering<'_, 'a>) -> Option<Option<&'a str>>
    ensures { option_map (λ name. option_map (λ n. n.now) name) result ≡ one_of (map (λ name. name.now) answering.now.files.now)
        (map (λ name. name.now) answering.now.sent.now) }
{
    match (answering.files, answering.sent) {
        ([], []) => Some(None),
        ([file], []) => Some(Some(*file)),
        _ => None,
    }
}

/// Tells what the acknowledgements of files say, or those on standard input, or what became of what was sent.
fn tell_answers<'a, S: Store, I: Read + Drop, P: Pace, W: Target + Drop, E: Write>(
    store: &mut S,
    asked: &Asked,
    answering: &Answering<'_, 'a>,
    standard: I,
    pace: &mut P,
    lines: W,
    error: &mut E,
) -> (W, Result<Status, Stop<'a>>)
    requires limits { asked.now.limits ≡ answering.now.limits }
    requires wanted { asked.now.wanted ≡ record { whole = answering.now.whole; fail_on = None } }
    requires lines { asked.now.quiet ≡ false }
    ensures ends { EndsAsAnswers answering.now.limits answering.now.whole answering.now.by_place answering.now.fail_on (S.held store.old)
        (I.remaining standard)
        (map (λ name. name.now) answering.now.files.now) (map (λ name. name.now) answering.now.sent.now) result.1 }
    ensures told { OfOne (map (λ name. name.now) answering.now.files.now) (map (λ name. name.now) answering.now.sent.now)
        (λ name. TellsAnswers answering.now.form answering.now.statuses.now answering.now.limits (S.held store.old) (I.remaining standard) name
        W.contents lines result.0 result.1) }
    ensures failed { OfOne (map (λ name. name.now) answering.now.files.now) (map (λ name. name.now) answering.now.sent.now)
        (λ name. FailsSo result.1 (S.failures store.old) (S.failures store.new)) }
    ensures stopped { FailsOnAnswers result.1 (S.failures store.old) (S.failures store.new) }
    ensures output { CountsOutput result.1 (W.failures lines) (W.failures result.0) }
    ensures handed_on { OfOne (map (λ name. name.now) answering.now.files.now) (map (λ name. name.now) answering.now.sent.now)
        (λ name. OnOk result.1 (W.handed_on result.0 ≡ true)) }
    ensures kept { S.held store.new ≡ S.held store.old }
{
    let told = Telling::Answers {
        form: answering.form,
        statuses: answering.statuses,
    };
    match alone(answering) {
        Some(name) => report_file(store, asked, told, name, standard, pace, lines, error),
        None => match_answers(store, answering, standard, pace, lines, error),
    }
}

/// The table that has rows of these.
fn table_of(rows: Rows) -> Table
    ensures { result ≡ table_of rows }
{
    match rows {
        Rows::Records(kind) => Table::Records(kind),
        Rows::Works => Table::Works,
    }
}

/// Prints the manual.
fn print_manual<'a, W: Target>(lines: W) -> (W, Result<Status, Stop<'a>>)
    ensures { EndsAsManual result.1 }
{
    let mut sink = Sink::new(lines);
    let put = sink.put(MANUAL.as_bytes());
    match hand_on(put, sink) {
        (lines, Ok(())) => (lines, Ok(Status::Good)),
        (lines, Err(stop)) => (lines, Err(stop)),
    }
}

/// Shows the records of a transmission.
fn show_records<'a, S: Store, I: Read + Drop, P: Pace, W: Target + Drop, E: Write>(
    store: &mut S,
    alloc: Global,
    task: &Task<'a>,
    words: &ShowWords<'a>,
    standard: I,
    pace: &mut P,
    lines: W,
    error: &mut E,
) -> (W, Result<Status, Stop<'a>>)
    ensures ends { EndsOnWork task.now.limits task.now.whole (Work.Show words.now) (S.held store.old)
        (I.remaining standard) result.1 }
    ensures told { TellsWork task.now.limits task.now.whole (Work.Show words.now) (S.held store.old) (I.remaining standard)
        W.contents W.failures lines result.0 (S.failures store.old) (S.failures store.new) result.1 }
    ensures failed { FailsWork (Work.Show words.now) (S.making store.old) (S.held store.old) (S.held store.new) result.1
        (S.failures store.old) (S.failures store.new) }
    ensures output { CountsOutput result.1 (W.failures lines) (W.failures result.0) }
    ensures handed_on { OnOk result.1 (W.handed_on result.0 ≡ true) }
    ensures kept { S.held store.new ≡ S.held store.old }
{
    let asked = asked_by(alloc, task, words.fail_on);
    let told = Telling::Records;
    report_file(
        store, &asked, told, words.file, standard, pace, lines, error,
    )
}

/// Tells every fault of transmissions.
fn tell_faults<'a, S: Store, I: Read + Drop, P: Pace, W: Target + Drop, E: Write>(
    store: &mut S,
    alloc: Global,
    task: &Task<'a>,
    words: &LintWords<'a>,
    standard: I,
    pace: &mut P,
    lines: W,
    error: &mut E,
) -> (W, Result<Status, Stop<'a>>)
    ensures ends { EndsOnWork task.now.limits task.now.whole (Work.Lint words.now) (S.held store.old)
        (I.remaining standard) result.1 }
    ensures told { TellsWork task.now.limits task.now.whole (Work.Lint words.now) (S.held store.old) (I.remaining standard)
        W.contents W.failures lines result.0 (S.failures store.old) (S.failures store.new) result.1 }
    ensures failed { FailsWork (Work.Lint words.now) (S.making store.old) (S.held store.old) (S.held store.new) result.1
        (S.failures store.old) (S.failures store.new) }
    ensures output { CountsOutput result.1 (W.failures lines) (W.failures result.0) }
    ensures handed_on { OnOk result.1 (W.handed_on result.0 ≡ true) }
    ensures kept { S.held store.new ≡ S.held store.old }
{
    let asked = Asked {
        quiet: words.quiet,
        faults: true,
        advised: words.advised,
        all: words.all,
        ..asked_by(alloc, task, None)
    };
    let names = words.files.as_slice();
    judge(
        store,
        &asked,
        words.explained,
        names,
        standard,
        pace,
        lines,
        error,
    )
}

/// Judges transmissions, and advises on them.
fn advise<'a, S: Store, I: Read + Drop, P: Pace, W: Target + Drop, E: Write>(
    store: &mut S,
    alloc: Global,
    task: &Task<'a>,
    words: &AdviseWords<'a>,
    standard: I,
    pace: &mut P,
    lines: W,
    error: &mut E,
) -> (W, Result<Status, Stop<'a>>)
    ensures ends { EndsOnWork task.now.limits task.now.whole (Work.Advise words.now) (S.held store.old)
        (I.remaining standard) result.1 }
    ensures told { TellsWork task.now.limits task.now.whole (Work.Advise words.now) (S.held store.old) (I.remaining standard)
        W.contents W.failures lines result.0 (S.failures store.old) (S.failures store.new) result.1 }
    ensures failed { FailsWork (Work.Advise words.now) (S.making store.old) (S.held store.old) (S.held store.new) result.1
        (S.failures store.old) (S.failures store.new) }
    ensures output { CountsOutput result.1 (W.failures lines) (W.failures result.0) }
    ensures handed_on { OnOk result.1 (W.handed_on result.0 ≡ true) }
    ensures kept { S.held store.new ≡ S.held store.old }
{
    let judging = &words.judging;
    let asked = Asked {
        quiet: judging.quiet,
        advised: true,
        all: words.all,
        repeated: words.repeated,
        ..asked_by(alloc, task, judging.fail_on)
    };
    let names = judging.files.as_slice();
    judge(store, &asked, false, names, standard, pace, lines, error)
}

/// Writes the data of a transmission.
fn write_json<'a, S: Store, I: Read + Drop, P: Pace, W: Target + Drop, E: Write>(
    store: &mut S,
    alloc: Global,
    task: &Task<'a>,
    words: &JsonWords<'a>,
    standard: I,
    pace: &mut P,
    lines: W,
    error: &mut E,
) -> (W, Result<Status, Stop<'a>>)
    ensures ends { EndsOnWork task.now.limits task.now.whole (Work.Json words.now) (S.held store.old)
        (I.remaining standard) result.1 }
    ensures told { TellsWork task.now.limits task.now.whole (Work.Json words.now) (S.held store.old) (I.remaining standard)
        W.contents W.failures lines result.0 (S.failures store.old) (S.failures store.new) result.1 }
    ensures failed { FailsWork (Work.Json words.now) (S.making store.old) (S.held store.old) (S.held store.new) result.1
        (S.failures store.old) (S.failures store.new) }
    ensures output { CountsWork (Work.Json words.now) result.1 (W.failures lines) (W.failures result.0) }
    ensures handed_on { HandsOnWork (Work.Json words.now) result.1 (W.handed_on result.0) }
    ensures files { S.making store.old ≡ None → LeavesWork task.now.limits task.now.whole (Work.Json words.now)
        (S.held store.old) (I.remaining standard) (S.failures store.old) (S.failures store.new) result.1 (S.held store.new) }
{
    let asked = asked_by(alloc, task, None);
    let telling = Telling::Data {
        encoding: encoding_of(words.utf8),
        numbers: words.numbers,
    };
    let (file, out) = (words.file, words.out);
    write_data(
        store, &asked, telling, file, out, standard, pace, lines, error,
    )
}

/// Writes a table of a transmission.
fn write_table<'a, S: Store, I: Read + Drop, P: Pace, W: Target + Drop, E: Write>(
    store: &mut S,
    alloc: Global,
    task: &Task<'a>,
    words: &CsvWords<'a>,
    standard: I,
    pace: &mut P,
    lines: W,
    error: &mut E,
) -> (W, Result<Status, Stop<'a>>)
    ensures ends { EndsOnWork task.now.limits task.now.whole (Work.Csv words.now) (S.held store.old)
        (I.remaining standard) result.1 }
    ensures told { TellsWork task.now.limits task.now.whole (Work.Csv words.now) (S.held store.old) (I.remaining standard)
        W.contents W.failures lines result.0 (S.failures store.old) (S.failures store.new) result.1 }
    ensures failed { FailsWork (Work.Csv words.now) (S.making store.old) (S.held store.old) (S.held store.new) result.1
        (S.failures store.old) (S.failures store.new) }
    ensures output { CountsWork (Work.Csv words.now) result.1 (W.failures lines) (W.failures result.0) }
    ensures handed_on { HandsOnWork (Work.Csv words.now) result.1 (W.handed_on result.0) }
    ensures files { S.making store.old ≡ None → LeavesWork task.now.limits task.now.whole (Work.Csv words.now)
        (S.held store.old) (I.remaining standard) (S.failures store.old) (S.failures store.new) result.1 (S.held store.new) }
{
    let asked = asked_by(alloc, task, None);
    let telling = Telling::Rows {
        encoding: encoding_of(words.utf8),
        table: table_of(words.rows),
    };
    let (file, out) = (words.file, words.out);
    write_data(
        store, &asked, telling, file, out, standard, pace, lines, error,
    )
}

/// Tells what acknowledgements say, or what became of what was sent.
fn tell_acks<'a, S: Store, I: Read + Drop, P: Pace, W: Target + Drop, E: Write>(
    store: &mut S,
    alloc: Global,
    task: &Task<'a>,
    words: &AcksWords<'a>,
    standard: I,
    pace: &mut P,
    lines: W,
    error: &mut E,
) -> (W, Result<Status, Stop<'a>>)
    ensures ends { EndsOnWork task.now.limits task.now.whole (Work.Acks words.now) (S.held store.old)
        (I.remaining standard) result.1 }
    ensures told { TellsWork task.now.limits task.now.whole (Work.Acks words.now) (S.held store.old) (I.remaining standard)
        W.contents W.failures lines result.0 (S.failures store.old) (S.failures store.new) result.1 }
    ensures failed { FailsWork (Work.Acks words.now) (S.making store.old) (S.held store.old) (S.held store.new) result.1
        (S.failures store.old) (S.failures store.new) }
    ensures output { CountsWork (Work.Acks words.now) result.1 (W.failures lines) (W.failures result.0) }
    ensures handed_on { HandsOnWork (Work.Acks words.now) result.1 (W.handed_on result.0) }
    ensures kept { S.held store.new ≡ S.held store.old }
{
    let asked = asked_by(alloc, task, None);
    let answering = Answering {
        alloc,
        limits: task.limits,
        whole: task.whole,
        form: form_of(words.as_json, words.utf8),
        statuses: words.statuses.as_slice(),
        encoding: encoding_of(words.utf8),
        files: words.files.as_slice(),
        sent: words.sent.as_slice(),
        by_place: words.by_place,
        state: words.state,
        fail_on: words.fail_on,
    };
    tell_answers(store, &asked, &answering, standard, pace, lines, error)
}

/// The form in which rows are put.
fn form_of_rows(words: &SummaryWords<'_>) -> cwr_summary_rows::Form
    ensures { result ≡ rows_form words.now.as_csv words.now.as_json }
{
    match (words.as_csv, words.as_json) {
        (true, _) => cwr_summary_rows::Form::Csv,
        (false, true) => cwr_summary_rows::Form::Json,
        (false, false) => cwr_summary_rows::Form::Words,
    }
}

/// Sums up transmissions.
fn sum_up<'a, S: Store, I: Read + Drop, P: Pace, W: Target + Drop, E: Write>(
    store: &mut S,
    alloc: Global,
    task: &Task<'a>,
    words: &SummaryWords<'a>,
    standard: I,
    pace: &mut P,
    lines: W,
    error: &mut E,
) -> (W, Result<Status, Stop<'a>>)
    ensures ends { EndsOnWork task.now.limits task.now.whole (Work.Summary words.now) (S.held store.old)
        (I.remaining standard) result.1 }
    ensures told { TellsRows (rows_form words.now.as_csv words.now.as_json) task.now.limits (not words.now.undigested) task.now.whole
        words.now.quiet (S.held store.old) (I.remaining standard) (map (λ name. name.now) words.now.files.items) W.contents lines result.0
        (S.failures store.old) (S.failures store.new) result.1 }
    ensures failed { FailsEach result.1 (S.failures store.old) (S.failures store.new) }
    ensures output { CountsOutput result.1 (W.failures lines) (W.failures result.0) }
    ensures handed_on { OnOk result.1 (W.handed_on result.0 ≡ true) }
    ensures kept { S.held store.new ≡ S.held store.old }
{
    let quiet = words.quiet;
    let summing = Summing {
        alloc,
        limits: task.limits,
        whole: task.whole,
        form: form_of_rows(words),
        digests: !words.undigested,
        advised: words.advised,
        quiet,
        files: words.files.as_slice(),
    };
    if let Err(fault) = refuse_twice(summing.files) {
        return (lines, Err(Stop::Fault(fault)));
    }
    summarize(store, &summing, standard, pace, lines, error)
}

/// Judges transmissions, and explains what is found where that is asked for.
fn judge_by<'a, S: Store, I: Read + Drop, P: Pace, W: Target + Drop, E: Write>(
    store: &mut S,
    alloc: Global,
    task: &Task<'a>,
    explained: bool,
    judging: &Judging<'a>,
    standard: I,
    pace: &mut P,
    lines: W,
    error: &mut E,
) -> (W, Result<Status, Stop<'a>>)
    ensures ends { EndsOnFiles None task.now.limits (record { whole = task.now.whole; fail_on = judging.now.fail_on })
        (S.held store.old) (I.remaining standard) (map (λ name. name.now) judging.now.files.items) result.1 }
    ensures told { TellsAsked task.now.limits (record { whole = task.now.whole; fail_on = judging.now.fail_on }) explained judging.now.quiet
        false false false 0 (S.held store.old) (I.remaining standard) (map (λ name. name.now) judging.now.files.items) W.contents W.failures
        lines result.0 (S.failures store.old) (S.failures store.new) result.1 }
    ensures failed { FailsOnFiles (map (λ name. name.now) judging.now.files.items) result.1 (S.failures store.old) (S.failures store.new) }
    ensures output { CountsOutput result.1 (W.failures lines) (W.failures result.0) }
    ensures handed_on { OnOk result.1 (W.handed_on result.0 ≡ true) }
    ensures kept { S.held store.new ≡ S.held store.old }
{
    let asked = Asked {
        quiet: judging.quiet,
        ..asked_by(alloc, task, judging.fail_on)
    };
    let names = judging.files.as_slice();
    judge(
        store, &asked, explained, names, standard, pace, lines, error,
    )
}

/// Does what is asked for, and tells of a fault. The answer is the status, and standard output, where the work wasn't stopped.
fn carry_out<'a, S: Store, I: Read + Drop, P: Pace, O: Write + Drop, E: Write>(
    store: &mut S,
    alloc: Global,
    task: &Task<'a>,
    standard: I,
    pace: &mut P,
    output: O,
    error: &mut E,
) -> (Status, Option<O>)
    // It is the status of what came of the work, by what lies under the names that the words give, and on standard input; and what lies
    // there then is what such a run leaves, and what was written to standard output is what it tells.
    ensures { RunsTask renumbered_text (TellsBack task.now.limits task.now.whole task.now.work (S.held store.old) (I.remaining standard)
        (O.contents output) (option_map O.contents result.1) (S.failures store.old) (S.failures store.new)) task.now (I.remaining standard)
        (S.held store.old) (S.held store.new) (S.making store.old) (S.failures store.old) (S.failures store.new) result.0 }
{
    let Ok(lines) = Gatherer::new(alloc, output, Name::StandardOutput) else {
        return (report(error, &Fault::Memory), None);
    };
    let (lines, ended) = perform(store, alloc, task, standard, pace, lines, error);
    match ended {
        Ok(status) => (status, Some(lines.into_inner())),
        Err(Stop::Output) => {
            let told = lines.told();
            // What is left is written before that is told.
            drop(lines);
            (report(error, &Fault::Write(told)), None)
        }
        Err(Stop::Fault(fault)) => {
            drop(lines);
            (report(error, &fault), None)
        }
    }
}

/// Does what is asked for. What is written to standard output goes to `lines`, which come back.
fn perform<'a, S: Store, I: Read + Drop, P: Pace, W: Target + Drop, E: Write>(
    store: &mut S,
    alloc: Global,
    task: &Task<'a>,
    standard: I,
    pace: &mut P,
    lines: W,
    error: &mut E,
) -> (W, Result<Status, Stop<'a>>)
    ensures ends { EndsOnWork task.now.limits task.now.whole task.now.work (S.held store.old) (I.remaining standard)
        result.1 }
    ensures told { TellsWork task.now.limits task.now.whole task.now.work (S.held store.old) (I.remaining standard)
        W.contents W.failures lines result.0 (S.failures store.old) (S.failures store.new) result.1 }
    // The status of a fault comes only where a file failed, or none can be made, or there was no memory.
    ensures failed { FailsWork task.now.work (S.making store.old) (S.held store.old) (S.held store.new) result.1
        (S.failures store.old) (S.failures store.new) }
    ensures output { CountsWork task.now.work result.1 (W.failures lines) (W.failures result.0) }
    ensures handed_on { HandsOnWork task.now.work result.1 (W.handed_on result.0) }
    ensures files { S.making store.old ≡ None → LeavesWork task.now.limits task.now.whole task.now.work
        (S.held store.old) (I.remaining standard) (S.failures store.old) (S.failures store.new) result.1 (S.held store.new) }
    ensures renumbers { RunsRenumbering renumbered_text task.now.limits task.now.whole task.now.work (I.remaining standard)
        (S.held store.old) (S.held store.new) (S.making store.old) (S.failures store.old) (S.failures store.new) result.1 }
{
    match &task.work {
        Work::Check(words) => {
            judge_by(
                store, alloc, task, false, words, standard, pace, lines, error,
            )
        }
        Work::Show(words) => show_records(store, alloc, task, words, standard, pace, lines, error),
        Work::Explain(words) => {
            judge_by(
                store, alloc, task, true, words, standard, pace, lines, error,
            )
        }
        Work::Lint(words) => tell_faults(store, alloc, task, words, standard, pace, lines, error),
        Work::Advise(words) => advise(store, alloc, task, words, standard, pace, lines, error),
        Work::Json(words) => write_json(store, alloc, task, words, standard, pace, lines, error),
        Work::Csv(words) => write_table(store, alloc, task, words, standard, pace, lines, error),
        Work::Acks(words) => tell_acks(store, alloc, task, words, standard, pace, lines, error),
        Work::Summary(words) => sum_up(store, alloc, task, words, standard, pace, lines, error),
        Work::Write(words) => import_lines(store, alloc, task, words, standard, pace, lines, error),
        Work::Split(words) => split_input(store, alloc, task, words, standard, pace, lines, error),
        Work::Join(words) => join_inputs(store, alloc, task, words, standard, pace, lines, error),
        Work::Renumber(words) => renumber(store, alloc, task, words, standard, pace, lines, error),
        Work::Select(words) => select(store, alloc, task, words, standard, pace, lines, error),
        Work::Manual => print_manual(lines),
    }
}
