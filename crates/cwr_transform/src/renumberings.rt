//! A transmission whose numbers are put right.

ghost use Rattle.std.specs.Prelude.{◌≡◌, ◌&&◌, ℕ, None, true, false, IfOk};
ghost use Rattle.std.specs.Result.{is_ok};
ghost use Rattle.cwr_files.specs.Format.Faults.{IfErr};
ghost use Rattle.cwr_files.specs.Format.Files.{Turns};
ghost use Rattle.cwr_files.specs.Steps.Inputs.{remaining_of};
ghost use Rattle.cwr_endings.specs.Format.Failures.{FailsSo, FailsToWrite, IsFaultOfOut};
ghost use Rattle.cwr_renumber.specs.Steps.Renumbered.{renumbered_text};
ghost use Rattle.cwr_renumber.specs.Steps.Renumberings.{CountsReader, CountsWriter};
ghost use Rattle.cwr_tools.specs.Format.Watching.{AreFindingsIn, is_reached};
ghost use Rattle.cwr_endings.specs.Format.Endings.{WritesOut};
ghost use Rattle.cwr_transform.specs.Format.Repairs.{IsRepairOf};
ghost use Rattle.cwr_transform.specs.Steps.Repairs.{CountsFile, CountsRead, CountsRewritten, EndsRenumbered, EndsRepaired, IsRenumberedOf, IsRightOf, LeavesRepaired, RepairsInput, Rewrites, keeps_repaired, kept_outcome};

use cwr_devices::{Counted, ReadAhead, Sink, Source, Target};
use cwr_endings::{
    Look, Status, Stop, Wanted, ended_by, follows, hand_on, look_beyond, refuse_out, settle,
    status_by, tell_findings, tell_following, tell_unwritten,
};
use cwr_files::{
    DASH, Fault, Input, Name, Pace, Store, Told, create_output, end_input, gathered, take_back,
};
use cwr_renumber::{Count, Jump, Jumps, Step, put_renumber_outcome, renumber_viewed};
use cwr_shape::Limits;
use cwr_tools::{FindingCount, FindingView, JoinReport, ToolFault};
use std::alloc::Global;
use std::io;
use std::io::{Read, Write};

/// How numbers are put right.
#[derive(Clone, Copy, Debug)]
pub struct Repair<'a> {
    pub limits: Limits,
    /// What is wanted of the transmission.
    pub wanted: Wanted,
    /// The name of the transmission's file, or none for that on standard input.
    pub file: Option<&'a str>,
    /// A file that is written may replace none.
    pub only_new: bool,
    /// Numbers are put right also where records may have come into the transaction or the group before theirs.
    pub anyway: bool,
}

/// What came of a run.
#[derive(Drop)]
struct Repaired<'a> {
    outcome: Result<JoinReport, ToolFault>,
    /// What follows the transmission.
    look: Look,
    /// The findings in it.
    count: FindingCount,
    /// Whether one is unwanted.
    found: bool,
    /// Whether records may have come into the transaction or the group before theirs, and that is unwanted.
    mixed: bool,
    /// What is known of the input.
    read: Told<'a>,
}

impl Repaired<'_> {
    /// Whether what was written is what is wanted: a transmission without an unwanted finding, in which records didn't come into the
    /// transaction or the group before theirs, and where nothing may follow it in the input nothing does.
    fn is_wanted(&self, whole: bool) -> bool
        ensures { result ≡ keeps_repaired whole self.now }
    {
        let alone = match &self.look {
            Look::Found(trailing) => !follows(trailing),
            Look::Failed => false,
            Look::Unasked => true,
        };
        self.outcome.is_ok() && (alone || !whole) && !self.found && !self.mixed
    }
}

/// Writes the counts of a trailer that aren't what came.
fn put_counts<E: Write>(error: &mut E, counts: &[(&str, Option<Count>); 3]) -> io::Result<()> {
    for (name, count) in counts {
        if let Some(Count { told, came }) = count {
            write!(error, "the {name} count is {told}, and {came} came; ")?;
        }
    }
    writeln!(error, "lines may be missing before it, or stand twice")
}

/// Writes how a number doesn't go on at a line, or isn't what came, and what that may mean.
fn put_jump<E: Write>(error: &mut E, name: Name<'_>, jump: &Jump) -> io::Result<()> {
    write!(error, "cwr: {name}: line {}: ", jump.line)?;
    match jump.step {
        Step::Again { own } => writeln!(
            error,
            "in mid-transaction the record sequence {own} comes again: the record may stand twice"
        ),
        Step::Back { before, here } => writeln!(
            error,
            "in mid-transaction the record sequence goes from {before} back to {here}: the header of a transaction may be missing before it, or records stand elsewhere"
        ),
        Step::OfAnother { before, here } => writeln!(
            error,
            "in mid-transaction the transaction sequence goes from {before} to {here}: the header of transaction {here} may be missing before it"
        ),
        Step::Transaction {
            before: Some(before),
            here,
        } if before == here => writeln!(
            error,
            "the transaction sequence {here} comes again: the transaction may stand twice"
        ),
        Step::Transaction {
            before: Some(before),
            here,
        } => writeln!(
            error,
            "the transaction sequence goes from {before} to {here}: transactions may be missing before it"
        ),
        Step::Transaction { before: None, here } => writeln!(
            error,
            "the transaction sequence of the group's first transaction is {here}: transactions may be missing before it"
        ),
        Step::Group {
            before: Some(before),
            here,
        } if before == here => writeln!(
            error,
            "the group ID {here} comes again: the group may stand twice"
        ),
        Step::Group {
            before: Some(before),
            here,
        } => writeln!(
            error,
            "the group ID goes from {before} to {here}: groups may be missing before it"
        ),
        Step::Group { before: None, here } => writeln!(
            error,
            "the ID of the first group is {here}: groups may be missing before it"
        ),
        Step::OfAnotherGroup { opened, closed } => writeln!(
            error,
            "the group ID is {opened} in GRH and {closed} in GRT: the end of group {opened} and the beginning of group {closed} may be missing between them"
        ),
        Step::Counts {
            groups,
            transactions,
            records,
        } => put_counts(
            error,
            &[
                ("group", groups),
                ("transaction", transactions),
                ("record", records),
            ],
        ),
    }
}

/// Tells on standard error where the numbers of an input don't go on, or aren't what came. What standard error doesn't take is lost.
fn tell_jumps<E: Write>(error: &mut E, name: Name<'_>, jumps: &Jumps) {
    for jump in jumps.first.as_slice() {
        let _ = put_jump(error, name, jump);
    }
    let told = jumps.first.len() as u64;
    if jumps.count > told {
        let more = jumps.count - told;
        let _ = writeln!(error, "cwr: {name}: {more} more such lines");
    }
}

/// Tells on standard error why the numbers of an input aren't put right. What standard error doesn't take is lost.
fn tell_mixed<E: Write>(error: &mut E, name: Name<'_>) {
    let _ = writeln!(
        error,
        "cwr: {name}: the numbers aren't put right: by these lines records may have come into the transaction or the group before theirs; look with cwr explain, or put them right all the same with --anyway"
    );
}

/// What came of writing the transmission of a reader with its numbers put right.
#[derive(Drop)]
struct Rewritten {
    outcome: Result<JoinReport, ToolFault>,
    /// What follows the transmission.
    look: Look,
    /// The findings in it.
    count: FindingCount,
    /// Where numbers don't go on.
    jumps: Jumps,
}

/// Writes the transmission of a reader with its numbers put right, counts the findings in it, and looks what follows it there. The reader
/// and the writer come back.
fn rewrite<R: Source, W: Target + Drop>(
    alloc: Global,
    limits: Limits,
    reader: R,
    writer: W,
) -> (R, W, Rewritten)
    ensures rewrites { Rewrites renumbered_text limits (AreFindingsIn result.2.count) (R.remaining reader) W.contents writer result.1
        result.2.outcome }
    ensures reads { CountsRewritten result.2.outcome result.2.look (R.failures reader) (R.failures result.0) }
    ensures writer_failures { CountsWriter result.2.outcome (W.failures writer) (W.failures result.1) }
{
    let mut view = FindingView::new(alloc);
    let (mut reader, writer, outcome, jumps) = renumber_viewed(
        alloc, limits, reader, &mut view, writer,
    );
    let (outcome, look) = look_after(&mut reader, outcome, view.lacks_memory);
    let rewritten = Rewritten {
        outcome,
        look,
        count: view.count,
        jumps,
    };
    (reader, writer, rewritten)
}

/// Looks what follows a transmission that was written. Where memory was refused for what was seen of it, that is the answer.
fn look_after<R: Source>(
    reader: &mut R,
    outcome: Result<JoinReport, ToolFault>,
    lacks_memory: bool,
) -> (Result<JoinReport, ToolFault>, Look)
    ensures outcome { result.0 ≡ kept_outcome lacks_memory outcome }
    ensures reads { (first : ℕ) → CountsReader outcome first (R.failures reader.old)
        → CountsRewritten result.0 result.1 first (R.failures reader.new) }
{
    match outcome {
        Ok(_) if lacks_memory => (Err(ToolFault::Memory), Look::Unasked),
        Ok(_) => (outcome, look_beyond(reader)),
        Err(_) => (outcome, Look::Unasked),
    }
}

/// Whether a transmission was written in which a finding is unwanted.
fn finds_unwanted(
    outcome: &Result<JoinReport, ToolFault>,
    count: &FindingCount,
    wanted: Wanted,
) -> bool
    ensures { result ≡ (is_ok outcome.now && is_reached wanted.fail_on count.now.worst) }
{
    outcome.is_ok() && count.reaches(wanted.fail_on)
}

/// Whether a transmission was written though by its numbers records may have come into the transaction or the group before theirs, and that
/// is unwanted.
fn mixes_unwanted(outcome: &Result<JoinReport, ToolFault>, jumps: &Jumps, anyway: bool) -> bool
    ensures { result ≡ true → anyway ≡ false }
{
    outcome.is_ok() && jumps.are_mixed && !anyway
}

/// Writes the transmission of an input with its numbers put right, and looks what follows it there. The writer comes back.
fn run<'a, S: Store, I: Read + Drop, P: Pace + Drop, W: Target + Drop, E: Write>(
    store: &mut S,
    alloc: Global,
    repair: &Repair<'_>,
    input: Input<'a, S::Reader, I, P>,
    writer: W,
    error: &mut E,
) -> (Repaired<'a>, W)
    ensures repairs { RepairsInput renumbered_text repair.now.limits repair.now.wanted
        (remaining_of S.Reader.remaining I.remaining input.entry) W.contents writer result.1 result.0 }
    ensures judged { IsRightOf renumbered_text repair.now.limits repair.now.wanted repair.now.anyway
        (remaining_of S.Reader.remaining I.remaining input.entry) result.0 }
    ensures failures { CountsWriter result.0.outcome (W.failures writer) (W.failures result.1) }
    ensures reads { CountsRead result.0.outcome result.0.look (S.failures store.old) (S.failures store.new) }
    ensures kept { S.held store.new ≡ S.held store.old }
    ensures making { S.making store.new ≡ S.making store.old }
{
    let reader = ReadAhead::new(input);
    let (reader, writer, rewritten) = rewrite(alloc, repair.limits, reader, writer);
    let Rewritten {
        outcome,
        look,
        count,
        jumps,
    } = rewritten;
    let read = end_input(store, reader);
    tell_jumps(error, read.name, &jumps);
    let mixed = mixes_unwanted(&outcome, &jumps, repair.anyway);
    if mixed {
        tell_mixed(error, read.name);
    }
    tell_following(error, read.name, &look);
    let repaired = Repaired {
        outcome,
        look,
        found: finds_unwanted(&outcome, &count, repair.wanted),
        mixed,
        count,
        read,
    };
    (repaired, writer)
}

/// Tells on standard error what the findings in a transmission mean that was written under that name, or because of which it wasn't.
fn tell_count<E: Write>(error: &mut E, name: Name<'_>, repaired: &Repaired<'_>, is_kept: bool) {
    if repaired.outcome.is_err() {
        return;
    }
    if is_kept {
        tell_findings(error, name, &repaired.count, status_by(repaired.found));
    } else if repaired.found {
        tell_unwritten(error, name, &repaired.count);
    }
}

/// How a run ends, where that is why it stopped if its output failed, or couldn't be made.
fn ending<'a>(
    repaired: Repaired<'a>,
    whole: bool,
    written: Stop<'a>,
    made: Stop<'a>,
) -> Result<Status, Stop<'a>>
    ensures { EndsRepaired whole written.entry made.entry repaired.entry.outcome repaired.entry result }
{
    let is_wanted = repaired.is_wanted(whole);
    match (repaired.outcome, repaired.look) {
        (Ok(_), Look::Failed) if !is_wanted => Err(Stop::Fault(Fault::Read(repaired.read))),
        (Ok(_), _) if !is_wanted => Ok(Status::Refused),
        (outcome, _) => ended_by(outcome.err(), repaired.read, written, made),
    }
}

/// What came of a run to a file.
#[derive(Drop)]
struct RepairedFile<'a> {
    repaired: Repaired<'a>,
    /// What is known of the file.
    written: Told<'a>,
    /// Whether it has its name.
    is_kept: bool,
}

/// Writes the transmission of an input with its numbers put right to a file, which gets its name where that is what is wanted.
fn make_repaired<'a, S: Store, I: Read + Drop, P: Pace + Drop, E: Write>(
    store: &mut S,
    alloc: Global,
    repair: &Repair<'a>,
    input: Input<'a, S::Reader, I, P>,
    out: &'a str,
    error: &mut E,
) -> Result<RepairedFile<'a>, Fault<'a>>
    ensures judged { IfOk result (λ file. IsRightOf renumbered_text repair.now.limits repair.now.wanted repair.now.anyway
        (remaining_of S.Reader.remaining I.remaining input.entry) file.repaired) }
    ensures named { IfOk result (λ file. file.is_kept ≡ keeps_repaired repair.now.wanted.whole file.repaired) }
    ensures files { S.making store.old ≡ None → Turns (S.held store.old) (S.held store.new)
        (LeavesRepaired out.now repair.now.wanted.whole (S.failures store.old) (S.failures store.new)
        (IsRepairOf renumbered_text repair.now.limits repair.now.wanted (remaining_of S.Reader.remaining I.remaining input.entry))
        result) }
    ensures unmade { IfErr result (λ fault. IsFaultOfOut out.entry (S.making store.old) (S.held store.old) (S.held store.new) fault
        (S.failures store.old) (S.failures store.new)) }
    ensures counted { IfOk result (λ file. CountsFile file.repaired.outcome file.repaired.look (S.failures store.old) (S.failures store.new)) }
{
    let (made, file) = match create_output(store, alloc, out) {
        Ok(made) => made,
        Err(fault) => return Err(fault),
    };
    let name = Name::File(out);
    let Ok(writer) = gathered(alloc, file, name) else {
        made.discard(store, 0);
        return Err(Fault::Memory);
    };
    let (repaired, writer) = run(store, alloc, repair, input, writer, &mut *error);
    let (told, written) = take_back(writer);
    let is_kept = repaired.is_wanted(repair.wanted.whole);
    match settle(store, made, written, out, is_kept, &mut *error) {
        Ok(()) => {
            tell_count(error, name, &repaired, is_kept);
            Ok(RepairedFile {
                repaired,
                written: told,
                is_kept,
            })
        }
        Err(fault) => Err(fault),
    }
}

/// Writes the transmission of an input with its numbers put right to a file that may be written.
fn write_repaired<'a, S: Store, I: Read + Drop, P: Pace + Drop, E: Write>(
    store: &mut S,
    alloc: Global,
    repair: &Repair<'a>,
    input: Input<'a, S::Reader, I, P>,
    out: &'a str,
    error: &mut E,
) -> Result<RepairedFile<'a>, Fault<'a>>
    ensures judged { IfOk result (λ file. IsRightOf renumbered_text repair.now.limits repair.now.wanted repair.now.anyway
        (remaining_of S.Reader.remaining I.remaining input.entry) file.repaired) }
    ensures named { IfOk result (λ file. file.is_kept ≡ keeps_repaired repair.now.wanted.whole file.repaired) }
    ensures files { S.making store.old ≡ None → Turns (S.held store.old) (S.held store.new)
        (LeavesRepaired out.now repair.now.wanted.whole (S.failures store.old) (S.failures store.new)
        (IsRepairOf renumbered_text repair.now.limits repair.now.wanted (remaining_of S.Reader.remaining I.remaining input.entry))
        result) }
    ensures unmade { IfErr result (λ fault. IsFaultOfOut out.entry (S.making store.old) (S.held store.old) (S.held store.new) fault
        (S.failures store.old) (S.failures store.new)) }
    ensures counted { IfOk result (λ file. CountsFile file.repaired.outcome file.repaired.look (S.failures store.old) (S.failures store.new)) }
{
    let input_word = repair.file.unwrap_or(DASH);
    if let Err(fault) = refuse_out(store, out, repair.only_new, &[input_word]) {
        return Err(fault);
    }
    make_repaired(store, alloc, repair, input, out, error)
}

/// Writes the transmission of an input with its numbers put right to the file of that name, and the line that says how that ended to the
/// output, which comes back: none where what was written isn't what is wanted.
pub fn repair_file<'a, S: Store, I: Read + Drop, P: Pace + Drop, W: Target, E: Write>(
    store: &mut S,
    alloc: Global,
    repair: &Repair<'a>,
    input: Input<'a, S::Reader, I, P>,
    out: &'a str,
    lines: W,
    error: &mut E,
) -> (W, Result<Status, Stop<'a>>)
    ensures ends { EndsRenumbered S.Reader.remaining I.remaining repair.now.limits repair.now.wanted repair.now.anyway
        input.entry result.1 }
    // Where it ends well the file holds the transmission with its numbers put right, and nothing else changed; else nothing did.
    ensures files { S.making store.old ≡ None → Turns (S.held store.old) (S.held store.new)
        (WritesOut out.now (S.failures store.old) (S.failures store.new)
        (IsRenumberedOf S.Reader.remaining I.remaining repair.now.limits repair.now.wanted input.entry) result.1) }
    // It ends as what failed does only where a failure was counted, or no such file can be made, or there was no memory.
    ensures failed { FailsToWrite out.entry (S.making store.old) (S.held store.old) (S.held store.new) result.1
        (S.failures store.old) (S.failures store.new) }
{
    let file = match write_repaired(store, alloc, repair, input, out, error) {
        Ok(file) => file,
        Err(fault) => return (lines, Err(Stop::Fault(fault))),
    };
    let (lines, handed) = put_repaired(&file, lines);
    match handed {
        Ok(()) => (lines, file_ending(file, repair.wanted.whole, out)),
        Err(stop) => (lines, Err(stop)),
    }
}

/// Writes the line that says how a run to a file ended: none where what was written isn't what is wanted.
fn put_repaired<'a, W: Target>(file: &RepairedFile<'_>, lines: W) -> (W, Result<(), Stop<'a>>)
    ensures { IfErr result.1 (λ stop. stop ≡ Stop.Output) }
{
    if !file.is_kept && file.repaired.outcome.is_ok() {
        return (lines, Ok(()));
    }
    let mut sink = Sink::new(lines);
    let put = put_renumber_outcome(&file.repaired.outcome, &mut sink);
    hand_on(put, sink)
}

/// How a run to the file of that name ends.
fn file_ending<'a>(file: RepairedFile<'a>, whole: bool, out: &'a str) -> Result<Status, Stop<'a>>
    ensures { EndsRepaired whole (Stop.Fault (Fault.Write file.entry.written)) (Stop.Fault (Fault.Output (Name.File out.entry) None))
        file.entry.repaired.outcome file.entry.repaired result }
{
    let written = Stop::Fault(Fault::Write(file.written));
    let made = Stop::Fault(Fault::Output(Name::File(out), None));
    ending(file.repaired, whole, written, made)
}

/// Writes the transmission of an input with its numbers put right to the output, and the line that says how that ended to standard error.
/// The output comes back.
pub fn repair_input<'a, S: Store, I: Read + Drop, P: Pace + Drop, W: Target + Drop, E: Write>(
    store: &mut S,
    alloc: Global,
    repair: &Repair<'a>,
    input: Input<'a, S::Reader, I, P>,
    output: W,
    error: &mut E,
) -> (W, Result<Status, Stop<'a>>)
    ensures ends { EndsRenumbered S.Reader.remaining I.remaining repair.now.limits repair.now.wanted repair.now.anyway
        input.entry result.1 }
    ensures failed { FailsSo result.1 (S.failures store.old) (S.failures store.new) }
    ensures kept { S.held store.new ≡ S.held store.old }
{
    let (repaired, mut output) = run(store, alloc, repair, input, output, &mut *error);
    // What is left is written before that is told, where it can be.
    let _ = output.flush();
    // What standard error doesn't take is lost.
    let _ = put_renumber_outcome(&repaired.outcome, &mut Sink::new(Counted::new(&mut *error)));
    tell_count(error, Name::StandardOutput, &repaired, true);
    let ended = ending(repaired, repair.wanted.whole, Stop::Output, Stop::Output);
    (output, ended)
}
