//! Transmissions that are cut into files.

ghost use Rattle.cwr_transform.specs.Format.Splits.{EndsAsSplit, FailsToCut, LeavesCut};
ghost use Rattle.cwr_files.specs.Format.Faults.{IsFaultOfPart};
ghost use Rattle.cwr_files.specs.Format.Files.{Turns};
ghost use Rattle.cwr_files.specs.Steps.NewFiles.{HasKeptCount};
ghost use Rattle.cwr_files.specs.Steps.NumberedFiles.{StartsAs};
ghost use Rattle.cwr_files.specs.Steps.Inputs.{remaining_of};
ghost use Rattle.cwr_endings.specs.Steps.Looks.{good_status};
ghost use Rattle.cwr_tools.specs.Format.Watching.{CountsAccepted};
ghost use Rattle.std.specs.Prelude.{◌≡◌, None, IsSome, OnOk};
ghost use Rattle.cwr_transform.specs.Steps.Splits.{CountsCut, HandsOver, JudgesCut, LeavesTold, SplitEndsAs, unless_stopped};

use cwr_devices::{Outputs, ReadAhead, Sink, SinkFault, Source, Target};
use cwr_endings::{
    Look, Status, Stop, Wanted, ended_by, good_status, hand_on, look_beyond, status_by,
    tell_findings, tell_following,
};
use cwr_files::{
    Fault, Input, MadeFiles, MadeParts, Name, NumberedFiles, Pace, Store, Told, Unsplit, end_input,
    part_number, path_of_input,
};
use cwr_moments::Moment;
use cwr_parts::{put_split_outcome, split_viewed};
use cwr_shape::Limits;
use cwr_tools::{FindingCount, FindingView, SplitReport, ToolFault};
use std::alloc::{AllocError, Global};
use std::io::{Read, Write};
use std::marker::Brand;
use std::num::NonZeroU32;

/// How a transmission is cut into files.
#[derive(Clone, Copy, Debug)]
pub struct Cut<'a> {
    pub limits: Limits,
    /// What is wanted of the transmission.
    pub wanted: Wanted,
    /// The transactions of a part.
    pub transactions: NonZeroU32,
    /// The word that names the input.
    pub file: &'a str,
    /// What the names of the parts begin with.
    pub prefix: &'a str,
    /// When the first part is created, and each other one a second later; without it when the transmission was.
    pub created: Option<Moment>,
    /// No part may replace a file.
    pub only_new: bool,
}

/// The number of the part that would be the input: by its name, or by what is in the prefix's folder.
fn part_of_input<S: Store>(
    store: &mut S,
    alloc: Global,
    cut: &Cut<'_>,
) -> Result<Option<u32>, AllocError>
    ensures kept { S.held store.new ≡ S.held store.old }
    ensures making { S.making store.new ≡ S.making store.old }
    ensures failures { S.failures store.new ≡ S.failures store.old }
{
    match part_number(cut.file, cut.prefix) {
        Some(number) => Ok(Some(number)),
        None => store.part_that_is(alloc, path_of_input(cut.file), cut.prefix),
    }
}

/// Cuts the transmission of a reader into outputs, counts the findings in it, and looks what stands after it there.
fn cut_source<R: Source, O: Outputs>(
    alloc: Global,
    cut: &Cut<'_>,
    reader: &mut R,
    outputs: &mut O,
) -> (Result<SplitReport, ToolFault>, Look, FindingCount)
    ensures judged { JudgesCut cut.now.limits (R.remaining reader.old) result.0 result.1 }
    ensures counted { OnOk result.0
        (CountsAccepted cut.now.limits (R.remaining reader.old) result.2) }
    ensures handed { HandsOver cut.now.limits cut.now.transactions.value (R.remaining reader.old) (O.texts outputs.old)
        (O.texts outputs.new) result.0 }
    ensures lent { O.lent outputs.new ≡ O.lent outputs.old }
    ensures reads { CountsCut result.0 result.1 (R.failures reader.old) (R.failures reader.new) }
{
    let mut view = FindingView::new(alloc);
    let size = cut.transactions.get();
    match split_viewed(alloc, cut.limits, reader, size, &mut view, outputs) {
        Ok(report) => {
            if view.lacks_memory {
                return (Err(ToolFault::Memory), Look::Unasked, view.count);
            }
            (Ok(report), look_beyond(reader), view.count)
        }
        Err(fault) => (Err(fault), Look::Unasked, view.count),
    }
}

/// Cuts the transmission of a reader into files, as `cut_source` does, and tells what is told of these.
fn cut_into_files<'a, B: Unsplit, S: Store, R: Source>(
    store: &mut S,
    alloc: Global,
    cut: &Cut<'a>,
    reader: &mut R,
) -> (
    Result<SplitReport, ToolFault>,
    Look,
    FindingCount,
    MadeFiles<'a>,
)
    requires { StartsAs B.texts B.prefix B.created B.failures (S.making store.old) (S.held store.old) (S.failures store.old)
        cut.now.prefix.now cut.now.created }
    ensures judged { JudgesCut cut.now.limits (R.remaining reader.old) result.0 result.1 }
    ensures counted { OnOk result.0
        (CountsAccepted cut.now.limits (R.remaining reader.old) result.2) }
    ensures files { Turns B.texts (S.held store.new) (LeavesTold cut.now.limits cut.now.transactions.value B.prefix B.created
        (R.remaining reader.old) B.failures (S.failures store.new) result.0) }
    ensures reads { CountsCut result.0 result.1 (R.failures reader.old) (R.failures reader.new) }
    ensures failed { IsSome B.texts → IsFaultOfPart B.failures (S.failures store.new) result.3.fault }
    ensures failures { IsSome B.texts → HasKeptCount B.failures (S.failures store.new) }
{
    let mut parts = MadeParts::new(alloc, cut.prefix, cut.file, cut.only_new, cut.created);
    let mut files: NumberedFiles<'_, 'a, B, S> = NumberedFiles::new(store, &mut parts);
    let (outcome, look, count) = cut_source(alloc, cut, reader, &mut files);
    let made = files.end();
    (unless_stopped(outcome, made.stopped), look, count, made)
}

/// What came of a split: it is no success where not all parts were made that were asked for.
fn unless_stopped(
    outcome: Result<SplitReport, ToolFault>,
    stopped: bool,
) -> Result<SplitReport, ToolFault>
    ensures { result ≡ unless_stopped stopped outcome }
{
    match outcome {
        Ok(_) if stopped => Err(ToolFault::Output),
        outcome => outcome,
    }
}

/// Cuts the transmission of an input into files of so many transactions, and writes the line that says how that ended. The writer comes
/// back.
pub fn split_file<'a, S: Store, I: Read + Drop, P: Pace + Drop, W: Target + Drop, E: Write>(
    store: &mut S,
    alloc: Global,
    cut: &Cut<'a>,
    input: Input<'a, S::Reader, I, P>,
    lines: W,
    error: &mut E,
) -> (W, Result<Status, Stop<'a>>)
    ensures ends { EndsAsSplit cut.now.limits cut.now.wanted
        (remaining_of S.Reader.remaining I.remaining input.entry) result.1 }
    // Each part that is left has its text, as one that is created at its own moment where the first is created at one.
    ensures files { S.making store.old ≡ None → Turns (S.held store.old) (S.held store.new)
        (LeavesCut cut.now.limits cut.now.transactions.value cut.now.prefix.now cut.now.created
        (remaining_of S.Reader.remaining I.remaining input.entry) (S.failures store.old) (S.failures store.new) result.1) }
    // It ends as what failed does only where a failure was counted, or no part could be made, or there was no memory.
    ensures failed { S.making store.old ≡ None → IsSome (S.held store.old)
        → FailsToCut result.1 (S.failures store.old) (S.failures store.new) }
{
    match part_of_input(store, alloc, cut) {
        Ok(None) => {}
        Ok(Some(number)) => {
            let fault = Fault::IsInput(Name::Part(cut.prefix, number));
            return (lines, Err(Stop::Fault(fault)));
        }
        Err(_) => return (lines, Err(Stop::Fault(Fault::Memory))),
    }
    let mut reader = ReadAhead::new(input);
    let (outcome, look, count, made) = cut_into_files::<
        Brand,
        S,
        ReadAhead<Input<'a, S::Reader, I, P>>,
    >(store, alloc, cut, &mut reader);
    let told = end_input(store, reader);
    let mut sink = Sink::new(lines);
    let put = put_split_outcome(&outcome, &mut sink);
    let (lines, handed) = hand_on(put, sink);
    if let Err(stop) = handed {
        return (lines, Err(stop));
    }
    tell_following(&mut *error, told.name, &look);
    made.tell_replaced(&mut *error);
    let found = count.reaches(cut.wanted.fail_on);
    if outcome.is_ok() {
        tell_findings(error, told.name, &count, status_by(found));
    }
    let ended = split_ending(outcome, cut.wanted, look, found, told, made.fault);
    (lines, ended)
}

/// How a split ends the run: by what came of it, by what follows the transmission where nothing may, and by whether a finding is unwanted.
fn split_ending<'a>(
    outcome: Result<SplitReport, ToolFault>,
    wanted: Wanted,
    look: Look,
    found: bool,
    told: Told<'a>,
    made: Fault<'a>,
) -> Result<Status, Stop<'a>>
    ensures { SplitEndsAs told.entry made.entry outcome (good_status wanted look found) result }
{
    match outcome {
        Ok(_) => match good_status(wanted, look, found) {
            Some(status) => Ok(status),
            None => Err(Stop::Fault(Fault::Read(told))),
        },
        // A part's writer tells what it is.
        Err(ToolFault::Writer { .. }) => Err(Stop::Fault(made)),
        Err(fault) => ended_by(Some(fault), told, Stop::Fault(made), Stop::Fault(made)),
    }
}
