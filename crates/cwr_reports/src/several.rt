//! Several files that are judged one after another.

ghost use Rattle.std.specs.Prelude.{◌≡◌, ◌<◌, ℕ, true, List, Option, None, Some, OnOk, map};
ghost use Rattle.cwr_devices.specs.Format.Failures.{most_failures};
ghost use Rattle.cwr_files.specs.Format.Faults.{IfErr};
ghost use Rattle.cwr_files.specs.Format.Inputs.{is_standard};
ghost use Rattle.cwr_files.specs.Steps.Inputs.{standard_after};
ghost use Rattle.cwr_tools.specs.declared.verdicts.Verdict.{Verdict};
ghost use Rattle.cwr_endings.specs.Format.Puts.{PutsOut, PutsSums};
ghost use Rattle.cwr_endings.specs.Format.Sums.{AreSums, sums_line};
ghost use Rattle.cwr_reports.specs.Steps.Marked.{CountsOutput, TellsEach, TellsNext};
ghost use Rattle.cwr_reports.specs.Format.Endings.{EndsOnEach, advice_asked};
ghost use Rattle.cwr_reports.specs.Steps.Several.{CountsNext, IsFirst, IsUnsummed};

use crate::tellings::{Asked, marked_lines_on, rejected_level, tell_aside, telling_of};
use cwr_devices::{Sink, Target};
use cwr_endings::{Status, Stop, Sums, hand_on, tell_profile, worse_level};
use cwr_files::{Fault, Pace, Store, open_input, shown_name, tell_fault};
use cwr_shape::Level;
use std::alloc::Global;
use std::io::{Read, Write};

/// What is counted of several files.
#[derive(Clone, Copy, Debug)]
pub(crate) struct Tally {
    sums: Sums,
    /// The worst level at which one is rejected by this profile.
    worst: Option<Level>,
}

/// Judges the file of that name, and writes the lines on it with its name before them. A file that fails is told of on standard error.
fn report_next<'a, S: Store, I: Read + Drop, P: Pace, W: Target + Drop, E: Write>(
    store: &mut S,
    asked: &Asked,
    explained: bool,
    name: &'a str,
    standard: &mut Option<I>,
    pace: &mut P,
    lines: W,
    tally: &mut Tally,
    error: &mut E,
) -> (W, Result<(), Stop<'a>>)
    requires { asked.now.faults ≡ true → asked.now.wanted.fail_on ≡ None }
    ensures counted { CountsNext (advice_asked asked.now) asked.now.limits asked.now.wanted (S.held store.old)
        I.remaining standard.old name.entry.now tally.old.sums.status tally.new.sums.status result.1 }
    // Its lines were written, or those up to where it failed, and it was counted.
    ensures told { (first : Option (List ℕ)) → IsFirst I.remaining standard.old first → W.failures lines < most_failures
        → TellsNext asked.now explained (S.held store.old) first name.entry.now W.contents lines result.0 (S.failures store.old)
        (S.failures store.new) tally.old.sums tally.new.sums result.1 }
    ensures output { CountsOutput result.1 (W.failures lines) (W.failures result.0) }
    ensures standard { standard.new ≡ standard_after (is_standard (Some name.entry.now)) standard.old }
    ensures kept { S.held store.new ≡ S.held store.old }
    ensures making { S.making store.new ≡ S.making store.old }
{
    let input = match open_input(store, Some(name), standard, &mut *pace) {
        Ok(input) => input,
        Err(fault) => {
            tell_fault(error, &fault);
            tally.sums.count_failed();
            return (lines, Ok(()));
        }
    };
    let Ok(shown) = shown_name(asked.alloc, name) else {
        return (lines, Err(Stop::Fault(Fault::Memory)));
    };
    let telling = telling_of(asked, explained, shown.as_str());
    let (lines, read) = marked_lines_on(store, asked, telling, Some(shown.as_str()), input, lines);
    match read {
        Ok((judgement, told, count)) => {
            tally.sums.count(&judgement);
            tally.worst = worse_level(tally.worst, rejected_level(&judgement.verdict, &count));
            tell_aside(error, telling, &told, &judgement, &count, asked.quiet);
            (lines, Ok(()))
        }
        Err(Stop::Output) => (lines, Err(Stop::Output)),
        Err(Stop::Fault(fault)) => {
            tell_fault(error, &fault);
            tally.sums.count_failed();
            (lines, Ok(()))
        }
    }
}

/// Judges the files of these names, writes the lines on each with its name before them, and last the line of the sums. A file that
/// fails is told of on standard error, and the next one follows. The writer comes back.
pub fn report_several<'a, S: Store, I: Read + Drop, P: Pace, W: Target + Drop, E: Write>(
    store: &mut S,
    asked: &Asked,
    explained: bool,
    names: &[&'a str],
    standard: I,
    pace: &mut P,
    lines: W,
    error: &mut E,
) -> (W, Result<Status, Stop<'a>>)
    requires { asked.now.faults ≡ true → asked.now.wanted.fail_on ≡ None }
    ensures ends { EndsOnEach (advice_asked asked.now) asked.now.limits asked.now.wanted (S.held store.old)
        (I.remaining standard) (map (λ name. name.now) names.now) result.1 }
    // The lines on each stand there in order, and the line of the sums last; of each that failed one more failure was counted, unless there was
    // no memory.
    ensures told { TellsEach asked.now explained (S.held store.old) (I.remaining standard) (map (λ name. name.now) names.now)
        W.contents lines result.0 (S.failures store.old) (S.failures store.new) result.1 }
    // Standard output's fault is answered only where that counted one more failure.
    ensures output { CountsOutput result.1 (W.failures lines) (W.failures result.0) }
    ensures handed_on { OnOk result.1 (W.handed_on result.0 ≡ true) }
    ensures kept { S.held store.new ≡ S.held store.old }
    ensures making { S.making store.new ≡ S.making store.old }
{
    let mut lines = lines;
    let mut standard = Some(standard);
    let mut tally = Tally {
        sums: Sums::new(),
        worst: None,
    };
    for name in names {
        let (after, told) = report_next(
            store,
            asked,
            explained,
            name,
            &mut standard,
            pace,
            lines,
            &mut tally,
            error,
        );
        lines = after;
        match told {
            Ok(()) => {}
            Err(stop) => return (lines, Err(stop)),
        }
    }
    let (lines, put) = put_sums(asked.alloc, &tally.sums, names.len(), lines);
    match put {
        Ok(()) => {}
        Err(stop) => return (lines, Err(stop)),
    }
    if explained && !asked.faults {
        tell_profile(error, tally.worst);
    }
    (lines, Ok(tally.sums.status))
}

/// Writes the line of the sums, and has all lines handed on.
fn put_sums<'a, W: Target>(
    alloc: Global,
    sums: &Sums,
    files: usize,
    lines: W,
) -> (W, Result<(), Stop<'a>>)
    ensures unsummed { IfErr result.1 IsUnsummed }
    ensures puts { (ends : List (Option Verdict)) → AreSums sums.now ends
        → PutsSums W.contents W.failures (sums_line files ends) result.1 lines result.0 }
    ensures few { OnOk result.1 (W.failures lines < most_failures) }
    ensures output { CountsOutput result.1 (W.failures lines) (W.failures result.0) }
    ensures handed_on { OnOk result.1 (W.handed_on result.0 ≡ true) }
{
    let Ok(line) = sums.line(alloc, files) else {
        return (lines, Err(Stop::Fault(Fault::Memory)));
    };
    put_line(line.as_bytes(), lines)
}

/// Writes a line, and has it handed on.
fn put_line<'a, W: Target>(line: &[u8], lines: W) -> (W, Result<(), Stop<'a>>)
    ensures handed_on { OnOk result.1 (W.handed_on result.0 ≡ true) }
    ensures stopped { IfErr result.1 (λ stop. stop ≡ Stop.Output) }
    ensures puts { PutsOut W.contents W.failures line.now result.1 lines result.0 }
{
    let mut sink = Sink::new(lines);
    let put = sink.put(line);
    hand_on(put, sink)
}
