//! Data and tables of a transmission that are written to a file.

ghost use Rattle.std.specs.Prelude.{◌≡◌, false, true, None, option_map};
ghost use Rattle.cwr_files.specs.Format.Files.{Turns};
ghost use Rattle.cwr_files.specs.Steps.Inputs.{remaining_of};
ghost use Rattle.cwr_endings.specs.Format.Endings.{WritesOut};
ghost use Rattle.cwr_endings.specs.Format.Failures.{FailsToWrite};
ghost use Rattle.cwr_reports.specs.Format.Endings.{EndsAsExport, EndsAsExportOf, advice_in};
ghost use Rattle.cwr_reports.specs.Format.Exports.{ExportEndsAs, IsExportAt, IsExportOf, is_data, is_good};
ghost use Rattle.cwr_reports.specs.Steps.Looks.{tells_findings};

use crate::tellings::{Asked, Telling, judge_input, tell_aside};
use cwr_endings::{Judgement, Status, Stop, refuse_out, settle};
use cwr_files::{
    DASH, Fault, Input, Name, Pace, Store, Told, create_output, gathered, open_input, take_back,
};
use cwr_tools::{ToolFault, Verdict};
use std::io::{Read, Write};

/// Tells on standard error where what was written of a transmission ends, if that isn't whole. What standard error doesn't take is lost.
pub(crate) fn tell_cut<E: Write>(
    error: &mut E,
    telling: Telling<'_>,
    name: Name<'_>,
    verdict: &Verdict,
) {
    let what = match telling {
        Telling::Data { .. } => "data",
        Telling::Rows { .. } => "table",
        _ => return,
    };
    let record = match verdict {
        Verdict::Good { .. } => return,
        Verdict::Refused(refusal) => refusal.rec,
        Verdict::Truncated { records } => *records,
    };
    let _ = writeln!(
        error,
        "cwr: the {what} ends at record {record} of {name} and is not whole"
    );
}

/// Whether a transmission is what is wanted.
fn is_good(judged: &Result<Judgement, ToolFault>) -> bool
    ensures { result ≡ is_good judged.now }
{
    matches!(
        judged,
        Ok(Judgement {
            status: Status::Good,
            ..
        },)
    )
}

/// What the end of an export means for the program.
fn export_ending<'a>(
    judged: Result<Judgement, ToolFault>,
    input: Told<'a>,
    file: Told<'a>,
) -> Result<Status, Stop<'a>>
    ensures { ExportEndsAs input.entry file.entry judged result }
{
    match judged {
        Ok(judgement) => Ok(judgement.status),
        Err(ToolFault::Reader) => Err(Stop::Fault(Fault::Read(input))),
        Err(ToolFault::Writer { .. }) => Err(Stop::Fault(Fault::Write(file))),
        Err(_) => Err(Stop::Fault(Fault::Memory)),
    }
}

/// Writes what is told of an input to a file, which gets its name where the transmission is what is wanted.
fn report_to_file<'a, S: Store, I: Read + Drop, P: Pace + Drop, E: Write>(
    store: &mut S,
    asked: &Asked,
    telling: Telling<'_>,
    input: Input<'a, S::Reader, I, P>,
    out: &'a str,
    error: &mut E,
) -> Result<Status, Stop<'a>>
    requires { tells_findings telling ≡ false → asked.now.wanted.fail_on ≡ None }
    ensures ends { EndsAsExport (advice_in telling.entry) asked.now.limits asked.now.wanted
        (remaining_of S.Reader.remaining I.remaining input.entry) result }
    ensures files { is_data telling.entry ≡ true → S.making store.old ≡ None → Turns (S.held store.old) (S.held store.new)
        (WritesOut out.now (S.failures store.old) (S.failures store.new) (IsExportOf telling.entry asked.now.limits
        (remaining_of S.Reader.remaining I.remaining input.entry)) result) }
    ensures failed { FailsToWrite out.entry (S.making store.old) (S.held store.old) (S.held store.new) result (S.failures store.old)
        (S.failures store.new) }
{
    let (made, file) = match create_output(store, asked.alloc, out) {
        Ok(made) => made,
        Err(fault) => return Err(Stop::Fault(fault)),
    };
    let Ok(lines) = gathered(asked.alloc, file, Name::File(out)) else {
        made.discard(store, 0);
        return Err(Stop::Fault(Fault::Memory));
    };
    let (lines, judged, told, count) = judge_input(store, asked, telling, input, lines);
    let (of_file, written) = take_back(lines);
    let is_wanted = is_good(&judged);
    if let Err(fault) = settle(store, made, written, out, is_wanted, &mut *error) {
        return Err(Stop::Fault(fault));
    }
    if let Ok(judgement) = &judged {
        tell_aside(error, telling, &told, judgement, &count, false);
    }
    export_ending(judged, told, of_file)
}

/// Writes what is told of the transmission of the file of that name, or of that on standard input, to a file that is none of these.
pub fn export<'a, S: Store, I: Read + Drop, P: Pace + Drop, E: Write>(
    store: &mut S,
    asked: &Asked,
    telling: Telling<'_>,
    name: Option<&'a str>,
    out: &'a str,
    standard: I,
    pace: P,
    error: &mut E,
) -> Result<Status, Stop<'a>>
    requires { tells_findings telling ≡ false → asked.now.wanted.fail_on ≡ None }
    // The status is that on the bytes of the input, as without OUT.
    ensures ends { EndsAsExportOf (advice_in telling.entry) asked.now.limits asked.now.wanted (S.held store.old)
        (I.remaining standard) (option_map (λ n. n.now) name.entry) result }
    // Where it ends well the file holds the data or the table of the input, and nothing else changed; else nothing did.
    ensures files { is_data telling.entry ≡ true → S.making store.old ≡ None → Turns (S.held store.old) (S.held store.new)
        (WritesOut out.now (S.failures store.old) (S.failures store.new) (IsExportAt telling.entry asked.now.limits
        (S.held store.old) (I.remaining standard) (option_map (λ n. n.now) name.entry)) result) }
    // It ends as what failed does only where a failure was counted, or no such file can be made, or there was no memory.
    ensures failed { FailsToWrite out.entry (S.making store.old) (S.held store.old) (S.held store.new) result (S.failures store.old)
        (S.failures store.new) }
{
    if let Err(fault) = refuse_out(store, out, false, &[name.unwrap_or(DASH)]) {
        return Err(Stop::Fault(fault));
    }
    let input = match open_input(store, name, &mut Some(standard), pace) {
        Ok(input) => input,
        Err(fault) => return Err(Stop::Fault(fault)),
    };
    report_to_file(store, asked, telling, input, out, error)
}
