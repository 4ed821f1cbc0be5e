//! What findings beside a good verdict mean, told on standard error. What that doesn't take is lost.

use crate::endings::Status;
use cwr_files::{Name, ShellWord};
use cwr_shape::Level;
use cwr_tools::{FindingCount, Verdict};
use std::io;
use std::io::Write;

/// What a society usually rejects where there is a finding of that level.
fn rejected_by(level: Level) -> &'static str {
    match level {
        Level::E => "file",
        Level::G => "group",
        Level::T => "transaction",
        Level::R => "record",
        Level::F => "field",
    }
}

/// The level at which an input is rejected: that of its refusal or of its worst finding, whichever rejects more.
pub fn worst_level(verdict: &Verdict, count: &FindingCount) -> Option<Level> {
    match verdict {
        Verdict::Refused(refusal) => worse_level(Some(refusal.level), count.worst),
        Verdict::Good { .. } | Verdict::Truncated { .. } => count.worst,
    }
}

/// Of two levels the one that rejects more.
pub fn worse_level(one: Option<Level>, other: Option<Level>) -> Option<Level> {
    [Level::E, Level::G, Level::T, Level::R, Level::F]
        .into_iter()
        .find(|level| one == Some(*level) || other == Some(*level))
}

/// Tells once a run that explains whose levels these are, where something is rejected.
pub fn tell_profile<E: Write>(error: &mut E, worst: Option<Level>) {
    if let Some(level) = worst {
        let _ = writeln!(
            error,
            "cwr: by this profile the {} is rejected; societies differ",
            rejected_by(level)
        );
    }
}

/// Writes how many findings there are, and what is usually rejected for the worst of them.
fn put_count<E: Write>(
    error: &mut E,
    name: Name<'_>,
    findings: u64,
    worst: Level,
) -> io::Result<()> {
    write!(error, "cwr: {name}: ")?;
    if findings == 1 {
        write!(error, "1 finding, of level {worst}")?;
    } else {
        write!(error, "{findings} findings, the worst of level {worst}")?;
    }
    write!(error, ": such a {} is usually rejected", rejected_by(worst))
}

/// Begins to write how to learn more of a transmission's findings.
fn put_explain<E: Write>(error: &mut E, name: Name<'_>) -> io::Result<()> {
    write!(error, " (cwr explain")?;
    if let Name::File(file) = name {
        write!(error, " {}", ShellWord(file))?;
    }
    Ok(())
}

/// Writes the same, and how to learn more; where the status is that of a good transmission, how it becomes another one.
fn put_findings<E: Write>(
    error: &mut E,
    name: Name<'_>,
    findings: u64,
    worst: Level,
    status: Status,
) -> io::Result<()> {
    put_count(error, name, findings, worst)?;
    put_explain(error, name)?;
    if status == Status::Good {
        write!(error, "; --fail-on {worst} makes it the status")?;
    }
    writeln!(error, ")")
}

/// Tells what the findings in a transmission that is good mean, where there are any. The input of that name has them.
pub fn tell_findings<E: Write>(
    error: &mut E,
    name: Name<'_>,
    count: &FindingCount,
    status: Status,
) {
    if let Some(worst) = count.worst {
        let _ = put_findings(error, name, count.findings, worst, status);
    }
}

/// Tells the same of a transmission for which the file of that name wasn't written, since one finding is unwanted.
pub fn tell_unwritten<E: Write>(error: &mut E, name: Name<'_>, count: &FindingCount) {
    if let Some(worst) = count.worst {
        let _ = put_count(error, name, count.findings, worst);
        let _ = writeln!(error, ", so it is not written");
    }
}

/// Writes that the file of that name wasn't written since a finding is unwanted, and which input to explain.
fn put_unjoined<E: Write>(
    error: &mut E,
    name: Name<'_>,
    findings: u64,
    worst: Level,
    input: Option<Name<'_>>,
) -> io::Result<()> {
    put_count(error, name, findings, worst)?;
    write!(error, ", so it is not written")?;
    if let Some(input) = input {
        put_explain(error, input)?;
        write!(error, ")")?;
    }
    writeln!(error)
}

/// Tells the same of a join, whose first finding of the worst level is in the input of that name.
pub fn tell_unjoined<E: Write>(
    error: &mut E,
    name: Name<'_>,
    count: &FindingCount,
    input: Option<Name<'_>>,
) {
    if let Some(worst) = count.worst {
        let _ = put_unjoined(error, name, count.findings, worst, input);
    }
}
