//! The text that a check, a show, an explanation, an export or a lint of a text in memory writes.

ghost use Rattle.std.specs.Prelude.{◌≡◌, [], false, true};
ghost use Rattle.cwr_lint.specs.Format.Wanted.{wanting};
ghost use Rattle.cwr_tools.specs.Format.Reports.{ItemLines, lines_of_data, lines_of_findings, lines_of_records};
ghost use Rattle.cwr_calls.specs.Format.Copies.{CopiesOut};
ghost use Rattle.cwr_calls.specs.Steps.Reported.{IsExplainedOn, IsJudged, IsLintOn, IsReportOn, IsTextOn, IsWritten, asked_by};

use cwr_devices::{Counted, InMemory};
use cwr_explain::explain;
use cwr_json::Encoding;
use cwr_lint::lint;
use cwr_shape::Limits;
use cwr_tools::{DataLines, FindingLines, Report, ShownRecords, ToolFault, Verdict, write_report};
use std::alloc::Global;

/// What is written of a text.
#[derive(Clone, Copy, Debug, PartialEq, Eq)]
pub(crate) enum Asked {
    /// The findings and the verdict.
    Check,
    /// The records and the verdict.
    Show,
    /// The findings with what explains them, the verdict, and what explains that.
    Explain,
    /// The data of each item as a line of JSON.
    Data,
    /// The same with the item's numbers.
    NotedData,
    /// Every fault and finding.
    Lint,
    /// The same with what explains them.
    ExplainedLint,
}

/// What C's number asks for.
pub(crate) fn what_is_asked(number: u32) -> Option<Asked>
    ensures { result ≡ asked_by number }
{
    match number {
        0 => Some(Asked::Check),
        1 => Some(Asked::Show),
        2 => Some(Asked::Explain),
        3 => Some(Asked::Data),
        4 => Some(Asked::NotedData),
        5 => Some(Asked::Lint),
        6 => Some(Asked::ExplainedLint),
        _ => None,
    }
}

// Each report is a call that stays one: else the buffers of all stand on the stack of whoever asks for one.

/// The report that these lines are, and the verdict.
fn report_of<L: Report>(
    alloc: Global,
    limits: Limits,
    lines: &mut L,
    text: &[u8],
) -> (Vec<u8>, Result<Verdict, ToolFault>)
    requires { (of : ItemLines) × L.stands lines.old of [] }
    ensures judged { IsJudged limits text.now result.1 }
    ensures written { (of : ItemLines) → L.stands lines.old of []
        → IsWritten (IsTextOn of limits text.now result.0.items) result.1 }
{
    let mut reader = InMemory::new(text);
    let writer = Counted::new(Vec::new(alloc));
    let (writer, verdict) = write_report(lines, alloc, limits, &mut reader, writer);
    (writer.into_inner(), verdict)
}

/// The findings and the verdict.
#[inline(never)]
fn check_report(alloc: Global, limits: Limits, text: &[u8]) -> (Vec<u8>, Result<Verdict, ToolFault>)
    ensures judged { IsJudged limits text.now result.1 }
    ensures written { IsWritten (IsTextOn lines_of_findings limits text.now result.0.items) result.1 }
{
    let mut findings = FindingLines::new();
    report_of(alloc, limits, &mut findings, text)
}

/// The records and the verdict.
#[inline(never)]
fn show_report(alloc: Global, limits: Limits, text: &[u8]) -> (Vec<u8>, Result<Verdict, ToolFault>)
    ensures judged { IsJudged limits text.now result.1 }
    ensures written { IsWritten (IsTextOn lines_of_records limits text.now result.0.items) result.1 }
{
    let mut records = ShownRecords::new();
    report_of(alloc, limits, &mut records, text)
}

/// The data of the items, as lines of JSON.
#[inline(never)]
fn data_report(
    alloc: Global,
    limits: Limits,
    noted: bool,
    text: &[u8],
) -> (Vec<u8>, Result<Verdict, ToolFault>)
    ensures judged { IsJudged limits text.now result.1 }
    ensures written { IsWritten
        (IsTextOn (lines_of_data Encoding.Latin1 noted) limits text.now result.0.items) result.1 }
{
    let mut data = DataLines::new(Encoding::Latin1, noted);
    report_of(alloc, limits, &mut data, text)
}

/// The report of an explanation, in which the text has that name.
#[inline(never)]
fn explain_report(
    alloc: Global,
    limits: Limits,
    name: &str,
    text: &[u8],
) -> (Vec<u8>, Result<Verdict, ToolFault>)
    ensures judged { IsJudged limits text.now result.1 }
    ensures written { IsWritten (IsExplainedOn limits text.now result.0.items) result.1 }
{
    let mut reader = InMemory::new(text);
    let writer = Counted::new(Vec::new(alloc));
    let (writer, verdict, _, _) = explain(alloc, limits, name, &mut reader, writer);
    (writer.into_inner(), verdict)
}

/// The report of a lint.
#[inline(never)]
fn lint_report(alloc: Global, limits: Limits, text: &[u8]) -> (Vec<u8>, Result<Verdict, ToolFault>)
    ensures judged { IsJudged limits text.now result.1 }
    ensures written { IsWritten (IsLintOn (wanting false false false) limits text.now result.0.items) result.1 }
{
    let mut reader = InMemory::new(text);
    let writer = Counted::new(Vec::new(alloc));
    let (writer, verdict) = lint(alloc, limits, None, false, false, &mut reader, writer);
    (writer.into_inner(), verdict)
}

/// The report of a lint that explains, in which the text has that name.
#[inline(never)]
fn explained_lint_report(
    alloc: Global,
    limits: Limits,
    name: &str,
    text: &[u8],
) -> (Vec<u8>, Result<Verdict, ToolFault>)
    ensures judged { IsJudged limits text.now result.1 }
    ensures written { IsWritten (IsLintOn (wanting true false false) limits text.now result.0.items)
        result.1 }
{
    let mut reader = InMemory::new(text);
    let writer = Counted::new(Vec::new(alloc));
    let (writer, verdict) = lint(alloc, limits, Some(name), false, false, &mut reader, writer);
    (writer.into_inner(), verdict)
}

/// The report that is asked for, and the verdict. Where it is explained, the text has that name.
pub(crate) fn report(
    alloc: Global,
    limits: Limits,
    asked: Asked,
    name: &str,
    text: &[u8],
) -> (Vec<u8>, Result<Verdict, ToolFault>)
    ensures judged { IsJudged limits text.now result.1 }
    ensures written { IsWritten (IsReportOn asked limits text.now result.0.items) result.1 }
{
    match asked {
        Asked::Check => check_report(alloc, limits, text),
        Asked::Show => show_report(alloc, limits, text),
        Asked::Explain => explain_report(alloc, limits, name, text),
        Asked::Data => data_report(alloc, limits, false, text),
        Asked::NotedData => data_report(alloc, limits, true, text),
        Asked::Lint => lint_report(alloc, limits, text),
        Asked::ExplainedLint => explained_lint_report(alloc, limits, name, text),
    }
}

/// Copies as many bytes as both have, and answers how many the text has.
pub(crate) fn copy_out(text: &[u8], room: &mut [u8]) -> usize
    ensures { CopiesOut text.now room.old room.new result }
{
    let most = text.len().min(room.len());
    room[..most].copy_from_slice(&text[..most]);
    text.len()
}
