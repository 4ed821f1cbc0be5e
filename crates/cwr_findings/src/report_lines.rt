//! The lines of reports, added part by part.

ghost use Rattle.std.specs.Prelude.{◌≡◌, ◌++◌, codes, decimal};
ghost use Rattle.cwr_devices.specs.Steps.Pens.{Adds};
ghost use Rattle.cwr_judge.specs.Format.RefusalTexts.{refusal_text};
ghost use Rattle.cwr_shape.specs.Format.ReasonTexts.{reason_text};
ghost use Rattle.cwr_findings.specs.Format.ReportLines.{fault_line, faults_line, finding_line, good_line, input_mark, joined_line, limit_line, refusal_line};
ghost use Rattle.cwr_findings.specs.Format.ReportLines.{split_line, truncated_line};

use crate::rules::Finding;
use cwr_devices::{Pen, Target};
use cwr_judge::Refusal;
use cwr_shape::{LimitKind, Reason};

/// Adds the words for a reason.
fn reason_text<W: Target>(reason: &Reason, pen: &mut Pen<'_, W>)
    ensures { Adds W.contents W.failures (reason_text reason.now) pen.old pen.new }
{
    match reason {
        Reason::UnknownKind => pen.text(b"unknown kind"),
        Reason::Misplaced => pen.text(b"misplaced"),
        Reason::Cell(fault) => pen.words(fault.words()),
        Reason::Number { expected } => {
            pen.text(b"number expected ");
            pen.number(*expected);
        }
        Reason::Limit(limit) => {
            pen.text(b"limit ");
            pen.words(limit.word());
        }
        Reason::Excess => pen.text(b"excess"),
    }
}

/// Adds where a text is refused, how much that rejects, and why.
fn refusal_text<W: Target>(refusal: &Refusal, pen: &mut Pen<'_, W>)
    ensures { Adds W.contents W.failures (refusal_text refusal.now) pen.old pen.new }
{
    pen.text(b"record ");
    pen.number(refusal.rec as u64);
    pen.text(b" field ");
    pen.number(refusal.field as u64);
    pen.text(b" level ");
    pen.words(refusal.level.letter());
    pen.text(b" ");
    reason_text(&refusal.reason, pen);
}

/// Adds the line on an accepted transmission with these numbers.
pub fn good_line<W: Target>(groups: u32, transactions: u32, records: u32, pen: &mut Pen<'_, W>)
    ensures { Adds W.contents W.failures (good_line groups transactions records) pen.old pen.new }
{
    pen.text(b"GOOD");
    pen.text(b" groups ");
    pen.number(groups as u64);
    pen.text(b" transactions ");
    pen.number(transactions as u64);
    pen.text(b" records ");
    pen.number(records as u64);
    pen.text(b"\n");
}

/// Adds the line on an input that ended too early, after so many records.
pub fn truncated_line<W: Target>(records: u32, pen: &mut Pen<'_, W>)
    ensures { Adds W.contents W.failures (truncated_line records) pen.old pen.new }
{
    pen.text(b"TRUNCATED records ");
    pen.number(records as u64);
    pen.text(b"\n");
}

/// Adds the line on an input that is refused.
pub fn refusal_line<W: Target>(refusal: &Refusal, pen: &mut Pen<'_, W>)
    ensures { Adds W.contents W.failures (refusal_line refusal.now) pen.old pen.new }
{
    pen.text(b"REFUSED ");
    refusal_text(refusal, pen);
    pen.text(b"\n");
}

/// Adds the line on one of the faults of an input.
pub fn fault_line<W: Target>(fault: &Refusal, pen: &mut Pen<'_, W>)
    ensures { Adds W.contents W.failures (fault_line fault.now) pen.old pen.new }
{
    pen.text(b"FAULT ");
    refusal_text(fault, pen);
    pen.text(b"\n");
}

/// Adds the line on an input that has so many faults and findings, in so many lines.
pub fn faults_line<W: Target>(faults: u64, findings: u64, records: u64, pen: &mut Pen<'_, W>)
    ensures { Adds W.contents W.failures (faults_line faults findings records) pen.old pen.new }
{
    pen.text(b"FAULTS ");
    pen.number(faults);
    pen.text(b" findings ");
    pen.number(findings);
    pen.text(b" records ");
    pen.number(records);
    pen.text(b"\n");
}

/// Adds the line on a finding: `group` is the group's ID, from 1, and `transaction` its sequence in the group, from 0.
pub fn finding_line<W: Target>(
    group: u32,
    transaction: u32,
    finding: &Finding,
    pen: &mut Pen<'_, W>,
)
    ensures { Adds W.contents W.failures (finding_line group transaction finding.now) pen.old pen.new }
{
    pen.text(b"FINDING group ");
    pen.number(group as u64);
    pen.text(b" transaction ");
    pen.number(transaction as u64);
    pen.text(b" record ");
    pen.number(finding.rec as u64);
    pen.text(b" field ");
    pen.number(finding.field as u64);
    pen.text(b" level ");
    pen.words(finding.level.letter());
    pen.text(b" rule ");
    pen.words(finding.rule.name());
    pen.text(b"\n");
}

/// Adds the line on transmissions that were joined: how many, and the numbers of the result.
pub fn joined_line<W: Target>(
    inputs: usize,
    groups: u32,
    transactions: u32,
    records: u32,
    pen: &mut Pen<'_, W>,
)
    ensures { Adds W.contents W.failures (joined_line inputs groups transactions records) pen.old
        pen.new }
{
    pen.text(b"JOINED inputs ");
    pen.number(inputs as u64);
    pen.text(b" groups ");
    pen.number(groups as u64);
    pen.text(b" transactions ");
    pen.number(transactions as u64);
    pen.text(b" records ");
    pen.number(records as u64);
    pen.text(b"\n");
}

/// Adds the line on a transmission that was split.
pub fn split_line<W: Target>(outputs: u32, transactions: u32, pen: &mut Pen<'_, W>)
    ensures { Adds W.contents W.failures (split_line outputs transactions) pen.old pen.new }
{
    pen.text(b"SPLIT outputs ");
    pen.number(outputs as u64);
    pen.text(b" transactions ");
    pen.number(transactions as u64);
    pen.text(b"\n");
}

/// Adds the line on a result that would pass a limit.
pub fn limit_line<W: Target>(limit: LimitKind, pen: &mut Pen<'_, W>)
    ensures { Adds W.contents W.failures (limit_line limit) pen.old pen.new }
{
    pen.text(b"LIMIT ");
    pen.words(limit.word());
    pen.text(b"\n");
}

/// Adds what stands before a line on one of several inputs, which are counted from 1.
pub fn input_mark<W: Target>(input: usize, pen: &mut Pen<'_, W>)
    ensures { Adds W.contents W.failures (input_mark input) pen.old pen.new }
{
    pen.text(b"input ");
    pen.number(input as u64);
    pen.text(b": ");
}
