//! The lines under findings.

ghost use Rattle.std.specs.Prelude.{◌≡◌, ◌+◌, ◌<◌, ◌≤◌, length, Some, slice_get};
ghost use Rattle.std.specs.List.{flat_map};
ghost use Rattle.cwr_devices.specs.Steps.Pens.{Adds};
ghost use Rattle.cwr_notes.specs.Format.FindingNotes.{explained_finding, finding_notes, noted_at, notes_on, others};
ghost use Rattle.cwr_notes.specs.Format.WorkNames.{work_of};
ghost use Rattle.cwr_notes.specs.Steps.OtherRecords.{AreListed, HasPassed};

use crate::note_lines::{head_lines, noted_cells, tail_lines};
use crate::other_records::{OtherRecords, parties_of, positions_of};
use crate::passed::Passed;
use crate::work_lines::WorkLine;
use cwr_devices::{Pen, Target};
use cwr_fields::Kind;
use cwr_findings::{Finding, Rule, finding_line};
use cwr_lines::RecordRef;
use cwr_values::Transaction;

/// The positions of the other records of which a finding at a record speaks.
fn others(
    finding: &Finding,
    transaction: &Transaction,
    passed: &Passed,
    shown: &RecordRef<'_>,
) -> OtherRecords
    requires few { length transaction.now ≤ 100000000 }
    requires there { slice_get transaction.now finding.now.rec ≡ Some shown.now }
    requires passed { HasPassed transaction.now passed.now }
    requires at { passed.now.at ≡ finding.now.rec }
    ensures { AreListed (others finding.now.rule transaction.now finding.now.rec shown.now) result }
{
    match finding.rule {
        Rule::V1 | Rule::V10 => OtherRecords::none(),
        Rule::V2 => match shown.kind() {
            Kind::Spt => OtherRecords::of(passed.publisher),
            _ => OtherRecords::of(passed.writer),
        },
        Rule::V3 | Rule::V4 | Rule::V5 | Rule::V6 | Rule::V9 => {
            positions_of(finding.rule, transaction)
        }
        Rule::V7 => passed.publishers.copy(),
        Rule::V8 => OtherRecords::of(passed.header),
        Rule::V11 => parties_of(transaction, finding.rec),
    }
}

/// Adds the lines on those cells of a record of a transaction of which the rule speaks.
fn noted_at<W: Target>(
    first: u64,
    transaction: &Transaction,
    rule: Rule,
    position: usize,
    pen: &mut Pen<'_, W>,
)
    requires { first + length transaction.now ≤ 100000000 }
    ensures { Adds W.contents W.failures (noted_at first transaction.now rule position) pen.old pen.new }
{
    let Some(shown) = transaction.record(position) else {
        return;
    };
    noted_cells(first + position as u64, rule, &shown, pen);
}

/// Adds the lines on those cells of records of a transaction of which the rule speaks.
fn other_cells<W: Target>(
    first: u64,
    transaction: &Transaction,
    rule: Rule,
    positions: &[usize],
    pen: &mut Pen<'_, W>,
)
    requires { first + length transaction.now ≤ 100000000 }
    ensures { Adds W.contents W.failures
        (flat_map (noted_at first transaction.now rule) positions.now) pen.old pen.new }
{
    let mut i = 0;
    while let Some(position) = positions.get(i) {
        noted_at(first, transaction, rule, *position, pen);
        i += 1;
    }
}

/// Adds the lines under a finding at a record of a transaction, whose first record is on that line of the file. The line on its work is
/// that.
fn notes_on<W: Target>(
    apart: bool,
    first: u64,
    work: &WorkLine,
    transaction: &Transaction,
    finding: &Finding,
    shown: &RecordRef<'_>,
    found: &OtherRecords,
    pen: &mut Pen<'_, W>,
)
    requires few { first + length transaction.now ≤ 100000000 }
    requires work { work.now ≡ work_of transaction.now }
    requires there { finding.now.rec < length transaction.now }
    requires found { AreListed (others finding.now.rule transaction.now finding.now.rec shown.now)
        found.now }
    ensures { Adds W.contents W.failures (notes_on apart first transaction.now finding.now shown.now)
        pen.old pen.new }
{
    head_lines(first + finding.rec as u64, work, finding, shown, pen);
    other_cells(
        first,
        transaction,
        finding.rule,
        found.listed.as_slice(),
        pen,
    );
    tail_lines(apart, finding.rule, found.count, transaction, pen);
}

/// Adds the lines under a finding in a transaction, whose first record is on that line of the file. The line on its work is that.
fn finding_notes<W: Target>(
    apart: bool,
    first: u64,
    work: &WorkLine,
    transaction: &Transaction,
    finding: &Finding,
    passed: &mut Passed,
    pen: &mut Pen<'_, W>,
)
    requires few { first + length transaction.now ≤ 100000000 }
    requires work { work.now ≡ work_of transaction.now }
    requires passed { HasPassed transaction.now passed.old }
    ensures adds { Adds W.contents W.failures (finding_notes apart first transaction.now finding.now)
        pen.old pen.new }
    ensures passed { HasPassed transaction.now passed.new }
{
    let Some(shown) = transaction.record(finding.rec) else {
        return;
    };
    passed.move_to(transaction, finding.rec);
    let found = others(finding, transaction, passed, &shown);
    notes_on(
        apart,
        first,
        work,
        transaction,
        finding,
        &shown,
        &found,
        pen,
    );
}

/// Adds the line of a finding, and the lines under it. The line on the transaction's work is that.
fn explained_finding<W: Target>(
    apart: bool,
    group: u32,
    sequence: u32,
    first: u64,
    work: &WorkLine,
    transaction: &Transaction,
    finding: &Finding,
    passed: &mut Passed,
    pen: &mut Pen<'_, W>,
)
    requires few { first + length transaction.now ≤ 100000000 }
    requires work { work.now ≡ work_of transaction.now }
    requires passed { HasPassed transaction.now passed.old }
    ensures adds { Adds W.contents W.failures
        (explained_finding apart group sequence first transaction.now finding.now) pen.old pen.new }
    ensures passed { HasPassed transaction.now passed.new }
{
    finding_line(group, sequence, finding, pen);
    finding_notes(apart, first, work, transaction, finding, passed, pen);
}

/// Adds the lines of findings in a transaction, and the lines under them. The transaction's first record is on that line of the file.
/// Where they stand apart, an empty line follows each.
pub fn all_explained<W: Target>(
    apart: bool,
    group: u32,
    sequence: u32,
    first: u64,
    transaction: &Transaction,
    found: &[Finding],
    pen: &mut Pen<'_, W>,
)
    requires { first + length transaction.now ≤ 100000000 }
    ensures { Adds W.contents W.failures
        (flat_map (explained_finding apart group sequence first transaction.now) found.now) pen.old
        pen.new }
{
    let work = WorkLine::of(transaction);
    let mut passed = Passed::none();
    let mut i = 0;
    while let Some(finding) = found.get(i) {
        explained_finding(
            apart,
            group,
            sequence,
            first,
            &work,
            transaction,
            finding,
            &mut passed,
            pen,
        );
        i += 1;
    }
}
