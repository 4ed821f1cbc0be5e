//! Transactions of worked records, some of whose cells have other texts, and their findings.

ghost use Rattle.std.specs.Prelude.{◌≢◌};
ghost use Rattle.cwr_lines.specs.declared.lines.LineEnd.TheVariants.{Open};

use crate::checks::check_equal;
use cwr_fields::fields;
use cwr_findings::{Finding, Rule, findings};
use cwr_lines::{Draft, LineBuf, LineEnd, Record, RecordRef};
use cwr_shape::Level;
use cwr_values::Transaction;
use std::process::Abort;

/// Other texts of cells, each with its record's sequence, from 0, and its field's number, from 1.
pub(crate) type Edits = &'static [(usize, u8, &'static [u8])];

/// Where a finding stands, its level and its rule: the record from 0, the field from 1.
pub(crate) type Expected = (usize, u8, Level, Rule);

/// The worked lines of a transaction, the edits in them, and the findings.
pub(crate) type Case = (&'static [&'static [u8]], Edits, &'static [Expected]);

/// Sets a text in a draft.
fn set(rt: &impl Abort, draft: &mut Draft, j: u8, text: &[u8]) {
    check_equal(rt, draft.set(j, text), Ok(()));
}

/// Sets the cells of a record in a draft of its kind.
fn set_cells(rt: &impl Abort, draft: &mut Draft, shown: &RecordRef<'_>) {
    for before in 0..fields(shown.kind()) {
        if let Some(text) = shown.cell(before + 1) {
            set(rt, draft, before + 1, text);
        }
    }
}

/// The record of a line that ended, with the edits in the record of this sequence.
fn edited(rt: &impl Abort, buffer: &LineBuf, sequence: usize, edits: Edits) -> Record
    requires { buffer.now.ended ≢ Open }
{
    let cut = buffer.cut();
    let shown = cut.record().expect(rt, "no record");
    let mut draft = Draft::blank(shown.kind());
    set_cells(rt, &mut draft, &shown);
    for (at, j, text) in edits {
        if *at == sequence {
            set(rt, &mut draft, *j, text);
        }
    }
    draft.done().expect(rt, "no record")
}

/// The record that a worked line carries, with the edits in the record of this sequence.
fn record(rt: &impl Abort, line: &[u8], sequence: usize, edits: Edits) -> Record {
    let mut buffer = LineBuf::new();
    match buffer.take(line).ended {
        LineEnd::Open => {
            buffer.close();
            edited(rt, &buffer, sequence, edits)
        }
        _ => edited(rt, &buffer, sequence, edits),
    }
}

/// The transaction of worked lines, with these edits.
fn transaction(
    rt: &(impl Abort + AllocGlobal),
    lines: &'static [&'static [u8]],
    edits: Edits,
) -> Transaction {
    let (header, others) = lines.split_first().expect(rt, "no line");
    let begun = Transaction::new(rt.alloc(), record(rt, header, 0, edits).view());
    let mut transaction = begun.expect(rt, "no transaction");
    for line in others {
        let next = record(rt, line, transaction.len(), edits);
        check_equal(rt, transaction.push(next.view()), Ok(()));
    }
    transaction
}

/// Checks that there are just these findings.
fn check_found(rt: &impl Abort, found: &[Finding], expected: &[Expected]) {
    check_equal(rt, found.len(), expected.len());
    for (shown, wanted) in found.iter().zip(expected.iter()) {
        let Finding {
            rec,
            field,
            rule,
            level,
        } = *shown;
        check_equal(rt, (rec, field, level, rule), *wanted);
    }
}

/// Checks the findings of a case.
fn check_case(rt: &(impl Abort + AllocGlobal), case: &Case) {
    let (lines, edits, expected) = *case;
    let answer = findings(rt.alloc(), &transaction(rt, lines, edits));
    let found = answer.expect(rt, "no memory");
    check_found(rt, found.as_slice(), expected);
}

/// Checks the findings of each case.
pub(crate) fn check_findings(rt: &(impl Abort + AllocGlobal), cases: &'static [Case]) {
    for case in cases {
        check_case(rt, case);
    }
}
