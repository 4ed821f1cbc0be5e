//! The text of a row.

ghost use Rattle.std.specs.Prelude.{◌≡◌};
ghost use Rattle.cwr_devices.specs.Steps.Pens.{Adds};
ghost use Rattle.cwr_tables.specs.Format.RecordTables.{heading, inner_row, record_row};
ghost use Rattle.cwr_tables.specs.Steps.RowTexts.{column_of, field_cell, header_heading, header_text, named_columns, numbers_text, shown_cells};

use crate::cells::{first_number, next_number, next_shown};
use crate::places::RowNumbers;
use cwr_devices::{Pen, Target};
use cwr_fields::{Kind, field, fields, is_in_transaction};
use cwr_findings::{work_number, work_title};
use cwr_json::{Encoding, key_of};
use cwr_lines::RecordRef;

/// Adds the cell of field `j`, if the record carries that.
#[inline(always)]
fn field_cell<W: Target>(encoding: Encoding, shown: &RecordRef<'_>, j: u8, pen: &mut Pen<'_, W>)
    ensures { Adds W.contents W.failures (field_cell encoding shown.now j) pen.old pen.new }
{
    let Some(cell) = shown.cell(j) else {
        return;
    };
    next_shown(encoding, cell, pen);
}

/// Adds the cells that the record carries.
#[inline(always)]
fn shown_cells<W: Target>(encoding: Encoding, shown: &RecordRef<'_>, pen: &mut Pen<'_, W>)
    ensures { Adds W.contents W.failures (shown_cells encoding shown.now) pen.old pen.new }
{
    for before in 0..fields(shown.kind()) {
        field_cell(encoding, shown, before + 1, pen);
    }
}

/// Adds the key of field `j`, if records of the kind carry that.
fn column_of<W: Target>(kind: Kind, j: u8, pen: &mut Pen<'_, W>)
    ensures { Adds W.contents W.failures (column_of kind j) pen.old pen.new }
{
    let Some(place) = field(kind, j) else {
        return;
    };
    if place.derived {
        return;
    }
    pen.text(b",");
    key_of(place.name.as_bytes(), pen);
}

/// Adds the keys of the fields that records of the kind carry.
fn named_columns<W: Target>(kind: Kind, pen: &mut Pen<'_, W>)
    ensures { Adds W.contents W.failures (named_columns kind) pen.old pen.new }
{
    for before in 0..fields(kind) {
        column_of(kind, before + 1, pen);
    }
}

/// Adds the names of the last columns of a kind.
fn header_heading<W: Target>(kind: Kind, pen: &mut Pen<'_, W>)
    ensures { Adds W.contents W.failures (header_heading kind) pen.old pen.new }
{
    if is_in_transaction(kind) {
        pen.text(b",_work,_title");
    }
}

/// Adds what a row says of its transaction, by the header.
fn header_text<W: Target>(encoding: Encoding, head: &RecordRef<'_>, pen: &mut Pen<'_, W>)
    ensures { Adds W.contents W.failures (header_text encoding head.now) pen.old pen.new }
{
    next_shown(encoding, work_number(head), pen);
    next_shown(encoding, work_title(head), pen);
}

/// Adds the first cells of a row.
fn numbers_text<W: Target>(numbers: RowNumbers, pen: &mut Pen<'_, W>)
    ensures { Adds W.contents W.failures (numbers_text numbers) pen.old pen.new }
{
    match numbers {
        RowNumbers::Outside => pen.text(b",,"),
        RowNumbers::InGroup(group) => {
            first_number(group, pen);
            pen.text(b",,");
        }
        RowNumbers::InTransaction {
            group,
            transaction,
            sequence,
        } => {
            first_number(group, pen);
            next_number(transaction, pen);
            next_number(sequence, pen);
        }
    }
}

/// Adds the heading of the table of a kind.
pub(crate) fn heading<W: Target>(kind: Kind, pen: &mut Pen<'_, W>)
    ensures { Adds W.contents W.failures (heading kind) pen.old pen.new }
{
    pen.text(b"group,transaction,record");
    named_columns(kind, pen);
    header_heading(kind, pen);
    pen.text(b"\r\n");
}

/// Adds the row of a record with these numbers.
pub(crate) fn record_row<W: Target>(
    encoding: Encoding,
    numbers: RowNumbers,
    shown: &RecordRef<'_>,
    pen: &mut Pen<'_, W>,
)
    ensures { Adds W.contents W.failures (record_row encoding numbers shown.now) pen.old pen.new }
{
    numbers_text(numbers, pen);
    shown_cells(encoding, shown, pen);
    pen.text(b"\r\n");
}

/// Adds the row of a record with these numbers, in the transaction of that header.
pub(crate) fn inner_row<W: Target>(
    encoding: Encoding,
    head: &RecordRef<'_>,
    numbers: RowNumbers,
    shown: &RecordRef<'_>,
    pen: &mut Pen<'_, W>,
)
    ensures { Adds W.contents W.failures (inner_row encoding head.now numbers shown.now) pen.old
        pen.new }
{
    numbers_text(numbers, pen);
    shown_cells(encoding, shown, pen);
    header_text(encoding, head, pen);
    pen.text(b"\r\n");
}
