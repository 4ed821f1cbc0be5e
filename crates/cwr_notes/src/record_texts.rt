//! The lines of a record: its number and kind, and the cells that aren't blank.

ghost use Rattle.std.specs.Prelude.{◌≡◌, ◌++◌, IfSome, codes, decimal, length};
ghost use Rattle.cwr_devices.specs.Steps.Pens.{Adds};
ghost use Rattle.cwr_fields.specs.Format.Kinds.{letters};
ghost use Rattle.cwr_fields.specs.Format.Layouts.{layout};
ghost use Rattle.cwr_lines.specs.Format.Carried.{carried_at};
ghost use Rattle.cwr_notes.specs.Format.RecordTexts.{head_line, record_lines};
ghost use Rattle.cwr_notes.specs.Steps.Labels.{label_of, labelled_cell, labelled_cells, labelled_field};

use crate::labels::labels;
use cwr_devices::{Pen, Target};
use cwr_fields::{Kind, letters, trimmed};
use cwr_lines::RecordRef;

/// Adds a cell under its field's label, unless the cell is blank.
#[inline(always)]
fn labelled_cell<W: Target>(label: &str, cell: &[u8], pen: &mut Pen<'_, W>)
    ensures { Adds W.contents W.failures (labelled_cell label.now cell.now) pen.old pen.new }
{
    let shown = trimmed(cell);
    if shown.is_empty() {
        return;
    }
    pen.words(label);
    pen.text(shown);
}

/// Adds the cell that the record, which is of the kind, carries in field `j`, if it carries one. The label is that field's.
#[inline(always)]
fn labelled_field<W: Target>(
    kind: Kind,
    shown: &RecordRef<'_>,
    j: u8,
    label: &str,
    pen: &mut Pen<'_, W>,
)
    requires kind { kind ≡ shown.now.kind }
    requires label { IfSome (carried_at shown.now.kind j) (λ f. label.now ≡ label_of j f) }
    ensures { Adds W.contents W.failures (labelled_field shown.now j) pen.old pen.new }
{
    let Some((_, cell)) = shown.carried_cell(kind, j) else {
        return;
    };
    labelled_cell(label, cell, pen);
}

/// Adds the cells that the record carries, each under its label.
#[inline(always)]
fn labelled_cells<W: Target>(kind: Kind, shown: &RecordRef<'_>, pen: &mut Pen<'_, W>)
    requires { kind ≡ shown.now.kind }
    ensures { Adds W.contents W.failures (labelled_cells shown.now (length (layout shown.now.kind)))
        pen.old pen.new }
{
    let labels = labels(kind);
    for before in 0..shown.filled_fields(kind) {
        labelled_field(kind, shown, before + 1, labels[usize::from(before)], pen);
    }
}

/// Adds the number and the kind of a record.
#[inline(always)]
fn head<W: Target>(number: u64, kind: Kind, pen: &mut Pen<'_, W>)
    ensures { Adds W.contents W.failures (decimal number ++ codes " " ++ letters kind) pen.old
        pen.new }
{
    pen.number(number);
    pen.text(b" ");
    pen.text(letters(kind));
}

/// Adds the line of a record of the kind, which has that number: all that is written of one that carries nothing.
pub fn head_line<W: Target>(number: u64, kind: Kind, pen: &mut Pen<'_, W>)
    ensures { Adds W.contents W.failures (head_line number kind) pen.old pen.new }
{
    head(number, kind, pen);
    pen.text(b"\n");
}

/// Adds the lines of a record, which has that number.
pub fn record_lines<W: Target>(number: u64, shown: &RecordRef<'_>, pen: &mut Pen<'_, W>)
    ensures { Adds W.contents W.failures (record_lines number shown.now) pen.old pen.new }
{
    let kind = shown.kind();
    head(number, kind, pen);
    labelled_cells(kind, shown, pen);
    pen.text(b"\n");
}
