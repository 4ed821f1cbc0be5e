//! The lines under a finding: where its record stands, the rule in words, and the cells that it speaks of.

ghost use Rattle.std.specs.Prelude.{◌≡◌, ◌≤◌, Some, length};
ghost use Rattle.std.specs.Str.{bytes_eq};
ghost use Rattle.cwr_devices.specs.Steps.Pens.{Adds};
ghost use Rattle.cwr_fields.specs.Steps.Views.{field_view};
ghost use Rattle.cwr_lines.specs.Format.Carried.{carried_at, record_cell};
ghost use Rattle.cwr_notes.specs.Format.FindingNotes.{gap, head_lines, level_words, more_line, named_line, noted_cells, noted_line, number_of_field, rule_words};
ghost use Rattle.cwr_notes.specs.Format.FindingNotes.{tail_lines, shares_line, total_line, value_words, where_line};

use crate::other_records::total_of;
use crate::work_lines::WorkLine;
use cwr_devices::{Pen, Target};
use cwr_fields::{Field, Kind, field, fields, is_spaces, letters, trimmed};
use cwr_findings::{Finding, Rule};
use cwr_lines::RecordRef;
use cwr_shape::Level;
use cwr_values::Transaction;

/// What the rule asks for.
fn rule_words(rule: Rule) -> &'static str
    ensures value { result.now ≡ rule_words rule }
    ensures short { length result.now ≤ 200 }
{
    match rule {
        Rule::V1 =>
            "a work code (iswc) is blank, or T, nine digits and the check digit that belongs to them",
        Rule::V2 =>
            "the interested party number of SPT is that of the nearest SPU before it, and that of SWT is that of the nearest SWR",
        Rule::V3 =>
            "the pr shares of SPU, OPU, SWR and OWR add up to 0, or to 9994 to 10006 (hundredths of a percent)",
        Rule::V4 =>
            "the mr shares of SPU, OPU, SWR and OWR add up to 0, or to 9994 to 10006 (hundredths of a percent)",
        Rule::V5 =>
            "the sr shares of SPU, OPU, SWR and OWR add up to 0, or to 9994 to 10006 (hundredths of a percent)",
        Rule::V6 =>
            "someone has written the words or the music: one of the SWR and OWR has designation A, C or CA",
        Rule::V7 =>
            "the publisher interested party number of PWR is the interested party number of an SPU of the work",
        Rule::V8 =>
            "only an excerpt has EWT: where one stands, the excerpt type of the work isn't blank",
        Rule::V9 => "the composite component count is blank, or it is the number of COM records",
        Rule::V10 => "an agreement doesn't end before it starts",
        Rule::V11 =>
            "in one block the AS records, and so the AC records, have shares of at most 10006 (hundredths of a percent) in each right",
    }
}

/// A level's letter, and how much it rejects.
pub fn level_words(level: Level) -> &'static str
    ensures value { result.now ≡ level_words level }
    ensures short { length result.now ≤ 40 }
{
    match level {
        Level::E => "E: the entire file is rejected",
        Level::G => "G: the group is rejected",
        Level::T => "T: the transaction is rejected",
        Level::R => "R: the record is rejected",
        Level::F => "F: the field is rejected",
    }
}

/// Whether the field has the name.
fn has_name(place: &Field, name: &[u8]) -> bool
    ensures { result ≡ bytes_eq place.now.name.now name.now }
{
    place.name.as_bytes() == name
}

/// The number of the first field of that name, from 1; where the kind has none, the number after its last.
fn number_of_field(kind: Kind, name: &[u8]) -> u8
    ensures { result ≡ number_of_field name.now kind }
{
    let count = fields(kind);
    for before in 0..count {
        let Some(place) = field(kind, before + 1) else {
            return count + 1;
        };
        if has_name(&place, name) {
            return before + 1;
        }
    }
    count + 1
}

/// Adds what stands in a cell.
fn value_words<W: Target>(cell: &[u8], pen: &mut Pen<'_, W>)
    ensures { Adds W.contents W.failures (value_words cell.now) pen.old pen.new }
{
    if is_spaces(cell) {
        pen.text(b"blank");
    } else {
        pen.text(trimmed(cell));
    }
}

/// Adds the line on a cell of a field, in a record of the kind on that line of the file.
fn noted_line<W: Target>(number: u64, kind: Kind, place: &Field, cell: &[u8], pen: &mut Pen<'_, W>)
    ensures { Adds W.contents W.failures
        (noted_line number kind (Some (field_view place.now).1) (Some cell.now)) pen.old pen.new }
{
    pen.text(b"  cell      line ");
    pen.number(number);
    pen.text(b", ");
    pen.text(letters(kind));
    pen.text(b" ");
    pen.words(place.name);
    pen.text(b": ");
    value_words(cell, pen);
    pen.text(b"\n");
}

/// Adds the line on the record's cell of field `j`, if it carries one. The record is on that line of the file.
pub fn cell_note<W: Target>(number: u64, shown: &RecordRef<'_>, j: u8, pen: &mut Pen<'_, W>)
    ensures { Adds W.contents W.failures
        (noted_line number shown.now.kind (carried_at shown.now.kind j) (record_cell shown.now j))
        pen.old pen.new }
{
    let kind = shown.kind();
    let Some(cell) = shown.cell(j) else {
        return;
    };
    let Some(place) = field(kind, j) else {
        return;
    };
    noted_line(number, kind, &place, cell, pen);
}

/// Adds the line on the record's cell of that name, if it carries one.
fn named_line<W: Target>(number: u64, shown: &RecordRef<'_>, name: &[u8], pen: &mut Pen<'_, W>)
    ensures { Adds W.contents W.failures (named_line number shown.now name.now) pen.old pen.new }
{
    cell_note(number, shown, number_of_field(shown.kind(), name), pen);
}

/// Adds the lines on those cells of a record on that line of the file of which the rule speaks.
pub(crate) fn noted_cells<W: Target>(
    number: u64,
    rule: Rule,
    shown: &RecordRef<'_>,
    pen: &mut Pen<'_, W>,
)
    ensures { Adds W.contents W.failures (noted_cells number rule shown.now) pen.old pen.new }
{
    match rule {
        Rule::V1 => named_line(number, shown, b"iswc", pen),
        Rule::V2 => named_line(number, shown, b"interested party number", pen),
        Rule::V3 => named_line(number, shown, b"pr share", pen),
        Rule::V4 => named_line(number, shown, b"mr share", pen),
        Rule::V5 => named_line(number, shown, b"sr share", pen),
        Rule::V6 => named_line(number, shown, b"designation", pen),
        Rule::V7 => {
            named_line(number, shown, b"publisher interested party number", pen);
            named_line(number, shown, b"interested party number", pen);
        }
        Rule::V8 => {
            named_line(number, shown, b"title", pen);
            named_line(number, shown, b"excerpt type", pen);
        }
        Rule::V9 => {
            named_line(number, shown, b"title", pen);
            named_line(number, shown, b"composite component count", pen);
        }
        Rule::V10 => {
            named_line(number, shown, b"start date", pen);
            named_line(number, shown, b"end date", pen);
        }
        Rule::V11 => {
            named_line(number, shown, b"agreement role", pen);
            named_line(number, shown, b"pr share", pen);
            named_line(number, shown, b"mr share", pen);
            named_line(number, shown, b"sr share", pen);
        }
    }
}

/// Adds where a record stands.
pub fn where_line<W: Target>(number: u64, kind: Kind, pen: &mut Pen<'_, W>)
    ensures { Adds W.contents W.failures (where_line number kind) pen.old pen.new }
{
    pen.text(b"  where     line ");
    pen.number(number);
    pen.text(b", ");
    pen.text(letters(kind));
    pen.text(b"\n");
}

/// Adds the first lines under a finding at a record on that line of the file, in a transaction on which that is the line: where it
/// stands, that line, the rule, the level, and its cells of which the rule speaks.
pub(crate) fn head_lines<W: Target>(
    number: u64,
    work: &WorkLine,
    finding: &Finding,
    shown: &RecordRef<'_>,
    pen: &mut Pen<'_, W>,
)
    ensures { Adds W.contents W.failures (head_lines number work.now finding.now shown.now) pen.old
        pen.new }
{
    where_line(number, shown.kind(), pen);
    pen.text(work.as_slice());
    pen.text(b"  rule      ");
    pen.words(rule_words(finding.rule));
    pen.text(b"\n  level     ");
    pen.words(level_words(finding.level));
    pen.text(b"\n");
    noted_cells(number, finding.rule, shown, pen);
}

/// Adds how many records more there are, if there are any.
fn more_line<W: Target>(more: u64, pen: &mut Pen<'_, W>)
    ensures { Adds W.contents W.failures (more_line more) pen.old pen.new }
{
    if more == 0 {
        return;
    }
    pen.text(b"  more      records like these: ");
    pen.number(more);
    pen.text(b"\n");
}

/// Adds what shares add up to, in hundredths of a percent. Where that is 1 %, they may be in percent.
fn shares_line<W: Target>(total: u64, pen: &mut Pen<'_, W>)
    ensures { Adds W.contents W.failures (shares_line total) pen.old pen.new }
{
    if total == 100 {
        pen.text(b"  total     100, that is 1 %: are the shares in percent?\n");
    } else {
        pen.text(b"  total     ");
        pen.number(total);
        pen.text(b"\n");
    }
}

/// Adds what the rule adds up or counts.
fn total_line<W: Target>(rule: Rule, count: usize, transaction: &Transaction, pen: &mut Pen<'_, W>)
    requires { length transaction.now ≤ 100000000 }
    ensures { Adds W.contents W.failures (total_line rule count transaction.now) pen.old pen.new }
{
    match rule {
        Rule::V3 | Rule::V4 | Rule::V5 => shares_line(total_of(rule, transaction), pen),
        Rule::V9 => {
            pen.text(b"  total     COM records: ");
            pen.number(count as u64);
            pen.text(b"\n");
        }
        _ => {}
    }
}

/// Adds an empty line, where findings stand apart.
pub fn gap<W: Target>(apart: bool, pen: &mut Pen<'_, W>)
    ensures { Adds W.contents W.failures (gap apart) pen.old pen.new }
{
    if apart {
        pen.text(b"\n");
    }
}

/// Adds the last lines under a finding: how many records more there are, what the rule adds up or counts, and an empty line where
/// findings stand apart.
pub(crate) fn tail_lines<W: Target>(
    apart: bool,
    rule: Rule,
    count: usize,
    transaction: &Transaction,
    pen: &mut Pen<'_, W>,
)
    requires { length transaction.now ≤ 100000000 }
    ensures { Adds W.contents W.failures (tail_lines apart rule count transaction.now) pen.old pen.new }
{
    more_line(count.saturating_sub(20) as u64, pen);
    total_line(rule, count, transaction, pen);
    gap(apart, pen);
}
