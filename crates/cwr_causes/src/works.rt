//! Whose a refused line is.

ghost use Rattle.std.specs.Prelude.{◌≡◌, ◌≤◌, ◌++◌, false, codes, flat_map, Some, length, string_bytes, OnOk};
ghost use Rattle.cwr_fields.specs.declared.kinds.Kind.{Kind};
ghost use Rattle.cwr_fields.specs.Format.Layouts.{FieldLayout, field_at};
ghost use Rattle.cwr_lines.specs.Steps.Held.{held_cell, held_kind};
ghost use Rattle.cwr_notes.specs.Format.WorkNames.{name_line};
ghost use Rattle.cwr_causes.specs.Format.RefusedWorks.{IsWorkHeader, copy_work, open_work, shown_line, work_in_place, work_out_of_place};
ghost use Rattle.cwr_causes.specs.Format.Texts.{byte_words};
ghost use Rattle.cwr_causes.specs.Steps.Works.{begun_work, headed_work, is_further, next_work, own_work, plain_cell, record_number, work_refused};

use crate::sequences::sequence_in;
use crate::texts::add_bytes;
use cwr_fields::{Kind, is_plain};
use cwr_findings::{AGREEMENT_NUMBER, CREATION_NUMBER, CREATION_TITLE, TITLE, WORK_NUMBER, is_of};
use cwr_lines::{CutLine, Record};
use cwr_notes::WorkLine;
use cwr_shape::Reason;
use std::alloc::AllocError;
use std::str::from_utf8;

/// The field of a record's own sequence.
const RECORD_NUMBER: u8 = 3;

/// What stands in the cell of a field, where the line has it and no control character is in it.
fn plain_cell<'a>(line: &CutLine<'a>, field: u8) -> &'a [u8]
    ensures value { result.now ≡ plain_cell line.now field }
    ensures short { (kind : Kind) (f : FieldLayout) → held_kind line.now ≡ Some kind
        → field_at kind field ≡ Some f → length result.now ≤ f.width }
{
    match line.cell(field) {
        Some(cell) if is_plain(cell) => cell,
        _ => b"",
    }
}

/// The line on the work of a line of NWR or REV.
fn work_named(line: &CutLine<'_>) -> WorkLine
    requires { IsWorkHeader (held_kind line.now) }
    ensures { result ≡ name_line false (plain_cell line.now WORK_NUMBER) (plain_cell line.now TITLE) }
{
    WorkLine::named(
        false,
        plain_cell(line, WORK_NUMBER),
        plain_cell(line, TITLE),
    )
}

/// The line on the work or the agreement that a line of a header's kind names.
#[tactic(auto, unfolding(crate::specs::Format::RefusedWorks::own_work_by))]
pub fn own_work(line: &CutLine<'_>) -> WorkLine
    ensures { result ≡ own_work line.now }
{
    match line.kind() {
        Some(Kind::Nwr) => work_named(line),
        Some(Kind::Rev) => work_named(line),
        Some(Kind::Ack) => WorkLine::named(
            false,
            plain_cell(line, CREATION_NUMBER),
            plain_cell(line, CREATION_TITLE),
        ),
        Some(Kind::Agr) => WorkLine::named(true, plain_cell(line, AGREEMENT_NUMBER), b""),
        _ => WorkLine::none(),
    }
}

/// The record sequence of the line, where a sequence stands there.
fn record_number(line: &CutLine<'_>) -> Option<u64>
    ensures { result ≡ record_number line.now }
{
    match line.cell(RECORD_NUMBER) {
        Some(cell) => sequence_in(cell, 0),
        None => None,
    }
}

/// Whether the line has the record number of a further record of a transaction.
fn is_further(line: &CutLine<'_>) -> bool
    ensures { result ≡ is_further line.now }
{
    match record_number(line) {
        Some(number) => number != 0,
        None => false,
    }
}

/// The line on the work of the open transaction, which has that header.
pub fn open_work(header: &Option<Record>) -> WorkLine
    ensures { result ≡ open_work header.now }
{
    match header {
        Some(header) => WorkLine::by(&header.view()),
        None => WorkLine::none(),
    }
}

/// The line on the work of the open transaction, where that is an acknowledgement.
fn copy_work(header: &Option<Record>) -> WorkLine
    ensures { result ≡ copy_work header.now }
{
    match header {
        Some(head) if is_of(&head.view(), Kind::Ack) => WorkLine::by(&head.view()),
        _ => WorkLine::none(),
    }
}

/// The line on the work of a line of a header's kind, after records of which a transaction with that header is open.
fn begun_work(header: &Option<Record>, line: &CutLine<'_>) -> WorkLine
    ensures { result ≡ begun_work header.now line.now }
{
    if is_further(line) {
        copy_work(header)
    } else {
        own_work(line)
    }
}

/// The line on the work of a line that stands in its place, after records of which a transaction with that header is open.
#[tactic(auto, unfolding(crate::specs::Format::RefusedWorks::work_in_place))]
fn work_in_place(header: &Option<Record>, line: &CutLine<'_>) -> WorkLine
    ensures { result ≡ work_in_place header.now (held_kind line.now) (held_cell line.now) }
{
    match line.kind() {
        Some(Kind::Hdr | Kind::Grh | Kind::Grt | Kind::Trl) => WorkLine::none(),
        Some(Kind::Nwr | Kind::Rev | Kind::Ack | Kind::Agr) => begun_work(header, line),
        _ => open_work(header),
    }
}

/// The line on the work of a header after records of which a transaction with that header is open: where that is of its kind, it isn't
/// whole, and the line is on its work; else on the header's own.
fn next_work(header: &Option<Record>, line: &CutLine<'_>) -> WorkLine
    ensures { result ≡ next_work header.now line.now }
{
    match (header, line.kind()) {
        (Some(head), Some(kind)) if is_of(&head.view(), kind) => WorkLine::by(&head.view()),
        _ => own_work(line),
    }
}

/// The same of one that doesn't stand in its place: its own only where its record sequence is 0.
#[tactic(auto, unfolding(crate::specs::Format::RefusedWorks::headed_work_by))]
fn headed_work(header: &Option<Record>, line: &CutLine<'_>) -> WorkLine
    ensures { result ≡ headed_work header.now line.now }
{
    match record_number(line) {
        None => open_work(header),
        Some(0) => next_work(header, line),
        Some(_) => copy_work(header),
    }
}

/// The line on the work of a line that doesn't stand in its place, after records of which a transaction with that header is open.
#[tactic(auto, unfolding(crate::specs::Format::RefusedWorks::work_out_of_place))]
fn work_out_of_place(header: &Option<Record>, line: &CutLine<'_>) -> WorkLine
    ensures { result ≡ work_out_of_place header.now (held_kind line.now) (held_cell line.now) }
{
    match line.kind() {
        Some(Kind::Nwr | Kind::Rev | Kind::Ack | Kind::Agr) => headed_work(header, line),
        _ => open_work(header),
    }
}

/// The line on the work of a line that is refused for that reason, after records of which a transaction with that header is open.
pub fn refused_work(header: &Option<Record>, reason: &Reason, line: &CutLine<'_>) -> WorkLine
    ensures { result ≡ work_refused header.now reason.now line.now }
{
    match reason {
        Reason::UnknownKind | Reason::Misplaced => work_out_of_place(header, line),
        _ => work_in_place(header, line),
    }
}

/// Adds words.
fn add_words(text: &mut String, words: &str) -> Result<(), AllocError>
    ensures { OnOk result (string_bytes text.new ≡ string_bytes text.old ++ words.now) }
{
    text.push_str(words)
}

/// Adds bytes, each that isn't printable by its number, and the end of the line.
fn add_escaped(text: &mut String, line: &[u8]) -> Result<(), AllocError>
    ensures { OnOk result (string_bytes text.new ≡ string_bytes text.old ++ (flat_map byte_words line.now ++ codes "\n")) }
{
    add_bytes(text, line)?;
    text.push_str("\n")
}

/// Adds the line. Where its bytes are no text, each that isn't printable is shown by its number.
pub(crate) fn add_work(text: &mut String, work: &WorkLine) -> Result<(), AllocError>
    ensures { OnOk result (string_bytes text.new ≡ string_bytes text.old ++ shown_line work.now) }
{
    let line = work.as_slice();
    match from_utf8(line) {
        Ok(line) => add_words(text, line),
        Err(_) => add_escaped(text, &line[..line.len().saturating_sub(1)]),
    }
}
