//! The calls of the C library.

ghost use Rattle.std.specs.Prelude.{◌≡◌, true};
ghost use Rattle.cwr_calls.specs.Format.Answers.{Indexes, IsOutOfRange};
ghost use Rattle.cwr_calls.specs.Steps.Checked.{Checks};
ghost use Rattle.cwr_calls.specs.Format.VerdictNumbers.{ended};
ghost use Rattle.cwr_calls.specs.Format.FieldNumbers.{TellsBlank, TellsCode, TellsField, TellsKind};
ghost use Rattle.cwr_calls.specs.Format.Selected.{TellsSelected};
ghost use Rattle.cwr_calls.specs.Format.WrittenTexts.{TellsImported, TellsWritten};
ghost use Rattle.cwr_calls.specs.Steps.Listed.{TellsFindings};
ghost use Rattle.cwr_calls.specs.Steps.Reported.{TellsReport};
ghost use Rattle.cwr_calls.specs.Steps.Summed.{TellsSummary};

use crate::codes::{blank_line, put_code};
use crate::fields::{CwrField, find_field, kind_at, place_of};
use crate::imports::import_text;
use crate::listing::{CwrFinding, list_findings};
use crate::report_texts::{copy_out, report, what_is_asked};
use crate::selecting::{CwrPlace, listed, select_text, selected_in_c};
use crate::summing::{copy_numbers, summarize};
use crate::verdicts::{CwrVerdict, end_in_c, ended, in_c};
use crate::writing::{CwrWritten, write_text, written};
use cwr_decode::{IndexEntry, index};
use cwr_devices::{DeviceFault, InMemory, Target};
use cwr_fields::{Kind, letters};
use cwr_shape::Limits;
use cwr_tools::check;
use std::alloc::Global;
use std::str::from_utf8;

/// A writer that keeps nothing.
#[derive(Drop)]
pub(crate) struct Nowhere {
    /// All that was written was handed on.
    handed_on: bool,
}

impl Nowhere {
    /// Before anything is written.
    pub(crate) fn new() -> Nowhere
        ensures { result.handed_on ≡ true }
    {
        Nowhere { handed_on: true }
    }
}

impl Target for Nowhere {
    ghost use Rattle.std.specs.Prelude.{None};

    ghost contents = { λ w. None };

    ghost handed_on = { λ w. w.handed_on };

    ghost failures = { λ w. 0 };

    fn write(&mut self, text: &[u8]) -> Result<usize, DeviceFault> {
        self.handed_on = false;
        Ok(text.len())
    }

    fn flush(&mut self) -> Result<(), DeviceFault> {
        self.handed_on = true;
        Ok(())
    }
}

/// Checks the text, and writes the verdict. Memory holds one transaction.
pub fn check_text(
    alloc: Global,
    text: &[u8],
    records: u32,
    groups: u32,
    transaction: u32,
    verdict: &mut CwrVerdict,
)
    ensures told { Checks records groups transaction text.now verdict.new }
    ensures out_of_range { IsOutOfRange records groups transaction → verdict.new ≡ ended 4 }
{
    let Ok(limits) = Limits::new(records, groups, transaction) else {
        *verdict = ended(4);
        return;
    };
    let mut reader = InMemory::new(text);
    let (_, checked) = check(alloc, limits, &mut reader, Nowhere::new());
    *verdict = match checked {
        Ok(found) => in_c(found),
        Err(_) => ended(3),
    };
}

/// Checks the text, writes the verdict, and puts the findings that a check tells before it, as far as there is room. Answers how many
/// findings there are. Memory holds one transaction.
pub fn findings_in(
    alloc: Global,
    text: &[u8],
    records: u32,
    groups: u32,
    transaction: u32,
    findings: &mut [CwrFinding],
    verdict: &mut CwrVerdict,
) -> usize
    ensures told { TellsFindings records groups transaction text.now findings.old findings.new result
        verdict.new }
    ensures out_of_range { IsOutOfRange records groups transaction → verdict.new ≡ ended 4 }
{
    let Ok(limits) = Limits::new(records, groups, transaction) else {
        *verdict = ended(4);
        return 0;
    };
    let (count, found) = list_findings(alloc, limits, text, findings);
    match found {
        Ok(found) => {
            *verdict = in_c(found);
            count
        }
        Err(_) => {
            *verdict = ended(3);
            0
        }
    }
}

/// Puts an entry for each record that is accepted, as far as there is room, writes how the text ended, and answers how
/// many records were accepted. It takes no memory.
pub fn index_text(
    text: &[u8],
    records: u32,
    groups: u32,
    transaction: u32,
    lines: &mut [IndexEntry],
    verdict: &mut CwrVerdict,
) -> usize
    ensures told { Indexes records groups transaction text.now lines.old lines.new result verdict.new }
    ensures out_of_range { IsOutOfRange records groups transaction → verdict.new ≡ ended 4 }
{
    let Ok(limits) = Limits::new(records, groups, transaction) else {
        *verdict = ended(4);
        return 0;
    };
    let (count, end) = index(limits, text, lines);
    *verdict = end_in_c(end);
    count
}

/// Writes the report that `what` asks for into the room, as far as there is any: 0 a check, 1 a show, 2 an explanation, 3 the data as
/// lines of JSON, 4 these with notes, 5 a lint, 6 a lint that explains. In explanations the text has that name, and `-` where the name
/// isn't UTF-8. Answers how many bytes the report has. Memory holds it.
pub fn report_on(
    alloc: Global,
    what: u32,
    text: &[u8],
    records: u32,
    groups: u32,
    transaction: u32,
    name: &[u8],
    room: &mut [u8],
    verdict: &mut CwrVerdict,
) -> usize
    ensures told { TellsReport what records groups transaction text.now room.old room.new result
        verdict.new }
    ensures out_of_range { IsOutOfRange records groups transaction → verdict.new ≡ ended 4 }
{
    let Ok(limits) = Limits::new(records, groups, transaction) else {
        *verdict = ended(4);
        return 0;
    };
    let Some(what) = what_is_asked(what) else {
        *verdict = ended(4);
        return 0;
    };
    let name = from_utf8(name).unwrap_or("-");
    let (made, found) = report(alloc, limits, what, name, text);
    match found {
        Ok(found) => {
            *verdict = in_c(found);
            copy_out(made.as_slice(), room)
        }
        Err(_) => {
            *verdict = ended(3);
            0
        }
    }
}

/// Puts the three letters of kind number `i`, from 0, as far as there is room. Answers 3, and 0 where there are no more kinds.
pub fn kind_letters(i: u32, kind: &mut [u8]) -> usize
    ensures { TellsKind i kind.old kind.new result }
{
    match kind_at(i as usize) {
        Some(found) => copy_out(letters(found), kind),
        None => 0,
    }
}

/// Where field `j`, from 1, of the kind that three letters name stands, and its name, as far as there is room. Answers how
/// many bytes the name has, and 0 where there is no such field.
pub fn field_place(kind: &[u8], j: u8, place: &mut CwrField, name: &mut [u8]) -> usize
    ensures { TellsField kind.now j place.old place.new name.old name.new result }
{
    match find_field(kind, j) {
        Some(found) => {
            *place = place_of(&found);
            copy_out(found.name.as_bytes(), name)
        }
        None => 0,
    }
}

/// Puts text number `i`, from 0, of those that cells of field `j` may hold, as far as there is room: a code, a flag or a constant.
/// Answers how many bytes it has, and 0 where there are no more, or the field's cells hold something else.
pub fn code_text(kind: &[u8], j: u8, i: u32, code: &mut [u8]) -> usize
    ensures { TellsCode kind.now j i code.old code.new result }
{
    match Kind::of(kind) {
        Some(kind) => put_code(kind, j, i, code),
        None => 0,
    }
}

/// Puts the line of a record in which nothing was set, in full width, as far as there is room: the kind's letters, the words of
/// constants, and spaces. Answers how many bytes it has, and 0 where the letters name no kind.
pub fn blank_record(kind: &[u8], line: &mut [u8]) -> usize
    ensures { TellsBlank kind.now line.old line.new result }
{
    match Kind::of(kind) {
        Some(kind) => copy_out(blank_line(kind).as_slice(), line),
        None => 0,
    }
}

/// Writes the canonical text of the text's transactions that have these places into the room, as far as there is any, and how many there
/// are. Places that no transaction has are passed over, and where none has any nothing is written. Answers how many bytes it has. Memory
/// holds it, and the places.
pub fn select_places(
    alloc: Global,
    text: &[u8],
    records: u32,
    groups: u32,
    transaction: u32,
    places: &[CwrPlace],
    room: &mut [u8],
    verdict: &mut CwrVerdict,
) -> usize
    ensures told { TellsSelected records groups transaction text.now places.now room.old room.new
        result verdict.new }
    ensures out_of_range { IsOutOfRange records groups transaction → verdict.new ≡ ended 4 }
{
    let Ok(limits) = Limits::new(records, groups, transaction) else {
        *verdict = ended(4);
        return 0;
    };
    let Ok(places) = listed(alloc, places) else {
        *verdict = ended(3);
        return 0;
    };
    let (made, outcome) = select_text(alloc, limits, &places, text);
    *verdict = selected_in_c(outcome);
    match outcome {
        Ok(_) => copy_out(made.as_slice(), room),
        Err(_) => 0,
    }
}

/// Puts what stands in the text's items up to where it ends or is refused, a number for each column, as far as there is room, and writes
/// the verdict. Answers how many columns there are. Memory holds one transaction.
pub fn sum_text(
    alloc: Global,
    text: &[u8],
    records: u32,
    groups: u32,
    transaction: u32,
    numbers: &mut [u64],
    verdict: &mut CwrVerdict,
) -> usize
    ensures told { TellsSummary records groups transaction text.now numbers.old numbers.new result verdict.new }
    ensures out_of_range { IsOutOfRange records groups transaction → verdict.new ≡ ended 4 }
{
    let Ok(limits) = Limits::new(records, groups, transaction) else {
        *verdict = ended(4);
        return 0;
    };
    let (summary, found) = summarize(alloc, limits, text);
    match found {
        Ok(found) => {
            *verdict = in_c(found);
            copy_numbers(summary.numbers(), numbers)
        }
        Err(_) => {
            *verdict = ended(3);
            0
        }
    }
}

/// Writes the canonical text of the transmission whose records the lines carry into the room, as far as there is any. The
/// lines may be in any spelling and have any numbers, and TRL may be left out. Answers how many bytes it has. Memory holds it.
pub fn write_records(
    alloc: Global,
    lines: &[u8],
    records: u32,
    groups: u32,
    transaction: u32,
    room: &mut [u8],
    told: &mut CwrWritten,
) -> usize
    ensures told { TellsWritten records groups transaction lines.now room.old room.new result told.new }
    ensures out_of_range { IsOutOfRange records groups transaction → told.new.ending ≡ 7 }
{
    let Ok(limits) = Limits::new(records, groups, transaction) else {
        *told = written(7, 0, 0);
        return 0;
    };
    match write_text(alloc, limits, lines) {
        Ok(text) => {
            *told = written(0, 0, 0);
            copy_out(text.as_slice(), room)
        }
        Err(fault) => {
            *told = fault;
            0
        }
    }
}

/// Writes the canonical text of the transmission that lines of JSON are into the room, as far as there is any; where they are none, the
/// words that `cwr write` says of that. Answers how many bytes it has. Memory holds it.
pub fn write_data(
    alloc: Global,
    json: &[u8],
    records: u32,
    groups: u32,
    transaction: u32,
    room: &mut [u8],
    told: &mut CwrWritten,
) -> usize
    ensures told { TellsImported records groups transaction room.old room.new result told.new }
    ensures out_of_range { IsOutOfRange records groups transaction → told.new.ending ≡ 7 }
{
    let Ok(limits) = Limits::new(records, groups, transaction) else {
        *told = written(7, 0, 0);
        return 0;
    };
    let (text, found) = import_text(alloc, limits, json);
    *told = found;
    copy_out(text.as_slice(), room)
}
