//! What C calls.

ghost use Rattle.std.specs.Prelude.{◌≡◌};
ghost use Rattle.cwr_calls.specs.Format.Answers.{Indexes, IsOutOfRange};
ghost use Rattle.cwr_calls.specs.Steps.Checked.{Checks};
ghost use Rattle.cwr_calls.specs.Format.VerdictNumbers.{ended};
ghost use Rattle.cwr_calls.specs.Format.FieldNumbers.{TellsBlank, TellsCode, TellsField, TellsKind};
ghost use Rattle.cwr_calls.specs.Format.Selected.{TellsSelected};
ghost use Rattle.cwr_calls.specs.Format.WrittenTexts.{TellsImported, TellsWritten};
ghost use Rattle.cwr_calls.specs.Steps.Listed.{TellsFindings};
ghost use Rattle.cwr_calls.specs.Steps.Reported.{TellsReport};
ghost use Rattle.cwr_calls.specs.Steps.Summed.{TellsSummary};

use cwr_calls::{
    CwrField, CwrFinding, CwrPlace, CwrVerdict, CwrWritten, blank_record, check_text, code_text,
    field_place, findings_in, index_text, kind_letters, report_on, select_places, sum_text,
    write_data, write_records,
};
use cwr_decode::IndexEntry;
use std::alloc::Global;

/// The number of this interface: it changes where a call, a struct or a number means something else than before.
const INTERFACE: u32 = 1;

/// The number of the interface that was linked: a header or a binding for another one doesn't fit.
#[unsafe(no_mangle)]
pub extern "C" fn cwr_interface() -> u32
    ensures { result ≡ INTERFACE }
{
    INTERFACE
}

/// Checks the text, and writes the verdict. Memory holds one transaction.
#[unsafe(no_mangle)]
pub extern "C" fn cwr_check(
    alloc: Global,
    text: &[u8],
    records: u32,
    groups: u32,
    transaction: u32,
    verdict: &mut CwrVerdict,
)
    ensures told { Checks records groups transaction text.now verdict.new }
    ensures out_of_range { IsOutOfRange records groups transaction → verdict.new ≡ ended 4 }
{
    check_text(alloc, text, records, groups, transaction, verdict)
}

/// Checks the text, writes the verdict, and puts the findings that a check tells before it, as far as there is room. Answers how many
/// findings there are. Memory holds one transaction.
#[unsafe(no_mangle)]
pub extern "C" fn cwr_findings(
    alloc: Global,
    text: &[u8],
    records: u32,
    groups: u32,
    transaction: u32,
    findings: &mut [CwrFinding],
    verdict: &mut CwrVerdict,
) -> usize
    ensures told { TellsFindings records groups transaction text.now findings.old findings.new result
        verdict.new }
    ensures out_of_range { IsOutOfRange records groups transaction → verdict.new ≡ ended 4 }
{
    findings_in(alloc, text, records, groups, transaction, findings, verdict)
}

/// Puts an entry for each record that is accepted, as far as there is room, writes how the text ended, and answers how
/// many records were accepted. It takes no memory.
#[unsafe(no_mangle)]
pub extern "C" fn cwr_index(
    text: &[u8],
    records: u32,
    groups: u32,
    transaction: u32,
    lines: &mut [IndexEntry],
    verdict: &mut CwrVerdict,
) -> usize
    ensures told { Indexes records groups transaction text.now lines.old lines.new result verdict.new }
    ensures out_of_range { IsOutOfRange records groups transaction → verdict.new ≡ ended 4 }
{
    index_text(text, records, groups, transaction, lines, verdict)
}

/// Writes the report that `what` asks for into the room, as far as there is any: 0 a check, 1 a show, 2 an explanation, 3 the data as
/// lines of JSON, 4 these with notes, 5 a lint, 6 a lint that explains. In explanations the text has that name, and `-` where the name
/// isn't UTF-8. Answers how many bytes the report has. Memory holds it.
#[unsafe(no_mangle)]
pub extern "C" fn cwr_report(
    alloc: Global,
    what: u32,
    text: &[u8],
    records: u32,
    groups: u32,
    transaction: u32,
    name: &[u8],
    room: &mut [u8],
    verdict: &mut CwrVerdict,
) -> usize
    ensures told { TellsReport what records groups transaction text.now room.old room.new result
        verdict.new }
    ensures out_of_range { IsOutOfRange records groups transaction → verdict.new ≡ ended 4 }
{
    report_on(
        alloc,
        what,
        text,
        records,
        groups,
        transaction,
        name,
        room,
        verdict,
    )
}

/// Puts the three letters of kind number `i`, from 0, as far as there is room. Answers 3, and 0 where there are no more kinds.
#[unsafe(no_mangle)]
pub extern "C" fn cwr_kind(i: u32, kind: &mut [u8]) -> usize
    ensures { TellsKind i kind.old kind.new result }
{
    kind_letters(i, kind)
}

/// Where field `j`, from 1, of the kind that three letters name stands, and its name, as far as there is room. Answers how
/// many bytes the name has, and 0 where there is no such field.
#[unsafe(no_mangle)]
pub extern "C" fn cwr_field(kind: &[u8], j: u8, place: &mut CwrField, name: &mut [u8]) -> usize
    ensures { TellsField kind.now j place.old place.new name.old name.new result }
{
    field_place(kind, j, place, name)
}

/// Puts text number `i`, from 0, of those that cells of field `j` may hold, as far as there is room: a code, a flag or a constant.
/// Answers how many bytes it has, and 0 where there are no more, or the field's cells hold something else.
#[unsafe(no_mangle)]
pub extern "C" fn cwr_code(kind: &[u8], j: u8, i: u32, code: &mut [u8]) -> usize
    ensures { TellsCode kind.now j i code.old code.new result }
{
    code_text(kind, j, i, code)
}

/// Puts the line of a record in which nothing was set, in full width, as far as there is room: the kind's letters, the words of
/// constants, and spaces. Answers how many bytes it has, and 0 where the letters name no kind.
#[unsafe(no_mangle)]
pub extern "C" fn cwr_blank(kind: &[u8], line: &mut [u8]) -> usize
    ensures { TellsBlank kind.now line.old line.new result }
{
    blank_record(kind, line)
}

/// Writes the canonical text of the text's transactions that have these places into the room, as far as there is any, and how many there
/// are. Places that no transaction has are passed over, and where none has any nothing is written. Answers how many bytes it has. Memory
/// holds it, and the places.
#[unsafe(no_mangle)]
pub extern "C" fn cwr_select(
    alloc: Global,
    text: &[u8],
    records: u32,
    groups: u32,
    transaction: u32,
    places: &[CwrPlace],
    room: &mut [u8],
    verdict: &mut CwrVerdict,
) -> usize
    ensures told { TellsSelected records groups transaction text.now places.now room.old room.new
        result verdict.new }
    ensures out_of_range { IsOutOfRange records groups transaction → verdict.new ≡ ended 4 }
{
    select_places(
        alloc,
        text,
        records,
        groups,
        transaction,
        places,
        room,
        verdict,
    )
}

/// Puts what stands in the text's items up to where it ends or is refused, a number for each column, as far as there is room, and writes
/// the verdict. Answers how many columns there are. Memory holds one transaction.
#[unsafe(no_mangle)]
pub extern "C" fn cwr_summary(
    alloc: Global,
    text: &[u8],
    records: u32,
    groups: u32,
    transaction: u32,
    numbers: &mut [u64],
    verdict: &mut CwrVerdict,
) -> usize
    ensures told { TellsSummary records groups transaction text.now numbers.old numbers.new result verdict.new }
    ensures out_of_range { IsOutOfRange records groups transaction → verdict.new ≡ ended 4 }
{
    sum_text(alloc, text, records, groups, transaction, numbers, verdict)
}

/// Writes the canonical text of the transmission whose records the lines carry into the room, as far as there is any. The
/// lines may be in any spelling and have any numbers, and TRL may be left out. Answers how many bytes it has. Memory holds it.
#[unsafe(no_mangle)]
pub extern "C" fn cwr_write(
    alloc: Global,
    lines: &[u8],
    records: u32,
    groups: u32,
    transaction: u32,
    room: &mut [u8],
    told: &mut CwrWritten,
) -> usize
    ensures told { TellsWritten records groups transaction lines.now room.old room.new result told.new }
    ensures out_of_range { IsOutOfRange records groups transaction → told.new.ending ≡ 7 }
{
    write_records(alloc, lines, records, groups, transaction, room, told)
}

/// Writes the canonical text of the transmission that lines of JSON are into the room, as far as there is any; where they are none, the
/// words that `cwr write` says of that. Answers how many bytes it has. Memory holds it.
#[unsafe(no_mangle)]
pub extern "C" fn cwr_write_json(
    alloc: Global,
    json: &[u8],
    records: u32,
    groups: u32,
    transaction: u32,
    room: &mut [u8],
    told: &mut CwrWritten,
) -> usize
    ensures told { TellsImported records groups transaction room.old room.new result told.new }
    ensures out_of_range { IsOutOfRange records groups transaction → told.new.ending ≡ 7 }
{
    write_data(alloc, json, records, groups, transaction, room, told)
}
