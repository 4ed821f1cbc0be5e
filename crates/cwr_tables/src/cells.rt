//! Cells of tables.

ghost use Rattle.std.specs.Prelude.{◌≡◌, ◌++◌, codes, decimal};
ghost use Rattle.std.specs.List.{flat_map, list_any};
ghost use Rattle.cwr_devices.specs.Steps.Pens.{Adds};
ghost use Rattle.cwr_json.specs.Format.Encodings.{character, characters};
ghost use Rattle.cwr_tables.specs.Format.Tables.{calls_for_quotes, cell_text, doubled};
ghost use Rattle.cwr_tables.specs.Format.RecordTables.{shown_cell};
ghost use Rattle.cwr_tables.specs.Steps.RowTexts.{next_cell};
ghost use Rattle.cwr_tables.specs.Steps.WorkTexts.{edge, within};

use cwr_devices::{Pen, Target};
use cwr_fields::trimmed;
use cwr_json::{Encoding, are_shown_as_is, character, characters};

/// Whether a byte calls for quotes around its cell.
#[inline(always)]
fn calls_for_quotes(b: u8) -> bool
    ensures { result ≡ calls_for_quotes b }
{
    b == b',' || b == b'"' || b == b'\r' || b == b'\n'
}

/// Whether a byte of the cell calls for quotes.
#[inline(always)]
pub(crate) fn needs_quotes(cell: &[u8]) -> bool
    ensures { result ≡ list_any calls_for_quotes cell.now }
{
    cell.iter().any(|b| calls_for_quotes(*b))
}

/// Adds a byte as it stands between quotes.
#[inline(always)]
fn doubled<W: Target>(b: u8, pen: &mut Pen<'_, W>)
    ensures { Adds W.contents W.failures (doubled b) pen.old pen.new }
{
    if b == b'"' {
        pen.text(b"\"\"");
    } else {
        pen.text(&[b]);
    }
}

/// Adds bytes as they stand between quotes.
fn all_doubled<W: Target>(cell: &[u8], pen: &mut Pen<'_, W>)
    ensures { Adds W.contents W.failures (flat_map doubled cell.now) pen.old pen.new }
{
    for b in cell {
        doubled(*b, pen);
    }
}

/// Adds the one character of a byte as it stands between quotes.
#[inline(always)]
fn doubled_character<W: Target>(encoding: Encoding, b: u8, pen: &mut Pen<'_, W>)
    ensures { Adds W.contents W.failures (flat_map doubled (character encoding b)) pen.old pen.new }
{
    if b < 128 {
        doubled(b, pen);
    } else {
        character(encoding, b, pen);
    }
}

/// Adds each byte as a character of its own, as it stands between quotes.
fn doubled_each<W: Target>(encoding: Encoding, cell: &[u8], pen: &mut Pen<'_, W>)
    ensures { Adds W.contents W.failures
        (flat_map (λ b. flat_map doubled (character encoding b)) cell.now) pen.old pen.new }
{
    for b in cell {
        doubled_character(encoding, *b, pen);
    }
}

/// Adds the characters that bytes are shown as, as they stand between quotes.
fn doubled_characters<W: Target>(encoding: Encoding, cell: &[u8], pen: &mut Pen<'_, W>)
    ensures { Adds W.contents W.failures (flat_map doubled (characters encoding cell.now)) pen.old
        pen.new }
{
    if are_shown_as_is(encoding, cell) {
        all_doubled(cell, pen);
    } else {
        doubled_each(encoding, cell, pen);
    }
}

/// Adds the characters of a part of a cell, where that stands between quotes or not.
#[inline(always)]
pub(crate) fn within<W: Target>(encoding: Encoding, quoted: bool, part: &[u8], pen: &mut Pen<'_, W>)
    ensures { Adds W.contents W.failures (within quoted (characters encoding part.now)) pen.old
        pen.new }
{
    if quoted {
        doubled_characters(encoding, part, pen);
    } else {
        characters(encoding, part, pen);
    }
}

/// Adds the quote at an end of a cell that has quotes.
#[inline(always)]
pub(crate) fn edge<W: Target>(quoted: bool, pen: &mut Pen<'_, W>)
    ensures { Adds W.contents W.failures (edge quoted) pen.old pen.new }
{
    if quoted {
        pen.text(b"\"");
    }
}

/// Adds a cell after others, in the characters that its bytes are shown as.
#[inline(always)]
pub fn next_characters<W: Target>(encoding: Encoding, cell: &[u8], pen: &mut Pen<'_, W>)
    ensures { Adds W.contents W.failures (codes "," ++ cell_text (characters encoding cell.now))
        pen.old pen.new }
{
    let quoted = needs_quotes(cell);
    pen.text(b",");
    edge(quoted, pen);
    within(encoding, quoted, cell, pen);
    edge(quoted, pen);
}

/// Adds a record's cell after others.
#[inline(always)]
pub(crate) fn next_shown<W: Target>(encoding: Encoding, cell: &[u8], pen: &mut Pen<'_, W>)
    ensures { Adds W.contents W.failures (next_cell (shown_cell encoding cell.now)) pen.old pen.new }
{
    next_characters(encoding, trimmed(cell), pen);
}

/// Adds a number as a cell before others.
pub(crate) fn first_number<W: Target>(number: u64, pen: &mut Pen<'_, W>)
    ensures { Adds W.contents W.failures (cell_text (decimal number)) pen.old pen.new }
{
    pen.number(number);
}

/// Adds a number as a cell after others.
pub fn next_number<W: Target>(number: u64, pen: &mut Pen<'_, W>)
    ensures { Adds W.contents W.failures (codes "," ++ cell_text (decimal number)) pen.old pen.new }
{
    pen.text(b",");
    first_number(number, pen);
}
