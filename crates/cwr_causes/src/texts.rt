//! Texts that are put together for people who read them.

ghost use Rattle.std.specs.Prelude.{◌≡◌, ◌++◌, length, flat_map, string_bytes, OnOk};
ghost use Rattle.cwr_causes.specs.Format.Texts.{beginning_words, byte_words, cell_words, filling_words, label_words, quoted_words, space_words};

use cwr_fields::{is_spaces, trimmed};
use std::alloc::AllocError;
use std::fmt::Write;

/// The most bytes of a line that are shown of its beginning.
const MOST_SHOWN: usize = 24;

/// Adds what stands before a line of the explanation: two spaces, and what the line says.
#[tactic(auto, unfolding(crate::specs::Format::Texts::label_words))]
pub(crate) fn add_label(text: &mut String, label: &str) -> Result<(), AllocError>
    ensures { OnOk result (string_bytes text.new ≡ string_bytes text.old ++ label_words label.now) }
{
    write!(text, "  {label:<10}")
}

/// Adds a byte: as it is where it's printable, and else by its number.
fn add_byte(text: &mut String, byte: u8) -> Result<(), AllocError>
    ensures { OnOk result (string_bytes text.new ≡ string_bytes text.old ++ byte_words byte) }
{
    match byte {
        b'"' => text.push_str("\\\""),
        b'\\' => text.push_str("\\\\"),
        32..=126 => text.push(char::from(byte)),
        _ => write!(text, "\\x{byte:02X}"),
    }
}

/// Adds bytes, one by one.
pub(crate) fn add_bytes(text: &mut String, bytes: &[u8]) -> Result<(), AllocError>
    ensures { OnOk result (string_bytes text.new ≡ string_bytes text.old ++ flat_map byte_words bytes.now) }
{
    for byte in bytes {
        add_byte(text, *byte)?;
    }
    Ok(())
}

/// Adds bytes between quotes.
#[tactic(auto, unfolding(crate::specs::Format::Texts::quoted_words))]
pub(crate) fn add_quoted(text: &mut String, bytes: &[u8]) -> Result<(), AllocError>
    ensures { OnOk result (string_bytes text.new ≡ string_bytes text.old ++ quoted_words bytes.now) }
{
    text.push('"')?;
    add_bytes(text, bytes)?;
    text.push('"')
}

/// Adds how many spaces there are.
#[tactic(auto, unfolding(crate::specs::Format::Texts::space_words))]
fn add_spaces(text: &mut String, count: usize) -> Result<(), AllocError>
    ensures { OnOk result (string_bytes text.new ≡ string_bytes text.old ++ space_words count) }
{
    if count == 1 {
        text.push_str("1 space")
    } else {
        write!(text, "{count} spaces")
    }
}

/// Adds how many spaces fill up a cell, if some do.
#[tactic(auto, unfolding(crate::specs::Format::Texts::filling_words))]
fn add_filling(text: &mut String, count: usize) -> Result<(), AllocError>
    ensures { OnOk result (string_bytes text.new ≡ string_bytes text.old ++ filling_words count) }
{
    if count == 0 {
        return Ok(());
    }
    text.push_str(" and ")?;
    add_spaces(text, count)
}

/// Adds a cell: what stands in it between quotes, and how many spaces fill it up.
#[tactic(auto, unfolding(crate::specs::Format::Texts::cell_words))]
pub(crate) fn add_cell(text: &mut String, cell: &[u8]) -> Result<(), AllocError>
    ensures { OnOk result (string_bytes text.new ≡ string_bytes text.old ++ cell_words cell.now) }
{
    if is_spaces(cell) {
        return add_spaces(text, cell.len());
    }
    let shown = trimmed(cell);
    add_quoted(text, shown)?;
    add_filling(text, cell.len().saturating_sub(shown.len()))
}

/// Adds what a text begins with.
#[tactic(auto, unfolding(crate::specs::Format::Texts::beginning_words))]
pub(crate) fn add_beginning(text: &mut String, bytes: &[u8]) -> Result<(), AllocError>
    ensures { OnOk result (string_bytes text.new ≡ string_bytes text.old ++ beginning_words bytes.now) }
{
    if bytes.len() <= MOST_SHOWN {
        return add_quoted(text, bytes);
    }
    add_quoted(text, &bytes[..MOST_SHOWN])?;
    text.push_str(" and more")
}
