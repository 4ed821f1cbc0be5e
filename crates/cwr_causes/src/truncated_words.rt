//! What is said of an input that ends too early.

ghost use Rattle.std.specs.Prelude.{◌≡◌, ◌++◌, string_bytes, OnOk};
ghost use Rattle.cwr_causes.specs.Format.Refusals.{first_kind};
ghost use Rattle.cwr_causes.specs.Format.TruncatedTexts.{cut_off_line, cut_off_words, end_words, last_cut_off_words, last_words, rest_line, rest_words};
ghost use Rattle.cwr_causes.specs.Format.TruncatedTexts.{whole_width};
ghost use Rattle.cwr_causes.specs.Steps.Refused.{ExplainsEnd};

use crate::coming_words::add_coming;
use crate::expected::letters_of;
use crate::lines_at_end::{LineAtEnd, line_at_end};
use crate::texts::add_label;
use cwr_decode::LastRead;
use cwr_fields::{Kind, width};
use std::alloc::{AllocError, Global};
use std::fmt::Write;

/// How many bytes a whole line of the kind has, or its letters where it names none.
fn whole_width(kind: Option<Kind>) -> usize
    ensures { result ≡ whole_width kind }
{
    match kind {
        Some(kind) => width(kind),
        None => 3,
    }
}

/// Adds that a last line has no line end, and so many bytes of so many.
#[tactic(auto, unfolding(crate::specs::Format::TruncatedTexts::cut_off_line))]
fn add_cut_off_line(text: &mut String, count: usize, whole: usize) -> Result<(), AllocError>
    ensures { OnOk result (string_bytes text.new ≡ string_bytes text.old ++ cut_off_line count whole) }
{
    add_label(text, "note")?;
    writeln!(
        text,
        "the last line has no line end and {count} of {whole} bytes: the file may have been cut off"
    )
}

/// Adds the same of a line that may have been cut off.
pub(crate) fn add_cut_off(
    text: &mut String,
    line: &LineAtEnd<'_>,
    kind: Option<Kind>,
) -> Result<(), AllocError>
    ensures { OnOk result (string_bytes text.new ≡ string_bytes text.old
        ++ cut_off_words line.now.bytes.now line.now.ended kind) }
{
    let whole = whole_width(kind);
    let count = line.bytes.len();
    if line.ended || whole <= count {
        Ok(())
    } else {
        add_cut_off_line(text, count, whole)
    }
}

/// The kind of a line.
pub(crate) fn kind_of(bytes: &[u8]) -> Option<Kind>
    ensures { result ≡ first_kind bytes.now }
{
    match bytes {
        [a, b, c, ..] => Kind::of(&[*a, *b, *c]),
        _ => None,
    }
}

/// Adds where an input ends: after a record of the kind, if there is one, and after so many bytes.
#[tactic(auto, unfolding(crate::specs::Format::TruncatedTexts::end_words))]
fn add_end(
    text: &mut String,
    name: &str,
    kind: Option<Kind>,
    records: u32,
    bytes: u64,
) -> Result<(), AllocError>
    ensures { OnOk result (string_bytes text.new ≡ string_bytes text.old
        ++ end_words name.now kind records bytes) }
{
    add_label(text, "where")?;
    match kind {
        Some(kind) if records > 0 => add_last(text, name, letters_of(kind), records, bytes),
        _ => writeln!(text, "{name}: the file is empty"),
    }
}

/// Adds after which record, by its letters, and how many bytes an input ends.
#[tactic(auto, unfolding(crate::specs::Format::TruncatedTexts::last_words))]
fn add_last(
    text: &mut String,
    name: &str,
    letters: &str,
    records: u32,
    bytes: u64,
) -> Result<(), AllocError>
    ensures { OnOk result (string_bytes text.new ≡ string_bytes text.old
        ++ last_words name.now letters.now records bytes) }
{
    writeln!(
        text,
        "{name}, after line {records}, {letters}: the file ends there, after byte {bytes}"
    )
}

/// Adds that the last line may have been cut off, where there is one.
fn add_last_cut_off(
    text: &mut String,
    records: u32,
    line: &LineAtEnd<'_>,
    kind: Option<Kind>,
) -> Result<(), AllocError>
    ensures { OnOk result (string_bytes text.new ≡ string_bytes text.old
        ++ last_cut_off_words records line.now.bytes.now line.now.ended kind) }
{
    if records == 0 {
        Ok(())
    } else {
        add_cut_off(text, line, kind)
    }
}

/// Adds that what stood after the last line is missing.
#[tactic(auto, unfolding(crate::specs::Format::TruncatedTexts::rest_line))]
fn add_rest_line(text: &mut String) -> Result<(), AllocError>
    ensures { OnOk result (string_bytes text.new ≡ string_bytes text.old ++ rest_line) }
{
    add_label(text, "note")?;
    text.push_str(
        "what stood after that is missing, and works may have been in it: get the file again, and whole\n",
    )
}

/// Adds the same, where there is a line.
fn add_rest(text: &mut String, records: u32) -> Result<(), AllocError>
    ensures { OnOk result (string_bytes text.new ≡ string_bytes text.old ++ rest_words records) }
{
    if records == 0 {
        Ok(())
    } else {
        add_rest_line(text)
    }
}

/// Adds what is said of an input that ends too early.
pub fn add_truncated(
    alloc: Global,
    text: &mut String,
    name: &str,
    records: u32,
    last: &LastRead,
) -> Result<(), AllocError>
    ensures { OnOk result (ExplainsEnd name.now records last.now (string_bytes text.old)
        (string_bytes text.new)) }
{
    let line = line_at_end(&last.bytes);
    let kind = kind_of(line.bytes);
    add_end(text, name, kind, records, last.bytes.read())?;
    add_coming(alloc, text, last.stage)?;
    add_last_cut_off(text, records, &line, kind)?;
    add_rest(text, records)
}
