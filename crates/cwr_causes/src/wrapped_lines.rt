//! Lines that a mail program broke.

ghost use Rattle.std.specs.Prelude.{◌≡◌, ◌++◌, option_map, string_bytes, if◌then◌else◌, [], OnOk};
ghost use Rattle.cwr_fields.specs.Steps.Views.{field_view};
ghost use Rattle.cwr_lines.specs.Format.Lines.{without_cr};
ghost use Rattle.cwr_causes.specs.Format.WrappedLines.{broken_at, broken_before, broken_before_if, broken_before_line, broken_here_line, ends_soft};
ghost use Rattle.cwr_causes.specs.Format.WrappedLines.{foreign_line, cut_here_line, is_cut, is_full, is_mail_wide, is_strange, may_go_on, short_before_line, soft_line, strangers_line, unfinished_line};

use crate::openings::opening_of;
use crate::sequences::numbers_in;
use crate::texts::add_label;
use crate::truncated_words::kind_of;
use cwr_fields::{Field, Kind, width};
use std::alloc::AllocError;
use std::fmt::Write;

/// The line without a carriage return at its end.
pub(crate) fn without_cr(line: &[u8]) -> &[u8]
    ensures { result.now ≡ without_cr line.now }
{
    if line.ends_with(b"\r") {
        &line[..line.len() - 1]
    } else {
        line
    }
}

/// Whether a line has as many bytes as lines that mail programs break.
fn is_mail_wide(line: &[u8]) -> bool
    ensures { result ≡ is_mail_wide line.now }
{
    line.len() >= 70 && line.len() <= 80
}

/// Whether it has all bytes of a line of its kind.
pub(crate) fn is_full(kind: Option<Kind>, line: &[u8]) -> bool
    ensures { result ≡ is_full kind line.now }
{
    match kind {
        Some(kind) => line.len() >= width(kind),
        None => false,
    }
}

/// Whether its last byte is the one with which quoted-printable text goes on.
fn ends_soft(line: &[u8]) -> bool
    ensures { result ≡ ends_soft line.now }
{
    &line[line.len().saturating_sub(1)..] == b"=".as_slice()
}

/// Adds that a line goes on in quoted-printable text.
#[tactic(auto, unfolding(crate::specs::Format::WrappedLines::soft_line))]
fn add_soft(text: &mut String) -> Result<(), AllocError>
    ensures { OnOk result (string_bytes text.new ≡ string_bytes text.old ++ soft_line) }
{
    add_label(text, "note")?;
    text.push_str(
        "a line ends with = here, as lines of quoted-printable text do, in which mails carry files: decode it\n",
    )
}

/// Adds that the line before, of so many bytes, may have been broken.
#[tactic(auto, unfolding(crate::specs::Format::WrappedLines::broken_before_line))]
fn add_broken_before_line(text: &mut String, count: usize) -> Result<(), AllocError>
    ensures { OnOk result (string_bytes text.new ≡ string_bytes text.old ++ broken_before_line count) }
{
    add_label(text, "note")?;
    writeln!(
        text,
        "the line before it has {count} bytes, as lines have that mail programs break: if this one goes on with it, put both together; if no line is longer and none goes on, all were cut there, and the rest is lost"
    )
}

/// Adds that the line, of so many bytes, may have been broken.
#[tactic(auto, unfolding(crate::specs::Format::WrappedLines::broken_here_line))]
fn add_broken_here_line(text: &mut String, count: usize) -> Result<(), AllocError>
    ensures { OnOk result (string_bytes text.new ≡ string_bytes text.old ++ broken_here_line count) }
{
    add_label(text, "note")?;
    writeln!(
        text,
        "the line has {count} bytes, as lines have that mail programs break: if the next one goes on with it, put both together; if no line is longer and none goes on, all were cut there, and the rest is lost"
    )
}

/// Adds that the line ends after so many bytes.
#[tactic(auto, unfolding(crate::specs::Format::WrappedLines::cut_here_line))]
fn add_cut_here_line(text: &mut String, count: usize) -> Result<(), AllocError>
    ensures { OnOk result (string_bytes text.new ≡ string_bytes text.old ++ cut_here_line count) }
{
    add_label(text, "note")?;
    writeln!(
        text,
        "the line ends after byte {count}: if the next one goes on with it, put both together; if no line is longer, all were cut there, and the rest is lost"
    )
}

/// Adds that the line before is short.
#[tactic(auto, unfolding(crate::specs::Format::WrappedLines::short_before_line))]
fn add_short_before(text: &mut String) -> Result<(), AllocError>
    ensures { OnOk result (string_bytes text.new ≡ string_bytes text.old ++ short_before_line) }
{
    add_label(text, "note")?;
    text.push_str(
        "the line before it is shorter than lines of its kind: if this one goes on with it, put both together; if it was put in, as a heading or a comment, remove it\n",
    )
}

/// Adds that nothing in a line is of a record.
#[tactic(auto, unfolding(crate::specs::Format::WrappedLines::foreign_line))]
fn add_foreign(text: &mut String) -> Result<(), AllocError>
    ensures { OnOk result (string_bytes text.new ≡ string_bytes text.old ++ foreign_line) }
{
    add_label(text, "note")?;
    text.push_str(
        "nothing in this line is of a record: if it was put in, as a heading or a comment, remove it\n",
    )
}

/// Adds the same where the line may go on with the one before it, or is of nothing.
fn add_foreign_if(text: &mut String, goes_on: bool) -> Result<(), AllocError>
    ensures { OnOk result (string_bytes text.new ≡ string_bytes text.old
        ++ (if goes_on then foreign_line else [])) }
{
    if goes_on { add_foreign(text) } else { Ok(()) }
}

/// Adds that two lines begin with no record type.
#[tactic(auto, unfolding(crate::specs::Format::WrappedLines::strangers_line))]
fn add_strangers(text: &mut String) -> Result<(), AllocError>
    ensures { OnOk result (string_bytes text.new ≡ string_bytes text.old ++ strangers_line) }
{
    add_label(text, "note")?;
    text.push_str(
        "neither this line nor the one before it begins with a record type: if most lines are so, something was done to the whole file: take it as it was before that; remove only lines that were put in\n",
    )
}

/// Adds that a line may go on with the one before it, of that kind, which is no full one.
fn add_unfinished(text: &mut String, kind: Option<Kind>) -> Result<(), AllocError>
    ensures { OnOk result (string_bytes text.new ≡ string_bytes text.old ++ unfinished_line kind) }
{
    match kind {
        Some(_) => add_short_before(text),
        None => add_strangers(text),
    }
}

/// Whether a line that names no record may go on with the one before: it has no sequences and looks like nothing else.
pub(crate) fn may_go_on(line: &[u8]) -> bool
    ensures { result ≡ may_go_on line.now }
{
    numbers_in(line).is_none() && opening_of(line).is_other()
}

/// Whether it names no record, and looks like something else: a line in base64, say.
fn is_strange(line: &[u8]) -> bool
    ensures { result ≡ is_strange line.now }
{
    kind_of(line).is_none() && !opening_of(line).is_other()
}

/// Adds what the line before shows, with which this one may go on or not.
fn add_broken(text: &mut String, before: &[u8], goes_on: bool) -> Result<(), AllocError>
    ensures { OnOk result (string_bytes text.new ≡ string_bytes text.old ++ broken_before goes_on before.now) }
{
    let kind = kind_of(before);
    if ends_soft(before) {
        add_soft(text)
    } else if is_strange(before) {
        Ok(())
    } else if is_full(kind, before) {
        add_foreign_if(text, goes_on)
    } else if is_mail_wide(before) {
        add_broken_before_line(text, before.len())
    } else if goes_on {
        add_unfinished(text, kind)
    } else {
        Ok(())
    }
}

/// The same, where that is held.
pub(crate) fn add_broken_before(
    text: &mut String,
    before: Option<&[u8]>,
    goes_on: bool,
) -> Result<(), AllocError>
    ensures { OnOk result (string_bytes text.new ≡ string_bytes text.old
        ++ broken_before_if goes_on (option_map (λ b. b.now) before.entry)) }
{
    match before {
        Some(before) => add_broken(text, without_cr(before), goes_on),
        None => Ok(()),
    }
}

/// Whether the refused field doesn't stand whole in the line.
pub(crate) fn is_cut(refused: Option<Field>, line: &[u8]) -> bool
    ensures { result ≡ is_cut (option_map field_view refused) line.now }
{
    match refused {
        Some(refused) => line.len() < refused.start.saturating_add(refused.width),
        None => false,
    }
}

/// Adds what a line shows in which the refused field doesn't stand whole.
fn add_broken_at(text: &mut String, refused: Option<Field>, line: &[u8]) -> Result<(), AllocError>
    ensures { OnOk result (string_bytes text.new ≡ string_bytes text.old
        ++ broken_at (option_map field_view refused) line.now) }
{
    if !is_cut(refused, line) {
        Ok(())
    } else if ends_soft(line) {
        add_soft(text)
    } else if is_mail_wide(line) {
        add_broken_here_line(text, line.len())
    } else {
        add_cut_here_line(text, line.len())
    }
}

/// The same, where its line feed was read.
pub(crate) fn add_broken_here(
    text: &mut String,
    ended: bool,
    refused: Option<Field>,
    line: &[u8],
) -> Result<(), AllocError>
    ensures { OnOk result (string_bytes text.new ≡ string_bytes text.old
        ++ (if ended then broken_at (option_map field_view refused) line.now else [])) }
{
    if ended {
        add_broken_at(text, refused, line)
    } else {
        Ok(())
    }
}
