//! Which other version of CWR a line names.

ghost use Rattle.std.specs.Prelude.{◌≡◌, ◌++◌, drop, option_map, string_bytes, Some, OnOk};
ghost use Rattle.cwr_causes.specs.Format.Openings.{first_version, group_version, header_version, later_version, third_version};
ghost use Rattle.cwr_causes.specs.Format.Openings.{moved_by, moved_text, moved_version_line, version_text};
ghost use Rattle.cwr_causes.specs.Format.Openings.{version_in, version_line, version_words};

use crate::texts::add_label;
use cwr_fields::{Kind, is_plain};
use std::alloc::AllocError;
use std::fmt::Write;

/// Where GRH has the version of its transactions: the first byte, from 0.
const GROUP_VERSION: usize = 11;

/// Where a header of 2.2 names its version: the first byte, from 0, after all fields of 2.1.
const HEADER_VERSION: usize = 101;

/// Where a header has its version, and from where on one of another version may name that: the first byte, from 0.
const LATE_IN_HEADER: usize = 59;

/// What a line has from a byte on, from 0.
pub(crate) fn from_byte(bytes: &[u8], at: usize) -> &[u8]
    ensures { result.now ≡ drop at bytes.now }
{
    &bytes[at.min(bytes.len())..]
}

/// The version of CWR whose transactions have the version with which a text begins.
fn group_version(text: &[u8]) -> Option<&'static str>
    ensures { option_map (λ version. version.now) result ≡ group_version text.now }
{
    if text.starts_with(b"02.00") {
        Some("2.0")
    } else if text.starts_with(b"02.20") {
        Some("2.2")
    } else if text.starts_with(b"03.00") {
        Some("3.0")
    } else if text.starts_with(b"03.10") {
        Some("3.1")
    } else {
        None
    }
}

/// The version of 3.0 and 3.1 with which a text begins.
fn third_version(text: &[u8]) -> Option<&'static str>
    ensures { option_map (λ version. version.now) result ≡ third_version text.now }
{
    if text.starts_with(b"3.0") {
        Some("3.0")
    } else if text.starts_with(b"3.1") {
        Some("3.1")
    } else {
        None
    }
}

/// The version of 2.2, 3.0 and 3.1 with which a text begins.
fn later_version(text: &[u8]) -> Option<&'static str>
    ensures { option_map (λ version. version.now) result ≡ later_version text.now }
{
    if text.starts_with(b"2.2") {
        Some("2.2")
    } else {
        third_version(text)
    }
}

/// The first of 3.0 and 3.1 in a text.
fn first_version(text: &[u8]) -> Option<&'static str>
    ensures { option_map (λ version. version.now) result ≡ first_version text.now }
{
    let mut rest = text;
    while let [_, behind @ ..] = rest {
        if let Some(version) = third_version(rest) {
            return Some(version);
        }
        rest = behind;
    }
    None
}

/// The version that a header names: at its place in 2.2, or anywhere late in it.
fn header_version(bytes: &[u8]) -> Option<&'static str>
    ensures { option_map (λ version. version.now) result ≡ header_version bytes.now }
{
    match later_version(from_byte(bytes, HEADER_VERSION)) {
        Some(version) => Some(version),
        None => first_version(from_byte(bytes, LATE_IN_HEADER)),
    }
}

/// The version of CWR that a line names, where it isn't 2.1.
fn version_in(kind: Kind, bytes: &[u8]) -> Option<&'static str>
    ensures { option_map (λ version. version.now) result ≡ version_in kind bytes.now }
{
    match kind {
        Kind::Hdr => header_version(bytes),
        Kind::Grh => group_version(from_byte(bytes, GROUP_VERSION)),
        _ => None,
    }
}

/// What a line has from the version of 2.1 on.
fn version_text(line: &[u8]) -> Option<&[u8]>
    ensures { option_map (λ text. text.now) result ≡ version_text line.now }
{
    let mut rest = line;
    while let [_, behind @ ..] = rest {
        if rest.starts_with(b"01.10") {
            return Some(rest);
        }
        rest = behind;
    }
    None
}

/// How many bytes that text, which begins with the version and ends the line, stands before the version's place in a header.
fn moved_text(line: &[u8], text: Option<&[u8]>) -> usize
    ensures { result ≡ moved_text line.now (option_map (λ t. t.now) text.entry) }
{
    match text {
        Some(text) => LATE_IN_HEADER.saturating_sub(line.len().saturating_sub(text.len())),
        None => 0,
    }
}

/// How many bytes the version stands before its place in a header in which no control characters are.
pub(crate) fn moved_by(kind: Option<Kind>, line: &[u8]) -> usize
    ensures { result ≡ moved_by kind line.now }
{
    match kind {
        Some(Kind::Hdr) if is_plain(line) => moved_text(line, version_text(line)),
        _ => 0,
    }
}

/// Adds that it begins with that byte, from 1.
#[tactic(auto, unfolding(crate::specs::Format::Openings::moved_version_line))]
pub(crate) fn add_moved_version(text: &mut String, first: usize) -> Result<(), AllocError>
    ensures { OnOk result (string_bytes text.new ≡ string_bytes text.old ++ moved_version_line first) }
{
    add_label(text, "note")?;
    writeln!(
        text,
        "01.10, the version, begins at byte {first} of the line, and its place is byte 60: blanks or letters were lost before it, and what stands behind has moved with it; take the file as it was before that"
    )
}

/// Adds that a line is one of that version of CWR.
#[tactic(auto, unfolding(crate::specs::Format::Openings::version_line))]
fn add_version_line(text: &mut String, version: &str) -> Result<(), AllocError>
    ensures { OnOk result (string_bytes text.new ≡ string_bytes text.old ++ version_line version.now) }
{
    add_label(text, "note")?;
    writeln!(
        text,
        "the line is one of CWR {version}, by the version that it names: this program reads CWR 2.1"
    )
}

/// Adds which other version of CWR a line of the kind names.
fn add_version_of(text: &mut String, kind: Kind, bytes: &[u8]) -> Result<(), AllocError>
    ensures { OnOk result (string_bytes text.new ≡ string_bytes text.old
        ++ version_words (Some kind) bytes.now) }
{
    match version_in(kind, bytes) {
        Some(version) => add_version_line(text, version),
        None => Ok(()),
    }
}

/// Adds which other version of CWR a line names.
pub(crate) fn add_version(
    text: &mut String,
    kind: Option<Kind>,
    bytes: &[u8],
) -> Result<(), AllocError>
    ensures { OnOk result (string_bytes text.new ≡ string_bytes text.old ++ version_words kind bytes.now) }
{
    match kind {
        Some(kind) => add_version_of(text, kind, bytes),
        None => Ok(()),
    }
}
