//! The text of a record.

ghost use Rattle.std.specs.Prelude.{◌≡◌};
ghost use Rattle.cwr_devices.specs.Steps.Pens.{Adds};
ghost use Rattle.cwr_fields.specs.Steps.Views.{field_view};
ghost use Rattle.cwr_json.specs.Format.Forms.{key_byte, key_of};
ghost use Rattle.cwr_json.specs.Steps.FormTexts.{field_member, head_text, member_text, member_texts, record_text};

use crate::encodings::Encoding;
use crate::spelling::escaped_characters;
use cwr_devices::{Pen, Target};
use cwr_fields::{Field, Kind, is_spaces, letters, trimmed};
use cwr_lines::RecordRef;

/// A byte of a key.
#[inline(always)]
fn key_byte(b: u8) -> u8
    ensures { result ≡ key_byte b }
{
    if b == b' ' || b == b'-' { b'_' } else { b }
}

/// Adds the key of a field's name.
#[inline(always)]
pub fn key_of<W: Target>(name: &[u8], pen: &mut Pen<'_, W>)
    ensures { Adds W.contents W.failures (key_of name.now) pen.old pen.new }
{
    for b in name {
        pen.text(&[key_byte(*b)]);
    }
}

/// Adds a cell as a member after others, unless it is blank.
#[inline(always)]
fn member_text<W: Target>(encoding: Encoding, place: &Field, cell: &[u8], pen: &mut Pen<'_, W>)
    ensures { Adds W.contents W.failures (member_text encoding (field_view place.now).1 cell.now)
        pen.old pen.new }
{
    if is_spaces(cell) {
        return;
    }
    pen.text(b",\"");
    key_of(place.name.as_bytes(), pen);
    pen.text(b"\":\"");
    escaped_characters(encoding, trimmed(cell), pen);
    pen.text(b"\"");
}

/// Adds the member of field `j`, if the record, which is of the kind, carries that.
#[inline(always)]
fn field_member<W: Target>(
    encoding: Encoding,
    kind: Kind,
    shown: &RecordRef<'_>,
    j: u8,
    pen: &mut Pen<'_, W>,
)
    requires { kind ≡ shown.now.kind }
    ensures { Adds W.contents W.failures (field_member encoding shown.now j) pen.old pen.new }
{
    let Some((place, cell)) = shown.carried_cell(kind, j) else {
        return;
    };
    member_text(encoding, &place, cell, pen);
}

/// Adds the members of the cells that the record carries: blank ones have none.
#[inline(always)]
fn member_texts<W: Target>(encoding: Encoding, shown: &RecordRef<'_>, pen: &mut Pen<'_, W>)
    ensures { Adds W.contents W.failures (member_texts encoding shown.now) pen.old pen.new }
{
    let kind = shown.kind();
    for before in 0..shown.filled_fields(kind) {
        field_member(encoding, kind, shown, before + 1, pen);
    }
}

/// Adds the first member of a record of the kind.
#[inline(always)]
fn head_text<W: Target>(kind: Kind, pen: &mut Pen<'_, W>)
    ensures { Adds W.contents W.failures (head_text kind) pen.old pen.new }
{
    pen.text(b"{\"record_type\":\"");
    pen.text(letters(kind));
    pen.text(b"\"");
}

/// Adds a record.
pub(crate) fn record_text<W: Target>(
    encoding: Encoding,
    shown: &RecordRef<'_>,
    pen: &mut Pen<'_, W>,
)
    ensures { Adds W.contents W.failures (record_text encoding shown.now) pen.old pen.new }
{
    head_text(shown.kind(), pen);
    member_texts(encoding, shown, pen);
    pen.text(b"}");
}
