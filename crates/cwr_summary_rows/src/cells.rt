//! The cells of a row. The name of each is given in two parts.

ghost use Rattle.std.specs.Prelude.{◌≡◌, ◌++◌, ◌-◌, ◌≤◌, Option, Some, length, option_map, replicate};
ghost use Rattle.hex.specs.Hex.{encode_lower};
ghost use Rattle.cwr_devices.specs.Steps.Pens.{Adds};
ghost use Rattle.cwr_summary_rows.specs.Format.Cells.{blank, bytes_cell, digest_cell, end, in_quotes, margin, number_cell, percent, share_cell, start, told};

use crate::forms::Form;
use cwr_devices::{Pen, Target};
use cwr_json::{Encoding, escaped_characters};
use cwr_tables::next_characters;
use hex::encode_to_slice;

/// How far from the left a value stands in words.
const MARGIN: usize = 23;

/// Spaces up to there, behind the two before a name.
const SPACES: [u8; 21] = [b' '; 21];

/// The spaces between a name of that length and a value in words.
fn padding(length: usize) -> &'static [u8]
    ensures { result.now ≡ replicate (margin - 2 - length) 32 }
{
    &SPACES[length.min(MARGIN - 2)..]
}

/// Adds what stands before a value.
fn start<W: Target>(form: Form, front: &[u8], back: &[u8], pen: &mut Pen<'_, W>)
    ensures { Adds W.contents W.failures (start form (front.now ++ back.now)) pen.old pen.new }
{
    match form {
        Form::Names => {
            pen.text(b",");
            pen.text(front);
            pen.text(back);
        }
        Form::Words => {
            pen.text(b"  ");
            pen.text(front);
            pen.text(back);
            pen.text(padding(front.len().saturating_add(back.len())));
        }
        Form::Csv => pen.text(b","),
        Form::Json => {
            pen.text(b",\"");
            pen.text(front);
            pen.text(back);
            pen.text(b"\":");
        }
    }
}

/// Adds what stands behind a value.
fn end<W: Target>(form: Form, pen: &mut Pen<'_, W>)
    ensures { Adds W.contents W.failures (end form) pen.old pen.new }
{
    if let Form::Words = form {
        pen.text(b"\n");
    }
}

/// Adds a cell without a value.
fn blank<W: Target>(form: Form, front: &[u8], back: &[u8], pen: &mut Pen<'_, W>)
    ensures { Adds W.contents W.failures (blank form (front.now ++ back.now)) pen.old pen.new }
{
    match form {
        Form::Names | Form::Csv => start(form, front, back, pen),
        Form::Words => {}
        Form::Json => {
            start(form, front, back, pen);
            pen.text(b"null");
        }
    }
}

/// The number, where it is told.
fn told(form: Form, number: Option<u64>) -> Option<u64>
    ensures { result ≡ told form number }
{
    match (form, number) {
        (Form::Words, Some(0)) => None,
        _ => number,
    }
}

/// Adds a number.
pub(crate) fn number_cell<W: Target>(
    form: Form,
    front: &[u8],
    back: &[u8],
    number: Option<u64>,
    pen: &mut Pen<'_, W>,
)
    ensures { Adds W.contents W.failures (number_cell form (front.now ++ back.now) number) pen.old pen.new }
{
    match told(form, number) {
        Some(number) => {
            start(form, front, back, pen);
            pen.number(number);
            end(form, pen);
        }
        None => blank(form, front, back, pen),
    }
}

/// Adds hundredths of a percent as percent.
fn percent<W: Target>(share: u64, pen: &mut Pen<'_, W>)
    ensures { Adds W.contents W.failures (percent share) pen.old pen.new }
{
    pen.number(share / 100);
    pen.text(b".");
    pen.text(&[b'0' + (share / 10 % 10) as u8, b'0' + (share % 10) as u8]);
}

/// Adds a sum of shares, in hundredths of a percent.
pub(crate) fn share_cell<W: Target>(
    form: Form,
    front: &[u8],
    back: &[u8],
    share: Option<u64>,
    pen: &mut Pen<'_, W>,
)
    ensures { Adds W.contents W.failures (share_cell form (front.now ++ back.now) share) pen.old pen.new }
{
    match told(form, share) {
        Some(share) => {
            start(form, front, back, pen);
            percent(share, pen);
            end(form, pen);
        }
        None => blank(form, front, back, pen),
    }
}

/// Adds bytes of a transmission, or of a line.
pub(crate) fn bytes_cell<W: Target>(form: Form, name: &[u8], text: &[u8], pen: &mut Pen<'_, W>)
    ensures { Adds W.contents W.failures (bytes_cell form name.now text.now) pen.old pen.new }
{
    if text.is_empty() {
        blank(form, name, b"", pen);
        return;
    }
    match form {
        Form::Names | Form::Words => {
            start(form, name, b"", pen);
            pen.text(text);
            end(form, pen);
        }
        Form::Csv => next_characters(Encoding::Latin1, text, pen),
        Form::Json => {
            start(form, name, b"", pen);
            pen.text(b"\"");
            escaped_characters(Encoding::Latin1, text, pen);
            pen.text(b"\"");
        }
    }
}

/// A digest in hexadecimal digits.
fn digits(digest: &[u8; 32]) -> [u8; 64]
    ensures { result ≡ encode_lower digest.now }
{
    let mut text = [b'0'; 64];
    let _fits = encode_to_slice(digest.as_slice(), text.as_mut_slice());
    text
}

/// Adds a text that is between quotes in JSON.
fn in_quotes<W: Target>(form: Form, text: &[u8], pen: &mut Pen<'_, W>)
    ensures { Adds W.contents W.failures (in_quotes form text.now) pen.old pen.new }
{
    if let Form::Json = form {
        pen.text(b"\"");
        pen.text(text);
        pen.text(b"\"");
    } else {
        pen.text(text);
    }
}

/// Adds a digest.
pub(crate) fn digest_cell<W: Target>(
    form: Form,
    name: &[u8],
    digest: Option<[u8; 32]>,
    pen: &mut Pen<'_, W>,
)
    ensures { Adds W.contents W.failures (digest_cell form name.now digest) pen.old pen.new }
{
    match digest {
        Some(digest) => {
            start(form, name, b"", pen);
            in_quotes(form, &digits(&digest), pen);
            end(form, pen);
        }
        None => blank(form, name, b"", pen),
    }
}
