//! Why lines of JSON aren't written as a transmission.

ghost use Rattle.std.specs.Prelude.{◌≡◌, flat_map, None};
ghost use Rattle.cwr_devices.specs.Steps.Pens.{Adds};
ghost use Rattle.cwr_write.specs.Format.Faults.{IsOfLine, TellsKey};
ghost use Rattle.cwr_write.specs.Format.OutcomeTexts.{colon_if, fault_words, field_key, key_in, key_words, kind_words, printable_byte, quoted_key};
ghost use Rattle.cwr_write.specs.Format.OutcomeTexts.{line_words, record_words, refused_text, shown_byte, where_words, why_words};

use crate::hints::Lack;
use arrayvec::ArrayVec;
use cwr_devices::{Pen, Target};
use cwr_fields::{CellFault, Kind, field, letters};
use cwr_json::key_of;
use cwr_shape::LimitKind;

/// The most bytes that are shown of a key.
const LONGEST_KEY: usize = 40;

/// Of which key a fault speaks.
#[derive(Clone, Debug, Drop)]
pub enum Key {
    /// Of none.
    None,
    /// Of the field of that number.
    Field(u8),
    /// Of this text, whose first bytes these are.
    Text(ArrayVec<u8, LONGEST_KEY>),
}

/// Why a line isn't taken: the first of these that holds.
#[derive(Clone, Copy, Debug)]
pub enum Why {
    /// It isn't JSON.
    NotJson,
    /// An object is wanted.
    NotAnObject,
    /// No field has this key.
    UnknownKey,
    /// The key stands twice in its object.
    Repeated,
    /// The key is wanted.
    Missing,
    /// A list is wanted.
    NotAList,
    /// The list is empty.
    Empty,
    /// A text in quotes is wanted.
    NotText,
    /// It names no kind of record.
    UnknownKind,
    /// The field is computed.
    Computed,
    /// The text has a character that is no byte: in ISO 8859-1 one from U+0100 on, and beside the escapes of bytes one from U+0080 on.
    NotAByte,
    /// The text is wider than the field.
    TooWide,
    /// The cell isn't one of its field's type.
    Cell(CellFault),
    /// The record can't stand there in its transaction.
    Misplaced,
    /// The record stands alone in its item.
    Alone,
    /// The item can't come there in its transmission.
    OutOfOrder,
    /// The transaction isn't of its group's type.
    WrongKind,
    /// The transaction isn't whole, its group has none, or the transmission has no group: this is missing.
    Incomplete(Lack),
    /// The limit would be passed.
    Limit(LimitKind),
    /// The line has more bytes than it may have.
    TooLong,
}

/// Where in a line, and why it isn't taken.
#[derive(Clone, Debug, Drop)]
pub struct LineFault {
    /// The record in its line, from 1; 0 for the line.
    pub record: u32,
    /// The record's kind, once it is known.
    pub kind: Option<Kind>,
    /// The key.
    pub key: Key,
    /// Why.
    pub why: Why,
}

/// The first line that isn't taken.
#[derive(Clone, Debug, Drop)]
pub struct Refusal {
    /// The line, from 1.
    pub line: u64,
    /// Where in it, and why.
    pub fault: LineFault,
}

/// A fault of the whole line.
pub(crate) fn of_line(why: Why) -> LineFault
    ensures why { result.why ≡ why }
    ensures line { IsOfLine result }
{
    LineFault {
        record: 0,
        kind: None,
        key: Key::None,
        why,
    }
}

/// A fault of a key of the line.
pub(crate) fn of_key(key: &str, why: Why) -> LineFault
    ensures why { result.why ≡ why }
    ensures record { result.record ≡ 0 }
    ensures kind { result.kind ≡ None }
    ensures key { TellsKey result.key key.now }
{
    LineFault {
        record: 0,
        kind: None,
        key: text_key(key),
        why,
    }
}

/// The first bytes of a key.
pub(crate) fn text_key(key: &str) -> Key
    ensures { TellsKey result key.now }
{
    let bytes = key.as_bytes();
    let mut text = ArrayVec::new();
    let count = bytes.len().min(LONGEST_KEY);
    let _fits = text.try_extend_from_slice(&bytes[..count]);
    Key::Text(text)
}

/// The words for a reason.
fn words(why: &Why) -> &'static [u8]
    ensures { result.now ≡ why_words why.now }
{
    match why {
        Why::NotJson => b"not JSON",
        Why::NotAnObject => b"not an object",
        Why::UnknownKey => b"unknown key",
        Why::Repeated => b"stands twice",
        Why::Missing => b"missing",
        Why::NotAList => b"not a list",
        Why::Empty => b"empty",
        Why::NotText => b"not text",
        Why::UnknownKind => b"no record type of this profile",
        Why::Computed => b"computed, leave it out",
        Why::NotAByte => b"a character that is no byte",
        Why::TooWide => b"wider than the field",
        Why::Cell(fault) => fault.words().as_bytes(),
        Why::Misplaced => b"misplaced",
        Why::Alone => b"must stand alone in its line",
        Why::OutOfOrder => b"out of order",
        Why::WrongKind => b"of the wrong kind",
        Why::Incomplete(_) => b"incomplete",
        Why::Limit(LimitKind::Records) => b"limit records",
        Why::Limit(LimitKind::Groups) => b"limit groups",
        Why::Limit(LimitKind::Transaction) => b"limit transaction",
        Why::TooLong => b"limit line",
    }
}

/// Adds a byte as it is where it is printable, and else by its number.
fn printable_byte<W: Target>(b: u8, pen: &mut Pen<'_, W>)
    ensures { Adds W.contents W.failures (printable_byte b) pen.old pen.new }
{
    if 32 <= b && b < 127 {
        pen.text(&[b]);
        return;
    }
    let digits = b"0123456789abcdef";
    pen.text(&[
        b'\\',
        b'x',
        digits[usize::from(b / 16)],
        digits[usize::from(b % 16)],
    ]);
}

/// Adds a byte so that it can be shown.
fn shown_byte<W: Target>(b: u8, pen: &mut Pen<'_, W>)
    ensures { Adds W.contents W.failures (shown_byte b) pen.old pen.new }
{
    match b {
        b'\t' => pen.text(b"\\t"),
        b'\n' => pen.text(b"\\n"),
        b'\r' => pen.text(b"\\r"),
        b'"' => pen.text(b"\\\""),
        b'\'' => pen.text(b"\\'"),
        b'\\' => pen.text(b"\\\\"),
        _ => printable_byte(b, pen),
    }
}

/// Adds bytes so that they can be shown.
fn shown_bytes<W: Target>(text: &[u8], pen: &mut Pen<'_, W>)
    ensures { Adds W.contents W.failures (flat_map shown_byte text.now) pen.old pen.new }
{
    for b in text {
        shown_byte(*b, pen);
    }
}

/// Adds the first bytes of a key, in quotes.
fn quoted_key<W: Target>(text: &[u8], pen: &mut Pen<'_, W>)
    ensures { Adds W.contents W.failures (quoted_key text.now) pen.old pen.new }
{
    pen.text(b" \"");
    shown_bytes(text, pen);
    pen.text(b"\"");
}

/// Adds the key of field `j`.
fn field_key<W: Target>(kind: Kind, j: u8, pen: &mut Pen<'_, W>)
    ensures { Adds W.contents W.failures (field_key kind j) pen.old pen.new }
{
    match field(kind, j) {
        Some(place) => key_of(place.name.as_bytes(), pen),
        None => {}
    }
}

/// Adds the number of a record in its line, where it has one.
fn record_words<W: Target>(number: u32, pen: &mut Pen<'_, W>)
    ensures { Adds W.contents W.failures (record_words number) pen.old pen.new }
{
    if number > 0 {
        pen.text(b" record ");
        pen.number(number as u64);
    }
}

/// Adds a kind, where it is known.
fn kind_words<W: Target>(kind: Option<Kind>, pen: &mut Pen<'_, W>)
    ensures { Adds W.contents W.failures (kind_words kind) pen.old pen.new }
{
    match kind {
        Some(kind) => {
            pen.text(b" ");
            pen.text(letters(kind));
        }
        None => {}
    }
}

/// Adds the key of a record's field; before its kind is known that is the one of its kind.
fn key_in<W: Target>(kind: Option<Kind>, j: u8, pen: &mut Pen<'_, W>)
    ensures { Adds W.contents W.failures (key_in kind j) pen.old pen.new }
{
    match kind {
        Some(kind) => field_key(kind, j, pen),
        None => pen.text(b"record_type"),
    }
}

/// Adds a colon before what is said of the whole line.
fn colon_if<W: Target>(is_line: bool, pen: &mut Pen<'_, W>)
    ensures { Adds W.contents W.failures (colon_if is_line) pen.old pen.new }
{
    match is_line {
        true => pen.text(b":"),
        false => {}
    }
}

impl LineFault {
    /// Adds the key.
    fn key_words<W: Target>(&self, pen: &mut Pen<'_, W>)
        ensures { Adds W.contents W.failures
            (key_words self.now.kind self.now.«record» self.now.key) pen.old pen.new }
    {
        match &self.key {
            Key::None => {}
            Key::Field(j) => {
                pen.text(b" ");
                key_in(self.kind, *j, pen);
            }
            Key::Text(text) => {
                colon_if(self.record == 0, pen);
                quoted_key(text.as_slice(), pen);
            }
        }
    }

    /// Adds where in its line it is.
    fn where_words<W: Target>(&self, pen: &mut Pen<'_, W>)
        ensures { Adds W.contents W.failures (where_words self.now) pen.old pen.new }
    {
        record_words(self.record, pen);
        kind_words(self.kind, pen);
        self.key_words(pen);
    }

    /// Adds where in its line it is, and why.
    fn fault_words<W: Target>(&self, pen: &mut Pen<'_, W>)
        ensures { Adds W.contents W.failures (fault_words self.now) pen.old pen.new }
    {
        self.where_words(pen);
        pen.text(b": ");
        pen.text(words(&self.why));
    }
}

/// Adds the number of a line that is refused.
fn line_words<W: Target>(line: u64, pen: &mut Pen<'_, W>)
    ensures { Adds W.contents W.failures (line_words line) pen.old pen.new }
{
    pen.text(b"REFUSED line ");
    pen.number(line);
}

impl Refusal {
    /// Adds the line that says it.
    pub(crate) fn refused_text<W: Target>(&self, pen: &mut Pen<'_, W>)
        ensures { Adds W.contents W.failures (refused_text self.now) pen.old pen.new }
    {
        line_words(self.line, pen);
        self.fault.fault_words(pen);
        pen.text(b"\n");
    }
}
