//! From the members of an object to a record.

ghost use Rattle.std.specs.Prelude.{◌≡◌, ◌&&◌, ◌++◌, ℕ, ◌<◌, ◌≤◌, List, Bool, true, false, if◌then◌else◌, length, take, Some, None, IfErr, IfOk, MatchOption};
ghost use Rattle.std.specs.Prelude.{OnErr, OnOk};
ghost use Rattle.std.specs.Str.{bytes_eq};
ghost use Rattle.json.specs.Json.{Members, no_members, string};
ghost use Rattle.json.specs.Value.{members_view, value_view};
ghost use Rattle.cwr_fields.specs.Format.Kinds.{letters};
ghost use Rattle.cwr_fields.specs.Format.Layouts.{FieldLayout, field_at};
ghost use Rattle.cwr_lines.specs.Format.Records.{IsRecord, RecordValue};
ghost use Rattle.cwr_lines.specs.Format.Carried.{Sets, carried_at};
ghost use Rattle.cwr_json.specs.declared.encodings.Encoding.{Encoding};
ghost use Rattle.cwr_json.specs.Format.Encodings.{StandFor, are_read_as_is, byte_by_byte, character};
ghost use Rattle.cwr_json.specs.Format.Forms.{IsDataOf, IsRecordData, first_of, is_note, kind_key, says, told};
ghost use Rattle.cwr_write.specs.Format.Faults.{AreBytes, IsKindReason, IsMemberReason, IsOfData, IsRecordReason, IsValueReason};
ghost use Rattle.cwr_write.specs.Steps.Filling.{FillsOn, FitsField, IsBytesReason, IsDraftReason, IsFilled, IsFirstByte, IsReasonOfFilled, IsTextOf, NoneFrom, OfFilled};
ghost use Rattle.cwr_write.specs.Steps.Filling.{joined, with_last, with_told};

use crate::keys::field_of_key;
use crate::refusals::{Key, LineFault, Why, text_key};
use arrayvec::ArrayVec;
use cwr_fields::{Kind, field};
use cwr_json::{Encoding, has_escape};
use cwr_lines::{Draft, DraftFault, Record, SetFault};
use json::Value;

/// The members of an object.
pub(crate) type MemberList<'a> = Vec<(&'a str, Value<'a>)>;

/// Whether a key is that of a note.
fn is_note(key: &[u8]) -> bool
    ensures { result ≡ is_note key.now }
{
    match key {
        [] => false,
        [first, ..] => *first == b'_',
    }
}

/// Whether a member says something: its value isn't null, and it is no note.
pub(crate) fn says(key: &str, value: &Value<'_>) -> bool
    ensures { result ≡ says key.now (value_view value.now) }
{
    !value.is_null() && !is_note(key.as_bytes())
}

/// Whether a member names the kind of its record.
fn names_kind(key: &str, value: &Value<'_>) -> bool
    ensures { result ≡ (says key.now (value_view value.now) && bytes_eq key.now kind_key) }
{
    says(key, value) && key == "record_type"
}

/// The kind that a value names.
fn kind_of(value: &Value<'_>) -> Result<Kind, Why>
    ensures ok { IfOk result (λ kind. value_view value.now ≡ string (letters kind)) }
    ensures err { OnErr result ((kind : Kind) → ¬ (value_view value.now ≡ string (letters kind))) }
    ensures why { IfErr result IsOfData }
    ensures reason { IfErr result (IsKindReason (Some (value_view value.now))) }
{
    let Some(text) = value.as_str() else {
        return Err(Why::NotText);
    };
    match Kind::of(text.as_bytes()) {
        Some(kind) => Ok(kind),
        None => Err(Why::UnknownKind),
    }
}

/// The kind that the first member which names one has.
fn kind_in(members: &MemberList<'_>) -> Result<Kind, Why>
    ensures ok { IfOk result (λ kind. first_of kind_key (told (members_view members.now.items))
        ≡ Some (string (letters kind))) }
    ensures err { OnErr result ((kind : Kind)
        → ¬ (first_of kind_key (told (members_view members.now.items))
        ≡ Some (string (letters kind)))) }
    ensures why { IfErr result IsOfData }
    ensures reason { IfErr result
        (IsKindReason (first_of kind_key (told (members_view members.now.items)))) }
{
    for member in members {
        if names_kind(member.0, &member.1) {
            return kind_of(&member.1);
        }
    }
    Err(Why::Missing)
}

/// The most bytes of a cell.
const WIDEST_CELL: usize = 700;

/// The bytes of a cell.
type Cell = ArrayVec<u8, WIDEST_CELL>;

/// The byte that the first character stands for in ISO 8859-1, and how many bytes that has. It is `None` where no character up to
/// U+00FF comes.
fn first_latin(text: &[u8]) -> Option<(u8, usize)>
    ensures { IsFirstByte Encoding.Latin1 text.now result }
{
    let first = *text.first()?;
    if first < 128 {
        return Some((first, 1));
    }
    let second = *text.get(1)?;
    if (first == 194 || first == 195) && second >= 128 && second < 192 {
        Some(((first - 192) * 64 + (second - 128), 2))
    } else {
        None
    }
}

/// The byte that the first character or escape stands for, and how many bytes that has. It is `None` where another one comes.
fn first_escaped(text: &[u8]) -> Option<(u8, usize)>
    ensures { IsFirstByte Encoding.Utf8 text.now result }
{
    let first = *text.first()?;
    if first < 128 {
        return Some((first, 1));
    }
    let second = *text.get(1)?;
    let third = *text.get(2)?;
    if first != 239 || third < 128 || third >= 192 {
        return None;
    }
    match second {
        158 => Some((third, 3)),
        159 => Some((third + 64, 3)),
        _ => None,
    }
}

/// The byte that the first character stands for, and how many bytes that has. It is `None` where none comes that stands for one.
fn first_byte(encoding: Encoding, text: &[u8]) -> Option<(u8, usize)>
    ensures { IsFirstByte encoding text.now result }
{
    match encoding {
        Encoding::Latin1 => first_latin(text),
        Encoding::Utf8 => first_escaped(text),
    }
}

/// Whether each character stands for a byte.
fn are_bytes(encoding: Encoding, text: &[u8]) -> bool
    ensures yes { result ≡ true
        → (cell : List ℕ) × AreBytes cell × (byte_by_byte encoding cell ≡ text.now) }
    ensures no { result ≡ false → (cell : List ℕ) → AreBytes cell
        → ¬ (byte_by_byte encoding cell ≡ text.now) }
{
    let mut i: usize = 0;
    while i < text.len() {
        let Some((_, count)) = first_byte(encoding, &text[i..]) else {
            return false;
        };
        i += count;
    }
    true
}

/// The bytes that characters stand for, each for one. It is `None` for a text that has others, or that is wider than any cell.
fn bytes_of(encoding: Encoding, text: &[u8]) -> Option<Cell>
    ensures { MatchOption result ((cell : List ℕ) → AreBytes cell → length cell ≤ WIDEST_CELL → ¬ (byte_by_byte encoding cell ≡ text.now))
        (λ cell. byte_by_byte encoding cell.items ≡ text.now) }
{
    let mut cell = Cell::new();
    let mut i: usize = 0;
    while i < text.len() {
        let (byte, count) = first_byte(encoding, &text[i..])?;
        let Ok(()) = cell.try_push(byte) else {
            return None;
        };
        i += count;
    }
    Some(cell)
}

/// Whether characters stand for the bytes that they are.
fn are_own_bytes(encoding: Encoding, text: &[u8]) -> bool
    ensures yes { result ≡ true → StandFor encoding text.now text.now }
    ensures no { result ≡ false → are_read_as_is encoding text.now ≡ false }
{
    if text.is_ascii() {
        return true;
    }
    match encoding {
        Encoding::Latin1 => false,
        Encoding::Utf8 => !has_escape(text),
    }
}

/// Sets a cell of a draft to bytes.
fn set_bytes(draft: &mut Draft, j: u8, bytes: &[u8]) -> Result<(), Why>
    ensures ok { OnOk result (Sets j bytes.now draft.old draft.new) }
    ensures err { OnErr result (¬ FitsField draft.old.kind j bytes.now) }
    ensures why { IfErr result IsOfData }
    ensures reason { IfErr result (IsBytesReason draft.old.kind j bytes.now) }
{
    match draft.set(j, bytes) {
        Ok(()) => Ok(()),
        Err(SetFault::NoSuchField) => Err(Why::UnknownKey),
        Err(SetFault::Derived) => Err(Why::Computed),
        Err(SetFault::TooWide) => Err(Why::TooWide),
        Err(SetFault::Cell(fault)) => Err(Why::Cell(fault)),
    }
}

/// Sets a cell of a draft to the bytes that characters stand for, each for one.
fn set_each(encoding: Encoding, draft: &mut Draft, j: u8, text: &[u8]) -> Result<(), Why>
    requires { are_read_as_is encoding text.now ≡ false }
    ensures ok { OnOk result
        ((cell : List ℕ) × StandFor encoding text.now cell × Sets j cell draft.old draft.new) }
    ensures err { OnErr result
        ((cell : List ℕ) → StandFor encoding text.now cell → ¬ FitsField draft.old.kind j cell) }
    ensures why { IfErr result IsOfData }
    ensures reason { IfErr result (λ why. (f : FieldLayout) → field_at draft.old.kind j ≡ Some f
        → f.derived ≡ false → IsValueReason encoding f (Some (string text.now)) why) }
{
    if !are_bytes(encoding, text) {
        return Err(Why::NotAByte);
    }
    match bytes_of(encoding, text) {
        Some(cell) => set_bytes(draft, j, cell.as_slice()),
        None => Err(Why::TooWide),
    }
}

/// Sets a cell of a draft to the bytes that characters stand for.
fn set_characters(encoding: Encoding, draft: &mut Draft, j: u8, text: &[u8]) -> Result<(), Why>
    ensures ok { OnOk result
        ((cell : List ℕ) × StandFor encoding text.now cell × Sets j cell draft.old draft.new) }
    ensures err { OnErr result
        ((cell : List ℕ) → StandFor encoding text.now cell → ¬ FitsField draft.old.kind j cell) }
    ensures why { IfErr result IsOfData }
    ensures reason { IfErr result (λ why. (f : FieldLayout) → field_at draft.old.kind j ≡ Some f
        → f.derived ≡ false → IsValueReason encoding f (Some (string text.now)) why) }
{
    if are_own_bytes(encoding, text) {
        set_bytes(draft, j, text)
    } else {
        set_each(encoding, draft, j, text)
    }
}

/// Whether field `j` is computed.
fn is_computed(kind: Kind, j: u8) -> bool
    ensures none { result ≡ true → carried_at kind j ≡ None }
    ensures derived { (f : FieldLayout) → field_at kind j ≡ Some f → f.derived ≡ result }
{
    match field(kind, j) {
        Some(place) => place.derived,
        None => false,
    }
}

/// Sets a cell of a draft to a value.
fn set_value(
    encoding: Encoding,
    draft: &mut Draft,
    kind: Kind,
    j: u8,
    value: &Value<'_>,
) -> Result<(), Why>
    ensures ok { OnOk result ((cell : List ℕ) × IsTextOf encoding (value_view value.now) cell
        × Sets j cell draft.old draft.new) }
    ensures err { OnErr result (draft.old.kind ≡ kind → (cell : List ℕ)
        → IsTextOf encoding (value_view value.now) cell → ¬ FitsField kind j cell) }
    ensures why { IfErr result IsOfData }
    ensures reason { IfErr result (λ why. draft.old.kind ≡ kind → (f : FieldLayout)
        → field_at kind j ≡ Some f → IsValueReason encoding f (Some (value_view value.now)) why) }
{
    if is_computed(kind, j) {
        return Err(Why::Computed);
    }
    match value.as_str() {
        Some(text) => set_characters(encoding, draft, j, text.as_bytes()),
        None => Err(Why::NotText),
    }
}

/// A draft that members fill.
#[derive(Drop)]
struct Filling {
    draft: Draft,
    kind: Kind,
    /// The fields whose keys came, by their numbers.
    seen: [bool; 256],
    /// The field whose key came last.
    last: u8,
}

impl Filling {
    /// Nothing came.
    fn new(kind: Kind) -> Filling
        ensures filled { (encoding : Encoding)
            → IsFilled encoding kind no_members result.draft result.seen }
        ensures kind { result.kind ≡ kind }
    {
        Filling {
            draft: Draft::blank(kind),
            kind,
            seen: [false; 256],
            last: 0,
        }
    }

    /// Takes a member that says something.
    fn take(&mut self, encoding: Encoding, key: &str, value: &Value<'_>) -> Result<(), (Key, Why)>
        ensures ok { OnOk result (FillsOn encoding self.old.kind
            (λ ms. with_last ms key.now (value_view value.now)) self.old.draft self.old.seen
            self.new.draft self.new.seen) }
        ensures err { OnErr result (OfFilled encoding self.old.kind self.old.draft self.old.seen
            (λ ms. NoneFrom encoding self.old.kind (with_last ms key.now (value_view value.now)))) }
        ensures why { IfErr result (λ f. IsOfData f.1) }
        ensures reason { IfErr result (λ f. IsReasonOfFilled encoding self.old.kind self.old.draft self.old.seen
            (λ ms. with_last ms key.now (value_view value.now)) f.0 f.1) }
        ensures kind { self.new.kind ≡ self.old.kind }
    {
        let Some(j) = field_of_key(self.kind, key, self.last) else {
            return Err((text_key(key), Why::UnknownKey));
        };
        self.last = j;
        if self.seen[usize::from(j)] {
            return Err((Key::Field(j), Why::Repeated));
        }
        self.seen[usize::from(j)] = true;
        if j == 1 {
            return Ok(());
        }
        match set_value(encoding, &mut self.draft, self.kind, j, value) {
            Ok(()) => Ok(()),
            Err(why) => Err((Key::Field(j), why)),
        }
    }

    /// Takes a member, if it says something.
    fn meet(&mut self, encoding: Encoding, key: &str, value: &Value<'_>) -> Result<(), (Key, Why)>
        ensures ok { OnOk result (FillsOn encoding self.old.kind
            (λ ms. with_told ms key.now (value_view value.now)) self.old.draft self.old.seen
            self.new.draft self.new.seen) }
        ensures err { OnErr result (OfFilled encoding self.old.kind self.old.draft self.old.seen
            (λ ms. NoneFrom encoding self.old.kind (with_told ms key.now (value_view value.now)))) }
        ensures why { IfErr result (λ f. IsOfData f.1) }
        ensures reason { IfErr result (λ f. IsReasonOfFilled encoding self.old.kind self.old.draft self.old.seen
            (λ ms. with_told ms key.now (value_view value.now)) f.0 f.1) }
        ensures kind { self.new.kind ≡ self.old.kind }
    {
        if says(key, value) {
            self.take(encoding, key, value)
        } else {
            Ok(())
        }
    }
}

/// The draft that members fill.
fn filled(encoding: Encoding, kind: Kind, members: &MemberList<'_>) -> Result<Draft, (Key, Why)>
    ensures ok { IfOk result (λ draft. (seen : List Bool)
        × IsFilled encoding kind (told (members_view members.now.items)) draft seen) }
    ensures err { OnErr result ((r : RecordValue) → r.kind ≡ kind
        → ¬ IsDataOf encoding (told (members_view members.now.items)) r) }
    ensures why { IfErr result (λ f. IsOfData f.1) }
    ensures reason { IfErr result
        (λ f. IsMemberReason encoding kind (told (members_view members.now.items)) f.0 f.1) }
{
    let mut filling = Filling::new(kind);
    for member in members {
        filling.meet(encoding, member.0, &member.1)?;
    }
    Ok(filling.draft)
}

/// The record of a draft.
fn done(draft: &Draft) -> Result<Record, (Key, Why)>
    ensures ok { IfOk result (λ r. (r ≡ draft.now) × IsRecord draft.now) }
    ensures err { OnErr result (¬ IsRecord draft.now) }
    ensures why { IfErr result (λ f. IsOfData f.1) }
    ensures reason { IfErr result (λ f. IsDraftReason draft.now f.0 f.1) }
{
    match draft.done() {
        Ok(record) => Ok(record),
        Err(DraftFault { field, fault }) => Err((Key::Field(field), Why::Cell(fault))),
    }
}

/// The record of that kind that members are.
fn record_in(encoding: Encoding, kind: Kind, members: &MemberList<'_>) -> Result<Record, (Key, Why)>
    requires { first_of kind_key (told (members_view members.now.items))
        ≡ Some (string (letters kind)) }
    ensures ok { IfOk result (λ r. IsDataOf encoding (told (members_view members.now.items)) r) }
    ensures err { OnErr result
        ((r : RecordValue) → ¬ IsDataOf encoding (told (members_view members.now.items)) r) }
    ensures why { IfErr result (λ f. IsOfData f.1) }
    ensures reason { IfErr result
        (λ f. IsMemberReason encoding kind (told (members_view members.now.items)) f.0 f.1) }
{
    let draft = filled(encoding, kind, members)?;
    done(&draft)
}

/// The record that a value is, the one of that number in its line.
pub(crate) fn record_of(
    encoding: Encoding,
    number: u32,
    value: &Value<'_>,
) -> Result<Record, LineFault>
    ensures ok { IfOk result (λ r. IsRecordData encoding (value_view value.now) r) }
    ensures err { OnErr result
        ((r : RecordValue) → ¬ IsRecordData encoding (value_view value.now) r) }
    ensures why { IfErr result (λ f. IsOfData f.why) }
    ensures reason { IfErr result (λ f. (f.record ≡ number)
        × IsRecordReason encoding (value_view value.now) f.kind f.key f.why) }
{
    let Value::Object(members) = value else {
        return Err(of_record(number, None, Key::None, Why::NotAnObject));
    };
    let kind = match kind_in(members) {
        Ok(kind) => kind,
        Err(why) => return Err(of_record(number, None, Key::Field(1), why)),
    };
    match record_in(encoding, kind, members) {
        Ok(record) => Ok(record),
        Err((key, why)) => Err(of_record(number, Some(kind), key, why)),
    }
}

/// A fault of the record of that number.
pub(crate) fn of_record(number: u32, kind: Option<Kind>, key: Key, why: Why) -> LineFault
    ensures why { result.why ≡ why }
    ensures key { result.key ≡ key }
    ensures kind { result.kind ≡ kind }
    ensures record { result.record ≡ number }
{
    LineFault {
        record: number,
        kind,
        key,
        why,
    }
}
