//! Records as values: a kind and the cells that a record of the kind carries, each one of its field.

ghost use Rattle.std.specs.Prelude.{ℕ, ◌≡◌, ◌↔◌, ◌<◌, ◌≤◌, length, option_map, false, Some, IsSome, IsSomeAnd, IsTrue, IfSome};
ghost use Rattle.cwr_fields.specs.Format.Bytes.{is_plain, is_spaces};
ghost use Rattle.cwr_fields.specs.Format.Kinds.{is_in_transaction};
ghost use Rattle.cwr_fields.specs.Format.Layouts.{field_with_start, layout, line_width};
ghost use Rattle.cwr_fields.specs.Steps.Views.{field_view};
ghost use Rattle.cwr_lines.specs.Format.Records.{IsRecord};
ghost use Rattle.cwr_lines.specs.Format.Carried.{HasCellOf, record_cell};
ghost use Rattle.cwr_lines.specs.Steps.Carried.{record_in};

use crate::carried_fields::carried_field;
use crate::drafts::carries;
use crate::lines::part;
use arrayvec::ArrayVec;
use cwr_fields::{Cell, Field, Kind, field, fields, trimmed_line};
use std::fmt::{self, Debug};
use std::marker::Model;

/// The bytes of the widest line, those of EWT and VER.
pub(crate) const WIDEST_LINE: usize = 719;

/// The bytes of a whole line of some kind.
pub(crate) type LineText = ArrayVec<u8, WIDEST_LINE>;

/// The bytes of the widest line of a control record, that of HDR.
const WIDEST_CONTROL: usize = 101;

/// The bytes of a line, kept in the value.
pub(crate) fn copy_bytes<const N: usize>(line: &[u8]) -> ArrayVec<u8, N>
    requires { length line.now ≤ N }
    ensures { result.items ≡ line.now }
{
    let mut text = ArrayVec::new();
    let _fits = text.try_extend_from_slice(line);
    text
}

/// A cell as programmers read it.
#[derive(Clone, Copy)]
struct ShownCell<'a>(&'a [u8]);

impl Debug for ShownCell<'_> {
    fn fmt<W: fmt::Write>(&self, f: &mut fmt::Formatter<W>) -> fmt::Result {
        write!(f, "\"{}\"", self.0.escape_ascii())
    }
}

/// Whether the kind's field `j` is one that starts behind so many bytes of a line.
#[inline(always)]
fn starts_behind(kind: Kind, j: u8, bytes: usize) -> bool
    ensures { IsTrue result → IsSomeAnd (field_with_start kind j) (λ p. bytes ≤ p.0) }
{
    match field(kind, j) {
        Some(place) => bytes <= place.start,
        None => false,
    }
}

/// Writes the kind and the cells that a whole line of it carries, each by its field's name.
pub(crate) fn show_cells<W: fmt::Write>(
    kind: Kind,
    line: &[u8],
    f: &mut fmt::Formatter<W>,
) -> fmt::Result
    requires { length line.now ≡ line_width kind }
{
    write!(f, "{kind:?} ")?;
    let mut cells = f.debug_map();
    for before in 0..fields(kind) {
        if let Some(place) = carried_field(kind, before + 1) {
            cells.entry(&place.name, &ShownCell(part(line, place)));
        }
    }
    cells.finish()
}

/// A record of CWR 2.1: its kind and the cells of its fields. Each cell has its field's width and is one of its type;
/// derived fields have none. It takes no memory: `clone` never fails.
#[derive(Clone, Drop)]
pub struct Record {
    kind: Kind,
    /// The whole line, in whose derived cells nothing is kept.
    text: LineText,
}

impl Model for Record {
    ghost use Rattle.cwr_lines.specs.Format.Records.{RecordValue};
    ghost use Rattle.cwr_lines.specs.Steps.Carried.{record_in, KeepsRecord};

    ghost Value = { RecordValue };

    ghost view = { λ r. record_in r.kind r.text.items };

    ghost invariant = { λ r. KeepsRecord r.kind r.text.items };
}

impl Record {
    /// The record that a whole line of the kind carries.
    pub(crate) fn of_line(kind: Kind, text: LineText) -> Self
        requires whole { length text.items ≡ line_width kind }
        requires fits { IsRecord (record_in kind text.items) }
        ensures { result ≡ record_in kind text.items }
    {
        Record { kind, text }
    }

    /// The record as one borrowed.
    pub fn view(&self) -> RecordRef<'_>
        ensures value { result ≡ self.now }
        ensures fits { IsRecord self.now }
    {
        RecordRef {
            kind: self.kind,
            line: self.text.as_slice(),
        }
    }
}

/// One of the records around transactions, HDR, GRH, GRT or TRL. It is as a `Record`, but takes little room.
#[derive(Clone, Drop)]
pub struct ControlRecord {
    kind: Kind,
    /// The whole line, in whose derived cells nothing is kept.
    text: ArrayVec<u8, WIDEST_CONTROL>,
}

impl Model for ControlRecord {
    ghost use Rattle.cwr_lines.specs.Format.Records.{RecordValue};
    ghost use Rattle.cwr_lines.specs.Steps.Carried.{record_in, KeepsRecord};

    ghost Value = { RecordValue };

    ghost view = { λ r. record_in r.kind r.text.items };

    ghost invariant = { λ r. KeepsRecord r.kind r.text.items };
}

impl ControlRecord {
    /// The record as one borrowed.
    pub fn view(&self) -> RecordRef<'_>
        ensures value { result ≡ self.now }
        ensures fits { IsRecord self.now }
    {
        RecordRef::of_line(self.kind, self.text.as_slice())
    }

    /// The same record in as much room as any.
    pub fn to_record(&self) -> Record
        ensures value { result ≡ self.now }
        ensures fits { IsRecord self.now }
    {
        self.view().to_record()
    }
}

/// A record of CWR 2.1 that is borrowed from where it is kept.
#[derive(Clone, Drop)]
pub struct RecordRef<'a> {
    kind: Kind,
    /// The whole line. The bytes of its derived cells are never shown.
    line: &'a [u8],
}

impl<'a> Model for RecordRef<'a> {
    ghost use Rattle.cwr_lines.specs.Format.Records.{RecordValue};
    ghost use Rattle.cwr_lines.specs.Steps.Carried.{record_in, KeepsRecord};

    ghost Value = { RecordValue };

    ghost view = { λ r. record_in r.kind r.line.now };

    ghost invariant = { λ r. KeepsRecord r.kind r.line.now };
}

impl<'a> RecordRef<'a> {
    /// The record that a whole line of the kind carries. `None` where one of its cells isn't one of its field's type.
    /// `plain` says whether the line is known to have no control byte.
    #[inline(always)]
    pub(crate) fn from_line(kind: Kind, line: &'a [u8], plain: bool) -> Option<Self>
        requires whole { length line.now ≡ line_width kind }
        requires plain { IsTrue plain → IsTrue (is_plain line.now) }
        ensures some { IsSome result ↔ IsRecord (record_in kind line.now) }
        ensures value { IfSome result (λ found. found ≡ record_in kind line.now) }
    {
        if carries(kind, line, plain) {
            Some(RecordRef { kind, line })
        } else {
            None
        }
    }

    /// The record that a whole line of the kind carries.
    #[inline(always)]
    pub(crate) fn of_line(kind: Kind, line: &'a [u8]) -> Self
        requires whole { length line.now ≡ line_width kind }
        requires fits { IsRecord (record_in kind line.now) }
        ensures { result ≡ record_in kind line.now }
    {
        RecordRef { kind, line }
    }

    /// The record's kind.
    #[inline(always)]
    pub fn kind(&self) -> Kind
        ensures value { result ≡ self.now.kind }
        ensures fits { IsRecord self.now }
    {
        self.kind
    }

    /// The cell of field `j`, from 1, in its full width: a part of where the record is kept, nothing is copied. `None`
    /// where the kind has no field `j`, and where that is derived.
    #[inline(always)]
    pub fn cell(&self, j: u8) -> Option<&'a [u8]>
        ensures value { option_map (λ cell. cell.now) result ≡ record_cell self.now j }
        ensures fits { IsRecord self.now }
    {
        match self.carried_cell(self.kind, j) {
            Some((_, cell)) => Some(cell),
            None => None,
        }
    }

    /// The same cell with its field, where the record's kind is given: a caller that asks for many cells reads that once, and each
    /// field is looked up once.
    #[inline(always)]
    pub fn carried_cell(&self, kind: Kind, j: u8) -> Option<(Field, &'a [u8])>
        requires { kind ≡ self.now.kind }
        ensures value { option_map (λ found. found.1.now) result ≡ record_cell self.now j }
        ensures place { IfSome result
            (λ found. Some (field_view found.0) ≡ field_with_start self.now.kind j) }
        ensures fits { IsRecord self.now }
    {
        let line = self.line;
        let place = carried_field(kind, j)?;
        Some((place, part(line, place)))
    }

    /// How many of its kind's first fields have all that is filled: each carried cell behind them is blank. It looks for the line's
    /// trailing spaces at once. The kind is given, as to `carried_cell`.
    #[inline(always)]
    pub fn filled_fields(&self, kind: Kind) -> u8
        requires { kind ≡ self.now.kind }
        ensures most { result ≤ length (layout self.now.kind) }
        ensures blank { (j : ℕ) → result < j → IfSome (record_cell self.now j)
            (λ cell. IsTrue (is_spaces cell)) }
        ensures fits { IsRecord self.now }
    {
        let end = trimmed_line(self.line).len();
        let mut filled = fields(kind);
        while filled > 0 && starts_behind(kind, filled, end) {
            filled -= 1;
        }
        filled
    }

    /// The cell of field `j`, from 1, as a value of a cell type. `None` where the record has no cell of field `j`, and
    /// where that isn't as wide as the type's cells, or isn't one of them.
    pub fn read<C: Cell>(&self, j: u8) -> Option<C>
        requires least { 0 < C.WIDTH }
        requires most { C.WIDTH ≤ 10 }
        ensures some { IsSome result ↔ HasCellOf self.now j C.TYPE C.WIDTH }
        ensures value { IfSome result (λ x. record_cell self.now j ≡ Some (C.text x)) }
    {
        C::read(self.cell(j)?)
    }

    /// The whole line that it is kept in. The bytes of its derived cells say nothing.
    pub(crate) fn whole_line(&self) -> &'a [u8]
        ensures whole { length result.now ≡ line_width self.now.kind }
        ensures carries { self.now ≡ record_in self.now.kind result.now }
    {
        self.line
    }

    /// The record, copied out of where it is kept. It takes no memory.
    pub fn to_record(&self) -> Record
        ensures value { result ≡ self.now }
        ensures fits { IsRecord self.now }
    {
        Record::of_line(self.kind, copy_bytes(self.line))
    }

    /// The record, copied out of where it is kept, where it isn't one of a transaction. It takes no memory.
    pub fn to_control(&self) -> ControlRecord
        requires { is_in_transaction self.now.kind ≡ false }
        ensures value { result ≡ self.now }
        ensures fits { IsRecord self.now }
    {
        let kind = self.kind;
        let text = copy_bytes(self.line);
        ControlRecord { kind, text }
    }
}

impl Debug for RecordRef<'_> {
    fn fmt<W: fmt::Write>(&self, f: &mut fmt::Formatter<W>) -> fmt::Result {
        show_cells(self.kind, self.line, f)
    }
}

impl Debug for ControlRecord {
    fn fmt<W: fmt::Write>(&self, f: &mut fmt::Formatter<W>) -> fmt::Result {
        show_cells(self.kind, self.text.as_slice(), f)
    }
}

impl Debug for Record {
    fn fmt<W: fmt::Write>(&self, f: &mut fmt::Formatter<W>) -> fmt::Result {
        show_cells(self.kind, self.text.as_slice(), f)
    }
}
