//! Records that are made cell by cell.

ghost use Rattle.std.specs.Prelude.{◌≡◌, IsTrue, ◌↔◌, ◌+◌, ◌++◌, ◌≤◌, length, IsOk, OnOk, OnErr, IfOk, IfErr};
ghost use Rattle.std.specs.List.{splice};
ghost use Rattle.std.specs.Option.{ForSome};
ghost use Rattle.cwr_fields.specs.Format.Bytes.{filled, is_plain};
ghost use Rattle.cwr_fields.specs.Format.Cells.{Allows, HasFault, type_width};
ghost use Rattle.cwr_fields.specs.Format.Layouts.{line_width};
ghost use Rattle.cwr_lines.specs.Format.Records.{IsRecord, blank_cell, blank_record, carried_fields};
ghost use Rattle.cwr_lines.specs.Format.Carried.{Sets, IsSetFault, FitsAt, HasCellFault, IsFirstUnfit};
ghost use Rattle.cwr_lines.specs.Steps.Carried.{record_in};

use crate::carried_fields::carried_field;
use crate::kind_cells::surely_carries;
use crate::lines::{fill_up, part};
use crate::records::{LineText, Record, WIDEST_LINE, copy_bytes, show_cells};
use arrayvec::ArrayVec;
use cwr_fields::{
    CellFault, CellType, Field, Kind, field, fields, fits, fits_plain, is_plain, layout,
};
use std::error::Error;
use std::fmt::{self, Debug, Display};
use std::marker::Model;

/// Why a text wasn't set in a draft: the first of these that holds.
#[derive(Clone, Copy, Debug, PartialEq, Eq)]
pub enum SetFault {
    /// The kind has no such field.
    NoSuchField,
    /// The field is derived.
    Derived,
    /// The text is wider than the field.
    TooWide,
    /// The text, filled up with spaces to the field's width, doesn't fit the field's type.
    Cell(CellFault),
}

/// The first cell of a draft that isn't one of its field's type, by this profile of CWR 2.1.
#[derive(Clone, Copy, Debug, PartialEq, Eq)]
pub struct DraftFault {
    /// The field's number, from 1.
    pub field: u8,
    /// The fault of its cell, as `fits` answers it.
    pub fault: CellFault,
}

/// Writes a cell into a line.
fn put(line: &mut [u8], start: usize, cell: &[u8])
    requires { start + length cell.now ≤ length line.old }
    ensures { line.new ≡ splice line.old start (start + length cell.now) cell.now }
{
    line[start..start + cell.len()].copy_from_slice(cell);
}

/// Appends the blank cell of a field to a line that ends where the field starts.
fn push_blank(line: &mut LineText, place: Field)
    requires begins { length line.old.items ≡ place.start }
    requires within { place.start + place.width ≤ WIDEST_LINE }
    requires width { ForSome (type_width place.ty) (λ width. width ≡ place.width) }
    ensures { line.new.items ≡ line.old.items ++ blank_cell place.ty place.width }
{
    match place.ty {
        CellType::Constant(word) => {
            let _fits = line.try_extend_from_slice(word.text());
        }
        _ => fill_up(line, place.start + place.width),
    }
}

/// The text filled up with spaces to a width in bytes.
fn filled_cell(text: &[u8], width: usize) -> LineText
    requires within { length text.now ≤ width }
    requires fits { width ≤ WIDEST_LINE }
    ensures { result.items ≡ filled width text.now }
{
    let mut cell = copy_bytes(text);
    fill_up(&mut cell, width);
    cell
}

/// Judges a cell; `plain` says whether it is known to have no control byte.
#[inline(always)]
fn fits_known(ty: CellType, cell: &[u8], plain: bool) -> Result<(), CellFault>
    requires width { ForSome (type_width ty) (λ width. length cell.now ≡ width) }
    requires plain { IsTrue plain → IsTrue (is_plain cell.now) }
    ensures ok { OnOk result (Allows ty cell.now) }
    ensures err { IfErr result (λ fault. HasFault ty cell.now fault) }
{
    if plain {
        fits_plain(ty, cell)
    } else {
        fits(ty, cell)
    }
}

/// Judges the cell of field `j` of a whole line; `plain` says whether that is known to have no control byte. A field
/// that isn't there, or is derived, has none.
#[inline(always)]
fn judge_cell(kind: Kind, line: &[u8], plain: bool, j: u8) -> Result<(), CellFault>
    requires whole { length line.now ≡ line_width kind }
    requires plain { IsTrue plain → IsTrue (is_plain line.now) }
    ensures ok { OnOk result (FitsAt (record_in kind line.now) j) }
    ensures err { IfErr result (HasCellFault (record_in kind line.now) j) }
{
    match carried_field(kind, j) {
        Some(place) => fits_known(place.ty, part(line, place), plain),
        None => Ok(()),
    }
}

/// Judges the cells that a whole line carries, in order: by quick tests, and where these don't find them all good one by
/// one for the first fault. `plain` says whether the line is known to have no control byte.
#[inline(never)]
pub(crate) fn judge(kind: Kind, line: &[u8], plain: bool) -> Result<(), DraftFault>
    requires whole { length line.now ≡ line_width kind }
    requires plain { IsTrue plain → IsTrue (is_plain line.now) }
    ensures variant { IsOk result ↔ IsRecord (record_in kind line.now) }
    ensures err { IfErr result (IsFirstUnfit (record_in kind line.now)) }
{
    let plain = plain || is_plain(line);
    if plain && surely_carries(kind, line) {
        return Ok(());
    }
    for before in 0..fields(kind) {
        let field = before + 1;
        if let Err(fault) = judge_cell(kind, line, plain, field) {
            return Err(DraftFault { field, fault });
        }
    }
    Ok(())
}

/// Whether a whole line carries a record. `plain` says whether the line is known to have no control byte, and then quick
/// tests are asked first.
#[inline(always)]
pub(crate) fn carries(kind: Kind, line: &[u8], plain: bool) -> bool
    requires whole { length line.now ≡ line_width kind }
    requires plain { IsTrue plain → IsTrue (is_plain line.now) }
    ensures { IsTrue result ↔ IsRecord (record_in kind line.now) }
{
    if plain && surely_carries(kind, line) {
        return true;
    }
    judge(kind, line, plain).is_ok()
}

/// A record of CWR 2.1 that is being made: a kind and the cells of its fields, of which some may not be set yet. Each
/// cell has its field's width. It takes no memory: `clone` never fails.
#[derive(Clone, Drop)]
pub struct Draft {
    kind: Kind,
    /// The whole line, with spaces in its derived cells.
    text: LineText,
}

impl Model for Draft {
    ghost use Rattle.std.specs.Prelude.{◌≡◌, length};
    ghost use Rattle.cwr_fields.specs.Format.Layouts.{line_width};
    ghost use Rattle.cwr_lines.specs.Format.Records.{RecordValue};
    ghost use Rattle.cwr_lines.specs.Steps.Carried.{record_in};

    ghost Value = { RecordValue };

    ghost view = { λ d. record_in d.kind d.text.items };

    ghost invariant = { λ d. length d.text.items ≡ line_width d.kind };
}

impl Draft {
    /// The draft of that kind in which nothing was set: constants stand in it, all else is blank.
    pub fn blank(kind: Kind) -> Self
        ensures { result ≡ blank_record kind }
    {
        let mut text = ArrayVec::new();
        for place in layout(kind) {
            push_blank(&mut text, *place);
        }
        Draft { kind, text }
    }

    /// Sets the cell of field `j`, from 1, to the text, filled up with spaces on the right as CWR 2.1 does. A text that
    /// is refused changes nothing; `SetFault` says why.
    pub fn set(&mut self, j: u8, text: &[u8]) -> Result<(), SetFault>
        ensures ok { OnOk result (Sets j text.now self.old self.new) }
        ensures err { OnErr result (self.new ≡ self.old) }
        ensures fault { IfErr result (IsSetFault self.old.kind j text.now) }
        ensures whole { length self.new.cells ≡ length (carried_fields self.new.kind) }
    {
        let Some(place) = field(self.kind, j) else {
            return Err(SetFault::NoSuchField);
        };
        if place.derived {
            return Err(SetFault::Derived);
        }
        if text.len() > place.width {
            return Err(SetFault::TooWide);
        }
        let cell = filled_cell(text, place.width);
        if let Err(fault) = fits(place.ty, cell.as_slice()) {
            return Err(SetFault::Cell(fault));
        }
        put(self.text.as_mut_slice(), place.start, cell.as_slice());
        Ok(())
    }

    /// The record of the draft's cells. Where one of them doesn't fit its field's type, the first such is reported.
    pub fn done(&self) -> Result<Record, DraftFault>
        ensures variant { IsOk result ↔ IsRecord self.now }
        ensures ok { IfOk result (λ made. made ≡ self.now) }
        ensures err { IfErr result (IsFirstUnfit self.now) }
    {
        judge(self.kind, self.text.as_slice(), false)?;
        Ok(Record::of_line(self.kind, copy_bytes(self.text.as_slice())))
    }
}

impl Display for SetFault {
    fn fmt<W: fmt::Write>(&self, f: &mut fmt::Formatter<W>) -> fmt::Result {
        match self {
            SetFault::NoSuchField => f.pad("no such field"),
            SetFault::Derived => f.pad("the field is derived"),
            SetFault::TooWide => f.pad("wider than the field"),
            SetFault::Cell(fault) => Display::fmt(fault, f),
        }
    }
}

impl Error for SetFault {}

impl Display for DraftFault {
    fn fmt<W: fmt::Write>(&self, f: &mut fmt::Formatter<W>) -> fmt::Result {
        write!(f, "field {}: {}", self.field, self.fault)
    }
}

impl Error for DraftFault {}

impl Debug for Draft {
    fn fmt<W: fmt::Write>(&self, f: &mut fmt::Formatter<W>) -> fmt::Result {
        show_cells(self.kind, self.text.as_slice(), f)
    }
}
