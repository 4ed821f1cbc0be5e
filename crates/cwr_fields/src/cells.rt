//! Whether a cell is one of its type, and the fault of one that isn't.

ghost use Rattle.std.specs.Prelude.{◌≡◌, ◌↔◌, IsTrue, IsFalse, OnOk, IfErr, length, if◌then◌else◌};
ghost use Rattle.std.specs.Option.{ForSome};
ghost use Rattle.cwr_fields.specs.Format.Bytes.{is_spaces, is_plain};
ghost use Rattle.cwr_fields.specs.Format.Cells.{Allows, HasFault, SpellsNumber, type_width};
ghost use Rattle.cwr_fields.specs.Format.Codes.{code_width};

use crate::byte_runs::{are_digits, has_control, is_spaces, number_in};
use crate::cell_types::{CellFault, CellType};
use crate::dates::{CivilDate, DateCell};
use crate::durations::DurationCell;
use crate::flags::Flag;
use crate::known_codes::is_code;
use crate::tables::Table;
use crate::times::TimeOfDay;
use crate::typed_cells::is_cell;

/// Whether no byte of the text is a control byte: one of 0 to 31, or 127.
#[inline(always)]
pub fn is_plain(cell: &[u8]) -> bool
    ensures { result ≡ is_plain cell.now }
{
    !has_control(cell)
}

/// Whether the cell is digits, at least one.
#[inline(always)]
pub(crate) fn is_number(cell: &[u8]) -> bool
    ensures { IsTrue result ↔ SpellsNumber cell.now }
{
    !cell.is_empty() && are_digits(cell)
}

#[inline(always)]
pub(crate) fn is_opt_number(cell: &[u8]) -> bool
    ensures { IsTrue result ↔ Allows CellType.OptNumber cell.now }
{
    is_spaces(cell) || is_number(cell)
}

fn is_opt_time(cell: &[u8]) -> bool
    requires { length cell.now ≡ 6 }
    ensures { IsTrue result ↔ Allows CellType.OptTime cell.now }
{
    is_spaces(cell) || is_cell::<TimeOfDay>(cell)
}

#[inline(always)]
pub(crate) fn is_opt_code(table: Table, cell: &[u8]) -> bool
    requires { length cell.now ≡ code_width table }
    ensures { IsTrue result ↔ Allows (CellType.OptCode table) cell.now }
{
    is_spaces(cell) || is_code(table, cell)
}

/// `Ok` where the cell was found to be one of its type, and else the fault.
#[inline(always)]
fn fault_unless(is_one: bool, fault: CellFault) -> Result<(), CellFault>
    ensures ok { OnOk result (IsTrue is_one) }
    ensures err { IfErr result (λ f. IsFalse is_one × (f ≡ fault)) }
{
    if is_one { Ok(()) } else { Err(fault) }
}

/// `Ok` where the cell was found to be one of its type, and else that it is blank, or another fault.
#[inline(always)]
fn blank_or_fault_unless(is_one: bool, other: CellFault, cell: &[u8]) -> Result<(), CellFault>
    ensures ok { OnOk result (IsTrue is_one) }
    ensures err { IfErr result
        (λ f. IsFalse is_one × (f ≡ (if is_spaces cell.now then CellFault.Blank else other))) }
{
    if is_one {
        Ok(())
    } else if is_spaces(cell) {
        Err(CellFault::Blank)
    } else {
        Err(other)
    }
}

/// Judges a required cell that has no control byte.
#[inline(always)]
fn fits_required_plain(cell: &[u8]) -> Result<(), CellFault>
    requires { IsTrue (is_plain cell.now) }
    ensures ok { OnOk result (Allows CellType.Required cell.now) }
    ensures err { IfErr result (λ fault. HasFault CellType.Required cell.now fault) }
{
    if is_spaces(cell) {
        Err(CellFault::Blank)
    } else {
        Ok(())
    }
}

fn fits_required(cell: &[u8]) -> Result<(), CellFault>
    ensures ok { OnOk result (Allows CellType.Required cell.now) }
    ensures err { IfErr result (λ fault. HasFault CellType.Required cell.now fault) }
{
    if is_plain(cell) {
        fits_required_plain(cell)
    } else {
        Err(CellFault::Control)
    }
}

#[inline(always)]
fn fits_share(cell: &[u8]) -> Result<(), CellFault>
    requires { length cell.now ≡ 5 }
    ensures ok { OnOk result (Allows CellType.Share cell.now) }
    ensures err { IfErr result (λ fault. HasFault CellType.Share cell.now fault) }
{
    if is_spaces(cell) {
        return Ok(());
    }
    match number_in(cell) {
        None => Err(CellFault::NotDigits),
        Some(hundredths) => fault_unless(hundredths <= 10000, CellFault::OverShare),
    }
}

/// Judges a cell by this profile's rules of CWR 2.1 for its type: `Ok` where it is one of the type,
/// and else the first fault that the type names. The cell is as wide as `width_of` says.
#[inline(always)]
pub fn fits(ty: CellType, cell: &[u8]) -> Result<(), CellFault>
    requires { ForSome (type_width ty) (λ width. length cell.now ≡ width) }
    ensures ok { OnOk result (Allows ty cell.now) }
    ensures err { IfErr result (λ fault. HasFault ty cell.now fault) }
{
    match ty {
        CellType::Text => fault_unless(is_plain(cell), CellFault::Control),
        CellType::Required => fits_required(cell),
        CellType::Number => blank_or_fault_unless(is_number(cell), CellFault::NotDigits, cell),
        CellType::OptNumber => fault_unless(is_opt_number(cell), CellFault::NotDigits),
        CellType::Date => blank_or_fault_unless(
            is_cell::<CivilDate>(cell),
            CellFault::NotADate,
            cell,
        ),
        CellType::OptDate => fault_unless(is_cell::<DateCell>(cell), CellFault::NotADate),
        CellType::Time => blank_or_fault_unless(
            is_cell::<TimeOfDay>(cell),
            CellFault::NotATime,
            cell,
        ),
        CellType::OptTime => fault_unless(is_opt_time(cell), CellFault::NotATime),
        CellType::OptDuration => fault_unless(is_cell::<DurationCell>(cell), CellFault::NotATime),
        CellType::Share => fits_share(cell),
        CellType::Flag => fault_unless(is_cell::<Flag>(cell), CellFault::NotACode),
        CellType::Code(table) => blank_or_fault_unless(
            is_code(table, cell),
            CellFault::NotACode,
            cell,
        ),
        CellType::OptCode(table) => fault_unless(is_opt_code(table, cell), CellFault::NotACode),
        CellType::Constant(word) => fault_unless(cell == word.text(), CellFault::NotConstant),
    }
}

/// Judges a cell that has no control byte, as `fits` does: one of a text that was found plain as a whole isn't looked
/// through again. The cell is as wide as `width_of` says.
#[inline(always)]
pub fn fits_plain(ty: CellType, cell: &[u8]) -> Result<(), CellFault>
    requires width { ForSome (type_width ty) (λ width. length cell.now ≡ width) }
    requires plain { IsTrue (is_plain cell.now) }
    ensures ok { OnOk result (Allows ty cell.now) }
    ensures err { IfErr result (λ fault. HasFault ty cell.now fault) }
{
    match ty {
        CellType::Text => Ok(()),
        CellType::Required => fits_required_plain(cell),
        _ => fits(ty, cell),
    }
}

/// The width of a type's cells in bytes, where the type has one.
pub fn width_of(ty: CellType) -> Option<usize>
    ensures { result ≡ type_width ty }
{
    match ty {
        CellType::Text | CellType::Required | CellType::Number | CellType::OptNumber => None,
        CellType::Date | CellType::OptDate => Some(8),
        CellType::Time | CellType::OptTime | CellType::OptDuration => Some(6),
        CellType::Share | CellType::Constant(_) => Some(5),
        CellType::Flag => Some(1),
        CellType::Code(table) | CellType::OptCode(table) => Some(table.width()),
    }
}
