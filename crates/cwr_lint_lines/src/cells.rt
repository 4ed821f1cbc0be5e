//! What the cells of a line say.

ghost use Rattle.std.specs.Prelude.{◌≡◌, ◌↔◌, ◌≤◌, length, IsSome, IfSome, IsTrue};
ghost use Rattle.cwr_fields.specs.Format.Bytes.{are_digits, number_of};
ghost use Rattle.cwr_shape.specs.Format.Candidates.{role_in as role_spelled, type_in as type_spelled};
ghost use Rattle.cwr_lint_lines.specs.Steps.CellFaults.{IsFaultAt};
ghost use Rattle.cwr_lint_lines.specs.Steps.Cells.{has_version, held_cut, number_at, number_in_cell, role_in, role_or_assignor, symbol_in, type_in};
ghost use Rattle.cwr_lint_lines.specs.Steps.Cells.{type_of_header};

use cwr_fields::{Cell, CellFault, Kind, Role, TransactionType, Word, field, fits};
use cwr_lines::CutLine;
use cwr_shape::Symbol;

/// The most digits of a number.
const MOST_DIGITS: usize = 10;

/// The number that at most ten digits write. `None` where some byte is no digit.
fn number_in(cell: &[u8]) -> Option<u64>
    requires { length cell.now ≤ 10 }
    ensures some { IsSome result ↔ IsTrue (are_digits cell.now) }
    ensures value { IfSome result (λ n. n ≡ number_of cell.now) }
{
    let mut number = 0;
    for digit in cell {
        if !digit.is_ascii_digit() {
            return None;
        }
        number = 10 * number + u64::from(*digit - b'0');
    }
    Some(number)
}

/// The number in a cell, if one stands there. No field of a number is wider than ten bytes.
fn number_in_cell(cell: &[u8]) -> Option<u64>
    ensures { result ≡ number_in_cell cell.now }
{
    if cell.len() <= MOST_DIGITS {
        number_in(cell)
    } else {
        None
    }
}

/// The number in cell `j` of the line, if one stands there.
pub(crate) fn number_at(line: &CutLine<'_>, j: u8) -> Option<u64>
    ensures { result ≡ number_at (held_cut line.now) j }
{
    match line.cell(j) {
        Some(cell) => number_in_cell(cell),
        None => None,
    }
}

/// The type of transactions that a cell spells.
fn type_spelled(cell: &[u8]) -> Option<TransactionType>
    ensures { result ≡ type_spelled cell.now }
{
    match TransactionType::read(cell) {
        Some(ty) => Some(ty),
        None => None,
    }
}

/// The type of transactions that a GRH says, if it can be read.
pub(crate) fn type_in(line: &CutLine<'_>) -> Option<TransactionType>
    ensures { result ≡ type_in (held_cut line.now) }
{
    match line.cell(2) {
        Some(cell) => type_spelled(cell),
        None => None,
    }
}

/// The role that a cell spells.
fn role_spelled(cell: &[u8]) -> Option<Role>
    ensures { result ≡ role_spelled cell.now }
{
    match Role::read(cell) {
        Some(role) => Some(role),
        None => None,
    }
}

/// The role of an IPA, if it can be read.
pub(crate) fn role_in(line: &CutLine<'_>) -> Option<Role>
    ensures { result ≡ role_in (held_cut line.now) }
{
    match line.cell(4) {
        Some(cell) => role_spelled(cell),
        None => None,
    }
}

/// The type of transactions that begin with records of the kind.
pub(crate) fn type_of_header(kind: Kind) -> Option<TransactionType>
    ensures { result ≡ type_of_header kind }
{
    match kind {
        Kind::Agr => Some(TransactionType::Agreement),
        Kind::Nwr => Some(TransactionType::NewWork),
        Kind::Rev => Some(TransactionType::RevisedWork),
        Kind::Ack => Some(TransactionType::Acknowledgement),
        _ => None,
    }
}

/// The role, or an assignor's where it can't be read.
fn role_or_assignor(role: Option<Role>) -> Role
    ensures { result ≡ role_or_assignor role }
{
    match role {
        Some(role) => role,
        None => Role::Assignor,
    }
}

/// The symbol of a line of the kind in the order of records: a role that can't be read is an assignor's.
pub(crate) fn symbol_in(kind: Kind, line: &CutLine<'_>) -> Symbol
    ensures { result ≡ symbol_in kind (held_cut line.now) }
{
    match kind {
        Kind::Ipa => Symbol::Ipa(role_or_assignor(role_in(line))),
        Kind::Grh => Symbol::Grh(TransactionType::Acknowledgement),
        _ => Symbol::Plain(kind),
    }
}

/// Whether the line has the constant of HDR.
pub(crate) fn has_version(line: &CutLine<'_>) -> bool
    ensures { result ≡ has_version (held_cut line.now) }
{
    match line.cell(5) {
        Some(cell) => cell == Word::Edi.text(),
        None => false,
    }
}

/// The fault of cell `j` of the line, if it has one: it isn't one of its field's type. Derived cells are judged too, but for the number
/// that belongs there. Where the kind is unknown or has no such field there is none.
pub fn cell_fault(line: &CutLine<'_>, j: u8) -> Option<CellFault>
    ensures { IsFaultAt line.now j result }
{
    let Some(kind) = line.kind() else {
        return None;
    };
    let Some(place) = field(kind, j) else {
        return None;
    };
    let Some(cell) = line.cell(j) else {
        return None;
    };
    match fits(place.ty, cell) {
        Ok(()) => None,
        Err(fault) => Some(fault),
    }
}
