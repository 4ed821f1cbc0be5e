//! How much each refusal rejects.

ghost use Rattle.std.specs.Prelude.{◌≡◌};
ghost use Rattle.cwr_fields.specs.Format.Layouts.{field_at};
ghost use Rattle.cwr_shape.specs.Format.Levels.{level_in, level_inside, level_of, level_of_scope, level_of_type, must_be_filled};

use crate::limits::LimitKind;
use crate::reasons::{Level, Reason};
use crate::tallies::Scope;
use cwr_fields::{CellType, Kind, field};

/// The level of a refusal at field `j` of a line of the kind (`None` where its first three bytes name none), where
/// that scope was open before the line.
pub fn level(kind: Option<Kind>, j: u8, reason: &Reason, scope: Scope) -> Level
    ensures { result ≡ level_of kind j reason.now scope }
{
    match (reason, kind) {
        (Reason::UnknownKind | Reason::Misplaced, _) => level_of_open(scope),
        (Reason::Limit(LimitKind::Transaction), Some(Kind::Grh)) => Level::G,
        (Reason::Limit(LimitKind::Transaction), _) => Level::T,
        (Reason::Limit(_), _) => Level::E,
        (_, Some(kind)) => level_of_cell(kind, j, reason),
        (_, None) => level_of_open(scope),
    }
}

/// A record that may not come rejects what is open.
fn level_of_open(scope: Scope) -> Level
    ensures { result ≡ level_of_scope scope }
{
    match scope {
        Scope::File => Level::E,
        Scope::Group => Level::G,
        Scope::Transaction => Level::T,
    }
}

/// The level of a cell, a number or an excess.
fn level_of_cell(kind: Kind, j: u8, reason: &Reason) -> Level
    ensures { result ≡ level_in kind j reason.now }
{
    match kind {
        Kind::Hdr | Kind::Trl => Level::E,
        Kind::Grh | Kind::Grt => Level::G,
        Kind::Agr | Kind::Nwr | Kind::Rev | Kind::Ack => Level::T,
        _ => level_of_inner(kind, j, reason),
    }
}

/// The same after the header of a transaction.
fn level_of_inner(kind: Kind, j: u8, reason: &Reason) -> Level
    ensures { result ≡ level_inside kind j reason.now }
{
    match reason {
        Reason::Cell(_) if j == 2 || j == 3 => Level::T,
        Reason::Cell(_) => level_of_field(kind, j),
        Reason::Number { .. } => Level::T,
        _ => Level::R,
    }
}

/// A cell that must be filled rejects its record, and any other the field.
fn level_of_field(kind: Kind, j: u8) -> Level
    ensures { result ≡ level_of_type (field_at kind j) }
{
    match field(kind, j) {
        Some(found) if is_required(found.ty) => Level::R,
        _ => Level::F,
    }
}

/// Whether a cell of the type can't be blank.
fn is_required(ty: CellType) -> bool
    ensures { result ≡ must_be_filled ty }
{
    matches!(
        ty,
        CellType::Required | CellType::Number | CellType::Code(_)
    )
}
