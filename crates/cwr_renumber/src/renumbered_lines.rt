//! A line of the text, with the numbers that belong in it.

ghost use Rattle.std.specs.Prelude.{◌≡◌, ◌≢◌, Some};
ghost use Rattle.cwr_lines.specs.declared.lines.LineEnd.TheVariants.{Open};
ghost use Rattle.cwr_lines.specs.Steps.Held.{held_kind};
ghost use Rattle.cwr_renumber.specs.Steps.Renumbered.{counted_as, line_by, numbering_after, numbers_by, type_named};

use crate::jumps::Jumps;
use cwr_fields::{Cell, Kind, TransactionType};
use cwr_lines::{CutLine, RenumberedLine};
use cwr_shape::{Numbering, Symbol};

/// The type that a line of GRH names, and that of acknowledgements where it names none.
fn type_named(line: &CutLine<'_>) -> TransactionType
    ensures { result ≡ type_named line.now }
{
    let Some(cell) = line.cell(2) else {
        return TransactionType::Acknowledgement;
    };
    match TransactionType::read(cell) {
        Some(ty) => ty,
        None => TransactionType::Acknowledgement,
    }
}

/// What a line of the kind counts as.
fn counted_as(kind: Kind, line: &CutLine<'_>) -> Symbol
    ensures { result ≡ counted_as kind line.now }
{
    match kind {
        Kind::Grh => Symbol::Grh(type_named(line)),
        _ => Symbol::Plain(kind),
    }
}

/// The numbers that belong in the next line, if that is of the kind.
fn numbers_by(kind: Option<Kind>, numbering: &Numbering) -> [u64; 3]
    ensures { result ≡ numbers_by kind numbering.now }
{
    match kind {
        Some(kind) => numbering.numbers(kind),
        None => [0; 3],
    }
}

/// Sets the line with the numbers that belong in it, and counts it. The jumps take it too.
pub(crate) fn put_line(
    numbering: &mut Numbering,
    line: &CutLine<'_>,
    jumps: &mut Jumps,
    out: &mut RenumberedLine,
)
    ensures line { out.new ≡ line_by numbering.old line.now }
    ensures counted { numbering.new ≡ numbering_after numbering.old line.now }
{
    let kind = line.kind();
    let numbers = numbers_by(kind, numbering);
    jumps.take(line, &numbers);
    out.set(line, &numbers);
    if let Some(kind) = kind {
        numbering.count(counted_as(kind, line));
    }
}
