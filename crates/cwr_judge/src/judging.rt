//! Whether a line may come next in a transmission.

ghost use Rattle.std.specs.Prelude.{◌≡◌, ◌≤◌, ◌++◌, ◌∷◌, [], List, length, IsTrue, IsFalse, IsNone, IfSome, IfOk, IfErr, OnOk, OnErr, Some};
ghost use Rattle.std.specs.Option.{ForSome};
ghost use Rattle.cwr_fields.specs.Format.Bytes.{digits};
ghost use Rattle.cwr_fields.specs.Format.Cells.{type_width};
ghost use Rattle.cwr_fields.specs.Format.Layouts.{layout as layout_of};
ghost use Rattle.cwr_lines.specs.Steps.Held.{held_excess, held_kind, held_record};
ghost use Rattle.cwr_lines.specs.Format.Records.{IsRecord};
ghost use Rattle.cwr_shape.specs.declared.symbols.Symbol.{Symbol};
ghost use Rattle.cwr_shape.specs.Steps.Tallies.{IsTallyOf};
ghost use Rattle.cwr_judge.specs.Steps.Judged.{HasNumberAt, HasNumbers, IsCounted, IsNext, IsOfNone, Lacks, named_symbol, bar_reason, IsGoodText, IsTextFault};
ghost use Rattle.cwr_judge.specs.Steps.Judged.{FindsFirst, FindsNext, FindsNone, IsNumberFault, IsGoodAt, HasReasonAt, MayComeOf, IsFirstFault, Counts};

use cwr_fields::{
    Cell, CellType, Kind, Role, SpelledPair, TransactionType, field, fields, fits, spells,
};
use cwr_lines::{CutLine, RecordRef};
use cwr_shape::{Bar, Reason, Symbol, Tally};
use cwr_values::symbol_of;

/// The first field of a line that is wrong, and why.
#[derive(Clone, Copy, Debug, PartialEq, Eq)]
pub struct LineFault {
    /// The number of the field, from 1. One past the kind's last field is what stands after it.
    pub field: u8,
    /// Why.
    pub reason: Reason,
}

/// Whether cell `j` of the line, where that field is derived, is the number that belongs there.
#[inline(always)]
fn has_number(tally: &Tally, line: &CutLine<'_>, kind: Kind, j: u8) -> bool
    requires { held_kind line.now ≡ Some kind }
    ensures yes { (xs : List Symbol) → IsTallyOf tally.now xs → IsTrue result
        → HasNumberAt xs line.now kind j }
    ensures no { (xs : List Symbol) → IsTallyOf tally.now xs → IsFalse result
        → Lacks xs kind (HasNumberAt xs line.now kind j) }
{
    let Some(place) = field(kind, j) else {
        return true;
    };
    if !place.derived {
        return true;
    }
    let Some(number) = tally.expects(kind, j) else {
        return false;
    };
    match line.cell(j) {
        Some(cell) => spells(cell, number),
        None => false,
    }
}

/// Whether a quick test finds the two sequences of a line inside a transaction to be the numbers that belong there, which
/// are kept with their digits. A no says nothing.
#[inline(always)]
fn surely_has_numbers(
    tally: &Tally,
    line: &CutLine<'_>,
    kind: Kind,
    expected: &mut SpelledPair,
) -> bool
    requires { held_kind line.now ≡ Some kind }
    ensures { (xs : List Symbol) → IsTallyOf tally.now xs → IsTrue result
        → HasNumbers xs line.now kind }
{
    let Some(sequences) = line.sequences() else {
        return false;
    };
    let Some(transaction) = tally.expects(kind, 2) else {
        return false;
    };
    let Some(record) = tally.expects(kind, 3) else {
        return false;
    };
    expected.are_in(sequences, transaction, record)
}

/// Whether each derived cell of the line is the number that belongs there. No kind has one after its fourth field.
fn has_numbers(tally: &Tally, line: &CutLine<'_>, kind: Kind) -> bool
    requires { held_kind line.now ≡ Some kind }
    ensures yes { (xs : List Symbol) → IsTallyOf tally.now xs → IsTrue result
        → HasNumbers xs line.now kind }
    ensures no { (xs : List Symbol) → IsTallyOf tally.now xs → IsFalse result
        → Lacks xs kind (HasNumbers xs line.now kind) }
{
    if !has_number(tally, line, kind, 2) {
        return false;
    }
    if !has_number(tally, line, kind, 3) {
        return false;
    }
    has_number(tally, line, kind, 4)
}

/// The record of the line and its symbol, where it may come next: it is counted then, and else nothing changes.
fn next_record<'a>(tally: &mut Tally, line: &CutLine<'a>) -> Option<(Symbol, RecordRef<'a>)>
    ensures some { (xs : List Symbol) → IsTallyOf tally.old xs
        → IfSome result (λ found. IsNext tally.old.limits xs line.now found.0 found.1) }
    ensures none { (xs : List Symbol) → IsTallyOf tally.old xs → IsNone result
        → IsOfNone tally.old.limits xs line.now }
    ensures limits { tally.new.limits ≡ tally.old.limits }
    ensures stands { IfSome result (λ found. Counts tally.old found.0 tally.new) }
    ensures kept { IsNone result → tally.new ≡ tally.old }
    ensures carried { IfSome result (λ found. (held_record line.now ≡ Some found.1)
        × IsRecord found.1 × IsFalse (held_excess line.now)) }
{
    let Some(record) = line.record() else {
        return None;
    };
    if line.excess() {
        return None;
    }
    if !has_numbers(tally, line, record.kind()) {
        return None;
    }
    let symbol = symbol_of(&record);
    match tally.admit(symbol) {
        Ok(()) => Some((symbol, record)),
        Err(_) => None,
    }
}

/// Counts the record of the line, where that may come next and quick tests find the numbers right. A no says nothing, and then
/// nothing is counted. `expected` keeps the two sequences of the line before with their digits; whatever it keeps, the answer
/// is right.
#[inline(always)]
pub fn count_quickly(tally: &mut Tally, line: &CutLine<'_>, expected: &mut SpelledPair) -> bool
    ensures counted { IsTrue result → IsCounted tally.old line.now tally.new }
    ensures kept { IsFalse result → tally.new ≡ tally.old }
{
    let Some(record) = line.record() else {
        return false;
    };
    let has_excess = line.excess();
    if has_excess {
        return false;
    }
    if !surely_has_numbers(tally, line, record.kind(), expected) {
        return false;
    }
    let symbol = symbol_of(&record);
    match tally.admit(symbol) {
        Ok(()) => true,
        Err(_) => false,
    }
}

/// The reason of a bar.
fn reason_of(bar: Bar) -> Reason
    ensures { result ≡ bar_reason bar }
{
    match bar {
        Bar::Misplaced => Reason::Misplaced,
        Bar::Limit(limit) => Reason::Limit(limit),
    }
}

/// Whether a derived cell is its number, or why not.
fn judge_number(ty: CellType, cell: &[u8], expected: u64) -> Result<(), Reason>
    requires { ForSome (type_width ty) (λ width. length cell.now ≡ width) }
    ensures ok { OnOk result (cell.now ≡ digits (length cell.now) expected) }
    ensures err { IfErr result (IsNumberFault ty cell.now expected) }
{
    if spells(cell, expected) {
        return Ok(());
    }
    match fits(ty, cell) {
        Ok(()) => Err(Reason::Number { expected }),
        Err(fault) => Err(Reason::Cell(fault)),
    }
}

/// The symbol of a record of the kind, where the cell in its field `j` names it.
fn named_symbol(kind: Kind, j: u8, cell: &[u8]) -> Option<Symbol>
    ensures { result ≡ named_symbol kind j cell.now }
{
    match (kind, j) {
        (Kind::Grh, 2) => match TransactionType::read(cell) {
            Some(ty) => Some(Symbol::Grh(ty)),
            None => None,
        },
        (Kind::Ipa, 4) => match Role::read(cell) {
            Some(role) => Some(Symbol::Ipa(role)),
            None => None,
        },
        _ => None,
    }
}

/// Whether a carried cell in field `j` is one of its type, and the record whose symbol it names may come, or why not.
fn judge_text(tally: &Tally, kind: Kind, j: u8, ty: CellType, cell: &[u8]) -> Result<(), Reason>
    requires { ForSome (type_width ty) (λ width. length cell.now ≡ width) }
    ensures ok { (xs : List Symbol) → IsTallyOf tally.now xs
        → OnOk result (IsGoodText tally.now.limits xs kind j ty cell.now) }
    ensures err { (xs : List Symbol) → IsTallyOf tally.now xs
        → IfErr result (IsTextFault tally.now.limits xs kind j ty cell.now) }
{
    if let Err(fault) = fits(ty, cell) {
        return Err(Reason::Cell(fault));
    }
    let Some(symbol) = named_symbol(kind, j, cell) else {
        return Ok(());
    };
    match tally.admits(symbol) {
        Ok(()) => Ok(()),
        Err(bar) => Err(reason_of(bar)),
    }
}

/// Whether field `j` of the line, which is after the record type, is good, or why not. Some record of the kind may
/// come next.
fn judge_field(tally: &Tally, line: &CutLine<'_>, kind: Kind, j: u8) -> Result<(), Reason>
    requires known { held_kind line.now ≡ Some kind }
    requires from { 2 ≤ j }
    requires to { j ≤ length (layout_of kind) }
    ensures ok { (xs : List Symbol) → IsTallyOf tally.now xs → MayComeOf tally.now.limits xs kind
        → OnOk result (IsGoodAt tally.now.limits xs line.now kind j) }
    ensures err { (xs : List Symbol) → IsTallyOf tally.now xs → MayComeOf tally.now.limits xs kind
        → IfErr result (HasReasonAt tally.now.limits xs line.now kind j) }
{
    let Some(place) = field(kind, j) else {
        return Ok(());
    };
    let Some(cell) = line.cell(j) else {
        return Ok(());
    };
    if !place.derived {
        return judge_text(tally, kind, j, place.ty, cell);
    }
    match tally.expects(kind, j) {
        Some(expected) => judge_number(place.ty, cell, expected),
        None => Ok(()),
    }
}

/// The first field that is wrong of a line that may not come next, and why.
fn first_fault(tally: &Tally, line: &CutLine<'_>) -> LineFault
    ensures { (xs : List Symbol) → IsTallyOf tally.now xs → IsOfNone tally.now.limits xs line.now
        → IsFirstFault tally.now.limits xs line.now result.field result.reason }
{
    let Some(kind) = line.kind() else {
        return LineFault {
            field: 1,
            reason: Reason::UnknownKind,
        };
    };
    if let Err(bar) = tally.admits_kind(kind) {
        return LineFault {
            field: 1,
            reason: reason_of(bar),
        };
    }
    let count = fields(kind);
    for j in 2..count + 1 {
        if let Err(reason) = judge_field(tally, line, kind, j) {
            return LineFault { field: j, reason };
        }
    }
    LineFault {
        field: count + 1,
        reason: Reason::Excess,
    }
}

/// Counts the record of the line, where that may come next: the record and its symbol; or the first field that is wrong, and then
/// nothing changes.
pub fn judge<'a>(
    tally: &mut Tally,
    line: &CutLine<'a>,
) -> Result<(Symbol, RecordRef<'a>), LineFault>
    ensures ok { FindsNext tally.old line.now result }
    ensures err { FindsNone tally.old line.now result }
    ensures limits { tally.new.limits ≡ tally.old.limits }
    ensures stands { IfOk result (λ found. Counts tally.old found.0 tally.new) }
    ensures kept { OnErr result (tally.new ≡ tally.old) }
    ensures carried { IfOk result (λ found. (held_record line.now ≡ Some found.1) × IsRecord found.1
        × IsFalse (held_excess line.now)) }
    ensures first { FindsFirst tally.old line.now result }
{
    match next_record(tally, line) {
        Some(found) => Ok(found),
        None => Err(first_fault(tally, line)),
    }
}
