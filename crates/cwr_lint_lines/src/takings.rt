//! What a lint takes a line for.

ghost use Rattle.std.specs.Prelude.{◌≡◌, true, false};
ghost use Rattle.cwr_lint_lines.specs.Steps.Cells.{held_cut, type_of_header};
ghost use Rattle.cwr_lint_lines.specs.Steps.NextStates.{is_end};
ghost use Rattle.cwr_lint_lines.specs.Steps.Takings.{begins_in, begins_unseen, goes_on, goes_on_in, heads_copy, is_first, is_misplaced, is_misplaced_by};
ghost use Rattle.cwr_lint_lines.specs.Steps.Takings.{is_misplaced_header, is_other_grh, is_other_grt, is_other_hdr, is_other_trl, taking, taking_inside};
ghost use Rattle.cwr_lint_lines.specs.Steps.Takings.{taking_of_foot, taking_of_further, taking_of_hdr, taking_of_head, taking_of_header, taking_of_trailer};

use crate::cells::{has_version, number_at, symbol_in, type_in, type_of_header};
use crate::following::is_number;
use crate::numbers::Count;
use crate::states::{LintState, OpenGroup, OpenTransaction};
use cwr_fields::{Kind, TransactionType};
use cwr_lines::CutLine;
use cwr_shape::Symbol;

/// What a line is taken for.
#[derive(Clone, Copy, Debug, PartialEq, Eq)]
pub enum Taking {
    /// The first HDR.
    Opens,
    /// A further HDR: counts begin anew.
    OpensAnew,
    /// GRH.
    OpensGroup,
    /// GRT of the open group.
    ClosesGroup,
    /// GRT where none is open.
    ClosesNone,
    /// TRL.
    Ends,
    /// The header of a transaction of the type.
    Header(TransactionType),
    /// Any other line.
    Further,
    /// A line of another kind than it says.
    Other,
}

/// Whether the line bears nothing of an HDR, and something stands after it.
fn is_other_hdr(line: &CutLine<'_>) -> bool
    ensures { result ≡ is_other_hdr (held_cut line.now) }
{
    line.excess() && !has_version(line)
}

/// Whether the line bears nothing of a GRH, and something stands after it.
fn is_other_grh(line: &CutLine<'_>) -> bool
    ensures { result ≡ is_other_grh (held_cut line.now) }
{
    line.excess() && type_in(line).is_none()
}

/// Whether the line bears nothing of the open group's GRT, and something stands after it.
fn is_other_grt(group: &OpenGroup, line: &CutLine<'_>) -> bool
    ensures { result ≡ is_other_grt group.now (held_cut line.now) }
{
    line.excess()
        && !group.is_id(number_at(line, 2))
        && !Count::of_group_records(group).is_borne_by(number_at(line, 4))
}

/// Whether the line bears nothing of TRL, and something stands after it.
fn is_other_trl(state: &LintState, line: &CutLine<'_>) -> bool
    ensures { result ≡ is_other_trl state.now (held_cut line.now) }
{
    line.excess()
        && !Count::of_groups(state).is_borne_by(number_at(line, 2))
        && !Count::of_all_records(state).is_borne_by(number_at(line, 4))
}

/// Whether the line's numbers are those of a further record of the transaction.
fn goes_on(line: &CutLine<'_>, current: &OpenTransaction) -> bool
    ensures { result ≡ goes_on (held_cut line.now) current.now }
{
    match (number_at(line, 2), number_at(line, 3)) {
        (Some(transaction), Some(sequence)) => {
            (transaction == current.number || is_number(current.other, transaction))
                && (sequence != 0 && current.next.takes(sequence))
        }
        _ => false,
    }
}

/// Whether they are those of a further record of the open transaction, where there is one.
fn goes_on_in(line: &CutLine<'_>, current: &Option<OpenTransaction>) -> bool
    ensures { result ≡ goes_on_in (held_cut line.now) current.now }
{
    match current {
        Some(current) => goes_on(line, current),
        None => false,
    }
}

/// Whether the record number is 0.
fn is_first(line: &CutLine<'_>) -> bool
    ensures { result ≡ is_first (held_cut line.now) }
{
    is_number(number_at(line, 3), 0)
}

/// Whether the line is the header of a copy.
fn heads_copy(state: &LintState, group: &OpenGroup, ty: TransactionType, kind: Kind) -> bool
    ensures { result ≡ heads_copy state.now group.now ty kind }
{
    state.next(Symbol::Plain(kind)).is_some() && !group.is_of(ty)
}

/// Whether a line of the type's kind begins a transaction of the open group. The header of a copy doesn't, and one whose numbers
/// go on in the open transaction doesn't: its kind was mistyped.
fn begins_in(
    state: &LintState,
    group: &OpenGroup,
    ty: TransactionType,
    kind: Kind,
    line: &CutLine<'_>,
) -> bool
    ensures { result ≡ begins_in state.now group.now ty kind (held_cut line.now) }
{
    if heads_copy(state, group, ty, kind) || goes_on_in(line, &group.current) {
        return false;
    }
    if is_first(line) {
        return true;
    }
    if group.ty.is_some() {
        group.may_have(ty)
    } else {
        number_at(line, 3).is_none()
    }
}

/// Whether such a line begins a group unseen, where none is open.
fn begins_unseen(line: &CutLine<'_>) -> bool
    ensures { result ≡ begins_unseen (held_cut line.now) }
{
    is_first(line) || number_at(line, 3).is_none()
}

/// What a line of the type's kind is taken for. Where no group is open one begins unseen. Where it begins no transaction, though
/// the order takes it so, it is of another kind.
fn taking_of_header(
    state: &LintState,
    ty: TransactionType,
    kind: Kind,
    line: &CutLine<'_>,
) -> Taking
    ensures is { result ≡ taking_of_header state.now ty kind (held_cut line.now) }
    ensures no_end { is_end result ≡ false }
{
    match &state.group {
        None => {
            if begins_unseen(line) {
                Taking::Header(ty)
            } else {
                Taking::Further
            }
        }
        Some(group) => {
            if begins_in(state, group, ty, kind, line) {
                Taking::Header(ty)
            } else if state.next(Symbol::Plain(kind)).is_some() && group.may_have(ty) {
                Taking::Other
            } else {
                Taking::Further
            }
        }
    }
}

/// What a line of no header's kind is taken for. One with the numbers of the next header is of another kind.
fn taking_of_further(state: &LintState, line: &CutLine<'_>) -> Taking
    ensures is { result ≡ taking_of_further state.now (held_cut line.now) }
    ensures no_end { is_end result ≡ false }
{
    match &state.group {
        None => Taking::Further,
        Some(group) => {
            if group.current.is_some()
                && is_first(line)
                && is_number(number_at(line, 2), group.next.expected)
            {
                Taking::Other
            } else {
                Taking::Further
            }
        }
    }
}

/// What a GRT is taken for.
fn taking_of_foot(state: &LintState, line: &CutLine<'_>) -> Taking
    ensures is { result ≡ taking_of_foot state.now (held_cut line.now) }
    ensures no_end { is_end result ≡ false }
{
    match &state.group {
        None => Taking::ClosesNone,
        Some(group) => {
            if is_other_grt(group, line) {
                Taking::Other
            } else {
                Taking::ClosesGroup
            }
        }
    }
}

/// What an HDR is taken for.
fn taking_of_hdr(state: &LintState, line: &CutLine<'_>) -> Taking
    ensures is { result ≡ taking_of_hdr state.now (held_cut line.now) }
    ensures no_end { is_end result ≡ false }
{
    if state.lines == 0 {
        Taking::Opens
    } else if is_other_hdr(line) {
        Taking::Other
    } else {
        Taking::OpensAnew
    }
}

/// What a GRH is taken for.
fn taking_of_head(line: &CutLine<'_>) -> Taking
    ensures is { result ≡ taking_of_head (held_cut line.now) }
    ensures no_end { is_end result ≡ false }
{
    if is_other_grh(line) {
        Taking::Other
    } else {
        Taking::OpensGroup
    }
}

/// What a TRL is taken for.
fn taking_of_trailer(state: &LintState, line: &CutLine<'_>) -> Taking
    ensures { result ≡ taking_of_trailer state.now (held_cut line.now) }
{
    if is_other_trl(state, line) {
        Taking::Other
    } else {
        Taking::Ends
    }
}

/// What a line inside a transaction is taken for.
fn taking_inside(state: &LintState, kind: Kind, line: &CutLine<'_>) -> Taking
    ensures is { result ≡ taking_inside (type_of_header kind) state.now kind (held_cut line.now) }
    ensures no_end { is_end result ≡ false }
{
    match type_of_header(kind) {
        Some(ty) => taking_of_header(state, ty, kind, line),
        None => taking_of_further(state, line),
    }
}

impl Taking {
    /// What a line of the kind is taken for.
    pub(crate) fn of(state: &LintState, kind: Kind, line: &CutLine<'_>) -> Taking
        ensures is { result ≡ taking state.now kind (held_cut line.now) }
        ensures ends { is_end result ≡ true → kind ≡ Kind.Trl }
    {
        match kind {
            Kind::Hdr => taking_of_hdr(state, line),
            Kind::Grh => taking_of_head(line),
            Kind::Grt => taking_of_foot(state, line),
            Kind::Trl => taking_of_trailer(state, line),
            _ => taking_inside(state, kind, line),
        }
    }
}

/// Whether the header of a type is misplaced: where no group is open, in a group of another type, or after a transaction that
/// isn't whole.
fn is_misplaced_header(state: &LintState, ty: TransactionType) -> bool
    ensures { result ≡ is_misplaced_header state.now ty }
{
    match &state.group {
        None => state.stage.is_some(),
        Some(group) => {
            (group.ty.is_some() && !group.may_have(ty))
                || (state.stage.is_some() && group.has_line && !state.is_whole())
        }
    }
}

/// Whether a line of the kind is misplaced that begins neither the transmission nor a transaction.
fn is_misplaced_by(state: &LintState, kind: Kind, line: &CutLine<'_>) -> bool
    ensures { result ≡ is_misplaced_by state.now kind (held_cut line.now) }
{
    match kind {
        Kind::Hdr => true,
        _ => state.bars(symbol_in(kind, line)),
    }
}

/// Whether a line of the kind, taken so, is misplaced.
pub(crate) fn is_misplaced(taken: Taking, state: &LintState, kind: Kind, line: &CutLine<'_>) -> bool
    ensures { result ≡ is_misplaced taken state.now kind (held_cut line.now) }
{
    match taken {
        Taking::Opens => false,
        Taking::Header(ty) => is_misplaced_header(state, ty),
        _ => is_misplaced_by(state, kind, line),
    }
}
