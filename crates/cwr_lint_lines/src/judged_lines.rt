//! The faults of one line.

ghost use Rattle.std.specs.Prelude.{◌≡◌, ℕ, Some};
ghost use Rattle.cwr_lines.specs.Steps.Held.{held_kind};
ghost use Rattle.cwr_shape.specs.declared.tallies.Scope.{Scope};
ghost use Rattle.cwr_lint_lines.specs.Format.FaultsAtFields.{IsToldAt, reason_if};
ghost use Rattle.cwr_lint_lines.specs.Steps.JudgedLines.{IsEndOf, IsJudged, IsKnown, IsReasonOfCell, judged_at, judged_line, known_as, number_reason_in};
ghost use Rattle.cwr_lint_lines.specs.Steps.Cells.{held_cut};

use crate::cells::cell_fault;
use crate::numbers::WrongNumbers;
use crate::states::LintState;
use crate::takings::{Taking, is_misplaced};
use cwr_fields::{Kind, fields};
use cwr_lines::CutLine;
use cwr_shape::Reason;

/// A line of a known kind, and what it is taken for.
#[derive(Clone, Copy, Debug)]
pub struct Known {
    /// Its kind.
    pub kind: Kind,
    /// What it is taken for.
    pub taken: Taking,
    /// Whether it is misplaced.
    pub misplaced: bool,
    /// The numbers that belong in it where others stand. Where it is misplaced they aren't told.
    numbers: WrongNumbers,
    /// Whether what stands after its last field is bad.
    has_excess: bool,
}

/// A line that was judged.
#[derive(Clone, Copy, Debug)]
pub enum Judged {
    /// A line of unknown kind.
    Unknown,
    /// A line of a known kind.
    Known(Known),
}

/// The reason, where it holds.
fn reason_if(holds: bool, reason: Reason) -> Option<Reason>
    ensures { result ≡ reason_if holds reason }
{
    if holds { Some(reason) } else { None }
}

impl Known {
    /// A line of the kind, judged at a state.
    fn of(state: &LintState, kind: Kind, line: &CutLine<'_>) -> Known
        requires { held_kind line.now ≡ Some kind }
        ensures is { result ≡ known_as state.now kind (held_cut line.now) }
        ensures known { IsKnown line.now result }
    {
        let taken = Taking::of(state, kind, line);
        Known {
            kind,
            taken,
            misplaced: is_misplaced(taken, state, kind, line),
            numbers: WrongNumbers::of(state, taken, kind, line),
            has_excess: line.excess(),
        }
    }

    /// What is told of the number in field `j`.
    fn number_reason(&self, j: u8) -> Option<Reason>
        ensures { result ≡ number_reason_in self.now j }
    {
        if self.misplaced {
            return None;
        }
        let expected = self.numbers.expected(j)?;
        Some(Reason::Number { expected })
    }

    /// What is told of the cell in field `j`, from the second on. Where the line is misplaced and something stands after it, it was cut
    /// by another kind's layout: then cells aren't told.
    fn cell_reason(&self, line: &CutLine<'_>, j: u8) -> Option<Reason>
        ensures { IsReasonOfCell self.now line.now j result }
    {
        if self.misplaced && self.has_excess {
            return self.number_reason(j);
        }
        match cell_fault(line, j) {
            Some(fault) => Some(Reason::Cell(fault)),
            None => self.number_reason(j),
        }
    }

    /// What is told at field `j`, from 1: why, if anything.
    fn reason(&self, line: &CutLine<'_>, j: u8) -> Option<Reason>
        requires { IsKnown line.now self.now }
        ensures { (n : ℕ) (scope : Scope)
            → IsToldAt (judged_at n scope line.now (Judged.Known self.now)) j result }
    {
        if j == 1 {
            return reason_if(self.misplaced, Reason::Misplaced);
        }
        if j > fields(self.kind) {
            return reason_if(self.has_excess, Reason::Excess);
        }
        self.cell_reason(line, j)
    }
}

impl Judged {
    /// The line, judged at a state.
    pub fn of(state: &LintState, line: &CutLine<'_>) -> Judged
        ensures is { result ≡ judged_line state.now line.now }
        ensures judged { IsJudged line.now result }
    {
        match line.kind() {
            None => Judged::Unknown,
            Some(kind) => Judged::Known(Known::of(state, kind, line)),
        }
    }

    /// The number after the last field at which something may be told, which is one past the last of the kind.
    pub fn places(&self) -> u8
        ensures { IsEndOf self.now result }
    {
        match self {
            Judged::Unknown => 2,
            Judged::Known(known) => fields(known.kind).saturating_add(2),
        }
    }

    /// What is told at field `j`, from 1: why, if anything.
    pub fn reason(&self, line: &CutLine<'_>, j: u8) -> Option<Reason>
        requires { IsJudged line.now self.now }
        ensures { (n : ℕ) (scope : Scope)
            → IsToldAt (judged_at n scope line.now self.now) j result }
    {
        match self {
            Judged::Unknown => Some(Reason::UnknownKind),
            Judged::Known(known) => known.reason(line, j),
        }
    }
}
