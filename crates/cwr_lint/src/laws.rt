//! Laws over the definitions: what the contract of each of these functions says.

ghost use Rattle.cwr_lint.specs.Format.Laws.{CellsAreTold};
ghost use Rattle.cwr_lint.specs.Format.OneCells.{OneCellIsRefused};
ghost use Rattle.cwr_lint.specs.Steps.OneCells.{OneCellIsTold};

/// Of a line that was read and names a kind, the faults that are told at its cells are just those of the cells that aren't in their types'
/// sets, and the excess is told where it is bad; but of a misplaced line with a bad excess no cell is told.
pub fn cells_are_told()
    ensures { CellsAreTold }
{}

/// Where a text differs from a good one in one derived cell alone, it is neither accepted nor truncated: it is refused.
pub fn one_cell_is_refused()
    ensures { OneCellIsRefused }
{}

/// Where a text differs from a good one in one derived cell alone, it is refused at that cell, and no other fault is told of it. What a
/// lint tells is that of its clause `tells`.
pub fn one_cell_is_told()
    ensures { OneCellIsTold }
{}
