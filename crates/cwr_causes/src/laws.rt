//! Laws over the definitions: what the contract of each of these functions says.

ghost use Rattle.cwr_causes.specs.Steps.Laws.{RefusedLineIsLast};

/// Where a decoder refused a line, its input ends with that line.
pub fn refused_line_is_last()
    ensures { RefusedLineIsLast }
{}
