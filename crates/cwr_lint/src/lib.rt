//! Every fault of a transmission in one pass: a check up to the first fault, and from there on a lint.
#![tactic(auto)]

mod findings;
mod laws;
mod linting;
mod puts;
mod raw_lines;

pub use cwr_lint_lines::cell_fault;
pub use laws::{cells_are_told, one_cell_is_refused, one_cell_is_told};
pub use linting::lint;
