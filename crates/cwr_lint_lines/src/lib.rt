//! The lines of a transmission after its first fault: what a lint takes each for, what it then knows, and which cells and numbers of it
//! are wrong.
#![tactic(auto)]

mod cells;
mod following;
mod front;
mod judged_lines;
mod numbers;
mod states;
mod steps;
mod takings;

pub use cells::cell_fault;
pub use following::Awaiting;
pub use judged_lines::{Judged, Known};
pub use numbers::{Belonging, Count, WrongNumbers};
pub use states::{LintState, OpenGroup, OpenTransaction};
pub use takings::Taking;
