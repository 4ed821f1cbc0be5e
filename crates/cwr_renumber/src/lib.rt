//! A transmission whose numbers are put right: transaction and record sequences, group IDs and counts.
#![tactic(auto)]

mod jumps;
pub mod laws;
mod outcomes;
mod renumbered_lines;
mod renumbering;
mod sources;
mod takings;

pub use jumps::{Count, Jump, Jumps, Step};
pub use outcomes::put_renumber_outcome;
pub use renumbering::{renumber, renumber_viewed};
