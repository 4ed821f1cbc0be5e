//! Runs of the program that make files: transmissions that are joined, cut, renumbered, selected from, or written from data.
#![tactic(auto)]

mod imports;
mod join_inputs;
mod join_notes;
mod join_views;
mod joins;
mod lists;
mod renumberings;
mod repeated_works;
mod select_notes;
mod select_views;
mod selections;
mod sought;
mod splits;

pub use imports::{Import, import_file, import_input};
pub use joins::{Union, join_files};
pub use renumberings::{Repair, repair_file, repair_input};
pub use selections::{Selection, select_file};
pub use splits::{Cut, split_file};
