//! From lines of JSON to CWR 2.1 transmissions.
#![tactic(auto)]

mod hints;
mod input_lines;
mod items;
mod keys;
pub mod laws;
mod records;
mod refusals;
mod writing;

pub use hints::{Lack, put_hint};
pub use refusals::{Key, LineFault, Refusal, Why};
pub use writing::{WriteFault, Written, put_write_outcome, write};
