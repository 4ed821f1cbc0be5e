//! The rows of a summary: in words, as a table, and as lines of JSON.
#![tactic(auto)]

mod cells;
mod forms;
mod headers;
mod rows;

pub use forms::Form;
pub use headers::Header;
pub use rows::{Row, put_heading, put_row};
