//! Lines for a terminal: explanations and help are broken at words, and the words that verdicts begin with have colours.
#![tactic(auto)]

mod breaks;
mod colours;
pub mod laws;
mod shown_lines;
mod styled;
mod styles;

pub use styled::Styled;
pub use styles::{Lines, Style};
