//! Runs of the program that tell what acknowledgements say, and what became of what was sent.
#![tactic(auto)]

mod answered;
mod answers;

pub use answered::{Answered, Unsought, answered_places};
pub use answers::{Answering, match_answers};
