//! The worked examples of this profile, for the tests of the crates above.
#![tactic(auto)]

pub mod lines;
pub mod texts;
