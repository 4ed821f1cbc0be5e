//! SHA-256 digests of what is read, and of what is written.
#![tactic(auto)]

mod digested_reads;
mod digested_texts;

pub use digested_reads::{DigestedRead, Whole};
pub use digested_texts::DigestedText;
