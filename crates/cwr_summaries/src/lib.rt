//! What stands in each of several inputs, as rows of a table, in words or as JSON.
#![tactic(auto)]

mod names;
mod summaries;
mod summed_files;

pub use summaries::{Summing, summarize};
