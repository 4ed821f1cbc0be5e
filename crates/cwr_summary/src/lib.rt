//! What stands in a transmission, as sums over its items.
#![tactic(auto)]

mod columns;
mod laws;
mod shares;
mod summaries;
mod summing;

pub use columns::{COLUMNS, Column, Right};
pub use laws::{joins_add_up, splits_add_up, summaries_add_up};
pub use summaries::Summary;
pub use summing::SummedItems;
