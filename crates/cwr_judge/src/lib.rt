//! How a text of CWR 2.1 ends, and whether a line may come next: the definitions of accepted, refused and truncated
//! texts, and the judge of one line after those before it.
#![tactic(auto)]

mod judging;
mod refusals;

pub use judging::{LineFault, count_quickly, judge};
pub use refusals::Refusal;
