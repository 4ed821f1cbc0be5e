//! A check whose verdict is explained: which bytes, what stands there, and what may.
#![tactic(auto)]

mod explaining;

pub use explaining::explain;
