//! The order of records in a CWR 2.1 transmission, its limits, and the levels of refusals.
#![tactic(auto)]

mod faults;
pub mod laws;
mod levels;
mod limits;
mod numbering;
mod reasons;
mod stages;
mod symbols;
mod tallies;

pub use levels::level;
pub use limits::{LimitKind, Limits, LimitsFault};
pub use numbering::Numbering;
pub use reasons::{Level, Reason};
pub use stages::{Needs, Stage, TransactionStep};
pub use symbols::Symbol;
pub use tallies::{Bar, Counts, Scope, Tally};
