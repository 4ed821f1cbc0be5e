//! Moments at which transmissions are created.
#![tactic(auto)]

mod moments;

pub use moments::Moment;
