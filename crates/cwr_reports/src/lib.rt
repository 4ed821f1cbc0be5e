//! Runs of the program that report on transmissions: judge, explain, show, or write them as data.
#![tactic(auto)]

mod exports;
mod several;
mod tellings;

pub use exports::export;
pub use several::report_several;
pub use tellings::{Asked, Telling, report_input, telling_of};
