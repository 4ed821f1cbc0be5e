//! What is kept of a CWR 2.1 transmission that was sent, to match it with its acknowledgements.
#![tactic(auto)]

mod answers;
mod created;
mod facts;
mod groups;
mod links;
mod reading;
mod tables;

pub use answers::{AnsweringFile, KeptAnswer, file_of};
pub use created::{Created, small_number};
pub use facts::{SentFacts, title_check};
pub use groups::SentGroup;
pub use reading::read_sent;
pub use tables::Sent;
