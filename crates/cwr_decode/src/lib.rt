//! Reading CWR 2.1 transmissions.
#![tactic(auto)]

mod decoders;
mod endings;
mod first_lines;
mod indexing;
mod keepers;
mod kind_types;
mod last_bytes;
pub mod laws;
mod machine;
mod outcomes;
mod piecewise;
mod readings;
mod whole;

pub use cwr_judge::Refusal;
pub use decoders::Decoder;
pub use endings::{End, end_of};
pub use first_lines::first_line;
pub use indexing::{IndexEntry, index};
pub use keepers::Keeper;
pub use last_bytes::LastBytes;
pub use machine::Passed;
pub use outcomes::{Answer, Outcome};
pub use piecewise::read_pieces;
pub use readings::{LastRead, ReadFault, Reading};
pub use whole::read_all;
