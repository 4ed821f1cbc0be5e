//! Transmissions cut into parts, and joined to one.
#![tactic(auto)]

mod joined;
mod joining;
mod laws;
mod outcomes;
mod split_output;
mod splitting;

pub use joining::{join, join_alone, join_viewed};
pub use laws::{one_split_is_told, text_is_split_as_told};
pub use outcomes::{input_line, put_join_outcome, put_split_outcome};
pub use splitting::{split, split_viewed};
