//! The JSON form of CWR 2.1 transmissions: a line for each item.
#![tactic(auto)]

mod encodings;
mod items;
pub mod laws;
mod notes;
mod records;
mod spelling;

pub use encodings::Encoding;
pub use items::item_line;
pub use notes::Notes;
pub use records::key_of;
pub use spelling::{are_shown_as_is, character, characters, escaped_characters, has_escape};
