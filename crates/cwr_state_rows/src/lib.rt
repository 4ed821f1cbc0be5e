//! What became of each transaction that was sent: rows of a table or objects of JSON, and their counts.
#![tactic(auto)]

mod counts;
mod faults;
mod forms;
pub mod laws;
mod places;
mod putting;
mod row_texts;
mod senders;

pub use counts::{Counts, count_rows, put_state_line};
pub use faults::RowFault;
pub use forms::{Form, shown_name};
pub use places::places_with;
pub use putting::put_rows;
