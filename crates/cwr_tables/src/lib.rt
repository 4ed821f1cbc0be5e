//! Tables of CWR 2.1 transmissions, as RFC 4180 has them, and the report that writes them.
#![tactic(auto)]

mod cells;
mod headers;
pub mod laws;
mod places;
mod record_tables;
mod rows;
mod table_rows;
mod tables;
mod work_tables;
mod work_texts;
mod works;

pub use cells::{next_characters, next_number};
pub use places::Place;
pub use record_tables::item_rows;
pub use table_rows::TableRows;
pub use tables::Table;
pub use work_tables::work_row;
