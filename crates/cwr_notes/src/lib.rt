//! What is written of a record, and under the line of a finding: numbers, cells and words.
#![tactic(auto)]

mod finding_notes;
mod labels;
mod note_lines;
mod other_records;
mod passed;
mod record_texts;
mod work_lines;

pub use finding_notes::all_explained;
pub use note_lines::{cell_note, gap, level_words, where_line};
pub use record_texts::{head_line, record_lines};
pub use work_lines::WorkLine;
