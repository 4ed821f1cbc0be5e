//! What acknowledgements in CWR 2.1 transmissions say, over readers and writers.
#![tactic(auto)]

mod counts;
mod data_texts;
mod forms;
mod item_lines;
mod line_texts;
mod matching;
mod names;
mod rest;
mod running;
mod unanswered;

pub use counts::Answers;
pub use forms::{Cells, Form, Manner};
pub use names::shown_name;
pub use rest::put_rest;
pub use running::acks;
