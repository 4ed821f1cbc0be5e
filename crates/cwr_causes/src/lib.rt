//! What is said of a refused line, of an input that ends too early and of what stands after a transmission: which bytes, what
//! stands there, and what may.
#![tactic(auto)]

mod ahead;
mod beyond;
mod causes;
mod coming_words;
mod expected;
mod glued_lines;
mod handling;
pub mod laws;
mod lines_at_end;
mod long_lines;
mod lost_blocks;
mod misplaced_words;
mod misplacements;
mod next_symbols;
mod openings;
mod sequences;
mod shifts;
mod texts;
mod trailing;
mod trailing_words;
mod truncated_words;
mod versions;
mod wanted;
mod works;
mod wrapped_lines;
mod wrong_numbers;

pub use ahead::Ahead;
pub use beyond::{
    Beyond, FaultyLine, add_refused, before_last, explain_fault, look_after_line, peek_numbers,
};
pub use lines_at_end::{LineAtEnd, line_at_end};
pub use next_symbols::{coming, may_come};
pub use trailing::{Trailing, read_trailing};
pub use trailing_words::add_trailing;
pub use truncated_words::add_truncated;
pub use works::{open_work, own_work, refused_work};
