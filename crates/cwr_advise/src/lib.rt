//! Advice on CWR 2.1 transmissions, over readers and writers.
#![tactic(auto)]

mod advice_lines;
mod advice_texts;
mod before;
mod item_advice;
mod kept_works;
pub mod laws;
mod repeats;
mod told;
mod worst;

pub use advice_lines::AdviceLines;
pub use item_advice::{Manner, advised};
pub use told::AdviceCounts;
