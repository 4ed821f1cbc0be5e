//! Advice on transactions: what a society will send back, though the file is well formed.
#![tactic(auto)]

mod advice_questions;
mod alone;
mod asking;
mod characters;
mod checked_cells;
mod days;
mod facts;
mod kept;
mod kept_headers;
mod kept_writers;
mod numbers;
mod owing;
mod owners;
mod rules;
mod said;
mod shifts;
mod societies;
mod stated;
mod territories;
mod territory_cells;
mod walk;
mod writers;

pub use characters::Characters;
pub use kept::AdviceSums;
pub use rules::{Advice, AdviceRule, Asked, RULE_COUNT, rule_at};
pub use said::Said;
pub use walk::advice;
