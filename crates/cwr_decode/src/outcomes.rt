//! What a decoder answers.

use cwr_judge::Refusal;
use cwr_values::Item;

/// What a decoder answers to a piece, or to the end of the input.
#[derive(Drop)]
pub enum Outcome {
    /// The whole piece was used, and more is needed.
    More,
    /// The next item.
    Item(Item),
    /// No transmission within the limits continues so.
    Refused(Refusal),
    /// The input has ended, and no transmission is whole.
    Truncated {
        /// How many lines the input has.
        records: u32,
    },
    /// Memory for an accepted record was refused.
    Memory,
    /// All items were handed out.
    Done,
}

/// What a call of a decoder did.
#[derive(Drop)]
pub struct Answer {
    /// How many bytes of the piece were used, from its start.
    pub used: usize,
    /// What is answered.
    pub outcome: Outcome,
}
