//! The numbers of a selection.

/// How many transactions were selected, and of how many.
#[derive(Clone, Copy, Debug, PartialEq, Eq)]
pub struct SelectReport {
    /// The transactions that were selected.
    pub selected: u32,
    /// All transactions of the input.
    pub transactions: u32,
}
