//! Where an item stands, as its notes say.

/// The numbers of an item in its transmission.
#[derive(Clone, Copy, Debug, PartialEq, Eq)]
pub struct Notes {
    /// The ID of its group, from 1.
    pub group: u64,
    /// The sequence of a transaction in its group, from 0.
    pub transaction: u64,
    /// The line of its first record, from 1.
    pub line: u64,
}
