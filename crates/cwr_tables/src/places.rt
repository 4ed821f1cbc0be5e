//! Where items and records stand in their transmission.

/// The numbers of an item in its transmission.
#[derive(Clone, Copy, Debug, PartialEq, Eq)]
pub struct Place {
    /// The ID of its group, from 1.
    pub group: u64,
    /// The sequence of a transaction in its group, from 0.
    pub transaction: u64,
}

/// The numbers of a record, with which its row begins.
#[derive(Clone, Copy, Debug)]
pub(crate) enum RowNumbers {
    /// It is HDR or TRL.
    Outside,
    /// It is GRH or GRT of the group with this ID.
    InGroup(u64),
    /// It is in a transaction.
    InTransaction {
        /// The ID of the group, from 1.
        group: u64,
        /// The sequence of the transaction in the group, from 0.
        transaction: u64,
        /// The sequence of the record in the transaction, from 0.
        sequence: u64,
    },
}
