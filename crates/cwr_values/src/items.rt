//! The items of a transmission, in the order in which reading hands them out and writing takes them.

use crate::transactions::Transaction;
use cwr_lines::ControlRecord;

/// One item of a transmission: a transaction, or one of the records that stand around transactions.
#[derive(Debug, Drop)]
pub enum Item {
    /// The transmission opens, with its HDR record.
    Opened(ControlRecord),
    /// A group opens, with its GRH record.
    GroupOpened(ControlRecord),
    /// A whole transaction of the open group.
    Transaction(Transaction),
    /// The open group closes, with its GRT record.
    GroupClosed(ControlRecord),
    /// The transmission ends. TRL carries nothing.
    Ended,
}
