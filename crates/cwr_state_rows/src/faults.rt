//! What can go wrong while rows are put.

use cwr_devices::SinkFault;

/// What went wrong while rows were put.
#[derive(Clone, Copy, Debug, PartialEq, Eq)]
pub enum RowFault {
    /// Memory was refused.
    Memory,
    /// The writer failed.
    Writer(SinkFault),
}
