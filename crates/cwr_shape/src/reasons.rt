//! Why a text is refused, and how much that rejects.

use crate::limits::LimitKind;
use cwr_fields::CellFault;

/// Why a text is refused at a field. Where several hold, the first of this list is reported.
#[derive(Clone, Copy, Debug, PartialEq, Eq)]
pub enum Reason {
    /// The line's first three bytes name no kind.
    UnknownKind,
    /// No transmission's records begin so.
    Misplaced,
    /// The cell isn't one of its type.
    Cell(CellFault),
    /// The cell isn't the number that belongs there.
    Number {
        /// The number that belongs there.
        expected: u64,
    },
    /// Transmissions continue so, but none within the limit.
    Limit(LimitKind),
    /// Something stands after the last field, or the line is too long.
    Excess,
}

/// How much a refusal rejects.
#[derive(Clone, Copy, Debug, PartialEq, Eq)]
pub enum Level {
    /// The entire file.
    E,
    /// The group.
    G,
    /// The transaction.
    T,
    /// The record.
    R,
    /// The field.
    F,
}
