//! What tables there are.

use cwr_fields::Kind;

/// What a table has rows of.
#[derive(Clone, Copy, Debug, PartialEq, Eq)]
pub enum Table {
    /// The records of a kind.
    Records(Kind),
    /// The works, new and revised.
    Works,
}
