//! The forms in which rows are put.

/// How a row is put.
#[derive(Clone, Copy, Debug, PartialEq, Eq)]
pub enum Form {
    /// The names of its columns, as a row of a table.
    Names,
    /// A line with what it is of, and one for each cell in which something other than 0 stands.
    Words,
    /// A row of a table as RFC 4180 has it.
    Csv,
    /// An object, as a line of JSON.
    Json,
}
