//! Laws of tables, as the contracts of functions without parameters.

ghost use Rattle.cwr_tables.specs.Format.Laws.{RowsReadBack};

/// Rows are read back as their cells, by the rules of RFC 4180.
pub fn rows_read_back()
    ensures { RowsReadBack }
{}
