//! Days that cells name, and whether they are to come.

ghost use Rattle.std.specs.Prelude.{◌≡◌, ◌≤◌, length};
ghost use Rattle.std.specs.Option.{is_some};
ghost use Rattle.cwr_findings.specs.Format.Findings.{is_day};
ghost use Rattle.cwr_advice.specs.Format.Days.{day_in, is_to_come};

use cwr_fields::is_spaces;
use cwr_findings::number_of;

/// Whether the cell of a date names a day: it isn't blank, and not all zeros.
fn is_day(cell: &[u8]) -> bool
    requires { length cell.now ≤ 8 }
    ensures { result ≡ is_day cell.now }
{
    !is_spaces(cell) && !(number_of(cell) == 0)
}

/// The day that a cell names, as the number of its eight digits.
pub(crate) fn day_in(cell: &[u8]) -> Option<u64>
    ensures { result ≡ day_in cell.now }
{
    if cell.len() == 8 && is_day(cell) {
        Some(number_of(cell))
    } else {
        None
    }
}

/// Whether the cell names a day.
pub(crate) fn names_day(cell: &[u8]) -> bool
    ensures { result ≡ is_some (day_in cell.now) }
{
    day_in(cell).is_some()
}

/// Whether the cell names a day after that one.
pub(crate) fn is_to_come(sent: Option<u64>, cell: &[u8]) -> bool
    ensures { result ≡ is_to_come sent cell.now }
{
    match (day_in(cell), sent) {
        (Some(day), Some(sent)) => sent < day,
        _ => false,
    }
}
