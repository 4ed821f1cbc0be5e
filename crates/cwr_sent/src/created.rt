//! When a transmission was created.

ghost use Rattle.std.specs.Prelude.{◌≡◌, ◌≤◌, length};
ghost use Rattle.cwr_fields.specs.Format.Bytes.{number_of};
ghost use Rattle.cwr_sent.specs.Format.Answers.{is_before};
ghost use Rattle.cwr_sent.specs.Format.SentFacts.{created_of};

use cwr_fields::Kind;
use cwr_findings::{cell, is_of, number_of};
use cwr_lines::RecordRef;

/// HDR: creation date.
const DATE: u8 = 6;

/// HDR: creation time.
const TIME: u8 = 7;

/// When a transmission was created, as its HDR record says (fields 6 and 7).
#[derive(Clone, Copy, Debug, PartialEq, Eq)]
pub struct Created {
    /// The date, as the number of its eight digits: year, month, day.
    pub date: u32,
    /// The time, as the number of its six digits: hours, minutes, seconds.
    pub time: u32,
}

/// The number that up to eight bytes of digits write.
pub fn small_number(cell: &[u8]) -> u32
    requires { length cell.now ≤ 8 }
    ensures { result ≡ number_of cell.now }
{
    number_of(cell) as u32
}

/// What stands for a time that isn't known.
pub(crate) const NEVER: Created = Created { date: 0, time: 0 };

impl Created {
    /// When a transmission with that HDR record was created.
    pub(crate) fn of(opening: &RecordRef<'_>) -> Self
        ensures { result ≡ created_of opening.now }
    {
        if !is_of(opening, Kind::Hdr) {
            return NEVER;
        }
        Created {
            date: small_number(cell(opening, DATE)),
            time: small_number(cell(opening, TIME)),
        }
    }

    /// Whether that is before another.
    pub(crate) fn is_before(&self, other: &Created) -> bool
        ensures { result ≡ is_before self.now other.now }
    {
        if self.date == other.date {
            self.time < other.time
        } else {
            self.date < other.date
        }
    }
}
