//! What the header of a transmission says that the advice on its transactions rests on.

ghost use Rattle.std.specs.Prelude.{◌≡◌};
ghost use Rattle.cwr_advice.specs.Format.Said.{nothing_said, said_by};

use crate::characters::Characters;
use crate::days::day_in;
use cwr_findings::cell;
use cwr_lines::RecordRef;

/// HDR: transmission date.
const TRANSMISSION_DATE: u8 = 8;

/// HDR: character set.
const CHARACTER_SET: u8 = 9;

/// What the header of a transmission says, as far as the advice on its transactions rests on that.
#[derive(Clone, Copy, Debug, PartialEq, Eq)]
pub struct Said {
    /// What it says of characters.
    pub characters: Characters,
    /// The day of the transmission, as the number of its eight digits, where that is known.
    pub sent: Option<u64>,
}

impl Said {
    /// Nothing of which anything is known here.
    pub fn nothing() -> Said
        ensures { result ≡ nothing_said }
    {
        Said {
            characters: Characters::Other,
            sent: None,
        }
    }

    /// What this header says.
    pub fn by(header: &RecordRef<'_>) -> Said
        ensures { result ≡ said_by header.now }
    {
        Said {
            characters: Characters::in_cell(cell(header, CHARACTER_SET)),
            sent: day_in(cell(header, TRANSMISSION_DATE)),
        }
    }
}
