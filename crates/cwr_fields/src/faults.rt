//! The texts of faults, for people who read them.

ghost use Rattle.std.specs.Prelude.{◌≡◌, ◌≤◌, Some, length};
ghost use Rattle.cwr_fields.specs.Format.FaultTexts.{fault_text};

use crate::cell_types::CellFault;
use std::error::Error;
use std::fmt::{self, Display, Formatter, Write};

impl CellFault {
    /// The words for it, as they stand in a report line.
    pub fn words(self) -> &'static str
        ensures words { result.now ≡ fault_text self }
        ensures short { length result.now ≤ 17 }
    {
        match self {
            CellFault::Blank => "cell blank",
            CellFault::Control => "cell control",
            CellFault::NotDigits => "cell not digits",
            CellFault::NotADate => "cell not a date",
            CellFault::NotATime => "cell not a time",
            CellFault::OverShare => "cell over share",
            CellFault::NotACode => "cell not a code",
            CellFault::NotConstant => "cell not constant",
        }
    }
}

impl Display for CellFault {
    ghost output = { λ fault. Some (fault_text fault) };

    fn fmt<O: Write>(&self, f: &mut Formatter<O>) -> fmt::Result {
        f.pad(self.words())
    }
}

impl Error for CellFault {}
