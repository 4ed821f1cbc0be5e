//! Where and why a text is refused.

ghost use Rattle.std.specs.Prelude.{Some};
ghost use Rattle.cwr_judge.specs.Format.RefusalTexts.{refusal_text};

use cwr_shape::{Level, Reason};
use std::fmt::{self, Display, Formatter, Write};

/// The first place at which no transmission within the limits continues, and why.
#[derive(Clone, Copy, Debug, PartialEq, Eq)]
pub struct Refusal {
    /// The number of the record, from 1 for HDR, over the whole transmission.
    pub rec: u32,
    /// The number of the field, from 1. One past the kind's last field is what stands after it.
    pub field: u8,
    /// How much the refusal rejects.
    pub level: Level,
    /// Why.
    pub reason: Reason,
}

impl Display for Refusal {
    ghost output = { λ refusal. Some (refusal_text refusal) };

    fn fmt<O: Write>(&self, f: &mut Formatter<O>) -> fmt::Result {
        write!(
            f,
            "record {} field {} level {} {}",
            self.rec, self.field, self.level, self.reason
        )
    }
}
