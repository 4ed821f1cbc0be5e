//! The words for limits, reasons, levels, bars and faults.

ghost use Rattle.std.specs.Prelude.{◌≡◌, ◌≤◌, Some, length};
ghost use Rattle.cwr_shape.specs.Format.ReasonTexts.{level_text, limit_text, reason_text};

use crate::limits::{LimitKind, LimitsFault};
use crate::reasons::{Level, Reason};
use crate::tallies::Bar;
use std::error::Error;
use std::fmt::{self, Display, Formatter, Write};

impl LimitKind {
    /// The word for it, as it stands in a report line.
    pub fn word(self) -> &'static str
        ensures word { result.now ≡ limit_text self }
        ensures short { length result.now ≤ 11 }
    {
        match self {
            LimitKind::Records => "records",
            LimitKind::Groups => "groups",
            LimitKind::Transaction => "transaction",
        }
    }
}

impl Display for LimitKind {
    ghost output = { λ limit. Some (limit_text limit) };

    fn fmt<O: Write>(&self, f: &mut Formatter<O>) -> fmt::Result {
        f.pad(self.word())
    }
}

impl Display for Reason {
    ghost output = { λ reason. Some (reason_text reason) };

    fn fmt<O: Write>(&self, f: &mut Formatter<O>) -> fmt::Result {
        match self {
            Reason::UnknownKind => f.pad("unknown kind"),
            Reason::Misplaced => f.pad("misplaced"),
            Reason::Cell(fault) => write!(f, "{fault}"),
            Reason::Number { expected } => write!(f, "number expected {expected}"),
            Reason::Limit(limit) => write!(f, "limit {limit}"),
            Reason::Excess => f.pad("excess"),
        }
    }
}

impl Level {
    /// Its letter, as it stands in a report line.
    pub fn letter(self) -> &'static str
        ensures letter { result.now ≡ level_text self }
        ensures short { length result.now ≡ 1 }
    {
        match self {
            Level::E => "E",
            Level::G => "G",
            Level::T => "T",
            Level::R => "R",
            Level::F => "F",
        }
    }
}

impl Display for Level {
    ghost output = { λ level. Some (level_text level) };

    fn fmt<O: Write>(&self, f: &mut Formatter<O>) -> fmt::Result {
        f.pad(self.letter())
    }
}

impl Display for LimitsFault {
    fn fmt<O: Write>(&self, f: &mut Formatter<O>) -> fmt::Result {
        f.pad(match self {
            LimitsFault::Records => "limit of records out of range",
            LimitsFault::Groups => "limit of groups out of range",
            LimitsFault::Transaction => "limit of a transaction's records out of range",
        })
    }
}

impl Error for LimitsFault {}

impl Display for Bar {
    fn fmt<O: Write>(&self, f: &mut Formatter<O>) -> fmt::Result {
        match self {
            Bar::Misplaced => write!(f, "{}", Reason::Misplaced),
            Bar::Limit(limit) => write!(f, "{}", Reason::Limit(*limit)),
        }
    }
}

impl Error for Bar {}
