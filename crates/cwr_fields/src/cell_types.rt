//! The types of cells, and the faults of texts that aren't one of them.

use crate::tables::Table;

/// What a cell may hold. The sets are those of this profile of CWR 2.1.
#[derive(Clone, Copy, Debug, PartialEq, Eq)]
pub enum CellType {
    /// Any bytes but control bytes.
    Text,
    /// Text that isn't all spaces.
    Required,
    /// Digits only.
    Number,
    /// Spaces, or digits only.
    OptNumber,
    /// `YYYYMMDD`, a day of the Gregorian calendar in the years 1 to 9999.
    Date,
    /// Spaces, eight zeros, or a date.
    OptDate,
    /// `HHMMSS`, a time of day.
    Time,
    /// Spaces, or a time of day.
    OptTime,
    /// Spaces, or `HHMMSS` with at most 99 hours.
    OptDuration,
    /// Spaces, or five digits, at most 10000: hundredths of a percent.
    Share,
    /// `Y`, `N`, `U` or a space.
    Flag,
    /// A code of the table, filled up with spaces on the right.
    Code(Table),
    /// Spaces, or a code of the table.
    OptCode(Table),
    /// One word and nothing else.
    Constant(Word),
}

/// The word that a constant cell holds.
#[derive(Clone, Copy, Debug, PartialEq, Eq)]
pub enum Word {
    /// `01.10`, the version of the EDI standard in HDR.
    Edi,
    /// `02.10`, the version of a group's transactions in GRH.
    Group,
}

impl Word {
    ghost use Rattle.std.specs.Prelude.{◌≡◌};
    ghost use Rattle.cwr_fields.specs.Format.Codes.{word_text};

    /// The word's letters.
    pub fn text(self) -> &'static [u8]
        ensures { result.now ≡ word_text self }
    {
        match self {
            Word::Edi => b"01.10",
            Word::Group => b"02.10",
        }
    }
}

/// Why a cell isn't one of its type. Where two hold, the first in the list of its type is reported.
#[derive(Clone, Copy, Debug, PartialEq, Eq)]
pub enum CellFault {
    /// All spaces, where something must stand.
    Blank,
    /// A control byte: one of 0 to 31, or 127.
    Control,
    /// Something else than digits.
    NotDigits,
    /// No day of the calendar.
    NotADate,
    /// No time of day, or no duration.
    NotATime,
    /// More than 10000 hundredths of a percent.
    OverShare,
    /// No code of the table, or no flag.
    NotACode,
    /// Something else than the word.
    NotConstant,
}
