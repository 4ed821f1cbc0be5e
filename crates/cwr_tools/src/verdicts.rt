//! How a run over a text ended.

ghost use Rattle.std.specs.Prelude.{◌≡◌};
ghost use Rattle.cwr_tools.specs.Format.Reports.{fault_after};

use cwr_decode::Refusal;
use cwr_shape::LimitKind;

/// How a run over a text ended.
#[derive(Clone, Copy, Debug, PartialEq, Eq)]
pub enum Verdict {
    /// The text begins with a transmission within the limits.
    Good {
        /// Its groups.
        groups: u32,
        /// Its transactions.
        transactions: u32,
        /// Its records, HDR and TRL counted.
        records: u32,
    },
    /// It doesn't, from this place on.
    Refused(Refusal),
    /// It ends before a transmission does.
    Truncated {
        /// The records that were read.
        records: u32,
    },
}

/// Why a run over texts stopped before its end.
#[derive(Clone, Copy, Debug, PartialEq, Eq)]
pub enum ToolFault {
    /// The reader failed.
    Reader,
    /// The writer failed.
    Writer {
        /// The bytes that were written before. It stays at `u64::MAX`; the text is then at least that long.
        written: u64,
    },
    /// There was no memory.
    Memory,
    /// An input was refused.
    Refused(Refusal),
    /// An input ended before its transmission did.
    Truncated {
        /// The records that were read.
        records: u32,
    },
    /// An output couldn't be made or finished.
    Output,
    /// The result doesn't keep to a limit.
    Limit(LimitKind),
}

impl ToolFault {
    /// The same fault, of a run that wrote so many bytes before what failed.
    pub fn after(self, written: u64) -> ToolFault
        ensures { result ≡ fault_after written self }
    {
        match self {
            ToolFault::Writer { written: more } => ToolFault::Writer {
                written: written.saturating_add(more),
            },
            fault => fault,
        }
    }
}

/// What a join wrote.
#[derive(Clone, Copy, Debug, PartialEq, Eq)]
pub struct JoinReport {
    /// The inputs.
    pub inputs: usize,
    /// The groups of the result.
    pub groups: u32,
    /// Its transactions.
    pub transactions: u32,
    /// Its records, HDR and TRL counted.
    pub records: u32,
}

/// Why a join stopped before its end.
#[derive(Clone, Copy, Debug, PartialEq, Eq)]
pub struct JoinFault {
    /// The number of the input in hand, from 1. At the end that is the last one.
    pub input: usize,
    /// What came.
    pub fault: ToolFault,
}

/// What a split wrote.
#[derive(Clone, Copy, Debug, PartialEq, Eq)]
pub struct SplitReport {
    /// The outputs.
    pub outputs: u32,
    /// The transactions in them.
    pub transactions: u32,
}
