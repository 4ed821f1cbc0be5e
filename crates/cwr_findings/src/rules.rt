//! The rules for accepted transactions.

ghost use Rattle.std.specs.Prelude.{◌≡◌, ◌≤◌, length};
ghost use Rattle.cwr_findings.specs.Format.ReportLines.{rule_text};

use cwr_shape::Level;

/// A rule of this profile for accepted transactions. `docs/FORMAT.md` has their texts.
#[derive(Clone, Copy, Debug, PartialEq, Eq)]
pub enum Rule {
    /// A work code has the right check digit.
    V1,
    /// A territory names the publisher or writer before it.
    V2,
    /// The performing right's shares add up.
    V3,
    /// The mechanical right's shares add up.
    V4,
    /// The synchronization right's shares add up.
    V5,
    /// Some writer wrote words or music.
    V6,
    /// A writer's publisher is a publisher of the work.
    V7,
    /// Only an excerpt names the work that it is taken from.
    V8,
    /// A composite work has as many components as it says.
    V9,
    /// An agreement doesn't end before it starts.
    V10,
    /// In a block of an agreement no side has more than the whole.
    V11,
}

impl Rule {
    /// Its name, as it stands in a report line.
    pub fn name(self) -> &'static str
        ensures name { result.now ≡ rule_text self }
        ensures short { length result.now ≤ 3 }
    {
        match self {
            Rule::V1 => "V1",
            Rule::V2 => "V2",
            Rule::V3 => "V3",
            Rule::V4 => "V4",
            Rule::V5 => "V5",
            Rule::V6 => "V6",
            Rule::V7 => "V7",
            Rule::V8 => "V8",
            Rule::V9 => "V9",
            Rule::V10 => "V10",
            Rule::V11 => "V11",
        }
    }
}

/// A rule that a record of a transaction breaks.
#[derive(Clone, Copy, Debug, PartialEq, Eq)]
pub struct Finding {
    /// The record's sequence in its transaction, from 0.
    pub rec: usize,
    /// The number of the field, from 1.
    pub field: u8,
    /// The rule.
    pub rule: Rule,
    /// How much the finding concerns.
    pub level: Level,
}
