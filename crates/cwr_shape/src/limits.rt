//! The limits that a caller hands in.

ghost use Rattle.std.specs.Prelude.{◌≡◌, ◌≤◌, None, Some, MatchResult};
ghost use Rattle.cwr_shape.specs.Format.Ranges.{AreInRange, limit_values, range_fault};

use std::marker::Model;

/// A limit of a transmission.
#[derive(Clone, Copy, Debug, PartialEq, Eq)]
pub enum LimitKind {
    /// All records of the transmission.
    Records,
    /// The groups of the transmission.
    Groups,
    /// The records of one transaction.
    Transaction,
}

/// How many records and groups a transmission may have, and how many records each of its transactions. Each number is
/// in the range that this profile gives it.
#[derive(Clone, Copy, Debug, PartialEq, Eq)]
pub struct Limits {
    records: u32,
    groups: u32,
    transaction: u32,
}

impl Model for Limits {
    ghost use Rattle.cwr_shape.specs.Format.Ranges.{LimitValues, AreInRange};

    ghost Value = { LimitValues };

    ghost view = { λ l. record { records = l.records; groups = l.groups; transaction = l.transaction } };

    ghost invariant = { λ l. AreInRange (record { records = l.records; groups = l.groups; transaction = l.transaction }) };

    ghost inverse = { λ v. record { records = v.records; groups = v.groups; transaction = v.transaction } };
}

/// The first limit that isn't in its range.
#[derive(Clone, Copy, Debug, PartialEq, Eq)]
pub enum LimitsFault {
    /// The limit of records isn't from 5 to 99,999,999.
    Records,
    /// The limit of groups isn't from 1 to 99,999.
    Groups,
    /// The limit of a transaction's records isn't from 1 to 999,999.
    Transaction,
}

impl Limits {
    /// Limits of all records (5 to 99,999,999), of groups (1 to 99,999) and of the records of one transaction
    /// (1 to 999,999). A number out of its range is refused, the first of them by name.
    pub fn new(records: u32, groups: u32, transaction: u32) -> Result<Limits, LimitsFault>
        ensures { MatchResult result
            (λ l. (l ≡ limit_values records groups transaction) × (range_fault l ≡ None) × AreInRange l)
            (λ e. range_fault (limit_values records groups transaction) ≡ Some e) }
    {
        if !(5..=99_999_999).contains(&records) {
            return Err(LimitsFault::Records);
        }
        if !(1..=99_999).contains(&groups) {
            return Err(LimitsFault::Groups);
        }
        if !(1..=999_999).contains(&transaction) {
            return Err(LimitsFault::Transaction);
        }
        Ok(Limits {
            records,
            groups,
            transaction,
        })
    }

    /// The most records of a transmission, HDR and TRL counted.
    pub fn records(&self) -> u32
        ensures value { result ≡ self.now.records }
        ensures in_range { AreInRange self.now }
    {
        self.records
    }

    /// The most groups of a transmission.
    pub fn groups(&self) -> u32
        ensures value { result ≡ self.now.groups }
        ensures in_range { AreInRange self.now }
    {
        self.groups
    }

    /// The most records of one transaction.
    pub fn transaction(&self) -> u32
        ensures value { result ≡ self.now.transaction }
        ensures in_range { AreInRange self.now }
    {
        self.transaction
    }
}
