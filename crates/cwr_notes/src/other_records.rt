//! The positions of records in a transaction, from 0: the first ones, and how many there are.

ghost use Rattle.std.specs.Prelude.{◌≡◌, ◌+◌, ◌<◌, ◌≤◌, ◌^◌, ◌++◌, ◌∷◌, ℕ, List, [], false, drop, length, if◌then◌else◌};
ghost use Rattle.std.specs.Option.{option_to_list};
ghost use Rattle.cwr_findings.specs.Format.Fields.{HasSharesFrom};
ghost use Rattle.cwr_findings.specs.Format.Findings.{is_owner, ownership, share_of};
ghost use Rattle.cwr_notes.specs.Format.FindingNotes.{parties_from, positions, right_of};
ghost use Rattle.cwr_notes.specs.Steps.OtherRecords.{AreListed, is_other};

use arrayvec::ArrayVec;
use cwr_fields::Kind;
use cwr_findings::{PUBLISHER_SHARES, Rule, WRITER_SHARES, cell, is_of, is_owner, number_of};
use cwr_lines::RecordRef;
use cwr_values::Transaction;

/// The most positions that are listed.
const MOST_OTHERS: usize = 20;

/// OtherRecords of records: the first ones, and how many there are.
#[derive(Drop)]
pub(crate) struct OtherRecords {
    pub(crate) listed: ArrayVec<usize, MOST_OTHERS>,
    pub(crate) count: usize,
}

impl OtherRecords {
    /// No position.
    pub(crate) fn none() -> OtherRecords
        ensures listed { AreListed [] result }
        ensures count { result.count ≡ 0 }
    {
        OtherRecords {
            listed: ArrayVec::new(),
            count: 0,
        }
    }

    /// With one position more.
    pub(crate) fn add(&mut self, position: usize)
        requires { self.old.count < 10 ^ 9 }
        ensures listed { (all : List ℕ) → AreListed all self.old
            → AreListed (all ++ position ∷ []) self.new }
        ensures count { self.new.count ≡ self.old.count + 1 }
    {
        let _fits = self.listed.try_push(position);
        self.count += 1;
    }

    /// With the position, where it counts.
    fn add_if(&mut self, counts: bool, position: usize)
        requires { self.old.count < 10 ^ 9 }
        ensures listed { (all : List ℕ) → AreListed all self.old
            → AreListed (all ++ (if counts then position ∷ [] else [])) self.new }
        ensures count { self.new.count ≤ self.old.count + 1 }
    {
        if counts {
            self.add(position);
        }
    }

    /// The same once more.
    pub(crate) fn copy(&self) -> OtherRecords
        ensures { (all : List ℕ) → AreListed all self.now → AreListed all result }
    {
        let mut listed = ArrayVec::new();
        let _fits = listed.try_extend_from_slice(self.listed.as_slice());
        OtherRecords {
            listed,
            count: self.count,
        }
    }

    /// The position, if there is one.
    pub(crate) fn of(position: Option<usize>) -> OtherRecords
        ensures { AreListed (option_to_list position) result }
    {
        let mut positions = OtherRecords::none();
        if let Some(position) = position {
            positions.add(position);
        }
        positions
    }
}

/// Whether the rule, on the header of a work, speaks of the record.
fn is_other(rule: Rule, shown: &RecordRef<'_>) -> bool
    ensures { result ≡ is_other rule shown.now }
{
    match rule {
        Rule::V6 => is_of(shown, Kind::Swr) || is_of(shown, Kind::Owr),
        Rule::V9 => is_of(shown, Kind::Com),
        _ => is_owner(shown),
    }
}

/// The positions of the records of which the rule, on the header of a work, speaks.
pub(crate) fn positions_of(rule: Rule, transaction: &Transaction) -> OtherRecords
    requires { length transaction.now ≤ 100000000 }
    ensures { AreListed (positions (is_other rule) transaction.now) result }
{
    let mut found = OtherRecords::none();
    for at in 0..transaction.len() {
        let Some(shown) = transaction.record(at) else {
            return found;
        };
        found.add_if(is_other(rule, &shown), at);
    }
    found
}

/// The positions of the parties of the block whose first territory has that position.
pub(crate) fn parties_of(transaction: &Transaction, first: usize) -> OtherRecords
    requires few { length transaction.now ≤ 100000000 }
    requires there { first < length transaction.now }
    ensures { AreListed (parties_from false (first + 1) (drop (first + 1) transaction.now)) result }
{
    let mut found = OtherRecords::none();
    let mut among_parties = false;
    for at in first + 1..transaction.len() {
        let Some(shown) = transaction.record(at) else {
            return found;
        };
        if is_of(&shown, Kind::Ipa) {
            found.add(at);
            among_parties = true;
            continue;
        }
        if among_parties && is_of(&shown, Kind::Ter) {
            return found;
        }
    }
    found
}

/// The record's share in the right of the rule, where the share in the first right stands in that field.
fn share_from(rule: Rule, shown: &RecordRef<'_>, first: u8) -> u64
    requires few { first < 20 }
    requires there { HasSharesFrom shown.now.kind first }
    ensures value { result ≡ share_of (right_of rule) shown.now }
    ensures small { result < 10 ^ 10 }
{
    match rule {
        Rule::V3 => number_of(cell(shown, first)),
        Rule::V4 => number_of(cell(shown, first + 2)),
        _ => number_of(cell(shown, first + 4)),
    }
}

/// The share of an owner in the right of the rule; of another record 0.
fn owned_share(rule: Rule, shown: &RecordRef<'_>) -> u64
    ensures value { result
        ≡ (if is_owner shown.now then share_of (right_of rule) shown.now else 0) }
    ensures small { result < 10 ^ 10 }
{
    match shown.kind() {
        Kind::Spu | Kind::Opu => share_from(rule, shown, PUBLISHER_SHARES),
        Kind::Swr | Kind::Owr => share_from(rule, shown, WRITER_SHARES),
        _ => 0,
    }
}

/// The shares of the owners in the right of the rule, added up.
pub(crate) fn total_of(rule: Rule, transaction: &Transaction) -> u64
    requires { length transaction.now ≤ 100000000 }
    ensures { result ≡ ownership (right_of rule) transaction.now }
{
    let mut total = 0;
    for at in 0..transaction.len() {
        let Some(shown) = transaction.record(at) else {
            return total;
        };
        total += owned_share(rule, &shown);
    }
    total
}
