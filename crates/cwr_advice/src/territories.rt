//! Territories of a work, compared with one another.

ghost use Rattle.std.specs.Prelude.{◌≡◌, ◌+◌, ◌<◌, ◌^◌, ℕ, List, take, true, [], ◌++◌, ◌∷◌};
ghost use Rattle.std.specs.List.{list_any, after_last};
ghost use Rattle.cwr_lines.specs.Format.Records.{RecordValue};
ghost use Rattle.cwr_findings.specs.Format.Findings.{is_owner};
ghost use Rattle.cwr_advice.specs.Format.Rules.{are_over_in, goes_over, is_compared, is_territory_of, stands_twice};
ghost use Rattle.cwr_advice.specs.Steps.Facts.{AreCollectedIn, AreFacts};

use crate::facts::Facts;
use crate::owners::Owned;
use crate::territory_cells::{code_of, collected_by, is_territory, is_territory_of};
use cwr_fields::is_spaces;
use cwr_findings::is_owner;
use cwr_lines::RecordRef;
use cwr_values::Transaction;

impl Owned {
    /// With what one more record collects in the territory of that number.
    fn with_collected(self, code: &[u8], shown: &RecordRef<'_>) -> Owned
        ensures { (rs : List RecordValue) → AreCollectedIn code.now rs self
            → AreCollectedIn code.now (rs ++ shown.now ∷ []) result }
    {
        let more = collected_by(code, shown);
        Owned {
            performing: self.performing.saturating_add(more.performing),
            mechanical: self.mechanical.saturating_add(more.mechanical),
            synchronization: self.synchronization.saturating_add(more.synchronization),
        }
    }

    /// Whether it is more than the whole, in one or more rights.
    fn are_over(&self) -> bool
        ensures { (code : List ℕ) (rs : List RecordValue) → AreCollectedIn code rs self.now
            → result ≡ are_over_in code rs }
    {
        self.performing > 10006 || self.mechanical > 10006 || self.synchronization > 10006
    }
}

/// What the first `end` records collect in the territory of that number.
fn collected_in(code: &[u8], transaction: &Transaction, end: usize) -> Owned
    ensures { AreCollectedIn code.now (take end transaction.now) result }
{
    let mut collected = Owned {
        performing: 0,
        mechanical: 0,
        synchronization: 0,
    };
    for at in 0..end {
        let Some(shown) = transaction.record(at) else {
            return collected;
        };
        collected = collected.with_collected(code, &shown);
    }
    collected
}

/// Whether one of the first `end` records is the territory of that number, and stands after the last publisher or writer of these.
fn stands_since_party(code: &[u8], transaction: &Transaction, end: usize) -> bool
    ensures { result
        ≡ list_any (is_territory_of code.now) (after_last is_owner (take end transaction.now)) }
{
    let mut left = end;
    while left > 0 {
        left -= 1;
        if let Some(shown) = transaction.record(left) {
            if is_owner(&shown) {
                return false;
            }
            if is_territory_of(code, &shown) {
                return true;
            }
        }
    }
    false
}

/// Whether the record is a territory whose number is filled in, in a work that has few.
fn is_compared(facts: &Facts, shown: &RecordRef<'_>) -> bool
    ensures { (t : List RecordValue) → AreFacts t facts.now → result ≡ is_compared t shown.now }
{
    if !is_territory(shown) {
        return false;
    }
    facts.has_few_territories() && !is_spaces(code_of(shown))
}

/// Whether with this territory more than the whole is collected there, and without it not.
pub(crate) fn goes_over(
    transaction: &Transaction,
    facts: &Facts,
    sequence: usize,
    shown: &RecordRef<'_>,
) -> bool
    requires facts { AreFacts transaction.now facts.now }
    requires room { sequence + 1 < 2 ^ 64 }
    ensures { result ≡ goes_over transaction.now sequence shown.now }
{
    if !is_compared(facts, shown) {
        return false;
    }
    let code = code_of(shown);
    collected_in(code, transaction, sequence + 1).are_over()
        && !collected_in(code, transaction, sequence).are_over()
}

/// Whether the same territory stands before it already, after the last publisher or writer.
pub(crate) fn stands_twice(
    transaction: &Transaction,
    facts: &Facts,
    sequence: usize,
    shown: &RecordRef<'_>,
) -> bool
    requires { AreFacts transaction.now facts.now }
    ensures { result ≡ stands_twice transaction.now sequence shown.now }
{
    if !is_compared(facts, shown) {
        return false;
    }
    stands_since_party(code_of(shown), transaction, sequence)
}
