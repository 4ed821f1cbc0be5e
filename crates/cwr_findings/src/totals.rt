//! What the rules ask of all records of a transaction: sums and counts.

ghost use Rattle.std.specs.Prelude.{◌≡◌, ◌+◌, ◌^◌, ◌<◌, ◌++◌, ◌∷◌, [], List, length};
ghost use Rattle.cwr_lines.specs.Format.Records.{RecordValue};
ghost use Rattle.cwr_findings.specs.Format.Findings.{is_author, names_author};
ghost use Rattle.cwr_findings.specs.Steps.Walks.{AreTotals};

use crate::named_cells::{DESIGNATION, cell, is_of, is_owner};
use crate::registered::Registered;
use crate::shares::Shares;
use cwr_fields::Kind;
use cwr_lines::RecordRef;

/// Whether the designation is that of someone who has written words or music.
#[inline(always)]
fn names_author(designation: &[u8]) -> bool
    ensures { result ≡ names_author designation.now }
{
    designation == b"A ".as_slice()
        || designation == b"C ".as_slice()
        || designation == b"CA".as_slice()
}

/// Whether the record is a writer who has written words or music.
#[inline(always)]
fn is_author(shown: &RecordRef<'_>) -> bool
    ensures { result ≡ is_author shown.now }
{
    match shown.kind() {
        Kind::Swr | Kind::Owr => names_author(cell(shown, DESIGNATION)),
        _ => false,
    }
}

/// Sums and counts over the records of a transaction.
#[derive(Clone, Copy)]
pub(crate) struct TransactionTotals {
    /// The shares of the owners.
    pub(crate) ownership: Shares,
    /// Whether some writer has written words or music.
    pub(crate) has_author: bool,
    /// How many COM records there are.
    pub(crate) components: u64,
    /// How many records there are up to the last SPU.
    pub(crate) publishers_end: usize,
}

impl TransactionTotals {
    /// Those over no record.
    #[inline(always)]
    pub(crate) fn none() -> TransactionTotals
        ensures { AreTotals [] result }
    {
        TransactionTotals {
            ownership: Shares::none(),
            has_author: false,
            components: 0,
            publishers_end: 0,
        }
    }

    /// With one more record, which may count and stands after `sequence` others. It is kept out of what calls it, which is made anew
    /// for each kind and has to stay small. `A` is as for `with`.
    #[inline(never)]
    fn with_counted<A>(self, sequence: usize, shown: &RecordRef<'_>) -> TransactionTotals
        requires { sequence + 1 < 2 ^ 64 }
        ensures { (rs : List RecordValue) → length rs ≡ sequence → AreTotals rs self
            → AreTotals (rs ++ shown.now ∷ []) result }
    {
        let author = is_author(shown);
        let component = is_of(shown, Kind::Com);
        let totals = TransactionTotals {
            ownership: self.ownership.with(shown, is_owner(shown)),
            has_author: self.has_author | author,
            components: self.components.saturating_add(u64::from(component)),
            publishers_end: self.publishers_end,
        };
        if !is_of(shown, Kind::Spu) {
            return totals;
        }
        TransactionTotals {
            publishers_end: sequence + 1,
            ..totals
        }
    }

    /// With one more record, which stands after `sequence` others. Most kinds count nothing. `A` says nothing of the record: where
    /// there is an instance for each kind, the compiler knows the kind there.
    #[inline(always)]
    pub(crate) fn with<A>(self, sequence: usize, shown: &RecordRef<'_>) -> TransactionTotals
        requires { sequence + 1 < 2 ^ 64 }
        ensures { (rs : List RecordValue) → length rs ≡ sequence → AreTotals rs self
            → AreTotals (rs ++ shown.now ∷ []) result }
    {
        match shown.kind() {
            Kind::Spu | Kind::Opu | Kind::Swr | Kind::Owr | Kind::Com => {
                self.with_counted::<A>(sequence, shown)
            }
            _ => self,
        }
    }

    /// Those over the records of a transaction.
    pub(crate) fn of(transaction: &Registered<'_>) -> TransactionTotals
        ensures { AreTotals transaction.now result }
    {
        let mut totals = TransactionTotals::none();
        for sequence in 0..transaction.len() {
            let Some(shown) = transaction.record(sequence) else {
                return totals;
            };
            totals = totals.with::<()>(sequence, &shown);
        }
        totals
    }
}
