//! The records that the rules speak of: those of a transaction, or of an acknowledgement those of its copy.

ghost use Rattle.std.specs.Prelude.{◌≡◌, ◌+◌, ◌^◌, ◌<◌, ◌≤◌, drop, length, option_map, slice_get};
ghost use Rattle.cwr_findings.specs.Format.Findings.{before_copy, stands_before_copy};

use crate::named_cells::is_of;
use cwr_fields::Kind;
use cwr_lines::RecordRef;
use cwr_values::Transaction;
use std::marker::Model;

/// Whether a record is one that stands before a copy.
#[inline(always)]
pub(crate) fn stands_before_copy(shown: &RecordRef<'_>) -> bool
    ensures { result ≡ stands_before_copy shown.now }
{
    is_of(shown, Kind::Ack) || is_of(shown, Kind::Msg)
}

/// How many records of a transaction stand before its copy: those of an acknowledgement, and none of an agreement or a
/// work.
fn before_copy(transaction: &Transaction) -> usize
    ensures value { result ≡ before_copy transaction.now }
    ensures within { result ≤ length transaction.now }
    ensures few { length transaction.now < 2 ^ 64 }
{
    for at in 0..transaction.len() {
        let Some(shown) = transaction.record(at) else {
            return at;
        };
        if !stands_before_copy(&shown) {
            return at;
        }
    }
    transaction.len()
}

/// The records that the rules speak of, as a transaction of its own.
#[derive(Drop)]
pub(crate) struct Registered<'a> {
    transaction: &'a Transaction,
    /// How many records of the transaction stand before them.
    start: usize,
}

impl<'a> Model for Registered<'a> {
    ghost use Rattle.std.specs.Prelude.{List, drop, length, ◌≤◌};
    ghost use Rattle.cwr_lines.specs.Format.Records.{RecordValue};

    ghost Value = { List RecordValue };

    ghost view = { λ r. drop r.start r.transaction.now };

    ghost invariant = { λ r. r.start ≤ length r.transaction.now };
}

impl<'a> Registered<'a> {
    /// Those of a transaction, and how many stand before them.
    pub(crate) fn of(transaction: &'a Transaction) -> (Registered<'a>, usize)
        ensures value { result.0 ≡ drop (before_copy transaction.now) transaction.now }
        ensures start { result.1 ≡ before_copy transaction.now }
        ensures room { result.1 + length result.0 < 2 ^ 64 }
    {
        let start = before_copy(transaction);
        (Registered { transaction, start }, start)
    }

    /// How many there are.
    #[inline(always)]
    pub(crate) fn len(&self) -> usize
        ensures len { result ≡ length self.now }
    {
        self.transaction.len() - self.start
    }

    /// Record `i`, from 0. `None` where there is none.
    #[inline(always)]
    pub(crate) fn record(&self, i: usize) -> Option<RecordRef<'a>>
        ensures value { result ≡ slice_get self.now i }
    {
        let whole = self.transaction.len();
        if i >= whole - self.start {
            return None;
        }
        self.transaction.record(self.start + i)
    }

    /// The kind of the first, if there is one.
    #[inline(always)]
    pub(crate) fn kind(&self) -> Option<Kind>
        ensures value { result ≡ option_map (λ r. r.kind) (slice_get self.now 0) }
    {
        self.record(0).map(|header| header.kind())
    }
}
