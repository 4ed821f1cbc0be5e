//! Which publishers a work has, by their interested party's numbers.

ghost use Rattle.std.specs.Prelude.{◌≡◌, take, IfOk};
ghost use Rattle.std.specs.List.{list_any};
ghost use Rattle.cwr_findings.specs.Steps.Walks.{HasNumbersOf, KnowsNumbersOf, is_publisher};

use crate::named_cells::{PUBLISHER_NUMBER, cell, is_of};
use crate::registered::Registered;
use cwr_fields::Kind;
use cwr_lines::RecordRef;
use std::alloc::{AllocFailed, Global};
use std::collections::BTreeSet;

/// Among so many records a publisher is found one by one as quickly as in a set.
const FEW: usize = 32;

/// Whether the record is an SPU of this number.
fn is_publisher(number: &[u8], shown: &RecordRef<'_>) -> bool
    ensures { result ≡ is_publisher number.now shown.now }
{
    match shown.kind() {
        Kind::Spu => number == cell(shown, PUBLISHER_NUMBER),
        _ => false,
    }
}

/// Whether one of the first `end` records is an SPU of this number.
fn has_publisher(transaction: &Registered<'_>, end: usize, number: &[u8]) -> bool
    ensures { result ≡ list_any (is_publisher number.now) (take end transaction.now) }
{
    for i in 0..end {
        let Some(shown) = transaction.record(i) else {
            break;
        };
        if is_publisher(number, &shown) {
            return true;
        }
    }
    false
}

/// The numbers of the SPU records among the first `end` records.
///
/// # Errors
///
/// Out of memory.
fn numbers_among<'a>(
    alloc: Global,
    transaction: &Registered<'a>,
    end: usize,
) -> Result<BTreeSet<&'a [u8]>, AllocFailed<&'a [u8]>>
    ensures { IfOk result (HasNumbersOf (take end transaction.now)) }
{
    let mut numbers = BTreeSet::new(alloc);
    for i in 0..end {
        let Some(shown) = transaction.record(i) else {
            break;
        };
        if is_of(&shown, Kind::Spu) {
            numbers.insert(cell(&shown, PUBLISHER_NUMBER))?;
        }
    }
    Ok(numbers)
}

/// What tells which publishers a work has.
#[derive(Drop)]
pub(crate) struct Publishers<'a> {
    /// Their numbers, where there may be many, and memory was there.
    numbers: Option<BTreeSet<&'a [u8]>>,
}

impl<'a> Publishers<'a> {
    /// Those among the first `end` records.
    pub(crate) fn among(alloc: Global, transaction: &Registered<'a>, end: usize) -> Publishers<'a>
        ensures { KnowsNumbersOf (take end transaction.now) result }
    {
        if end <= FEW {
            return Publishers { numbers: None };
        }
        Publishers {
            numbers: numbers_among(alloc, transaction, end).ok(),
        }
    }

    /// Whether one among the first `end` records has this number.
    pub(crate) fn have(&self, transaction: &Registered<'_>, end: usize, number: &[u8]) -> bool
        requires { KnowsNumbersOf (take end transaction.now) self.now }
        ensures { result ≡ list_any (is_publisher number.now) (take end transaction.now) }
    {
        match &self.numbers {
            Some(numbers) => numbers.contains(number),
            None => has_publisher(transaction, end, number),
        }
    }
}
