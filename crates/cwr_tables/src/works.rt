//! The owners of a work: their shares added up, and whether their names call for quotes.

ghost use Rattle.std.specs.Prelude.{◌≡◌, ◌+◌, ◌*◌, ◌<◌, ◌≤◌, ◌^◌, length, true, None, Some, unwrap_or, if◌then◌else◌};
ghost use Rattle.cwr_fields.specs.Format.Bytes.{is_spaces, number_of};
ghost use Rattle.cwr_findings.specs.Format.Fields.{HasSharesFrom};
ghost use Rattle.cwr_json.specs.declared.encodings.Encoding.{Encoding};
ghost use Rattle.cwr_tables.specs.Format.WorkTables.{is_on, sums};
ghost use Rattle.cwr_tables.specs.Steps.WorkTexts.{AddsShares, AreSharesOf, both, name_needs_quotes, quotes};

use crate::cells::needs_quotes;
use cwr_fields::{Kind, is_spaces};
use cwr_findings::{PUBLISHER_SHARES, WRITER_SHARES, cell, is_of, number_of};
use cwr_lines::RecordRef;
use cwr_values::Transaction;

/// SWR, OWR: last name.
pub(crate) const LAST_NAME: u8 = 5;

/// SWR, OWR: first name.
pub(crate) const FIRST_NAME: u8 = 6;

/// SPU, OPU: publisher name.
pub(crate) const PUBLISHER_NAME: u8 = 6;

/// Some of those who own shares of a work.
#[derive(Clone, Copy, Debug)]
pub(crate) enum Side {
    /// Its writers.
    Writers,
    /// Its publishers.
    Publishers,
}

/// Shares in the three rights, in hundredths of a percent; `None` where only blank ones were added up.
#[derive(Clone, Copy, Debug)]
pub(crate) struct Sums {
    pub(crate) performing: Option<u64>,
    pub(crate) mechanical: Option<u64>,
    pub(crate) synchronization: Option<u64>,
}

/// Both shares, if there are two, and else the one that there is.
fn both(share: Option<u64>, more: Option<u64>) -> Option<u64>
    requires { unwrap_or share 0 + unwrap_or more 0 ≤ u64.MAX }
    ensures value { result ≡ both share more }
    ensures sum { unwrap_or result 0 ≡ unwrap_or share 0 + unwrap_or more 0 }
{
    match (share, more) {
        (Some(share), Some(more)) => Some(share + more),
        (Some(share), None) => Some(share),
        (None, more) => more,
    }
}

impl Sums {
    /// With as many more.
    fn plus(self, more: Sums) -> Sums
        requires performing { unwrap_or self.performing 0 + unwrap_or more.performing 0 ≤ u64.MAX }
        requires mechanical { unwrap_or self.mechanical 0 + unwrap_or more.mechanical 0 ≤ u64.MAX }
        requires synchronization { unwrap_or self.synchronization 0
            + unwrap_or more.synchronization 0 ≤ u64.MAX }
        ensures performing { result.performing ≡ both self.performing more.performing }
        ensures mechanical { result.mechanical ≡ both self.mechanical more.mechanical }
        ensures synchronization { result.synchronization
            ≡ both self.synchronization more.synchronization }
        ensures performing_sum { unwrap_or result.performing 0
            ≡ unwrap_or self.performing 0 + unwrap_or more.performing 0 }
        ensures mechanical_sum { unwrap_or result.mechanical 0
            ≡ unwrap_or self.mechanical 0 + unwrap_or more.mechanical 0 }
        ensures synchronization_sum { unwrap_or result.synchronization 0
            ≡ unwrap_or self.synchronization 0 + unwrap_or more.synchronization 0 }
    {
        Sums {
            performing: both(self.performing, more.performing),
            mechanical: both(self.mechanical, more.mechanical),
            synchronization: both(self.synchronization, more.synchronization),
        }
    }
}

/// Whether a record is of that side.
#[inline(always)]
pub(crate) fn is_on(side: Side, shown: &RecordRef<'_>) -> bool
    ensures { result ≡ is_on side shown.now }
{
    match side {
        Side::Writers => is_of(shown, Kind::Swr) || is_of(shown, Kind::Owr),
        Side::Publishers => is_of(shown, Kind::Spu) || is_of(shown, Kind::Opu),
    }
}

/// The share that stands in a cell, if that isn't blank.
fn share_in(cell: &[u8]) -> Option<u64>
    requires { length cell.now ≤ 8 }
    ensures value { result
        ≡ (if is_spaces cell.now then None else Some (number_of cell.now)) }
    ensures small { unwrap_or result 0 < 10 ^ 10 }
{
    if is_spaces(cell) {
        None
    } else {
        Some(number_of(cell))
    }
}

/// The shares that stand in this field, in the next but one, and in the one two further.
fn shares_from(shown: &RecordRef<'_>, first: u8) -> Sums
    requires few { first < 20 }
    requires there { HasSharesFrom shown.now.kind first }
    ensures { AreSharesOf shown.now result }
{
    Sums {
        performing: share_in(cell(shown, first)),
        mechanical: share_in(cell(shown, first + 2)),
        synchronization: share_in(cell(shown, first + 4)),
    }
}

/// The shares of an owner.
fn shares_of(side: Side, shown: &RecordRef<'_>) -> Sums
    requires { is_on side shown.now ≡ true }
    ensures { AreSharesOf shown.now result }
{
    match side {
        Side::Writers => shares_from(shown, WRITER_SHARES),
        Side::Publishers => shares_from(shown, PUBLISHER_SHARES),
    }
}

/// With the shares of a record, if that is an owner of the side.
fn with_shares(sums: Sums, side: Side, shown: &RecordRef<'_>) -> Sums
    requires performing { unwrap_or sums.performing 0 ≤ 10 ^ 18 }
    requires mechanical { unwrap_or sums.mechanical 0 ≤ 10 ^ 18 }
    requires synchronization { unwrap_or sums.synchronization 0 ≤ 10 ^ 18 }
    ensures { AddsShares side shown.now sums result }
{
    if !is_on(side, shown) {
        return sums;
    }
    sums.plus(shares_of(side, shown))
}

/// The shares of the owners, added up. Blank ones add nothing.
pub(crate) fn add_up(side: Side, transaction: &Transaction) -> Sums
    requires { length transaction.now ≤ 100000000 }
    ensures { result ≡ sums side transaction.now }
{
    let count = transaction.len();
    let mut sums = Sums {
        performing: None,
        mechanical: None,
        synchronization: None,
    };
    let mut i: usize = 0;
    while let Some(shown) = transaction.record(i) {
        prove!(i < count);
        sums = with_shares(sums, side, &shown);
        i += 1;
    }
    sums
}

/// Whether a record is an owner of the side, in whose name a byte calls for quotes, whatever the encoding.
fn name_needs_quotes(side: Side, shown: &RecordRef<'_>) -> bool
    ensures { (encoding : Encoding) → result ≡ name_needs_quotes encoding side shown.now }
{
    if !is_on(side, shown) {
        return false;
    }
    match side {
        Side::Writers => {
            needs_quotes(cell(shown, LAST_NAME)) | needs_quotes(cell(shown, FIRST_NAME))
        }
        Side::Publishers => needs_quotes(cell(shown, PUBLISHER_NAME)),
    }
}

/// Whether a byte of a name calls for quotes around the cell of all names, whatever the encoding.
pub(crate) fn need_quotes(side: Side, transaction: &Transaction) -> bool
    ensures { (encoding : Encoding) → result ≡ quotes encoding side transaction.now }
{
    let count = transaction.len();
    let mut found = false;
    let mut i: usize = 0;
    while let Some(shown) = transaction.record(i) {
        prove!(i < count);
        found |= name_needs_quotes(side, &shown);
        i += 1;
    }
    found
}
