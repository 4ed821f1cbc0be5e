//! Who owns what of a work.

ghost use Rattle.std.specs.Prelude.{◌≡◌, ◌+◌, ◌<◌, nat_lt, true, if◌then◌else◌};
ghost use Rattle.cwr_findings.specs.Format.Fields.{HasSharesFrom};
ghost use Rattle.cwr_findings.specs.Format.Findings.{is_owner};
ghost use Rattle.cwr_advice.specs.Format.Rules.{is_publisher, is_writer, lacks_number, owns_over_half, owns_shares};
ghost use Rattle.cwr_advice.specs.Steps.Facts.{AreOwnedBy, AreSharesOf, AreSmall};

use cwr_fields::{Kind, is_spaces};
use cwr_findings::{PUBLISHER_SHARES, WRITER_SHARES, cell, is_of, is_owner, number_of};
use cwr_lines::RecordRef;

/// Shares in the three rights, in hundredths of a percent.
#[derive(Clone, Copy)]
pub(crate) struct Owned {
    pub(crate) performing: u64,
    pub(crate) mechanical: u64,
    pub(crate) synchronization: u64,
}

/// Whether the record is a publisher of a work.
#[inline(always)]
pub(crate) fn is_publisher(shown: &RecordRef<'_>) -> bool
    ensures { result ≡ is_publisher shown.now }
{
    is_of(shown, Kind::Spu) || is_of(shown, Kind::Opu)
}

/// Whether the record is a writer of a work.
#[inline(always)]
pub(crate) fn is_writer(shown: &RecordRef<'_>) -> bool
    ensures { result ≡ is_writer shown.now }
{
    is_of(shown, Kind::Swr) || is_of(shown, Kind::Owr)
}

/// The shares that stand in this field, in the next but one, and in the one two further.
#[inline(always)]
fn shares_from(shown: &RecordRef<'_>, first: u8) -> Owned
    requires few { first < 20 }
    requires there { HasSharesFrom shown.now.kind first }
    ensures { AreSharesOf shown.now result }
{
    Owned {
        performing: number_of(cell(shown, first)),
        mechanical: number_of(cell(shown, first + 2)),
        synchronization: number_of(cell(shown, first + 4)),
    }
}

/// The shares of an owner.
#[inline(always)]
fn shares_of(shown: &RecordRef<'_>) -> Owned
    requires { is_owner shown.now ≡ true }
    ensures { AreSharesOf shown.now result }
{
    if is_publisher(shown) {
        shares_from(shown, PUBLISHER_SHARES)
    } else {
        shares_from(shown, WRITER_SHARES)
    }
}

/// What the record owns of a work: nothing, where it is no owner.
#[inline(always)]
pub(crate) fn owned_by(shown: &RecordRef<'_>) -> Owned
    ensures { AreOwnedBy shown.now result }
{
    if !is_owner(shown) {
        return Owned {
            performing: 0,
            mechanical: 0,
            synchronization: 0,
        };
    }
    shares_of(shown)
}

impl Owned {
    /// Whether it is something, in one or more rights.
    #[inline(always)]
    pub(crate) fn is_something(&self) -> bool
        requires { AreSmall self.now }
        ensures { result
            ≡ nat_lt 0 (self.now.performing + self.now.mechanical + self.now.synchronization) }
    {
        self.performing + self.mechanical + self.synchronization > 0
    }

    /// What is owned of the performing right, if the owner is a writer, and else nothing.
    #[inline(always)]
    pub(crate) fn performing_if(&self, is_writer: bool) -> u64
        ensures { result ≡ (if is_writer then self.now.performing else 0) }
    {
        if is_writer { self.performing } else { 0 }
    }
}

/// Whether the record owns a share in some right.
pub(crate) fn owns_shares(shown: &RecordRef<'_>) -> bool
    ensures { result ≡ owns_shares shown.now }
{
    owned_by(shown).is_something()
}

/// Whether the record owns shares, and its number in the field is blank.
#[inline(always)]
pub(crate) fn lacks_number(shown: &RecordRef<'_>, field: u8) -> bool
    ensures { result ≡ lacks_number shown.now field }
{
    is_spaces(cell(shown, field)) && owns_shares(shown)
}

/// Whether the record is a publisher that owns more than half of the performing right.
pub(crate) fn owns_over_half(shown: &RecordRef<'_>) -> bool
    ensures { result ≡ owns_over_half shown.now }
{
    if !is_publisher(shown) {
        return false;
    }
    shares_of(shown).performing > 5006
}
