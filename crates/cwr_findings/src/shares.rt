//! Shares of records, added up.

ghost use Rattle.std.specs.Prelude.{◌≡◌, ◌<◌, ℕ, ◌++◌, ◌∷◌, ◌||◌, [], List, true, drop, if◌then◌else◌};
ghost use Rattle.cwr_lines.specs.Format.Records.{RecordValue};
ghost use Rattle.cwr_findings.specs.Format.Fields.{HasSharesFrom};
ghost use Rattle.cwr_findings.specs.Format.Findings.{is_off, is_owner, is_party, parties_after, are_over_whole, have_side_over_whole};
ghost use Rattle.cwr_findings.specs.Steps.Walks.{AddUpTo, SidesAddUpTo, capped};

use crate::named_cells::{
    PARTY_SHARES, PUBLISHER_SHARES, ROLE, WRITER_SHARES, cell, is_of, share_of,
};
use crate::registered::Registered;
use cwr_fields::Kind;
use cwr_lines::RecordRef;

/// Shares in the three rights, in hundredths of a percent, as far as 64 bits go.
#[derive(Clone, Copy)]
pub(crate) struct Shares {
    pub(crate) performing: u64,
    pub(crate) mechanical: u64,
    pub(crate) synchronization: u64,
}

impl Shares {
    /// Nothing of any right.
    pub(crate) fn none() -> Shares
        ensures { AddUpTo [] result }
    {
        Shares {
            performing: 0,
            mechanical: 0,
            synchronization: 0,
        }
    }

    /// The shares of an owner of a work.
    #[inline(always)]
    fn of_owner(shown: &RecordRef<'_>) -> Shares
        requires { is_owner shown.now ≡ true }
        ensures { AddUpTo (shown.now ∷ []) result }
    {
        match shown.kind() {
            Kind::Spu | Kind::Opu => Shares::from_field(shown, PUBLISHER_SHARES),
            _ => Shares::from_field(shown, WRITER_SHARES),
        }
    }

    /// The shares of a party to an agreement.
    #[inline(always)]
    fn of_party(shown: &RecordRef<'_>) -> Shares
        requires { is_party shown.now ≡ true }
        ensures { AddUpTo (shown.now ∷ []) result }
    {
        Shares::from_field(shown, PARTY_SHARES)
    }

    /// The shares in the three rights, which stand in this field, in the next but one, and in the one two further.
    #[inline(always)]
    fn from_field(shown: &RecordRef<'_>, first: u8) -> Shares
        requires few { first < 20 }
        requires there { HasSharesFrom shown.now.kind first }
        ensures { AddUpTo (shown.now ∷ []) result }
    {
        Shares {
            performing: share_of(cell(shown, first)),
            mechanical: share_of(cell(shown, first + 2)),
            synchronization: share_of(cell(shown, first + 4)),
        }
    }

    /// With those of one more record, where it counts.
    #[inline(always)]
    fn plus(self, more: Shares, counts: bool) -> Shares
        ensures { (rs : List RecordValue) (r : RecordValue) → AddUpTo rs self
            → AddUpTo (r ∷ []) more → AddUpTo (rs ++ (if counts then r ∷ [] else [])) result }
    {
        if !counts {
            return self;
        }
        Shares {
            performing: self.performing.saturating_add(more.performing),
            mechanical: self.mechanical.saturating_add(more.mechanical),
            synchronization: self.synchronization.saturating_add(more.synchronization),
        }
    }

    /// With those of a record, where it counts as an owner.
    #[inline(always)]
    pub(crate) fn with(self, shown: &RecordRef<'_>, counts: bool) -> Shares
        requires { counts ≡ true → is_owner shown.now ≡ true }
        ensures { (rs : List RecordValue) → AddUpTo rs self
            → AddUpTo (rs ++ (if counts then shown.now ∷ [] else [])) result }
    {
        if !counts {
            return self;
        }
        self.plus(Shares::of_owner(shown), true)
    }

    /// Whether those in one or more rights are more than the whole.
    pub(crate) fn exceed_whole(&self) -> bool
        ensures { (rs : List RecordValue) → AddUpTo rs self.now → result ≡ are_over_whole rs }
    {
        self.performing > 10006 || self.mechanical > 10006 || self.synchronization > 10006
    }
}

/// Whether a sum of shares, in hundredths of a percent, is neither nothing nor about the whole.
#[inline(always)]
pub fn is_off(total: u64) -> bool
    ensures { (n : ℕ) → total ≡ capped n → result ≡ is_off n }
{
    total != 0 && (total < 9994 || 10006 < total)
}

/// The shares of the parties of a block, those of each role added up.
#[derive(Clone, Copy)]
pub(crate) struct Sides {
    assignors: Shares,
    acquirers: Shares,
}

impl Sides {
    /// Those of no party.
    pub(crate) fn none() -> Sides
        ensures { SidesAddUpTo [] result }
    {
        Sides {
            assignors: Shares::none(),
            acquirers: Shares::none(),
        }
    }

    /// With those of one more party.
    #[inline(always)]
    pub(crate) fn with(self, party: &RecordRef<'_>) -> Sides
        requires { is_party party.now ≡ true }
        ensures { (rs : List RecordValue) → SidesAddUpTo rs self
            → SidesAddUpTo (rs ++ party.now ∷ []) result }
    {
        let role = cell(party, ROLE);
        let shares = Shares::of_party(party);
        Sides {
            assignors: self.assignors.plus(shares, role == b"AS".as_slice()),
            acquirers: self.acquirers.plus(shares, role == b"AC".as_slice()),
        }
    }

    /// Those of the parties of a block, of whose territories `first` is one.
    pub(crate) fn of_block(transaction: &Registered<'_>, first: usize) -> Sides
        ensures { SidesAddUpTo (parties_after (drop first transaction.now)) result }
    {
        let mut sides = Sides::none();
        let mut among_parties = false;
        for i in first..transaction.len() {
            let Some(shown) = transaction.record(i) else {
                return sides;
            };
            if is_of(&shown, Kind::Ipa) {
                sides = sides.with(&shown);
                among_parties = true;
                continue;
            }
            if among_parties && is_of(&shown, Kind::Ter) {
                return sides;
            }
        }
        sides
    }

    /// Whether one side has more than the whole in one or more rights.
    pub(crate) fn exceed_whole(&self) -> bool
        ensures { (parties : List RecordValue) → SidesAddUpTo parties self.now
            → result ≡ have_side_over_whole parties }
    {
        self.assignors.exceed_whole() || self.acquirers.exceed_whole()
    }
}
