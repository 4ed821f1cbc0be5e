//! What the rules of advice ask of all records of a transaction.

ghost use Rattle.std.specs.Prelude.{◌≡◌, ◌||◌, ◌++◌, ◌∷◌, [], List, false};
ghost use Rattle.cwr_lines.specs.Format.Records.{RecordValue};
ghost use Rattle.cwr_findings.specs.Format.Findings.{is_owner};
ghost use Rattle.cwr_advice.specs.Format.Rules.{has_few_territories, is_territory, states_nothing, writers_own_less};
ghost use Rattle.cwr_advice.specs.Steps.Facts.{AreFacts, AreOwnedBy};

use crate::owners::{Owned, is_writer, owned_by};
use crate::stated::Stated;
use crate::territory_cells::count_of_territory;
use cwr_fields::Kind;
use cwr_findings::is_of;
use cwr_lines::RecordRef;
use cwr_values::Transaction;

/// Sums over the records of a transaction, as far as 64 bits go, and what kinds of records there are.
#[derive(Clone, Copy)]
pub(crate) struct Facts {
    /// What all owners own of the performing right.
    pub(crate) owned: u64,
    /// What the writers own of it.
    pub(crate) by_writers: u64,
    /// There is an SWR or an OWR.
    pub(crate) has_writer: bool,
    /// In which rights someone's share is filled in.
    pub(crate) stated: Stated,
    /// There is an SPU.
    pub(crate) has_publisher: bool,
    /// There is an SPU that owns shares.
    pub(crate) has_owning_publisher: bool,
    /// There is an SPT.
    pub(crate) has_territory: bool,
    /// How many SPT and SWT there are.
    pub(crate) territories: u64,
    /// There is a COM.
    pub(crate) has_component: bool,
    /// There is a VER.
    pub(crate) has_original: bool,
}

impl Facts {
    /// Those over no record.
    #[inline(always)]
    pub(crate) fn none() -> Facts
        ensures { AreFacts [] result }
    {
        Facts {
            owned: 0,
            by_writers: 0,
            has_writer: false,
            stated: Stated::nowhere(),
            has_publisher: false,
            has_owning_publisher: false,
            has_territory: false,
            territories: 0,
            has_component: false,
            has_original: false,
        }
    }

    /// With one more record, which owns so much.
    #[inline(always)]
    pub(crate) fn with(self, shown: &RecordRef<'_>, owned: &Owned) -> Facts
        requires { AreOwnedBy shown.now owned.now }
        ensures { (rs : List RecordValue) → AreFacts rs self
            → AreFacts (rs ++ shown.now ∷ []) result }
    {
        let writer = is_writer(shown);
        let by_writer = owned.performing_if(writer);
        let publisher = is_of(shown, Kind::Spu);
        let owns = owned.is_something();
        let territory = is_of(shown, Kind::Spt);
        let counted = count_of_territory(shown);
        let component = is_of(shown, Kind::Com);
        let original = is_of(shown, Kind::Ver);
        Facts {
            owned: self.owned.saturating_add(owned.performing),
            by_writers: self.by_writers.saturating_add(by_writer),
            has_writer: self.has_writer | writer,
            stated: self.stated.with(shown),
            has_publisher: self.has_publisher | publisher,
            has_owning_publisher: self.has_owning_publisher | (publisher & owns),
            has_territory: self.has_territory | territory,
            territories: self.territories.saturating_add(counted),
            has_component: self.has_component | component,
            has_original: self.has_original | original,
        }
    }

    /// With one more record, which is neither a publisher, nor a writer, nor a territory.
    #[inline(always)]
    pub(crate) fn with_other(self, shown: &RecordRef<'_>) -> Facts
        requires owner { is_owner shown.now ≡ false }
        requires territory { is_territory shown.now ≡ false }
        ensures { (rs : List RecordValue) → AreFacts rs self
            → AreFacts (rs ++ shown.now ∷ []) result }
    {
        let component = is_of(shown, Kind::Com);
        let original = is_of(shown, Kind::Ver);
        Facts {
            has_component: self.has_component | component,
            has_original: self.has_original | original,
            ..self
        }
    }

    /// Those over the records of a transaction.
    pub(crate) fn of(transaction: &Transaction) -> Facts
        ensures { AreFacts transaction.now result }
    {
        let mut facts = Facts::none();
        for sequence in 0..transaction.len() {
            let Some(shown) = transaction.record(sequence) else {
                return facts;
            };
            facts = facts.with(&shown, &owned_by(&shown));
        }
        facts
    }

    /// Whether there are so few territories that they are compared with one another.
    pub(crate) fn has_few_territories(&self) -> bool
        ensures { (t : List RecordValue) → AreFacts t self.now → result ≡ has_few_territories t }
    {
        self.territories <= 200
    }

    /// Whether someone owns some of the performing right, and the writers less than half.
    pub(crate) fn writers_own_less(&self) -> bool
        ensures { (t : List RecordValue) → AreFacts t self.now → result ≡ writers_own_less t }
    {
        self.owned > 0 && self.by_writers < 4994
    }

    /// Whether there are writers, and nobody's share in the performing right is filled in.
    pub(crate) fn state_no_performing(&self) -> bool
        ensures { (t : List RecordValue) → AreFacts t self.now
            → result ≡ states_nothing "pr share" t }
    {
        self.has_writer && !self.stated.performing
    }

    /// Whether there are writers, and nobody's share in the mechanical right is filled in.
    pub(crate) fn state_no_mechanical(&self) -> bool
        ensures { (t : List RecordValue) → AreFacts t self.now
            → result ≡ states_nothing "mr share" t }
    {
        self.has_writer && !self.stated.mechanical
    }

    /// Whether there are writers, and nobody's share in the synchronisation right is filled in.
    pub(crate) fn state_no_synchronization(&self) -> bool
        ensures { (t : List RecordValue) → AreFacts t self.now
            → result ≡ states_nothing "sr share" t }
    {
        self.has_writer && !self.stated.synchronization
    }

    /// Whether there are writers, and in one or more rights nobody's share is filled in.
    pub(crate) fn leave_right_blank(&self) -> bool
        ensures { (t : List RecordValue) → AreFacts t self.now → result ≡ (states_nothing "pr share" t
            || states_nothing "mr share" t || states_nothing "sr share" t) }
    {
        self.state_no_performing() || self.state_no_mechanical() || self.state_no_synchronization()
    }
}
