//! What is kept of the records of a work in place of them: it tells of most works that there surely is no advice on them.

ghost use Rattle.std.specs.Prelude.{◌≡◌, ◌≤◌, ◌++◌, ◌∷◌, [], List, length, option_map, true, false, IfSome, IsTrue, IsFalse};
ghost use Rattle.cwr_lines.specs.Format.Records.{RecordValue};
ghost use Rattle.cwr_advice.specs.declared.said.Said.{Said};
ghost use Rattle.cwr_findings.specs.Format.Findings.{is_owner};
ghost use Rattle.cwr_advice.specs.Format.Rules.{advice_of, begins_with_agent, is_territory};
ghost use Rattle.cwr_advice.specs.Steps.Kept.{AreAllCollected, AreCollectedAnywhere, AreKept, AreSinceParty, is_among, IsBegun, IsCalm};
ghost use Rattle.cwr_advice.specs.Steps.Kept.{may_break_some, stands_again, StandsFor};

use crate::advice_questions::{CHAIN, collects_nowhere, is_agent};
use crate::alone::may_break_some;
use crate::facts::Facts;
use crate::kept_headers::Headers;
use crate::kept_writers::{Number, may_name_other, writer_with};
use crate::owing::Owing;
use crate::owners::{Owned, is_publisher, is_writer, owned_by};
use crate::said::Said;
use crate::territory_cells::{code_of, collection_of, is_territory};
use arrayvec::ArrayVec;
use cwr_fields::{Kind, is_spaces};
use cwr_findings::{cell, is_of, is_owner};
use cwr_lines::RecordRef;

/// The bytes of a publisher sequence.
type Chain = [u8; 2];

/// The bytes of a territory's number.
type Code = [u8; 4];

/// The most territories of one publisher or writer whose numbers are kept.
const MOST_TERRITORIES: usize = 16;

/// What is kept of the records of a work so far, none of which breaks a rule by itself: enough to tell of most works that there is no
/// advice on them, without their records. Of an acknowledgement nothing is.
#[derive(Drop)]
pub struct AdviceSums {
    /// Whether the records are those of an acknowledgement.
    is_acknowledgement: bool,
    facts: Facts,
    headers: Headers,
    /// What is collected, in all territories together.
    collected: Owned,
    /// The publisher sequence of the last publisher.
    chain: Option<Chain>,
    /// The number of the last writer.
    writer: Option<Number>,
    /// The numbers of the territories after the last publisher or writer.
    territories: ArrayVec<Code, MOST_TERRITORIES>,
    /// Writers without a publisher.
    publishers: Owing,
    /// Writers without a territory.
    collections: Owing,
}

impl Owned {
    /// Nothing.
    #[inline(always)]
    fn nothing() -> Owned
        ensures { AreAllCollected [] result }
    {
        Owned {
            performing: 0,
            mechanical: 0,
            synchronization: 0,
        }
    }

    /// With what one more record collects, in whatever territory.
    #[inline(always)]
    fn with_any_collected(self, shown: &RecordRef<'_>) -> Owned
        ensures { (rs : List RecordValue) → AreAllCollected rs self
            → AreAllCollected (rs ++ shown.now ∷ []) result }
    {
        let more = collected_anywhere(shown);
        Owned {
            performing: self.performing.saturating_add(more.performing),
            mechanical: self.mechanical.saturating_add(more.mechanical),
            synchronization: self.synchronization.saturating_add(more.synchronization),
        }
    }

    /// Whether it is more than the whole, in one or more rights.
    #[inline(always)]
    fn is_over_whole(&self) -> bool
        ensures performing { IsFalse result → self.now.performing ≤ 10006 }
        ensures mechanical { IsFalse result → self.now.mechanical ≤ 10006 }
        ensures synchronization { IsFalse result → self.now.synchronization ≤ 10006 }
    {
        self.performing > 10006 || self.mechanical > 10006 || self.synchronization > 10006
    }
}

/// What the record collects, in whatever territory: nothing, where it is another record.
#[inline(always)]
fn collected_anywhere(shown: &RecordRef<'_>) -> Owned
    ensures { AreCollectedAnywhere shown.now result }
{
    if !is_territory(shown) {
        return Owned {
            performing: 0,
            mechanical: 0,
            synchronization: 0,
        };
    }
    collection_of(shown)
}

/// The sequence in a cell that is as wide as such sequences are.
#[inline(always)]
fn chain_in(cell: &[u8]) -> Option<Chain>
    ensures { IfSome result (λ chain. chain ≡ cell.now) }
{
    match Chain::try_from(cell) {
        Ok(chain) => Some(chain),
        Err(_) => None,
    }
}

/// The number in a cell that is as wide as those of territories are.
#[inline(always)]
fn code_in(cell: &[u8]) -> Option<Code>
    ensures { IfSome result (λ code. code ≡ cell.now) }
{
    match Code::try_from(cell) {
        Ok(code) => Some(code),
        Err(_) => None,
    }
}

/// A sequence as a cell.
#[inline(always)]
fn cell_of(chain: &Option<Chain>) -> Option<&[u8]>
    ensures { option_map (λ cell. cell.now) result ≡ chain.now }
{
    match chain {
        Some(chain) => Some(&chain[..]),
        None => None,
    }
}

/// Whether one of the numbers is this.
fn is_among(number: &[u8], numbers: &[Code]) -> bool
    ensures { result ≡ is_among number.now numbers.now }
{
    numbers.iter().any(|known| &known[..] == number)
}

/// The sequence of a chain that is begun, with one more record.
#[inline(always)]
fn chain_with(chain: Option<Chain>, shown: &RecordRef<'_>) -> Option<Chain>
    ensures { (rs : List RecordValue) → IsBegun rs chain → IsBegun (rs ++ shown.now ∷ []) result }
{
    if !is_publisher(shown) {
        return chain;
    }
    chain_in(cell(shown, CHAIN))
}

/// Whether the record may be an administrator or a sub-publisher before whom nobody of the chain stands.
#[inline(always)]
fn may_begin_chain(chain: &Option<Chain>, shown: &RecordRef<'_>) -> bool
    ensures { (rs : List RecordValue) → IsBegun rs chain.now → IsFalse result
        → begins_with_agent (rs ++ shown.now ∷ []) (length rs) shown.now ≡ false }
{
    if !is_agent(shown) {
        return false;
    }
    match cell_of(chain) {
        Some(chain) => cell(shown, CHAIN) != chain,
        None => true,
    }
}

/// Whether the number of the territory is among those.
fn is_number_among(territories: &[Code], shown: &RecordRef<'_>) -> bool
    requires { is_territory shown.now ≡ true }
    ensures { (rs : List RecordValue) → AreSinceParty rs territories.now
        → result ≡ stands_again rs shown.now }
{
    let code = code_of(shown);
    !is_spaces(code) && is_among(code, territories)
}

/// Whether the record is a territory that stands before it already.
#[inline(always)]
fn stands_again(territories: &[Code], shown: &RecordRef<'_>) -> bool
    ensures { (rs : List RecordValue) → AreSinceParty rs territories.now
        → result ≡ stands_again rs shown.now }
{
    if !is_territory(shown) {
        return false;
    }
    is_number_among(territories, shown)
}

/// Keeps the number of a territory, and says whether it does.
fn keep_number(territories: &mut ArrayVec<Code, MOST_TERRITORIES>, shown: &RecordRef<'_>) -> bool
    requires owner { is_owner shown.now ≡ false }
    requires territory { is_territory shown.now ≡ true }
    ensures { (rs : List RecordValue) → AreSinceParty rs territories.old.items → IsTrue result
        → AreSinceParty (rs ++ shown.now ∷ []) territories.new.items }
{
    match code_in(code_of(shown)) {
        Some(code) => territories.try_push(code).is_ok(),
        None => false,
    }
}

/// Keeps the number of a territory, and says whether it does. Those before a publisher or a writer are forgotten.
#[inline(always)]
fn keep_territory(territories: &mut ArrayVec<Code, MOST_TERRITORIES>, shown: &RecordRef<'_>) -> bool
    ensures { (rs : List RecordValue) → AreSinceParty rs territories.old.items → IsTrue result
        → AreSinceParty (rs ++ shown.now ∷ []) territories.new.items }
{
    if is_owner(shown) {
        territories.clear();
        return true;
    }
    if !is_territory(shown) {
        return true;
    }
    keep_number(territories, shown)
}

impl AdviceSums {
    /// Of no record.
    #[inline(always)]
    pub fn new() -> AdviceSums
        ensures none { AreKept result [] }
        ensures work { result.is_acknowledgement ≡ false }
    {
        AdviceSums {
            is_acknowledgement: false,
            facts: Facts::none(),
            headers: Headers::none(),
            collected: Owned::nothing(),
            chain: None,
            writer: None,
            territories: ArrayVec::new(),
            publishers: Owing::nobody(),
            collections: Owing::nobody(),
        }
    }

    /// Whether the record, which breaks no rule by itself, may break one that speaks of it and of those before it.
    #[inline(always)]
    fn may_break(&self, shown: &RecordRef<'_>) -> bool
        requires { may_break_some shown.now ≡ false }
        ensures { (rs : List RecordValue) → AreKept self.now rs → IsFalse result
            → IsCalm (rs ++ shown.now ∷ []) (length rs) shown.now }
    {
        if stands_again(self.territories.as_slice(), shown) {
            return true;
        }
        if may_name_other(&self.writer, shown) {
            return true;
        }
        may_begin_chain(&self.chain, shown)
    }

    /// Adds one record more of a work, which breaks no rule by itself, and is neither a publisher, nor a writer, nor a territory. Says
    /// whether it does: a no says nothing.
    #[inline(always)]
    fn add_other(&mut self, shown: &RecordRef<'_>) -> bool
        requires unbroken { may_break_some shown.now ≡ false }
        requires owner { is_owner shown.now ≡ false }
        requires territory { is_territory shown.now ≡ false }
        ensures kept { (rs : List RecordValue) → AreKept self.old rs → IsTrue result
            → AreKept self.new (rs ++ shown.now ∷ []) }
        ensures same { self.new.is_acknowledgement ≡ self.old.is_acknowledgement }
    {
        if may_name_other(&self.writer, shown) {
            return false;
        }
        let publisher = is_of(shown, Kind::Pwr);
        self.publishers = self.publishers.with(false, false, publisher);
        self.collections = self.collections.with(false, false, false);
        self.facts = self.facts.with_other(shown);
        self.headers = self.headers.with(shown);
        true
    }

    /// Adds one record more of a work, and says whether it does: a no says nothing.
    fn add_to_work(&mut self, shown: &RecordRef<'_>) -> bool
        ensures kept { (rs : List RecordValue) → AreKept self.old rs → IsTrue result
            → AreKept self.new (rs ++ shown.now ∷ []) }
        ensures same { self.new.is_acknowledgement ≡ self.old.is_acknowledgement }
    {
        if may_break_some(shown) {
            return false;
        }
        if !is_owner(shown) && !is_territory(shown) {
            return self.add_other(shown);
        }
        if self.may_break(shown) {
            return false;
        }
        if !keep_territory(&mut self.territories, shown) {
            return false;
        }
        let owned = owned_by(shown);
        let writer = is_writer(shown);
        let controlled = is_of(shown, Kind::Swr);
        let publisher = is_of(shown, Kind::Pwr);
        let territory = is_of(shown, Kind::Swt);
        self.publishers = self.publishers.with(writer, controlled, publisher);
        self.collections = self.collections.with(writer, controlled, territory);
        self.facts = self.facts.with(shown, &owned);
        self.headers = self.headers.with(shown);
        self.collected = self.collected.with_any_collected(shown);
        self.chain = chain_with(self.chain, shown);
        self.writer = writer_with(self.writer, shown);
        true
    }

    /// Whether there surely is no advice on the work, where these were all its records. A no says nothing.
    fn is_work_clean(&self) -> bool
        ensures { (rs : List RecordValue) → AreKept self.now rs → IsTrue result → (said : Said)
            → advice_of said rs ≡ [] }
    {
        let facts = &self.facts;
        let headers = &self.headers;
        if collects_nowhere(facts) {
            return false;
        }
        if facts.writers_own_less() {
            return false;
        }
        if facts.leave_right_blank() {
            return false;
        }
        if self.collected.is_over_whole() {
            return false;
        }
        if self.collections.some() {
            return false;
        }
        if facts.has_publisher & self.publishers.some() {
            return false;
        }
        if headers.has_composite & !facts.has_component {
            return false;
        }
        if headers.has_plain & facts.has_component {
            return false;
        }
        !(headers.has_version & !facts.has_original)
    }

    /// Begins with the first record of a transaction, and says whether it does: a no says nothing.
    pub fn begin(&mut self, header: &RecordRef<'_>) -> bool
        ensures { IsTrue result → StandsFor self.new (header.now ∷ []) }
    {
        *self = AdviceSums::new();
        if is_of(header, Kind::Ack) {
            self.is_acknowledgement = true;
            return true;
        }
        self.add_to_work(header)
    }

    /// Adds one record more of the transaction, and says whether it does: a no says nothing.
    pub fn add(&mut self, shown: &RecordRef<'_>) -> bool
        ensures { (rs : List RecordValue) → StandsFor self.old rs → IsTrue result
            → StandsFor self.new (rs ++ shown.now ∷ []) }
    {
        if self.is_acknowledgement {
            return true;
        }
        self.add_to_work(shown)
    }

    /// Whether there surely is no advice on the transaction, where these were all its records. A no says nothing.
    pub fn is_clean(&self) -> bool
        ensures { (rs : List RecordValue) → StandsFor self.now rs → IsTrue result → (said : Said)
            → advice_of said rs ≡ [] }
    {
        if self.is_acknowledgement {
            return true;
        }
        self.is_work_clean()
    }
}
