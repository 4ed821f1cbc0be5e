//! Sums over the records of a work or an agreement, kept in place of the records: they tell of most that they surely have no finding.
//! Of an acknowledgement they are those over its copy.

ghost use Rattle.std.specs.Prelude.{◌≡◌, ℕ, ◌++◌, ◌∷◌, [], ◌<◌, ◌^◌, List, length, option_map, true, false, IfSome, IsTrue, IsFalse};
ghost use Rattle.std.specs.List.{list_any};
ghost use Rattle.std.specs.Str.{bytes_eq};
ghost use Rattle.cwr_lines.specs.Format.Records.{RecordValue};
ghost use Rattle.cwr_findings.specs.declared.rules.Rule.TheVariants.{V7, V8};
ghost use Rattle.cwr_findings.specs.Format.Findings.{breaks, findings, findings_after, is_agreement, is_blank, is_party, is_work};
ghost use Rattle.cwr_findings.specs.Steps.Sums.{AreOver, AreSides, AreSums, AsksComponents, IsUnbroken, KeepsNumbers, StandFor};
ghost use Rattle.cwr_findings.specs.Steps.Sums.{wants_other};
ghost use Rattle.cwr_findings.specs.Steps.Walks.{IsBefore};

use crate::before::Before;
use crate::finding_questions::{ends_before_start, has_wrong_iswc, is_number, names_another_party};
use crate::named_cells::{
    COMPONENT_COUNT, EXCERPT_TYPE, PUBLISHER_NUMBER, PUBLISHER_OF_WRITER, WRITER_NUMBER, cell,
    is_of, number_of,
};
use crate::registered::stands_before_copy;
use crate::shares::{Sides, is_off};
use crate::totals::TransactionTotals;
use arrayvec::ArrayVec;
use cwr_fields::{Kind, is_carried, is_spaces};
use cwr_lines::RecordRef;

/// The bytes of an interested party's number.
type Number = [u8; 9];

/// The most publishers of a work whose numbers are kept.
const MOST_PUBLISHERS: usize = 8;

/// The most records of a work that are added up.
const MOST_RECORDS: usize = 1_000_000;

/// What has begun.
#[derive(Clone, Copy)]
enum Begun {
    /// Neither a work nor an agreement.
    Nothing,
    /// A work.
    Work,
    /// An agreement.
    Agreement,
}

/// Sums over the records of a work or an agreement so far, none of which breaks a rule by itself: enough to tell of most that they
/// have no finding, without their records. Of an acknowledgement they are those over its copy.
#[derive(Drop)]
pub struct Sums {
    begun: Begun,
    /// The shares of the parties of an agreement's last block.
    sides: Sides,
    /// How many records of a work there are.
    records: usize,
    totals: TransactionTotals,
    /// The interested party's number of the last SPU.
    publisher: Option<Number>,
    /// That of the last SWR.
    writer: Option<Number>,
    /// Those of all SPU records.
    publishers: ArrayVec<Number, MOST_PUBLISHERS>,
    /// Whether the header has an excerpt type.
    has_excerpt_type: bool,
    /// How many components the header counts, where it does.
    components: Option<u64>,
}

/// The number in a cell that is as wide as such numbers are.
fn number_in(cell: &[u8]) -> Option<Number>
    ensures { IfSome result (λ number. number ≡ cell.now) }
{
    match Number::try_from(cell) {
        Ok(number) => Some(number),
        Err(_) => None,
    }
}

/// A number as a cell.
#[inline(always)]
fn cell_of(number: &Option<Number>) -> Option<&[u8]>
    ensures { option_map (λ cell. cell.now) result ≡ number.now }
{
    match number {
        Some(number) => Some(&number[..]),
        None => None,
    }
}

/// Whether the header of a work has an excerpt type.
fn has_excerpt_type(header: &RecordRef<'_>) -> bool
    requires { is_work (header.now ∷ []) ≡ true }
    ensures { IsTrue result → list_any (is_blank "excerpt type") (header.now ∷ []) ≡ false }
{
    !is_spaces(cell(header, EXCERPT_TYPE))
}

/// How many components the header of a work counts, where it does.
fn components_of(header: &RecordRef<'_>) -> Option<u64>
    requires { is_work (header.now ∷ []) ≡ true }
    ensures { AsksComponents header.now result }
{
    let count = cell(header, COMPONENT_COUNT);
    if is_spaces(count) {
        return None;
    }
    Some(number_of(count))
}

/// Whether there is a number of components, and it is another.
fn wants_other(wanted: Option<u64>, components: u64) -> bool
    ensures { result ≡ wants_other wanted components }
{
    match wanted {
        Some(wanted) => wanted != components,
        None => false,
    }
}

impl Sums {
    /// Over nothing.
    pub fn new() -> Sums {
        Sums {
            begun: Begun::Nothing,
            sides: Sides::none(),
            records: 0,
            totals: TransactionTotals::none(),
            publisher: None,
            writer: None,
            publishers: ArrayVec::new(),
            has_excerpt_type: false,
            components: None,
        }
    }

    /// Begins with the header of a work, and says whether it does: a no says nothing.
    fn begin_work(&mut self, header: &RecordRef<'_>) -> bool
        requires { is_work (header.now ∷ []) ≡ true }
        ensures { IsTrue result → AreSums self.new (header.now ∷ []) }
    {
        if has_wrong_iswc(header) {
            return false;
        }
        self.begun = Begun::Work;
        self.records = 1;
        self.totals = TransactionTotals::none();
        self.publisher = None;
        self.writer = None;
        self.publishers.clear();
        self.has_excerpt_type = has_excerpt_type(header);
        self.components = components_of(header);
        true
    }

    /// What the records leave behind.
    #[inline(always)]
    fn before(&self) -> Before<'_>
        ensures { (rs : List RecordValue) → AreSums self.now rs → IsBefore rs result }
    {
        Before {
            publisher: cell_of(&self.publisher),
            writer: cell_of(&self.writer),
            after_territory: false,
        }
    }

    /// Whether one of the publishers' numbers is this.
    fn has_publisher(&self, number: &[u8]) -> bool
        ensures { IsTrue result → list_any (bytes_eq number.now) self.now.publishers.items ≡ true }
    {
        for known in self.publishers.as_slice() {
            if is_number(number, Some(&known[..])) {
                return true;
            }
        }
        false
    }

    /// Whether PWR may name a publisher that the work hasn't.
    #[inline(always)]
    fn may_name_no_publisher(&self, shown: &RecordRef<'_>) -> bool
        ensures { (rs : List RecordValue) → AreSums self.now rs → IsFalse result
            → breaks V7 (rs ++ shown.now ∷ []) (length rs) shown.now ≡ false }
    {
        if !is_of(shown, Kind::Pwr) {
            return false;
        }
        !self.has_publisher(cell(shown, PUBLISHER_OF_WRITER))
    }

    /// Whether EWT stands in a work that may have no excerpt type.
    #[inline(always)]
    fn may_lack_excerpt_type(&self, shown: &RecordRef<'_>) -> bool
        ensures { (rs : List RecordValue) → AreSums self.now rs → IsFalse result
            → breaks V8 (rs ++ shown.now ∷ []) (length rs) shown.now ≡ false }
    {
        if !is_of(shown, Kind::Ewt) {
            return false;
        }
        !self.has_excerpt_type
    }

    /// Whether the record may break a rule, after those so far.
    #[inline(always)]
    fn may_break(&self, shown: &RecordRef<'_>) -> bool
        ensures { (rs : List RecordValue) → AreSums self.now rs → IsFalse result
            → IsUnbroken (rs ++ shown.now ∷ []) (length rs) shown.now }
    {
        if has_wrong_iswc(shown) {
            return true;
        }
        let known = self.before();
        if names_another_party(shown, &known) {
            return true;
        }
        if self.may_name_no_publisher(shown) {
            return true;
        }
        self.may_lack_excerpt_type(shown)
    }

    /// Keeps the number of a publisher or a writer, and says whether it does.
    #[inline(always)]
    fn keep_number(&mut self, shown: &RecordRef<'_>) -> bool
        ensures { (rs : List RecordValue) → AreSums self.old rs → IsTrue result
            → KeepsNumbers rs shown.now self.old self.new }
    {
        match shown.kind() {
            Kind::Spu => {
                let Some(number) = number_in(cell(shown, PUBLISHER_NUMBER)) else {
                    return false;
                };
                self.publisher = Some(number);
                self.publishers.try_push(number).is_ok()
            }
            Kind::Swr => {
                let Some(number) = number_in(cell(shown, WRITER_NUMBER)) else {
                    return false;
                };
                self.writer = Some(number);
                true
            }
            Kind::Ter | Kind::Ipa => false,
            _ => true,
        }
    }

    /// Adds one record more of the work, and says whether it does: a no says nothing. `A` is as for `add`.
    #[inline(always)]
    fn add_to_work<A>(&mut self, shown: &RecordRef<'_>) -> bool
        ensures { (rs : List RecordValue) → AreSums self.old rs → IsTrue result
            → AreSums self.new (rs ++ shown.now ∷ []) }
    {
        let records = self.records;
        if records >= MOST_RECORDS {
            return false;
        }
        if self.may_break(shown) {
            return false;
        }
        if !self.keep_number(shown) {
            return false;
        }
        self.totals = self.totals.with::<A>(records, shown);
        self.records = records + 1;
        true
    }

    /// Whether the work surely has no finding, where these were all its records. A no says nothing.
    fn is_work_clean(&self) -> bool
        ensures { (rs : List RecordValue) (n : ℕ) → AreSums self.now rs → IsTrue result
            → findings_after n rs ≡ [] }
    {
        let totals = &self.totals;
        if is_off(totals.ownership.performing) {
            return false;
        }
        if is_off(totals.ownership.mechanical) {
            return false;
        }
        if is_off(totals.ownership.synchronization) {
            return false;
        }
        totals.has_author && !wants_other(self.components, totals.components)
    }

    /// Begins with the header of an agreement, and says whether it does: a no says nothing.
    fn begin_agreement(&mut self, header: &RecordRef<'_>) -> bool
        requires { is_agreement (header.now ∷ []) ≡ true }
        ensures { IsTrue result → AreSides self.new (header.now ∷ []) }
    {
        if ends_before_start(header) {
            return false;
        }
        self.begun = Begun::Agreement;
        self.sides = Sides::none();
        true
    }

    /// Adds one more party of the agreement, and says whether it does: a no says nothing.
    #[inline(always)]
    fn add_party(&mut self, party: &RecordRef<'_>) -> bool
        requires { is_party party.now ≡ true }
        ensures { (rs : List RecordValue) → AreSides self.old rs → IsTrue result
            → AreSides self.new (rs ++ party.now ∷ []) }
    {
        self.sides = self.sides.with(party);
        !self.sides.exceed_whole()
    }

    /// Adds one record more of the agreement, and says whether it does: a no says nothing. No side of a block is over the whole while
    /// its parties come, so none is at its end.
    #[inline(always)]
    fn add_to_agreement(&mut self, shown: &RecordRef<'_>) -> bool
        ensures { (rs : List RecordValue) → AreSides self.old rs → IsTrue result
            → AreSides self.new (rs ++ shown.now ∷ []) }
    {
        match shown.kind() {
            Kind::Ter => {
                self.sides = Sides::none();
                true
            }
            Kind::Ipa => self.add_party(shown),
            kind => is_carried(kind),
        }
    }

    /// Begins with the header of a work or an agreement, and says whether it does: a no says nothing.
    #[inline(always)]
    fn begin_registered(&mut self, header: &RecordRef<'_>) -> bool
        ensures { IsTrue result → AreOver self.new (header.now ∷ []) }
    {
        match header.kind() {
            Kind::Nwr | Kind::Rev => self.begin_work(header),
            Kind::Agr => self.begin_agreement(header),
            _ => false,
        }
    }

    /// Begins with the first record of a transaction, and says whether it does: a no says nothing.
    pub fn begin(&mut self, header: &RecordRef<'_>) -> bool
        ensures { IsTrue result → StandFor self.new (header.now ∷ []) }
    {
        if is_of(header, Kind::Ack) {
            self.begun = Begun::Nothing;
            return true;
        }
        self.begin_registered(header)
    }

    /// Adds one record more of the transaction, and says whether it does: a no says nothing. `A` says nothing of the record: where
    /// there is an instance for each kind, the compiler knows the kind there.
    #[inline(always)]
    pub fn add<A>(&mut self, shown: &RecordRef<'_>) -> bool
        ensures { (rs : List RecordValue) → StandFor self.old rs → IsTrue result
            → StandFor self.new (rs ++ shown.now ∷ []) }
    {
        match self.begun {
            Begun::Work => self.add_to_work::<A>(shown),
            Begun::Agreement => self.add_to_agreement(shown),
            Begun::Nothing => stands_before_copy(shown) || self.begin_registered(shown),
        }
    }

    /// Whether the transaction surely has no finding, where these were all its records. A no says nothing.
    pub fn is_clean(&self) -> bool
        ensures { (rs : List RecordValue) → StandFor self.now rs → IsTrue result
            → findings rs ≡ [] }
    {
        match self.begun {
            Begun::Work => self.is_work_clean(),
            Begun::Agreement | Begun::Nothing => true,
        }
    }
}
