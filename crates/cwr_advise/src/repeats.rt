//! Works whose numbers stand in works before them.

ghost use Rattle.std.specs.Prelude.{◌≡◌, ◌==◌, ◌&&◌, ◌+◌, ◌<◌, ◌≤◌, ◌++◌, ◌∷◌, [], ℕ, List, length, take, nat_lt, true, OnOk, OnErr, IfOk};
ghost use Rattle.std.specs.Option.{option_to_list};
ghost use Rattle.cwr_judge.specs.Format.Items.{item_records};
ghost use Rattle.cwr_values.specs.declared.items.Item.{Item};
ghost use Rattle.cwr_tools.specs.Steps.Counts.{IsCount};
ghost use Rattle.cwr_advise.specs.declared.repeats.Place.{Place};
ghost use Rattle.cwr_advise.specs.Format.RepeatedWorks.{keeps_number, place_of, repeated_in, work_header, works_in};
ghost use Rattle.cwr_advise.specs.Steps.KeptWorks.{AreKeptOf, FindsRepeated, TellsRepeated, place_at, repeated_at};
ghost use Rattle.cwr_advice.specs.Format.Rules.{is_header};

use cwr_fields::Kind;
use cwr_findings::{cell, is_of};
use cwr_lines::RecordRef;
use cwr_tools::Totals;
use cwr_values::Item;
use std::alloc::{AllocError, Global};
use std::collections::BTreeMap;

/// NWR, REV: submitter work number.
pub(crate) const WORK_NUMBER: u8 = 6;

/// The number that its submitter gave a work.
type WorkNumber = [u8; 14];

/// Where a work stands.
#[derive(Clone, Copy, Debug)]
pub(crate) struct Place {
    /// The ID of its group.
    pub(crate) group: u32,
    /// Its sequence in that.
    pub(crate) sequence: u32,
    /// The line of the file on which it begins.
    pub(crate) line: u32,
}

/// What is to be told of a work among those before it.
#[derive(Clone, Copy, Debug)]
pub(crate) struct Repeated {
    /// Where the first work with its number stands.
    pub(crate) first: Option<Place>,
    /// It is the first whose number isn't kept.
    pub(crate) is_beyond: bool,
}

/// Whether the record is the header of a work.
fn is_header(header: &RecordRef<'_>) -> bool
    ensures { result ≡ is_header header.now }
{
    is_of(header, Kind::Nwr) || is_of(header, Kind::Rev)
}

/// The header of the item, where that is a work which is to be sent.
pub(crate) fn work_header(item: &Item) -> Option<RecordRef<'_>>
    ensures { option_to_list result ≡ work_header item.now }
{
    let Item::Transaction(transaction) = item else {
        return None;
    };
    let header = transaction.record(0)?;
    if is_header(&header) {
        Some(header)
    } else {
        None
    }
}

/// The number in a cell of that width.
fn number_in(cell: &[u8]) -> WorkNumber
    requires { length cell.now ≡ 14 }
    ensures { result ≡ cell.now }
{
    match WorkNumber::try_from(cell) {
        Ok(number) => number,
        Err(_) => unreachable!(),
    }
}

impl Place {
    /// That of a transaction which comes after items with these numbers.
    pub(crate) fn after(counts: &Totals) -> Place
        requires { counts.now.records ≤ 99999999 }
        ensures { result ≡ place_at counts.now }
    {
        Place {
            group: counts.groups,
            sequence: counts.in_group,
            line: counts.records + 1,
        }
    }
}

/// The numbers of the first works of a transmission.
#[derive(Drop)]
pub(crate) struct Repeats {
    /// The numbers of so many works are kept; none, where nobody asks for them.
    limit: u32,
    /// How many works there were. It stays at one more than the limit.
    works: u64,
    /// Where the first work of each number stands.
    kept: BTreeMap<WorkNumber, Place>,
}

impl Repeats {
    /// Before the first work. The numbers of so many works are to be kept.
    pub(crate) fn new(alloc: Global, limit: u32) -> Repeats
        ensures limit { result.limit ≡ limit }
        ensures kept { AreKeptOf result [] }
    {
        Repeats {
            limit,
            works: 0,
            kept: BTreeMap::new(alloc),
        }
    }

    /// The numbers of so many works are kept.
    pub(crate) fn limit(&self) -> u32
        ensures { result ≡ self.now.limit }
    {
        self.limit
    }

    /// What is to be told of a work with that number that comes next.
    fn repeated(&self, number: &WorkNumber) -> Repeated
        ensures first { (works : List (List ℕ × Place)) → AreKeptOf self.now works
            → result.first ≡ place_of number.now (take self.now.limit works) }
        ensures is_beyond { (works : List (List ℕ × Place)) → AreKeptOf self.now works
            → result.is_beyond ≡ (nat_lt 0 self.now.limit && (length works == self.now.limit)) }
    {
        Repeated {
            first: self.kept.get(number).copied(),
            is_beyond: 0 < self.limit && self.works == u64::from(self.limit),
        }
    }

    /// Keeps the number of a work, where it isn't kept yet.
    fn keep(&mut self, number: WorkNumber, place: Place) -> Result<(), AllocError>
        requires { self.old.works < self.old.limit }
        ensures limit { self.new.limit ≡ self.old.limit }
        ensures kept { (works : List (List ℕ × Place)) → AreKeptOf self.old works
            → OnOk result (AreKeptOf self.new (works ++ (number, place) ∷ [])) }
    {
        if self.kept.get(&number).is_none() {
            if self.kept.insert(number, place).is_err() {
                return Err(AllocError);
            }
        }
        self.works += 1;
        Ok(())
    }

    /// Takes a work with that number that comes next, and stands there. It takes memory only where numbers are to be kept.
    fn take(&mut self, number: WorkNumber, place: Place) -> Result<(), AllocError>
        ensures limit { self.new.limit ≡ self.old.limit }
        ensures kept { (works : List (List ℕ × Place)) → AreKeptOf self.old works
            → OnOk result (AreKeptOf self.new (works ++ (number, place) ∷ [])) }
        ensures err { OnErr result (nat_lt 0 self.old.limit ≡ true) }
    {
        if self.works < u64::from(self.limit) {
            return self.keep(number, place);
        }
        self.works = u64::from(self.limit) + 1;
        Ok(())
    }

    /// Takes a work with that number, as `take` does, and answers what is to be told of it.
    fn take_work(&mut self, number: WorkNumber, place: Place) -> Result<Repeated, AllocError>
        ensures limit { self.new.limit ≡ self.old.limit }
        ensures first { (works : List (List ℕ × Place)) → AreKeptOf self.old works
            → IfOk result (λ told. told.first ≡ place_of number (take self.old.limit works)) }
        ensures is_beyond { (works : List (List ℕ × Place)) → AreKeptOf self.old works → IfOk result
            (λ told. told.is_beyond ≡ (nat_lt 0 self.old.limit && (length works == self.old.limit))) }
        ensures kept { (works : List (List ℕ × Place)) → AreKeptOf self.old works
            → OnOk result (AreKeptOf self.new (works ++ (number, place) ∷ [])) }
        ensures err { OnErr result (nat_lt 0 self.old.limit ≡ true) }
    {
        let told = self.repeated(&number);
        match self.take(number, place) {
            Ok(()) => Ok(told),
            Err(fault) => Err(fault),
        }
    }

    /// Takes the item that comes after items with these numbers, and answers what is to be told of it.
    ///
    /// # Errors
    ///
    /// Out of memory, and that only at a work, where the numbers of works are kept.
    pub(crate) fn take_item(&mut self, counts: &Totals, item: &Item) -> Result<Repeated, AllocError>
        requires { counts.now.records ≤ 99999999 }
        ensures limit { self.new.limit ≡ self.old.limit }
        ensures told { IfOk result (TellsRepeated self.old counts.now item.now) }
        ensures first { IfOk result (FindsRepeated self.old item.now) }
        ensures kept { (given : List Item) → IsCount counts.now given
            → AreKeptOf self.old (works_in given)
            → OnOk result (AreKeptOf self.new (works_in (given ++ item.now ∷ []))) }
        ensures err { OnErr result (keeps_number self.old.limit item.now ≡ true) }
    {
        match work_header(item) {
            Some(header) => {
                let number = number_in(cell(&header, WORK_NUMBER));
                self.take_work(number, Place::after(counts))
            }
            None => Ok(Repeated {
                first: None,
                is_beyond: false,
            }),
        }
    }
}
