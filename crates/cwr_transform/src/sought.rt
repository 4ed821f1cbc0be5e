//! What is sought in a transmission of which some transactions are selected: the numbers and the places of lists.

ghost use Rattle.std.specs.Prelude.{◌≡◌, ◌==◌, ◌<◌, ◌+◌, ◌^◌, ◌++◌, ◌∷◌, ℕ, List, Option, [], IfOk, IfSome, false, is_some, length, not, option_map, slice_index_or, slice_set, true};
ghost use Rattle.std.specs.List.{HoldsAt, IsDistinct, list_any};
ghost use Rattle.std.specs.List.Sorted.{IsNonDecreasingBy};
ghost use Rattle.std.specs.Str.{bytes_eq};
ghost use Rattle.cwr_lines.specs.Format.Records.{RecordValue};
ghost use Rattle.cwr_transform.specs.Format.Missing.{Placed, same_place};
ghost use Rattle.cwr_transform.specs.Steps.Found.{firsts_noted, further_noted, further_of, place_at};
ghost use Rattle.cwr_transform.specs.Steps.Sought.{AreNoted, AreOnce, CanPlace, FindsNumbers, HasEnded, HasNoted, NotesNumbers, NotesPlaces, SameFound, first_place, has_found, lacks_memory, lacks_noted, lacks_sought, noted_numbers};

use crate::lists::{NumberCell, Place};
use cwr_select::{Listed, number_of};
use cwr_values::Transaction;
use std::alloc::{AllocError, Global};

/// A transaction that has a number which one before it has.
#[derive(Clone, Copy)]
pub(crate) struct Further {
    /// The place of the number among those of the list.
    number: usize,
    /// How many transactions there were then, that one counted.
    count: u32,
}

/// The numbers of a list, with the transactions that have them. It takes 25 bytes a number: so where a transaction stands is kept as the count
/// of those before it.
#[derive(Drop)]
pub(crate) struct SoughtNumbers<'a> {
    listed: &'a Listed<NumberCell>,
    /// By the place of a number among those of the list: how many transactions there were when one had it first, that one counted; 0 where
    /// none had it.
    firsts: Vec<u32>,
    further: Vec<Further>,
    /// By the place of a group: how many transactions there were before it.
    starts: Vec<u32>,
    /// How many transactions there were.
    count: u32,
    /// By the place of a number among those of the list, once no transaction comes any more: whether it was told.
    told: Vec<bool>,
    /// Memory for these was refused.
    pub(crate) lacks_memory: bool,
}

/// Whether one of the counts is 0.
fn has_zero(counts: &[u32]) -> bool
    ensures { result ≡ list_any (λ count. count == 0) counts.now }
{
    counts.iter().any(|count| *count == 0)
}

/// Whether one isn't found.
fn has_unfound(found: &[bool]) -> bool
    ensures { result ≡ lacks_noted found.now }
{
    found.iter().any(|it| !*it)
}

/// So many of these, none of which is set.
fn none_set(alloc: Global, count: usize) -> Result<Vec<bool>, AllocError>
    ensures length { IfOk result (λ flags. length flags.items ≡ count) }
    ensures unset { IfOk result (λ flags. (i : ℕ) → i < count → slice_index_or flags.items i false ≡ false) }
{
    let mut flags = Vec::new(alloc);
    flags.reserve_exact(count)?;
    flags.resize(count, false)?;
    Ok(flags)
}

impl<'a> SoughtNumbers<'a> {
    /// Before the first transaction.
    pub(crate) fn new(
        alloc: Global,
        listed: &'a Listed<NumberCell>,
    ) -> Result<SoughtNumbers<'a>, AllocError>
        requires { IsDistinct bytes_eq listed.now }
        ensures listed { IfOk result (λ s. s.listed.now ≡ listed.now) }
        ensures noted { IfOk result (λ s. AreNoted bytes_eq listed.now (noted_numbers s) []) }
        ensures found { IfOk result (λ s. has_found listed.now [] [] 0 0 s) }
    {
        let count = listed.len();
        let mut firsts = Vec::new(alloc);
        firsts.reserve_exact(count)?;
        firsts.resize(count, 0)?;
        Ok(SoughtNumbers {
            listed,
            firsts,
            further: Vec::new(alloc),
            starts: Vec::new(alloc),
            count: 0,
            told: Vec::new(alloc),
            lacks_memory: false,
        })
    }

    /// Keeps how many transactions there were so far.
    fn keep_count(&mut self)
        ensures starts { self.new.lacks_memory ≡ false → self.new.starts.items ≡ self.old.starts.items ++ self.old.count ∷ [] }
        ensures memory { self.new.lacks_memory ≡ false → self.old.lacks_memory ≡ false }
        ensures listed { self.new.listed ≡ self.old.listed }
        ensures firsts { self.new.firsts ≡ self.old.firsts }
        ensures further { self.new.further ≡ self.old.further }
        ensures count { self.new.count ≡ self.old.count }
    {
        let is_kept = self.starts.push(self.count).is_ok();
        self.lacks_memory = self.lacks_memory || !is_kept;
    }

    /// The transactions that come are those of the next group.
    pub(crate) fn open_group(&mut self)
        ensures listed { self.new.listed ≡ self.old.listed }
        ensures noted { noted_numbers self.new ≡ noted_numbers self.old }
        ensures found { (xs : List (List ℕ)) (places : List (ℕ × ℕ)) (group place : ℕ)
            → has_found self.old.listed.now xs places group place self.old
            → has_found self.old.listed.now xs places (group + 1) 0 self.new }
    {
        self.keep_count();
    }

    /// The transaction that was counted last has the number at that place among those of the list.
    fn note(&mut self, at: usize)
        requires { 0 < self.old.count }
        ensures listed { self.new.listed ≡ self.old.listed }
        ensures noted { noted_numbers self.new ≡ slice_set (noted_numbers self.old) at true }
        ensures firsts { self.new.firsts.items ≡ firsts_noted at self.old.count self.old.firsts.items }
        ensures further { self.new.lacks_memory ≡ false
            → self.new.further.items ≡ further_noted at self.old.count self.old.firsts.items self.old.further.items }
        ensures memory { self.new.lacks_memory ≡ false → self.old.lacks_memory ≡ false }
        ensures count { self.new.count ≡ self.old.count }
        ensures starts { self.new.starts ≡ self.old.starts }
    {
        if at >= self.firsts.len() {
            return;
        }
        if self.firsts[at] == 0 {
            self.firsts[at] = self.count;
            return;
        }
        let further = Further {
            number: at,
            count: self.count,
        };
        let is_kept = self.further.push(further).is_ok();
        self.lacks_memory = self.lacks_memory || !is_kept;
    }

    /// The next transaction has that number.
    pub(crate) fn take(&mut self, number: &NumberCell)
        ensures listed { self.new.listed ≡ self.old.listed }
        ensures noted { (xs : List (List ℕ)) → AreNoted bytes_eq self.old.listed.now (noted_numbers self.old) xs
            → AreNoted bytes_eq self.old.listed.now (noted_numbers self.new) (xs ++ number.now ∷ []) }
        ensures found { (xs : List (List ℕ)) (places : List (ℕ × ℕ)) (group place : ℕ) → IsDistinct bytes_eq self.old.listed.now
            → has_found self.old.listed.now xs places group place self.old
            → has_found self.old.listed.now (xs ++ number.now ∷ []) (places ++ (group, place) ∷ []) group (place + 1) self.new }
    {
        self.count = self.count.saturating_add(1);
        match self.listed.place(number) {
            Some(at) => self.note(at),
            None => {}
        }
    }

    /// Whether a number of the list is none of the transactions'.
    fn lacks_one(&self) -> bool
        ensures { result ≡ lacks_noted (noted_numbers self.now) }
    {
        has_zero(self.firsts.as_slice())
    }

    /// Puts the further transactions in the order of their numbers.
    fn sort_further(&mut self)
        ensures sorted { self.new.lacks_memory ≡ false → IsNonDecreasingBy (λ f. f.number) self.new.further.items }
        ensures further { (at : ℕ) → further_of at self.new.further.items ≡ further_of at self.old.further.items }
        ensures memory { self.new.lacks_memory ≡ false → self.old.lacks_memory ≡ false }
        ensures listed { self.new.listed ≡ self.old.listed }
        ensures firsts { self.new.firsts ≡ self.old.firsts }
        ensures starts { self.new.starts ≡ self.old.starts }
        ensures count { self.new.count ≡ self.old.count }
    {
        match self.further.sort_by_key(|it| it.number) {
            Ok(()) => {}
            Err(_) => self.lacks_memory = true,
        }
    }

    /// No transaction comes any more.
    pub(crate) fn end(&mut self, alloc: Global)
        ensures listed { self.new.listed ≡ self.old.listed }
        ensures noted { noted_numbers self.new ≡ noted_numbers self.old }
        ensures found { (xs : List (List ℕ)) (places : List (ℕ × ℕ)) (group place : ℕ)
            → has_found self.old.listed.now xs places group place self.old
            → has_found self.old.listed.now xs places group place self.new }
        ensures ended { self.new.lacks_memory ≡ false → HasEnded self.new }
    {
        self.sort_further();
        match none_set(alloc, self.listed.len()) {
            Ok(told) => self.told = told,
            Err(_) => self.lacks_memory = true,
        }
    }

    /// Where the transaction of that count stands.
    fn place(&self, count: u32) -> Place
        ensures { IsNonDecreasingBy (λ x. x) self.now.starts.items → length self.now.starts.items < 2 ^ 32
            → result ≡ place_at self.now.starts.items count }
    {
        let group = self.starts.partition_point(|start| *start < count);
        let before = if 0 < group { self.starts[group - 1] } else { 0 };
        (
            group.min(u32::MAX as usize) as u32,
            count.saturating_sub(before).saturating_sub(1),
        )
    }

    /// Where the transaction stands that had the number at that place among those of the list first. `None` where none has it.
    pub(crate) fn first(&self, at: usize) -> Option<Place>
        ensures { CanPlace self.now → result ≡ first_place (place_at self.now.starts.items) (slice_index_or self.now.firsts.items at 0) }
    {
        match self.firsts.get(at) {
            Some(first) if 0 < *first => Some(self.place(*first)),
            _ => None,
        }
    }

    /// Those from the second one on that have it. Before that comes `end`.
    pub(crate) fn further(&self, at: usize) -> &[Further]
        ensures { CanPlace self.now → result.now ≡ further_of at self.now.further.items }
    {
        let first = self.further.partition_point(|it| it.number < at);
        let rest = &self.further[first..];
        let count = rest.partition_point(|it| it.number <= at);
        &rest[..count]
    }

    /// Where one of these stands.
    pub(crate) fn place_of(&self, further: &Further) -> Place
        ensures { CanPlace self.now → result ≡ place_at self.now.starts.items further.now.count }
    {
        self.place(further.count)
    }

    /// Where the number stands among those of the list, where it is one of these and wasn't told. From then on it was. Before that comes `end`.
    pub(crate) fn tell(&mut self, number: &NumberCell) -> Option<usize>
        ensures found { SameFound self.old self.new }
        ensures some { IfSome result (λ at. (at < length self.old.listed.now)
            × HoldsAt (λ y. bytes_eq y number.now ≡ true) self.old.listed.now at) }
        // A number of the list is told once.
        ensures told { (before : List (List ℕ)) → list_any (λ y. bytes_eq y number.now) self.old.listed.now ≡ true
            → AreNoted bytes_eq self.old.listed.now self.old.told.items before
            → (is_some result ≡ not (list_any (bytes_eq number.now) before))
            × AreNoted bytes_eq self.old.listed.now self.new.told.items (before ++ number.now ∷ []) }
    {
        let Some(at) = self.listed.place(number) else {
            return None;
        };
        if at >= self.told.len() || self.told[at] {
            return None;
        }
        self.told[at] = true;
        Some(at)
    }
}

/// The places of a list, with which of them a transaction has.
#[derive(Drop)]
pub(crate) struct SoughtPlaces<'a> {
    listed: &'a Listed<Place>,
    /// Whether a transaction has it, or that it has none was told.
    found: Vec<bool>,
}

impl<'a> SoughtPlaces<'a> {
    /// Before the first transaction.
    pub(crate) fn new(
        alloc: Global,
        listed: &'a Listed<Place>,
    ) -> Result<SoughtPlaces<'a>, AllocError>
        requires { IsDistinct same_place listed.now }
        ensures listed { IfOk result (λ s. s.listed.now ≡ listed.now) }
        ensures noted { IfOk result (λ s. AreNoted same_place listed.now s.found.items []) }
    {
        match none_set(alloc, listed.len()) {
            Ok(found) => Ok(SoughtPlaces { listed, found }),
            Err(fault) => Err(fault),
        }
    }

    /// Whether a place of the list is none of the transactions'.
    fn lacks_one(&self) -> bool
        ensures { result ≡ lacks_noted self.now.found.items }
    {
        has_unfound(self.found.as_slice())
    }

    /// A transaction has the place. The answer is whether that is sought, and wasn't found or told before.
    pub(crate) fn take(&mut self, place: Place) -> bool
        ensures listed { self.new.listed ≡ self.old.listed }
        ensures noted { (xs : List (ℕ × ℕ)) → AreNoted same_place self.old.listed.now self.old.found.items xs
            → AreNoted same_place self.old.listed.now self.new.found.items (xs ++ place ∷ []) }
        ensures first { (xs : List (ℕ × ℕ)) → list_any (λ y. same_place y place) self.old.listed.now ≡ true
            → AreNoted same_place self.old.listed.now self.old.found.items xs → result ≡ not (list_any (same_place place) xs) }
    {
        let Some(at) = self.listed.place(&place) else {
            return false;
        };
        if at >= self.found.len() {
            return false;
        }
        let is_new = !self.found[at];
        self.found[at] = true;
        is_new
    }
}

/// What is sought of lists, where there are any.
#[derive(Drop)]
pub(crate) struct Sought<'a> {
    pub(crate) numbers: Option<SoughtNumbers<'a>>,
    pub(crate) places: Option<SoughtPlaces<'a>>,
}

/// The numbers of a list, before the first transaction.
fn numbers_in<'a>(
    alloc: Global,
    listed: Option<&'a Listed<NumberCell>>,
) -> Result<Option<SoughtNumbers<'a>>, AllocError>
    requires { AreOnce bytes_eq (option_map (λ l. l.now) listed) }
    ensures notes { IfOk result (NotesNumbers (option_map (λ l. l.now) listed.entry) []) }
    ensures found { IfOk result (FindsNumbers (option_map (λ l. l.now) listed.entry) 0 0 []) }
{
    match listed {
        Some(listed) => match SoughtNumbers::new(alloc, listed) {
            Ok(sought) => Ok(Some(sought)),
            Err(fault) => Err(fault),
        },
        None => Ok(None),
    }
}

/// The places of a list, before the first transaction.
fn places_in<'a>(
    alloc: Global,
    listed: Option<&'a Listed<Place>>,
) -> Result<Option<SoughtPlaces<'a>>, AllocError>
    requires { AreOnce same_place (option_map (λ l. l.now) listed) }
    ensures { IfOk result (NotesPlaces (option_map (λ l. l.now) listed.entry) []) }
{
    match listed {
        Some(listed) => match SoughtPlaces::new(alloc, listed) {
            Ok(sought) => Ok(Some(sought)),
            Err(fault) => Err(fault),
        },
        None => Ok(None),
    }
}

/// Notes which number a transaction has, where numbers are sought.
fn take_number(numbers: &mut Option<SoughtNumbers<'_>>, transaction: &Transaction)
    ensures notes { (listed : Option (List (List ℕ))) (ps : List Placed) (group place : ℕ) → NotesNumbers listed ps numbers.old
        → NotesNumbers listed (ps ++ record { group = group; place = place; records = transaction.now } ∷ []) numbers.new }
    ensures found { (listed : Option (List (List ℕ))) (ps : List Placed) (group place : ℕ) → NotesNumbers listed ps numbers.old
        → FindsNumbers listed group place ps numbers.old
        → FindsNumbers listed group (place + 1) (ps ++ record { group = group; place = place; records = transaction.now } ∷ []) numbers.new }
{
    match numbers {
        Some(numbers) => numbers.take(&number_of(transaction)),
        None => {}
    }
}

/// Notes which place a transaction has, where places are sought.
fn take_place(places: &mut Option<SoughtPlaces<'_>>, group: u32, place: u32)
    ensures { (listed : Option (List (ℕ × ℕ))) (ps : List Placed) (records : List RecordValue) → NotesPlaces listed ps places.old
        → NotesPlaces listed (ps ++ record { group = group; place = place; records = records } ∷ []) places.new }
{
    match places {
        Some(places) => {
            let _ = places.take((group, place));
        }
        None => {}
    }
}

impl<'a> Sought<'a> {
    /// What is sought of these lists, before the first transaction.
    pub(crate) fn new(
        alloc: Global,
        numbers: Option<&'a Listed<NumberCell>>,
        places: Option<&'a Listed<Place>>,
    ) -> Result<Sought<'a>, AllocError>
        requires numbers { AreOnce bytes_eq (option_map (λ l. l.now) numbers) }
        requires places { AreOnce same_place (option_map (λ l. l.now) places) }
        ensures numbers { IfOk result (λ s. NotesNumbers (option_map (λ l. l.now) numbers.entry) [] s.numbers) }
        ensures places { IfOk result (λ s. NotesPlaces (option_map (λ l. l.now) places.entry) [] s.places) }
        ensures found { IfOk result (λ s. FindsNumbers (option_map (λ l. l.now) numbers.entry) 0 0 [] s.numbers) }
    {
        let numbers = match numbers_in(alloc, numbers) {
            Ok(numbers) => numbers,
            Err(fault) => return Err(fault),
        };
        match places_in(alloc, places) {
            Ok(places) => Ok(Sought { numbers, places }),
            Err(fault) => Err(fault),
        }
    }

    /// The transactions that come are those of the next group.
    pub(crate) fn open_group(&mut self)
        ensures { (numbers : Option (List (List ℕ))) (places : Option (List (ℕ × ℕ))) (group place : ℕ) (ps : List Placed)
            → HasNoted numbers places group place ps self.old → HasNoted numbers places (group + 1) 0 ps self.new }
    {
        match &mut self.numbers {
            Some(numbers) => numbers.open_group(),
            None => {}
        }
    }

    /// The next transaction has that place.
    pub(crate) fn take(&mut self, group: u32, place: u32, transaction: &Transaction)
        ensures { (numbers : Option (List (List ℕ))) (places : Option (List (ℕ × ℕ))) (ps : List Placed)
            → HasNoted numbers places group place ps self.old
            → HasNoted numbers places group (place + 1) (ps ++ record { group = group; place = place; records = transaction.now } ∷ [])
            self.new }
    {
        take_number(&mut self.numbers, transaction);
        take_place(&mut self.places, group, place);
    }

    /// Whether a number or a place of a list is none of the transactions'.
    pub(crate) fn lacks_one(&self) -> bool
        ensures { result ≡ lacks_sought self.now }
    {
        let lacks_number = match &self.numbers {
            Some(numbers) => numbers.lacks_one(),
            None => false,
        };
        let lacks_place = match &self.places {
            Some(places) => places.lacks_one(),
            None => false,
        };
        lacks_number || lacks_place
    }

    /// No transaction comes any more.
    pub(crate) fn end(&mut self, alloc: Global)
        ensures noted { (numbers : Option (List (List ℕ))) (places : Option (List (ℕ × ℕ))) (group place : ℕ) (ps : List Placed)
            → HasNoted numbers places group place ps self.old → HasNoted numbers places group place ps self.new }
        ensures ended { lacks_memory self.new ≡ false → IfSome self.new.numbers HasEnded }
    {
        match &mut self.numbers {
            Some(numbers) => numbers.end(alloc),
            None => {}
        }
    }

    /// Whether memory was refused for what is noted.
    pub(crate) fn lacks_memory(&self) -> bool
        ensures { result ≡ lacks_memory self.now }
    {
        match &self.numbers {
            Some(numbers) => numbers.lacks_memory,
            None => false,
        }
    }
}
