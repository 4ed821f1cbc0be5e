//! What is told of a selection: how many transactions are selected, and what of the lists is missing, or is there several times.

ghost use Rattle.std.specs.Prelude.{◌≡◌, ◌++◌, ◌∷◌, [], ℕ, List, Option, Some, IfSome, option_map, true};
ghost use Rattle.std.specs.List.{flat_map, list_any};
ghost use Rattle.std.specs.Str.{bytes_eq};
ghost use Rattle.cwr_devices.specs.Steps.Pens.{Adds};
ghost use Rattle.cwr_transform.specs.Format.Lists.{all_read, entries_in, number_in, place_in};
ghost use Rattle.cwr_transform.specs.Format.Missing.{Placed, places_of, same_place};
ghost use Rattle.cwr_transform.specs.Format.Told.{firsts_after, missing_number, missing_place, number_lines, numbers_told, place_lines, place_text, places_told, selected_line, told_of, twice_line};
ghost use Rattle.cwr_transform.specs.Steps.Found.{place_at};
ghost use Rattle.cwr_transform.specs.Steps.Lists.{IsFirstOf, SayValues};
ghost use Rattle.cwr_transform.specs.Steps.Sought.{AreNoted, CanPlace, SameFound, numbers_sought, places_found, places_sought};
ghost use Rattle.cwr_transform.specs.Steps.TellingLists.{AreAllIn, AreIn, AreLines, Knows, KnowsNumbers, TellsTo, lines_after, lines_in, lines_once};

use crate::lists::{NumberCell, Place, next_value, unmarked};
use crate::sought::{Further, Sought, SoughtNumbers, SoughtPlaces};
use cwr_devices::{Pen, Target};
use cwr_fields::trimmed;
use cwr_files::Name;
use cwr_select::SelectReport;
use std::io::Write;

/// Adds the place that ends a line.
fn add_place<W: Target>(place: Place, pen: &mut Pen<'_, W>)
    ensures { Adds W.contents W.failures (place_text place) pen.old pen.new }
{
    pen.words(" group ");
    pen.number(place.0 as u64);
    pen.words(" transaction ");
    pen.number(place.1 as u64);
    pen.words("\n");
}

/// Adds the line that says how many transactions are selected.
fn add_selected<W: Target>(report: SelectReport, pen: &mut Pen<'_, W>)
    ensures { Adds W.contents W.failures (selected_line report) pen.old pen.new }
{
    pen.words("SELECTED ");
    pen.number(report.selected as u64);
    pen.words(" of ");
    pen.number(report.transactions as u64);
    pen.words("\n");
}

/// Adds the line of a number that no transaction has.
fn add_missing<W: Target>(number: &[u8], pen: &mut Pen<'_, W>)
    ensures { Adds W.contents W.failures (missing_number number.now) pen.old pen.new }
{
    pen.words("MISSING ");
    pen.text(number);
    pen.words("\n");
}

/// Adds the line of a number that several transactions have, for the one at that place.
fn add_twice<W: Target>(number: &[u8], place: Place, pen: &mut Pen<'_, W>)
    ensures { Adds W.contents W.failures (twice_line number.now place) pen.old pen.new }
{
    pen.words("TWICE ");
    pen.text(number);
    add_place(place, pen);
}

/// Adds the line of a place that no transaction has.
fn add_missing_place<W: Target>(place: Place, pen: &mut Pen<'_, W>)
    ensures { Adds W.contents W.failures (missing_place place) pen.old pen.new }
{
    pen.words("MISSING");
    add_place(place, pen);
}

/// Adds such a line for each of these transactions.
fn add_each<W: Target>(
    sought: &SoughtNumbers<'_>,
    number: &[u8],
    further: &[Further],
    pen: &mut Pen<'_, W>,
)
    ensures { CanPlace sought.now → Adds W.contents W.failures
        (flat_map (λ f. twice_line number.now (place_at sought.now.starts.items f.count)) further.now) pen.old pen.new }
{
    let mut i = 0;
    while let Some(it) = further.get(i) {
        add_twice(number, sought.place_of(it), pen);
        i += 1;
    }
}

/// Adds the lines of the number at that place among those of a list: that no transaction has it, or each of the several that do.
fn add_number<W: Target>(sought: &SoughtNumbers<'_>, number: &[u8], at: usize, pen: &mut Pen<'_, W>)
    ensures { CanPlace sought.now
        → Adds W.contents W.failures (number_lines number.now (places_found sought.now at)) pen.old pen.new }
{
    let Some(first) = sought.first(at) else {
        add_missing(number, pen);
        return;
    };
    let further = sought.further(at);
    if 0 < further.len() {
        add_twice(number, first, pen);
        add_each(sought, number, further, pen);
    }
}

/// Adds the lines of a number of a list, unless it was told.
fn tell_number<W: Target>(sought: &mut SoughtNumbers<'_>, number: &NumberCell, pen: &mut Pen<'_, W>)
    ensures found { SameFound sought.old sought.new }
    ensures told { (before : List (List ℕ)) (lines : List ℕ → List ℕ) → CanPlace sought.old → AreLines lines sought.old
        → list_any (λ y. bytes_eq y number.now) sought.old.listed.now ≡ true
        → AreNoted bytes_eq sought.old.listed.now sought.old.told.items before
        → Adds W.contents W.failures (lines_once bytes_eq lines before number.now) pen.old pen.new
        × AreNoted bytes_eq sought.old.listed.now sought.new.told.items (before ++ number.now ∷ []) }
{
    match sought.tell(number) {
        Some(at) => add_number(sought, trimmed(number), at, pen),
        None => {}
    }
}

/// Adds the lines of what a line of a list of numbers says, if it says anything.
fn tell_if_number<W: Target>(
    value: Option<NumberCell>,
    sought: &mut SoughtNumbers<'_>,
    pen: &mut Pen<'_, W>,
)
    ensures found { SameFound sought.old sought.new }
    ensures told { (rest : List ℕ) (after : Option (List ℕ)) (lines : List ℕ → List ℕ) (told : List ℕ) (first : Pen W)
        → IsFirstOf number_in rest value after → CanPlace sought.old → AreLines lines sought.old
        → TellsTo W.contents W.failures number_in bytes_eq lines sought.old.listed.now sought.old.told.items [] told (lines_in rest) first pen.old
        → TellsTo W.contents W.failures number_in bytes_eq lines sought.old.listed.now sought.new.told.items [] told (lines_after after) first
        pen.new }
{
    match value {
        Some(number) => tell_number(sought, &number, pen),
        None => {}
    }
}

/// Adds the line of a place of a list where no transaction has it, unless that was told.
fn tell_place<W: Target>(sought: &mut SoughtPlaces<'_>, place: Place, pen: &mut Pen<'_, W>)
    ensures listed { sought.new.listed ≡ sought.old.listed }
    ensures told { (found before : List (ℕ × ℕ)) → list_any (λ y. same_place y place) sought.old.listed.now ≡ true
        → AreNoted same_place sought.old.listed.now sought.old.found.items (found ++ before)
        → Adds W.contents W.failures (lines_once same_place (λ p. place_lines p found) before place) pen.old pen.new
        × AreNoted same_place sought.old.listed.now sought.new.found.items (found ++ (before ++ place ∷ [])) }
{
    if sought.take(place) {
        add_missing_place(place, pen);
    }
}

/// Adds the lines of what a line of a list of places says, if it says anything.
fn tell_if_place<W: Target>(
    value: Option<Place>,
    sought: &mut SoughtPlaces<'_>,
    pen: &mut Pen<'_, W>,
)
    ensures listed { sought.new.listed ≡ sought.old.listed }
    ensures told { (rest : List ℕ) (after : Option (List ℕ)) (found : List (ℕ × ℕ)) (told : List ℕ) (first : Pen W)
        → IsFirstOf place_in rest value after
        → TellsTo W.contents W.failures place_in same_place (λ p. place_lines p found) sought.old.listed.now sought.old.found.items found told
        (lines_in rest) first pen.old
        → TellsTo W.contents W.failures place_in same_place (λ p. place_lines p found) sought.old.listed.now sought.new.found.items found told
        (lines_after after) first pen.new }
{
    match value {
        Some(place) => tell_place(sought, place, pen),
        None => {}
    }
}

/// Adds the lines of the numbers of a list, each once.
fn add_numbers<W: Target>(text: &[u8], sought: &mut SoughtNumbers<'_>, pen: &mut Pen<'_, W>)
    ensures { (values : List (List ℕ)) (lines : List ℕ → List ℕ) → all_read number_in (entries_in text.now) ≡ Some values
        → AreIn bytes_eq sought.old.listed.now values → CanPlace sought.old → AreLines lines sought.old
        → AreNoted bytes_eq sought.old.listed.now sought.old.told.items []
        → Adds W.contents W.failures (flat_map lines (firsts_after bytes_eq [] values)) pen.old pen.new }
{
    let mut rest = unmarked(text);
    'lines: loop {
        let (value, after) = next_value::<NumberCell>(rest);
        tell_if_number(value, sought, pen);
        match after {
            Some(next) => rest = next,
            None => return,
        }
    }
}

/// Adds the lines of the places of a list that no transaction has, each once.
fn add_places<W: Target>(text: &[u8], sought: &mut SoughtPlaces<'_>, pen: &mut Pen<'_, W>)
    ensures { (values found : List (ℕ × ℕ)) → all_read place_in (entries_in text.now) ≡ Some values
        → AreIn same_place sought.old.listed.now values → AreNoted same_place sought.old.listed.now sought.old.found.items found
        → Adds W.contents W.failures (flat_map (λ p. place_lines p found) (firsts_after same_place [] values)) pen.old pen.new }
{
    let mut rest = unmarked(text);
    'lines: loop {
        let (value, after) = next_value::<Place>(rest);
        tell_if_place(value, sought, pen);
        match after {
            Some(next) => rest = next,
            None => return,
        }
    }
}

/// Adds the lines of the numbers of a list, whose text this is, where there is one.
fn add_numbers_if<W: Target>(
    text: Option<&[u8]>,
    sought: &mut Option<SoughtNumbers<'_>>,
    pen: &mut Pen<'_, W>,
)
    ensures { (values : Option (List (List ℕ))) (ps : List Placed) → SayValues number_in values (option_map (λ t. t.now) text.entry)
        → AreAllIn bytes_eq (option_map (λ s. s.listed.now) sought.old) values → IfSome sought.old (KnowsNumbers ps)
        → Adds W.contents W.failures (told_of numbers_told values ps) pen.old pen.new }
{
    let Some(text) = text else {
        return;
    };
    match sought {
        Some(sought) => add_numbers(text, sought, pen),
        None => {}
    }
}

/// Adds the lines of the places of a list, whose text this is, where there is one.
fn add_places_if<W: Target>(
    text: Option<&[u8]>,
    sought: &mut Option<SoughtPlaces<'_>>,
    pen: &mut Pen<'_, W>,
)
    ensures { (values : Option (List (ℕ × ℕ))) (ps : List Placed) → SayValues place_in values (option_map (λ t. t.now) text.entry)
        → AreAllIn same_place (option_map (λ s. s.listed.now) sought.old) values
        → IfSome sought.old (λ p. AreNoted same_place p.listed.now p.found.items (places_of ps))
        → Adds W.contents W.failures (told_of places_told values ps) pen.old pen.new }
{
    let Some(text) = text else {
        return;
    };
    match sought {
        Some(sought) => add_places(text, sought, pen),
        None => {}
    }
}

/// Adds the lines that say what is selected: how many transactions, and what of the lists, whose texts these are, is missing, or is there
/// several times.
pub(crate) fn add_lines<W: Target>(
    report: SelectReport,
    works: Option<&[u8]>,
    places: Option<&[u8]>,
    sought: &mut Sought<'_>,
    pen: &mut Pen<'_, W>,
)
    ensures { (numbers : Option (List (List ℕ))) (listed : Option (List (ℕ × ℕ))) (ps : List Placed)
        → SayValues number_in numbers (option_map (λ t. t.now) works.entry) → SayValues place_in listed (option_map (λ t. t.now) places.entry)
        → AreAllIn bytes_eq (numbers_sought sought.old) numbers → AreAllIn same_place (places_sought sought.old) listed
        → Knows ps sought.old
        → Adds W.contents W.failures (selected_line report ++ (told_of numbers_told numbers ps ++ told_of places_told listed ps))
        pen.old pen.new }
{
    add_selected(report, pen);
    add_numbers_if(works, &mut sought.numbers, pen);
    add_places_if(places, &mut sought.places, pen);
}

/// Tells on standard error which groups' trailers lose their currency and total. What standard error doesn't take is lost.
pub(crate) fn tell_blanked<E: Write>(error: &mut E, groups: &[u32]) {
    for group in groups {
        let _ = writeln!(
            error,
            "cwr: group {group}: currency and total of its GRT are left out, since transactions of it are"
        );
    }
}

/// Tells on standard error that nothing is selected.
pub(crate) fn tell_none<E: Write>(error: &mut E) {
    let _ = writeln!(error, "cwr: no transaction is selected");
}

/// Tells on standard error that the moment is that of the input.
pub(crate) fn tell_same_moment<E: Write>(error: &mut E, name: Name<'_>) {
    let _ = writeln!(
        error,
        "cwr: {name}: it was created at that moment: an answer to what is written couldn't be told from one to it"
    );
}

/// Tells on standard error which line of a list is none.
pub(crate) fn tell_line<E: Write>(error: &mut E, name: Name<'_>, line: u64, expected: &str) {
    let _ = writeln!(error, "cwr: {name}: line {line}: {expected}");
}
