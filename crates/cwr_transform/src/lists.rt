//! Lists of numbers and of places of transactions: texts with one a line.

ghost use Rattle.std.specs.Prelude.{◌≡◌, ◌==◌, ◌∷◌, ◌<◌, [], ◌++◌, IfOk, OnOk, IfSome, None, Some, Err, ℕ, length, option_map, List, Option, Result};
ghost use Rattle.std.specs.List.{after_first, before_first, position, slice_split};
ghost use Rattle.std.specs.Option.{option_map_or};
ghost use Rattle.cwr_fields.specs.Format.Bytes.{are_digits};
ghost use Rattle.cwr_files.specs.Format.Inputs.{is_standard};
ghost use Rattle.cwr_files.specs.Steps.Inputs.{IsThereFor, standard_after, standard_left};
ghost use Rattle.cwr_transform.specs.Steps.Lists.{IsFirstOf, ReadsText, all_after, line_read};
ghost use Rattle.cwr_transform.specs.Format.Lists.{all_read, entries_in, entry_of, is_place_number, number_in, pair_of, place_in, place_number, unmarked};

use cwr_fields::trimmed;
use cwr_files::{Fault, Store, Unwatched, open_input};
use cwr_select::number_cell;
use cwr_sent::small_number;
use std::alloc::Global;
use std::io;
use std::io::Read;

/// The number of a transaction, with spaces up to the width of the widest.
pub(crate) type NumberCell = [u8; 20];

/// The place of a transaction: that of its group, from 1, and that in it, from 0.
pub(crate) type Place = (u32, u32);

/// The bytes by which a text in UTF-8 may begin.
const MARK: [u8; 3] = [0xEF, 0xBB, 0xBF];

/// The most digits of a place.
const MOST_DIGITS: usize = 8;

/// Why the lines of a list aren't taken.
#[derive(Clone, Copy, Debug, PartialEq, Eq)]
pub(crate) enum Untaken {
    /// The line of that number, from 1, is none of a list.
    Line(u64),
    /// There was no memory.
    Memory,
}

/// The text of the file of that name, or of standard input, which is there once.
pub(crate) fn read_list<'a, S: Store, I: Read + Drop>(
    store: &mut S,
    alloc: Global,
    name: &'a str,
    standard: &mut Option<I>,
) -> Result<Vec<u8>, Fault<'a>>
    // It is what lies under the name, or was on standard input.
    ensures text { IfOk result (λ text. ReadsText (S.held store.old) (standard_left I.remaining standard.old) name.entry.now
        text.items) }
    ensures there { OnOk result (IsThereFor (is_standard (Some name.entry.now)) standard.old) }
    ensures standard { standard.new ≡ standard_after (is_standard (Some name.entry.now)) standard.old }
    ensures failures { OnOk result (S.failures store.new ≡ S.failures store.old) }
    ensures kept { S.held store.new ≡ S.held store.old }
    ensures making { S.making store.new ≡ S.making store.old }
{
    let mut input = match open_input(store, Some(name), standard, Unwatched) {
        Ok(input) => input,
        Err(fault) => return Err(fault),
    };
    let mut text = Vec::new(alloc);
    match input.read_to_end(&mut text) {
        Ok(_) => Ok(text),
        Err(fault) if matches!(fault.kind(), io::ErrorKind::OutOfMemory) => Err(Fault::Memory),
        Err(_) => Err(Fault::Read(input.told())),
    }
}

/// A text without the mark of UTF-8 at its front.
pub(crate) fn unmarked(text: &[u8]) -> &[u8]
    ensures { result.now ≡ unmarked text.now }
{
    text.strip_prefix(&MARK).unwrap_or(text)
}

/// What a line of a list has: a CR and then spaces at its end are left out.
fn entry_of(line: &[u8]) -> &[u8]
    ensures { result.now ≡ entry_of line.now }
{
    trimmed(line.strip_suffix(b"\r").unwrap_or(line))
}

/// Where the first such byte stands in a text.
fn place_of(byte: u8, text: &[u8]) -> Option<usize>
    ensures { result ≡ position (λ b. b == byte) text.now }
{
    text.iter().position(|b| *b == byte)
}

/// The first line of a text, and what follows its line feed, where it has one.
fn first_line(text: &[u8]) -> (&[u8], Option<&[u8]>)
    ensures parts { slice_split (λ b. b == 10) text.now
        ≡ result.0.now ∷ option_map_or (λ rest. slice_split (λ b. b == 10) rest.now) result.1 [] }
    ensures shorter { IfSome result.1 (λ rest. length rest.now < length text.now) }
{
    match place_of(b'\n', text) {
        Some(at) => (&text[..at], Some(&text[at + 1..])),
        None => (text, None),
    }
}

/// What stands before the first space of a text, and after it. Where there is none that is all, and nothing.
fn halves(text: &[u8]) -> (&[u8], &[u8])
    ensures before { result.0.now ≡ before_first (λ b. b == 32) text.now }
    ensures after { result.1.now ≡ after_first (λ b. b == 32) text.now }
{
    match place_of(b' ', text) {
        Some(at) => (&text[..at], &text[at + 1..]),
        None => (text, &[]),
    }
}

/// Whether each byte is a digit.
fn are_digits(text: &[u8]) -> bool
    ensures { result ≡ are_digits text.now }
{
    text.iter().all(|b| 48 <= *b && *b <= 57)
}

/// Whether a text is one to eight digits.
fn is_place_number(text: &[u8]) -> bool
    ensures { result ≡ is_place_number text.now }
{
    0 < text.len() && text.len() <= MOST_DIGITS && are_digits(text)
}

/// The number that one to eight digits write. `None` of another text.
fn place_number(text: &[u8]) -> Option<u32>
    ensures { result ≡ place_number text.now }
{
    if is_place_number(text) {
        Some(small_number(text))
    } else {
        None
    }
}

/// Both numbers, where both are some.
fn pair_of(group: Option<u32>, transaction: Option<u32>) -> Option<Place>
    ensures { result ≡ pair_of group transaction }
{
    Some((group?, transaction?))
}

/// What an entry of a list may be.
pub(crate) trait Entry: Sized + Drop {
    // What an entry is, if it is one.
    ghost reads: { List ℕ → Option Self };

    /// What the entry is.
    fn read(entry: &[u8]) -> Option<Self>
        ensures { result ≡ reads entry.now };

    /// What is told of a line that isn't of one.
    fn expected() -> &'static str;
}

impl Entry for NumberCell {
    ghost reads = { number_in };

    fn read(entry: &[u8]) -> Option<NumberCell> {
        number_cell(entry)
    }

    fn expected() -> &'static str {
        "a number has 20 bytes at most"
    }
}

/// The place that an entry writes: two numbers with a space between them.
fn place_in(entry: &[u8]) -> Option<Place>
    ensures { result ≡ place_in entry.now }
{
    let (group, transaction) = halves(entry);
    pair_of(place_number(group), place_number(transaction))
}

impl Entry for Place {
    ghost reads = { place_in };

    fn read(entry: &[u8]) -> Option<Place> {
        place_in(entry)
    }

    fn expected() -> &'static str {
        "no place: GROUP TRANSACTION, as 1 0"
    }
}

/// How many lines a text has at most.
fn lines_in(text: &[u8]) -> usize {
    text.iter()
        .filter(|b| **b == b'\n')
        .count()
        .saturating_add(1)
}

/// What a line says: nothing where it is blank. `None` where it is none of a list.
fn read_line<T: Entry>(line: &[u8]) -> Option<Option<T>>
    ensures { result ≡ line_read T.reads line.now }
{
    let entry = entry_of(line);
    if 0 < entry.len() {
        match T::read(entry) {
            Some(value) => Some(Some(value)),
            None => None,
        }
    } else {
        Some(None)
    }
}

/// What the first line of a text says, if it says anything, and what follows it.
pub(crate) fn next_value<T: Entry>(text: &[u8]) -> (Option<T>, Option<&[u8]>)
    ensures parts { IsFirstOf T.reads text.now result.0 (option_map (λ rest. rest.now) result.1) }
    ensures shorter { IfSome result.1 (λ rest. length rest.now < length text.now) }
{
    let (line, after) = first_line(text);
    (read_line(line).flatten(), after)
}

/// Takes what a line says after values. The line is the one of that number.
fn take_line<T: Entry>(values: &mut Vec<T>, line: &[u8], at: u64) -> Result<(), Untaken>
    ensures taken { OnOk result ((lines : List (List ℕ)) → all_after T.reads values.new.items lines
        ≡ all_after T.reads values.old.items (line.now ∷ lines)) }
    ensures none { (n : ℕ) → result ≡ Err (Untaken.Line n) → line_read T.reads line.now ≡ None }
{
    match read_line(line) {
        Some(Some(value)) => match values.push(value) {
            Ok(()) => Ok(()),
            Err(_) => Err(Untaken::Memory),
        },
        Some(None) => Ok(()),
        None => Err(Untaken::Line(at)),
    }
}

/// What the lines of a list say, in their order. Blank lines are left out. Another line that isn't of such a value is none of a list.
pub(crate) fn values_in<T: Entry>(alloc: Global, text: &[u8]) -> Result<Vec<T>, Untaken>
    ensures values { IfOk result (λ values. all_read T.reads (entries_in text.now) ≡ Some values.items) }
    ensures none { (n : ℕ) → result ≡ Err (Untaken.Line n) → all_read T.reads (entries_in text.now) ≡ None }
{
    let mut values = Vec::new(alloc);
    if values.reserve_exact(lines_in(text)).is_err() {
        return Err(Untaken::Memory);
    }
    let mut rest = unmarked(text);
    let mut at: u64 = 0;
    'lines: loop {
        at = at.saturating_add(1);
        let (line, after) = first_line(rest);
        take_line(&mut values, line, at)?;
        match after {
            Some(next) => rest = next,
            None => return Ok(values),
        }
    }
}
