//! What a wrong number points to: records that are missing or stand twice, or a count that wasn't changed.

ghost use Rattle.std.specs.Prelude.{◌≡◌, ◌++◌, ◌==◌, List, [], if◌then◌else◌, option_map, string_bytes, OnOk};
ghost use Rattle.cwr_causes.specs.Format.WrongNumbers.{begins_group, file_records_words, heads, first_number_words, uncounted_ends};
ghost use Rattle.cwr_causes.specs.Format.RefusedWorks.{is_after_header};
ghost use Rattle.cwr_causes.specs.Format.WrongNumbers.{ahead_words, amount_words, beside_words, breaking_words, comparison_words, count_words, counts_on, difference_words};
ghost use Rattle.cwr_causes.specs.Format.WrongNumbers.{first_count_words, first_header_words, first_id_words, foot_words, going_on_words, group_records_words, header_words, id_words, in_order_words, message_words};
ghost use Rattle.cwr_causes.specs.Format.WrongNumbers.{is_closing, is_header, is_one_more, is_same_line, later_count_words, later_header_words, later_id_words, later_purpose_words, later_used_words, low_words, may_be_cut, plural, meaning_words};
ghost use Rattle.cwr_causes.specs.Format.WrongNumbers.{missing_words, naming, naming_of, neighbours_at, one_missing_words, place_words, points_words, purpose_words, reason_words};
ghost use Rattle.cwr_causes.specs.Format.WrongNumbers.{record_words, repeated_words, sequence_words, shifted_words, some_missing_words, stands_after, swapped_words, taken_out_words};
ghost use Rattle.cwr_causes.specs.Format.WrongNumbers.{trailer_words, transaction_words, transactions_words, twice_words, uncounted_words, unless_seen, used_words, wrong_value};

use crate::ahead::Ahead;
use crate::sequences::{RECORD_SEQUENCE, Sequences, sequence_in, sequences_of, start_of_sequence};
use crate::texts::add_label;
use cwr_fields::Kind;
use std::alloc::AllocError;
use std::fmt::Write;

/// The bytes of a line before which its sequences end.
const AFTER_SEQUENCES: usize = 19;

/// A number that isn't the one that belongs there.
#[derive(Clone, Copy, Debug)]
pub(crate) struct WrongNumber<'a> {
    /// The kind of its record.
    pub kind: Kind,
    /// Its field, from 1.
    pub field: u8,
    /// The number that stands there.
    pub found: u64,
    /// The number that belongs there.
    pub expected: u64,
    /// The number of its line, from 1.
    pub number: u32,
    /// Its line.
    pub line: &'a [u8],
    /// The line before, where its bytes are still held.
    pub before: Option<&'a [u8]>,
    /// How the numbers after it go on, where they were looked at.
    pub ahead: Option<Ahead>,
    /// Whether there are faults in the lines before it.
    pub is_later: bool,
}

/// What is numbered one by one.
#[derive(Clone, Copy, Debug, PartialEq, Eq)]
enum Numbered {
    /// The records of a transaction, by their sequences.
    Record,
    /// The transactions of a group, by their sequences.
    Transaction,
    /// The groups of the file, by their IDs.
    Group,
}

/// What is numbered, as one and as several.
#[derive(Clone, Copy, Debug)]
struct Names {
    one: &'static str,
    several: &'static str,
    /// What its number is called.
    number: &'static str,
}

impl Numbered {
    /// What it is called.
    #[tactic(auto, unfolding(crate::specs::Format::WrongNumbers::naming))]
    fn names(self) -> Names
        ensures { naming_of result ≡ naming self }
    {
        match self {
            Numbered::Record => Names {
                one: "record",
                several: "records",
                number: "sequence",
            },
            Numbered::Transaction => Names {
                one: "transaction",
                several: "transactions",
                number: "sequence",
            },
            Numbered::Group => Names {
                one: "group",
                several: "groups",
                number: "ID",
            },
        }
    }
}

/// Whether the record is one that heads transactions.
pub(crate) fn is_header(kind: Kind) -> bool
    ensures { result ≡ is_header kind }
{
    matches!(kind, Kind::Agr | Kind::Nwr | Kind::Rev | Kind::Ack)
}

/// Whether the number is that of a further record of a transaction, whose header has number 0.
fn is_after_header(number: Option<u64>) -> bool
    ensures { result ≡ is_after_header number }
{
    match number {
        Some(number) => number != 0,
        None => false,
    }
}

/// Adds that two numbers stand beside each other, where both are known.
fn add_beside(text: &mut String, what: Names, neighbours: Sequences) -> Result<(), AllocError>
    ensures { OnOk result (string_bytes text.new ≡ string_bytes text.old ++ beside_words (naming_of what) neighbours.before neighbours.here) }
{
    let several = what.several;
    match (neighbours.before, neighbours.here) {
        (Some(before), Some(here)) => write!(
            text,
            "{several} {before} and {here} stand beside each other: "
        ),
        _ => Ok(()),
    }
}

/// Whether the number that belongs here is the first one after it.
fn stands_after(after: Option<Ahead>, expected: u64) -> bool
    ensures { result ≡ stands_after after expected }
{
    match after {
        Some(ahead) => match ahead.first {
            Some(first) => first == expected,
            None => false,
        },
        None => false,
    }
}

/// The words, where nothing after the number was looked at.
fn unless_seen<'a>(after: Option<Ahead>, words: &'a str) -> &'a str
    ensures { result.now ≡ unless_seen after words.now }
{
    match after {
        None => words,
        Some(_) => "",
    }
}

/// Adds that one is missing.
#[tactic(auto, unfolding(crate::specs::Format::WrongNumbers::one_missing_words))]
fn add_one_missing(text: &mut String, what: Names, expected: u64) -> Result<(), AllocError>
    ensures { OnOk result (string_bytes text.new ≡ string_bytes text.old ++ one_missing_words (naming_of what) expected) }
{
    let Names { one, number, .. } = what;
    write!(
        text,
        "the {one} with {number} {expected} is missing before this line, or stands elsewhere"
    )
}

/// Adds that some are missing, up to the last.
#[tactic(auto, unfolding(crate::specs::Format::WrongNumbers::some_missing_words))]
fn add_some_missing(
    text: &mut String,
    what: Names,
    expected: u64,
    last: u64,
) -> Result<(), AllocError>
    ensures { OnOk result (string_bytes text.new ≡ string_bytes text.old ++ some_missing_words (naming_of what) expected last) }
{
    let Names {
        several,
        number,
        ..
    } = what;
    write!(
        text,
        "the {several} with {number} {expected} to {last} are missing before this line, or stand elsewhere"
    )
}

/// Adds that one changed places with the one after it.
#[tactic(auto, unfolding(crate::specs::Format::WrongNumbers::swapped_words))]
fn add_swapped(text: &mut String, what: Names, expected: u64) -> Result<(), AllocError>
    ensures { OnOk result (string_bytes text.new ≡ string_bytes text.old ++ swapped_words (naming_of what) expected) }
{
    let Names { one, number, .. } = what;
    write!(
        text,
        "the {one} with {number} {expected} stands after this line: the two changed places"
    )
}

/// Adds where the missing ones are.
#[tactic(auto, unfolding(crate::specs::Format::WrongNumbers::place_words))]
fn add_place(
    text: &mut String,
    what: Names,
    found: u64,
    expected: u64,
    after: Option<Ahead>,
) -> Result<(), AllocError>
    ensures { OnOk result (string_bytes text.new ≡ string_bytes text.old ++ place_words (naming_of what) found expected after) }
{
    let last = found.saturating_sub(1);
    if stands_after(after, expected) {
        add_swapped(text, what, expected)
    } else if last == expected {
        add_one_missing(text, what, expected)
    } else {
        add_some_missing(text, what, expected, last)?;
        text.push_str(unless_seen(after, ", or the number is mistyped"))
    }
}

/// Adds which ones are missing between the one before and this one.
#[tactic(auto, unfolding(crate::specs::Format::WrongNumbers::missing_words))]
fn add_missing(
    text: &mut String,
    what: Names,
    neighbours: Sequences,
    found: u64,
    expected: u64,
    after: Option<Ahead>,
) -> Result<(), AllocError>
    ensures { OnOk result (string_bytes text.new ≡ string_bytes text.old ++ missing_words (naming_of what) neighbours found expected after) }
{
    add_beside(text, what, neighbours)?;
    add_place(text, what, found, expected, after)
}

/// Adds that the number was used before.
#[tactic(auto, unfolding(crate::specs::Format::WrongNumbers::used_words))]
fn add_used(text: &mut String, what: Names, found: u64, expected: u64) -> Result<(), AllocError>
    ensures { OnOk result (string_bytes text.new ≡ string_bytes text.old ++ used_words (naming_of what) found expected) }
{
    let Names { one, several, .. } = what;
    let back = expected.saturating_sub(found);
    if back == 1 {
        write!(
            text,
            "this {one} has the number of the one before: it stands twice, or another one was put in, or two files were put together, or only the number is wrong"
        )
    } else {
        write!(
            text,
            "{back} {several} before, this number was used: {several} stand twice or elsewhere, or two files were put together, or only the number is wrong"
        )
    }
}

/// Adds that it is too low after other faults: the lines with these may be those that are numbered wrong.
#[tactic(auto, unfolding(crate::specs::Format::WrongNumbers::later_used_words))]
fn add_later_used(text: &mut String, what: Names, expected: u64) -> Result<(), AllocError>
    ensures { OnOk result (string_bytes text.new ≡ string_bytes text.old ++ later_used_words (naming_of what) expected) }
{
    let several = what.several;
    write!(
        text,
        "by the lines before it, of which some have faults, {expected} belongs here: mend those first, and look again; else {several} stand twice or elsewhere, or only the number is wrong"
    )
}

/// Adds that the number is too low.
fn add_low(
    text: &mut String,
    what: Names,
    is_later: bool,
    found: u64,
    expected: u64,
) -> Result<(), AllocError>
    ensures { OnOk result (string_bytes text.new ≡ string_bytes text.old ++ low_words (naming_of what) is_later found expected) }
{
    if is_later {
        add_later_used(text, what, expected)
    } else {
        add_used(text, what, found, expected)
    }
}

/// Adds which numbers are shifted: this one and so many after it.
#[tactic(auto, unfolding(crate::specs::Format::WrongNumbers::shifted_words))]
fn add_shifted(text: &mut String, what: Names, count: u64) -> Result<(), AllocError>
    ensures { OnOk result (string_bytes text.new ≡ string_bytes text.old ++ shifted_words (naming_of what) count) }
{
    let Names { one, several, .. } = what;
    if count == 1 {
        write!(text, "; this number and that of the {one} after it are ")
    } else {
        write!(
            text,
            "; this number and those of the {count} {several} after it are "
        )
    }
}

/// Adds by how much they are higher, and what was taken out after that line.
#[tactic(auto, unfolding(crate::specs::Format::WrongNumbers::taken_out_words))]
fn add_taken_out(text: &mut String, what: Names, higher: u64, line: u32) -> Result<(), AllocError>
    ensures { OnOk result (string_bytes text.new ≡ string_bytes text.old ++ taken_out_words (naming_of what) higher line) }
{
    let Names { one, several, .. } = what;
    if higher == 1 {
        write!(
            text,
            "1 higher: the {one} after line {line} was taken out or stands elsewhere, or, where the counts of GRT and TRL fit, only its number may have been skipped"
        )
    } else {
        write!(
            text,
            "{higher} higher: the {several} after line {line} were taken out or stand elsewhere, or, where the counts of GRT and TRL fit, only numbers may have been skipped"
        )
    }
}

/// Adds by how much they are higher or lower on the line of that number.
#[tactic(auto, unfolding(crate::specs::Format::WrongNumbers::amount_words))]
fn add_amount(
    text: &mut String,
    what: Names,
    found: u64,
    expected: u64,
    line: u32,
) -> Result<(), AllocError>
    ensures { OnOk result (string_bytes text.new ≡ string_bytes text.old ++ amount_words (naming_of what) found expected line) }
{
    if found > expected {
        add_taken_out(text, what, found - expected, line.saturating_sub(1))
    } else {
        let lower = expected - found;
        write!(text, "{lower} lower")
    }
}

/// Whether there is a first number, and it is one more.
pub(crate) fn is_one_more(first: Option<u64>, found: u64) -> bool
    ensures { result ≡ is_one_more first found }
{
    match first {
        Some(first) => first > found && first - found == 1,
        None => false,
    }
}

/// Adds that the numbers after it don't go on from it, or not all of them.
#[tactic(auto, unfolding(crate::specs::Format::WrongNumbers::breaking_words))]
fn add_breaking(text: &mut String, what: Names, found: u64, ahead: Ahead) -> Result<(), AllocError>
    ensures { OnOk result (string_bytes text.new ≡ string_bytes text.old ++ breaking_words (naming_of what) found ahead) }
{
    let several = what.several;
    if is_one_more(ahead.first, found) {
        write!(
            text,
            "; the {several} after it go on from this number, but not all: what is missing may stand behind those"
        )
    } else {
        write!(
            text,
            "; the {several} after it don't go on from this number, so it may be the one that is wrong"
        )
    }
}

/// Adds by how much a count is wrong.
#[tactic(auto, unfolding(crate::specs::Format::WrongNumbers::difference_words))]
fn add_difference(text: &mut String, found: u64, expected: u64) -> Result<(), AllocError>
    ensures { OnOk result (string_bytes text.new ≡ string_bytes text.old ++ difference_words found expected) }
{
    if found > expected {
        let missing = found - expected;
        write!(
            text,
            "{missing} missing, or the count is mistyped or wasn't changed when some were taken out"
        )
    } else {
        let more = expected - found;
        write!(
            text,
            "{more} too many, or the count is mistyped or wasn't changed when some were put in"
        )
    }
}

/// The end of what is counted, where there are so many.
fn plural(count: u64) -> &'static str
    ensures { result.now ≡ plural count }
{
    match count {
        1 => "",
        _ => "s",
    }
}

/// Adds what a count points to: that of some in the whole.
#[tactic(auto, unfolding(crate::specs::Format::WrongNumbers::first_count_words))]
fn add_first_count(
    text: &mut String,
    whole: &str,
    counted: &str,
    found: u64,
    expected: u64,
) -> Result<(), AllocError>
    ensures { OnOk result (string_bytes text.new ≡ string_bytes text.old ++ first_count_words whole.now counted.now found expected) }
{
    let ending = plural(expected);
    write!(
        text,
        "the {whole} has {expected} {counted}{ending} and says {found}: "
    )?;
    add_difference(text, found, expected)
}

/// Adds the same after other faults: a line that has one may be none of those that are counted.
#[tactic(auto, unfolding(crate::specs::Format::WrongNumbers::later_count_words))]
fn add_later_count(
    text: &mut String,
    whole: &str,
    counted: &str,
    found: u64,
    expected: u64,
) -> Result<(), AllocError>
    ensures { OnOk result (string_bytes text.new ≡ string_bytes text.old ++ later_count_words whole.now counted.now found expected) }
{
    let ending = plural(expected);
    write!(
        text,
        "by the lines before it, of which some have faults, the {whole} has {expected} {counted}{ending} and says {found}: mend those first, and look again"
    )
}

/// Adds what a transaction sequence points to that isn't its header's.
#[tactic(auto, unfolding(crate::specs::Format::WrongNumbers::first_header_words))]
fn add_first_header(text: &mut String, found: u64, expected: u64) -> Result<(), AllocError>
    ensures { OnOk result (string_bytes text.new ≡ string_bytes text.old ++ first_header_words found expected) }
{
    write!(
        text,
        "the header of this transaction has sequence {expected}, and the record {found}: it belongs to another one, or a header is missing before it or stands after it, or the number is mistyped, or bytes were lost in this line"
    )
}

/// Adds the same after other faults: the header may be one of the lines that couldn't be read.
#[tactic(auto, unfolding(crate::specs::Format::WrongNumbers::later_header_words))]
fn add_later_header(text: &mut String, found: u64, expected: u64) -> Result<(), AllocError>
    ensures { OnOk result (string_bytes text.new ≡ string_bytes text.old ++ later_header_words found expected) }
{
    write!(
        text,
        "by the lines before it this record is of transaction {expected}, and it says {found}: if a line before it is at fault, mend that first; else it belongs to another transaction, or a header is missing before it or stands after it, or the number is mistyped"
    )
}

/// Adds of which the transaction sequence of a message may come, where it is too high.
fn add_message(text: &mut String, kind: Kind, is_higher: bool) -> Result<(), AllocError>
    ensures { OnOk result (string_bytes text.new ≡ string_bytes text.old ++ message_words kind is_higher) }
{
    match (kind, is_higher) {
        (Kind::Msg, true) => text.push_str(
            "; an MSG has the transaction sequence of its ACK, and isn't counted itself",
        ),
        _ => Ok(()),
    }
}

/// Adds what a group ID in GRT points to that isn't GRH's.
#[tactic(auto, unfolding(crate::specs::Format::WrongNumbers::first_id_words))]
fn add_first_id(text: &mut String, found: u64, expected: u64) -> Result<(), AllocError>
    ensures { OnOk result (string_bytes text.new ≡ string_bytes text.old ++ first_id_words found expected) }
{
    write!(
        text,
        "the group's GRH has ID {expected}, and its GRT {found}: a GRT and a GRH are missing between, or one was put in the other's place"
    )
}

/// Adds the same after other faults: the GRH may be one of the lines that couldn't be read.
#[tactic(auto, unfolding(crate::specs::Format::WrongNumbers::later_id_words))]
fn add_later_id(text: &mut String, found: u64, expected: u64) -> Result<(), AllocError>
    ensures { OnOk result (string_bytes text.new ≡ string_bytes text.old ++ later_id_words found expected) }
{
    write!(
        text,
        "the last GRH that could be read has ID {expected}, and this GRT {found}: if a GRH before it is at fault, mend that first; else a GRT and a GRH are missing between, or one was put in the other's place"
    )
}

/// Adds which works stand twice, where some are too many.
fn add_twice(text: &mut String, are_more: bool) -> Result<(), AllocError>
    ensures { OnOk result (string_bytes text.new ≡ string_bytes text.old ++ twice_words are_more) }
{
    match are_more {
        true => text.push_str("; cwr advise --repeated 100000 FILE tells works that stand twice"),
        false => Ok(()),
    }
}

/// Adds that GRH and GRT themselves weren't counted, where so many are too many.
fn add_uncounted(text: &mut String, more: u64) -> Result<(), AllocError>
    ensures { OnOk result (string_bytes text.new ≡ string_bytes text.old ++ uncounted_words more) }
{
    match more {
        2 => text.push_str(", or GRH and GRT weren't counted"),
        _ => Ok(()),
    }
}

/// Adds that HDR and TRL themselves weren't counted, where so many are too many.
fn add_uncounted_ends(text: &mut String, more: u64) -> Result<(), AllocError>
    ensures { OnOk result (string_bytes text.new ≡ string_bytes text.old ++ uncounted_ends more) }
{
    match more {
        2 => text.push_str(", or HDR and TRL weren't counted"),
        _ => Ok(()),
    }
}

/// Adds what else than a cut the first transaction of a group with that number may come of.
fn add_first_number(text: &mut String, found: u64) -> Result<(), AllocError>
    ensures { OnOk result (string_bytes text.new ≡ string_bytes text.old ++ first_number_words found) }
{
    match found {
        1 => text.push_str(
            "; if you took it out on purpose, or the file counts from 1: cwr renumber --new FILE OUT",
        ),
        _ => text.push_str(
            "; if you took it out on purpose, or sequences go on from group to group: cwr renumber --new FILE OUT",
        ),
    }
}

/// Adds what a number that is too high may come of else, where faults stand before it.
fn add_later_purpose(text: &mut String, begins_group: bool) -> Result<(), AllocError>
    ensures { OnOk result (string_bytes text.new ≡ string_bytes text.old ++ later_purpose_words begins_group) }
{
    match begins_group {
        true => text.push_str(
            "; or sequences go on from group to group, or what is missing stands in a line with a fault before this one: mend those first, and look again",
        ),
        false => text.push_str(
            "; or what is missing stands in a line with a fault before this one: mend those first, and look again",
        ),
    }
}

/// Whether a record of the kind closes a group or the file: its numbers are counts.
fn is_closing(kind: Kind) -> bool
    ensures { result ≡ is_closing kind }
{
    matches!(kind, Kind::Grt | Kind::Trl)
}

/// Whether two lines are the same but for their sequences.
fn is_same_line(line: &[u8], before: &[u8]) -> bool
    ensures { result ≡ is_same_line line.now before.now }
{
    let from = AFTER_SEQUENCES.min(line.len()).min(before.len());
    line[from..] == before[from..] && line[..3.min(from)] == before[..3.min(from)]
}

impl WrongNumber<'_> {
    /// Whether the record heads its transaction: one that begins the copy in an acknowledgement is a further record of that.
    fn heads(&self) -> bool
        ensures { result ≡ heads (wrong_value self.now) }
    {
        is_header(self.kind) && !is_after_header(sequence_in(self.line, RECORD_SEQUENCE))
    }

    /// Whether the number is one that is too high where something was taken out before it.
    fn counts_on(&self) -> bool
        ensures { result ≡ counts_on self.now.kind (wrong_value self.now) }
    {
        match self.kind {
            Kind::Grh | Kind::Trl => true,
            Kind::Grt => self.field != 2,
            _ if self.heads() => self.field == 2,
            _ => self.field == 3,
        }
    }

    /// Adds how the numbers after a wrong one go on.
    #[tactic(auto, unfolding(crate::specs::Format::WrongNumbers::ahead_words))]
    fn add_ahead(&self, text: &mut String, what: Names, ahead: Ahead) -> Result<(), AllocError>
        ensures { OnOk result (string_bytes text.new ≡ string_bytes text.old ++ ahead_words (naming_of what) self.now.found self.now.expected self.now.number ahead) }
    {
        if ahead.count == 0 {
            return Ok(());
        }
        if !ahead.goes_on {
            return add_breaking(text, what, self.found, ahead);
        }
        add_shifted(text, what, ahead.count)?;
        add_amount(text, what, self.found, self.expected, self.number)
    }

    /// The two numbers that stand beside each other: the sequences of the line before and of this one. Where the line before isn't held,
    /// or has no such number, its own is one less than the one that belongs here.
    fn neighbours(&self) -> Sequences
        ensures { result ≡ neighbours_at (wrong_value self.now) }
    {
        let counted = self.expected.checked_sub(1);
        match self.kind {
            Kind::Grh => Sequences {
                before: if self.expected > 1 { counted } else { None },
                here: Some(self.found),
            },
            _ => {
                let start = start_of_sequence(self.field);
                let Sequences { before, here } = sequences_of(self.line, self.before, start);
                Sequences {
                    before: before.or(counted),
                    here,
                }
            }
        }
    }

    /// Adds how the numbers go on, where they were looked at, and where it isn't said that two changed places.
    fn add_going_on(&self, text: &mut String, what: Names) -> Result<(), AllocError>
        ensures { OnOk result (string_bytes text.new ≡ string_bytes text.old ++ going_on_words (naming_of what) self.now.found
            self.now.expected self.now.number self.now.ahead) }
    {
        match self.ahead {
            None => Ok(()),
            Some(ahead) => {
                if self.found > self.expected && stands_after(Some(ahead), self.expected) {
                    Ok(())
                } else {
                    self.add_ahead(text, what, ahead)
                }
            }
        }
    }

    /// Adds what is missing, or that the number is too low.
    fn add_reason(&self, text: &mut String, what: Names) -> Result<(), AllocError>
        ensures { OnOk result (string_bytes text.new ≡ string_bytes text.old ++ reason_words (naming_of what) self.now.is_later (neighbours_at (wrong_value self.now))
            self.now.found self.now.expected self.now.ahead) }
    {
        if self.found > self.expected {
            let neighbours = self.neighbours();
            add_missing(
                text,
                what,
                neighbours,
                self.found,
                self.expected,
                self.ahead,
            )
        } else {
            add_low(text, what, self.is_later, self.found, self.expected)
        }
    }

    /// Adds what a number points to that is one more with each of what it numbers.
    #[tactic(auto, unfolding(crate::specs::Format::WrongNumbers::in_order_words, crate::specs::Format::WrongNumbers::order_words))]
    fn add_in_order(&self, text: &mut String, what: Numbered) -> Result<(), AllocError>
        ensures { OnOk result (string_bytes text.new ≡ string_bytes text.old ++ in_order_words what (wrong_value self.now)) }
    {
        let names = what.names();
        self.add_reason(text, names)?;
        self.add_going_on(text, names)
    }

    /// Adds whether the line is the one before but for its sequences, where that is known.
    fn add_comparison(&self, text: &mut String) -> Result<(), AllocError>
        ensures { OnOk result (string_bytes text.new ≡ string_bytes text.old ++ comparison_words self.now.line.now (option_map (λ b. b.now) self.now.before)) }
    {
        match self.before {
            None => Ok(()),
            Some(before) => {
                if is_same_line(self.line, before) {
                    text.push_str("; but for the numbers both lines are the same")
                } else {
                    text.push_str("; the two lines aren't the same")
                }
            }
        }
    }

    /// Adds the same where this number is one less than the one that belongs here.
    fn add_repeated(&self, text: &mut String) -> Result<(), AllocError>
        ensures { OnOk result (string_bytes text.new ≡ string_bytes text.old ++ repeated_words (wrong_value self.now)) }
    {
        if self.expected.saturating_sub(self.found) == 1 {
            self.add_comparison(text)
        } else {
            Ok(())
        }
    }

    /// Adds what the sequence of a record points to.
    #[tactic(auto, unfolding(crate::specs::Format::WrongNumbers::record_words))]
    fn add_record(&self, text: &mut String) -> Result<(), AllocError>
        ensures { OnOk result (string_bytes text.new ≡ string_bytes text.old ++ record_words (wrong_value self.now)) }
    {
        if is_header(self.kind) && self.expected == 0 {
            return text.push_str(
                "the header of a transaction is its first record, which has sequence 0; if all are numbered so, and none is missing: cwr renumber --new FILE OUT",
            );
        }
        if is_header(self.kind) && self.found == 0 {
            return text.push_str(
                "this header begins the copy in an acknowledgement, whose records are numbered on from those of the ACK, and not from 0; if none is missing: cwr renumber --new FILE OUT",
            );
        }
        self.add_in_order(text, Numbered::Record)?;
        self.add_repeated(text)
    }

    /// Adds what a transaction sequence points to that isn't its header's.
    fn add_header(&self, text: &mut String) -> Result<(), AllocError>
        ensures { OnOk result (string_bytes text.new ≡ string_bytes text.old ++ header_words (wrong_value self.now)) }
    {
        let (found, expected) = (self.found, self.expected);
        if self.is_later {
            add_later_header(text, found, expected)?;
        } else {
            add_first_header(text, found, expected)?;
        }
        add_message(text, self.kind, found > expected)
    }

    /// Adds what the sequence of a transaction points to.
    fn add_transaction(&self, text: &mut String) -> Result<(), AllocError>
        ensures { OnOk result (string_bytes text.new ≡ string_bytes text.old ++ transaction_words (wrong_value self.now)) }
    {
        if self.heads() {
            self.add_in_order(text, Numbered::Transaction)
        } else {
            self.add_header(text)
        }
    }

    /// Adds what a count points to: that of some in the whole.
    fn add_count(&self, text: &mut String, whole: &str, counted: &str) -> Result<(), AllocError>
        ensures { OnOk result (string_bytes text.new ≡ string_bytes text.old ++ count_words (wrong_value self.now) whole.now counted.now) }
    {
        let (found, expected) = (self.found, self.expected);
        if self.is_later {
            add_later_count(text, whole, counted, found, expected)
        } else {
            add_first_count(text, whole, counted, found, expected)
        }
    }

    /// Adds what the count of the transactions of the whole points to.
    fn add_transactions(&self, text: &mut String, whole: &str) -> Result<(), AllocError>
        ensures { OnOk result (string_bytes text.new ≡ string_bytes text.old ++ transactions_words (wrong_value self.now) whole.now) }
    {
        self.add_count(text, whole, "transaction")?;
        add_twice(text, self.found < self.expected && !self.is_later)
    }

    /// Adds what the count of a group's records points to.
    fn add_group_records(&self, text: &mut String) -> Result<(), AllocError>
        ensures { OnOk result (string_bytes text.new ≡ string_bytes text.old ++ group_records_words (wrong_value self.now)) }
    {
        self.add_count(text, "group", "record")?;
        if self.is_later {
            Ok(())
        } else {
            add_uncounted(text, self.expected.saturating_sub(self.found))
        }
    }

    /// Adds what a group ID in GRT points to that isn't GRH's.
    fn add_id(&self, text: &mut String) -> Result<(), AllocError>
        ensures { OnOk result (string_bytes text.new ≡ string_bytes text.old ++ id_words (wrong_value self.now)) }
    {
        if self.is_later {
            add_later_id(text, self.found, self.expected)
        } else {
            add_first_id(text, self.found, self.expected)
        }
    }

    /// Adds what a number of a group's GRT points to.
    fn add_foot(&self, text: &mut String) -> Result<(), AllocError>
        ensures { OnOk result (string_bytes text.new ≡ string_bytes text.old ++ foot_words (wrong_value self.now)) }
    {
        match self.field {
            2 => self.add_id(text),
            3 => self.add_transactions(text, "group"),
            _ => self.add_group_records(text),
        }
    }

    /// Adds what the count of the file's records points to.
    fn add_file_records(&self, text: &mut String) -> Result<(), AllocError>
        ensures { OnOk result (string_bytes text.new ≡ string_bytes text.old ++ file_records_words (wrong_value self.now)) }
    {
        self.add_count(text, "file", "record")?;
        if self.is_later {
            Ok(())
        } else {
            add_uncounted_ends(text, self.expected.saturating_sub(self.found))
        }
    }

    /// Adds what a number of the trailer points to.
    fn add_trailer(&self, text: &mut String) -> Result<(), AllocError>
        ensures { OnOk result (string_bytes text.new ≡ string_bytes text.old ++ trailer_words (wrong_value self.now)) }
    {
        match self.field {
            2 => self.add_count(text, "file", "group"),
            3 => self.add_transactions(text, "file"),
            _ => self.add_file_records(text),
        }
    }

    /// Adds what a sequence points to.
    #[tactic(auto, unfolding(crate::specs::Format::WrongNumbers::sequence_words))]
    fn add_sequence(&self, text: &mut String) -> Result<(), AllocError>
        ensures { OnOk result (string_bytes text.new ≡ string_bytes text.old ++ sequence_words (wrong_value self.now)) }
    {
        if self.field == 2 {
            self.add_transaction(text)
        } else {
            self.add_record(text)
        }
    }

    /// Adds what the number points to.
    fn add_meaning(&self, text: &mut String) -> Result<(), AllocError>
        ensures { OnOk result (string_bytes text.new ≡ string_bytes text.old ++ meaning_words self.now.kind (wrong_value self.now)) }
    {
        match self.kind {
            Kind::Grh => self.add_in_order(text, Numbered::Group),
            Kind::Grt => self.add_foot(text),
            Kind::Trl => self.add_trailer(text),
            _ => self.add_sequence(text),
        }
    }

    /// Whether something may have been taken out before the number: it is too high, the one that belongs here doesn't stand after it, and it
    /// is no count in which lines that couldn't be read are missing.
    fn may_be_cut(&self) -> bool
        ensures { result ≡ may_be_cut (wrong_value self.now) }
    {
        self.found > self.expected
            && self.counts_on()
            && !stands_after(self.ahead, self.expected)
            && !(self.is_later && is_closing(self.kind))
    }

    /// Adds what is said of a cut on purpose: where faults stand before it, what it comes of isn't known yet.
    fn add_purpose(&self, text: &mut String) -> Result<(), AllocError>
        ensures { OnOk result (string_bytes text.new ≡ string_bytes text.old ++ purpose_words (wrong_value self.now)) }
    {
        if !self.may_be_cut() {
            Ok(())
        } else if self.is_later {
            add_later_purpose(text, self.begins_group())
        } else if self.begins_group() {
            add_first_number(text, self.found)
        } else {
            text.push_str("; if you took it out on purpose: cwr renumber --new FILE OUT")
        }
    }

    /// Whether it is the first transaction of a group.
    fn begins_group(&self) -> bool
        ensures { result ≡ begins_group (wrong_value self.now) }
    {
        self.heads() && self.field == 2 && self.expected == 0
    }

    /// Adds the line that says what the number points to.
    #[tactic(auto, unfolding(crate::specs::Format::WrongNumbers::points_words))]
    pub(crate) fn add(&self, text: &mut String) -> Result<(), AllocError>
        ensures { OnOk result (string_bytes text.new ≡ string_bytes text.old ++ points_words (wrong_value self.now)) }
    {
        add_label(text, "points to")?;
        self.add_meaning(text)?;
        self.add_purpose(text)?;
        text.push('\n')
    }
}
