//! What a misplaced line points to, in words.

ghost use Rattle.std.specs.Prelude.{◌≡◌, ◌++◌, option_map, string_bytes, OnOk};
ghost use Rattle.cwr_causes.specs.Format.MisplacedTexts.{alternatives, first_head_line, front_gap, gap_words, goes_on_line, goes_on_words, header_gap, header_number_line, here_after, here_start};
ghost use Rattle.cwr_causes.specs.Format.MisplacedTexts.{here_words, later_head_line, missing_line, missing_words, mistyped_line, mistyped_words, moved_line, numbers_words, one_alternative, place_start};
ghost use Rattle.cwr_causes.specs.Format.MisplacedTexts.{are_roles_asked, or_separator, record_gap, records_gap, role_line, role_words, second_file_line};
ghost use Rattle.cwr_causes.specs.Steps.Coming.{letting_at, preceding_at};
ghost use Rattle.cwr_causes.specs.Steps.Misplaced.{misplaced_text};

use crate::coming_words::add_symbol;
use crate::expected::letters_of;
use crate::misplacements::{Gap, Misplacement};
use crate::next_symbols::{letting_at, preceding_at};
use crate::sequences::RecordNumbers;
use crate::texts::add_label;
use cwr_fields::{Kind, TransactionType};
use cwr_shape::{Stage, Symbol};
use std::alloc::{AllocError, Global};
use std::fmt::Write;

/// Adds what stands between two symbols of which one is meant, where one was added before.
fn add_or(text: &mut String, follows: bool) -> Result<(), AllocError>
    ensures { OnOk result (string_bytes text.new ≡ string_bytes text.old ++ or_separator follows) }
{
    if follows {
        text.push_str(" or ")
    } else {
        Ok(())
    }
}

/// Adds one of them.
fn add_alternative(text: &mut String, symbol: Symbol, follows: bool) -> Result<(), AllocError>
    ensures { OnOk result (string_bytes text.new ≡ string_bytes text.old
        ++ one_alternative follows symbol) }
{
    add_or(text, follows)?;
    add_symbol(text, symbol)
}

/// Adds symbols of which one is meant.
fn add_alternatives(text: &mut String, symbols: &[Symbol]) -> Result<(), AllocError>
    ensures { OnOk result (string_bytes text.new ≡ string_bytes text.old ++ alternatives symbols.now) }
{
    let mut follows = false;
    for symbol in symbols {
        add_alternative(text, *symbol, follows)?;
        follows = true;
    }
    Ok(())
}

/// Adds that the header of a transaction is missing.
#[tactic(auto, unfolding(crate::specs::Format::MisplacedTexts::header_gap))]
fn add_header_gap(text: &mut String, transaction: u64) -> Result<(), AllocError>
    ensures { OnOk result (string_bytes text.new ≡ string_bytes text.old ++ header_gap transaction) }
{
    write!(
        text,
        "the header of transaction {transaction} is missing before this line, or stands after it"
    )
}

/// Adds that it and records after it are missing.
#[tactic(auto, unfolding(crate::specs::Format::MisplacedTexts::front_gap))]
fn add_front_gap(text: &mut String, transaction: u64, last: u64) -> Result<(), AllocError>
    ensures { OnOk result (string_bytes text.new ≡ string_bytes text.old ++ front_gap transaction last) }
{
    write!(
        text,
        "the header of transaction {transaction} and its records up to sequence {last} are missing before this line, or stand after it"
    )
}

/// Adds that a record in mid-transaction is missing.
#[tactic(auto, unfolding(crate::specs::Format::MisplacedTexts::record_gap))]
fn add_record_gap(text: &mut String, sequence: u64) -> Result<(), AllocError>
    ensures { OnOk result (string_bytes text.new ≡ string_bytes text.old ++ record_gap sequence) }
{
    write!(
        text,
        "the record with sequence {sequence} is missing before this line, or stands after it"
    )
}

/// Adds that several are missing.
#[tactic(auto, unfolding(crate::specs::Format::MisplacedTexts::records_gap))]
fn add_several_gap(text: &mut String, first: u64, last: u64) -> Result<(), AllocError>
    ensures { OnOk result (string_bytes text.new ≡ string_bytes text.old ++ records_gap first last) }
{
    write!(
        text,
        "the records with sequence {first} to {last} are missing before this line, or stand after it"
    )
}

/// Adds that records in mid-transaction are missing.
fn add_records_gap(text: &mut String, first: u64, last: u64) -> Result<(), AllocError>
    ensures { OnOk result (string_bytes text.new ≡ string_bytes text.old ++ gap_words (Gap.Records first last)) }
{
    if first == last {
        add_record_gap(text, first)
    } else {
        add_several_gap(text, first, last)
    }
}

/// Adds what is missing before a line.
fn add_gap(text: &mut String, gap: Gap) -> Result<(), AllocError>
    ensures { OnOk result (string_bytes text.new ≡ string_bytes text.old ++ gap_words gap) }
{
    match gap {
        Gap::FileHead => {
            text.push_str(
                "HDR, with which a file begins, is missing before this line, or stands after it where lines were sorted or moved",
            )
        }
        Gap::Groups => text.push_str(
            "the groups of the file are missing before this line, or stand after it",
        ),
        Gap::GroupHead => text.push_str(
            "the GRH of this group is missing before this line, or stands after it",
        ),
        Gap::GroupFront => text.push_str(
            "the GRH and the first records of this group are missing before this line, or the line before it stands too early",
        ),
        Gap::Transactions => text.push_str(
            "the transactions of this group are missing before this line, or stand after it",
        ),
        Gap::Header(transaction) => add_header_gap(text, transaction),
        Gap::Front { transaction, last } => add_front_gap(text, transaction, last),
        Gap::Records { first, last } => add_records_gap(text, first, last),
        Gap::End => text.push_str(
            "the last records of the transaction before it are missing before this line, or stand elsewhere",
        ),
        Gap::GroupFoot => {
            text.push_str(
                "the GRT of the group before it is missing before this line, or stands after it",
            )
        }
    }
}

/// Adds that a line of the kind with those letters may stand here.
#[tactic(auto, unfolding(crate::specs::Format::MisplacedTexts::here_start))]
fn add_here_start(text: &mut String, letters: &str) -> Result<(), AllocError>
    ensures { OnOk result (string_bytes text.new ≡ string_bytes text.old ++ here_start letters.now) }
{
    write!(text, ": {letters} may stand here after ")
}

/// Adds the same, after one of the symbols.
#[tactic(auto, unfolding(crate::specs::Format::MisplacedTexts::here_after))]
fn add_here_after(text: &mut String, letters: &str, symbols: &[Symbol]) -> Result<(), AllocError>
    ensures { OnOk result (string_bytes text.new ≡ string_bytes text.old ++ here_after letters.now symbols.now) }
{
    add_here_start(text, letters)?;
    add_alternatives(text, symbols)
}

/// Adds the same, if there are some.
#[tactic(auto, unfolding(crate::specs::Format::MisplacedTexts::here_words))]
fn add_here(text: &mut String, letters: &str, symbols: &[Symbol]) -> Result<(), AllocError>
    ensures { OnOk result (string_bytes text.new ≡ string_bytes text.old ++ here_words letters.now symbols.now) }
{
    match symbols {
        [] => Ok(()),
        _ => add_here_after(text, letters, symbols),
    }
}

/// Adds what is missing, and after which records a line of the kind with those letters may stand here.
fn add_missing(
    text: &mut String,
    gap: Gap,
    letters: &str,
    letting: &[Symbol],
) -> Result<(), AllocError>
    ensures { OnOk result (string_bytes text.new ≡ string_bytes text.old ++ missing_words gap letters.now letting.now) }
{
    add_gap(text, gap)?;
    text.push_str("; don't delete this one")?;
    add_here(text, letters, letting)
}

/// Adds the line that says so.
#[tactic(auto, unfolding(crate::specs::Format::MisplacedTexts::missing_line))]
fn add_missing_line(
    text: &mut String,
    gap: Gap,
    letters: &str,
    letting: &[Symbol],
) -> Result<(), AllocError>
    ensures { OnOk result (string_bytes text.new ≡ string_bytes text.old ++ missing_line gap letters.now letting.now) }
{
    add_label(text, "points to")?;
    add_missing(text, gap, letters, letting)?;
    text.push('\n')
}

/// Adds that a line of the kind with those letters may stand after others.
#[tactic(auto, unfolding(crate::specs::Format::MisplacedTexts::place_start))]
fn add_place_start(text: &mut String, letters: &str) -> Result<(), AllocError>
    ensures { OnOk result (string_bytes text.new ≡ string_bytes text.old ++ place_start letters.now) }
{
    write!(text, "{letters} may stand after ")
}

/// Adds that nothing is missing, and after which records a line of the kind with those letters may stand.
fn add_goes_on(text: &mut String, letters: &str, preceding: &[Symbol]) -> Result<(), AllocError>
    ensures { OnOk result (string_bytes text.new ≡ string_bytes text.old ++ goes_on_words letters.now preceding.now) }
{
    text.push_str(
        "the numbers of this line go on from those of the line before, so nothing is missing between them: it stands in a wrong place, or its kind or that of the line before is mistyped; ",
    )?;
    add_place_start(text, letters)?;
    add_alternatives(text, preceding)
}

/// Adds the line that says so.
#[tactic(auto, unfolding(crate::specs::Format::MisplacedTexts::goes_on_line))]
fn add_goes_on_line(
    text: &mut String,
    letters: &str,
    preceding: &[Symbol],
) -> Result<(), AllocError>
    ensures { OnOk result (string_bytes text.new ≡ string_bytes text.old ++ goes_on_line letters.now preceding.now) }
{
    add_label(text, "points to")?;
    add_goes_on(text, letters, preceding)?;
    text.push('\n')
}

/// Adds the numbers of a record.
#[tactic(auto, unfolding(crate::specs::Format::MisplacedTexts::numbers_words))]
fn add_numbers(text: &mut String, numbers: RecordNumbers) -> Result<(), AllocError>
    ensures { OnOk result (string_bytes text.new ≡ string_bytes text.old ++ numbers_words numbers) }
{
    let RecordNumbers { transaction, own } = numbers;
    write!(text, "record {own} of transaction {transaction}")
}

/// Adds the line that says that two records don't stand in their order.
#[tactic(auto, unfolding(crate::specs::Format::MisplacedTexts::moved_line))]
fn add_moved_line(
    text: &mut String,
    before: RecordNumbers,
    here: RecordNumbers,
) -> Result<(), AllocError>
    ensures { OnOk result (string_bytes text.new ≡ string_bytes text.old ++ moved_line before here) }
{
    add_label(text, "points to")?;
    text.push_str("this line has the numbers of ")?;
    add_numbers(text, here)?;
    text.push_str(", and the line before it those of ")?;
    add_numbers(text, before)?;
    text.push_str(": one of the two was moved or stands twice, or two files were put together\n")
}

/// Adds the line on an HDR after other faults, after so many bytes.
#[tactic(auto, unfolding(crate::specs::Format::MisplacedTexts::later_head_line))]
fn add_later_head(text: &mut String, offset: u64) -> Result<(), AllocError>
    ensures { OnOk result (string_bytes text.new ≡ string_bytes text.old ++ later_head_line offset) }
{
    add_label(text, "points to")?;
    writeln!(
        text,
        "HDR stands in the first line alone: if what stands before this one is no transmission, remove that; if a second file begins here, cut them apart after byte {offset}, mend each, and then put them together: cwr join -o OUT --new A B; if lines were sorted or moved, take the file as it was before that"
    )
}

/// Adds the line that says that a second file begins, after so many bytes.
#[tactic(auto, unfolding(crate::specs::Format::MisplacedTexts::first_head_line))]
fn add_first_head(text: &mut String, offset: u64) -> Result<(), AllocError>
    ensures { OnOk result (string_bytes text.new ≡ string_bytes text.old ++ first_head_line offset) }
{
    add_label(text, "points to")?;
    writeln!(
        text,
        "a second file begins with this line, and the end of the first one is missing: cut them apart after byte {offset}, mend each, and then put them together: cwr join -o OUT --new A B"
    )
}

/// Where a line stands.
#[derive(Clone, Copy, Debug)]
pub(crate) struct LinePlace {
    /// How many bytes of the file stand before it.
    pub offset: u64,
    /// Whether there are faults in the lines before it.
    pub is_later: bool,
}

/// Adds the line on an HDR in that place.
fn add_second_file(text: &mut String, place: LinePlace) -> Result<(), AllocError>
    ensures { OnOk result (string_bytes text.new ≡ string_bytes text.old ++ second_file_line place) }
{
    if place.is_later {
        add_later_head(text, place.offset)
    } else {
        add_first_head(text, place.offset)
    }
}

/// Adds the line that says that a line has the number of a header, and is none.
#[tactic(auto, unfolding(crate::specs::Format::MisplacedTexts::header_number_line))]
fn add_header_number(text: &mut String) -> Result<(), AllocError>
    ensures { OnOk result (string_bytes text.new ≡ string_bytes text.old ++ header_number_line) }
{
    add_label(text, "points to")?;
    text.push_str(
        "record sequence 0 is that of a header, and this line is none: its kind or its number is mistyped; don't delete it\n",
    )
}

/// Adds the line that says that the type of a record is mistyped.
#[tactic(auto, unfolding(crate::specs::Format::MisplacedTexts::mistyped_line))]
fn add_mistyped_line(text: &mut String) -> Result<(), AllocError>
    ensures { OnOk result (string_bytes text.new ≡ string_bytes text.old ++ mistyped_line) }
{
    add_label(text, "points to")?;
    text.push_str(
        "the numbers of this line are those that belong here: its record type is mistyped; don't delete it\n",
    )
}

/// Whether in an agreement the last records are missing, or the numbers go on.
pub(crate) fn are_roles_asked(stage: Option<Stage>, shown: Misplacement) -> bool
    ensures { result ≡ are_roles_asked stage shown }
{
    match (stage, shown) {
        (
            Some(Stage::Within(TransactionType::Agreement, _)),
            Misplacement::Missing(Gap::End) | Misplacement::GoesOn,
        ) => true,
        _ => false,
    }
}

/// Adds which roles a block of IPA has.
#[tactic(auto, unfolding(crate::specs::Format::MisplacedTexts::role_line))]
fn add_role_line(text: &mut String) -> Result<(), AllocError>
    ensures { OnOk result (string_bytes text.new ≡ string_bytes text.old ++ role_line) }
{
    add_label(text, "note")?;
    text.push_str(
        "each block of IPA has at least one of role AS and one of role AC: if no IPA is missing, the role of one is mistyped\n",
    )
}

/// Adds that, where it is asked.
pub(crate) fn add_roles(text: &mut String, asked: bool) -> Result<(), AllocError>
    ensures { OnOk result (string_bytes text.new ≡ string_bytes text.old ++ role_words asked) }
{
    if asked { add_role_line(text) } else { Ok(()) }
}

/// Adds what a line points to that names no record, where its numbers belong there or not.
pub(crate) fn add_mistyped(text: &mut String, belongs: bool) -> Result<(), AllocError>
    ensures { OnOk result (string_bytes text.new ≡ string_bytes text.old ++ mistyped_words belongs) }
{
    if belongs {
        add_mistyped_line(text)
    } else {
        Ok(())
    }
}

/// Adds what a misplaced line of the kind in that place shows, where the records before have come to that stage.
#[tactic(auto, unfolding(crate::specs::Steps::Misplaced::misplaced_text))]
pub(crate) fn add_misplacement(
    alloc: Global,
    text: &mut String,
    stage: Option<Stage>,
    kind: Kind,
    place: LinePlace,
    shown: Misplacement,
) -> Result<(), AllocError>
    ensures { OnOk result (string_bytes text.new ≡ string_bytes text.old
        ++ misplaced_text stage kind place shown) }
{
    let letters = letters_of(kind);
    match shown {
        Misplacement::Missing(gap) => {
            let letting = letting_at(alloc, stage, kind)?;
            add_missing_line(text, gap, letters, letting.as_slice())
        }
        Misplacement::GoesOn => {
            let preceding = preceding_at(alloc, stage, kind)?;
            add_goes_on_line(text, letters, preceding.as_slice())
        }
        Misplacement::SecondFile => add_second_file(text, place),
        Misplacement::Moved { before, here } => add_moved_line(text, before, here),
        Misplacement::HeaderNumber => add_header_number(text),
        Misplacement::Unknown => Ok(()),
    }
}
