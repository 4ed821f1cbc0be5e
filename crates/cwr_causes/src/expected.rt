//! What may stand in a cell, in words.

ghost use Rattle.std.specs.Prelude.{◌≡◌, ◌++◌, flat_map, map, string_bytes, OnOk};
ghost use Rattle.std.specs.Str.{IsUtf8};
ghost use Rattle.cwr_fields.specs.Format.Codes.{word_text};
ghost use Rattle.cwr_fields.specs.Format.Kinds.{letters};
ghost use Rattle.cwr_causes.specs.Format.Expected.{counted_words, listed_words, spaced, spaced_code, table_words, type_words};

use cwr_fields::{
    AgreementType, CellType, Coded, CompositeType, DistributionCategory, ExcerptType, Field,
    InclusionExclusion, Kind, MessageLevel, PostTermCollectionStatus, PriorRoyaltyStatus,
    PublisherType, RecordingFormat, RecordingTechnique, Role, SalesManufactureClause, SenderType,
    Table, TitleType, TransactionStatus, TransactionType, VersionType, Word, WriterDesignation,
};
use std::alloc::AllocError;
use std::fmt::Write;

/// Adds the codes of members.
fn add_listed<C: Copy>(text: &mut String, list: &[(C, &'static str)]) -> Result<(), AllocError>
    ensures { OnOk result (string_bytes text.new ≡ string_bytes text.old ++ flat_map spaced_code list.now) }
{
    for (_, code) in list {
        text.push(' ')?;
        text.push_str(code)?;
    }
    Ok(())
}

/// Adds the codes of a table of members.
fn add_codes<C: Coded>(text: &mut String) -> Result<(), AllocError>
    ensures { OnOk result (string_bytes text.new ≡ string_bytes text.old
        ++ flat_map spaced (map C.code C.members)) }
{
    add_listed(text, C::list())
}

/// Adds the codes of senders.
fn add_senders(text: &mut String) -> Result<(), AllocError>
    ensures { OnOk result (string_bytes text.new ≡ string_bytes text.old ++ listed_words Table.Sender) }
{
    let [first, second, third, fourth] = [
        SenderType::Publisher,
        SenderType::Society,
        SenderType::AdministrativeAgency,
        SenderType::Writer,
    ];
    write!(text, " {first} {second} {third} {fourth}, or two digits")
}

/// Adds the codes of a table, each after a space.
fn add_table_codes(text: &mut String, table: Table) -> Result<(), AllocError>
    ensures { OnOk result (string_bytes text.new ≡ string_bytes text.old ++ listed_words table) }
{
    match table {
        Table::Sender => add_senders(text),
        Table::TransactionType => add_codes::<TransactionType>(text),
        Table::AgreementType => add_codes::<AgreementType>(text),
        Table::Role => add_codes::<Role>(text),
        Table::Prior => add_codes::<PriorRoyaltyStatus>(text),
        Table::PostTerm => add_codes::<PostTermCollectionStatus>(text),
        Table::Sales => add_codes::<SalesManufactureClause>(text),
        Table::Sign => add_codes::<InclusionExclusion>(text),
        Table::Category => add_codes::<DistributionCategory>(text),
        Table::Version => add_codes::<VersionType>(text),
        Table::Composite => add_codes::<CompositeType>(text),
        Table::Excerpt => add_codes::<ExcerptType>(text),
        Table::Publisher => add_codes::<PublisherType>(text),
        Table::Designation => add_codes::<WriterDesignation>(text),
        Table::Title => add_codes::<TitleType>(text),
        Table::Status => add_codes::<TransactionStatus>(text),
        Table::Message => add_codes::<MessageLevel>(text),
        Table::Recording => add_codes::<RecordingFormat>(text),
        Table::Technique => add_codes::<RecordingTechnique>(text),
    }
}

/// Adds that a code of a table may stand there.
#[tactic(auto, unfolding(crate::specs::Format::Expected::table_words))]
fn add_table(text: &mut String, table: Table) -> Result<(), AllocError>
    ensures { OnOk result (string_bytes text.new ≡ string_bytes text.old ++ table_words table) }
{
    text.push_str("a code, one of:")?;
    add_table_codes(text, table)
}

/// Adds what a cell of the field may hold.
#[tactic(auto, unfolding(crate::specs::Format::Expected::type_words))]
pub(crate) fn add_cell_type(text: &mut String, place: &Field) -> Result<(), AllocError>
    ensures { OnOk result (string_bytes text.new ≡ string_bytes text.old ++ type_words place.now.width place.now.ty) }
{
    let width = place.width;
    match place.ty {
        CellType::Text => text.push_str("text without control bytes"),
        CellType::Required => text.push_str("text without control bytes, and not blank"),
        CellType::Number => write!(text, "{width} digits"),
        CellType::OptNumber => write!(text, "{width} digits, or spaces"),
        CellType::Date => text.push_str("a date, YYYYMMDD"),
        CellType::OptDate => text.push_str("a date, YYYYMMDD, or zeros or spaces for none"),
        CellType::Time => text.push_str("a time, HHMMSS, from 000000 to 235959"),
        CellType::OptTime => text.push_str("a time, HHMMSS, from 000000 to 235959, or spaces"),
        CellType::OptDuration => text.push_str(
            "a duration, HHMMSS, from 000000 to 995959, or spaces",
        ),
        CellType::Share => text.push_str(
            "a share in hundredths of a percent, five digits from 00000 to 10000 (05000 is half), or spaces",
        ),
        CellType::Flag => text.push_str("Y, N, U or a space"),
        CellType::Code(table) => add_table(text, table),
        CellType::OptCode(table) => {
            add_table(text, table)?;
            text.push_str(", or spaces")
        }
        CellType::Constant(word) => {
            let letters = word_letters(word);
            write!(text, "{letters}, and nothing else")
        }
    }
}

/// The letters of a word of the format.
fn str_of(word: &'static [u8]) -> &'static str
    ensures { IsUtf8 word.now → result.now ≡ word.now }
{
    match std::str::from_utf8(word) {
        Ok(letters) => letters,
        Err(_) => "",
    }
}

/// The letters of the word of a constant cell.
fn word_letters(word: Word) -> &'static str
    ensures { result.now ≡ word_text word }
{
    str_of(word.text())
}

/// What is counted in field `j` of a kind, from 1, where that is a number of the file's own.
#[tactic(auto, unfolding(crate::specs::Format::Expected::counted_words))]
pub(crate) fn number_rule(kind: Kind, j: u8) -> &'static str
    ensures { result.now ≡ counted_words kind j }
{
    match (kind, j) {
        (Kind::Grh, _) => "the group's number in the file, from 1",
        (Kind::Grt, 2) => "the number of the group that it ends",
        (Kind::Grt, 3) => "the transactions of the group",
        (Kind::Grt, _) => "the records of the group, GRH and GRT counted",
        (Kind::Trl, 2) => "the groups of the file",
        (Kind::Trl, 3) => "the transactions of the file",
        (Kind::Trl, _) => "all records of the file, HDR and TRL counted",
        (_, 2) => "the transaction's number in its group, from 0",
        _ => "the record's number in its transaction, from 0",
    }
}

/// The letters of a kind.
pub(crate) fn letters_of(kind: Kind) -> &'static str
    ensures { result.now ≡ letters kind }
{
    str_of(cwr_fields::letters(kind))
}
