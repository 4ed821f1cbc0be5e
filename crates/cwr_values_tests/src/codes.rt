//! Each code of each table by example.

ghost use Rattle.std.specs.Prelude.{◌≤◌, ◌<◌};

use crate::checks::check_equal;
use cwr_fields::{
    AgreementType, Cell, CellType, CompositeType, DistributionCategory, ExcerptType,
    InclusionExclusion, MessageLevel, Number, PostTermCollectionStatus, PriorRoyaltyStatus,
    PublisherType, RecordingFormat, RecordingTechnique, Role, SalesManufactureClause, SenderType,
    Table, TitleType, TransactionStatus, TransactionType, VersionType, WriterDesignation, fits,
    width_of,
};
use std::fmt::{Debug, Display};
use std::process::Abort;

/// Whether the cell is as wide as its type, and one of it.
fn is_one(ty: CellType, cell: &[u8]) -> bool {
    width_of(ty) == Some(cell.len()) && fits(ty, cell).is_ok()
}

/// Whether the cell is one of the table, is read as the member, and is what the member writes.
fn reads_back<C: Cell + PartialEq>(table: Table, member: C, cell: &[u8]) -> bool
    requires least { 0 < C.WIDTH }
    requires most { C.WIDTH ≤ 3 }
{
    let mut written = [0; 3];
    let width = C::WIDTH;
    member.write(&mut written[..width]);
    is_one(CellType::Code(table), cell)
        && is_one(CellType::OptCode(table), cell)
        && C::read(cell) == Some(member)
        && &written[..width] == cell
}

/// A cell is read as its member, which writes it back and prints its code.
fn reads_row<C: Cell + Display + Debug + PartialEq, R: Abort + AllocGlobal>(
    rt: &R,
    table: Table,
    member: C,
    text: &str,
)
    requires least { 0 < C.WIDTH }
    requires most { C.WIDTH ≤ 3 }
{
    assert!(rt; reads_back(table, member, text.as_bytes()), "{text}");
    let printed = format!(in rt.alloc(); "{member}").expect(rt, "no memory");
    check_equal(rt, printed.as_str(), text.trim_end());
}

/// Each cell is read as its member, which writes it back and prints its code. The other cell is none of the table.
fn reads_table<C: Cell + Display + Debug + PartialEq, R: Abort + AllocGlobal>(
    rt: &R,
    table: Table,
    rows: &[(C, &str)],
    other: &str,
)
    requires least { 0 < C.WIDTH }
    requires most { C.WIDTH ≤ 3 }
{
    for (member, text) in rows {
        reads_row(rt, table, *member, text);
    }
    let is_none = C::read(other.as_bytes()).is_none();
    assert!(rt; is_none && !is_one(CellType::OptCode(table), other.as_bytes()));
}

#[test]
fn order(rt: HostRuntime) {
    reads_table(
        &rt,
        Table::Role,
        &[(Role::Assignor, "AS"), (Role::Acquirer, "AC")],
        "SA",
    );
    reads_table(
        &rt,
        Table::TransactionType,
        &[
            (TransactionType::Agreement, "AGR"),
            (TransactionType::NewWork, "NWR"),
            (TransactionType::RevisedWork, "REV"),
            (TransactionType::Acknowledgement, "ACK"),
        ],
        "ISW",
    );
}

#[test]
fn agreements(rt: HostRuntime) {
    reads_table(
        &rt,
        Table::AgreementType,
        &[
            (AgreementType::OriginalSpecific, "OS"),
            (AgreementType::OriginalGeneral, "OG"),
            (AgreementType::SubpublishingSpecific, "PS"),
            (AgreementType::SubpublishingGeneral, "PG"),
        ],
        "OO",
    );
    reads_table(
        &rt,
        Table::Prior,
        &[
            (PriorRoyaltyStatus::None, "N"),
            (PriorRoyaltyStatus::FromDate, "D"),
            (PriorRoyaltyStatus::All, "A"),
        ],
        "O",
    );
    reads_table(
        &rt,
        Table::PostTerm,
        &[
            (PostTermCollectionStatus::None, "N"),
            (PostTermCollectionStatus::Open, "O"),
            (PostTermCollectionStatus::UntilDate, "D"),
        ],
        "A",
    );
    reads_table(
        &rt,
        Table::Sales,
        &[
            (SalesManufactureClause::Sales, "S"),
            (SalesManufactureClause::Manufacture, "M"),
        ],
        "N",
    );
    reads_table(
        &rt,
        Table::Sign,
        &[
            (InclusionExclusion::Included, "I"),
            (InclusionExclusion::Excluded, "E"),
        ],
        "X",
    );
}

#[test]
fn works(rt: HostRuntime) {
    reads_table(
        &rt,
        Table::Category,
        &[
            (DistributionCategory::Jazz, "JAZ"),
            (DistributionCategory::Popular, "POP"),
            (DistributionCategory::Serious, "SER"),
            (DistributionCategory::Unclassified, "UNC"),
        ],
        "JAX",
    );
    reads_table(
        &rt,
        Table::Version,
        &[
            (VersionType::Original, "ORI"),
            (VersionType::Modified, "MOD"),
        ],
        "OR ",
    );
    reads_table(
        &rt,
        Table::Composite,
        &[
            (CompositeType::CompositeOfSamples, "COS"),
            (CompositeType::Medley, "MED"),
            (CompositeType::Potpourri, "POT"),
            (CompositeType::Unspecified, "UCO"),
        ],
        "cos",
    );
    reads_table(
        &rt,
        Table::Excerpt,
        &[
            (ExcerptType::Movement, "MOV"),
            (ExcerptType::Unspecified, "UEX"),
        ],
        "MOD",
    );
}

#[test]
fn titles_and_recordings(rt: HostRuntime) {
    reads_table(
        &rt,
        Table::Title,
        &[
            (TitleType::Alternative, "AT"),
            (TitleType::FirstLine, "TE"),
            (TitleType::Formal, "FT"),
            (TitleType::Incorrect, "IT"),
            (TitleType::Original, "OT"),
            (TitleType::OriginalTranslated, "TT"),
            (TitleType::Part, "PT"),
            (TitleType::Restricted, "RT"),
            (TitleType::ExtraSearch, "ET"),
            (TitleType::OriginalNational, "OL"),
            (TitleType::AlternativeNational, "AL"),
        ],
        "XX",
    );
    reads_table(
        &rt,
        Table::Recording,
        &[
            (RecordingFormat::Audio, "A"),
            (RecordingFormat::Visual, "V"),
        ],
        "D",
    );
    reads_table(
        &rt,
        Table::Technique,
        &[
            (RecordingTechnique::Analogue, "A"),
            (RecordingTechnique::Digital, "D"),
            (RecordingTechnique::Unknown, "U"),
        ],
        "V",
    );
}

#[test]
fn parties(rt: HostRuntime) {
    reads_table(
        &rt,
        Table::Publisher,
        &[
            (PublisherType::OriginalPublisher, "E "),
            (PublisherType::Acquirer, "AQ"),
            (PublisherType::Administrator, "AM"),
            (PublisherType::IncomeParticipant, "PA"),
            (PublisherType::SubstitutedPublisher, "ES"),
            (PublisherType::SubPublisher, "SE"),
        ],
        " E",
    );
    reads_table(
        &rt,
        Table::Designation,
        &[
            (WriterDesignation::Author, "A "),
            (WriterDesignation::Adaptor, "AD"),
            (WriterDesignation::Arranger, "AR"),
            (WriterDesignation::Composer, "C "),
            (WriterDesignation::ComposerAuthor, "CA"),
            (WriterDesignation::IncomeParticipant, "PA"),
            (WriterDesignation::SubAuthor, "SA"),
            (WriterDesignation::SubArranger, "SR"),
            (WriterDesignation::Translator, "TR"),
        ],
        "AX",
    );
}

#[test]
fn messages(rt: HostRuntime) {
    reads_table(
        &rt,
        Table::Status,
        &[
            (TransactionStatus::Conflict, "CO"),
            (TransactionStatus::Duplicate, "DU"),
            (TransactionStatus::TransactionAccepted, "RA"),
            (TransactionStatus::RegistrationAccepted, "AS"),
            (TransactionStatus::AcceptedWithChanges, "AC"),
            (TransactionStatus::ReadyForPayment, "SR"),
            (TransactionStatus::ChangedReadyForPayment, "CR"),
            (TransactionStatus::Rejected, "RJ"),
            (TransactionStatus::NoParticipation, "NP"),
            (TransactionStatus::ClaimRejected, "RC"),
        ],
        "OK",
    );
    reads_table(
        &rt,
        Table::Message,
        &[
            (MessageLevel::EntireFile, "E"),
            (MessageLevel::Group, "G"),
            (MessageLevel::Transaction, "T"),
            (MessageLevel::Record, "R"),
            (MessageLevel::Field, "F"),
        ],
        "D",
    );
}

#[test]
fn sender_types(rt: HostRuntime) {
    reads_table(
        &rt,
        Table::Sender,
        &[
            (SenderType::Publisher, "PB"),
            (SenderType::Society, "SO"),
            (SenderType::AdministrativeAgency, "AA"),
            (SenderType::Writer, "WR"),
        ],
        "P1",
    );
    for (number, text) in [(0, "00"), (42, "42")] {
        check_digits(&rt, number, text);
    }
    check_equal(&rt, Number::<2>::new(100), None);
}

/// A sender type of two digits is read.
fn check_digits<R: Abort + AllocGlobal>(rt: &R, number: u64, text: &str) {
    let digits = Number::<2>::new(number).expect(rt, "two digits");
    let rows = [(SenderType::Digits(digits), text)];
    reads_table(rt, Table::Sender, &rows, "4");
}
