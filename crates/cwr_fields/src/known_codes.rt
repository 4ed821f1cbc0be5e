//! Whether a cell is a code of its table.

ghost use Rattle.std.specs.Prelude.{◌≡◌, ◌↔◌, IsTrue, length};
ghost use Rattle.cwr_fields.specs.Format.Cells.{SpellsCode};
ghost use Rattle.cwr_fields.specs.Format.Codes.{code_width};

use crate::agreement_codes::{
    AgreementType, InclusionExclusion, PostTermCollectionStatus, PriorRoyaltyStatus,
    SalesManufactureClause,
};
use crate::codes::{Role, TransactionType};
use crate::message_codes::{MessageLevel, TransactionStatus};
use crate::party_codes::{PublisherType, WriterDesignation};
use crate::sender_types::SenderType;
use crate::tables::Table;
use crate::typed_cells::is_cell;
use crate::work_codes::{
    CompositeType, DistributionCategory, ExcerptType, RecordingFormat, RecordingTechnique,
    TitleType, VersionType,
};

/// Whether the cell is a code of the table, filled up with spaces. A sender type may also be two digits.
pub(crate) fn is_code(table: Table, cell: &[u8]) -> bool
    requires { length cell.now ≡ code_width table }
    ensures { IsTrue result ↔ SpellsCode table cell.now }
{
    match table {
        Table::Sender => is_cell::<SenderType>(cell),
        Table::TransactionType => is_cell::<TransactionType>(cell),
        Table::AgreementType => is_cell::<AgreementType>(cell),
        Table::Role => is_cell::<Role>(cell),
        Table::Prior => is_cell::<PriorRoyaltyStatus>(cell),
        Table::PostTerm => is_cell::<PostTermCollectionStatus>(cell),
        Table::Sales => is_cell::<SalesManufactureClause>(cell),
        Table::Sign => is_cell::<InclusionExclusion>(cell),
        Table::Category => is_cell::<DistributionCategory>(cell),
        Table::Version => is_cell::<VersionType>(cell),
        Table::Composite => is_cell::<CompositeType>(cell),
        Table::Excerpt => is_cell::<ExcerptType>(cell),
        Table::Publisher => is_cell::<PublisherType>(cell),
        Table::Designation => is_cell::<WriterDesignation>(cell),
        Table::Title => is_cell::<TitleType>(cell),
        Table::Status => is_cell::<TransactionStatus>(cell),
        Table::Message => is_cell::<MessageLevel>(cell),
        Table::Recording => is_cell::<RecordingFormat>(cell),
        Table::Technique => is_cell::<RecordingTechnique>(cell),
    }
}
