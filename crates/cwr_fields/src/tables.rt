//! The names of the code tables.

/// A table of codes of this profile. Its codes are listed in `docs/FORMAT.md`. Each table has an enum of its own, of
/// its name where no other is given, whose members represent the codes.
#[derive(Clone, Copy, Debug, PartialEq, Eq)]
pub enum Table {
    /// HDR's sender type, which may also be two digits: `SenderType`.
    Sender,
    /// GRH's transaction type.
    TransactionType,
    /// The type of an agreement.
    AgreementType,
    /// IPA's role.
    Role,
    /// AGR's prior royalty status: `PriorRoyaltyStatus`.
    Prior,
    /// AGR's post-term collection status: `PostTermCollectionStatus`.
    PostTerm,
    /// AGR's sales manufacture clause: `SalesManufactureClause`.
    Sales,
    /// Whether a territory is included or excluded: `InclusionExclusion`.
    Sign,
    /// A work's distribution category: `DistributionCategory`.
    Category,
    /// A work's version type: `VersionType`.
    Version,
    /// A work's composite type: `CompositeType`.
    Composite,
    /// A work's excerpt type: `ExcerptType`.
    Excerpt,
    /// The type of a publisher: `PublisherType`.
    Publisher,
    /// A writer's designation: `WriterDesignation`.
    Designation,
    /// The type of an alternative title: `TitleType`.
    Title,
    /// ACK's transaction status: `TransactionStatus`.
    Status,
    /// The type and the level of a message: `MessageLevel`.
    Message,
    /// REC's recording format: `RecordingFormat`.
    Recording,
    /// REC's recording technique: `RecordingTechnique`.
    Technique,
}

impl Table {
    ghost use Rattle.std.specs.Prelude.{◌≡◌};
    ghost use Rattle.cwr_fields.specs.Format.Codes.{code_width};

    /// The width of the table's cells in bytes.
    pub fn width(self) -> usize
        ensures { result ≡ code_width self }
    {
        match self {
            Table::TransactionType
            | Table::Category
            | Table::Version
            | Table::Composite
            | Table::Excerpt => 3,
            Table::Sender
            | Table::AgreementType
            | Table::Role
            | Table::Publisher
            | Table::Designation
            | Table::Title
            | Table::Status => 2,
            Table::Prior
            | Table::PostTerm
            | Table::Sales
            | Table::Sign
            | Table::Message
            | Table::Recording
            | Table::Technique => 1,
        }
    }
}
