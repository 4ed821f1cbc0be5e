//! The fields of CWR 2.1 records: the kinds of records and their layouts, what the cell of a field may hold, the tables
//! of codes, and cells as typed values. Beside them the check digit of work codes.
#![tactic(auto)]

mod agreement_codes;
mod byte_runs;
mod cell_types;
mod cells;
mod coded;
mod codes;
mod conversions;
mod dates;
mod durations;
mod faults;
mod flags;
mod growth;
mod iswc;
mod kind_places;
mod kinds;
mod known_codes;
mod lanes;
mod layouts;
mod lookups;
mod message_codes;
mod numbers;
mod party_codes;
mod quick_cells;
mod sender_types;
mod spelled;
mod tables;
mod times;
mod typed_cells;
mod work_codes;

pub use agreement_codes::{
    AgreementType, InclusionExclusion, PostTermCollectionStatus, PriorRoyaltyStatus,
    SalesManufactureClause,
};
pub use byte_runs::{first_control, is_spaces, spells, trimmed, trimmed_line};
pub use cell_types::{CellFault, CellType, Word};
pub use cells::{fits, fits_plain, is_plain, width_of};
pub use coded::Coded;
pub use codes::{Role, TransactionType};
pub use conversions::OutOfRange;
pub use dates::{CivilDate, DateCell};
pub use durations::{DurationCell, PlayingTime};
pub use flags::Flag;
pub use growth::make_room;
pub use iswc::iswc_ok;
pub use kinds::{Kind, all_kinds, is_carried, is_in_transaction, letters};
pub use layouts::{Field, layout};
pub use lookups::{field, fields, width};
pub use message_codes::{MessageLevel, TransactionStatus};
pub use numbers::{Number, Share};
pub use party_codes::{PublisherType, WriterDesignation};
pub use quick_cells::surely_fits;
pub use sender_types::SenderType;
pub use spelled::{SpelledPair, are_same};
pub use tables::Table;
pub use times::TimeOfDay;
pub use typed_cells::Cell;
pub use work_codes::{
    CompositeType, DistributionCategory, ExcerptType, RecordingFormat, RecordingTechnique,
    TitleType, VersionType,
};
