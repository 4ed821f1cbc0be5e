//! Lines of CWR 2.1 cut into cells, and records as values.
#![tactic(auto)]

mod canonical_lines;
mod carried_fields;
mod drafts;
mod kind_cells;
pub mod laws;
mod lines;
mod record_lists;
mod records;
mod renumbered_lines;

pub use canonical_lines::CanonicalLine;
pub use drafts::{Draft, DraftFault, SetFault};
pub use lines::{CutLine, LONGEST_LINE, LineBuf, LineEnd, LinePad, Taken};
pub use record_lists::RecordList;
pub use records::{ControlRecord, Record, RecordRef};
pub use renumbered_lines::RenumberedLine;
