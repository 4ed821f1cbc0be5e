//! Whole runs over CWR 2.1 transmissions: check, show and JSON.
#![tactic(auto)]

mod checking;
mod counted_records;
mod finding_counts;
mod finding_lines;
mod json_lines;
mod last_steps;
pub mod laws;
mod reading_on;
mod reporting;
mod reports;
mod shown_records;
mod totals;
mod verdicts;
mod viewing;

pub use checking::{check, show};
pub use counted_records::CountedRecords;
pub use finding_counts::FindingCount;
pub use finding_lines::{FindingLines, transaction_findings};
pub use json_lines::DataLines;
pub use last_steps::LastStep;
pub use reporting::{
    Front, as_told, put_verdict_line, verdict_line, verdict_of, write_report, write_report_and,
};
pub use reports::{NothingKept, Report};
pub use shown_records::ShownRecords;
pub use totals::Totals;
pub use verdicts::{JoinFault, JoinReport, SplitReport, ToolFault, Verdict};
pub use viewing::{Blind, FindingView, Viewer};
