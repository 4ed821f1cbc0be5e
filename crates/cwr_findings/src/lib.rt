//! Findings in accepted transactions, and the lines of reports.
#![tactic(auto)]

mod before;
mod finding_questions;
mod headers;
mod named_cells;
mod publishers;
mod registered;
mod report_lines;
mod rules;
mod shares;
mod sums;
mod totals;
mod walk;

pub use headers::{
    AGREEMENT_NUMBER, CREATION_NUMBER, CREATION_TITLE, TITLE, WORK_NUMBER, work_number, work_title,
};
pub use named_cells::{PUBLISHER_SHARES, WRITER_SHARES, cell, is_of, is_owner, number_of};
pub use report_lines::{
    fault_line, faults_line, finding_line, good_line, input_mark, joined_line, limit_line,
    refusal_line, split_line, truncated_line,
};
pub use rules::{Finding, Rule};
pub use shares::is_off;
pub use sums::Sums;
pub use walk::findings;
