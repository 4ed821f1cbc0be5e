//! CWR 2.1 for C and all that calls C: checks, findings, an index of the records of a text in memory, reports, layouts,
//! selecting, summaries and writing.
#![tactic(auto)]

mod calls;
mod codes;
mod fields;
mod imports;
mod listing;
mod report_texts;
mod selecting;
mod summing;
mod verdicts;
mod writing;

pub use calls::{
    blank_record, check_text, code_text, field_place, findings_in, index_text, kind_letters,
    report_on, select_places, sum_text, write_data, write_records,
};
pub use fields::CwrField;
pub use listing::CwrFinding;
pub use selecting::CwrPlace;
pub use verdicts::CwrVerdict;
pub use writing::CwrWritten;
