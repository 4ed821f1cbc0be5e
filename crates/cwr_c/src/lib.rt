//! CWR 2.1 for C and all that calls C: the calls of `cwr_calls` under the names that C knows.
#![tactic(auto)]

mod exports;

pub use cwr_calls::{CwrField, CwrFinding, CwrPlace, CwrVerdict, CwrWritten};
