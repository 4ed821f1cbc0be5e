//! Why a run stopped before its end.

use cwr_files::Fault;

/// Why a run stopped before its end.
#[derive(Clone, Copy, Debug, PartialEq, Eq)]
pub enum Stop<'a> {
    /// Standard output didn't take what was written.
    Output,
    /// Another fault.
    Fault(Fault<'a>),
}
