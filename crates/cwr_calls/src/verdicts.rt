//! Verdicts in numbers.

ghost use Rattle.std.specs.Prelude.{◌≡◌};
ghost use Rattle.cwr_calls.specs.Format.VerdictNumbers.{detail, ended, end_in_c, expected, fault_number, in_c, letter, limit_number, reason_number, refused_in_c};

use cwr_decode::{End, Refusal};
use cwr_fields::CellFault;
use cwr_shape::{Level, LimitKind, Reason};
use cwr_tools::Verdict;

/// How a text ended. A number that doesn't belong to the ending is 0.
#[repr(C)]
#[derive(Clone, Copy, Debug, PartialEq, Eq)]
pub struct CwrVerdict {
    /// 0 good, 1 refused, 2 truncated, 3 no memory, 4 a limit out of its range.
    pub ending: u32,
    /// Good, and not of an index: how many groups.
    pub groups: u32,
    /// Good, and not of an index: how many transactions.
    pub transactions: u32,
    /// Good and truncated: how many records; refused: the number of the refused record, from 1.
    pub records: u32,
    /// Refused: the number of the field, from 1.
    pub field: u32,
    /// Refused: `E`, `G`, `T`, `R` or `F`, in ASCII.
    pub level: u32,
    /// Refused: 1 unknown kind, 2 misplaced, 3 cell, 4 number, 5 limit, 6 excess.
    pub reason: u32,
    /// Of a cell: which fault, from 1 (blank, control, not digits, not a date, not a time, over share, not a code, not constant). Of
    /// a limit: 1 records, 2 groups, 3 transaction.
    pub detail: u32,
    /// Of a number: the one that belongs there.
    pub expected: u64,
    /// Good, of an index: how many bytes the transmission takes.
    pub used: u64,
}

/// A verdict of which only the ending is known.
pub(crate) fn ended(ending: u32) -> CwrVerdict
    ensures { result ≡ ended ending }
{
    CwrVerdict {
        ending,
        groups: 0,
        transactions: 0,
        records: 0,
        field: 0,
        level: 0,
        reason: 0,
        detail: 0,
        expected: 0,
        used: 0,
    }
}

/// A level's letter, in ASCII.
pub(crate) fn level_letter(level: Level) -> u32
    ensures { result ≡ letter level }
{
    match level {
        Level::E => 69,
        Level::G => 71,
        Level::T => 84,
        Level::R => 82,
        Level::F => 70,
    }
}

/// Which limit.
pub(crate) fn limit_number(limit: LimitKind) -> u32
    ensures { result ≡ limit_number limit }
{
    match limit {
        LimitKind::Records => 1,
        LimitKind::Groups => 2,
        LimitKind::Transaction => 3,
    }
}

/// Which fault of a cell.
fn fault_number(fault: CellFault) -> u32
    ensures { result ≡ fault_number fault }
{
    match fault {
        CellFault::Blank => 1,
        CellFault::Control => 2,
        CellFault::NotDigits => 3,
        CellFault::NotADate => 4,
        CellFault::NotATime => 5,
        CellFault::OverShare => 6,
        CellFault::NotACode => 7,
        CellFault::NotConstant => 8,
    }
}

/// Which reason, its detail, and the number that belongs there.
fn reason_numbers(reason: Reason) -> (u32, u32, u64)
    ensures { (result.0 ≡ reason_number reason) × (result.1 ≡ detail reason)
        × (result.2 ≡ expected reason) }
{
    match reason {
        Reason::UnknownKind => (1, 0, 0),
        Reason::Misplaced => (2, 0, 0),
        Reason::Cell(fault) => (3, fault_number(fault), 0),
        Reason::Number { expected } => (4, 0, expected),
        Reason::Limit(limit) => (5, limit_number(limit), 0),
        Reason::Excess => (6, 0, 0),
    }
}

/// A refusal in numbers.
fn refused_in_c(refusal: Refusal) -> CwrVerdict
    ensures { result ≡ refused_in_c refusal }
{
    let (reason, detail, expected) = reason_numbers(refusal.reason);
    CwrVerdict {
        records: refusal.rec,
        field: refusal.field as u32,
        level: level_letter(refusal.level),
        reason,
        detail,
        expected,
        ..ended(1)
    }
}

/// A verdict in numbers.
pub(crate) fn in_c(verdict: Verdict) -> CwrVerdict
    ensures { result ≡ in_c verdict }
{
    match verdict {
        Verdict::Good {
            groups,
            transactions,
            records,
        } => CwrVerdict {
            groups,
            transactions,
            records,
            ..ended(0)
        },
        Verdict::Refused(refusal) => refused_in_c(refusal),
        Verdict::Truncated { records } => CwrVerdict {
            records,
            ..ended(2)
        },
    }
}

/// The end of a text in numbers.
pub(crate) fn end_in_c(end: End) -> CwrVerdict
    ensures { result ≡ end_in_c end }
{
    match end {
        End::Accepted { used } => CwrVerdict {
            used: used as u64,
            ..ended(0)
        },
        End::Refused(refusal) => refused_in_c(refusal),
        End::Truncated { records } => CwrVerdict {
            records,
            ..ended(2)
        },
    }
}
