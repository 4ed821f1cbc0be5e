//! What a lint holds between two lines, but for the open transaction's records.

ghost use Rattle.std.specs.Prelude.{◌≡◌, Some};
ghost use Rattle.cwr_lint_lines.specs.Steps.JudgedLines.{scope_by};
ghost use Rattle.cwr_lint_lines.specs.Steps.States.{added_known, all_groups, all_headers, all_lines, all_records, all_transactions, bars, begun, final_number};
ghost use Rattle.cwr_lint_lines.specs.Steps.States.{group_records, is_id, is_of, is_type, is_whole, may_have, next_in, number_or, open_records};
ghost use Rattle.cwr_lint_lines.specs.Steps.States.{open_transaction, open_transactions, records, records_with, standing_id, sum_known, transactions, unheaded};

use crate::following::{Awaiting, is_number};
use cwr_fields::{Kind, TransactionType};
use cwr_shape::{Scope, Stage, Symbol};

/// The open transaction.
#[derive(Clone, Copy, Debug)]
pub struct OpenTransaction {
    /// Its number.
    pub number: u64,
    /// Another number that it may have.
    pub other: Option<u64>,
    /// The record number that comes next.
    pub next: Awaiting,
    /// How many records it had by the numbers before the other number stood.
    pub run_before: Option<u64>,
    /// How many records it has by the numbers.
    pub run: u64,
}

/// The number in its place, or else another.
pub(crate) fn number_or(found: Option<u64>, other: u64) -> u64
    ensures { result ≡ number_or found other }
{
    match found {
        Some(number) => number,
        None => other,
    }
}

/// The sum, where the number is known.
fn added_known(known: Option<u64>, more: u64) -> Option<u64>
    ensures { result ≡ added_known known more }
{
    match known {
        Some(number) => Some(number.saturating_add(more)),
        None => None,
    }
}

/// The sum, where both are known.
pub(crate) fn sum_known(known: Option<u64>, more: Option<u64>) -> Option<u64>
    ensures { result ≡ sum_known known more }
{
    match more {
        Some(number) => added_known(known, number),
        None => None,
    }
}

/// Whether the type is there, and this one.
fn is_type(found: Option<TransactionType>, ty: TransactionType) -> bool
    ensures { result ≡ is_type found ty }
{
    matches!(
        (found, ty),
        (Some(TransactionType::Agreement), TransactionType::Agreement)
            | (Some(TransactionType::NewWork), TransactionType::NewWork)
            | (
                Some(TransactionType::RevisedWork),
                TransactionType::RevisedWork
            )
            | (
                Some(TransactionType::Acknowledgement),
                TransactionType::Acknowledgement
            )
    )
}

impl OpenTransaction {
    /// The number that it has. Where its last record leaves that open, it is the one that stands there, unless the next header
    /// goes on from the other.
    fn final_number(&self, next: Option<u64>) -> u64
        ensures { result ≡ final_number self.now next }
    {
        match self.other {
            None => self.number,
            Some(other) => {
                if is_number(next, self.number.saturating_add(1)) {
                    self.number
                } else {
                    other
                }
            }
        }
    }

    /// The transaction that is awaited, of which no header came. That record number comes next.
    pub(crate) fn unheaded(next: &Awaiting, first: u64) -> OpenTransaction
        ensures { result ≡ unheaded next.now first }
    {
        OpenTransaction {
            number: next.expected,
            other: None,
            next: Awaiting::just(first),
            run_before: None,
            run: 0,
        }
    }
}

/// The open group.
#[derive(Clone, Copy, Debug)]
pub struct OpenGroup {
    /// Its ID.
    pub id: u64,
    /// Another ID that it may have.
    pub other_id: Option<u64>,
    /// The type of its transactions.
    pub ty: Option<TransactionType>,
    /// The type that its GRH says.
    pub declared: Option<TransactionType>,
    /// Whether a header came.
    pub has_header: bool,
    /// Whether a line came after its GRH.
    pub has_line: bool,
    /// The lines that are there, its GRH counted.
    pub lines: u64,
    /// The headers that are there.
    pub headers: u64,
    /// The number of the next header.
    pub next: Awaiting,
    /// By the numbers, the transactions that ended.
    pub ended: u64,
    /// By the numbers, the records of these, where they are known.
    pub ended_records: Option<u64>,
    /// The open transaction.
    pub current: Option<OpenTransaction>,
}

impl OpenGroup {
    /// A group that begins, with so many lines. The cell is that of its ID.
    pub(crate) fn begun(
        ids: &Awaiting,
        cell: Option<u64>,
        ty: Option<TransactionType>,
        lines: u64,
    ) -> OpenGroup
        ensures { result ≡ begun ids.now cell ty lines }
    {
        OpenGroup {
            id: ids.settled(cell),
            other_id: ids.stranger(cell),
            ty,
            declared: ty,
            has_header: false,
            has_line: false,
            lines,
            headers: 0,
            next: Awaiting::just(0),
            ended: 0,
            ended_records: Some(0),
            current: None,
        }
    }

    /// Whether the type is that of the group.
    pub(crate) fn is_of(&self, ty: TransactionType) -> bool
        ensures { result ≡ is_of self.now ty }
    {
        is_type(self.ty, ty)
    }

    /// Whether the type is that of the group, or the one that its GRH says.
    pub(crate) fn may_have(&self, ty: TransactionType) -> bool
        ensures { result ≡ may_have self.now ty }
    {
        is_type(self.ty, ty) || is_type(self.declared, ty)
    }

    /// Whether the ID is one of the group's.
    pub(crate) fn is_id(&self, cell: Option<u64>) -> bool
        ensures { result ≡ is_id self.now cell }
    {
        match cell {
            Some(id) => id == self.id || is_number(self.other_id, id),
            None => false,
        }
    }

    /// The ID that stands there.
    pub(crate) fn standing_id(&self) -> u64
        ensures { result ≡ standing_id self.now }
    {
        number_or(self.other_id, self.id)
    }

    /// The records of the transactions that ended and of one more that has that number, where they are known: those before are
    /// where it is the next one.
    pub(crate) fn records_with(&self, number: u64, more: u64) -> Option<u64>
        ensures { result ≡ records_with self.now number more }
    {
        if number == self.ended {
            added_known(self.ended_records, more)
        } else {
            None
        }
    }

    /// By the numbers, the transactions that ended, with the open one. The cell is that of the next header.
    pub(crate) fn transactions(&self, next: Option<u64>) -> u64
        ensures { result ≡ transactions self.now next }
    {
        match self.current {
            None => self.ended,
            Some(open) => open.final_number(next).saturating_add(1),
        }
    }

    /// Their records, where they are known.
    pub(crate) fn records(&self, next: Option<u64>) -> Option<u64>
        ensures { result ≡ records self.now next }
    {
        match self.current {
            None => self.ended_records,
            Some(open) => self.records_with(open.final_number(next), open.run),
        }
    }

    /// By the numbers, the group's records once its GRT has come, where they are known.
    pub(crate) fn all_records(&self) -> Option<u64>
        ensures { result ≡ group_records self.now }
    {
        added_known(self.records(None), 2)
    }

    /// The open transaction. Where no header came, the group's lines stand in the transaction that is awaited, after a header.
    pub fn open_transaction(&self) -> OpenTransaction
        ensures { result ≡ open_transaction self.now }
    {
        match self.current {
            Some(open) => open,
            None => OpenTransaction::unheaded(&self.next, 1),
        }
    }
}

/// What a lint holds between two lines.
#[derive(Clone, Copy, Debug)]
pub struct LintState {
    /// The lines that were read.
    pub lines: u64,
    /// How far the order has come, where the lint is in step.
    pub stage: Option<Stage>,
    /// The open group.
    pub group: Option<OpenGroup>,
    /// The next group's ID.
    pub ids: Awaiting,
    /// The last ID that stands there.
    pub last_id: u64,
    /// The lines since HDR, that counted.
    pub since: u64,
    /// The groups that are there.
    pub groups: u64,
    /// The headers that are there.
    pub headers: u64,
    /// By the numbers, the records of the groups that ended, where they are known.
    pub records: Option<u64>,
    /// By the numbers, the transactions of these.
    pub transactions: u64,
    /// The further HDRs.
    pub anew: u64,
    /// The groups before the last of these, but for one that it cut off.
    pub groups_before: u64,
    /// The headers before it.
    pub headers_before: u64,
    /// Whether TRL was taken.
    pub over: bool,
}

impl LintState {
    /// What is open.
    pub fn scope(&self) -> Scope
        ensures { result ≡ scope_by self.now.group }
    {
        match self.group {
            None => Scope::File,
            Some(group) if group.has_line => Scope::Transaction,
            Some(_) => Scope::Group,
        }
    }

    /// The stage after one more record, where the lint is in step and the record may come.
    pub(crate) fn next(&self, symbol: Symbol) -> Option<Stage>
        ensures { result ≡ next_in self.now symbol }
    {
        match self.stage {
            Some(stage) => stage.next(symbol),
            None => None,
        }
    }

    /// Whether the lint is in step, and the order doesn't take the record.
    pub(crate) fn bars(&self, symbol: Symbol) -> bool
        ensures { result ≡ bars self.now symbol }
    {
        self.stage.is_some() && self.next(symbol).is_none()
    }

    /// Whether the lint is in step, and the open transaction is whole.
    pub fn is_whole(&self) -> bool
        ensures { result ≡ is_whole self.now }
    {
        self.next(Symbol::Plain(Kind::Grt)).is_some()
    }

    /// The records of the open group once its GRT has come.
    fn open_records(&self) -> Option<u64>
        ensures { result ≡ open_records self.now.group }
    {
        match self.group {
            Some(group) => group.all_records(),
            None => Some(0),
        }
    }

    /// By the numbers, the records of the transmission up to TRL, where they are known: an open group counts as though its GRT
    /// had come.
    pub(crate) fn all_records(&self) -> Option<u64>
        ensures { result ≡ all_records self.now }
    {
        sum_known(sum_known(self.records, self.open_records()), Some(2))
    }

    /// The groups of the whole file, further HDRs left out.
    pub(crate) fn all_groups(&self) -> u64
        ensures { result ≡ all_groups self.now }
    {
        self.groups_before.saturating_add(self.groups)
    }

    /// Its headers.
    pub(crate) fn all_headers(&self) -> u64
        ensures { result ≡ all_headers self.now }
    {
        self.headers_before.saturating_add(self.headers)
    }

    /// Its lines.
    pub(crate) fn all_lines(&self) -> u64
        ensures { result ≡ all_lines self.now }
    {
        self.lines.saturating_sub(self.anew)
    }

    /// By the numbers, the transactions of the open group.
    fn open_transactions(&self) -> u64
        ensures { result ≡ open_transactions self.now.group }
    {
        match self.group {
            Some(group) => group.transactions(None),
            None => 0,
        }
    }

    /// By the numbers, all transactions.
    pub(crate) fn all_transactions(&self) -> u64
        ensures { result ≡ all_transactions self.now }
    {
        self.transactions.saturating_add(self.open_transactions())
    }
}
