//! Summaries: the sums over the items of a transmission.

ghost use Rattle.std.specs.Prelude.{◌≡◌, ◌<◌, ◌+◌, ◌-◌, ◌^◌, ℕ, min, ◌∷◌, ◌++◌, [], List, flat_map, length, map, replicate, slice_index, take, true, OnOk, OnErr};
ghost use Rattle.cwr_findings.specs.Format.Findings.{findings};
ghost use Rattle.cwr_findings.specs.Format.Headers.{is_work};
ghost use Rattle.cwr_lines.specs.Format.Records.{RecordValue};
ghost use Rattle.cwr_tools.specs.Format.Reports.{has_findings};
ghost use Rattle.cwr_values.specs.declared.items.Item.TheVariants as items;
ghost use Rattle.cwr_summary.specs.Format.Columns.{place};
ghost use Rattle.cwr_summary.specs.Format.Summaries.{finding_part, header_parts, item_parts, record_part, right_parts, share_parts, status_part, status_parts, transaction_parts, type_parts, version_of, version_parts, work_parts};
ghost use Rattle.cwr_summary.specs.Steps.Counted.{added, counted};
ghost use Rattle.cwr_summary.specs.Steps.Shares.{joined, owned_in};

use crate::columns::{COLUMNS, Column, Right};
use crate::shares::{is_controlled, joined, share_in};
use cwr_delivery::has_status;
use cwr_fields::{Coded, Kind, TransactionStatus, TransactionType, VersionType};
use cwr_findings::{Finding, cell, findings, is_of, is_off, is_owner};
use cwr_lines::RecordRef;
use cwr_values::{Item, Transaction};
use std::alloc::{AllocError, Global};

/// NWR, REV: version type.
const VERSION_TYPE: u8 = 15;

/// What stands in a transmission, or in its first items: for each column what these add to it.
#[derive(Clone, Copy, Debug)]
pub struct Summary {
    numbers: [u64; COLUMNS],
    ghost whole: { length numbers ≡ 80 },
}

/// Whether a header is that of a work.
fn is_work(head: &RecordRef<'_>) -> bool
    ensures { result ≡ is_work head.now }
{
    is_of(head, Kind::Nwr) || is_of(head, Kind::Rev)
}

/// The version of the work that a header names.
fn version_of(head: &RecordRef<'_>) -> VersionType
    requires { is_work head.now ≡ true }
    ensures { result ≡ version_of head.now }
{
    let is_modified = cell(head, VERSION_TYPE) == b"MOD".as_slice();
    match is_modified {
        true => VersionType::Modified,
        false => VersionType::Original,
    }
}

impl Summary {
    /// That of no item.
    pub fn new() -> Summary
        ensures { result.numbers ≡ replicate 80 0 }
    {
        Summary {
            numbers: [0; COLUMNS],
        }
    }

    /// What is added to a column. It stays at `u64::MAX`.
    pub fn number(&self, column: Column) -> u64
        ensures { result ≡ slice_index self.now.numbers (place column) }
    {
        self.numbers[column.place()]
    }

    /// Its numbers, each where its column has its place.
    pub fn numbers(&self) -> &[u64]
        ensures { result.now ≡ self.now.numbers }
    {
        self.numbers.as_slice()
    }

    /// Adds so much to a column.
    fn add(&mut self, column: Column, amount: u64)
        ensures { self.new.numbers ≡ added self.old.numbers (column, amount) }
    {
        let place = column.place();
        self.numbers[place] = self.numbers[place].saturating_add(amount);
    }

    /// Adds the numbers of another one. They stay at `u64::MAX`.
    pub fn add_all(&mut self, other: &Summary)
        ensures { (i : ℕ) → slice_index self.new.numbers i
            ≡ min (slice_index self.old.numbers i + slice_index other.now.numbers i) (2 ^ 64 - 1) }
    {
        for i in 0..COLUMNS {
            self.numbers[i] = self.numbers[i].saturating_add(other.numbers[i]);
        }
    }

    /// Adds what a header says of which type its transaction is.
    fn add_type(&mut self, kind: Kind)
        ensures { self.new.numbers ≡ counted self.old.numbers (type_parts kind) }
    {
        match kind {
            Kind::Agr => self.add(Column::Transactions(TransactionType::Agreement), 1),
            Kind::Nwr => self.add(Column::Transactions(TransactionType::NewWork), 1),
            Kind::Rev => self.add(Column::Transactions(TransactionType::RevisedWork), 1),
            Kind::Ack => self.add(Column::Transactions(TransactionType::Acknowledgement), 1),
            _ => {}
        }
    }

    /// Adds what the header of a work says of its version.
    fn add_version(&mut self, head: &RecordRef<'_>)
        ensures { self.new.numbers ≡ counted self.old.numbers (version_parts head.now) }
    {
        if is_work(head) {
            self.add(Column::Works(version_of(head)), 1);
        }
    }

    /// Adds what the header of a transaction says of that.
    fn add_header(&mut self, transaction: &Transaction)
        ensures { self.new.numbers
            ≡ counted self.old.numbers (flat_map header_parts (take 1 transaction.now)) }
    {
        let Some(head) = transaction.record(0) else {
            return;
        };
        self.add_type(head.kind());
        self.add_version(&head);
    }

    /// Adds the records of a transaction.
    fn add_records(&mut self, transaction: &Transaction)
        ensures { self.new.numbers ≡ counted self.old.numbers (map record_part transaction.now) }
    {
        let count = transaction.len();
        let mut i: usize = 0;
        while let Some(shown) = transaction.record(i) {
            prove!(i < count);
            self.add(Column::Records(shown.kind()), 1);
            i += 1;
        }
    }

    /// Adds the share of a record in a right, if that is an owner, and answers it, if it isn't blank.
    fn add_share(&mut self, shown: &RecordRef<'_>, right: Right) -> Option<u64>
        ensures added { self.new.numbers ≡ counted self.old.numbers (share_parts right shown.now) }
        ensures owned { (records : List RecordValue) → joined (owned_in right records) result
            ≡ owned_in right (records ++ shown.now ∷ []) }
    {
        if !is_owner(shown) {
            return None;
        }
        let share = share_in(shown, right);
        if is_controlled(shown) {
            self.add(Column::Controlled(right), share.unwrap_or(0));
        } else {
            self.add(Column::Others(right), share.unwrap_or(0));
        }
        share
    }

    /// Adds the shares of a work in a right, or that it has none, or that they are off.
    fn add_right(&mut self, transaction: &Transaction, right: Right)
        ensures { self.new.numbers ≡ counted self.old.numbers (right_parts transaction.now right) }
    {
        let count = transaction.len();
        let mut owned = None;
        let mut i: usize = 0;
        while let Some(shown) = transaction.record(i) {
            prove!(i < count);
            owned = joined(owned, self.add_share(&shown, right));
            i += 1;
        }
        match owned {
            None => self.add(Column::WorksWithout(right), 1),
            Some(sum) => {
                if is_off(sum) {
                    self.add(Column::WorksOff(right), 1);
                }
            }
        }
    }

    /// Adds the shares of a transaction, if that is a work.
    fn add_work(&mut self, transaction: &Transaction)
        ensures { self.new.numbers ≡ counted self.old.numbers (work_parts transaction.now) }
    {
        let Some(head) = transaction.record(0) else {
            return;
        };
        if !is_work(&head) {
            return;
        }
        self.add_right(transaction, Right::Performing);
        self.add_right(transaction, Right::Mechanical);
        self.add_right(transaction, Right::Synchronization);
    }

    /// Adds a transaction to the acknowledgements with a status, if it is one.
    fn add_answer(&mut self, status: TransactionStatus, transaction: &Transaction)
        ensures { self.new.numbers
            ≡ counted self.old.numbers (status_part (items.Transaction transaction.now) status) }
    {
        if has_status(status, transaction) {
            self.add(Column::Acknowledgements(status), 1);
        }
    }

    /// Adds the status of a transaction, if that is an acknowledgement.
    fn add_status(&mut self, transaction: &Transaction)
        ensures { self.new.numbers
            ≡ counted self.old.numbers (status_parts (items.Transaction transaction.now)) }
    {
        for (status, _) in TransactionStatus::list() {
            self.add_answer(*status, transaction);
        }
    }

    /// Adds findings.
    fn add_findings(&mut self, found: &[Finding])
        ensures { self.new.numbers ≡ counted self.old.numbers (map finding_part found.now) }
    {
        let mut i = 0;
        while let Some(finding) = found.get(i) {
            self.add(Column::Findings(finding.rule), 1);
            i += 1;
        }
    }

    /// Adds a transaction, with these findings.
    fn add_transaction(&mut self, transaction: &Transaction, found: &[Finding])
        requires { found.now ≡ findings transaction.now }
        ensures { self.new.numbers ≡ counted self.old.numbers (transaction_parts transaction.now) }
    {
        self.add_header(transaction);
        self.add_records(transaction);
        self.add_work(transaction);
        self.add_status(transaction);
        self.add_findings(found);
    }

    /// Adds an item. Where memory for its findings is refused, nothing is added.
    pub fn add_item(&mut self, alloc: Global, item: &Item) -> Result<(), AllocError>
        ensures ok { OnOk result (self.new.numbers ≡ counted self.old.numbers (item_parts item.now)) }
        ensures err { OnErr result (self.new ≡ self.old) }
        ensures memory { OnErr result (has_findings item.now ≡ true) }
    {
        match item {
            Item::Opened(record) | Item::GroupClosed(record) => {
                self.add(Column::Records(record.view().kind()), 1);
            }
            Item::GroupOpened(record) => {
                self.add(Column::Groups, 1);
                self.add(Column::Records(record.view().kind()), 1);
            }
            Item::Transaction(transaction) => {
                let found = findings(alloc, transaction)?;
                self.add_transaction(transaction, found.as_slice());
            }
            Item::Ended => self.add(Column::Records(Kind::Trl), 1),
        }
        Ok(())
    }
}
