//! How many groups, transactions and records were handed out.

ghost use Rattle.std.specs.Prelude.{◌≡◌, ◌+◌, ◌≤◌, length};
ghost use Rattle.cwr_judge.specs.Format.Items.{item_records};
ghost use Rattle.cwr_tools.specs.Steps.Passing.{FitTotals, totals_passing};
ghost use Rattle.cwr_tools.specs.Steps.Verdicts.{totals_with};

use crate::verdicts::Verdict;
use cwr_decode::Passed;
use cwr_values::Item;

/// How many groups, transactions and records were handed out.
#[derive(Clone, Copy, Debug)]
pub struct Totals {
    /// The groups that were opened.
    pub groups: u32,
    /// The transactions.
    pub transactions: u32,
    /// The transactions since the last GRH.
    pub in_group: u32,
    /// The records before the last GRH.
    pub before_group: u32,
    /// All records.
    pub records: u32,
}

impl Totals {
    /// Nothing was handed out.
    pub fn new() -> Self
        ensures { result
            ≡ record { groups = 0; transactions = 0; in_group = 0; before_group = 0; records = 0 } }
    {
        Totals {
            groups: 0,
            transactions: 0,
            in_group: 0,
            before_group: 0,
            records: 0,
        }
    }

    /// Counts one item more.
    pub fn count(&mut self, item: &Item)
        requires groups { self.old.groups ≤ 199999998 }
        requires transactions { self.old.transactions ≤ 199999998 }
        requires in_group { self.old.in_group ≤ 199999998 }
        requires records { self.old.records + length (item_records item.now) ≤ 99999999 }
        ensures { self.new ≡ totals_with self.old item.now }
    {
        match item {
            Item::Opened(_) | Item::GroupClosed(_) | Item::Ended => self.records += 1,
            Item::GroupOpened(_) => {
                self.groups += 1;
                self.in_group = 0;
                self.before_group = self.records;
                self.records += 1;
            }
            Item::Transaction(transaction) => {
                self.transactions += 1;
                self.in_group += 1;
                self.records += transaction.len() as u32;
            }
        }
    }

    /// Counts transactions that were passed over. A number that gets too large stays at `u32::MAX`.
    pub(crate) fn pass(&mut self, passed: &Passed)
        ensures { FitTotals self.old passed.now → self.new ≡ totals_passing self.old passed.now }
    {
        let transactions = u32::try_from(passed.transactions).unwrap_or(u32::MAX);
        let records = u32::try_from(passed.records).unwrap_or(u32::MAX);
        self.transactions = self.transactions.saturating_add(transactions);
        self.in_group = self.in_group.saturating_add(transactions);
        self.records = self.records.saturating_add(records);
    }

    /// The verdict on a text that is accepted with these numbers.
    pub fn good(&self) -> Verdict
        ensures { result ≡ Verdict.Good self.now.groups self.now.transactions self.now.records }
    {
        Verdict::Good {
            groups: self.groups,
            transactions: self.transactions,
            records: self.records,
        }
    }
}
