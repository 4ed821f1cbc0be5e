//! The lines of records.

ghost use Rattle.std.specs.Prelude.{◌≡◌, ◌+◌, ◌≤◌, [], length};
ghost use Rattle.cwr_devices.specs.Steps.Pens.{Adds};
ghost use Rattle.cwr_judge.specs.Format.Items.{item_records};
ghost use Rattle.cwr_notes.specs.Format.RecordTexts.{numbered_records};
ghost use Rattle.cwr_tools.specs.Format.Reports.{lines_of_records};

use crate::reporting::verdict_line;
use crate::reports::{NothingKept, Report};
use crate::totals::Totals;
use crate::verdicts::Verdict;
use cwr_devices::{Pen, Target};
use cwr_fields::Kind;
use cwr_notes::{head_line, record_lines};
use cwr_values::{Item, Transaction};
use std::alloc::{AllocError, Global};

/// Adds the lines of a transaction's records, whose first has that number.
fn transaction_lines<W: Target>(first: u64, transaction: &Transaction, pen: &mut Pen<'_, W>)
    requires { first + length transaction.now ≤ 100000000 }
    ensures { Adds W.contents W.failures (numbered_records first transaction.now) pen.old pen.new }
{
    let mut i = 0;
    while let Some(shown) = transaction.record(i) {
        record_lines(first + i as u64, &shown, pen);
        i += 1;
    }
}

/// Adds the lines of an item's records, whose first has that number.
pub(crate) fn item_lines<W: Target>(first: u64, item: &Item, pen: &mut Pen<'_, W>)
    requires { first + length (item_records item.now) ≤ 100000000 }
    ensures { Adds W.contents W.failures (numbered_records first (item_records item.now)) pen.old
        pen.new }
{
    match item {
        Item::Opened(record) | Item::GroupOpened(record) | Item::GroupClosed(record) => {
            record_lines(first, &record.view(), pen)
        }
        Item::Transaction(transaction) => transaction_lines(first, transaction, pen),
        Item::Ended => head_line(first, Kind::Trl, pen),
    }
}

/// Each record with its cells, and the line of the verdict.
#[derive(Drop)]
pub struct ShownRecords;

impl ShownRecords {
    /// Before the first item.
    pub fn new() -> ShownRecords
        ensures stands { ⟦<ShownRecords as Report>⟧.stands result lines_of_records [] }
    {
        ShownRecords
    }
}

impl Report for ShownRecords {
    ghost use Rattle.std.specs.Prelude.{◌≡◌};
    ghost use Rattle.cwr_tools.specs.Format.Reports.{lines_of_records};

    type Works = NothingKept;

    ghost stands = { λ report of given. of ≡ lines_of_records };

    fn works(&self) -> NothingKept {
        NothingKept
    }

    fn passes(&self) -> bool {
        false
    }

    fn first_lines<W: Target>(&self, _: &mut Pen<'_, W>) {}

    fn item_lines<W: Target>(
        &mut self,
        _: Global,
        counts: &Totals,
        item: &Item,
        pen: &mut Pen<'_, W>,
    ) -> Result<(), AllocError> {
        item_lines(u64::from(counts.records) + 1, item, pen);
        Ok(())
    }

    fn last_lines<W: Target>(&self, verdict: &Verdict, pen: &mut Pen<'_, W>) {
        verdict_line(verdict, pen);
    }
}
