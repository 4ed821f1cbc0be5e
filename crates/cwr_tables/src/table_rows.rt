//! The report of a table: its heading, and the rows of items.

ghost use Rattle.std.specs.Prelude.{◌≡◌, ◌+◌, ◌≤◌, [], length};
ghost use Rattle.cwr_devices.specs.Steps.Pens.{Adds};
ghost use Rattle.cwr_judge.specs.Format.Items.{item_records};
ghost use Rattle.cwr_tables.specs.Format.TableLines.{lines_of_table};
ghost use Rattle.cwr_tables.specs.Steps.ItemRows.{place_at, rows_at, table_heading};

use crate::places::Place;
use crate::record_tables::item_rows;
use crate::rows::heading;
use crate::tables::Table;
use crate::work_tables::work_row;
use crate::work_texts::work_heading;
use cwr_devices::{Pen, Target};
use cwr_json::Encoding;
use cwr_tools::{NothingKept, Report, Totals, Verdict};
use cwr_values::Item;
use std::alloc::{AllocError, Global};

/// Where an item stands that comes after items with these numbers.
fn place_at(counts: &Totals, item: &Item) -> Place
    ensures { result ≡ place_at counts.now item.now }
{
    let opened: u64 = match item {
        Item::GroupOpened(_) => 1,
        Item::Opened(_) | Item::Transaction(_) | Item::GroupClosed(_) | Item::Ended => 0,
    };
    Place {
        group: u64::from(counts.groups) + opened,
        transaction: u64::from(counts.in_group),
    }
}

/// Adds the heading of a table.
fn table_heading<W: Target>(table: Table, pen: &mut Pen<'_, W>)
    ensures { Adds W.contents W.failures (table_heading table) pen.old pen.new }
{
    match table {
        Table::Records(kind) => heading(kind, pen),
        Table::Works => work_heading(pen),
    }
}

/// Adds the rows of an item that comes after items with these numbers.
fn rows_at<W: Target>(
    encoding: Encoding,
    table: Table,
    counts: &Totals,
    item: &Item,
    pen: &mut Pen<'_, W>,
)
    requires { counts.now.records + length (item_records item.now) ≤ 99999999 }
    ensures { Adds W.contents W.failures (rows_at encoding table counts.now item.now) pen.old pen.new }
{
    let place = place_at(counts, item);
    match table {
        Table::Records(kind) => item_rows(encoding, kind, place, item, pen),
        Table::Works => work_row(encoding, place, item, pen),
    }
}

/// A table of the items, as RFC 4180 has it: a heading and the rows, and nothing for the verdict.
#[derive(Drop)]
pub struct TableRows {
    /// How its cells are shown.
    encoding: Encoding,
    table: Table,
}

impl TableRows {
    /// Before its heading. Cells are shown by the encoding.
    pub fn new(encoding: Encoding, table: Table) -> TableRows
        ensures stands { ⟦<TableRows as Report>⟧.stands result (lines_of_table encoding table) [] }
    {
        TableRows { encoding, table }
    }
}

impl Report for TableRows {
    ghost use Rattle.std.specs.Prelude.{◌≡◌};
    ghost use Rattle.cwr_tables.specs.Format.TableLines.{lines_of_table};

    type Works = NothingKept;

    ghost stands = { λ report of given. of ≡ lines_of_table report.encoding report.table };

    fn works(&self) -> NothingKept {
        NothingKept
    }

    fn passes(&self) -> bool {
        false
    }

    fn first_lines<W: Target>(&self, pen: &mut Pen<'_, W>) {
        table_heading(self.table, pen);
    }

    fn item_lines<W: Target>(
        &mut self,
        _: Global,
        counts: &Totals,
        item: &Item,
        pen: &mut Pen<'_, W>,
    ) -> Result<(), AllocError> {
        rows_at(self.encoding, self.table, counts, item, pen);
        Ok(())
    }

    fn last_lines<W: Target>(&self, _: &Verdict, _: &mut Pen<'_, W>) {}
}
