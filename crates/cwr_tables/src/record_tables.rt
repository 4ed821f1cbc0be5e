//! The table of the records of a kind.

ghost use Rattle.cwr_devices.specs.Steps.Pens.{Adds};
ghost use Rattle.cwr_values.specs.Format.Rows.{trailer};
ghost use Rattle.cwr_tables.specs.declared.places.RowNumbers.TheVariants.{Outside};
ghost use Rattle.cwr_tables.specs.Format.RecordTables.{inner_of_kind, item_rows, row_of_kind, rows_under, transaction_rows};

use crate::places::{Place, RowNumbers};
use crate::rows::{inner_row, record_row};
use cwr_devices::{Pen, Target};
use cwr_fields::Kind;
use cwr_findings::is_of;
use cwr_json::Encoding;
use cwr_lines::RecordRef;
use cwr_values::{Item, Transaction};

/// Adds the row of a record with these numbers, if it is of the kind.
fn row_of_kind<W: Target>(
    encoding: Encoding,
    kind: Kind,
    numbers: RowNumbers,
    shown: &RecordRef<'_>,
    pen: &mut Pen<'_, W>,
)
    ensures { Adds W.contents W.failures (row_of_kind encoding kind numbers shown.now) pen.old pen.new }
{
    if is_of(shown, kind) {
        record_row(encoding, numbers, shown, pen);
    }
}

/// Adds the row of a record with these numbers in the transaction of that header, if it is of the kind.
fn inner_of_kind<W: Target>(
    encoding: Encoding,
    kind: Kind,
    head: &RecordRef<'_>,
    numbers: RowNumbers,
    shown: &RecordRef<'_>,
    pen: &mut Pen<'_, W>,
)
    ensures { Adds W.contents W.failures (inner_of_kind encoding kind head.now numbers shown.now)
        pen.old pen.new }
{
    if is_of(shown, kind) {
        inner_row(encoding, head, numbers, shown, pen);
    }
}

/// Adds the row of TRL, which carries nothing, if the kind is that.
fn trailer_row<W: Target>(encoding: Encoding, kind: Kind, pen: &mut Pen<'_, W>)
    ensures { Adds W.contents W.failures (row_of_kind encoding kind Outside trailer) pen.old pen.new }
{
    if kind != Kind::Trl {
        return;
    }
    pen.text(b",,\r\n");
}

/// Adds the rows of a transaction's records of the kind, by its header.
fn rows_under<W: Target>(
    encoding: Encoding,
    kind: Kind,
    place: Place,
    head: &RecordRef<'_>,
    transaction: &Transaction,
    pen: &mut Pen<'_, W>,
)
    ensures { Adds W.contents W.failures (rows_under encoding head.now kind place transaction.now)
        pen.old pen.new }
{
    let count = transaction.len();
    let mut i: usize = 0;
    while let Some(shown) = transaction.record(i) {
        let numbers = RowNumbers::InTransaction {
            group: place.group,
            transaction: place.transaction,
            sequence: i as u64,
        };
        inner_of_kind(encoding, kind, head, numbers, &shown, pen);
        prove!(i < count);
        i += 1;
    }
}

/// Adds the rows of a transaction's records of the kind.
fn transaction_rows<W: Target>(
    encoding: Encoding,
    kind: Kind,
    place: Place,
    transaction: &Transaction,
    pen: &mut Pen<'_, W>,
)
    ensures { Adds W.contents W.failures (transaction_rows encoding kind place transaction.now)
        pen.old pen.new }
{
    let Some(head) = transaction.record(0) else {
        return;
    };
    rows_under(encoding, kind, place, &head, transaction, pen);
}

/// Adds the rows of an item's records of the kind, their cells shown by the encoding.
pub fn item_rows<W: Target>(
    encoding: Encoding,
    kind: Kind,
    place: Place,
    item: &Item,
    pen: &mut Pen<'_, W>,
)
    ensures { Adds W.contents W.failures (item_rows encoding kind place item.now) pen.old pen.new }
{
    match item {
        Item::Opened(record) => {
            row_of_kind(encoding, kind, RowNumbers::Outside, &record.view(), pen);
        }
        Item::GroupOpened(record) => {
            let numbers = RowNumbers::InGroup(place.group);
            row_of_kind(encoding, kind, numbers, &record.view(), pen);
        }
        Item::GroupClosed(record) => {
            let numbers = RowNumbers::InGroup(place.group);
            row_of_kind(encoding, kind, numbers, &record.view(), pen);
        }
        Item::Transaction(transaction) => {
            transaction_rows(encoding, kind, place, transaction, pen);
        }
        Item::Ended => trailer_row(encoding, kind, pen),
    }
}
