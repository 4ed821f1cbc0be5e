//! The table of works.

ghost use Rattle.std.specs.Prelude.{◌≡◌, ◌≤◌, length, slice_get, Some, true};
ghost use Rattle.cwr_devices.specs.Steps.Pens.{Adds};
ghost use Rattle.cwr_judge.specs.Format.Items.{item_records};
ghost use Rattle.cwr_tables.specs.Format.WorkTables.{is_header, transaction_row, work_row};

use crate::headers::is_header;
use crate::places::Place;
use crate::work_texts::{front_text, next_names, tail_text};
use crate::works::{Side, add_up};
use cwr_devices::{Pen, Target};
use cwr_json::Encoding;
use cwr_lines::RecordRef;
use cwr_values::{Item, Transaction};

/// Adds the row of a work.
fn work_text<W: Target>(
    encoding: Encoding,
    place: Place,
    head: &RecordRef<'_>,
    transaction: &Transaction,
    pen: &mut Pen<'_, W>,
)
    requires few { length transaction.now ≤ 100000000 }
    requires header { is_header head.now ≡ true }
    requires first { Some head.now ≡ slice_get transaction.now 0 }
    ensures { Adds W.contents W.failures (transaction_row encoding place transaction.now) pen.old pen.new }
{
    front_text(encoding, place, head, pen);
    next_names(encoding, Side::Writers, transaction, pen);
    next_names(encoding, Side::Publishers, transaction, pen);
    let writers = add_up(Side::Writers, transaction);
    let publishers = add_up(Side::Publishers, transaction);
    tail_text(writers, publishers, pen);
}

/// Adds the row of a transaction, if that is a work.
fn transaction_row<W: Target>(
    encoding: Encoding,
    place: Place,
    transaction: &Transaction,
    pen: &mut Pen<'_, W>,
)
    requires { length transaction.now ≤ 100000000 }
    ensures { Adds W.contents W.failures (transaction_row encoding place transaction.now) pen.old pen.new }
{
    let Some(head) = transaction.record(0) else {
        return;
    };
    if !is_header(&head) {
        return;
    }
    work_text(encoding, place, &head, transaction, pen);
}

/// Adds the row of an item, if that is a work, its cells shown by the encoding.
pub fn work_row<W: Target>(encoding: Encoding, place: Place, item: &Item, pen: &mut Pen<'_, W>)
    requires { length (item_records item.now) ≤ 100000000 }
    ensures { Adds W.contents W.failures (work_row encoding place item.now) pen.old pen.new }
{
    match item {
        Item::Transaction(transaction) => transaction_row(encoding, place, transaction, pen),
        _ => {}
    }
}
