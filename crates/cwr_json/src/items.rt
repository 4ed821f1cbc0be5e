//! The lines of items.

ghost use Rattle.std.specs.Prelude.{[], ◌∷◌};
ghost use Rattle.cwr_devices.specs.Steps.Pens.{Adds};
ghost use Rattle.cwr_judge.specs.Format.Items.{item_records};
ghost use Rattle.cwr_json.specs.Format.Forms.{item_line};
ghost use Rattle.cwr_json.specs.Steps.FormTexts.{group_notes_text, listed_text, listed_texts, note_text, notes_text, opening_text};

use crate::encodings::Encoding;
use crate::notes::Notes;
use crate::records::record_text;
use cwr_devices::{Pen, Target};
use cwr_lines::RecordRef;
use cwr_values::{Item, Transaction};

/// Adds a note, and a comma.
fn note_text<W: Target>(key: &[u8], number: u64, pen: &mut Pen<'_, W>)
    ensures { Adds W.contents W.failures (note_text key.now number) pen.old pen.new }
{
    pen.text(key);
    pen.number(number);
    pen.text(b",");
}

/// Adds the notes that say where an item stands among groups and transactions.
fn group_notes_text<W: Target>(notes: &Notes, item: &Item, pen: &mut Pen<'_, W>)
    ensures { Adds W.contents W.failures (group_notes_text notes.now item.now) pen.old pen.new }
{
    match item {
        Item::Opened(_) | Item::Ended => {}
        Item::GroupOpened(_) | Item::GroupClosed(_) => {
            note_text(b"\"_group\":", notes.group, pen);
        }
        Item::Transaction(_) => {
            note_text(b"\"_group\":", notes.group, pen);
            note_text(b"\"_transaction\":", notes.transaction, pen);
        }
    }
}

/// Adds the notes that an item has, if it has any.
fn notes_text<W: Target>(notes: Option<Notes>, item: &Item, pen: &mut Pen<'_, W>)
    ensures { Adds W.contents W.failures (notes_text notes item.now) pen.old pen.new }
{
    let Some(notes) = notes else {
        return;
    };
    group_notes_text(&notes, item, pen);
    note_text(b"\"_line\":", notes.line, pen);
}

/// Adds what stands before the records of an item: its notes, if there are any, and the key of the records.
fn opening_text<W: Target>(notes: Option<Notes>, item: &Item, pen: &mut Pen<'_, W>)
    ensures { Adds W.contents W.failures (opening_text notes item.now) pen.old pen.new }
{
    pen.text(b"{");
    notes_text(notes, item, pen);
    pen.text(b"\"records\":[");
}

/// Adds a record that has so many before it in its item.
fn listed_text<W: Target>(
    encoding: Encoding,
    before: u64,
    shown: &RecordRef<'_>,
    pen: &mut Pen<'_, W>,
)
    ensures { Adds W.contents W.failures (listed_text encoding before shown.now) pen.old pen.new }
{
    if before > 0 {
        pen.text(b",");
    }
    record_text(encoding, shown, pen);
}

/// Adds the records of a transaction.
fn listed_texts<W: Target>(encoding: Encoding, transaction: &Transaction, pen: &mut Pen<'_, W>)
    ensures { Adds W.contents W.failures (listed_texts encoding 0 transaction.now) pen.old pen.new }
{
    let count = transaction.len();
    let mut i: usize = 0;
    while let Some(shown) = transaction.record(i) {
        listed_text(encoding, i as u64, &shown, pen);
        prove!(i < count);
        i += 1;
    }
}

/// Adds the record of an item that is one record.
fn only_text<W: Target>(encoding: Encoding, shown: &RecordRef<'_>, pen: &mut Pen<'_, W>)
    ensures { Adds W.contents W.failures (listed_texts encoding 0 (shown.now ∷ [])) pen.old pen.new }
{
    record_text(encoding, shown, pen);
}

/// Adds the records of an item.
fn item_texts<W: Target>(encoding: Encoding, item: &Item, pen: &mut Pen<'_, W>)
    ensures { Adds W.contents W.failures (listed_texts encoding 0 (item_records item.now)) pen.old
        pen.new }
{
    match item {
        Item::Opened(record) => only_text(encoding, &record.view(), pen),
        Item::GroupOpened(record) => only_text(encoding, &record.view(), pen),
        Item::GroupClosed(record) => only_text(encoding, &record.view(), pen),
        Item::Transaction(transaction) => listed_texts(encoding, transaction, pen),
        Item::Ended => pen.text(b"{\"record_type\":\"TRL\"}"),
    }
}

/// Adds the data of an item as one line, with its notes if there are any, its cells shown by the encoding.
pub fn item_line<W: Target>(
    encoding: Encoding,
    notes: Option<Notes>,
    item: &Item,
    pen: &mut Pen<'_, W>,
)
    ensures { Adds W.contents W.failures (item_line encoding notes item.now) pen.old pen.new }
{
    opening_text(notes, item, pen);
    item_texts(encoding, item, pen);
    pen.text(b"]}\n");
}
