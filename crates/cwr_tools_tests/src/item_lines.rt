//! Items as the lines of their records, in which each number is 0: what tests compare.

use cwr_lines::{CanonicalLine, RecordRef};
use cwr_values::Item;
use std::process::Abort;

/// Adds the line of a record.
fn add_record(rt: &impl Abort, lines: &mut Vec<u8>, record: &RecordRef<'_>) {
    let mut line = CanonicalLine::new();
    line.set(record, &[]);
    lines
        .extend_from_slice(line.as_slice())
        .expect(rt, "no memory");
}

/// Adds the lines of an item.
pub(crate) fn add_item(rt: &impl Abort, lines: &mut Vec<u8>, item: &Item) {
    match item {
        Item::Opened(record) | Item::GroupOpened(record) | Item::GroupClosed(record) => {
            add_record(rt, lines, &record.view());
        }
        Item::Transaction(transaction) => {
            for i in 0..transaction.len() {
                let record = transaction.record(i).expect(rt, "no record");
                add_record(rt, lines, &record);
            }
        }
        Item::Ended => lines.extend_from_slice(b"TRL\r\n").expect(rt, "no memory"),
    }
}
