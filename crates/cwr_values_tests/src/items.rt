//! Tests of items.

use crate::checks::check_equal;
use crate::worked_records::{short_work, work};
use cwr_values::Item;
use std::process::Abort;

/// What is shown of an item to programmers.
fn shown(rt: &(impl Abort + AllocGlobal), item: &Item) -> String {
    format!(in rt.alloc(); "{item:?}").expect(rt, "no memory")
}

#[test]
fn items_are_shown(rt: HostRuntime) {
    check_equal(&rt, shown(&rt, &Item::Ended).as_str(), "Ended");
    let text = shown(&rt, &Item::Transaction(short_work(&rt, &work(&rt))));
    let begin = "Transaction(Transaction { step: Writer, ";
    assert!(rt; text.as_str().starts_with(begin));
}
