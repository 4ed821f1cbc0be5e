//! Acknowledgements matched with what was sent.

ghost use Rattle.std.specs.Prelude.{◌≡◌, ◌&&◌, IfOk, OnErr, OnOk, is_some, true};
ghost use Rattle.cwr_values.specs.declared.items.Item.TheVariants as items;
ghost use Rattle.cwr_delivery.specs.Steps.Deliveries.{held_in};
ghost use Rattle.cwr_acks.specs.Format.AckLines.{keeps_of};
ghost use Rattle.cwr_acks.specs.Steps.AckSteps.{held_if, kept_if, kept_with, kept_with_transaction, notes_if, notes_of_transaction, notes_with};

use cwr_delivery::{Delivery, Notes, is_ack};
use cwr_values::{Item, Transaction};
use std::alloc::AllocError;

/// Keeps a transaction, if that is an acknowledgement. Answers what is told of it beside what it says.
fn keep_transaction(
    delivery: &mut Delivery,
    transaction: &Transaction,
) -> Result<Option<Notes>, AllocError>
    ensures kept { OnOk result
        (held_in delivery.new ≡ kept_with_transaction (held_in delivery.old) transaction.now) }
    ensures notes { IfOk result
        (λ notes. notes ≡ notes_of_transaction (held_in delivery.old) transaction.now) }
    ensures asks { OnErr result (keeps_of (items.Transaction transaction.now) ≡ true) }
{
    let Some(head) = transaction.record(0) else {
        return Ok(None);
    };
    if !is_ack(&head) {
        return Ok(None);
    }
    Ok(Some(delivery.take(&head, transaction)?))
}

/// Keeps of an item what a delivery keeps. Answers what is told of an acknowledgement beside what it says.
fn keep_item(delivery: &mut Delivery, item: &Item) -> Result<Option<Notes>, AllocError>
    ensures kept { OnOk result (held_in delivery.new ≡ kept_with (held_in delivery.old) item.now) }
    ensures notes { IfOk result (λ notes. notes ≡ notes_with (held_in delivery.old) item.now) }
    ensures asks { OnErr result (keeps_of item.now ≡ true) }
{
    match item {
        Item::Opened(opening) => {
            delivery.open(&opening.view())?;
            Ok(None)
        }
        Item::Transaction(transaction) => keep_transaction(delivery, transaction),
        Item::GroupOpened(_) | Item::GroupClosed(_) | Item::Ended => Ok(None),
    }
}

/// The same, where acknowledgements are matched with what was sent.
pub(crate) fn keep_item_if(
    delivery: &mut Option<Delivery>,
    item: &Item,
) -> Result<Option<Notes>, AllocError>
    ensures kept { OnOk result (held_if delivery.new ≡ kept_if (held_if delivery.old) item.now) }
    ensures notes { IfOk result (λ notes. notes ≡ notes_if (held_if delivery.old) item.now) }
    // Memory is asked for only where something is kept.
    ensures asks { OnErr result ((is_some delivery.old && keeps_of item.now) ≡ true) }
{
    match delivery {
        Some(delivery) => keep_item(delivery, item),
        None => Ok(None),
    }
}
