//! Reading a whole transmission from a reader.

ghost use Rattle.std.specs.Prelude.{◌≡◌, ◌+◌, ◌<◌, ◌∷◌, ◌++◌, [], length, vec_len, vec_capacity, IfErr, IfOk, MatchResult, OnOk};
ghost use Rattle.cwr_fields.specs.Format.Growth.{Outgrows};
ghost use Rattle.cwr_fields.specs.Steps.Growth.{IsRoom};
ghost use Rattle.std.specs.Vec.Iter.{into_iter_items};
ghost use Rattle.cwr_values.specs.Format.Values.{type_of, IsTransaction};
ghost use Rattle.cwr_judge.specs.Format.Items.{group_rest, value_items};
ghost use Rattle.cwr_decode.specs.Steps.Readings.{CountsFault};
ghost use Rattle.cwr_decode.specs.Format.Runs.{AreGroupItems, AreItems, TakesFront, ReportsAccepted, ReportsCanonical};
ghost use Rattle.cwr_decode.specs.Steps.Runs.{HasReadAll, StopsWhole};

use crate::readings::{ReadFault, Reading};
use cwr_devices::Source;
use cwr_fields::make_room;
use cwr_lines::Record;
use cwr_shape::Limits;
use cwr_values::{Group, GroupFault, Item, Transaction, Transmission, TransmissionFault};
use std::alloc::{AllocError, Global};
use std::vec;

/// How many items there is room for from the first one on.
const FIRST_ITEMS: usize = 16;

/// Adds an item to those that were read, of which there is room for so many.
fn add_item(items: &mut Vec<Item>, room: &mut usize, item: Item) -> Result<(), ReadFault>
    requires { IsRoom 16 room.old (vec_len items.old) (vec_capacity items.old) }
    ensures added { OnOk result (items.new.items ≡ items.old.items ++ item ∷ []) }
    ensures room { OnOk result (IsRoom 16 room.new (vec_len items.new) (vec_capacity items.new)) }
    ensures asks { IfErr result (λ fault. (fault ≡ ReadFault.Memory)
        × Outgrows 16 (length items.old.items) (length items.old.items + 1)) }
{
    match make_room(items, *room, FIRST_ITEMS, 1) {
        Ok(larger) => {
            *room = larger;
            items.push_reserved(item);
            Ok(())
        }
        Err(_) => Err(ReadFault::Memory),
    }
}

/// Reads all items, up to the end of the transmission.
fn read_items<R: Source>(
    alloc: Global,
    limits: Limits,
    reader: &mut R,
) -> Result<Vec<Item>, ReadFault>
    ensures all { IfOk result
        (λ items. HasReadAll limits (R.remaining reader.old) (R.remaining reader.new) items.items) }
    ensures stops { IfErr result
        (λ fault. StopsWhole limits fault (R.remaining reader.old) (R.remaining reader.new)) }
    ensures failures { MatchResult result (λ _. R.failures reader.new ≡ R.failures reader.old)
        (λ fault. CountsFault fault (R.failures reader.old) (R.failures reader.new)) }
{
    let mut reading = Reading::new(alloc, limits, reader);
    let mut items = Vec::new(alloc);
    let mut room = 0;
    'items: while let Some(item) = reading.next_item()? {
        add_item(&mut items, &mut room, item)?;
    }
    Ok(items)
}

/// The group of that GRH record, with the transactions and the GRT record that come next of the items.
fn collect_group(
    alloc: Global,
    head: Record,
    items: &mut vec::IntoIter<Item>,
) -> Result<Group, AllocError>
    requires { AreGroupItems head (into_iter_items items.old) }
    ensures head { IfOk result (λ group. group.head ≡ head) }
    ensures items { IfOk result
        (λ group. into_iter_items items.old ≡ group_rest group ++ into_iter_items items.new) }
{
    let Ok(mut group) = Group::new(alloc, head) else {
        unreachable!()
    };
    'transactions: loop {
        let Some(item) = items.next() else {
            unreachable!()
        };
        match item {
            Item::Transaction(transaction) => add_transaction(&mut group, transaction)?,
            Item::GroupClosed(foot) => {
                return match group.set_foot(foot.to_record()) {
                    Ok(()) => Ok(group),
                    Err(_) => unreachable!(),
                };
            }
            _ => unreachable!(),
        }
    }
}

/// Adds a whole transaction of the group's type.
fn add_transaction(group: &mut Group, transaction: Transaction) -> Result<(), AllocError>
    requires { IsTransaction (type_of group.old.head) transaction }
    ensures { OnOk result
        (group.new ≡ record group.old { transactions = group.old.transactions ++ transaction ∷ [] }) }
{
    match group.push(transaction) {
        Ok(()) => Ok(()),
        Err((fault, _)) => match fault {
            GroupFault::Memory => Err(AllocError),
            GroupFault::WrongKind | GroupFault::Incomplete => unreachable!(),
        },
    }
}

/// Adds a group that has a transaction.
fn add_group(transmission: &mut Transmission, group: Group) -> Result<(), AllocError>
    requires { 0 < length group.transactions }
    ensures { OnOk result (transmission.new
        ≡ record transmission.old { groups = transmission.old.groups ++ group ∷ [] }) }
{
    match transmission.push(group) {
        Ok(()) => Ok(()),
        Err((fault, _)) => match fault {
            TransmissionFault::Memory => Err(AllocError),
            TransmissionFault::Empty => unreachable!(),
        },
    }
}

/// The transmission of which these are all items.
fn collect(alloc: Global, items: Vec<Item>) -> Result<Transmission, AllocError>
    requires { AreItems items.items }
    ensures { IfOk result (λ transmission. items.items ≡ value_items transmission) }
{
    let mut items = items.into_iter();
    let Some(first) = items.next() else {
        unreachable!()
    };
    let opening = match first {
        Item::Opened(opening) => opening.to_record(),
        _ => unreachable!(),
    };
    let Ok(mut transmission) = Transmission::new(alloc, opening) else {
        unreachable!()
    };
    'groups: loop {
        let Some(item) = items.next() else {
            unreachable!()
        };
        match item {
            Item::GroupOpened(head) => {
                let group = collect_group(alloc, head.to_record(), &mut items)?;
                add_group(&mut transmission, group)?;
            }
            Item::Ended => return Ok(transmission),
            _ => unreachable!(),
        }
    }
}

/// Reads a whole transmission within the limits. Just the bytes that spell it are consumed.
///
/// A fault drops what was read, and the bytes that were used before it stay consumed.
pub fn read_all<R: Source>(
    alloc: Global,
    limits: Limits,
    reader: &mut R,
) -> Result<Transmission, ReadFault>
    ensures takes { IfOk result (λ transmission. TakesFront limits (R.remaining reader.old)
        transmission (R.remaining reader.new)) }
    ensures stops { IfErr result
        (λ fault. StopsWhole limits fault (R.remaining reader.old) (R.remaining reader.new)) }
    ensures accepted { ReportsAccepted limits (R.remaining reader.old) result
        (R.remaining reader.new) }
    ensures canonical { ReportsCanonical limits (R.remaining reader.old) result
        (R.remaining reader.new) }
    ensures failures { MatchResult result (λ _. R.failures reader.new ≡ R.failures reader.old)
        (λ fault. CountsFault fault (R.failures reader.old) (R.failures reader.new)) }
{
    let items = read_items(alloc, limits, reader)?;
    match collect(alloc, items) {
        Ok(transmission) => Ok(transmission),
        Err(_) => Err(ReadFault::Memory),
    }
}
