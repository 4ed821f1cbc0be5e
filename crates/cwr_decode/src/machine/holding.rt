//! What is held of the open transaction: records are added to it, and it is handed out.

ghost use Rattle.std.specs.Prelude.{List, ◌∷◌, ◌++◌, [], ◌≡◌, ◌↔◌, Some, None, IfSome, IsTrue, IsFalse, IsSome, OnOk, OnErr, length, slice_get};
ghost use Rattle.cwr_lines.specs.Format.Growth.{AsksMemory};
ghost use Rattle.cwr_shape.specs.Steps.Tallies.{IsTallyOf};
ghost use Rattle.cwr_shape.specs.declared.symbols.Symbol.{Symbol};
ghost use Rattle.cwr_judge.specs.Steps.Open.{continues_open};
ghost use Rattle.cwr_decode.specs.Steps.HeldLists.{room_after};
ghost use Rattle.cwr_decode.specs.Steps.Machines.{Adds, ComesTo, FitsHeld, HandsOut, emptied, held_list};

use super::Machine;
use cwr_fields::Kind;
use cwr_lines::{RecordList, RecordRef};
use cwr_shape::{Scope, Stage, Tally};
use cwr_values::{Item, Transaction};
use std::alloc::{AllocError, Global};
use std::marker::Model;
use std::mem;

/// The one list of records that a decoder has.
#[derive(Drop)]
pub enum HeldList {
    /// The records of the open transaction.
    Open(Transaction),
    /// No transaction is open. The next one has the room of this list, whose records nobody needs.
    Spare(RecordList),
}

/// Keeps the room of a transaction that nobody needs any more in place of the room that is spare, and says so. While a transaction is
/// open nothing changes.
fn keep_room(list: &mut HeldList, spent: Transaction) -> bool
    ensures list { list.new ≡ room_after spent list.old }
    ensures kept { IsTrue result ↔ (list.new ≡ HeldList.Spare spent) }
{
    match list {
        HeldList::Open(_) => false,
        HeldList::Spare(room) => {
            *room = spent.into_records();
            true
        }
    }
}

/// What is held of the open transaction: its records, if one is open. By its type it is one list, the open transaction's or a spare
/// one.
#[derive(Drop)]
pub struct Held {
    pub(super) list: HeldList,
}

impl Model for Held {
    ghost use Rattle.std.specs.Prelude.{List, Option};
    ghost use Rattle.cwr_lines.specs.Format.Records.{RecordValue};
    ghost use Rattle.cwr_decode.specs.Steps.HeldLists.{open_records};

    ghost Value = { Option (List RecordValue) };

    ghost view = { λ h. open_records h.list };
}

impl Held {
    /// Nothing is held, and nothing is spare. It takes no memory.
    pub(super) fn nothing(alloc: Global) -> Held
        ensures { result ≡ None }
    {
        Held {
            list: HeldList::Spare(RecordList::new(alloc)),
        }
    }

    /// How many records are held.
    pub(super) fn len(&self) -> usize
        ensures { result ≡ length (held_list self.now) }
    {
        match &self.list {
            HeldList::Open(transaction) => transaction.len(),
            HeldList::Spare(_) => 0,
        }
    }

    /// The header of the open transaction: its first record.
    pub(super) fn header(&self) -> Option<RecordRef<'_>>
        ensures { result ≡ slice_get (held_list self.now) 0 }
    {
        match &self.list {
            HeldList::Open(transaction) => transaction.record(0),
            HeldList::Spare(_) => None,
        }
    }

    /// The header of the open transaction, where nothing else is held of that.
    pub(super) fn lone_header(&self) -> Option<RecordRef<'_>>
        ensures { IfSome result (λ header. self.now ≡ Some (header ∷ [])) }
    {
        let HeldList::Open(transaction) = &self.list else {
            return None;
        };
        if transaction.len() != 1 {
            return None;
        }
        transaction.record(0)
    }

    /// Hands out the open transaction. Nothing is spare then.
    pub(super) fn take(&mut self, alloc: Global) -> Option<Transaction>
        ensures taken { result ≡ self.old }
        ensures none { self.new ≡ None }
    {
        match mem::replace(&mut self.list, HeldList::Spare(RecordList::new(alloc))) {
            HeldList::Open(whole) => Some(whole),
            HeldList::Spare(room) => {
                self.list = HeldList::Spare(room);
                None
            }
        }
    }

    /// Drops the records of the open transaction, and keeps their room.
    pub(super) fn close(&mut self, alloc: Global)
        ensures { self.new ≡ None }
    {
        if let Some(whole) = self.take(alloc) {
            self.list = HeldList::Spare(whole.into_records());
        }
    }

    /// Drops the room that is spare. An open transaction stays.
    pub(super) fn drop_room(&mut self, alloc: Global)
        ensures { self.new ≡ self.old }
    {
        if let HeldList::Spare(room) = &mut self.list {
            *room = RecordList::new(alloc);
        }
    }

    /// Keeps the room of a transaction that nobody needs any more for the next one, and says so: just where none is open.
    pub(super) fn reuse(&mut self, spent: Transaction) -> bool
        ensures same { self.new ≡ self.old }
        ensures kept { IsTrue result ↔ (self.old ≡ None) }
    {
        keep_room(&mut self.list, spent)
    }

    /// Adds a record, which comes to the stage, to the open transaction, or begins one with it in the room that is spare. It fails only
    /// where the list of its records asks for memory, and then nothing is held that wasn't before.
    pub(super) fn add(
        &mut self,
        alloc: Global,
        accepted: RecordRef<'_>,
        stage: Stage,
    ) -> Result<(), AllocError>
        requires { ComesTo stage (held_list self.old) accepted }
        ensures ok { OnOk result (self.new ≡ Some (held_list self.old ++ accepted.entry ∷ [])) }
        ensures err { OnErr result (self.new ≡ self.old) }
        ensures asks { OnErr result (AsksMemory (held_list self.old) accepted.entry) }
    {
        let Stage::Within(_, step) = stage else {
            unreachable!();
        };
        match &mut self.list {
            HeldList::Open(transaction) => transaction.push_at(accepted, step),
            HeldList::Spare(room) => {
                let taken = mem::replace(room, RecordList::new(alloc));
                self.list = HeldList::Open(Transaction::begin_at(taken, accepted, step)?);
                Ok(())
            }
        }
    }
}

/// Whether a record that was counted continues the open transaction.
#[inline(always)]
pub(super) fn stays_open(before: &Tally, counted: &Tally) -> bool
    ensures { (xs : List Symbol) (symbol : Symbol) → IsTallyOf before.now xs
        → IsTallyOf counted.now (xs ++ symbol ∷ []) → result ≡ continues_open xs symbol }
{
    let begun = before.transactions();
    counted.transactions() == begun && matches!(counted.scope(), Scope::Transaction)
}

/// Takes the open transaction out, unless the next record continues it.
pub(super) fn hand_out(continues: bool, held: &mut Held, alloc: Global) -> Option<Transaction>
    ensures { HandsOut continues held.old result held.new }
{
    if continues { None } else { held.take(alloc) }
}

/// Adds an accepted record, with which the stage came, to the transaction that is held, or begins one with it, or answers its own
/// item.
pub(super) fn add_accepted(
    alloc: Global,
    held: &mut Held,
    accepted: RecordRef<'_>,
    stage: Stage,
) -> Result<Option<Item>, AllocError>
    requires { FitsHeld stage accepted held.old }
    ensures { Adds accepted.entry.kind accepted.entry held.old result held.new }
{
    let item = match accepted.kind() {
        Kind::Hdr => Item::Opened(accepted.to_control()),
        Kind::Grh => Item::GroupOpened(accepted.to_control()),
        Kind::Grt => Item::GroupClosed(accepted.to_control()),
        Kind::Trl => Item::Ended,
        _ => {
            held.add(alloc, accepted, stage)?;
            return Ok(None);
        }
    };
    Ok(Some(item))
}

/// Adds a record, which comes to the stage, to the open transaction, where memory is found. Else nothing changes.
#[inline(never)]
pub(super) fn adds_known(transaction: &mut Transaction, next: RecordRef<'_>, stage: Stage) -> bool
    requires { ComesTo stage transaction.old next }
    ensures added { IsTrue result → transaction.new ≡ transaction.old ++ next.entry ∷ [] }
    ensures kept { IsFalse result → transaction.new ≡ transaction.old }
{
    let Stage::Within(_, step) = stage else {
        unreachable!();
    };
    transaction.push_at(next, step).is_ok()
}

impl Machine {
    /// Hands out the open transaction.
    pub(super) fn take_whole(&mut self) -> Transaction
        requires { IsSome self.old.held }
        ensures whole { self.old.held ≡ Some result }
        ensures others { self.new ≡ emptied self.old }
    {
        match self.held.take(self.alloc) {
            Some(whole) => whole,
            None => unreachable!(),
        }
    }
}
