//! Transactions as values.

ghost use Rattle.std.specs.Prelude.{◌≡◌, ◌↔◌, List, [], ◌∷◌, ◌++◌, length, map, option_map, slice_get, IsTrue, IsSome, IfSome, IfOk, OnOk, OnErr, Some, Err};
ghost use Rattle.cwr_lines.specs.Format.Growth.{AsksMemory};
ghost use Rattle.cwr_lines.specs.Steps.NumberedTexts.{text_from};
ghost use Rattle.cwr_shape.specs.Format.Shapes.{BeginsShape};
ghost use Rattle.cwr_values.specs.Format.Values.{symbol_of};
ghost use Rattle.cwr_values.specs.Format.Begun.{HasHeaderOf, IsBegun, IsWholeTransaction, BeginsWithOneMore};
ghost use Rattle.cwr_values.specs.Format.ValueFaultTexts.{push_fault_text};
ghost use Rattle.cwr_values.specs.Steps.Begun.{IsStepAfter, IsStepWith};

use crate::symbols::symbol_of;
use cwr_fields::{Kind, SpelledPair, TransactionType};
use cwr_lines::{RecordList, RecordRef};
use cwr_shape::{Symbol, TransactionStep};
use std::alloc::{AllocError, Global};
use std::error::Error;
use std::fmt::{self, Display, Formatter, Write};
use std::marker::Model;

/// Why a record wasn't added to a transaction: the first of these that holds.
#[derive(Clone, Copy, Debug, PartialEq, Eq)]
pub enum PushFault {
    /// No transaction continues so.
    Misplaced,
    /// Memory for the record was refused.
    Memory,
}

impl Display for PushFault {
    ghost output = { λ fault. Some (push_fault_text fault) };

    fn fmt<O: Write>(&self, f: &mut Formatter<O>) -> fmt::Result {
        match self {
            PushFault::Misplaced => f.pad("misplaced record"),
            PushFault::Memory => f.pad("out of memory"),
        }
    }
}

impl Error for PushFault {}

/// The step of a transaction that begins with a record. `None` where none does.
fn begin(symbol: Symbol) -> Option<TransactionStep>
    ensures some { IsSome result ↔ BeginsShape (symbol ∷ []) }
    ensures value { IfSome result (IsStepAfter (symbol ∷ [])) }
{
    if let Some(step) = TransactionStep::first(TransactionType::Agreement, symbol) {
        return Some(step);
    }
    if let Some(step) = TransactionStep::first(TransactionType::NewWork, symbol) {
        return Some(step);
    }
    if let Some(step) = TransactionStep::first(TransactionType::RevisedWork, symbol) {
        return Some(step);
    }
    match TransactionStep::first(TransactionType::Acknowledgement, symbol) {
        Some(step) => Some(step),
        None => None,
    }
}

/// A transaction, or the records with which one begins: its header and the records after it, in an order of this
/// profile.
#[derive(Debug, Drop)]
pub struct Transaction {
    /// The step after its records.
    step: TransactionStep,
    records: RecordList,
}

impl Model for Transaction {
    ghost use Rattle.std.specs.Prelude.{List};
    ghost use Rattle.cwr_lines.specs.Format.Records.{RecordValue};
    ghost use Rattle.cwr_values.specs.Steps.Begun.{KeepsTransaction};

    ghost Value = { List RecordValue };

    ghost view = { λ t. t.records };

    ghost invariant = { λ t. KeepsTransaction t.step t.records };
}

impl Transaction {
    /// The transaction that begins with the record. It is refused as misplaced exactly where none does.
    pub fn new(alloc: Global, head: RecordRef<'_>) -> Result<Transaction, PushFault>
        ensures ok { IfOk result (λ t. t ≡ head.entry ∷ []) }
        ensures misplaced { (result ≡ Err PushFault.Misplaced)
            ↔ ¬ BeginsShape (symbol_of head.entry ∷ []) }
    {
        let Some(step) = begin(symbol_of(&head)) else {
            return Err(PushFault::Misplaced);
        };
        match Transaction::begin_at(RecordList::new(alloc), head, step) {
            Ok(begun) => Ok(begun),
            Err(_) => Err(PushFault::Memory),
        }
    }

    /// The transaction that begins with the record, of which it is known that one does, and which step is after it: the order
    /// isn't asked. It takes the room of that list, whose records are dropped. It fails only for want of memory.
    pub fn begin_at(
        room: RecordList,
        head: RecordRef<'_>,
        step: TransactionStep,
    ) -> Result<Transaction, AllocError>
        requires { IsStepWith [] head step }
        ensures ok { IfOk result (λ t. t ≡ head.entry ∷ []) }
        ensures memory { OnErr result (AsksMemory [] head.entry) }
    {
        let mut records = room;
        records.clear();
        records.push(&head)?;
        Ok(Transaction { step, records })
    }

    /// Its records, whose room another transaction can take.
    pub fn into_records(self) -> RecordList
        ensures { result ≡ self }
    {
        self.records
    }

    /// How many records it has, its header counted.
    #[inline(always)]
    pub fn len(&self) -> usize
        ensures len { result ≡ length self.now }
        ensures begun { IsBegun self.now }
    {
        self.records.len()
    }

    /// Record `i`, from 0: it is borrowed, nothing is copied. `None` where it has no such record.
    #[inline(always)]
    pub fn record(&self, i: usize) -> Option<RecordRef<'_>>
        ensures value { result ≡ slice_get self.now i }
        ensures begun { IsBegun self.now }
    {
        self.records.record(i)
    }

    /// Its canonical text, where it has that number in its group and just that is kept: nothing is copied. `None` says nothing.
    /// `expected` keeps the numbers of the line before, whichever that was.
    pub fn numbered_text(&self, expected: &mut SpelledPair, number: u64) -> Option<&[u8]>
        ensures { IfSome result (λ text. text.now ≡ text_from number 0 self.now) }
    {
        self.records.numbered_text(expected, number)
    }

    /// Adds a record at the end. It is refused as misplaced exactly where no transaction continues so, and for want of
    /// memory only where its list asks for some. A refused one changes nothing.
    #[inline(always)]
    pub fn push(&mut self, next: RecordRef<'_>) -> Result<(), PushFault>
        ensures ok { OnOk result (self.new ≡ self.old ++ next.entry ∷ []) }
        ensures err { OnErr result (self.new ≡ self.old) }
        ensures misplaced { (result ≡ Err PushFault.Misplaced)
            ↔ ¬ BeginsWithOneMore self.old next.entry }
        ensures memory { result ≡ Err PushFault.Memory → AsksMemory self.old next.entry }
    {
        let Some(step) = self.step.next(symbol_of(&next)) else {
            return Err(PushFault::Misplaced);
        };
        match self.push_at(next, step) {
            Ok(()) => Ok(()),
            Err(_) => Err(PushFault::Memory),
        }
    }

    /// Adds a record at the end, of which it is known that it continues the transaction, and which step is after it: the order
    /// isn't asked. It fails only where its list asks for memory, and then nothing changes.
    #[inline(always)]
    pub fn push_at(&mut self, next: RecordRef<'_>, step: TransactionStep) -> Result<(), AllocError>
        requires { IsStepWith self.old next step }
        ensures ok { OnOk result (self.new ≡ self.old ++ next.entry ∷ []) }
        ensures err { OnErr result (self.new ≡ self.old) }
        ensures memory { OnErr result (AsksMemory self.old next.entry) }
    {
        match self.records.push(&next) {
            Ok(()) => {
                self.step = step;
                Ok(())
            }
            Err(fault) => Err(fault),
        }
    }

    /// The kind of its header.
    pub fn kind(&self) -> Kind
        ensures value { Some result ≡ option_map (λ r. r.kind) (slice_get self.now 0) }
        ensures begun { IsBegun self.now }
    {
        match self.records.record(0) {
            Some(header) => header.kind(),
            None => unreachable!(),
        }
    }

    /// Whether its header is of the type.
    pub fn is_of(&self, ty: TransactionType) -> bool
        ensures { IsTrue result ↔ HasHeaderOf ty self.now }
    {
        matches!(
            (ty, self.kind()),
            (TransactionType::Agreement, Kind::Agr)
                | (TransactionType::NewWork, Kind::Nwr)
                | (TransactionType::RevisedWork, Kind::Rev)
                | (TransactionType::Acknowledgement, Kind::Ack)
        )
    }

    /// The step after its records.
    pub fn step(&self) -> TransactionStep
        ensures { IsStepAfter (map symbol_of self.now) result }
    {
        self.step
    }

    /// Whether its records are a whole transaction.
    pub fn complete(&self) -> bool
        ensures whole { IsTrue result ↔ IsWholeTransaction self.now }
        ensures begun { IsBegun self.now }
    {
        self.step.is_whole()
    }
}
