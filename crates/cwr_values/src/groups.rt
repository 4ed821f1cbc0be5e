//! Groups as values.

ghost use Rattle.std.specs.Prelude.{◌≡◌, ◌↔◌, ◌+◌, ◌++◌, ◌∷◌, [], length, option_copied, slice_get, map, min, nat_lt, position, IsOk, IfOk, IfErr, IfSome};
ghost use Rattle.std.specs.Prelude.{IsTrue, OnOk, Some};
ghost use Rattle.std.specs.Result.{IsErrAnd};
ghost use Rattle.cwr_fields.specs.Format.Growth.{Outgrows};
ghost use Rattle.cwr_lines.specs.Format.Records.{blank_record};
ghost use Rattle.cwr_shape.specs.Format.Numbers.{group_records};
ghost use Rattle.cwr_values.specs.Format.Values.{type_of, IsTransaction};
ghost use Rattle.cwr_values.specs.Format.Begun.{HasHeaderOf, IsBegunGroup, IsWholeTransaction};
ghost use Rattle.cwr_values.specs.Format.ValueFaultTexts.{group_fault_text};

use crate::symbols::symbol_of;
use crate::transactions::Transaction;
use cwr_fields::{Kind, TransactionType, make_room};
use cwr_lines::{Draft, Record};
use cwr_shape::Symbol;
use std::alloc::Global;
use std::error::Error;
use std::fmt::{self, Display, Formatter, Write};
use std::marker::Model;

/// Why a transaction wasn't added to a group: the first of these that holds.
#[derive(Clone, Copy, Debug, PartialEq, Eq)]
pub enum GroupFault {
    /// Its header isn't of the group's type.
    WrongKind,
    /// Its records aren't a whole transaction.
    Incomplete,
    /// Memory for it was refused.
    Memory,
}

impl Display for GroupFault {
    ghost output = { λ fault. Some (group_fault_text fault) };

    fn fmt<O: Write>(&self, f: &mut Formatter<O>) -> fmt::Result {
        match self {
            GroupFault::WrongKind => f.pad("transaction of another kind"),
            GroupFault::Incomplete => f.pad("incomplete transaction"),
            GroupFault::Memory => f.pad("out of memory"),
        }
    }
}

impl Error for GroupFault {}

/// A GRT record in which nothing was set.
fn blank_foot() -> Record
    ensures { result ≡ blank_record Kind.Grt }
{
    match Draft::blank(Kind::Grt).done() {
        Ok(foot) => foot,
        Err(_) => unreachable!(),
    }
}

/// How many transactions there is room for from the first one on.
const FIRST_TRANSACTIONS: usize = 4;

/// A group, or one that has no transaction yet: its GRH record, its transactions, each of the type that GRH names, and
/// its GRT record.
#[derive(Drop)]
pub struct Group {
    head: Record,
    transactions: Vec<Transaction>,
    /// How many transactions there is room for.
    room: usize,
    foot: Record,
}

impl Model for Group {
    ghost use Rattle.cwr_values.specs.Format.Values.{GroupValue};

    ghost Value = { GroupValue };

    ghost use Rattle.std.specs.Prelude.{vec_len, vec_capacity};
    ghost use Rattle.cwr_fields.specs.Steps.Growth.{IsRoom};
    ghost use Rattle.cwr_values.specs.Format.Begun.{IsBegunGroup};

    ghost view = { λ g. record { head = g.head; transactions = g.transactions.items; foot = g.foot } };

    ghost invariant = { λ g. IsBegunGroup (record { head = g.head; transactions = g.transactions.items; foot = g.foot })
        × IsRoom 4 g.room (vec_len g.transactions) (vec_capacity g.transactions) };
}

impl Group {
    /// The group of that GRH record. It has no transaction, and nothing is set in its GRT record. A record that isn't
    /// GRH is handed back.
    pub fn new(alloc: Global, head: Record) -> Result<Group, Record>
        ensures grh { IsOk result ↔ (head.kind ≡ Kind.Grh) }
        ensures ok { IfOk result
            (λ g. g ≡ record { head = head; transactions = []; foot = blank_record Kind.Grt }) }
        ensures err { IfErr result (λ given. given ≡ head) }
    {
        if head.view().kind() != Kind::Grh {
            return Err(head);
        }
        Ok(Group {
            head,
            transactions: Vec::new(alloc),
            room: 0,
            foot: blank_foot(),
        })
    }

    /// Puts another GRT record in the place of the group's. A record that isn't GRT is handed back, and the group stays
    /// as it is.
    pub fn set_foot(&mut self, foot: Record) -> Result<(), Record>
        ensures grt { IsOk result ↔ (foot.kind ≡ Kind.Grt) }
        ensures ok { OnOk result (self.new ≡ record self.old { foot = foot }) }
        ensures err { IfErr result (λ given. (given ≡ foot) × (self.new ≡ self.old)) }
    {
        if foot.view().kind() != Kind::Grt {
            return Err(foot);
        }
        self.foot = foot;
        Ok(())
    }

    /// The type that its GRH record names.
    fn ty(&self) -> TransactionType
        ensures { result ≡ type_of self.now.head }
    {
        match symbol_of(&self.head.view()) {
            Symbol::Grh(ty) => ty,
            _ => unreachable!(),
        }
    }

    /// Adds a transaction at the end. It is refused as of the wrong kind exactly where its header isn't of the group's
    /// type, else as incomplete exactly where it isn't whole, and for want of memory only where the list asks for some. A
    /// refused one is handed back, and the group stays as it is.
    pub fn push(&mut self, transaction: Transaction) -> Result<(), (GroupFault, Transaction)>
        ensures ok { OnOk result (self.new
            ≡ record self.old { transactions = self.old.transactions ++ transaction ∷ [] }) }
        ensures err { IfErr result (λ e. (e.1 ≡ transaction) × (self.new ≡ self.old)) }
        ensures wrong_kind { IsErrAnd result (λ e. e.0 ≡ GroupFault.WrongKind)
            ↔ ¬ HasHeaderOf (type_of self.old.head) transaction }
        ensures incomplete { IsErrAnd result (λ e. e.0 ≡ GroupFault.Incomplete)
            ↔ (HasHeaderOf (type_of self.old.head) transaction × ¬ IsWholeTransaction transaction) }
        ensures memory { IsErrAnd result (λ e. e.0 ≡ GroupFault.Memory)
            → Outgrows 4 (length self.old.transactions) (length self.old.transactions + 1) }
    {
        if !transaction.is_of(self.ty()) {
            return Err((GroupFault::WrongKind, transaction));
        }
        if !transaction.complete() {
            return Err((GroupFault::Incomplete, transaction));
        }
        match make_room(&mut self.transactions, self.room, FIRST_TRANSACTIONS, 1) {
            Ok(room) => {
                self.room = room;
                self.transactions.push_reserved(transaction);
                Ok(())
            }
            Err(_) => Err((GroupFault::Memory, transaction)),
        }
    }

    /// Its GRH record.
    pub fn head(&self) -> &Record
        ensures value { result.now ≡ self.now.head }
        ensures begun { IsBegunGroup self.now }
    {
        &self.head
    }

    /// Its GRT record.
    pub fn foot(&self) -> &Record
        ensures value { result.now ≡ self.now.foot }
        ensures begun { IsBegunGroup self.now }
    {
        &self.foot
    }

    /// How many transactions it has.
    pub fn len(&self) -> usize
        ensures len { result ≡ length self.now.transactions }
        ensures begun { IsBegunGroup self.now }
    {
        self.transactions.len()
    }

    /// Transaction `i`, from 0. `None` where it has no such transaction.
    pub fn transaction(&self, i: usize) -> Option<&Transaction>
        ensures value { option_copied result ≡ slice_get self.now.transactions i }
        ensures in_order { IfSome result (λ t. IsTransaction (type_of self.now.head) t.now) }
        ensures begun { IsBegunGroup self.now }
    {
        self.transactions.get(i)
    }

    /// How many records it has, GRH and GRT counted. At `usize::MAX` it has that many or more.
    pub(crate) fn records(&self) -> usize
        ensures { result ≡ min (group_records (map length self.now.transactions)) usize.MAX }
    {
        let mut records: usize = 2;
        for transaction in &self.transactions {
            records = records.saturating_add(transaction.len());
        }
        records
    }

    /// The first transaction of more records than the limit, by its index. `None` where there is none.
    pub(crate) fn first_longer(&self, limit: usize) -> Option<usize>
        ensures { result ≡ position (λ t. nat_lt limit (length t)) self.now.transactions }
    {
        self.transactions
            .iter()
            .position(|transaction| transaction.len() > limit)
    }
}
