//! Transmissions as values.

ghost use Rattle.std.specs.Prelude.{◌≡◌, ◌↔◌, ◌+◌, ◌<◌, ◌++◌, ◌∷◌, [], length, option_copied, slice_get, Some, min, IsOk, IfOk, IfErr, IfSome, OnOk};
ghost use Rattle.std.specs.Result.{IsErrAnd};
ghost use Rattle.cwr_fields.specs.Format.Growth.{Outgrows};
ghost use Rattle.cwr_values.specs.Format.Values.{FitsIn, IsGroup, IsTransmission};
ghost use Rattle.cwr_values.specs.Format.Begun.{IsBegunTransmission};
ghost use Rattle.cwr_values.specs.Format.Rows.{rows};
ghost use Rattle.cwr_values.specs.Format.Fits.{first_too_long, value_fault};
ghost use Rattle.cwr_values.specs.Format.ValueFaultTexts.{transmission_fault_text, value_fault_text};

use crate::groups::Group;
use cwr_fields::{Kind, make_room};
use cwr_lines::Record;
use cwr_shape::Limits;
use std::alloc::Global;
use std::error::Error;
use std::fmt::{self, Display, Formatter, Write};
use std::marker::Model;

/// Why a group wasn't added to a transmission: the first of these that holds.
#[derive(Clone, Copy, Debug, PartialEq, Eq)]
pub enum TransmissionFault {
    /// It has no transaction.
    Empty,
    /// Memory for it was refused.
    Memory,
}

impl Display for TransmissionFault {
    ghost output = { λ fault. Some (transmission_fault_text fault) };

    fn fmt<O: Write>(&self, f: &mut Formatter<O>) -> fmt::Result {
        match self {
            TransmissionFault::Empty => f.pad("group without transaction"),
            TransmissionFault::Memory => f.pad("out of memory"),
        }
    }
}

impl Error for TransmissionFault {}

/// Why a transmission doesn't fit limits: the first of these that holds.
#[derive(Clone, Copy, Debug, PartialEq, Eq)]
pub enum ValueFault {
    /// It has no group.
    NoGroup,
    /// It has too many records.
    Records,
    /// It has too many groups.
    Groups,
    /// A transaction has too many records. The indices, from 0, are those of the first such one.
    Transaction {
        /// The index of its group.
        group: usize,
        /// Its index in the group.
        transaction: usize,
    },
}

impl Display for ValueFault {
    ghost output = { λ fault. Some (value_fault_text fault) };

    fn fmt<O: Write>(&self, f: &mut Formatter<O>) -> fmt::Result {
        match self {
            ValueFault::NoGroup => f.pad("no group"),
            ValueFault::Records => f.pad("too many records"),
            ValueFault::Groups => f.pad("too many groups"),
            ValueFault::Transaction { group, transaction } => {
                write!(
                    f,
                    "group {group}, transaction {transaction}: too many records"
                )
            }
        }
    }
}

impl Error for ValueFault {}

/// How many groups there is room for from the first one on.
const FIRST_GROUPS: usize = 4;

/// A transmission, or one that has no group yet: its HDR record and its groups, each with a transaction.
#[derive(Drop)]
pub struct Transmission {
    opening: Record,
    groups: Vec<Group>,
    /// How many groups there is room for.
    room: usize,
}

impl Model for Transmission {
    ghost use Rattle.cwr_values.specs.Format.Values.{TransmissionValue};

    ghost Value = { TransmissionValue };

    ghost use Rattle.std.specs.Prelude.{vec_len, vec_capacity};
    ghost use Rattle.cwr_fields.specs.Steps.Growth.{IsRoom};
    ghost use Rattle.cwr_values.specs.Format.Begun.{IsBegunTransmission};

    ghost view = { λ t. record { opening = t.opening; groups = t.groups.items } };

    ghost invariant = { λ t. IsBegunTransmission (record { opening = t.opening; groups = t.groups.items })
        × IsRoom 4 t.room (vec_len t.groups) (vec_capacity t.groups) };
}

impl Transmission {
    /// The transmission of that HDR record, without a group. A record that isn't HDR is handed back.
    pub fn new(alloc: Global, opening: Record) -> Result<Transmission, Record>
        ensures hdr { IsOk result ↔ (opening.kind ≡ Kind.Hdr) }
        ensures ok { IfOk result (λ t. t ≡ record { opening = opening; groups = [] }) }
        ensures err { IfErr result (λ given. given ≡ opening) }
    {
        if opening.view().kind() != Kind::Hdr {
            return Err(opening);
        }
        Ok(Transmission {
            opening,
            groups: Vec::new(alloc),
            room: 0,
        })
    }

    /// Adds a group at the end. It is refused as empty exactly where it has no transaction, and for want of memory only
    /// where the list asks for some. A refused one is handed back, and the transmission stays as it is.
    pub fn push(&mut self, group: Group) -> Result<(), (TransmissionFault, Group)>
        ensures ok { OnOk result
            (self.new ≡ record self.old { groups = self.old.groups ++ group ∷ [] }) }
        ensures err { IfErr result (λ e. (e.1 ≡ group) × (self.new ≡ self.old)) }
        ensures empty { IsErrAnd result (λ e. e.0 ≡ TransmissionFault.Empty)
            ↔ (length group.transactions ≡ 0) }
        ensures memory { IsErrAnd result (λ e. e.0 ≡ TransmissionFault.Memory)
            → Outgrows 4 (length self.old.groups) (length self.old.groups + 1) }
    {
        if group.len() == 0 {
            return Err((TransmissionFault::Empty, group));
        }
        match make_room(&mut self.groups, self.room, FIRST_GROUPS, 1) {
            Ok(room) => {
                self.room = room;
                self.groups.push_reserved(group);
                Ok(())
            }
            Err(_) => Err((TransmissionFault::Memory, group)),
        }
    }

    /// Its HDR record.
    pub fn open(&self) -> &Record
        ensures value { result.now ≡ self.now.opening }
        ensures begun { IsBegunTransmission self.now }
    {
        &self.opening
    }

    /// How many groups it has.
    pub fn len(&self) -> usize
        ensures len { result ≡ length self.now.groups }
        ensures begun { IsBegunTransmission self.now }
    {
        self.groups.len()
    }

    /// Group `i`, from 0. `None` where it has no such group.
    pub fn group(&self, i: usize) -> Option<&Group>
        ensures value { option_copied result ≡ slice_get self.now.groups i }
        ensures in_order { IfSome result (λ g. IsGroup g.now) }
        ensures begun { IsBegunTransmission self.now }
    {
        self.groups.get(i)
    }

    /// How many records it has, HDR and TRL counted. At `usize::MAX` it has that many or more.
    fn records(&self) -> usize
        ensures { result ≡ min (length (rows self.now)) usize.MAX }
    {
        let mut records: usize = 2;
        for group in &self.groups {
            records = records.saturating_add(group.records());
        }
        records
    }

    /// The first transaction of more records than the limit, as the fault that it is.
    fn first_too_long(&self, limit: usize) -> Option<ValueFault>
        ensures { result ≡ first_too_long limit self.now }
    {
        for (group, kept) in self.groups.iter().enumerate() {
            if let Some(transaction) = kept.first_longer(limit) {
                return Some(ValueFault::Transaction { group, transaction });
            }
        }
        None
    }

    /// The first limit that it doesn't keep to.
    fn value_fault(&self, limits: Limits) -> Option<ValueFault>
        ensures value { result ≡ value_fault limits self.now }
        ensures begun { IsBegunTransmission self.now }
    {
        if self.groups.is_empty() {
            Some(ValueFault::NoGroup)
        } else if self.records() > limits.records() as usize {
            Some(ValueFault::Records)
        } else if self.groups.len() > limits.groups() as usize {
            Some(ValueFault::Groups)
        } else {
            self.first_too_long(limits.transaction() as usize)
        }
    }

    /// Whether it has a group and is within the limits. Where it isn't, the first fault is reported.
    pub fn fits(&self, limits: Limits) -> Result<(), ValueFault>
        ensures within { IsOk result ↔ ((0 < length self.now.groups) × FitsIn limits self.now) }
        ensures fault { IfErr result (λ e. value_fault limits self.now ≡ Some e) }
        ensures in_order { OnOk result (IsTransmission self.now) }
    {
        match self.value_fault(limits) {
            Some(fault) => Err(fault),
            None => Ok(()),
        }
    }
}
