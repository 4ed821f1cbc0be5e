//! The codes that the order of records depends on.

ghost use Rattle.std.specs.Prelude.{Some};
ghost use Rattle.std.proofs.Common.{rules};
ghost use Rattle.cwr_fields.specs.declared.tables.Table.TheVariants as tables;
ghost use Rattle.cwr_fields.specs.Format.Codes.{role_code, roles, type_code, transaction_types};

use crate::coded::Coded;
use crate::tables::Table;
use std::fmt;
use std::fmt::{Display, Formatter, Write};

/// The side of a party to an agreement: the agreement role code of IPA.
#[derive(Clone, Copy, Debug, PartialEq, Eq)]
pub enum Role {
    /// `AS`, who gives the rights.
    Assignor,
    /// `AC`, who takes them.
    Acquirer,
}

// Each member with its code.
static ROLE: [(Role, &str); 2] = [(Role::Assignor, "AS"), (Role::Acquirer, "AC")];

impl Coded for Role {
    const TABLE: Table = Table::Role;

    const CODE_WIDTH: usize = 2;

    ghost TABLE = { tables.Role };

    ghost CODE_WIDTH = { 2 };

    ghost code = { role_code };

    ghost members = { roles };

    fn list() -> &'static [(Role, &'static str)] {
        &ROLE
    }

    fn position(self) -> usize {
        self as usize
    }

    ghost spells = { λ cell. (λ h. h, λ h. h) };

    ghost within = { Prim.search rules };

    ghost found = { Prim.search rules };
}

impl Display for Role {
    ghost output = { λ role. Some (role_code role) };

    fn fmt<W: Write>(&self, f: &mut Formatter<W>) -> fmt::Result {
        f.pad(self.code())
    }
}

/// The type of a group's transactions, by the kind of their first record: the transaction type of GRH.
#[derive(Clone, Copy, Debug, PartialEq, Eq)]
pub enum TransactionType {
    /// `AGR`, an agreement supporting works registration.
    Agreement,
    /// `NWR`, a new works registration.
    NewWork,
    /// `REV`, a revised registration.
    RevisedWork,
    /// `ACK`, the acknowledgement of a transaction.
    Acknowledgement,
}

// Each member with its code.
static TRANSACTION_TYPE: [(TransactionType, &str); 4] = [
    (TransactionType::Agreement, "AGR"),
    (TransactionType::NewWork, "NWR"),
    (TransactionType::RevisedWork, "REV"),
    (TransactionType::Acknowledgement, "ACK"),
];

impl Coded for TransactionType {
    const TABLE: Table = Table::TransactionType;

    const CODE_WIDTH: usize = 3;

    ghost TABLE = { tables.TransactionType };

    ghost CODE_WIDTH = { 3 };

    ghost code = { type_code };

    ghost members = { transaction_types };

    fn list() -> &'static [(TransactionType, &'static str)] {
        &TRANSACTION_TYPE
    }

    fn position(self) -> usize {
        self as usize
    }

    ghost spells = { λ cell. (λ h. h, λ h. h) };

    ghost within = { Prim.search rules };

    ghost found = { Prim.search rules };
}

impl Display for TransactionType {
    ghost output = { λ ty. Some (type_code ty) };

    fn fmt<W: Write>(&self, f: &mut Formatter<W>) -> fmt::Result {
        f.pad(self.code())
    }
}
