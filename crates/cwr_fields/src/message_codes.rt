//! The codes of acknowledgements and their messages.

ghost use Rattle.std.specs.Prelude.{Some};
ghost use Rattle.std.proofs.Common.{rules};
ghost use Rattle.cwr_fields.specs.declared.tables.Table.TheVariants as tables;
ghost use Rattle.cwr_fields.specs.Format.MessageCodes.{status_code, transaction_statuses, level_code, message_levels};

use crate::coded::Coded;
use crate::tables::Table;
use std::fmt;
use std::fmt::{Display, Formatter, Write};

/// What became of a transaction: the transaction status of ACK. Its table is `Table::Status`.
#[derive(Clone, Copy, Debug, PartialEq, Eq)]
pub enum TransactionStatus {
    /// `CO`, conflict: there is a conflict within the shares.
    Conflict,
    /// `DU`, duplicate: the work has been submitted before.
    Duplicate,
    /// `RA`, transaction accepted: it passed the edits and validations.
    TransactionAccepted,
    /// `AS`, registration accepted: the claim was accepted as it was submitted.
    RegistrationAccepted,
    /// `AC`, registration accepted with changes.
    AcceptedWithChanges,
    /// `SR`, registration accepted, ready for payment.
    ReadyForPayment,
    /// `CR`, registration accepted with changes, ready for payment.
    ChangedReadyForPayment,
    /// `RJ`, rejected: the whole transaction.
    Rejected,
    /// `NP`, no participation: the submitter has none in the recipient's territory.
    NoParticipation,
    /// `RC`, claim rejected.
    ClaimRejected,
}

// Each member with its code.
static STATUS: [(TransactionStatus, &str); 10] = [
    (TransactionStatus::Conflict, "CO"),
    (TransactionStatus::Duplicate, "DU"),
    (TransactionStatus::TransactionAccepted, "RA"),
    (TransactionStatus::RegistrationAccepted, "AS"),
    (TransactionStatus::AcceptedWithChanges, "AC"),
    (TransactionStatus::ReadyForPayment, "SR"),
    (TransactionStatus::ChangedReadyForPayment, "CR"),
    (TransactionStatus::Rejected, "RJ"),
    (TransactionStatus::NoParticipation, "NP"),
    (TransactionStatus::ClaimRejected, "RC"),
];

impl Coded for TransactionStatus {
    const TABLE: Table = Table::Status;

    const CODE_WIDTH: usize = 2;

    ghost TABLE = { tables.Status };

    ghost CODE_WIDTH = { 2 };

    ghost code = { status_code };

    ghost members = { transaction_statuses };

    fn list() -> &'static [(TransactionStatus, &'static str)] {
        &STATUS
    }

    fn position(self) -> usize {
        self as usize
    }

    ghost spells = { λ cell. (λ h. h, λ h. h) };

    ghost within = { Prim.search rules };

    ghost found = { Prim.search rules };
}

impl Display for TransactionStatus {
    ghost output = { λ status. Some (status_code status) };

    fn fmt<W: Write>(&self, f: &mut Formatter<W>) -> fmt::Result {
        f.pad(self.code())
    }
}

/// What a message rejects and what it is about: the message type and the message level of MSG. Its table is
/// `Table::Message`.
#[derive(Clone, Copy, Debug, PartialEq, Eq)]
pub enum MessageLevel {
    /// `E`, the entire file.
    EntireFile,
    /// `G`, a group.
    Group,
    /// `T`, a transaction.
    Transaction,
    /// `R`, a record.
    Record,
    /// `F`, a field.
    Field,
}

// Each member with its code.
static MESSAGE: [(MessageLevel, &str); 5] = [
    (MessageLevel::EntireFile, "E"),
    (MessageLevel::Group, "G"),
    (MessageLevel::Transaction, "T"),
    (MessageLevel::Record, "R"),
    (MessageLevel::Field, "F"),
];

impl Coded for MessageLevel {
    const TABLE: Table = Table::Message;

    const CODE_WIDTH: usize = 1;

    ghost TABLE = { tables.Message };

    ghost CODE_WIDTH = { 1 };

    ghost code = { level_code };

    ghost members = { message_levels };

    fn list() -> &'static [(MessageLevel, &'static str)] {
        &MESSAGE
    }

    fn position(self) -> usize {
        self as usize
    }

    ghost spells = { λ cell. (λ h. h, λ h. h) };

    ghost within = { Prim.search rules };

    ghost found = { Prim.search rules };
}

impl Display for MessageLevel {
    ghost output = { λ level. Some (level_code level) };

    fn fmt<W: Write>(&self, f: &mut Formatter<W>) -> fmt::Result {
        f.pad(self.code())
    }
}
