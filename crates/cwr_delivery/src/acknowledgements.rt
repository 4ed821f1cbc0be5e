//! What an acknowledgement says: what it answers, its status, and the levels of its messages.

ghost use Rattle.std.specs.Prelude.{◌≡◌, Some, true};
ghost use Rattle.std.specs.List.{list_any};
ghost use Rattle.cwr_lines.specs.Format.Records.{cell_named};
ghost use Rattle.cwr_fields.specs.Format.MessageCodes.{status_code};
ghost use Rattle.cwr_values.specs.declared.items.Item.TheVariants as items;
ghost use Rattle.cwr_delivery.specs.Format.Acknowledgements.{has_status, is_ack, is_ack_of, is_answer, is_message, is_message_of, status_in, worst_level};
ghost use Rattle.cwr_delivery.specs.Format.Answering.{group_of, sequence_of};
ghost use Rattle.cwr_delivery.specs.Format.Told.{named_check};

use cwr_fields::{Cell, Coded, Kind, MessageLevel, TransactionStatus, trimmed};
use cwr_findings::{cell, is_of, number_of};
use cwr_lines::RecordRef;
use cwr_sent::title_check;
use cwr_values::Transaction;

/// ACK: creation date.
pub(crate) const CREATION_DATE: u8 = 4;

/// ACK: creation time.
pub(crate) const CREATION_TIME: u8 = 5;

/// ACK: original group ID.
pub const GROUP: u8 = 6;

/// ACK: original transaction sequence.
pub const SEQUENCE: u8 = 7;

/// ACK: original transaction type.
pub const ORIGINAL_TYPE: u8 = 8;

/// ACK: creation title.
pub const TITLE: u8 = 9;

/// ACK: submitter creation number.
pub const SUBMITTER_NUMBER: u8 = 10;

/// ACK: recipient creation number.
pub const RECIPIENT_NUMBER: u8 = 11;

/// ACK: processing date.
pub(crate) const PROCESSING_DATE: u8 = 12;

/// ACK: transaction status.
pub const STATUS: u8 = 13;

/// MSG: message type.
pub const MESSAGE_TYPE: u8 = 4;

/// MSG: original record sequence.
pub const RECORD: u8 = 5;

/// MSG: message record type.
pub const RECORD_TYPE: u8 = 6;

/// MSG: message level.
pub const LEVEL: u8 = 7;

/// MSG: validation number.
pub const VALIDATION: u8 = 8;

/// MSG: message text.
pub const MESSAGE: u8 = 9;

/// Whether a record is the header of an acknowledgement.
pub fn is_ack(shown: &RecordRef<'_>) -> bool
    ensures { result ≡ is_ack shown.now }
{
    is_of(shown, Kind::Ack)
}

/// Whether a record is a message.
pub fn is_message(shown: &RecordRef<'_>) -> bool
    ensures { result ≡ is_message shown.now }
{
    is_of(shown, Kind::Msg)
}

/// The group of the transaction that an acknowledgement answers, from 1.
pub fn group_of(head: &RecordRef<'_>) -> usize
    requires { is_ack head.now ≡ true }
    ensures { result ≡ group_of head.now }
{
    number_of(cell(head, GROUP)) as usize
}

/// The sequence of that transaction, from 0.
pub fn sequence_of(head: &RecordRef<'_>) -> usize
    requires { is_ack head.now ≡ true }
    ensures { result ≡ sequence_of head.now }
{
    number_of(cell(head, SEQUENCE)) as usize
}

/// The check of the title that an acknowledgement names.
pub(crate) fn named_check(head: &RecordRef<'_>) -> u32
    requires { is_ack head.now ≡ true }
    ensures { result ≡ named_check head.now }
{
    title_check(trimmed(cell(head, TITLE)))
}

/// The status that an acknowledgement's header names.
pub fn status_of(shown: &RecordRef<'_>) -> TransactionStatus
    requires { is_ack shown.now ≡ true }
    ensures { Some result ≡ status_in shown.now }
{
    match TransactionStatus::read(cell(shown, STATUS)) {
        Some(status) => status,
        None => unreachable!(),
    }
}

/// Whether a record is the header of an acknowledgement with that status.
fn is_ack_of(status: TransactionStatus, shown: &RecordRef<'_>) -> bool
    ensures { result ≡ is_ack_of status shown.now }
{
    is_ack(shown) && cell(shown, STATUS) == status.code().as_bytes()
}

/// Whether a transaction is an acknowledgement.
pub fn is_answer(transaction: &Transaction) -> bool
    ensures { result ≡ is_answer (items.Transaction transaction.now) }
{
    match transaction.record(0) {
        Some(head) => is_ack(&head),
        None => false,
    }
}

/// Whether a transaction is an acknowledgement with that status.
pub fn has_status(status: TransactionStatus, transaction: &Transaction) -> bool
    ensures { result ≡ has_status status (items.Transaction transaction.now) }
{
    match transaction.record(0) {
        Some(head) => is_ack_of(status, &head),
        None => false,
    }
}

/// Whether a record is a message of that level.
fn is_message_of(level: MessageLevel, shown: &RecordRef<'_>) -> bool
    ensures { result ≡ is_message_of level shown.now }
{
    is_message(shown) && cell(shown, LEVEL) == level.code().as_bytes()
}

/// Whether a message has that level.
fn has_level(level: MessageLevel, transaction: &Transaction) -> bool
    ensures { result ≡ list_any (is_message_of level) transaction.now }
{
    let count = transaction.len();
    let mut found = false;
    let mut i: usize = 0;
    while let Some(shown) = transaction.record(i) {
        prove!(i < count);
        found |= is_message_of(level, &shown);
        i += 1;
    }
    found
}

/// The worst level of a transaction's messages.
pub fn worst_level(transaction: &Transaction) -> Option<MessageLevel>
    ensures { result ≡ worst_level transaction.now }
{
    if has_level(MessageLevel::EntireFile, transaction) {
        Some(MessageLevel::EntireFile)
    } else if has_level(MessageLevel::Group, transaction) {
        Some(MessageLevel::Group)
    } else if has_level(MessageLevel::Transaction, transaction) {
        Some(MessageLevel::Transaction)
    } else if has_level(MessageLevel::Record, transaction) {
        Some(MessageLevel::Record)
    } else if has_level(MessageLevel::Field, transaction) {
        Some(MessageLevel::Field)
    } else {
        None
    }
}
