//! The answers that are kept of transactions that were sent, and which of two by one sender counts.

ghost use Rattle.std.specs.Prelude.{◌≡◌, ◌++◌, length};
ghost use Rattle.cwr_sent.specs.Format.Answers.{counts_over, counts_same_day, is_pending, same_sender};
ghost use Rattle.cwr_sent.specs.Format.GroupRows.{answer_in, file_by, file_of, no_file};
ghost use Rattle.cwr_sent.specs.Format.SentFacts.{sender_of};
ghost use Rattle.cwr_sent.specs.Steps.Links.{counting_kept};

use crate::created::{Created, NEVER};
use cwr_fields::{Kind, MessageLevel, TransactionStatus};
use cwr_findings::{cell, is_of};
use cwr_lines::RecordRef;

/// A transmission of acknowledgements: who sent it, and when it was created.
#[derive(Clone, Copy, Debug)]
pub struct AnsweringFile {
    /// HDR's sender type, 2 bytes, and sender ID, 9 bytes.
    pub sender: [u8; 11],
    /// When it was created.
    pub created: Created,
}

/// HDR: sender type.
const SENDER_TYPE: u8 = 2;

/// HDR: sender ID.
const SENDER_ID: u8 = 3;

/// What stands for a sender that isn't known.
const NO_SENDER: [u8; 11] = [b' '; 11];

/// What stands for the transmission that isn't there.
const NO_FILE: AnsweringFile = AnsweringFile {
    sender: NO_SENDER,
    created: NEVER,
};

/// A sender's type and ID.
fn joined(sender_type: &[u8], sender_id: &[u8]) -> [u8; 11]
    requires short { length sender_type.now ≡ 2 }
    requires long { length sender_id.now ≡ 9 }
    ensures { result ≡ sender_type.now ++ sender_id.now }
{
    let mut both = NO_SENDER;
    both[..2].copy_from_slice(sender_type);
    both[2..].copy_from_slice(sender_id);
    both
}

/// The sender that an HDR record names.
fn sender_of(opening: &RecordRef<'_>) -> [u8; 11]
    ensures { result ≡ sender_of opening.now }
{
    if !is_of(opening, Kind::Hdr) {
        return NO_SENDER;
    }
    joined(cell(opening, SENDER_TYPE), cell(opening, SENDER_ID))
}

impl AnsweringFile {
    /// That which an HDR record opens.
    pub fn of(opening: &RecordRef<'_>) -> Self
        ensures { result ≡ file_by opening.now }
    {
        AnsweringFile {
            sender: sender_of(opening),
            created: Created::of(opening),
        }
    }

    /// What stands for one that isn't there.
    pub fn none() -> Self
        ensures { result ≡ no_file }
    {
        NO_FILE
    }
}

/// What is kept of an acknowledgement of a transaction that was sent.
#[derive(Clone, Copy, Debug)]
pub struct KeptAnswer {
    /// The number, from 0, of the transmission in which it stands.
    pub file: u32,
    /// The processing date, as the number of its eight digits; 0 where it is blank.
    pub processed: u32,
    /// The transaction status.
    pub status: TransactionStatus,
    /// The worst level of its messages, if there are any.
    pub level: Option<MessageLevel>,
    /// The recipient's number of the work, filled up with spaces.
    pub recipient: [u8; 20],
}

/// The transmission in which an answer stands.
pub fn file_of(files: &[AnsweringFile], kept: &KeptAnswer) -> AnsweringFile
    ensures { result ≡ file_of files.now kept.now }
{
    match files.get(kept.file as usize) {
        Some(file) => *file,
        None => NO_FILE,
    }
}

/// Whether two answers come from one sender.
pub(crate) fn same_sender(files: &[AnsweringFile], one: &KeptAnswer, other: &KeptAnswer) -> bool
    ensures { result
        ≡ same_sender (answer_in files.now one.now) (answer_in files.now other.now) }
{
    file_of(files, one).sender == file_of(files, other).sender
}

/// Whether a status says that the transaction is taken for processing, and no more.
fn is_pending(status: TransactionStatus) -> bool
    ensures { result ≡ is_pending status }
{
    matches!(status, TransactionStatus::TransactionAccepted)
}

/// Whether the later of two answers that were processed on one day counts.
fn counts_same_day(files: &[AnsweringFile], old: &KeptAnswer, new: &KeptAnswer) -> bool
    ensures { result
        ≡ counts_same_day (answer_in files.now old.now) (answer_in files.now new.now) }
{
    let is_earlier = file_of(files, new)
        .created
        .is_before(&file_of(files, old).created);
    if is_pending(old.status) {
        !(is_pending(new.status) && is_earlier)
    } else {
        !is_pending(new.status) && !is_earlier
    }
}

/// Whether the later of two answers by one sender to one transaction counts.
fn counts_over(files: &[AnsweringFile], old: &KeptAnswer, new: &KeptAnswer) -> bool
    ensures { result ≡ counts_over (answer_in files.now old.now) (answer_in files.now new.now) }
{
    if old.processed == new.processed {
        counts_same_day(files, old, new)
    } else {
        old.processed < new.processed
    }
}

/// Of two answers by one sender to one transaction that which counts.
pub(crate) fn counting_kept(
    files: &[AnsweringFile],
    new: &KeptAnswer,
    old: &KeptAnswer,
) -> KeptAnswer
    ensures { result ≡ counting_kept files.now new.now old.now }
{
    if counts_over(files, old, new) {
        *new
    } else {
        *old
    }
}
