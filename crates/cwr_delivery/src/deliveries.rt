//! What was sent, with the answers that are kept.

ghost use Rattle.std.specs.Prelude.{◌≡◌, ◌-◌, ◌<◌, ◌++◌, ◌∷◌, [], IfOk, OnOk, OnErr, length, map, slice_get, true};
ghost use Rattle.cwr_sent.specs.Format.GroupRows.{file_by};
ghost use Rattle.cwr_sent.specs.Format.SentRows.{shown_in};
ghost use Rattle.cwr_delivery.specs.Format.Acknowledgements.{is_ack};
ghost use Rattle.cwr_delivery.specs.Format.Answering.{group_of, sequence_of};
ghost use Rattle.cwr_delivery.specs.Steps.Deliveries.{again_for, again_in, held_in, is_unclear, is_unsent, kept_for, kept_for_one, kept_of, notes_held, nothing_held};
ghost use Rattle.cwr_delivery.specs.Steps.Deliveries.{one_more_if, taken_with, tally_with};

use crate::acknowledgements::{
    PROCESSING_DATE, RECIPIENT_NUMBER, group_of, sequence_of, status_of, worst_level,
};
use crate::outcomes::{Notes, Outcome, is_retitled, is_unkeyed, outcome_of};
use cwr_findings::cell;
use cwr_lines::RecordRef;
use cwr_sent::{AnsweringFile, KeptAnswer, Sent, small_number};
use cwr_values::Transaction;
use std::alloc::{AllocError, Global};

/// How many acknowledgements answer nothing, and how many have no key. Each number stays at `u64::MAX`.
#[derive(Clone, Copy, Debug)]
pub struct Tally {
    /// Those that answer nothing that was sent, or a transaction of another type or number.
    pub unsent: u64,
    /// Those that agree with several transactions.
    pub unclear: u64,
    /// Those that don't say when the transmission was created that they answer, where that is looked at.
    pub unkeyed: u64,
}

/// What was sent, and what is kept of the answers to it.
#[derive(Drop)]
pub struct Delivery {
    by_place: bool,
    sent: Vec<Sent>,
    /// The transmissions of acknowledgements; the first stands for none.
    files: Vec<AnsweringFile>,
    tally: Tally,
}

/// One more, where that is to be counted.
fn one_more_if(counted: bool, number: u64) -> u64
    ensures { result ≡ one_more_if counted number }
{
    if counted {
        number.saturating_add(1)
    } else {
        number
    }
}

/// Whether what an acknowledgement answers wasn't sent as it says.
fn is_unsent(outcome: &Outcome) -> bool
    ensures { result ≡ is_unsent outcome.now }
{
    match outcome {
        Outcome::Unsent | Outcome::Retyped(_) | Outcome::Renumbered(_) => true,
        Outcome::Answers { .. } | Outcome::Unclear => false,
    }
}

/// Whether it agrees with several transactions.
fn is_unclear(outcome: &Outcome) -> bool
    ensures { result ≡ is_unclear outcome.now }
{
    matches!(outcome, Outcome::Unclear)
}

impl Tally {
    /// With one acknowledgement more.
    fn with(&self, unkeyed: bool, outcome: &Outcome) -> Tally
        ensures { result ≡ tally_with self.now unkeyed outcome.now }
    {
        Tally {
            unsent: one_more_if(is_unsent(outcome), self.unsent),
            unclear: one_more_if(is_unclear(outcome), self.unclear),
            unkeyed: one_more_if(unkeyed, self.unkeyed),
        }
    }
}

/// Bytes of that width, copied.
fn copied(cell: &[u8]) -> [u8; 20]
    requires { length cell.now ≡ 20 }
    ensures { result ≡ cell.now }
{
    let mut copy = [b' '; 20];
    copy.copy_from_slice(cell);
    copy
}

/// What is kept of an acknowledgement in the last of the transmissions.
fn kept_of(
    files: &[AnsweringFile],
    head: &RecordRef<'_>,
    transaction: &Transaction,
) -> Result<KeptAnswer, AllocError>
    requires { is_ack head.now ≡ true }
    ensures { IfOk result (λ kept. kept ≡ kept_of files.now head.now transaction.now) }
{
    let Ok(file) = u32::try_from(files.len().saturating_sub(1)) else {
        return Err(AllocError);
    };
    Ok(KeptAnswer {
        file,
        processed: small_number(cell(head, PROCESSING_DATE)),
        status: status_of(head),
        level: worst_level(transaction),
        recipient: copied(cell(head, RECIPIENT_NUMBER)),
    })
}

/// Keeps an answer in the transmission of that number, where there is one. Answers whether one by the same sender was kept. Where memory
/// is refused, nothing is changed.
fn keep_in(
    sent: &mut [Sent],
    files: &[AnsweringFile],
    i: usize,
    head: &RecordRef<'_>,
    new: &KeptAnswer,
) -> Result<bool, AllocError>
    requires { is_ack head.now ≡ true }
    ensures kept { OnOk result (map shown_in sent.new ≡ kept_for_one files.now (group_of head.now - 1)
        (sequence_of head.now) new.now (map shown_in sent.old) i (slice_get (map shown_in sent.old) i)) }
    ensures again { IfOk result (λ again. again ≡ again_in files.now (group_of head.now - 1)
        (sequence_of head.now) new.now (slice_get (map shown_in sent.old) i)) }
    ensures unchanged { OnErr result (map shown_in sent.new ≡ map shown_in sent.old) }
{
    if i >= sent.len() {
        return Ok(false);
    }
    let group = group_of(head).saturating_sub(1);
    sent[i].keep(files, group, sequence_of(head), new)
}

impl Delivery {
    /// Nothing was sent so far. Acknowledgements are matched by the place that they name alone, or by the transmission too.
    pub fn new(alloc: Global, by_place: bool) -> Result<Self, AllocError>
        ensures { IfOk result (λ d. held_in d ≡ nothing_held by_place) }
    {
        let mut files = Vec::new(alloc);
        files.push(AnsweringFile::none())?;
        Ok(Delivery {
            by_place,
            sent: Vec::new(alloc),
            files,
            tally: Tally {
                unsent: 0,
                unclear: 0,
                unkeyed: 0,
            },
        })
    }

    /// Takes a transmission more that was sent.
    pub fn add(&mut self, sent: Sent) -> Result<(), AllocError>
        ensures { OnOk result (held_in self.new ≡ record (held_in self.old) {
          sent = (held_in self.old).sent ++ shown_in sent ∷ [];
        }) }
    {
        self.sent.push(sent)?;
        Ok(())
    }

    /// Takes a transmission of acknowledgements more, which that HDR record opens.
    pub fn open(&mut self, opening: &RecordRef<'_>) -> Result<(), AllocError>
        ensures { OnOk result (held_in self.new ≡ record (held_in self.old) {
          files = (held_in self.old).files ++ file_by opening.now ∷ [];
        }) }
    {
        self.files.push(AnsweringFile::of(opening))?;
        Ok(())
    }

    /// Keeps an acknowledgement with that outcome. Answers whether one by the same sender was kept.
    fn keep(
        &mut self,
        outcome: &Outcome,
        head: &RecordRef<'_>,
        transaction: &Transaction,
    ) -> Result<bool, AllocError>
        requires { is_ack head.now ≡ true }
        ensures kept { OnOk result (held_in self.new ≡ record (held_in self.old) {
          sent = kept_for (held_in self.old) outcome.now head.now transaction.now;
        }) }
        ensures again { IfOk result (λ again.
            again ≡ again_for (held_in self.old) outcome.now head.now transaction.now) }
    {
        let Outcome::Answers { sent, .. } = outcome else {
            return Ok(false);
        };
        let new = kept_of(&self.files, head, transaction)?;
        keep_in(&mut self.sent, &self.files, *sent, head, &new)
    }

    /// Takes an acknowledgement of the transmission that was opened last, and says what is told of it beside what it says.
    pub fn take(
        &mut self,
        head: &RecordRef<'_>,
        transaction: &Transaction,
    ) -> Result<Notes, AllocError>
        requires { is_ack head.now ≡ true }
        ensures taken { OnOk result
            (held_in self.new ≡ taken_with (held_in self.old) head.now transaction.now) }
        ensures notes { IfOk result
            (λ notes. notes ≡ notes_held (held_in self.old) head.now transaction.now) }
    {
        let outcome = outcome_of(self.by_place, &self.sent, head);
        let again = self.keep(&outcome, head, transaction)?;
        let unkeyed = is_unkeyed(self.by_place, head);
        self.tally = self.tally.with(unkeyed, &outcome);
        Ok(Notes {
            unkeyed,
            outcome,
            retitled: is_retitled(&outcome, head),
            again,
        })
    }

    /// The transmissions that were sent.
    pub fn sent(&self) -> &[Sent]
        ensures { map shown_in result.now ≡ (held_in self.now).sent }
    {
        self.sent.as_slice()
    }

    /// The transmissions of acknowledgements. The first stands for none.
    pub fn files(&self) -> &[AnsweringFile]
        ensures { result.now ≡ (held_in self.now).files }
    {
        self.files.as_slice()
    }

    /// How many acknowledgements answer nothing, and how many have no key.
    pub fn tally(&self) -> Tally
        ensures { result ≡ (held_in self.now).tally }
    {
        self.tally
    }
}
