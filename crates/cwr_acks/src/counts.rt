//! How many acknowledgements there are of each status.

ghost use Rattle.std.specs.Prelude.{◌≡◌, ℕ, ◌+◌, ◌-◌, ◌^◌, ◌<◌, length, min, slice_index};
ghost use Rattle.cwr_values.specs.declared.items.Item.TheVariants as items;
ghost use Rattle.cwr_delivery.specs.Format.Acknowledgements.{has_status, is_answer};
ghost use Rattle.cwr_acks.specs.Steps.AckSteps.{HasRoom, answers_with, no_answers};

use cwr_delivery::{has_status, is_answer};
use cwr_fields::TransactionStatus;
use cwr_values::{Item, Transaction};

/// The statuses, in the order of the table.
pub(crate) const STATUSES: [TransactionStatus; 10] = [
    TransactionStatus::Conflict,
    TransactionStatus::Duplicate,
    TransactionStatus::TransactionAccepted,
    TransactionStatus::RegistrationAccepted,
    TransactionStatus::AcceptedWithChanges,
    TransactionStatus::ReadyForPayment,
    TransactionStatus::ChangedReadyForPayment,
    TransactionStatus::Rejected,
    TransactionStatus::NoParticipation,
    TransactionStatus::ClaimRejected,
];

/// How many acknowledgements there were.
#[derive(Clone, Copy, Debug)]
pub struct Answers {
    /// All of them.
    pub all: u64,
    /// Those of each status, in the order of the table.
    pub by_status: [u64; 10],
}

impl Answers {
    /// There were none.
    pub fn new() -> Self
        ensures { result ≡ no_answers }
    {
        Answers {
            all: 0,
            by_status: [0; 10],
        }
    }

    /// Both together. Each number stays at `u64::MAX`.
    pub fn add(&self, other: &Answers) -> Self
        ensures all { result.all ≡ min (self.now.all + other.now.all) (2 ^ 64 - 1) }
        ensures ten { length result.by_status ≡ 10 }
        ensures each { (k : ℕ) → k < 10 → slice_index result.by_status k ≡ min
            (slice_index self.now.by_status k + slice_index other.now.by_status k) (2 ^ 64 - 1) }
    {
        let mut by_status = [0; 10];
        for i in 0..10 {
            by_status[i] = self.by_status[i].saturating_add(other.by_status[i]);
        }
        Answers {
            all: self.all.saturating_add(other.all),
            by_status,
        }
    }

    /// Counts a transaction, if that is an acknowledgement.
    fn count_transaction(&mut self, transaction: &Transaction)
        requires { HasRoom self.old }
        ensures { self.new ≡ answers_with self.old (items.Transaction transaction.now) }
    {
        if is_answer(transaction) {
            self.all += 1;
        }
        for i in 0..10 {
            if has_status(STATUSES[i], transaction) {
                self.by_status[i] += 1;
            }
        }
    }

    /// Counts one item more.
    pub(crate) fn count_answer(&mut self, item: &Item)
        requires { HasRoom self.old }
        ensures { self.new ≡ answers_with self.old item.now }
    {
        if let Item::Transaction(transaction) = item {
            self.count_transaction(transaction);
        }
    }
}
