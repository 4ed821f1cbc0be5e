//! What becomes of a transaction that is sent.

ghost use Rattle.std.specs.Prelude.{◌≡◌};
ghost use Rattle.cwr_states.specs.Format.StateNames.{name_of, state_named, state_of};

use cwr_fields::TransactionStatus;

/// What became of a transaction that was sent.
#[derive(Clone, Copy, Debug, PartialEq, Eq)]
pub enum State {
    /// It is registered: its status is AS, AC, SR or CR.
    Accepted,
    /// It is accepted for processing, and not registered yet: its status is RA.
    Pending,
    /// It is rejected: RJ.
    Rejected,
    /// There is a conflict within the shares: CO.
    Conflict,
    /// The work was sent before: DU.
    Duplicate,
    /// The claim is rejected, and not the work: RC.
    ClaimRejected,
    /// The submitter has no participation in the recipient's territory: NP.
    NoParticipation,
    /// No acknowledgement answers it.
    Unanswered,
}

impl State {
    /// What the status of an acknowledgement says of the transaction that it answers.
    pub fn of(status: TransactionStatus) -> State
        ensures { result ≡ state_of status }
    {
        match status {
            TransactionStatus::RegistrationAccepted
            | TransactionStatus::AcceptedWithChanges
            | TransactionStatus::ReadyForPayment
            | TransactionStatus::ChangedReadyForPayment => State::Accepted,
            TransactionStatus::TransactionAccepted => State::Pending,
            TransactionStatus::Rejected => State::Rejected,
            TransactionStatus::Conflict => State::Conflict,
            TransactionStatus::Duplicate => State::Duplicate,
            TransactionStatus::ClaimRejected => State::ClaimRejected,
            TransactionStatus::NoParticipation => State::NoParticipation,
        }
    }

    /// Its name, as tables and words have it.
    pub fn name(self) -> &'static str
        ensures { result.now ≡ name_of self }
    {
        match self {
            State::Accepted => "accepted",
            State::Pending => "pending",
            State::Rejected => "rejected",
            State::Conflict => "conflict",
            State::Duplicate => "duplicate",
            State::ClaimRejected => "claim-rejected",
            State::NoParticipation => "no-participation",
            State::Unanswered => "unanswered",
        }
    }

    /// The state of that name.
    pub fn named(name: &str) -> Option<State>
        ensures { result ≡ state_named name.now }
    {
        match name {
            "accepted" => Some(State::Accepted),
            "pending" => Some(State::Pending),
            "rejected" => Some(State::Rejected),
            "conflict" => Some(State::Conflict),
            "duplicate" => Some(State::Duplicate),
            "claim-rejected" => Some(State::ClaimRejected),
            "no-participation" => Some(State::NoParticipation),
            "unanswered" => Some(State::Unanswered),
            _ => None,
        }
    }
}
