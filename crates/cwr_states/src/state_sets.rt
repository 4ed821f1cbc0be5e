//! Sets of states.

ghost use Rattle.std.specs.Prelude.{◌≡◌, ◌||◌};
ghost use Rattle.std.specs.Str.{bytes_eq};
ghost use Rattle.cwr_states.specs.Format.StateNames.{name_of};
ghost use Rattle.cwr_states.specs.Format.StateSets.{has, no_states, states_in, with_state};

use crate::outcomes::State;

/// A set of states.
#[derive(Clone, Copy, Debug, PartialEq, Eq)]
pub struct States {
    accepted: bool,
    pending: bool,
    rejected: bool,
    conflict: bool,
    duplicate: bool,
    claim_rejected: bool,
    no_participation: bool,
    unanswered: bool,
}

impl States {
    /// None of them.
    pub fn none() -> States
        ensures { result ≡ no_states }
    {
        States {
            accepted: false,
            pending: false,
            rejected: false,
            conflict: false,
            duplicate: false,
            claim_rejected: false,
            no_participation: false,
            unanswered: false,
        }
    }

    /// These, and that state.
    pub fn with(self, state: State) -> States
        ensures value { result ≡ with_state self state }
        ensures others { (other : State) → has result other
            ≡ (bytes_eq (name_of other) (name_of state) || has self other) }
    {
        match state {
            State::Accepted => States {
                accepted: true,
                ..self
            },
            State::Pending => States {
                pending: true,
                ..self
            },
            State::Rejected => States {
                rejected: true,
                ..self
            },
            State::Conflict => States {
                conflict: true,
                ..self
            },
            State::Duplicate => States {
                duplicate: true,
                ..self
            },
            State::ClaimRejected => States {
                claim_rejected: true,
                ..self
            },
            State::NoParticipation => States {
                no_participation: true,
                ..self
            },
            State::Unanswered => States {
                unanswered: true,
                ..self
            },
        }
    }

    /// Whether the state is one of these.
    pub fn contains(self, state: State) -> bool
        ensures { result ≡ has self state }
    {
        match state {
            State::Accepted => self.accepted,
            State::Pending => self.pending,
            State::Rejected => self.rejected,
            State::Conflict => self.conflict,
            State::Duplicate => self.duplicate,
            State::ClaimRejected => self.claim_rejected,
            State::NoParticipation => self.no_participation,
            State::Unanswered => self.unanswered,
        }
    }

    /// The states of these names, which stand with commas between them. `None` where one is no state's, as an empty one isn't.
    pub fn read(names: &str) -> Option<States>
        ensures { result ≡ states_in names.now }
    {
        let mut states = States::none();
        let mut rest = names;
        while let Some((name, after)) = rest.split_once(',') {
            states = states.with(State::named(name)?);
            rest = after;
        }
        Some(states.with(State::named(rest)?))
    }
}
