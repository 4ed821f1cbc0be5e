//! What becomes of transactions that are sent: states, by the statuses of acknowledgements, and sets of states.
#![tactic(auto)]

mod outcomes;
mod state_sets;

pub use outcomes::State;
pub use state_sets::States;
