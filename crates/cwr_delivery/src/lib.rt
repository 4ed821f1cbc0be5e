//! What was sent with what came back: which transaction an acknowledgement answers, and what is kept of the answers.
#![tactic(auto)]

mod acknowledgements;
mod deliveries;
pub mod laws;
mod outcomes;

pub use acknowledgements::{
    GROUP, LEVEL, MESSAGE, MESSAGE_TYPE, ORIGINAL_TYPE, RECIPIENT_NUMBER, RECORD, RECORD_TYPE,
    SEQUENCE, STATUS, SUBMITTER_NUMBER, TITLE, VALIDATION, group_of, has_status, is_ack, is_answer,
    is_message, sequence_of, status_of, worst_level,
};
pub use deliveries::{Delivery, Tally};
pub use outcomes::{Notes, Outcome, wants_answer};
