//! How a run of the program ends: by its verdict, by what follows the transmission, by findings, and by what it writes.
#![tactic(auto)]

mod endings;
mod finding_notes;
mod judgements;
mod looks;
mod stops;
mod sums;
mod written;

pub use endings::{
    Look, Status, Wanted, ended_by, follows, good_status, settle, status_by, status_of,
};
pub use finding_notes::{
    tell_findings, tell_profile, tell_unjoined, tell_unwritten, worse_level, worst_level,
};
pub use judgements::{
    Judgement, judgement_of, look_after, tell_characters, tell_unanswering, tell_verdict,
};
pub use looks::{look_beyond, tell_following};
pub use stops::Stop;
pub use sums::Sums;
pub use written::{hand_on, refuse_out};
