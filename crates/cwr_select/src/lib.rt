//! Some transactions of a transmission, as a transmission of their own.
#![tactic(auto)]

mod changes;
mod choices;
mod copies;
mod criteria;
mod headers;
mod held;
mod laws;
mod listed;
mod parties;
mod reports;
mod selecting;
mod selection;
mod sent;
mod viewing;

pub use changes::{Changes, WorkKind};
pub use choices::{Both, Chooses, Others, Turned};
pub use criteria::{ByKind, ByNumber, ByPlace, number_cell, number_of};
pub use laws::{all_is_selected, chosen_are_selected, selection_is_accepted};
pub use listed::Listed;
pub use parties::ByParty;
pub use reports::SelectReport;
pub use selection::{select, select_viewed};
pub use viewing::SelectViewer;
