//! Transactions, groups and transmissions as values.
#![tactic(auto)]

mod groups;
mod items;
pub mod laws;
mod symbols;
mod transactions;
mod transmissions;

pub use groups::{Group, GroupFault};
pub use items::Item;
pub use symbols::symbol_of;
pub use transactions::{PushFault, Transaction};
pub use transmissions::{Transmission, TransmissionFault, ValueFault};
