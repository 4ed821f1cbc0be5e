//! Readers and writers that count their failures, outputs one after another, and texts that are put to a writer, whole or part by
//! part, with a count of what was written.
#![tactic(auto)]

mod counted;
mod devices;
mod outputs;
mod pens;
mod sinks;
mod sources;

pub use counted::Counted;
pub use devices::{DeviceFault, Source, Target};
pub use outputs::{OutputFault, Outputs};
pub use pens::Pen;
pub use sinks::{Sink, SinkFault};
pub use sources::{InMemory, ReadAhead};
