//! The inputs and outputs of a run: files, standard input and standard output, with what is told of them where they fail, and
//! how far a long run is.
#![tactic(auto)]

mod faults;
mod file_lines;
mod fronts;
mod gatherers;
mod inputs;
mod markings;
mod memory_stores;
mod new_files;
mod numbered_files;
mod numberings;
mod outputs;
mod progress;
mod same_files;
mod shown_names;
mod stamps;
mod stores;
mod system_store;
mod taken_texts;
mod taken_writers;

pub use faults::{Fault, Name, Reason, Told, tell_fault};
pub use file_lines::{FileLines, Unmarked};
pub use gatherers::Gatherer;
pub use inputs::{DASH, Input, end_input, is_standard, open_input};
pub use markings::Passing;
pub use memory_stores::MemoryStore;
pub use new_files::{NewFile, create_output, is_there};
pub use numbered_files::{MadeFiles, MadeParts, NumberedFiles, Unsplit};
pub use outputs::{Gathered, Output, Written, gathered, print, take_back};
pub use progress::{Pace, Paced, Progress, Unwatched};
pub use same_files::{part_number, path_of_input};
pub use shown_names::{ShellWord, Shown, input_name, shown_name};
pub use stamps::Stamped;
pub use stores::{Found, Store, Unmade};
pub use system_store::SystemStore;
pub use taken_texts::{Piece, TakenText};
