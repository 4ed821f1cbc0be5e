//! Tests of tables, of numbers that are put right, of runs over files, and of whole lints and explanations, on worked lines.
#![tactic(auto)]

#[cfg(test)]
mod devices;
#[cfg(test)]
mod explained;
#[cfg(test)]
mod files;
#[cfg(test)]
mod lints;
#[cfg(test)]
mod renumbered;
#[cfg(test)]
mod tables;
