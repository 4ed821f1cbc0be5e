//! Tests of the calls that take memory. Wherever an allocation is refused each answers out of memory, and then the test ends
//! with `memory was refused`, or what it answers with ample memory. `tools/refuse_memory` refuses each allocation in turn.
#![tactic(auto)]

#[cfg(test)]
mod checks;
#[cfg(test)]
mod decoding;
#[cfg(test)]
mod outputs;
#[cfg(test)]
mod runs;
#[cfg(test)]
mod sent;
#[cfg(test)]
mod values;
#[cfg(test)]
mod works;
