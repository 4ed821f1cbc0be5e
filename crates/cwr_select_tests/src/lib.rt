//! Tests of selections on a worked transmission.
#![tactic(auto)]

#[cfg(test)]
mod selections;
