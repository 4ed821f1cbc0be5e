//! The grammar of the command line of `cwr`: its subcommands, their options and their names of files, and its help.
#![tactic(auto)]

pub mod grammar;
