//! What the arguments of a command line ask for.
//!
//! `read_arguments` answers the command that they ask for, and none exactly where they ask for nothing.
#![tactic(auto)]

mod arguments;

pub use arguments::{Command, RecordName, read_arguments};
