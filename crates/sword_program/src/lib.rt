//! The program `sword` on its host: its arguments, its stack, its files and its standard output.
//!
//! What it promises is stated on `top_call::sword`, which is given the host here, and whose status the program ends with.
#![tactic(auto)]

mod program;

pub use program::{Ended, run};
