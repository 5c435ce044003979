//! The whole program but for its host: what `sword` does for the arguments that it is given.
//!
//! What it promises is stated on `sword`: `check` prints exactly the line pairs of accesses that race or names the folder's
//! first bad place, and a run that ends leaves each task's whole trace under the values that it read, in one history of all tasks.
#![tactic(auto)]

mod running;
mod top;

pub use top::{STACK, sword};
