//! The mutexes that a task holds, at most eight, in order of locking.
//!
//! A set tells exactly whether a mutex may be taken or given back, and whether two sets have a mutex in common. It
//! never allocates, and a refusal changes nothing.
#![tactic(auto)]

mod held;

pub use held::{Held, HeldFault, NotInnermost};
