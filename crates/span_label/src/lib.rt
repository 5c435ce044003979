//! Offset-span labels with barrier numbers (Mellor-Crummey, Supercomputing 1991; the barrier number is this project's).
//!
//! A label is one triple a level of nesting. Comparing two labels tells exactly whether one is before the other, or
//! whether they are concurrent. Labels never allocate.
#![tactic(auto)]

mod label;
mod triple;

pub use label::Label;
pub use triple::Triple;
