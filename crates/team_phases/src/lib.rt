//! The phases of a team: its body, divided after each barrier.
//!
//! The items of all phases, run in order, make the body's records from every state; where every lane meets the same barriers
//! (`IsEven`), every Barrier record comes from a `Bar`; each phase but the last ends in its only `Bar`, and the last has none; and
//! statements are numbered by the loops before them whose chunks are drawn.
//!
//! Meaning of `parallel`, worksharing loops and `barrier`: OpenMP 5.2.
#![tactic(auto)]

mod phasing;
mod unrolling;

pub use phasing::{is_drawing, phases};
