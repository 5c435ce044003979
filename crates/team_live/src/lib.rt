//! A team whose threads stay through all its phases.
//!
//! In each phase every lane of a team does its part: `in_phases` starts a thread for each lane but the first, once, and those threads
//! stay until the last phase or until the team stops. What a lane is, what it does in a phase, and what the team's first thread does before and
//! after each phase is the caller's business: `task`, `part` and `meet` are closures, and a type, the key, tells what they promise
//! (`LaneKey`, `TeamKey`).
//!
//! The first thread sends each lane to its thread and collects it again (`hand_over`), and does the part of the first lane itself, and that of any
//! lane whose thread can't be started. No lane's next phase begins before all lanes are home: `meet` sees them all, in their order, as does
//! `part` before the phase.
//!
//! Where the caller has it so, for a team of one phase, and where no memory is found to hand lanes over, each phase is a parallel call in place
//! of that, under the same contract.
//!
//! That the threads stay is no clause's fact, and tests show it.
#![tactic(auto)]

mod calling;
mod first;
mod gate;
mod key;
mod parcel;
mod phase;
mod phases;
mod serving;

pub use gate::{LiveGate, WithoutStart};
pub use key::{LaneKey, TeamKey};
pub use phases::in_phases;
