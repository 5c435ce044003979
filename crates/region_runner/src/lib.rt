//! A whole run of a kernel: its root, and the lanes of each region on threads of their own, phase by phase.
//!
//! `run_in_teams` makes the shared words and runs the root (`root`), which is one task without a team. A region that a task forks
//! (`region`) opens the logs of its lanes (`opening`) and goes through its phases (`going`), in each of them every lane on a thread of
//! its own, with a hand of its own, which is split off for the phase and joined after it (`handing`); the regions that a lane forks
//! run in turn; after the last phase each lane that goes on puts its End (`ending`); and then the logs are closed (`closing`) and
//! handed on (`gathering`). By `run_live` the threads of a region of several phases start once and stay through them, by `run_kernel` they
//! start in each phase (`team_live`).
//!
//! What is promised of a run that ended: its logs are those of the kernel's tasks, each with its whole trace under the values that it read,
//! cut into pieces that fill the buffer; they keep the rules of a folder; and all accesses and mutex steps have one legal history,
//! which respects happens-before and ends in the words. Of a run that stopped: its logs are those of the beginning of such a run,
//! each whole or a prefix, and the task that is named stopped as stated. What is told of a region is what a lane asks of the
//! function that runs its regions.
//!
//! Two laws, on which this rests. `hands_tell_each_chunk_once`: what the hands of a team drew from its counters, the logs of its
//! lanes tell. `joined_hands_did_a_phase`: a hand that split off one for each lane and joined them has the steps of the phase. Those of
//! executions stand in `execution_laws`.
#![tactic(auto)]

mod closing;
mod crew;
mod drawn;
mod ending;
mod gathering;
mod going;
mod ground;
mod handing;
mod hands;
mod loops;
mod opening;
mod region;
mod root;
mod run;

pub use drawn::hands_tell_each_chunk_once;
pub use hands::joined_hands_did_a_phase;
pub use run::{Finished, Stopped, run_in_teams, run_kernel, run_live};
