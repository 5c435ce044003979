//! What a kernel means, as definitions: the value of an expression with the Read records that it makes, the iterations of a lane of
//! a worksharing loop, the trace of a task, the folder that a whole run leaves, the parts of a team's body between barriers, and
//! what the rules of the language say of a kernel (`IsLawful`).
//!
//! A trace is one recursion over a task's statements, under values read and chunk numbers that are handed in; it knows no
//! threads, memory or other tasks. `tasks_only_add_records` is a law: whatever a task does, it only adds records.
//!
//! The laws of lawful kernels stand in `kernel_rules`, and `team_phases` divides a team's body into its `Phase`s.
//!
//! Meaning of `parallel`, worksharing loops, `barrier`, `critical` and atomic updates: OpenMP 5.2.
#![tactic(auto)]

mod change;
mod growth;
mod phase;
mod stop;

pub use change::{Change, negate};
pub use growth::tasks_only_add_records;
pub use phase::{Item, Phase};
pub use stop::StopWhy;
