//! The tasks of a serial run: a task that forks a region goes on once the region has run, and in a phase the lanes of a team go on one after
//! another, each until its next barrier or its end.
//!
//! So of two records that happen in no order that of the smaller lane comes first, at the step at which the paths of their tasks part.
//!
//! Where a task stops, the lanes that come later in its phase still go on, and the first stop in the order of lanes is answered.
#![tactic(auto)]

mod member;
mod region;
mod root;
mod stop;

pub use kernel_model::StopWhy;
pub use member::{Member, Stage, TaskLog};
pub use root::{SerialRun, run_serially};
pub use stop::Stop;
