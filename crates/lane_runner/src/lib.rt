//! What a lane of a team executes, over shared words and a bounded buffer before its log.
//!
//! It evaluates expressions with their loads; it executes assignments, stores, updates, tests, loops, critical sections, worksharing loops of every
//! schedule, and regions, which a function of the caller's runs, with new logs for their lanes; and it puts the records of a team's
//! barriers. A `Lane` has the path of its task, executes the items of one phase at a call, and notes which task stopped, its own or one
//! below it, and why; its task's End is put by a call of its own, for which the team asks. A `Frame` is what it executes with.
//!
//! Before each record the buffer makes room, then the step on the shared words is taken, and then the record is put: no step is
//! taken that has no place in the log. Each call says by one witness, a tree of work, what it did: its records are those that the
//! log gained, its items those that the hand gained, one for one and in order, and its draws those of the hand on the counters; and
//! these are the records that the meaning of what was executed puts, under the values that the records read, from the locals before
//! it to those after it. Where the log refuses a record, they are the first of these. A lane that stops in critical sections gives
//! their mutexes back, the innermost first, without a record; one that goes on holds no more than before. A word that was
//! loaded stands in the witness as it was, and its value, fitted to the element, in the log and in what the lane goes on with. A region that stopped is told with the path of the task that did.
//!
//! What a region hands on, the logs of its tasks, is kept behind that of the regions before: lane by lane, each task's log before those
//! of the tasks below it. Where the region ended, none is missing, each has all its records, and none counts a fault; where it stopped, a
//! log may have a prefix of them, if no memory was found or it counts a fault, and only for want of memory one is missing. A lane stops where a
//! region that it forked has ended and then more than 65,535 tasks are below its own, and nowhere else for that reason.
#![tactic(auto)]

mod assign;
mod body;
mod children;
mod dynamic;
mod fitting;
mod frame;
mod lane;
mod laws;
mod phase;
mod run_phase;
mod sharing;
mod stop;
mod track;
mod value;
mod world;

pub use fitting::fit_words;
pub use frame::Frame;
pub use lane::Lane;
pub use laws::{
    arrays_of_a_kernel_have_words, elements_of_a_kernel_have_widths,
    handed_logs_are_of_tasks_below, handed_logs_are_those_of_the_tasks,
};
pub use stop::{Halt, Stop};
pub use task_place::{Element, Locals};
pub use track::Track;
pub use world::World;
