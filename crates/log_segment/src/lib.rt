//! The barrier intervals of a run (SWORD 2018): the accesses between two records that order a task with others.
//!
//! `Walk` goes over the records of one log, one at a time, and gives exactly the log's intervals, in order, each with its
//! offset-span label and its accesses as strided runs. It keeps no record. `first_label` tells with which label a task begins,
//! by those at which the tasks above forked.
#![tactic(auto)]

mod beginning;
mod segment;
mod spare;
mod walking;

pub use beginning::first_label;
pub use segment::Segment;
pub use spare::Spare;
pub use walking::Walk;
