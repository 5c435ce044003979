//! Laws of `history_model`'s trees of work: what the logs of a run say, of what its hands did.
//!
//! Where the steps of all hands have one legal history over words, the logs of all tasks have one over the values of the elements,
//! which keeps each task's order and that of forks, joins and barriers, and ends in the fitted values of the words (sequential
//! consistency), at any depth and span; and so do the logs of a run that stopped, with the mutexes released that were held at the stop.
//! It rests on this: a sum may be cut to its element before it is made, or after.
//! The tasks of a tree are those of a fork-join run, in the order of an index, none goes on after a barrier that another lane of its team
//! hasn't passed, and none goes on after a region before all its lanes have ended.
#![tactic(auto)]

mod barriers;
mod history;
mod joins;
mod tasks;

pub use barriers::barriers_are_met;
pub use history::{history_of_a_run, history_of_a_stopped_run};
pub use joins::lanes_end_before_their_task_goes_on;
pub use tasks::tasks_of_a_tree_of_work;
