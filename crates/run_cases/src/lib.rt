//! Computed cases of runs: kernels with one run and with two, runs that stopped, each by hand, and what is no such run.
//!
//! Two lanes that share nothing have one run, and two lanes of which one copies what the other writes have two. So the law of certainty speaks
//! of some kernels; a fixed kernel may have several runs where one of them has a race; and one that isn't fixed may have several though none of
//! them has a race, as where each lane does its work in a critical section.
//!
//! The other cases guard definitions that have few: executions (`IsExecution` of `execution_model`), where a run stopped (`StopsIn` of
//! `region_runner`, `RestsBelow` of `lane_runner`), serial runs (`GoesSerially` of `serial_steps`), and what its logs are (`AreStopped`,
//! `IsTornLog` of `run_command`). Each wrong run is one that differs from a run in one place, so that a weaker clause would let it pass; that it
//! keeps the other clauses is not proved.
#![tactic(auto)]

mod histories;
mod kernels;
mod nested;
mod pieces;
mod stopped;

pub use histories::{reads_find_writes_before_them, words_are_those_of_the_history};
pub use kernels::{
    fixed_kernels_may_have_two_runs, mutexes_hide_the_order_of_lanes, some_kernels_are_certain,
};
pub use nested::a_nested_lane_stops;
pub use pieces::{
    draws_close_with_their_count, each_chunk_is_drawn_once, runs_keep_all_lanes,
    tasks_stop_behind_ended_lanes, torn_logs_lack_two_blocks,
};
pub use stopped::{a_lane_stops, a_serial_run_stops, tasks_wait_for_others};
