//! The race pairs of a run, found from its barrier intervals.
//!
//! `compare_all` answers exactly the line pairs of the intervals' races, the smaller line first, each once and in ascending
//! order, for every number of workers: two accesses of intervals with concurrent labels, of a common byte, one that writes and not
//! both atomic, under no common mutex. Labels are compared level by level: intervals that are the same there stand in groups, as the
//! lanes of a team between two barriers. A group's runs are swept in order of their first bytes, where reads meet no reads and
//! updates no updates. The workers sweep at once, each the runs that meet its ranges of bytes: two runs are compared in the range in
//! which the later one begins.
//!
//! `compare_alone` answers the same pairs without a thread. `may_conflict` says of two effects on memory
//! whether they can race, `add_conflict` adds the line pair of two runs, if they conflict, and `unite` adds one set of pairs to another.
//! The law `pairs_are_races` says that the pairs of a run's intervals are its race pairs, region by region of the root, and
//! `labels_order_accesses` that the labels of two intervals are ordered as their accesses are by happens-before.
#![tactic(auto)]

mod active;
mod all;
mod alone;
mod collecting;
mod conflict;
mod counts;
mod crowding;
mod divide;
mod field;
mod group;
mod hull;
mod measuring;
mod member;
mod ordering;
mod parting;
mod regions;
mod sweeping;
mod task;
mod team;
mod worker;

pub use all::compare_all;
pub use alone::compare_alone;
pub use conflict::{Effect, add_conflict, may_conflict};
pub use ordering::labels_order_accesses;
pub use regions::pairs_are_races;
pub use team::unite;
