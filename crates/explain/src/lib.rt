//! Two records behind a race pair.
//!
//! `confirm` tells whether two records of a folder race, and where: it reads their logs, and the logs of the tasks above them in which their paths
//! part, and counts the Regions and Barriers that come before. It knows no label, no strided run and no tree.
//!
//! `explain` gives the least race of two lines, by rows and numbers. It keeps the strided runs of these lines of each barrier interval. Where two
//! intervals race there, it goes over the records of these lines in order, but only in logs of intervals that race; it asks the runs of intervals
//! that may be concurrent whether a record may race, and counts only for those. Of one interval these are found by its label: they are of the same
//! region of the root, and its team has passed as many barriers.
#![tactic(auto)]

mod confirming;
mod conflict;
mod explaining;
mod finding;
mod keeping;
mod laws;
mod parting;
mod passing;
mod searching;
mod stretch;
mod suspect;
mod suspecting;
mod suspects;

pub use confirming::confirm;
pub use explaining::{RacePair, explain};
pub use laws::a_race_is_told_in_one_way;
