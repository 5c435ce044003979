//! `certify`: whether every run of a kernel must write the same logs, told by one serial run of it in memory.
//!
//! A kernel without a critical section, a loop whose chunks are drawn and an atomic update (`first_construct`) is run serially: regions run in
//! place, and in a phase the lanes of a team go on one after another. Where its folder has no race, that run is the certain one: every run has
//! its logs, and ends with its words.
#![tactic(auto)]

mod certifying;
mod finding;
mod holding;
mod verdict;

pub use certifying::{MOST_RECORDS, certify};
pub use finding::{first_construct, fixed_kernels_have_no_construct};
pub use verdict::Verdict;
