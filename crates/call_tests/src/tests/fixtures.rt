//! What the tests of the top call share: they call it over a folder and an output in memory.
//!
//! A test is a constant table of some ten cases and one call: what is proved of a table grows faster than the table.
//!
//! No clause rests on anything here, since tests compare what comes out. The contract of `sword` is met here alone: each proof that calls it
//! carries all of it.

mod cases;
mod commands;
mod faults;
mod witnesses;

pub use cases::{
    Case, EMPTY, Past, Question, Subject, Verdict, Whole, all_judged, all_pass, all_pass_past,
    all_run, answers, each_passes, folder_of, passes,
};
pub use commands::{CERTIFY, REPLAY, RUN, SHOW, USAGE_LINE, asked, printed};
pub use faults::{Calls, all_calls_may_fail};
