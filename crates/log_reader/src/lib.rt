//! The records of a log that is known to be good, one after another.
//!
//! A reader goes through a log in a window, and keeps none of its records. Of a folder that tells what it holds its answers are
//! the records of the log, in order, and then that there is none. Another folder may have changed since the log was found good: its
//! log is taken as ending before the first record whose bytes aren't all there or spell no record.
#![tactic(auto)]

mod reader;

pub use reader::LogReader;
