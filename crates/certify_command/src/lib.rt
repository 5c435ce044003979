//! `certify`: whether every run of a kernel is one and the same, or why that isn't certain.
//!
//! `certify_file` reads the kernel and prints `certain` with the text of its run, or the first reason for which it isn't: a construct that a
//! fixed kernel doesn't have, too many records, a stop, too many barrier intervals, or races, with their report.
#![tactic(auto)]

mod answering;
mod certifying;
mod texts;

pub use certifying::certify_file;
