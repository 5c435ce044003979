//! The laws of what `certify` tells: a kernel has one serial run and one verdict, and what is printed is told of the kernel's file alone.
//!
//! The serial run of a fixed kernel is one (`serial_steps`): it comes to its end with one set of logs and one memory, or to one stop, or to one record
//! too many. So verdicts that hold of one kernel say the same.
//!
//! A computed case guards which record opens the first barrier interval too many (`OpensTheFirst` of `certify`).
#![tactic(auto)]

mod cases;
mod laws;

pub use cases::the_first_interval_too_many_is_told;
pub use laws::{a_kernel_has_one_verdict, certify_has_one_answer};
