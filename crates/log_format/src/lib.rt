//! The records of a task's log, 24 bytes each.
//!
//! Each record that the table of its format allows has one spelling. `encode` gives it, and `decode` answers
//! exactly the record whose spelling it was given, or the first fault that the bytes have.
#![tactic(auto)]

mod coding;
mod format;
mod laws;
mod record;
mod table;

pub use coding::{decode, decode_as, decode_old, encode};
pub use format::{FORMAT, Format};
pub use laws::{first_is_second, logged_once, spelled_once};
pub use record::{Kind, RECORD_LIMIT, RECORD_SIZE, Record, TASK_LIMIT, Why};
