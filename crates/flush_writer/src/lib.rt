//! A task's log behind a writer: a thread that appends one block while the task fills another.
//!
//! `start` begins the log with its header and gives the first empty block. `give` takes a full block and gives an empty one of the
//! same size: the full one goes with the log to the task's writer, which appends it as one piece. The next call waits until both are back, so
//! pieces are appended in the order in which they were given, and a task is never ahead of its log by more than two blocks.
//! `child` and `finish` wait too, and then call the log themselves.
//!
//! The writer is started with the first full block. Where it can't be started, or blocks are small, the lane keeps the log and appends
//! by itself, at the moment when it would have waited: no answer tells the difference. After a refusal nothing more is appended.
//! `finish` ends the writer; a flusher that is dropped without it leaves the writer waiting.
#![tactic(auto)]

mod errand;
mod flusher;
mod link;
mod writer;

pub use flusher::Flusher;
