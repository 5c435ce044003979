//! Bounded logging: records go into a block of fixed size, and from there to the task's log, one piece at a time.
//!
//! A task has two blocks, which go to its log in turn. Where they have 16,384 bytes or more it has a writer (`flush_writer`), which appends
//! one while the task fills the other; else, or where no writer could be started, the task appends them itself. `start` begins the log with
//! its header. `ready` makes room for one record, `put` adds it, and `close` hands on what is left and ends the writer. A block is handed on only
//! where the next record doesn't fit, so a log is in pieces of as many whole records as a block may hold, the last perhaps shorter.
//! What was put and what the log has of it is told by the relation `HoldsRecords`, which every call keeps: after a refusal the log has
//! a prefix of the header and the records, its pieces lack at most two blocks of them, and the buffer repeats the refusal for good.
//!
//! A refusal of the writer is answered by the task's next `ready` that wants the other block, `child` or `close`. A buffer that is
//! dropped without `close` once a block was full leaves its writer waiting.
#![tactic(auto)]

mod buffer;
mod fault;
mod laws;

pub use buffer::Buffer;
pub use fault::BufferFault;
pub use laws::prefix_stands;
