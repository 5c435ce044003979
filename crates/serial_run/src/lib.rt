//! One task of a serial run: it runs over a plain vector of words, alone, and stands still where others have to go on.
//!
//! A lane (`SerialLane`) keeps what is left of its task as a stack of frames, so it needs no thread to wait in: `resume` goes on until the task
//! meets a barrier, has put the record of a region that has to run first, has ended (`Pause`), or stops (`Halt`); and the next call goes on
//! from there. What the task did is spelled into its log, record by record, and no record is kept. All tasks of a run share one budget of
//! records.
//!
//! What is told of `resume`: the records that it made lead from what was left to what is left, by the meaning of kernels and under the
//! values that they tell themselves (`Leads`); only the last of them may be no access; and each value read is that of its word as it
//! stood, after the writes before it (`Finds`). A stop is the one in which the meaning ends (`Made`).
//!
//! Two laws follow: the records of a task that ended are its whole trace, whatever others did while it stood still
//! (`ended_tasks_have_their_trace`), and the trace of one that stopped ends in that stop (`stopped_tasks_stop_as_told`).
//!
//! What a fixed kernel doesn't have isn't executed here: critical sections, atomic updates, and loops whose chunks are drawn.
#![tactic(auto)]

mod frame;
mod halt;
mod lane;
mod laws;
mod memory;
mod track;
mod value;

pub use frame::{Frame, Pause};
pub use halt::Halt;
pub use lane::SerialLane;
pub use laws::{ended_tasks_have_their_trace, stopped_tasks_stop_as_told};
pub use memory::SerialMemory;
pub use task_place::{Locals, TaskPlace};
pub use track::Track;
