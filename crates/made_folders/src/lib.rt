//! Folders for tests of the top call: in memory, record by record; the name of a real one; and the words with which they are named.
//!
//! No clause rests on anything here, since tests compare what comes out.
#![tactic(auto)]

mod names;
mod records;

pub use names::{fresh, texts};
pub use records::{BARRIER, END, ROOT, Rec, Step, Task, hold_old_tasks, hold_tasks};
