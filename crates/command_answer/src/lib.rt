//! What each command returns, and what it means that a due text was printed, in part, or not at all; and the texts of a kernel's run.
//!
//! A text comes with its status. If it couldn't be printed, a prefix of it was, and the status is that of a failure:
//! `WRITE_FAULT`, only if the output's count of faults rose, or `NO_MEMORY`.
#![tactic(auto)]

mod printing;
mod run_texts;
mod status;

pub use printing::{failure, print, print_made};
pub use run_texts::{run_text, stop_line};
pub use status::{
    DIFFERS, DONE, FOLDER_REFUSED, INDEX_THERE, KERNEL_REFUSED, KERNEL_STOPPED, NO_MEMORY, RACES,
    READ_FAULT, UNCERTAIN, USAGE, WRITE_FAULT,
};
