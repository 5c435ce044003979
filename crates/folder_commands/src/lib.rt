//! The commands that read a folder, and `gen`, whose folder is made from a number: what each prints and which status it returns.
//!
//! `check` prints exactly the line pairs of accesses that race, `show` every record, and `replay` whether each log is the trace of its task of
//! a kernel under what it read and drew; or each the folder's first bad place.
#![tactic(auto)]

mod checking;
mod confirming;
mod explaining;
mod generating;
mod laws;
mod printing;
mod refusing;
mod replaying;
mod showing;
mod texts;
mod upgrading;

pub use checking::check;
pub use confirming::confirm_records;
pub use explaining::explain_lines;
pub use generating::check_generated;
pub use laws::{
    a_folder_has_one_confirmation, a_folder_has_one_explanation, a_replay_has_one_answer,
    answers_are_for_runs_or_refusals,
};
pub use replaying::replay_file;
pub use showing::show;
pub use upgrading::upgrade_folder;
