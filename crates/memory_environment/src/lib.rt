//! The environment in memory, for tests and for folders that are made without a disk: a `Folder`, a `Log`, a `File` and an `Out`
//! that meet the contracts of these traits. Each object keeps what it was given, and a list of the numbers of the calls that are to fail.
#![tactic(auto)]

mod calls;
mod file;
mod files;
mod folder;
mod log;
mod out;
mod plans;
mod short_reads;

pub use file::MemFile;
pub use folder::MemFolder;
pub use log::MemLog;
pub use out::MemOut;
pub use short_reads::{ShortFile, ShortReads};
