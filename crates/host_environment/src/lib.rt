//! The environment on the host: real files, the standard output, and a program's arguments and status.
//!
//! The objects tell nothing of what they hold; their counts of faults rise at each system error, except out of memory before
//! anything was written. What they do to real files is tested.
#![tactic(auto)]

mod arguments;
mod file;
mod folder;
mod log;
mod out;
mod system;

pub use arguments::given_arguments;
pub use file::HostFile;
pub use folder::HostFolder;
pub use log::HostLog;
pub use out::HostOut;
pub use system::write_whole;
