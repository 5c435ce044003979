//! A balanced interval tree over strided runs, which finds the runs that meet a range of bytes.
//!
//! A tree keeps its runs in order of their first bytes, those with the same one in the order in which they were given. It
//! is built over one slice of runs or over several. `meet` hands a visitor exactly the runs whose bytes from first to last
//! meet those from `lo` to `hi`, each once and in order, until it refuses one. Its steps are at most those runs' number plus
//! one, times the binary digits of the number of all runs, and `levels` says that no search goes deeper than these digits.
//! A step is a node in whose subtree a run reaches `lo`. Not counting them costs nothing: a counter takes no bytes.
#![tactic(auto)]

mod search;
mod steps;
mod tree;
mod visit;

pub use steps::Steps;
pub use tree::Tree;
pub use visit::Visit;
