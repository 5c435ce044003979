//! A run made from a number of rounds, for measuring and for trying what checks a folder.
//!
//! Eight lanes write separate elements, pass a barrier, and read their neighbours' elements; one more write races with one of
//! the reads. `generate` puts the logs of this run and their index into a folder. `accesses` and `segments` say how many of each
//! it has.
#![tactic(auto)]

mod counts;
mod folder;
mod records;

pub use counts::{accesses, segments};
pub use folder::{generate, generated_folder_holds_its_run};
