//! The race pairs of the run that a folder holds: `folder_pairs` finds exactly these, or the folder's first bad place.
#![tactic(auto)]

mod pairs;

pub use pairs::folder_pairs;
