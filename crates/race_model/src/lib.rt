//! What the checker means, as definitions: the records of a run, happens-before by forks, joins and barriers,
//! the mutexes held at an access, data races and their line pairs, offset-span labels, the first bad place of a folder,
//! the sequentially consistent histories of a run, and the draws of its dynamic loops. Their laws are `race_laws`.
#![tactic(auto)]

mod why;

pub use why::{IndexWhy, RecordWhy};
