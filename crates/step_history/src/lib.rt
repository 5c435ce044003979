//! Histories of shared words and mutexes, as definitions and laws: what the hands of one table did, every step in one order.
//!
//! A hand is named by the splits that lead to it. A history is legal where each step fits those before it: a load finds the value
//! of the last store of its word, else 0, and all that updates added since, modulo 2^64; a mutex is locked while nobody holds it and unlocked by its holder; a hand takes steps
//! after it was split off and before it comes home. Items have a history that ends in given words where one legal list has, for
//! each name, just that name's items in their order, and each word has its value after that list.
//!
//! The laws here: between two locks of one mutex, whoever locked it first unlocks it; and what a hand does stands after its split
//! and before its homecoming, so that all of a hand that comes home before another is split off stands before all of the other,
//! and a prefix has all that leads to what it has.
#![tactic(auto)]

mod item;
mod labels;
mod mutexes;
mod order;
mod prefixes;

pub use item::{Deed, Item};
pub use labels::histories_take_labels;
pub use mutexes::critical_sections_exclude_each_other;
pub use order::hands_work_between_split_and_home;
pub use prefixes::prefixes_have_what_leads_to_them;
