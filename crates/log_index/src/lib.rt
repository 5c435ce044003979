//! The index of a folder of logs: a row for each task, with its path and how many records its log has.
//!
//! `read_index` returns the rows exactly when the index is well formed, and otherwise its first bad place:
//! that there is none, or the number of the first bad row and the first rule that it breaks. `write_index` writes the
//! one spelling of well-formed rows.
#![tactic(auto)]

mod fields;
mod index;
mod laws;
mod listing;
mod row;
mod rows;
mod rules;
mod spelling;

pub use index::{read_index, read_index_as, read_index_old, write_index};
pub use laws::index_without_a_bad_place_is_well_formed;
pub use race_model::IndexWhy;
pub use row::{IndexAnswer, Row};
