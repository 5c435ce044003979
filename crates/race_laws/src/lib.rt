//! Laws of the definitions of `race_model`, and cases of them that are computed.
//!
//! Happens-before is a partial order, and labels decide it; a folder that has no bad place holds at most one run, and
//! that is a fork-join run; rows are a listing where each path is the next after the one before; the first bad place is one;
//! what keeps the rules of the first format keeps those of the second.
#![tactic(auto)]

mod folders;
mod index;
mod labels;
mod listing;
mod mutexes;

pub use folders::{
    first_rules_are_second, folder_tells_its_trace, kept_rules_leave_no_bad_place,
    well_formed_folder_is_fork_join,
};
pub use index::{
    first_bad_index_place_is_unique, index_tells_its_rows, well_formed_index_has_no_bad_place,
};
pub use labels::{happens_before_is_an_order, labels_are_happens_before};
pub use listing::listing_by_next_paths;
pub use mutexes::mutexes_are_held_from_lock_to_unlock;
