//! Laws for those who write folders: what may be left out, moved, cut or changed without changing a race pair.
#![tactic(auto)]

mod cases;
mod rules;
mod writing;

pub use cases::{all_laws_apply, other_premises_are_needed, premises_of_dropping_are_needed};
pub use rules::{fork_join_runs_keep_rules, written_folders_keep_rules};
pub use writing::{
    accesses_may_be_dropped, locks_may_move, recorders_keep_pairs, region_may_be_cut,
    root_accesses_may_be_dropped, root_is_ordered, run_may_be_split, stand_ins_lose_no_pair,
    unordered_by_places, values_do_not_matter,
};
