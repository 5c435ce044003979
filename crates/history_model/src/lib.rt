//! One history of a run: what the hands of nested teams did, as a tree of work, and what its tasks' logs say.
//!
//! A hand's work has each Read with the whole word that was loaded; the task's log has the value of the element there.
//!
//! The laws here: works and phases compose, one after another their steps, records and soundness are those of the parts; and what the
//! lanes of a team drew from one counter, their logs tell each once. Those of whole trees stand in `history_laws`.
#![tactic(auto)]

mod composing;
mod draws;

pub use composing::{last_records_are_no_steps, phases_compose, works_compose};
pub use draws::{draws_compose, lanes_draw_each_chunk_once};
