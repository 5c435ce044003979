//! Words, mutexes and counters that threads share, each kind on one table under a rule that every step keeps.
//!
//! `Words` has 64-bit words and mutexes. A thread uses them with a `Hand`, which is split for a lane of a team and joined after it.
//! Each call is an equation on what its hand knows: its name, its mutexes, the hands out, and all that it did and learned.
//! `Words::close` promises that all this has one legal history, as `step_history` has it: every hand's steps are in it, in their
//! order, each load finds what stores and updates left, a mutex is won while nobody holds it, and the words end as the history
//! does. So between two locks of a mutex its holder unlocks, and what a split hand did stands between its split and its homecoming.
//!
//! `Chunks` has a counter for each loop. Where all other hands are joined, the numbers that the first one has of a loop are those
//! below some number, each once. `lock` alone waits, and no call but the two `new` takes memory.
#![tactic(auto)]

mod chunk_hand;
mod chunk_rule;
mod chunks;
mod hand;
mod rule;
mod share;
mod view;
mod words;

pub use chunk_hand::ChunkHand;
pub use chunks::Chunks;
pub use hand::Hand;
pub use share::Share;
pub use view::View;
pub use words::{Closed, Words};
