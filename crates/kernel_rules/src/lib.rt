//! What the rules of the language buy, as laws of lawful kernels (`IsLawful`).
//!
//! `lanes_meet_the_same_barriers`: all lanes of an even team (`IsEven`) that end pass equally many barriers, whatever was read and
//! drawn. `lanes_find_the_same_chunks`: and they find equally many chunks in each loop whose chunks are drawn.
//! `lawful_folder_keeps_the_rules`: the tasks of a whole run, in the order of a listing, keep every rule of a folder of logs.
//!
//! That the rules find no fault in a text exactly where its names are good and its program is lawful is a law of `kernel_laws`.
#![tactic(auto)]

mod lawful;

pub use lawful::{
    lanes_find_the_same_chunks, lanes_meet_the_same_barriers, lawful_folder_keeps_the_rules,
};
