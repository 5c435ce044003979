//! What the language gives: a text has one answer, and the rules are exactly what makes a kernel lawful.
//!
//! The laws: a text has a kernel or a refusal, never both, and just one. Of a text that tokens and grammar accept, the rules find no
//! fault exactly where its names are good and the program that it is resolved to is lawful (`rules_are_exact`): `HasGoodNames` in
//! `specs/` says that each name that is used is known and each that is declared is new, and `IsLawful` of `kernel_model` has every
//! property on which the laws of lawful kernels rest. So the tasks of a whole run of the kernel of a text keep every rule of a folder
//! of logs (`folders_of_kernels_keep_the_rules`). And the lanes of a region of a lawful program meet the same barriers, whatever was
//! read and drawn (`lanes_of_regions_meet_the_same_barriers`).
#![tactic(auto)]

mod laws;

pub use laws::{
    folders_of_kernels_keep_the_rules, kernels_are_lawful, lanes_of_regions_meet_the_same_barriers,
    rules_are_exact, texts_have_one_answer,
};
