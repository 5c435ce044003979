//! Laws of what `confirm` and `explain` find: values and sites of records play no part in it.
#![tactic(auto)]

mod values;

pub use values::values_do_not_matter_to_witnesses;
