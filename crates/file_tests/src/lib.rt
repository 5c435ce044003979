//! Tests of files: names, the environment in memory and windows over its files, the spelling of records, indexes, logs that are read and
//! listed record by record, and the report and other texts that are printed.
//!
//! They stand beside the crates that they test, and not in them, since a crate with tests is proved twice.
#![tactic(auto)]

#[cfg(test)]
mod tests;
