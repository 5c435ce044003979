//! Tests of the host's folder over real files: its logs, files and faults.
#![tactic(auto)]

#[cfg(test)]
mod tests;
