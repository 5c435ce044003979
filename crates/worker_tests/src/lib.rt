//! Tests of the top call and its threads: the same report by each number of workers, beside a plain search of the graph of edges; what runs at
//! once, and in which order `check` reads and compares; on which threads lanes run, that none is left, and how far a task is ahead of its log.
//!
//! They stand beside `top_call`, and not in it, since a crate with tests is proved twice; and beside `call_tests`, so that both are proved at once.
#![tactic(auto)]

#[cfg(test)]
mod tests;
