//! The accesses of a barrier interval, one by one or as strided runs.
//!
//! An access is one read, write or update of memory with the mutexes that were held. A copy is the same access. A run stands for
//! accesses that differ in their addresses alone, which lie at equal distances; it tells its first and its last byte. A
//! summary takes accesses and gives runs with exactly their pairs of key and address, in order of their first addresses. No
//! pair stands in two runs, and of two runs of one key one ends before the other begins. After an error the accesses of a
//! summary are as before, and giving its runs needs no memory.
#![tactic(auto)]

mod access;
mod cutting;
mod joining;
mod key;
mod places;
mod run;
mod single;
mod singles;
mod stretch;
mod summary;

pub use access::Access;
pub use key::Key;
pub use run::Run;
pub use summary::Summary;
