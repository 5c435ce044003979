//! A block of bytes: raw memory that it allocates and frees itself, and which never holds more than its size.
//!
//! A `Block` owns one region of exactly its size from its making to its drop. A caller sees its size and its bytes.
//! `push` adds 24 bytes, or answers false and changes nothing, exactly where fewer are free; `clear` takes all bytes
//! out and keeps the region. These and `bytes` take no memory.
//!
//! The pointer stays in `region`, in five small functions that are each proved by hand. What is above them is safe
//! code. A block may be handed to another thread, which `block_is_sent` shows.
#![tactic(auto)]

mod block;
mod laws;
mod region;

pub use block::Block;
pub use laws::block_is_sent;
