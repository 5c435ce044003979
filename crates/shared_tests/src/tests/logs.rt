//! Bounded logging: a block of bytes, how a buffer cuts a log into pieces, and what is in a log after each of its calls failed.

mod blocks;
mod buffers;
