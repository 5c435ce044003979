//! Whether two strided runs have a byte in common, by arithmetic and not by listing their addresses.
//!
//! `overlap` is true exactly where a byte is one of both runs. Of two runs the bytes at the places `i` and `j` meet where
//! the difference of the two addresses lies in a window, which the two sizes give. Euclid's algorithm on the two strides,
//! carried along with the window, finds the least such places, or that there are none.
#![tactic(auto)]

mod meeting;
mod overlapping;

pub use overlapping::overlap;
