//! The texts of kernels: their tokens, their parse trees, which kernel is read or where and why there is none, and files that hold one.

mod files;
mod kernels;
mod levels;
mod repeating;
mod tokens;
mod trees;
mod updates;
