//! The syntax of a kernel: its types, the tree that specs see, and the arithmetic of its values.
//!
//! A kernel is a set of shared arrays, a list of mutexes and a body of statements in the manner of
//! OpenMP 5.2: `parallel` regions, worksharing loops, barriers and critical sections. Contracts
//! compare two kernels through `program_of`, a tree without pointers.
//!
//! Promised here, exactly: `layout` gives each array its base and its first element and changes
//! nothing else; `apply` and `fit` are arithmetic on 64-bit two's complement; `even_share` is a
//! lane's share of a loop that is divided evenly.
#![tactic(auto)]

mod addresses;
mod arithmetic;
mod declarations;
mod share;
mod syntax;

pub use crate::addresses::layout;
pub use crate::arithmetic::{apply, fit};
pub use crate::declarations::{Arrays, Name, Names};
pub use crate::share::even_share;
pub use crate::syntax::{Array, Body, Expr, Kernel, Op, Schedule, Stmt, Team};
