//! The parse tree of a kernel.
//!
//! Promised here, exactly. If tokens are those of a tree by the grammar whose levels are at most
//! 32, `parse` returns that tree, with the line of each token; it fails only if it runs out of memory. The
//! trees that contracts name are those of the grammar in `kernel_text`; `specs/Trees.antt` says
//! which of them a tree of the code is.
//!
//! Calls inside a call follow blocks, brackets, prefix signs and right operands, whose levels are
//! few. Statements in a row and operators in a row are loops, so that no text exhausts the stack.
#![tactic(auto)]

mod expression;
mod fault;
mod kernel;
mod lookahead;
mod statements;
mod tree;

pub use crate::fault::ParseFault;
pub use crate::kernel::parse;
pub use crate::tree::{Block, Declaration, KernelTree, Range, ScheduleTree, Statement, Tree};
