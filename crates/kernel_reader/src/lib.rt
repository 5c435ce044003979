//! The kernel of a text: the rules that it has to keep, and what its names and accesses are
//! resolved to.
//!
//! Promised here, exactly. `read_kernel` returns the kernel of a text, which is the only one that
//! it has, or the line and the reason of its first fault: of the tokens and the grammar, which
//! `kernel_text` tells, and then of the rules, in the order of the text, by the parse tree. Of a kernel that is read
//! the sizes, lines, sites, spans, chunks and mutexes are within the bounds that the rules set.
//! What the kernel of a text is, or why and where the language refuses a text, is defined in
//! `specs/`; the bounds are defined in `kernel_syntax`.
#![tactic(auto)]

mod binding;
mod declarations;
mod fault;
mod kernel;
mod place;
mod sections;
mod statements;
mod weight;

pub use crate::fault::ReadKernelFault;
pub use crate::kernel::read_kernel;
