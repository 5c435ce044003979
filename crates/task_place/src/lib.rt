//! Where a task of a kernel runs, whoever executes it: its local variables, its lane among the lanes of its team, and the elements of the kernel's
//! arrays; and what else all who execute it need: the records of its steps, the turns of its loops, and the left operands of its expressions.
//!
//! What is told of an element that was found: it is the one of the meaning of kernels, its bytes are of a width of the language, and its word is one of
//! the table in which the arrays are laid out (`IsElement`).
#![tactic(auto)]

mod left;
mod locals;
mod place;
mod turns;

pub use left::{left_by, left_depth, operate};
pub use locals::Locals;
pub use place::{Element, TaskPlace, access, element_in, event};
pub use turns::{number_at, total_of};
