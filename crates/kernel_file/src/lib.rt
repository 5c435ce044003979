//! A kernel's file: the kernel that it holds, and what is printed if it holds none.
#![tactic(auto)]

mod reading;
mod refusing;

pub use reading::{KernelRefusal, read_kernel_file};
pub use refusing::refuse_kernel;
