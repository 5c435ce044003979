//! The standard output.
ghost use Rattle.std.specs.Prelude.{List, None, Option};

use crate::system::{counted, write_whole};
use std::alloc::Global;
use std::io;
use sw_base::{Out, Trouble};

/// The standard output.
#[derive(Drop)]
pub struct HostOut<R> {
    rt: R,
    faults: u64,
}

impl<R: Print> HostOut<R> {
    /// The standard output, with no fault yet.
    pub fn new(rt: R) -> Self {
        HostOut { rt, faults: 0 }
    }
}

impl<R: Print> Out for HostOut<R> {
    ghost written = { λ _. None };

    ghost faults = { λ out. out.faults };

    fn append(&mut self, _alloc: Global, piece: &[u8]) -> Result<(), Trouble> {
        counted(
            write_whole(&mut io::writer(&self.rt), piece),
            &mut self.faults,
        )
    }
}
