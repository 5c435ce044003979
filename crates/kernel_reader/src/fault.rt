//! Why no kernel is read.
ghost use Rattle.std.specs.Prelude.{◌≡◌};

use kernel_text::KernelWhy;
use std::alloc::{AllocError, AllocFailed};

/// Why `read_kernel` answers none.
#[derive(Clone, Copy, Debug)]
pub enum ReadKernelFault {
    /// The first fault of the text; lines are numbered from 1.
    Refused { line: u32, why: KernelWhy },
    Memory,
}

impl From<AllocError> for ReadKernelFault {
    ghost use Rattle.kernel_reader.specs.declared.fault.ReadKernelFault.TheVariants as read;

    ghost from_gives = { λ _ e. e ≡ read.Memory };

    fn from(_e: AllocError) -> ReadKernelFault {
        ReadKernelFault::Memory
    }
}

impl<T: Drop> From<AllocFailed<T>> for ReadKernelFault {
    ghost use Rattle.kernel_reader.specs.declared.fault.ReadKernelFault.TheVariants as read;

    ghost from_gives = { λ _ e. e ≡ read.Memory };

    fn from(_e: AllocFailed<T>) -> ReadKernelFault {
        ReadKernelFault::Memory
    }
}
