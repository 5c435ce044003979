//! Why a serial run doesn't go on.
use kernel_model::StopWhy;
use std::alloc::{AllocError, AllocFailed};

/// Why a serial run doesn't go on.
#[derive(Clone, Copy)]
pub enum Halt {
    /// The task stops at this line: that of the operator, of the array's name, or of the record for which there is no room.
    Stops { why: StopWhy, line: u32 },
    /// All records that the run may make are made.
    Long,
    /// A statement that isn't executed here: no fixed kernel has it, or its chunks are empty.
    Refused,
    /// No memory was found.
    Memory,
}

impl From<AllocError> for Halt {
    ghost use Rattle.std.specs.Prelude.{◌≡◌};
    ghost use Rattle.serial_run.specs.declared.halt.Halt.TheVariants as halt;

    ghost from_gives = { λ _ e. e ≡ halt.Memory };

    fn from(_: AllocError) -> Self {
        Halt::Memory
    }
}

impl<T: Drop> From<AllocFailed<T>> for Halt {
    ghost use Rattle.std.specs.Prelude.{◌≡◌};
    ghost use Rattle.serial_run.specs.declared.halt.Halt.TheVariants as halt;

    ghost from_gives = { λ _ e. e ≡ halt.Memory };

    fn from(_: AllocFailed<T>) -> Self {
        Halt::Memory
    }
}
