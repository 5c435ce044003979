//! Why a call gives up: no memory was found, or the environment failed.
ghost use Rattle.std.specs.Prelude.{◌≡◌, ◌<◌};
ghost use Rattle.sw_base.specs.Environment.{TakesFaults, next_count};

use std::alloc::{AllocError, AllocFailed};

/// No memory was found.
#[derive(Clone, Copy, Debug, PartialEq, Eq)]
pub struct Memory;

impl From<AllocError> for Memory {
    fn from(_: AllocError) -> Self {
        Memory
    }
}

impl<T: Drop> From<AllocFailed<T>> for Memory {
    fn from(_: AllocFailed<T>) -> Self {
        Memory
    }
}

/// Why a call of the environment gives up.
#[derive(Clone, Copy, Debug, PartialEq, Eq)]
pub enum Trouble {
    /// No memory was found.
    Memory,
    /// The environment failed: a read, a write or a print.
    Failed,
}

impl From<Memory> for Trouble {
    ghost use Rattle.std.specs.Prelude.{◌≡◌};
    ghost use Rattle.sw_base.specs.declared.trouble.Trouble.TheVariants as trouble;

    ghost from_gives = { λ _ e. e ≡ trouble.Memory };

    fn from(_: Memory) -> Self {
        Trouble::Memory
    }
}

impl From<AllocError> for Trouble {
    ghost use Rattle.std.specs.Prelude.{◌≡◌};
    ghost use Rattle.sw_base.specs.declared.trouble.Trouble.TheVariants as trouble;

    ghost from_gives = { λ _ e. e ≡ trouble.Memory };

    fn from(_: AllocError) -> Self {
        Trouble::Memory
    }
}

impl<T: Drop> From<AllocFailed<T>> for Trouble {
    ghost use Rattle.std.specs.Prelude.{◌≡◌};
    ghost use Rattle.sw_base.specs.declared.trouble.Trouble.TheVariants as trouble;

    ghost from_gives = { λ _ e. e ≡ trouble.Memory };

    fn from(_: AllocFailed<T>) -> Self {
        Trouble::Memory
    }
}

/// Counts one fault more where a log or a file with faults came back.
pub fn take_faults(faults: &mut u64, of_part: u64)
    ensures takes { TakesFaults of_part faults.old faults.new }
    ensures some { 0 < of_part → faults.new ≡ next_count faults.old }
    ensures none { of_part ≡ 0 → faults.new ≡ faults.old }
{
    if of_part > 0 {
        *faults = faults.saturating_add(1);
    }
}
