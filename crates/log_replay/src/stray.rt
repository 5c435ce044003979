//! Why a task doesn't follow its log any further.
use std::alloc::{AllocError, AllocFailed};
use sw_base::{Memory, Trouble};

/// Why a task doesn't follow its log any further.
#[derive(Clone, Copy)]
pub enum Stray {
    /// This record of the log isn't the trace's, numbered from 1.
    Differs { number: u32 },
    /// A read failed.
    ReadFault,
    /// No memory was found.
    Memory,
}

impl From<Trouble> for Stray {
    ghost use Rattle.std.specs.Prelude.{◌≡◌};
    ghost use Rattle.log_replay.specs.Trouble.{stray_of};

    ghost from_gives = { λ trouble e. e ≡ stray_of trouble };

    fn from(trouble: Trouble) -> Self {
        match trouble {
            Trouble::Memory => Stray::Memory,
            Trouble::Failed => Stray::ReadFault,
        }
    }
}

impl From<Memory> for Stray {
    ghost use Rattle.std.specs.Prelude.{◌≡◌};
    ghost use Rattle.log_replay.specs.declared.stray.Stray.TheVariants as stray;

    ghost from_gives = { λ _ e. e ≡ stray.Memory };

    fn from(_: Memory) -> Self {
        Stray::Memory
    }
}

impl From<AllocError> for Stray {
    ghost use Rattle.std.specs.Prelude.{◌≡◌};
    ghost use Rattle.log_replay.specs.declared.stray.Stray.TheVariants as stray;

    ghost from_gives = { λ _ e. e ≡ stray.Memory };

    fn from(_: AllocError) -> Self {
        Stray::Memory
    }
}

impl<T: Drop> From<AllocFailed<T>> for Stray {
    ghost use Rattle.std.specs.Prelude.{◌≡◌};
    ghost use Rattle.log_replay.specs.declared.stray.Stray.TheVariants as stray;

    ghost from_gives = { λ _ e. e ≡ stray.Memory };

    fn from(_: AllocFailed<T>) -> Self {
        Stray::Memory
    }
}
