//! Why a serial run doesn't go on.
ghost use Rattle.std.specs.Prelude.{◌≡◌};
ghost use Rattle.serial_team.specs.declared.stop.Stop.TheVariants as stop;
ghost use Rattle.serial_team.specs.Stopping.{TellsHalt, is_stopped};

use kernel_model::StopWhy;
use serial_run::Halt;
use std::alloc::{AllocError, AllocFailed};
use sw_base::Path;

/// Why a serial run doesn't go on.
#[derive(Drop)]
pub enum Stop {
    /// The task at this path stops at this line.
    Stopped { path: Path, line: u32, why: StopWhy },
    /// All records that the run may make are made, and the task at this path would put its record of this number, from 1.
    Long { path: Path, number: u32 },
    /// No memory was found. So it is also told of what no kernel has that is lawful and fixed: a statement that isn't executed here, a region
    /// deeper than four or without a lane, and lanes that don't meet.
    Memory,
}

impl Stop {
    /// Why the run doesn't go on where this task, which has put so many records, stands still.
    pub fn of(halt: Halt, path: &Path, count: u32) -> Stop
        ensures tells { TellsHalt path.now count halt result }
    {
        let path = path.copy();
        match halt {
            Halt::Stops { why, line } => Stop::Stopped { path, line, why },
            Halt::Long => Stop::Long {
                path,
                number: count.saturating_add(1),
            },
            Halt::Refused | Halt::Memory => Stop::Memory,
        }
    }

    /// Whether it is a task's own: the lanes beside it still go on to the end of their phase.
    pub(crate) fn is_of_task(&self) -> bool
        ensures { result ≡ is_stopped self.now }
    {
        matches!(self, Stop::Stopped { .. })
    }
}

impl From<AllocError> for Stop {
    ghost use Rattle.std.specs.Prelude.{◌≡◌};
    ghost use Rattle.serial_team.specs.declared.stop.Stop.TheVariants as stop;

    ghost from_gives = { λ _ e. e ≡ stop.Memory };

    fn from(_: AllocError) -> Self {
        Stop::Memory
    }
}

impl<T: Drop> From<AllocFailed<T>> for Stop {
    ghost use Rattle.std.specs.Prelude.{◌≡◌};
    ghost use Rattle.serial_team.specs.declared.stop.Stop.TheVariants as stop;

    ghost from_gives = { λ _ e. e ≡ stop.Memory };

    fn from(_: AllocFailed<T>) -> Self {
        Stop::Memory
    }
}
