//! Why a task stops, and why a lane doesn't go on.

use sw_base::{Path, Trouble};

/// Why a task stops. A line is that of the operator, of the array's name, or of the record for which there is no room.
#[derive(Clone, Copy, Debug, PartialEq, Eq)]
pub enum Stop {
    /// A divisor is 0.
    DivZero { line: u32 },
    /// An index lies outside its array.
    Index { line: u32 },
    /// A log has room for no more records.
    LogFull { line: u32 },
    /// The run has too many tasks.
    Tasks { line: u32 },
    /// No memory was found, or a call on a log failed.
    Trouble(Trouble),
}

/// Why a lane doesn't go on: it stops itself, or a region that it forked did.
#[derive(Debug, Drop)]
pub enum Halt {
    /// Its own task stops so. For the number of tasks it does once the region that it forked last, at this line, has ended.
    Own(Stop),
    /// In the region that it forked last, the task of this path stopped so.
    Region(Path, Stop),
}

impl From<Stop> for Halt {
    ghost use Rattle.std.specs.Prelude.{◌≡◌};
    ghost use Rattle.lane_runner.specs.declared.stop.Halt.TheVariants.{Own};

    ghost from_gives = { λ stop halt. halt ≡ Own stop };

    fn from(stop: Stop) -> Self {
        Halt::Own(stop)
    }
}
