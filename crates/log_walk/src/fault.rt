use log_index::IndexAnswer;
use race_model::{IndexWhy, RecordWhy};
use std::alloc::{AllocError, AllocFailed};
use sw_base::{Memory, Path, Trouble};

/// Why a folder isn't walked: its first bad place, a read that failed, or no memory.
#[derive(Drop)]
pub enum WalkFault {
    /// There is no index.
    NoIndex,
    /// The index has this bad row. Rows are numbered from 1, and row 0 is the header.
    BadIndex {
        row: u32,
        why: IndexWhy,
    },
    /// The log of this task is missing.
    MissingLog {
        path: Path,
    },
    /// This record of the task's log breaks this rule. Records are numbered from 1, and record 0 is the header.
    BadRecord {
        path: Path,
        number: u32,
        why: RecordWhy,
    },
    /// This record opens the 65,537th segment with an access, counted over the logs in the order of their rows.
    TooManySegments {
        path: Path,
        number: u32,
    },
    /// A read failed.
    ReadFault,
    /// No memory was found.
    Memory,
}

impl WalkFault {
    ghost use Rattle.std.specs.Prelude.{◌≡◌};

    /// The same fault.
    pub fn copy(&self) -> WalkFault
        ensures { result ≡ self.now }
    {
        match self {
            WalkFault::NoIndex => WalkFault::NoIndex,
            WalkFault::BadIndex { row, why } => WalkFault::BadIndex {
                row: *row,
                why: *why,
            },
            WalkFault::MissingLog { path } => WalkFault::MissingLog { path: path.copy() },
            WalkFault::BadRecord { path, number, why } => WalkFault::BadRecord {
                path: path.copy(),
                number: *number,
                why: *why,
            },
            WalkFault::TooManySegments { path, number } => WalkFault::TooManySegments {
                path: path.copy(),
                number: *number,
            },
            WalkFault::ReadFault => WalkFault::ReadFault,
            WalkFault::Memory => WalkFault::Memory,
        }
    }
}

impl From<Memory> for WalkFault {
    ghost use Rattle.std.specs.Prelude.{◌≡◌};
    ghost use Rattle.log_walk.specs.declared.fault.WalkFault.TheVariants as fault;

    ghost from_gives = { λ _ e. e ≡ fault.Memory };

    fn from(_: Memory) -> Self {
        WalkFault::Memory
    }
}

impl From<AllocError> for WalkFault {
    ghost use Rattle.std.specs.Prelude.{◌≡◌};
    ghost use Rattle.log_walk.specs.declared.fault.WalkFault.TheVariants as fault;

    ghost from_gives = { λ _ e. e ≡ fault.Memory };

    fn from(_: AllocError) -> Self {
        WalkFault::Memory
    }
}

impl<T: Drop> From<AllocFailed<T>> for WalkFault {
    ghost use Rattle.std.specs.Prelude.{◌≡◌};
    ghost use Rattle.log_walk.specs.declared.fault.WalkFault.TheVariants as fault;

    ghost from_gives = { λ _ e. e ≡ fault.Memory };

    fn from(_: AllocFailed<T>) -> Self {
        WalkFault::Memory
    }
}

impl From<Trouble> for WalkFault {
    ghost use Rattle.std.specs.Prelude.{◌≡◌};
    ghost use Rattle.log_walk.specs.Walk.{walk_fault};

    ghost from_gives = { λ trouble e. e ≡ walk_fault trouble };

    fn from(trouble: Trouble) -> Self {
        match trouble {
            Trouble::Memory => WalkFault::Memory,
            Trouble::Failed => WalkFault::ReadFault,
        }
    }
}

impl From<IndexAnswer> for WalkFault {
    ghost use Rattle.std.specs.Prelude.{◌≡◌};
    ghost use Rattle.log_walk.specs.Walk.{of_index};

    ghost from_gives = { λ answer e. e ≡ of_index answer };

    fn from(answer: IndexAnswer) -> Self {
        match answer {
            IndexAnswer::NoIndex => WalkFault::NoIndex,
            IndexAnswer::Bad { row, why } => WalkFault::BadIndex { row, why },
            IndexAnswer::ReadFault => WalkFault::ReadFault,
            IndexAnswer::Memory => WalkFault::Memory,
        }
    }
}
