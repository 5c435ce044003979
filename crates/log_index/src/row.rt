ghost use Rattle.std.specs.Prelude.{◌≡◌, ◌≤◌, length};

use race_model::IndexWhy;
use std::alloc::{AllocError, AllocFailed};
use std::marker::Model;
use sw_base::{Memory, Path, Step, Trouble};

/// A task: its path, and how many records its log has.
#[derive(Drop)]
pub struct Row {
    pub path: Path,
    pub records: u32,
}

impl Model for Row {
    ghost use Rattle.race_model.specs.Row.{Row as TaskRow};

    ghost Value = { TaskRow };

    ghost view = { λ row. record { path = row.path; records = row.records } };
}

impl Row {
    /// The steps of the task's path.
    pub fn steps(&self) -> &[Step]
        ensures steps { result.now ≡ self.now.path }
        ensures depth { length self.now.path ≤ 4 }
    {
        self.path.steps()
    }
}

/// Why no rows were read.
#[derive(Clone, Copy, Debug, PartialEq, Eq)]
pub enum IndexAnswer {
    /// The folder has no index.
    NoIndex,
    /// The first bad row, numbered from 1, and the first rule that it breaks. Row 0 is the header.
    Bad { row: u32, why: IndexWhy },
    /// The environment failed in a read.
    ReadFault,
    /// No memory was found.
    Memory,
}

impl From<Memory> for IndexAnswer {
    ghost use Rattle.std.specs.Prelude.{◌≡◌};
    ghost use Rattle.log_index.specs.declared.row.IndexAnswer.TheVariants as answer;

    ghost from_gives = { λ _ e. e ≡ answer.Memory };

    fn from(_: Memory) -> Self {
        IndexAnswer::Memory
    }
}

impl From<AllocError> for IndexAnswer {
    ghost use Rattle.std.specs.Prelude.{◌≡◌};
    ghost use Rattle.log_index.specs.declared.row.IndexAnswer.TheVariants as answer;

    ghost from_gives = { λ _ e. e ≡ answer.Memory };

    fn from(_: AllocError) -> Self {
        IndexAnswer::Memory
    }
}

impl<T: Drop> From<AllocFailed<T>> for IndexAnswer {
    ghost use Rattle.std.specs.Prelude.{◌≡◌};
    ghost use Rattle.log_index.specs.declared.row.IndexAnswer.TheVariants as answer;

    ghost from_gives = { λ _ e. e ≡ answer.Memory };

    fn from(_: AllocFailed<T>) -> Self {
        IndexAnswer::Memory
    }
}

impl From<Trouble> for IndexAnswer {
    ghost use Rattle.log_index.specs.Answers.{answer_of};
    ghost use Rattle.std.specs.Prelude.{◌≡◌};

    ghost from_gives = { λ t e. e ≡ answer_of t };

    fn from(trouble: Trouble) -> Self {
        match trouble {
            Trouble::Memory => IndexAnswer::Memory,
            Trouble::Failed => IndexAnswer::ReadFault,
        }
    }
}
