//! What comes out of a run.

use kernel_file::KernelRefusal;
use kernel_model::StopWhy;
use kernel_syntax::Kernel;
use kernel_text::KernelWhy;
use sw_base::{Memory, Path, Trouble};

/// What came out of a run.
#[derive(Drop)]
pub enum Outcome {
    /// There is no file of the kernel's name.
    NoKernel,
    /// The file's text is no kernel, first for this reason at this line.
    Refused {
        line: u32,
        why: KernelWhy,
    },
    /// The folder has an index.
    IndexThere,
    /// The kernel stopped in the task of this path, and its logs are there.
    Stopped {
        path: Path,
        line: u32,
        why: StopWhy,
    },
    /// The run of the kernel ended with so many tasks, so many records in all, and these values of its elements. Its logs and their index are
    /// there.
    Ran {
        kernel: Kernel,
        tasks: usize,
        records: u64,
        words: Vec<u64>,
    },
    /// A read failed.
    ReadFault,
    /// A write failed.
    WriteFault,
    /// No memory was found.
    NoMemory,
}

impl From<Trouble> for Outcome {
    ghost use Rattle.std.specs.Prelude.{◌≡◌};
    ghost use Rattle.run_command.specs.Outcomes.{after_failed_read};

    ghost from_gives = { λ trouble o. o ≡ after_failed_read trouble };

    /// After a read.
    fn from(trouble: Trouble) -> Self {
        match trouble {
            Trouble::Memory => Outcome::NoMemory,
            Trouble::Failed => Outcome::ReadFault,
        }
    }
}

impl From<KernelRefusal> for Outcome {
    ghost use Rattle.std.specs.Prelude.{◌≡◌};
    ghost use Rattle.run_command.specs.Outcomes.{unkernelled};

    ghost from_gives = { λ why o. o ≡ unkernelled why };

    fn from(why: KernelRefusal) -> Self {
        match why {
            KernelRefusal::NoKernel => Outcome::NoKernel,
            KernelRefusal::Refused { line, why } => Outcome::Refused { line, why },
            KernelRefusal::Trouble(trouble) => Outcome::from(trouble),
        }
    }
}

impl From<Memory> for Outcome {
    ghost use Rattle.std.specs.Prelude.{◌≡◌};
    ghost use Rattle.run_command.specs.declared.outcome.Outcome.TheVariants as outcome;

    ghost from_gives = { λ _ o. o ≡ outcome.NoMemory };

    fn from(_: Memory) -> Self {
        Outcome::NoMemory
    }
}
