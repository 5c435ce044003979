//! That a run whose root ended left the folder of a whole run.
ghost use Rattle.std.specs.Prelude.{ℕ, List, []};
ghost use Rattle.race_model.specs.Listing.{IsListing};
ghost use Rattle.race_model.specs.Trace.{Trace, logs_of};
ghost use Rattle.kernel_syntax.specs.Program.{Program};
ghost use Rattle.kernel_model.specs.Folder.{IsTracedFolder, paths_of};
ghost use Rattle.history_model.specs.Joined.{LastIsEnd};
ghost use Rattle.execution_model.specs.Execution.{IsExecution};

/// Where the root of an execution ended, all its tasks did, and they are those of a whole run of the kernel, each with its trace.
pub fn ended_executions_are_whole()
    ensures { (program : Program) (tasks : Trace) (address : ℕ → ℕ) (words : List ℕ) → IsExecution program tasks address words
        → IsListing (paths_of tasks) → LastIsEnd (logs_of tasks []) → IsTracedFolder program tasks }
{}
