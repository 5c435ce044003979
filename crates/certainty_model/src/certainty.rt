ghost use Rattle.std.specs.Prelude.{◌≡◌, ℕ, List, Some, length};
ghost use Rattle.sw_base.specs.declared.path.Step.{Step};
ghost use Rattle.race_model.specs.Trace.{Trace, logs_of};
ghost use Rattle.race_model.specs.ForkJoin.{ListsTask};
ghost use Rattle.race_model.specs.History.{HasLegalHistory};
ghost use Rattle.kernel_syntax.specs.Program.{Program};
ghost use Rattle.kernel_model.specs.declared.stop.StopWhy.{StopWhy};
ghost use Rattle.kernel_model.specs.Trace.{Start, Stopped};
ghost use Rattle.kernel_model.specs.Folder.{start_at, IsTracedTo};
ghost use Rattle.kernel_model.specs.Lawful.{IsLawful};
ghost use Rattle.execution_model.specs.Execution.{IsExecution};
ghost use Rattle.certainty_model.specs.Certain.{IsRun, IsCertain, BeginsRun, AreSame};

/// Each task of an execution starts as in the certain run, and its log begins the run's, wherever the execution stopped.
pub fn executions_begin_the_certain_run()
    ensures { (program : Program) (run tasks : Trace) (address : ℕ → ℕ) (words : List ℕ) → IsLawful program → IsCertain program run →
        IsExecution program tasks address words → (path : List Step) → ListsTask tasks path → BeginsRun program run tasks path }
{}

/// The trace of no task of an execution ends in a stop.
pub fn certain_kernels_never_stop()
    ensures { (program : Program) (run tasks : Trace) (address : ℕ → ℕ) (words : List ℕ) → IsLawful program → IsCertain program run →
        IsExecution program tasks address words → (path : List Step) (start : Start) (why : StopWhy) (line : ℕ) → ListsTask tasks path →
        start_at program (logs_of tasks) path ≡ Some start → IsTracedTo program start (logs_of tasks path) (Stopped why line) → ⊥ }
{}

/// Every whole run has the logs of the certain one, and its tasks start alike.
pub fn certain_run_is_the_only_one()
    ensures { (program : Program) (run other : Trace) → IsLawful program → IsCertain program run → IsRun program other → AreSame program run other }
{}

/// And all legal histories of whole runs end in the same words.
pub fn certain_runs_end_alike()
    ensures { (program : Program) (run other : Trace) (address : ℕ → ℕ) (words others : List ℕ) → IsLawful program → IsCertain program run →
        IsRun program other → HasLegalHistory (logs_of run) address words → HasLegalHistory (logs_of other) address others →
        length words ≡ length others → words ≡ others }
{}
