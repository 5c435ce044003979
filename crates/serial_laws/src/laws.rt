//! What a serial run is to its kernel.
ghost use Rattle.std.specs.Prelude.{◌≡◌, ℕ, List};
ghost use Rattle.log_format.specs.declared.format.TheConstants.{FORMAT};
ghost use Rattle.race_model.specs.KeepsRules.{KeepsRules};
ghost use Rattle.race_model.specs.Listing.{IsListing};
ghost use Rattle.race_model.specs.Race.{IsRacePair};
ghost use Rattle.race_model.specs.Trace.{Trace, logs_of};
ghost use Rattle.kernel_syntax.specs.Program.{Program};
ghost use Rattle.kernel_model.specs.Folder.{paths_of};
ghost use Rattle.kernel_model.specs.Lawful.{IsLawful};
ghost use Rattle.history_model.specs.Sound.{WordLayout};
ghost use Rattle.execution_model.specs.Execution.{IsExecution};
ghost use Rattle.execution_model.specs.Runs.{logged_tasks};
ghost use Rattle.certainty_model.specs.Certain.{IsCertain, IsFixed, IsRun};
ghost use Rattle.serial_run.specs.Placing.{ElementLayout, OfLog, TellsWords};
ghost use Rattle.serial_team.specs.Members.{WholeLog};
ghost use Rattle.serial_team.specs.Running.{DidRoot};
ghost use Rattle.serial_team.specs.Stopping.{RootStopped, StopAt};
ghost use Rattle.serial_model.specs.Order.{HasSerialHistory};
ghost use Rattle.serial_laws.specs.SerialRuns.{EndsSerially, IsSerialRun, IsStoppedWork, LogsSerialRun};

/// A root that ran to its end, lane after lane, ran the kernel serially: its logs spell the tasks of that run, and its words are those
/// that the run leaves. It has no more records than there was room for.
pub fn serial_teams_run_the_kernel()
    ensures { (layout : ElementLayout) (program : Program) (left : ℕ) (logs : List WholeLog) (words : List ℕ) → IsLawful program →
        TellsWords program.arrays layout → layout.bound ≡ OfLog → DidRoot layout program left logs words → LogsSerialRun program layout.words left logs words }
{}

/// Of a fixed kernel it is the serial run, lane after lane.
pub fn serial_teams_go_serially()
    ensures { (layout : ElementLayout) (program : Program) (left : ℕ) (logs : List WholeLog) (words : List ℕ) → IsLawful program → IsFixed program.main.body →
        TellsWords program.arrays layout → layout.bound ≡ OfLog → DidRoot layout program left logs words → EndsSerially program layout.words left logs words }
{}

/// Where the root or a task below it stopped, all that was done is the work of a fork-join run, in serial order.
pub fn stopped_teams_work_serially()
    ensures { (layout : ElementLayout) (program : Program) (left : ℕ) (first : StopAt) → IsLawful program → TellsWords program.arrays layout →
        (s : RootStopped layout program left first) → IsStoppedWork program layout.words s.stopped.work s.after.words }
{}

/// So the logs of its tasks are an execution of the kernel, listed as in an index, and a legal history of them in serial order ends in its words.
pub fn stopped_teams_begin_a_run()
    ensures execution { (layout : ElementLayout) (program : Program) (left : ℕ) (first : StopAt) → IsLawful program → TellsWords program.arrays layout →
        (s : RootStopped layout program left first) → layout.bound ≡ OfLog → IsExecution program (logged_tasks 4 s.stopped.work) layout.words.address s.after.words }
    ensures listed { (layout : ElementLayout) (program : Program) (left : ℕ) (first : StopAt) → IsLawful program → TellsWords program.arrays layout →
        (s : RootStopped layout program left first) → layout.bound ≡ OfLog → IsListing (paths_of (logged_tasks 4 s.stopped.work)) }
    ensures history { (layout : ElementLayout) (program : Program) (left : ℕ) (first : StopAt) → IsLawful program → TellsWords program.arrays layout →
        (s : RootStopped layout program left first) → layout.bound ≡ OfLog → HasSerialHistory (logs_of (logged_tasks 4 s.stopped.work)) layout.words.address s.after.words }
{}

/// The tasks of a serial run are those of a whole run, in the order of an index, and a legal history of them in serial order ends in its words.
pub fn serial_runs_are_whole_runs()
    ensures run { (program : Program) (layout : WordLayout) (tasks : Trace) (words : List ℕ) → IsSerialRun program layout tasks words → IsRun program tasks }
    ensures listed { (program : Program) (layout : WordLayout) (tasks : Trace) (words : List ℕ) → IsSerialRun program layout tasks words → IsListing (paths_of tasks) }
    ensures ends { (program : Program) (layout : WordLayout) (tasks : Trace) (words : List ℕ) → IsSerialRun program layout tasks words →
        HasSerialHistory (logs_of tasks) layout.address words }
{}

/// The tasks that such logs are of keep every rule of a folder.
pub fn serial_logs_keep_the_rules()
    ensures { (program : Program) (layout : WordLayout) (limit : ℕ) (logs : List WholeLog) (words : List ℕ) → IsLawful program →
        (l : LogsSerialRun program layout limit logs words) → KeepsRules FORMAT l.tasks }
{}

/// A serial run of a fixed kernel in which no two records race is the certain run.
pub fn serial_runs_without_races_are_certain()
    ensures { (program : Program) (layout : WordLayout) (tasks : Trace) (words : List ℕ) → IsFixed program.main.body → IsSerialRun program layout tasks words →
        ((pair : ℕ × ℕ) → IsRacePair (logs_of tasks) pair → ⊥) → IsCertain program tasks }
{}
