//! What the status of a run tells.
ghost use Rattle.std.specs.Prelude.{ℕ, List};
ghost use Rattle.log_format.specs.declared.format.TheConstants.{FORMAT};
ghost use Rattle.sw_base.specs.Environment.{Content, Rose};
ghost use Rattle.race_model.specs.BadPlace.{BadPlace, IsTooMany};
ghost use Rattle.race_model.specs.FirstBad.{IsBad};
ghost use Rattle.race_model.specs.KeepsRules.{KeepsRules};
ghost use Rattle.kernel_syntax.specs.Program.{Program};
ghost use Rattle.run_command.specs.Run.{EndedRun, RunDue, TellsFiles};

/// The status that is due of a run is the one of a refused kernel exactly where the file holds none, the one of an index exactly where
/// there is a kernel and the folder has an index, and else that of a run that ended or stopped.
pub fn statuses_tell_what_files_hold()
    ensures { (before after : ℕ) (kernel dir : List ℕ) (size : ℕ) (old new : Content) (status : ℕ) (text : List ℕ) → RunDue (Rose before after) kernel dir size old new status text
        → TellsFiles old.held kernel dir status }
{}

/// The logs of a run that ended keep every rule of a folder, and the folder is bad at most where a segment is one too many.
pub fn ended_runs_keep_the_rules()
    ensures rules { (kernel dir : List ℕ) (size : ℕ) (old new : Content) (program : Program) (count records : ℕ) (words : List ℕ)
        → (ended : EndedRun kernel dir size old new program count records words) → KeepsRules FORMAT ended.tasks }
    ensures well_formed { (kernel dir : List ℕ) (size : ℕ) (old new : Content) (program : Program) (count records : ℕ) (words : List ℕ)
        → EndedRun kernel dir size old new program count records words → (place : BadPlace) → IsBad FORMAT new.held dir place → IsTooMany place }
{}
