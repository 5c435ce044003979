ghost use Rattle.std.specs.Prelude.{◌≡◌, ℕ, List};
ghost use Rattle.race_model.specs.Trace.{Trace};
ghost use Rattle.kernel_syntax.specs.Program.{Program};
ghost use Rattle.kernel_model.specs.Lawful.{IsLawful};
ghost use Rattle.run_command.specs.Run.{IsWholeRun};
ghost use Rattle.certain_runs.specs.CertainRun.{IsCertainRun};

/// The tasks of a run that ended are those of the certain run, in the same order and with the same records, and so are its words.
pub fn ended_runs_are_the_certain_run()
    ensures tasks { (program : Program) (run tasks : Trace) (words others : List ℕ) → IsLawful program → IsCertainRun program run words →
        IsWholeRun program tasks others → tasks ≡ run }
    ensures words { (program : Program) (run tasks : Trace) (words others : List ℕ) → IsLawful program → IsCertainRun program run words →
        IsWholeRun program tasks others → others ≡ words }
{}
