ghost use Rattle.std.specs.Prelude.{◌≡◌, ℕ, List};
ghost use Rattle.sw_base.specs.Environment.{Content, Rose};
ghost use Rattle.race_model.specs.Trace.{Trace};
ghost use Rattle.kernel_syntax.specs.Program.{Program};
ghost use Rattle.kernel_file.specs.Holding.{HoldsKernel};
ghost use Rattle.command_answer.specs.declared.status.TheConstants.{DONE};
ghost use Rattle.run_command.specs.Run.{RunDue};
ghost use Rattle.certain_runs.specs.CertainRun.{IsCertainRun};
ghost use Rattle.certain_runs.specs.Leaving.{LeavesRun};

/// A run that ends with status 0 is the kernel's certain run, if it has one: the size of the buffers and the threads' timing change
/// nothing.
pub fn run_leaves_the_certain_run()
    ensures { (before after : ℕ) (kernel dir : List ℕ) (size : ℕ) (old new : Content) (status : ℕ) (text words : List ℕ) (program : Program) (run : Trace) →
        HoldsKernel old.held kernel program → IsCertainRun program run words → RunDue (Rose before after) kernel dir size old new status text → status ≡ DONE →
        LeavesRun dir size old new text program run words }
{}
