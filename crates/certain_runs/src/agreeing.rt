ghost use Rattle.std.specs.Prelude.{◌≡◌, ℕ, List};
ghost use Rattle.sw_base.specs.Environment.{Content, Rose};
ghost use Rattle.command_answer.specs.declared.status.TheConstants.{DONE, KERNEL_STOPPED};
ghost use Rattle.run_command.specs.Run.{RunDue};
ghost use Rattle.certify_command.specs.Certify.{CertifyDue};
ghost use Rattle.certain_runs.specs.Leaving.{RunsAsCertified};

/// Where `certify` of a kernel ends with status 0, each `run` of it that does so too leaves the logs of the serial run of `certify`, and prints what
/// `certify` printed after its first line.
pub fn runs_are_as_certified()
    ensures { (before after : ℕ) (kernel dir : List ℕ) (size : ℕ) (old new : Content) (told status : ℕ) (verdict text : List ℕ) → CertifyDue old.held kernel told verdict → told ≡ DONE →
        RunDue (Rose before after) kernel dir size old new status text → status ≡ DONE → RunsAsCertified kernel dir size old new verdict text }
{}

/// And no `run` of it stops.
pub fn certified_kernels_never_stop()
    ensures { (before after : ℕ) (kernel dir : List ℕ) (size : ℕ) (old new : Content) (told status : ℕ) (verdict text : List ℕ) → CertifyDue old.held kernel told verdict → told ≡ DONE →
        RunDue (Rose before after) kernel dir size old new status text → status ≡ KERNEL_STOPPED → ⊥ }
{}
