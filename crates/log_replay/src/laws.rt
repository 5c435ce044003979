ghost use Rattle.std.specs.Prelude.{◌≡◌, ℕ, List};
ghost use Rattle.sw_base.specs.declared.path.Step.{Step};
ghost use Rattle.race_model.specs.Trace.{Trace};
ghost use Rattle.kernel_syntax.specs.Program.{Program};
ghost use Rattle.kernel_model.specs.Folder.{IsTracedFolder};
ghost use Rattle.log_replay.specs.Replaying.{DiffersFirst};

/// Tasks that differ from their traces are no run of the kernel.
pub fn tasks_that_differ_are_no_run()
    ensures { (program : Program) (tasks : Trace) (path : List Step) (number : ℕ) → DiffersFirst program tasks path number → IsTracedFolder program tasks → ⊥ }
{}

/// There is at most one record that differs first.
pub fn first_record_that_differs_is_unique()
    ensures { (program : Program) (tasks : Trace) (path other : List Step) (number also : ℕ) → DiffersFirst program tasks path number → DiffersFirst program tasks other also
        → (path ≡ other) × (number ≡ also) }
{}
