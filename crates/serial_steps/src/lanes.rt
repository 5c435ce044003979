//! Serial runs of one kernel.
ghost use Rattle.std.specs.Prelude.{◌≡◌, ℕ};
ghost use Rattle.race_model.specs.Trace.{Trace};
ghost use Rattle.kernel_syntax.specs.Program.{Program};
ghost use Rattle.kernel_model.specs.Lawful.{IsLawful};
ghost use Rattle.certainty_model.specs.Certain.{IsFixed};
ghost use Rattle.serial_steps.specs.Lanes.{Still, GoesSerially};

/// Serial runs of a fixed kernel that have room for as many records make the same logs, leave the same memory and end in the same way.
pub fn serial_run_is_one()
    ensures one { (program : Program) (room : ℕ) (tasks others : Trace) (memory also : ℕ → ℕ) (end other : Still) → IsLawful program → IsFixed program.main.body →
        GoesSerially program room tasks memory end → GoesSerially program room others also other → (others ≡ tasks) × (also ≡ memory) × (other ≡ end) }
{}
