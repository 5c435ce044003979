//! Laws of a task's parts: they only add records.
ghost use Rattle.std.specs.Prelude.{ℤ, List, ℕ};
ghost use Rattle.kernel_syntax.specs.Tree.{Term, Code};
ghost use Rattle.kernel_syntax.specs.Program.{Program};
ghost use Rattle.kernel_model.specs.State.{State, state_of};
ghost use Rattle.kernel_model.specs.Value.{Site, value};
ghost use Rattle.kernel_model.specs.Trace.{Start, run, task, state_at};
ghost use Rattle.kernel_model.specs.Growth.{Grows};

/// Whatever a task does, it only adds records; each takes room in its log, and each Region record among them has its fork.
pub fn tasks_only_add_records()
    ensures by_a_value { (at : Site) (e : Term) (s : State) → Grows s (state_of (value at e s)) }
    ensures by_statements { (at : Site) (code : Code) (s : State) → Grows s (state_of (run at code s)) }
    ensures by_a_task { (program : Program) (start : Start) (reads : List ℤ) (chunks : List ℕ) →
        Grows (state_at start reads chunks) (state_of (task program start reads chunks)) }
{}
