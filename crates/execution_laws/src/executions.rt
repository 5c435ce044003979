ghost use Rattle.std.specs.Prelude.{ℕ, List, [], ◌∷◌};
ghost use Rattle.kernel_syntax.specs.Program.{Program};
ghost use Rattle.kernel_model.specs.Folder.{root_start};
ghost use Rattle.step_history.specs.History.{HasHistory};
ghost use Rattle.history_model.specs.Work.{Work};
ghost use Rattle.history_model.specs.Did.{did};
ghost use Rattle.history_model.specs.Sound.{WordLayout, IsSound, HasAddresses, AreFitted};
ghost use Rattle.history_model.specs.Joined.{IsJoined};
ghost use Rattle.execution_model.specs.Execution.{IsExecution};
ghost use Rattle.execution_model.specs.Runs.{RunsTask, IsWithin, logged_tasks};

/// The logs of a tree of work are an execution of the kernel, where the tree is that of a fork-join run whose tasks begin their
/// traces, and the steps of all hands have one legal history over words of 64 bits; it ends in the fitted values of the words.
pub fn trees_of_work_are_executions()
    ensures { (program : Program) (layout : WordLayout) (depth : ℕ) (root : Work) (memory words : List ℕ) → IsSound layout root → IsJoined root →
        RunsTask program (root_start program) (root ∷ []) → IsWithin depth root → HasAddresses layout memory → AreFitted layout memory words →
        HasHistory (did layout.word [] 0 root) memory → IsExecution program (logged_tasks depth root) layout.address words }
{}
