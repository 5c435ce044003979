//! Histories of the run of two lanes.
ghost use Rattle.std.specs.Prelude.{ℕ, List, [], ◌∷◌};
ghost use Rattle.execution_model.specs.Execution.{IsExecution};
ghost use Rattle.execution_model.specs.Elements.{element_address};
ghost use Rattle.run_cases.specs.TwoLanes.{kernel, second_log, tasks, tasks_of};

/// Behind their barrier lane 1 finds what lane 0 wrote before it.
pub fn reads_find_writes_before_them()
    ensures { (address : ℕ → ℕ) (words : List ℕ) → IsExecution kernel (tasks_of [] (second_log 0)) address words → ⊥ }
{}

/// The words are those of the run's own history.
pub fn words_are_those_of_the_history()
    ensures { IsExecution kernel tasks (element_address kernel.arrays) (1 ∷ 0 ∷ []) → ⊥ }
{}
