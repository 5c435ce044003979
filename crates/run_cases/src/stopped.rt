//! A run of two lanes.
ghost use Rattle.std.specs.Prelude.{ℕ, List, [], ◌∷◌, ◌++◌, take};
ghost use Rattle.log_format.specs.declared.record.Kind.TheVariants as kind;
ghost use Rattle.kernel_model.specs.declared.stop.StopWhy.TheVariants as reason;
ghost use Rattle.kernel_model.specs.State.{event};
ghost use Rattle.execution_model.specs.Execution.{IsExecution};
ghost use Rattle.run_command.specs.Run.{AreStopped};
ghost use Rattle.serial_steps.specs.Lanes.{Still, GoesSerially};
ghost use Rattle.run_cases.specs.TwoLanes.{kernel, dir, size, logs, memory, team_path, tasks, tasks_of, second_log};

/// Lane 0 stops, since an index lies outside its array, and all logs are whole.
pub fn a_lane_stops()
    ensures { AreStopped ⊥ kernel dir size logs (team_path 0) 6 reason.Index }
{}

/// A lane passes no barrier behind one that another lane of its team hasn't come to, and a task goes on behind a region only once all of
/// its lanes ended.
pub fn tasks_wait_for_others()
    ensures met { (address : ℕ → ℕ) (words : List ℕ) → IsExecution kernel (tasks_of [] (second_log 1 ++ event kind.Barrier 8 0 0 ∷ [])) address words → ⊥ }
    ensures joined { (address : ℕ → ℕ) (words : List ℕ) → IsExecution kernel (tasks_of (event kind.End 10 0 0 ∷ []) (second_log 1)) address words → ⊥ }
{}

/// The same tasks are those of the serial run, which ends at the stop of lane 0, past which lane 1 still goes on; with room for one record less it ends
/// where lane 1 would make one too many, which goes before the stop.
pub fn a_serial_run_stops()
    ensures stops { GoesSerially kernel 7 tasks memory (Still.stopped (team_path 0) 6 reason.Index) }
    ensures is_long { GoesSerially kernel 6 (tasks_of [] (take 3 (second_log 1))) memory (Still.too_long (team_path 1) 4) }
{}
