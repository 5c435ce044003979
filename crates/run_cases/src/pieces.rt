//! Logs, draws and regions of stopped runs.
ghost use Rattle.std.specs.Prelude.{ℕ, List, [], ◌∷◌};
ghost use Rattle.kernel_syntax.specs.Program.{Program};
ghost use Rattle.race_model.specs.Listing.{IsListing};
ghost use Rattle.kernel_model.specs.Folder.{paths_of};
ghost use Rattle.history_model.specs.Work.{Rest};
ghost use Rattle.execution_model.specs.Execution.{DrewSome, IsExecution};
ghost use Rattle.lane_runner.specs.Stopping.{RestsBelow};
ghost use Rattle.run_command.specs.Run.{IsTornLog};
ghost use Rattle.run_cases.specs.TwoLanes.{dir, size, main_task, lane_task, first_log, second_log};
ghost use Rattle.run_cases.specs.Pieces.{torn_log, long_log, loop_logs, same_chunk, at_once, after_region};

/// With two records a block, a log that was refused may lack four, and not five.
pub fn torn_logs_lack_two_blocks()
    ensures two_blocks { IsTornLog dir size (lane_task 1 (second_log 1)) (torn_log (second_log 1) 0 []) }
    ensures one_more { IsTornLog dir size (lane_task 1 long_log) (torn_log long_log 0 []) → ⊥ }
{}

/// The record that closes a drawn loop tells how many chunks were drawn.
pub fn draws_close_with_their_count()
    ensures drawn { DrewSome (loop_logs 2) 0 }
    ensures more { DrewSome (loop_logs 3) 0 → ⊥ }
    ensures fewer { DrewSome (loop_logs 1) 0 → ⊥ }
{}

/// No two lanes of an execution draw one chunk.
pub fn each_chunk_is_drawn_once()
    ensures { (program : Program) (address : ℕ → ℕ) (words : List ℕ) → IsExecution program same_chunk address words → ⊥ }
{}

/// No lane of a region is missing among the tasks.
pub fn runs_keep_all_lanes()
    ensures { IsListing (paths_of (main_task [] ∷ lane_task 0 first_log ∷ [])) → ⊥ }
{}

/// A run has too many tasks only behind a region whose lanes ended.
pub fn tasks_stop_behind_ended_lanes()
    ensures ended { RestsBelow 3 (after_region at_once ∷ []) [] }
    ensures unended { RestsBelow 3 (after_region Rest ∷ []) [] → ⊥ }
{}
