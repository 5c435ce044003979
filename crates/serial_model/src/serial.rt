ghost use Rattle.std.specs.Prelude.{ℕ, List, []};
ghost use Rattle.race_model.specs.Listing.{IsListing};
ghost use Rattle.race_model.specs.History.{IsReleased};
ghost use Rattle.race_model.specs.Trace.{Logs, logs_of};
ghost use Rattle.kernel_syntax.specs.Program.{Program};
ghost use Rattle.kernel_model.specs.Folder.{paths_of};
ghost use Rattle.step_history.specs.History.{HasHistory};
ghost use Rattle.history_model.specs.Work.{Work, task_logs};
ghost use Rattle.history_model.specs.Did.{did};
ghost use Rattle.history_model.specs.Joined.{IsJoined};
ghost use Rattle.history_model.specs.Sound.{WordLayout, IsSound, HasAddresses, AreFitted};
ghost use Rattle.execution_model.specs.Runs.{logged_tasks};
ghost use Rattle.certainty_model.specs.Certain.{IsRun};
ghost use Rattle.serial_model.specs.Order.{HasSerialHistory};
ghost use Rattle.serial_model.specs.Serial.{IsSerial, Leaves, RunsSerially};

/// What a tree of work did serially is its own history, and ends in the words that it leaves.
pub fn serial_work_has_a_history()
    ensures { (word : ℕ → ℕ) (root : Work) (memory : List ℕ) → IsSerial word root → Leaves word root memory → HasHistory (did word [] 0 root) memory }
{}

/// The logs of a serial run are those of a whole run, listed as in an index, and a legal history of them in serial order ends in its words.
pub fn serial_runs_are_runs()
    ensures run { (program : Program) (layout : WordLayout) (depth : ℕ) (root : Work) (memory words : List ℕ) →
        RunsSerially program layout depth root memory words → IsRun program (logged_tasks depth root) }
    ensures listed { (program : Program) (layout : WordLayout) (depth : ℕ) (root : Work) (memory words : List ℕ) →
        RunsSerially program layout depth root memory words → IsListing (paths_of (logged_tasks depth root)) }
    ensures ends { (program : Program) (layout : WordLayout) (depth : ℕ) (root : Work) (memory words : List ℕ) →
        RunsSerially program layout depth root memory words → HasSerialHistory (logs_of (logged_tasks depth root)) layout.address words }
{}

/// The order in which a tree of work lists its steps is the serial order: where each step finds what those before it left, the logs of its tasks,
/// without the unlocks of what they held when they stopped, have a legal history in serial order.
pub fn work_is_told_in_serial_order()
    ensures { (layout : WordLayout) (root : Work) (memory words : List ℕ) (logs : Logs) → IsSound layout root → IsJoined root → HasAddresses layout memory →
        AreFitted layout memory words → IsSerial layout.word root → Leaves layout.word root memory → IsReleased logs (task_logs root) →
        HasSerialHistory logs layout.address words }
{}
