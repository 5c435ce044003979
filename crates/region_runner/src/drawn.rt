//! That the lanes of a team draw each chunk once.
ghost use Rattle.std.specs.Prelude.{ℕ, List};
ghost use Rattle.log_format.specs.declared.record.Record.{Record};
ghost use Rattle.execution_model.specs.Execution.{DrewSome};
ghost use Rattle.shared_words.specs.Draws.{AreEachOnce, numbers};
ghost use Rattle.region_runner.specs.Drawing.{DrewByLogs};

/// Where the hands of all lanes drew of each loop the numbers below some number, each once, so the logs tell it.
pub fn hands_tell_each_chunk_once()
    ensures { (counts : List ℕ) (logs : List (List Record)) (drawn : List (ℕ × ℕ)) → DrewByLogs counts logs drawn
        → ((loop : ℕ) → AreEachOnce (numbers loop drawn)) → (loop : ℕ) → DrewSome logs loop }
{}
