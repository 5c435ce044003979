ghost use Rattle.std.specs.Prelude.{List, [], ℕ};
ghost use Rattle.race_model.specs.Trace.{Logs};
ghost use Rattle.race_model.specs.History.{IsReleased, HasLegalHistory};
ghost use Rattle.step_history.specs.History.{HasHistory};
ghost use Rattle.history_model.specs.Work.{Work, task_logs};
ghost use Rattle.history_model.specs.Did.{did};
ghost use Rattle.history_model.specs.Sound.{WordLayout, IsSound, HasAddresses, AreFitted};

/// Where the steps of all hands of a run have one legal history over words of 64 bits, the logs of all its tasks have one over the
/// values of the elements: it has each access and each mutex step of each log once, it respects the forks, joins and barriers, and it
/// ends in the fitted values of the words.
pub fn history_of_a_run()
    ensures { (layout : WordLayout) (root : Work) (memory words : List ℕ) → IsSound layout root → HasAddresses layout memory → AreFitted layout memory words →
        HasHistory (did layout.word [] 0 root) memory → HasLegalHistory (task_logs root) layout.address words }
{}

/// The same of a run that stopped, where each task that held mutexes at its end releases them: its log is without these unlocks.
pub fn history_of_a_stopped_run()
    ensures { (layout : WordLayout) (root : Work) (memory words : List ℕ) (logs : Logs) → IsSound layout root → HasAddresses layout memory →
        AreFitted layout memory words → HasHistory (did layout.word [] 0 root) memory → IsReleased logs (task_logs root) → HasLegalHistory logs layout.address words }
{}
