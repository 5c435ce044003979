ghost use Rattle.std.specs.Prelude.{◌<◌, ◌≤◌, ℕ, List, length, take};
ghost use Rattle.sw_base.specs.declared.path.Step.{Step};
ghost use Rattle.race_model.specs.Order.{IsLane};
ghost use Rattle.race_model.specs.Trace.{Node, barrier_count};
ghost use Rattle.history_model.specs.Work.{Work, task_logs};
ghost use Rattle.history_model.specs.Sound.{WordLayout, IsSound};

/// Also in a run that stopped, a lane goes on after a barrier only once each lane of its team has passed the barrier of that
/// number.
pub fn barriers_are_met()
    ensures { (layout : WordLayout) (root : Work) (fork : Node) (lane other span : ℕ) (path beside : List Step) (i : ℕ) → IsSound layout root →
        IsLane (task_logs root) fork lane span path → IsLane (task_logs root) fork other span beside → i < length (task_logs root path) →
        barrier_count (take i (task_logs root path)) ≤ barrier_count (task_logs root beside) }
{}
