ghost use Rattle.std.specs.Prelude.{ℕ, ◌+◌, List};
ghost use Rattle.sw_base.specs.declared.path.Step.{Step};
ghost use Rattle.race_model.specs.Order.{IsLane};
ghost use Rattle.race_model.specs.Trace.{Node, IsThere};
ghost use Rattle.history_model.specs.Work.{Work, task_logs};
ghost use Rattle.history_model.specs.Sound.{WordLayout, IsSound};
ghost use Rattle.history_model.specs.Joined.{IsJoined, LastIsEnd};

/// Also in a run that stopped, where a task's log goes on after a region, the log of each lane of the region ends with an End.
pub fn lanes_end_before_their_task_goes_on()
    ensures { (layout : WordLayout) (root : Work) (fork : Node) (lane span : ℕ) (path : List Step) → IsSound layout root → IsJoined root →
        IsLane (task_logs root) fork lane span path → IsThere (task_logs root) (record { path = fork.path; index = fork.index + 1 }) →
        LastIsEnd (task_logs root path) }
{}
