ghost use Rattle.std.specs.Prelude.{◌≡◌, ◌≤◌, ◌+◌, ℕ, List, ◌++◌, length};
ghost use Rattle.sw_base.specs.declared.path.Step.{Step};
ghost use Rattle.race_model.specs.Trace.{Trace, logs_of};
ghost use Rattle.race_model.specs.ForkJoin.{ListsTask, IsTreeTrace, IsTask};
ghost use Rattle.history_model.specs.Work.{Work, RegionWork, task_logs};
ghost use Rattle.history_model.specs.Sound.{WordLayout, IsSound};
ghost use Rattle.history_model.specs.Tasks.{region_tasks, tree_tasks};

/// The tasks of a sound tree of work are a tree, and their logs are those of the work; up to the depth that is asked for, each
/// task with a record is one of them. Regions forked later have their tasks later.
pub fn tasks_of_a_tree_of_work()
    ensures tree { (layout : WordLayout) (depth : ℕ) (root : Work) → IsSound layout root → IsTreeTrace (tree_tasks depth root) }
    ensures logs { (depth : ℕ) (root : Work) (path : List Step) → ListsTask (tree_tasks depth root) path → logs_of (tree_tasks depth root) path ≡ task_logs root path }
    ensures all { (layout : WordLayout) (depth : ℕ) (root : Work) (path : List Step) → IsSound layout root → length path ≤ depth → IsTask (task_logs root) path →
        ListsTask (tree_tasks depth root) path }
    ensures later { (below : List Step → List Work → Trace) (path : List Step) (g : ℕ) (regions more : List RegionWork) →
        region_tasks below path g (regions ++ more) ≡ region_tasks below path g regions ++ region_tasks below path (g + length regions) more }
{}
