//! That the tasks of a tree of work stand in the order of an index.
ghost use Rattle.std.specs.Prelude.{ℕ};
ghost use Rattle.race_model.specs.Listing.{IsListing};
ghost use Rattle.kernel_model.specs.Folder.{paths_of};
ghost use Rattle.history_model.specs.Work.{Work};
ghost use Rattle.execution_model.specs.Runs.{IsWithin, logged_tasks};
ghost use Rattle.execution_laws.specs.Nesting.{NestsWithin};

/// Where at most so many regions nest in a tree of work, its tasks are listed as in an index, and none lies deeper.
pub fn tasks_of_works_are_listed()
    ensures listed { (depth : ℕ) (root : Work) → NestsWithin depth root → IsListing (paths_of (logged_tasks depth root)) }
    ensures within { (depth : ℕ) (root : Work) → NestsWithin depth root → IsWithin depth root }
{}
