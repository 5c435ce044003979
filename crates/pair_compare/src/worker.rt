ghost use Rattle.std.specs.Prelude.{◌≡◌, OnOk};
ghost use Rattle.pair_compare.specs.Conflict.{AddsPairs, OneHas};
ghost use Rattle.pair_compare.specs.Work.{HasSearched, HasNothing, IsTaskPair};

use crate::collecting::search_task;
use crate::task::Task;
use std::alloc::Global;
use std::collections::BTreeSet;
use sw_base::Memory;

/// One of those that compare at once: its tasks, what it found, and whether it wanted memory.
#[derive(Drop)]
pub struct Worker<'t, 'g, 's> {
    pub tasks: &'t [Task<'g, 's>],
    pub pairs: BTreeSet<(u32, u32)>,
    pub refused: bool,
}

pub fn search_tasks(
    alloc: Global,
    tasks: &[Task],
    pairs: &mut BTreeSet<(u32, u32)>,
) -> Result<(), Memory>
    ensures { OnOk result (AddsPairs pairs.old.keys pairs.new.keys (OneHas IsTaskPair tasks.now)) }
{
    // One vector serves all tasks.
    let mut hulls = Vec::new(alloc);
    for task in tasks {
        search_task(alloc, task, &mut hulls, pairs)?;
    }
    Ok(())
}

impl<'t, 'g, 's> Worker<'t, 'g, 's> {
    pub fn new(alloc: Global, tasks: &'t [Task<'g, 's>]) -> Worker<'t, 'g, 's>
        ensures tasks { result.tasks.now ≡ tasks.now }
        ensures fresh { HasNothing result }
    {
        Worker {
            tasks,
            pairs: BTreeSet::new(alloc),
            refused: false,
        }
    }

    pub fn search(&mut self, alloc: Global)
        ensures { HasSearched self.old self.new }
    {
        let answer = search_tasks(alloc, self.tasks, &mut self.pairs);
        self.refused = answer.is_err();
    }
}
