//! The root: the task that executes `main`. It is no lane of a region.
ghost use Rattle.std.specs.Prelude.{◌≡◌, ◌+◌, ℕ, map, length, is_some, pos, replicate, IfOk};
ghost use Rattle.std.specs.Thread.{IsSend, IsSync};
ghost use Rattle.kernel_syntax.specs.Program.{program_of};
ghost use Rattle.kernel_model.specs.Lawful.{IsLawful};
ghost use Rattle.kernel_model.specs.Parts.{drawn_count};
ghost use Rattle.kernel_model.specs.Phases.{part_of};
ghost use Rattle.lane_runner.specs.Forking.{IsReady};
ghost use Rattle.lane_runner.specs.Handed.{entries_of};
ghost use Rattle.region_runner.specs.Answer.{IsRootLog};
ghost use Rattle.region_runner.specs.Ground.{IsOurLane, IsOurPhase, crew_of};
ghost use Rattle.region_runner.specs.LastPhase.{IsLast};
ghost use Rattle.region_runner.specs.Root.{IsSettled, RanRoot, RootClosed};
ghost use Rattle.region_runner.specs.Stands.{IsFresh};

use crate::closing::{Closed, close};
use crate::gathering::keep;
use crate::ground::Ground;
use crate::opening::open_lane;
use crate::region::run_task;
use kernel_model::Phase;
use kernel_syntax::Kernel;
use lane_runner::{Lane, Locals, Stop};
use shared_words::{Chunks, Hand};
use std::alloc::{AllocError, Global};
use std::marker::Send;
use std::mem;
use std::sync::Wait;
use std::thread::Threads;
use sw_base::{ClosedLog, Log, Path, Trouble};
use team_live::LiveGate;
use team_phases::phases;

// All locals 0.
fn locals(alloc: Global, slots: u32) -> Result<Locals, AllocError>
    ensures { IfOk result (λ locals. locals.slots.items ≡ replicate slots (pos 0)) }
{
    let mut values = Vec::new(alloc);
    values.resize(slots as usize, 0i64)?;
    Ok(Locals { slots: values })
}

// The root executes its only phase and puts its End, and its log is closed.
fn execute<R: Threads + Wait + Sync + Copy + Send + 'static, L: Log, G: LiveGate>(
    rt: &R,
    alloc: Global,
    ground: &Ground<'_, G>,
    chunks: &Chunks,
    phase: &Phase<'_>,
    end: u32,
    hand: &mut Hand,
    root: Lane<L>,
) -> Closed<L>
    requires number { chunks.now.loops ≡ 0 }
    requires phase { IsOurPhase ground.now 0 phase.now }
    requires last { IsLast phase.now end }
    requires undrawn { drawn_count (map part_of phase.now) ≡ 0 }
    requires ready { IsReady hand.old ground.now.words }
    requires fresh { IsFresh (crew_of ground.now chunks.now 1) root }
    requires own { IsOurLane ground.now 4 root }
    ensures closed { RootClosed (crew_of ground.now chunks.now 1) phase.now end hand.old hand.new root result }
{
    let crew = (&*ground).crew(chunks, 1);
    let mut root = root;
    root.trade(mem::replace(hand, Hand::blank()));
    run_task(rt, alloc, 4, ground, &crew, phase, Some(end), 0, &mut root);
    *hand = root.trade(Hand::blank());
    close(rt, alloc, root)
}

// Runs the root of a kernel with this log. None where no memory was found for its phase, its counters or its locals.
pub(crate) fn run_root<R: Threads + Wait + Sync + Copy + Send + 'static, L: Log, G: LiveGate>(
    rt: &R,
    alloc: Global,
    ground: &Ground<'_, G>,
    kernel: &Kernel,
    hand: &mut Hand,
    log: L,
) -> Option<Closed<L>>
    requires lawful { IsLawful (program_of kernel.now) }
    requires arrays { ground.now.arrays ≡ kernel.now.arrays }
    requires locks { ground.now.words.locks ≡ length kernel.now.mutexes + 1 }
    requires ready { IsReady hand.old ground.now.words }
    requires root { IsRootLog L.Log log }
    ensures ran { RanRoot (program_of kernel.now) (record { dir = L.dir log; size = ground.now.size; tells = is_some (L.text log) }) hand.old hand.new result }
{
    let (Ok(phases), Ok((chunks, draws)), Ok(locals)) = (
        phases(alloc, &kernel.main),
        Chunks::new(alloc, 0),
        locals(alloc, kernel.slots),
    ) else {
        return None;
    };
    let Some((phase, _)) = phases.split_last() else {
        unreachable!()
    };
    match open_lane(rt, alloc, ground.size(), Path::root(), &locals, draws, log) {
        Ok(root) => Some(execute(
            rt,
            alloc,
            ground,
            &chunks,
            phase,
            kernel.main.end,
            hand,
            root,
        )),
        Err(torn) => Some(torn),
    }
}

// The logs of the root and of the tasks below it, and what the run answers.
pub(crate) fn settle<L: Log>(
    alloc: Global,
    root: Option<Closed<L>>,
) -> (Vec<ClosedLog<L>>, Result<(), (Path, Stop)>)
    ensures { IsSettled root (entries_of L.Log result.0.items) result.1 }
{
    let mut logs = Vec::new(alloc);
    let Some(root) = root else {
        return (logs, Err((Path::root(), Stop::Trouble(Trouble::Memory))));
    };
    let (_draws, verdict) = keep(root, &mut logs);
    (logs, verdict.answer())
}
