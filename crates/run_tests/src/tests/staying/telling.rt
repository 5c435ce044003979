//! How a caller whose lanes have a type parameter says what they do: by what is seen of a lane, and by a key of its own that rests on what a call
//! picks.
ghost use Rattle.std.specs.Prelude.{◌≡◌, ◌+◌, ◌<◌, ◌≤◌, ℕ, length};
ghost use Rattle.team_live.specs.Phases.{RunsTasks};
ghost use Rattle.run_tests.specs.Telling.{HasCounted, HaveCounted, MayCount};

use std::alloc::Global;
use std::marker::{Brand, PhantomData, Send, Sync};
use std::sync::Wait;
use std::thread::{Builder, Threads};
use team_live::{LaneKey, TeamKey, in_phases};

/// What is seen of a lane.
pub trait Seen {
    ghost use Rattle.std.specs.Prelude.{ℕ};

    ghost seen: { Self → ℕ };
}

/// How many phases there are. A call at `Brand` picks it.
pub trait About {
    ghost use Rattle.std.specs.Prelude.{ℕ};

    ghost phases: { ℕ };
}

impl About for Brand {
    ghost phases = { 0 };
}

/// Lanes that count their phases.
pub struct Counting<J> {
    of: PhantomData<J>,
}

impl<M: Seen, J: About> LaneKey<M> for Counting<J> {
    ghost use Rattle.run_tests.specs.Telling.{HasCounted, MayCount};

    ghost may = { MayCount M.seen J.phases };

    ghost did = { HasCounted M.seen };
}

impl<M: Seen, J: About> TeamKey<(), M> for Counting<J> {
    ghost use Rattle.run_tests.specs.Telling.{HaveCounted};

    ghost stands = { λ number _ lanes. HaveCounted M.seen number lanes };

    ghost parted = { λ number _ lanes. HaveCounted M.seen number lanes };

    ghost stopped = { λ _ _ _. ⊥ };
}

// The lanes do so many phases.
fn told<
    J: About + Send + Sync + 'static,
    R: Threads + Wait + Copy + Send + Sync + 'static,
    M: Seen + Drop + Send + 'static,
    T: Fn(usize, usize, &mut M) + Sync,
>(rt: &R, alloc: Global, phases: usize, lanes: Vec<M>, task: &T) -> Vec<M>
    requires about { J.phases ≡ phases }
    requires span { (1 ≤ length lanes.items) × (length lanes.items ≤ 64) }
    requires tasks { RunsTasks (T.pre task.now) (T.post task.now) (MayCount M.seen phases) (HasCounted M.seen) }
    requires none { HaveCounted M.seen 0 lanes.items }
    ensures { HaveCounted M.seen phases result.items }
{
    let (_, after, _) = in_phases::<Counting<J>, R, (), M, T, _, _, _, _>(
        rt,
        alloc,
        true,
        phases,
        (),
        lanes,
        task,
        &|_lane: usize| {},
        &|_lane: usize| Builder::new(),
        &|_hand: &mut (), _lanes: &mut Vec<M>| {},
        &|_hand: &mut (), _lanes: &mut Vec<M>| -> bool { true },
    );
    after
}

/// The same, for lanes of any type that are seen so.
pub fn count_phases<
    R: Threads + Wait + Copy + Send + Sync + 'static,
    M: Seen + Drop + Send + 'static,
    T: Fn(usize, usize, &mut M) + Sync,
>(rt: &R, alloc: Global, phases: usize, lanes: Vec<M>, task: &T) -> Vec<M>
    requires span { (1 ≤ length lanes.items) × (length lanes.items ≤ 64) }
    requires tasks { RunsTasks (T.pre task.now) (T.post task.now) (MayCount M.seen phases) (HasCounted M.seen) }
    requires none { HaveCounted M.seen 0 lanes.items }
    ensures { HaveCounted M.seen phases result.items }
{
    told::<Brand, R, M, T>(rt, alloc, phases, lanes, task)
}
