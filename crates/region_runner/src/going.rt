//! A team goes through its phases. How its lanes stand is told by what is seen of them.
ghost use Rattle.std.specs.Prelude.{◌≡◌, ◌≤◌, map, length};
ghost use Rattle.std.specs.Thread.{IsSync};
ghost use Rattle.team_live.specs.Phases.{DoesPhases, Ran};
ghost use Rattle.region_runner.specs.Plan.{DoesPlan, StandsAt, of_lane, of_lanes, of_step, plan_of, team_of_plan};
ghost use Rattle.region_runner.specs.Stands.{TeamRan};

use crate::crew::Crew;
use crate::ground::Ground;
use kernel_model::Phase;
use lane_runner::Lane;
use shared_words::Hand;
use std::alloc::Global;
use std::marker::{Brand, PhantomData, Send, Sync};
use std::sync::Wait;
use std::thread::{Builder, Threads};
use sw_base::Log;
use team_live::{LaneKey, LiveGate, TeamKey, in_phases};

/// What is seen of a lane.
pub trait Viewed {
    ghost use Rattle.lane_runner.specs.Lane.{LaneValue};

    ghost seen: { Self → LaneValue };
}

impl<L: Log> Viewed for Lane<L> {
    ghost seen = { λ lane. lane };
}

/// How a team does its phases. A clause can't take a fact as a value, so it takes a type that has one. `Brand` stands for
/// any such type: what the facts are is said where a function is called at it, beside that call's proof.
pub trait TeamFacts {
    ghost use Rattle.std.specs.Prelude.{ℕ, List};
    ghost use Rattle.shared_words.specs.declared.view.View.{View};
    ghost use Rattle.shared_words.specs.Handles.{HandValue};
    ghost use Rattle.lane_runner.specs.Lane.{LaneValue};

    ghost may: { ℕ → ℕ → LaneValue → Type 0 };

    ghost did: { ℕ → ℕ → LaneValue → LaneValue → Type 0 };

    ghost stands: { ℕ → HandValue View → List LaneValue → Type 0 };

    ghost parted: { ℕ → HandValue View → List LaneValue → Type 0 };

    ghost stopped: { ℕ → HandValue View → List LaneValue → Type 0 };
}

impl TeamFacts for Brand {
    ghost may = { λ _ _ _. Unit {0} };

    ghost did = { λ _ _ _ _. Unit {0} };

    ghost stands = { λ _ _ _. Unit {0} };

    ghost parted = { λ _ _ _. Unit {0} };

    ghost stopped = { λ _ _ _. Unit {0} };
}

/// A team with these facts, told of its lanes.
pub struct RegionKey<J> {
    of: PhantomData<J>,
}

impl<M: Viewed, J: TeamFacts> LaneKey<M> for RegionKey<J> {
    ghost use Rattle.region_runner.specs.Plan.{of_lane, of_step};

    ghost may = { of_lane M.seen J.may };

    ghost did = { of_step M.seen J.did };
}

impl<M: Viewed, J: TeamFacts> TeamKey<Hand, M> for RegionKey<J> {
    ghost use Rattle.region_runner.specs.Plan.{of_lanes};

    ghost stands = { of_lanes M.seen J.stands };

    ghost parted = { of_lanes M.seen J.parted };

    ghost stopped = { of_lanes M.seen J.stopped };
}

// What a team is to do: in which run, how deep its lanes can fork, with which crew, in which phases, and the line of its end.
#[derive(Drop)]
struct Plan<'a, G: LiveGate> {
    ground: &'a Ground<'a, G>,
    depth: u32,
    crew: &'a Crew<'a>,
    phases: &'a [Phase<'a>],
    end: u32,
}

// A team with these facts goes through the phases of its plan, which the call's proof makes the facts of.
fn go_by_plan<
    J: TeamFacts + Send + Sync + 'static,
    R: Threads + Wait + Sync + Copy + Send + 'static,
    M: Viewed + Drop + Send + 'static,
    G: LiveGate,
    T: Fn(usize, usize, &mut M) + Sync,
    S: Fn(usize) + Sync,
    Z: Fn(usize) -> Builder,
    B: Fn(&mut Hand, &mut Vec<M>),
    A: Fn(&mut Hand, &mut Vec<M>) -> bool,
>(
    rt: &R,
    alloc: Global,
    plan: &Plan<'_, G>,
    hand: Hand,
    lanes: Vec<M>,
    task: &T,
    started: &S,
    builder: &Z,
    part: &B,
    meet: &A,
) -> (Hand, Vec<M>, bool)
    requires span { (1 ≤ length lanes.items) × (length lanes.items ≤ 64) }
    requires started { S.IsAlwaysCallable started.now }
    requires builder { Z.IsAlwaysCallable builder.now }
    requires does { DoesPhases (T.pre task.now) (T.post task.now) (B.pre part.now) (B.post part.now) (A.pre meet.now) (A.post meet.now) (length lanes.items) (length plan.now.phases.now)
        (of_lanes M.seen J.stands) (of_lanes M.seen J.parted) (of_lanes M.seen J.stopped) (of_lane M.seen J.may) (of_step M.seen J.did) }
    requires stands { of_lanes M.seen J.stands 0 hand lanes.items }
    ensures count { length result.1.items ≡ length lanes.items }
    ensures ran { Ran (of_lanes M.seen J.stands) (of_lanes M.seen J.stopped) (length plan.now.phases.now) result.0 result.1.items result.2 }
{
    in_phases::<RegionKey<J>, R, Hand, M, T, S, Z, B, A>(
        rt,
        alloc,
        plan.ground.stays(),
        plan.phases.len(),
        hand,
        lanes,
        task,
        started,
        builder,
        part,
        meet,
    )
}

/// A team goes through its phases, with threads that stay, where the run has it so. Gives the hand, and the lanes in their order.
pub(crate) fn go_through<
    'a,
    R: Threads + Wait + Sync + Copy + Send + 'static,
    M: Viewed + Drop + Send + 'static,
    G: LiveGate,
    T: Fn(usize, usize, &mut M) + Sync,
    B: Fn(&mut Hand, &mut Vec<M>),
    A: Fn(&mut Hand, &mut Vec<M>) -> bool,
>(
    rt: &R,
    alloc: Global,
    depth: u32,
    ground: &'a Ground<'a, G>,
    crew: &'a Crew<'a>,
    phases: &'a [Phase<'a>],
    end: u32,
    hand: Hand,
    lanes: Vec<M>,
    task: &T,
    part: &B,
    meet: &A,
) -> (Hand, Vec<M>)
    requires gate_shared { IsSync G.row }
    requires span { (1 ≤ length lanes.items) × (length lanes.items ≤ 64) }
    requires does { DoesPlan M.seen (T.pre task.now) (T.post task.now) (B.pre part.now) (B.post part.now) (A.pre meet.now) (A.post meet.now) (length lanes.items)
        (team_of_plan (plan_of ground.now depth crew.now phases.now end) hand (map M.seen lanes.items)) }
    requires stands { StandsAt (team_of_plan (plan_of ground.now depth crew.now phases.now end) hand (map M.seen lanes.items)) 0 hand (map M.seen lanes.items) }
    ensures count { length result.1.items ≡ length lanes.items }
    ensures ran { TeamRan crew.now phases.now end hand result.0 (map M.seen lanes.items) (map M.seen result.1.items) }
{
    let plan = Plan {
        ground,
        depth,
        crew,
        phases,
        end,
    };
    let (home, after, _) = go_by_plan::<Brand, R, M, G, T, _, _, B, A>(
        rt,
        alloc,
        &plan,
        hand,
        lanes,
        task,
        &|lane: usize| ground.started(lane),
        &|lane: usize| ground.thread(lane),
        part,
        meet,
    );
    (home, after)
}
