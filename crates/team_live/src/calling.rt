//! A team whose threads don't stay: its lanes do each phase in a parallel call of its own.
ghost use Rattle.std.specs.Prelude.{◌≡◌, ◌≤◌, length};
ghost use Rattle.team_live.specs.Phases.{DoesPhases, EachDid, EachMay, Ran, RunsTasks};

use crate::key::{LaneKey, TeamKey};
use crate::phase::{begin_phase, end_phase};
use std::marker::{Send, Sync};
use std::thread;
use std::thread::Threads;

// A lane does its part of the phase.
fn call_lane<K: LaneKey<M>, M, T: Fn(usize, usize, &mut M)>(
    number: usize,
    index: usize,
    lane: &mut M,
    task: &T,
)
    requires tasks { RunsTasks (T.pre task.now) (T.post task.now) K.may K.did }
    requires may { K.may number index lane.old }
    ensures did { K.did number index lane.old lane.new }
{
    task(number, index, lane);
}

// The lanes do their parts of the phase, each on a thread of its own, where one can be started.
fn call_lanes<
    K: LaneKey<M> + Send + Sync,
    R: Threads + Sync,
    M: Send,
    T: Fn(usize, usize, &mut M) + Sync,
>(rt: &R, number: usize, lanes: &mut [M], task: &T)
    requires some { 1 ≤ length lanes.old }
    requires tasks { RunsTasks (T.pre task.now) (T.post task.now) K.may K.did }
    requires may { EachMay K.may number lanes.old }
    ensures did { EachDid K.did number lanes.old lanes.new }
{
    let count = lanes.len();
    thread::for_each_mut(
        rt,
        lanes,
        count,
        &|index: usize, lane: &mut M|
            requires tasks { RunsTasks (T.pre task.now) (T.post task.now) K.may K.did }
            requires may { K.may number index lane.old }
            ensures did { K.did number index lane.old lane.new }
        {
            call_lane::<K, M, T>(number, index, lane, task);
        },
    );
}

/// The team does all its phases, or stops after one. Gives the hand, the lanes in their order, and whether it did all.
pub(crate) fn call_phases<
    K: LaneKey<M> + TeamKey<H, M> + Send + Sync,
    R: Threads + Sync,
    H,
    M: Send,
    T: Fn(usize, usize, &mut M) + Sync,
    B: Fn(&mut H, &mut Vec<M>),
    A: Fn(&mut H, &mut Vec<M>) -> bool,
>(
    rt: &R,
    phases: usize,
    mut hand: H,
    mut lanes: Vec<M>,
    task: &T,
    part: &B,
    meet: &A,
) -> (H, Vec<M>, bool)
    requires some { 1 ≤ length lanes.items }
    requires does { DoesPhases (T.pre task.now) (T.post task.now) (B.pre part.now) (B.post part.now) (A.pre meet.now) (A.post meet.now) (length lanes.items) phases K.stands K.parted K.stopped K.may K.did }
    requires stands { K.stands 0 hand lanes.items }
    ensures count { length result.1.items ≡ length lanes.items }
    ensures ran { Ran K.stands K.stopped phases result.0 result.1.items result.2 }
{
    let span = lanes.len();
    for number in 0..phases {
        begin_phase::<K, H, M, B>(span, phases, number, &mut hand, &mut lanes, part);
        call_lanes::<K, R, M, T>(rt, number, &mut lanes, task);
        if !end_phase::<K, H, M, A>(span, phases, number, &mut hand, &mut lanes, meet) {
            return (hand, lanes, false);
        }
    }
    (hand, lanes, true)
}
