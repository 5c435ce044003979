//! The first thread of a team.
ghost use Rattle.std.specs.Prelude.{◌≡◌, length};
ghost use Rattle.std.specs.Vec.{vec_capacity};
ghost use Rattle.team_live.specs.Phases.{DoesPhases, EachDid, EachMay, Ran, RunsTasks};
ghost use Rattle.team_live.specs.Turns.{AreClosed, IsIdleDesk, IsSameDesk};

use crate::key::{LaneKey, TeamKey};
use crate::parcel::LaneParcel;
use crate::phase::{begin_phase, end_phase};
use hand_over::{Desk, Parcels};
use std::marker::Send;
use std::sync::Wait;

// The lanes do their parts of the phase: each on its thread, if it has one, and else here. So many have a thread, from the second lane on.
// All are sent before one is done here, and they come home in their order.
fn run_lanes<K: LaneKey<M> + Send, R: Wait, M: Drop + Send, T: Fn(usize, usize, &mut M)>(
    rt: &R,
    parcels: &Parcels<LaneParcel<K, M>>,
    desk: &mut Desk<LaneParcel<K, M>>,
    threads: usize,
    number: usize,
    lanes: &mut Vec<M>,
    task: &T,
)
    requires desk { IsIdleDesk parcels.now (length lanes.old.items) desk.old }
    requires tasks { RunsTasks (T.pre task.now) (T.post task.now) K.may K.did }
    requires may { EachMay K.may number lanes.old.items }
    ensures desk { IsSameDesk desk.old desk.new }
    ensures did { EachDid K.did number lanes.old.items lanes.new.items }
    ensures capacity { vec_capacity lanes.new ≡ vec_capacity lanes.old }
{
    let Some(lane) = lanes.pop() else {
        return;
    };
    let index = lanes.len();
    let parcel = LaneParcel::new(lane, index, number);
    if 0 < index && index <= threads {
        parcels.send(desk, index, parcel);
        run_lanes(rt, parcels, desk, threads, number, lanes, task);
        let back = parcels.collect(rt, desk, index);
        lanes.push_reserved(back.into_lane());
    } else {
        run_lanes(rt, parcels, desk, threads, number, lanes, task);
        lanes.push_reserved(parcel.done(task).into_lane());
    }
}

// Closes all lanes, which ends their threads.
fn close_all<K: LaneKey<M> + Send, M: Drop + Send>(
    parcels: &Parcels<LaneParcel<K, M>>,
    desk: &mut Desk<LaneParcel<K, M>>,
    span: usize,
)
    requires desk { IsIdleDesk parcels.now span desk.old }
    ensures closed { AreClosed span desk.new.turns }
{
    for lane in 0..span {
        parcels.close(desk, lane);
    }
}

/// The team does all its phases, or stops after one, and the threads end. Whether it did all.
pub(crate) fn stay<
    K: LaneKey<M> + TeamKey<H, M> + Send,
    R: Wait,
    H,
    M: Drop + Send,
    T: Fn(usize, usize, &mut M),
    B: Fn(&mut H, &mut Vec<M>),
    A: Fn(&mut H, &mut Vec<M>) -> bool,
>(
    rt: &R,
    parcels: &Parcels<LaneParcel<K, M>>,
    desk: &mut Desk<LaneParcel<K, M>>,
    threads: usize,
    phases: usize,
    hand: &mut H,
    lanes: &mut Vec<M>,
    task: &T,
    part: &B,
    meet: &A,
) -> bool
    requires desk { IsIdleDesk parcels.now (length lanes.old.items) desk.old }
    requires does { DoesPhases (T.pre task.now) (T.post task.now) (B.pre part.now) (B.post part.now) (A.pre meet.now) (A.post meet.now) (length lanes.old.items) phases K.stands K.parted K.stopped K.may K.did }
    requires stands { K.stands 0 hand.old lanes.old.items }
    ensures closed { AreClosed (length lanes.old.items) desk.new.turns }
    ensures count { length lanes.new.items ≡ length lanes.old.items }
    ensures ran { Ran K.stands K.stopped phases hand.new lanes.new.items result }
{
    let span = lanes.len();
    for number in 0..phases {
        begin_phase::<K, H, M, B>(span, phases, number, hand, lanes, part);
        run_lanes(rt, parcels, desk, threads, number, lanes, task);
        if !end_phase::<K, H, M, A>(span, phases, number, hand, lanes, meet) {
            close_all(parcels, desk, span);
            return false;
        }
    }
    close_all(parcels, desk, span);
    true
}
