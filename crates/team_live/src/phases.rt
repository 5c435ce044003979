//! A team from its first phase to its last, whether its threads stay or not.
ghost use Rattle.std.specs.Prelude.{◌≡◌, ◌<◌, ◌≤◌, [], All, None, length, vec_len};
ghost use contract.BorrowLft.{◌⊑◌};
ghost use Rattle.std.specs.Thread.{IsSend, IsSync};
ghost use Rattle.team_live.specs.Phases.{DoesPhases, Ran, RunsTasks};
ghost use Rattle.team_live.specs.Turns.{IsIdleDesk};

use crate::calling::call_phases;
use crate::first::stay;
use crate::key::{LaneKey, TeamKey};
use crate::parcel::LaneParcel;
use crate::serving::attend;
use hand_over::{Desk, LanePlace, Parcels};
use std::alloc::Global;
use std::marker::{Send, Sync};
use std::sync::Wait;
use std::thread;
use std::thread::{Builder, Threads};

// The team does its phases, with its threads in a scope that ends when they do.
fn in_a_scope<
    K: LaneKey<M> + TeamKey<H, M> + Send + 'static,
    R: Threads + Wait + Copy + Send + 'static,
    H: Drop,
    M: Drop + Send + 'static,
    T: Fn(usize, usize, &mut M) + Sync,
    S: Fn(usize) + Sync,
    Z: Fn(usize) -> Builder,
    B: Fn(&mut H, &mut Vec<M>),
    A: Fn(&mut H, &mut Vec<M>) -> bool,
>(
    rt: &R,
    parcels: &Parcels<LaneParcel<K, M>>,
    desk: Desk<LaneParcel<K, M>>,
    places: Vec<LanePlace<LaneParcel<K, M>>>,
    phases: usize,
    hand: H,
    lanes: Vec<M>,
    task: &T,
    started: &S,
    builder: &Z,
    part: &B,
    meet: &A,
) -> (H, Vec<M>, bool)
    requires desk { IsIdleDesk parcels.now (length lanes.items) desk }
    requires places { All (λ place. (place.table ≡ parcels.now) × (place.took ≡ None)) places.items }
    requires started { S.IsAlwaysCallable started.now }
    requires builder { Z.IsAlwaysCallable builder.now }
    requires does { DoesPhases (T.pre task.now) (T.post task.now) (B.pre part.now) (B.post part.now) (A.pre meet.now) (A.post meet.now) (length lanes.items) phases K.stands K.parted K.stopped K.may K.did }
    requires stands { K.stands 0 hand lanes.items }
    ensures count { length result.1.items ≡ length lanes.items }
    ensures ran { Ran K.stands K.stopped phases result.0 result.1.items result.2 }
{
    thread::scope(
        thread::scope_env(),
        rt,
        |scope| -> (H, Vec<M>, bool)
            requires sent { IsSend K.row × IsSend M.row × IsSend R.row × IsSync T.row × IsSync S.row }
            requires lives { ([] ⊑ K.row.lives) × ([] ⊑ M.row.lives) }
            requires desk { IsIdleDesk parcels.now (length lanes.items) desk }
            requires places { All (λ place. (place.table ≡ parcels.now) × (place.took ≡ None)) places.items }
            requires started { S.IsAlwaysCallable started.now }
            requires builder { Z.IsAlwaysCallable builder.now }
            requires does { DoesPhases (T.pre task.now) (T.post task.now) (B.pre part.now) (B.post part.now) (A.pre meet.now) (A.post meet.now) (length lanes.items) phases K.stands K.parted K.stopped K.may K.did }
            requires stands { K.stands 0 hand lanes.items }
            ensures count { length result.1.items ≡ length lanes.items }
            ensures ran { Ran K.stands K.stopped phases result.0 result.1.items result.2 }
        {
            let (mut desk, mut hand, mut lanes) = (desk, hand, lanes);
            let mut threads = 0;
            let mut lane = 0usize;
            for place in places {
                if 0 < lane {
                    let own = *rt;
                    let work = move || -> ()
                        requires sent { IsSend K.row × IsSend M.row × IsSend R.row × IsSync T.row × IsSync S.row }
                        requires lives { ([] ⊑ K.row.lives) × ([] ⊑ M.row.lives) }
                        requires place { (place.table ≡ parcels.now) × (place.took ≡ None) }
                        requires tasks { RunsTasks (T.pre task.now) (T.post task.now) K.may K.did }
                        requires started { S.IsAlwaysCallable started.now }
                    { attend(&own, parcels, place, lane, task, started) };
                    if builder(lane).spawn_scoped(scope, work).is_err() {
                        break;
                    }
                    threads = lane;
                }
                lane = lane.wrapping_add(1);
            }
            let whole = stay(
                rt, parcels, &mut desk, threads, phases, &mut hand, &mut lanes, task, part, meet,
            );
            (hand, lanes, whole)
        },
    )
}

/// A team does its phases. Gives the hand, the lanes in their order, and whether the team did all phases.
///
/// Each phase begins with `part`; then `task` is called for each lane, with the phase's number and the lane's; and it ends with `meet`, which says
/// whether the team goes on.
///
/// Where its threads are to stay, each lane but the first has a thread of its own through all phases. It calls `started` once, with the lane's
/// number; `builder` says how it is started, by the lane's number. Else, and where no memory is found for that, each phase is a parallel call of
/// its own, and no lane is told as started. So it is with a team of one phase, too, where nothing stays.
pub fn in_phases<
    K: LaneKey<M> + TeamKey<H, M> + Send + Sync + 'static,
    R: Threads + Wait + Copy + Send + Sync + 'static,
    H: Drop,
    M: Drop + Send + 'static,
    T: Fn(usize, usize, &mut M) + Sync,
    S: Fn(usize) + Sync,
    Z: Fn(usize) -> Builder,
    B: Fn(&mut H, &mut Vec<M>),
    A: Fn(&mut H, &mut Vec<M>) -> bool,
>(
    rt: &R,
    alloc: Global,
    stays: bool,
    phases: usize,
    hand: H,
    lanes: Vec<M>,
    task: &T,
    started: &S,
    builder: &Z,
    part: &B,
    meet: &A,
) -> (H, Vec<M>, bool)
    requires span { (1 ≤ length lanes.items) × (length lanes.items ≤ 64) }
    requires started { S.IsAlwaysCallable started.now }
    requires builder { Z.IsAlwaysCallable builder.now }
    requires does { DoesPhases (T.pre task.now) (T.post task.now) (B.pre part.now) (B.post part.now) (A.pre meet.now) (A.post meet.now) (length lanes.items) phases K.stands K.parted K.stopped K.may K.did }
    requires stands { K.stands 0 hand lanes.items }
    ensures count { length result.1.items ≡ length lanes.items }
    ensures ran { Ran K.stands K.stopped phases result.0 result.1.items result.2 }
{
    if !stays || phases < 2 {
        return call_phases::<K, R, H, M, T, B, A>(rt, phases, hand, lanes, task, part, meet);
    }
    let Ok((parcels, desk, places)) = Parcels::<LaneParcel<K, M>>::new(alloc, lanes.len(), &())
    else {
        return call_phases::<K, R, H, M, T, B, A>(rt, phases, hand, lanes, task, part, meet);
    };
    in_a_scope(
        rt, &parcels, desk, places, phases, hand, lanes, task, started, builder, part, meet,
    )
}
