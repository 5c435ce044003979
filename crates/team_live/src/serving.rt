//! The thread of a lane.
ghost use Rattle.std.specs.Prelude.{◌≡◌, None};
ghost use Rattle.team_live.specs.Phases.{RunsTasks};

use crate::key::LaneKey;
use crate::parcel::LaneParcel;
use hand_over::{LanePlace, Parcels};
use std::marker::Send;
use std::sync::Wait;

// Does what a lane is sent for, until the lane is closed.
fn serve<K: LaneKey<M> + Send, R: Wait, M: Drop + Send, T: Fn(usize, usize, &mut M)>(
    rt: &R,
    parcels: &Parcels<LaneParcel<K, M>>,
    place: &mut LanePlace<LaneParcel<K, M>>,
    task: &T,
)
    requires table { place.old.table ≡ parcels.now }
    requires none { place.old.took ≡ None }
    requires tasks { RunsTasks (T.pre task.now) (T.post task.now) K.may K.did }
{
    for _ in rt.forever() {
        let Some(parcel) = parcels.take(rt, place) else {
            return;
        };
        parcels.give_back(place, parcel.done(task));
    }
}

/// What the thread of this lane does: it tells that it started, and then what the lane is sent for.
pub(crate) fn attend<
    K: LaneKey<M> + Send,
    R: Wait,
    M: Drop + Send,
    T: Fn(usize, usize, &mut M),
    S: Fn(usize),
>(
    rt: &R,
    parcels: &Parcels<LaneParcel<K, M>>,
    place: LanePlace<LaneParcel<K, M>>,
    lane: usize,
    task: &T,
    started: &S,
)
    requires place { (place.table ≡ parcels.now) × (place.took ≡ None) }
    requires tasks { RunsTasks (T.pre task.now) (T.post task.now) K.may K.did }
    requires started { S.IsAlwaysCallable started.now }
{
    let mut place = place;
    started(lane);
    serve(rt, parcels, &mut place, task);
}
