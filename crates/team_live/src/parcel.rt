//! What goes to a lane's thread and comes back.
ghost use Rattle.std.specs.Prelude.{◌≡◌};
ghost use Rattle.team_live.specs.Phases.{IsBack, RunsTasks};

use crate::key::LaneKey;
use hand_over::Parcel;
use std::marker::{PhantomData, Send};

/// A lane, its number, and that of its phase.
#[derive(Drop)]
pub(crate) struct LaneParcel<K, M> {
    lane: M,
    index: usize,
    number: usize,
    of: PhantomData<K>,
}

impl<K: LaneKey<M> + Send, M: Drop + Send> Parcel for LaneParcel<K, M> {
    ghost use Rattle.team_live.specs.Phases.{IsBack};

    type About = ();

    ghost fits = { λ _ parcel. K.may parcel.number parcel.index parcel.lane };

    ghost follows = { λ _ sent back. IsBack K.did sent.number sent.index sent.lane back.number back.index back.lane };
}

impl<K: LaneKey<M>, M> LaneParcel<K, M> {
    /// This lane, for this phase.
    pub(crate) fn new(lane: M, index: usize, number: usize) -> LaneParcel<K, M>
        ensures lane { result.lane ≡ lane }
        ensures index { result.index ≡ index }
        ensures number { result.number ≡ number }
    {
        LaneParcel {
            lane,
            index,
            number,
            of: PhantomData,
        }
    }

    /// The lane alone.
    pub(crate) fn into_lane(self) -> M
        ensures { result ≡ self.lane }
    {
        let LaneParcel {
            lane,
            index: _,
            number: _,
            of: _,
        } = self;
        lane
    }

    /// The lane does its part of the phase.
    pub(crate) fn done<T: Fn(usize, usize, &mut M)>(self, task: &T) -> LaneParcel<K, M>
        requires tasks { RunsTasks (T.pre task.now) (T.post task.now) K.may K.did }
        requires may { K.may self.number self.index self.lane }
        ensures { IsBack K.did self.number self.index self.lane result.number result.index result.lane }
    {
        let LaneParcel {
            mut lane,
            index,
            number,
            of,
        } = self;
        task(number, index, &mut lane);
        LaneParcel {
            lane,
            index,
            number,
            of,
        }
    }
}
