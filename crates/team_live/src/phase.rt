//! What is before and after the lanes' parts of a phase, whoever calls them.
ghost use Rattle.std.specs.Prelude.{◌≡◌, ◌<◌, length};
ghost use Rattle.team_live.specs.Phases.{After, AreHome, Begins, EachMay, Ends};

use crate::key::{LaneKey, TeamKey};

/// The lanes are parted for the phase of this number.
pub(crate) fn begin_phase<K: LaneKey<M> + TeamKey<H, M>, H, M, B: Fn(&mut H, &mut Vec<M>)>(
    span: usize,
    phases: usize,
    number: usize,
    hand: &mut H,
    lanes: &mut Vec<M>,
    part: &B,
)
    requires begins { Begins (B.pre part.now) (B.post part.now) span phases K.stands K.parted K.may }
    requires number { number < phases }
    requires count { length lanes.old.items ≡ span }
    requires stands { K.stands number hand.old lanes.old.items }
    ensures count { length lanes.new.items ≡ span }
    ensures parted { K.parted number hand.new lanes.new.items }
    ensures may { EachMay K.may number lanes.new.items }
{
    part(hand, lanes);
}

/// The lanes are joined after the phase of this number, when all have done their parts. Whether the team goes on.
pub(crate) fn end_phase<K: LaneKey<M> + TeamKey<H, M>, H, M, A: Fn(&mut H, &mut Vec<M>) -> bool>(
    span: usize,
    phases: usize,
    number: usize,
    hand: &mut H,
    lanes: &mut Vec<M>,
    meet: &A,
) -> bool
    requires ends { Ends (A.pre meet.now) (A.post meet.now) span phases K.stands K.parted K.stopped K.did }
    requires number { number < phases }
    requires home { AreHome K.parted K.did span number hand.old lanes.old.items }
    ensures count { length lanes.new.items ≡ span }
    ensures ran { After K.stands K.stopped number hand.new lanes.new.items result }
{
    meet(hand, lanes)
}
