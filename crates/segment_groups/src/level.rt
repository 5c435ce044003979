ghost use Rattle.std.specs.Prelude.{◌≡◌, ◌+◌, ◌<◌, ◌≤◌, ℕ, List, Option, length, OnOk, OnErr, IfOk};
ghost use Rattle.segment_groups.specs.Group.{label_at};
ghost use Rattle.segment_groups.specs.Level.{AreHeads, IsLeastNumber, IsInLaterLane, IsLevel, IsMember, IsThreaded, Labels, LanesAscend};
ghost use Rattle.segment_groups.specs.Partners.{HandsOver, RefusesAt};

use crate::key::{key_at, lane_of};
use crate::partner::Partner;
use interval_tree::Steps;
use log_segment::Segment;
use std::alloc::Global;
use std::collections::BTreeMap;
use std::sync::ledger::Ledger;
use sw_base::Memory;

/// The groups at one depth. Each is a chain of positions in ascending order.
#[derive(Drop)]
pub struct Level {
    /// The next position in the group of each.
    pub next: Vec<Option<usize>>,
    /// The first position in its group that is of a later lane.
    pub later: Vec<Option<usize>>,
}

// Makes the position the first of its group, and gives the one that was first so far.
fn add_head(
    alloc: Global,
    segments: &[Segment],
    depth: usize,
    at: usize,
    heads: &mut BTreeMap<Vec<u64>, usize>,
) -> Result<Option<usize>, Memory>
    requires within { at < length segments.now }
    requires heads { AreHeads depth (label_at segments.now) (at + 1) heads.old }
    ensures next { IfOk result (IsLeastNumber (IsMember depth (label_at segments.now) at)) }
    ensures heads { OnOk result (AreHeads depth (label_at segments.now) at heads.new) }
{
    let label = &segments[at].label;
    if depth >= label.triples().len() {
        return Ok(None);
    }
    let key = key_at(alloc, label, depth)?;
    Ok(heads.insert(key, at)?)
}

impl Level {
    fn new(alloc: Global, count: usize) -> Result<Level, Memory>
        ensures next { IfOk result (λ level. length level.next.items ≡ count) }
        ensures later { IfOk result (λ level. length level.later.items ≡ count) }
    {
        Ok(Level {
            next: vec![in alloc; None; count]?,
            later: vec![in alloc; None; count]?,
        })
    }

    // The first of a later lane in the group of the position, where this one is next.
    fn first_later(
        &self,
        segments: &[Segment],
        depth: usize,
        at: usize,
        next: Option<usize>,
    ) -> Option<usize>
        requires within { at < length segments.now }
        requires lanes { LanesAscend depth (label_at segments.now) }
        requires chains { IsThreaded depth (label_at segments.now) (at + 1) (length segments.now) self.now.next.items self.now.later.items }
        requires next { IsLeastNumber (IsMember depth (label_at segments.now) at) next }
        ensures { IsLeastNumber (IsInLaterLane depth (label_at segments.now) at) result }
    {
        let next = next?;
        let lane = lane_of(&segments[at].label, depth);
        if lane < lane_of(&segments[next].label, depth) {
            return Some(next);
        }
        self.later[next]
    }

    // Puts the position before the later ones of its group.
    fn put(
        &mut self,
        alloc: Global,
        segments: &[Segment],
        depth: usize,
        at: usize,
        heads: &mut BTreeMap<Vec<u64>, usize>,
    ) -> Result<(), Memory>
        requires within { at < length segments.now }
        requires lanes { LanesAscend depth (label_at segments.now) }
        requires chains { IsThreaded depth (label_at segments.now) (at + 1) (length segments.now) self.old.next.items self.old.later.items }
        requires heads { AreHeads depth (label_at segments.now) (at + 1) heads.old }
        ensures chains { OnOk result (IsThreaded depth (label_at segments.now) at (length segments.now) self.new.next.items self.new.later.items) }
        ensures heads { OnOk result (AreHeads depth (label_at segments.now) at heads.new) }
    {
        let next = add_head(alloc, segments, depth, at, heads)?;
        let later = self.first_later(segments, depth, at, next);
        self.next[at] = next;
        self.later[at] = later;
        Ok(())
    }

    /// The groups of the segments at this depth.
    pub fn build(alloc: Global, segments: &[Segment], depth: usize) -> Result<Level, Memory>
        requires { LanesAscend depth (label_at segments.now) }
        ensures { IfOk result (λ level. (length level.next.items ≡ length segments.now) × IsLevel depth (label_at segments.now) level) }
    {
        let mut level = Level::new(alloc, segments.len())?;
        let mut heads = BTreeMap::new(alloc);
        for at in (0..segments.len()).rev() {
            level.put(alloc, segments, depth, at, &mut heads)?;
        }
        Ok(level)
    }

    /// Hands over the positions of later lanes in the group of this one.
    pub fn hand_over<V: Partner, L: Ledger>(
        &self,
        at: usize,
        visit: &mut V,
        steps: &mut Steps<L>,
    ) -> Result<(), Memory>
        requires within { at < length self.now.next.items }
        requires level { (depth : ℕ) × (labels : Labels) × IsLevel depth labels self.now }
        ensures taken { (depth : ℕ) (labels : Labels) → IsLevel depth labels self.now
            → OnOk result (HandsOver V.took (IsInLaterLane depth labels at) visit.old visit.new steps.old steps.new) }
        ensures refused { (depth : ℕ) (labels : Labels) → IsLevel depth labels self.now
            → OnErr result (RefusesAt V.took V.refused (IsInLaterLane depth labels at) visit.old visit.new steps.old steps.new) }
    {
        let mut cursor = self.later[at];
        'chain: while let Some(position) = cursor {
            steps.tick();
            visit.take(position)?;
            cursor = self.next[position];
        }
        Ok(())
    }
}
