ghost use Rattle.std.specs.Prelude.{◌≡◌, ◌+◌, ◌<◌, length, OnOk, OnErr, IfOk};
ghost use Rattle.log_segment.specs.OneTree.{StandInOneTree};
ghost use Rattle.segment_groups.specs.Level.{HaveLevels};
ghost use Rattle.segment_groups.specs.Partners.{HandsOver, IsPartner, RefusesAt};

use crate::level::Level;
use crate::partner::Partner;
use interval_tree::Steps;
use log_segment::Segment;
use std::alloc::Global;
use std::marker::Model;
use std::sync::ledger::Ledger;
use sw_base::Memory;

/// Segments of one tree, and which of them may be concurrent. Contracts see the segments.
#[derive(Drop)]
pub struct Groups<'s> {
    segments: &'s [Segment],
    // The groups at each depth below the root, the deepest first.
    levels: Vec<Level>,
}

impl<'s> Model for Groups<'s> {
    ghost use Rattle.std.specs.Prelude.{List};
    ghost use Rattle.log_segment.specs.declared.segment.Segment.{Segment};
    ghost use Rattle.segment_groups.specs.Level.{AreGroups};

    ghost Value = { List Segment };

    ghost view = { λ groups. groups.segments.now };

    ghost invariant = { λ groups. AreGroups groups.segments.now groups.levels.items };
}

// How many levels the labels have below the root's.
fn levels_below(segments: &[Segment]) -> usize
    ensures { HaveLevels (result + 1) segments.now }
{
    let mut most = 0;
    for segment in segments {
        most = most.max(segment.label.triples().len() - 1);
    }
    most
}

impl<'s> Groups<'s> {
    /// The groups of the segments.
    pub fn build(alloc: Global, segments: &'s [Segment]) -> Result<Groups<'s>, Memory>
        requires { StandInOneTree segments.now }
        ensures { IfOk result (λ groups. groups ≡ segments.now) }
    {
        let depth = levels_below(segments);
        let mut levels = Vec::new(alloc);
        for above in 0..depth {
            levels.push(Level::build(alloc, segments, depth - above)?)?;
        }
        Ok(Groups { segments, levels })
    }

    /// The segments.
    pub fn segments(&self) -> &'s [Segment]
        ensures { result.now ≡ self.now }
    {
        self.segments
    }

    /// Hands over, in ascending order and once each, the positions above this one whose labels are concurrent with its own.
    /// After a refusal no later position is handed over. A step is a position that is read from a group.
    pub fn partners<V: Partner, L: Ledger>(
        &self,
        at: usize,
        visit: &mut V,
        steps: &mut Steps<L>,
    ) -> Result<(), Memory>
        requires { at < length self.now }
        ensures taken { OnOk result (HandsOver V.took (IsPartner self.now at) visit.old visit.new steps.old steps.new) }
        ensures refused { OnErr result (RefusesAt V.took V.refused (IsPartner self.now at) visit.old visit.new steps.old steps.new) }
    {
        for level in &self.levels {
            level.hand_over(at, visit, steps)?;
        }
        Ok(())
    }
}
