ghost use Rattle.std.specs.Prelude.{◌≡◌, ◌↔◌, ◌≤◌, ℕ, All, length, IfOk};
ghost use Rattle.pair_compare.specs.Compare.{IsSegmentPair};
ghost use Rattle.pair_compare.specs.Conflict.{OneHas};
ghost use Rattle.pair_compare.specs.Groups.{IsGroupPair, pointed};

use crate::divide::divide;
use crate::field::{Field, extremes, ordered};
use crate::member::Member;
use log_segment::Segment;
use std::alloc::Global;
use sw_base::Memory;

/// Segments in parts: those of two parts are concurrent.
#[derive(Drop)]
pub struct Group<'s> {
    pub members: Vec<Member<'s>>,
}

// The segments, whose labels have at most five levels.
fn refs_of<'s>(alloc: Global, segments: &'s [Segment]) -> Result<Vec<&'s Segment>, Memory>
    ensures same { IfOk result (λ refs. pointed refs.items ≡ segments.now) }
    ensures deep { IfOk result (λ refs. All (λ s. length s.now.label ≤ 5) refs.items) }
{
    let mut refs = Vec::new(alloc);
    for segment in segments {
        // That a label has at most five levels is told by this contract.
        let _levels = segment.label.triples();
        refs.push(segment)?;
    }
    Ok(refs)
}

/// Groups in which each two concurrent segments stand in two parts, and no others do.
pub fn groups<'s>(alloc: Global, segments: &'s [Segment]) -> Result<Vec<Group<'s>>, Memory>
    ensures { IfOk result (λ found. (pair : ℕ × ℕ) → OneHas IsGroupPair found.items pair ↔ IsSegmentPair segments.now pair) }
{
    let refs = refs_of(alloc, segments)?;
    let ordered = ordered(alloc, &refs, 0, Field::Depth)?;
    let members = ordered.as_slice();
    let range = extremes(members, 0, Field::Depth);
    let mut found = Vec::new(alloc);
    divide(alloc, members, 0, Field::Depth, range, &mut found)?;
    Ok(found)
}
