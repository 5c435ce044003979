//! The racing line pairs of segments, found by one worker.
ghost use Rattle.std.specs.Prelude.{◌≡◌, ◌↔◌, ℕ, Contains, IfOk};
ghost use Rattle.pair_compare.specs.Compare.{IsSegmentPair};
ghost use Rattle.pair_compare.specs.Conflict.{OneHas};
ghost use Rattle.pair_compare.specs.Groups.{IsGroupPair, IsRunOf, IsSameGroup};

use crate::group::{Group, groups};
use crate::member::{Member, measured};
use crate::task::cut;
use crate::worker::search_tasks;
use log_segment::Segment;
use std::alloc::Global;
use std::collections::BTreeSet;
use sw_base::Memory;

fn measured_members<'s>(alloc: Global, members: &[Member<'s>]) -> Result<Vec<Member<'s>>, Memory>
    ensures { IfOk result (λ found. (run : ℕ × _) → OneHas IsRunOf found.items run ↔ OneHas IsRunOf members.now run) }
{
    let mut found = Vec::new(alloc);
    for member in members {
        found.push(measured(member.part, member.runs))?;
    }
    Ok(found)
}

fn measured_group<'s>(alloc: Global, group: &Group<'s>) -> Result<Group<'s>, Memory>
    ensures { IfOk result (λ found. IsSameGroup group.now found) }
{
    let members = measured_members(alloc, &group.members)?;
    Ok(Group { members })
}

/// The groups with each member measured.
fn measured_all<'s>(alloc: Global, groups: &[Group<'s>]) -> Result<Vec<Group<'s>>, Memory>
    ensures { IfOk result (λ found. (pair : ℕ × ℕ) → OneHas IsGroupPair found.items pair ↔ OneHas IsGroupPair groups.now pair) }
{
    let mut found = Vec::new(alloc);
    for group in groups {
        found.push(measured_group(alloc, group)?)?;
    }
    Ok(found)
}

/// The line pairs of the races of the segments: those that `compare_all` finds, found by the caller itself, without a thread.
pub fn compare_alone(alloc: Global, segments: &[Segment]) -> Result<BTreeSet<(u32, u32)>, Memory>
    ensures { IfOk result (λ pairs. (pair : ℕ × ℕ) → Contains pairs.keys pair ↔ IsSegmentPair segments.now pair) }
{
    let parted = groups(alloc, segments)?;
    let measured = measured_all(alloc, &parted)?;
    let tasks = cut(alloc, &measured, 1)?;
    let mut pairs = BTreeSet::new(alloc);
    search_tasks(alloc, &tasks, &mut pairs)?;
    Ok(pairs)
}
