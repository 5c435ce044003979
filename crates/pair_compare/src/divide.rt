ghost use Rattle.std.specs.Prelude.{◌≡◌, ◌↔◌, ◌<◌, ◌≤◌, IsTrue, OnOk};
ghost use Rattle.pair_compare.specs.Conflict.{GrowsBy, OneHas};
ghost use Rattle.pair_compare.specs.Fields.{AreInOrder, CanDivide, HasNoLevel, IsApartPair, IsSamePair, Parts, next_field, next_level};
ghost use Rattle.pair_compare.specs.Groups.{IsGroupPair, pointed};

use crate::field::{Field, count_up_to, extremes, ordered};
use crate::group::Group;
use crate::parting::members_of;
use log_segment::Segment;
use std::alloc::Global;
use sw_base::Memory;

fn has_ended(field: Field, most: u64) -> bool
    ensures { IsTrue result ↔ HasNoLevel field most }
{
    match field {
        Field::Depth => most == 0,
        Field::Span => false,
        Field::Barrier => false,
        Field::Residue => false,
        Field::Offset => false,
    }
}

// Whether labels that differ first in this field are concurrent.
fn parts(field: Field) -> bool
    ensures { IsTrue result ↔ Parts field }
{
    match field {
        Field::Depth => false,
        Field::Span => true,
        Field::Barrier => false,
        Field::Residue => true,
        Field::Offset => false,
    }
}

fn next(level: usize, field: Field) -> (usize, Field)
    requires { level ≤ 5 }
    ensures { result ≡ (next_level field level, next_field field) }
{
    match field {
        Field::Depth => (level, Field::Span),
        Field::Span => (level, Field::Barrier),
        Field::Barrier => (level, Field::Residue),
        Field::Residue => (level, Field::Offset),
        Field::Offset => (level + 1, Field::Depth),
    }
}

// Adds the group of segments whose values of the field are in the range, if those with different ones are concurrent.
fn add_group<'s>(
    alloc: Global,
    segments: &[&'s Segment],
    level: usize,
    field: Field,
    range: (u64, u64),
    groups: &mut Vec<Group<'s>>,
) -> Result<(), Memory>
    requires { CanDivide level field range.0 range.1 segments.now }
    ensures { OnOk result (GrowsBy (OneHas IsGroupPair groups.old.items) (OneHas IsGroupPair groups.new.items) (IsApartPair level field (pointed segments.now))) }
{
    if !parts(field) {
        return Ok(());
    }
    if range.0 >= range.1 {
        return Ok(());
    }
    let members = members_of(alloc, segments, level, field)?;
    groups.push(Group { members })?;
    Ok(())
}

/// Adds groups of the members with equal values of the field, whose labels are the same before it, and have values of the range there.
pub fn divide<'s>(
    alloc: Global,
    members: &[&'s Segment],
    level: usize,
    field: Field,
    range: (u64, u64),
    groups: &mut Vec<Group<'s>>,
) -> Result<(), Memory>
    requires can { CanDivide level field range.0 range.1 members.now }
    requires few { level ≤ 5 }
    requires in_order { range.0 < range.1 → AreInOrder level field members.now }
    ensures { OnOk result (GrowsBy (OneHas IsGroupPair groups.old.items) (OneHas IsGroupPair groups.new.items) (IsSamePair level field (pointed members.now))) }
{
    let (least, most) = range;
    if members.len() < 2 {
        return Ok(());
    }
    if has_ended(field, most) {
        return Ok(());
    }
    if most <= least {
        let (level, field) = next(level, field);
        let range = extremes(members, level, field);
        add_group(alloc, members, level, field, range, groups)?;
        if range.1 <= range.0 {
            return divide(alloc, members, level, field, range, groups);
        }
        let ordered = ordered(alloc, members, level, field)?;
        return divide(alloc, ordered.as_slice(), level, field, range, groups);
    }
    let middle = least + (most - least) / 2;
    let (left, right) = members.split_at(count_up_to(members, level, field, middle));
    divide(alloc, left, level, field, (least, middle), groups)?;
    divide(alloc, right, level, field, (middle + 1, most), groups)
}
