ghost use Rattle.std.specs.Prelude.{◌≡◌, ◌↔◌, ◌<◌, ◌≤◌, ℕ, length, slice_index_or, IfOk};
ghost use Rattle.pair_compare.specs.Compare.{IsSegmentPair};
ghost use Rattle.pair_compare.specs.Conflict.{OneHas};
ghost use Rattle.pair_compare.specs.Groups.{IsGroupPair, IsSameGroup, IsSameMember, KeepsGroup};

use crate::group::{Group, groups};
use crate::member::Member;
use crate::task::runs_in_all;
use log_segment::Segment;
use std::alloc::Global;
use std::thread;
use std::thread::Threads;
use sw_base::Memory;

/// A group of fewer members than these isn't worth a thread of its own.
const FEW: usize = 512;

/// Nor are groups with fewer runs than these together.
const FEW_RUNS: usize = 65_536;

fn threads_for(count: usize, few: usize, workers: usize) -> usize
    requires { 1 ≤ workers }
    ensures { 1 ≤ result }
{
    if count < few {
        return 1;
    }
    workers
}

fn measure_members<R: Threads + Sync>(rt: &R, members: &mut [Member], workers: usize)
    requires { 1 ≤ workers }
    ensures count { length members.new ≡ length members.old }
    ensures same { (i : ℕ) (d : _) → i < length members.old → IsSameMember (slice_index_or members.old i d) (slice_index_or members.new i d) }
{
    let threads = threads_for(members.len(), FEW, workers);
    thread::for_each_mut(rt, members, threads, &|_place, member| { member.measure() });
}

fn measure_group<R: Threads + Sync>(rt: &R, group: &mut Group, workers: usize)
    requires { 1 ≤ workers }
    ensures { IsSameGroup group.old group.new }
{
    measure_members(rt, &mut group.members, workers);
}

// Measures a group that isn't worth a thread of its own.
fn measure_short<R: Threads + Sync>(rt: &R, group: &mut Group)
    ensures { KeepsGroup group.old group.new }
{
    if group.members.len() < FEW {
        measure_group(rt, group, 1);
    }
}

// Measures a group that is worth all workers.
fn measure_long<R: Threads + Sync>(rt: &R, group: &mut Group, workers: usize)
    requires { 1 ≤ workers }
    ensures { IsSameGroup group.old group.new }
{
    if group.members.len() >= FEW {
        measure_group(rt, group, workers);
    }
}

fn measure_all_short<R: Threads + Sync>(rt: &R, groups: &mut [Group], workers: usize)
    requires { 1 ≤ workers }
    ensures count { length groups.new ≡ length groups.old }
    ensures same { (i : ℕ) (d : _) → i < length groups.old → KeepsGroup (slice_index_or groups.old i d) (slice_index_or groups.new i d) }
{
    let threads = threads_for(runs_in_all(groups), FEW_RUNS, workers);
    thread::for_each_mut(
        rt,
        groups,
        threads,
        &|_place, group| { measure_short(rt, group) },
    );
}

// The short groups at once, each by one worker, and then one long group after another, each by all.
fn measure<R: Threads + Sync>(rt: &R, groups: &mut [Group], workers: usize)
    requires { 1 ≤ workers }
    ensures count { length groups.new ≡ length groups.old }
    ensures same { (pair : ℕ × ℕ) → OneHas IsGroupPair groups.new pair ↔ OneHas IsGroupPair groups.old pair }
{
    measure_all_short(rt, groups, workers);
    for group in groups {
        measure_long(rt, group, workers);
    }
}

/// Groups in which each two concurrent segments stand in two parts, and no others do. Their members are measured.
pub fn measured_groups<'s, R: Threads + Sync>(
    rt: &R,
    alloc: Global,
    segments: &'s [Segment],
    workers: usize,
) -> Result<Vec<Group<'s>>, Memory>
    requires { 1 ≤ workers }
    ensures { IfOk result (λ found. (pair : ℕ × ℕ) → OneHas IsGroupPair found.items pair ↔ IsSegmentPair segments.now pair) }
{
    let mut found = groups(alloc, segments)?;
    measure(rt, &mut found, workers);
    Ok(found)
}
