ghost use Rattle.std.specs.Prelude.{◌≡◌, ◌↔◌, ◌≤◌, ℕ, All, false, true, OnOk, IfOk};
ghost use Rattle.pair_compare.specs.Conflict.{GrowsBy, OneHas};
ghost use Rattle.pair_compare.specs.Groups.{IsGroupPair, IsPartedPair, IsRunOf};
ghost use Rattle.pair_compare.specs.Work.{IsPairAt, NeverWrites, IsTaskPair};

use crate::crowding::singly;
use crate::group::Group;
use crate::member::Member;
use std::alloc::Global;
use sw_base::Memory;

/// A task has more runs than these only where a group has so many, which aren't worth two tasks.
const LEAST: usize = 1024;

/// About the most runs of a task, so that what a worker keeps of them stays in the processor's caches.
const MOST: usize = 16_384;

/// A group is cut in so many tasks at most, since each of them looks at all members.
const PARTS: usize = 1024;

/// Members of a group and the bytes from a first to a last: a run that begins there is compared with those before it.
#[derive(Drop)]
pub struct Task<'g, 's> {
    pub members: &'g [Member<'s>],
    pub low: u64,
    pub high: u64,
    /// Runs of at most so many addresses are taken one address at a time: nothing between these meets them.
    pub singly: u32,
    /// About how many runs these are.
    pub runs: usize,
}

// Whether a run of the member may write and reach over one of the bytes.
fn may_write(member: &Member, low: u64, high: u64) -> bool
    ensures { result ≡ false → NeverWrites low high member.now }
{
    if !member.writes {
        return false;
    }
    member.meets(low, high)
}

// Whether nobody writes there, so that nothing conflicts.
fn is_idle(members: &[Member], low: u64, high: u64) -> bool
    ensures { result ≡ true → All (NeverWrites low high) members.now }
{
    for member in members {
        if may_write(member, low, high) {
            return false;
        }
    }
    true
}

fn runs_in(members: &[Member]) -> usize {
    let mut runs = 0usize;
    for member in members {
        runs = runs.saturating_add(member.runs.len());
    }
    runs
}

// Where the members begin, in order.
fn begins(alloc: Global, members: &[Member]) -> Result<Vec<u64>, Memory> {
    let mut lows = Vec::new(alloc);
    for member in members {
        lows.push(member.low)?;
    }
    lows.sort_unstable();
    Ok(lows)
}

// Bytes that cut the members' runs in about so many even parts.
fn cuts_of(alloc: Global, members: &[Member], parts: usize) -> Result<Vec<u64>, Memory>
    requires { 1 ≤ parts }
{
    let mut cuts = Vec::new(alloc);
    if parts == 1 {
        return Ok(cuts);
    }
    let lows = begins(alloc, members)?;
    let size = lows.len() / parts + 1;
    for cut in lows.iter().skip(size).step_by(size) {
        cuts.push(*cut)?;
    }
    Ok(cuts)
}

// Adds a task of the members at these bytes, of about so many runs, unless nobody writes there.
fn add_task<'g, 's>(
    members: &'g [Member<'s>],
    singly: u32,
    bytes: (u64, u64),
    runs: usize,
    tasks: &mut Vec<Task<'g, 's>>,
) -> Result<(), Memory>
    ensures { OnOk result (GrowsBy (OneHas IsTaskPair tasks.old.items) (OneHas IsTaskPair tasks.new.items) (IsPairAt members.now singly bytes.0 bytes.1)) }
{
    let (low, high) = bytes;
    if is_idle(members, low, high) {
        return Ok(());
    }
    tasks.push(Task {
        members,
        low,
        high,
        singly,
        runs,
    })?;
    Ok(())
}

// Adds tasks for all bytes, cut behind these ones, of about so many runs each.
fn cut_at<'g, 's>(
    members: &'g [Member<'s>],
    singly: u32,
    cuts: &[u64],
    runs: usize,
    tasks: &mut Vec<Task<'g, 's>>,
) -> Result<(), Memory>
    ensures { OnOk result (GrowsBy (OneHas IsTaskPair tasks.old.items) (OneHas IsTaskPair tasks.new.items) (IsPartedPair (OneHas IsRunOf members.now))) }
{
    let mut low = 0u64;
    for cut in cuts {
        let high = low.max(*cut);
        add_task(members, singly, (low, high), runs, tasks)?;
        low = high.saturating_add(1);
    }
    add_task(members, singly, (low, u64::MAX), runs, tasks)
}

// Adds the tasks of a group, of about so many runs at most.
fn cut_group<'g, 's>(
    alloc: Global,
    group: &'g Group<'s>,
    most: usize,
    tasks: &mut Vec<Task<'g, 's>>,
) -> Result<(), Memory>
    requires { 1 ≤ most }
    ensures { OnOk result (GrowsBy (OneHas IsTaskPair tasks.old.items) (OneHas IsTaskPair tasks.new.items) (IsGroupPair group.now)) }
{
    let members = group.members.as_slice();
    let runs = runs_in(members);
    let parts = (runs / most).saturating_add(1).min(PARTS);
    let cuts = cuts_of(alloc, members, parts)?;
    let singly = singly(alloc, members)?;
    cut_at(members, singly, cuts.as_slice(), runs / parts, tasks)
}

/// How many runs the groups have.
pub fn runs_in_all(groups: &[Group]) -> usize {
    let mut runs = 0usize;
    for group in groups {
        runs = runs.saturating_add(runs_in(group.members.as_slice()));
    }
    runs
}

/// The work of the groups, in tasks of about so many runs that each of the workers has some.
pub fn cut<'g, 's>(
    alloc: Global,
    groups: &'g [Group<'s>],
    workers: usize,
) -> Result<Vec<Task<'g, 's>>, Memory>
    requires { 1 ≤ workers }
    ensures { IfOk result (λ tasks. (pair : ℕ × ℕ) → OneHas IsTaskPair tasks.items pair ↔ OneHas IsGroupPair groups.now pair) }
{
    let share = runs_in_all(groups) / workers;
    let most = LEAST.max(MOST.min(share.saturating_add(1)));
    let mut tasks = Vec::new(alloc);
    for group in groups {
        cut_group(alloc, group, most, &mut tasks)?;
    }
    Ok(tasks)
}
