ghost use Rattle.std.specs.Prelude.{◌≡◌, ℕ, ◌+◌, ◌-◌, ◌^◌, ◌<◌, ◌≤◌, length, slice_index_or, vec_len, vec_capacity};
ghost use Rattle.stride_summary.specs.declared.single.Single.{Single};
ghost use Rattle.stride_summary.specs.Accesses.{AreSized, Ascend, BeginsWith, EndByTheLast, LiesBehind};
ghost use Rattle.stride_summary.specs.Singles.{AddsSingles};

use crate::run::Run;
use crate::single::Single;
use mutex_set::Held;

/// Adds the runs of the accesses, each of as many as have one key and lie at equal distances. There has to be room for one each.
pub fn push_joined(singles: &[Single], runs: &mut Vec<Run>)
    requires ascending { Ascend singles.now }
    requires sized { AreSized singles.now }
    requires ends { EndByTheLast singles.now }
    requires room { vec_len runs.old + length singles.now ≤ vec_capacity runs.old }
    ensures { AddsSingles singles.now runs.old.items runs.new.items }
{
    let mut rest = singles;
    'rest: while !rest.is_empty() {
        let run = first_run(rest);
        let (_, later) = rest.split_at(run.count as usize);
        runs.push_reserved(run);
        rest = later;
    }
}

// The run of the first accesses.
fn first_run(singles: &[Single]) -> Run
    requires some { 0 < length singles.now }
    requires sized { AreSized singles.now }
    requires ends { EndByTheLast singles.now }
    ensures { BeginsWith singles.now result }
{
    let first = &singles[0];
    let distance = distance_at(singles, 1);
    let count = even_count(singles, distance);
    Run {
        base: first.addr,
        stride: if count == 1 { 0 } else { distance },
        count: count as u32,
        size: first.size,
        write: first.write,
        atomic: first.atomic,
        line: first.line,
        site: first.site,
        held: Held::none(),
    }
}

// How many of the first accesses have one key and lie at this distance, which is 0 for one alone.
fn even_count(singles: &[Single], distance: u64) -> usize
    requires some { 0 < length singles.now }
    ensures within { (1 ≤ result) × (result ≤ length singles.now) × (result < 2 ^ 32) }
    ensures apart { 2 ≤ result → 0 < distance }
    ensures even { (place : ℕ) (d : Single) → place + 1 < result → LiesBehind (slice_index_or singles.now place d) (slice_index_or singles.now (place + 1) d) distance }
{
    let mut count = 1;
    'even: while count < u32::MAX as usize
        && distance > 0
        && distance_at(singles, count) == distance
    {
        count += 1;
    }
    count
}

// How far the access at this place lies behind the one before it, or 0 if there is none of its key.
fn distance_at(singles: &[Single], place: usize) -> u64
    requires later { 1 ≤ place }
    ensures within { 0 < result → place < length singles.now }
    ensures behind { 0 < result → (d : Single) → LiesBehind (slice_index_or singles.now (place - 1) d) (slice_index_or singles.now place d) result }
{
    if place >= singles.len() {
        return 0;
    }
    singles[place - 1].distance(&singles[place])
}
