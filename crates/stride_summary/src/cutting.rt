ghost use Rattle.std.specs.Prelude.{◌≡◌, ℕ, ◌+◌, ◌-◌, ◌*◌, ◌^◌, ◌/◌, ◌<◌, ◌≤◌, length, slice_index, take, vec_len, vec_capacity};
ghost use Rattle.std.specs.List.Sorted.{IsStrictlyIncreasing};
ghost use Rattle.log_format.specs.Fitting.{IsWidth};
ghost use Rattle.stride_summary.specs.Run.{run_key};
ghost use Rattle.stride_summary.specs.Spread.{AddsCuts, EndsInTime, addresses_of};

use crate::key::Key;
use crate::run::Run;

/// Adds the runs of the addresses, each of as many as lie at equal distances. There has to be room for them.
pub fn push_runs(key: &Key, addresses: &[u64], runs: &mut Vec<Run>)
    requires ascending { IsStrictlyIncreasing addresses.now }
    requires sized { IsWidth key.now.size }
    requires ends { EndsInTime key.now.size addresses.now }
    requires room { vec_len runs.old + (length addresses.now + 1) / 2 ≤ vec_capacity runs.old }
    ensures cuts { AddsCuts key.now addresses.now runs.old.items runs.new.items }
    ensures capacity { vec_capacity runs.old ≤ vec_capacity runs.new }
{
    let mut rest = addresses;
    'rest: while !rest.is_empty() {
        let count = even_count(rest).min(u32::MAX as usize);
        runs.push_reserved(first_run(key, rest, count));
        let (_, later) = rest.split_at(count);
        rest = later;
    }
}

// The run of the first so many addresses.
fn first_run(key: &Key, addresses: &[u64], count: usize) -> Run
    requires some { (1 ≤ count) × (count < 2 ^ 32) × (count ≤ length addresses.now) }
    requires even { (place : ℕ) → place + 1 < count → slice_index addresses.now (place + 1) - slice_index addresses.now place ≡ slice_index addresses.now 1 - slice_index addresses.now 0 }
    requires ascending { IsStrictlyIncreasing addresses.now }
    requires sized { IsWidth key.now.size }
    requires ends { EndsInTime key.now.size addresses.now }
    ensures key { run_key result ≡ key.now }
    ensures addresses { addresses_of result ≡ take count addresses.now }
{
    Run {
        base: addresses[0],
        stride: stride_of(addresses, count),
        count: count as u32,
        size: key.size,
        write: key.write,
        atomic: key.atomic,
        line: key.line,
        site: key.site,
        held: key.held.copy(),
    }
}

// The distance of the first so many addresses.
fn stride_of(addresses: &[u64], count: usize) -> u64
    requires some { (1 ≤ count) × (count ≤ length addresses.now) }
    requires ascending { IsStrictlyIncreasing addresses.now }
    ensures one { count ≡ 1 → result ≡ 0 }
    ensures more { 2 ≤ count → (0 < result) × (result ≡ slice_index addresses.now 1 - slice_index addresses.now 0) }
{
    if count == 1 {
        return 0;
    }
    addresses[1] - addresses[0]
}

// How many of the first addresses lie at equal distances.
fn even_count(addresses: &[u64]) -> usize
    requires some { 0 < length addresses.now }
    ensures within { (1 ≤ result) × (result ≤ length addresses.now) }
    ensures two { 2 ≤ length addresses.now → 2 ≤ result }
    ensures even { (place : ℕ) → place + 1 < result → slice_index addresses.now (place + 1) - slice_index addresses.now place ≡ slice_index addresses.now 1 - slice_index addresses.now 0 }
{
    if addresses.len() < 2 {
        return 1;
    }
    let stride = addresses[1].saturating_sub(addresses[0]);
    let mut count = 2;
    'even: while count < addresses.len()
        && addresses[count].saturating_sub(addresses[count - 1]) == stride
    {
        count += 1;
    }
    count
}
