//! Lanes that count their phases.
ghost use Rattle.std.specs.Prelude.{◌≡◌, ◌+◌, ◌-◌, ◌^◌, ◌<◌, ◌≤◌, All, length};

use std::alloc::Global;
use std::marker::{Brand, Send, Sync};
use std::sync::Wait;
use std::thread::{Builder, Threads};
use team_live::in_phases;

/// Each lane of a team adds one in each phase, so that its number is that of the phases.
pub fn counted<R: Threads + Wait + Copy + Send + Sync + 'static>(
    rt: &R,
    alloc: Global,
    phases: usize,
    lanes: Vec<u64>,
) -> Vec<u64>
    requires span { (1 ≤ length lanes.items) × (length lanes.items ≤ 64) }
    requires zeros { All (λ lane. lane ≡ 0) lanes.items }
    ensures count { length result.items ≡ length lanes.items }
    ensures counts { All (λ lane. lane ≡ phases) result.items }
{
    let (_, counts, _) = in_phases::<Brand, R, (), u64, _, _, _, _, _>(
        rt,
        alloc,
        true,
        phases,
        (),
        lanes,
        &|number: usize, _index: usize, lane: &mut u64|
            requires { (number < 2 ^ 64 - 1) × (lane.old ≡ number) }
            ensures { lane.new ≡ number + 1 }
        { *lane += 1 },
        &|_index: usize| {},
        &|_index: usize| Builder::new(),
        &|_hand: &mut (), _lanes: &mut Vec<u64>| {},
        &|_hand: &mut (), _lanes: &mut Vec<u64>| -> bool { true },
    );
    counts
}
