//! The steps of lanes on a mutex, with what their logs tell of them.
ghost use Rattle.std.specs.Prelude.{◌≡◌, ◌≤◌, ◌<◌, []};
ghost use Rattle.log_format.specs.Limit.{record_limit};
ghost use Rattle.shared_words.specs.Handles.{Belongs};

use crate::tests::support::{buffer, is_log_of, log_of, step};
use kernel_syntax::Array;
use lane_runner::{Track, World};
use log_format::{Kind, Record};
use memory_environment::MemLog;
use shared_words::{ChunkHand, Chunks, Hand, Words};
use std::alloc::Global;
use std::marker::Send;
use std::sync::Wait;
use std::thread::Threads;

// What a lane with this hand leaves that takes mutex 1, and then stops with it or gives it back.
fn left<R: Threads + Wait + Copy + Send + 'static>(
    rt: &R,
    alloc: Global,
    world: &World,
    hand: Hand,
    draws: ChunkHand,
    stops: bool,
) -> Option<MemLog>
    requires hand { Belongs hand world.now.words.table }
    requires home { hand.view.out ≡ [] }
    requires free { hand.view.held ≡ [] }
    requires mutex { 1 < world.now.words.locks }
    requires draws { Belongs draws world.now.chunks.table }
    requires enough { record_limit ≤ draws.view.left }
{
    let mut track = Track::new(alloc, hand, buffer(rt, alloc).ok()?, draws);
    let Ok(()) = track.lock(rt, alloc, world, 1, 5) else {
        return None;
    };
    if stops {
        track.release(world, 1);
        return Some(log_of(rt, alloc, track));
    }
    let Ok(()) = track.unlock(rt, alloc, world, 1, 7) else {
        return None;
    };
    Some(log_of(rt, alloc, track))
}

// Whether a log was left, and has these records.
fn has(left: Option<MemLog>, records: &[Record]) -> bool {
    match left {
        Some(log) => is_log_of(log.bytes(), records),
        None => false,
    }
}

#[test]
fn a_mutex_released_at_a_stop_is_won_by_another(rt: HostRuntime) {
    let alloc = rt.alloc();
    let (words, mut hand) = Words::new(alloc, 0, 2).expect(&rt, "memory");
    let one = words.split(&mut hand, 0, 2);
    let other = words.split(&mut hand, 1, 2);
    let arrays: [Array; 0] = [];
    let (chunks, mut draws) = Chunks::new(alloc, 0).expect(&rt, "memory");
    let lent = chunks.split(&mut draws);
    let world = World::new(&arrays, &words, &chunks, 0, 1);
    let one = left(&rt, alloc, &world, one, draws, true);
    let two = left(&rt, alloc, &world, other, lent, false);
    assert!(rt; has(one, &[step(Kind::Lock, 1, 5)]));
    assert!(rt; has(two, &[step(Kind::Lock, 1, 5), step(Kind::Unlock, 1, 7)]));
}

#[test]
fn a_lane_goes_on_in_its_log_with_another_hand(rt: HostRuntime) {
    let alloc = rt.alloc();
    let buffer = buffer(&rt, alloc).expect(&rt, "memory");
    let (words, mut first) = Words::new(alloc, 0, 2).expect(&rt, "memory");
    let one = words.split(&mut first, 0, 1);
    let two = words.split(&mut first, 0, 1);
    let arrays: [Array; 0] = [];
    let (chunks, draws) = Chunks::new(alloc, 0).expect(&rt, "memory");
    let world = World::new(&arrays, &words, &chunks, 0, 1);
    let mut track = Track::new(alloc, one, buffer, draws);

    let Ok(()) = track.lock(&rt, alloc, &world, 1, 5) else {
        panic!(rt; "no room");
    };
    let mut one = track.trade(two);
    words.unlock(&mut one, 1);
    let Ok(()) = track.lock(&rt, alloc, &world, 1, 6) else {
        panic!(rt; "no room");
    };

    let both = [step(Kind::Lock, 1, 5), step(Kind::Lock, 1, 6)];
    assert!(rt; is_log_of(log_of(&rt, alloc, track).bytes(), &both));
}
