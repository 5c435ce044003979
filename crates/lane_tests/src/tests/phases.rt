//! The ends of phases and tasks, with what a log tells of them.
ghost use Rattle.std.specs.Prelude.{OnOk};
ghost use Rattle.lane_runner.specs.Going.{CanGo};

use crate::tests::support::{buffer, is_log_of, log_of};
use kernel_model::Item;
use kernel_syntax::{Array, Team};
use lane_runner::{Frame, Halt, Locals, Stop, Track, World};
use log_format::{Kind, Record};
use memory_environment::MemLog;
use shared_words::{Chunks, Hand, Words};
use std::alloc::Global;
use std::marker::Send;
use std::sync::Wait;
use std::thread::Threads;
use sw_base::{ClosedLog, Path, Trouble};

const FULL: u32 = 4_194_304;

// The record of a step that is no access.
fn event(kind: Kind, line: u32) -> Record {
    Record {
        kind,
        size: 0,
        site: 0,
        line,
        addr: 0,
        value: 0,
    }
}

#[test]
fn a_barrier_and_an_end_are_recorded(rt: HostRuntime) {
    let alloc = rt.alloc();
    let buffer = buffer(&rt, alloc).expect(&rt, "memory");
    let (words, hand) = Words::new(alloc, 0, 1).expect(&rt, "memory");
    let (chunks, draws) = Chunks::new(alloc, 0).expect(&rt, "memory");
    let arrays: [Array; 0] = [];
    let world = World::new(&arrays, &words, &chunks, 0, 1);
    let mut track = Track::new(alloc, hand, buffer, draws);
    let Ok(()) = track.meet(&rt, alloc, 5) else {
        panic!(rt; "no room");
    };
    let Ok(()) = track.finish(&rt, alloc, 9) else {
        panic!(rt; "no room");
    };
    let expected = [event(Kind::Barrier, 5), event(Kind::End, 9)];
    assert!(rt; is_log_of(log_of(&rt, alloc, track).bytes(), &expected));
}

// Fills a log with barriers.
fn fill<R: Threads + Wait + Copy + Send + 'static>(
    rt: &R,
    alloc: Global,
    world: &World,
    track: &mut Track<MemLog>,
) -> Result<(), Halt>
    requires can { CanGo world.now track.old }
    ensures can { OnOk result (CanGo world.now track.new) }
{
    for _ in 0..FULL {
        track.meet(rt, alloc, 5)?;
    }
    Ok(())
}

#[test]
fn a_full_log_takes_no_barrier_and_no_end(rt: HostRuntime) {
    let alloc = rt.alloc();
    let buffer = buffer(&rt, alloc).expect(&rt, "memory");
    let (words, hand) = Words::new(alloc, 0, 1).expect(&rt, "memory");
    let (chunks, draws) = Chunks::new(alloc, 0).expect(&rt, "memory");
    let arrays: [Array; 0] = [];
    let world = World::new(&arrays, &words, &chunks, 0, 1);
    let mut track = Track::new(alloc, hand, buffer, draws);
    let Ok(()) = fill(&rt, alloc, &world, &mut track) else {
        panic!(rt; "no room");
    };
    let Err(Halt::Own(Stop::LogFull { line })) = track.meet(&rt, alloc, 6) else {
        panic!(rt; "a barrier too many");
    };
    assert!(rt; line == 6);
    let Err(Halt::Own(Stop::LogFull { line })) = track.finish(&rt, alloc, 7) else {
        panic!(rt; "an end too many");
    };
    assert!(rt; line == 7);
}

// Runs no region: no memory is found.
fn stuck(
    _: &mut Hand,
    _: &Locals,
    _: u32,
    _: Vec<MemLog>,
    _: &Team,
    _: &mut Vec<ClosedLog<MemLog>>,
) -> Result<(), (Path, Stop)> {
    Err((Path::root(), Stop::Trouble(Trouble::Memory)))
}

#[test]
fn a_value_is_set_before_the_lanes_meet(rt: HostRuntime) {
    let alloc = rt.alloc();
    let slots = vec![in alloc; 7i64, 7].expect(&rt, "memory");
    let buffer = buffer(&rt, alloc).expect(&rt, "memory");
    let (words, hand) = Words::new(alloc, 0, 1).expect(&rt, "memory");
    let (chunks, draws) = Chunks::new(alloc, 0).expect(&rt, "memory");
    let arrays: [Array; 0] = [];
    let world = World::new(&arrays, &words, &chunks, 0, 1);
    let track = Track::new(alloc, hand, buffer, draws);
    let mut frame = Frame {
        locals: Locals { slots },
        track,
    };
    let set = Item::Set { slot: 1, value: 3 };
    let Ok(()) = frame.step(&set, &rt, alloc, &world, &stuck) else {
        panic!(rt; "no room");
    };
    let bar = Item::Bar { line: 5 };
    let Ok(()) = frame.step(&bar, &rt, alloc, &world, &stuck) else {
        panic!(rt; "no room");
    };
    assert!(rt; frame.locals.get(0) == 7 && frame.locals.get(1) == 3);
    let log = log_of(&rt, alloc, frame.track);
    assert!(rt; is_log_of(log.bytes(), &[event(Kind::Barrier, 5)]));
}
