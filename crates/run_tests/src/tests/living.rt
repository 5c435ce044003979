//! Teams whose threads stay: each thread starts once a region of several phases, and each lane enters each phase.

use crate::tests::support::{finished, have_same_bytes, run_with};
use memory_environment::MemLog;
use region_runner::Finished;
use std::alloc::Global;
use std::marker::Send;
use std::process::Abort;
use std::sync::Wait;
use std::sync::atomic::{AtomicU64, Ordering};
use std::thread::{Builder, Threads};
use sw_base::{ClosedLog, Gate, Path};
use team_live::LiveGate;

/// How often the threads of the first three lanes started, and how often these lanes entered a phase. The threads of some lanes, by their
/// bits, can't be started.
#[derive(Drop)]
struct Counts {
    refused: u64,
    started: [AtomicU64; 3],
    entered: [AtomicU64; 3],
}

// Three zeros.
fn zeros() -> [AtomicU64; 3] {
    [AtomicU64::new(0), AtomicU64::new(0), AtomicU64::new(0)]
}

// One more at this place.
fn tick(counts: &[AtomicU64], place: usize) {
    if let Some(count) = counts.get(place) {
        count.fetch_add(1, Ordering::SeqCst);
    }
}

// Whether these are the counts.
fn are(counts: &[AtomicU64], due: &[u64]) -> bool {
    counts.len() == due.len()
        && counts
            .iter()
            .zip(due)
            .all(|(count, due)| count.load(Ordering::SeqCst) == *due)
}

impl Counts {
    fn new(refused: u64) -> Counts {
        Counts {
            refused,
            started: zeros(),
            entered: zeros(),
        }
    }
}

impl Gate for Counts {
    fn enter(&self, number: usize) {
        tick(&self.entered, number);
    }
}

impl LiveGate for Counts {
    fn thread(&self, lane: usize) -> Builder {
        if lane < 64 && self.refused >> lane & 1 == 1 {
            Builder::new().stack_size(usize::MAX)
        } else {
            Builder::new()
        }
    }

    fn started(&self, lane: usize) {
        tick(&self.started, lane);
    }
}

/// A kernel, how often the threads of its lanes start, and how often the lanes enter a phase.
type Living<'a> = (&'a str, [u64; 3], [u64; 3]);

const LIVES: &[Living<'static>] = &[
    // Three phases, the last one empty.
    (
        "array a i64 8
array b i64 8
main { parallel 2 {
for i in 0 .. 8 { a[i] = i }
for i in 0 .. 7 { b[i] = a[i+1] }
} }",
        [0, 1, 0],
        [3, 3, 0],
    ),
    // Lane 1 leaves the array in the second of three phases.
    (
        "array a i64 4
main { parallel 3 {
barrier
a[tid * 4] = 1
barrier
} }",
        [0, 1, 1],
        [2, 2, 2],
    ),
    // Two phases, in the first of which each lane forks a region of two phases.
    (
        "array a i64 8
main { parallel 2 {
let i = tid
parallel 2 { a[4 * i + tid] = 1
barrier
a[4 * i + 2 + tid] = 1 }
barrier
} }",
        [0, 3, 0],
        [6, 6, 0],
    ),
    // Two regions of two phases, one after another.
    (
        "array a i64 4
main {
parallel 2 { a[tid] = 1
barrier }
parallel 2 { a[1 - tid] = 2
barrier }
}",
        [0, 2, 0],
        [4, 4, 0],
    ),
    // One phase, in which no thread stays, and after it a region of two.
    (
        "array a i64 4
main {
parallel 2 { a[tid] = 1 }
parallel 3 { a[tid] = 2
barrier }
}",
        [0, 1, 1],
        [3, 3, 2],
    ),
];

// Whether the threads of the kernel's lanes start so often, and the lanes enter so many phases.
fn lives<R: Abort + Threads + Wait + Sync + Copy + Send + 'static>(
    rt: &R,
    alloc: Global,
    due: &Living<'_>,
) -> bool {
    let (text, started, entered) = due;
    let gate = Counts::new(0);
    let _ = run_with(rt, alloc, text, 4096, &gate, (&Path::root(), &[]), true);
    are(&gate.started, started) && are(&gate.entered, entered)
}

#[test]
fn the_threads_of_a_region_start_once(rt: HostRuntime) {
    for due in LIVES {
        assert!(rt; lives(&rt, rt.alloc(), due), "{}", due.0);
    }
}

// Sixty-four lanes in four levels of regions of two phases, each of which has an element of its own.
const DEEP: &str = "array a i64 64
main { parallel 4 {
let i = tid
parallel 4 {
let j = tid
parallel 2 {
let k = tid
parallel 2 { a[16 * i + 4 * j + 2 * k + tid] = 1
barrier }
barrier }
barrier }
barrier } }";

#[test]
fn regions_nest_in_four_levels(rt: HostRuntime) {
    for stays in [false, true] {
        let end = finished(&rt, rt.alloc(), DEEP, 4096, stays);
        assert!(rt; end.logs.len() == 117 && end.words.as_slice() == [1; 64].as_slice());
    }
}

// A lane of a region in lane 0, and lane 1, store into one element.
const RACING: &str = "array a i64 4
main { parallel 2 {
if tid == 0 { parallel 2 {
a[tid] = 1 } }
if tid == 1 { a[1] = 2 }
} }";

const RACING_TASKS: [&str; 5] = [
    "t.swl",
    "t-0.0.swl",
    "t-0.0-0.0.swl",
    "t-0.0-0.1.swl",
    "t-0.1.swl",
];

// Whether these are the names of the logs' tasks, in order.
fn are_named(rt: &impl Abort, alloc: Global, logs: &[ClosedLog<MemLog>], names: &[&str]) -> bool {
    for (log, name) in logs.iter().zip(names) {
        if log.path.bare_name(alloc).expect(rt, "memory").as_str() != *name {
            return false;
        }
    }
    logs.len() == names.len()
}

#[test]
fn a_kernel_with_a_race_ends_with_a_log_for_each_task(rt: HostRuntime) {
    for stays in [false, true] {
        let end = finished(&rt, rt.alloc(), RACING, 4096, stays);
        assert!(rt; are_named(&rt, rt.alloc(), &end.logs, &RACING_TASKS));
    }
}

// Four lanes of three phases, each of which forks three lanes of two phases in the last one. No two lanes touch one element at once.
const FORKING: &str = "array a i64 16
array b i64 16
main { parallel 4 {
let p = tid
for i in 0 .. 16 { a[i] = i }
for i in 0 .. 16 { b[i] = a[15 - i] }
parallel 3 { a[4 * p + tid] = b[4 * p + tid]
barrier
b[4 * p + tid] = a[4 * p + 2 - tid] }
} }";

// The lanes whose threads can't be started, by their bits, and how often those of the first three start.
const REFUSED: [(u64, [u64; 3]); 4] = [
    (0, [0, 5, 5]),
    (2, [0, 0, 0]),
    (4, [0, 5, 0]),
    (u64::MAX, [0, 0, 0]),
];

// Whether such a run has these logs and words, and so many threads start.
fn runs_so<R: Abort + Threads + Wait + Sync + Copy + Send + 'static>(
    rt: &R,
    alloc: Global,
    due: &Finished<MemLog>,
    refused: u64,
    started: &[u64],
) -> bool {
    let gate = Counts::new(refused);
    let run = run_with(rt, alloc, FORKING, 96, &gate, (&Path::root(), &[]), true);
    let end = run.ok().expect(rt, "an end");
    let is_same = end.words.as_slice() == due.words.as_slice()
        && have_same_bytes(&end.logs, &due.logs);
    is_same && are(&gate.started, started)
}

#[test]
fn a_run_is_the_same_where_threads_cant_be_started(rt: HostRuntime) {
    let due = finished(&rt, rt.alloc(), FORKING, 96, false);
    for (refused, started) in REFUSED {
        assert!(rt;
            runs_so(&rt, rt.alloc(), &due, refused, &started),
            "{refused}"
        );
    }
}
