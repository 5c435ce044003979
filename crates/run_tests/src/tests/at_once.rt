//! Lanes run at once, and each sees the gate before it does anything.

use crate::tests::support::run_with;
use meeting_gate::MeetingGate;
use std::alloc::Global;
use std::marker::Send;
use std::process::Abort;
use std::sync::Wait;
use std::sync::atomic::{AtomicBool, AtomicU64, Ordering};
use std::thread;
use std::thread::Threads;
use sw_base::{Gate, Path};
use team_live::WithoutStart;

// A meeting, and how many lanes have come when it is over.
#[derive(Drop)]
struct Meeting {
    gate: MeetingGate,
    end: u64,
}

/// Meetings of so many lanes each, one after another.
#[derive(Drop)]
struct Meetings {
    meetings: Vec<Meeting>,
    come: AtomicU64,
}

impl Meetings {
    fn new<R: Abort>(rt: &R, alloc: Global, counts: &[usize]) -> Meetings {
        let mut meetings = Vec::new(alloc);
        let mut end = 0u64;
        for count in counts {
            end = end.wrapping_add(*count as u64);
            let gate = MeetingGate::new(*count);
            meetings.push(Meeting { gate, end }).expect(rt, "memory");
        }
        Meetings {
            meetings,
            come: AtomicU64::new(0),
        }
    }

    fn were_held(&self) -> bool {
        let come = self.come.load(Ordering::SeqCst);
        let is_over = self.meetings.last().is_some_and(|last| last.end == come);
        is_over && self.meetings.iter().all(|meeting| meeting.gate.have_met())
    }
}

impl Gate for Meetings {
    fn enter(&self, number: usize) {
        let come = self.come.fetch_add(1, Ordering::SeqCst);
        if let Some(meeting) = self.meetings.iter().find(|meeting| come < meeting.end) {
            meeting.gate.enter(number);
        }
    }
}

// Whether the lanes of a kernel meet in these numbers, one meeting after another, and all words are three in the end.
fn meet<R: Abort + Threads + Wait + Sync + Copy + Send + 'static>(
    rt: &R,
    alloc: Global,
    text: &str,
    counts: &[usize],
    stays: bool,
) -> bool {
    let gate = Meetings::new(rt, alloc, counts);
    let told = WithoutStart::new(&gate);
    let run = run_with(rt, alloc, text, 4096, &told, (&Path::root(), &[]), stays);
    let end = run.ok().expect(rt, "an end");
    gate.were_held() && end.words.as_slice().iter().all(|word| *word == 3)
}

// What each lane does in three phases, in each of which all meet.
const PHASES: &str = "a[tid] = a[tid] + 1 barrier a[tid] = a[tid] + 1 barrier a[tid] = a[tid] + 1";

#[test]
fn all_lanes_run_at_once(rt: HostRuntime) {
    let alloc = rt.alloc();
    for lanes in [2, 4, 64] {
        let text = format!(in alloc;
            "array a i64 {lanes} main {{ parallel {lanes} {{ {PHASES} }} }}"
        ).expect(&rt, "memory");
        for stays in [false, true] {
            assert!(rt;
                meet(&rt, alloc, &text, &[lanes; 3], stays),
                "{lanes}, {stays}"
            );
        }
    }
}

// The last of the outer lanes forks. These meet before that, and after it.
#[test]
fn all_lanes_of_a_nested_region_run_at_once(rt: HostRuntime) {
    let alloc = rt.alloc();
    for (outer, lanes) in [(2, 2), (2, 4), (1, 64)] {
        let fork = format!(in alloc;
            "if tid == span - 1 {{ parallel {lanes} {{ {PHASES} }} }}"
        ).expect(&rt, "memory");
        let text = format!(in alloc;
            "array a i64 {lanes} main {{ parallel {outer} {{ {fork} barrier }} }}"
        ).expect(&rt, "memory");
        let counts = [outer, lanes, lanes, lanes, outer];
        for stays in [false, true] {
            assert!(rt; meet(&rt, alloc, &text, &counts, stays), "{lanes}, {stays}");
        }
    }
}

const TURNS: u64 = 4_000_000;

// Lets so many lanes 0 pass, and holds each later one until a lane 2 has come, or for so many turns, which it notes.
#[derive(Drop)]
struct HoldingGate {
    free: u64,
    firsts: AtomicU64,
    has_come: AtomicBool,
    is_late: AtomicBool,
}

impl HoldingGate {
    fn comes(&self) -> bool {
        for _ in 0..TURNS {
            if self.has_come.load(Ordering::SeqCst) {
                return true;
            }
            thread::yield_now();
        }
        false
    }
}

impl Gate for HoldingGate {
    fn enter(&self, number: usize) {
        if number == 2 {
            self.has_come.store(true, Ordering::SeqCst);
        }
        if number == 0 && self.free <= self.firsts.fetch_add(1, Ordering::SeqCst) && !self.comes() {
            self.is_late.store(true, Ordering::SeqCst);
        }
    }
}

// Lane 1 draws all chunks that lane 0 doesn't, and forks three lanes then.
const DRAWING: &str = "for i in 0 .. 4096 dynamic nowait { a[i] = tid }
loop k in 0 .. tid { parallel 3 { } }
barrier";

// Whether lane 1 draws all chunks while lane 0 is held, and forks its lanes meanwhile, after so many lanes 0 that aren't held.
fn is_held<R: Abort + Threads + Wait + Sync + Copy + Send + 'static>(
    rt: &R,
    alloc: Global,
    text: &str,
    free: u64,
    stays: bool,
) -> bool {
    let gate = HoldingGate {
        free,
        firsts: AtomicU64::new(0),
        has_come: AtomicBool::new(false),
        is_late: AtomicBool::new(false),
    };
    let told = WithoutStart::new(&gate);
    let run = run_with(rt, alloc, text, 4096, &told, (&Path::root(), &[]), stays);
    let end = run.ok().expect(rt, "an end");
    let all_drawn = end.words.as_slice().iter().all(|word| *word == 1);
    all_drawn && !gate.is_late.load(Ordering::SeqCst)
}

// What stands before and after, and how often a lane 0 comes to the gate before the one that is to be held.
const PLACES: [(&str, &str, u64); 5] = [
    ("parallel 2 {", "}", 0),
    ("parallel 2 { barrier", "}", 1),
    ("parallel 2 { barrier barrier", "}", 2),
    ("parallel 1 { parallel 2 {", "} }", 1),
    ("parallel 1 { parallel 2 { barrier", "} }", 2),
];

#[test]
fn a_lane_does_nothing_before_the_gate(rt: HostRuntime) {
    let alloc = rt.alloc();
    for (before, after, free) in &PLACES {
        let text = format!(in alloc;
            "array a i64 4096 main {{ {before} {DRAWING} {after} }}"
        ).expect(&rt, "memory");
        for stays in [false, true] {
            assert!(rt;
                is_held(&rt, alloc, &text, *free, stays),
                "{before}, {stays}"
            );
        }
    }
}
