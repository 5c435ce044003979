//! On which thread a lane runs its phases.

use super::asking::asked;
use super::told::told;
use command_answer::DONE;
use memory_environment::{MemFolder, MemOut};
use std::alloc::Global;
use std::sync::atomic::{AtomicU64, Ordering};
use sw_base::Gate;

// The number of the thread that asks, or 0 where the host doesn't tell it.
fn this_thread(rt: HostRuntime, alloc: Global) -> u64 {
    told(rt, alloc, "/proc/thread-self/status", b"\nPid:\t")
}

// Notes the threads on which the second lane begins its first phases.
#[derive(Drop)]
struct ThreadGate {
    rt: HostRuntime,
    alloc: Global,
    phases: AtomicU64,
    threads: [AtomicU64; 3],
}

impl Gate for ThreadGate {
    fn enter(&self, number: usize) {
        if number != 1 {
            return;
        }
        let phase = self.phases.fetch_add(1, Ordering::SeqCst);
        if let Some(noted) = self.threads.get(phase as usize) {
            noted.store(this_thread(self.rt, self.alloc), Ordering::SeqCst);
        }
    }
}

const THREE_PHASES: &str =
    "array a i64 4 main { parallel 2 { a[tid] = 1 barrier a[2 + tid] = 2 barrier a[tid] = 3 } }";

#[test]
fn a_lane_stays_on_its_thread_in_live(rt: HostRuntime) {
    let alloc = rt.alloc();
    let gate = ThreadGate {
        rt,
        alloc,
        phases: AtomicU64::new(0),
        threads: [AtomicU64::new(0), AtomicU64::new(0), AtomicU64::new(0)],
    };
    let mut folder = MemFolder::new(alloc).expect(&rt, "memory");
    folder
        .hold("k", THREE_PHASES.as_bytes())
        .expect(&rt, "memory");
    let mut out = MemOut::new(alloc).expect(&rt, "memory");
    let words = &["live", "k", "d", "4096"];
    let status = asked(&rt, alloc, &mut folder, words, &mut out, &gate);
    assert!(rt; status == DONE && gate.phases.load(Ordering::SeqCst) == 3);
    let [first, second, third] = &gate.threads;
    let first = first.load(Ordering::SeqCst);
    assert!(rt; first > 0 && first != this_thread(rt, alloc));
    assert!(rt; second.load(Ordering::SeqCst) == first && third.load(Ordering::SeqCst) == first);
}
