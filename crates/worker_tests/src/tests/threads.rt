//! That no thread of a run is left when it has ended.

use super::asking::printed;
use super::told::told;
use command_answer::{DONE, KERNEL_STOPPED};
use memory_environment::MemFolder;
use std::alloc::Global;
use std::thread;

// How many threads this process has.
fn threads(rt: HostRuntime, alloc: Global) -> u64 {
    told(rt, alloc, "/proc/self/status", b"\nThreads:\t")
}

// A kernel that ends. Its lanes fill blocks that are handed to writers, and go through two phases.
const FILLING: &str =
    "array a i64 64 main { parallel 64 { loop k in 0 .. 1600 { a[tid] = k } barrier } }";

// One of which some lanes stop while the others go on.
const DIVIDING: &str =
    "array a i64 64 main { parallel 64 { loop k in 0 .. 1600 { a[tid / (tid - 5)] = k } barrier } }";

// By which command it runs, and how.
const RUNS: &[(&str, &str, u8)] = &[
    ("run", FILLING, DONE),
    ("run", DIVIDING, KERNEL_STOPPED),
    ("live", FILLING, DONE),
    ("live", DIVIDING, KERNEL_STOPPED),
];

/// How often is looked whether the threads have ended.
const TURNS: u32 = 1_000_000;

// Whether there are at most so many threads, after a while.
fn are_left(rt: HostRuntime, alloc: Global, most: u64) -> bool {
    for _ in 0..TURNS {
        if (1..=most).contains(&threads(rt, alloc)) {
            return true;
        }
        thread::yield_now();
    }
    false
}

#[test]
fn no_thread_of_a_run_is_left(rt: HostRuntime) {
    let alloc = rt.alloc();
    let before = threads(rt, alloc);
    for (name, kernel, due) in RUNS {
        let mut folder = MemFolder::new(alloc).expect(&rt, "memory");
        folder.hold("k", kernel.as_bytes()).expect(&rt, "memory");
        let (status, _) = printed(&rt, alloc, &mut folder, &[*name, "k", "d", "16384"]);
        assert!(rt; status == *due, "{name} {kernel}");
        assert!(rt; are_left(rt, alloc, before), "{name} {kernel}");
    }
}
