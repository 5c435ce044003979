//! A generated run: how its records are spelled, and which logs are there after a call that failed.

use generated_run::{accesses, generate, segments};
use memory_environment::MemFolder;
use std::alloc::Global;
use std::process::Abort;
use std::test::Fail;
use sw_base::Trouble;

// The root's fork of eight lanes.
const REGION: &[u8] = &[
    6, 0, 0, 0, 0, 0, 0, 1, 0, 0, 0, 0, 0, 0, 0, 0, 0, 0, 0, 0, 0, 0, 0, 8,
];

const END: &[u8] = &[
    8, 0, 0, 0, 0, 0, 0, 50, 0, 0, 0, 0, 0, 0, 0, 0, 0, 0, 0, 0, 0, 0, 0, 0,
];

// Lane 1's second write, at 4096 + 32 * 2 + 8.
const PLAIN_WRITE: &[u8] = &[
    2, 8, 0, 0, 0, 0, 0, 10, 0, 0, 0, 0, 0, 0, 16, 72, 0, 0, 0, 0, 0, 0, 0, 1,
];

const BARRIER: &[u8] = &[
    5, 0, 0, 0, 0, 0, 0, 20, 0, 0, 0, 0, 0, 0, 0, 0, 0, 0, 0, 0, 0, 0, 0, 0,
];

const READ: &[u8] = &[
    1, 8, 0, 1, 0, 0, 0, 30, 0, 0, 0, 0, 0, 0, 16, 24, 0, 0, 0, 0, 0, 0, 0, 0,
];

const WRITE: &[u8] = &[
    2, 4, 0, 2, 0, 0, 0, 40, 0, 0, 0, 0, 0, 0, 16, 24, 0, 0, 0, 0, 0, 0, 0, 0,
];

// The last lane's third read, of the first lane's element.
const WRAPPED: &[u8] = &[
    1, 8, 0, 1, 0, 0, 0, 30, 0, 0, 0, 0, 0, 0, 16, 192, 0, 0, 0, 0, 0, 0, 0, 2,
];

// A log, the place of a record's first byte there, and its bytes.
const SPELLED: &[(&str, usize, &[u8])] = &[
    ("g/t.swl", 8, REGION),
    ("g/t.swl", 32, END),
    ("g/t-0.1.swl", 32, PLAIN_WRITE),
    ("g/t-0.1.swl", 104, BARRIER),
    ("g/t-0.1.swl", 224, END),
    ("g/t-0.2.swl", 128, READ),
    ("g/t-0.3.swl", 224, WRITE),
    ("g/t-0.7.swl", 176, WRAPPED),
];

const LENGTHS: &[(&str, usize)] = &[
    ("g/t.swl", 56),
    ("g/t-0.0.swl", 248),
    ("g/t-0.3.swl", 272),
    ("g/index.swi", 440),
];

fn file<'f>(folder: &'f MemFolder, name: &str) -> &'f [u8] {
    match folder.file(name) {
        Some(bytes) => bytes,
        None => &[],
    }
}

fn has_bytes(folder: &MemFolder, name: &str, at: usize, bytes: &[u8]) -> bool {
    match file(folder, name).get(at..) {
        Some(rest) => rest.starts_with(bytes),
        None => false,
    }
}

// The first file that has other records or another length.
fn first_other(folder: &MemFolder) -> Option<&'static str> {
    for (name, at, bytes) in SPELLED {
        if !has_bytes(folder, name, *at, bytes) {
            return Some(*name);
        }
    }
    for (name, length) in LENGTHS {
        if file(folder, name).len() != *length {
            return Some(*name);
        }
    }
    None
}

#[test]
fn records_are_spelled_in_their_logs(rt: HostRuntime) -> Result<(), Fail> {
    let mut folder = MemFolder::new(rt.alloc()).expect(&rt, "memory");
    generate(rt.alloc(), &mut folder, "g", 4).expect(&rt, "a run");
    match first_other(&folder) {
        Some(name) => Err(Fail::from(name)),
        None => Ok(()),
    }
}

#[test]
fn a_run_has_so_many_accesses_and_segments(rt: HostRuntime) {
    assert!(rt; (accesses(4), segments(4)) == (65, 16));
}

// The calls put the root's log, those of the lanes, and the index.
const PUT: &[(u64, &str)] = &[
    (1, "g/t.swl"),
    (2, "g/t-0.0.swl"),
    (3, "g/t-0.1.swl"),
    (4, "g/t-0.2.swl"),
    (5, "g/t-0.3.swl"),
    (6, "g/t-0.4.swl"),
    (7, "g/t-0.5.swl"),
    (8, "g/t-0.6.swl"),
    (9, "g/t-0.7.swl"),
    (10, "g/index.swi"),
];

// Whether what was put before this call is there, and nothing that would have been put after it.
fn has_first(folder: &MemFolder, call: u64) -> bool {
    for (put, name) in PUT {
        let held = folder.file(name).is_some();
        if (*put < call && !held) || (*put > call && held) {
            return false;
        }
    }
    true
}

// The folder where this call failed, if it is told.
fn failed_at(rt: &impl Abort, alloc: Global, call: u64) -> Option<MemFolder> {
    let mut folder = MemFolder::new(alloc).expect(rt, "memory");
    folder.hold("g/other", b"kept").expect(rt, "memory");
    folder.fail(&[call]).expect(rt, "memory");
    match generate(alloc, &mut folder, "g", 1) {
        Err(Trouble::Failed) => Some(folder),
        _ => None,
    }
}

// Whether this call fails, and leaves what was put before it and the file that was there.
fn leaves_first(rt: &impl Abort, alloc: Global, call: u64) -> bool {
    match failed_at(rt, alloc, call) {
        Some(folder) => file(&folder, "g/other").len() == 4 && has_first(&folder, call),
        None => false,
    }
}

#[test]
fn after_a_failed_call_no_later_log_is_there(rt: HostRuntime) {
    for call in 1..11 {
        assert!(rt; leaves_first(&rt, rt.alloc(), call), "at call {call}");
    }
}
