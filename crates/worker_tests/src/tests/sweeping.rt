//! In which order `check` reads and compares.

use super::asking::{asked, folder_of};
use command_answer::{RACES, READ_FAULT};
use made_folders::{END, Rec, Step, Task, region, store};
use memory_environment::{MemFolder, MemOut};
use std::alloc::Global;
use std::marker::Send;
use std::process::Abort;
use std::sync::Wait;
use std::sync::atomic::{AtomicU64, Ordering};
use std::thread::Threads;
use sw_base::Gate;

// How many workers came.
#[derive(Drop)]
struct Counted {
    come: AtomicU64,
}

impl Gate for Counted {
    fn enter(&self, _number: usize) {
        self.come.fetch_add(1, Ordering::SeqCst);
    }
}

const WORKERS: u64 = 3;

const CHECK: &[&str] = &["check", "d", "3"];

// A root that forks two regions of two lanes each, which race in the second.
const TWO_REGIONS: &[Task<'static>] = &[
    (&[], &[region!(1, 2), region!(2, 2), END]),
    (&[(0, 0, 2)], &[store!(5, 4096), END]),
    (&[(0, 1, 2)], &[store!(6, 4104), END]),
    (&[(1, 0, 2)], &[store!(7, 4096), END]),
    (&[(1, 1, 2)], &[store!(8, 4096), END]),
];

// The status of a check by three workers where this call on the folder fails, and how many workers came.
fn answered<R: Abort + Threads + Wait + Sync + Copy + Send + 'static>(
    rt: &R,
    alloc: Global,
    call: u64,
) -> (u8, u64) {
    let gate = Counted {
        come: AtomicU64::new(0),
    };
    let mut out = MemOut::new(alloc).expect(rt, "memory");
    let mut folder = folder_of(rt, alloc, TWO_REGIONS);
    folder.fail(&[call]).expect(rt, "memory");
    let status = asked(rt, alloc, &mut folder, CHECK, &mut out, &gate);
    (status, gate.come.load(Ordering::SeqCst))
}

#[test]
fn a_region_is_compared_before_the_next_is_read(rt: HostRuntime) {
    let alloc = rt.alloc();
    // The size of the index and its two reads, and each of five logs is opened.
    for call in 1..=6 {
        assert!(rt;
            answered(&rt, alloc, call) == (READ_FAULT, 0),
            "call {call}"
        );
    }
    for call in 7..9 {
        assert!(rt;
            answered(&rt, alloc, call) == (READ_FAULT, WORKERS),
            "call {call}"
        );
    }
    assert!(rt; answered(&rt, alloc, 9) == (RACES, 2 * WORKERS));
}

const REGIONS: u32 = 100;

// The lanes of these regions: two each, which write one element, in lines of their own.
fn lanes_of(rt: &impl Abort, alloc: Global) -> Vec<([Step; 1], [Rec; 2])> {
    let mut lanes = Vec::new(alloc);
    for region in 0..REGIONS {
        for lane in [0u16, 1] {
            let line = 1 + 2 * region + u32::from(lane);
            lanes
                .push(([(region, lane, 2)], [store!(line, 4096), END]))
                .expect(rt, "memory");
        }
    }
    lanes
}

fn small_regions(rt: &impl Abort, alloc: Global) -> MemFolder {
    let mut root = Vec::new(alloc);
    for _ in 0..REGIONS {
        root.push(region!(1, 2)).expect(rt, "memory");
    }
    root.push(END).expect(rt, "memory");
    let lanes = lanes_of(rt, alloc);
    let mut tasks: Vec<(&[Step], &[Rec])> = Vec::new(alloc);
    tasks.push((&[], &root)).expect(rt, "memory");
    for (steps, records) in &lanes {
        tasks.push((steps, records)).expect(rt, "memory");
    }
    folder_of(rt, alloc, &tasks)
}

fn race_in_each(rt: &impl Abort, alloc: Global) -> String {
    let mut text = String::new(alloc);
    for region in 0..REGIONS {
        write!(text, "race {} {}\n", 1 + 2 * region, 2 + 2 * region).expect(rt, "memory");
    }
    write!(text, "races {REGIONS}\n").expect(rt, "memory");
    text
}

// The first three alone, and then those before the sixth, tenth, eighteenth, thirty-fourth and sixty-sixth, and the last.
#[test]
fn small_regions_are_compared_together(rt: HostRuntime) {
    let alloc = rt.alloc();
    let gate = Counted {
        come: AtomicU64::new(0),
    };
    let mut out = MemOut::new(alloc).expect(&rt, "memory");
    let mut folder = small_regions(&rt, alloc);
    let status = asked(&rt, alloc, &mut folder, CHECK, &mut out, &gate);
    let text = race_in_each(&rt, alloc);
    assert!(rt; status == RACES && out.written() == text.as_bytes());
    assert!(rt; gate.come.load(Ordering::SeqCst) == 9 * WORKERS);
}
