//! That a run of a certain kernel and its serial run leave the same logs and words, whatever the size of the buffers, and whether threads stay.

use crate::tests::support::{finished, kernel_of};
use memory_environment::MemLog;
use region_runner::Finished;
use serial_team::{SerialRun, TaskLog, run_serially};
use std::alloc::Global;
use std::process::Abort;
use sw_base::ClosedLog;

/// More records than any of these kernels makes.
const ROOM: u32 = 10_000;

// A stencil whose lanes meet at two barriers in each step; regions in regions, one after another; and shares of every fixed schedule.
const KERNELS: &[&str] = &[
    "array u i64 64
array v i64 64
main {
u[0] = 1000
parallel 4 {
loop t in 0 .. 3 {
for i in 1 .. 63 {
v[i] = (u[i-1] + 2 * u[i] + u[i+1]) / 4
}
for i in 1 .. 63 {
u[i] = v[i]
}
}
}
}",
    "array a i32 64
main {
a[0] = 7
parallel 3 {
let t = tid
a[t] = a[t] + t
barrier
parallel 2 { a[8 + t * 2 + tid] = a[t] + tid }
if t == 1 { parallel 4 { a[16 + tid] = a[4 + tid] - 1 } }
}
parallel 2 { a[tid] = a[40 + tid] + 1 }
}",
    "array a i8 40
main { parallel 3 {
for i in 0 .. 40 static 7 nowait { a[i] = i * 9 }
barrier
for i in 0 .. 40 { a[i] = a[i] * a[i] }
} }",
];

fn is_same(closed: &ClosedLog<MemLog>, task: &TaskLog) -> bool {
    closed.path == task.path
        && closed.records == task.records
        && closed.log.bytes() == task.log.as_slice()
}

fn are_same(run: &Finished<MemLog>, serial: &SerialRun) -> bool {
    run.words.as_slice() == serial.words.as_slice()
        && run.logs.len() == serial.logs.len()
        && run
            .logs
            .iter()
            .zip(&serial.logs)
            .all(|(closed, task)| is_same(closed, task))
}

// The serial run of the kernel.
fn serial(rt: &impl Abort, alloc: Global, text: &str) -> SerialRun {
    let kernel = match kernel_of(alloc, text) {
        Ok(kernel) => kernel,
        Err(_fail) => panic!(rt; "no kernel"),
    };
    run_serially(alloc, &kernel, ROOM).ok().expect(rt, "an end")
}

#[test]
fn runs_of_certain_kernels_are_their_serial_runs(rt: HostRuntime) {
    let alloc = rt.alloc();
    for text in KERNELS {
        let serial = serial(&rt, alloc, text);
        for size in [24, 100, 4096, 16_384] {
            for stays in [false, true] {
                let run = finished(&rt, alloc, text, size, stays);
                assert!(rt; are_same(&run, &serial), "size {size}: {text}");
            }
        }
    }
}
