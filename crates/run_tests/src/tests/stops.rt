//! Runs that stop: which stop is told, and what the logs have then.
ghost use Rattle.std.specs.Prelude.{◌<◌};
ghost use Rattle.region_runner.specs.Answer.{IsBufferSize};

use crate::tests::support::{are_listed, finished, has_failed, is_stopped_so, run_with, stopped};
use lane_runner::Stop;
use memory_environment::MemLog;
use std::alloc::Global;
use std::marker::Send;
use std::process::Abort;
use std::sync::Wait;
use std::thread::Threads;
use sw_base::{ClosedLog, NoGate, Path};
use team_live::WithoutStart;

// Lane 1 divides by 0, lane 2 leaves the array, and lanes 0 and 3 wait for them. No lane stores in the second phase.
const TWO_STOP: &str = "array a i64 4
main { parallel 4 {
a[tid] = 1
a[tid] = 6 / (tid - 1) + a[tid + (tid == 2) * 2]
barrier
a[tid] = 9
} }
";

const TWO_STOP_LOGS: &str = "log t.swl records 1
1 region 4 line 2
log t-0.0.swl records 4
1 write 8 site 0 line 3 addr 4096 value 1
2 read 8 site 2 line 4 addr 4096 value 1
3 write 8 site 1 line 4 addr 4096 value -5
4 barrier line 5
log t-0.1.swl records 1
1 write 8 site 0 line 3 addr 4104 value 1
log t-0.2.swl records 1
1 write 8 site 0 line 3 addr 4112 value 1
log t-0.3.swl records 4
1 write 8 site 0 line 3 addr 4120 value 1
2 read 8 site 2 line 4 addr 4120 value 1
3 write 8 site 1 line 4 addr 4120 value 4
4 barrier line 5
";

// In the second region of lane 1 a lane leaves the array. Its sibling ends, and lane 0 waits.
const INNER_STOPS: &str = "array a i64 4
main { parallel 2 {
if tid == 1 {
parallel 1 { a[0] = 1 }
parallel 2 { a[2 + 2 * tid] = 2 }
parallel 1 { a[1] = 3 }
}
barrier
a[3] = 4
} }
";

const INNER_STOPS_LOGS: &str = "log t.swl records 1
1 region 2 line 2
log t-0.0.swl records 1
1 barrier line 8
log t-0.1.swl records 2
1 region 1 line 4
2 region 2 line 5
log t-0.1-0.0.swl records 2
1 write 8 site 0 line 4 addr 4096 value 1
2 end line 4
log t-0.1-1.0.swl records 2
1 write 8 site 1 line 5 addr 4112 value 2
2 end line 5
log t-0.1-1.1.swl records 0
";

// The value of an element that is stored as a number of 64 bits.
const MINUS_5: u64 = u64::MAX - 4;

/// A kernel, the task that stops and why, the words then, and the records of the logs.
type Stopping<'a> = (&'a str, &'a str, Stop, &'a [u64], &'a str);

const STOPS: &[Stopping<'static>] = &[
    (
        TWO_STOP,
        "t-0.1.swl",
        Stop::DivZero { line: 4 },
        &[MINUS_5, 1, 1, 4],
        TWO_STOP_LOGS,
    ),
    (
        INNER_STOPS,
        "t-0.1-1.1.swl",
        Stop::Index { line: 5 },
        &[1, 0, 2, 0],
        INNER_STOPS_LOGS,
    ),
];

// Whether the kernel stops so, and leaves these logs.
fn stops_so<R: Abort + Threads + Wait + Sync + Copy + Send + 'static>(
    rt: &R,
    alloc: Global,
    size: usize,
    due: &Stopping<'_>,
    stays: bool,
) -> bool
    requires { IsBufferSize size }
{
    let (kernel, name, why, words, logs) = due;
    let stop = stopped(rt, alloc, kernel, size, (&Path::root(), &[]), stays);
    let is_told = is_stopped_so(rt, alloc, &stop, name, *why, words);
    are_listed(rt, alloc, stop.logs, logs) && is_told
}

#[test]
fn the_least_stop_of_a_phase_is_told_and_no_later_phase_is_run(rt: HostRuntime) {
    for due in STOPS {
        for size in [24, 4096] {
            for stays in [false, true] {
                assert!(rt;
                    stops_so(&rt, rt.alloc(), size, due, stays),
                    "in {size}, {stays}: {}",
                    due.1
                );
            }
        }
    }
}

// Each lane forks a region, and its log and those of its lanes are cut into pieces.
const FORKING: &str = "array a i64 8
main { parallel 2 {
a[tid] = 1
parallel 2 { a[2 + tid] = 2 }
} }
";

// Whether each of these logs is the beginning of the log of the same task in a whole run.
fn begin(left: &[ClosedLog<MemLog>], whole: &[ClosedLog<MemLog>]) -> bool {
    left.iter().all(|one| {
        whole.iter().any(|full| full.path == one.path
            && full.log.bytes().starts_with(one.log.bytes()))
    })
}

// Whether this call on the log of this task fails, and leaves the beginnings of logs of a whole run.
fn call_fails<R: Abort + Threads + Wait + Sync + Copy + Send + 'static>(
    rt: &R,
    alloc: Global,
    task: &Path,
    call: u64,
    whole: &[ClosedLog<MemLog>],
    stays: bool,
) -> bool {
    let stop = stopped(rt, alloc, FORKING, 24, (task, &[call]), stays);
    has_failed(&stop, task) && begin(&stop.logs, whole)
}

// Whether each of so many calls on the log of this task fails in turn, and the next one is no more.
fn each_call_fails<R: Abort + Threads + Wait + Sync + Copy + Send + 'static>(
    rt: &R,
    alloc: Global,
    task: &Path,
    calls: u64,
    whole: &[ClosedLog<MemLog>],
    stays: bool,
) -> bool
    requires { calls < 100 }
{
    for call in 1..=calls {
        if !call_fails(rt, alloc, task, call, whole, stays) {
            return false;
        }
    }
    let past = calls + 1;
    let gate = WithoutStart::new(&NoGate);
    run_with(rt, alloc, FORKING, 24, &gate, (task, &[past]), stays).is_ok()
}

// Each call on each log of nested regions fails in turn.
fn all_calls_fail<R: Abort + Threads + Wait + Sync + Copy + Send + 'static>(
    rt: &R,
    alloc: Global,
    whole: &[ClosedLog<MemLog>],
    stays: bool,
) -> bool {
    // On a task's log: its header, each record, and the logs of the lanes that it forks.
    let all_calls = [5, 6, 3, 3, 6, 3, 3];
    for (log, calls) in whole.iter().zip(&all_calls) {
        if !each_call_fails(rt, alloc, &log.path, *calls, whole, stays) {
            return false;
        }
    }
    whole.len() == all_calls.len()
}

#[test]
fn each_call_on_each_log_of_nested_regions_fails_in_turn(rt: HostRuntime) {
    for stays in [false, true] {
        let whole = finished(&rt, rt.alloc(), FORKING, 24, stays);
        assert!(rt; all_calls_fail(&rt, rt.alloc(), &whole.logs, stays));
    }
}
