//! Runs of small kernels: how their logs are cut, which stop is answered, calls on each log that fail, and what
//! the gate sees.
ghost use Rattle.region_runner.specs.Answer.{IsBufferSize};

use crate::tests::support::{
    finished, has_failed, have_same_bytes, is_stopped_so, run_with, stopped,
};
use lane_runner::Stop;
use memory_environment::MemLog;
use std::alloc::Global;
use std::marker::Send;
use std::process::Abort;
use std::sync::Wait;
use std::sync::atomic::{AtomicU64, Ordering};
use std::thread::Threads;
use sw_base::{ClosedLog, Gate, NoGate, Path, Trouble};
use team_live::WithoutStart;

// Each of two lanes adds 1 to every other element.
const COUNTING: &str = "array a i64 8
main {
parallel 2 {
for i in 0 .. 8 static 1 {
a[i] = a[i] + 1
}
}
}
";

// The same without a barrier at the loop's end.
const UNBARRED: &str = "array a i64 8
main {
parallel 2 {
for i in 0 .. 8 static 1 nowait {
a[i] = a[i] + 1
}
}
}
";

// Lane 0 writes four elements. Lane 1 writes two, and then leaves the array.
const LEAVING: &str = "array a i64 6
main { parallel 2 {
for i in 0 .. 8 static 4 { a[i] = 1 }
} }
";

// The same without a barrier at the loop's end.
const LEAVING_UNBARRED: &str = "array a i64 6
main { parallel 2 {
for i in 0 .. 8 static 4 nowait { a[i] = 1 }
} }
";

// Lane 0 writes an element. Lane 1 leaves the array at once, and lane 2 writes nothing.
const MIDDLE_LEAVING: &str = "array a i64 1
main { parallel 3 {
for i in 0 .. 2 { a[i] = 1 }
} }
";

// Lane 0 leaves the array after two elements, and lane 1 at once.
const BOTH_LEAVING: &str = "array a i64 2
main { parallel 2 {
for i in 0 .. 8 static 4 { a[i] = 1 }
} }
";

// Lane 1 divides by 0 after it has read an element.
const DIVIDING: &str = "array a i64 2
main { parallel 2 {
for i in 0 .. 2 static 1 { a[i] = a[i] + 1
/ (tid - 1) }
} }
";

const LEFT: Stop = Stop::Index { line: 3 };

const DIVIDED: Stop = Stop::DivZero { line: 4 };

/// A task's name, and how many records and bytes its log has.
type Size<'a> = (&'a str, u32, usize);

// A log is of a task of this name, with so many records and bytes.
fn is_sized(rt: &impl Abort, alloc: Global, log: &ClosedLog<MemLog>, due: &Size<'_>) -> bool {
    let (name, records, bytes) = due;
    let found = log.path.bare_name(alloc).expect(rt, "memory");
    found.as_str() == *name && log.records == *records && log.log.bytes().len() == *bytes
}

// These are the logs, in order.
fn are_sized(
    rt: &impl Abort,
    alloc: Global,
    logs: &[ClosedLog<MemLog>],
    expected: &[Size<'_>],
) -> bool {
    for (log, due) in logs.iter().zip(expected) {
        if !is_sized(rt, alloc, log, due) {
            return false;
        }
    }
    logs.len() == expected.len()
}

fn has_pieces(log: Option<&ClosedLog<MemLog>>, lengths: &[usize]) -> bool {
    match log {
        Some(closed) => closed.log.lengths() == lengths,
        None => false,
    }
}

const COUNTED: &[Size<'static>] = &[
    ("t.swl", 2, 56),
    ("t-0.0.swl", 10, 248),
    ("t-0.1.swl", 10, 248),
];

// The size of the buffer, and the pieces of lane 0's log.
const PIECES: &[(usize, &[usize])] = &[
    (24, &[8, 24, 24, 24, 24, 24, 24, 24, 24, 24, 24]),
    (47, &[8, 24, 24, 24, 24, 24, 24, 24, 24, 24, 24]),
    (48, &[8, 48, 48, 48, 48, 48]),
    (100, &[8, 96, 96, 48]),
    (4096, &[8, 240]),
    (4_194_304, &[8, 240]),
];

// Whether the counting lanes end with a buffer of this size, with these pieces of lane 0's log, and with the same bytes as a whole run.
fn is_cut_so<R: Abort + Threads + Wait + Sync + Copy + Send + 'static>(
    rt: &R,
    alloc: Global,
    size: usize,
    lengths: &[usize],
    whole: &[ClosedLog<MemLog>],
    stays: bool,
) -> bool
    requires { IsBufferSize size }
{
    let cut = finished(rt, alloc, COUNTING, size, stays);
    cut.words.as_slice() == [1; 8].as_slice()
        && has_pieces(cut.logs.get(1), lengths)
        && have_same_bytes(&cut.logs, whole)
}

#[test]
fn pieces_fill_the_buffer_and_the_bytes_stay_the_same(rt: HostRuntime) {
    let alloc = rt.alloc();
    let whole = finished(&rt, alloc, COUNTING, 4_194_304, false);
    assert!(rt; are_sized(&rt, alloc, &whole.logs, COUNTED));
    for (size, lengths) in PIECES {
        assert!(rt; *size >= 24 && *size <= 4_194_304);
        for stays in [false, true] {
            assert!(rt;
                is_cut_so(&rt, alloc, *size, lengths, &whole.logs, stays),
                "at {size}, {stays}"
            );
        }
    }
}

// A read of 8 bytes at site 1 in line 5, at 4096, of 0; and a write of 8 bytes in line 5, at 4096, of 1.
const FIRST_READ: [u8; 24] = [
    1, 8, 0, 1, 0, 0, 0, 5, 0, 0, 0, 0, 0, 0, 16, 0, 0, 0, 0, 0, 0, 0, 0, 0,
];

const FIRST_WRITE: [u8; 24] = [
    2, 8, 0, 0, 0, 0, 0, 5, 0, 0, 0, 0, 0, 0, 16, 0, 0, 0, 0, 0, 0, 0, 0, 1,
];

fn begins_with_first_records(log: Option<&ClosedLog<MemLog>>) -> bool {
    let Some(ClosedLog { log, .. }) = log else {
        return false;
    };
    let bytes = log.bytes();
    bytes.len() > 56
        && bytes.starts_with(b"SWLOG002")
        && bytes.get(8..32) == Some(FIRST_READ.as_slice())
        && bytes.get(32..56) == Some(FIRST_WRITE.as_slice())
}

#[test]
fn the_first_records_of_a_lane_are_spelled_in_its_log(rt: HostRuntime) {
    let logs = finished(&rt, rt.alloc(), COUNTING, 4096, false).logs;
    assert!(rt; begins_with_first_records(logs.get(1)));
}

/// A kernel, the task that stops and why, the words then, and the logs.
type Stopping<'a> = (&'a str, &'a str, Stop, &'a [u64], &'a [Size<'a>]);

// A lane waits at its barrier where there is one, and has its End else.
const STOPS: &[Stopping<'static>] = &[
    (
        LEAVING,
        "t-0.1.swl",
        LEFT,
        &[1, 1, 1, 1, 1, 1],
        &[
            ("t.swl", 1, 32),
            ("t-0.0.swl", 5, 128),
            ("t-0.1.swl", 2, 56),
        ],
    ),
    (
        LEAVING_UNBARRED,
        "t-0.1.swl",
        LEFT,
        &[1, 1, 1, 1, 1, 1],
        &[
            ("t.swl", 1, 32),
            ("t-0.0.swl", 5, 128),
            ("t-0.1.swl", 2, 56),
        ],
    ),
    (
        BOTH_LEAVING,
        "t-0.0.swl",
        LEFT,
        &[1, 1],
        &[("t.swl", 1, 32), ("t-0.0.swl", 2, 56), ("t-0.1.swl", 0, 8)],
    ),
    (
        DIVIDING,
        "t-0.1.swl",
        DIVIDED,
        &[u64::MAX, 0],
        &[("t.swl", 1, 32), ("t-0.0.swl", 3, 80), ("t-0.1.swl", 1, 32)],
    ),
    (
        MIDDLE_LEAVING,
        "t-0.1.swl",
        LEFT,
        &[1],
        &[
            ("t.swl", 1, 32),
            ("t-0.0.swl", 2, 56),
            ("t-0.1.swl", 0, 8),
            ("t-0.2.swl", 1, 32),
        ],
    ),
];

// Whether the kernel stops so.
fn stops_so<R: Abort + Threads + Wait + Sync + Copy + Send + 'static>(
    rt: &R,
    alloc: Global,
    due: &Stopping<'_>,
    stays: bool,
) -> bool {
    let (text, name, why, words, logs) = due;
    let stop = stopped(rt, alloc, text, 4096, (&Path::root(), &[]), stays);
    is_stopped_so(rt, alloc, &stop, name, *why, words) && are_sized(rt, alloc, &stop.logs, logs)
}

#[test]
fn the_least_lane_that_stopped_is_answered(rt: HostRuntime) {
    for due in STOPS {
        for stays in [false, true] {
            assert!(rt; stops_so(&rt, rt.alloc(), due, stays), "{stays}: {}", due.1);
        }
    }
}

// A barrier in line 3.
const BARRIER: [u8; 24] = [
    5, 0, 0, 0, 0, 0, 0, 3, 0, 0, 0, 0, 0, 0, 0, 0, 0, 0, 0, 0, 0, 0, 0, 0,
];

fn ends_with_barrier(log: Option<&ClosedLog<MemLog>>) -> bool {
    match log {
        Some(closed) => closed.log.bytes().get(8..) == Some(BARRIER.as_slice()),
        None => false,
    }
}

#[test]
fn lanes_that_wait_have_their_barrier_last(rt: HostRuntime) {
    let stop = stopped(
        &rt,
        rt.alloc(),
        MIDDLE_LEAVING,
        4096,
        (&Path::root(), &[]),
        false,
    );
    assert!(rt; ends_with_barrier(stop.logs.get(3)));
}

// Two lanes that fill two blocks of 4,096 bytes, and put more.
const FILLING: &str = "array a i64 8
main { parallel 2 {
loop k in 0 .. 1600 { a[tid] = k }
} }
";

// Whether the run of the kernel answers that this call on the log of this task fails, where it does.
fn call_fails<R: Abort + Threads + Wait + Sync + Copy + Send + 'static>(
    rt: &R,
    alloc: Global,
    kernel: (&str, usize),
    task: &Path,
    call: u64,
    stays: bool,
) -> bool
    requires { IsBufferSize kernel.1 }
{
    let (text, size) = kernel;
    let stop = stopped(rt, alloc, text, size, (task, &[call]), stays);
    has_failed(&stop, task) && stop.words.len() == 8 && !stop.logs.is_empty()
}

// Whether the run of the kernel with blocks of this size ends where this call on the log of this task fails.
fn ends<R: Abort + Threads + Wait + Sync + Copy + Send + 'static>(
    rt: &R,
    alloc: Global,
    kernel: (&str, usize),
    task: &Path,
    call: u64,
    stays: bool,
) -> bool
    requires { IsBufferSize kernel.1 }
{
    let (text, size) = kernel;
    let gate = WithoutStart::new(&NoGate);
    run_with(rt, alloc, text, size, &gate, (task, &[call]), stays).is_ok()
}

// Whether four calls on the log of this task fail in turn, and the next one is no more. On the root's log: its header, two lanes, and its
// two records. On a lane's: its header, two full blocks, and the rest.
fn four_calls_fail<R: Abort + Threads + Wait + Sync + Copy + Send + 'static>(
    rt: &R,
    alloc: Global,
    kernel: (&str, usize),
    task: &Path,
    stays: bool,
) -> bool
    requires { IsBufferSize kernel.1 }
{
    for call in 1..=4 {
        if !call_fails(rt, alloc, kernel, task, call, stays) {
            return false;
        }
    }
    ends(rt, alloc, kernel, task, 5, stays)
}

#[test]
fn each_call_on_each_log_fails_in_turn(rt: HostRuntime) {
    let alloc = rt.alloc();
    // Blocks for four records, which the lane appends, and blocks that its writer appends.
    for (text, size, stays) in [
        (COUNTING, 96, false),
        (COUNTING, 96, true),
        (FILLING, 16_384, false),
        (FILLING, 16_384, true),
    ] {
        assert!(rt; four_calls_fail(&rt, alloc, (text, size), &Path::root(), stays));
        for lane in [0, 1] {
            let task = Path::root().child(0, lane, 2);
            assert!(rt; four_calls_fail(&rt, alloc, (text, size), &task, stays));
        }
    }
    // With a block for one record the root's log takes five calls.
    assert!(rt; !ends(&rt, alloc, (COUNTING, 24), &Path::root(), 5, false));
    assert!(rt; ends(&rt, alloc, (COUNTING, 24), &Path::root(), 6, false));
}

// Whether lane 1's leaving of the array is answered, where this call on the log of this task fails, with the logs of all tasks.
fn lane_1_leaves<R: Abort + Threads + Wait + Sync + Copy + Send + 'static>(
    rt: &R,
    alloc: Global,
    text: &str,
    task: &Path,
    call: u64,
) -> bool {
    let stop = stopped(rt, alloc, text, 4096, (task, &[call]), false);
    stop.path == Path::root().child(0, 1, 2) && stop.why == LEFT && stop.logs.len() == 3
}

#[test]
fn a_stop_or_failure_of_the_least_lane_is_answered(rt: HostRuntime) {
    let alloc = rt.alloc();
    let first = Path::root().child(0, 0, 2);
    // After the stop of a lane the root's log is closed, and a failure of that call leaves the stop.
    assert!(rt; lane_1_leaves(&rt, alloc, LEAVING, &Path::root(), 4));
    // So is the log of a lane that waits, with the same result.
    assert!(rt; lane_1_leaves(&rt, alloc, LEAVING, &first, 2));
    // A lane that ended is closed after the last phase, so the stop stays there too.
    assert!(rt; lane_1_leaves(&rt, alloc, LEAVING_UNBARRED, &first, 2));
}

#[test]
fn of_two_lanes_that_stop_the_first_is_answered(rt: HostRuntime) {
    let first = Path::root().child(0, 0, 2);
    let stop = stopped(&rt, rt.alloc(), LEAVING, 24, (&first, &[2]), false);
    assert!(rt; has_failed(&stop, &first));
}

// Whether the first words are 1, from 20 to 30 of a thousand, and the others 0.
fn are_few_stores(words: &[u64]) -> bool {
    let stored = words.iter().take_while(|word| **word == 1).count();
    words.len() == 1000
        && 20 <= stored
        && stored <= 30
        && words.iter().skip(stored).all(|word| *word == 0)
}

#[test]
fn a_failed_log_lacks_few_of_the_stores(rt: HostRuntime) {
    // A buffer for ten records: the second one fails after 20 stores at least, and nobody stores once 30 records aren't there.
    let text = "array a i64 1000 main { loop i in 0 .. 1000 { a[i] = 1 } }";
    let stop = stopped(&rt, rt.alloc(), text, 240, (&Path::root(), &[3]), false);
    assert!(rt; stop.why == Stop::Trouble(Trouble::Failed) && are_few_stores(&stop.words));
}

// Counts how often each of two lanes starts a phase, and whoever else enters.
#[derive(Drop)]
struct CountingGate {
    lanes: [AtomicU64; 2],
    others: AtomicU64,
}

impl Gate for CountingGate {
    fn enter(&self, place: usize) {
        let counter = self.lanes.get(place).unwrap_or(&self.others);
        counter.fetch_add(1, Ordering::SeqCst);
    }
}

// Whether this kernel's run starts each of two lanes so often, and no other.
fn starts<R: Abort + Threads + Wait + Sync + Copy + Send + 'static>(
    rt: &R,
    alloc: Global,
    text: &str,
    phases: u64,
    stays: bool,
) -> bool {
    let gate = CountingGate {
        lanes: [AtomicU64::new(0), AtomicU64::new(0)],
        others: AtomicU64::new(0),
    };
    let told = WithoutStart::new(&gate);
    let _ = run_with(rt, alloc, text, 4096, &told, (&Path::root(), &[]), stays);
    let first = gate.lanes[0].load(Ordering::SeqCst);
    let second = gate.lanes[1].load(Ordering::SeqCst);
    first == phases && second == phases && gate.others.load(Ordering::SeqCst) == 0
}

#[test]
fn the_gate_sees_each_lane_start_each_phase(rt: HostRuntime) {
    // A loop that waits at its end is followed by an empty phase, and one that doesn't by none. After a stop no phase starts.
    let table = [
        (COUNTING, 2),
        (UNBARRED, 1),
        (LEAVING, 1),
        (LEAVING_UNBARRED, 1),
    ];
    for (text, phases) in table {
        for stays in [false, true] {
            assert!(rt;
                starts(&rt, rt.alloc(), text, phases, stays),
                "{stays}: {text}"
            );
        }
    }
}
