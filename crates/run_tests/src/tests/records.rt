//! Kernels without a race, whose logs are the same in each run: the words at the end, and the records of each log, in the order of
//! the tasks' paths.
ghost use Rattle.region_runner.specs.Answer.{IsBufferSize};

use crate::tests::support::{are_listed, finished};
use std::alloc::Global;
use std::marker::Send;
use std::process::Abort;
use std::sync::Wait;
use std::thread::Threads;

// Each lane begins with the variables of the task that forks it, and gives none back.
const NESTED: &str = "array a i64 8
main {
let x = 5
parallel 2 {
let y = x + tid
parallel 2 {
a[2 * (y - 5) + tid] = 10 * y + tid
y = 0
}
a[4 + tid] = y
}
}
";

const NESTED_LOGS: &str = "log t.swl records 2
1 region 2 line 4
2 end line 12
log t-0.0.swl records 3
1 region 2 line 6
2 write 8 site 1 line 10 addr 4128 value 5
3 end line 11
log t-0.0-0.0.swl records 2
1 write 8 site 0 line 7 addr 4096 value 50
2 end line 9
log t-0.0-0.1.swl records 2
1 write 8 site 0 line 7 addr 4104 value 51
2 end line 9
log t-0.1.swl records 3
1 region 2 line 6
2 write 8 site 1 line 10 addr 4136 value 6
3 end line 11
log t-0.1-0.0.swl records 2
1 write 8 site 0 line 7 addr 4112 value 60
2 end line 9
log t-0.1-0.1.swl records 2
1 write 8 site 0 line 7 addr 4120 value 61
2 end line 9
";

// Regions four deep.
const FOUR_DEEP: &str = "array a i32 4
main { let p = 1
parallel 1 {
parallel 2 { p = 2 * p + tid
parallel 1 {
parallel 2 { a[2 * p + tid - 4] = -p }
} } } }
";

const FOUR_DEEP_LOGS: &str = "log t.swl records 2
1 region 1 line 3
2 end line 7
log t-0.0.swl records 2
1 region 2 line 4
2 end line 7
log t-0.0-0.0.swl records 2
1 region 1 line 5
2 end line 7
log t-0.0-0.0-0.0.swl records 2
1 region 2 line 6
2 end line 7
log t-0.0-0.0-0.0-0.0.swl records 2
1 write 4 site 0 line 6 addr 4096 value -2
2 end line 6
log t-0.0-0.0-0.0-0.1.swl records 2
1 write 4 site 0 line 6 addr 4100 value -2
2 end line 6
log t-0.0-0.1.swl records 2
1 region 1 line 5
2 end line 7
log t-0.0-0.1-0.0.swl records 2
1 region 2 line 6
2 end line 7
log t-0.0-0.1-0.0-0.0.swl records 2
1 write 4 site 0 line 6 addr 4104 value -3
2 end line 6
log t-0.0-0.1-0.0-0.1.swl records 2
1 write 4 site 0 line 6 addr 4108 value -3
2 end line 6
";

// The lanes of the second region read what those of the first one wrote.
const IN_TURN: &str = "array a i64 2
array b i16 2
main {
parallel 2 { a[tid] = tid + 1 }
parallel 2 { b[tid] = a[1 - tid] }
}
";

const IN_TURN_LOGS: &str = "log t.swl records 3
1 region 2 line 4
2 region 2 line 5
3 end line 6
log t-0.0.swl records 2
1 write 8 site 0 line 4 addr 4096 value 1
2 end line 4
log t-0.1.swl records 2
1 write 8 site 0 line 4 addr 4104 value 2
2 end line 4
log t-1.0.swl records 3
1 read 8 site 2 line 5 addr 4104 value 2
2 write 2 site 1 line 5 addr 4160 value 2
3 end line 5
log t-1.1.swl records 3
1 read 8 site 2 line 5 addr 4096 value 1
2 write 2 site 1 line 5 addr 4162 value 1
3 end line 5
";

// Even shares, and then chunks that are dealt in turn.
const SHARED: &str = "array a i64 7
main { parallel 3 {
for i in 0 .. 7 { a[i] = tid }
for i in -3 .. 4 static 2 nowait { a[i + 3] = a[i + 3] + 10 * tid }
} }
";

const SHARED_LOGS: &str = "log t.swl records 2
1 region 3 line 2
2 end line 5
log t-0.0.swl records 11
1 write 8 site 0 line 3 addr 4096 value 0
2 write 8 site 0 line 3 addr 4104 value 0
3 write 8 site 0 line 3 addr 4112 value 0
4 barrier line 3
5 read 8 site 2 line 4 addr 4096 value 0
6 write 8 site 1 line 4 addr 4096 value 0
7 read 8 site 2 line 4 addr 4104 value 0
8 write 8 site 1 line 4 addr 4104 value 0
9 read 8 site 2 line 4 addr 4144 value 2
10 write 8 site 1 line 4 addr 4144 value 2
11 end line 5
log t-0.1.swl records 8
1 write 8 site 0 line 3 addr 4120 value 1
2 write 8 site 0 line 3 addr 4128 value 1
3 barrier line 3
4 read 8 site 2 line 4 addr 4112 value 0
5 write 8 site 1 line 4 addr 4112 value 10
6 read 8 site 2 line 4 addr 4120 value 1
7 write 8 site 1 line 4 addr 4120 value 11
8 end line 5
log t-0.2.swl records 8
1 write 8 site 0 line 3 addr 4136 value 2
2 write 8 site 0 line 3 addr 4144 value 2
3 barrier line 3
4 read 8 site 2 line 4 addr 4128 value 1
5 write 8 site 1 line 4 addr 4128 value 21
6 read 8 site 2 line 4 addr 4136 value 2
7 write 8 site 1 line 4 addr 4136 value 22
8 end line 5
";

// A lane that is alone draws all chunks, of each loop from 0 on.
const DRAWN: &str = "array a i64 3
main { parallel 1 {
for i in 0 .. 3 dynamic 2 { a[i] = i }
for i in 0 .. 2 dynamic nowait { a[i] = a[i + 1] }
} }
";

const DRAWN_LOGS: &str = "log t.swl records 2
1 region 1 line 2
2 end line 5
log t-0.0.swl records 15
1 chunk 0 of 2 line 3
2 write 8 site 0 line 3 addr 4096 value 0
3 write 8 site 0 line 3 addr 4104 value 1
4 chunk 1 of 2 line 3
5 write 8 site 0 line 3 addr 4112 value 2
6 chunk 2 of 2 line 3
7 barrier line 3
8 chunk 0 of 2 line 4
9 read 8 site 2 line 4 addr 4104 value 1
10 write 8 site 1 line 4 addr 4096 value 1
11 chunk 1 of 2 line 4
12 read 8 site 2 line 4 addr 4112 value 2
13 write 8 site 1 line 4 addr 4104 value 2
14 chunk 2 of 2 line 4
15 end line 5
";

// Critical sections of several mutexes, of which the unnamed one is the first.
const LOCKED: &str = "array a i64 2
mutex c
mutex d
main { parallel 2 {
if tid == 0 {
critical {
critical c { a[0] = 1 }
} } else {
critical d { a[1] = 2
} } } }
";

const LOCKED_LOGS: &str = "log t.swl records 2
1 region 2 line 4
2 end line 10
log t-0.0.swl records 6
1 lock 0 line 6
2 lock 1 line 7
3 write 8 site 0 line 7 addr 4096 value 1
4 unlock 1 line 7
5 unlock 0 line 8
6 end line 10
log t-0.1.swl records 4
1 lock 2 line 9
2 write 8 site 1 line 9 addr 4104 value 2
3 unlock 2 line 10
4 end line 10
";

// In each turn a lane reads what the other one wrote before the barrier.
const TURNED: &str = "array a i64 2
array b i64 4
main { parallel 2 {
loop t in 0 .. 2 {
a[tid] = t + 1
barrier
b[2 * t + tid] = a[1 - tid]
barrier
} } }
";

const TURNED_LOGS: &str = "log t.swl records 2
1 region 2 line 3
2 end line 9
log t-0.0.swl records 11
1 write 8 site 0 line 5 addr 4096 value 1
2 barrier line 6
3 read 8 site 2 line 7 addr 4104 value 1
4 write 8 site 1 line 7 addr 4160 value 1
5 barrier line 8
6 write 8 site 0 line 5 addr 4096 value 2
7 barrier line 6
8 read 8 site 2 line 7 addr 4104 value 2
9 write 8 site 1 line 7 addr 4176 value 2
10 barrier line 8
11 end line 9
log t-0.1.swl records 11
1 write 8 site 0 line 5 addr 4104 value 1
2 barrier line 6
3 read 8 site 2 line 7 addr 4096 value 1
4 write 8 site 1 line 7 addr 4168 value 1
5 barrier line 8
6 write 8 site 0 line 5 addr 4104 value 2
7 barrier line 6
8 read 8 site 2 line 7 addr 4096 value 2
9 write 8 site 1 line 7 addr 4184 value 2
10 barrier line 8
11 end line 9
";

// A region of two phases in the first of two phases.
const FORKED: &str = "array a i64 4
main { parallel 2 {
if tid == 0 { parallel 2 {
a[tid] = 1
barrier
a[3 - tid] = a[1 - tid] } }
barrier
if tid == 1 { a[1] = 2 }
} }
";

const FORKED_LOGS: &str = "log t.swl records 2
1 region 2 line 2
2 end line 9
log t-0.0.swl records 3
1 region 2 line 3
2 barrier line 7
3 end line 9
log t-0.0-0.0.swl records 5
1 write 8 site 0 line 4 addr 4096 value 1
2 barrier line 5
3 read 8 site 2 line 6 addr 4104 value 1
4 write 8 site 1 line 6 addr 4120 value 1
5 end line 6
log t-0.0-0.1.swl records 5
1 write 8 site 0 line 4 addr 4104 value 1
2 barrier line 5
3 read 8 site 2 line 6 addr 4096 value 1
4 write 8 site 1 line 6 addr 4112 value 1
5 end line 6
log t-0.1.swl records 3
1 barrier line 7
2 write 8 site 3 line 8 addr 4104 value 2
3 end line 9
";

// The value of an element that is stored as a number of 64 bits.
const MINUS_2: u64 = u64::MAX - 1;

const MINUS_3: u64 = u64::MAX - 2;

/// A kernel, the words at its end, and the records of its logs.
type Ending<'a> = (&'a str, &'a [u64], &'a str);

const ENDS: &[Ending<'static>] = &[
    (NESTED, &[50, 51, 60, 61, 5, 6, 0, 0], NESTED_LOGS),
    (
        FOUR_DEEP,
        &[MINUS_2, MINUS_2, MINUS_3, MINUS_3],
        FOUR_DEEP_LOGS,
    ),
    (IN_TURN, &[1, 2, 2, 1], IN_TURN_LOGS),
    (SHARED, &[0, 0, 10, 11, 21, 22, 2], SHARED_LOGS),
    (DRAWN, &[1, 2, 2], DRAWN_LOGS),
    (LOCKED, &[1, 2], LOCKED_LOGS),
    (TURNED, &[2, 2, 1, 1, 2, 2], TURNED_LOGS),
    (FORKED, &[1, 2, 1, 1], FORKED_LOGS),
];

// Whether the kernel ends with these words and logs.
fn ends_so<R: Abort + Threads + Wait + Sync + Copy + Send + 'static>(
    rt: &R,
    alloc: Global,
    size: usize,
    due: &Ending<'_>,
    stays: bool,
) -> bool
    requires { IsBufferSize size }
{
    let (kernel, words, logs) = due;
    let end = finished(rt, alloc, kernel, size, stays);
    let has_words = end.words.as_slice() == *words;
    are_listed(rt, alloc, end.logs, logs) && has_words
}

#[test]
fn each_log_has_the_records_of_its_task(rt: HostRuntime) {
    for due in ENDS {
        for size in [24, 60, 4096] {
            for stays in [false, true] {
                assert!(rt;
                    ends_so(&rt, rt.alloc(), size, due, stays),
                    "in {size}, {stays}: {}",
                    due.0
                );
            }
        }
    }
}
