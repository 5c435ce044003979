//! What a lane has of its team's loops, and where a task stands still.

use crate::tests::serial_tasks::support::{Case, MAIN, tell};
use std::test::Fail;

const SHARES: &[Case<'static>] = &[
    // Eight iterations for three lanes.
    Case {
        text: "array a i64 8
main { parallel 3 {
for i in 0 .. 8 { a[i] = tid + span }
} }",
        lane: Some(2),
        story: "waits
ends
words 0 0 0 0 0 0 5 100
log t.swl records 4
1 write 8 site 0 line 3 addr 4144 value 5
2 write 8 site 0 line 3 addr 4152 value 5
3 barrier line 3
4 end line 4
",
        ..MAIN
    },
    Case {
        text: "array a i64 8
main { parallel 3 {
for i in 0 .. 8 nowait { a[i] = tid + span }
} }",
        lane: Some(1),
        story: "ends
words 0 0 0 4 4 4 0 0
log t.swl records 4
1 write 8 site 0 line 3 addr 4120 value 4
2 write 8 site 0 line 3 addr 4128 value 4
3 write 8 site 0 line 3 addr 4136 value 4
4 end line 4
",
        ..MAIN
    },
    // Chunks are dealt from the first iteration on, and the last one is short.
    Case {
        text: "array a i64 8
main { parallel 2 {
for i in 1 .. 8 static 2 nowait { a[i] = i }
} }",
        lane: Some(1),
        story: "ends
words 0 0 0 3 4 0 0 7
log t.swl records 4
1 write 8 site 0 line 3 addr 4120 value 3
2 write 8 site 0 line 3 addr 4128 value 4
3 write 8 site 0 line 3 addr 4152 value 7
4 end line 4
",
        ..MAIN
    },
    Case {
        text: "array a i64 8
main { parallel 2 {
for i in -3 .. 0 static 1
{ a[i + 3] = i
}
} }",
        lane: Some(0),
        story: "waits
ends
words -3 0 -1 0 0 0 0 100
log t.swl records 4
1 write 8 site 0 line 4 addr 4096 value -3
2 write 8 site 0 line 4 addr 4112 value -1
3 barrier line 5
4 end line 6
",
        ..MAIN
    },
    // More lanes than iterations.
    Case {
        text: "array a i64 8
main { parallel 4 {
for i in 0 .. 2 { a[i] = 1 }
} }",
        lane: Some(3),
        story: "waits
ends
words 0 0 0 0 0 0 0 100
log t.swl records 2
1 barrier line 3
2 end line 4
",
        ..MAIN
    },
];

#[test]
fn a_lane_has_its_share(rt: HostRuntime) -> Result<(), Fail> {
    tell(rt.alloc(), SHARES)
}

const STANDS: &[Case<'static>] = &[
    // It goes on inside the loop, and finds what others wrote.
    Case {
        text: "array a i64 8
main { parallel 2 {
loop t in 0 .. 2 {
a[tid] = a[7] + t
barrier
}
a[tid + 2] = a[7]
} }",
        lane: Some(1),
        story: "waits
waits
ends
words 0 101 0 200 0 0 0 200
log t.swl records 9
1 read 8 site 1 line 4 addr 4152 value 0
2 write 8 site 0 line 4 addr 4104 value 0
3 barrier line 5
4 read 8 site 1 line 4 addr 4152 value 100
5 write 8 site 0 line 4 addr 4104 value 101
6 barrier line 5
7 read 8 site 3 line 7 addr 4152 value 200
8 write 8 site 2 line 7 addr 4120 value 200
9 end line 8
",
        ..MAIN
    },
    // The regions run elsewhere.
    Case {
        text: "array a i64 8
main {
a[0] = 1
parallel 3 { a[1] = 2 }
loop i in 0 .. 2 { parallel 1 { }
a[i + 2] = a[7] }
}",
        story: "forks 3
forks 1
forks 1
ends
words 1 0 200 300 0 0 0 300
log t.swl records 9
1 write 8 site 0 line 3 addr 4096 value 1
2 region 3 line 4
3 region 1 line 5
4 read 8 site 3 line 6 addr 4152 value 200
5 write 8 site 2 line 6 addr 4112 value 200
6 region 1 line 5
7 read 8 site 3 line 6 addr 4152 value 300
8 write 8 site 2 line 6 addr 4120 value 300
9 end line 7
",
        ..MAIN
    },
];

#[test]
fn a_task_stands_still_and_goes_on(rt: HostRuntime) -> Result<(), Fail> {
    tell(rt.alloc(), STANDS)
}
