//! Why a task doesn't go on.

use crate::tests::serial_tasks::support::{Case, MAIN, tell};
use std::test::Fail;

const STOPS: &[Case<'static>] = &[
    // The line is that of the operator, and its right side is read first.
    Case {
        text: "array a i64 8
main {
a[0] = 1
a[1] = 6 /
a[2]
}",
        story: "line 4: DivZero
words 1 0 0 0 0 0 0 0
log t.swl records 2
1 write 8 site 0 line 3 addr 4096 value 1
2 read 8 site 2 line 5 addr 4112 value 0
",
        ..MAIN
    },
    // The value is read before the index is tested.
    Case {
        text: "array a i64 8
main {
a[8] = a[3]
}",
        story: "line 3: Index
words 0 0 0 0 0 0 0 0
log t.swl records 1
1 read 8 site 1 line 3 addr 4120 value 0
",
        ..MAIN
    },
    Case {
        text: "array a i64 8
main {
a[0] = a[7] + a[
-1]
}",
        story: "line 3: Index
words 0 0 0 0 0 0 0 0
log t.swl records 1
1 read 8 site 1 line 3 addr 4152 value 0
",
        ..MAIN
    },
];

#[test]
fn a_task_stops_where_its_meaning_does(rt: HostRuntime) -> Result<(), Fail> {
    tell(rt.alloc(), STOPS)
}

const THREE: &str = "array a i64 8
main { parallel 1 {
for i in 0 .. 3 {
a[i] = i
}
}
}";

const FULL: &[Case<'static>] = &[
    Case {
        text: THREE,
        lane: Some(0),
        count: 4_194_302,
        story: "line 4: LogFull
words 0 1 0 0 0 0 0 0
log t.swl records 2
1 write 8 site 0 line 4 addr 4096 value 0
2 write 8 site 0 line 4 addr 4104 value 1
",
        ..MAIN
    },
    // The barrier of the loop has the line of its closing brace, and so has the End.
    Case {
        text: THREE,
        lane: Some(0),
        count: 4_194_301,
        story: "line 5: LogFull
words 0 1 2 0 0 0 0 0
log t.swl records 3
1 write 8 site 0 line 4 addr 4096 value 0
2 write 8 site 0 line 4 addr 4104 value 1
3 write 8 site 0 line 4 addr 4112 value 2
",
        ..MAIN
    },
    Case {
        text: THREE,
        lane: Some(0),
        count: 4_194_300,
        story: "waits
line 6: LogFull
words 0 1 2 0 0 0 0 100
log t.swl records 4
1 write 8 site 0 line 4 addr 4096 value 0
2 write 8 site 0 line 4 addr 4104 value 1
3 write 8 site 0 line 4 addr 4112 value 2
4 barrier line 5
",
        ..MAIN
    },
    Case {
        text: THREE,
        lane: Some(0),
        left: 4,
        story: "waits
too long
words 0 1 2 0 0 0 0 100
log t.swl records 4
1 write 8 site 0 line 4 addr 4096 value 0
2 write 8 site 0 line 4 addr 4104 value 1
3 write 8 site 0 line 4 addr 4112 value 2
4 barrier line 5
",
        ..MAIN
    },
    Case {
        text: THREE,
        lane: Some(0),
        left: 5,
        story: "waits
ends
words 0 1 2 0 0 0 0 100
log t.swl records 5
1 write 8 site 0 line 4 addr 4096 value 0
2 write 8 site 0 line 4 addr 4104 value 1
3 write 8 site 0 line 4 addr 4112 value 2
4 barrier line 5
5 end line 6
",
        ..MAIN
    },
    // The full log comes first.
    Case {
        text: THREE,
        lane: Some(0),
        count: 4_194_304,
        left: 0,
        story: "line 4: LogFull
words 0 0 0 0 0 0 0 0
log t.swl records 0
",
    },
    // An index outside comes before the full log, that of a store and that of a load.
    Case {
        text: "array a i64 8
main {
a[8] = 1
}",
        count: 4_194_304,
        story: "line 3: Index
words 0 0 0 0 0 0 0 0
log t.swl records 0
",
        ..MAIN
    },
    Case {
        text: "array a i64 8
main {
let x = a[8]
}",
        count: 4_194_304,
        story: "line 3: Index
words 0 0 0 0 0 0 0 0
log t.swl records 0
",
        ..MAIN
    },
];

#[test]
fn there_is_room_for_so_many_records(rt: HostRuntime) -> Result<(), Fail> {
    tell(rt.alloc(), FULL)
}

const NONE_DONE: &str = "refused
words 0 0 0 0 0 0 0 0
log t.swl records 0
";

const REFUSED: &[Case<'static>] = &[
    Case {
        text: "array a i64 8
main { critical { a[0] = 1 } }",
        story: NONE_DONE,
        ..MAIN
    },
    Case {
        text: "array a i64 8
main { atomic a[0] += 1 }",
        story: NONE_DONE,
        ..MAIN
    },
    Case {
        text: "array a i64 8
main { parallel 2 { for i in 0 .. 8 dynamic { a[i] = 1 } } }",
        lane: Some(0),
        story: NONE_DONE,
        ..MAIN
    },
];

#[test]
fn what_lanes_take_in_turn_is_refused(rt: HostRuntime) -> Result<(), Fail> {
    tell(rt.alloc(), REFUSED)
}
