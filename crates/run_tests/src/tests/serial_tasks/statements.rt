//! Statements that one task executes alone.

use crate::tests::serial_tasks::support::{Case, MAIN, tell};
use std::test::Fail;

const STATEMENTS: &[Case<'static>] = &[
    Case {
        text: "array a i64 8
main {
let x = 7
a[x - 5] = -x * 2 + 1
let y = a[2] / 2 % 4
a[y + 3] = (x < 7) + (x >= 7) * 5
}",
        story: "ends
words 0 5 -13 0 0 0 0 0
log t.swl records 4
1 write 8 site 0 line 4 addr 4112 value -13
2 read 8 site 1 line 5 addr 4112 value -13
3 write 8 site 2 line 6 addr 4104 value 5
4 end line 7
",
        ..MAIN
    },
    // A store keeps the low byte, and a load extends its sign.
    Case {
        text: "array b i8 8
main {
b[0] = 200
b[1] = b[0] - 100
}",
        story: "ends
words -56 100 0 0 0 0 0 0
log t.swl records 4
1 write 1 site 0 line 3 addr 4096 value -56
2 read 1 site 2 line 4 addr 4096 value -56
3 write 1 site 1 line 4 addr 4097 value 100
4 end line 5
",
        ..MAIN
    },
    // The second array begins at the next multiple of 64, and its words come after those of the first.
    Case {
        text: "array a i32 3
array b i16 5
main {
b[4] = 6
a[2] = b[4]
}",
        story: "ends
words 0 0 6 0 0 0 0 6
log t.swl records 4
1 write 2 site 0 line 4 addr 4168 value 6
2 read 2 site 2 line 5 addr 4168 value 6
3 write 4 site 1 line 5 addr 4104 value 6
4 end line 6
",
        ..MAIN
    },
    Case {
        text: "array a i64 8
main {
if 0 { a[0] = 1 } else { a[1] = 2 }
if 3 { a[2] = 3 } else { a[3] = 4 }
if 0 { a[4] = 5 }
}",
        story: "ends
words 0 2 3 0 0 0 0 0
log t.swl records 3
1 write 8 site 1 line 3 addr 4104 value 2
2 write 8 site 2 line 4 addr 4112 value 3
3 end line 6
",
        ..MAIN
    },
    // Every value but 0 chooses the first body, a negative one too.
    Case {
        text: "array a i64 8
main {
if -1 { a[0] = 1 } else { a[1] = 2 }
}",
        story: "ends
words 1 0 0 0 0 0 0 0
log t.swl records 2
1 write 8 site 0 line 3 addr 4096 value 1
2 end line 4
",
        ..MAIN
    },
    // A store reads for its index before it reads for its value.
    Case {
        text: "array a i64 8
main {
a[a[1]] = a[2]
}",
        story: "ends
words 0 0 0 0 0 0 0 0
log t.swl records 4
1 read 8 site 1 line 3 addr 4104 value 0
2 read 8 site 2 line 3 addr 4112 value 0
3 write 8 site 0 line 3 addr 4096 value 0
4 end line 4
",
        ..MAIN
    },
    // Bounds are evaluated once, before the first turn.
    Case {
        text: "array a i64 8
main {
let n = 3
loop i in 1 .. n {
n = 9
loop j in i .. 3 { a[2 * i + j] = i }
}
loop k in 5 .. 5 { a[0] = 1 }
loop m in 5 .. 4 { a[0] = 1 }
}",
        story: "ends
words 0 0 0 1 1 0 2 0
log t.swl records 4
1 write 8 site 0 line 6 addr 4120 value 1
2 write 8 site 0 line 6 addr 4128 value 1
3 write 8 site 0 line 6 addr 4144 value 2
4 end line 10
",
        ..MAIN
    },
];

#[test]
fn statements_leave_their_records_and_words(rt: HostRuntime) -> Result<(), Fail> {
    tell(rt.alloc(), STATEMENTS)
}
