//! Whole serial runs: the logs of all tasks in the order of an index, the words at the end, and which stop is told.

use crate::tests::serial_tasks::support::put_words;
use kernel_reader::read_kernel;
use log_index::Row;
use log_listing::list;
use memory_environment::{MemFolder, MemOut};
use serial_team::{SerialRun, Stop, run_serially};
use std::alloc::Global;
use std::process::Abort;

// The text of a kernel, how many records its run may make, and what becomes of it.
type Case<'a> = (&'a str, u32, &'a str);

const RUNS: &[Case<'static>] = &[
    // A lane reads what the other wrote before the barrier, and a region runs before its task goes on.
    (
        "array a i64 4
main {
parallel 2 {
a[tid] = tid + 1
barrier
a[tid + 2] = a[1 - tid]
}
parallel 1 { parallel 1 { a[0] = 7 } }
}",
        100,
        "words 7 2 2 1
log t.swl records 3
1 region 2 line 3
2 region 1 line 8
3 end line 9
log t-0.0.swl records 5
1 write 8 site 0 line 4 addr 4096 value 1
2 barrier line 5
3 read 8 site 2 line 6 addr 4104 value 2
4 write 8 site 1 line 6 addr 4112 value 2
5 end line 7
log t-0.1.swl records 5
1 write 8 site 0 line 4 addr 4104 value 2
2 barrier line 5
3 read 8 site 2 line 6 addr 4096 value 1
4 write 8 site 1 line 6 addr 4120 value 1
5 end line 7
log t-1.0.swl records 2
1 region 1 line 8
2 end line 8
log t-1.0-0.0.swl records 2
1 write 8 site 3 line 8 addr 4096 value 7
2 end line 8
",
    ),
    // Of records that nothing orders those of the smaller lane come first: lane 1 reads what lane 0 wrote.
    (
        "array a i64 2
main { parallel 2 { a[tid] = a[0] + 1 } }",
        100,
        "words 1 2
log t.swl records 2
1 region 2 line 2
2 end line 2
log t-0.0.swl records 3
1 read 8 site 1 line 2 addr 4096 value 0
2 write 8 site 0 line 2 addr 4096 value 1
3 end line 2
log t-0.1.swl records 3
1 read 8 site 1 line 2 addr 4096 value 1
2 write 8 site 0 line 2 addr 4104 value 2
3 end line 2
",
    ),
    // Of two lanes that stop the first is told.
    (
        "array a i64 4
main { parallel 3 {
a[tid * 8] = 1
} }",
        100,
        "stopped t-0.1.swl line 3: Index\n",
    ),
    // A lane stops after a barrier, and the one before it goes on.
    (
        "array a i64 4
main { parallel 2 {
barrier
a[0] = 6 / (1 - tid)
} }",
        100,
        "stopped t-0.1.swl line 4: DivZero\n",
    ),
    // All records that there is room for, and one fewer.
    (
        "array a i64 4
main { parallel 2 { a[tid] = 1 } }",
        6,
        "words 1 1 0 0
log t.swl records 2
1 region 2 line 2
2 end line 2
log t-0.0.swl records 2
1 write 8 site 0 line 2 addr 4096 value 1
2 end line 2
log t-0.1.swl records 2
1 write 8 site 0 line 2 addr 4104 value 1
2 end line 2
",
    ),
    (
        "array a i64 4
main { parallel 2 { a[tid] = 1 } }",
        4,
        "long t-0.1.swl record 2\n",
    ),
    // A lane stops, and a later one wants more records than there are.
    (
        "array a i64 4
main { parallel 2 {
if tid { a[0] = 1 } else { a[4] = 1 }
} }",
        2,
        "long t-0.1.swl record 2\n",
    ),
];

// Adds the words and the listing of all logs.
fn put_run(rt: &impl Abort, alloc: Global, text: &mut String, run: &SerialRun) {
    put_words(text, &run.words).expect(rt, "memory");
    let mut folder = MemFolder::new(alloc).expect(rt, "memory");
    let mut rows = Vec::new(alloc);
    for task in run.logs.iter() {
        let name = task.path.name(alloc, "d").expect(rt, "memory");
        folder
            .hold(name.as_str(), task.log.as_slice())
            .expect(rt, "memory");
        let path = task.path.copy();
        let records = task.records;
        rows.push(Row { path, records }).expect(rt, "memory");
    }
    let mut out = MemOut::new(alloc).expect(rt, "memory");
    if list(alloc, &mut folder, &mut out, "d", &rows).is_err() {
        text.push_str("no listing").expect(rt, "memory");
    }
    text.push_str(&String::from_utf8_lossy(alloc, out.written()).expect(rt, "memory"))
        .expect(rt, "memory");
}

// Adds a line for a stop.
fn put_stop(rt: &impl Abort, alloc: Global, text: &mut String, stop: &Stop) {
    match stop {
        Stop::Stopped { path, line, why } => {
            let name = path.bare_name(alloc).expect(rt, "memory");
            write!(text, "stopped {name} line {line}: {why:?}\n").expect(rt, "memory");
        }
        Stop::Long { path, number } => {
            let name = path.bare_name(alloc).expect(rt, "memory");
            write!(text, "long {name} record {number}\n").expect(rt, "memory");
        }
        Stop::Memory => text.push_str("no memory\n").expect(rt, "memory"),
    }
}

// What becomes of a case.
fn told(rt: &impl Abort, alloc: Global, text: &str, left: u32) -> String {
    let kernel = read_kernel(alloc, text.as_bytes()).expect(rt, "a kernel");
    let mut story = String::new(alloc);
    if kernel.main.span != 1 {
        story.push_str("no root").expect(rt, "memory");
        return story;
    }
    match run_serially(alloc, &kernel, left) {
        Ok(run) => put_run(rt, alloc, &mut story, &run),
        Err(stop) => put_stop(rt, alloc, &mut story, &stop),
    }
    story
}

#[test]
fn lanes_run_one_after_another(rt: HostRuntime) {
    for (text, left, story) in RUNS {
        let found = told(&rt, rt.alloc(), text, *left);
        assert!(rt; found.as_str() == *story, "{found}");
    }
}
