//! Kernels of the whole language that run to their end: what `run` prints of each, and what `check` and `replay` print of the folder
//! that it wrote.

use super::runs::left_by;
use super::verdicts::HEAT;
use crate::tests::fixtures::{
    Case, EMPTY, RUN, SHOW, Subject, Whole, all_pass, all_run, each_passes, printed,
};
use command_answer::{DIFFERS, DONE, RACES};
use memory_environment::MemFolder;
use std::alloc::Global;
use std::marker::Send;
use std::process::Abort;
use std::sync::Wait;
use std::thread::Threads;

const NO_RACE: &str = "races 0\n";

const ONE_STORE: &str = "array a i64 4 main { a[0] = 1 }";

const NARROW: &str = "array b i8 1 main { b[0] = 200 }";

// Eight lanes add under one mutex, or under none.
const LOCKED: &str =
    "array s i64 1\nmutex c\nmain { parallel 8 {\ncritical c { s[0] = s[0] + 1 }\n} }\n";

const UNLOCKED: &str = "array s i64 1\nmutex c\nmain { parallel 8 {\ns[0] = s[0] + 1\n} }\n";

// Two lanes store under two mutexes.
const TWO_MUTEXES: &str =
    "array s i64 1\nmutex c\nmutex d\nmain { parallel 2 {\nif tid == 0 { critical c { s[0] = 1 } }\nif tid == 1 { critical d { s[0] = 2 } }\n} }\n";

// The second loop reads what the first one wrote, after its barrier or not.
const TWO_LOOPS: &str =
    "array a i64 8\narray b i64 8\nmain { parallel 2 {\nfor i in 0 .. 8 { a[i] = i }\nfor i in 0 .. 7 { b[i] = a[i+1] }\n} }\n";

const TWO_LOOPS_ON: &str =
    "array a i64 8\narray b i64 8\nmain { parallel 2 {\nfor i in 0 .. 8 nowait { a[i] = i }\nfor i in 0 .. 7 { b[i] = a[i+1] }\n} }\n";

// A lane of a region in lane 0 and lane 1 store, with a barrier between them or without.
const NESTED: &str =
    "array a i64 4\nmain { parallel 2 {\nif tid == 0 { parallel 2 {\na[tid] = 1 } }\nif tid == 1 { a[1] = 2 }\n} }\n";

const NESTED_APART: &str =
    "array a i64 4\nmain { parallel 2 {\nif tid == 0 { parallel 2 {\na[tid] = 1 } }\nbarrier\nif tid == 1 { a[1] = 2 }\n} }\n";

const TWO_REGIONS: &str =
    "array a i64 4\nmain {\nparallel 2 { a[tid] = 1 }\nparallel 2 { a[1 - tid] = 2 }\n}\n";

const DRAWN: &str =
    "array a i64 10\nmain { parallel 3 {\nfor i in 0 .. 10 dynamic 4 { a[i] = i }\n} }\n";

const DRAWN_OTHERWISE: &str =
    "array a i64 10\nmain { parallel 3 {\nfor i in 0 .. 10 dynamic 5 { a[i] = i }\n} }\n";

const DRAWN_TWICE: &str =
    "array a i64 4\nmain { parallel 2 {\nfor i in 0 .. 4 dynamic { a[i] = 1 }\nfor i in 0 .. 4 dynamic 3 { a[i] = a[i] + 1 }\n} }\n";

// Regions in regions, four deep, in which 64 lanes store.
const FOUR_DEEP: &str = "array a i64 64
main { parallel 4 {
let p = tid
parallel 4 {
let q = 4 * p + tid
parallel 2 {
let r = 2 * q + tid
parallel 2 { a[2 * r + tid] = 1 }
} } } }
";

const TRIANGLE: &str = "array row i32 16
main {
let last = 5
parallel 16 {
let sum = 0
loop k in 1 .. tid + 1 { sum = sum + k % last }
row[tid] = sum
} }
";

const WAVES: &str = "array a i16 32
array b i8 32
mutex first
mutex second
main { parallel 4 {
critical first {
a[0] = a[0] + 1
critical second { b[0] = -a[0] }
}
barrier
for i in 1 .. 8 * span static 2 nowait { a[i] = i * i - (i < 9) }
} }
";

const CROWD: &str = "array s i64 1
mutex c
main { parallel 64 {
loop i in 0 .. 1000 { critical c { s[0] = s[0] + 1 } }
} }
";

const HEAT_ON: &str = "# heat
array u i64 64
array v i64 64
main {
u[0] = 1000
parallel 4 {
loop t in 0 .. 3 {
for i in 1 .. 63 nowait {
v[i] = (u[i-1] + 2 * u[i] + u[i+1]) / 4
}
for i in 1 .. 63 {
u[i] = v[i]
}
}
}
}
";

const WITHOUT_A_RACE: &[Whole<'static>] = &[
    (ONE_STORE, "tasks 1\nrecords 2\nsum a 1\n", DONE, NO_RACE),
    (NARROW, "tasks 1\nrecords 2\nsum b -56\n", DONE, NO_RACE),
    (LOCKED, "tasks 9\nrecords 42\nsum s 8\n", DONE, NO_RACE),
    (TWO_REGIONS, "tasks 5\nrecords 11\nsum a 4\n", DONE, NO_RACE),
    (DRAWN, "tasks 4\nrecords 24\nsum a 45\n", DONE, NO_RACE),
    (DRAWN_TWICE, "tasks 3\nrecords 30\nsum a 8\n", DONE, NO_RACE),
    (
        FOUR_DEEP,
        "tasks 117\nrecords 234\nsum a 64\n",
        DONE,
        NO_RACE,
    ),
    (
        TRIANGLE,
        "tasks 17\nrecords 34\nsum row 240\n",
        DONE,
        NO_RACE,
    ),
    (
        WAVES,
        "tasks 5\nrecords 73\nsum a 10412\nsum b -4\n",
        DONE,
        NO_RACE,
    ),
    (
        CROWD,
        "tasks 65\nrecords 256066\nsum s 64000\n",
        DONE,
        NO_RACE,
    ),
    (
        HEAT,
        "tasks 5\nrecords 1147\nsum u 1592\nsum v 592\n",
        DONE,
        NO_RACE,
    ),
];

// What some of them print isn't the same each time.
const CHECKED: &[Whole<'static>] = &[
    (UNLOCKED, "...", RACES, "race 4 4\nraces 1\n"),
    (TWO_MUTEXES, "...", RACES, "race 5 6\nraces 1\n"),
    (TWO_LOOPS, "...", DONE, NO_RACE),
    (TWO_LOOPS_ON, "...", RACES, "race 4 5\nraces 1\n"),
    (NESTED, "...", RACES, "race 4 5\nraces 1\n"),
    (NESTED_APART, "...", DONE, NO_RACE),
    (HEAT_ON, "...", RACES, "race 9 12\nraces 1\n"),
];

const RESIZED: Case<'static> = Case {
    held: &[("k", DRAWN), ("resized", DRAWN_OTHERWISE)],
    asked: &[
        (RUN, DONE, "..."),
        (
            &["replay", "resized", "d"],
            DIFFERS,
            "differs t-0.0.swl record 1\n",
        ),
    ],
    ..EMPTY
};

const ROOT_ALONE: Case<'static> = Case {
    held: &[("k", ONE_STORE)],
    asked: &[
        (RUN, DONE, "..."),
        (
            SHOW,
            DONE,
            "log t.swl records 2\n1 write 8 site 0 line 1 addr 4096 value 1\n2 end line 1\n",
        ),
    ],
    ..EMPTY
};

const REPEATED: Case<'static> = Case {
    held: &[("k", TWO_LOOPS)],
    asked: &[(RUN, DONE, "..."), (&["check", "d", "1"], DONE, NO_RACE)],
    ..EMPTY
};

// Whether this file is there, and the same in both folders.
fn has_same_file(one: &MemFolder, other: &MemFolder, name: &str) -> bool {
    one.file(name).is_some() && one.file(name) == other.file(name)
}

// Whether all logs are the same in both folders.
fn have_same_logs(one: &MemFolder, other: &MemFolder) -> bool {
    for name in ["d/t.swl", "d/t-0.0.swl", "d/t-0.1.swl"] {
        if !has_same_file(one, other, name) {
            return false;
        }
    }
    true
}

#[test]
fn a_run_without_draws_has_the_same_logs_each_time(rt: HostRuntime) {
    let first = left_by(&rt, rt.alloc(), &REPEATED);
    for _ in 0..200 {
        assert!(rt; have_same_logs(&left_by(&rt, rt.alloc(), &REPEATED), &first));
    }
}

const REDRAWN: &[Case<'static>] = &[Case {
    held: &[("k", DRAWN_TWICE)],
    asked: &[
        (RUN, DONE, "tasks 3\nrecords 30\nsum a 8\n"),
        (&["check", "d", "1"], DONE, NO_RACE),
    ],
    ..EMPTY
}];

#[test]
fn each_run_with_draws_is_a_run_without_a_race(rt: HostRuntime) {
    for _ in 0..200 {
        all_pass(&rt, rt.alloc(), REDRAWN);
    }
}

// How many lines of a text end so.
fn count(text: &[u8], ending: &[u8]) -> usize {
    let mut found = 0;
    for line in text.split(|byte| *byte == b'\n') {
        if line.ends_with(ending) {
            found = usize::saturating_add(found, 1);
        }
    }
    found
}

// Each lane finds that there is none left.
const DRAWS: &[(&str, usize)] = &[
    (" chunk 0 of 3 line 3", 1),
    (" chunk 1 of 3 line 3", 1),
    (" chunk 2 of 3 line 3", 1),
    (" chunk 3 of 3 line 3", 3),
];

const DRAWING: Case<'static> = Case {
    held: &[("k", DRAWN)],
    asked: &[(RUN, DONE, "...")],
    ..EMPTY
};

// Aborts where the folder's records aren't shown, or a draw is shown otherwise than so often.
fn shows_draws<R: Abort + Threads + Wait + Sync + Copy + Send + 'static>(
    rt: &R,
    alloc: Global,
    folder: &mut MemFolder,
) {
    let (status, out) = printed(rt, alloc, folder, SHOW, &[]);
    assert!(rt; status == DONE);
    for (ending, times) in DRAWS {
        assert!(rt;
            count(out.written(), ending.as_bytes()) == *times,
            "{ending}"
        );
    }
}

#[test]
fn each_chunk_is_drawn_once(rt: HostRuntime) {
    let mut folder = left_by(&rt, rt.alloc(), &DRAWING);
    shows_draws(&rt, rt.alloc(), &mut folder);
}

const SUBJECTS: &[Subject<'static>] = &[
    (
        "chunks of another size differ at the first draw",
        &[RESIZED],
    ),
    ("the root alone is shown", &[ROOT_ALONE]),
];

#[test]
fn kernels_of_the_whole_language_run(rt: HostRuntime) {
    all_run(&rt, rt.alloc(), "2", WITHOUT_A_RACE);
    all_run(&rt, rt.alloc(), "2", CHECKED);
    each_passes(&rt, rt.alloc(), SUBJECTS);
}
