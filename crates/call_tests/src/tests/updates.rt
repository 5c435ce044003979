//! Kernels with atomic updates: what `run` prints of them, and `check` and `replay` of what it wrote.

use crate::tests::fixtures::{Case, EMPTY, REPLAY, RUN, SHOW, Subject, each_passes};
use command_answer::{DONE, KERNEL_STOPPED, RACES};

const CHECK: &[&str] = &["check", "d", "2"];

const SAME: &str = "same\n";

// A kernel without a race, and what `run` prints of it.
macro_rules! apart {
    ($text:literal, $printed:literal) => {
        Case {
            held: &[("k", $text)],
            asked: &[
                (RUN, DONE, $printed),
                (CHECK, DONE, "races 0\n"),
                (REPLAY, DONE, SAME),
            ],
            ..EMPTY
        }
    };
}

// A kernel with one, which stands for what `check` prints.
macro_rules! racing {
    ($text:literal, $printed:literal, $races:literal) => {
        Case {
            held: &[("k", $text)],
            asked: &[
                (RUN, DONE, $printed),
                (CHECK, RACES, $races),
                (REPLAY, DONE, SAME),
            ],
            ..EMPTY
        }
    };
}

// Eight lanes add twenty times to a byte, which wraps; and one lane takes away what the other reads.
const ROWS: &[Case<'static>] = &[
    apart!(
        "array s i8 1\nmain { parallel 8 {\nloop k in 0 .. 20 { atomic s[0] += 1 }\n} }\n",
        "tasks 9\nrecords 170\nsum s -96\n"
    ),
    racing!(
        "array s i64 1\nmain { parallel 2 {\nif tid == 0 { atomic s[0] -= 5 }\nif tid == 1 { let x = s[0] }\n} }\n",
        "tasks 3\nrecords 6\nsum s -5\n",
        "race 3 4\nraces 1\n"
    ),
];

const MANY: &[Case<'static>] = &[
    apart!(
        "array s i64 1 main { parallel 64 { loop k in 0 .. 1000 { atomic s[0] += 1 } } }",
        "tasks 65\nrecords 64066\nsum s 64000\n"
    ),
    apart!(
        "array s i8 8 main { parallel 64 { loop k in 0 .. 1000 { atomic s[tid % 8] += 1 } } }",
        "tasks 65\nrecords 64066\nsum s 512\n"
    ),
];

// A plain write beside an update; updates in critical sections, in a loop whose chunks are drawn, and in a region inside another; a
// negative amount that is taken away.
const PLACES: &[Case<'static>] = &[
    racing!(
        "array s i64 2\nmain { parallel 2 {\nif tid == 0 { atomic s[1] += 5 }\nif tid == 1 { s[1] = 5 }\n} }\n",
        "tasks 3\nrecords 6\nsum s ...",
        "race 3 4\nraces 1\n"
    ),
    apart!(
        "array s i64 1 main { parallel 4 { critical { atomic s[0] += tid s[0] = s[0] - 1 } } }",
        "tasks 5\nrecords 26\nsum s 2\n"
    ),
    apart!(
        "array s i32 1 main { parallel 4 { for i in 0 .. 100 dynamic 3 { atomic s[0] += i } } }",
        "tasks 5\nrecords 148\nsum s 4950\n"
    ),
    apart!(
        "array s i16 1 main { parallel 2 { parallel 3 { atomic s[0] -= 7 } atomic s[0] += 1 } }",
        "tasks 9\nrecords 20\nsum s -40\n"
    ),
    apart!(
        "array s i64 1 main { parallel 2 { atomic s[0] -= -7 } }",
        "tasks 3\nrecords 6\nsum s 14\n"
    ),
];

// The amount reads before the update, and what a lane reads of its own is what its updates left.
const SHOWN: Case<'static> = Case {
    held: &[(
        "k",
        "array s i16 2\nmain {\ns[1] = 70000\natomic s[0] -= s[1]\natomic s[0] += 65537\nlet x = s[0]\n}\n",
    )],
    asked: &[
        (RUN, DONE, "tasks 1\nrecords 6\nsum s 1\n"),
        (
            SHOW,
            DONE,
            "log t.swl records 6\n1 write 2 site 0 line 3 addr 4098 value 4464\n2 read 2 site 2 line 4 addr 4098 value 4464\n3 update 2 site 1 line 4 addr 4096 value -4464\n4 update 2 site 3 line 5 addr 4096 value 1\n5 read 2 site 4 line 6 addr 4096 value -4463\n6 end line 7\n",
        ),
        (REPLAY, DONE, SAME),
    ],
    ..EMPTY
};

macro_rules! stopping {
    ($text:literal, $stop:literal) => {
        Case {
            held: &[("k", $text)],
            asked: &[(RUN, KERNEL_STOPPED, $stop)],
            ..EMPTY
        }
    };
}

const STOPS: &[Case<'static>] = &[
    stopping!(
        "array s i8 2\nmain { parallel 3 {\natomic s[tid] += 1 / (tid - 1)\n} }\n",
        "stopped t-0.1.swl line 3: DivZero\n"
    ),
    stopping!(
        "array s i8 2\nmain { parallel 3 {\natomic s[tid] -= 1\n} }\n",
        "stopped t-0.2.swl line 3: Index\n"
    ),
    stopping!(
        "array s i8 2\nmain { parallel 3 {\ncritical { atomic s[tid] -= 1 }\n} }\n",
        "stopped t-0.2.swl line 3: Index\n"
    ),
    stopping!(
        "array s i8 1\nmain { parallel 1 {\nloop i in 0 .. 4194304 {\natomic s[0] += 1 }\natomic s[0] += 1\n} }\n",
        "stopped t-0.0.swl line 5: LogFull\n"
    ),
];

const SUBJECTS: &[Subject<'static>] = &[
    ("updates race with reads and not with each other", ROWS),
    ("updates of 64 lanes lose nothing", MANY),
    ("updates stand where stores do", PLACES),
    ("updates are shown with the amount added", &[SHOWN]),
    ("updates stop as stores do", STOPS),
];

#[test]
fn updates_run_check_and_replay(rt: HostRuntime) {
    each_passes(&rt, rt.alloc(), SUBJECTS);
}
