//! Kernels that stop: which stop is told, and what is left of the run.

use crate::tests::fixtures::{
    Case, EMPTY, Past, RUN, Subject, all_pass, all_pass_past, each_passes,
};
use command_answer::{DONE, FOLDER_REFUSED, KERNEL_STOPPED, WRITE_FAULT};

// Lane 1 leaves the array, or divides by 0.
const LEAVING: &str =
    "array a i64 8\nmain { parallel 2 {\nif tid == 1 {\nlet k = 8\na[k] = 1 }\n} }\n";

const DIVIDING: &str =
    "array a i64 8\nmain { parallel 2 {\nif tid == 1 {\nlet k = 8\na[0] = 1 / (tid - 1) }\n} }\n";

// Lane 1 leaves the array in the second turn, after a barrier. Lane 0 waits at the next one.
const SECOND_TURN: &str = "array a i64 4
main { parallel 2 {
loop t in 0 .. 3 {
for i in 0 .. 2 { a[i + 3 * t] = 1 }
}
} }
";

// Lane 0 stops in a critical section, for which lane 1 waits.
const GUARDED: &str = "array a i64 1
mutex c
main { parallel 2 {
critical c { a[tid - 1] = 1 }
} }
";

// Each of the three lanes after the first has a reason of its own to stop: it leaves the array, divides by 0, or stores three times, of
// which its log takes one.
const LEAVES_FIRST: &str = "array a i64 4
main { parallel 4 {
if tid == 1 { a[4] = 1 }
if tid == 2 { a[0] = 1 / (tid - 2) }
if tid == 3 { a[3] = 1 a[3] = 2 a[3] = 3 }
} }
";

const DIVIDES_FIRST: &str = "array a i64 4
main { parallel 4 {
if tid == 2 { a[4] = 1 }
if tid == 1 { a[0] = 1 / (tid - 1) }
if tid == 3 { a[3] = 1 a[3] = 2 a[3] = 3 }
} }
";

const FAILS_FIRST: &str = "array a i64 4
main { parallel 4 {
if tid == 3 { a[4] = 1 }
if tid == 2 { a[0] = 1 / (tid - 2) }
if tid == 1 { a[3] = 1 a[3] = 2 a[3] = 3 }
} }
";

// Of the inner lanes the first waits for the mutex that lane 0 holds, and the second leaves the array.
const SIBLING_WAITS: &str = "array a i64 4
mutex c
main { parallel 2 {
if tid == 0 { critical c { loop i in 0 .. 1000 { a[0] = i } } }
if tid == 1 { parallel 2 {
if tid == 0 { critical c { a[1] = 1 } }
if tid == 1 { a[4] = 1 }
} }
} }
";

const INDEX: &str = "d/index.swi";

const STOPS: &[Case<'static>] = &[
    Case {
        held: &[("k", LEAVING)],
        asked: &[(RUN, KERNEL_STOPPED, "stopped t-0.1.swl line 5: Index\n")],
        left: &[
            ("d/t.swl", Some(32)),
            ("d/t-0.0.swl", Some(32)),
            ("d/t-0.1.swl", Some(8)),
            (INDEX, None),
        ],
        ..EMPTY
    },
    Case {
        held: &[("k", DIVIDING)],
        asked: &[(RUN, KERNEL_STOPPED, "stopped t-0.1.swl line 5: DivZero\n")],
        left: &[
            ("d/t.swl", Some(32)),
            ("d/t-0.0.swl", Some(32)),
            ("d/t-0.1.swl", Some(8)),
            (INDEX, None),
        ],
        ..EMPTY
    },
    Case {
        held: &[("k", SECOND_TURN)],
        asked: &[(RUN, KERNEL_STOPPED, "stopped t-0.1.swl line 4: Index\n")],
        left: &[
            ("d/t.swl", Some(32)),
            ("d/t-0.0.swl", Some(104)),
            ("d/t-0.1.swl", Some(56)),
            (INDEX, None),
        ],
        ..EMPTY
    },
];

// A lane that stops gives its mutex back: lane 0 has a Lock alone, and lane 1 a Lock, a Write, an Unlock and an End.
const GUARDED_STOPS: &[Case<'static>] = &[
    Case {
        held: &[("k", GUARDED)],
        asked: &[(RUN, KERNEL_STOPPED, "stopped t-0.0.swl line 4: Index\n")],
        left: &[
            ("d/t-0.0.swl", Some(32)),
            ("d/t-0.1.swl", Some(104)),
            (INDEX, None),
        ],
        ..EMPTY
    },
    Case {
        held: &[("k", SIBLING_WAITS)],
        asked: &[(RUN, KERNEL_STOPPED, "stopped t-0.1-0.1.swl line 7: Index\n")],
        left: &[(INDEX, None)],
        ..EMPTY
    },
];

const STOPPING: &[Subject<'static>] = &[
    ("a stop leaves the logs of all tasks", STOPS),
    ("a stop ends who holds and who waits", GUARDED_STOPS),
];

#[test]
fn a_stop_is_told_and_ends_each_task(rt: HostRuntime) {
    each_passes(&rt, rt.alloc(), STOPPING);
}

const ONE_BY_ONE: &[&str] = &["run", "k", "d", "24"];

// The root's third call on its log fails, and then a lane's second. Where the run stops lane 0 has its End.
const PAST_A_LOG: &[Past<'static>] = &[
    (
        &[],
        3,
        Case {
            held: &[(
                "k",
                "array a i64 1000 main { loop i in 0 .. 1000 { a[i] = 1 } }",
            )],
            asked: &[(&["run", "k", "d", "240"], WRITE_FAULT, "")],
            left: &[("d/t.swl", None), (INDEX, None)],
            ..EMPTY
        },
    ),
    (
        &[(0, 3, 4)],
        2,
        Case {
            held: &[("k", LEAVES_FIRST)],
            asked: &[(
                ONE_BY_ONE,
                KERNEL_STOPPED,
                "stopped t-0.1.swl line 3: Index\n",
            )],
            left: &[("d/t-0.0.swl", Some(32)), (INDEX, None)],
            ..EMPTY
        },
    ),
    (
        &[(0, 3, 4)],
        2,
        Case {
            held: &[("k", DIVIDES_FIRST)],
            asked: &[(
                ONE_BY_ONE,
                KERNEL_STOPPED,
                "stopped t-0.1.swl line 4: DivZero\n",
            )],
            left: &[("d/t-0.0.swl", Some(32)), (INDEX, None)],
            ..EMPTY
        },
    ),
    (
        &[(0, 1, 4)],
        2,
        Case {
            held: &[("k", FAILS_FIRST)],
            asked: &[(ONE_BY_ONE, WRITE_FAULT, "")],
            left: &[("d/t-0.0.swl", None), (INDEX, None)],
            ..EMPTY
        },
    ),
];

#[test]
fn a_log_that_fails_is_told_where_its_lane_is_the_least(rt: HostRuntime) {
    all_pass_past(&rt, rt.alloc(), PAST_A_LOG);
}

const TOO_MANY: Case<'static> = Case {
    held: &[("k", "main {\nloop k in 0 .. 1024 {\nparallel 64 { }\n} }\n")],
    asked: &[(RUN, KERNEL_STOPPED, "stopped t.swl line 3: Tasks\n")],
    ..EMPTY
};

#[test]
fn a_run_has_no_65537_tasks(rt: HostRuntime) {
    all_pass(&rt, rt.alloc(), &[TOO_MANY]);
}

// The root, 1,023 regions of 64 lanes, and one of 63. The root has a record for each region and an End, and each lane an End.
const WHOLE: Case<'static> = Case {
    held: &[(
        "k",
        "main {\nloop k in 0 .. 1023 {\nparallel 64 { }\n}\nparallel 63 { }\n}\n",
    )],
    asked: &[(RUN, DONE, "tasks 65536\nrecords 66560\n")],
    ..EMPTY
};

#[test]
fn a_run_has_65536_tasks(rt: HostRuntime) {
    all_pass(&rt, rt.alloc(), &[WHOLE]);
}

// Each of four lanes, one after another, has 20,000 barrier intervals with a store, and a record for each of these, for its barrier, and for
// its end. So the last one may have 5,536.
const PARTED: Case<'static> = Case {
    held: &[(
        "k",
        "array a i64 1\nmain {\nloop r in 0 .. 4 {\nparallel 1 {\nloop i in 0 .. 20000 {\na[0] = i\nbarrier\n} } } }\n",
    )],
    asked: &[
        (RUN, DONE, "tasks 5\nrecords 160009\nsum a 19999\n"),
        (
            &["check", "d", "2"],
            FOLDER_REFUSED,
            "too many segments at t-3.0.swl record 11073\n",
        ),
    ],
    ..EMPTY
};

#[test]
fn a_run_may_have_too_many_segments(rt: HostRuntime) {
    all_pass(&rt, rt.alloc(), &[PARTED]);
}

// A lane that puts so many records, does this then, and stops so.
macro_rules! full {
    ($records:literal, $last:literal, $text:expr) => {
        Case {
            held: &[(
                "k",
                concat!(
                    "array a i64 1\nmain {\nparallel 1 {\nloop i in 0 .. ",
                    $records,
                    " {\na[0] = i\n}\n",
                    $last,
                    "\n} }\n"
                ),
            )],
            asked: &[(RUN, KERNEL_STOPPED, $text)],
            ..EMPTY
        }
    };
}

const SEVENTH: &str = "stopped t-0.0.swl line 7: LogFull\n";

const EIGHTH: &str = "stopped t-0.0.swl line 8: LogFull\n";

const OUTSIDE: &str = "stopped t-0.0.swl line 7: Index\n";

const FULL: &[Case<'static>] = &[
    full!("4194304", "let x = a[0]", SEVENTH),
    full!("4194304", "a[0] = 1", SEVENTH),
    full!("4194304", "critical { }", SEVENTH),
    full!("4194303", "critical {\n}", EIGHTH),
    full!("4194304", "parallel 2 { }", SEVENTH),
    full!("4194304", "for j in 0 .. 1 dynamic { }", SEVENTH),
    full!("4194304", "barrier", SEVENTH),
    full!("4194304", "", EIGHTH),
    // An index outside comes before the full log.
    full!("4194304", "a[1] = 1", OUTSIDE),
    full!("4194304", "let x = a[1]", OUTSIDE),
];

#[test]
fn a_log_has_no_4194305_records(rt: HostRuntime) {
    all_pass(&rt, rt.alloc(), FULL);
}

// The root puts as many records as a log may have, and one more.
const WHOLE_LOGS: &[Case<'static>] = &[
    Case {
        held: &[(
            "k",
            "array a i64 1 main { loop i in 0 .. 4194303 { a[0] = i } }",
        )],
        asked: &[(RUN, DONE, "tasks 1\nrecords 4194304\nsum a 4194302\n")],
        ..EMPTY
    },
    Case {
        held: &[(
            "k",
            "array a i64 1 main { loop i in 0 .. 4194304 { a[0] = i } }",
        )],
        asked: &[(RUN, KERNEL_STOPPED, "stopped t.swl line 1: LogFull\n")],
        ..EMPTY
    },
];

#[test]
fn a_log_has_4194304_records(rt: HostRuntime) {
    all_pass(&rt, rt.alloc(), WHOLE_LOGS);
}
