//! Each call on the folder, on the output and on a log fails in turn, in each command.

use super::verdicts::{HEAT, SHIFT};
use crate::tests::fixtures::{CERTIFY, Calls, Case, EMPTY, REPLAY, SHOW, all_calls_may_fail};
use command_answer::{DIFFERS, DONE, FOLDER_REFUSED, KERNEL_STOPPED, RACES, UNCERTAIN};
use made_folders::{BARRIER, END, ROOT, Rec, Task, region, store};

// No call at all.
const NONE: Calls<'static> = Calls {
    case: EMPTY,
    reads: 0,
    writes: 0,
    roots: 0,
    puts: &[],
    prints: 1,
    logs: &[],
    made: &[],
};

// With a buffer for four records.
const BY_FOUR: &[&str] = &["run", "k", "d", "96"];

// Each lane puts ten records, and so a header and three pieces. The root puts a header and one piece, and makes two logs.
const ENDS: Calls<'static> = Calls {
    case: Case {
        held: &[(
            "k",
            "array a i64 8\nmain {\nparallel 2 {\nfor i in 0 .. 8 static 1 {\na[i] = a[i] + 1\n}\n}\n}\n",
        )],
        asked: &[(BY_FOUR, DONE, "tasks 3\nrecords 22\nsum a 8\n")],
        ..EMPTY
    },
    reads: 3,
    writes: 5,
    roots: 1,
    logs: &[(&[], 4), (&[(0, 0, 2)], 4), (&[(0, 1, 2)], 4)],
    made: &["d/t.swl", "d/t-0.0.swl", "d/t-0.1.swl", "d/index.swi"],
    ..NONE
};

// Both lanes divide by an element, which is 0.
const STOPS: Calls<'static> = Calls {
    case: Case {
        held: &[(
            "k",
            "array a i64 4\nmain { parallel 2 {\nfor i in 0 .. 4 { a[i] = 1 / a[i] }\n} }\n",
        )],
        asked: &[(
            BY_FOUR,
            KERNEL_STOPPED,
            "stopped t-0.0.swl line 3: DivZero\n",
        )],
        left: &[("d/index.swi", None)],
        ..EMPTY
    },
    reads: 3,
    writes: 4,
    roots: 1,
    made: &["d/t.swl", "d/t-0.0.swl", "d/t-0.1.swl"],
    ..NONE
};

const CHECK: &[&str] = &["check", "d", "2"];

// Lane 1 reads the element that lane 0 writes.
const TWO_LANES: &[Task<'static>] = &[
    (&[], ROOT),
    (&[(0, 0, 2)], &[store!(3, 4128), BARRIER, END]),
    (&[(0, 1, 2)], &[(1, 8, 3, 4128, 0), BARRIER, END]),
];

const RACING: Case<'static> = Case {
    tasks: TWO_LANES,
    asked: &[(CHECK, RACES, "race 3 3\nraces 1\n")],
    ..EMPTY
};

const RACES_FOUND: Calls<'static> = Calls {
    case: RACING,
    reads: 6,
    prints: 2,
    ..NONE
};

// Less than a record stands after the header.
const CUT: Calls<'static> = Calls {
    case: Case {
        held: &[("d/t-0.1.swl", "SWLOG002cut")],
        asked: &[(CHECK, FOLDER_REFUSED, "bad log t-0.1.swl record 1: Cut\n")],
        ..RACING
    },
    reads: 6,
    ..NONE
};

// Each lane of two forks two, of which each stores a local of the outer lane.
const NESTED: &str = "array a i64 4
main {
let x = 5
parallel 2 {
let y = tid + x
parallel 2 {
a[tid] = y
}
}
}
";

const INNER: &[Rec] = &[region!(6, 2), (8, 0, 9, 0, 0)];

// A lane of an inner team, which stores this value at this address.
macro_rules! storing {
    ($address:expr, $value:expr) => {
        &[store!(7, $address, $value), (8, 0, 8, 0, 0)]
    };
}

// The run of the nested kernel, whose last lane stores this value.
macro_rules! nested {
    ($last:expr, $asked:expr) => {
        Case {
            held: &[("k", NESTED)],
            tasks: &[
                (&[], &[region!(4, 2), (8, 0, 10, 0, 0)]),
                (&[(0, 0, 2)], INNER),
                (&[(0, 0, 2), (0, 0, 2)], storing!(4096, 5)),
                (&[(0, 0, 2), (0, 1, 2)], storing!(4104, 5)),
                (&[(0, 1, 2)], INNER),
                (&[(0, 1, 2), (0, 0, 2)], storing!(4096, 6)),
                (&[(0, 1, 2), (0, 1, 2)], storing!(4104, $last)),
            ],
            asked: $asked,
            ..EMPTY
        }
    };
}

const SAME: Calls<'static> = Calls {
    case: nested!(6, &[(REPLAY, DONE, "same\n")]),
    reads: 19,
    ..NONE
};

const DIFFERING: Calls<'static> = Calls {
    case: nested!(5, &[(REPLAY, DIFFERS, "differs t-0.1-0.1.swl record 1\n")]),
    reads: 19,
    ..NONE
};

const SHOWN: Calls<'static> = Calls {
    case: nested!(6, &[(SHOW, DONE, "log t.swl records 2\n...")]),
    reads: 17,
    ..NONE
};

// It makes no call on the folder.
const GENERATED: Calls<'static> = Calls {
    case: Case {
        asked: &[(
            &["gen", "4", "2"],
            RACES,
            "accesses 65\nsegments 16\nrace 30 40\nraces 1\n",
        )],
        ..EMPTY
    },
    prints: 3,
    ..NONE
};

// Between the logs that it puts it reads the next one.
const BROUGHT: Calls<'static> = Calls {
    case: Case {
        old_tasks: TWO_LANES,
        asked: &[(&["upgrade", "d", "e"], DONE, "upgraded 3\n")],
        ..EMPTY
    },
    reads: 10,
    writes: 4,
    puts: &[9, 11, 13, 14],
    made: &["e/t.swl", "e/t-0.0.swl", "e/t-0.1.swl", "e/index.swi"],
    ..NONE
};

const EXPLAINED: Calls<'static> = Calls {
    case: Case {
        asked: &[(
            &["explain", "d", "3", "3"],
            RACES,
            "race row 2 t-0.0.swl record 1 row 3 t-0.1.swl record 1 byte 4128\n",
        )],
        ..RACING
    },
    reads: 11,
    ..NONE
};

const CONFIRMED: Calls<'static> = Calls {
    case: Case {
        asked: &[(
            &["confirm", "d", "2", "1", "3", "1"],
            RACES,
            "race byte 4128\n",
        )],
        ..RACING
    },
    reads: 8,
    ..NONE
};

// The kernel's size and its bytes are asked for, and each line of the report is printed alone.
const RACY: Calls<'static> = Calls {
    case: Case {
        held: &[("k", SHIFT)],
        asked: &[(CERTIFY, UNCERTAIN, "race 3 3\nraces 1\nuncertain: races\n")],
        ..EMPTY
    },
    reads: 2,
    prints: 3,
    ..NONE
};

const CERTAIN: Calls<'static> = Calls {
    case: Case {
        held: &[("k", HEAT)],
        asked: &[(
            CERTIFY,
            DONE,
            "certain\ntasks 5\nrecords 1147\nsum u 1592\nsum v 592\n",
        )],
        ..EMPTY
    },
    prints: 1,
    ..RACY
};

#[test]
fn each_call_of_run_may_fail(rt: HostRuntime) {
    all_calls_may_fail(&rt, rt.alloc(), &[ENDS, STOPS]);
}

#[test]
fn each_call_of_check_explain_and_confirm_may_fail(rt: HostRuntime) {
    let all = &[RACES_FOUND, CUT, EXPLAINED, CONFIRMED];
    all_calls_may_fail(&rt, rt.alloc(), all);
}

#[test]
fn each_call_of_replay_and_show_may_fail(rt: HostRuntime) {
    all_calls_may_fail(&rt, rt.alloc(), &[SAME, DIFFERING, SHOWN]);
}

#[test]
fn each_call_of_gen_upgrade_and_certify_may_fail(rt: HostRuntime) {
    let all = &[GENERATED, BROUGHT, RACY, CERTAIN];
    all_calls_may_fail(&rt, rt.alloc(), all);
}
