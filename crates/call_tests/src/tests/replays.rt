//! `replay`: folders against their kernels and against others, and why there is no comparison.

use crate::tests::fixtures::{
    Case, EMPTY, REPLAY, RUN, Subject, USAGE_LINE, all_pass, answers, each_passes, folder_of,
    passes,
};
use command_answer::{DIFFERS, DONE, FOLDER_REFUSED, KERNEL_REFUSED, USAGE};
use made_folders::{END, ROOT, Rec, region, store};
use memory_environment::MemFolder;
use std::alloc::Global;
use std::marker::Send;
use std::process::Abort;
use std::sync::Wait;
use std::thread::Threads;

// Each lane adds 1 to every other element.
const COUNT: &str =
    "array a i64 8\nmain {\nparallel 2 {\nfor i in 0 .. 8 static 1 {\na[i] = a[i] + 1\n}\n}\n}\n";

const COUNTED: &str = "tasks 3\nrecords 22\nsum a 8\n";

const SAME: &str = "same\n";

const COUNTING: Case<'static> = Case {
    held: &[("k", COUNT)],
    asked: &[(RUN, DONE, COUNTED), (REPLAY, DONE, SAME)],
    ..EMPTY
};

// The folder with this byte of a file raised by so much.
fn raise(rt: &impl Abort, alloc: Global, folder: &mut MemFolder, name: &str, at: usize, by: u8) {
    let log = folder.file(name).expect(rt, "a log");
    let mut bytes = log.to_vec(alloc).expect(rt, "memory");
    let byte = bytes.get_mut(at).expect(rt, "a byte");
    *byte = byte.wrapping_add(by);
    folder.hold(name, &bytes).expect(rt, "memory");
}

// The first bytes of records 1 and 2 in a log.
const FIRST: usize = 8;

const SECOND: usize = 32;

const LANE_0: &str = "d/t-0.0.swl";

/// A log, the place of a byte there, by how much it is raised, and what is told then.
type Field<'a> = (&'a str, usize, u8, &'a str);

// The last byte of each field: kind, size, site, line, address and value. A write becomes no record by one more.
const FIELDS: &[Field<'static>] = &[
    (LANE_0, SECOND, 255, "differs t-0.0.swl record 2\n"),
    (LANE_0, SECOND + 1, 252, "differs t-0.0.swl record 2\n"),
    (LANE_0, SECOND + 3, 1, "differs t-0.0.swl record 2\n"),
    (LANE_0, SECOND + 7, 1, "differs t-0.0.swl record 2\n"),
    (LANE_0, SECOND + 15, 8, "differs t-0.0.swl record 2\n"),
    (LANE_0, SECOND + 23, 1, "differs t-0.0.swl record 2\n"),
    (LANE_0, FIRST, 1, "differs t-0.0.swl record 1\n"),
    (LANE_0, FIRST + 3, 1, "differs t-0.0.swl record 1\n"),
    (LANE_0, FIRST + 15, 8, "differs t-0.0.swl record 1\n"),
    // What follows from the value of a read differs.
    (LANE_0, FIRST + 23, 1, "differs t-0.0.swl record 2\n"),
    // The value of lane 1's second record, from 1 to 2.
    (
        "d/t-0.1.swl",
        SECOND + 23,
        1,
        "differs t-0.1.swl record 2\n",
    ),
];

// Aborts where the run of the folder's kernel isn't the same, or is told otherwise once this field is another.
fn differs_at<R: Abort + Threads + Wait + Sync + Copy + Send + 'static>(
    rt: &R,
    alloc: Global,
    folder: &mut MemFolder,
    field: &Field<'_>,
) {
    let (name, at, by, text) = field;
    passes(rt, alloc, folder, &COUNTING);
    raise(rt, alloc, folder, name, *at, *by);
    answers(rt, alloc, folder, REPLAY, DIFFERS, text);
}

#[test]
fn a_run_is_the_same_until_a_field_is_another(rt: HostRuntime) {
    for field in FIELDS {
        let mut folder = folder_of(&rt, rt.alloc(), &COUNTING);
        differs_at(&rt, rt.alloc(), &mut folder, field);
    }
}

const OTHERS: Case<'static> = Case {
    held: &[
        ("k", COUNT),
        (
            "adds 2",
            "array a i64 8\nmain {\nparallel 2 {\nfor i in 0 .. 8 static 1 {\na[i] = a[i] + 2\n}\n}\n}\n",
        ),
        (
            "by 2",
            "array a i64 8\nmain {\nparallel 2 {\nfor i in 0 .. 8 static 2 {\na[i] = a[i] + 1\n}\n}\n}\n",
        ),
        (
            "of 3",
            "array a i64 8\nmain {\nparallel 3 {\nfor i in 0 .. 8 static 1 {\na[i] = a[i] + 1\n}\n}\n}\n",
        ),
        (
            "longer",
            "array a i64 8\nmain {\nparallel 2 {\nfor i in 0 .. 8 static 1 {\na[i] = a[i] + 1\n}\n}\n\n}\n",
        ),
    ],
    asked: &[
        (RUN, DONE, COUNTED),
        (
            &["replay", "adds 2", "d"],
            DIFFERS,
            "differs t-0.0.swl record 2\n",
        ),
        (
            &["replay", "by 2", "d"],
            DIFFERS,
            "differs t-0.0.swl record 3\n",
        ),
        // A region with another span.
        (
            &["replay", "of 3", "d"],
            DIFFERS,
            "differs t.swl record 1\n",
        ),
        (
            &["replay", "longer", "d"],
            DIFFERS,
            "differs t.swl record 2\n",
        ),
    ],
    ..EMPTY
};

const ONE_STORE: &str = "array a i64 1\nmain {\na[0] = 1\n\n\n\n\n\n}";

const OWN: Rec = store!(3, 4096);

const ONE_TASK: &[Case<'static>] = &[
    Case {
        held: &[("k", ONE_STORE)],
        tasks: &[(&[], &[OWN, END])],
        asked: &[(REPLAY, DONE, SAME)],
        ..EMPTY
    },
    Case {
        held: &[("k", ONE_STORE)],
        tasks: &[(&[], &[END])],
        asked: &[(REPLAY, DIFFERS, "differs t.swl record 1\n")],
        ..EMPTY
    },
    Case {
        held: &[("k", ONE_STORE)],
        tasks: &[(&[], &[OWN, OWN, END])],
        asked: &[(REPLAY, DIFFERS, "differs t.swl record 2\n")],
        ..EMPTY
    },
];

macro_rules! end {
    ($line:expr) => {
        (8, 0, $line, 0, 0)
    };
}

const MET: Rec = (5, 0, 3, 0, 0);

// What a lane does that draws chunk 0, 1 or 2 of ten iterations, and then none.
const FIRST_CHUNK: &[Rec] = &[
    (7, 0, 3, 0, 3),
    (2, 8, 3, 4096, 0),
    (2, 8, 3, 4104, 1),
    (2, 8, 3, 4112, 2),
    (2, 8, 3, 4120, 3),
    (7, 0, 3, 3, 3),
    MET,
    (8, 0, 4, 0, 0),
];

const SECOND_CHUNK: &[Rec] = &[
    (7, 0, 3, 1, 3),
    (2, 8, 3, 4128, 4),
    (2, 8, 3, 4136, 5),
    (2, 8, 3, 4144, 6),
    (2, 8, 3, 4152, 7),
    (7, 0, 3, 3, 3),
    MET,
    (8, 0, 4, 0, 0),
];

const THIRD_CHUNK: &[Rec] = &[
    (7, 0, 3, 2, 3),
    (2, 8, 3, 4160, 8),
    (2, 8, 3, 4168, 9),
    (7, 0, 3, 3, 3),
    MET,
    (8, 0, 4, 0, 0),
];

const DRAWN: Case<'static> = Case {
    held: &[
        (
            "k",
            "array a i64 10\nmain { parallel 3 {\nfor i in 0 .. 10 dynamic 4 { a[i] = i }\n} }\n",
        ),
        (
            "by 5",
            "array a i64 10\nmain { parallel 3 {\nfor i in 0 .. 10 dynamic 5 { a[i] = i }\n} }\n",
        ),
    ],
    tasks: &[
        (&[], &[region!(2, 3), end!(4)]),
        (&[(0, 0, 3)], SECOND_CHUNK),
        (&[(0, 1, 3)], THIRD_CHUNK),
        (&[(0, 2, 3)], FIRST_CHUNK),
    ],
    asked: &[
        (REPLAY, DONE, SAME),
        (
            &["replay", "by 5", "d"],
            DIFFERS,
            "differs t-0.0.swl record 1\n",
        ),
    ],
    ..EMPTY
};

const LEAVING: &[Subject<'static>] = &[
    ("another kernel differs", &[OTHERS]),
    (
        "a log is neither shorter nor longer than its trace",
        ONE_TASK,
    ),
    ("chunks are those that the logs draw", &[DRAWN]),
];

#[test]
fn a_replay_tells_where_a_folder_leaves_its_kernel(rt: HostRuntime) {
    each_passes(&rt, rt.alloc(), LEAVING);
}

// Lanes of a lane's region see its locals.
const NESTED: &str = "array a i64 4
main {
let x = 5
parallel 2 {
let y = tid + x
parallel 2 {
a[tid] = y
}
}
}
";

const INNER: &[Rec] = &[region!(6, 2), end!(9)];

// What a lane of the inner regions does: lane 0 stores 5 or 6, or lane 1 does.
const FIRST_5: &[Rec] = &[store!(7, 4096, 5), end!(8)];

const FIRST_6: &[Rec] = &[store!(7, 4096, 6), end!(8)];

const SECOND_5: &[Rec] = &[store!(7, 4104, 5), end!(8)];

const SECOND_6: &[Rec] = &[store!(7, 4104, 6), end!(8)];

// The tasks, of which lanes 0.0-0.1, 0.1-0.0 and 0.1-0.1 have these records.
macro_rules! nested {
    ($one:expr, $two:expr, $three:expr) => {
        &[
            (&[], &[region!(4, 2), end!(10)]),
            (&[(0, 0, 2)], INNER),
            (&[(0, 0, 2), (0, 0, 2)], FIRST_5),
            (&[(0, 0, 2), (0, 1, 2)], $one),
            (&[(0, 1, 2)], INNER),
            (&[(0, 1, 2), (0, 0, 2)], $two),
            (&[(0, 1, 2), (0, 1, 2)], $three),
        ]
    };
}

const SAME_LOCALS: Case<'static> = Case {
    held: &[("k", NESTED)],
    tasks: nested!(SECOND_5, FIRST_6, SECOND_6),
    asked: &[(REPLAY, DONE, SAME)],
    ..EMPTY
};

const LOCALS: &[Case<'static>] = &[
    SAME_LOCALS,
    Case {
        held: &[("k", NESTED)],
        tasks: nested!(SECOND_5, FIRST_6, SECOND_5),
        asked: &[(REPLAY, DIFFERS, "differs t-0.1-0.1.swl record 1\n")],
        ..EMPTY
    },
    Case {
        held: &[("k", NESTED)],
        tasks: nested!(SECOND_5, FIRST_5, SECOND_5),
        asked: &[(REPLAY, DIFFERS, "differs t-0.1-0.0.swl record 1\n")],
        ..EMPTY
    },
    Case {
        held: &[("k", NESTED)],
        tasks: nested!(SECOND_6, FIRST_5, SECOND_5),
        asked: &[(REPLAY, DIFFERS, "differs t-0.0-0.1.swl record 1\n")],
        ..EMPTY
    },
];

#[test]
fn a_task_starts_from_the_locals_at_its_fork(rt: HostRuntime) {
    all_pass(&rt, rt.alloc(), LOCALS);
}

const REFUSED: &[Case<'static>] = &[
    Case {
        asked: &[(REPLAY, KERNEL_REFUSED, "no kernel\n")],
        ..EMPTY
    },
    Case {
        held: &[("k", "main {\nb[0] = 1\n}")],
        asked: &[(REPLAY, KERNEL_REFUSED, "kernel line 2: Unknown\n")],
        ..EMPTY
    },
    Case {
        held: &[("k", COUNT)],
        asked: &[(REPLAY, FOLDER_REFUSED, "no index\n")],
        ..EMPTY
    },
    Case {
        held: &[("k", COUNT)],
        tasks: &[(&[], ROOT), (&[(0, 0, 2)], &[END]), (&[(0, 1, 2)], &[])],
        asked: &[(REPLAY, FOLDER_REFUSED, "bad index row 3: Records\n")],
        ..EMPTY
    },
];

const OTHER_WORDS: Case<'static> = Case {
    asked: &[
        (&["replay"], USAGE, USAGE_LINE),
        (&["replay", "k"], USAGE, USAGE_LINE),
        (&["replay", "k", ""], USAGE, USAGE_LINE),
        (&["replay", "", "d"], USAGE, USAGE_LINE),
        (&["replay", "k", "d", "1"], USAGE, USAGE_LINE),
    ],
    ..EMPTY
};

const NO_REPLAY: &[Subject<'static>] = &[
    ("no kernel or no folder is refused", REFUSED),
    ("other words are a usage fault", &[OTHER_WORDS]),
];

#[test]
fn a_replay_without_a_kernel_or_a_folder_is_refused(rt: HostRuntime) {
    each_passes(&rt, rt.alloc(), NO_REPLAY);
}
