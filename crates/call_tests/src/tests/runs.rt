//! Runs of small kernels: what `run` prints and leaves, and how its logs are cut.

use crate::tests::fixtures::{
    Case, EMPTY, RUN, SHOW, Subject, USAGE_LINE, each_passes, folder_of, passes, printed,
};
use command_answer::{
    DONE, INDEX_THERE, KERNEL_REFUSED, KERNEL_STOPPED, RACES, USAGE, WRITE_FAULT,
};
use memory_environment::MemFolder;
use std::alloc::Global;
use std::marker::Send;
use std::process::Abort;
use std::sync::Wait;
use std::test::Fail;
use std::thread::{Builder, Threads};
use sw_base::Memory;

// Each lane adds 1 to every other element.
const COUNT: &str =
    "array a i64 8\nmain {\nparallel 2 {\nfor i in 0 .. 8 static 1 {\na[i] = a[i] + 1\n}\n}\n}\n";

// Lane 1 reads the element that lane 0 writes last.
const SHIFT: &str =
    "array a i64 9\nmain { parallel 2 {\nfor i in 0 .. 8 static 4 { a[i+1] = a[i] }\n} }\n";

const SHIFT_ON: &str =
    "array a i64 9\nmain { parallel 2 {\nfor i in 0 .. 8 static 4 nowait { a[i+1] = a[i] }\n} }\n";

const NOTHING: &str = "array a i64 4\nmain { parallel 2 {\nfor i in 0 .. 0 { a[i] = 1 }\n} }\n";

const NOTHING_ON: &str =
    "array a i64 4\nmain { parallel 2 {\nfor i in 0 .. 0 nowait { a[i] = 1 }\n} }\n";

// Lane 1 begins past the end of the array.
const BEYOND: &str =
    "array a i64 4\nmain { parallel 2 {\nfor i in 0 .. 8 static 4 { a[i] = 1 }\n} }\n";

// Each lane divides by an element, which is 0.
const DIVIDE: &str =
    "array a i64 4\nmain { parallel 2 {\nfor i in 0 .. 4 { a[i] = 1 / a[i] }\n} }\n";

const COUNTED: &str = "tasks 3\nrecords 22\nsum a 8\n";

const INDEX: &str = "d/index.swi";

const LANE_0: &str = "d/t-0.0.swl";

const COUNTING: Case<'static> = Case {
    held: &[("k", COUNT)],
    asked: &[
        (RUN, DONE, COUNTED),
        (&["check", "d", "2"], DONE, "races 0\n"),
        (
            SHOW,
            DONE,
            "log t.swl records 2\n1 region 2 line 3\n2 end line 8\nlog t-0.0.swl records 10\n1 read 8 site 1 line 5 addr 4096 value 0\n2 write 8 site 0 line 5 addr 4096 value 1\n3 read 8 site 1 line 5 addr 4112 value 0\n...",
        ),
    ],
    left: &[(INDEX, Some(152))],
    ..EMPTY
};

const SINGLE: &[usize] = &[8, 24, 24, 24, 24, 24, 24, 24, 24, 24, 24];

// Each lane counts with a buffer of this size.
macro_rules! counting {
    ($size:literal) => {
        Case {
            held: &[("k", COUNT)],
            asked: &[(&["run", "k", "d", $size], DONE, COUNTED)],
            left: &[(LANE_0, Some(248))],
            sealed: &["d/t.swl", LANE_0, "d/t-0.1.swl"],
            ..EMPTY
        }
    };
}

const UNCUT: Case<'static> = counting!("4096");

// With the size of the buffer and the pieces of a lane's log.
const CUT: &[(Case<'static>, &str, &[usize])] = &[
    (counting!("24"), "24", SINGLE),
    (counting!("47"), "47", SINGLE),
    (counting!("48"), "48", &[8, 48, 48, 48, 48, 48]),
    (counting!("100"), "100", &[8, 96, 96, 48]),
    (counting!("4194304"), "4194304", &[8, 240]),
];

// Whether lane 0 has the same log in both, in these pieces in the second.
fn is_cut(whole: &MemFolder, folder: &MemFolder, lengths: &[usize]) -> bool {
    folder.file(LANE_0) == whole.file(LANE_0) && folder.sealed_lengths(1) == Some(lengths)
}

/// The folder that a case leaves, which passes.
pub fn left_by<R: Abort + Threads + Wait + Sync + Copy + Send + 'static>(
    rt: &R,
    alloc: Global,
    case: &Case<'_>,
) -> MemFolder {
    let mut folder = folder_of(rt, alloc, case);
    passes(rt, alloc, &mut folder, case);
    folder
}

#[test]
fn pieces_fill_the_buffer(rt: HostRuntime) {
    let whole = left_by(&rt, rt.alloc(), &UNCUT);
    for (case, size, lengths) in CUT {
        let folder = left_by(&rt, rt.alloc(), case);
        assert!(rt; is_cut(&whole, &folder, lengths), "{size}");
    }
}

const SHARING: &[Case<'static>] = &[
    Case {
        held: &[("k", SHIFT)],
        asked: &[
            (RUN, DONE, "tasks 3\nrecords 22\nsum a 0\n"),
            (&["check", "d", "1"], RACES, ONE_RACE),
            (&["check", "d", "2"], RACES, ONE_RACE),
            (&["check", "d", "3"], RACES, ONE_RACE),
            (&["check", "d", "64"], RACES, ONE_RACE),
        ],
        ..EMPTY
    },
    Case {
        held: &[("k", SHIFT_ON)],
        asked: &[
            (RUN, DONE, "tasks 3\nrecords 20\nsum a 0\n"),
            (&["check", "d", "1"], RACES, ONE_RACE),
            (&["check", "d", "2"], RACES, ONE_RACE),
            (&["check", "d", "3"], RACES, ONE_RACE),
            (&["check", "d", "64"], RACES, ONE_RACE),
        ],
        ..EMPTY
    },
];

const ONE_RACE: &str = "race 3 3\nraces 1\n";

const IDLE: &[Case<'static>] = &[
    Case {
        held: &[("k", NOTHING)],
        asked: &[
            (RUN, DONE, "tasks 3\nrecords 6\nsum a 0\n"),
            (
                SHOW,
                DONE,
                "log t.swl records 2\n1 region 2 line 2\n2 end line 4\nlog t-0.0.swl records 2\n1 barrier line 3\n2 end line 4\nlog t-0.1.swl records 2\n1 barrier line 3\n2 end line 4\n",
            ),
        ],
        ..EMPTY
    },
    Case {
        held: &[("k", NOTHING_ON)],
        asked: &[
            (RUN, DONE, "tasks 3\nrecords 4\nsum a 0\n"),
            (
                SHOW,
                DONE,
                "log t.swl records 2\n1 region 2 line 2\n2 end line 4\nlog t-0.0.swl records 1\n1 end line 4\nlog t-0.1.swl records 1\n1 end line 4\n",
            ),
        ],
        ..EMPTY
    },
];

const SIGNED: Case<'static> = Case {
    held: &[(
        "k",
        "array a i8 2\narray b i64 3\nmain { parallel 1 {\nfor i in 0 .. 2 { a[i] = 200 b[i+1] = 9223372036854775807 }\n} }\n",
    )],
    asked: &[(
        RUN,
        DONE,
        "tasks 2\nrecords 8\nsum a -112\nsum b 18446744073709551614\n",
    )],
    ..EMPTY
};

const INDEXED: &[Case<'static>] = &[
    Case {
        held: &[("k", COUNT), ("again", SHIFT)],
        asked: &[
            (RUN, DONE, COUNTED),
            (&["run", "again", "d", "24"], INDEX_THERE, "index exists\n"),
        ],
        left: &[(INDEX, Some(152)), (LANE_0, Some(248))],
        sealed: &["d/t.swl", LANE_0, "d/t-0.1.swl"],
        ..EMPTY
    },
    // An empty file is an index, too.
    Case {
        held: &[("k", COUNT), (INDEX, "")],
        asked: &[(RUN, INDEX_THERE, "index exists\n")],
        left: &[(INDEX, Some(0)), ("d/t.swl", None), (LANE_0, None)],
        ..EMPTY
    },
];

// Lane 0 has four Writes and waits at its Barrier, or it stops after a Read.
const STOPPED: &[Case<'static>] = &[
    Case {
        held: &[("k", BEYOND)],
        asked: &[(RUN, KERNEL_STOPPED, "stopped t-0.1.swl line 3: Index\n")],
        left: &[(INDEX, None), (LANE_0, Some(128))],
        sealed: &["d/t.swl", LANE_0, "d/t-0.1.swl"],
        ..EMPTY
    },
    Case {
        held: &[("k", DIVIDE)],
        asked: &[(RUN, KERNEL_STOPPED, "stopped t-0.0.swl line 3: DivZero\n")],
        left: &[(INDEX, None), (LANE_0, Some(32))],
        sealed: &["d/t.swl", LANE_0, "d/t-0.1.swl"],
        ..EMPTY
    },
];

const OTHER_SIZES: Case<'static> = Case {
    held: &[("k", COUNT)],
    asked: &[
        (&["run", "k", "d", "23"], USAGE, USAGE_LINE),
        (&["run", "k", "d", "4194305"], USAGE, USAGE_LINE),
        (&["run", "k", "d", "024"], USAGE, USAGE_LINE),
    ],
    left: &[("d/t.swl", None)],
    ..EMPTY
};

const NO_KERNELS: &[Case<'static>] = &[
    Case {
        asked: &[(RUN, KERNEL_REFUSED, "no kernel\n")],
        ..EMPTY
    },
    Case {
        held: &[("k", "no kernel at all")],
        asked: &[(RUN, KERNEL_REFUSED, "kernel line 1: Syntax\n")],
        left: &[("d/t.swl", None)],
        ..EMPTY
    },
    Case {
        held: &[("k", "main {\n}\n$")],
        asked: &[(RUN, KERNEL_REFUSED, "kernel line 3: Token\n")],
        left: &[("d/t.swl", None)],
        ..EMPTY
    },
    Case {
        held: &[("k", "")],
        asked: &[(RUN, KERNEL_REFUSED, "kernel line 1: Syntax\n")],
        left: &[("d/t.swl", None)],
        ..EMPTY
    },
    // The kernel is refused before anybody asks for the index.
    Case {
        held: &[("k", "no kernel at all"), (INDEX, "")],
        asked: &[(RUN, KERNEL_REFUSED, "kernel line 1: Syntax\n")],
        left: &[(INDEX, Some(0)), ("d/t.swl", None)],
        ..EMPTY
    },
    Case {
        held: &[(INDEX, "")],
        asked: &[(RUN, KERNEL_REFUSED, "no kernel\n")],
        left: &[(INDEX, Some(0)), ("d/t.swl", None)],
        ..EMPTY
    },
    // A barrier in a loop of the lane.
    Case {
        held: &[(
            "k",
            "array a i64 8\nmain { parallel 2 {\nloop j in 0 .. tid {\nbarrier }\n} }\n",
        )],
        asked: &[(RUN, KERNEL_REFUSED, "kernel line 4: NotUniform\n")],
        ..EMPTY
    },
];

// A write that fails has put the first half of its text.
const NO_TEXT: &[Case<'static>] = &[
    Case {
        held: &[("k", "no kernel")],
        failing: &[1],
        asked: &[(RUN, WRITE_FAULT, "kernel line")],
        left: &[(INDEX, None)],
        ..EMPTY
    },
    Case {
        failing: &[1],
        asked: &[(RUN, WRITE_FAULT, "no ke")],
        left: &[(INDEX, None)],
        ..EMPTY
    },
];

// A sum that is nearly as deep as its text is long, in each of two lanes.
fn long_sum(rt: &impl Abort, alloc: Global) -> String {
    let before = "array a i64 2 main { parallel 2 { a[tid] = 1";
    let mut kernel = String::from_str(alloc, before).expect(rt, "memory");
    for _ in 0..32_000 {
        kernel.push_str("+1").expect(rt, "memory");
    }
    kernel.push_str(" } }").expect(rt, "memory");
    kernel
}

fn prints_long_sum<R: Abort + Threads + Wait + Sync + Copy + Send + 'static>(
    rt: &R,
    alloc: Global,
) -> bool {
    let mut folder = MemFolder::new(alloc).expect(rt, "memory");
    let kernel = long_sum(rt, alloc);
    folder.hold("k", kernel.as_bytes()).expect(rt, "memory");
    let (status, out) = printed(rt, alloc, &mut folder, RUN, &[]);
    status == DONE && out.written() == b"tasks 3\nrecords 6\nsum a 64002\n".as_slice()
}

// Much less than a call for each term would take. The first lane is on this stack, too.
const STACK: usize = 1 << 20;

#[test]
fn a_long_sum_is_run(rt: HostRuntime) -> Result<(), Fail> {
    let work = move || prints_long_sum(&rt, rt.alloc());
    let thread = Builder::new().stack_size(STACK).spawn(&rt, work)?;
    assert!(rt; thread.join(&rt));
    Ok(())
}

const RUNNING: &[Subject<'static>] = &[
    ("two lanes count", &[COUNTING]),
    ("a run races where lanes share an element", SHARING),
    ("an empty loop has a barrier alone", IDLE),
    ("sums are signed", &[SIGNED]),
    ("a stop names the least lane", STOPPED),
];

#[test]
fn small_kernels_are_run(rt: HostRuntime) {
    each_passes(&rt, rt.alloc(), RUNNING);
}

const REFUSING: &[Subject<'static>] = &[
    ("an index is kept", INDEXED),
    ("other sizes are a usage fault", &[OTHER_SIZES]),
    ("other kernels are refused", NO_KERNELS),
    ("the text of a refused kernel may fail", NO_TEXT),
];

#[test]
fn other_kernels_are_refused(rt: HostRuntime) {
    each_passes(&rt, rt.alloc(), REFUSING);
}
