//! Folders by hand, and generated ones: what `check` and `show` print of them; and the usage line.

use crate::tests::fixtures::{
    Case, EMPTY, Question, SHOW, Subject, USAGE_LINE, all_pass, answers, each_passes,
};
use command_answer::{DONE, FOLDER_REFUSED, KERNEL_REFUSED, RACES, USAGE};
use made_folders::{BARRIER, END, ROOT, Rec, Step, lock, region, store, unlock};
use memory_environment::MemFolder;
use std::alloc::Global;
use std::marker::Send;
use std::process::Abort;
use std::sync::Wait;
use std::thread::Threads;

const NO_RACE: &str = "races 0\n";

const RACE_5_6: &str = "race 5 6\nraces 1\n";

const SHARING: &[Case<'static>] = &[
    Case {
        tasks: &[
            (&[], ROOT),
            (&[(0, 0, 2)], &[store!(5, 100), END]),
            (&[(0, 1, 2)], &[(1, 1, 6, 107, 0), END]),
        ],
        asked: &[
            (&["check", "d", "1"], RACES, RACE_5_6),
            (&["check", "d", "64"], RACES, RACE_5_6),
        ],
        ..EMPTY
    },
    Case {
        tasks: &[
            (&[], ROOT),
            (&[(0, 0, 2)], &[store!(5, 100), END]),
            (&[(0, 1, 2)], &[(1, 1, 6, 108, 0), END]),
        ],
        asked: &[
            (&["check", "d", "1"], DONE, NO_RACE),
            (&["check", "d", "64"], DONE, NO_RACE),
        ],
        ..EMPTY
    },
];

const LOCKED: &[Rec] = &[lock!(5, 1), store!(5, 4096), unlock!(5, 1), END];

const READ: Rec = (1, 8, 4, 4096, 0);

const GUARDED: &[Rec] = &[lock!(4, 1), READ, store!(4, 4096), unlock!(4, 1), END];

const UNGUARDED: &[Rec] = &[READ, store!(4, 4096), END];

// The tasks of a root whose eight lanes have these records.
macro_rules! eight_lanes {
    ($records:expr) => {
        &[
            (&[], &[region!(3, 8), END]),
            (&[(0, 0, 8)], $records),
            (&[(0, 1, 8)], $records),
            (&[(0, 2, 8)], $records),
            (&[(0, 3, 8)], $records),
            (&[(0, 4, 8)], $records),
            (&[(0, 5, 8)], $records),
            (&[(0, 6, 8)], $records),
            (&[(0, 7, 8)], $records),
        ]
    };
}

// A chunk is drawn under the mutex, which stays held.
const DRAWN: &[Rec] = &[
    lock!(5, 1),
    (7, 0, 5, 0, 3),
    store!(5, 4096),
    unlock!(5, 1),
    END,
];

const EXCLUDED: &[Case<'static>] = &[
    Case {
        tasks: &[
            (&[], ROOT),
            (&[(0, 0, 2)], LOCKED),
            (
                &[(0, 1, 2)],
                &[lock!(6, 1), store!(6, 4096), unlock!(6, 1), END],
            ),
        ],
        asked: &[
            (&["check", "d", "1"], DONE, NO_RACE),
            (&["check", "d", "2"], DONE, NO_RACE),
            (&["check", "d", "3"], DONE, NO_RACE),
            (&["check", "d", "64"], DONE, NO_RACE),
        ],
        ..EMPTY
    },
    Case {
        tasks: &[
            (&[], ROOT),
            (&[(0, 0, 2)], LOCKED),
            (
                &[(0, 1, 2)],
                &[lock!(6, 2), store!(6, 4096), unlock!(6, 2), END],
            ),
        ],
        asked: &[
            (&["check", "d", "1"], RACES, RACE_5_6),
            (&["check", "d", "2"], RACES, RACE_5_6),
            (&["check", "d", "3"], RACES, RACE_5_6),
            (&["check", "d", "64"], RACES, RACE_5_6),
        ],
        ..EMPTY
    },
    Case {
        tasks: &[(&[], ROOT), (&[(0, 0, 2)], DRAWN), (&[(0, 1, 2)], DRAWN)],
        asked: &[(&["check", "d", "2"], DONE, NO_RACE)],
        ..EMPTY
    },
    Case {
        tasks: eight_lanes!(GUARDED),
        asked: &[(&["check", "d", "8"], DONE, NO_RACE)],
        ..EMPTY
    },
    Case {
        tasks: eight_lanes!(UNGUARDED),
        asked: &[(&["check", "d", "8"], RACES, "race 4 4\nraces 1\n")],
        ..EMPTY
    },
];

const INNER_0: &[Rec] = &[store!(4, 4096), END];

const INNER_1: &[Rec] = &[store!(4, 4104), END];

const STEP: Step = (0, 0, 1);

const FORK: &[Rec] = &[region!(3, 1), BARRIER, END];

const PARTED: &[Case<'static>] = &[
    // A nested region and a store, and then a barrier between them.
    Case {
        tasks: &[
            (&[], ROOT),
            (&[(0, 0, 2)], &[region!(3, 2), END]),
            (&[(0, 0, 2), (0, 0, 2)], INNER_0),
            (&[(0, 0, 2), (0, 1, 2)], INNER_1),
            (&[(0, 1, 2)], &[store!(5, 4104), END]),
        ],
        asked: &[(&["check", "d", "1"], RACES, "race 4 5\nraces 1\n")],
        ..EMPTY
    },
    Case {
        tasks: &[
            (&[], ROOT),
            (&[(0, 0, 2)], &[region!(3, 2), BARRIER, END]),
            (&[(0, 0, 2), (0, 0, 2)], INNER_0),
            (&[(0, 0, 2), (0, 1, 2)], INNER_1),
            (&[(0, 1, 2)], &[BARRIER, store!(5, 4104), END]),
        ],
        asked: &[(&["check", "d", "1"], DONE, NO_RACE)],
        ..EMPTY
    },
    // Lane 0 reads in its second loop what lane 1 writes in the first, with no barrier between them.
    Case {
        tasks: &[
            (&[], ROOT),
            (
                &[(0, 0, 2)],
                &[store!(4, 4120), (1, 8, 5, 4128, 0), BARRIER, END],
            ),
            (
                &[(0, 1, 2)],
                &[store!(4, 4128), (1, 8, 5, 4152, 0), BARRIER, END],
            ),
        ],
        asked: &[(&["check", "d", "1"], RACES, "race 4 5\nraces 1\n")],
        ..EMPTY
    },
    // Four regions deep.
    Case {
        tasks: &[
            (&[], &[region!(1, 1), END]),
            (&[STEP], FORK),
            (&[STEP, STEP], FORK),
            (&[STEP, STEP, STEP], &[region!(4, 2), BARRIER, END]),
            (
                &[STEP, STEP, STEP, (0, 0, 2)],
                &[store!(5, 4096), BARRIER, store!(6, 4104), END],
            ),
            (
                &[STEP, STEP, STEP, (0, 1, 2)],
                &[store!(7, 4104), BARRIER, store!(8, 4104), END],
            ),
        ],
        asked: &[(&["check", "d", "3"], RACES, "race 6 8\nraces 1\n")],
        ..EMPTY
    },
];

const IN_TURN: Case<'static> = Case {
    tasks: &[
        (&[], &[region!(3, 2), region!(4, 2), END]),
        (&[(0, 0, 2)], &[store!(3, 4096), END]),
        (&[(0, 1, 2)], &[store!(3, 4104), END]),
        (&[(1, 0, 2)], &[store!(4, 4104), END]),
        (&[(1, 1, 2)], &[store!(4, 4096), END]),
    ],
    asked: &[(&["check", "d", "1"], DONE, NO_RACE)],
    ..EMPTY
};

const UNEQUAL: &str = "bad log t-0.1.swl record 1: BarrierCount\n";

const OPEN: &str = "bad log t-1.0.swl record 2: LockOpen\n";

const REFUSED: &[Case<'static>] = &[
    Case {
        tasks: &[
            (&[], ROOT),
            (&[(0, 0, 2)], &[BARRIER, END]),
            (&[(0, 1, 2)], &[END]),
        ],
        asked: &[
            (&["check", "d", "2"], FOLDER_REFUSED, UNEQUAL),
            (SHOW, FOLDER_REFUSED, UNEQUAL),
        ],
        ..EMPTY
    },
    // The lanes of the first region race, and the log of the second one is bad: no race is told.
    Case {
        tasks: &[
            (&[], &[region!(1, 2), region!(2, 1), END]),
            (&[(0, 0, 2)], &[store!(5, 4096), END]),
            (&[(0, 1, 2)], &[store!(6, 4096), END]),
            (&[(1, 0, 1)], &[lock!(7, 1), END]),
        ],
        asked: &[
            (&["check", "d", "1"], FOLDER_REFUSED, OPEN),
            (&["check", "d", "2"], FOLDER_REFUSED, OPEN),
        ],
        ..EMPTY
    },
    Case {
        asked: &[(&["check", "d", "2"], FOLDER_REFUSED, "no index\n")],
        ..EMPTY
    },
    Case {
        held: &[("d/index.swi", "SWIDX002")],
        asked: &[(
            &["check", "d", "2"],
            FOLDER_REFUSED,
            "bad index row 1: Cut\n",
        )],
        ..EMPTY
    },
    // A team of 65 lanes.
    Case {
        tasks: &[(&[], &[region!(1, 65), END]), (&[(0, 0, 64)], &[END])],
        asked: &[(
            &["check", "d", "1"],
            FOLDER_REFUSED,
            "bad index row 3: Order\n",
        )],
        ..EMPTY
    },
    Case {
        tasks: &[(&[], &[region!(1, 65), END]), (&[(0, 0, 65)], &[END])],
        asked: &[(
            &["check", "d", "1"],
            FOLDER_REFUSED,
            "bad index row 2: Span\n",
        )],
        ..EMPTY
    },
    // A row without its neighbour before it, and one of no record.
    Case {
        tasks: &[(&[], ROOT), (&[(0, 1, 2)], &[END])],
        asked: &[(
            &["check", "d", "2"],
            FOLDER_REFUSED,
            "bad index row 2: Order\n",
        )],
        ..EMPTY
    },
    Case {
        tasks: &[(&[], &[])],
        asked: &[(
            &["check", "d", "2"],
            FOLDER_REFUSED,
            "bad index row 1: Records\n",
        )],
        ..EMPTY
    },
];

const SHOWN: &[Case<'static>] = &[
    Case {
        tasks: &[(
            &[],
            &[
                (2, 8, 1, 4096, 1),
                (2, 1, 1, 4096, 0xffff_ffff_ffff_ffc8),
                (8, 0, 1, 0, 0),
            ],
        )],
        asked: &[(
            SHOW,
            DONE,
            "log t.swl records 3\n1 write 8 site 0 line 1 addr 4096 value 1\n2 write 1 site 0 line 1 addr 4096 value -56\n3 end line 1\n",
        )],
        ..EMPTY
    },
    Case {
        tasks: &[(&[], &[(1, 8, 5, 4096, 0), (2, 8, 5, 4096, 1), END])],
        asked: &[(
            SHOW,
            DONE,
            "log t.swl records 3\n1 read 8 site 1 line 5 addr 4096 value 0\n2 write 8 site 0 line 5 addr 4096 value 1\n3 end line 9\n",
        )],
        ..EMPTY
    },
    Case {
        tasks: &[(&[], &[lock!(5, 2), unlock!(6, 2), (7, 0, 3, 1, 3), END])],
        asked: &[(
            SHOW,
            DONE,
            "log t.swl records 4\n1 lock 2 line 5\n2 unlock 2 line 6\n3 chunk 1 of 3 line 3\n4 end line 9\n",
        )],
        ..EMPTY
    },
];

const OTHER_WORDS: Case<'static> = Case {
    asked: &[
        (&[], USAGE, USAGE_LINE),
        (&["--help"], USAGE, USAGE_LINE),
        (&["check", "d", "0"], USAGE, USAGE_LINE),
        (&["check", "d", "01"], USAGE, USAGE_LINE),
        (&["check", "d", "65"], USAGE, USAGE_LINE),
        (&["check", "d", "+1"], USAGE, USAGE_LINE),
        (&["check", "d", "1x"], USAGE, USAGE_LINE),
        // 2^64 + 1.
        (&["check", "d", "18446744073709551617"], USAGE, USAGE_LINE),
        (&["check", "", "1"], USAGE, USAGE_LINE),
        (&["check", "d"], USAGE, USAGE_LINE),
        (&["check", "d", "1", "1"], USAGE, USAGE_LINE),
        (&["show"], USAGE, USAGE_LINE),
        (&["show", ""], USAGE, USAGE_LINE),
        (&["show", "d", "e"], USAGE, USAGE_LINE),
        (&["run", "k", "d"], USAGE, USAGE_LINE),
        (&["run", "k", "d", "24", "1"], USAGE, USAGE_LINE),
        (&["run", "", "d", "24"], USAGE, USAGE_LINE),
        (&["run", "k", "", "24"], USAGE, USAGE_LINE),
        (&["gen", "0", "1"], USAGE, USAGE_LINE),
        (&["gen", "100001", "1"], USAGE, USAGE_LINE),
        (&["gen", "04", "2"], USAGE, USAGE_LINE),
        (&["gen", "4", "0"], USAGE, USAGE_LINE),
        (&["gen", "4", "65"], USAGE, USAGE_LINE),
        (&["gen", "4"], USAGE, USAGE_LINE),
        (&["gen", "4", "2", "1"], USAGE, USAGE_LINE),
        (&["upgrade", "d"], USAGE, USAGE_LINE),
        (&["upgrade", "d", ""], USAGE, USAGE_LINE),
        (&["upgrade", "", "e"], USAGE, USAGE_LINE),
        (&["upgrade", "d", "e", "f"], USAGE, USAGE_LINE),
        (&["explain", "d", "0", "1"], USAGE, USAGE_LINE),
        (&["explain", "d", "2", "1"], USAGE, USAGE_LINE),
        (&["explain", "d", "1", "4294967296"], USAGE, USAGE_LINE),
        (&["explain", "", "1", "1"], USAGE, USAGE_LINE),
        (&["explain", "d", "1"], USAGE, USAGE_LINE),
        (&["explain", "d", "1", "1", "1"], USAGE, USAGE_LINE),
        (&["confirm", "d", "0", "1", "1", "1"], USAGE, USAGE_LINE),
        (&["confirm", "d", "1", "0", "1", "1"], USAGE, USAGE_LINE),
        (&["confirm", "d", "1", "1", "0", "1"], USAGE, USAGE_LINE),
        (&["confirm", "d", "1", "1", "1", "0"], USAGE, USAGE_LINE),
        (&["confirm", "d", "65537", "1", "1", "1"], USAGE, USAGE_LINE),
        (&["confirm", "d", "1", "1", "65537", "1"], USAGE, USAGE_LINE),
        (
            &["confirm", "d", "1", "4194305", "1", "1"],
            USAGE,
            USAGE_LINE,
        ),
        (
            &["confirm", "d", "1", "1", "1", "4194305"],
            USAGE,
            USAGE_LINE,
        ),
        (&["confirm", "", "1", "1", "1", "1"], USAGE, USAGE_LINE),
        (&["confirm", "d", "1", "1", "1"], USAGE, USAGE_LINE),
        (
            &["confirm", "d", "1", "1", "1", "1", "1"],
            USAGE,
            USAGE_LINE,
        ),
    ],
    ..EMPTY
};

// What is answered where there is no file, with a name in the place of NAME.
const NAMED: &[Question<'static>] = &[
    (&["check", "NAME", "1"], FOLDER_REFUSED, "no index\n"),
    (&["show", "NAME"], FOLDER_REFUSED, "no index\n"),
    (&["upgrade", "NAME", "e"], FOLDER_REFUSED, "no index\n"),
    (&["upgrade", "d", "NAME"], FOLDER_REFUSED, "no index\n"),
    (&["explain", "NAME", "1", "1"], FOLDER_REFUSED, "no index\n"),
    (
        &["confirm", "NAME", "1", "1", "1", "1"],
        FOLDER_REFUSED,
        "no index\n",
    ),
    (&["run", "NAME", "d", "24"], KERNEL_REFUSED, "no kernel\n"),
    (&["run", "k", "NAME", "24"], KERNEL_REFUSED, "no kernel\n"),
    (&["live", "NAME", "d", "24"], KERNEL_REFUSED, "no kernel\n"),
    (&["live", "k", "NAME", "24"], KERNEL_REFUSED, "no kernel\n"),
    (&["replay", "NAME", "d"], KERNEL_REFUSED, "no kernel\n"),
    (&["replay", "k", "NAME"], KERNEL_REFUSED, "no kernel\n"),
    (&["certify", "NAME"], KERNEL_REFUSED, "no kernel\n"),
];

// The words, with this name in the place of NAME.
fn named<'a>(rt: &impl Abort, alloc: Global, given: &[&'a str], name: &'a str) -> Vec<&'a str> {
    let mut words = Vec::new(alloc);
    for word in given {
        words
            .push(if *word == "NAME" { name } else { *word })
            .expect(rt, "memory");
    }
    words
}

// Fails with what is answered otherwise where the name has so many bytes: each row's own answer, or the usage line.
fn answers_named<R: Abort + Threads + Wait + Sync + Copy + Send + 'static>(
    rt: &R,
    alloc: Global,
    count: usize,
    is_name: bool,
) {
    let name = "d".repeat(alloc, count).expect(rt, "memory");
    let mut folder = MemFolder::new(alloc).expect(rt, "memory");
    for (given, status, text) in NAMED {
        let words = named(rt, alloc, given, &name);
        let (status, text) = if is_name {
            (*status, *text)
        } else {
            (USAGE, USAGE_LINE)
        };
        answers(rt, alloc, &mut folder, &words, status, text);
    }
}

#[test]
fn a_name_has_at_most_1024_bytes(rt: HostRuntime) {
    answers_named(&rt, rt.alloc(), 1024, true);
    answers_named(&rt, rt.alloc(), 1025, false);
}

const GENERATED: &[Case<'static>] = &[Case {
    asked: &[
        (
            &["gen", "1", "1"],
            RACES,
            "accesses 17\nsegments 16\nrace 30 40\nraces 1\n",
        ),
        (
            &["gen", "4", "2"],
            RACES,
            "accesses 65\nsegments 16\nrace 30 40\nraces 1\n",
        ),
        (
            &["gen", "100000", "8"],
            RACES,
            "accesses 1600001\nsegments 16\nrace 30 40\nraces 1\n",
        ),
    ],
    left: &[("g/index.swi", None)],
    ..EMPTY
}];

#[test]
fn a_generated_run_has_one_race(rt: HostRuntime) {
    all_pass(&rt, rt.alloc(), GENERATED);
}

const ORDERED: &[Subject<'static>] = &[
    ("lanes that share a byte race", SHARING),
    ("only a common mutex excludes", EXCLUDED),
    ("barriers order at every depth", PARTED),
    ("regions in turn are ordered", &[IN_TURN]),
];

#[test]
fn lanes_that_share_a_byte_race_unless_ordered_or_excluded(rt: HostRuntime) {
    each_passes(&rt, rt.alloc(), ORDERED);
}

#[test]
fn a_bad_folder_is_refused_where_it_is_bad_first(rt: HostRuntime) {
    all_pass(&rt, rt.alloc(), REFUSED);
}

#[test]
fn records_are_shown(rt: HostRuntime) {
    all_pass(&rt, rt.alloc(), SHOWN);
}

#[test]
fn other_arguments_are_a_usage_fault(rt: HostRuntime) {
    all_pass(&rt, rt.alloc(), &[OTHER_WORDS]);
}
