//! Folders of the first format: what `upgrade` prints of them, and what is then in the new folder.

use crate::tests::fixtures::{Case, EMPTY, Subject, each_passes};
use command_answer::{DONE, FOLDER_REFUSED, INDEX_THERE, RACES};
use made_folders::{BARRIER, END, ROOT, store};

// A lane that adds 1 to each of four elements, from this one on, of every second.
macro_rules! adding {
    ($first:expr) => {
        &[
            (1, 8, 5, $first, 0),
            (2, 8, 5, $first, 1),
            (1, 8, 5, $first + 16, 0),
            (2, 8, 5, $first + 16, 1),
            (1, 8, 5, $first + 32, 0),
            (2, 8, 5, $first + 32, 1),
            (1, 8, 5, $first + 48, 0),
            (2, 8, 5, $first + 48, 1),
            (5, 0, 6, 0, 0),
            (8, 0, 7, 0, 0),
        ]
    };
}

/// The run of a kernel that adds 1 to each of eight elements, as it was written by the first format.
pub const COUNTED: Case<'static> = Case {
    old_tasks: &[
        (&[], &[(6, 0, 3, 0, 2), (8, 0, 8, 0, 0)]),
        (&[(0, 0, 2)], adding!(4096)),
        (&[(0, 1, 2)], adding!(4104)),
    ],
    ..EMPTY
};

// What `show` printed of it before the format changed.
const LISTING: &str = "log t.swl records 2
1 region 2 line 3
2 end line 8
log t-0.0.swl records 10
1 read 8 site 1 line 5 addr 4096 value 0
2 write 8 site 0 line 5 addr 4096 value 1
3 read 8 site 1 line 5 addr 4112 value 0
4 write 8 site 0 line 5 addr 4112 value 1
5 read 8 site 1 line 5 addr 4128 value 0
6 write 8 site 0 line 5 addr 4128 value 1
7 read 8 site 1 line 5 addr 4144 value 0
8 write 8 site 0 line 5 addr 4144 value 1
9 barrier line 6
10 end line 7
log t-0.1.swl records 10
1 read 8 site 1 line 5 addr 4104 value 0
2 write 8 site 0 line 5 addr 4104 value 1
3 read 8 site 1 line 5 addr 4120 value 0
4 write 8 site 0 line 5 addr 4120 value 1
5 read 8 site 1 line 5 addr 4136 value 0
6 write 8 site 0 line 5 addr 4136 value 1
7 read 8 site 1 line 5 addr 4152 value 0
8 write 8 site 0 line 5 addr 4152 value 1
9 barrier line 6
10 end line 7
";

/// What is told of a folder of the first format.
pub const OLD: &str = "bad index row 0: Old\n";

const BROUGHT: &[Case<'static>] = &[
    Case {
        asked: &[
            (&["check", "d", "2"], FOLDER_REFUSED, OLD),
            (&["show", "d"], FOLDER_REFUSED, OLD),
            (&["upgrade", "d", "e"], DONE, "upgraded 3\n"),
            (&["check", "e", "2"], DONE, "races 0\n"),
            (&["show", "e"], DONE, LISTING),
            (&["upgrade", "d", "e"], INDEX_THERE, "index exists\n"),
            (
                &["upgrade", "e", "f"],
                FOLDER_REFUSED,
                "bad index row 0: Header\n",
            ),
            (&["check", "d", "2"], FOLDER_REFUSED, OLD),
        ],
        left: &[
            ("d/index.swi", Some(152)),
            ("d/t.swl", Some(56)),
            ("e/index.swi", Some(152)),
            ("e/t.swl", Some(56)),
            ("e/t-0.0.swl", Some(248)),
            ("e/t-0.1.swl", Some(248)),
            ("f/t.swl", None),
            ("f/index.swi", None),
        ],
        ..COUNTED
    },
    // A folder isn't brought over to itself: it has an index. The new one may lie below it, and one that is left over without an index
    // may be there.
    Case {
        held: &[("n/t.swl", "left over"), ("d/e/t.swl", "left over")],
        asked: &[
            (&["upgrade", "d", "d"], INDEX_THERE, "index exists\n"),
            (&["upgrade", "d", "d/e"], DONE, "upgraded 3\n"),
            (&["check", "d/e", "2"], DONE, "races 0\n"),
            (&["upgrade", "d", "n"], DONE, "upgraded 3\n"),
            (&["check", "n", "2"], DONE, "races 0\n"),
            (
                &["upgrade", "d/e", "m"],
                FOLDER_REFUSED,
                "bad index row 0: Header\n",
            ),
        ],
        left: &[("d/t.swl", Some(56)), ("d/index.swi", Some(152))],
        ..COUNTED
    },
    // Two lanes that race do so afterwards.
    Case {
        old_tasks: &[
            (&[], ROOT),
            (&[(0, 0, 2)], &[store!(5, 100), END]),
            (&[(0, 1, 2)], &[(1, 1, 6, 107, 0), END]),
        ],
        asked: &[
            (&["upgrade", "d", "e"], DONE, "upgraded 3\n"),
            (&["check", "e", "2"], RACES, "race 5 6\nraces 1\n"),
        ],
        ..EMPTY
    },
];

const UPGRADE: &[&str] = &["upgrade", "d", "e"];

// A folder that isn't brought over, and nothing is left.
macro_rules! refused {
    ($tasks:expr, $held:expr, $text:expr) => {
        Case {
            old_tasks: $tasks,
            held: $held,
            asked: &[(UPGRADE, FOLDER_REFUSED, $text)],
            left: &[("e/t.swl", None), ("e/index.swi", None)],
            ..EMPTY
        }
    };
}

const REFUSED: &[Case<'static>] = &[
    refused!(&[], &[], "no index\n"),
    refused!(
        &[],
        &[("d/index.swi", "SWIDX000")],
        "bad index row 0: Header\n"
    ),
    refused!(
        &[],
        &[("d/index.swi", "SWIDX001")],
        "bad index row 1: Cut\n"
    ),
    // The first format has no updates, and its logs have its header.
    refused!(
        &[(&[], &[(9, 8, 1, 4096, 1), END])],
        &[],
        "bad log t.swl record 1: Kind\n"
    ),
    refused!(
        &[(&[], &[END])],
        &[("d/t.swl", "SWLOG002")],
        "bad log t.swl record 0: Header\n"
    ),
    refused!(
        &[
            (&[], ROOT),
            (&[(0, 0, 2)], &[BARRIER, END]),
            (&[(0, 1, 2)], &[END])
        ],
        &[],
        "bad log t-0.1.swl record 1: BarrierCount\n"
    ),
    // An index is told of before a bad folder.
    Case {
        held: &[("e/index.swi", "")],
        asked: &[(UPGRADE, INDEX_THERE, "index exists\n")],
        ..EMPTY
    },
];

const SUBJECTS: &[Subject<'static>] = &[
    ("a folder of the first format is brought over", BROUGHT),
    (
        "a folder that is bad by the first format is not brought over",
        REFUSED,
    ),
];

#[test]
fn a_folder_of_the_first_format_is_brought_over_or_refused(rt: HostRuntime) {
    each_passes(&rt, rt.alloc(), SUBJECTS);
}
