//! The records behind a pair of lines, and whether two records race.

use crate::tests::fixtures::{Case, EMPTY, all_pass};
use command_answer::{DONE, FOLDER_REFUSED, RACES};
use made_folders::{BARRIER, END, ROOT, store};

// A read of eight bytes by line 3.
macro_rules! read {
    ($address:expr) => {
        (1, 8, 3, $address, 0)
    };
}

const WITNESSES: &[Case<'static>] = &[
    // Each element is shifted by one, by two lanes of four elements each.
    Case {
        tasks: &[
            (&[], ROOT),
            (
                &[(0, 0, 2)],
                &[
                    read!(4096),
                    store!(3, 4104),
                    read!(4104),
                    store!(3, 4112),
                    read!(4112),
                    store!(3, 4120),
                    read!(4120),
                    store!(3, 4128),
                    BARRIER,
                    END,
                ],
            ),
            (
                &[(0, 1, 2)],
                &[
                    read!(4128),
                    store!(3, 4136),
                    read!(4136),
                    store!(3, 4144),
                    BARRIER,
                    END,
                ],
            ),
        ],
        asked: &[
            (&["check", "d", "2"], RACES, "race 3 3\nraces 1\n"),
            (
                &["explain", "d", "3", "3"],
                RACES,
                "race row 2 t-0.0.swl record 8 row 3 t-0.1.swl record 1 byte 4128\n",
            ),
            (
                &["confirm", "d", "2", "8", "3", "1"],
                RACES,
                "race byte 4128\n",
            ),
            (
                &["confirm", "d", "3", "1", "2", "8"],
                RACES,
                "race byte 4128\n",
            ),
            (&["confirm", "d", "2", "6", "3", "1"], DONE, "no race\n"),
            (&["confirm", "d", "2", "99", "3", "1"], DONE, "no race\n"),
            (
                &["confirm", "d", "2", "8", "65536", "4194304"],
                DONE,
                "no race\n",
            ),
            (
                &["confirm", "d", "65536", "4194304", "1", "1"],
                DONE,
                "no race\n",
            ),
            (&["explain", "d", "1", "3"], DONE, "no race 1 3\n"),
            (
                &["explain", "d", "3", "4294967295"],
                DONE,
                "no race 3 4294967295\n",
            ),
        ],
        ..EMPTY
    },
    // The last byte of a store is read.
    Case {
        tasks: &[
            (&[], ROOT),
            (&[(0, 0, 2)], &[store!(5, 100), END]),
            (&[(0, 1, 2)], &[(1, 1, 6, 107, 0), END]),
        ],
        asked: &[
            (
                &["explain", "d", "5", "6"],
                RACES,
                "race row 2 t-0.0.swl record 1 row 3 t-0.1.swl record 1 byte 107\n",
            ),
            (&["explain", "d", "5", "5"], DONE, "no race 5 5\n"),
        ],
        ..EMPTY
    },
    // Lane 0 reads in its second loop what lane 1 writes in the first, after a barrier.
    Case {
        tasks: &[
            (&[], ROOT),
            (
                &[(0, 0, 2)],
                &[store!(4, 4120), BARRIER, (1, 8, 5, 4128, 0), BARRIER, END],
            ),
            (
                &[(0, 1, 2)],
                &[store!(4, 4128), BARRIER, (1, 8, 5, 4152, 0), BARRIER, END],
            ),
        ],
        asked: &[
            (&["check", "d", "1"], DONE, "races 0\n"),
            (&["explain", "d", "4", "5"], DONE, "no race 4 5\n"),
            (&["confirm", "d", "2", "3", "3", "1"], DONE, "no race\n"),
        ],
        ..EMPTY
    },
    // No folder.
    Case {
        asked: &[
            (&["explain", "d", "1", "2"], FOLDER_REFUSED, "no index\n"),
            (
                &["confirm", "d", "1", "1", "2", "1"],
                FOLDER_REFUSED,
                "no index\n",
            ),
        ],
        ..EMPTY
    },
];

#[test]
fn records_are_named_and_confirmed(rt: HostRuntime) {
    all_pass(&rt, rt.alloc(), WITNESSES);
}
