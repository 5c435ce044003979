//! Two records that race, and those that don't: confirmed without labels.

use super::walks::{Rec, Step, log_of, spell_row};
use explain::{RacePair, confirm, explain};
use log_walk::{RecordWhy, WalkFault};
use memory_environment::{MemFolder, ShortReads};
use std::alloc::Global;
use std::process::Abort;
use sw_base::{Folder, INDEX_HEADER};

// A task: the name of its log, the steps of its path, and its records.
type Task<'a> = (&'a str, &'a [Step], &'a [Rec]);

// A row and a record's number there.
type Name = (u32, u32);

// Two records, and the first byte at which they race.
type Case = (Name, Name, Option<u64>);

const BARRIER: Rec = (5, 0, 5, 0, 0);

const END: Rec = (8, 0, 8, 0, 0);

const FORK: Rec = (6, 0, 2, 0, 2);

macro_rules! load {
    ($byte:expr) => {
        (1, 8, 3, $byte, 0)
    };
}

macro_rules! store {
    ($byte:expr) => {
        (2, 8, 3, $byte, 0)
    };
}

macro_rules! update {
    ($byte:expr) => {
        (9, 8, 3, $byte, 1)
    };
}

macro_rules! lock {
    ($mutex:expr) => {
        (3, 0, 2, $mutex, 0)
    };
}

macro_rules! unlock {
    ($mutex:expr) => {
        (4, 0, 4, $mutex, 0)
    };
}

// A root with a region of two lanes.
macro_rules! two {
    ($first:expr, $second:expr) => {
        &[
            ("d/t.swl", &[], &[FORK, END]),
            ("d/t-0.0.swl", &[(0, 0, 2)], $first),
            ("d/t-0.1.swl", &[(0, 1, 2)], $second),
        ]
    };
}

// Each lane copies four elements to the next ones: the first lane writes what the second one reads first.
const SHIFTED: &[Task<'static>] = two!(
    &[
        load!(4096),
        store!(4104),
        load!(4104),
        store!(4112),
        load!(4112),
        store!(4120),
        load!(4120),
        store!(4128),
        BARRIER,
        END
    ],
    &[
        load!(4128),
        store!(4136),
        load!(4136),
        store!(4144),
        load!(4144),
        store!(4152),
        load!(4152),
        store!(4160),
        BARRIER,
        END
    ]
);

const SHIFTED_CASES: &[Case] = &[
    ((2, 8), (3, 1), Some(4128)),
    ((3, 1), (2, 8), Some(4128)),
    ((2, 6), (3, 1), None),
    ((2, 99), (3, 1), None),
    ((2, 11), (3, 1), None),
    ((2, 0), (3, 1), None),
    ((0, 8), (3, 1), None),
    ((4, 1), (2, 8), None),
    ((2, 8), (4, 1), None),
    ((2, 8), (2, 8), None),
    ((2, 9), (3, 1), None),
    ((1, 1), (3, 1), None),
    ((2, 7), (2, 8), None),
];

// Accesses that have their last or their first byte in common, or none.
const EDGES: &[Task<'static>] = two!(
    &[(2, 8, 5, 100, 0), (2, 4, 5, 104, 0), (1, 1, 5, 107, 0), END],
    &[(1, 1, 6, 107, 0), (2, 8, 6, 96, 0), (2, 1, 6, 108, 0), END]
);

const EDGE_CASES: &[Case] = &[
    ((2, 1), (3, 1), Some(107)),
    ((2, 1), (3, 2), Some(100)),
    ((2, 1), (3, 3), None),
    ((2, 2), (3, 2), None),
    ((2, 2), (3, 1), Some(107)),
    ((2, 3), (3, 1), None),
];

// The lanes under the first lane of a team, and the second one. Both lanes of the team pass a barrier, and so do those under the
// first.
const NESTED: &[Task<'static>] = &[
    ("d/t.swl", &[], &[FORK, END]),
    (
        "d/t-0.0.swl",
        &[(0, 0, 2)],
        &[FORK, BARRIER, store!(4104), END],
    ),
    (
        "d/t-0.0-0.0.swl",
        &[(0, 0, 2), (0, 0, 2)],
        &[BARRIER, store!(4096), END],
    ),
    (
        "d/t-0.0-0.1.swl",
        &[(0, 0, 2), (0, 1, 2)],
        &[store!(4096), BARRIER, store!(4104), END],
    ),
    (
        "d/t-0.1.swl",
        &[(0, 1, 2)],
        &[store!(4104), BARRIER, store!(4104), END],
    ),
];

const NESTED_CASES: &[Case] = &[
    ((4, 3), (5, 1), Some(4104)),
    ((4, 3), (5, 3), None),
    ((4, 1), (3, 2), None),
    ((4, 3), (2, 3), None),
    ((2, 3), (5, 3), Some(4104)),
    ((2, 3), (5, 1), None),
];

// Two regions of the root, one after the other.
const JOINED: &[Task<'static>] = &[
    ("d/t.swl", &[], &[FORK, FORK, END]),
    ("d/t-0.0.swl", &[(0, 0, 2)], &[store!(4096), END]),
    ("d/t-0.1.swl", &[(0, 1, 2)], &[store!(4096), END]),
    ("d/t-1.0.swl", &[(1, 0, 2)], &[store!(4096), END]),
    ("d/t-1.1.swl", &[(1, 1, 2)], &[store!(4104), END]),
];

const JOINED_CASES: &[Case] = &[
    ((2, 1), (3, 1), Some(4096)),
    ((3, 1), (4, 1), None),
    ((2, 1), (4, 1), None),
    ((4, 1), (5, 1), None),
];

// Accesses under no mutex, one or another; updates.
const HELD: &[Task<'static>] = two!(
    &[
        lock!(1),
        store!(4096),
        unlock!(1),
        store!(4096),
        lock!(2),
        update!(4096),
        unlock!(2),
        END
    ],
    &[
        lock!(1),
        lock!(2),
        store!(4096),
        unlock!(2),
        update!(4096),
        load!(4096),
        unlock!(1),
        END
    ]
);

const HELD_CASES: &[Case] = &[
    ((2, 2), (3, 3), None),
    ((2, 2), (3, 5), None),
    ((2, 4), (3, 3), Some(4096)),
    ((2, 4), (3, 6), Some(4096)),
    ((2, 6), (3, 3), None),
    ((2, 6), (3, 5), None),
    ((2, 6), (3, 6), Some(4096)),
];

const TABLE: &[(&[Task<'static>], &[Case])] = &[
    (SHIFTED, SHIFTED_CASES),
    (EDGES, EDGE_CASES),
    (NESTED, NESTED_CASES),
    (JOINED, JOINED_CASES),
    (HELD, HELD_CASES),
];

fn folder_of(rt: &impl Abort, alloc: Global, tasks: &[Task<'_>]) -> MemFolder {
    let mut folder = MemFolder::new(alloc).expect(rt, "memory");
    let mut index = Vec::from_slice(alloc, &INDEX_HEADER).expect(rt, "memory");
    for (name, steps, records) in tasks {
        let count = records.len().min(u32::MAX as usize) as u32;
        spell_row(rt, &mut index, &(*steps, count));
        folder
            .hold(name, &log_of(rt, alloc, records))
            .expect(rt, "memory");
    }
    folder.hold("d/index.swi", &index).expect(rt, "memory");
    folder
}

fn is_so<F: Folder>(alloc: Global, folder: &mut F, case: &Case) -> bool {
    let (one, other, due) = *case;
    match confirm(alloc, folder, "d", one.0, one.1, other.0, other.1) {
        Ok(byte) => byte == due,
        Err(_) => false,
    }
}

// How many of the cases of a folder are otherwise, read at once or by five bytes at a time.
fn others(alloc: Global, folder: MemFolder, cases: &[Case]) -> usize {
    let mut folder = folder;
    let mut others = 0_usize;
    for case in cases {
        others = others.saturating_add(usize::from(!is_so(alloc, &mut folder, case)));
    }
    let mut short = ShortReads { folder };
    for case in cases {
        others = others.saturating_add(usize::from(!is_so(alloc, &mut short, case)));
    }
    others
}

// The first folder in which a case is otherwise, by its number from 0.
fn first_other(rt: &impl Abort, alloc: Global) -> Option<usize> {
    for (number, (tasks, cases)) in TABLE.iter().enumerate() {
        if others(alloc, folder_of(rt, alloc, tasks), cases) > 0 {
            return Some(number);
        }
    }
    None
}

#[test]
fn records_that_race_are_confirmed(rt: HostRuntime) {
    let other = first_other(&rt, rt.alloc());
    assert!(rt; other.is_none(), "{other:?}");
}

// What the call answers that names two records that race.
#[derive(Clone, Copy, PartialEq, Eq)]
enum Told {
    Race,
    NoIndex,
    Uneven(u32),
    ReadFault,
    Other,
}

fn answer_of<F: Folder>(alloc: Global, folder: &mut F) -> Told {
    match confirm(alloc, folder, "d", 2, 8, 3, 1) {
        Ok(Some(_)) => Told::Race,
        Ok(None) => Told::Other,
        Err(WalkFault::NoIndex) => Told::NoIndex,
        Err(
            WalkFault::BadRecord {
                number,
                why: RecordWhy::BarrierCount,
                ..
            },
        ) => Told::Uneven(number),
        Err(WalkFault::ReadFault) => Told::ReadFault,
        Err(_) => Told::Other,
    }
}

// The lanes of this team pass different numbers of barriers.
const UNEVEN: &[Task<'static>] = two!(&[BARRIER, END], &[END]);

#[test]
fn a_bad_folder_is_refused(rt: HostRuntime) {
    let mut uneven = folder_of(&rt, rt.alloc(), UNEVEN);
    assert!(rt; answer_of(rt.alloc(), &mut uneven) == Told::Uneven(1));
    let mut empty = MemFolder::new(rt.alloc()).expect(&rt, "memory");
    assert!(rt; answer_of(rt.alloc(), &mut empty) == Told::NoIndex);
}

#[test]
fn each_failing_read_is_told(rt: HostRuntime) {
    // Six calls of the sweep, and one for each of the two logs that are read again.
    for call in 1..10 {
        let due = if call < 9 {
            Told::ReadFault
        } else {
            Told::Race
        };
        let mut folder = folder_of(&rt, rt.alloc(), SHIFTED);
        folder.fail(&[call]).expect(&rt, "memory");
        assert!(rt; answer_of(rt.alloc(), &mut folder) == due, "at call {call}");
    }
}

// More records than are read at once.
const MANY: usize = 3_000;

fn many_loads(rt: &impl Abort, alloc: Global) -> Vec<Rec> {
    let mut records: Vec<Rec> = Vec::new(alloc);
    records.resize(MANY, load!(8192)).expect(rt, "memory");
    records
        .extend_from_slice(&[store!(4096), END])
        .expect(rt, "memory");
    records
}

// What is answered where this call fails and the record that races is behind many others.
fn late_answer(rt: &impl Abort, alloc: Global, call: u64) -> Told {
    let first = many_loads(rt, alloc);
    let tasks: &[Task<'_>] = two!(first.as_slice(), &[store!(4096), END]);
    let mut folder = folder_of(rt, alloc, tasks);
    folder.fail(&[call]).expect(rt, "memory");
    match confirm(alloc, &mut folder, "d", 2, 3_001, 3, 1) {
        Ok(Some(_)) => Told::Race,
        Err(WalkFault::ReadFault) => Told::ReadFault,
        _ => Told::Other,
    }
}

#[test]
fn each_failing_read_of_a_long_log_is_told(rt: HostRuntime) {
    // The sweep opens each log once, and the long log is read again by two calls.
    for call in 1..11 {
        let due = if call < 10 {
            Told::ReadFault
        } else {
            Told::Race
        };
        assert!(rt; late_answer(&rt, rt.alloc(), call) == due, "at call {call}");
    }
}

// Two lines, and their least race.
type Least = (u32, u32, Option<RacePair>);

macro_rules! pair {
    ($first_row:expr, $first:expr, $second_row:expr, $second:expr, $byte:expr) => {
        Some(RacePair {
            first_row: $first_row,
            first: $first,
            second_row: $second_row,
            second: $second,
            byte: $byte,
        })
    };
}

// The lanes write two elements in two orders.
const CROSSED: &[Task<'static>] = two!(
    &[store!(4104), store!(4096), END],
    &[store!(4096), store!(4104), END]
);

const LEAST: &[(&[Task<'static>], &[Least])] = &[
    (
        SHIFTED,
        &[(3, 3, pair!(2, 8, 3, 1, 4128)), (3, 5, None), (5, 8, None)],
    ),
    (
        EDGES,
        &[
            (5, 6, pair!(2, 1, 3, 1, 107)),
            (5, 5, None),
            (6, 6, None),
            (5, 7, None),
        ],
    ),
    (NESTED, &[(3, 3, pair!(2, 3, 5, 3, 4104)), (2, 3, None)]),
    (JOINED, &[(3, 3, pair!(2, 1, 3, 1, 4096)), (2, 3, None)]),
    (HELD, &[(3, 3, pair!(2, 4, 3, 3, 4096)), (2, 2, None)]),
    (CROSSED, &[(3, 3, pair!(2, 1, 3, 2, 4104)), (3, 8, None)]),
];

fn is_confirmed<F: Folder>(alloc: Global, folder: &mut F, pair: &RacePair) -> bool {
    match confirm(
        alloc,
        folder,
        "d",
        pair.first_row,
        pair.first,
        pair.second_row,
        pair.second,
    ) {
        Ok(byte) => byte == Some(pair.byte),
        Err(_) => false,
    }
}

fn is_least<F: Folder>(alloc: Global, folder: &mut F, case: &Least) -> bool {
    let (low, high, due) = *case;
    match explain(alloc, folder, "d", low, high) {
        Ok(Some(pair)) => due == Some(pair) && is_confirmed(alloc, folder, &pair),
        Ok(None) => due.is_none(),
        Err(_) => false,
    }
}

// How many of the cases of a folder are otherwise, read at once or by five bytes at a time.
fn other_races(alloc: Global, folder: MemFolder, cases: &[Least]) -> usize {
    let mut folder = folder;
    let mut others = 0_usize;
    for case in cases {
        others = others.saturating_add(usize::from(!is_least(alloc, &mut folder, case)));
    }
    let mut short = ShortReads { folder };
    for case in cases {
        others = others.saturating_add(usize::from(!is_least(alloc, &mut short, case)));
    }
    others
}

// The first folder in which a race is otherwise, by its number from 0.
fn first_other_race(rt: &impl Abort, alloc: Global) -> Option<usize> {
    for (number, (tasks, cases)) in LEAST.iter().enumerate() {
        if other_races(alloc, folder_of(rt, alloc, tasks), cases) > 0 {
            return Some(number);
        }
    }
    None
}

#[test]
fn the_least_race_is_found_and_confirmed(rt: HostRuntime) {
    let other = first_other_race(&rt, rt.alloc());
    assert!(rt; other.is_none(), "{other:?}");
}
