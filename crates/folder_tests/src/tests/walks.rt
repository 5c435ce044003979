//! Folders by hand with their first bad places, and each public call with ample memory.

use log_walk::{RecordWhy, Segment, Sweep, WalkFault, walk};
use memory_environment::{MemFolder, ShortReads};
use race_model::IndexWhy;
use span_label::Triple;
use std::alloc::Global;
use std::process::Abort;
use std::test::Fail;
use sw_base::{Folder, INDEX_HEADER, LOG_HEADER, Path};

// A record: kind, size, line, address and value.
pub type Rec = (u8, u8, u8, u64, u8);

// A step of a path: region, lane and span.
pub type Step = (u8, u8, u8);

// A row: the steps of its path, and how many records it tells.
pub type Row<'a> = (&'a [Step], u32);

// A folder: the rows of its index, its logs with their records, and files of other bytes.
#[derive(Clone, Copy, Drop)]
pub struct Files<'a> {
    pub rows: &'a [Row<'a>],
    pub logs: &'a [(&'a str, &'a [Rec])],
    pub others: &'a [(&'a str, &'a [u8])],
}

const LOCK: Rec = (3, 0, 2, 1, 0);

const UNLOCK: Rec = (4, 0, 4, 1, 0);

const BARRIER: Rec = (5, 0, 5, 0, 0);

const END: Rec = (8, 0, 8, 0, 0);

// The root's End.
const LAST: Rec = (8, 0, 9, 0, 0);

// A write of eight bytes at this address.
macro_rules! store {
    ($address:expr) => {
        (2, 8, 3, $address, 0)
    };
}

// An update of eight bytes at this address, which adds 1.
macro_rules! update {
    ($address:expr) => {
        (9, 8, 3, $address, 1)
    };
}

// The fork of so many lanes in this line.
macro_rules! region {
    ($line:expr, $span:expr) => {
        (6, 0, $line, 0, $span)
    };
}

const ROOT: &[Rec] = &[region!(1, 2), LAST];

const LANE_0: &[Rec] = &[LOCK, store!(4096), UNLOCK, BARRIER, END];

const LANE_1: &[Rec] = &[LOCK, store!(4104), UNLOCK, BARRIER, END];

// The rows of a root with a region of two lanes.
macro_rules! rows {
    ($root:expr, $first:expr, $second:expr) => {
        &[(&[], $root), (&[(0, 0, 2)], $first), (&[(0, 1, 2)], $second)]
    };
}

// Such a root, and the logs of the three.
macro_rules! three {
    ($rows:expr, $root:expr, $first:expr, $second:expr) => {
        Files {
            rows: $rows,
            logs: &[
                ("d/t.swl", $root),
                ("d/t-0.0.swl", $first),
                ("d/t-0.1.swl", $second),
            ],
            others: &[],
        }
    };
}

const GOOD: Files<'static> = three!(rows!(2, 5, 5), ROOT, LANE_0, LANE_1);

// What a walk answered; a task is told by 0 for the root, and by its lane plus 1.
#[derive(Clone, Copy, PartialEq, Eq)]
pub enum Told {
    Good,
    NoIndex,
    Row(u32, IndexWhy),
    Missing(u32),
    Record(u32, u32, RecordWhy),
    TooMany(u32, u32),
    ReadFault,
    Memory,
}

fn task_of(path: &Path) -> u32 {
    match path.steps().first() {
        None => 0,
        Some(step) => step.lane as u32 + 1,
    }
}

pub fn fault_told(fault: &WalkFault) -> Told {
    match fault {
        WalkFault::NoIndex => Told::NoIndex,
        WalkFault::BadIndex { row, why } => Told::Row(*row, *why),
        WalkFault::MissingLog { path } => Told::Missing(task_of(path)),
        WalkFault::BadRecord { path, number, why } => Told::Record(task_of(path), *number, *why),
        WalkFault::TooManySegments { path, number } => Told::TooMany(task_of(path), *number),
        WalkFault::ReadFault => Told::ReadFault,
        WalkFault::Memory => Told::Memory,
    }
}

fn walked<F: Folder>(alloc: Global, folder: &mut F, dir: &str) -> Told {
    match walk(alloc, folder, dir) {
        Ok(_found) => Told::Good,
        Err(fault) => fault_told(&fault),
    }
}

pub fn log_of(rt: &impl Abort, alloc: Global, records: &[Rec]) -> Vec<u8> {
    let mut log = Vec::from_slice(alloc, &LOG_HEADER).expect(rt, "memory");
    for (kind, size, line, address, value) in records {
        log.extend_from_slice(&[*kind, *size, 0, 0, 0, 0, 0, *line])
            .expect(rt, "memory");
        log.extend_from_slice(&address.to_be_bytes())
            .expect(rt, "memory");
        log.extend_from_slice(&[0, 0, 0, 0, 0, 0, 0, *value])
            .expect(rt, "memory");
    }
    log
}

// The four steps of a row, of which those past its depth are zeros.
pub fn spell_row(rt: &impl Abort, index: &mut Vec<u8>, row: &Row<'_>) {
    let (steps, records) = row;
    index
        .extend_from_slice(&[0, 0, 0, steps.len().min(4) as u8, 0, 0, 0, 0])
        .expect(rt, "memory");
    for at in 0..4 {
        let (region, lane, span) = *steps.get(at).unwrap_or(&(0, 0, 0));
        index
            .extend_from_slice(&[0, 0, 0, region, 0, lane, 0, span])
            .expect(rt, "memory");
    }
    index
        .extend_from_slice(&u64::from(*records).to_be_bytes())
        .expect(rt, "memory");
}

pub fn index_of(rt: &impl Abort, alloc: Global, rows: &[Row<'_>]) -> Vec<u8> {
    let mut index = Vec::from_slice(alloc, &INDEX_HEADER).expect(rt, "memory");
    for row in rows {
        spell_row(rt, &mut index, row);
    }
    index
}

pub fn folder_of(rt: &impl Abort, alloc: Global, files: &Files<'_>) -> MemFolder {
    let mut folder = MemFolder::new(alloc).expect(rt, "memory");
    folder
        .hold("d/index.swi", &index_of(rt, alloc, files.rows))
        .expect(rt, "memory");
    for (name, records) in files.logs {
        folder
            .hold(name, &log_of(rt, alloc, records))
            .expect(rt, "memory");
    }
    for (name, bytes) in files.others {
        folder.hold(name, bytes).expect(rt, "memory");
    }
    folder
}

// Whether this is told of a folder, the same where no read gives more than five bytes.
fn is_told(alloc: Global, folder: MemFolder, due: Told) -> bool {
    let mut folder = folder;
    walked(alloc, &mut folder, "d") == due && walked(alloc, &mut ShortReads { folder }, "d") == due
}

// Fails with the number, from 0, of the first of these folders of which something else is told.
fn are_told(rt: &impl Abort, alloc: Global, table: &[(Files<'_>, Told)]) -> Result<(), Fail> {
    for (number, (files, due)) in table.iter().enumerate() {
        if !is_told(alloc, folder_of(rt, alloc, files), *due) {
            return Err(Fail::from(number));
        }
    }
    Ok(())
}

fn segments_of(rt: &impl Abort, alloc: Global, files: &Files<'_>) -> Vec<Segment> {
    let mut folder = folder_of(rt, alloc, files);
    walk(alloc, &mut folder, "d").ok().expect(rt, "refused")
}

fn has_one_run_under_mutex_1(segment: &Segment) -> bool {
    match segment.runs.as_slice() {
        [run] => run.held.ids() == [1].as_slice(),
        _ => false,
    }
}

// Whether there are two segments, the second in lane 1 from its Lock to its Unlock.
fn end_in_lane_1(rt: &impl Abort, alloc: Global, found: &[Segment]) -> bool {
    let [_, second] = found else {
        return false;
    };
    let name = second.path.bare_name(alloc).expect(rt, "memory");
    name.as_str() == "t-0.1.swl"
        && (second.first, second.last) == (1, 3)
        && has_one_run_under_mutex_1(second)
}

#[test]
fn a_good_folder_is_read_and_walked(rt: HostRuntime) {
    let found = segments_of(&rt, rt.alloc(), &GOOD);
    assert!(rt; end_in_lane_1(&rt, rt.alloc(), &found));
}

// Whether the segment has one run, which writes, and is atomic or not.
fn writes(segment: &Segment, atomic: bool) -> bool {
    match segment.runs.as_slice() {
        [run] => run.write && run.atomic == atomic,
        _ => false,
    }
}

#[test]
fn an_update_is_a_write_that_is_atomic(rt: HostRuntime) -> Result<(), Fail> {
    let updates: &[Rec] = &[LOCK, update!(4096), UNLOCK, BARRIER, END];
    let files = three!(rows!(2, 5, 5), ROOT, updates, LANE_1);
    let found = segments_of(&rt, rt.alloc(), &files);
    let [first, second] = found.as_slice() else {
        return Err(Fail::new("two segments"));
    };
    assert!(rt; writes(first, true) && writes(second, false));
    Ok(())
}

fn triple(offset: u64, span: u16, barrier: u32) -> Triple {
    Triple {
        offset,
        span,
        barrier,
    }
}

// A region in lane 0 of another one, both of two lanes.
const NESTED: Files<'static> = Files {
    rows: &[
        (&[], 2),
        (&[(0, 0, 2)], 3),
        (&[(0, 0, 2), (0, 0, 2)], 2),
        (&[(0, 0, 2), (0, 1, 2)], 2),
        (&[(0, 1, 2)], 3),
    ],
    logs: &[
        ("d/t.swl", ROOT),
        ("d/t-0.0.swl", &[region!(3, 2), BARRIER, LAST]),
        ("d/t-0.0-0.0.swl", &[store!(4096), LAST]),
        ("d/t-0.0-0.1.swl", &[store!(4104), LAST]),
        ("d/t-0.1.swl", &[BARRIER, store!(4104), LAST]),
    ],
    others: &[],
};

// Whether there are three segments, and the last two are of these tasks.
fn end_in_two_lanes(found: &[Segment]) -> bool {
    let [_, second, third] = found else {
        return false;
    };
    let inner = [triple(0, 1, 0), triple(0, 2, 0), triple(1, 2, 0)];
    let outer = [triple(0, 1, 0), triple(1, 2, 1)];
    second.label.triples() == inner.as_slice()
        && third.label.triples() == outer.as_slice()
        && (third.first, third.last) == (2, 3)
}

#[test]
fn segments_have_the_labels_of_their_tasks(rt: HostRuntime) {
    let found = segments_of(&rt, rt.alloc(), &NESTED);
    assert!(rt; end_in_two_lanes(&found));
}

// Lane 0 stores before and after a draw, and lane 1 does nothing.
const DRAWN: Files<'static> = three!(
    rows!(2, 4, 1),
    ROOT,
    &[store!(4096), (7, 0, 3, 0, 1), store!(4104), END],
    &[END]
);

// A segment goes from barrier to barrier, here from the log's first record to its End.
#[test]
fn a_chunk_parts_no_segment(rt: HostRuntime) -> Result<(), Fail> {
    let found = segments_of(&rt, rt.alloc(), &DRAWN);
    let [only] = found.as_slice() else {
        return Err(Fail::new("one segment"));
    };
    assert!(rt; (only.first, only.last) == (1, 4));
    Ok(())
}

// The records of lane 1, and what is told where its row has as many as it says.
macro_rules! lane_1 {
    ($records:expr, $row:expr, $number:expr, $why:ident) => {
        (
            three!(rows!(2, 5, $row), ROOT, LANE_0, $records),
            Told::Record(2, $number, RecordWhy::$why),
        )
    };
}

const BROKEN: &[(Files<'static>, Told)] = &[
    lane_1!(
        &[LOCK, (0, 8, 3, 4104, 0), UNLOCK, BARRIER, END],
        5,
        2,
        Kind
    ),
    lane_1!(
        &[LOCK, (2, 3, 3, 4104, 0), UNLOCK, BARRIER, END],
        5,
        2,
        Size
    ),
    lane_1!(
        &[LOCK, (2, 8, 0, 4104, 0), UNLOCK, BARRIER, END],
        5,
        2,
        LineZero
    ),
    lane_1!(
        &[LOCK, store!(281_474_976_710_649), UNLOCK, BARRIER, END],
        5,
        2,
        Address
    ),
    lane_1!(
        &[LOCK, update!(281_474_976_710_649), UNLOCK, BARRIER, END],
        5,
        2,
        Address
    ),
    lane_1!(
        &[LOCK, store!(4104), UNLOCK, (5, 0, 5, 0, 1), END],
        5,
        4,
        Reserved
    ),
    lane_1!(&[LOCK, store!(4104), UNLOCK, END, END], 5, 4, EndEarly),
    lane_1!(
        &[LOCK, store!(4104), UNLOCK, BARRIER, BARRIER],
        5,
        5,
        EndMissing
    ),
    lane_1!(&[LOCK, store!(4104), LOCK, BARRIER, END], 5, 3, LockTwice),
    lane_1!(
        &[LOCK, store!(4104), (4, 0, 4, 2, 0), BARRIER, END],
        5,
        3,
        UnlockOther
    ),
    lane_1!(
        &[LOCK, store!(4104), BARRIER, BARRIER, END],
        5,
        3,
        BarrierLocked
    ),
    lane_1!(
        &[LOCK, store!(4104), region!(5, 1), BARRIER, END],
        5,
        3,
        RegionLocked
    ),
    lane_1!(
        &[LOCK, store!(4104), UNLOCK, region!(5, 1), END],
        5,
        4,
        RegionRows
    ),
    lane_1!(
        &[LOCK, store!(4104), UNLOCK, store!(4104), END],
        5,
        5,
        BarrierCount
    ),
];

#[test]
fn one_record_that_breaks_a_rule_is_told(rt: HostRuntime) -> Result<(), Fail> {
    are_told(&rt, rt.alloc(), BROKEN)
}

// The lock of this mutex.
macro_rules! lock {
    ($mutex:expr) => {
        (3, 0, 2, $mutex, 0)
    };
}

const COUNTED: &[(Files<'static>, Told)] = &[
    lane_1!(
        &[LOCK, store!(4104), store!(4104), store!(4104), END],
        5,
        5,
        LockOpen
    ),
    lane_1!(
        &[
            lock!(1),
            lock!(2),
            lock!(3),
            lock!(4),
            lock!(5),
            lock!(6),
            lock!(7),
            lock!(8),
            lock!(9),
            END
        ],
        10,
        9,
        LocksDeep
    ),
    lane_1!(LANE_1, 6, 5, EndEarly),
    lane_1!(LANE_1, 4, 4, EndMissing),
];

#[test]
fn open_and_deep_locks_and_wrong_counts_are_told(rt: HostRuntime) -> Result<(), Fail> {
    are_told(&rt, rt.alloc(), COUNTED)
}

const TWICE_BROKEN: &[(Files<'static>, Told)] = &[
    lane_1!(&[LOCK, END, UNLOCK, BARRIER, END], 5, 2, EndEarly),
    lane_1!(
        &[LOCK, store!(4104), store!(4104), store!(4104), LOCK],
        5,
        5,
        EndMissing
    ),
    lane_1!(
        &[LOCK, store!(4104), store!(4104), store!(4104), BARRIER],
        5,
        5,
        EndMissing
    ),
    lane_1!(
        &[
            lock!(1),
            lock!(2),
            lock!(3),
            lock!(4),
            lock!(5),
            lock!(6),
            lock!(7),
            lock!(8),
            LOCK,
            END
        ],
        10,
        9,
        LockTwice
    ),
    (
        three!(rows!(2, 5, 5), &[LOCK, END], LANE_0, LANE_1),
        Told::Record(0, 2, RecordWhy::LockOpen),
    ),
    (
        three!(rows!(3, 5, 5), &[LOCK, BARRIER, END], LANE_0, LANE_1),
        Told::Record(0, 2, RecordWhy::RootBarrier),
    ),
];

#[test]
fn of_two_broken_rules_the_first_is_told(rt: HostRuntime) -> Result<(), Fail> {
    are_told(&rt, rt.alloc(), TWICE_BROKEN)
}

// A row below lane 1, which forks no region, and barriers that lane 0 passes alone.
const TOO_FEW_BARRIERS: &[(Files<'static>, Told)] = &[
    (
        Files {
            rows: &[
                (&[], 2),
                (&[(0, 0, 2)], 5),
                (&[(0, 1, 2)], 1),
                (&[(0, 1, 2), (0, 0, 1)], 1),
            ],
            logs: &[
                ("d/t.swl", ROOT),
                ("d/t-0.0.swl", LANE_0),
                ("d/t-0.1.swl", &[LAST]),
            ],
            others: &[],
        },
        Told::Record(2, 1, RecordWhy::RegionRows),
    ),
    (
        three!(rows!(2, 2, 1), ROOT, &[BARRIER, LAST], &[LAST]),
        Told::Record(2, 1, RecordWhy::BarrierCount),
    ),
];

#[test]
fn a_region_that_is_not_forked_comes_before_too_few_barriers(rt: HostRuntime) -> Result<(), Fail> {
    are_told(&rt, rt.alloc(), TOO_FEW_BARRIERS)
}

// The root's records, and what is told of it.
macro_rules! root {
    ($records:expr, $number:expr, $why:ident) => {
        (
            three!(rows!(2, 5, 5), $records, LANE_0, LANE_1),
            Told::Record(0, $number, RecordWhy::$why),
        )
    };
}

const IN_ORDER: &[(Files<'static>, Told)] = &[
    root!(&[region!(1, 65), LAST], 1, Span),
    root!(&[(5, 0, 1, 0, 0), LAST], 1, RootBarrier),
    root!(&[store!(4096), LAST], 2, RegionRows),
    // The index lists this region with two lanes.
    root!(&[region!(1, 3), LAST], 1, RegionRows),
    // Lane 0's last record and lane 1's first one have no kind.
    (
        three!(
            rows!(2, 5, 5),
            ROOT,
            &[LOCK, store!(4096), UNLOCK, BARRIER, (0, 0, 8, 0, 0)],
            &[(0, 0, 2, 1, 0), store!(4096), UNLOCK, BARRIER, LAST]
        ),
        Told::Record(1, 5, RecordWhy::Kind),
    ),
    // Lane 0 has no log, and lane 1's is no log.
    (
        Files {
            rows: rows!(2, 5, 5),
            logs: &[("d/t.swl", ROOT)],
            others: &[("d/t-0.1.swl", b"SWLOG001")],
        },
        Told::Missing(1),
    ),
];

#[test]
fn the_first_log_in_row_order_is_told(rt: HostRuntime) -> Result<(), Fail> {
    are_told(&rt, rt.alloc(), IN_ORDER)
}

// A lane of a team of none, and a root whose first record has no kind.
const BAD_INDEX: Files<'static> = three!(
    &[(&[], 2), (&[(0, 0, 2)], 5), (&[(0, 1, 0)], 5)],
    &[(0, 0, 1, 0, 2), LAST],
    LANE_0,
    LANE_1
);

// An index of the first format, and a root whose first record has no kind.
const OLD_INDEX: Files<'static> = Files {
    rows: rows!(2, 5, 5),
    logs: &[("d/t.swl", &[(0, 0, 1, 0, 2), LAST])],
    others: &[("d/index.swi", b"SWIDX001")],
};

const INDEXES: &[(Files<'static>, Told)] = &[
    (BAD_INDEX, Told::Row(3, IndexWhy::Span)),
    (OLD_INDEX, Told::Row(0, IndexWhy::Old)),
];

#[test]
fn the_index_comes_before_the_logs(rt: HostRuntime) -> Result<(), Fail> {
    // The folder `e` isn't there, beside the bad one.
    let mut folder = folder_of(&rt, rt.alloc(), &BAD_INDEX);
    assert!(rt; walked(rt.alloc(), &mut folder, "e") == Told::NoIndex);
    are_told(&rt, rt.alloc(), INDEXES)
}

// A row may claim any number of records: what is read is what is there.
const CLAIMED: &[(Files<'static>, Told)] = &[lane_1!(
    &[LOCK, store!(4104), UNLOCK, BARRIER],
    4_194_304,
    5,
    Cut
)];

#[test]
fn a_row_that_claims_too_many_records_is_told(rt: HostRuntime) -> Result<(), Fail> {
    are_told(&rt, rt.alloc(), CLAIMED)
}

// Lane 1's log up to a byte, these bytes, and the log from another byte on.
type Splice<'a> = (usize, &'a [u8], usize);

fn spliced(rt: &impl Abort, alloc: Global, splice: &Splice<'_>) -> Vec<u8> {
    let (from, bytes, to) = splice;
    let whole = log_of(rt, alloc, LANE_1);
    let before = whole.get(..*from).expect(rt, "bytes before");
    let behind = whole.get(*to..).expect(rt, "bytes behind");
    [before, bytes, behind].concat(alloc).expect(rt, "memory")
}

// Whether this is told of the good folder with such a log.
fn is_told_of(rt: &impl Abort, alloc: Global, splice: &Splice<'_>, due: Told) -> bool {
    let bytes = spliced(rt, alloc, splice);
    let mut folder = folder_of(rt, alloc, &GOOD);
    folder.hold("d/t-0.1.swl", &bytes).expect(rt, "memory");
    is_told(alloc, folder, due)
}

const SPLICED: &[(Splice<'static>, Told)] = &[
    ((79, &[], 128), Told::Record(2, 3, RecordWhy::Cut)),
    ((0, &[], 128), Told::Record(2, 0, RecordWhy::Header)),
    ((0, b"SWLOG001", 128), Told::Record(2, 0, RecordWhy::Header)),
    ((128, &[0], 128), Told::Record(2, 6, RecordWhy::Extra)),
    ((0, &[], 0), Told::Good),
    ((0, &[], 1), Told::Record(2, 0, RecordWhy::Header)),
    ((8 + 24, &[0], 8 + 25), Told::Record(2, 2, RecordWhy::Kind)),
];

#[test]
fn bytes_that_change_or_are_left_out_or_added_are_told(rt: HostRuntime) {
    for (number, (splice, due)) in SPLICED.iter().enumerate() {
        assert!(rt;
            is_told_of(&rt, rt.alloc(), splice, *due),
            "splice {number}"
        );
    }
}

// What is told of a lane with so many segments, of writes and of updates in turn.
fn told_of_segments(rt: &impl Abort, alloc: Global, count: u32, row: u32) -> Told {
    let mut records = Vec::new(alloc);
    for number in 0..count {
        let access: Rec = if number % 2 == 0 {
            store!(4096)
        } else {
            update!(4096)
        };
        records
            .extend_from_slice(&[access, BARRIER])
            .expect(rt, "memory");
    }
    records.push(END).expect(rt, "memory");
    let files = Files {
        rows: &[(&[], 2), (&[(0, 0, 1)], row)],
        logs: &[
            ("d/t.swl", &[region!(1, 1), LAST]),
            ("d/t-0.0.swl", &records),
        ],
        others: &[],
    };
    let mut folder = folder_of(rt, alloc, &files);
    walked(alloc, &mut folder, "d")
}

#[test]
fn the_65537th_segment_is_one_too_many(rt: HostRuntime) {
    let answer = told_of_segments(&rt, rt.alloc(), 65_537, 131_075);
    assert!(rt; answer == Told::TooMany(1, 131_073));
}

// The row ends the log at the access that opens the 65,537th segment, which is no End.
#[test]
fn a_segment_too_many_comes_after_the_rules_of_its_record(rt: HostRuntime) {
    let answer = told_of_segments(&rt, rt.alloc(), 65_537, 131_073);
    assert!(rt; answer == Told::Record(1, 131_073, RecordWhy::EndMissing));
}

// The folder of these files, where this call on it fails.
fn failing_at(rt: &impl Abort, alloc: Global, files: &Files<'_>, call: u64) -> MemFolder {
    let mut folder = folder_of(rt, alloc, files);
    folder.fail(&[call]).expect(rt, "memory");
    folder
}

#[test]
fn each_read_that_fails_is_told(rt: HostRuntime) {
    // The size of the index and its two reads, and each of three logs is opened.
    for call in 1..8 {
        let due = if call < 7 {
            Told::ReadFault
        } else {
            Told::Good
        };
        let mut folder = failing_at(&rt, rt.alloc(), &GOOD, call);
        assert!(rt;
            walked(rt.alloc(), &mut folder, "d") == due,
            "at call {call}"
        );
    }
}

#[test]
fn each_read_of_a_log_that_fails_is_told(rt: HostRuntime) {
    // Its bytes, and its end.
    for (name, _) in GOOD.logs {
        for read in 1..4 {
            let due = if read < 3 {
                Told::ReadFault
            } else {
                Told::Good
            };
            let mut folder = folder_of(&rt, rt.alloc(), &GOOD);
            folder.fail_file(name, &[read]).expect(&rt, "memory");
            assert!(rt;
                walked(rt.alloc(), &mut folder, "d") == due,
                "{name} at read {read}"
            );
        }
    }
}

// A root that forks two regions of one lane each, each with an access.
const TWO_REGIONS: Files<'static> = Files {
    rows: &[(&[], 3), (&[(0, 0, 1)], 2), (&[(1, 0, 1)], 2)],
    logs: &[
        ("d/t.swl", &[region!(1, 1), region!(1, 1), LAST]),
        ("d/t-0.0.swl", &[store!(4096), LAST]),
        ("d/t-1.0.swl", &[store!(4104), LAST]),
    ],
    others: &[],
};

// How many regions a sweep gives, up to two.
fn regions_given<F: Folder>(alloc: Global, folder: &mut F, dir: &str) -> u32 {
    let Ok((mut sweep, _)) = Sweep::open(alloc, folder, dir) else {
        return 0;
    };
    let Ok(Some(_)) = sweep.next(alloc, folder) else {
        return 0;
    };
    let Ok(Some(_)) = sweep.next(alloc, folder) else {
        return 1;
    };
    2
}

#[test]
fn a_region_is_given_before_the_next_is_read(rt: HostRuntime) {
    // The size of the index and its two reads, and each of three logs is opened.
    for call in 1..8 {
        let given = if call <= 5 {
            0
        } else if call <= 6 {
            1
        } else {
            2
        };
        let mut folder = failing_at(&rt, rt.alloc(), &TWO_REGIONS, call);
        assert!(rt;
            regions_given(rt.alloc(), &mut folder, "d") == given,
            "at call {call}"
        );
    }
}
