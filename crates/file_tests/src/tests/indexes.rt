//! Indexes by hand with their answers, and each public call with ample memory.

ghost use Rattle.std.specs.Prelude.{IfOk};
ghost use Rattle.race_model.specs.IndexFault.{AreRows};

use crate::tests::support::folder_of;
use log_format::FORMAT;
use log_index::{
    IndexAnswer, IndexWhy, Row, read_index, read_index_as, read_index_old, write_index,
};
use memory_environment::{MemFolder, ShortReads};
use std::alloc::Global;
use std::process::Abort;

// A step: its region, lane and span.
type Step = (u32, u16, u16);

// A row by hand: its depth, a field that should be 0, its first two steps, and its records.
type Spelled = (u32, u32, Step, Step, u64);

const NO_STEP: Step = (0, 0, 0);

const ROOT: Spelled = (0, 0, NO_STEP, NO_STEP, 2);

// The lanes of a region of two, and the one lane of the next region.
const LANE_0: Spelled = (1, 0, (0, 0, 2), NO_STEP, 10);

const LANE_1: Spelled = (1, 0, (0, 1, 2), NO_STEP, 10);

const LONE: Spelled = (1, 0, (1, 0, 1), NO_STEP, 10);

fn push_step(rt: &impl Abort, bytes: &mut Vec<u8>, step: Step) {
    let (region, lane, span) = step;
    bytes
        .extend_from_slice(&region.to_be_bytes())
        .expect(rt, "memory");
    bytes
        .extend_from_slice(&lane.to_be_bytes())
        .expect(rt, "memory");
    bytes
        .extend_from_slice(&span.to_be_bytes())
        .expect(rt, "memory");
}

fn push_row(rt: &impl Abort, bytes: &mut Vec<u8>, row: Spelled) {
    let (depth, reserved, first, second, records) = row;
    bytes
        .extend_from_slice(&depth.to_be_bytes())
        .expect(rt, "memory");
    bytes
        .extend_from_slice(&reserved.to_be_bytes())
        .expect(rt, "memory");
    push_step(rt, bytes, first);
    push_step(rt, bytes, second);
    bytes.extend_from_slice(&[0; 16]).expect(rt, "memory");
    bytes
        .extend_from_slice(&records.to_be_bytes())
        .expect(rt, "memory");
}

// The bytes of this header and these rows.
fn spelled(rt: &impl Abort, alloc: Global, header: &[u8], rows: &[Spelled]) -> Vec<u8> {
    let mut bytes = Vec::from_slice(alloc, header).expect(rt, "memory");
    for row in rows {
        push_row(rt, &mut bytes, *row);
    }
    bytes
}

const HEADER: &[u8] = b"SWIDX002";

const INDEX: &str = "d/index.swi";

// What is answered of these bytes.
fn read(alloc: Global, bytes: &[u8]) -> Result<Vec<Row>, IndexAnswer>
    ensures { IfOk result (λ rows. AreRows rows.items) }
{
    let mut folder = folder_of(alloc, INDEX, bytes)?;
    read_index_as(alloc, FORMAT, &mut folder, "d")
}

// The refusal of these bytes where no read gives more than five of them.
fn refusal_of_short(alloc: Global, bytes: &[u8]) -> Option<IndexAnswer> {
    match folder_of(alloc, INDEX, bytes) {
        Ok(folder) => read_index_as(alloc, FORMAT, &mut ShortReads { folder }, "d").err(),
        Err(_) => Some(IndexAnswer::Memory),
    }
}

// The refusal of these bytes; `NoIndex` where another is answered in short reads.
fn refusal(alloc: Global, bytes: &[u8]) -> Option<IndexAnswer> {
    let whole = read(alloc, bytes).err();
    if refusal_of_short(alloc, bytes) == whole {
        whole
    } else {
        Some(IndexAnswer::NoIndex)
    }
}

fn bad(row: u32, why: IndexWhy) -> Option<IndexAnswer> {
    Some(IndexAnswer::Bad { row, why })
}

// Whether these are the rows, in order, each with the name of its log and its records.
fn are_rows(rt: &impl Abort, alloc: Global, rows: &[Row], due: &[(&str, u32)]) -> bool {
    for (row, (name, records)) in rows.iter().zip(due) {
        let spelled_name = row.path.bare_name(alloc).expect(rt, "memory");
        if spelled_name.as_str() != *name || row.records != *records {
            return false;
        }
    }
    rows.len() == due.len()
}

// Whether the rows of these bytes are these, and are written as the same bytes.
fn are_written_back(
    rt: &impl Abort,
    alloc: Global,
    bytes: &[u8],
    due: &[(&str, u32)],
) -> [bool; 2] {
    let rows = read(alloc, bytes).expect(rt, "rows");
    let mut folder = MemFolder::new(alloc).expect(rt, "memory");
    let is_written = write_index(alloc, &mut folder, "d", &rows).is_ok();
    let is_same = is_written && folder.file(INDEX) == Some(bytes);
    [are_rows(rt, alloc, &rows, due), is_same]
}

const READ: [Spelled; 5] = [ROOT, LANE_0, LANE_1, (2, 0, (0, 1, 2), (0, 0, 1), 10), LONE];

const NAMED: [(&str, u32); 5] = [
    ("t.swl", 2),
    ("t-0.0.swl", 10),
    ("t-0.1.swl", 10),
    ("t-0.1-0.0.swl", 10),
    ("t-1.0.swl", 10),
];

#[test]
fn an_index_is_read_and_written_back(rt: HostRuntime) {
    let alloc = rt.alloc();
    let bytes = spelled(&rt, alloc, HEADER, &READ);
    assert!(rt; refusal(alloc, &bytes).is_none());
    assert!(rt; are_written_back(&rt, alloc, &bytes, &NAMED) == [true, true]);
}

// Rows, of which the last breaks a rule.
const REFUSED: [(&[Spelled], IndexWhy); 18] = [
    (&[(0, 1, NO_STEP, NO_STEP, 2)], IndexWhy::Depth),
    (&[(1, 0, (0, 0, 65), NO_STEP, 10)], IndexWhy::Span),
    (&[(1, 0, (0, 2, 2), NO_STEP, 10)], IndexWhy::Lane),
    (&[LANE_0], IndexWhy::Order),
    (&[(0, 0, NO_STEP, NO_STEP, 0)], IndexWhy::Records),
    (&[ROOT, (5, 0, (0, 0, 2), NO_STEP, 10)], IndexWhy::Depth),
    (&[ROOT, (1, 0, (0, 0, 0), NO_STEP, 10)], IndexWhy::Span),
    (&[ROOT, (1, 0, (0, 3, 2), NO_STEP, 10)], IndexWhy::Lane),
    (&[ROOT, LANE_1], IndexWhy::Order),
    (&[ROOT, LONE], IndexWhy::Order),
    // Lane 1 before lane 0, and no records: the order is tried first.
    (&[ROOT, (1, 0, (0, 1, 2), NO_STEP, 0)], IndexWhy::Order),
    (&[ROOT, (1, 0, (0, 0, 2), NO_STEP, 0)], IndexWhy::Records),
    (
        &[ROOT, LANE_0, (1, 0, (0, 1, 2), (0, 0, 1), 10)],
        IndexWhy::Depth,
    ),
    (
        &[ROOT, LANE_0, (1, 0, (0, 1, 0), NO_STEP, 10)],
        IndexWhy::Span,
    ),
    (
        &[ROOT, LANE_0, (1, 0, (0, 2, 2), NO_STEP, 10)],
        IndexWhy::Lane,
    ),
    (
        &[ROOT, LANE_0, (1, 0, (0, 1, 2), NO_STEP, 4_194_305)],
        IndexWhy::Records,
    ),
    // A lane of a narrower region than the one before it, and a region left out.
    (
        &[ROOT, (1, 0, (0, 0, 3), NO_STEP, 10), LANE_1],
        IndexWhy::Order,
    ),
    (
        &[
            ROOT,
            (1, 0, (0, 0, 1), NO_STEP, 10),
            (1, 0, (2, 0, 1), NO_STEP, 10),
        ],
        IndexWhy::Order,
    ),
];

#[test]
fn each_rule_is_told_at_its_row(rt: HostRuntime) {
    for (rows, why) in REFUSED {
        let bytes = spelled(&rt, rt.alloc(), HEADER, rows);
        let refused = refusal(rt.alloc(), &bytes);
        assert!(rt; refused == bad(rows.len().min(9) as u32, why), "{rows:?}");
    }
}

// The refusal of this many bytes of the index.
fn refusal_of_prefix(alloc: Global, bytes: &[u8], count: usize) -> Option<IndexAnswer> {
    match bytes.get(..count) {
        Some(prefix) => refusal(alloc, prefix),
        None => Some(IndexAnswer::NoIndex),
    }
}

// A root alone is an index, of 56 bytes.
#[test]
fn an_index_cut_short_is_told(rt: HostRuntime) {
    let alloc = rt.alloc();
    let bytes = spelled(&rt, alloc, HEADER, &[ROOT, LANE_0, LANE_1]);
    assert!(rt; bytes.len() == 152);
    let table = [
        (151, bad(3, IndexWhy::Cut)),
        (104, bad(3, IndexWhy::Order)),
        (103, bad(2, IndexWhy::Cut)),
        (56, None),
        (9, bad(1, IndexWhy::Cut)),
        (8, bad(1, IndexWhy::Cut)),
        (7, bad(0, IndexWhy::Header)),
    ];
    for (count, answer) in table {
        let refused = refusal_of_prefix(alloc, &bytes, count);
        assert!(rt; refused == answer, "of {count} bytes");
    }
}

const OLD: Option<IndexAnswer> = Some(IndexAnswer::Bad {
    row: 0,
    why: IndexWhy::Old,
});

const OTHER: IndexAnswer = IndexAnswer::Bad {
    row: 0,
    why: IndexWhy::Header,
};

const NO_ROOT: IndexAnswer = IndexAnswer::Bad {
    row: 1,
    why: IndexWhy::Cut,
};

// The first byte behind the header is another one.
const CHANGED: Spelled = (1 << 24, 0, NO_STEP, NO_STEP, 2);

const DEEP: IndexAnswer = IndexAnswer::Bad {
    row: 1,
    why: IndexWhy::Depth,
};

// A header and rows, their refusal as an index of the second format, and what they are as one of the first: its number of rows.
const HEADERS: [(
    &[u8],
    &[Spelled],
    Option<IndexAnswer>,
    Result<usize, IndexAnswer>,
); 14] = [
    (b"SWIDX00", &[], Some(OTHER), Err(OTHER)),
    (b"SWIDX003", &[], Some(OTHER), Err(OTHER)),
    (b"SWIDX002", &[ROOT], None, Err(OTHER)),
    (b"SWIDX001", &[ROOT], OLD, Ok(1)),
    (b"SWIDX001", &[], OLD, Err(NO_ROOT)),
    (b"SWIDX001", &[CHANGED], OLD, Err(DEEP)),
    // Each of the eight bytes counts.
    (b"RWIDX001", &[ROOT], Some(OTHER), Err(OTHER)),
    (b"SVIDX001", &[ROOT], Some(OTHER), Err(OTHER)),
    (b"SWHDX001", &[ROOT], Some(OTHER), Err(OTHER)),
    (b"SWIEX001", &[ROOT], Some(OTHER), Err(OTHER)),
    (b"SWIDY001", &[ROOT], Some(OTHER), Err(OTHER)),
    (b"SWIDX101", &[ROOT], Some(OTHER), Err(OTHER)),
    (b"SWIDX011", &[ROOT], Some(OTHER), Err(OTHER)),
    (b"SWIDX000", &[ROOT], Some(OTHER), Err(OTHER)),
];

// What is answered of these bytes as an index of the first format: how many rows it has.
fn read_first(alloc: Global, bytes: &[u8]) -> Result<usize, IndexAnswer> {
    let mut folder = folder_of(alloc, INDEX, bytes)?;
    let rows = read_index_old(alloc, &mut folder, "d")?;
    Ok(rows.len())
}

#[test]
fn the_header_tells_the_format(rt: HostRuntime) {
    for (header, rows, second, first) in HEADERS {
        let bytes = spelled(&rt, rt.alloc(), header, rows);
        let answers = (refusal(rt.alloc(), &bytes), read_first(rt.alloc(), &bytes));
        assert!(rt; answers == (second, first), "of {header:?}");
    }
}

// The bytes of an index with 65,536 rows.
fn full_index(rt: &impl Abort, alloc: Global) -> Vec<u8> {
    let mut bytes = spelled(rt, alloc, HEADER, &[ROOT]);
    for region in 0..1024 {
        let span = if region < 1023 { 64 } else { 63 };
        for number in 0..span {
            push_row(rt, &mut bytes, (1, 0, (region, number, span), NO_STEP, 10));
        }
    }
    bytes
}

// How many rows these bytes have.
fn count(alloc: Global, bytes: &[u8]) -> Option<usize> {
    match read(alloc, bytes) {
        Ok(rows) => Some(rows.len()),
        Err(_) => None,
    }
}

#[test]
fn an_index_has_at_most_65536_rows(rt: HostRuntime) {
    let alloc = rt.alloc();
    let mut bytes = full_index(&rt, alloc);
    let most = (refusal(alloc, &bytes), count(alloc, &bytes));
    assert!(rt; most == (None, Some(65_536)), "{most:?}");
    bytes.push(0).expect(&rt, "memory");
    assert!(rt; refusal(alloc, &bytes) == bad(65_537, IndexWhy::TooMany));
}

// The refusal of a folder in which the name holds these bytes and this call fails.
fn refusal_failing(
    rt: &impl Abort,
    alloc: Global,
    name: &str,
    bytes: &[u8],
    call: u64,
) -> Option<IndexAnswer> {
    let mut folder = folder_of(alloc, name, bytes).expect(rt, "memory");
    folder.fail(&[call]).expect(rt, "memory");
    read_index(alloc, &mut folder, "d").err()
}

#[test]
fn each_read_that_fails_is_told(rt: HostRuntime) {
    let alloc = rt.alloc();
    let rows = [ROOT, (1, 0, (0, 0, 1), NO_STEP, 10), LONE];
    let bytes = spelled(&rt, alloc, HEADER, &rows);
    // The size, and reads of all bytes and of none.
    for call in 1..4 {
        let answer = refusal_failing(&rt, alloc, INDEX, &bytes, call);
        assert!(rt; answer == Some(IndexAnswer::ReadFault), "at call {call}");
    }
    assert!(rt; refusal_failing(&rt, alloc, INDEX, &bytes, 4) == None);
}

#[test]
fn a_folder_without_an_index_has_none(rt: HostRuntime) {
    let refused = refusal_failing(&rt, rt.alloc(), "d/index", HEADER, 0);
    assert!(rt; refused == Some(IndexAnswer::NoIndex));
}
