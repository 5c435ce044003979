//! Listings of logs in memory, whole, and broken off by each fault.

use log_format::{Kind, Record, encode};
use log_index::Row;
use log_listing::{Unlisted, list};
use memory_environment::{MemFolder, MemOut, ShortReads};
use std::alloc::Global;
use std::process::Abort;
use sw_base::{Folder, LOG_HEADER, Path};

// A region of two lanes, then the end.
const ROOT: [Record; 2] = [
    Record {
        kind: Kind::Region,
        size: 0,
        site: 0,
        line: 1,
        addr: 0,
        value: 2,
    },
    END,
];

const LANE: [Record; 7] = [
    Record {
        kind: Kind::Lock,
        size: 0,
        site: 0,
        line: 2,
        addr: 3,
        value: 0,
    },
    Record {
        kind: Kind::Write,
        size: 1,
        site: 4,
        line: 3,
        addr: 4096,
        value: 0xffff_ffff_ffff_ffc8,
    },
    Record {
        kind: Kind::Update,
        size: 4,
        site: 5,
        line: 3,
        addr: 4100,
        value: u64::MAX,
    },
    Record {
        kind: Kind::Unlock,
        size: 0,
        site: 0,
        line: 4,
        addr: 3,
        value: 0,
    },
    Record {
        kind: Kind::Chunk,
        size: 0,
        site: 0,
        line: 5,
        addr: 1,
        value: 2,
    },
    Record {
        kind: Kind::Barrier,
        size: 0,
        site: 0,
        line: 6,
        addr: 0,
        value: 0,
    },
    END,
];

const END: Record = Record {
    kind: Kind::End,
    size: 0,
    site: 0,
    line: 9,
    addr: 0,
    value: 0,
};

const TEXT: &[u8] = b"log t.swl records 2\n1 region 2 line 1\n2 end line 9\n\
log t-0.1.swl records 7\n1 lock 3 line 2\n2 write 1 site 4 line 3 addr 4096 value -56\n\
3 update 4 site 5 line 3 addr 4100 value -1\n\
4 unlock 3 line 4\n5 chunk 1 of 2 line 5\n6 barrier line 6\n7 end line 9\n";

fn log_of(rt: &impl Abort, alloc: Global, records: &[Record]) -> Vec<u8> {
    let mut bytes = LOG_HEADER.to_vec(alloc).expect(rt, "memory");
    for record in records {
        bytes
            .extend_from_slice(&encode(record))
            .expect(rt, "memory");
    }
    bytes
}

// A folder with the logs of a root and a lane.
fn folder_with(rt: &impl Abort, alloc: Global, lane: &[Record]) -> MemFolder {
    let mut folder = MemFolder::new(alloc).expect(rt, "memory");
    folder
        .hold("d/t.swl", &log_of(rt, alloc, &ROOT))
        .expect(rt, "memory");
    folder
        .hold("d/t-0.1.swl", &log_of(rt, alloc, lane))
        .expect(rt, "memory");
    folder
}

fn rows() -> [Row; 2] {
    [
        Row {
            path: Path::root(),
            records: 2,
        },
        Row {
            path: Path::root().child(0, 1, 2),
            records: 7,
        },
    ]
}

// Whether the folder's two logs are listed so.
fn is_listed<F: Folder>(rt: &impl Abort, alloc: Global, folder: &mut F, text: &[u8]) -> bool {
    let rows = rows();
    let mut out = MemOut::new(alloc).expect(rt, "memory");
    let answer = list(alloc, folder, &mut out, "d", &rows);
    answer.is_ok() && out.written() == text
}

#[test]
fn each_record_of_each_log_is_a_line(rt: HostRuntime) {
    let alloc = rt.alloc();
    let mut folder = folder_with(&rt, alloc, &LANE);
    assert!(rt; is_listed(&rt, alloc, &mut folder, TEXT));
}

#[test]
fn each_record_is_a_line_where_reads_are_short(rt: HostRuntime) {
    let alloc = rt.alloc();
    let folder = folder_with(&rt, alloc, &LANE);
    assert!(rt; is_listed(&rt, alloc, &mut ShortReads { folder }, TEXT));
}

// What is listed where the reads or the writes of these numbers fail.
fn listed(
    rt: &impl Abort,
    alloc: Global,
    reads: &[u64],
    writes: &[u64],
) -> (Result<(), Unlisted>, usize) {
    let rows = rows();
    let mut out = MemOut::new(alloc).expect(rt, "memory");
    out.fail(writes).expect(rt, "memory");
    let mut folder = folder_with(rt, alloc, &LANE);
    folder.fail(reads).expect(rt, "memory");
    let answer = list(alloc, &mut folder, &mut out, "d", &rows);
    (answer, out.written().len())
}

// Reads and writes that fail, what is answered then, and how many bytes were written.
const FAULTS: [(&[u64], &[u64], Result<(), Unlisted>, usize); 5] = [
    (&[1], &[], Err(Unlisted::ReadFault), 20),
    (&[2], &[], Err(Unlisted::ReadFault), 75),
    (&[2], &[1], Err(Unlisted::ReadFault), 37),
    (&[], &[1], Err(Unlisted::WriteFault), 124),
    (&[], &[2], Ok(()), TEXT.len()),
];

#[test]
fn a_fault_leaves_what_was_listed(rt: HostRuntime) {
    for (reads, writes, answer, length) in FAULTS {
        let found = listed(&rt, rt.alloc(), reads, writes);
        assert!(rt; found == (answer, length), "of {length} bytes");
    }
}

// What is listed of a log of 1,499 writes and an end where the write of this number fails.
fn long_listed(rt: &impl Abort, alloc: Global, write: u64) -> (Result<(), Unlisted>, usize) {
    let mut bytes = LOG_HEADER.to_vec(alloc).expect(rt, "memory");
    for _ in 1..1500 {
        bytes
            .extend_from_slice(&encode(&LANE[1]))
            .expect(rt, "memory");
    }
    bytes.extend_from_slice(&encode(&END)).expect(rt, "memory");
    let mut folder = MemFolder::new(alloc).expect(rt, "memory");
    folder.hold("d/t.swl", &bytes).expect(rt, "memory");
    let rows = [Row {
        path: Path::root(),
        records: 1500,
    }];
    let mut out = MemOut::new(alloc).expect(rt, "memory");
    out.fail(&[write]).expect(rt, "memory");
    let answer = list(alloc, &mut folder, &mut out, "d", &rows);
    (answer, out.written().len())
}

// The first piece, of 65,327 bytes, ends with the line that leaves less than 256 bytes of 65,536.
#[test]
fn lines_are_written_in_pieces(rt: HostRuntime) {
    for (write, answer, length) in [
        (1, Err(Unlisted::WriteFault), 32_663),
        (2, Err(Unlisted::WriteFault), 67_356),
        (3, Ok(()), 69_385),
    ] {
        let found = long_listed(&rt, rt.alloc(), write);
        assert!(rt; found == (answer, length), "of {length} bytes");
    }
}

// The second log has one record less than its row tells.
#[test]
fn a_log_that_has_changed_ends_early(rt: HostRuntime) {
    let alloc = rt.alloc();
    let short = LANE.get(..6).expect(&rt, "records");
    let due = TEXT.get(..TEXT.len() - 13).expect(&rt, "text");
    let mut folder = folder_with(&rt, alloc, short);
    assert!(rt; is_listed(&rt, alloc, &mut folder, due));
}
