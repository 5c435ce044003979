//! Logs in memory: whole, read in short pieces, cut, and with bytes that spell no record.

use crate::tests::support::folder_of;
use log_format::{FORMAT, Kind, Record, encode};
use log_reader::LogReader;
use memory_environment::{MemFolder, ShortReads};
use std::alloc::Global;
use std::process::Abort;
use sw_base::{Folder, LOG_HEADER, Path, Trouble};

fn record(kind: Kind, line: u32) -> Record {
    Record {
        kind,
        size: 0,
        site: 0,
        line,
        addr: 0,
        value: 0,
    }
}

// A log of so many barriers, of lines from 1 on, and an end at line 9.
fn log_of(rt: &impl Abort, alloc: Global, barriers: u32) -> Vec<u8> {
    let mut bytes = LOG_HEADER.to_vec(alloc).expect(rt, "memory");
    for line in 0..barriers {
        bytes
            .extend_from_slice(&encode(&record(Kind::Barrier, line + 1)))
            .expect(rt, "memory");
    }
    bytes
        .extend_from_slice(&encode(&record(Kind::End, 9)))
        .expect(rt, "memory");
    bytes
}

// The lines of the records that a reader gives, of at most so many.
fn lines<F: Folder>(
    alloc: Global,
    folder: &mut F,
    path: &Path,
    records: u32,
) -> Result<Vec<u32>, Trouble> {
    let mut reader = LogReader::new(alloc)?;
    reader.open(alloc, FORMAT, folder, "d", path, records)?;
    let mut lines = Vec::new(alloc);
    'records: while let Some(next) = reader.next(alloc, folder)? {
        lines.push(next.line)?;
    }
    Ok(lines)
}

// The lines that come of a root's log of these bytes, for a row that tells so many records.
fn lines_of(rt: &impl Abort, alloc: Global, bytes: &[u8], records: u32) -> Vec<u32> {
    let mut folder = folder_of(alloc, "d/t.swl", bytes).expect(rt, "memory");
    lines(alloc, &mut folder, &Path::root(), records).expect(rt, "lines")
}

// The same where reads are short.
fn lines_of_short(rt: &impl Abort, alloc: Global, bytes: &[u8], records: u32) -> Vec<u32> {
    let folder = folder_of(alloc, "d/t.swl", bytes).expect(rt, "memory");
    let mut folder = ShortReads { folder };
    lines(alloc, &mut folder, &Path::root(), records).expect(rt, "lines")
}

#[test]
fn records_come_in_order_and_then_none(rt: HostRuntime) {
    let alloc = rt.alloc();
    let whole = log_of(&rt, alloc, 3);
    let due: &[u32] = &[1, 2, 3, 9];
    assert!(rt; lines_of(&rt, alloc, &whole, 4).as_slice() == due);
    assert!(rt; lines_of_short(&rt, alloc, &whole, 4).as_slice() == due);
}

// Whether the first 6000 lines are those from 1 on.
fn ascend(lines: &[u32]) -> bool {
    for (line, due) in lines.iter().zip(1..6001) {
        if *line != due {
            return false;
        }
    }
    true
}

#[test]
fn a_log_longer_than_the_window_comes_whole(rt: HostRuntime) {
    let alloc = rt.alloc();
    let long = log_of(&rt, alloc, 6000);
    let lines = lines_of(&rt, alloc, &long, 6001);
    assert!(rt; lines.len() == 6001 && lines.last() == Some(&9) && ascend(&lines));
}

#[test]
fn a_changed_log_ends_before_its_first_bad_record(rt: HostRuntime) {
    let alloc = rt.alloc();
    let bytes = log_of(&rt, alloc, 3);
    let cut = bytes.get(..79).expect(&rt, "bytes");
    let table: [(&[u8], u32, &[u32]); 4] = [
        (cut, 4, &[1, 2]),
        (&bytes, 2, &[1, 2]),
        (b"SWLOG001", 1, &[]),
        (b"", 1, &[]),
    ];
    for (log, records, due) in table {
        assert!(rt;
            lines_of(&rt, alloc, log, records).as_slice() == due,
            "{due:?}"
        );
    }
}

#[test]
fn a_changed_kind_ends_a_log(rt: HostRuntime) {
    let alloc = rt.alloc();
    let mut bytes = log_of(&rt, alloc, 3);
    *bytes.get_mut(32).expect(&rt, "bytes") = 10;
    assert!(rt; lines_of(&rt, alloc, &bytes, 4).as_slice() == [1].as_slice());
}

// A folder with a lane's log of so many records, of which these calls fail.
fn failing(rt: &impl Abort, alloc: Global, barriers: u32, calls: &[u64]) -> MemFolder {
    let bytes = log_of(rt, alloc, barriers);
    let mut folder = folder_of(alloc, "d/t-0.1.swl", &bytes).expect(rt, "memory");
    folder.fail(calls).expect(rt, "memory");
    folder
}

fn opened(alloc: Global, reader: &mut LogReader, folder: &mut MemFolder) -> Result<(), Trouble> {
    let lane = Path::root().child(0, 1, 2);
    reader.open(alloc, FORMAT, folder, "d", &lane, 5461)
}

// The line of the next record.
fn next_line(
    alloc: Global,
    reader: &mut LogReader,
    folder: &mut MemFolder,
) -> Result<Option<u32>, Trouble> {
    match reader.next(alloc, folder)? {
        Some(next) => Ok(Some(next.line)),
        None => Ok(None),
    }
}

// The last line, and whether a read fails before it, of so many.
fn last_line(
    alloc: Global,
    reader: &mut LogReader,
    folder: &mut MemFolder,
    count: u32,
) -> (u32, bool) {
    let mut last = 0;
    let mut fails = false;
    for _ in 0..count {
        match next_line(alloc, reader, folder) {
            Ok(Some(line)) => last = line,
            Ok(None) => {}
            Err(_) => fails = true,
        }
    }
    (last, fails)
}

#[test]
fn a_read_that_fails_can_be_made_again(rt: HostRuntime) {
    let alloc = rt.alloc();
    let mut folder = failing(&rt, alloc, 5460, &[1, 3]);
    let mut reader = LogReader::new(alloc).expect(&rt, "memory");
    let refused = opened(alloc, &mut reader, &mut folder);
    let nothing = next_line(alloc, &mut reader, &mut folder);
    let accepted = opened(alloc, &mut reader, &mut folder);
    let last = last_line(alloc, &mut reader, &mut folder, 5462);
    let ended = next_line(alloc, &mut reader, &mut folder);
    assert!(rt; (refused, accepted) == (Err(Trouble::Failed), Ok(())));
    assert!(rt; (nothing, last, ended) == (Ok(None), (9, true), Ok(None)));
}
