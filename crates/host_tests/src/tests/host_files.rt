//! What the host's folder does to real files.

use host_environment::{HostFile, HostFolder, HostLog, write_whole};
use made_folders::fresh;
use std::alloc::Global;
use std::fs;
use std::io::{self, Error, ErrorKind, Write};
use std::process::Abort;
use std::rt::Files;
use sw_base::{File, Folder, Log, Trouble, read_file};

type Host = HostFolder<HostRuntime>;

// Whether the file has these bytes.
fn has_bytes(folder: &mut Host, alloc: Global, name: &str, bytes: &[u8]) -> bool {
    match read_file(alloc, folder, name) {
        Ok(Some(whole)) => whole.as_slice() == bytes,
        _ => false,
    }
}

// Writes pieces of two logs in turn, and seals one of them.
fn write_logs(rt: &impl Abort, folder: &mut Host, alloc: Global, dir: &str) -> bool {
    let mut root = folder.root(alloc, dir).expect(rt, "a log");
    root.append(alloc, b"SWLOG002").expect(rt, "a whole piece");
    let mut lane = root.child(alloc, 0, 1, 2).expect(rt, "a log");
    lane.append(alloc, b"one").expect(rt, "a whole piece");
    root.append(alloc, b" and").expect(rt, "a whole piece");
    root.append(alloc, b" more").expect(rt, "a whole piece");
    lane.append(alloc, b" two").expect(rt, "a whole piece");
    folder.discard(lane);
    folder.seal(alloc, root).is_ok()
}

#[test]
fn logs_are_written_piece_by_piece(rt: HostRuntime) {
    let alloc = rt.alloc();
    let top = fresh(&rt, "pieces").expect(&rt, "a name");
    let dir = format!(in alloc; "{top}/made/below").expect(&rt, "memory");
    let of_root = format!(in alloc; "{dir}/t.swl").expect(&rt, "memory");
    let of_lane = format!(in alloc; "{dir}/t-0.1.swl").expect(&rt, "memory");
    let mut folder = HostFolder::new(rt);
    // A second run finds the first one's logs, and begins with empty ones.
    for _ in 0..2 {
        assert!(rt; write_logs(&rt, &mut folder, alloc, &dir));
        assert!(rt;
            has_bytes(&mut folder, alloc, &of_root, b"SWLOG002 and more")
                && has_bytes(&mut folder, alloc, &of_lane, b"one two")
        );
    }
    assert!(rt; folder.faults() == (0, 0));
    fs::remove_dir_all(&rt, &top).expect(&rt, "no folder");
}

// The file's bytes from a place on, as one call reads them.
fn part(
    rt: &impl Abort,
    folder: &mut Host,
    alloc: Global,
    name: &str,
    at: u64,
    room: usize,
) -> Vec<u8> {
    let mut into = Vec::new(alloc);
    into.resize(room, 0).expect(rt, "memory");
    let count = folder.read(alloc, name, at, &mut into).expect(rt, "bytes");
    into.truncate(count);
    into
}

// Where a call begins to read, and how many bytes it has room for.
const PARTS: &[(usize, usize)] = &[
    (0, 10),
    (4_090, 20),
    (4_097, 3),
    (9_990, 10),
    (9_995, 20),
    (10_000, 5),
    (70_000, 5),
];

// Whether each part of the file is that of these bytes.
fn has_parts(rt: &impl Abort, folder: &mut Host, alloc: Global, name: &str, bytes: &[u8]) -> bool {
    for (at, room) in PARTS {
        let left = bytes.get(*at..).unwrap_or(&[]);
        let due = left.get(..*room).unwrap_or(left);
        if part(rt, folder, alloc, name, *at as u64, *room).as_slice() != due {
            return false;
        }
    }
    true
}

#[test]
fn a_file_is_read_from_each_place(rt: HostRuntime) {
    let alloc = rt.alloc();
    let dir = fresh(&rt, "places").expect(&rt, "a name");
    let name = format!(in alloc; "{dir}/whole").expect(&rt, "memory");
    let mut folder = HostFolder::new(rt);
    let mut bytes = [0u8; 10_000];
    for (at, byte) in bytes.iter_mut().enumerate() {
        *byte = (at % 251) as u8;
    }
    folder.put(alloc, &name, &bytes).expect(&rt, "a file");
    assert!(rt; folder.size(alloc, &name) == Ok(Some(10_000)));
    assert!(rt;
        has_bytes(&mut folder, alloc, &name, &bytes)
            && has_parts(&rt, &mut folder, alloc, &name, &bytes)
    );
    // A shorter file takes the place of a longer one.
    folder.put(alloc, &name, b"short").expect(&rt, "a file");
    assert!(rt; folder.size(alloc, &name) == Ok(Some(5)));
    assert!(rt; folder.faults() == (0, 0));
    fs::remove_dir_all(&rt, &dir).expect(&rt, "no folder");
}

#[test]
fn a_put_makes_the_folder_of_its_name(rt: HostRuntime) {
    let alloc = rt.alloc();
    let top = fresh(&rt, "folders").expect(&rt, "a name");
    let name = format!(in alloc; "{top}/made/below/t.swl").expect(&rt, "memory");
    let beside = format!(in alloc; "{top}/made/below/index.swi").expect(&rt, "memory");
    let mut folder = HostFolder::new(rt);
    folder.put(alloc, &name, b"log").expect(&rt, "a file");
    folder.put(alloc, &beside, b"index").expect(&rt, "a file");
    assert!(rt;
        has_bytes(&mut folder, alloc, &name, b"log")
            && has_bytes(&mut folder, alloc, &beside, b"index")
    );
    assert!(rt; folder.faults() == (0, 0));
    fs::remove_dir_all(&rt, &top).expect(&rt, "no folder");
}

// Whether a file isn't there, and so has no byte.
fn is_missing(folder: &mut Host, alloc: Global, name: &str) -> bool {
    let mut into = [0u8; 8];
    folder.size(alloc, name) == Ok(None) && folder.read(alloc, name, 0, &mut into) == Ok(0)
}

#[test]
fn what_is_not_there_has_no_byte(rt: HostRuntime) {
    let alloc = rt.alloc();
    let dir = fresh(&rt, "missing").expect(&rt, "a name");
    let name = format!(in alloc; "{dir}/none").expect(&rt, "memory");
    let below = format!(in alloc; "{dir}/t.swl/none").expect(&rt, "memory");
    let mut folder = HostFolder::new(rt);
    let root = folder.root(alloc, &dir).expect(&rt, "a log");
    folder.discard(root);
    assert!(rt; is_missing(&mut folder, alloc, &name) && is_missing(&mut folder, alloc, &below));
    assert!(rt; folder.faults() == (0, 0));
    assert!(rt; matches!(folder.put(alloc, &below, b"bytes"), Err(Trouble::Failed)));
    assert!(rt; folder.root(alloc, &below).is_err());
    assert!(rt; folder.faults() == (0, 2));
    fs::remove_dir_all(&rt, &dir).expect(&rt, "no folder");
}

#[test]
fn what_can_not_be_written_is_a_fault(rt: HostRuntime) {
    let alloc = rt.alloc();
    let dir = fresh(&rt, "faults").expect(&rt, "a name");
    let name = format!(in alloc; "{dir}/t.swl").expect(&rt, "memory");
    let mut folder = HostFolder::new(rt);
    let mut root = folder.root(alloc, &dir).expect(&rt, "a log");
    assert!(rt; matches!(folder.put(alloc, &dir, b"bytes"), Err(Trouble::Failed)));
    assert!(rt; folder.faults() == (0, 1));
    assert!(rt;
        matches!(
            folder.put(alloc, "/dev/full", b"bytes"),
            Err(Trouble::Failed)
        )
    );
    assert!(rt; folder.faults() == (0, 2));
    fs::remove_file(&rt, &name).expect(&rt, "no file");
    fs::create_dir(&rt, &name).expect(&rt, "a folder");
    assert!(rt; matches!(root.append(alloc, b"bytes"), Err(Trouble::Failed)));
    assert!(rt;
        matches!(
            folder.read(alloc, &name, 0, &mut [0; 8]),
            Err(Trouble::Failed)
        )
    );
    assert!(rt; folder.faults() == (1, 2));
    // The folder counts the fault of a log that is given back.
    folder.discard(root);
    assert!(rt; folder.faults() == (1, 3));
    fs::remove_dir_all(&rt, &dir).expect(&rt, "no folder");
}

#[test]
fn a_log_that_can_not_be_made_is_a_fault_of_the_one_above(rt: HostRuntime) {
    let alloc = rt.alloc();
    let dir = fresh(&rt, "children").expect(&rt, "a name");
    let name = format!(in alloc; "{dir}/t-3.1.swl").expect(&rt, "memory");
    let mut folder = HostFolder::new(rt);
    let mut root = folder.root(alloc, &dir).expect(&rt, "a log");
    fs::create_dir(&rt, &name).expect(&rt, "a folder");
    assert!(rt; root.child(alloc, 3, 1, 2).is_err());
    assert!(rt; folder.faults() == (0, 0));
    // The folder counts the fault of a log that is sealed.
    assert!(rt; folder.seal(alloc, root).is_ok() && folder.faults() == (0, 1));
    fs::remove_dir_all(&rt, &dir).expect(&rt, "no folder");
}

// What someone else leaves of a log's file that held a header. Nothing where it is gone.
const CHANGED: &[Option<&[u8]>] = &[Some(b""), Some(b"SWLOG00"), Some(b"SWLOG0022"), None];

// A root's log whose file was changed so after its first piece.
fn changed_log<R: Abort + Files>(
    rt: &R,
    folder: &mut Host,
    alloc: Global,
    dir: &str,
    left: Option<&[u8]>,
) -> HostLog<HostRuntime> {
    let name = format!(in alloc; "{dir}/t.swl").expect(rt, "memory");
    let mut root = folder.root(alloc, dir).expect(rt, "a log");
    root.append(alloc, b"SWLOG002").expect(rt, "a whole piece");
    match left {
        Some(bytes) => folder.put(alloc, &name, bytes).expect(rt, "a file"),
        None => fs::remove_file(rt, &name).expect(rt, "no file"),
    }
    root
}

// Whether the file is as someone else left it.
fn is_left(folder: &mut Host, alloc: Global, name: &str, left: Option<&[u8]>) -> bool {
    match left {
        Some(bytes) => has_bytes(folder, alloc, name, bytes),
        None => is_missing(folder, alloc, name),
    }
}

// Whether a seal fails, and gives the log back.
fn fails_to_seal(folder: &mut Host, alloc: Global, log: HostLog<HostRuntime>) -> bool {
    match folder.seal(alloc, log) {
        Err((trouble, log)) => {
            folder.discard(log);
            trouble == Trouble::Failed
        }
        Ok(()) => false,
    }
}

#[test]
fn a_log_that_someone_else_changed_is_a_fault(rt: HostRuntime) {
    let alloc = rt.alloc();
    let dir = fresh(&rt, "changed").expect(&rt, "a name");
    let name = format!(in alloc; "{dir}/t.swl").expect(&rt, "memory");
    for left in CHANGED {
        let mut folder = HostFolder::new(rt);
        let mut root = changed_log(&rt, &mut folder, alloc, &dir, *left);
        assert!(rt; matches!(root.append(alloc, b"more"), Err(Trouble::Failed)));
        assert!(rt; is_left(&mut folder, alloc, &name, *left));
        folder.discard(root);
        assert!(rt; folder.faults() == (0, 1));
        let root = changed_log(&rt, &mut folder, alloc, &dir, *left);
        assert!(rt; fails_to_seal(&mut folder, alloc, root));
        assert!(rt; is_left(&mut folder, alloc, &name, *left) && folder.faults() == (0, 2));
    }
    fs::remove_dir_all(&rt, &dir).expect(&rt, "no folder");
}

// A root's log in this folder, with a header.
fn begun(rt: &impl Abort, folder: &mut Host, alloc: Global, dir: &str) -> HostLog<HostRuntime> {
    let mut root = folder.root(alloc, dir).expect(rt, "a log");
    root.append(alloc, b"SWLOG002").expect(rt, "a whole piece");
    root
}

#[test]
fn two_runs_at_once_into_one_folder_are_not_both_done(rt: HostRuntime) {
    let alloc = rt.alloc();
    let dir = fresh(&rt, "twice").expect(&rt, "a name");
    let mut one = HostFolder::new(rt);
    let mut other = HostFolder::new(rt);
    let mut first = begun(&rt, &mut one, alloc, &dir);
    let mut second = begun(&rt, &mut other, alloc, &dir);
    first.append(alloc, b"one").expect(&rt, "a whole piece");
    assert!(rt; matches!(second.append(alloc, b"two"), Err(Trouble::Failed)));
    other.discard(second);
    // The other one begins anew before the first one's log is sealed.
    let second = begun(&rt, &mut other, alloc, &dir);
    assert!(rt; fails_to_seal(&mut one, alloc, first) && other.seal(alloc, second).is_ok());
    assert!(rt; one.faults() == (0, 1) && other.faults() == (0, 1));
    fs::remove_dir_all(&rt, &dir).expect(&rt, "no folder");
}

#[test]
fn what_is_no_regular_file_has_no_size(rt: HostRuntime) {
    let alloc = rt.alloc();
    let dir = fresh(&rt, "sizes").expect(&rt, "a name");
    fs::create_dir(&rt, &dir).expect(&rt, "a folder");
    let mut folder = HostFolder::new(rt);
    assert!(rt; matches!(folder.size(alloc, &dir), Err(Trouble::Failed)));
    assert!(rt; folder.faults() == (1, 0));
    assert!(rt; matches!(folder.size(alloc, "/dev/null"), Err(Trouble::Failed)));
    assert!(rt; folder.faults() == (2, 0));
    fs::remove_dir_all(&rt, &dir).expect(&rt, "no folder");
}

// What is left of an opened file, read in pieces of three bytes.
fn rest_of(rt: &impl Abort, alloc: Global, file: &mut HostFile) -> Vec<u8> {
    let mut whole = Vec::new(alloc);
    let mut into = [0u8; 3];
    for _ in 0..100 {
        let count = file.read(alloc, &mut into).expect(rt, "bytes");
        if count == 0 {
            break;
        }
        let piece = into.get(..count).expect(rt, "a piece");
        whole.extend_from_slice(piece).expect(rt, "memory");
    }
    whole
}

#[test]
fn an_opened_file_is_read_to_its_end(rt: HostRuntime) {
    let alloc = rt.alloc();
    let dir = fresh(&rt, "opened").expect(&rt, "a name");
    let name = format!(in alloc; "{dir}/t.swl").expect(&rt, "memory");
    let none = format!(in alloc; "{name}/none").expect(&rt, "memory");
    let mut folder = HostFolder::new(rt);
    folder
        .put(alloc, &name, b"eleven byte")
        .expect(&rt, "a file");
    let mut file = folder
        .open_file(alloc, &name)
        .expect(&rt, "a file")
        .expect(&rt, "a file");
    assert!(rt; rest_of(&rt, alloc, &mut file).as_slice() == b"eleven byte".as_slice());
    folder.close_file(file);
    assert!(rt; matches!(folder.open_file(alloc, &none), Ok(None)) && folder.faults() == (0, 0));
    // A folder is no file that can be read, and opening it is a fault.
    assert!(rt; matches!(folder.open_file(alloc, &dir), Err(Trouble::Failed)));
    assert!(rt; folder.faults() == (1, 0));
    fs::remove_dir_all(&rt, &dir).expect(&rt, "no folder");
}

// A writer that takes three bytes a call, and writes them at a flush, which may fail.
#[derive(Drop)]
struct Late {
    waiting: usize,
    written: usize,
    failing: Option<ErrorKind>,
}

impl Write for Late {
    fn write(&mut self, bytes: &[u8]) -> io::Result<usize> {
        let count = bytes.len().min(3);
        self.waiting = self.waiting.saturating_add(count);
        Ok(count)
    }

    fn flush(&mut self) -> io::Result<()> {
        if let Some(kind) = self.failing {
            return Err(Error::from(kind));
        }
        self.written = self.waiting;
        Ok(())
    }
}

// A writer that took nothing yet.
fn writer(failing: Option<ErrorKind>) -> Late {
    Late {
        waiting: 0,
        written: 0,
        failing,
    }
}

#[test]
fn a_piece_is_written_to_its_end(rt: HostRuntime) {
    let mut late = writer(None);
    assert!(rt; write_whole(&mut late, b"eleven byte").is_ok());
    assert!(rt; late.written == 11);
}

// Why a piece isn't written by a writer whose flush fails so.
fn why_not_flushed(kind: ErrorKind, piece: &[u8]) -> Option<ErrorKind> {
    match write_whole(&mut writer(Some(kind)), piece) {
        Ok(()) => None,
        Err(error) => Some(error.kind()),
    }
}

// Want of memory at a flush of bytes is an error as others are, since they may have been written.
#[test]
fn a_flush_that_fails_is_an_error(rt: HostRuntime) {
    let whys = [
        why_not_flushed(ErrorKind::StorageFull, b"eleven byte"),
        why_not_flushed(ErrorKind::OutOfMemory, b"eleven byte"),
        why_not_flushed(ErrorKind::OutOfMemory, b""),
    ];
    let due = [ErrorKind::Other, ErrorKind::Other, ErrorKind::OutOfMemory].map(Some);
    assert!(rt; whys == due, "{whys:?}");
}
