//! Worked names, and each call of the versions in memory: with ample memory, and failing.
ghost use Rattle.std.specs.Prelude.{◌≡◌, [], IfOk};
ghost use Rattle.memory_environment.specs.MemLog.{path_of};

use crate::tests::support::folder_of;
use memory_environment::{MemFolder, MemLog, MemOut, ShortReads};
use std::alloc::Global;
use std::cmp::Ordering;
use std::process::Abort;
use sw_base::{
    File, Folder, Gate, INDEX_HEADER, LOG_HEADER, Log, Memory, NoGate, OLD_INDEX_HEADER,
    OLD_LOG_HEADER, Out, Path, Step, Trouble, index_name, read_file,
};

// Whether the name was made, and is this one.
fn is_named(name: Result<String, Memory>, due: &str) -> bool {
    match name {
        Ok(name) => name.as_str() == due,
        Err(_) => false,
    }
}

#[test]
fn a_log_is_named_after_its_steps(rt: HostRuntime) {
    let alloc = rt.alloc();
    let lane = Path::root().child(0, 1, 2);
    let deep = lane.child(4294967295, 65535, 65535);
    let alone = Path::root().child(3, 0, 1);
    let named = [
        is_named(Path::root().name(alloc, "d"), "d/t.swl"),
        is_named(lane.name(alloc, "d"), "d/t-0.1.swl"),
        is_named(deep.bare_name(alloc), "t-0.1-4294967295.65535.swl"),
        is_named(alone.bare_name(alloc), "t-3.0.swl"),
        is_named(index_name(alloc, "d"), "d/index.swi"),
    ];
    assert!(rt; named == [true; 5], "{named:?}");
    assert!(rt; LOG_HEADER == *b"SWLOG002" && INDEX_HEADER == *b"SWIDX002");
    assert!(rt; OLD_LOG_HEADER == *b"SWLOG001" && OLD_INDEX_HEADER == *b"SWIDX001");
}

// Whether each path is less than the next.
fn ascend(paths: &[Path]) -> bool {
    for (low, high) in paths.iter().zip(paths.iter().skip(1)) {
        if low.cmp(high) != Ordering::Less {
            return false;
        }
    }
    true
}

#[test]
fn paths_are_in_order(rt: HostRuntime) {
    let lane = Path::root().child(0, 1, 2);
    let ascending = [
        Path::root(),
        lane.copy(),
        lane.child(3, 0, 1),
        Path::root().child(0, 1, 3),
        Path::root().child(0, 2, 1),
        Path::root().child(1, 0, 1),
    ];
    assert!(rt; ascend(&ascending));
}

#[test]
fn a_path_has_its_steps(rt: HostRuntime) {
    let lane = Path::root().child(0, 1, 2);
    assert!(rt; lane.copy() == lane);
    let steps = [
        Step {
            region: 0,
            lane: 1,
            span: 2,
        },
        Step {
            region: 3,
            lane: 0,
            span: 1,
        },
    ];
    assert!(rt; lane.child(3, 0, 1).steps() == steps.as_slice());
}

#[test]
fn a_task_is_under_its_proper_prefixes(rt: HostRuntime) {
    let lane = Path::root().child(0, 1, 2);
    let below = lane.child(3, 0, 1);
    let under = [
        below.is_under(&lane),
        below.is_under(&Path::root()),
        lane.is_under(&lane.copy()),
        lane.is_under(&below),
        below.is_under(&Path::root().child(0, 1, 3)),
    ];
    assert!(rt; under == [true, true, false, false, false], "{under:?}");
}

#[test]
fn a_gate_lets_pass() {
    NoGate.enter(0);
}

fn write(alloc: Global, out: &mut MemOut, piece: &[u8]) -> Result<(), Trouble> {
    out.append(alloc, piece)
}

#[test]
fn a_write_that_fails_leaves_half_of_the_piece(rt: HostRuntime) {
    let alloc = rt.alloc();
    let mut out = MemOut::new(alloc).expect(&rt, "memory");
    out.fail(&[2]).expect(&rt, "memory");
    let answers = [
        write(alloc, &mut out, b"abcd"),
        write(alloc, &mut out, b"efgh"),
        write(alloc, &mut out, b"ijkl"),
    ];
    let due = [Ok(()), Err(Trouble::Failed), Ok(())];
    assert!(rt; answers == due && out.written() == b"abcdefijkl".as_slice());
}

// Whether the log has these bytes, in pieces of these lengths.
fn has(log: &MemLog, bytes: &[u8], lengths: &[usize]) -> bool {
    log.bytes() == bytes && log.lengths() == lengths
}

// Appends a piece to a log.
fn append(alloc: Global, log: &mut MemLog, piece: &[u8]) -> Result<(), Trouble>
    ensures { path_of log.new ≡ path_of log.old }
{
    log.append(alloc, piece)
}

// The log of a lane of a root's region 0.
fn lane_of(alloc: Global, root: &mut MemLog, lane: u16, span: u16) -> Result<MemLog, Trouble>
    requires { path_of root.old ≡ [] }
    ensures { path_of root.new ≡ path_of root.old }
{
    root.child(alloc, 0, lane, span)
}

#[test]
fn a_log_keeps_its_pieces(rt: HostRuntime) {
    let alloc = rt.alloc();
    let mut log = MemLog::new(alloc, "d").expect(&rt, "memory");
    let first = append(alloc, &mut log, b"abc");
    let mut child = lane_of(alloc, &mut log, 1, 2).expect(&rt, "memory");
    let answers = [
        first,
        append(alloc, &mut child, b"x"),
        append(alloc, &mut log, b"de"),
    ];
    let told = [has(&log, b"abcde", &[3, 2]), has(&child, b"x", &[1])];
    assert!(rt; answers == [Ok(()), Ok(()), Ok(())] && told == [true; 2]);
}

#[test]
fn calls_of_a_log_fail_by_their_number(rt: HostRuntime) {
    let alloc = rt.alloc();
    let mut log = MemLog::new(alloc, "d").expect(&rt, "memory");
    log.fail(&[2, 3]).expect(&rt, "memory");
    let answers = [
        append(alloc, &mut log, b"ab").err(),
        append(alloc, &mut log, b"cdef").err(),
        lane_of(alloc, &mut log, 0, 1).err(),
        lane_of(alloc, &mut log, 0, 1).err(),
    ];
    let failed = Some(Trouble::Failed);
    assert!(rt; answers == [None, failed, failed, None] && has(&log, b"abcd", &[2]));
}

// A root's log, in whose folder calls on it and on the log of a lane are planned to fail.
fn planned_root(alloc: Global) -> Result<MemLog, Trouble>
    ensures { IfOk result (λ log. path_of log ≡ []) }
{
    let mut folder = MemFolder::new(alloc)?;
    folder.fail_log(&Path::root(), &[2])?;
    folder.fail_log(&Path::root().child(0, 1, 2), &[1, 3])?;
    folder.root(alloc, "d")
}

// What an append to the log of lane 0 answers.
fn append_to_first(alloc: Global, root: &mut MemLog) -> Result<(), Trouble>
    requires { path_of root.old ≡ [] }
    ensures { path_of root.new ≡ path_of root.old }
{
    let mut first = lane_of(alloc, root, 0, 2)?;
    append(alloc, &mut first, b"x")
}

// What three appends to the log of lane 1 answer, and whether it has these bytes then, in one piece.
fn append_to_second(
    rt: &impl Abort,
    alloc: Global,
    root: &mut MemLog,
    bytes: &[u8],
) -> ([Result<(), Trouble>; 3], bool)
    requires { path_of root.old ≡ [] }
{
    let mut second = lane_of(alloc, root, 1, 2).expect(rt, "memory");
    let answers = [
        append(alloc, &mut second, b"yz"),
        append(alloc, &mut second, b"u"),
        append(alloc, &mut second, b"vw"),
    ];
    (answers, has(&second, bytes, &[1]))
}

#[test]
fn planned_calls_of_later_logs_fail(rt: HostRuntime) {
    let alloc = rt.alloc();
    let mut root = planned_root(alloc).expect(&rt, "memory");
    let answers = [
        append(alloc, &mut root, b"ab").err(),
        lane_of(alloc, &mut root, 0, 2).err(),
        append_to_first(alloc, &mut root).err(),
    ];
    assert!(rt; answers == [None, Some(Trouble::Failed), None]);
    let second = append_to_second(&rt, alloc, &mut root, b"yuv");
    let due = [Err(Trouble::Failed), Ok(()), Err(Trouble::Failed)];
    assert!(rt; second == (due, true));
}

// Whether the name holds these bytes.
fn holds(folder: &MemFolder, name: &str, bytes: &[u8]) -> bool {
    match folder.file(name) {
        Some(held) => held == bytes,
        None => false,
    }
}

// Whether the log that was sealed at this place has this name and these lengths.
fn is_sealed(folder: &MemFolder, at: usize, name: &str, lengths: &[usize]) -> bool {
    match (folder.sealed_name(at), folder.sealed_lengths(at)) {
        (Some(sealed_name), Some(sealed_lengths)) => {
            sealed_name == name && sealed_lengths == lengths
        }
        _ => false,
    }
}

// Whether no log was sealed at this place.
fn is_free(folder: &MemFolder, at: usize) -> bool {
    folder.sealed_name(at).is_none() && folder.sealed_lengths(at).is_none()
}

fn seal(alloc: Global, folder: &mut MemFolder, log: MemLog) -> bool {
    folder.seal(alloc, log).is_ok()
}

// The log of a root.
fn root_of(alloc: Global, folder: &mut MemFolder) -> Result<MemLog, Trouble>
    ensures { IfOk result (λ log. path_of log ≡ []) }
{
    folder.root(alloc, "d")
}

// The name of a log, whether it was sealed there in these pieces.
const SEALED: [(usize, &str, &[usize], bool); 4] = [
    (0, "d/t.swl", &[4], true),
    (1, "d/t-0.1.swl", &[2, 3], true),
    (1, "d/t.swl", &[2, 3], false),
    (1, "d/t-0.1.swl", &[5], false),
];

// Whether the logs of a root and a lane get one piece and two, and are sealed.
fn seal_both(rt: &impl Abort, alloc: Global, folder: &mut MemFolder) -> bool {
    let mut root = root_of(alloc, folder).expect(rt, "memory");
    let mut lane = lane_of(alloc, &mut root, 1, 2).expect(rt, "memory");
    let appended = [
        append(alloc, &mut root, b"root"),
        append(alloc, &mut lane, b"la"),
        append(alloc, &mut lane, b"nes"),
    ];
    let sealed = [seal(alloc, folder, root), seal(alloc, folder, lane)];
    appended == [Ok(()), Ok(()), Ok(())] && sealed == [true; 2]
}

#[test]
fn a_sealed_log_is_held_under_its_name(rt: HostRuntime) {
    let alloc = rt.alloc();
    let mut folder = MemFolder::new(alloc).expect(&rt, "memory");
    let sealed = seal_both(&rt, alloc, &mut folder);
    let told = [
        holds(&folder, "d/t.swl", b"root"),
        holds(&folder, "d/t-0.1.swl", b"lanes"),
        is_free(&folder, 2),
    ];
    assert!(rt; sealed && told == [true; 3]);
    for (at, name, lengths, due) in SEALED {
        assert!(rt;
            is_sealed(&folder, at, name, lengths) == due,
            "at {at} as {name}"
        );
    }
}

// Puts a file twice.
fn put_twice(alloc: Global, folder: &mut MemFolder) -> Result<(), Trouble> {
    folder.put(alloc, "name", b"first")?;
    folder.put(alloc, "name", b"seconds")
}

#[test]
fn a_file_that_is_put_again_is_another(rt: HostRuntime) {
    let alloc = rt.alloc();
    let mut folder = folder_of(alloc, "other", b"other").expect(&rt, "memory");
    let is_put = put_twice(alloc, &mut folder).is_ok();
    let sizes = [folder.size(alloc, "name"), folder.size(alloc, "none")];
    let is_other_held = holds(&folder, "other", b"other") && folder.file("none").is_none();
    assert!(rt; is_put && sizes == [Ok(Some(7)), Ok(None)] && is_other_held);
}

#[test]
fn a_file_is_read_from_a_place_on(rt: HostRuntime) {
    let alloc = rt.alloc();
    let mut folder = folder_of(alloc, "other", b"other").expect(&rt, "memory");
    let is_put = put_twice(alloc, &mut folder).is_ok();
    assert!(rt; is_put);
    let mut into = [0; 4];
    let table = [
        ("name", 2, 4, b"cond"),
        ("name", 5, 2, b"dsnd"),
        ("name", 7, 0, b"dsnd"),
        ("none", 0, 0, b"dsnd"),
    ];
    for (name, place, count, left) in table {
        let read = folder.read(alloc, name, place, &mut into);
        assert!(rt;
            read == Ok(count) && into == *left,
            "{name} from {place} on"
        );
    }
}

// How long the file is that is read whole.
fn length_of(rt: &impl Abort, alloc: Global, folder: &mut MemFolder, name: &str) -> Option<usize> {
    match read_file(alloc, folder, name).expect(rt, "memory") {
        Some(file) => Some(file.len()),
        None => None,
    }
}

#[test]
fn a_file_longer_than_a_window_is_read_whole(rt: HostRuntime) {
    let alloc = rt.alloc();
    let bytes = vec![in alloc; 7u8; 9000].expect(&rt, "memory");
    let mut folder = folder_of(alloc, "name", &bytes).expect(&rt, "memory");
    let lengths = [
        length_of(&rt, alloc, &mut folder, "name"),
        length_of(&rt, alloc, &mut folder, "none"),
    ];
    assert!(rt; lengths == [Some(9000), None]);
}

// How many bytes come at each of four reads of an opened file, and those of the last that aren't none.
fn four_reads<T: File>(alloc: Global, file: &mut T) -> ([Result<usize, Trouble>; 4], [u8; 6]) {
    let mut into = [0; 6];
    let counts = [
        file.read(alloc, &mut into),
        file.read(alloc, &mut into),
        file.read(alloc, &mut into),
        file.read(alloc, &mut into),
    ];
    (counts, into)
}

#[test]
fn planned_reads_of_an_opened_file_fail(rt: HostRuntime) {
    let alloc = rt.alloc();
    let mut folder = folder_of(alloc, "name", b"eleven byte").expect(&rt, "memory");
    folder.fail_file("name", &[1]).expect(&rt, "memory");
    folder.fail_file("name", &[2]).expect(&rt, "memory");
    folder.fail_file("other", &[3]).expect(&rt, "memory");
    let file = folder.open_file(alloc, "name").expect(&rt, "memory");
    let mut file = file.expect(&rt, "a file");
    let (counts, into) = four_reads(alloc, &mut file);
    let due = [Ok(6), Err(Trouble::Failed), Ok(5), Ok(0)];
    assert!(rt; counts == due && into == *b" byten", "{counts:?}");
    assert!(rt; folder.faults() == (0, 0));
    folder.close_file(file);
    assert!(rt; folder.faults() == (1, 0));
    assert!(rt; matches!(folder.open_file(alloc, "other"), Ok(None)));
}

#[test]
fn an_opened_file_comes_in_short_pieces(rt: HostRuntime) {
    let alloc = rt.alloc();
    let folder = folder_of(alloc, "name", b"eleven byte").expect(&rt, "memory");
    let mut folder = ShortReads { folder };
    let file = folder.open_file(alloc, "name").expect(&rt, "memory");
    let mut file = file.expect(&rt, "a file");
    let (counts, into) = four_reads(alloc, &mut file);
    assert!(rt; counts == [Ok(5), Ok(5), Ok(1), Ok(0)] && into == *b"e byt\0");
    folder.close_file(file);
    assert!(rt; folder.folder.faults() == (0, 0));
}

// Makes calls of a folder once, and tells which answers were errors.
fn errors_of_files(alloc: Global, folder: &mut MemFolder) -> [bool; 4] {
    let mut into = [0; 4];
    [
        folder.put(alloc, "name", b"abcd").is_err(),
        folder.size(alloc, "name").is_err(),
        folder.read(alloc, "name", 0, &mut into).is_err(),
        folder.open_file(alloc, "name").is_err(),
    ]
}

// The same of those on logs.
fn errors_of_logs(rt: &impl Abort, alloc: Global, folder: &mut MemFolder) -> [bool; 2] {
    let is_refused = folder.root(alloc, "d").is_err();
    let log = MemLog::new(alloc, "d").expect(rt, "memory");
    [is_refused, folder.seal(alloc, log).is_err()]
}

// A folder whose call of this number fails.
fn failing_folder(rt: &impl Abort, alloc: Global, number: u64) -> MemFolder {
    let mut folder = MemFolder::new(alloc).expect(rt, "memory");
    folder.fail(&[number]).expect(rt, "memory");
    folder
}

// Which answers were errors where the call of this number fails.
fn errors_where_one_fails(rt: &impl Abort, alloc: Global, number: u64) -> ([bool; 4], [bool; 2]) {
    let mut folder = failing_folder(rt, alloc, number);
    let of_files = errors_of_files(alloc, &mut folder);
    (of_files, errors_of_logs(rt, alloc, &mut folder))
}

#[test]
fn calls_of_a_folder_fail_by_their_number(rt: HostRuntime) {
    let table = [
        (0, ([false, false, false, false], [false, false])),
        (1, ([true, false, false, false], [false, false])),
        (2, ([false, true, false, false], [false, false])),
        (3, ([false, false, true, false], [false, false])),
        (4, ([false, false, false, true], [false, false])),
        (5, ([false, false, false, false], [true, false])),
        (6, ([false, false, false, false], [false, true])),
    ];
    for (number, due) in table {
        let found = errors_where_one_fails(&rt, rt.alloc(), number);
        assert!(rt; found == due, "at call {number}");
    }
}

// A log with one piece.
fn one_piece(rt: &impl Abort, alloc: Global) -> MemLog {
    let mut log = MemLog::new(alloc, "d").expect(rt, "memory");
    log.append(alloc, b"abcd").expect(rt, "memory");
    log
}

// Whether the log is whole, half of it is under its name, and it isn't sealed.
fn is_given_back(folder: &MemFolder, log: &MemLog) -> bool {
    log.bytes() == b"abcd".as_slice()
        && holds(folder, "d/t.swl", b"ab")
        && folder.sealed_name(0).is_none()
}

// Whether a seal fails, the log is given back, and is discarded without a trace.
fn fails_to_seal(alloc: Global, folder: &mut MemFolder, log: MemLog) -> bool {
    match folder.seal(alloc, log) {
        Err((Trouble::Failed, log)) => {
            let is_given_back = is_given_back(folder, &log);
            folder.discard(log);
            is_given_back && holds(folder, "d/t.swl", b"ab")
        }
        _ => false,
    }
}

#[test]
fn a_seal_that_fails_gives_the_log_back(rt: HostRuntime) {
    let alloc = rt.alloc();
    let log = one_piece(&rt, alloc);
    let mut folder = failing_folder(&rt, alloc, 1);
    assert!(rt; fails_to_seal(alloc, &mut folder, log));
}
