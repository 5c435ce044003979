//! How logs are cut into pieces, and what stands in a log after each of its calls failed.
ghost use Rattle.std.specs.Prelude.{◌≡◌, ◌≤◌, [], None, Some, IfOk, OnOk};
ghost use Rattle.sw_base.specs.Environment.{empty_text};
ghost use Rattle.memory_environment.specs.MemLog.{path_of, text_of, faults_of};

use event_buffer::{Buffer, BufferFault};
use log_format::{Kind, Record, encode};
use memory_environment::{MemFolder, MemLog};
use std::alloc::{AllocError, Global};
use std::marker::Send;
use std::sync::atomic::{AtomicU64, Ordering};
use std::sync::{Arc, Wait};
use std::thread;
use std::thread::Threads;
use sw_base::{Folder, LOG_HEADER, Log, Path, Trouble};

// A log that counts what it takes, and finds memory for so many pieces.
#[derive(Drop)]
struct Counter {
    left: u32,
    pieces: u32,
    bytes: u64,
}

impl Counter {
    fn with_room(left: u32) -> Counter {
        Counter {
            left,
            pieces: 0,
            bytes: 0,
        }
    }
}

impl Log for Counter {
    ghost dir = { λ _. [] };

    ghost path = { λ _. [] };

    ghost text = { λ _. None };

    ghost faults = { λ _. 0 };

    fn child(
        &mut self,
        _alloc: Global,
        _region: u32,
        _lane: u16,
        _span: u16,
    ) -> Result<Self, Trouble> {
        Err(Trouble::Memory)
    }

    fn append(&mut self, _alloc: Global, piece: &[u8]) -> Result<(), Trouble> {
        if self.left == 0 {
            return Err(Trouble::Memory);
        }
        self.left -= 1;
        self.pieces = self.pieces.saturating_add(1);
        self.bytes = self.bytes.saturating_add(piece.len() as u64);
        Ok(())
    }
}

// A record of this line.
fn barrier(line: u32) -> Record {
    Record {
        kind: Kind::Barrier,
        size: 0,
        site: 0,
        line,
        addr: 0,
        value: 0,
    }
}

// The bytes of a log of the records of the lines from 1 to this one.
fn log_of(alloc: Global, last: u32) -> Result<Vec<u8>, AllocError> {
    let mut bytes = LOG_HEADER.to_vec(alloc)?;
    for line in 0..last {
        bytes.extend_from_slice(&encode(&barrier(line + 1)))?;
    }
    Ok(bytes)
}

// The log of the root task of a new folder, whose calls of these numbers fail.
fn root(alloc: Global, failing: &[u64]) -> Result<MemLog, Trouble>
    ensures path { IfOk result (λ log. path_of log ≡ []) }
    ensures text { IfOk result (λ log. text_of log ≡ Some empty_text) }
    ensures faults { IfOk result (λ log. faults_of log ≡ 0) }
{
    let mut folder = MemFolder::new(alloc)?;
    folder.fail_log(&Path::root(), failing)?;
    folder.root(alloc, "d")
}

// What a task left: why it was refused, how many records it put, and its log.
#[derive(Drop)]
struct Left<L> {
    refused: Option<Trouble>,
    put: u32,
    log: L,
}

// What a task leaves whose buffer is closed.
fn closed<L: Log, R: Wait>(rt: &R, alloc: Global, buffer: Buffer<L>) -> Left<L> {
    let put = buffer.count();
    match buffer.close(rt, alloc) {
        Ok(log) => Left {
            refused: None,
            put,
            log,
        },
        Err((trouble, log)) => Left {
            refused: Some(trouble),
            put,
            log,
        },
    }
}

// Makes room for a record of this line, and puts it.
fn add<L: Log, R: Threads + Wait + Copy + Send + 'static>(
    rt: &R,
    alloc: Global,
    buffer: &mut Buffer<L>,
    line: u32,
) -> Result<(), BufferFault>
    ensures path { buffer.new.path ≡ buffer.old.path }
    ensures unrefused { OnOk result (buffer.new.refused ≡ None) }
{
    buffer.ready(rt, alloc)?;
    buffer.put(&barrier(line));
    Ok(())
}

// Puts records of the lines from 1 to this one, as far as they are taken.
fn fill<L: Log, R: Threads + Wait + Copy + Send + 'static>(
    rt: &R,
    alloc: Global,
    buffer: &mut Buffer<L>,
    last: u32,
) {
    for line in 0..last {
        if add(rt, alloc, buffer, line + 1).is_err() {
            break;
        }
    }
}

// What a task leaves that puts so many records through a buffer of this size, as far as the log takes them, where its calls of these
// numbers fail.
fn put_through<R: Threads + Wait + Copy + Send + 'static>(
    rt: &R,
    alloc: Global,
    failing: &[u64],
    size: usize,
    records: u32,
) -> Result<Left<MemLog>, Trouble>
    requires { (24 ≤ size) × (size ≤ 4194304) }
{
    match Buffer::start(rt, alloc, root(alloc, failing)?, size) {
        Ok(mut buffer) => {
            fill(rt, alloc, &mut buffer, records);
            Ok(closed(rt, alloc, buffer))
        }
        Err((trouble, log)) => Ok(Left {
            refused: Some(trouble),
            put: 0,
            log,
        }),
    }
}

// Why a task was refused, how many records it put, how many pieces and bytes its log has, and whether they are those that were due.
type Seen = (Option<Trouble>, u32, usize, usize, bool);

// What is seen of what a task left, where pieces of these lengths were due, and the bytes of so many records.
fn seen(
    alloc: Global,
    left: &Left<MemLog>,
    lengths: &[usize],
    records: u32,
) -> Result<Seen, Trouble> {
    let bytes = log_of(alloc, records)?;
    let log = &left.log;
    let are_due = lengths.starts_with(log.lengths()) && bytes.starts_with(log.bytes());
    let pieces = log.lengths().len();
    Ok((left.refused, left.put, pieces, log.bytes().len(), are_due))
}

// The same of a task that puts so many records through a buffer of this size, where this call on its log fails.
fn seen_failing<R: Threads + Wait + Copy + Send + 'static>(
    rt: &R,
    alloc: Global,
    call: u64,
    size: usize,
    records: u32,
    lengths: &[usize],
) -> Result<Seen, Trouble>
    requires { (24 ≤ size) × (size ≤ 4194304) }
{
    let left = put_through(rt, alloc, &[call], size, records)?;
    seen(alloc, &left, lengths, records)
}

#[test]
fn pieces_fill_the_block(rt: HostRuntime) {
    let single: &[usize] = &[8, 24, 24, 24, 24, 24, 24, 24, 24, 24, 24];
    let double: &[usize] = &[8, 48, 48, 48, 48, 48];
    let four: &[usize] = &[8, 96, 96, 48];
    let whole: &[usize] = &[8, 240];
    let many: &[usize] = &[8, 16_368, 16_368, 3264];
    for (size, records, lengths, bytes) in [
        (24, 10, single, 248),
        (25, 10, single, 248),
        (47, 10, single, 248),
        (48, 10, double, 248),
        (100, 10, four, 248),
        (16_384, 1500, many, 36_008),
        (4_194_304, 10, whole, 248),
    ] {
        let found = seen_failing(&rt, rt.alloc(), 0, size, records, lengths);
        let due = (None, records, lengths.len(), bytes, true);
        assert!(rt; found == Ok(due), "size {size}");
    }
}

#[test]
fn a_prefix_stands_after_each_call_that_fails(rt: HostRuntime) {
    let small: &[usize] = &[8, 48, 48, 48, 48, 48];
    let large: &[usize] = &[8, 16_368, 16_368, 16_368, 1296];
    let failed = Some(Trouble::Failed);
    // A lane appends small blocks by itself, and large ones are appended by its writer.
    for (size, records, lengths, call, due) in [
        (48, 10, small, 1, (failed, 0, 0, 4, true)),
        (48, 10, small, 2, (failed, 4, 1, 32, true)),
        (48, 10, small, 3, (failed, 6, 2, 80, true)),
        (48, 10, small, 4, (failed, 8, 3, 128, true)),
        (48, 10, small, 5, (failed, 10, 4, 176, true)),
        (48, 10, small, 6, (failed, 10, 5, 224, true)),
        (48, 10, small, 7, (None, 10, 6, 248, true)),
        (16_384, 2100, large, 1, (failed, 0, 0, 4, true)),
        (16_384, 2100, large, 2, (failed, 1364, 1, 8192, true)),
        (16_384, 2100, large, 3, (failed, 2046, 2, 24_560, true)),
        (16_384, 2100, large, 4, (failed, 2100, 3, 40_928, true)),
        (16_384, 2100, large, 5, (failed, 2100, 4, 49_760, true)),
        (16_384, 2100, large, 6, (None, 2100, 5, 50_408, true)),
    ] {
        let found = seen_failing(&rt, rt.alloc(), call, size, records, lengths);
        assert!(rt; found == Ok(due), "size {size}, call {call}");
    }
}

// A buffer with room for one record, before the log of a root whose calls of these numbers fail.
fn buffer_of<R: Threads>(rt: &R, alloc: Global, failing: &[u64]) -> Result<Buffer<MemLog>, Trouble>
    ensures { IfOk result (λ buffer. buffer.path ≡ []) }
{
    match Buffer::start(rt, alloc, root(alloc, failing)?, 24) {
        Ok(buffer) => Ok(buffer),
        Err((trouble, _)) => Err(trouble),
    }
}

// What a buffer answers that is made ready.
fn made_ready<L: Log, R: Threads + Wait + Copy + Send + 'static>(
    rt: &R,
    alloc: Global,
    buffer: &mut Buffer<L>,
) -> Result<(), BufferFault> {
    buffer.ready(rt, alloc)
}

#[test]
fn a_refusal_is_repeated(rt: HostRuntime) {
    let alloc = rt.alloc();
    let failed = Err(BufferFault::Trouble(Trouble::Failed));
    let mut buffer = buffer_of(&rt, alloc, &[2]).expect(&rt, "memory");
    let answers = [
        add(&rt, alloc, &mut buffer, 1),
        add(&rt, alloc, &mut buffer, 2),
        made_ready(&rt, alloc, &mut buffer),
        made_ready(&rt, alloc, &mut buffer),
    ];
    let left = closed(&rt, alloc, buffer);
    assert!(rt; answers == [Ok(()), Ok(()), failed, failed]);
    let due = (Some(Trouble::Failed), 2, 1, 20, true);
    assert!(rt; seen(alloc, &left, &[8], 1) == Ok(due));
}

// What is told of a counter of this room after so many records were put into a buffer of this size: the answers to two calls more,
// why it was refused in the end, and how many records were put and pieces and bytes counted.
fn counted<R: Threads + Wait + Copy + Send + 'static>(
    rt: &R,
    alloc: Global,
    room: u32,
    size: usize,
    records: u32,
) -> Option<([Result<(), BufferFault>; 2], Option<Trouble>, u32, u32, u64)>
    requires { (24 ≤ size) × (size ≤ 4194304) }
{
    let mut buffer = Buffer::start(rt, alloc, Counter::with_room(room), size).ok()?;
    fill(rt, alloc, &mut buffer, records);
    let answers = [
        made_ready(rt, alloc, &mut buffer),
        made_ready(rt, alloc, &mut buffer),
    ];
    let left = closed(rt, alloc, buffer);
    Some((
        answers,
        left.refused,
        left.put,
        left.log.pieces,
        left.log.bytes,
    ))
}

#[test]
fn a_log_without_memory_is_refused(rt: HostRuntime) {
    let alloc = rt.alloc();
    let memory = Err(BufferFault::Trouble(Trouble::Memory));
    let due = ([memory, memory], Some(Trouble::Memory), 3, 2, 32);
    assert!(rt; counted(&rt, alloc, 0, 24, 3).is_none());
    assert!(rt; counted(&rt, alloc, 2, 24, 3) == Some(due));
}

#[test]
fn a_log_has_room_for_so_many_records(rt: HostRuntime) {
    let full = Err(BufferFault::LogFull);
    let due = ([full, full], None, 4_194_304, 26, 100_663_304);
    assert!(rt; counted(&rt, rt.alloc(), 100, 4_194_304, 4_194_304) == Some(due));
}

// Whether nothing was appended to the log.
fn is_empty(log: &MemLog) -> bool {
    log.bytes().is_empty() && log.lengths().is_empty()
}

// Puts two records, makes a child before the second one, and another once there is room for it, and tells whether they are empty.
fn empty_children<R: Threads + Wait + Copy + Send + 'static>(
    rt: &R,
    alloc: Global,
    buffer: &mut Buffer<MemLog>,
) -> Result<[bool; 2], BufferFault>
    requires { buffer.old.path ≡ [] }
{
    add(rt, alloc, buffer, 1)?;
    let before = is_empty(&buffer.child(rt, alloc, 0, 0, 2)?);
    buffer.ready(rt, alloc)?;
    let after = is_empty(&buffer.child(rt, alloc, 0, 1, 2)?);
    buffer.put(&barrier(2));
    Ok([before, after])
}

#[test]
fn a_child_leaves_its_parents_records(rt: HostRuntime) {
    let alloc = rt.alloc();
    let mut buffer = buffer_of(&rt, alloc, &[]).expect(&rt, "memory");
    let made = empty_children(&rt, alloc, &mut buffer);
    let left = closed(&rt, alloc, buffer);
    assert!(rt; made == Ok([true, true]));
    let due = (None, 2, 3, 56, true);
    assert!(rt; seen(alloc, &left, &[8, 24, 24], 2) == Ok(due));
}

// Why no child is made once a record was put.
fn refusal_of_child<R: Threads + Wait + Copy + Send + 'static>(
    rt: &R,
    alloc: Global,
    buffer: &mut Buffer<MemLog>,
) -> Result<Option<Trouble>, BufferFault>
    requires { buffer.old.path ≡ [] }
{
    add(rt, alloc, buffer, 1)?;
    Ok(buffer.child(rt, alloc, 0, 0, 2).err())
}

#[test]
fn a_child_that_fails_is_a_refusal(rt: HostRuntime) {
    let alloc = rt.alloc();
    let mut buffer = buffer_of(&rt, alloc, &[2]).expect(&rt, "memory");
    let refused = refusal_of_child(&rt, alloc, &mut buffer);
    let again = made_ready(&rt, alloc, &mut buffer);
    let left = closed(&rt, alloc, buffer);
    let failed = BufferFault::Trouble(Trouble::Failed);
    assert!(rt; (refused, again) == (Ok(Some(Trouble::Failed)), Err(failed)));
    let due = (Some(Trouble::Failed), 1, 1, 8, true);
    assert!(rt; seen(alloc, &left, &[8], 0) == Ok(due));
}

// Whether a child is made once two records were put.
fn has_child<R: Threads + Wait + Copy + Send + 'static>(
    rt: &R,
    alloc: Global,
    buffer: &mut Buffer<MemLog>,
) -> Result<bool, BufferFault>
    requires { buffer.old.path ≡ [] }
{
    add(rt, alloc, buffer, 1)?;
    add(rt, alloc, buffer, 2)?;
    Ok(buffer.child(rt, alloc, 0, 1, 2).is_ok())
}

// The same before a log whose call of this number fails, why the log was refused, and how many pieces it has in the end.
fn has_child_failing<R: Threads + Wait + Copy + Send + 'static>(
    rt: &R,
    alloc: Global,
    call: u64,
) -> Result<(bool, Option<Trouble>, usize), BufferFault> {
    let mut buffer = buffer_of(rt, alloc, &[call])?;
    let is_made = has_child(rt, alloc, &mut buffer);
    let left = closed(rt, alloc, buffer);
    Ok((is_made?, left.refused, left.log.lengths().len()))
}

#[test]
fn a_child_comes_when_what_was_sent_is_appended(rt: HostRuntime) {
    let failed = Some(Trouble::Failed);
    // The calls on the log are those of header, block and child.
    for (call, due) in [
        (0, (true, None, 3)),
        (2, (false, failed, 1)),
        (3, (false, failed, 2)),
    ] {
        let found = has_child_failing(&rt, rt.alloc(), call);
        assert!(rt; found == Ok(due), "call {call}");
    }
}

// What a test and a log tell each other: that the second append began, that it may go on, and how often it had to stop waiting.
#[derive(Drop)]
struct Flags {
    began: AtomicU64,
    may_go: AtomicU64,
    gave_up: AtomicU64,
}

// A log whose second append tells that it began, and waits until it may go on.
#[derive(Drop)]
struct Waiting {
    appends: u32,
    flags: Arc<Flags>,
}

/// How often one looks whether a flag is set.
const TURNS: u32 = 1_000_000;

impl Log for Waiting {
    ghost dir = { λ _. [] };

    ghost path = { λ _. [] };

    ghost text = { λ _. None };

    ghost faults = { λ _. 0 };

    fn child(&mut self, _: Global, _: u32, _: u16, _: u16) -> Result<Self, Trouble> {
        Err(Trouble::Memory)
    }

    fn append(&mut self, _alloc: Global, _piece: &[u8]) -> Result<(), Trouble> {
        self.appends = self.appends.saturating_add(1);
        if self.appends == 2 {
            self.flags.began.store(1, Ordering::SeqCst);
            if !is_set(&self.flags.may_go) {
                self.flags.gave_up.fetch_add(1, Ordering::SeqCst);
            }
        }
        Ok(())
    }
}

// Whether the flag is set before there were so many turns.
fn is_set(flag: &AtomicU64) -> bool {
    for _ in 0..TURNS {
        if flag.load(Ordering::SeqCst) > 0 {
            return true;
        }
        thread::yield_now();
    }
    false
}

// A log that waits, and what it shares with its test.
fn log_that_waits(alloc: Global) -> Result<(Waiting, Arc<Flags>), AllocError> {
    let flags = Flags {
        began: AtomicU64::new(0),
        may_go: AtomicU64::new(0),
        gave_up: AtomicU64::new(0),
    };
    let flags = Arc::new(alloc, flags)?;
    let log = Waiting {
        appends: 0,
        flags: Arc::try_clone(&flags)?,
    };
    Ok((log, flags))
}

// Puts a block of records and one more, and then another while the first block is appended, and tells whether that one was put.
fn is_put_meanwhile<R: Threads + Wait + Copy + Send + 'static>(
    rt: &R,
    alloc: Global,
    buffer: &mut Buffer<Waiting>,
    flags: &Flags,
) -> bool {
    // A block has room for 682 records.
    fill(rt, alloc, buffer, 683);
    // The first block is being appended, and no call of this thread waits for that.
    let began = is_set(&flags.began);
    let is_put = add(rt, alloc, buffer, 684).is_ok();
    flags.may_go.store(1, Ordering::SeqCst);
    began && is_put
}

#[test]
fn a_record_is_put_while_a_block_is_appended(rt: HostRuntime) {
    let alloc = rt.alloc();
    let (log, flags) = log_that_waits(alloc).expect(&rt, "memory");
    let mut buffer = Buffer::start(&rt, alloc, log, 16_384)
        .ok()
        .expect(&rt, "memory");
    let is_put = is_put_meanwhile(&rt, alloc, &mut buffer, &flags);
    let left = closed(&rt, alloc, buffer);
    let never_gave_up = flags.gave_up.load(Ordering::SeqCst) == 0;
    assert!(rt; is_put && never_gave_up);
    assert!(rt; (left.refused, left.put, left.log.appends) == (None, 684, 3));
}
