//! What a log has of the blocks that it was given, with a writer and without one.
ghost use Rattle.std.specs.Prelude.{◌≡◌, ◌<◌, ◌≤◌, [], length, None, Some, IfOk};
ghost use Rattle.sw_base.specs.Environment.{WhereTold, empty_text};
ghost use Rattle.memory_environment.specs.MemLog.{path_of, text_of, faults_of};

use event_block::Block;
use flush_writer::Flusher;
use memory_environment::MemLog;
use std::alloc::Global;
use std::marker::Send;
use std::sync::Wait;
use std::test::Fail;
use std::thread::Threads;
use sw_base::{LOG_HEADER, Log, Trouble};

/// The stack of a writer, and one that no thread can have.
const STACK: usize = 256 * 1024;

const NO_THREAD: usize = usize::MAX;

// A new log, whose calls of these numbers fail.
fn root(alloc: Global, failing: &[u64]) -> Result<MemLog, Fail>
    ensures path { IfOk result (λ log. path_of log ≡ []) }
    ensures text { IfOk result (λ log. text_of log ≡ Some empty_text) }
    ensures faults { IfOk result (λ log. faults_of log ≡ 0) }
{
    let mut log = MemLog::new(alloc, "d")?;
    log.fail(failing)?;
    Ok(log)
}

// Puts as many pieces of this byte as fit into an empty block.
fn fill(block: &mut Block, byte: u8)
    requires empty { block.old.bytes ≡ [] }
    ensures size { block.new.size ≡ block.old.size }
    ensures some { 0 < length block.new.bytes }
{
    let more = block.size() / 24 - 1;
    block.push(&[byte; 24]);
    for _ in 0..more {
        block.push(&[byte; 24]);
    }
}

// What a task left: how many blocks its log took from it, and why it took no more.
#[derive(Drop)]
struct Left<L: Log> {
    given: u8,
    refused: Option<Trouble>,
    log: L,
}

// What a task leaves that gives what its block has last.
fn ended<L: Log, R: Wait>(
    rt: &R,
    alloc: Global,
    flusher: Flusher<L>,
    rest: Block,
    given: u8,
) -> Left<L> {
    match flusher.finish(rt, alloc, rest) {
        Ok(log) => Left {
            given,
            refused: None,
            log,
        },
        Err((trouble, log)) => Left {
            given,
            refused: Some(trouble),
            log,
        },
    }
}

// Gives this block full, if the log takes it.
fn give<L: Log, R: Threads + Wait + Copy + Send + 'static>(
    rt: &R,
    alloc: Global,
    flusher: &mut Flusher<L>,
    block: Block,
    byte: u8,
) -> Result<Block, Block>
    requires unrefused { flusher.old.refused ≡ None }
    requires block { block ≡ record { size = flusher.old.size; bytes = [] } }
    ensures unrefused { IfOk result (λ block. flusher.new.refused ≡ None) }
    ensures block { IfOk result (λ block. block ≡ record { size = flusher.new.size; bytes = [] }) }
    ensures path { IfOk result (λ block. flusher.new.path ≡ flusher.old.path) }
{
    let mut block = block;
    fill(&mut block, byte);
    match flusher.give(rt, alloc, block) {
        Ok(empty) => Ok(empty),
        Err((_, full)) => Err(full),
    }
}

// Gives so many full blocks, or tells how many the log took and which one it didn't.
fn give_many<L: Log, R: Threads + Wait + Copy + Send + 'static>(
    rt: &R,
    alloc: Global,
    flusher: &mut Flusher<L>,
    block: Block,
    blocks: u8,
) -> Result<Block, (u8, Block)>
    requires unrefused { flusher.old.refused ≡ None }
    requires block { block ≡ record { size = flusher.old.size; bytes = [] } }
{
    let mut block = block;
    for given in 0..blocks {
        match give(rt, alloc, flusher, block, given) {
            Ok(empty) => block = empty,
            Err(full) => return Err((given, full)),
        }
    }
    Ok(block)
}

// Gives so many full blocks, and one piece more, as far as the log takes them.
fn give_all<L: Log, R: Threads + Wait + Copy + Send + 'static>(
    rt: &R,
    alloc: Global,
    mut flusher: Flusher<L>,
    block: Block,
    blocks: u8,
) -> Left<L>
    requires unrefused { flusher.refused ≡ None }
    requires block { block ≡ record { size = flusher.size; bytes = [] } }
{
    match give_many(rt, alloc, &mut flusher, block, blocks) {
        Ok(mut block) => {
            block.push(&[blocks; 24]);
            ended(rt, alloc, flusher, block, blocks)
        }
        Err((given, full)) => ended(rt, alloc, flusher, full, given),
    }
}

// A task that gives so many full blocks of this size, and one piece more.
fn task<L: Log, R: Threads + Wait + Copy + Send + 'static>(
    rt: &R,
    alloc: Global,
    log: L,
    size: usize,
    stack: usize,
    blocks: u8,
) -> Left<L>
    requires size { (24 ≤ size) × (size ≤ 4194304) }
    requires empty { WhereTold (L.text log) (λ text. text ≡ empty_text) }
    requires no_faults { L.faults log ≡ 0 }
{
    match Flusher::start(rt, alloc, log, size) {
        Ok((flusher, block)) => give_all(rt, alloc, flusher.with_stack(stack), block, blocks),
        Err((trouble, log)) => Left {
            given: 0,
            refused: Some(trouble),
            log,
        },
    }
}

// The bytes of a log of the header and so many blocks of so many pieces.
fn log_of(alloc: Global, blocks: u8, pieces: usize) -> Result<Vec<u8>, Fail> {
    let mut bytes = LOG_HEADER.to_vec(alloc)?;
    for block in 0..blocks {
        for _ in 0..pieces {
            bytes.extend_from_slice(&[block; 24])?;
        }
    }
    Ok(bytes)
}

#[test]
fn blocks_are_pieces_in_their_order(rt: HostRuntime) -> Result<(), Fail> {
    let alloc = rt.alloc();
    for (size, pieces) in [(24, 1), (25, 1), (47, 1), (48, 2), (100, 4), (4096, 170)] {
        for stack in [STACK, NO_THREAD] {
            for blocks in [0, 1, 2, 9] {
                let left = task(&rt, alloc, root(alloc, &[])?, size, stack, blocks);
                let mut bytes = log_of(alloc, blocks, pieces)?;
                bytes.extend_from_slice(&[blocks; 24])?;
                assert!(rt; left.refused.is_none());
                assert!(rt; left.log.bytes() == bytes.as_slice(), "size {size}");
                let lengths = left.log.lengths();
                assert!(rt; lengths.len() == usize::from(blocks) + 2, "size {size}");
                let full = lengths
                    .iter()
                    .filter(|length| **length == pieces * 24)
                    .count();
                assert!(rt; full >= usize::from(blocks), "size {size}");
            }
        }
    }
    Ok(())
}

#[test]
fn a_refusal_is_answered_at_the_next_call_and_nothing_is_given_again(
    rt: HostRuntime,
) -> Result<(), Fail> {
    let alloc = rt.alloc();
    // the call that fails, how many blocks were taken from the task, and how many pieces and bytes its log has
    for (call, given, pieces, bytes) in [
        (1, 0, 0, 4),
        (2, 1, 1, 32),
        (3, 2, 2, 80),
        (6, 5, 5, 224),
        (7, 5, 6, 260),
    ] {
        for stack in [STACK, NO_THREAD] {
            let left = task(&rt, alloc, root(alloc, &[call])?, 48, stack, 5);
            assert!(rt; left.refused == Some(Trouble::Failed), "call {call}");
            assert!(rt; left.given == given, "call {call}");
            assert!(rt; left.log.lengths().len() == pieces, "call {call}");
            assert!(rt; left.log.bytes().len() == bytes, "call {call}");
        }
    }
    Ok(())
}

// Whether a log was made behind a full block, and what the task left that asked for it.
fn with_child<R: Threads + Wait + Copy + Send + 'static>(
    rt: &R,
    alloc: Global,
    log: MemLog,
    stack: usize,
) -> Result<(bool, Left<MemLog>), Fail>
    requires path { path_of log ≡ [] }
    requires text { text_of log ≡ Some empty_text }
    requires faults { faults_of log ≡ 0 }
{
    let Ok((flusher, block)) = Flusher::start(rt, alloc, log, 48) else {
        return Err(Fail::from("no log"));
    };
    let mut flusher = flusher.with_stack(stack);
    let Ok(mut block) = give(rt, alloc, &mut flusher, block, 1) else {
        return Err(Fail::from("not given"));
    };
    let is_made = flusher.child(rt, alloc, 0, 1, 2).is_ok();
    block.push(&[2; 24]);
    Ok((is_made, ended(rt, alloc, flusher, block, 1)))
}

#[test]
fn a_child_is_asked_when_all_that_was_given_is_appended(rt: HostRuntime) -> Result<(), Fail> {
    let alloc = rt.alloc();
    // the call on the log that fails, of header, block and child, and how many pieces the log has in the end
    for (call, pieces) in [(0, 3), (2, 1), (3, 2)] {
        for stack in [STACK, NO_THREAD] {
            let (is_made, left) = with_child(&rt, alloc, root(alloc, &[call])?, stack)?;
            assert!(rt; is_made == (call == 0), "call {call}");
            assert!(rt; left.refused.is_none() == is_made, "call {call}");
            assert!(rt; left.log.lengths().len() == pieces, "call {call}");
        }
    }
    Ok(())
}
