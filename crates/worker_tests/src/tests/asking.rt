//! The top call, asked in words over a folder in memory.
//!
//! The contract of `sword` is met here alone: each proof that calls it carries all of it.

use made_folders::{Task, hold_tasks, texts};
use memory_environment::{MemFolder, MemOut};
use std::alloc::Global;
use std::marker::Send;
use std::process::Abort;
use std::sync::Wait;
use std::thread::Threads;
use sw_base::{Folder, Gate, NoGate};
use top_call::sword;

/// The folder that holds these tasks.
pub fn folder_of(rt: &impl Abort, alloc: Global, tasks: &[Task<'_>]) -> MemFolder {
    let mut folder = MemFolder::new(alloc).expect(rt, "memory");
    hold_tasks(alloc, &mut folder, tasks).expect(rt, "memory");
    folder
}

/// The status of what these words ask for.
pub fn asked<R: Abort + Threads + Wait + Sync + Copy + Send + 'static, F: Folder, G: Gate>(
    rt: &R,
    alloc: Global,
    folder: &mut F,
    given: &[&str],
    out: &mut MemOut,
    gate: &G,
) -> u8 {
    let words = texts(alloc, given).expect(rt, "memory");
    sword(rt, alloc, &words, folder, out, gate)
}

/// The same, and what is printed.
pub fn printed<R: Abort + Threads + Wait + Sync + Copy + Send + 'static>(
    rt: &R,
    alloc: Global,
    folder: &mut MemFolder,
    given: &[&str],
) -> (u8, MemOut) {
    let mut out = MemOut::new(alloc).expect(rt, "memory");
    let status = asked(rt, alloc, folder, given, &mut out, &NoGate);
    (status, out)
}
