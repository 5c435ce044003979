//! What the command `run` answers and prints, and what it leaves in the folder.

use command_answer::{DONE, INDEX_THERE, KERNEL_STOPPED};
use memory_environment::{MemFolder, MemOut};
use run_command::{print_outcome, run};
use std::alloc::Global;
use std::marker::Send;
use std::process::Abort;
use std::sync::Wait;
use std::thread::Threads;
use sw_base::NoGate;

// One lane stores once.
const STORE: &str = "array a i64 1\nmain { parallel 1 {\nfor i in 0 .. 1 { a[0] = 7 }\n} }\n";

// The lane's second store is past the array's end.
const BEYOND: &str = "array a i64 1\nmain { parallel 1 {\nfor i in 0 .. 2 { a[i] = 7 }\n} }\n";

const INDEX: &str = "d/index.swi";

// Whether a run of the kernel that the folder holds is answered so.
fn is_answered<R: Abort + Threads + Wait + Sync + Copy + Send + 'static>(
    rt: &R,
    alloc: Global,
    folder: &mut MemFolder,
    status: u8,
    text: &str,
) -> bool {
    let mut out = MemOut::new(alloc).expect(rt, "memory");
    let outcome = run(rt, alloc, "k", "d", 48, folder, &NoGate, false);
    let answered = print_outcome(alloc, &mut out, &outcome);
    answered == status && out.written() == text.as_bytes()
}

// Whether the folder has an index of this length, or none.
fn has_index(folder: &MemFolder, length: Option<usize>) -> bool {
    match (folder.file(INDEX), length) {
        (Some(index), Some(length)) => index.len() == length,
        (None, None) => true,
        _ => false,
    }
}

// Whether the logs of the root and of its one lane were sealed, the root's first, in these pieces, and no other.
fn are_sealed(folder: &MemFolder, root: &[usize], lane: &[usize]) -> bool {
    folder.sealed_name(0) == Some("d/t.swl")
        && folder.sealed_lengths(0) == Some(root)
        && folder.sealed_name(1) == Some("d/t-0.0.swl")
        && folder.sealed_lengths(1) == Some(lane)
        && folder.sealed_name(2).is_none()
}

fn with_kernel(rt: &impl Abort, alloc: Global, text: &str) -> MemFolder {
    let mut folder = MemFolder::new(alloc).expect(rt, "memory");
    folder.hold("k", text.as_bytes()).expect(rt, "memory");
    folder
}

#[test]
fn one_store_is_run(rt: HostRuntime) {
    let alloc = rt.alloc();
    let mut folder = with_kernel(&rt, alloc, STORE);
    let text = "tasks 2\nrecords 5\nsum a 7\n";
    assert!(rt; is_answered(&rt, alloc, &mut folder, DONE, text));
    assert!(rt; are_sealed(&folder, &[8, 48], &[8, 48, 24]) && has_index(&folder, Some(104)));

    let text = "index exists\n";
    assert!(rt; is_answered(&rt, alloc, &mut folder, INDEX_THERE, text));
    assert!(rt; folder.sealed_name(2).is_none());
}

#[test]
fn a_stop_is_told(rt: HostRuntime) {
    let alloc = rt.alloc();
    let mut folder = with_kernel(&rt, alloc, BEYOND);
    let text = "stopped t-0.0.swl line 3: Index\n";
    assert!(rt; is_answered(&rt, alloc, &mut folder, KERNEL_STOPPED, text));
    assert!(rt; are_sealed(&folder, &[8, 24], &[8, 24]) && has_index(&folder, None));
}
