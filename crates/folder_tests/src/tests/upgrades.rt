//! Folders of the first format that are walked by it and brought over.

use generated_run::generate;
use log_upgrade::{UpgradeFault, upgrade};
use log_walk::{Segment, WalkFault, walk, walk_old};
use memory_environment::MemFolder;
use race_model::IndexWhy;
use std::alloc::Global;
use std::process::Abort;
use std::test::Fail;
use sw_base::{Folder, OLD_INDEX_HEADER, OLD_LOG_HEADER, index_name};

// The files of a generated run.
const FILES: &[&str] = &[
    "index.swi",
    "t.swl",
    "t-0.0.swl",
    "t-0.1.swl",
    "t-0.2.swl",
    "t-0.3.swl",
    "t-0.4.swl",
    "t-0.5.swl",
    "t-0.6.swl",
    "t-0.7.swl",
];

// The same bytes under the header of the first format.
fn old_bytes(rt: &impl Abort, alloc: Global, name: &str, bytes: &[u8]) -> Vec<u8> {
    let header = if name == "index.swi" {
        OLD_INDEX_HEADER
    } else {
        OLD_LOG_HEADER
    };
    let rest = bytes.get(8..).expect(rt, "a header");
    [header.as_slice(), rest].concat(alloc).expect(rt, "memory")
}

// A generated run in the folder `n`, and the same by the first format in `d`.
fn both(rt: &impl Abort, alloc: Global) -> MemFolder {
    let mut folder = MemFolder::new(alloc).expect(rt, "memory");
    generate(alloc, &mut folder, "n", 3).expect(rt, "a run");
    for name in FILES {
        let from = format!(in alloc; "n/{name}").expect(rt, "memory");
        let bytes = old_bytes(rt, alloc, name, folder.file(&from).expect(rt, "a file"));
        let to = format!(in alloc; "d/{name}").expect(rt, "memory");
        folder.hold(&to, &bytes).expect(rt, "memory");
    }
    folder
}

// The first file that isn't the same in the folders `n` and `e`.
fn first_other(rt: &impl Abort, alloc: Global, folder: &MemFolder) -> Option<&'static str> {
    for name in FILES {
        let due = format!(in alloc; "n/{name}").expect(rt, "memory");
        let made = format!(in alloc; "e/{name}").expect(rt, "memory");
        if folder.file(&due).is_none() || folder.file(&due) != folder.file(&made) {
            return Some(*name);
        }
    }
    None
}

// Brings a folder over to another one, and how that failed, unless the other one has an index.
fn brought<F: Folder>(
    alloc: Global,
    folder: &mut F,
    dir: &str,
    new: &str,
) -> Result<u32, Option<UpgradeFault>> {
    let name = match index_name(alloc, new) {
        Ok(name) => name,
        Err(_) => return Err(None),
    };
    match folder.size(alloc, &name) {
        Ok(None) => upgrade(alloc, folder, dir, new).map_err(Some),
        _ => Err(None),
    }
}

// How many segments a walk found.
fn segments_of(walked: Result<Vec<Segment>, WalkFault>) -> Option<usize> {
    Some(walked.ok()?.len())
}

#[test]
fn a_folder_that_was_brought_over_is_the_one_that_is_written_now(
    rt: HostRuntime,
) -> Result<(), Fail> {
    let alloc = rt.alloc();
    let mut folder = both(&rt, alloc);
    let old = segments_of(walk_old(alloc, &mut folder, "d"));
    let logs = brought(alloc, &mut folder, "d", "e").ok();
    let new = segments_of(walk(alloc, &mut folder, "e"));
    assert!(rt; (old, logs, new) == (Some(16), Some(9), Some(16)));
    match first_other(&rt, alloc, &folder) {
        Some(name) => Err(Fail::from(name)),
        None => Ok(()),
    }
}

fn is_header(fault: &WalkFault) -> bool {
    matches!(fault, WalkFault::BadIndex { row: 0, why } if *why == IndexWhy::Header)
}

// Whether a folder isn't brought over for its header.
fn is_refused(answer: Result<u32, Option<UpgradeFault>>) -> bool {
    match answer {
        Err(Some(UpgradeFault::Walk(fault))) => is_header(&fault),
        _ => false,
    }
}

// A folder of the second format isn't one of the first.
#[test]
fn what_is_of_the_second_format_is_not_brought_over(rt: HostRuntime) {
    let alloc = rt.alloc();
    let mut folder = both(&rt, alloc);
    let walked = walk_old(alloc, &mut folder, "n").err();
    let told = [
        walked.is_some_and(|fault| is_header(&fault)),
        is_refused(brought(alloc, &mut folder, "n", "e")),
        folder.file("e/t.swl").is_none(),
        folder.file("e/index.swi").is_none(),
    ];
    assert!(rt; told == [true; 4], "{told:?}");
}
