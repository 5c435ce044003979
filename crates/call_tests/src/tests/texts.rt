//! Refusals of folders that are made or changed byte by byte.

use crate::tests::fixtures::{Case, EMPTY, answers, folder_of};
use command_answer::FOLDER_REFUSED;
use made_folders::{BARRIER, END, ROOT, Rec, region, store};
use memory_environment::MemFolder;
use std::alloc::Global;
use std::process::Abort;

const CHECK: &[&str] = &["check", "d", "2"];

const TWO_LANES: Case<'static> = Case {
    tasks: &[(&[], ROOT), (&[(0, 0, 2)], &[END]), (&[(0, 1, 2)], &[END])],
    ..EMPTY
};

// A folder with these files of another one.
fn with_files(rt: &impl Abort, alloc: Global, whole: &MemFolder, names: &[&str]) -> MemFolder {
    let mut folder = MemFolder::new(alloc).expect(rt, "memory");
    for name in names {
        folder
            .hold(name, whole.file(name).expect(rt, "a file"))
            .expect(rt, "memory");
    }
    folder
}

#[test]
fn a_missing_log_is_named(rt: HostRuntime) {
    let alloc = rt.alloc();
    let whole = folder_of(&rt, alloc, &TWO_LANES);
    let names = ["d/index.swi", "d/t.swl", "d/t-0.0.swl"];
    let mut folder = with_files(&rt, alloc, &whole, &names);
    let text = "missing log t-0.1.swl\n";
    answers(&rt, alloc, &mut folder, CHECK, FOLDER_REFUSED, text);
}

const TEN: &[Rec] = &[
    store!(5, 0),
    store!(5, 8),
    store!(5, 16),
    store!(5, 24),
    store!(5, 32),
    store!(5, 40),
    store!(5, 48),
    store!(5, 56),
    BARRIER,
    END,
];

const OF_TEN: Case<'static> = Case {
    tasks: &[(&[], ROOT), (&[(0, 0, 2)], TEN), (&[(0, 1, 2)], TEN)],
    ..EMPTY
};

// Cuts a file to this length.
fn cut(rt: &impl Abort, alloc: Global, folder: &mut MemFolder, name: &str, length: usize) {
    let mut bytes = folder
        .file(name)
        .expect(rt, "a log")
        .to_vec(alloc)
        .expect(rt, "memory");
    bytes.truncate(length);
    folder.hold(name, &bytes).expect(rt, "memory");
}

#[test]
fn a_log_that_is_cut_is_named(rt: HostRuntime) {
    let alloc = rt.alloc();
    let mut folder = folder_of(&rt, alloc, &OF_TEN);
    cut(&rt, alloc, &mut folder, "d/t-0.1.swl", 162);
    let text = "bad log t-0.1.swl record 7: Cut\n";
    answers(&rt, alloc, &mut folder, CHECK, FOLDER_REFUSED, text);
}

// The records of a lane with so many segments.
fn segments(rt: &impl Abort, alloc: Global, count: u32) -> Vec<Rec> {
    let mut records = Vec::new(alloc);
    for _ in 0..count {
        records.push(store!(2, 4096)).expect(rt, "memory");
        records.push(BARRIER).expect(rt, "memory");
    }
    records.push(END).expect(rt, "memory");
    records
}

#[test]
fn a_segment_too_many_is_named(rt: HostRuntime) {
    let alloc = rt.alloc();
    let records = segments(&rt, alloc, 65_537);
    let lane = Case {
        tasks: &[(&[], &[region!(1, 1), END]), (&[(0, 0, 1)], &records)],
        ..EMPTY
    };
    let mut folder = folder_of(&rt, alloc, &lane);
    let text = "too many segments at t-0.0.swl record 131073\n";
    answers(&rt, alloc, &mut folder, CHECK, FOLDER_REFUSED, text);
}
