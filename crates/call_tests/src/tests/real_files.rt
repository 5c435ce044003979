//! Commands over real files: an upgrade, a run whose log is deleted, and a kernel that is no regular file.

use super::upgrades::{COUNTED, OLD};
use crate::tests::fixtures::{asked, folder_of, printed};
use command_answer::{DONE, FOLDER_REFUSED, INDEX_THERE, READ_FAULT, WRITE_FAULT};
use host_environment::HostFolder;
use made_folders::fresh;
use memory_environment::MemOut;
use std::alloc::Global;
use std::fs;
use std::marker::Send;
use std::process::Abort;
use std::rt::Files;
use std::sync::Wait;
use std::thread::Threads;
use sw_base::{Folder, Gate};

type Host = HostFolder<HostRuntime>;

// Makes real files, below this folder, of the logs and the index of the run that was counted.
fn put_files(rt: &impl Abort, alloc: Global, folder: &mut Host, top: &str) {
    let files = folder_of(rt, alloc, &COUNTED);
    for name in ["d/index.swi", "d/t.swl", "d/t-0.0.swl", "d/t-0.1.swl"] {
        let bytes = files.file(name).expect(rt, "a file");
        let path = format!(in alloc; "{top}/{name}").expect(rt, "memory");
        folder.put(alloc, &path, bytes).expect(rt, name);
    }
}

// What is asked of the folders below one, the last of which isn't there yet.
const ASKED: &[(&str, &str, &str, u8, &str)] = &[
    ("check", "d", "2", FOLDER_REFUSED, OLD),
    ("upgrade", "d", "new/e", DONE, "upgraded 3\n"),
    ("check", "new/e", "2", DONE, "races 0\n"),
    ("upgrade", "d", "new/e", INDEX_THERE, "index exists\n"),
    ("upgrade", "d", "new/../d", INDEX_THERE, "index exists\n"),
    (
        "upgrade",
        "new/e",
        "f",
        FOLDER_REFUSED,
        "bad index row 0: Header\n",
    ),
];

// Aborts where these words come to another status or text.
fn is_answered<'a, R: Abort + Threads + Wait + Sync + Copy + Send + 'static>(
    rt: &R,
    alloc: Global,
    folder: &mut Host,
    words: (&'a str, &'a str, &'a str),
    status: u8,
    text: &str,
) {
    let (command, dir, last) = words;
    let (answered, out) = printed(rt, alloc, folder, &[command, dir, last], &[]);
    assert!(rt;
        answered == status && out.written() == text.as_bytes(),
        "{command} {dir}"
    );
}

// Aborts where real files below this folder are answered otherwise.
fn real_files_answer<R: Abort + Threads + Wait + Sync + Copy + Send + 'static>(
    rt: &R,
    alloc: Global,
    folder: &mut Host,
    top: &str,
) {
    for (command, dir, last, status, text) in ASKED {
        let dir = format!(in alloc; "{top}/{dir}").expect(rt, "memory");
        let new = format!(in alloc; "{top}/{last}").expect(rt, "memory");
        if *command == "check" {
            let words = (*command, dir.as_str(), *last);
            is_answered(rt, alloc, folder, words, *status, *text);
        } else {
            let words = (*command, dir.as_str(), new.as_str());
            is_answered(rt, alloc, folder, words, *status, *text);
        }
    }
}

#[test]
fn real_files_are_brought_over(rt: HostRuntime) {
    let alloc = rt.alloc();
    let top = fresh(&rt, "upgrades").expect(&rt, "a name");
    let mut folder = HostFolder::new(rt);
    put_files(&rt, alloc, &mut folder, &top);
    real_files_answer(&rt, alloc, &mut folder, &top);
    fs::remove_dir_all(&rt, &top).expect(&rt, "no folder");
}

// Removes a file as soon as a lane of number 1 starts.
#[derive(Drop)]
struct Remover<R> {
    rt: R,
    name: String,
}

impl<R: Files + Sync> Gate for Remover<R> {
    fn enter(&self, number: usize) {
        if number == 1 {
            let _ = fs::remove_file(&self.rt, &self.name);
        }
    }
}

#[test]
fn a_run_whose_log_is_deleted_is_not_done(rt: HostRuntime) {
    let alloc = rt.alloc();
    let dir = fresh(&rt, "deleted").expect(&rt, "a name");
    let kernel = format!(in alloc; "{dir}/k").expect(&rt, "memory");
    let name = format!(in alloc; "{dir}/t-0.1.swl").expect(&rt, "memory");
    let gate = Remover { rt, name };
    let mut folder = HostFolder::new(rt);
    let text = b"array a i64 8\nmain { parallel 2 { for i in 0 .. 8 { a[i] = i } } }\n";
    folder.put(alloc, &kernel, text).expect(&rt, "a file");
    let mut out = MemOut::new(alloc).expect(&rt, "memory");
    let words = ["run", kernel.as_str(), dir.as_str(), "24"];
    let status = asked(&rt, alloc, &mut folder, &words, &mut out, &gate);
    assert!(rt; status == WRITE_FAULT && out.written().is_empty() && folder.faults() == (0, 1));
    fs::remove_dir_all(&rt, &dir).expect(&rt, "no folder");
}

#[test]
fn a_kernel_that_is_no_regular_file_is_not_read(rt: HostRuntime) {
    let alloc = rt.alloc();
    let mut folder = HostFolder::new(rt);
    let dir = fresh(&rt, "device").expect(&rt, "a name");
    let words = ["run", "/dev/null", dir.as_str(), "4096"];
    let (status, out) = printed(&rt, alloc, &mut folder, &words, &[]);
    assert!(rt; status == READ_FAULT && out.written().is_empty() && folder.faults() == (1, 0));
}
