//! A task of a kernel that goes on until its end, and the story of it.

use kernel_reader::read_kernel;
use kernel_syntax::{Kernel, Stmt, Team};
use log_index::Row;
use log_listing::list;
use memory_environment::{MemFolder, MemOut};
use serial_run::{Halt, Locals, Pause, SerialLane, SerialMemory, TaskPlace};
use std::alloc::{AllocError, Global};
use std::test::Fail;
use sw_base::{LOG_HEADER, Memory as NoMemory, Path};

/// A task of a kernel, and what becomes of it.
#[derive(Clone, Copy, Drop)]
pub(crate) struct Case<'a> {
    pub text: &'a str,
    /// A lane of the region that `main` begins with. None is `main` itself.
    pub lane: Option<u16>,
    /// How many records its log has before it begins.
    pub count: u32,
    /// How many records the run may make.
    pub left: u32,
    pub story: &'a str,
}

/// `main`, with room for all its records.
pub(crate) const MAIN: Case<'static> = Case {
    text: "",
    lane: None,
    count: 0,
    left: 100,
    story: "",
};

// The team of the region that `main` begins with, or else that of `main`.
fn team_of(kernel: &Kernel, lane: Option<u16>) -> &Team {
    match (lane, kernel.main.body.stmts.first()) {
        (Some(_), Some(Stmt::Parallel { team })) => team,
        _ => &kernel.main,
    }
}

// Adds the listing of a log.
fn put_log(alloc: Global, text: &mut String, log: &[u8], records: u32) -> Result<(), NoMemory> {
    let mut folder = MemFolder::new(alloc)?;
    folder.hold("d/t.swl", log)?;
    let path = Path::root();
    let rows = vec![in alloc; Row { path, records }]?;
    let mut out = MemOut::new(alloc)?;
    if list(alloc, &mut folder, &mut out, "d", &rows).is_err() {
        text.push_str("no listing")?;
    }
    text.push_str(&String::from_utf8_lossy(alloc, out.written())?)?;
    Ok(())
}

/// Adds a line of all words, as signed numbers.
pub(crate) fn put_words(text: &mut String, words: &[u64]) -> Result<(), AllocError> {
    text.push_str("words")?;
    for word in words {
        let value = word.cast_signed();
        write!(text, " {value}")?;
    }
    text.push_str("\n")
}

// Adds a line for a stop.
fn put_halt(text: &mut String, halt: Halt) -> Result<(), AllocError> {
    match halt {
        Halt::Stops { why, line } => {
            let name = why.name();
            write!(text, "line {line}: {name}\n")
        }
        Halt::Long => text.push_str("too long\n"),
        Halt::Refused => text.push_str("refused\n"),
        Halt::Memory => text.push_str("no memory\n"),
    }
}

// Adds a line for a place where the task stands still. Whether it goes on.
fn put_pause(text: &mut String, pause: &Pause<'_>) -> Result<bool, AllocError> {
    match pause {
        Pause::Barrier => text.push_str("waits\n")?,
        Pause::Fork(team) => {
            let span = team.span;
            write!(text, "forks {span}\n")?
        }
        Pause::Ended => {
            text.push_str("ends\n")?;
            return Ok(false);
        }
    }
    Ok(true)
}

// Adds a line for each place where the task stands still and for its stop. Each time that it stands still others add 100 to word 7.
fn put_stands(
    text: &mut String,
    lane: &mut SerialLane<'_>,
    memory: &mut SerialMemory,
) -> Result<(), AllocError> {
    for number in 1..=20u64 {
        match lane.resume(memory) {
            Ok(pause) => {
                if !put_pause(text, &pause)? {
                    return Ok(());
                }
            }
            Err(halt) => return put_halt(text, halt),
        }
        memory.store(7, 100 * number);
    }
    Ok(())
}

// What becomes of a case: where its task stands still, the words then, and its records.
fn story(alloc: Global, case: &Case<'_>) -> Result<String, Fail> {
    let kernel = read_kernel(alloc, case.text.as_bytes())?;
    let team = team_of(&kernel, case.lane);
    let number = case.lane.unwrap_or(0);
    let mut text = String::new(alloc);
    if number >= team.span {
        text.push_str("no such lane")?;
        return Ok(text);
    }
    let arrays = kernel.arrays.as_slice();
    let place = TaskPlace::new(arrays, number, team.span);
    let locals = Locals {
        slots: vec![in alloc; 0i64; 8]?,
    };
    let log = LOG_HEADER.to_vec(alloc)?;
    let mut memory = SerialMemory {
        words: vec![in alloc; 0u64; 8]?,
        left: case.left,
    };
    let mut lane = SerialLane::start(alloc, place, team, locals, log)
        .ok()
        .ok_or("no memory")?;
    lane.track.count = case.count;
    put_stands(&mut text, &mut lane, &mut memory)?;
    put_words(&mut text, &memory.words)?;
    let made = lane.track.count.saturating_sub(case.count);
    put_log(alloc, &mut text, &lane.track.log, made)?;
    Ok(text)
}

/// Fails with the first story that isn't that of its case.
pub(crate) fn tell(alloc: Global, cases: &[Case<'_>]) -> Result<(), Fail> {
    for case in cases {
        let found = story(alloc, case)?;
        if found.as_str() != case.story {
            return Err(Fail::from(found));
        }
    }
    Ok(())
}
