//! Folders in memory, made of tasks and their records.

use memory_environment::MemFolder;
use std::alloc::{AllocError, Global};
use sw_base::Memory;

/// A record: kind, size, line, address and value. Its site is 1 where it reads, else 0.
pub type Rec = (u8, u8, u32, u64, u64);

/// A step of a path: region, lane and span.
pub type Step = (u32, u16, u16);

/// A task: the steps of its path and its records.
pub type Task<'a> = (&'a [Step], &'a [Rec]);

/// The fork of a region in this line, of so many lanes.
#[macro_export]
macro_rules! region {
    ($line:expr, $span:expr) => {
        (6, 0, $line, 0, $span)
    };
}

/// A store of 8 bytes in this line at this address, of 1 where no value is given.
#[macro_export]
macro_rules! store {
    ($line:expr, $address:expr) => {
        (2, 8, $line, $address, 1)
    };
    ($line:expr, $address:expr, $value:expr) => {
        (2, 8, $line, $address, $value)
    };
}

/// The lock of a mutex in this line.
#[macro_export]
macro_rules! lock {
    ($line:expr, $mutex:expr) => {
        (3, 0, $line, $mutex, 0)
    };
}

/// The unlock of a mutex in this line.
#[macro_export]
macro_rules! unlock {
    ($line:expr, $mutex:expr) => {
        (4, 0, $line, $mutex, 0)
    };
}

pub const BARRIER: Rec = (5, 0, 7, 0, 0);

pub const END: Rec = (8, 0, 9, 0, 0);

/// A root that forks two lanes.
pub const ROOT: &[Rec] = &[(6, 0, 1, 0, 2), (8, 0, 9, 0, 0)];

fn spell(bytes: &mut Vec<u8>, record: &Rec) -> Result<(), AllocError> {
    let (kind, size, line, address, value) = record;
    let site = if *kind == 1 { 1 } else { 0 };
    bytes.extend_from_slice(&[*kind, *size, 0, site])?;
    bytes.extend_from_slice(&line.to_be_bytes())?;
    bytes.extend_from_slice(&address.to_be_bytes())?;
    bytes.extend_from_slice(&value.to_be_bytes())
}

fn spell_step(bytes: &mut Vec<u8>, step: &Step) -> Result<(), AllocError> {
    let (region, lane, span) = step;
    bytes.extend_from_slice(&region.to_be_bytes())?;
    bytes.extend_from_slice(&lane.to_be_bytes())?;
    bytes.extend_from_slice(&span.to_be_bytes())
}

fn spell_row(bytes: &mut Vec<u8>, steps: &[Step], records: usize) -> Result<(), AllocError> {
    bytes.extend_from_slice(&[0, 0, 0, steps.len().min(255) as u8, 0, 0, 0, 0])?;
    for at in 0..4 {
        spell_step(bytes, steps.get(at).unwrap_or(&(0, 0, 0)))?;
    }
    bytes.extend_from_slice(&(records as u64).to_be_bytes())
}

fn log_name(alloc: Global, steps: &[Step]) -> Result<String, Memory> {
    let mut name = String::from_str(alloc, "d/t")?;
    for (region, lane, _) in steps {
        write!(name, "-{region}.{lane}")?;
    }
    name.push_str(".swl")?;
    Ok(name)
}

// Puts the log of a task into the folder `d`, with this header.
fn hold_log(
    alloc: Global,
    folder: &mut MemFolder,
    header: &[u8],
    task: &Task<'_>,
) -> Result<(), Memory> {
    let (steps, records) = task;
    let mut log = header.to_vec(alloc)?;
    for record in records.iter() {
        spell(&mut log, record)?;
    }
    folder.hold(&log_name(alloc, steps)?, &log)
}

// Puts the logs of these tasks into the folder `d`, and an index with their rows, each file with the header of its kind.
fn hold_under(
    alloc: Global,
    folder: &mut MemFolder,
    of_index: &[u8],
    of_log: &[u8],
    tasks: &[Task<'_>],
) -> Result<(), Memory> {
    let mut index = of_index.to_vec(alloc)?;
    for task in tasks {
        hold_log(alloc, folder, of_log, task)?;
        spell_row(&mut index, task.0, task.1.len())?;
    }
    folder.hold("d/index.swi", &index)
}

/// Puts the logs of these tasks into the folder `d`, and an index with their rows.
pub fn hold_tasks(alloc: Global, folder: &mut MemFolder, tasks: &[Task<'_>]) -> Result<(), Memory> {
    hold_under(alloc, folder, b"SWIDX002", b"SWLOG002", tasks)
}

/// The same by the first format.
pub fn hold_old_tasks(
    alloc: Global,
    folder: &mut MemFolder,
    tasks: &[Task<'_>],
) -> Result<(), Memory> {
    hold_under(alloc, folder, b"SWIDX001", b"SWLOG001", tasks)
}
