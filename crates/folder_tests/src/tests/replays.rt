//! Tasks of kernels against logs made by hand.
ghost use Rattle.kernel_syntax.specs.Bounds.{IsBoundedCode};
ghost use Rattle.kernel_syntax.specs.Program.{code_of};

use kernel_reader::read_kernel;
use kernel_syntax::{Kernel, Stmt, Team};
use log_format::{Kind, Record, encode};
use log_replay::{Stray, follow};
use memory_environment::MemFolder;
use std::alloc::Global;
use std::test::Fail;
use sw_base::{LOG_HEADER, Memory, Path};

// The team of the region that `main` begins with, or else that of `main`.
fn first_team(kernel: &Kernel) -> &Team
    requires { IsBoundedCode (code_of kernel.now.main.body.stmts.items) }
    ensures { IsBoundedCode (code_of result.now.body.stmts.items) }
{
    match kernel.main.body.stmts.first() {
        Some(Stmt::Parallel { team }) => team,
        _ => &kernel.main,
    }
}

// A folder with the log of a task that has these records.
fn folder_of(alloc: Global, records: &[Record]) -> Result<MemFolder, Memory> {
    let mut bytes = LOG_HEADER.to_vec(alloc)?;
    for record in records {
        bytes.extend_from_slice(&encode(record))?;
    }
    let mut folder = MemFolder::new(alloc)?;
    folder.hold("d/t.swl", &bytes)?;
    Ok(folder)
}

// The record at which a lane of the kernel's first team leaves its log, or 0, and how many regions it forked.
fn answer(alloc: Global, text: &str, lane: u16, records: &[Record]) -> Result<(u32, usize), Fail> {
    let mut folder = folder_of(alloc, records)?;
    let slots = vec![in alloc; 0i64; 4]?;
    let count = records.len().min(100) as u32;
    let kernel = read_kernel(alloc, text.as_bytes())?;
    let team = first_team(&kernel);
    let arrays = kernel.arrays.as_slice();
    if lane >= team.span {
        return Ok((99, 0));
    }
    match follow(
        alloc,
        &mut folder,
        "d",
        &Path::root(),
        count,
        arrays,
        team,
        lane,
        slots,
    ) {
        Ok(forks) => Ok((0, forks.len())),
        Err(Stray::Differs { number }) => Ok((number, 0)),
        Err(_) => Ok((98, 0)),
    }
}

// A kernel, a lane, its records, and the answer.
type Case<'a> = (&'a str, u16, &'a [Record], (u32, usize));

// Fails with the number, from 0, of the first of these cases that has another answer.
fn are_answered(alloc: Global, cases: &[Case<'_>]) -> Result<(), Fail> {
    for (number, (text, lane, records, due)) in cases.iter().enumerate() {
        if answer(alloc, text, *lane, records)? != *due {
            return Err(Fail::from(number));
        }
    }
    Ok(())
}

macro_rules! access {
    ($kind:ident, $size:expr, $site:expr, $line:expr, $addr:expr, $value:expr) => {
        Record {
            kind: Kind::$kind,
            size: $size,
            site: $site,
            line: $line,
            addr: $addr,
            value: $value,
        }
    };
}

macro_rules! event {
    ($kind:ident, $line:expr, $addr:expr, $value:expr) => {
        Record {
            kind: Kind::$kind,
            size: 0,
            site: 0,
            line: $line,
            addr: $addr,
            value: $value,
        }
    };
}

const COPY: &str = "array a i64 2\nmain {\nlet x = a[0]\na[1] = x + 1\n}";

const READ: Record = access!(Read, 8, 0, 3, 4096, 7);

const WRITE: Record = access!(Write, 8, 1, 4, 4104, 8);

const END: Record = event!(End, 5, 0, 0);

// Each field of each record, and what follows from the value of a read.
const FIELDS: &[Case<'static>] = &[
    (COPY, 0, &[READ, WRITE, END], (0, 0)),
    (
        COPY,
        0,
        &[access!(Write, 8, 0, 3, 4096, 7), WRITE, END],
        (1, 0),
    ),
    (
        COPY,
        0,
        &[access!(Read, 8, 0, 3, 4096, 9), WRITE, END],
        (2, 0),
    ),
    (
        COPY,
        0,
        &[READ, access!(Read, 8, 1, 4, 4104, 8), END],
        (2, 0),
    ),
    (
        COPY,
        0,
        &[READ, access!(Write, 4, 1, 4, 4104, 8), END],
        (2, 0),
    ),
    (
        COPY,
        0,
        &[READ, access!(Write, 8, 0, 4, 4104, 8), END],
        (2, 0),
    ),
    (
        COPY,
        0,
        &[READ, access!(Write, 8, 1, 3, 4104, 8), END],
        (2, 0),
    ),
    (
        COPY,
        0,
        &[READ, access!(Write, 8, 1, 4, 4096, 8), END],
        (2, 0),
    ),
    (
        COPY,
        0,
        &[READ, access!(Write, 8, 1, 4, 4104, 9), END],
        (2, 0),
    ),
    (COPY, 0, &[READ, WRITE, event!(End, 4, 0, 0)], (3, 0)),
];

#[test]
fn each_field_of_a_record_counts(rt: HostRuntime) -> Result<(), Fail> {
    are_answered(rt.alloc(), FIELDS)
}

const DIVIDED: &str = "main {\nlet x = 1 / 0\n}";

const LENGTHS: &[Case<'static>] = &[
    (COPY, 0, &[READ, WRITE, END, END], (4, 0)),
    (COPY, 0, &[READ, END], (2, 0)),
    (COPY, 0, &[READ, WRITE], (3, 0)),
    (DIVIDED, 0, &[event!(End, 3, 0, 0)], (1, 0)),
];

#[test]
fn a_log_is_neither_shorter_nor_longer_than_the_trace(rt: HostRuntime) -> Result<(), Fail> {
    are_answered(rt.alloc(), LENGTHS)
}

const DRAWN: &str =
    "array a i64 9\nmain {\nparallel 2 {\nfor i in 0 .. 4 dynamic 2 {\na[i] = tid\n}\n}\n}";

// The records of a lane that draws this chunk first.
macro_rules! drawn {
    ($number:expr, $chunks:expr) => {
        &[
            event!(Chunk, 4, $number, $chunks),
            access!(Write, 8, 0, 5, 4112, 1),
            access!(Write, 8, 0, 5, 4120, 1),
            event!(Chunk, 4, 2, 2),
            event!(Barrier, 6, 0, 0),
            event!(End, 7, 0, 0),
        ]
    };
}

const CHUNKS: &[Case<'static>] = &[
    (DRAWN, 1, drawn!(1, 2), (0, 0)),
    (DRAWN, 0, drawn!(1, 2), (2, 0)),
    (DRAWN, 1, drawn!(0, 2), (2, 0)),
    (DRAWN, 1, drawn!(1, 3), (1, 0)),
];

#[test]
fn chunks_are_those_that_the_log_draws(rt: HostRuntime) -> Result<(), Fail> {
    are_answered(rt.alloc(), CHUNKS)
}

const SECTIONS: &str =
    "array a i8 4\nmutex m\nmain {\nparallel 2 {\nloop k in 0 .. 2 {\ncritical m {\na[k] = a[k] + 100\n}\n}\nbarrier\n}\n}";

const MINUS_56: u64 = 0xffff_ffff_ffff_ffc8;

// The records of a lane that reads this first.
macro_rules! sections {
    ($value:expr) => {
        &[
            event!(Lock, 6, 1, 0),
            access!(Read, 1, 1, 7, 4096, $value),
            access!(Write, 1, 0, 7, 4096, MINUS_56),
            event!(Unlock, 8, 1, 0),
            event!(Lock, 6, 1, 0),
            access!(Read, 1, 1, 7, 4097, 0),
            access!(Write, 1, 0, 7, 4097, 100),
            event!(Unlock, 8, 1, 0),
            event!(Barrier, 10, 0, 0),
            event!(End, 11, 0, 0),
        ]
    };
}

const VALUES: &[Case<'static>] = &[
    (SECTIONS, 0, sections!(100), (0, 0)),
    (SECTIONS, 0, sections!(200), (2, 0)),
];

#[test]
fn a_value_is_that_of_its_element(rt: HostRuntime) -> Result<(), Fail> {
    are_answered(rt.alloc(), VALUES)
}

const FORKING: &str = "main {\nlet x = 5\nparallel 2 {\n}\n}";

const SPANS: &[Case<'static>] = &[
    (FORKING, 0, &[event!(Region, 3, 0, 2), END], (0, 1)),
    (FORKING, 0, &[event!(Region, 3, 0, 3), END], (1, 0)),
];

#[test]
fn a_region_has_its_span_and_starts_from_the_locals(rt: HostRuntime) -> Result<(), Fail> {
    are_answered(rt.alloc(), SPANS)
}
