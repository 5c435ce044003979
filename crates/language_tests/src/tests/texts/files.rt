//! Files with a kernel, with another text, and none; and a read that fails.

use command_answer::{KERNEL_REFUSED, READ_FAULT};
use kernel_file::{read_kernel_file, refuse_kernel};
use memory_environment::{MemFolder, MemOut};
use std::alloc::Global;
use std::test::Fail;
use sw_base::Memory;

/// The text of the file, if there is one, and which calls on the folder fail; and how many arrays the kernel has, or the status and what
/// is printed.
type Case<'a> = (Option<&'a [u8]>, &'a [u64], usize, u8, &'a str);

const KERNEL: &[u8] = b"array a i64 2\nmain {\na[0] = 1\n}";

// A text that is refused, and what is printed.
macro_rules! refused {
    ($text:expr, $printed:expr) => {
        (Some($text), &[], 0, KERNEL_REFUSED, $printed)
    };
}

const HELD: &[Case<'static>] = &[
    (Some(KERNEL), &[], 1, 0, ""),
    (Some(KERNEL), &[1], 0, READ_FAULT, ""),
    refused!(b"", "kernel line 1: Syntax\n"),
    refused!(b"main {\nb[0] = 1\n}", "kernel line 2: Unknown\n"),
    refused!(
        b"array a i8 1\narray a i8 1 main { }",
        "kernel line 2: Twice\n"
    ),
    refused!(b"array a\ni7 1 main { }", "kernel line 2: Width\n"),
    refused!(b"array a i8\n0 main { }", "kernel line 2: Count\n"),
    refused!(
        b"main { if 1 {\nbarrier } }",
        "kernel line 2: BarrierHere\n"
    ),
    refused!(
        b"main {\nfor i in 0 .. 1 { } }",
        "kernel line 2: WorkHere\n"
    ),
    refused!(
        b"mutex m main { critical m {\ncritical { } } }",
        "kernel line 2: CriticalOrder\n"
    ),
    refused!(
        b"main { critical {\nparallel 0 { } } }",
        "kernel line 2: ParallelHere\n"
    ),
    // the fifth nested region
    refused!(
        b"main { parallel 1 { parallel 1 { parallel 1 { parallel 1 {\nparallel 1 { } } } } } }",
        "kernel line 2: Deep\n"
    ),
    // more than 1,048,576 elements in all
    refused!(
        b"array a i64 1048576\narray b i8\n1 main { }",
        "kernel line 3: Large\n"
    ),
    refused!(b"main { }\n\xff", "kernel line 2: NotUtf8\n"),
];

const MISSING: Case<'static> = (None, &[], 0, KERNEL_REFUSED, "no kernel\n");

fn folder_of(alloc: Global, text: Option<&[u8]>, failing: &[u64]) -> Result<MemFolder, Memory> {
    let mut folder = MemFolder::new(alloc)?;
    if let Some(text) = text {
        folder.hold("k", text)?;
    }
    folder.fail(failing)?;
    Ok(folder)
}

// Whether the file is read or refused so.
fn is_so(alloc: Global, case: &Case<'_>) -> Result<bool, Memory> {
    let (text, failing, arrays, status, printed) = case;
    let mut out = MemOut::new(alloc)?;
    let mut folder = folder_of(alloc, *text, failing)?;
    let found = match read_kernel_file(alloc, &mut folder, "k") {
        Ok(kernel) => (kernel.arrays.as_slice().len(), 0),
        Err(why) => (0, refuse_kernel(alloc, &mut out, why)),
    };
    Ok(found == (*arrays, *status) && out.written() == printed.as_bytes())
}

#[test]
fn a_file_holds_a_kernel_or_is_refused(rt: HostRuntime) -> Result<(), Fail> {
    for case in HELD {
        assert!(rt; is_so(rt.alloc(), case)?, "{:?}", case.0);
    }
    Ok(())
}

#[test]
fn a_missing_file_is_no_kernel(rt: HostRuntime) -> Result<(), Fail> {
    assert!(rt; is_so(rt.alloc(), &MISSING)?);
    Ok(())
}
