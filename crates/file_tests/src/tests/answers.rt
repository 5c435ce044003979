//! Texts that are printed with a status, and what the failures of a print come to.

use command_answer::{
    DIFFERS, DONE, FOLDER_REFUSED, INDEX_THERE, KERNEL_REFUSED, KERNEL_STOPPED, NO_MEMORY, RACES,
    READ_FAULT, UNCERTAIN, USAGE, WRITE_FAULT, failure, print, print_made,
};
use memory_environment::MemOut;
use std::alloc::Global;
use sw_base::{Memory, Trouble};

// Scripts rely on the numbers in the README's table of statuses.
#[test]
fn each_status_has_its_number(rt: HostRuntime) {
    let statuses = [
        DONE,
        RACES,
        DIFFERS,
        UNCERTAIN,
        USAGE,
        KERNEL_REFUSED,
        FOLDER_REFUSED,
        KERNEL_STOPPED,
        READ_FAULT,
        WRITE_FAULT,
        NO_MEMORY,
        INDEX_THERE,
    ];
    assert!(rt; statuses == [0, 1, 1, 1, 2, 3, 4, 5, 6, 7, 8, 9]);
}

#[test]
fn each_trouble_has_its_status(rt: HostRuntime) {
    assert!(rt; failure(Trouble::Memory) == NO_MEMORY);
    assert!(rt; failure(Trouble::Failed) == WRITE_FAULT);
}

// The status of a text that was made, or for which there was no memory, printed as done.
fn status_of_made(alloc: Global, out: &mut MemOut, made: Result<String, Memory>) -> u8 {
    print_made(alloc, out, made, DONE)
}

// The statuses of a text with its own, of one that was made, and of one for which there was no memory, and what is written, where
// these writes fail.
fn printed(
    alloc: Global,
    failing: &[u64],
    text: (&[u8], u8),
    made: &str,
) -> Result<([u8; 3], MemOut), Memory> {
    let made = String::from_str(alloc, made)?;
    let mut out = MemOut::new(alloc)?;
    out.fail(failing)?;
    let statuses = [
        print(alloc, &mut out, text.0, text.1),
        status_of_made(alloc, &mut out, Ok(made)),
        status_of_made(alloc, &mut out, Err(Memory)),
    ];
    Ok((statuses, out))
}

#[test]
fn texts_are_printed_with_their_status(rt: HostRuntime) {
    let (statuses, out) = printed(rt.alloc(), &[], (b"one\n", RACES), "two\n").expect(
        &rt, "memory",
    );
    assert!(rt; statuses == [RACES, DONE, NO_MEMORY]);
    assert!(rt; out.written() == b"one\ntwo\n".as_slice());
}

// A write that fails leaves the first half of its piece.
#[test]
fn a_failed_write_is_a_write_fault(rt: HostRuntime) {
    let text = (b"no kernel\n".as_slice(), KERNEL_REFUSED);
    let (statuses, out) = printed(rt.alloc(), &[1, 2], text, "records").expect(&rt, "memory");
    assert!(rt; statuses == [WRITE_FAULT, WRITE_FAULT, NO_MEMORY]);
    assert!(rt; out.written() == b"no kerec".as_slice());
}
