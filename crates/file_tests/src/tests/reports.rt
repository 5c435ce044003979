//! The report of the pairs that race: its lines, each of which is one write.

use memory_environment::MemOut;
use race_report::report;
use std::alloc::{AllocError, Global};
use std::collections::BTreeSet;
use sw_base::{Memory, Trouble};

fn three_pairs(alloc: Global) -> Result<BTreeSet<(u32, u32)>, AllocError> {
    let mut pairs = BTreeSet::new(alloc);
    for pair in [(12, 17), (5, 6), (5, 5)] {
        pairs.insert(pair)?;
    }
    Ok(pairs)
}

fn print(alloc: Global, out: &mut MemOut, pairs: &BTreeSet<(u32, u32)>) -> Result<(), Trouble> {
    report(alloc, out, pairs)
}

#[test]
fn pairs_are_in_order_and_counted(rt: HostRuntime) {
    let alloc = rt.alloc();
    let pairs = three_pairs(alloc).expect(&rt, "memory");
    let mut out = MemOut::new(alloc).expect(&rt, "memory");
    let answers = [
        print(alloc, &mut out, &BTreeSet::new(alloc)),
        print(alloc, &mut out, &pairs),
    ];
    let text = b"races 0\nrace 5 5\nrace 5 6\nrace 12 17\nraces 3\n";
    assert!(rt; answers == [Ok(()), Ok(())] && out.written() == text.as_slice());
}

// What is answered where this write fails, and whether these bytes are written then.
fn reported(
    alloc: Global,
    pairs: &BTreeSet<(u32, u32)>,
    call: u64,
    due: &[u8],
) -> Result<(Result<(), Trouble>, bool), Memory> {
    let mut out = MemOut::new(alloc)?;
    out.fail(&[call])?;
    let answer = print(alloc, &mut out, pairs);
    Ok((answer, out.written() == due))
}

// A write that fails leaves the first half of its piece.
const PREFIXES: [(u64, Result<(), Trouble>, &[u8]); 5] = [
    (1, Err(Trouble::Failed), b"race"),
    (2, Err(Trouble::Failed), b"race 5 5\nrace"),
    (3, Err(Trouble::Failed), b"race 5 5\nrace 5 6\nrace "),
    (
        4,
        Err(Trouble::Failed),
        b"race 5 5\nrace 5 6\nrace 12 17\nrace",
    ),
    (5, Ok(()), b"race 5 5\nrace 5 6\nrace 12 17\nraces 3\n"),
];

#[test]
fn each_line_is_one_write(rt: HostRuntime) {
    let alloc = rt.alloc();
    let pairs = three_pairs(alloc).expect(&rt, "memory");
    for (call, answer, due) in PREFIXES {
        let found = reported(alloc, &pairs, call, due);
        assert!(rt; found == Ok((answer, true)), "at {call}");
    }
}
