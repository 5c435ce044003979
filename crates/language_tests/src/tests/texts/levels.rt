//! How many levels of blocks, brackets and signs a text may open.

use super::kernels::{Long, are_told, is_read};
use super::repeating::repeated;
use kernel_text::KernelWhy;
use std::alloc::{AllocError, Global};
use std::test::Fail;

// A text, so many times another one, a third, and so many times a fourth, and a fifth.
type Closed<'a> = (
    &'a [u8],
    &'a [u8],
    usize,
    &'a [u8],
    &'a [u8],
    usize,
    &'a [u8],
);

const OPEN: &[Closed<'static>] = &[
    (b"main {", b"if 1 {", 31, b"", b"}", 32, b""),
    (
        b"main {",
        b"if 1 {",
        30,
        b"if 1 { } else { }",
        b"}",
        31,
        b"",
    ),
    (b"main { let x = ", b"-", 32, b"1 ", b"", 0, b"}"),
    (b"main { let x = ", b"(", 32, b"1", b")", 32, b" }"),
    // the index of an element is in its expression, and that of a target is one of its own
    (
        b"array a i8 1 main { let x = ",
        b"a[",
        32,
        b"0",
        b"]",
        32,
        b" }",
    ),
    (
        b"array a i8 1 main { a[",
        b"(",
        32,
        b"0",
        b")",
        32,
        b"] = 1 }",
    ),
    (
        b"array a i8 1 main { atomic a[",
        b"(",
        32,
        b"0",
        b")",
        32,
        b"] += 1 }",
    ),
];

fn is_closed_read(alloc: Global, text: &Closed<'_>) -> Result<bool, AllocError> {
    let (before, opening, count, between, closing, closed, behind) = text;
    let opened = repeated(alloc, before, opening, *count, between)?;
    let bytes = repeated(alloc, &opened, closing, *closed, behind)?;
    Ok(is_read(alloc, &bytes))
}

const TOO_DEEP: &[Long<'static>] = &[
    (b"main {", b"if 1\n{", 32, b"", Some((33, KernelWhy::Deep))),
    (
        b"main { let x = ",
        b"\n(",
        33,
        b"1",
        Some((34, KernelWhy::Deep)),
    ),
    (
        b"array a i8 1 main { let x = ",
        b"\na[",
        33,
        b"0",
        Some((34, KernelWhy::Deep)),
    ),
];

#[test]
fn at_most_32_levels_are_open(rt: HostRuntime) -> Result<(), Fail> {
    for text in OPEN {
        assert!(rt; is_closed_read(rt.alloc(), text)?);
    }
    are_told(rt.alloc(), TOO_DEEP)
}
