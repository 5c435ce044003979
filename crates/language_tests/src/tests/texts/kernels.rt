//! Kernels that are read, and the line and reason of those that are refused.

use super::repeating::repeated;
use kernel_reader::{ReadKernelFault, read_kernel};
use kernel_syntax::{Expr, Op, Schedule, Stmt};
use kernel_text::KernelWhy;
use std::alloc::{AllocError, Global};
use std::test::Fail;

const TWO_LANES: &[u8] =
    b"array a i64 8\nmain {\nparallel 2 {\nfor i in 0 .. 8 static 1 {\na[i] = a[i] + 1\n}\n}\n}";

const LOCKED: &[u8] =
    b"array s i64 1\nmutex c\nmain { parallel 8 {\ncritical c { s[0] = s[0] + 1 }\n} }";

const HEAT: &[u8] =
    b"# heat\narray u i64 64\narray v i64 64\nmain {\nu[0] = 1000\nparallel 4 {\nloop t in 0 .. 3 {\nfor i in 1 .. 63 {\nv[i] = (u[i-1] + 2 * u[i] + u[i+1]) / 4\n}\nfor i in 1 .. 63 {\nu[i] = v[i]\n}\n}\n}\n}";

pub fn is_read(alloc: Global, text: &[u8]) -> bool {
    read_kernel(alloc, text).is_ok()
}

// Whether a text is refused at this line for this reason.
fn is_refused(alloc: Global, text: &[u8], line: u32, why: KernelWhy) -> bool {
    match read_kernel(alloc, text) {
        Err(
            ReadKernelFault::Refused {
                line: at,
                why: told,
            },
        ) => at == line && told == why,
        _ => false,
    }
}

// Fails with the number, from 0, of the first of these texts that isn't read.
pub fn are_read(alloc: Global, texts: &[&[u8]]) -> Result<(), Fail> {
    for (number, text) in texts.iter().enumerate() {
        if !is_read(alloc, text) {
            return Err(Fail::from(number));
        }
    }
    Ok(())
}

// A text, and the line and the reason for which it is refused.
pub type Refused<'a> = (&'a [u8], u32, KernelWhy);

// Fails with the number, from 0, of the first of these texts that isn't refused so.
pub fn are_refused(alloc: Global, rows: &[Refused<'_>]) -> Result<(), Fail> {
    for (number, (text, line, why)) in rows.iter().enumerate() {
        if !is_refused(alloc, text, *line, *why) {
            return Err(Fail::from(number));
        }
    }
    Ok(())
}

// Whether a text is refused at this line for this reason, or is read where none is given.
fn tells(alloc: Global, text: &[u8], refusal: Option<(u32, KernelWhy)>) -> bool {
    match refusal {
        Some((line, why)) => is_refused(alloc, text, line, why),
        None => is_read(alloc, text),
    }
}

// The text with a comment behind it, of so many bytes in all.
fn padded(alloc: Global, text: &[u8], len: usize) -> Result<Vec<u8>, AllocError> {
    let mut bytes = [text, b"#"].concat(alloc)?;
    bytes.resize(len, b' ')?;
    Ok(bytes)
}

fn is_loop(stmts: &[Stmt]) -> bool {
    matches!(
        stmts,
        [Stmt::For {
            slot: 0,
            schedule: Schedule::Static(1),
            nowait: false,
            line: 4,
            end: 6,
            ..
        }]
    )
}

fn is_region(stmts: &[Stmt]) -> bool {
    match stmts {
        [Stmt::Parallel { team }] => {
            team.span == 2 && team.line == 3 && team.end == 7 && is_loop(&team.body.stmts)
        }
        _ => false,
    }
}

#[test]
fn lines_are_those_of_first_and_last_token(rt: HostRuntime) -> Result<(), Fail> {
    let kernel = read_kernel(rt.alloc(), TWO_LANES).ok().ok_or("a kernel")?;
    let lines = (kernel.slots, kernel.main.line, kernel.main.end);
    assert_eq!(rt; lines, (1, 2, 8));
    assert!(rt; is_region(&kernel.main.body.stmts));
    Ok(())
}

// A sum whose first operand is a load.
fn is_sum(value: &Expr) -> bool {
    match value {
        Expr::Binary {
            op: Op::Add,
            left,
            ..
        } => matches!(&**left, Expr::Load { site: 1, .. }),
        _ => false,
    }
}

fn is_store(stmts: &[Stmt]) -> bool {
    match stmts {
        [
            Stmt::Store {
                array: 0,
                index,
                value,
                line: 5,
                site: 0,
            },
        ] => matches!(index, Expr::Slot(0)) && is_sum(value),
        _ => false,
    }
}

fn is_loop_of_store(stmts: &[Stmt]) -> bool {
    match stmts {
        [Stmt::For { body, .. }] => is_store(&body.stmts),
        _ => false,
    }
}

fn is_region_of_store(stmts: &[Stmt]) -> bool {
    match stmts {
        [Stmt::Parallel { team }] => is_loop_of_store(&team.body.stmts),
        _ => false,
    }
}

#[test]
fn a_store_has_site_0_and_its_load_site_1(rt: HostRuntime) -> Result<(), Fail> {
    let kernel = read_kernel(rt.alloc(), TWO_LANES).ok().ok_or("a kernel")?;
    assert!(rt; is_region_of_store(&kernel.main.body.stmts));
    Ok(())
}

const READ: &[&[u8]] = &[
    b"main { let abcdefghijklmnopqrstuvwxyz012345 = 9223372036854775807 }",
    LOCKED,
    HEAT,
    b"main { }",
    b"array a i64 8\nmain { parallel 2 {\nif tid == 1 {\nlet k = 8\na[k] = 1 }\n} }",
    b"array a i64 8\nmain { parallel 2 {\nif tid == 1 {\nlet k = 8\na[0] = 1 / (tid - 1) }\n} }",
    b"array a i64 8 main { parallel 3 { for i in 0 .. 8 { a[i] = i } } }",
    b"array a i64 8\nmain { parallel 2 { for i in 0 .. 8 nowait { a[i] = i } for i in 0 .. 7 static { a[i] = 1 } } }",
    b"array a i64 10\nmain { parallel 3 {\nfor i in 0 .. 10 dynamic 4 { a[i] = i }\n} }",
    b"array b i8 1 main { b[0] = 200 }",
    b"main {\nloop k in 0 .. 1024 {\nparallel 64 { }\n}\n}",
    b"main { let x = 1 if x < 2 { x = 2 } else { x = 3 } loop k in 0 .. x { } }",
    b"mutex m mutex n main { parallel 2 { critical { critical m { critical n { } } } barrier } }",
    b"main { let x = 1 if 1 { let y = 2 } let y = x }",
    b"main { parallel 2 { loop i in -1 .. (3) { for j in i .. span { } barrier } } }",
    b"main { parallel 2 { parallel 2 { parallel 2 { parallel 8 { barrier } } } } }",
];

#[test]
fn kernels_of_the_whole_language_are_read(rt: HostRuntime) -> Result<(), Fail> {
    are_read(rt.alloc(), READ)
}

const DECLARATIONS: &[Refused<'static>] = &[
    (b"array a i8 1\narray a i8 1 main { }", 2, KernelWhy::Twice),
    (b"array a i8 1\nmutex a main { }", 2, KernelWhy::Twice),
    (b"mutex m\nmutex m main { }", 2, KernelWhy::Twice),
    (b"mutex m\narray m f 0 main { }", 2, KernelWhy::Twice),
    (b"array a\ni7 1 main { }", 2, KernelWhy::Width),
    (b"array a f64\n0 main { }", 1, KernelWhy::Width),
    (b"array a i8\n0 main { }", 2, KernelWhy::Count),
    (b"array a i8 1048577 main { }", 1, KernelWhy::Count),
    (
        b"array a i8 9223372036854775807 main { }",
        1,
        KernelWhy::Count,
    ),
    (
        b"array a i64 1048576\narray b i8\n1 main { }",
        3,
        KernelWhy::Large,
    ),
    (
        b"array a i64 1048575\narray b i8 1\narray c i8 1 main { x = 1 }",
        3,
        KernelWhy::Large,
    ),
    (b"main {\nx = 1 }", 2, KernelWhy::Unknown),
    (b"array a i8 1\nmain { a\n= 1 }", 2, KernelWhy::Unknown),
    (b"mutex m\nmain { m[0] = 1 }", 2, KernelWhy::Unknown),
];

#[test]
fn a_broken_rule_of_a_declaration_tells_its_line_and_why(rt: HostRuntime) -> Result<(), Fail> {
    are_refused(rt.alloc(), DECLARATIONS)
}

const NAMES: &[Refused<'static>] = &[
    (b"main { let x = 1\nlet x = y }", 2, KernelWhy::Twice),
    (b"array a i8 1 main { let\na = 1 }", 2, KernelWhy::Twice),
    (
        b"mutex m main { loop\nm in 0 .. 1 { } }",
        2,
        KernelWhy::Twice,
    ),
    (
        b"main { parallel 2 { loop i in 0 .. 1 { for\ni in 0 .. 1 { } } } }",
        2,
        KernelWhy::Twice,
    ),
    (b"main { let x =\nx }", 2, KernelWhy::Unknown),
    (b"main { loop i in 0 ..\ni { } }", 2, KernelWhy::Unknown),
    (
        b"main { loop i in 0 .. 1 {\ni = 2 } }",
        2,
        KernelWhy::Unknown,
    ),
    (
        b"main { loop i in 0 .. 1 { }\nlet j = i }",
        2,
        KernelWhy::Unknown,
    ),
    (
        b"main { if 1 { let x = 1 } else {\nx = 2 } }",
        2,
        KernelWhy::Unknown,
    ),
    (
        b"array a i8 1 main { a[0] = a[\nb[0]] }",
        2,
        KernelWhy::Unknown,
    ),
    (b"array a i8 1 main { a[0] =\na }", 2, KernelWhy::Unknown),
    (b"array a i8 1 main { b[x] = y }", 1, KernelWhy::Unknown),
    (
        b"main { parallel 2 { critical\nm { } critical { critical { } } } }",
        1,
        KernelWhy::Unknown,
    ),
    (
        b"main { parallel 2 {\ncritical\nm { } } }",
        2,
        KernelWhy::Unknown,
    ),
    (
        b"main { let x = 1 + 2\n+ z let x = 3 }",
        2,
        KernelWhy::Unknown,
    ),
    (b"main { if q { let q = 1 } }", 1, KernelWhy::Unknown),
];

#[test]
fn a_broken_rule_of_a_name_tells_its_line_and_why(rt: HostRuntime) -> Result<(), Fail> {
    are_refused(rt.alloc(), NAMES)
}

const SECTIONS: &[Refused<'static>] = &[
    (
        b"array a i64 8\nmain { parallel 2 {\nloop j in 0 .. tid {\nbarrier\n}\n} }",
        4,
        KernelWhy::NotUniform,
    ),
    (
        b"main { parallel 1 { parallel 1 { parallel 1 { parallel 1 { barrier if 1 { } else { loop i in 0 .. 1 {\nparallel 0 { x = 1 } } } } } } } }",
        2,
        KernelWhy::Deep,
    ),
    (b"main { parallel\n0 { } }", 2, KernelWhy::Count),
    (b"main { parallel 65 { x = 1 } }", 1, KernelWhy::Count),
    (
        b"main { parallel 8 { parallel\n9 { } } }",
        2,
        KernelWhy::Large,
    ),
    (
        b"main { parallel 2 { parallel 2 { parallel 2 { parallel 8 {\nparallel 1 { } } } } } }",
        2,
        KernelWhy::Deep,
    ),
    (
        b"main { critical {\nparallel 0 { } } }",
        2,
        KernelWhy::ParallelHere,
    ),
    (
        b"main { parallel 2 { critical { if 1 {\nparallel 1 { } } } } }",
        2,
        KernelWhy::ParallelHere,
    ),
    (b"main {\nfor i in 0 .. 1 { } }", 2, KernelWhy::WorkHere),
    (
        b"main { parallel 2 { for i in 0 .. 1 {\nfor j in tid .. 1 { } } } }",
        2,
        KernelWhy::WorkHere,
    ),
    (
        b"main { parallel 2 { if 1 { critical {\nfor j in 0 .. 1 { } } } } }",
        2,
        KernelWhy::WorkHere,
    ),
    (b"main { if 1 {\nbarrier } }", 2, KernelWhy::BarrierHere),
    (
        b"main { parallel 2 { critical {\nbarrier } } }",
        2,
        KernelWhy::BarrierHere,
    ),
    (
        b"main { parallel 2 { loop j in 0 .. tid {\nbarrier\n} } }",
        2,
        KernelWhy::NotUniform,
    ),
    (
        b"main { parallel 2 { if 1 { } else {\nfor tid2 in\ntid .. 1 { } } } }",
        2,
        KernelWhy::NotUniform,
    ),
    (
        b"main { parallel 2 { if 1 {\nbarrier } } }",
        2,
        KernelWhy::NotUniform,
    ),
    (
        b"main { parallel 2 { if 1 { } else {\nbarrier } } }",
        2,
        KernelWhy::NotUniform,
    ),
    (
        b"main { parallel 2 { for i in 0 ..\ntid { } } }",
        2,
        KernelWhy::NotUniform,
    ),
    (
        b"main { let x = 1 parallel 2 { for i in\nx .. 1 { } } }",
        2,
        KernelWhy::NotUniform,
    ),
    (
        b"array a i8 1 main { parallel 2 { for i in a\n[0] .. 1 { } } }",
        1,
        KernelWhy::NotUniform,
    ),
    (
        b"main { parallel 2 { for i in 4\n/ 2 .. tid { } } }",
        2,
        KernelWhy::NotUniform,
    ),
    (
        b"main { parallel 2 { for i in 0 .. 1 static\n0 { } } }",
        2,
        KernelWhy::Count,
    ),
    (
        b"main { parallel 2 { for i in 0 .. 1 dynamic 1048577 { } } }",
        1,
        KernelWhy::Count,
    ),
    (
        b"mutex m main { critical m {\ncritical m { } } }",
        2,
        KernelWhy::CriticalOrder,
    ),
    (
        b"mutex m main { critical m {\ncritical { } } }",
        2,
        KernelWhy::CriticalOrder,
    ),
    (
        b"mutex m main { critical m { if 1 {\ncritical { } } } }",
        2,
        KernelWhy::CriticalOrder,
    ),
    (
        b"main { parallel 2 {\nloop i in 0 .. 32768 { barrier }\nbarrier\n} }",
        4,
        KernelWhy::Large,
    ),
];

#[test]
fn a_broken_rule_of_a_section_tells_its_line_and_why(rt: HostRuntime) -> Result<(), Fail> {
    are_refused(rt.alloc(), SECTIONS)
}

const LIGHT: &[&[u8]] = &[
    b"main { parallel 2 { loop i in 0 .. 32768 { barrier } } }",
    b"main { parallel 2 { loop i in 0 .. 9223372036854775807 { loop j in 0 .. 9223372036854775807 { parallel 2 { barrier } } } } }",
];

const HEAVY: &[Refused<'static>] = &[(
    b"main { parallel 2 { loop i in 0 .. 9223372036854775807 { loop j in 0 .. 9223372036854775807 { barrier } }\n} }",
    2,
    KernelWhy::Large,
)];

#[test]
fn a_region_weighs_at_most_65536(rt: HostRuntime) -> Result<(), Fail> {
    are_read(rt.alloc(), LIGHT)?;
    are_refused(rt.alloc(), HEAVY)
}

// A text, so many times another one behind it, and a third; and the refusal of all, if it is one.
pub type Long<'a> = (
    &'a [u8],
    &'a [u8],
    usize,
    &'a [u8],
    Option<(u32, KernelWhy)>,
);

// Fails with the number, from 0, of the first of these texts that is told otherwise.
pub fn are_told(alloc: Global, rows: &[Long<'_>]) -> Result<(), Fail> {
    for (number, (before, text, count, behind, refusal)) in rows.iter().enumerate() {
        let bytes = repeated(alloc, before, text, *count, behind)?;
        if !tells(alloc, &bytes, *refusal) {
            return Err(Fail::from(number));
        }
    }
    Ok(())
}

const EIGHT: &[u8] =
    b"mutex a mutex b mutex c mutex d mutex e mutex f mutex g mutex h mutex i main { critical a { critical b { critical c { critical d { critical e { critical f { critical g { critical h { ";

const NESTED: &[Long<'static>] = &[
    (EIGHT, b"} ", 9, b"", None),
    (
        EIGHT,
        b"\n critical i {",
        1,
        b"} } } } } } } } } }",
        Some((2, KernelWhy::Deep)),
    ),
];

#[test]
fn eight_critical_sections_nest(rt: HostRuntime) -> Result<(), Fail> {
    are_told(rt.alloc(), NESTED)
}

// Declarations of names of two letters, in a line each: the first letter and each of the second ones.
fn declare(
    alloc: Global,
    word: &[u8],
    first: u8,
    seconds: &[u8],
    rest: &[u8],
) -> Result<Vec<u8>, AllocError> {
    let mut bytes = Vec::new(alloc);
    for second in seconds {
        let line = [word, &[first, *second], rest].concat(alloc)?;
        bytes.extend_from_slice(&line)?;
    }
    Ok(bytes)
}

// Such declarations for each of the first letters, and then a text.
fn declared(
    alloc: Global,
    word: &[u8],
    firsts: &[u8],
    seconds: &[u8],
    rest: &[u8],
    behind: &[u8],
) -> Result<Vec<u8>, AllocError> {
    let mut bytes = Vec::new(alloc);
    for first in firsts {
        let lines = declare(alloc, word, *first, seconds, rest)?;
        bytes.extend_from_slice(&lines)?;
    }
    bytes.extend_from_slice(behind)?;
    Ok(bytes)
}

#[test]
fn at_most_64_arrays_are_declared(rt: HostRuntime) -> Result<(), Fail> {
    let eight = b"abcdefgh";
    let rows: [(&[u8], Option<(u32, KernelWhy)>); 3] = [
        (b"main { hh[0] = 1 }", None),
        (b"array z i64 1 main { }", Some((65, KernelWhy::Large))),
        (b"array hh i64 1 main { }", Some((65, KernelWhy::Twice))),
    ];
    for (behind, refusal) in rows {
        let text = declared(rt.alloc(), b"array ", eight, eight, b" i64 1\n", behind)?;
        assert!(rt; tells(rt.alloc(), &text, refusal));
    }
    Ok(())
}

#[test]
fn at_most_63_mutexes_are_declared(rt: HostRuntime) -> Result<(), Fail> {
    let firsts = b"abcdefg";
    let seconds = b"abcdefghi";
    let rows: [(&[u8], Option<(u32, KernelWhy)>); 3] = [
        (b"main { critical gi { } }", None),
        (b"mutex z main { }", Some((64, KernelWhy::Large))),
        (b"mutex gi main { }", Some((64, KernelWhy::Twice))),
    ];
    for (behind, refusal) in rows {
        let text = declared(rt.alloc(), b"mutex ", firsts, seconds, b"\n", behind)?;
        assert!(rt; tells(rt.alloc(), &text, refusal));
    }
    Ok(())
}

// Whether a text that is padded to so many bytes is told so.
fn tells_padded(
    alloc: Global,
    len: usize,
    refusal: Option<(u32, KernelWhy)>,
) -> Result<bool, AllocError> {
    let bytes = padded(alloc, TWO_LANES, len)?;
    Ok(tells(alloc, &bytes, refusal))
}

const TOO_LONG: Option<(u32, KernelWhy)> = Some((1, KernelWhy::Large));

const NO_UTF8: &[Long<'static>] = &[(b"\n\xff", b"\xff", 65535, b"", TOO_LONG)];

#[test]
fn a_text_has_at_most_65536_bytes(rt: HostRuntime) -> Result<(), Fail> {
    assert!(rt; tells_padded(rt.alloc(), 65536, None)?);
    assert!(rt; tells_padded(rt.alloc(), 65537, TOO_LONG)?);
    are_told(rt.alloc(), NO_UTF8)
}

const NO_KERNELS: &[Refused<'static>] = &[
    (b"\xff\nmain { $ }", 1, KernelWhy::NotUtf8),
    (b"main {\n} # \xc3\x28\n\xff", 2, KernelWhy::NotUtf8),
    (b"main { }\n# \xe2\x82", 2, KernelWhy::NotUtf8),
    (b"! main { } $", 1, KernelWhy::Token),
    (b"main { }\n9223372036854775808", 2, KernelWhy::Token),
    (
        b"main { }\nname_of_more_than_32_bytes_in_all",
        2,
        KernelWhy::Token,
    ),
    (b"", 1, KernelWhy::Syntax),
    (b"main {\n", 2, KernelWhy::Syntax),
    (b"main {\n}\n}", 3, KernelWhy::Syntax),
    (b"array a i64\nmain { }", 2, KernelWhy::Syntax),
    (b"main {\n1 }", 2, KernelWhy::Syntax),
    (b"main {\nlet x\n1 }", 3, KernelWhy::Syntax),
    (b"main { x = 1 +\n}", 2, KernelWhy::Syntax),
    (b"main { x = 1 < 2\n< 3 }", 2, KernelWhy::Syntax),
    (b"main { x = (1 < 2) <\n(2 < 3 }", 2, KernelWhy::Syntax),
    (b"main { x = 1\n[0] = 2 }", 2, KernelWhy::Syntax),
    (b"main { if 1 { }\nx = 1\nelse { } }", 3, KernelWhy::Syntax),
    (
        b"main { for i in 0 .. 1\nnowait\nstatic { } }",
        3,
        KernelWhy::Syntax,
    ),
    (
        b"main { loop i in 0 .. 1\nstatic { } }",
        2,
        KernelWhy::Syntax,
    ),
    (b"main { critical\n1 { } }", 2, KernelWhy::Syntax),
    (b"main { a[0] = 1 a[0]\n}", 2, KernelWhy::Syntax),
    (b"main {\n$ } $", 2, KernelWhy::Token),
    (b"main { }\n\xff", 2, KernelWhy::NotUtf8),
    (
        b"main { x =\n---------------------------------1 }",
        2,
        KernelWhy::Deep,
    ),
    (
        b"main { x =\n((((((((((((((((a[((((((((((((((((1 }",
        2,
        KernelWhy::Deep,
    ),
    (
        b"main {{\n---------------------------------1 }",
        1,
        KernelWhy::Syntax,
    ),
];

#[test]
fn a_text_that_is_no_kernel_tells_its_line_and_why(rt: HostRuntime) -> Result<(), Fail> {
    are_refused(rt.alloc(), NO_KERNELS)
}

const LONG: &[Long<'static>] = &[
    (b"main { let x = 1", b"+1", 32_000, b" }", None),
    (b"main { let x = 1 ", b"x=1 ", 10_000, b"}", None),
    (
        b"main {",
        b"if 1{}",
        10_000,
        b"\nx = 1 }",
        Some((2, KernelWhy::Unknown)),
    ),
    // as many `else` parts as a text has room for
    (b"main{", b"if 1{}else{}", 5_460, b"}", None),
    (
        b"main{",
        b"if 1{}else{}",
        5_459,
        b"\nelse{}}",
        Some((2, KernelWhy::Syntax)),
    ),
];

#[test]
fn long_texts_are_read_to_their_end(rt: HostRuntime) -> Result<(), Fail> {
    are_told(rt.alloc(), LONG)
}

const NAMED: &[Long<'static>] = &[
    (b"main { let\n_", b"z", 31, b" = 1 }", None),
    (
        b"main { let\n_",
        b"z",
        32,
        b" = 1 }",
        Some((2, KernelWhy::Token)),
    ),
];

#[test]
fn a_name_has_at_most_32_bytes(rt: HostRuntime) -> Result<(), Fail> {
    are_told(rt.alloc(), NAMED)
}

const NUMBERS: &[&[u8]] = &[
    b"main { let x = 9223372036854775807 }",
    b"main { let x = 00000000000000000000000000000000001 }",
];

const TOO_LARGE: &[Refused<'static>] = &[
    (
        b"main { let x =\n9223372036854775808 }",
        2,
        KernelWhy::Token,
    ),
    (
        b"main { let x =\n-9223372036854775808 }",
        2,
        KernelWhy::Token,
    ),
    (
        b"main { let x =\n18446744073709551617 }",
        2,
        KernelWhy::Token,
    ),
];

#[test]
fn a_number_is_at_most_9223372036854775807(rt: HostRuntime) -> Result<(), Fail> {
    are_read(rt.alloc(), NUMBERS)?;
    are_refused(rt.alloc(), TOO_LARGE)
}

const SPANS: &[&[u8]] = &[b"main { parallel 1 { } }", b"main { parallel 64 { } }"];

const OTHER_SPANS: &[Refused<'static>] = &[
    (b"main { parallel\n65 { } }", 2, KernelWhy::Count),
    (
        b"main { parallel 64 { parallel\n65 { } } }",
        2,
        KernelWhy::Count,
    ),
    (
        b"main { parallel\n9223372036854775807 { } }",
        2,
        KernelWhy::Count,
    ),
];

#[test]
fn a_region_has_1_to_64_lanes(rt: HostRuntime) -> Result<(), Fail> {
    are_read(rt.alloc(), SPANS)?;
    are_refused(rt.alloc(), OTHER_SPANS)
}

const MOST_LANES: &[&[u8]] = &[
    b"main { parallel 8 { parallel 8 { } } }",
    b"main { parallel 1 { parallel 64 { parallel 1 { parallel 1 { } } } } }",
    b"main { parallel 2 { parallel 4 { parallel 8 { } parallel 8 { } } } }",
    b"main { parallel 64 { } parallel 64 { } }",
];

const MORE_LANES: &[Refused<'static>] = &[
    (
        b"main { parallel 2 { parallel\n33 { } } }",
        2,
        KernelWhy::Large,
    ),
    (
        b"main { parallel 64 { parallel\n2 { } } }",
        2,
        KernelWhy::Large,
    ),
    (
        b"main { parallel 2 { parallel 4 { parallel 8 { } parallel\n9 { } } } }",
        2,
        KernelWhy::Large,
    ),
    (
        b"main { parallel 2 { parallel 2 { parallel 4 { parallel\n5 { } } } } }",
        2,
        KernelWhy::Large,
    ),
];

#[test]
fn nested_regions_have_at_most_64_lanes_in_all(rt: HostRuntime) -> Result<(), Fail> {
    are_read(rt.alloc(), MOST_LANES)?;
    are_refused(rt.alloc(), MORE_LANES)
}

const IN_UTF8: &[&[u8]] = &[b"# \xc3\xa9\nmain { } # \xe2\x82\xac"];

const NOT_IN_UTF8: &[Refused<'static>] = &[
    (b"\xffmain { }", 1, KernelWhy::NotUtf8),
    (b"\x80\nmain { }", 1, KernelWhy::NotUtf8),
    (b"main {\n# \xc3\n}", 2, KernelWhy::NotUtf8),
    (
        b"main {\n\n# \xe2\x82\xac \xe2\x82 \xff\n$ }",
        3,
        KernelWhy::NotUtf8,
    ),
    (b"main { }\n\xff", 2, KernelWhy::NotUtf8),
    (b"main { } #\n# \xe2\x82", 2, KernelWhy::NotUtf8),
    (b"main { }\n\xc3\xa9", 2, KernelWhy::Token),
];

#[test]
fn a_text_is_utf8_to_its_last_byte(rt: HostRuntime) -> Result<(), Fail> {
    are_read(rt.alloc(), IN_UTF8)?;
    are_refused(rt.alloc(), NOT_IN_UTF8)
}
