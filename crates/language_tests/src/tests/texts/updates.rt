//! Atomic updates: what they are read as, and the line and reason where they are refused.

use super::kernels::{Long, Refused, are_read, are_refused, are_told};
use kernel_reader::read_kernel;
use kernel_syntax::{Expr, Stmt};
use kernel_text::KernelWhy;
use std::test::Fail;

// The index is a load of the next site, and the amount a number.
fn is_counted(index: &Expr, value: &Expr) -> bool {
    matches!(index, Expr::Load { site: 1, .. }) && matches!(value, Expr::Number(2))
}

// The index is a number, and the amount a load of the next site.
fn is_taken(index: &Expr, value: &Expr) -> bool {
    matches!(index, Expr::Number(0)) && matches!(value, Expr::Load { site: 3, .. })
}

fn are_updates(stmts: &[Stmt]) -> bool {
    match stmts {
        [
            Stmt::Update {
                array: 1,
                index,
                value,
                minus: false,
                line: 5,
                site: 0,
            },
            Stmt::Update {
                array: 0,
                index: other,
                value: amount,
                minus: true,
                line: 6,
                site: 2,
            },
        ] => is_counted(index, value) && is_taken(other, amount),
        _ => false,
    }
}

#[test]
fn an_update_has_the_line_and_the_site_of_its_array(rt: HostRuntime) -> Result<(), Fail> {
    let text = b"array a i64 4\narray b i8 4\nmain {\natomic\nb[a[0]]\n+= 2 atomic a[0] -= b[1] }";
    let kernel = read_kernel(rt.alloc(), text).ok().ok_or("a kernel")?;
    assert!(rt; are_updates(&kernel.main.body.stmts));
    Ok(())
}

const READ: &[&[u8]] = &[
    b"array a i8 4 mutex m main { atomic a[0]+=1 parallel 2 { atomic a[tid]-=-a[0]-1 for i in 0 .. 4 dynamic { atomic a[i] -= 1 } critical m { atomic a[3] += a[0] * 2 } } }",
];

const NO_KERNELS: &[Refused<'static>] = &[
    (b"main { let\natomic = 1 }", 2, KernelWhy::Syntax),
    (b"main { atomic\n= 1 }", 2, KernelWhy::Syntax),
    (b"array\natomic i8 1 main { }", 2, KernelWhy::Syntax),
    (b"mutex\natomic main { }", 2, KernelWhy::Syntax),
    (b"main { let x = 1 +\natomic }", 2, KernelWhy::Syntax),
    (
        b"array a i8 1 main { atomic a\n+= 1 }",
        2,
        KernelWhy::Syntax,
    ),
    (
        b"array a i8 1 main { atomic a[0]\n= 1 }",
        2,
        KernelWhy::Syntax,
    ),
    (
        b"array a i8 1 main { atomic a[0] +\n= 1 }",
        1,
        KernelWhy::Syntax,
    ),
    (b"array a i8 1 main { a[0]\n+= 1 }", 2, KernelWhy::Syntax),
    (b"main { let x = 1 x\n-= 1 }", 2, KernelWhy::Syntax),
    (
        b"array a i8 1 main { atomic a[0] -=\n}",
        2,
        KernelWhy::Syntax,
    ),
    (
        b"array a i8 1 main { atomic a[0] -=\n",
        2,
        KernelWhy::Syntax,
    ),
    (
        b"array a i8 1 main { atomic b[0] += 1 }\n}",
        2,
        KernelWhy::Syntax,
    ),
];

const BROKEN: &[Refused<'static>] = &[
    (
        b"array a i8 1 main { atomic\nb[x] += y }",
        2,
        KernelWhy::Unknown,
    ),
    (b"mutex m main { atomic\nm[0] += 1 }", 2, KernelWhy::Unknown),
    (
        b"main { let x = 1 atomic\nx[0] -= 1 }",
        2,
        KernelWhy::Unknown,
    ),
    (
        b"array a i8 1 main { atomic a[\nx] += y }",
        2,
        KernelWhy::Unknown,
    ),
    (
        b"array a i8 1 main { atomic a[0] -=\ny }",
        2,
        KernelWhy::Unknown,
    ),
    (
        b"array a i8 1 main { parallel 2 {\nloop i in 0 .. 32768 { barrier }\natomic a[0] += 1\n} }",
        4,
        KernelWhy::Large,
    ),
];

#[test]
fn a_refused_update_tells_its_line_and_why(rt: HostRuntime) -> Result<(), Fail> {
    are_read(rt.alloc(), READ)?;
    are_refused(rt.alloc(), NO_KERNELS)?;
    are_refused(rt.alloc(), BROKEN)
}

// The index begins at level 0, and so does the amount.
const LONG: &[Long<'static>] = &[
    (
        b"array a i8 1 main { atomic a[",
        b"-",
        32,
        b"1] += 1 }",
        None,
    ),
    (
        b"array a i8 1 main { atomic a[",
        b"\n-",
        33,
        b"1] += 1 }",
        Some((34, KernelWhy::Deep)),
    ),
    (
        b"array a i8 1 main { atomic a[0] -= ",
        b"-",
        32,
        b"1 }",
        None,
    ),
    (
        b"array a i8 1 main { atomic a[0] -= ",
        b"\n-",
        33,
        b"1 }",
        Some((34, KernelWhy::Deep)),
    ),
    (
        b"array a i8 1 main { ",
        b"atomic a[a[0]]+=1 ",
        3_600,
        b"}",
        None,
    ),
];

#[test]
fn updates_nest_and_repeat_as_stores_do(rt: HostRuntime) -> Result<(), Fail> {
    are_told(rt.alloc(), LONG)
}
