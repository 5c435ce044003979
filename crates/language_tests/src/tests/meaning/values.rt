//! Values and their arithmetic, the layout of arrays, and names.
ghost use Rattle.std.specs.Prelude.{◌≡◌, IfOk};
ghost use Rattle.log_format.specs.Fitting.{IsWidth};
ghost use Rattle.kernel_syntax.specs.Layout.{IsWithinLimits};

use kernel_syntax::{
    Array, Arrays, Body, Expr, Kernel, Name, Names, Op, Schedule, Stmt, Team, apply, even_share,
    fit, layout,
};
use std::alloc::Global;
use std::test::Fail;

const LEAST: i64 = i64::MIN;

const GREATEST: i64 = i64::MAX;

#[test]
fn operations_wrap_round_and_compare(rt: HostRuntime) {
    let rows = [
        (Op::Add, 2, 3, Some(5)),
        (Op::Add, GREATEST, 1, Some(LEAST)),
        (Op::Sub, 2, 3, Some(-1)),
        (Op::Sub, LEAST, 1, Some(GREATEST)),
        (Op::Mul, -4, 3, Some(-12)),
        (Op::Mul, LEAST, -1, Some(LEAST)),
        (Op::Mul, 1 << 32, 1 << 32, Some(0)),
        (Op::Div, 7, 2, Some(3)),
        (Op::Div, -7, 2, Some(-3)),
        (Op::Div, 7, -2, Some(-3)),
        (Op::Div, LEAST, -1, Some(LEAST)),
        (Op::Div, 1, 0, None),
        (Op::Rem, 7, 2, Some(1)),
        (Op::Rem, -7, 2, Some(-1)),
        (Op::Rem, 7, -2, Some(1)),
        (Op::Rem, LEAST, -1, Some(0)),
        (Op::Rem, LEAST, 0, None),
        (Op::Eq, 4, 4, Some(1)),
        (Op::Eq, 4, 5, Some(0)),
        (Op::Ne, 4, 5, Some(1)),
        (Op::Ne, 4, 4, Some(0)),
        (Op::Lt, LEAST, GREATEST, Some(1)),
        (Op::Lt, 4, 4, Some(0)),
        (Op::Le, 4, 4, Some(1)),
        (Op::Le, 5, 4, Some(0)),
        (Op::Gt, 5, 4, Some(1)),
        (Op::Gt, 4, 4, Some(0)),
        (Op::Ge, 4, 4, Some(1)),
        (Op::Ge, -5, 4, Some(0)),
    ];
    for (op, left, right, expected) in rows {
        assert!(rt; apply(op, left, right) == expected, "{op:?} {left} {right}");
    }
}

// Whether each value is kept so in an element of this width.
fn all_fit(width: u8, rows: &[(i64, i64)]) -> bool
    requires { IsWidth width }
{
    for (value, kept) in rows {
        if fit(*value, width) != *kept {
            return false;
        }
    }
    true
}

#[test]
fn stored_values_keep_their_low_bits(rt: HostRuntime) {
    let byte = [(200, -56), (127, 127), (128, -128), (-129, 127)];
    let int = [
        (0x8000_0000, -0x8000_0000),
        (0x1_2345_6789, 0x2345_6789),
        (LEAST, 0),
    ];
    assert!(rt; all_fit(1, &byte));
    assert!(rt; all_fit(2, &[(0x1_8000, -0x8000), (-1, -1)]));
    assert!(rt; all_fit(4, &int));
    assert!(rt; all_fit(8, &[(LEAST, LEAST), (GREATEST, GREATEST)]));
}

// The share of a lane, if it is one.
fn share_of(total: u64, lane: u16, span: u16) -> Option<(u64, u64)> {
    if lane < span {
        Some(even_share(total, lane, span))
    } else {
        None
    }
}

#[test]
fn eight_iterations_on_three_lanes(rt: HostRuntime) {
    let last = (u64::MAX - 0x3ff_ffff_ffff_ffff, 0x3ff_ffff_ffff_ffff);
    let rows = [
        (8, 0, 3, (0, 3)),
        (8, 1, 3, (3, 3)),
        (8, 2, 3, (6, 2)),
        (0, 1, 2, (0, 0)),
        (u64::MAX, 63, 64, last),
    ];
    for (total, lane, span, share) in rows {
        assert!(rt;
            share_of(total, lane, span) == Some(share),
            "{total} {lane} {span}"
        );
    }
}

fn array(name: &str, width: u8, count: u32) -> Result<Array, Fail>
    ensures { IfOk result (λ a. a.count ≡ count) }
{
    Ok(Array {
        name: Name::new(name).ok_or("a long name")?,
        width,
        count,
        base: 7,
        first: 7,
    })
}

fn three_arrays(alloc: Global) -> Result<Arrays, Fail>
    ensures { IfOk result (λ a. IsWithinLimits a) }
{
    let a = array("a", 8, 9)?;
    let narrow = array("narrow", 1, 64)?;
    let c = array("c", 4, 1)?;
    let mut arrays = Arrays::new(alloc);
    arrays.push(a)?;
    arrays.push(narrow)?;
    arrays.push(c)?;
    Ok(arrays)
}

fn one_mutex(alloc: Global) -> Result<Names, Fail> {
    let mut mutexes = Names::new(alloc);
    mutexes.push(Name::new("c").ok_or("a long name")?)?;
    Ok(mutexes)
}

fn one_statement(alloc: Global) -> Result<Vec<Stmt>, Fail> {
    let mut stmts = Vec::new(alloc);
    stmts.push(Stmt::Set {
        slot: 0,
        value: Expr::Number(5),
    })?;
    Ok(stmts)
}

fn kernel(alloc: Global, arrays: Arrays) -> Result<Kernel, Fail>
    ensures { IfOk result (λ k. k.arrays ≡ arrays) }
{
    let mutexes = one_mutex(alloc)?;
    let stmts = one_statement(alloc)?;
    Ok(Kernel {
        arrays,
        mutexes,
        main: Team {
            span: 1,
            line: 2,
            end: 3,
            body: Body { stmts },
        },
        slots: 1,
    })
}

// Whether the arrays begin at these addresses, with these elements of all, and nothing else is another.
fn is_laid_out(kernel: &Kernel) -> bool {
    let [first, narrow, last] = kernel.arrays.as_slice() else {
        return false;
    };
    let bases = [first.base, narrow.base, last.base];
    let elements = [first.first, narrow.first, last.first];
    bases == [4096, 4224, 4288]
        && elements == [0, 9, 73]
        && narrow.name.as_str() == "narrow"
        && narrow.width == 1
        && narrow.count == 64
}

// Whether the kernel has one mutex, one statement and one slot.
fn has_one_of_each(kernel: &Kernel) -> bool {
    kernel.mutexes.as_slice().len() == 1 && kernel.main.body.stmts.len() == 1 && kernel.slots == 1
}

#[test]
fn three_arrays_are_laid_out(rt: HostRuntime) -> Result<(), Fail> {
    let alloc = rt.alloc();
    let mut kernel = kernel(alloc, three_arrays(alloc)?)?;
    layout(&mut kernel);
    assert!(rt; is_laid_out(&kernel));
    assert!(rt; has_one_of_each(&kernel));
    Ok(())
}

#[test]
fn a_name_has_at_most_32_bytes(rt: HostRuntime) {
    let name = Name::new("abcdefghijklmnopqrstuvwxyz_01234").expect(&rt, "32 bytes");
    assert_eq!(rt; name.copy().as_str(), "abcdefghijklmnopqrstuvwxyz_01234");
    assert!(rt; Name::new("abcdefghijklmnopqrstuvwxyz_012345").is_none());
    assert!(rt; Schedule::Static(4) != Schedule::Dynamic(4));
}
