//! Updates that one lane executes: what they record, what is read after them, and where they stop.
ghost use Rattle.std.specs.Prelude.{◌≡◌, [], ◌∷◌, IfOk};
ghost use Rattle.log_format.specs.Fitting.{IsWidth};
ghost use Rattle.kernel_syntax.specs.Bounds.{IsBoundedTerm, IsLine};
ghost use Rattle.kernel_syntax.specs.Program.{stmt_code, term_of};
ghost use Rattle.kernel_syntax.specs.Tree.{Done};
ghost use Rattle.lane_tests.specs.Lone.{IsLone};

use crate::tests::one_lane::{Left, accessed, alone, goes_on_alone, lane_over};
use crate::tests::statements::{binary, critical, first};
use crate::tests::support::{in_loop, is_log_of, only, step};
use kernel_syntax::{Expr, Op, Stmt};
use lane_runner::{Halt, Stop};
use log_format::Kind;
use std::alloc::Global;
use std::marker::Send;
use std::sync::Wait;
use std::thread::Threads;
use sw_base::Trouble;

// An update of an element.
fn update(index: Expr, value: Expr, minus: bool, line: u32) -> Stmt
    requires line { IsLine line }
    requires index { IsBoundedTerm (term_of index) }
    requires value { IsBoundedTerm (term_of value) }
    ensures lone { IsLone [] (stmt_code result Done) }
    ensures held { IsLone (0 ∷ []) (stmt_code result Done) }
{
    Stmt::Update {
        array: 0,
        index,
        value,
        minus,
        line,
        site: 2,
    }
}

// A word, the amount that is added to it or taken from it twice, as its record tells it, and what is read before and between.
#[derive(Clone, Copy)]
struct Row {
    word: u64,
    minus: bool,
    amount: i64,
    cut: i64,
    before: i64,
    between: i64,
}

// Whether a lane that adds the amount twice to an element of so many bytes, after a read of it each time, leaves the records of the row.
fn holds<R: Threads + Wait + Copy + Send + 'static>(
    rt: &R,
    alloc: Global,
    width: u8,
    row: &Row,
) -> Result<bool, Trouble>
    requires { IsWidth width }
{
    let read = binary(alloc, Op::Mul, first(alloc)?, Expr::Number(0))?;
    let value = binary(alloc, Op::Add, read, Expr::Number(row.amount))?;
    let body = only(alloc, update(Expr::Number(0), value, row.minus, 3))?;
    let mut setting = lane_over(width, 0);
    setting.word = row.word;
    let records = [
        accessed(Kind::Read, width, 0, row.before),
        accessed(Kind::Update, width, 0, row.cut),
        accessed(Kind::Read, width, 0, row.between),
        accessed(Kind::Update, width, 0, row.cut),
    ];
    goes_on_alone(rt, alloc, &setting, in_loop(0, body), &records)
}

// The same of each row.
fn all_hold<R: Threads + Wait + Copy + Send + 'static>(
    rt: &R,
    alloc: Global,
    width: u8,
    rows: &[Row],
) -> Result<bool, Trouble>
    requires { IsWidth width }
{
    for row in rows {
        if !holds(rt, alloc, width, row)? {
            return Ok(false);
        }
    }
    Ok(true)
}

fn adding(word: u64, minus: bool, amount: i64, cut: i64, before: i64, between: i64) -> Row {
    Row {
        word,
        minus,
        amount,
        cut,
        before,
        between,
    }
}

#[test]
fn an_update_wraps_in_its_element(rt: HostRuntime) {
    let alloc = rt.alloc();
    let byte = [
        adding(100, false, 300, 44, 100, -112),
        adding(100, true, 300, -44, 100, 56),
        adding(0, true, -128, -128, 0, -128),
        adding(200, false, 127, 127, -56, 71),
    ];
    let short = [
        adding(32_767, false, 65_537, 1, 32_767, -32_768),
        adding(32_768, true, 65_537, -1, -32_768, 32_767),
    ];
    let int = [
        adding(
            2_147_483_647,
            false,
            4_294_967_297,
            1,
            2_147_483_647,
            -2_147_483_648,
        ),
        adding(
            2_147_483_648,
            true,
            4_294_967_297,
            -1,
            -2_147_483_648,
            2_147_483_647,
        ),
    ];
    let long = [
        adding(9_223_372_036_854_775_807, false, 1, 1, i64::MAX, i64::MIN),
        adding(1, true, i64::MIN, i64::MIN, 1, -9_223_372_036_854_775_807),
    ];
    assert!(rt; all_hold(&rt, alloc, 1, &byte) == Ok(true));
    assert!(rt; all_hold(&rt, alloc, 2, &short) == Ok(true));
    assert!(rt; all_hold(&rt, alloc, 4, &int) == Ok(true));
    assert!(rt; all_hold(&rt, alloc, 8, &long) == Ok(true));
}

// 1 by the lane's number less 1, at line 5: lane 1 has no such value.
fn divided(alloc: Global) -> Result<Expr, Trouble>
    ensures { IfOk result (λ e. IsBoundedTerm (term_of e)) }
{
    let divisor = binary(alloc, Op::Sub, Expr::Tid, Expr::Number(1))?;
    binary(alloc, Op::Div, Expr::Number(1), divisor)
}

// What lane 1 leaves that executes this update, at line 7.
fn left_by<R: Threads + Wait + Copy + Send + 'static>(
    rt: &R,
    alloc: Global,
    index: Expr,
    value: Expr,
) -> Result<Left, Trouble>
    requires index { IsBoundedTerm (term_of index) }
    requires value { IsBoundedTerm (term_of value) }
{
    alone(rt, alloc, &lane_over(8, 1), update(index, value, false, 7))
}

#[test]
fn the_index_comes_first_then_the_amount_then_the_test_of_the_index(rt: HostRuntime) {
    let alloc = rt.alloc();
    let zero = divided(alloc).expect(&rt, "memory");
    let read = first(alloc).expect(&rt, "memory");
    let by_index = left_by(&rt, alloc, zero, read).expect(&rt, "memory");
    assert!(rt; matches!(by_index.halt, Some(Halt::Own(Stop::DivZero { line: 5 }))));
    assert!(rt; is_log_of(by_index.log.bytes(), &[]));
    let zero = divided(alloc).expect(&rt, "memory");
    let by_amount = left_by(&rt, alloc, Expr::Number(8), zero).expect(&rt, "memory");
    assert!(rt; matches!(by_amount.halt, Some(Halt::Own(Stop::DivZero { line: 5 }))));
    let read = first(alloc).expect(&rt, "memory");
    let by_test = left_by(&rt, alloc, Expr::Number(-1), read).expect(&rt, "memory");
    assert!(rt; matches!(by_test.halt, Some(Halt::Own(Stop::Index { line: 7 }))));
    assert!(rt; is_log_of(by_test.log.bytes(), &[accessed(Kind::Read, 8, 0, 0)]));
}

#[test]
fn an_update_stands_between_the_steps_on_a_mutex(rt: HostRuntime) {
    let alloc = rt.alloc();
    let inside = update(Expr::Number(1), Expr::Number(2), true, 3);
    let section = critical(alloc, inside).expect(&rt, "memory");
    let records = [
        step(Kind::Lock, 0, 7),
        accessed(Kind::Update, 8, 1, -2),
        step(Kind::Unlock, 0, 8),
    ];
    assert!(rt; goes_on_alone(&rt, alloc, &lane_over(8, 0), section, &records) == Ok(true));
}
