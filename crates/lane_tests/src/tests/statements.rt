//! Statements that one lane executes, with the records that they put.
ghost use Rattle.std.specs.Prelude.{◌≡◌, false, [], ◌∷◌, IfOk};
ghost use Rattle.log_format.specs.Fitting.{IsWidth};
ghost use Rattle.kernel_syntax.specs.Bounds.{IsBoundedTerm, IsLine};
ghost use Rattle.kernel_syntax.specs.Program.{code_of, stmt_code, term_of};
ghost use Rattle.kernel_syntax.specs.Tree.{Done};
ghost use Rattle.lane_tests.specs.Lone.{IsLone};

use crate::tests::one_lane::{Left, Setting, accessed, alone, goes_on_alone, lane_over};
use crate::tests::support::{in_loop, is_log_of, nothing, only, step, tested};
use kernel_syntax::{Body, Expr, Op, Stmt};
use lane_runner::{Halt, Stop};
use log_format::{Kind, Record};
use std::alloc::Global;
use std::marker::Send;
use std::sync::Wait;
use std::thread::Threads;
use sw_base::Trouble;

/// The operation on two expressions, at line 5.
pub(crate) fn binary(alloc: Global, op: Op, left: Expr, right: Expr) -> Result<Expr, Trouble>
    requires left { IsBoundedTerm (term_of left) }
    requires right { IsBoundedTerm (term_of right) }
    ensures { IfOk result (λ e. IsBoundedTerm (term_of e)) }
{
    Ok(Expr::Binary {
        op,
        line: 5,
        left: Box::new(alloc, left)?,
        right: Box::new(alloc, right)?,
    })
}

/// The first element.
pub(crate) fn first(alloc: Global) -> Result<Expr, Trouble>
    ensures { IfOk result (λ e. IsBoundedTerm (term_of e)) }
{
    Ok(Expr::Load {
        array: 0,
        index: Box::new(alloc, Expr::Number(0))?,
        line: 3,
        site: 1,
    })
}

// A store of a value into an element.
fn store(index: Expr, value: Expr, line: u32) -> Stmt
    requires line { IsLine line }
    requires index { IsBoundedTerm (term_of index) }
    requires value { IsBoundedTerm (term_of value) }
    ensures lone { IsLone [] (stmt_code result Done) }
    ensures held { IsLone (0 ∷ []) (stmt_code result Done) }
{
    Stmt::Store {
        array: 0,
        index,
        value,
        line,
        site: 2,
    }
}

// The sum of the first element and a number is stored in the element of variable 0.
fn sum(alloc: Global, number: i64) -> Result<Stmt, Trouble>
    ensures lone { IfOk result (λ s. IsLone [] (stmt_code s Done)) }
    ensures held { IfOk result (λ s. IsLone (0 ∷ []) (stmt_code s Done)) }
{
    let value = binary(alloc, Op::Add, first(alloc)?, Expr::Number(number))?;
    Ok(store(Expr::Slot(0), value, 3))
}

/// A statement in a critical section.
pub(crate) fn critical(alloc: Global, stmt: Stmt) -> Result<Stmt, Trouble>
    requires lone { IsLone (0 ∷ []) (stmt_code stmt Done) }
    ensures { IfOk result (λ s. IsLone [] (stmt_code s Done)) }
{
    let stmts = vec![in alloc; stmt]?;
    Ok(Stmt::Critical {
        mutex: 0,
        line: 7,
        end: 8,
        body: Body { stmts },
    })
}

// Variable 1 gets this value.
fn set(value: Expr) -> Stmt
    requires value { IsBoundedTerm (term_of value) }
    ensures { IsLone [] (stmt_code result Done) }
{
    Stmt::Set { slot: 1, value }
}

// A loop from the lane's number to the number of lanes.
fn from_lane_to_span(body: Body) -> Stmt
    requires lone { IsLone [] (code_of body.stmts.items) }
    ensures { IsLone [] (stmt_code result Done) }
{
    Stmt::Loop {
        slot: 0,
        from: Expr::Tid,
        to: Expr::Span,
        body,
    }
}

// A lane whose log fails at this call.
fn failing(call: u64) -> Setting
    ensures { result ≡ record { width = 8; lane = 0; taken = false; failing = call; word = 0 } }
{
    Setting {
        width: 8,
        lane: 0,
        taken: false,
        failing: call,
        word: 0,
    }
}

#[test]
fn a_variable_is_set_without_a_record(rt: HostRuntime) {
    let alloc = rt.alloc();
    let value = binary(alloc, Op::Sub, Expr::Number(2), Expr::Number(5)).expect(&rt, "memory");
    let left = alone(&rt, alloc, &lane_over(8, 0), set(value)).expect(&rt, "memory");
    assert!(rt; left.went_on(&[]) && left.variable == -3);
}

// A body in which the sum of the first element and a number is stored in the element of variable 0.
pub(crate) fn summing(alloc: Global, number: i64) -> Result<Body, Trouble>
    ensures { IfOk result (λ b. IsLone [] (code_of b.stmts.items)) }
{
    only(alloc, sum(alloc, number)?)
}

// The records of a turn: the first element is read, and another is written.
fn turn(width: u8, read: i64, element: u64, written: i64) -> [Record; 2] {
    [
        accessed(Kind::Read, width, 0, read),
        accessed(Kind::Write, width, element, written),
    ]
}

#[test]
fn a_value_is_read_before_the_store_that_it_is_for(rt: HostRuntime) {
    let alloc = rt.alloc();
    let stmt = sum(alloc, 1).expect(&rt, "memory");
    assert!(rt; goes_on_alone(&rt, alloc, &lane_over(8, 0), stmt, &turn(8, 0, 0, 1)) == Ok(true));
}

#[test]
fn a_read_fits_the_word_to_its_element(rt: HostRuntime) {
    let alloc = rt.alloc();
    let stmt = sum(alloc, 1).expect(&rt, "memory");
    let mut setting = lane_over(1, 0);
    setting.word = 200;
    assert!(rt; goes_on_alone(&rt, alloc, &setting, stmt, &turn(1, -56, 0, -55)) == Ok(true));
}

#[test]
fn a_test_chooses_what_is_executed(rt: HostRuntime) {
    let alloc = rt.alloc();
    let no = tested(nothing(alloc), summing(alloc, 1).expect(&rt, "memory"));
    assert!(rt; goes_on_alone(&rt, alloc, &lane_over(8, 0), no, &turn(8, 0, 0, 1)) == Ok(true));
}

#[test]
fn a_test_that_holds_chooses_the_other_body(rt: HostRuntime) {
    let alloc = rt.alloc();
    let yes = tested(summing(alloc, 1).expect(&rt, "memory"), nothing(alloc));
    let second = in_loop(0, only(alloc, yes).expect(&rt, "memory"));
    assert!(rt; goes_on_alone(&rt, alloc, &lane_over(8, 0), second, &turn(8, 0, 1, 1)) == Ok(true));
}

#[test]
fn a_loop_has_the_turns_of_its_bounds(rt: HostRuntime) {
    let alloc = rt.alloc();
    let fixed = in_loop(0, summing(alloc, 5).expect(&rt, "memory"));
    let records = [
        accessed(Kind::Read, 8, 0, 0),
        accessed(Kind::Write, 8, 0, 5),
        accessed(Kind::Read, 8, 0, 5),
        accessed(Kind::Write, 8, 1, 10),
    ];
    assert!(rt; goes_on_alone(&rt, alloc, &lane_over(8, 1), fixed, &records) == Ok(true));
}

#[test]
fn a_loop_starts_where_its_lane_is(rt: HostRuntime) {
    let alloc = rt.alloc();
    let free = from_lane_to_span(summing(alloc, 5).expect(&rt, "memory"));
    assert!(rt; goes_on_alone(&rt, alloc, &lane_over(8, 1), free, &turn(8, 0, 1, 5)) == Ok(true));
}

#[test]
fn a_critical_section_is_between_the_steps_on_its_mutex(rt: HostRuntime) {
    let alloc = rt.alloc();
    let section = critical(alloc, sum(alloc, 1).expect(&rt, "memory")).expect(&rt, "memory");
    let records = [
        step(Kind::Lock, 0, 7),
        accessed(Kind::Read, 8, 0, 0),
        accessed(Kind::Write, 8, 0, 1),
        step(Kind::Unlock, 0, 8),
    ];
    assert!(rt; goes_on_alone(&rt, alloc, &lane_over(8, 0), section, &records) == Ok(true));
}

#[test]
fn a_stop_in_a_critical_section_puts_no_more(rt: HostRuntime) {
    let alloc = rt.alloc();
    let section = critical(alloc, store(Expr::Number(-1), Expr::Number(1), 5)).expect(
        &rt, "memory",
    );
    let left = alone(&rt, alloc, &lane_over(8, 0), section).expect(&rt, "memory");
    assert!(rt; matches!(left.halt, Some(Halt::Own(Stop::Index { line: 5 }))));
    assert!(rt; is_log_of(left.log.bytes(), &[step(Kind::Lock, 0, 7)]));
}

#[test]
fn an_index_outside_its_array_stops(rt: HostRuntime) {
    let alloc = rt.alloc();
    let outside = store(Expr::Number(8), Expr::Number(1), 5);
    let left = alone(&rt, alloc, &lane_over(8, 1), outside).expect(&rt, "memory");
    assert!(rt; matches!(left.halt, Some(Halt::Own(Stop::Index { line: 5 }))));
    assert!(rt; is_log_of(left.log.bytes(), &[]));
}

// 1 by the lane's number less 1 is stored in the first element.
fn quotient(alloc: Global) -> Result<Stmt, Trouble>
    ensures { IfOk result (λ s. IsLone [] (stmt_code s Done)) }
{
    let divisor = binary(alloc, Op::Sub, Expr::Tid, Expr::Number(1))?;
    let value = binary(alloc, Op::Div, Expr::Number(1), divisor)?;
    Ok(store(Expr::Number(0), value, 3))
}

#[test]
fn a_zero_divisor_stops(rt: HostRuntime) {
    let alloc = rt.alloc();
    let left = alone(
        &rt,
        alloc,
        &lane_over(8, 1),
        quotient(alloc).expect(&rt, "memory"),
    )
    .expect(&rt, "memory");
    assert!(rt; matches!(left.halt, Some(Halt::Own(Stop::DivZero { line: 5 }))));
    assert!(rt; is_log_of(left.log.bytes(), &[]));
}

#[test]
fn a_divisor_that_is_not_zero_divides(rt: HostRuntime) {
    let alloc = rt.alloc();
    let records = [accessed(Kind::Write, 8, 0, -1)];
    assert!(rt;
        goes_on_alone(
            &rt,
            alloc,
            &lane_over(8, 0),
            quotient(alloc).expect(&rt, "memory"),
            &records
        ) == Ok(true)
    );
}

// Whether a number that is stored is read back so, and so is the sum of both.
fn holds<R: Threads + Wait + Copy + Send + 'static>(
    rt: &R,
    alloc: Global,
    width: u8,
    number: i64,
    held: i64,
    twice: i64,
) -> Result<bool, Trouble>
    requires { IsWidth width }
{
    let turns = in_loop(0, summing(alloc, number)?);
    let records = [
        accessed(Kind::Read, width, 0, 0),
        accessed(Kind::Write, width, 0, held),
        accessed(Kind::Read, width, 0, held),
        accessed(Kind::Write, width, 1, twice),
    ];
    goes_on_alone(rt, alloc, &lane_over(width, 0), turns, &records)
}

// The same of each of these numbers.
fn all_hold<R: Threads + Wait + Copy + Send + 'static>(
    rt: &R,
    alloc: Global,
    width: u8,
    rows: &[(i64, i64, i64)],
) -> Result<bool, Trouble>
    requires { IsWidth width }
{
    for (number, held, twice) in rows {
        if !holds(rt, alloc, width, *number, *held, *twice)? {
            return Ok(false);
        }
    }
    Ok(true)
}

#[test]
fn an_element_has_the_low_bytes_of_a_value(rt: HostRuntime) {
    let alloc = rt.alloc();
    let int = [
        (2_147_483_647, 2_147_483_647, -2),
        (2_147_483_648, -2_147_483_648, 0),
    ];
    let long = [(i64::MAX, i64::MAX, -2), (i64::MIN, i64::MIN, 0)];
    assert!(rt; all_hold(&rt, alloc, 1, &[(127, 127, -2), (128, -128, 0)]) == Ok(true));
    assert!(rt; all_hold(&rt, alloc, 2, &[(32_767, 32_767, -2), (32_768, -32_768, 0)]) == Ok(true));
    assert!(rt; all_hold(&rt, alloc, 4, &int) == Ok(true));
    assert!(rt; all_hold(&rt, alloc, 8, &long) == Ok(true));
}

// What a lane leaves whose log fails at this call, of two loops of two turns, one in the other: eight records, in four blocks.
fn left_failing<R: Threads + Wait + Copy + Send + 'static>(
    rt: &R,
    alloc: Global,
    call: u64,
) -> Result<Left, Trouble> {
    let turns = in_loop(0, summing(alloc, 5)?);
    alone(rt, alloc, &failing(call), in_loop(1, only(alloc, turns)?))
}

// Whether a lane stopped since its log failed, or went on, and left so many of these bytes.
fn is_left(left: &Left, stops: bool, all: &[u8], length: usize) -> bool {
    let failed = matches!(left.halt, Some(Halt::Own(Stop::Trouble(Trouble::Failed))));
    let bytes = left.log.bytes();
    failed == stops
        && left.halt.is_some() == stops
        && bytes.len() == length
        && all.starts_with(bytes)
}

#[test]
fn a_call_that_fails_leaves_the_records_before(rt: HostRuntime) {
    let alloc = rt.alloc();
    let all = left_failing(&rt, alloc, 0).expect(&rt, "memory").log;
    assert!(rt; all.bytes().len() == 200);
    // A block that was refused is found out when the next one is full, or at the end.
    for (call, stops, length) in [
        (2, true, 32),
        (3, true, 80),
        (4, false, 128),
        (5, false, 176),
        (6, false, 200),
    ] {
        let left = left_failing(&rt, alloc, call).expect(&rt, "memory");
        assert!(rt;
            is_left(&left, stops, all.bytes(), length),
            "at call {call}"
        );
    }
}
