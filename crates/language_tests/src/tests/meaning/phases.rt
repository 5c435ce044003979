//! The phases of a team, item by item.

use kernel_model::{Item, Phase};
use kernel_syntax::{Body, Expr, Schedule, Stmt, Team};
use std::alloc::{AllocError, Global};
use team_phases::phases;

// Adds `s3=5 ` where slot 3 is set, `r2 ` for a statement with the number 2, and `b7 ` for the barrier of line 7.
fn push_item(text: &mut String, item: &Item) -> Result<(), AllocError> {
    match item {
        Item::Set { slot, value } => write!(text, "s{slot}={value} "),
        Item::Run { which, .. } => write!(text, "r{which} "),
        Item::Bar { line } => write!(text, "b{line} "),
    }
}

// Adds the items of a phase, and a bar.
fn push_phase(text: &mut String, phase: &Phase) -> Result<(), AllocError> {
    for item in phase.items() {
        push_item(text, item)?;
    }
    text.push_str("|")
}

// The items of all phases.
fn shown(alloc: Global, phases: &[Phase]) -> Result<String, AllocError> {
    let mut text = String::new(alloc);
    for phase in phases {
        push_phase(&mut text, phase)?;
    }
    Ok(text)
}

// A statement, where memory was found for it.
type Made = Result<Stmt, AllocError>;

// Statements, where memory was found for them.
type Many = Result<Vec<Stmt>, AllocError>;

fn none(alloc: Global) -> Many {
    Ok(Vec::new(alloc))
}

fn and(stmts: Many, next: Made) -> Many {
    let mut stmts = stmts?;
    stmts.push(next?)?;
    Ok(stmts)
}

fn one(alloc: Global, stmt: Made) -> Many {
    and(none(alloc), stmt)
}

fn two(alloc: Global, first: Made, second: Made) -> Many {
    and(one(alloc, first), second)
}

fn store(line: u32) -> Made {
    Ok(Stmt::Store {
        array: 0,
        index: Expr::Slot(0),
        value: Expr::Number(1),
        line,
        site: 0,
    })
}

fn update(line: u32) -> Made {
    Ok(Stmt::Update {
        array: 0,
        index: Expr::Slot(0),
        value: Expr::Number(1),
        minus: true,
        line,
        site: 0,
    })
}

fn share(schedule: Schedule, nowait: bool, line: u32, stmts: Many) -> Made {
    let stmts = stmts?;
    Ok(Stmt::For {
        slot: 0,
        from: Expr::Number(0),
        to: Expr::Number(8),
        schedule,
        nowait,
        line,
        end: line,
        body: Body { stmts },
    })
}

// A worksharing loop round a store in its line.
fn storing(alloc: Global, nowait: bool, line: u32) -> Made {
    share(Schedule::Even, nowait, line, one(alloc, store(line)))
}

// An empty worksharing loop.
fn empty(alloc: Global, schedule: Schedule, nowait: bool, line: u32) -> Made {
    share(schedule, nowait, line, none(alloc))
}

fn fixed(slot: u32, from: i64, to: i64, stmts: Many) -> Made {
    let stmts = stmts?;
    Ok(Stmt::Loop {
        slot,
        from: Expr::Number(from),
        to: Expr::Number(to),
        body: Body { stmts },
    })
}

fn barrier(line: u32) -> Made {
    Ok(Stmt::Barrier { line })
}

fn team(stmts: Vec<Stmt>) -> Team {
    Team {
        span: 2,
        line: 1,
        end: 99,
        body: Body { stmts },
    }
}

fn region(stmts: Many) -> Made {
    Ok(Stmt::Parallel { team: team(stmts?) })
}

// Whether a team with this body has these phases.
fn is_cut(alloc: Global, stmts: Many, due: &str) -> Option<bool> {
    let team = team(stmts.ok()?);
    let phases = phases(alloc, &team).ok()?;
    let text = shown(alloc, phases.as_slice()).ok()?;
    Some(text.as_str() == due)
}

#[test]
fn phases_end_in_barriers(rt: HostRuntime) {
    let alloc = rt.alloc();
    assert!(rt; is_cut(alloc, none(alloc), "|") == Some(true));
    let apart = and(two(alloc, store(2), barrier(3)), update(4));
    assert!(rt; is_cut(alloc, apart, "r0 b3 |r0 |") == Some(true));
}

#[test]
fn a_worksharing_loop_ends_in_a_barrier(rt: HostRuntime) {
    let alloc = rt.alloc();
    let both = two(alloc, storing(alloc, false, 4), storing(alloc, false, 5));
    assert!(rt; is_cut(alloc, both, "r0 b4 |r0 b5 ||") == Some(true));
}

#[test]
fn a_worksharing_loop_that_does_not_wait_has_no_barrier(rt: HostRuntime) {
    let alloc = rt.alloc();
    let second = two(alloc, storing(alloc, true, 4), storing(alloc, false, 5));
    assert!(rt; is_cut(alloc, second, "r0 r0 b5 ||") == Some(true));
    let waitless = two(alloc, storing(alloc, true, 4), barrier(6));
    assert!(rt; is_cut(alloc, waitless, "r0 b6 ||") == Some(true));
}

#[test]
fn loops_round_barriers_are_unrolled(rt: HostRuntime) {
    let alloc = rt.alloc();
    let rounds = fixed(1, 0, 3, two(alloc, store(3), barrier(4)));
    let due = "s1=0 r0 b4 |s1=1 r0 b4 |s1=2 r0 b4 ||";
    assert!(rt; is_cut(alloc, one(alloc, rounds), due) == Some(true));
}

#[test]
fn loops_round_two_worksharing_loops_are_unrolled(rt: HostRuntime) {
    let alloc = rt.alloc();
    let first = empty(alloc, Schedule::Even, false, 9);
    let other = empty(alloc, Schedule::Even, false, 12);
    let rounds = fixed(1, 0, 3, two(alloc, first, other));
    let due = "s1=0 r0 b9 |r0 b12 |s1=1 r0 b9 |r0 b12 |s1=2 r0 b9 |r0 b12 ||";
    assert!(rt; is_cut(alloc, one(alloc, rounds), due) == Some(true));
}

#[test]
fn nested_loops_from_below_zero_are_unrolled(rt: HostRuntime) {
    let alloc = rt.alloc();
    let inner = fixed(2, 5, 7, one(alloc, barrier(4)));
    let outer = fixed(1, -1, 1, one(alloc, inner));
    let due = "s1=-1 s2=5 b4 |s2=6 b4 |s1=0 s2=5 b4 |s2=6 b4 ||";
    assert!(rt; is_cut(alloc, one(alloc, outer), due) == Some(true));
}

#[test]
fn loops_without_a_turn_or_a_barrier_have_no_phase(rt: HostRuntime) {
    let alloc = rt.alloc();
    let turnless = fixed(1, 3, 3, one(alloc, barrier(4)));
    assert!(rt; is_cut(alloc, one(alloc, turnless), "|") == Some(true));
    let whole = fixed(1, 0, 3, one(alloc, store(4)));
    assert!(rt; is_cut(alloc, one(alloc, whole), "r0 |") == Some(true));
}

// A number with a sign before it.
fn minus(alloc: Global, number: i64) -> Result<Expr, AllocError> {
    Ok(Expr::Neg(Box::new(alloc, Expr::Number(number))?))
}

// A loop over slot 1 between two expressions.
fn between(from: Result<Expr, AllocError>, to: Result<Expr, AllocError>, stmts: Many) -> Made {
    let stmts = stmts?;
    let from = from?;
    Ok(Stmt::Loop {
        slot: 1,
        from,
        to: to?,
        body: Body { stmts },
    })
}

#[test]
fn a_sign_before_a_number_is_fixed(rt: HostRuntime) {
    let alloc = rt.alloc();
    let barrier = one(alloc, barrier(4));
    let rounds = between(minus(alloc, 2), minus(alloc, 1), barrier);
    assert!(rt; is_cut(alloc, one(alloc, rounds), "s1=-2 b4 ||") == Some(true));
}

#[test]
fn a_nested_region_is_one_statement(rt: HostRuntime) {
    let alloc = rt.alloc();
    let inside = region(one(alloc, barrier(5)));
    let alone = fixed(1, 0, 2, one(alloc, inside));
    assert!(rt; is_cut(alloc, one(alloc, alone), "r0 |") == Some(true));
    let inside = region(one(alloc, barrier(5)));
    let rounds = fixed(1, 0, 2, two(alloc, inside, barrier(7)));
    assert!(rt; is_cut(alloc, one(alloc, rounds), "s1=0 r0 b7 |s1=1 r0 b7 ||") == Some(true));
}

#[test]
fn drawn_loops_are_counted_over_all_phases(rt: HostRuntime) {
    let alloc = rt.alloc();
    let first = empty(alloc, Schedule::Dynamic(1), false, 3);
    let fair = empty(alloc, Schedule::Static(2), false, 4);
    let second = empty(alloc, Schedule::Dynamic(3), true, 5);
    let rounds = fixed(1, 0, 2, two(alloc, second, barrier(6)));
    let all = and(and(two(alloc, first, fair), rounds), store(7));
    let due = "r0 b3 |r1 b4 |s1=0 r1 b6 |s1=1 r2 b6 |r3 |";
    assert!(rt; is_cut(alloc, all, due) == Some(true));
}

// How many phases a team with this body has.
fn count(alloc: Global, stmts: Many) -> Option<usize> {
    let team = team(stmts.ok()?);
    let phases = phases(alloc, &team).ok()?;
    Some(phases.len())
}

#[test]
fn a_region_at_the_weight_limit_has_phases(rt: HostRuntime) {
    let alloc = rt.alloc();
    let rounds = fixed(1, 0, 32768, one(alloc, barrier(3)));
    assert!(rt; count(alloc, one(alloc, rounds)) == Some(32769));
}
