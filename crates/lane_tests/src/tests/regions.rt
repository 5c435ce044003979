//! Regions in statements, with what a lane's log tells of them.
ghost use Rattle.std.specs.Prelude.{◌≡◌, ◌<◌, [], ◌∷◌, IfOk};
ghost use Rattle.kernel_syntax.specs.Bounds.{IsBoundedCode};
ghost use Rattle.kernel_syntax.specs.Program.{code_of, stmt_code};
ghost use Rattle.kernel_syntax.specs.Tree.{Done};
ghost use Rattle.kernel_model.specs.Parts.{drawn_count};
ghost use Rattle.kernel_model.specs.Phases.{part_of_stmt};
ghost use Rattle.lane_tests.specs.Lone.{IsLone};
ghost use Rattle.lane_runner.specs.Phase.{IsOfTeam};

use crate::tests::one_lane::{executed, lane_over};
use crate::tests::support::{in_loop, is_log_of, nothing, only, tested};
use kernel_syntax::{Body, Expr, Schedule, Stmt, Team};
use log_format::{Kind, Record};
use std::alloc::Global;
use std::marker::Send;
use std::sync::Wait;
use std::thread::Threads;
use sw_base::Trouble;

fn region(body: Body) -> Stmt
    requires bounded { IsBoundedCode (code_of body.stmts.items) }
    ensures { IsLone [] (stmt_code result Done) }
{
    let team = Team {
        span: 2,
        line: 7,
        end: 8,
        body,
    };
    Stmt::Parallel { team }
}

// A region where variable 0 isn't 0.
fn region_past_zero(alloc: Global) -> Result<Body, Trouble>
    ensures { IfOk result (λ b. IsLone [] (code_of b.stmts.items)) }
{
    let region = only(alloc, region(nothing(alloc)))?;
    only(alloc, tested(region, nothing(alloc)))
}

// A worksharing loop over variable 0, from 0 to 1, in even shares.
fn in_shares(body: Body) -> Stmt
    requires lone { IsLone [] (code_of body.stmts.items) }
    ensures bounded { IsBoundedCode (stmt_code result Done) }
    ensures own { IsOfTeam 1 (stmt_code result Done) }
    ensures undrawn { drawn_count (part_of_stmt result ∷ []) ≡ 0 }
{
    Stmt::For {
        slot: 0,
        from: Expr::Number(0),
        to: Expr::Number(2),
        schedule: Schedule::Even,
        nowait: false,
        line: 5,
        end: 9,
        body,
    }
}

// Whether a lane of a team of two stops in its first region, and its log has the record of the fork.
fn stops_in_region<R: Threads + Wait + Copy + Send + 'static>(
    rt: &R,
    alloc: Global,
    lane: u16,
    stmt: Stmt,
) -> Result<bool, Trouble>
    requires lane { lane < 2 }
    requires bounded { IsBoundedCode (stmt_code stmt Done) }
    requires own { IsOfTeam 1 (stmt_code stmt Done) }
    requires undrawn { drawn_count (part_of_stmt stmt ∷ []) ≡ 0 }
{
    let left = executed(rt, alloc, &lane_over(8, lane), &stmt)?;
    Ok(left.halt.is_some() && is_log_of(left.log.bytes(), &[fork()]))
}

// The same of a loop over this variable with a region where variable 0 isn't 0.
fn stops_in_loop<R: Threads + Wait + Copy + Send + 'static>(
    rt: &R,
    alloc: Global,
    slot: u32,
) -> Result<bool, Trouble> {
    let turns = in_loop(slot, region_past_zero(alloc)?);
    stops_in_region(rt, alloc, 0, turns)
}

// The same of a worksharing loop.
fn stops_in_share<R: Threads + Wait + Copy + Send + 'static>(
    rt: &R,
    alloc: Global,
    lane: u16,
) -> Result<bool, Trouble>
    requires { lane < 2 }
{
    let shares = in_shares(region_past_zero(alloc)?);
    stops_in_region(rt, alloc, lane, shares)
}

// The record of the fork of the region.
fn fork() -> Record {
    Record {
        kind: Kind::Region,
        size: 0,
        site: 0,
        line: 7,
        addr: 0,
        value: 2,
    }
}

#[test]
fn a_region_in_a_loop_is_run_in_its_turn(rt: HostRuntime) {
    assert!(rt; stops_in_loop(&rt, rt.alloc(), 0) == Ok(true));
    assert!(rt; stops_in_loop(&rt, rt.alloc(), 1) == Ok(false));
}

#[test]
fn a_region_in_a_worksharing_loop_is_run_by_the_lane_that_has_its_iteration(rt: HostRuntime) {
    assert!(rt; stops_in_share(&rt, rt.alloc(), 0) == Ok(false));
    assert!(rt; stops_in_share(&rt, rt.alloc(), 1) == Ok(true));
}
