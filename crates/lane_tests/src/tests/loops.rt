//! Worksharing loops of every schedule that one lane executes, with the records that it puts.
ghost use Rattle.std.specs.Prelude.{◌≡◌, ◌≤◌, ◌<◌, true, [], ◌∷◌};
ghost use Rattle.log_format.specs.Fitting.{IsWidth};
ghost use Rattle.kernel_syntax.specs.Bounds.{IsBoundedCode, IsBoundedSchedule};
ghost use Rattle.kernel_syntax.specs.Program.{code_of, stmt_code};
ghost use Rattle.kernel_syntax.specs.Tree.{Done};
ghost use Rattle.kernel_model.specs.Parts.{drawn_count};
ghost use Rattle.kernel_model.specs.Phases.{part_of_stmt};
ghost use Rattle.lane_tests.specs.Lone.{IsLone};
ghost use Rattle.lane_runner.specs.Phase.{IsOfTeam};

use crate::tests::one_lane::{Setting, accessed, executed, lane_over};
use crate::tests::statements::summing;
use kernel_syntax::{Body, Expr, Schedule, Stmt};
use log_format::{Kind, Record};
use std::alloc::Global;
use std::marker::Send;
use std::sync::Wait;
use std::thread::Threads;
use sw_base::Trouble;

// A worksharing loop over variable 0, from 0 to below this number.
fn shared(to: i64, schedule: Schedule, body: Body) -> Stmt
    requires schedule { IsBoundedSchedule schedule }
    requires lone { IsLone [] (code_of body.stmts.items) }
    ensures bounded { IsBoundedCode (stmt_code result Done) }
    ensures own { IsOfTeam 1 (stmt_code result Done) }
    ensures drawn { drawn_count (part_of_stmt result ∷ []) ≤ 1 }
{
    Stmt::For {
        slot: 0,
        from: Expr::Number(0),
        to: Expr::Number(to),
        schedule,
        nowait: true,
        line: 6,
        end: 9,
        body,
    }
}

// The record of a draw.
fn drawn(number: u64, chunks: u64) -> Record {
    Record {
        kind: Kind::Chunk,
        size: 0,
        site: 0,
        line: 6,
        addr: number,
        value: chunks,
    }
}

// A lane that another has drawn a number before.
fn second() -> Setting
    ensures { result ≡ record { width = 8; lane = 0; taken = true; failing = 0; word = 0 } }
{
    Setting {
        width: 8,
        lane: 0,
        taken: true,
        failing: 0,
        word: 0,
    }
}

// Whether the lane goes on that executes a loop of this schedule, from 0 to below this number, and leaves these records. In each turn
// the sum of the first element and 5 is stored in the element of the turn.
fn goes_round<R: Threads + Wait + Copy + Send + 'static>(
    rt: &R,
    alloc: Global,
    setting: &Setting,
    to: i64,
    schedule: Schedule,
    records: &[Record],
) -> Result<bool, Trouble>
    requires width { IsWidth setting.now.width }
    requires lane { setting.now.lane < 2 }
    requires schedule { IsBoundedSchedule schedule }
{
    let stmt = shared(to, schedule, summing(alloc, 5)?);
    Ok(executed(rt, alloc, setting, &stmt)?.went_on(records))
}

#[test]
fn even_shares_are_in_a_row(rt: HostRuntime) {
    let alloc = rt.alloc();
    let records = [
        accessed(Kind::Read, 8, 0, 0),
        accessed(Kind::Write, 8, 0, 5),
        accessed(Kind::Read, 8, 0, 5),
        accessed(Kind::Write, 8, 1, 10),
    ];
    assert!(rt; goes_round(&rt, alloc, &lane_over(8, 0), 3, Schedule::Even, &records) == Ok(true));
    let records = [
        accessed(Kind::Read, 8, 0, 0),
        accessed(Kind::Write, 8, 2, 5),
    ];
    assert!(rt; goes_round(&rt, alloc, &lane_over(8, 1), 3, Schedule::Even, &records) == Ok(true));
}

#[test]
fn dealt_chunks_go_to_the_lanes_in_turn(rt: HostRuntime) {
    let alloc = rt.alloc();
    let records = [
        accessed(Kind::Read, 8, 0, 0),
        accessed(Kind::Write, 8, 0, 5),
        accessed(Kind::Read, 8, 0, 5),
        accessed(Kind::Write, 8, 2, 10),
    ];
    assert!(rt;
        goes_round(
            &rt,
            alloc,
            &lane_over(8, 0),
            3,
            Schedule::Static(1),
            &records
        ) == Ok(true)
    );
    let records = [
        accessed(Kind::Read, 8, 0, 0),
        accessed(Kind::Write, 8, 1, 5),
    ];
    assert!(rt;
        goes_round(
            &rt,
            alloc,
            &lane_over(8, 1),
            3,
            Schedule::Static(1),
            &records
        ) == Ok(true)
    );
}

#[test]
fn a_lane_that_is_alone_draws_all_chunks(rt: HostRuntime) {
    let records = [
        drawn(0, 2),
        accessed(Kind::Read, 8, 0, 0),
        accessed(Kind::Write, 8, 0, 5),
        accessed(Kind::Read, 8, 0, 5),
        accessed(Kind::Write, 8, 1, 10),
        drawn(1, 2),
        accessed(Kind::Read, 8, 0, 5),
        accessed(Kind::Write, 8, 2, 10),
        drawn(2, 2),
    ];
    let chunks = Schedule::Dynamic(2);
    assert!(rt; goes_round(&rt, rt.alloc(), &lane_over(8, 0), 3, chunks, &records) == Ok(true));
    // The last chunk is whole.
    let records = [
        drawn(0, 1),
        accessed(Kind::Read, 8, 0, 0),
        accessed(Kind::Write, 8, 0, 5),
        accessed(Kind::Read, 8, 0, 5),
        accessed(Kind::Write, 8, 1, 10),
        drawn(1, 1),
    ];
    assert!(rt; goes_round(&rt, rt.alloc(), &lane_over(8, 0), 2, chunks, &records) == Ok(true));
}

#[test]
fn a_lane_draws_what_another_has_left(rt: HostRuntime) {
    let records = [
        drawn(1, 2),
        accessed(Kind::Read, 8, 0, 0),
        accessed(Kind::Write, 8, 2, 5),
        drawn(2, 2),
    ];
    let chunks = Schedule::Dynamic(2);
    assert!(rt; goes_round(&rt, rt.alloc(), &second(), 3, chunks, &records) == Ok(true));
}

#[test]
fn a_lane_that_draws_none_records_the_count_of_chunks(rt: HostRuntime) {
    let alloc = rt.alloc();
    let chunks = Schedule::Dynamic(3);
    assert!(rt; goes_round(&rt, alloc, &second(), 3, chunks, &[drawn(1, 1)]) == Ok(true));
    assert!(rt; goes_round(&rt, alloc, &second(), 0, chunks, &[drawn(0, 0)]) == Ok(true));
}
