//! A lane of a team of two, over one array and the counter of one loop, and what it leaves.
ghost use Rattle.std.specs.Prelude.{◌≡◌, ◌<◌, ◌≤◌, false, [], ◌∷◌, IfOk};
ghost use Rattle.log_format.specs.Fitting.{IsWidth};
ghost use Rattle.kernel_syntax.specs.Bounds.{IsBoundedCode};
ghost use Rattle.kernel_syntax.specs.Program.{stmt_code};
ghost use Rattle.kernel_syntax.specs.Tree.{Done};
ghost use Rattle.kernel_model.specs.Parts.{drawn_count};
ghost use Rattle.kernel_model.specs.Phases.{part_of_stmt};
ghost use Rattle.shared_words.specs.Handles.{Belongs};
ghost use Rattle.lane_tests.specs.Lone.{IsLone};
ghost use Rattle.lane_runner.specs.Phase.{IsOfTeam};

use crate::tests::support::{buffer_failing, is_log_of, log_of, without_memory};
use kernel_syntax::{Array, Name, Stmt};
use lane_runner::{Frame, Halt, Locals, Track, World};
use log_format::{Kind, Record};
use memory_environment::MemLog;
use shared_words::{ChunkHand, Chunks, Words};
use std::alloc::Global;
use std::marker::Send;
use std::sync::Wait;
use std::thread::Threads;
use sw_base::Trouble;

/// How many bytes the elements have, which lane it is, whether another hand has drawn a number, which call on its log fails, and what the
/// first word holds.
#[derive(Drop)]
pub(crate) struct Setting {
    pub width: u8,
    pub lane: u16,
    pub taken: bool,
    pub failing: u64,
    pub word: u64,
}

/// Why a lane didn't go on, its variable 1, and its log.
#[derive(Drop)]
pub(crate) struct Left {
    pub halt: Option<Halt>,
    pub variable: i64,
    pub log: MemLog,
}

impl Left {
    /// Whether the lane went on, and its log has these records.
    pub(crate) fn went_on(&self, records: &[Record]) -> bool {
        self.halt.is_none() && is_log_of(self.log.bytes(), records)
    }
}

/// A lane over elements of so many bytes.
pub(crate) fn lane_over(width: u8, lane: u16) -> Setting
    ensures { result ≡ record { width = width; lane = lane; taken = false; failing = 0; word = 0 } }
{
    Setting {
        width,
        lane,
        taken: false,
        failing: 0,
        word: 0,
    }
}

/// The record of an access to the element of this number, at line 3.
pub(crate) fn accessed(kind: Kind, size: u8, element: u64, value: i64) -> Record {
    let site = if matches!(kind, Kind::Read) { 1 } else { 2 };
    Record {
        kind,
        size,
        site,
        line: 3,
        addr: 4096u64.wrapping_add(element.wrapping_mul(u64::from(size))),
        value: value.cast_unsigned(),
    }
}

// The array: eight elements of this width.
fn array(width: u8) -> Result<Array, Trouble>
    ensures { IfOk result (λ a. (a.base ≡ 4096) × (a.first ≡ 0) × (a.count ≡ 8) × (a.width ≡ width)) }
{
    Ok(Array {
        name: Name::new("a").ok_or(Trouble::Failed)?,
        width,
        count: 8,
        base: 4096,
        first: 0,
    })
}

// The counter of a loop, from which another hand may have drawn a number.
fn counter(alloc: Global, taken: bool) -> Result<(Chunks, ChunkHand), Trouble>
    ensures loops { IfOk result (λ r. r.0.loops ≡ 1) }
    ensures draws { IfOk result (λ r. Belongs r.1 r.0.table) }
    ensures enough { IfOk result (λ r. r.1.view.left ≡ 4194304) }
{
    let (chunks, mut draws) = Chunks::new(alloc, 1)?;
    let mut other = chunks.split(&mut draws);
    if taken {
        chunks.draw(&mut other, 0);
    }
    Ok((chunks, draws))
}

/// What the lane leaves that executes a statement of its team.
pub(crate) fn executed<R: Threads + Wait + Copy + Send + 'static>(
    rt: &R,
    alloc: Global,
    setting: &Setting,
    stmt: &Stmt,
) -> Result<Left, Trouble>
    requires width { IsWidth setting.now.width }
    requires lane { setting.now.lane < 2 }
    requires bounded { IsBoundedCode (stmt_code stmt.now Done) }
    requires own { IsOfTeam 1 (stmt_code stmt.now Done) }
    requires drawn { drawn_count (part_of_stmt stmt.now ∷ []) ≤ 1 }
{
    let arrays = [array(setting.width)?];
    let slots = vec![in alloc; 0, 0]?;
    let buffer = buffer_failing(rt, alloc, setting.failing)?;
    let (words, mut hand) = Words::new(alloc, 8, 1)?;
    words.store(&mut hand, 0, setting.word);
    let (chunks, draws) = counter(alloc, setting.taken)?;
    let world = World::new(&arrays, &words, &chunks, setting.lane, 2);
    let track = Track::new(alloc, hand, buffer, draws);
    let locals = Locals { slots };
    let mut frame = Frame { locals, track };
    let halt = frame.part(stmt, rt, alloc, &world, &without_memory).err();
    let variable = frame.locals.get(1);
    Ok(Left {
        halt,
        variable,
        log: log_of(rt, alloc, frame.track),
    })
}

/// What the lane leaves that executes a statement without its team.
pub(crate) fn alone<R: Threads + Wait + Copy + Send + 'static>(
    rt: &R,
    alloc: Global,
    setting: &Setting,
    stmt: Stmt,
) -> Result<Left, Trouble>
    requires width { IsWidth setting.now.width }
    requires lane { setting.now.lane < 2 }
    requires lone { IsLone [] (stmt_code stmt Done) }
{
    executed(rt, alloc, setting, &stmt)
}

/// Whether the lane goes on that executes a statement without its team, and leaves these records.
pub(crate) fn goes_on_alone<R: Threads + Wait + Copy + Send + 'static>(
    rt: &R,
    alloc: Global,
    setting: &Setting,
    stmt: Stmt,
    records: &[Record],
) -> Result<bool, Trouble>
    requires width { IsWidth setting.now.width }
    requires lane { setting.now.lane < 2 }
    requires lone { IsLone [] (stmt_code stmt Done) }
{
    Ok(alone(rt, alloc, setting, stmt)?.went_on(records))
}
