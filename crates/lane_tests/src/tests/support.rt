//! Statements and regions for lanes, and buffers and logs with what is in them.
ghost use Rattle.std.specs.Prelude.{◌≡◌, [], ◌∷◌, Some, Err, IfOk};
ghost use Rattle.kernel_syntax.specs.Program.{code_of, stmt_code};
ghost use Rattle.kernel_syntax.specs.Tree.{Done};
ghost use Rattle.kernel_model.specs.Parts.{drawn_count};
ghost use Rattle.kernel_model.specs.Phases.{part_of_stmt};
ghost use Rattle.lane_tests.specs.Lone.{IsLone};
ghost use Rattle.lane_runner.specs.Phase.{IsOfTeam};
ghost use Rattle.sw_base.specs.Environment.{empty_text};
ghost use Rattle.memory_environment.specs.MemLog.{path_of, text_of, faults_of};

use event_buffer::Buffer;
use kernel_syntax::{Body, Expr, Stmt, Team};
use lane_runner::{Locals, Stop, Track};
use log_format::{Kind, Record, encode};
use memory_environment::{MemFolder, MemLog};
use shared_words::Hand;
use std::alloc::Global;
use std::sync::Wait;
use std::thread::Threads;
use sw_base::{ClosedLog, Folder, LOG_HEADER, Path, Trouble};

/// The record of a step on a mutex.
pub(crate) fn step(kind: Kind, mutex: u64, line: u32) -> Record {
    Record {
        kind,
        size: 0,
        site: 0,
        line,
        addr: mutex,
        value: 0,
    }
}

/// Whether these are the bytes of a log of the records.
pub(crate) fn is_log_of(bytes: &[u8], records: &[Record]) -> bool {
    let mut rest = match bytes.strip_prefix(&LOG_HEADER) {
        Some(after) => after,
        None => return false,
    };
    for record in records {
        match rest.strip_prefix(&encode(record)) {
            Some(after) => rest = after,
            None => return false,
        }
    }
    rest.is_empty()
}

/// A buffer before the empty log of a new folder.
pub(crate) fn buffer<R: Threads>(rt: &R, alloc: Global) -> Result<Buffer<MemLog>, Trouble>
    ensures unrefused { IfOk result (λ b. b.refused ≡ None) }
    ensures empty { IfOk result (λ b. b.count ≡ 0) }
    ensures root { IfOk result (λ b. b.path ≡ []) }
{
    buffer_failing(rt, alloc, 0)
}

/// A buffer for two records, before the empty log of a new folder, of which this call fails. The first call has the number 1.
pub(crate) fn buffer_failing<R: Threads>(
    rt: &R,
    alloc: Global,
    call: u64,
) -> Result<Buffer<MemLog>, Trouble>
    ensures unrefused { IfOk result (λ b. b.refused ≡ None) }
    ensures empty { IfOk result (λ b. b.count ≡ 0) }
    ensures root { IfOk result (λ b. b.path ≡ []) }
{
    let mut folder = MemFolder::new(alloc)?;
    folder.fail_log(&Path::root(), &[call])?;
    match Buffer::start(rt, alloc, folder.root(alloc, "d")?, 48) {
        Ok(buffer) => Ok(buffer),
        Err((trouble, _)) => Err(trouble),
    }
}

/// A lane's log at its end, also where its last call failed.
pub(crate) fn log_of<R: Wait>(rt: &R, alloc: Global, track: Track<MemLog>) -> MemLog {
    let (_, buffer, _, _) = track.into_parts();
    match buffer.close(rt, alloc) {
        Ok(log) => log,
        Err((_, log)) => log,
    }
}

/// What is called to run a region, where no memory is found for it: no lane runs.
pub(crate) fn without_memory(
    hand: &mut Hand,
    _locals: &Locals,
    number: u32,
    _logs: Vec<MemLog>,
    team: &Team,
    _done: &mut Vec<ClosedLog<MemLog>>,
) -> Result<(), (Path, Stop)>
    ensures hand { hand.new ≡ hand.old }
    ensures done { _done.new ≡ _done.old }
    ensures stop { result ≡ Err (record { region = number; lane = 0; span = team.now.span } ∷ [], Stop.Trouble Trouble.Memory) }
{
    let first = Path::root().child(number, 0, team.span);
    Err((first, Stop::Trouble(Trouble::Memory)))
}

/// A body without a statement.
pub(crate) fn nothing(alloc: Global) -> Body
    ensures { IsLone [] (code_of result.stmts.items) }
{
    Body {
        stmts: Vec::new(alloc),
    }
}

/// A body of one statement.
pub(crate) fn only(alloc: Global, stmt: Stmt) -> Result<Body, Trouble>
    requires lone { IsLone [] (stmt_code stmt Done) }
    ensures { IfOk result (λ b. IsLone [] (code_of b.stmts.items)) }
{
    let stmts = vec![in alloc; stmt]?;
    Ok(Body { stmts })
}

/// A test of variable 0.
pub(crate) fn tested(yes: Body, no: Body) -> Stmt
    requires lone { IsLone [] (code_of yes.stmts.items) }
    requires no_lone { IsLone [] (code_of no.stmts.items) }
    ensures { IsLone [] (stmt_code result Done) }
{
    Stmt::If {
        test: Expr::Slot(0),
        yes,
        no,
    }
}

/// A loop over a variable, from 0 to 1.
pub(crate) fn in_loop(slot: u32, body: Body) -> Stmt
    requires lone { IsLone [] (code_of body.stmts.items) }
    ensures lone { IsLone [] (stmt_code result Done) }
    ensures own { IsOfTeam 1 (stmt_code result Done) }
    ensures undrawn { drawn_count (part_of_stmt result ∷ []) ≡ 0 }
{
    Stmt::Loop {
        slot,
        from: Expr::Number(0),
        to: Expr::Number(2),
        body,
    }
}
