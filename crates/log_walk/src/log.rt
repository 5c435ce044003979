//! Going over one log of a folder.
ghost use Rattle.std.specs.Prelude.{◌≡◌, ◌+◌, ◌<◌, Some, length, slice_get, IfOk, IfErr, OnOk, IsErrOf};
ghost use Rattle.sw_base.specs.OnlyReads.{OnlyReads};
ghost use Rattle.sw_base.specs.Names.{log_name};
ghost use Rattle.log_format.specs.declared.format.Format.{Format};
ghost use Rattle.race_model.specs.Row.{Row};
ghost use Rattle.race_model.specs.IndexFault.{AreRows};
ghost use Rattle.race_model.specs.Trace.{Trace};
ghost use Rattle.log_walk.specs.Rules.{log_task_of};
ghost use Rattle.log_walk.specs.Stack.{AtNext, IsStackAfter, WalksTask};
ghost use Rattle.log_walk.specs.Unread.{OpensFile};
ghost use Rattle.log_walk.specs.Walk.{of_log, IsUnread, IsTaskOf, RefusesNext};

use crate::check::{LogFault, check_log};
use crate::fault::WalkFault;
use crate::spans::spans_of;
use crate::stack::Stack;
use crate::task::Task;
use log_format::Format;
use log_index::Row as IndexRow;
use log_segment::{Segment, first_label};
use std::alloc::Global;
use sw_base::{Folder, Memory, Path};

/// A task's log, before its first byte, where the folder has it.
fn open_log<F: Folder>(
    alloc: Global,
    folder: &mut F,
    dir: &str,
    path: &Path,
) -> Result<F::File, WalkFault>
    ensures opens { IfOk result (λ file. OpensFile (F.state folder.old).content (log_name dir.now path.now) (F.File.rest file)) }
    ensures fresh { IfOk result (λ file. F.File.faults file ≡ 0) }
    ensures unread { IfErr result (λ e. IsUnread (F.state folder.old).content dir.now path.now e) }
    ensures reads { OnlyReads F.Folder folder.old folder.new (IsErrOf result WalkFault.ReadFault) }
{
    let name = path.name(alloc, dir)?;
    match folder.open_file(alloc, &name) {
        Ok(Some(file)) => Ok(file),
        Ok(None) => Err(WalkFault::MissingLog { path: path.copy() }),
        Err(trouble) => Err(WalkFault::from(trouble)),
    }
}

/// What the rules of the next log stand on.
fn next_task(alloc: Global, rows: &[IndexRow], stack: &Stack) -> Result<Task, Memory>
    requires rows { AreRows rows.now }
    requires within { stack.now.place < length rows.now }
    requires stands { (format : Format) × (trace : Trace) × IsStackAfter format rows.now stack.now trace }
    ensures task { IfOk result (λ task. (row : Row) → slice_get rows.now stack.now.place ≡ Some row → (format : Format) (trace : Trace) → IsStackAfter format rows.now stack.now trace
        → IsTaskOf rows.now trace row (log_task_of task)) }
{
    let row = &rows[stack.place];
    Ok(Task {
        path: row.path.copy(),
        records: row.records,
        spans: spans_of(alloc, rows, stack.place)?,
        due_barriers: stack.due_barriers(&row.path),
    })
}

/// The fault of a walk for that of a task's log.
fn fault_of(path: &Path, fault: LogFault) -> WalkFault
    ensures { result ≡ of_log path.now fault }
{
    match fault {
        LogFault::Bad { number, why } => WalkFault::BadRecord {
            path: path.copy(),
            number,
            why,
        },
        LogFault::TooMany { number } => WalkFault::TooManySegments {
            path: path.copy(),
            number,
        },
        LogFault::ReadFault => WalkFault::ReadFault,
        LogFault::Memory => WalkFault::Memory,
    }
}

/// Goes over the log of the next row, where it is good, and adds its segments.
pub fn walk_log<F: Folder>(
    alloc: Global,
    format: Format,
    folder: &mut F,
    dir: &str,
    rows: &[IndexRow],
    stack: &mut Stack,
    found: &mut Vec<Segment>,
) -> Result<(), WalkFault>
    requires rows { AreRows rows.now }
    requires within { stack.old.place < length rows.now }
    requires stands { (trace : Trace) × IsStackAfter format rows.now stack.old trace }
    ensures walks { AtNext format rows.now stack.old (λ trace row. OnOk result (WalksTask format (F.state folder.old).content dir.now rows.now stack.new trace row found.old.items found.new.items)) }
    ensures place { OnOk result (stack.new.place ≡ stack.old.place + 1) }
    ensures refused { AtNext format rows.now stack.old (λ trace row. IfErr result (RefusesNext format (F.state folder.old).content dir.now rows.now trace row)) }
    ensures reads { OnlyReads F.Folder folder.old folder.new (IsErrOf result WalkFault.ReadFault) }
{
    let row = &rows[stack.place];
    let mut file = open_log(alloc, folder, dir, &row.path)?;
    let task = next_task(alloc, rows, stack)?;
    let label = first_label(&stack.forks, &row.path);
    let checked = check_log(
        alloc,
        format,
        &mut file,
        &mut stack.window,
        &task,
        stack.segments,
        label,
        found,
    );
    folder.close_file(file);
    match checked {
        Ok(checked) => {
            let barriers = task.due_barriers.unwrap_or(checked.barriers);
            stack.push(&row.path, checked.forks, barriers, checked.segments)?;
            Ok(())
        }
        Err(fault) => Err(fault_of(&row.path, fault)),
    }
}
