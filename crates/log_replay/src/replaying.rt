//! All tasks of a folder against a kernel.
ghost use Rattle.std.specs.Prelude.{◌≡◌, ◌↔◌, ◌≤◌, List, [], length, IfOk, IfErr, IsErrOf};
ghost use Rattle.log_format.specs.Limit.{record_limit};
ghost use Rattle.log_format.specs.declared.format.TheConstants.{FORMAT};
ghost use Rattle.log_format.specs.declared.record.Record.{Record};
ghost use Rattle.sw_base.specs.Environment.{WhereTold};
ghost use Rattle.sw_base.specs.OnlyReads.{OnlyReads};
ghost use Rattle.race_model.specs.FirstBad.{HoldsLogs, HoldsTrace, rows_of};
ghost use Rattle.race_model.specs.KeepsRules.{KeepsRules};
ghost use Rattle.race_model.specs.LogFault.{IsWholeLog};
ghost use Rattle.race_model.specs.Trace.{Logs, Trace};
ghost use Rattle.race_model.specs.WellFormed.{IsWellFormed};
ghost use Rattle.kernel_syntax.specs.Program.{program_of};
ghost use Rattle.log_walk.specs.Walk.{TellsFirstBad};
ghost use Rattle.log_replay.specs.Ancestors.{ComparesTask, IsFoundOf, KeepsAllForks, forks_kept};
ghost use Rattle.log_replay.specs.Following.{HasEnd};
ghost use Rattle.log_replay.specs.declared.stray.Stray.TheVariants as strays;
ghost use Rattle.log_replay.specs.Replaying.{AnswersFolder, IsReplayable, IsReplayed, IsTroubled};

use crate::ancestors::find_start;
use crate::comparing::follow;
use crate::forked::Forked;
use crate::stray::Stray;
use kernel_syntax::Kernel;
use log_index::Row;
use log_walk::{WalkFault, sweep_all};
use std::alloc::Global;
use sw_base::{Folder, Path};

/// What is found of a folder and a kernel.
#[derive(Drop)]
pub enum Replayed {
    /// Each log is the trace of its task under what it read and drew.
    Same,
    /// This record of this task's log is the first, in the order of the rows and then by number from 1, that isn't its trace's.
    Differs { path: Path, number: u32 },
}

/// The number of the record at which a task left its log.
fn found_of(stray: Stray) -> Result<Option<u32>, WalkFault>
    ensures found { IfOk result (λ found. IsFoundOf stray found) }
    ensures only_faults { IfErr result (λ e. IsTroubled e) }
    ensures fault { (IsErrOf result WalkFault.ReadFault) ↔ (stray ≡ strays.ReadFault) }
{
    match stray {
        Stray::Differs { number } => Ok(Some(number)),
        Stray::ReadFault => Err(WalkFault::ReadFault),
        Stray::Memory => Err(WalkFault::Memory),
    }
}

/// Compares the log of a row with its task's trace. The number of the first record that isn't the trace's; none where the log is
/// the trace, and then the regions that the task forked are kept.
fn compare_task<'k, F: Folder>(
    alloc: Global,
    kernel: &'k Kernel,
    folder: &mut F,
    dir: &str,
    kept: &mut Vec<Vec<Forked<'k>>>,
    row: &Row,
) -> Result<Option<u32>, WalkFault>
    requires { IsReplayable (program_of kernel.now) }
    ensures compares { IfOk result (λ found. WhereTold (F.state folder.old).content (λ c. (logs : Logs) → KeepsAllForks (program_of kernel.now) logs (forks_kept kept.old.items) row.now.path
        → IsWholeLog FORMAT c.held dir.now row.now.path (logs row.now.path) → row.now.records ≡ length (logs row.now.path) → HasEnd (logs row.now.path) → length (logs row.now.path) ≤ record_limit
        → ComparesTask (program_of kernel.now) logs row.now.path (forks_kept kept.old.items) (forks_kept kept.new.items) found)) }
    ensures only_faults { IfErr result (λ e. IsTroubled e) }
    ensures reads { OnlyReads F.Folder folder.old folder.new (IsErrOf result WalkFault.ReadFault) }
{
    let Some(start) = find_start(alloc, kernel, kept, &row.path)? else {
        return Ok(Some(1));
    };
    let arrays = kernel.arrays.as_slice();
    match follow(
        alloc,
        folder,
        dir,
        &row.path,
        row.records,
        arrays,
        start.team,
        start.lane,
        start.slots,
    ) {
        Ok(forks) => {
            kept.truncate(row.path.steps().len());
            kept.push(forks)?;
            Ok(None)
        }
        Err(stray) => found_of(stray),
    }
}

/// Compares the logs of these rows, which are good, with their tasks' traces, in order.
fn compare_rows<F: Folder>(
    alloc: Global,
    kernel: &Kernel,
    folder: &mut F,
    dir: &str,
    rows: &[Row],
) -> Result<Replayed, WalkFault>
    requires { IsReplayable (program_of kernel.now) }
    ensures compares { IfOk result (λ found. WhereTold (F.state folder.old).content (λ c. (tasks : Trace) → rows_of tasks ≡ rows.now → HoldsLogs FORMAT c.held dir.now tasks → KeepsRules FORMAT tasks
        → IsReplayed (program_of kernel.now) tasks found)) }
    ensures only_faults { IfErr result (λ e. IsTroubled e) }
    ensures reads { OnlyReads F.Folder folder.old folder.new (IsErrOf result WalkFault.ReadFault) }
{
    let mut kept = Vec::new(alloc);
    'rows: for row in rows {
        if let Some(number) = compare_task(alloc, kernel, folder, dir, &mut kept, row)? {
            return Ok(Replayed::Differs {
                path: row.path.copy(),
                number,
            });
        }
    }
    Ok(Replayed::Same)
}

/// Whether each log of a folder is the trace of its task of a kernel, from the locals that its parent has at the fork, under the values that the
/// log reads and the chunk numbers that it draws. Or the first record that isn't the trace's.
pub fn replay<F: Folder>(
    alloc: Global,
    kernel: &Kernel,
    folder: &mut F,
    dir: &str,
) -> Result<Replayed, WalkFault>
    requires { IsReplayable (program_of kernel.now) }
    ensures compares { IfOk result (λ found. AnswersFolder (program_of kernel.now) (F.state folder.old).content dir.now found) }
    ensures refused { IfErr result (λ e. WhereTold (F.state folder.old).content (λ c. TellsFirstBad FORMAT c.held dir.now e)) }

    ensures reads { OnlyReads F.Folder folder.old folder.new (IsErrOf result WalkFault.ReadFault) }
{
    let sweep = sweep_all(alloc, folder, dir)?;
    compare_rows(alloc, kernel, folder, dir, sweep.rows())
}
