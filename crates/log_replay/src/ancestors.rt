//! How a task starts: from the regions that the task above it forked.
ghost use Rattle.std.specs.Prelude.{◌≡◌, List, [], length, slice_get, map, option_map, IfOk, IfSome};
ghost use Rattle.sw_base.specs.declared.path.Step.{Step as PathStep};
ghost use Rattle.race_model.specs.Trace.{Logs};
ghost use Rattle.kernel_syntax.specs.Program.{program_of};
ghost use Rattle.kernel_model.specs.Folder.{lane_start, root_start, start_at};
ghost use Rattle.log_replay.specs.Ancestors.{CanStart, KeepsAllForks, forks_kept, start_of};
ghost use Rattle.log_replay.specs.Forks.{fork_of};
ghost use Rattle.log_replay.specs.Replaying.{IsReplayable};

use crate::forked::Forked;
use kernel_syntax::{Kernel, Team};
use std::alloc::{AllocError, Global};
use sw_base::{Path, Step};

/// How a task starts.
#[derive(Drop)]
pub struct Begin<'k> {
    pub team: &'k Team,
    pub lane: u16,
    pub slots: Vec<i64>,
}

fn root<'k>(alloc: Global, kernel: &'k Kernel) -> Result<Begin<'k>, AllocError>
    requires { IsReplayable (program_of kernel.now) }
    ensures start { IfOk result (λ b. start_of b ≡ root_start (program_of kernel.now)) }
    ensures can { IfOk result (λ b. CanStart b) }
{
    Ok(Begin {
        team: &kernel.main,
        lane: 0,
        slots: vec![in alloc; 0i64; kernel.slots as usize]?,
    })
}

/// How a lane of one of these regions starts. None where no region has this number, or where it has no such lane.
fn lane<'k>(
    alloc: Global,
    forks: &[Forked<'k>],
    step: &Step,
) -> Result<Option<Begin<'k>>, AllocError>
    ensures start { IfOk result (λ found. option_map start_of found ≡ lane_start (slice_get (map fork_of forks.now) step.now.region) step.now) }
    ensures can { IfOk result (λ found. IfSome found (λ b. CanStart b)) }
{
    let Some(forked) = forks.get(step.region as usize) else {
        return Ok(None);
    };
    if step.span != forked.team.span || step.span <= step.lane {
        return Ok(None);
    }
    Ok(Some(Begin {
        team: forked.team,
        lane: step.lane,
        slots: forked.slots.as_slice().to_vec(alloc)?,
    }))
}

/// How the task of this path starts, where these are the regions that the tasks above it forked. None where none of them forks it.
pub fn find_start<'k>(
    alloc: Global,
    kernel: &'k Kernel,
    kept: &[Vec<Forked<'k>>],
    path: &Path,
) -> Result<Option<Begin<'k>>, AllocError>
    requires { IsReplayable (program_of kernel.now) }
    ensures start { IfOk result (λ found. (logs : Logs) → KeepsAllForks (program_of kernel.now) logs (forks_kept kept.now) path.now
        → option_map start_of found ≡ start_at (program_of kernel.now) logs path.now) }
    ensures can { IfOk result (λ found. IfSome found (λ b. CanStart b)) }
{
    let Some((step, above)) = path.steps().split_last() else {
        return Ok(Some(root(alloc, kernel)?));
    };
    match kept.get(above.len()) {
        Some(forks) => lane(alloc, forks, step),
        None => Ok(None),
    }
}
