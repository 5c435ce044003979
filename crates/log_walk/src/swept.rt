//! A folder gone over for its first bad place alone.
ghost use Rattle.std.specs.Prelude.{IfOk, IfErr, IsErrOf};
ghost use Rattle.log_format.specs.declared.format.TheConstants.{FORMAT};
ghost use Rattle.sw_base.specs.Environment.{WhereTold};
ghost use Rattle.sw_base.specs.OnlyReads.{OnlyReads};
ghost use Rattle.race_model.specs.Trace.{Trace};
ghost use Rattle.log_walk.specs.Sweep.{HasSweptAll};
ghost use Rattle.log_walk.specs.Walk.{TellsFirstBad};

use crate::fault::WalkFault;
use crate::sweep::Sweep;
use log_format::{FORMAT, Format};
use std::alloc::Global;
use sw_base::Folder;

/// Sweeps through a folder for its first bad place. Segments are dropped.
pub fn sweep_all<F: Folder>(alloc: Global, folder: &mut F, dir: &str) -> Result<Sweep, WalkFault>
    ensures all { IfOk result (λ sweep. (trace : Trace) × HasSweptAll FORMAT (F.state folder.old).content dir.now sweep trace) }
    ensures refused { IfErr result (λ e. WhereTold (F.state folder.old).content (λ c. TellsFirstBad FORMAT c.held dir.now e)) }

    ensures reads { OnlyReads F.Folder folder.old folder.new (IsErrOf result WalkFault.ReadFault) }
{
    sweep_all_as(alloc, FORMAT, folder, dir)
}

/// The same of a folder of this format.
pub fn sweep_all_as<F: Folder>(
    alloc: Global,
    format: Format,
    folder: &mut F,
    dir: &str,
) -> Result<Sweep, WalkFault>
    ensures all { IfOk result (λ sweep. (trace : Trace) × HasSweptAll format (F.state folder.old).content dir.now sweep trace) }
    ensures refused { IfErr result (λ e. WhereTold (F.state folder.old).content (λ c. TellsFirstBad format c.held dir.now e)) }

    ensures reads { OnlyReads F.Folder folder.old folder.new (IsErrOf result WalkFault.ReadFault) }
{
    let (mut sweep, _root) = Sweep::open_as(alloc, format, folder, dir)?;
    'regions: while let Some(_segments) = sweep.next(alloc, folder)? {}
    Ok(sweep)
}
