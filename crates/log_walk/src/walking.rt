//! The segments of a folder.
ghost use Rattle.std.specs.Prelude.{IfOk, IfErr, OnOk, IsErrOf};
ghost use Rattle.sw_base.specs.Environment.{WhereTold};
ghost use Rattle.sw_base.specs.OnlyReads.{OnlyReads};
ghost use Rattle.log_format.specs.declared.format.Format.TheVariants.{First};
ghost use Rattle.log_format.specs.declared.format.TheConstants.{FORMAT};
ghost use Rattle.race_model.specs.WellFormed.{IsWellFormed};
ghost use Rattle.log_walk.specs.Walk.{TellsFirstBad};
ghost use Rattle.log_walk.specs.Segments.{AreOfFolder};

use crate::fault::WalkFault;
use crate::sweep::Sweep;
use log_format::{FORMAT, Format};
use log_segment::Segment;
use std::alloc::Global;
use sw_base::Folder;

/// The barrier intervals of a folder's trace, in the order of its rows, and in each log by number, each with its label,
/// where the folder is well formed. Else the folder's first bad place.
pub fn walk<F: Folder>(alloc: Global, folder: &mut F, dir: &str) -> Result<Vec<Segment>, WalkFault>
    ensures segments { IfOk result (λ found. AreOfFolder FORMAT (F.state folder.old).content dir.now found.items) }
    ensures well_formed { OnOk result (WhereTold (F.state folder.old).content (λ c. IsWellFormed FORMAT c.held dir.now)) }
    ensures refused { IfErr result (λ e. WhereTold (F.state folder.old).content (λ c. TellsFirstBad FORMAT c.held dir.now e)) }

    ensures reads { OnlyReads F.Folder folder.old folder.new (IsErrOf result WalkFault.ReadFault) }
{
    walk_as(alloc, FORMAT, folder, dir)
}

/// The same of a folder of the first format.
pub fn walk_old<F: Folder>(
    alloc: Global,
    folder: &mut F,
    dir: &str,
) -> Result<Vec<Segment>, WalkFault>
    ensures segments { IfOk result (λ found. AreOfFolder First (F.state folder.old).content dir.now found.items) }
    ensures well_formed { OnOk result (WhereTold (F.state folder.old).content (λ c. IsWellFormed First c.held dir.now)) }
    ensures refused { IfErr result (λ e. WhereTold (F.state folder.old).content (λ c. TellsFirstBad First c.held dir.now e)) }

    ensures reads { OnlyReads F.Folder folder.old folder.new (IsErrOf result WalkFault.ReadFault) }
{
    walk_as(alloc, Format::First, folder, dir)
}

/// The same of a folder of this format.
pub fn walk_as<F: Folder>(
    alloc: Global,
    format: Format,
    folder: &mut F,
    dir: &str,
) -> Result<Vec<Segment>, WalkFault>
    ensures segments { IfOk result (λ found. AreOfFolder format (F.state folder.old).content dir.now found.items) }
    ensures well_formed { OnOk result (WhereTold (F.state folder.old).content (λ c. IsWellFormed format c.held dir.now)) }
    ensures refused { IfErr result (λ e. WhereTold (F.state folder.old).content (λ c. TellsFirstBad format c.held dir.now e)) }

    ensures reads { OnlyReads F.Folder folder.old folder.new (IsErrOf result WalkFault.ReadFault) }
{
    let (mut sweep, mut found) = Sweep::open_as(alloc, format, folder, dir)?;
    let left = sweep.left();
    'regions: for round in 0..left + 1 {
        let Some(mut region) = sweep.next(alloc, folder)? else {
            return Ok(found);
        };
        found.append(&mut region)?;
    }
    Ok(found)
}
