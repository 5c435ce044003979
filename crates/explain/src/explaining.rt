//! The least race of two lines of a folder.
ghost use Rattle.std.specs.Prelude.{◌≡◌, ◌↔◌, ◌^◌, ◌<◌, None, length, IfOk, IfErr, IsErrOf};
ghost use Rattle.sw_base.specs.Environment.{WhereTold};
ghost use Rattle.sw_base.specs.OnlyReads.{OnlyReads};
ghost use Rattle.log_format.specs.declared.format.TheConstants.{FORMAT};
ghost use Rattle.log_walk.specs.Sweep.{HasSweptAll};
ghost use Rattle.log_walk.specs.Walk.{TellsFirstBad};
ghost use Rattle.race_model.specs.FirstBad.{HoldsTrace};
ghost use Rattle.race_model.specs.Race.{IsRacePair};
ghost use Rattle.race_model.specs.Trace.{Trace, logs_of};
ghost use Rattle.explain.specs.Finding.{IsNoPlace};
ghost use Rattle.explain.specs.Least.{FindsLeast};
ghost use Rattle.explain.specs.Suspects.{HoldAccesses};
ghost use Rattle.explain.specs.Witness.{HoldsListedRun, WalksFolder};

use crate::keeping::keep_lines;
use crate::searching::least_race;
use crate::suspecting::{has_pair, suspects_of};
use crate::suspects::Suspects;
use log_index::Row;
use log_segment::Segment;
use log_walk::{Sweep, WalkFault};
use std::alloc::Global;
use sw_base::Folder;

/// Two records that race, each by its row and its number, from 1, and the first byte that they have in common.
#[derive(Clone, Copy, Debug, PartialEq, Eq)]
pub struct RacePair {
    pub first_row: u32,
    pub first: u32,
    pub second_row: u32,
    pub second: u32,
    pub byte: u64,
}

/// Sweeps through a folder, and keeps of its barrier intervals the accesses of two lines.
fn swept<F: Folder>(
    alloc: Global,
    folder: &mut F,
    dir: &str,
    lines: (u32, u32),
) -> Result<(Sweep, Vec<Segment>), WalkFault>
    ensures all { IfOk result (λ pair. (trace : Trace) × HasSweptAll FORMAT (F.state folder.old).content dir.now pair.0 trace × HoldAccesses trace lines pair.1.items) }
    ensures refused { IfErr result (λ e. WhereTold (F.state folder.old).content (λ c. TellsFirstBad FORMAT c.held dir.now e)) }

    ensures reads { OnlyReads F.Folder folder.old folder.new (IsErrOf result WalkFault.ReadFault) }
{
    let (mut sweep, root) = Sweep::open(alloc, folder, dir)?;
    let mut kept = Vec::new(alloc);
    keep_lines(alloc, &root, lines, &mut kept)?;
    'regions: while let Some(region) = sweep.next(alloc, folder)? {
        keep_lines(alloc, &region, lines, &mut kept)?;
    }
    Ok((sweep, kept))
}

/// The least race of these lines, by row and number, first record first. The intervals have all accesses of these lines.
fn least_among<F: Folder>(
    alloc: Global,
    folder: &mut F,
    dir: &str,
    rows: &[Row],
    segments: &[Segment],
    lines: (u32, u32),
) -> Result<Option<RacePair>, WalkFault>
    requires few { length rows.now < 2 ^ 32 }
    ensures explains { WhereTold (F.state folder.old).content (λ c. (trace : Trace) → HoldsListedRun c dir.now rows.now trace → HoldAccesses trace lines segments.now
        → IfOk result (FindsLeast trace lines)) }
    ensures only_faults { IfErr result (λ e. IsNoPlace e) }
    ensures reads { OnlyReads F.Folder folder.old folder.new (IsErrOf result WalkFault.ReadFault) }
{
    let racing = has_pair(alloc, segments, lines)?;
    if !racing {
        return Ok(None);
    }
    let all = suspects_of(alloc, segments)?;
    let suspects = Suspects::build(alloc, &all)?;
    least_race(alloc, folder, dir, rows, &suspects, lines)
}

/// Of all races of these two lines, in either order, the one whose first record is the least by row and number, and with that the
/// one whose second record is; none where there is no race. The first record is of an earlier row. It refuses as `walk` does.
pub fn explain<F: Folder>(
    alloc: Global,
    folder: &mut F,
    dir: &str,
    low: u32,
    high: u32,
) -> Result<Option<RacePair>, WalkFault>
    ensures explained { WhereTold (F.state folder.old).content (λ c. (trace : Trace) → HoldsTrace FORMAT c.held dir.now trace → IfOk result (FindsLeast trace (low, high))) }
    ensures pair { WhereTold (F.state folder.old).content (λ c. (trace : Trace) → HoldsTrace FORMAT c.held dir.now trace → IfOk result (λ answer. (answer ≡ None) ↔ (IsRacePair (logs_of trace) (low, high) → ⊥))) }
    ensures walks { WalksFolder (F.state folder.old).content dir.now result }
    ensures reads { OnlyReads F.Folder folder.old folder.new (IsErrOf result WalkFault.ReadFault) }
{
    let lines = (low, high);
    let (sweep, segments) = swept(alloc, folder, dir, lines)?;
    least_among(alloc, folder, dir, sweep.rows(), &segments, lines)
}
