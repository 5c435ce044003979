//! A folder brought over.
ghost use Rattle.std.specs.Prelude.{◌≡◌, ◌≤◌, None, is_some, IfOk, IsErrOf, OnErr, OnOk};
ghost use Rattle.log_format.specs.declared.format.Format.TheVariants.{First};
ghost use Rattle.sw_base.specs.Environment.{Rose, WhereTold};
ghost use Rattle.sw_base.specs.Names.{index_name};
ghost use Rattle.race_model.specs.Trace.{Trace};
ghost use Rattle.log_walk.specs.declared.fault.WalkFault.{WalkFault};
ghost use Rattle.log_walk.specs.declared.fault.WalkFault.TheVariants as fault;
ghost use Rattle.log_walk.specs.Walk.{TellsFirstBad};
ghost use Rattle.log_upgrade.specs.Upgrade.{CanUpgrade, LeavesUpgrade, Upgraded};

use crate::fault::{UpgradeFault, unwalked, unwritten};
use crate::logs::bring_logs;
use log_format::Format;
use log_index::write_index;
use log_walk::sweep_all_as;
use std::alloc::Global;
use sw_base::Folder;

/// Brings the folder `dir`, of the first format, over to the folder `new`, which has no index, and answers how many logs it has.
/// One log at a time is in memory.
pub fn upgrade<F: Folder>(
    alloc: Global,
    folder: &mut F,
    dir: &str,
    new: &str,
) -> Result<u32, UpgradeFault>
    requires fresh { WhereTold (F.state folder.old).content (λ c. c.held (index_name new.now) ≡ None) }
    ensures done { IfOk result (λ count. WhereTold (F.state folder.old).content (λ c. WhereTold (F.state folder.new).content (λ d. Upgraded dir.now new.now c d count))) }
    ensures refused { (w : WalkFault) → IsErrOf result (UpgradeFault.Walk w) → (w ≡ fault.Memory → ⊥) × WhereTold (F.state folder.old).content (λ c. TellsFirstBad First c.held dir.now w) }
    ensures untouched { WhereTold (F.state folder.old).content (λ c. ((trace : Trace) → CanUpgrade c.held dir.now new.now trace → ⊥) → F.state folder.new ≡ F.state folder.old) }
    ensures only_reads { WhereTold (F.state folder.old).content (λ c. ((trace : Trace) → CanUpgrade c.held dir.now new.now trace → ⊥) → IsErrOf result UpgradeFault.WriteFault → ⊥) }
    ensures leaves { OnErr result (WhereTold (F.state folder.old).content (λ c. WhereTold (F.state folder.new).content (λ d. LeavesUpgrade dir.now new.now c d))) }

    ensures later { F.read_faults folder.old ≤ F.read_faults folder.new }
    ensures cause { IsErrOf result (UpgradeFault.Walk fault.ReadFault) → Rose (F.read_faults folder.old) (F.read_faults folder.new) }
    ensures no_read_fault { (IsErrOf result (UpgradeFault.Walk fault.ReadFault) → ⊥) → F.read_faults folder.new ≡ F.read_faults folder.old }
    ensures write_cause { IsErrOf result UpgradeFault.WriteFault → Rose (F.state folder.old).write_faults (F.state folder.new).write_faults }
    ensures no_fault { OnOk result ((F.state folder.new).write_faults ≡ (F.state folder.old).write_faults) }
    ensures same_roots { (F.state folder.new).roots ≡ (F.state folder.old).roots }
    ensures tells { is_some (F.state folder.new).content ≡ is_some (F.state folder.old).content }
{
    let sweep = match sweep_all_as(alloc, Format::First, folder, dir) {
        Ok(sweep) => sweep,
        Err(refused) => return Err(unwalked(refused)),
    };
    let rows = sweep.rows();
    bring_logs(alloc, folder, dir, new, rows)?;
    match write_index(alloc, folder, new, rows) {
        Ok(()) => Ok(rows.len() as u32),
        Err(trouble) => Err(unwritten(trouble)),
    }
}
