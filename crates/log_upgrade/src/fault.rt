ghost use Rattle.std.specs.Prelude.{◌≡◌, ◌↔◌, IsTrue};
ghost use Rattle.sw_base.specs.declared.trouble.Trouble.TheVariants as troubles;
ghost use Rattle.log_walk.specs.declared.fault.WalkFault.{WalkFault};
ghost use Rattle.log_walk.specs.declared.fault.WalkFault.TheVariants as fault;
ghost use Rattle.log_upgrade.specs.declared.fault.UpgradeFault.TheVariants as upgrade;

use log_walk::WalkFault;
use sw_base::{Memory, Trouble};

/// Why a folder isn't brought over.
#[derive(Drop)]
pub enum UpgradeFault {
    /// The folder is bad, or a read failed, in the walk or after it. It is never want of memory.
    Walk(WalkFault),
    /// A write failed.
    WriteFault,
    /// No memory was found.
    Memory,
}

impl From<Memory> for UpgradeFault {
    ghost use Rattle.std.specs.Prelude.{◌≡◌};
    ghost use Rattle.log_upgrade.specs.declared.fault.UpgradeFault.TheVariants as upgrade;

    ghost from_gives = { λ _ e. e ≡ upgrade.Memory };

    fn from(_: Memory) -> Self {
        UpgradeFault::Memory
    }
}

fn is_memory(refused: &WalkFault) -> bool
    ensures { IsTrue result ↔ (refused.now ≡ fault.Memory) }
{
    matches!(refused, WalkFault::Memory)
}

/// After a walk that was refused.
pub fn unwalked(refused: WalkFault) -> UpgradeFault
    ensures walk { (w : WalkFault) → result ≡ upgrade.Walk w → (w ≡ refused) × (w ≡ fault.Memory → ⊥) }
    ensures read { refused ≡ fault.ReadFault → result ≡ upgrade.Walk fault.ReadFault }
    ensures no_write { result ≡ upgrade.WriteFault → ⊥ }
{
    if is_memory(&refused) {
        return UpgradeFault::Memory;
    }
    UpgradeFault::Walk(refused)
}

/// After a read that failed, or for which no memory was found.
pub fn unread(trouble: Trouble) -> UpgradeFault
    ensures walk { (w : WalkFault) → result ≡ upgrade.Walk w → (w ≡ fault.ReadFault) × (trouble ≡ troubles.Failed) }
    ensures read { trouble ≡ troubles.Failed → result ≡ upgrade.Walk fault.ReadFault }
    ensures no_write { result ≡ upgrade.WriteFault → ⊥ }
{
    match trouble {
        Trouble::Memory => UpgradeFault::Memory,
        Trouble::Failed => UpgradeFault::Walk(WalkFault::ReadFault),
    }
}

/// After a write that failed, or for which no memory was found.
pub fn unwritten(trouble: Trouble) -> UpgradeFault
    ensures write { result ≡ upgrade.WriteFault → trouble ≡ troubles.Failed }
    ensures no_walk { (w : WalkFault) → result ≡ upgrade.Walk w → ⊥ }
{
    match trouble {
        Trouble::Memory => UpgradeFault::Memory,
        Trouble::Failed => UpgradeFault::WriteFault,
    }
}
