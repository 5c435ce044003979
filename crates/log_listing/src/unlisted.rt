//! Why a listing broke off.
ghost use Rattle.std.specs.Prelude.{◌≡◌, ◌↔◌};
ghost use Rattle.sw_base.specs.declared.trouble.Trouble.TheVariants as troubles;
ghost use Rattle.log_listing.specs.declared.unlisted.Unlisted.TheVariants as why;

use sw_base::{Memory, Trouble};

/// Why not all was listed.
#[derive(Clone, Copy, PartialEq, Eq)]
pub enum Unlisted {
    /// A read failed.
    ReadFault,
    /// A write failed.
    WriteFault,
    /// No memory was found.
    Memory,
}

impl From<Memory> for Unlisted {
    ghost use Rattle.std.specs.Prelude.{◌≡◌};
    ghost use Rattle.log_listing.specs.declared.unlisted.Unlisted.TheVariants as why;

    ghost from_gives = { λ _ e. e ≡ why.Memory };

    fn from(_: Memory) -> Self {
        Unlisted::Memory
    }
}

/// What a read that failed is.
pub fn unread(trouble: Trouble) -> Unlisted
    ensures read { (result ≡ why.ReadFault) ↔ (trouble ≡ troubles.Failed) }
    ensures write { result ≡ why.WriteFault → ⊥ }
{
    match trouble {
        Trouble::Memory => Unlisted::Memory,
        Trouble::Failed => Unlisted::ReadFault,
    }
}

/// What a write that failed is.
pub fn unwritten(trouble: Trouble) -> Unlisted
    ensures read { result ≡ why.ReadFault → ⊥ }
    ensures write { result ≡ why.WriteFault → trouble ≡ troubles.Failed }
{
    match trouble {
        Trouble::Memory => Unlisted::Memory,
        Trouble::Failed => Unlisted::WriteFault,
    }
}
