//! How deep a kernel is nested.
ghost use Rattle.std.specs.Prelude.{◌↔◌};
ghost use Rattle.kernel_text.specs.Grammar.{AreShallow, KernelTree};
ghost use Rattle.kernel_text.specs.Faults.{IsShallow};

/// A kernel has at most 32 levels of blocks and in each expression exactly where no token of it
/// opens a level above 32.
#[tactic(auto, using(crate::proofs::Levels::shallow_is_low))]
pub fn levels_tell_the_depth()
    ensures { (k : KernelTree) → AreShallow 31 k.body ↔ IsShallow k }
{}
