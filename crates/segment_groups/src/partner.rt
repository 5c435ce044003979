ghost use Rattle.std.specs.Prelude.{OnOk, OnErr};

use sw_base::Memory;

/// What is done with each position that a search finds.
pub trait Partner {
    ghost use Rattle.std.specs.Prelude.{ℕ};

    // How the partner stands after it took a position.
    ghost took: { Self → ℕ → Self → Type 0 };

    // How it stands after it refused one.
    ghost refused: { Self → ℕ → Self → Type 0 };

    /// Takes a position that was found.
    fn take(&mut self, position: usize) -> Result<(), Memory>
        ensures taken { OnOk result (took self.old position self.new) }
        ensures not_taken { OnErr result (refused self.old position self.new) };
}
