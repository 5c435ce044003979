ghost use Rattle.std.specs.Prelude.{OnOk, OnErr};

use stride_summary::Run;
use sw_base::Memory;

/// What is done with each run that a search finds.
pub trait Visit {
    ghost use Rattle.stride_summary.specs.declared.run.Run.{Run};

    // How the visitor stands after it took a run.
    ghost took: { Self → Run → Self → Type 0 };

    // How it stands after it refused one.
    ghost refused: { Self → Run → Self → Type 0 };

    /// Takes a run that was found.
    fn take(&mut self, run: &Run) -> Result<(), Memory>
        ensures taken { OnOk result (took self.old run.now self.new) }
        ensures not_taken { OnErr result (refused self.old run.now self.new) };
}
