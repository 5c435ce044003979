use interval_tree::Visit;
use pair_compare::add_conflict;
use std::collections::BTreeSet;
use stride_summary::Run;
use sw_base::Memory;

/// A run that is looked up, and the line pairs that were found so far.
pub struct Finder<'r> {
    pub run: &'r Run,
    pub pairs: BTreeSet<(u32, u32)>,
}

impl<'r> Visit for Finder<'r> {
    ghost use Rattle.std.specs.Prelude.{◌≡◌, [], ◌∷◌};
    ghost use Rattle.pair_compare.specs.Conflict.{IsRunPair, AddsPairs, AddsSome};

    ghost took = { λ before run after. (after.run.now ≡ before.run.now) × AddsPairs before.pairs.keys after.pairs.keys (IsRunPair before.run.now (run ∷ [])) };

    ghost refused = { λ before run after. (after.run.now ≡ before.run.now) × AddsSome before.pairs.keys after.pairs.keys (IsRunPair before.run.now (run ∷ [])) };

    fn take(&mut self, run: &Run) -> Result<(), Memory> {
        add_conflict(self.run, run, &mut self.pairs)
    }
}
