//! The last step of a path.
ghost use Rattle.std.specs.Prelude.{◌≡◌, ◌↔◌, [], ◌∷◌, ◌++◌, IsTrue, MatchOption};
ghost use Rattle.sw_base.specs.declared.path.Step.{Step as PathStep};

use sw_base::Step;

fn are_same(steps: &[Step], others: &[Step]) -> bool
    ensures { IsTrue result ↔ (steps.now ≡ others.now) }
{
    steps == others
}

/// The one step by which the path goes on from the one above, if it does.
pub fn step_below(path: &[Step], above: &[Step]) -> Option<Step>
    ensures { MatchOption result ((step : PathStep) → path.now ≡ above.now ++ step ∷ [] → ⊥) (λ step. path.now ≡ above.now ++ step ∷ []) }
{
    let (last, prefix) = path.split_last()?;
    if are_same(prefix, above) {
        Some(*last)
    } else {
        None
    }
}
