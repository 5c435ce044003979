//! The label with which a task begins.
ghost use Rattle.std.specs.Prelude.{◌≡◌, List, [], ◌∷◌, ◌++◌, length, slice_get, Some};
ghost use Rattle.std.specs.Global.{Vec};
ghost use Rattle.sw_base.specs.declared.path.Step.{Step};
ghost use Rattle.race_model.specs.Label.{Triple};
ghost use Rattle.log_segment.specs.Stack.{HasFork};

use span_label::Label;
use sw_base::Path;

/// The label of a task's first record, by the labels of the forks of each task above it.
pub fn first_label(forks: &[Vec<Label>], path: &Path) -> Label
    requires { (above : List Step) (step : Step) → path.now ≡ above ++ step ∷ [] → HasFork forks.now above step }
    ensures root { path.now ≡ [] → result ≡ record { offset = 0; span = 1; barrier = 0 } ∷ [] }
    ensures lane { (above : List Step) (step : Step) (labels : Vec (List Triple)) (label : List Triple) → path.now ≡ above ++ step ∷ []
        → slice_get forks.now (length above) ≡ Some labels → slice_get labels.items step.region ≡ Some label
        → result ≡ label ++ record { offset = step.lane; span = step.span; barrier = 0 } ∷ [] }
{
    match path.steps().split_last() {
        None => Label::root(),
        Some((step, above)) => forks[above.len()][step.region as usize].fork(step.lane, step.span),
    }
}
