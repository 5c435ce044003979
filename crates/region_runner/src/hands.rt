//! What the hands of a team add to that of the lane that forked it.
ghost use Rattle.std.specs.Prelude.{◌≡◌, ℕ, [], List};
ghost use Rattle.shared_words.specs.declared.view.View.{View};
ghost use Rattle.history_model.specs.Did.{lane_count_of};
ghost use Rattle.history_model.specs.Work.{TeamWork, NoPhase, Phase};
ghost use Rattle.lane_runner.specs.Forking.{after_phases};
ghost use Rattle.region_runner.specs.Hands.{HaveWorked, joined_with, parted_for};
ghost use Rattle.shared_words.specs.Views.{IsAtRest};

/// A hand that is at rest and has none out, and that split off a hand for each lane and joined them once their works were done, has the
/// steps of the team's phase.
pub fn joined_hands_did_a_phase()
    ensures { (word : ℕ → ℕ) (span : ℕ) (team : TeamWork) (v : View) (ws : List View) → IsAtRest v → v.out ≡ [] → lane_count_of team ≡ span
        → HaveWorked word v.name v.splits team ws → joined_with ws (parted_for 0 span span v) ≡ after_phases word span (Phase team NoPhase) v }
{}
