//! A record that opens one barrier interval too many.
ghost use Rattle.std.specs.Prelude.{◌≡◌, ℕ, ◌+◌, ◌≤◌, List};
ghost use Rattle.sw_base.specs.declared.path.Step.{Step};
ghost use Rattle.race_model.specs.LogFault.{max_segments};
ghost use Rattle.certify.specs.Verdicts.{OpensTheFirst};
ghost use Rattle.certify_laws.specs.Opening.{last_path, run_with};

/// Where the logs before a task have one interval less than are compared, the record that opens its second interval is told, and neither the first record
/// nor the barrier between them; where they have two less, none is.
pub fn the_first_interval_too_many_is_told()
    ensures opens { (n : ℕ) → n + 1 ≡ max_segments → OpensTheFirst (run_with n) last_path 3 }
    ensures barrier { (n : ℕ) → n + 1 ≡ max_segments → OpensTheFirst (run_with n) last_path 2 → ⊥ }
    ensures earlier { (n : ℕ) → n + 1 ≡ max_segments → OpensTheFirst (run_with n) last_path 1 → ⊥ }
    ensures none { (n : ℕ) (path : List Step) (number : ℕ) → n + 2 ≤ max_segments → OpensTheFirst (run_with n) path number → ⊥ }
{}
