ghost use Rattle.std.specs.Prelude.{◌≡◌, ◌≢◌, ℕ, ◌+◌, ◌*◌, ◌<◌, List, ◌++◌};
ghost use Rattle.std.specs.List.{flat_map};
ghost use Rattle.race_model.specs.Trace.{barrier_count};
ghost use Rattle.step_history.specs.History.{Name};
ghost use Rattle.history_model.specs.Work.{Work, Phases, Phase, NoPhase, TeamWork, work_records, lane_works, then_work, then_phases, phase_count, end_phases};
ghost use Rattle.history_model.specs.Did.{phase_splits, split_count, did, did_phases, DoesNothing};
ghost use Rattle.history_model.specs.Sound.{WordLayout, IsSound, ArePhasesSound, PassesBarrier, PassAllBarriers, EndWithoutBarrier};

/// One work after another: its records, its splits and what its hands did are those of both, and it is sound where both are
/// and the first passes no barrier.
pub fn works_compose()
    ensures records { (work other : Work) → work_records (then_work work other) ≡ work_records work ++ work_records other }
    ensures splits { (work other : Work) → split_count (then_work work other) ≡ split_count work + split_count other }
    ensures steps { (word : ℕ → ℕ) (name : Name) (k : ℕ) (work other : Work) →
        did word name k (then_work work other) ≡ did word name k work ++ did word name (k + split_count work) other }
    ensures sound { (layout : WordLayout) (work other : Work) → IsSound layout work → IsSound layout other → barrier_count (work_records work) ≡ 0 →
        IsSound layout (then_work work other) }
{}

/// Phases after others: their splits and what the hands did are those of both, and they are sound where both are and all of
/// the first ended in their barriers. Of sound phases each has as many splits as the region has lanes.
pub fn phases_compose()
    ensures splits { (phases later : Phases) → phase_splits (then_phases phases later) ≡ phase_splits phases + phase_splits later }
    ensures steps { (word : ℕ → ℕ) (name : Name) (k span : ℕ) (phases later : Phases) →
        did_phases word name k span (then_phases phases later) ≡ did_phases word name k span phases ++ did_phases word name (k + phase_splits phases) span later }
    ensures works { (lane : ℕ) (phases later : Phases) → lane_works lane (then_phases phases later) ≡ lane_works lane phases ++ lane_works lane later }
    ensures sound { (layout : WordLayout) (span : ℕ) (phases later : Phases) → ArePhasesSound layout span phases → ArePhasesSound layout span later →
        PassAllBarriers phases → ArePhasesSound layout span (then_phases phases later) }
    ensures passes { (phases : Phases) (team : TeamWork) → PassAllBarriers phases → PassesBarrier team → PassAllBarriers (then_phases phases (Phase team NoPhase)) }
    ensures count { (layout : WordLayout) (span : ℕ) (phases : Phases) → ArePhasesSound layout span phases → phase_splits phases ≡ phase_count phases * span }
{}

/// What the lanes of the last phase put when all hands are home, as the End of a log, changes no steps: it stands at the end of
/// each lane's log.
pub fn last_records_are_no_steps()
    ensures steps { (word : ℕ → ℕ) (name : Name) (k span : ℕ) (last : ℕ → Work) (phases : Phases) → ((lane : ℕ) → DoesNothing word (last lane)) →
        did_phases word name k span (end_phases last phases) ≡ did_phases word name k span phases }
    ensures splits { (last : ℕ → Work) (phases : Phases) → phase_splits (end_phases last phases) ≡ phase_splits phases }
    ensures logs { (layout : WordLayout) (span lane : ℕ) (last : ℕ → Work) (phases : Phases) → ArePhasesSound layout span phases → lane < span → (phases ≢ NoPhase) →
        flat_map work_records (lane_works lane (end_phases last phases)) ≡ flat_map work_records (lane_works lane phases) ++ work_records (last lane) }
    ensures sound { (layout : WordLayout) (span : ℕ) (last : ℕ → Work) (phases : Phases) → ArePhasesSound layout span phases → EndWithoutBarrier phases →
        ((lane : ℕ) → IsSound layout (last lane)) → ArePhasesSound layout span (end_phases last phases) }
{}
