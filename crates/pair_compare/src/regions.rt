ghost use Rattle.std.specs.Prelude.{◌≡◌, ◌↔◌, ℕ, ◌+◌, ◌<◌, ◌≤◌, List, Contains};
ghost use Rattle.log_segment.specs.Intervals.{AreSegments};
ghost use Rattle.log_segment.specs.Regions.{IsUnderRegion};
ghost use Rattle.log_segment.specs.declared.segment.Segment.{Segment};
ghost use Rattle.pair_compare.specs.Compare.{IsSegmentPair};
ghost use Rattle.pair_compare.specs.Conflict.{AddsPairs};
ghost use Rattle.pair_compare.specs.Regions.{IsRacePairAmong, IsRacePairBelow, IsUnderRegions};
ghost use Rattle.race_model.specs.ForkJoin.{IsForkJoin, IsTask};
ghost use Rattle.race_model.specs.Race.{IsRacePair};
ghost use Rattle.race_model.specs.Trace.{Logs};
ghost use Rattle.sw_base.specs.declared.path.Step.{Step};

/// The pairs of segments are the races of a run: those whose accesses are both in the tasks of the segments. Two accesses
/// that race are in tasks under one region of the root, so comparing region by region, or some regions at once, finds every race.
pub fn pairs_are_races()
    ensures whole { (logs : Logs) (segments : List Segment) (pair : ℕ × ℕ) → IsForkJoin logs → AreSegments logs (λ path. Unit {0}) segments
        → IsSegmentPair segments pair ↔ IsRacePair logs pair }
    ensures one_region { (logs : Logs) (region : ℕ) (segments : List Segment) (pair : ℕ × ℕ) → IsForkJoin logs → AreSegments logs (IsUnderRegion region) segments
        → IsSegmentPair segments pair ↔ IsRacePairAmong logs (IsUnderRegion region) pair }
    ensures no_region { (logs : Logs) (pair : ℕ × ℕ) → IsRacePairBelow logs 0 pair → ⊥ }
    ensures next_region { (logs : Logs) (region : ℕ) (segments : List Segment) (old new : List (ℕ × ℕ)) → IsForkJoin logs → AreSegments logs (IsUnderRegion region) segments
        → ((pair : ℕ × ℕ) → Contains old pair ↔ IsRacePairBelow logs region pair) → AddsPairs old new (IsSegmentPair segments)
        → (pair : ℕ × ℕ) → Contains new pair ↔ IsRacePairBelow logs (region + 1) pair }
    ensures next_regions { (logs : Logs) (from to : ℕ) (segments : List Segment) (old new : List (ℕ × ℕ)) → IsForkJoin logs → from ≤ to → AreSegments logs (IsUnderRegions from to) segments
        → ((pair : ℕ × ℕ) → Contains old pair ↔ IsRacePairBelow logs from pair) → AddsPairs old new (IsSegmentPair segments)
        → (pair : ℕ × ℕ) → Contains new pair ↔ IsRacePairBelow logs to pair }
    ensures all_regions { (logs : Logs) (regions : ℕ) (pair : ℕ × ℕ) → IsForkJoin logs → ((path : List Step) (region : ℕ) → IsTask logs path → IsUnderRegion region path → region < regions)
        → IsRacePairBelow logs regions pair ↔ IsRacePair logs pair }
{}
