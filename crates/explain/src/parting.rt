//! Where the paths of two tasks part.
ghost use Rattle.std.specs.Prelude.{◌≡◌, ◌↔◌, ◌<◌, ◌≤◌, ℕ, Some, length, slice_get, IsTrue, MatchOption};
ghost use Rattle.sw_base.specs.declared.path.Step.{Step as PathStep};
ghost use Rattle.counted_order.specs.Parting.{PartInLanes};
ghost use Rattle.race_model.specs.Row.{Row as TaskRow};
ghost use Rattle.explain.specs.Witness.{IsLaneAbove};

use log_index::Row;
use sw_base::{Path, Step};

fn are_same(one: Step, other: Step) -> bool
    ensures { IsTrue result ↔ (one ≡ other) }
{
    one.region == other.region && one.lane == other.lane && one.span == other.span
}

fn are_two_lanes(one: Step, other: Step) -> bool
    ensures { IsTrue result ↔ ((one.region ≡ other.region) × (one.lane ≡ other.lane → ⊥)) }
{
    one.region == other.region && one.lane != other.lane
}

/// How many steps two paths share, where they then go into two lanes of one region.
pub fn parting(first: &[Step], second: &[Step]) -> Option<usize>
    ensures { (level : ℕ) → (result ≡ Some level) ↔ PartInLanes first.now second.now level }
{
    let shorter = first.len().min(second.len());
    'steps: for level in 0..shorter {
        let one = first[level];
        let other = second[level];
        if !are_same(one, other) {
            return are_two_lanes(one, other).then_some(level);
        }
    }
    None
}

/// The region of a path's step.
pub fn region_at(path: &[Step], at: usize) -> Option<u32>
    ensures { MatchOption result (length path.now ≤ at) (λ region. (step : PathStep) × (slice_get path.now at ≡ Some step) × (step.region ≡ region)) }
{
    if at < path.len() {
        Some(path[at].region)
    } else {
        None
    }
}

fn is_lane_above(path: &Path, level: usize, above: &Path) -> bool
    requires { level < 4 }
    ensures { IsTrue result ↔ IsLaneAbove path.now level above.now }
{
    above.steps().len() == level + 1 && path.is_under(above)
}

/// The place of the row of a task above, one step below this level.
pub fn lane_above(rows: &[Row], path: &Path, level: usize) -> Option<usize>
    requires { level < 4 }
    ensures { MatchOption result ((place : ℕ) (row : TaskRow) → slice_get rows.now place ≡ Some row → IsLaneAbove path.now level row.path → ⊥)
        (λ place. (place < length rows.now) × (row : TaskRow) × (slice_get rows.now place ≡ Some row) × IsLaneAbove path.now level row.path) }
{
    'rows: for place in 0..rows.len() {
        let row = &rows[place];
        if is_lane_above(path, level, &row.path) {
            return Some(place);
        }
    }
    None
}
