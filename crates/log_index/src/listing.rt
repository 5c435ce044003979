ghost use Rattle.std.specs.Prelude.{◌≡◌, ◌+◌, ◌<◌, ◌↔◌, [], ◌∷◌, ◌++◌, map, All, IsTrue};
ghost use Rattle.race_model.specs.Listing.{BeginsListing, IsListing, IsLastLane, IsNextLane, IsFirstLane, IsNextRegion, IsNextPath};
ghost use Rattle.race_model.specs.Row.{row_path};

use crate::row::Row;
use sw_base::Step;

/// Each step is the last lane of its region.
fn are_last_lanes(steps: &[Step]) -> bool
    ensures { IsTrue result ↔ All IsLastLane steps.now }
{
    steps
        .iter()
        .all(|step| step.lane as u32 + 1 == step.span as u32)
}

fn is_first_lane(region: u64, step: &Step) -> bool
    ensures { IsTrue result ↔ IsFirstLane region step.now }
{
    step.region as u64 == region && step.lane == 0 && step.span >= 1
}

fn is_next_lane(step: &Step, next: &Step) -> bool
    ensures { IsTrue result ↔ IsNextLane step.now next.now }
{
    next.region == step.region
        && next.span == step.span
        && next.lane as u32 == step.lane as u32 + 1
        && next.lane < next.span
}

fn is_next_region(step: &Step, next: &Step) -> bool
    ensures { IsTrue result ↔ IsNextRegion step.now next.now }
{
    step.lane as u32 + 1 == step.span as u32 && is_first_lane(step.region as u64 + 1, next)
}

fn is_same_step(step: &Step, other: &Step) -> bool
    ensures { IsTrue result ↔ (step.now ≡ other.now) }
{
    step == other
}

/// The path is followed at once by `next` in a listing.
fn is_next_path(path: &[Step], next: &[Step]) -> bool
    ensures { IsTrue result ↔ IsNextPath path.now next.now }
{
    let [step, deeper @ ..] = next else {
        return false;
    };
    let [last, below @ ..] = path else {
        return deeper.is_empty() && is_first_lane(0, step);
    };
    if deeper.is_empty() {
        return are_last_lanes(below) && (is_next_lane(last, step) || is_next_region(last, step));
    }
    is_same_step(last, step) && is_next_path(below, deeper)
}

/// A row with this path may follow the rows.
pub fn goes_on(before: &[Row], path: &[Step]) -> bool
    requires { BeginsListing (map row_path before.now) }
    ensures { IsTrue result ↔ BeginsListing (map row_path before.now ++ path.now ∷ []) }
{
    match before.last() {
        None => path.is_empty(),
        Some(row) => is_next_path(row.steps(), path),
    }
}

/// The rows are all the tasks of a tree.
pub fn is_whole(rows: &[Row]) -> bool
    requires { BeginsListing (map row_path rows.now) }
    ensures { IsTrue result ↔ IsListing (map row_path rows.now) }
{
    match rows.last() {
        None => false,
        Some(row) => are_last_lanes(row.steps()),
    }
}
