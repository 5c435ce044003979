//! The spans of a task's regions, as the index lists them.
ghost use Rattle.std.specs.Prelude.{◌≡◌, ◌<◌, ℕ, Some, length, slice_get, IfOk, MatchOption};
ghost use Rattle.race_model.specs.Row.{Row};
ghost use Rattle.race_model.specs.Listing.{lane_of};
ghost use Rattle.race_model.specs.LogFault.{ListsSpans};
ghost use Rattle.race_model.specs.IndexFault.{AreRows};

use crate::last_step::step_below;
use log_index::Row as IndexRow;
use std::alloc::Global;
use sw_base::{Memory, Path};

/// The span of a region of the task, where the path is that of the region's first lane.
fn first_lane(path: &Path, task: &Path) -> Option<u16>
    ensures { MatchOption result ((region span : ℕ) → path.now ≡ lane_of task.now region 0 span → ⊥) (λ span. (region : ℕ) × (path.now ≡ lane_of task.now region 0 span)) }
{
    match step_below(path.steps(), task.steps()) {
        Some(step) if step.lane == 0 => Some(step.span),
        _ => None,
    }
}

/// The spans of the regions of the task of this row, by number. Its lanes and all under them follow it at once.
pub fn spans_of(alloc: Global, rows: &[IndexRow], index: usize) -> Result<Vec<u16>, Memory>
    requires rows { AreRows rows.now }
    requires within { index < length rows.now }
    ensures { IfOk result (λ spans. (task : Row) → slice_get rows.now index ≡ Some task → ListsSpans rows.now task.path spans.items) }
{
    let task = &rows[index];
    let mut spans = Vec::new(alloc);
    'rows: for at in index + 1..rows.len() {
        let row = &rows[at];
        if !row.path.is_under(&task.path) {
            return Ok(spans);
        }
        if let Some(span) = first_lane(&row.path, &task.path) {
            spans.push(span)?;
        }
    }
    Ok(spans)
}
