//! A stretch of a log.
ghost use Rattle.std.specs.Prelude.{◌≡◌, ◌↔◌, ◌+◌, ℕ, Contains, IsTrue};
ghost use Rattle.explain.specs.Suspects.{IsRunWithin};

use sw_base::Path;

/// The records of a task's log from one to another, by their numbers from 1.
#[derive(Drop)]
pub struct RecordRange {
    pub path: Path,
    pub first: u32,
    pub last: u32,
}

/// Whether both are the path of one task.
fn is_path(path: &Path, other: &Path) -> bool
    ensures { IsTrue result ↔ (path.now ≡ other.now) }
{
    path == other
}

/// Whether the record of this number in the task's log is one from the first to the last of a task's.
pub fn is_within(own: &Path, first: u32, last: u32, path: &Path, number: u32) -> bool
    ensures { IsTrue result ↔ IsRunWithin own.now first last path.now number }
{
    first <= number && number <= last && is_path(own, path)
}

/// Whether one of the stretches is of the task's log.
pub fn has_path(stretches: &[RecordRange], path: &Path) -> bool
    ensures { (s : RecordRange) → Contains stretches.now s → s.path ≡ path.now → IsTrue result }
{
    for stretch in stretches {
        if is_path(&stretch.path, path) {
            return true;
        }
    }
    false
}

/// Whether one of the stretches has the record of this number in the task's log.
pub fn has_record(stretches: &[RecordRange], path: &Path, number: u32) -> bool
    ensures { (s : RecordRange) → Contains stretches.now s → IsRunWithin s.path s.first s.last path.now number → IsTrue result }
{
    for stretch in stretches {
        if is_within(&stretch.path, stretch.first, stretch.last, path, number) {
            return true;
        }
    }
    false
}
