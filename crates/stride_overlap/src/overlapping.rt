ghost use Rattle.std.specs.Prelude.{◌<◌, ◌≤◌, ◌↔◌, IsTrue};
ghost use Rattle.stride_summary.specs.Run.{SharesRunByte};

use crate::meeting::{Places, least_meeting};
use stride_summary::Run;

/// Whether the two runs have a byte in common.
pub fn overlap(a: &Run, b: &Run) -> bool
    ensures { IsTrue result ↔ SharesRunByte a.now b.now }
{
    if a.base <= b.base {
        overlaps_later(a, b)
    } else {
        overlaps_later(b, a)
    }
}

// The second run begins no earlier.
fn overlaps_later(a: &Run, b: &Run) -> bool
    requires { a.now.base ≤ b.now.base }
    ensures { IsTrue result ↔ SharesRunByte a.now b.now }
{
    let apart = b.base - a.base;
    let short = u64::from(a.size) - 1;
    if apart <= short {
        return true;
    }
    if a.high() < b.base {
        return false;
    }
    let far = apart + u64::from(b.size) - 1;
    match least_meeting(a.stride, b.stride, apart - short, far) {
        Some(at) => are_in(&at, a, b),
        None => false,
    }
}

fn are_in(at: &Places, a: &Run, b: &Run) -> bool
    ensures { IsTrue result ↔ ((at.now.first < a.now.count) × (at.now.second < b.now.count)) }
{
    at.first < u64::from(a.count) && at.second < u64::from(b.count)
}
