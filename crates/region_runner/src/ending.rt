//! The End of a lane.
ghost use Rattle.std.specs.Prelude.{◌≡◌, ◌≤◌, ℕ, List, None, Some, true};
ghost use Rattle.kernel_model.specs.declared.phase.Item.{Item};
ghost use Rattle.lane_runner.specs.Going.{CanGo};
ghost use Rattle.lane_runner.specs.Lane.{Executed, LaneValue, progress};
ghost use Rattle.lane_runner.specs.World.{WorldValue};
ghost use Rattle.region_runner.specs.LastPhase.{IsLast, WentOn};

use lane_runner::Lane;
use std::alloc::Global;
use std::marker::Send;
use std::sync::Wait;
use std::thread::Threads;
use sw_base::Log;

// After the last phase, which has a line for the End, a lane that goes on puts it.
pub(crate) fn put_end<R: Threads + Wait + Copy + Send + 'static, L: Log>(
    rt: &R,
    alloc: Global,
    end: Option<u32>,
    lane: &mut Lane<L>,
)
    requires line { (line : ℕ) → end ≡ Some line → 1 ≤ line }
    requires there { lane.old.stopped ≡ None → lane.old.hand.there ≡ true }
    requires unrefused { lane.old.stopped ≡ None → lane.old.buffer.refused ≡ None }
    ensures went { (w : WorldValue) (items : List Item) (before : LaneValue) → CanGo w (progress before) → ((line : ℕ) → end ≡ Some line → IsLast items line)
        → Executed w items before lane.old → WentOn w items end before lane.new }
{
    let Some(line) = end else {
        return;
    };
    if !lane.goes() {
        return;
    }
    // The lane notes why it has none, if it has none.
    let _ = lane.finish(rt, alloc, line);
}
