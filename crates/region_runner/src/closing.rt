//! The logs of a team, closed.
ghost use Rattle.std.specs.Prelude.{◌≡◌, ◌<◌, ◌≤◌, ℕ, [], length, Ok, slice_index_or};
ghost use Rattle.std.specs.Vec.{vec_capacity, vec_len};
ghost use Rattle.lane_runner.specs.Lane.{halt_in};
ghost use Rattle.region_runner.specs.Closing.{IsClosedAs};
ghost use Rattle.region_runner.specs.Opening.{ClosesAs};

use lane_runner::{Lane, Stop};
use shared_words::ChunkHand;
use std::alloc::Global;
use std::marker::Model;
use std::sync::Wait;
use sw_base::{ClosedLog, Log, Path, Trouble};

// A lane whose log is closed: its log; the logs of the tasks below it; its hand on the counters;
// which task stopped, its own or one below, and why, if it didn't go on; and why its log refused a record or what waited, if it did.
#[derive(Drop)]
pub(crate) struct Closed<L: Log> {
    pub(crate) own: ClosedLog<L>,
    pub(crate) below: Vec<ClosedLog<L>>,
    pub(crate) draws: ChunkHand,
    pub(crate) stopped: Option<(Path, Stop)>,
    pub(crate) refused: Option<Trouble>,
}

impl<L: Log> Model for Closed<L> {
    ghost use Rattle.lane_runner.specs.Handed.{entries_of, entry_of};
    ghost use Rattle.lane_runner.specs.Lane.{halt_of};
    ghost use Rattle.region_runner.specs.Gathering.{ClosedValue};

    ghost Value = { ClosedValue };

    ghost view = { λ c. record {
      path = c.own.path;
      own = entry_of L.Log c.own;
      below = entries_of L.Log c.below.items;
      halt = halt_of c.own.path c.stopped;
      refused = c.refused;
      draws = c.draws;
    } };
}

// Closes the log of a lane.
pub(crate) fn close<R: Wait, L: Log>(rt: &R, alloc: Global, lane: Lane<L>) -> Closed<L>
    ensures path { result.path ≡ lane.path }
    ensures closed { IsClosedAs result.own result.refused lane.path lane.buffer }
    ensures below { result.below ≡ lane.done }
    ensures draws { result.draws ≡ lane.tally.draws }
    ensures halt { result.halt ≡ halt_in lane }
{
    let (path, track, stopped) = lane.into_parts();
    let (_hand, buffer, draws, below) = track.into_parts();
    let records = buffer.count();
    match buffer.close(rt, alloc) {
        Ok(log) => Closed {
            own: ClosedLog { path, log, records },
            below,
            draws,
            stopped,
            refused: None,
        },
        Err((trouble, log)) => Closed {
            own: ClosedLog { path, log, records },
            below,
            draws,
            stopped,
            refused: Some(trouble),
        },
    }
}

// Closes the logs of all lanes, for which there is room.
pub(crate) fn close_all<R: Wait, L: Log>(
    rt: &R,
    alloc: Global,
    lanes: Vec<Lane<L>>,
    room: Vec<Closed<L>>,
) -> Vec<Closed<L>>
    requires empty { room.items ≡ [] }
    requires none { vec_len room ≡ 0 }
    requires room { length lanes.items ≤ vec_capacity room }
    ensures count { length result.items ≡ length lanes.items }
    ensures each { (k : ℕ) (d : _) (e : _) → k < length lanes.items → ClosesAs (Ok (slice_index_or lanes.items k d)) (slice_index_or result.items k e) }
{
    let mut closed = room;
    for lane in lanes {
        let Ok(()) = closed.push(close(rt, alloc, lane)) else {
            unreachable!()
        };
    }
    closed
}
