//! What is shown in stated turns: a place that waits before a parcel is sent, and a desk that waits before one is back.
ghost use Rattle.std.specs.Prelude.{◌≡◌, ◌<◌, None};
ghost use denote.Param.Send.{IsSync};
ghost use Rattle.hand_over.specs.Views.{turn_at};
ghost use Rattle.hand_over.specs.declared.view.Turn.TheVariants.{Idle};

use super::Count;
use hand_over::{Desk, LanePlace, Parcels};
use std::sync::Wait;
use std::sync::atomic::{AtomicBool, AtomicU64, Ordering};
use std::thread;
use std::thread::{Threads, join};

// How often a thread looks for its turn, at most.
const LOOKS: u32 = 10_000_000;

// How often it lets the other run where that is to wait, and to fall asleep.
const PAUSES: u32 = 20_000;

/// Which turn was the last, and whether one came out of its order or not at all.
#[derive(Drop)]
struct Order {
    last: AtomicU64,
    is_off: AtomicBool,
}

impl Order {
    fn new() -> Order {
        Order {
            last: AtomicU64::new(0),
            is_off: AtomicBool::new(false),
        }
    }

    // The turn of this number, which follows the last one.
    fn tell(&self, turn: u64) {
        if self.last.swap(turn, Ordering::SeqCst).wrapping_add(1) != turn {
            self.is_off.store(true, Ordering::SeqCst);
        }
    }

    // Whether all six turns came, in their order.
    fn is_kept(&self) -> bool {
        self.last.load(Ordering::SeqCst) == 6 && !self.is_off.load(Ordering::SeqCst)
    }

    // Waits until the turn of this number has come.
    fn wait(&self, turn: u64) {
        for _ in 0..LOOKS {
            if self.last.load(Ordering::SeqCst) >= turn {
                return;
            }
            thread::yield_now();
        }
    }

    // Waits until the turn of this number has come, and a while longer, in which no other may come.
    fn pass(&self, turn: u64) {
        self.wait(turn);
        for _ in 0..PAUSES {
            thread::yield_now();
        }
        if self.last.load(Ordering::SeqCst) != turn {
            self.is_off.store(true, Ordering::SeqCst);
        }
    }
}

// Waits for a parcel that isn't sent yet, and keeps it while the desk waits.
fn wait_at_place<R: Wait>(
    rt: &R,
    parcels: &Parcels<Count>,
    mut place: LanePlace<Count>,
    order: &Order,
) -> Option<u64>
    requires table { place.table ≡ parcels.now }
    requires none { place.took ≡ None }
{
    order.tell(1);
    let value = parcels.take(rt, &mut place)?.value;
    order.tell(3);
    order.pass(4);
    order.tell(5);
    parcels.give_back(&mut place, Count { value: value + 1 });
    Some(value)
}

// Sends to a place that waits, and waits for what isn't back yet.
fn wait_at_desk<R: Wait>(
    rt: &R,
    parcels: &Parcels<Count>,
    mut desk: Desk<Count>,
    order: &Order,
) -> u64
    requires table { desk.table ≡ parcels.now }
    requires idle { turn_at desk.turns 0 ≡ Idle }
{
    order.pass(1);
    order.tell(2);
    parcels.send(&mut desk, 0, Count { value: 7 });
    order.pass(3);
    order.tell(4);
    let back = parcels.collect(rt, &mut desk, 0).value;
    order.tell(6);
    back
}

fn at_both_ends<R: Threads + Wait + Sync>(
    rt: &R,
    parcels: &Parcels<Count>,
    desk: Desk<Count>,
    place: LanePlace<Count>,
    order: &Order,
) -> (Option<u64>, u64)
    requires desk { (desk.table ≡ parcels.now) × (turn_at desk.turns 0 ≡ Idle) }
    requires place { (place.table ≡ parcels.now) × (place.took ≡ None) }
{
    join(
        rt,
        || -> Option<u64>
            requires { IsSync R.row × (place.table ≡ parcels.now) × (place.took ≡ None) }
        { wait_at_place(rt, parcels, place, order) },
        || -> u64
            requires { IsSync R.row × (desk.table ≡ parcels.now) × (turn_at desk.turns 0 ≡ Idle) }
        { wait_at_desk(rt, parcels, desk, order) },
    )
}

#[test]
fn a_place_and_a_desk_wait_for_one_another(rt: HostRuntime) {
    let made = Parcels::<Count>::new(rt.alloc(), 1, &());
    let (parcels, desk, mut places) = made.expect(&rt, "memory");
    let place = places.pop().expect(&rt, "a place");
    let order = Order::new();
    assert!(rt; at_both_ends(&rt, &parcels, desk, place, &order) == (Some(7), 8));
    assert!(rt; order.is_kept());
}
