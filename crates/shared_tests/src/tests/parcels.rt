//! Parcels on one thread, and on one thread for each lane.
ghost use Rattle.std.specs.Prelude.{◌≡◌, ℕ, ◌+◌, ◌^◌, ◌<◌, ◌≤◌, All, None, Some};
ghost use denote.Param.Send.{IsSync};
ghost use Rattle.hand_over.specs.Views.{turn_at};
ghost use Rattle.hand_over.specs.declared.view.Turn.TheVariants.{Idle, Out};
ghost use Rattle.shared_tests.specs.Turns.{AreAll, IsIdle, IsOut};

mod scoped;
mod turns;

use hand_over::{Desk, LanePlace, Parcel, Parcels};
use std::alloc::Global;
use std::sync::{Arc, Wait};
use std::test::Fail;
use std::thread;
use std::thread::{Threads, join};

const LANES: usize = 64;

const ROUNDS: u64 = 999;

/// A number. One that is given back is greater than the one sent.
#[derive(Drop)]
struct Count {
    value: u64,
}

impl Parcel for Count {
    type About = ();

    ghost fits = { λ _ count. count.value < 2 ^ 63 };

    ghost follows = { λ _ sent back. sent.value < back.value };
}

// Takes a parcel and gives back a greater one, unless the lane is closed.
fn answer<R: Wait>(
    rt: &R,
    parcels: &Parcels<Count>,
    place: &mut LanePlace<Count>,
    more: u64,
) -> Option<u64>
    requires table { place.old.table ≡ parcels.now }
    requires none { place.old.took ≡ None }
    requires more { (0 < more) × (more < 2 ^ 62) }
    ensures table { place.new.table ≡ place.old.table }
    ensures none { place.new.took ≡ None }
{
    let value = parcels.take(rt, place)?.value;
    parcels.give_back(
        place,
        Count {
            value: value + more,
        },
    );
    Some(value)
}

// What a place answers to 7, what comes back, and what it answers to a closed lane.
fn there_and_back<R: Wait>(
    rt: &R,
    parcels: &Parcels<Count>,
    mut desk: Desk<Count>,
    mut place: LanePlace<Count>,
) -> (Option<u64>, u64, Option<u64>)
    requires desk { (desk.table ≡ parcels.now) × (turn_at desk.turns 1 ≡ Idle) }
    requires place { (place.table ≡ parcels.now) × (place.took ≡ None) }
{
    parcels.send(&mut desk, 1, Count { value: 7 });
    let taken = answer(rt, parcels, &mut place, 2);
    let back = parcels.collect(rt, &mut desk, 1).value;
    parcels.close(&mut desk, 1);
    (taken, back, answer(rt, parcels, &mut place, 2))
}

#[test]
fn a_parcel_goes_and_what_follows_it_comes_back(rt: HostRuntime) {
    let made = Parcels::<Count>::new(rt.alloc(), 2, &());
    let (parcels, desk, mut places) = made.expect(&rt, "memory");
    let place = places.pop().expect(&rt, "a place");
    assert!(rt; there_and_back(&rt, &parcels, desk, place) == (Some(7), 9, None));
}

// Answers all parcels of a lane, until it is closed.
fn serve<R: Wait>(rt: &R, parcels: &Parcels<Count>, place: &mut LanePlace<Count>)
    requires table { place.old.table ≡ parcels.now }
    requires none { place.old.took ≡ None }
{
    for _ in rt.forever() {
        if answer(rt, parcels, place, 1).is_none() {
            return;
        }
    }
}

// One thread for each place.
fn serve_all<R: Threads + Wait + Sync>(
    rt: &R,
    parcels: &Parcels<Count>,
    places: &mut [LanePlace<Count>],
)
    requires { All (λ place. (place.table ≡ parcels.now) × (place.took ≡ None)) places.old }
{
    thread::for_each_mut(
        rt,
        places,
        LANES,
        &|_lane, place|
            requires { IsSync R.row × (place.old.table ≡ parcels.now) × (place.old.took ≡ None) }
        { serve(rt, parcels, place) },
    );
}

// Sends each lane its number.
fn send_all(parcels: &Parcels<Count>, desk: &mut Desk<Count>)
    requires table { desk.old.table ≡ parcels.now }
    requires idle { AreAll 64 IsIdle desk.old.turns }
    ensures table { desk.new.table ≡ parcels.now }
    ensures out { AreAll 64 IsOut desk.new.turns }
{
    for lane in 0..LANES {
        parcels.send(desk, lane, Count { value: lane as u64 });
    }
}

// Collects from a lane, and sends it another number. Whether one more than its last number was back.
fn swap<R: Wait>(
    rt: &R,
    parcels: &Parcels<Count>,
    desk: &mut Desk<Count>,
    lane: usize,
    last: u64,
) -> bool
    requires table { desk.old.table ≡ parcels.now }
    requires out { AreAll 64 IsOut desk.old.turns }
    requires lane { lane < 64 }
    requires last { last < 2 ^ 62 }
    ensures table { desk.new.table ≡ parcels.now }
    ensures out { AreAll 64 IsOut desk.new.turns }
{
    let back = parcels.collect(rt, desk, lane);
    parcels.send(desk, lane, Count { value: last + 100 });
    back.value == last + 1
}

// Swaps at each lane, from the first or from the last.
fn swap_all<R: Wait>(rt: &R, parcels: &Parcels<Count>, desk: &mut Desk<Count>, round: u64) -> bool
    requires table { desk.old.table ≡ parcels.now }
    requires out { AreAll 64 IsOut desk.old.turns }
    requires round { round < 2 ^ 32 }
    ensures table { desk.new.table ≡ parcels.now }
    ensures out { AreAll 64 IsOut desk.new.turns }
{
    let mut good = true;
    for step in 0..LANES {
        let lane = if round % 2 == 0 { step } else { 63 - step };
        good = swap(rt, parcels, desk, lane, round * 100 + lane as u64) && good;
    }
    good
}

fn swap_often<R: Wait>(rt: &R, parcels: &Parcels<Count>, desk: &mut Desk<Count>) -> bool
    requires table { desk.old.table ≡ parcels.now }
    requires out { AreAll 64 IsOut desk.old.turns }
    ensures table { desk.new.table ≡ parcels.now }
    ensures out { AreAll 64 IsOut desk.new.turns }
{
    let mut good = true;
    for round in 0..ROUNDS {
        good = swap_all(rt, parcels, desk, round) && good;
    }
    good
}

// Collects from each lane. Whether one more than its last number was back.
fn collect_all<R: Wait>(rt: &R, parcels: &Parcels<Count>, desk: &mut Desk<Count>) -> bool
    requires table { desk.old.table ≡ parcels.now }
    requires out { AreAll 64 IsOut desk.old.turns }
    ensures table { desk.new.table ≡ parcels.now }
    ensures idle { AreAll 64 IsIdle desk.new.turns }
{
    let mut good = true;
    for lane in 0..LANES {
        let back = parcels.collect(rt, desk, lane);
        good = back.value == ROUNDS * 100 + lane as u64 + 1 && good;
    }
    good
}

fn close_all(parcels: &Parcels<Count>, desk: &mut Desk<Count>)
    requires table { desk.old.table ≡ parcels.now }
    requires idle { AreAll 64 IsIdle desk.old.turns }
{
    for lane in 0..LANES {
        parcels.close(desk, lane);
    }
}

// Hands out to all lanes, and closes them. Whether each parcel came back one greater.
fn hand_out<R: Wait>(rt: &R, parcels: &Parcels<Count>, mut desk: Desk<Count>) -> bool
    requires table { desk.table ≡ parcels.now }
    requires idle { AreAll 64 IsIdle desk.turns }
{
    send_all(parcels, &mut desk);
    let swapped = swap_often(rt, parcels, &mut desk);
    let collected = collect_all(rt, parcels, &mut desk);
    close_all(parcels, &mut desk);
    swapped && collected
}

fn all_at_once<R: Threads + Wait + Sync>(
    rt: &R,
    parcels: &Parcels<Count>,
    desk: Desk<Count>,
    places: &mut [LanePlace<Count>],
) -> bool
    requires table { desk.table ≡ parcels.now }
    requires idle { AreAll 64 IsIdle desk.turns }
    requires places { All (λ place. (place.table ≡ parcels.now) × (place.took ≡ None)) places.old }
{
    let (good, _served) = join(
        rt,
        || -> bool
            requires { IsSync R.row × (desk.table ≡ parcels.now) × AreAll 64 IsIdle desk.turns }
        { hand_out(rt, parcels, desk) },
        || -> ()
            requires { IsSync R.row × All (λ place. (place.table ≡ parcels.now) × (place.took ≡ None)) places.now }
        { serve_all(rt, parcels, places) },
    );
    good
}

#[test]
fn each_lane_answers_a_thousand_parcels(rt: HostRuntime) -> Result<(), Fail> {
    let (parcels, desk, mut places) = Parcels::<Count>::new(rt.alloc(), LANES, &())?;
    assert!(rt; all_at_once(&rt, &parcels, desk, places.as_mut_slice()));
    Ok(())
}

#[test]
fn a_lane_that_was_never_used_is_closed(rt: HostRuntime) {
    let made = Parcels::<Count>::new(rt.alloc(), 1, &());
    let (parcels, mut desk, mut places) = made.expect(&rt, "memory");
    parcels.close(&mut desk, 0);
    let mut place = places.pop().expect(&rt, "a place");
    let first = answer(&rt, &parcels, &mut place, 1).is_none();
    let second = answer(&rt, &parcels, &mut place, 1).is_none();
    assert!(rt; first && second);
}

/// What is shared with others.
#[derive(Drop)]
struct Held {
    _shared: Arc<u8>,
}

impl Parcel for Held {
    type About = ();

    ghost fits = { λ _ _. Unit {0} };

    ghost follows = { λ _ _ _. Unit {0} };
}

#[test]
fn a_parcel_on_the_way_is_dropped_once(rt: HostRuntime) {
    let shared = Arc::new(rt.alloc(), 7u8).expect(&rt, "memory");
    let made = Parcels::<Held>::new(rt.alloc(), 1, &());
    let (parcels, mut desk, _places) = made.expect(&rt, "memory");
    let held = Held {
        _shared: Arc::try_clone(&shared).expect(&rt, "memory"),
    };
    parcels.send(&mut desk, 0, held);
    let before = Arc::strong_count(&shared);
    drop(parcels);
    assert!(rt; [before, Arc::strong_count(&shared)] == [2, 1]);
}
