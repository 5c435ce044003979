//! Parcels whose type tells what they are about, on a thread of a scope.
ghost use Rattle.std.specs.Prelude.{◌≡◌, ℕ, ◌≤◌, None, IfSome};
ghost use denote.Param.Send.{IsSync};
ghost use Rattle.hand_over.specs.Views.{turn_at};
ghost use Rattle.hand_over.specs.declared.view.Turn.TheVariants.{Idle};

use hand_over::{Desk, LanePlace, Parcel, Parcels};
use std::marker::PhantomData;
use std::sync::Wait;
use std::thread;
use std::thread::Threads;

/// What parcels are about, told by a type.
trait Least: Send {
    ghost least: { ℕ };
}

struct Ten;

impl Least for Ten {
    ghost least = { 10 };
}

/// A number that is large enough.
#[derive(Drop)]
struct Large<K> {
    value: u64,
    of: PhantomData<K>,
}

impl<K: Least> Parcel for Large<K> {
    type About = ();

    ghost fits = { λ _ large. K.least ≤ large.value };

    ghost follows = { λ _ sent back. sent.value ≤ back.value };
}

// Takes a parcel, which is large enough, and gives it back, unless the lane is closed.
fn passed<K: Least, R: Wait>(
    rt: &R,
    parcels: &Parcels<Large<K>>,
    place: &mut LanePlace<Large<K>>,
) -> Option<u64>
    requires table { place.old.table ≡ parcels.now }
    requires none { place.old.took ≡ None }
    ensures table { place.new.table ≡ place.old.table }
    ensures none { place.new.took ≡ None }
    ensures large { IfSome result (λ value. K.least ≤ value) }
{
    let large = parcels.take(rt, place)?;
    let value = large.value;
    parcels.give_back(place, large);
    Some(value)
}

// Gives back all parcels of a lane, until it is closed.
fn echo<K: Least, R: Wait>(rt: &R, parcels: &Parcels<Large<K>>, mut place: LanePlace<Large<K>>)
    requires table { place.table ≡ parcels.now }
    requires none { place.took ≡ None }
{
    for _ in rt.forever() {
        if passed(rt, parcels, &mut place).is_none() {
            return;
        }
    }
}

// What comes back of a number that is sent, and then the lane is closed.
fn sent<R: Wait>(
    rt: &R,
    parcels: &Parcels<Large<Ten>>,
    desk: &mut Desk<Large<Ten>>,
    value: u64,
) -> u64
    requires desk { (desk.old.table ≡ parcels.now) × (turn_at desk.old.turns 0 ≡ Idle) }
    requires large { 10 ≤ value }
    ensures { value ≤ result }
{
    let large = Large {
        value,
        of: PhantomData,
    };
    parcels.send(desk, 0, large);
    let back = parcels.collect(rt, desk, 0).value;
    parcels.close(desk, 0);
    back
}

// The place's thread is one of a scope, which ends when that thread does. None where it can't be started.
fn in_a_scope<R: Threads + Wait + Sync>(
    rt: &R,
    parcels: &Parcels<Large<Ten>>,
    desk: &mut Desk<Large<Ten>>,
    place: LanePlace<Large<Ten>>,
) -> Option<u64>
    requires desk { (desk.old.table ≡ parcels.now) × (turn_at desk.old.turns 0 ≡ Idle) }
    requires place { (place.table ≡ parcels.now) × (place.took ≡ None) }
{
    thread::scope(
        thread::scope_env(),
        rt,
        |scope|
            requires { IsSync R.row × (desk.now.table ≡ parcels.now) × (turn_at desk.now.turns 0 ≡ Idle) × (place.table ≡ parcels.now) × (place.took ≡ None) }
        {
            let started = scope.spawn(
                move ||
                    requires { IsSync R.row × (place.table ≡ parcels.now) × (place.took ≡ None) }
                { echo(rt, parcels, place) },
            );
            if started.is_err() {
                return None;
            }
            Some(sent(rt, parcels, desk, 12))
        },
    )
}

#[test]
fn a_type_tells_what_parcels_are_about(rt: HostRuntime) {
    let made = Parcels::<Large<Ten>>::new(rt.alloc(), 1, &());
    let (parcels, mut desk, mut places) = made.expect(&rt, "memory");
    let place = places.pop().expect(&rt, "a place");
    assert!(rt; in_a_scope(&rt, &parcels, &mut desk, place) == Some(12));
}
