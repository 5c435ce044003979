//! The mutexes that a task holds: how many at most, and which of them is given back.

use mutex_set::{Held, HeldFault, NotInnermost};

#[test]
fn holds_eight_at_most(rt: HostRuntime) {
    let mut held = Held::none();
    for id in 1..9 {
        held.enter(id).expect(&rt, "a place");
    }
    assert!(rt; held.enter(9) == Err(HeldFault::Deep));
    assert!(rt; held.enter(3) == Err(HeldFault::HeldAlready));
    assert!(rt; held.ids() == [1, 2, 3, 4, 5, 6, 7, 8].as_slice());
}

#[test]
fn gives_back_the_innermost_alone(rt: HostRuntime) {
    let mut held = Held::none();
    held.enter(7).expect(&rt, "a place");
    held.enter(65535).expect(&rt, "a place");
    let before = held.copy();
    assert!(rt; held.leave(7) == Err(NotInnermost));
    assert!(rt; held.ids() == before.ids());
    held.leave(65535).expect(&rt, "the innermost");
    assert!(rt; held.ids() == [7].as_slice() && !held.disjoint(&before));
    held.leave(7).expect(&rt, "the innermost");
    assert!(rt; held.disjoint(&before));
}
