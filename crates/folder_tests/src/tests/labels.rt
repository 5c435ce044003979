//! Offset-span labels of tasks by hand, and which of two is before the other.

use span_label::{Label, Triple};

fn triple(offset: u64, span: u16, barrier: u32) -> Triple {
    Triple {
        offset,
        span,
        barrier,
    }
}

fn has(label: &Label, triples: &[Triple]) -> bool {
    label.triples() == triples
}

#[test]
fn a_smaller_barrier_number_is_before(rt: HostRuntime) {
    let nested = Label::root().fork(0, 2).fork(1, 2);
    let other = Label::root().fork(1, 2);
    let after = other.barrier();
    let told = [
        has(
            &nested,
            &[triple(0, 1, 0), triple(0, 2, 0), triple(1, 2, 0)],
        ),
        has(&after, &[triple(0, 1, 0), triple(1, 2, 1)]),
        nested.concurrent(&other),
        nested.before(&after),
        !after.before(&nested),
        !nested.concurrent(&after),
    ];
    assert!(rt; told == [true; 6], "{told:?}");
}

#[test]
fn a_joined_region_is_before_the_next(rt: HostRuntime) {
    let root = Label::root();
    let first = root.fork(1, 2);
    let second = root.joined().fork(0, 2);
    let told = [
        has(&first, &[triple(0, 1, 0), triple(1, 2, 0)]),
        has(&second, &[triple(1, 1, 0), triple(0, 2, 0)]),
        first.before(&second),
        !second.before(&first),
        root.before(&first.copy()),
        !root.concurrent(&root.copy()),
    ];
    assert!(rt; told == [true; 6], "{told:?}");
}

#[test]
fn lanes_of_one_team_are_concurrent(rt: HostRuntime) {
    let region = Label::root();
    let two = region.fork(0, 3).joined();
    let told = [
        has(&two, &[triple(0, 1, 0), triple(3, 3, 0)]),
        two.concurrent(&region.fork(1, 3)),
        region.fork(0, 3).before(&two),
    ];
    assert!(rt; told == [true; 3], "{told:?}");
}
