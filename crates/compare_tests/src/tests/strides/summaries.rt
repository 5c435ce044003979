ghost use Rattle.log_format.specs.Fitting.{IsWidth};
ghost use Rattle.std.specs.Prelude.{◌+◌, ◌^◌, ◌≤◌};

use mutex_set::Held;
use std::alloc::Global;
use std::process::Abort;
use stride_summary::{Access, Run, Summary};

fn holding(rt: &impl Abort, mutexes: &[u16]) -> Held {
    let mut held = Held::none();
    for mutex in mutexes {
        held.enter(*mutex).expect(rt, "a place");
    }
    held
}

#[test]
fn copies_an_access(rt: HostRuntime) {
    let held = holding(&rt, &[3]);
    let access = Access {
        write: true,
        atomic: true,
        size: 8,
        site: 1,
        line: 5,
        addr: 4096,
        held: &held,
    };
    let same = access.copy();
    assert!(rt;
        same.write
            && same.atomic
            && same.held.ids() == [3].as_slice()
            && (same.size, same.site, same.line, same.addr) == (8, 1, 5, 4096)
    );
}

#[test]
fn a_run_goes_from_its_base_to_its_last_byte(rt: HostRuntime) {
    let run = Run {
        base: 4096,
        stride: 104,
        count: 2,
        size: 8,
        write: true,
        atomic: false,
        line: 5,
        site: 1,
        held: Held::none(),
    };
    assert!(rt; (run.low(), run.high()) == (4096, 4207));
}

#[test]
fn the_widest_run_goes_to_the_last_byte_there_is(rt: HostRuntime) {
    let widest = Run {
        base: 0,
        stride: (1 << 48) - 1,
        count: 2,
        size: 1,
        write: false,
        atomic: false,
        line: 1,
        site: 0,
        held: Held::none(),
    };
    assert!(rt; (widest.low(), widest.high()) == (0, (1 << 48) - 1));
}

fn write_at<'h>(line: u32, addr: u64, held: &'h Held) -> Access<'h>
    requires { addr + 8 ≤ 2 ^ 48 }
{
    Access {
        write: true,
        atomic: false,
        size: 8,
        site: 0,
        line,
        addr,
        held,
    }
}

fn runs_of(rt: &impl Abort, alloc: Global, writes: &[(u32, u64)]) -> Vec<Run> {
    let mut summary = Summary::new(alloc).expect(rt, "memory");
    for (line, addr) in writes {
        if *addr <= (1 << 48) - 8 {
            summary
                .add(&write_at(*line, *addr, &Held::none()))
                .expect(rt, "memory");
        }
    }
    summary.finish()
}

// Of a run its line, its first address, the distance and how many.
type Shape = (u32, u64, u64, u32);

// The shapes of the runs of these writes.
fn shapes_of(rt: &impl Abort, alloc: Global, writes: &[(u32, u64)]) -> Vec<Shape> {
    let mut shapes = Vec::new(alloc);
    for run in &runs_of(rt, alloc, writes) {
        shapes
            .push((run.line, run.base, run.stride, run.count))
            .expect(rt, "memory");
    }
    shapes
}

// Whether the runs of these writes have these shapes.
fn has_shapes(rt: &impl Abort, alloc: Global, writes: &[(u32, u64)], due: &[Shape]) -> bool {
    shapes_of(rt, alloc, writes).as_slice() == due
}

// The shapes by their lines.
fn sorted_shapes_of(rt: &impl Abort, alloc: Global, writes: &[(u32, u64)]) -> Vec<Shape> {
    let mut shapes = shapes_of(rt, alloc, writes);
    shapes.sort().expect(rt, "memory");
    shapes
}

#[test]
fn an_address_that_comes_again_is_there_once(rt: HostRuntime) {
    let table: [(&[(u32, u64)], &[Shape]); 2] = [
        (&[(1, 4096), (1, 4104), (1, 4096)], &[(1, 4096, 8, 2)]),
        (
            &[(1, 4096), (1, 4104), (1, 4112), (1, 4200)],
            &[(1, 4096, 8, 3), (1, 4200, 0, 1)],
        ),
    ];
    for (writes, due) in table {
        assert!(rt; has_shapes(&rt, rt.alloc(), writes, due), "{due:?}");
    }
}

#[test]
fn a_run_may_go_to_the_last_byte_there_is(rt: HostRuntime) {
    let top = runs_of(&rt, rt.alloc(), &[(1, (1 << 48) - 8), (1, 0)]);
    assert!(rt; matches!(top.as_slice(), [run] if run.high() == (1 << 48) - 1));
}

// The 100 addresses in an order of the step, which has no common divisor with 100, each ten times.
fn writes_by(rt: &impl Abort, alloc: Global, step: u64) -> Vec<(u32, u64)> {
    let mut writes = Vec::new(alloc);
    for number in 0..1000u64 {
        let place = number % 100 * (step % 100) % 100;
        writes
            .push((7, 4096 + place * 8 + place / 60 * 40))
            .expect(rt, "memory");
    }
    writes
}

#[test]
fn runs_are_the_same_in_every_order(rt: HostRuntime) {
    let alloc = rt.alloc();
    let due = [(7, 4096, 8, 60), (7, 4616, 8, 40)];
    for step in [1, 99, 37] {
        let writes = writes_by(&rt, alloc, step);
        assert!(rt; has_shapes(&rt, alloc, &writes, &due), "by {step}");
    }
}

// Whether there are so many runs, of the lines from 0 on, and each has this first address, distance and number of addresses.
fn have_keys(found: &[Shape], keys: u32, due: (u64, u64, u32)) -> bool {
    for ((line, base, stride, count), key) in found.iter().zip(0..keys) {
        if *line != key || (*base, *stride, *count) != due {
            return false;
        }
    }
    found.len() == keys as usize
}

// Ten keys, each with ten addresses; which comes next jumps about.
fn jumping_writes(rt: &impl Abort, alloc: Global) -> Vec<(u32, u64)> {
    let mut writes = Vec::new(alloc);
    for number in 0..500u32 {
        let place = number % 100 * 37 % 100;
        writes
            .push((place % 10, 4096 + u64::from(place / 10) * 24))
            .expect(rt, "memory");
    }
    writes
}

#[test]
fn keys_that_take_turns_in_any_order_have_runs_of_their_own(rt: HostRuntime) {
    let alloc = rt.alloc();
    let writes = jumping_writes(&rt, alloc);
    let found = sorted_shapes_of(&rt, alloc, &writes);
    assert!(rt; have_keys(&found, 10, (4096, 24, 10)));
}

// So many writes of so many keys in turn.
fn writes_in_turn(rt: &impl Abort, alloc: Global, keys: u32, all: u32) -> Vec<(u32, u64)> {
    let mut writes = Vec::new(alloc);
    for number in 0..all {
        let round = number / keys.max(1);
        writes
            .push((number % keys.max(1), 4096 + u64::from(round) * 16))
            .expect(rt, "memory");
    }
    writes
}

#[test]
fn keys_that_take_turns_have_strided_runs_of_their_own(rt: HostRuntime) {
    let alloc = rt.alloc();
    for (keys, all, each) in [(3, 300, 100), (17_000, 51_000, 3)] {
        let writes = writes_in_turn(&rt, alloc, keys, all);
        let found = sorted_shapes_of(&rt, alloc, &writes);
        assert!(rt; have_keys(&found, keys, (4096, 16, each)), "{keys} keys");
    }
}

// A write of each of so many keys, each behind that of the key before.
fn writes_in_a_row(rt: &impl Abort, alloc: Global, keys: u32) -> Vec<(u32, u64)> {
    let mut writes = Vec::new(alloc);
    for key in 0..keys {
        writes
            .push((key, 4096 + u64::from(key) * 16))
            .expect(rt, "memory");
    }
    writes
}

#[test]
fn keys_whose_addresses_rise_evenly_have_runs_of_their_own(rt: HostRuntime) {
    let alloc = rt.alloc();
    let writes = writes_in_a_row(&rt, alloc, 17_000);
    assert!(rt; sorted_shapes_of(&rt, alloc, &writes).len() == 17_000);
}

// All of an access but its address: whether it writes, and in one step with a read, its size, site, line and mutexes.
type Key<'a> = (bool, bool, u8, u16, u32, &'a [u16]);

// Nine keys. Behind the one that comes twice the other one is looked for first.
const KEYS: [Key<'static>; 10] = [
    (true, false, 8, 0, 1, &[]),
    (false, false, 8, 0, 1, &[]),
    (true, true, 8, 0, 1, &[]),
    (true, false, 4, 0, 1, &[]),
    (true, false, 8, 1, 1, &[]),
    (true, false, 8, 0, 2, &[]),
    (true, false, 8, 0, 1, &[3]),
    (true, false, 8, 0, 1, &[3, 4]),
    (true, false, 8, 0, 1, &[3]),
    (true, false, 8, 0, 1, &[4, 3]),
];

// An access at one address, with this key but these mutexes.
fn keyed<'h>(rt: &impl Abort, key: &Key<'_>, held: &'h Held) -> Access<'h> {
    let (write, atomic, size, site, line, _) = *key;
    if !matches!(size, 1 | 2 | 4 | 8) {
        panic!(rt; "no size of an access");
    }
    Access {
        write,
        atomic,
        size,
        site,
        line,
        addr: 64,
        held,
    }
}

// Adds an access of each key.
fn add_keys(rt: &impl Abort, summary: &mut Summary) {
    for key in &KEYS {
        let held = holding(rt, key.5);
        summary.add(&keyed(rt, key, &held)).expect(rt, "memory");
    }
}

#[test]
fn the_key_has_all_but_the_address(rt: HostRuntime) {
    let mut summary = Summary::new(rt.alloc()).expect(&rt, "memory");
    add_keys(&rt, &mut summary);
    add_keys(&rt, &mut summary);
    assert!(rt; summary.finish().len() == 9);
}

#[test]
fn the_last_byte_may_be_the_last_there_is(rt: HostRuntime) {
    let last = (1 << 48) - 1;
    let mut summary = Summary::new(rt.alloc()).expect(&rt, "memory");
    let held = Held::none();
    let access = Access {
        write: false,
        atomic: false,
        size: 1,
        site: 0,
        line: 1,
        addr: last,
        held: &held,
    };
    summary.add(&access).expect(&rt, "memory");
    let runs = summary.finish();
    assert!(rt; matches!(runs.as_slice(), [run] if (run.low(), run.high()) == (last, last)));
}
