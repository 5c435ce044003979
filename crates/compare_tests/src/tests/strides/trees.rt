ghost use Rattle.std.specs.Prelude.{◌≡◌, ◌+◌, ◌^◌, ◌<◌};

use interval_tree::{Steps, Tree, Visit};
use mutex_set::Held;
use std::alloc::Global;
use std::marker::Brand;
use std::process::Abort;
use std::sync::ledger::{Blank, Ledger};
use stride_summary::Run;
use sw_base::Memory;

// The lines of the runs taken, at most so many.
struct Lines {
    taken: Vec<u32>,
    most: usize,
}

impl Visit for Lines {
    ghost use Rattle.std.specs.Prelude.{◌≡◌, [], ◌∷◌, ◌++◌};

    ghost took = { λ before run after. after.taken.items ≡ before.taken.items ++ run.line ∷ [] };

    ghost refused = { λ before run after. after.taken.items ≡ before.taken.items };

    fn take(&mut self, run: &Run) -> Result<(), Memory> {
        if self.taken.len() >= self.most {
            return Err(Memory);
        }
        self.taken.push(run.line)?;
        Ok(())
    }
}

// Four bytes at the base, and as many the stride above it.
fn run(line: u32, base: u64, stride: u64) -> Run
    requires { base + stride < 2 ^ 47 }
{
    Run {
        base,
        stride,
        count: if stride == 0 { 1 } else { 2 },
        size: 4,
        write: false,
        atomic: false,
        line,
        site: 0,
        held: Held::none(),
    }
}

fn lines_with<L: Ledger>(
    alloc: Global,
    tree: &Tree,
    bytes: (u64, u64),
    most: usize,
    blank: Blank,
) -> (Vec<u32>, Result<(), Memory>)
    requires name { blank.name ≡ L.name }
    requires parts { blank.parts ≡ L.parts }
    requires some { 0 < blank.parts }
{
    let mut lines = Lines {
        taken: Vec::new(alloc),
        most,
    };
    let mut steps = Steps::<L>::new(blank);
    let answer = tree.meet(bytes.0, bytes.1, &mut lines, &mut steps);
    let Lines { taken, most: _ } = lines;
    (taken, answer)
}

fn lines_met(
    alloc: Global,
    tree: &Tree,
    bytes: (u64, u64),
    most: usize,
) -> (Vec<u32>, Result<(), Memory>) {
    lines_with::<Brand>(alloc, tree, bytes, most, Blank::new(1))
}

// Whether the runs of these lines are handed over, at most so many, and after that there is a refusal or none.
fn meets(alloc: Global, tree: &Tree, bytes: (u64, u64), most: usize, due: (&[u32], bool)) -> bool {
    let (lines, answer) = lines_met(alloc, tree, bytes, most);
    lines.as_slice() == due.0 && answer.is_err() == due.1
}

#[test]
fn finds_the_runs_that_a_range_meets(rt: HostRuntime) {
    let alloc = rt.alloc();
    let runs = [run(1, 0, 0), run(2, 10, 0), run(3, 20, 0)];
    let tree = Tree::build(alloc, &runs).expect(&rt, "memory");
    assert!(rt; tree.levels() == 2 && meets(alloc, &tree, (2, 11), 9, (&[1, 2], false)));
}

#[test]
fn a_tree_of_no_run_has_no_level(rt: HostRuntime) {
    let alloc = rt.alloc();
    let none = Tree::build(alloc, &[]).expect(&rt, "memory");
    assert!(rt; none.levels() == 0 && meets(alloc, &none, (0, u64::MAX), 9, (&[], false)));
}

#[test]
fn a_run_is_met_from_its_first_byte_to_its_last(rt: HostRuntime) {
    let alloc = rt.alloc();
    let runs = [run(7, 100, 50)];
    let one = Tree::build(alloc, &runs).expect(&rt, "memory");
    let table: [((u64, u64), &[u32]); 4] = [
        ((0, 99), &[]),
        ((0, 100), &[7]),
        ((153, 200), &[7]),
        ((154, 200), &[]),
    ];
    for (bytes, lines) in table {
        assert!(rt; meets(alloc, &one, bytes, 9, (lines, false)), "{bytes:?}");
    }
}

// Runs by a fixed rule: many begin at one byte, and some hold others.
fn drawn_runs(rt: &impl Abort, alloc: Global) -> Vec<Run> {
    let mut runs = Vec::new(alloc);
    for number in 0..1000u64 {
        let base = number * 7919 % 1500 / 2 * 8;
        let stride = if number % 40 == 0 {
            900
        } else {
            number * 31 % 23
        };
        runs.push(run(number as u32 + 1, base, stride))
            .expect(rt, "memory");
    }
    runs
}

fn lines_by_filter(rt: &impl Abort, alloc: Global, runs: &[Run], bytes: (u64, u64)) -> Vec<u32> {
    let mut found = Vec::new(alloc);
    for run in runs {
        if run.low() <= bytes.1 && run.high() >= bytes.0 {
            found.push((run.low(), run.line)).expect(rt, "memory");
        }
    }
    found.sort().expect(rt, "memory");
    found
        .iter()
        .map(|(_, line)| *line)
        .collect(alloc)
        .expect(rt, "memory")
}

// Whether the runs of the tree that these bytes meet are those that a filter finds.
fn meets_as_filtered(
    rt: &impl Abort,
    alloc: Global,
    tree: &Tree,
    runs: &[Run],
    bytes: (u64, u64),
) -> bool {
    let due = lines_by_filter(rt, alloc, runs, bytes);
    meets(alloc, tree, bytes, 1000, (&due, false))
}

#[test]
fn meets_what_a_filter_finds(rt: HostRuntime) {
    let alloc = rt.alloc();
    let runs = drawn_runs(&rt, alloc);
    let tree = Tree::build(alloc, &runs).expect(&rt, "memory");
    assert!(rt; tree.levels() == 10);
    for number in 0..500u64 {
        let lo = number * 53 % 7000;
        let bytes = (lo, lo + number % 7 * 11);
        assert!(rt;
            meets_as_filtered(&rt, alloc, &tree, &runs, bytes),
            "{bytes:?}"
        );
    }
}

#[test]
fn hands_over_nothing_after_a_refusal(rt: HostRuntime) {
    let alloc = rt.alloc();
    let one = [run(1, 40, 0), run(2, 8, 0)];
    let other = [run(3, 8, 0), run(4, 24, 0)];
    let tree = Tree::build_all(alloc, &[one.as_slice(), other.as_slice()]).expect(&rt, "memory");
    for most in 0..6usize {
        let lines = &[2, 3, 4, 1][..most.min(4)];
        assert!(rt;
            meets(alloc, &tree, (0, 99), most, (lines, most < 4)),
            "{most}"
        );
    }
}
