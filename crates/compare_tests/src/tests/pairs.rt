//! Races of barrier intervals by hand, for several numbers of workers.
ghost use Rattle.std.specs.Prelude.{◌≡◌, ◌+◌, ◌^◌, ◌<◌, ◌≤◌, length};

use interval_tree::{Steps, Tree};
use log_segment::Segment;
use meeting_gate::MeetingGate;
use mutex_set::Held;
use pair_compare::{Effect, compare_all, may_conflict};
use segment_groups::compare;
use span_label::Label;
use std::alloc::{AllocError, Global};
use std::collections::BTreeSet;
use std::marker::Brand;
use std::process::Abort;
use std::sync::ledger::{Blank, Ledger};
use std::thread::Threads;
use stride_summary::Run;
use sw_base::{Memory, NoGate, Path};

// Lines of accesses that race, the smaller first, in ascending order.
type Races = Vec<(u32, u32)>;

// What an access does to its bytes.
#[derive(Clone, Copy)]
enum Does {
    Read,
    Write,
    Update,
}

// One access of so many bytes, or of eight where no access has so many.
fn sized(rt: &impl Abort, does: Does, bytes: u8, line: u32, base: u64, mutexes: &[u16]) -> Run
    requires { base < 2 ^ 40 }
{
    let mut held = Held::none();
    for mutex in mutexes {
        held.enter(*mutex).expect(rt, "a place");
    }
    Run {
        base,
        stride: 0,
        count: 1,
        size: if matches!(bytes, 1 | 2 | 4) { bytes } else { 8 },
        write: !matches!(does, Does::Read),
        atomic: matches!(does, Does::Update),
        line,
        site: 0,
        held,
    }
}

// One access of eight bytes, under no mutex.
fn run(rt: &impl Abort, does: Does, line: u32, base: u64) -> Run
    requires { base < 2 ^ 40 }
{
    sized(rt, does, 8, line, base, &[])
}

fn writing_if(writes: bool) -> Does {
    if writes { Does::Write } else { Does::Read }
}

fn segment(label: Label, runs: Vec<Run>) -> Segment {
    Segment {
        path: Path::root(),
        first: 1,
        last: 2,
        label,
        runs,
    }
}

fn listed(alloc: Global, pairs: &BTreeSet<(u32, u32)>) -> Result<Races, AllocError> {
    let mut found = Vec::new(alloc);
    for pair in pairs {
        found.push(*pair)?;
    }
    Ok(found)
}

fn compared_with<L: Ledger>(
    alloc: Global,
    a: &Segment,
    b: &Segment,
    blank: Blank,
) -> Result<BTreeSet<(u32, u32)>, Memory>
    requires name { blank.name ≡ L.name }
    requires parts { blank.parts ≡ L.parts }
    requires some { 0 < blank.parts }
{
    let tree = Tree::build(alloc, b.runs.as_slice())?;
    let mut pairs = BTreeSet::new(alloc);
    let mut steps = Steps::<L>::new(blank);
    compare(alloc, a, b, &tree, &mut pairs, &mut steps)?;
    Ok(pairs)
}

fn compared(alloc: Global, a: &Segment, b: &Segment) -> Result<Races, Memory> {
    let pairs = compared_with::<Brand>(alloc, a, b, Blank::new(1))?;
    Ok(listed(alloc, &pairs)?)
}

// An access of a lane of two: the lane, what it does, to how many bytes, its line, its first byte and its mutexes.
type Access<'a> = (u16, Does, u8, u32, u64, &'a [u16]);

// The interval of a lane that has this access alone.
fn lane_of(rt: &impl Abort, alloc: Global, access: &Access<'_>) -> Segment {
    let (lane, does, bytes, line, base, mutexes) = access;
    let run = sized(rt, *does, *bytes, *line, *base % 1000, mutexes);
    let runs = vec![in alloc; run].expect(rt, "memory");
    segment(Label::root().fork(*lane % 2, 2), runs)
}

const GUARDED_WRITE: Access<'static> = (0, Does::Write, 8, 9, 100, &[3]);

const GUARDED_UPDATE: Access<'static> = (0, Does::Update, 8, 9, 100, &[3]);

// The races of two lanes that have these accesses.
fn races_with(rt: &impl Abort, alloc: Global, guarded: &Access<'_>, access: &Access<'_>) -> Races {
    let one = lane_of(rt, alloc, guarded);
    let other = lane_of(rt, alloc, access);
    compared(alloc, &one, &other).expect(rt, "memory")
}

#[test]
fn lanes_race_where_they_share_a_byte_and_no_mutex(rt: HostRuntime) {
    let table: [(Access<'_>, &[(u32, u32)]); 6] = [
        ((1, Does::Read, 8, 5, 107, &[]), &[(5, 9)]),
        ((1, Does::Read, 8, 5, 108, &[]), &[]),
        ((1, Does::Write, 8, 5, 93, &[5]), &[(5, 9)]),
        ((1, Does::Write, 8, 5, 92, &[5]), &[]),
        ((1, Does::Write, 8, 5, 100, &[5, 3]), &[]),
        ((0, Does::Write, 8, 5, 100, &[]), &[]),
    ];
    for (access, races) in table {
        assert!(rt; races_with(&rt, rt.alloc(), &GUARDED_WRITE, &access).as_slice() == races);
    }
}

const READING: Effect = Effect {
    write: false,
    atomic: false,
};

const WRITING: Effect = Effect {
    write: true,
    atomic: false,
};

const UPDATING: Effect = Effect {
    write: true,
    atomic: true,
};

#[test]
fn effects_conflict_where_one_changes_memory_and_not_both_in_one_step(rt: HostRuntime) {
    let table = [
        (READING, READING, false),
        (READING, WRITING, true),
        (UPDATING, READING, true),
        (WRITING, WRITING, true),
        (WRITING, UPDATING, true),
        (UPDATING, UPDATING, false),
    ];
    for (one, other, conflict) in table {
        assert!(rt; may_conflict(one, other) == conflict);
    }
}

// The races that so many workers find.
fn found<R: Abort + Threads + Sync>(
    rt: &R,
    alloc: Global,
    segments: &[Segment],
    workers: usize,
) -> Races
    requires { (1 ≤ workers) × (workers ≤ 64) }
{
    let pairs = compare_all(rt, alloc, segments, workers, &NoGate).expect(rt, "memory");
    listed(alloc, &pairs).expect(rt, "memory")
}

// Whether each number of workers finds these races.
fn each_finds<R: Abort + Threads + Sync>(
    rt: &R,
    alloc: Global,
    segments: &[Segment],
    races: &[(u32, u32)],
) -> bool {
    for workers in [1, 2, 3, 7, 64] {
        if found(rt, alloc, segments, workers).as_slice() != races {
            return false;
        }
    }
    true
}

// Each lane writes an element and reads the next lane's.
fn team(rt: &impl Abort, alloc: Global, span: u16) -> Vec<Segment>
    requires { span < 2 ^ 10 }
{
    let mut segments = Vec::new(alloc);
    for lane in 0..span {
        let own = u64::from(lane) * 8;
        let write = run(rt, Does::Write, 1000 + u32::from(lane), own);
        let read = run(rt, Does::Read, 2000 + u32::from(lane), own + 8);
        let runs = vec![in alloc; write, read].expect(rt, "memory");
        segments
            .push(segment(Label::root().fork(lane, span), runs))
            .expect(rt, "memory");
    }
    segments
}

// So many elements that the group's bytes are cut into ranges: one lane writes each, and another reads it.
fn long_team(rt: &impl Abort, alloc: Global, elements: u32) -> Vec<Segment>
    requires { elements < 2 ^ 16 }
{
    let mut segments = Vec::new(alloc);
    for lane in 0..2u16 {
        let mut runs = Vec::new(alloc);
        for element in 0..elements {
            let line = 1 + element + 100_000 * u32::from(lane);
            let does = writing_if(lane == 0);
            runs.push(run(rt, does, line, u64::from(element) * 8))
                .expect(rt, "memory");
        }
        segments
            .push(segment(Label::root().fork(lane, 2), runs))
            .expect(rt, "memory");
    }
    segments
}

// So many lanes that access one element, in lines from this one on. One of them writes it.
fn add_lanes(
    rt: &impl Abort,
    alloc: Global,
    above: &Label,
    span: u16,
    line: u32,
    writing: u16,
    segments: &mut Vec<Segment>,
)
    requires room { length above.now < 5 }
    requires line { line < 2 ^ 16 }
{
    for lane in 0..span {
        let does = writing_if(lane == writing);
        let run = run(rt, does, line + u32::from(lane), 64);
        let runs = vec![in alloc; run].expect(rt, "memory");
        segments
            .push(segment(above.fork(lane, span), runs))
            .expect(rt, "memory");
    }
}

// Of each lane but the first: what the lane before it reads is what it writes.
fn neighbours(rt: &impl Abort, alloc: Global, span: u16) -> Races {
    let mut races = Vec::new(alloc);
    for lane in 1..u32::from(span) {
        races.push((1000 + lane, 1999 + lane)).expect(rt, "memory");
    }
    races
}

#[test]
fn each_number_of_workers_finds_all_races(rt: HostRuntime) {
    let alloc = rt.alloc();
    for span in [1, 2, 3, 7, 64] {
        let segments = team(&rt, alloc, span);
        let races = neighbours(&rt, alloc, span);
        assert!(rt;
            each_finds(&rt, alloc, &segments, &races),
            "of {span} lanes"
        );
    }
}

// The label of a lane, by the lanes and the spans of the teams on the way to it.
fn lane_below(forks: &[(u16, u16)]) -> Label {
    let mut label = Label::root();
    for (lane, span) in forks {
        if label.triples().len() < 5 && lane < span {
            label = label.fork(*lane, *span);
        }
    }
    label
}

// An interval that writes one element in each of these lines.
fn writing(rt: &impl Abort, alloc: Global, label: Label, lines: &[u32]) -> Segment {
    let mut runs = Vec::new(alloc);
    for line in lines {
        runs.push(run(rt, Does::Write, *line, 64))
            .expect(rt, "memory");
    }
    segment(label, runs)
}

// The lanes on the way to a lane, and the lines in which it writes. A lane of the outer team forks two, of which the second forks one
// alone, and this one three: the second of them does nothing.
const NESTED: &[(&[(u16, u16)], &[u32])] = &[
    (&[(0, 2)], &[1]),
    (&[(0, 2), (0, 2)], &[2]),
    (&[(0, 2), (1, 2)], &[3]),
    (&[(0, 2), (1, 2), (0, 1), (0, 3)], &[6]),
    (&[(0, 2), (1, 2), (0, 1), (1, 3)], &[]),
    (&[(0, 2), (1, 2), (0, 1), (2, 3)], &[7]),
];

// Their intervals, and then that of the outer lane past a barrier, and that of the other outer lane.
fn nested_teams(rt: &impl Abort, alloc: Global) -> Vec<Segment> {
    let mut segments = Vec::new(alloc);
    for (forks, lines) in NESTED {
        segments
            .push(writing(rt, alloc, lane_below(forks), lines))
            .expect(rt, "memory");
    }
    let past = Label::root().fork(0, 2).barrier();
    segments
        .push(writing(rt, alloc, past, &[4]))
        .expect(rt, "memory");
    segments
        .push(writing(rt, alloc, lane_below(&[(1, 2)]), &[5]))
        .expect(rt, "memory");
    segments
}

const NESTED_RACES: &[(u32, u32)] = &[
    (1, 5),
    (2, 3),
    (2, 5),
    (2, 6),
    (2, 7),
    (3, 5),
    (5, 6),
    (5, 7),
    (6, 7),
];

#[test]
fn the_intervals_of_nested_teams_are_compared_by_labels(rt: HostRuntime) {
    let segments = nested_teams(&rt, rt.alloc());
    assert!(rt; each_finds(&rt, rt.alloc(), &segments, NESTED_RACES));
}

// How many races so many workers find in a team of two, and whether they met.
fn found_at_once<R: Abort + Threads + Sync>(rt: &R, alloc: Global, workers: usize) -> (usize, bool)
    requires workers { (1 ≤ workers) × (workers ≤ 64) }
{
    let gate = MeetingGate::new(workers);
    let segments = team(rt, alloc, 2);
    let pairs = compare_all(rt, alloc, &segments, workers, &gate).expect(rt, "memory");
    (pairs.len(), gate.have_met())
}

#[test]
fn all_workers_run_at_once(rt: HostRuntime) {
    for workers in [2, 4, 64] {
        assert!(rt; found_at_once(&rt, rt.alloc(), workers) == (1, true));
    }
}

// The write and the read of each element.
fn of_elements(rt: &impl Abort, alloc: Global, elements: u32) -> Races
    requires { elements < 2 ^ 16 }
{
    let mut races = Vec::new(alloc);
    for element in 0..elements {
        races
            .push((1 + element, 100_001 + element))
            .expect(rt, "memory");
    }
    races
}

#[test]
fn ranges_of_bytes_lose_no_race(rt: HostRuntime) {
    let segments = long_team(&rt, rt.alloc(), 9000);
    let races = of_elements(&rt, rt.alloc(), 9000);
    assert!(rt; each_finds(&rt, rt.alloc(), &segments, &races));
}

// Eight lanes, of which one writes, and after a barrier eight that read.
fn one_write(rt: &impl Abort, alloc: Global) -> Vec<Segment> {
    let mut segments = Vec::new(alloc);
    add_lanes(rt, alloc, &Label::root().fork(0, 1), 8, 1, 5, &mut segments);
    let past = Label::root().fork(0, 1).barrier();
    add_lanes(rt, alloc, &past, 8, 101, 8, &mut segments);
    segments
}

const ONE_WRITE: &[(u32, u32)] = &[(1, 6), (2, 6), (3, 6), (4, 6), (5, 6), (6, 7), (6, 8)];

#[test]
fn one_write_among_reads_of_one_element(rt: HostRuntime) {
    let segments = one_write(&rt, rt.alloc());
    assert!(rt; each_finds(&rt, rt.alloc(), &segments, ONE_WRITE));
}

// Each line before the last, with the last.
fn with_last(rt: &impl Abort, alloc: Global, last: u32) -> Races {
    let mut races = Vec::new(alloc);
    for line in 1..last {
        races.push((line, last)).expect(rt, "memory");
    }
    races
}

// The last of many lanes writes what all read.
#[test]
fn each_of_many_reads_meets_the_write(rt: HostRuntime) {
    let mut segments = Vec::new(rt.alloc());
    add_lanes(&rt, rt.alloc(), &Label::root(), 500, 1, 499, &mut segments);
    let races = with_last(&rt, rt.alloc(), 500);
    assert!(rt; each_finds(&rt, rt.alloc(), &segments, &races));
}

#[test]
fn updates_race_with_all_but_updates(rt: HostRuntime) {
    let table: [(Access<'_>, &[(u32, u32)]); 11] = [
        ((1, Does::Update, 8, 5, 100, &[]), &[]),
        ((1, Does::Update, 4, 5, 104, &[]), &[]),
        ((1, Does::Update, 1, 5, 107, &[3]), &[]),
        ((1, Does::Read, 4, 5, 104, &[]), &[(5, 9)]),
        ((1, Does::Read, 8, 5, 93, &[5]), &[(5, 9)]),
        ((1, Does::Read, 4, 5, 108, &[]), &[]),
        ((1, Does::Read, 8, 5, 100, &[5, 3]), &[]),
        ((1, Does::Write, 1, 5, 107, &[]), &[(5, 9)]),
        ((1, Does::Write, 2, 5, 98, &[]), &[]),
        ((1, Does::Write, 8, 5, 100, &[3]), &[]),
        ((0, Does::Write, 8, 5, 100, &[]), &[]),
    ];
    for (access, races) in table {
        assert!(rt; races_with(&rt, rt.alloc(), &GUARDED_UPDATE, &access).as_slice() == races);
    }
}

// Each of 64 lanes updates one element in 1000 lines, and one of them does this to it before.
fn histogram(rt: &impl Abort, alloc: Global, first: Does) -> Vec<Segment> {
    let mut segments = Vec::new(alloc);
    for lane in 0..64u16 {
        let does = if lane == 40 { first } else { Does::Update };
        let mut runs = vec![in alloc; run(rt, does, 1000, 64)].expect(rt, "memory");
        for line in 1..1000u32 {
            runs.push(run(rt, Does::Update, line, 64))
                .expect(rt, "memory");
        }
        segments
            .push(segment(Label::root().fork(lane, 64), runs))
            .expect(rt, "memory");
    }
    segments
}

// A sweep that compared each two of the updates would take too long.
#[test]
fn many_updates_of_one_element_are_not_compared(rt: HostRuntime) {
    let updates = histogram(&rt, rt.alloc(), Does::Update);
    assert!(rt; each_finds(&rt, rt.alloc(), &updates, &[]));
    let mut races = with_last(&rt, rt.alloc(), 1000);
    races.push((1000, 1000)).expect(&rt, "memory");
    for first in [Does::Read, Does::Write] {
        let segments = histogram(&rt, rt.alloc(), first);
        assert!(rt; each_finds(&rt, rt.alloc(), &segments, &races));
    }
}
