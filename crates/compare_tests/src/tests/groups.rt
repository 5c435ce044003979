//! The barrier intervals of folders by hand that are concurrent with one, against those of all pairs.
ghost use Rattle.std.specs.Prelude.{◌≡◌, ◌<◌, length};

use interval_tree::Steps;
use log_segment::Segment;
use log_walk::walk;
use memory_environment::MemFolder;
use segment_groups::{Groups, Partner};
use std::alloc::Global;
use std::marker::Brand;
use std::process::Abort;
use std::sync::ledger::{Blank, Ledger};
use sw_base::{INDEX_HEADER, LOG_HEADER, Memory};

// A region, a lane and a span; a kind of a record and its value.
type Step = (u8, u8, u8);

type Rec = (u8, u8);

type Task<'a> = (&'a [Step], &'a [Rec]);

const WRITE: Rec = (2, 0);

const BARRIER: Rec = (5, 0);

const FORK: Rec = (6, 2);

const END: Rec = (8, 0);

fn spell(rt: &impl Abort, log: &mut Vec<u8>, record: &Rec) {
    let mut bytes = [0; 24];
    bytes[0] = record.0;
    bytes[7] = 1;
    bytes[23] = record.1;
    if record.0 == 2 {
        bytes[1] = 8;
        bytes[14] = 16;
    }
    log.extend_from_slice(&bytes).expect(rt, "memory");
}

fn spell_row(rt: &impl Abort, index: &mut Vec<u8>, steps: &[Step], records: &[Rec]) {
    let depth = steps.len().min(255) as u8;
    let count = records.len() as u64;
    index
        .extend_from_slice(&[0, 0, 0, depth, 0, 0, 0, 0])
        .expect(rt, "memory");
    for place in 0..4 {
        let step = steps.get(place).copied().unwrap_or((0, 0, 0));
        let spelled = [0, 0, 0, step.0, 0, step.1, 0, step.2];
        index.extend_from_slice(&spelled).expect(rt, "memory");
    }
    let spelled = count.to_be_bytes();
    index.extend_from_slice(&spelled).expect(rt, "memory");
}

fn log_of(rt: &impl Abort, alloc: Global, records: &[Rec]) -> Vec<u8> {
    let mut log = Vec::from_slice(alloc, &LOG_HEADER).expect(rt, "memory");
    for record in records {
        spell(rt, &mut log, record);
    }
    log
}

fn folder(rt: &impl Abort, alloc: Global, tasks: &[Task<'_>]) -> MemFolder {
    let mut folder = MemFolder::new(alloc).expect(rt, "memory");
    let mut index = Vec::from_slice(alloc, &INDEX_HEADER).expect(rt, "memory");
    for (steps, records) in tasks {
        spell_row(rt, &mut index, steps, records);
        let mut name = String::from_str(alloc, "d/t").expect(rt, "memory");
        for (region, lane, _) in *steps {
            write!(name, "-{region}.{lane}").expect(rt, "memory");
        }
        name.push_str(".swl").expect(rt, "memory");
        folder
            .hold(&name, &log_of(rt, alloc, records))
            .expect(rt, "memory");
    }
    folder.hold("d/index.swi", &index).expect(rt, "memory");
    folder
}

// The positions taken, at most so many.
struct Positions {
    taken: Vec<usize>,
    most: usize,
}

impl Partner for Positions {
    ghost use Rattle.std.specs.Prelude.{◌≡◌, [], ◌∷◌, ◌++◌};

    ghost took = { λ before position after. after.taken.items ≡ before.taken.items ++ position ∷ [] };

    ghost refused = { λ before position after. after.taken.items ≡ before.taken.items };

    fn take(&mut self, position: usize) -> Result<(), Memory> {
        if self.taken.len() >= self.most {
            return Err(Memory);
        }
        self.taken.push(position)?;
        Ok(())
    }
}

fn partners_with<L: Ledger>(
    alloc: Global,
    groups: &Groups,
    at: usize,
    most: usize,
    blank: Blank,
) -> (Vec<usize>, bool)
    requires at { at < length groups.now }
    requires name { blank.name ≡ L.name }
    requires parts { blank.parts ≡ L.parts }
    requires some { 0 < blank.parts }
{
    let mut found = Positions {
        taken: Vec::new(alloc),
        most,
    };
    let mut steps = Steps::<L>::new(blank);
    let answer = groups.partners(at, &mut found, &mut steps);
    let Positions { taken, most: _ } = found;
    (taken, answer.is_ok())
}

fn partners(alloc: Global, groups: &Groups, at: usize, most: usize) -> (Vec<usize>, bool)
    requires { at < length groups.now }
{
    partners_with::<Brand>(alloc, groups, at, most, Blank::new(1))
}

// All later positions that are concurrent, at most so many.
fn by_pairs(
    rt: &impl Abort,
    alloc: Global,
    segments: &[Segment],
    at: usize,
    most: usize,
) -> Vec<usize>
    requires { at < length segments.now }
{
    let mut found = Vec::new(alloc);
    for (position, other) in segments.iter().enumerate() {
        if position > at && found.len() < most && segments[at].label.concurrent(&other.label) {
            found.push(position).expect(rt, "memory");
        }
    }
    found
}

// A segment's first partners, at most so many, and whether they are all.
type Partners = (Vec<usize>, bool);

// Adds the first partners of this segment, if all pairs tell the same.
fn add_partners(
    rt: &impl Abort,
    alloc: Global,
    groups: &Groups,
    at: usize,
    most: usize,
    found: &mut Vec<Partners>,
) -> bool
    requires { at < length groups.now }
{
    let due = by_pairs(rt, alloc, groups.segments(), at, most);
    let partners = partners(alloc, groups, at, most);
    if partners.0 != due {
        return false;
    }
    found.push(partners).expect(rt, "memory");
    true
}

// The first partners of each segment, up to one of which all pairs tell others.
fn partners_of_each(rt: &impl Abort, alloc: Global, groups: &Groups, most: usize) -> Vec<Partners> {
    let mut found = Vec::new(alloc);
    for at in 0..groups.segments().len() {
        if !add_partners(rt, alloc, groups, at, most, &mut found) {
            break;
        }
    }
    found
}

// Those of the folder's segments, which are the same by all pairs.
fn table(rt: &impl Abort, alloc: Global, tasks: &[Task<'_>], most: usize) -> Vec<Partners> {
    let mut folder = folder(rt, alloc, tasks);
    let Ok(segments) = walk(alloc, &mut folder, "d") else {
        panic!(rt; "refused");
    };
    let groups = Groups::build(alloc, segments.as_slice()).expect(rt, "memory");
    let found = partners_of_each(rt, alloc, &groups, most);
    assert!(rt; found.len() == segments.len(), "other positions");
    found
}

fn have_positions(found: &[Partners], due: &[&[usize]]) -> bool {
    found.len() == due.len()
        && found
            .iter()
            .zip(due)
            .all(|(one, due)| one.0.as_slice() == *due)
}

// The tasks of a nested team's first lane and of its second, which have these records.
fn nested<'a>(first: &'a [Rec], second: &'a [Rec]) -> [Task<'a>; 5] {
    [
        (&[], &[FORK, END]),
        (&[(0, 0, 2)], first),
        (&[(0, 0, 2), (0, 0, 2)], &[WRITE, END]),
        (&[(0, 0, 2), (0, 1, 2)], &[WRITE, END]),
        (&[(0, 1, 2)], second),
    ]
}

#[test]
fn the_lanes_of_a_nested_team_and_another_lane(rt: HostRuntime) {
    let cases: [(&[Rec], &[Rec], [&[usize]; 3]); 2] = [
        (&[FORK, END], &[WRITE, END], [&[1, 2], &[2], &[]]),
        (
            &[FORK, BARRIER, END],
            &[BARRIER, WRITE, END],
            [&[1], &[], &[]],
        ),
    ];
    for (first, second, due) in cases {
        let found = table(&rt, rt.alloc(), &nested(first, second), 9);
        assert!(rt; have_positions(&found, &due));
    }
}

const DEEP: &[Task<'static>] = &[
    (&[], &[WRITE, FORK, WRITE, FORK, END]),
    (&[(0, 0, 2)], &[WRITE, FORK, BARRIER, WRITE, END]),
    (
        &[(0, 0, 2), (0, 0, 2)],
        &[WRITE, FORK, WRITE, BARRIER, WRITE, END],
    ),
    (&[(0, 0, 2), (0, 0, 2), (0, 0, 2)], &[WRITE, FORK, END]),
    (&[(0, 0, 2), (0, 0, 2), (0, 0, 2), (0, 0, 2)], &[WRITE, END]),
    (&[(0, 0, 2), (0, 0, 2), (0, 0, 2), (0, 1, 2)], &[WRITE, END]),
    (&[(0, 0, 2), (0, 0, 2), (0, 1, 2)], &[WRITE, END]),
    (&[(0, 0, 2), (0, 1, 2)], &[BARRIER, WRITE, END]),
    (&[(0, 1, 2)], &[WRITE, BARRIER, FORK, WRITE, END]),
    (&[(0, 1, 2), (0, 0, 2)], &[WRITE, END]),
    (&[(0, 1, 2), (0, 1, 2)], &[WRITE, END]),
    (&[(1, 0, 2)], &[WRITE, END]),
    (&[(1, 1, 2)], &[WRITE, END]),
];

// Whether these are the first partners of all, and told to be all where they are.
fn are_first(all: &[Partners], first: &[Partners], most: usize) -> bool {
    all.len() == first.len()
        && all
            .iter()
            .zip(first)
            .all(|(all, first)| all.1 && first.1 == (all.0.len() <= most))
}

#[test]
fn partners_are_those_of_all_pairs(rt: HostRuntime) {
    let all = table(&rt, rt.alloc(), DEEP, 99);
    for most in 0..8 {
        assert!(rt;
            are_first(&all, &table(&rt, rt.alloc(), DEEP, most), most),
            "at most {most}"
        );
    }
}
