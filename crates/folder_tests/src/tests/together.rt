//! Lanes whose logs are read together: the same segments and the same first bad places as one after another.
ghost use Rattle.std.specs.Prelude.{◌<◌, ◌^◌, ◌≤◌};

use super::walks::{Rec, Row, Told, fault_told, index_of, log_of};
use log_walk::{RecordWhy, Segment, Sweep, WalkFault};
use memory_environment::MemFolder;
use std::alloc::Global;
use std::marker::Sync;
use std::process::Abort;
use std::thread::Threads;

const BARRIER: Rec = (5, 0, 5, 0, 0);

const END: Rec = (8, 0, 8, 0, 0);

const UNLOCK: Rec = (4, 0, 4, 1, 0);

// A fork of so many lanes.
fn fork(lanes: u8) -> Rec {
    (6, 0, 1, 0, lanes)
}

// The root forks a region of four lanes, and the second of these one of two.
const ROOT: &[Rec] = &[(6, 0, 1, 0, 4), END];

const INNER: &[Rec] = &[(2, 8, 7, 4096, 0), END];

// A lane's log: so many writes with a barrier after each of the first, and what comes before its End.
#[derive(Clone, Copy, Debug)]
struct Lane {
    writes: u32,
    barriers: u32,
    last: Rec,
}

const PLAIN: Lane = Lane {
    writes: 5_000,
    barriers: 3,
    last: (2, 8, 9, 8192, 0),
};

fn records_of(rt: &impl Abort, alloc: Global, lane: &Lane) -> Vec<Rec> {
    let mut records = Vec::new(alloc);
    for number in 0..lane.writes {
        records
            .push((2, 8, 3, 4096 + 8 * u64::from(number), 0))
            .expect(rt, "memory");
        if number < lane.barriers {
            records.push(BARRIER).expect(rt, "memory");
        }
    }
    records
        .extend_from_slice(&[lane.last, END])
        .expect(rt, "memory");
    records
}

// Puts the log of this lane into the folder, and tells how many records it has.
fn hold_lane(
    rt: &impl Abort,
    alloc: Global,
    folder: &mut MemFolder,
    name: &str,
    lane: &Lane,
) -> u32 {
    let records = records_of(rt, alloc, lane);
    folder
        .hold(name, &log_of(rt, alloc, &records))
        .expect(rt, "memory");
    records.len().min(u32::MAX as usize) as u32
}

// The folder of a team of these lanes, the second of which forks another team where its last record is a fork of two lanes.
fn team(rt: &impl Abort, alloc: Global, lanes: &[Lane; 4]) -> MemFolder {
    let mut folder = MemFolder::new(alloc).expect(rt, "memory");
    folder
        .hold("d/t.swl", &log_of(rt, alloc, ROOT))
        .expect(rt, "memory");
    folder
        .hold("d/t-0.1-0.0.swl", &log_of(rt, alloc, INNER))
        .expect(rt, "memory");
    folder
        .hold("d/t-0.1-0.1.swl", &log_of(rt, alloc, INNER))
        .expect(rt, "memory");
    let zero = hold_lane(rt, alloc, &mut folder, "d/t-0.0.swl", &lanes[0]);
    let one = hold_lane(rt, alloc, &mut folder, "d/t-0.1.swl", &lanes[1]);
    let two = hold_lane(rt, alloc, &mut folder, "d/t-0.2.swl", &lanes[2]);
    let three = hold_lane(rt, alloc, &mut folder, "d/t-0.3.swl", &lanes[3]);
    let rows: [Row<'static>; 7] = [
        (&[], 2),
        (&[(0, 0, 4)], zero),
        (&[(0, 1, 4)], one),
        (&[(0, 1, 4), (0, 0, 2)], 2),
        (&[(0, 1, 4), (0, 1, 2)], 2),
        (&[(0, 2, 4)], two),
        (&[(0, 3, 4)], three),
    ];
    folder
        .hold("d/index.swi", &index_of(rt, alloc, &rows))
        .expect(rt, "memory");
    folder
}

// The second lane's log, which forks a team of two lanes.
fn forking(lane: Lane) -> Lane {
    Lane {
        last: fork(2),
        ..lane
    }
}

// The segments of the root's first region, by so many workers.
fn by<R: Threads + Sync>(
    rt: &R,
    alloc: Global,
    folder: &mut MemFolder,
    workers: usize,
) -> Result<Option<Vec<Segment>>, WalkFault>
    requires { 1 ≤ workers }
{
    let (mut sweep, _root) = Sweep::open(alloc, folder, "d")?;
    sweep.next_by(rt, alloc, folder, workers)
}

// The same, one log after another.
fn alone(alloc: Global, folder: &mut MemFolder) -> Result<Option<Vec<Segment>>, WalkFault> {
    let (mut sweep, _root) = Sweep::open(alloc, folder, "d")?;
    sweep.next(alloc, folder)
}

fn is_same(one: &Segment, other: &Segment) -> bool {
    one.path.steps() == other.path.steps()
        && (one.first, one.last) == (other.first, other.last)
        && one.label.triples() == other.label.triples()
        && one.runs.len() == other.runs.len()
}

fn are_same(some: &[Segment], others: &[Segment]) -> bool {
    for (one, other) in some.iter().zip(others) {
        if !is_same(one, other) {
            return false;
        }
    }
    some.len() == others.len()
}

// What is told where the first region was read so.
fn told_of(first: Result<Option<Vec<Segment>>, WalkFault>) -> Told {
    match first {
        Ok(_found) => Told::Good,
        Err(fault) => fault_told(&fault),
    }
}

// Whether each number of workers tells this of the folder, as it is told of one log after another.
fn is_told<R: Threads + Sync>(rt: &R, alloc: Global, folder: &mut MemFolder, due: Told) -> bool {
    for workers in [1, 2, 4, 64] {
        if told_of(by(rt, alloc, folder, workers)) != due {
            return false;
        }
    }
    told_of(alone(alloc, folder)) == due
}

fn give_the_same<R: Abort + Threads + Sync>(rt: &R, alloc: Global, lanes: &[Lane; 4]) -> bool {
    let mut folder = team(rt, alloc, lanes);
    let Ok(Some(due)) = alone(alloc, &mut folder) else {
        return false;
    };
    for workers in [1, 2, 4, 64] {
        let Ok(Some(found)) = by(rt, alloc, &mut folder, workers) else {
            return false;
        };
        if !are_same(&found, &due) {
            return false;
        }
    }
    // Four intervals in each lane, and one in each lane of the inner team.
    due.len() == 18
}

#[test]
fn lanes_read_together_give_the_same_segments(rt: HostRuntime) {
    let long = Lane {
        writes: 45_000,
        ..PLAIN
    };
    assert!(rt; give_the_same(&rt, rt.alloc(), &[PLAIN, forking(long), long, PLAIN]));
}

// A lane that breaks a rule in its last record but one.
const BROKEN: Lane = Lane {
    last: UNLOCK,
    ..PLAIN
};

// A lane with a barrier too many.
const LATE: Lane = Lane {
    barriers: 4,
    ..PLAIN
};

#[test]
fn the_first_bad_place_is_told_by_each_number_of_workers(rt: HostRuntime) {
    let table = [
        (
            [PLAIN, forking(PLAIN), BROKEN, BROKEN],
            Told::Record(3, 5_004, RecordWhy::UnlockOther),
        ),
        (
            [PLAIN, BROKEN, BROKEN, PLAIN],
            Told::Record(2, 5_004, RecordWhy::UnlockOther),
        ),
        (
            [PLAIN, forking(PLAIN), PLAIN, LATE],
            Told::Record(4, 5_006, RecordWhy::BarrierCount),
        ),
        (
            [LATE, forking(PLAIN), PLAIN, PLAIN],
            Told::Record(2, 5_005, RecordWhy::BarrierCount),
        ),
    ];
    for (lanes, due) in &table {
        let mut folder = team(&rt, rt.alloc(), lanes);
        assert!(rt; is_told(&rt, rt.alloc(), &mut folder, *due), "{lanes:?}");
    }
}

// A lane with a segment for each of its writes.
const MANY: Lane = Lane {
    writes: 17_000,
    barriers: 17_000,
    last: (2, 8, 9, 8192, 0),
};

#[test]
fn a_segment_too_many_beside_others_is_told(rt: HostRuntime) {
    // The lanes before the last have 17,001 segments, 17,000 and 17,001, and the inner ones two.
    let mut folder = team(&rt, rt.alloc(), &[MANY, forking(MANY), MANY, MANY]);
    assert!(rt; told_of(by(&rt, rt.alloc(), &mut folder, 4)) == Told::TooMany(4, 29_065));
}

// The first call on the folder whose failure isn't told as a read that failed, by so many workers.
fn first_untold<R: Abort + Threads + Sync>(
    rt: &R,
    alloc: Global,
    lanes: &[Lane; 4],
    workers: usize,
) -> u64
    requires { 1 ≤ workers }
{
    for call in 1..100 {
        let mut folder = team(rt, alloc, lanes);
        folder.fail(&[call]).expect(rt, "memory");
        if told_of(by(rt, alloc, &mut folder, workers)) != Told::ReadFault {
            return call;
        }
    }
    100
}

#[test]
fn a_read_that_fails_beside_others_is_told(rt: HostRuntime) {
    let long = Lane {
        writes: 45_000,
        ..PLAIN
    };
    // The size of the index and its two reads, and the root's log, those of four lanes and of two inner ones are opened once each.
    let calls = first_untold(&rt, rt.alloc(), &[PLAIN, forking(PLAIN), long, PLAIN], 4);
    assert!(rt; calls == 11, "{calls}");
}

// What is told where this read of the third lane's log fails, by so many workers, and how many faults are counted.
fn told_at<R: Abort + Threads + Sync>(
    rt: &R,
    alloc: Global,
    lanes: &[Lane; 4],
    read: u64,
    workers: usize,
) -> (Told, u64)
    requires { 1 ≤ workers }
{
    let mut folder = team(rt, alloc, lanes);
    folder
        .fail_file("d/t-0.2.swl", &[read])
        .expect(rt, "memory");
    let told = told_of(by(rt, alloc, &mut folder, workers));
    (told, folder.faults().0)
}

#[test]
fn each_read_of_a_lane_that_fails_is_told(rt: HostRuntime) {
    let long = Lane {
        writes: 45_000,
        ..PLAIN
    };
    let lanes = [PLAIN, forking(PLAIN), long, PLAIN];
    // Its 1,080,128 bytes come by 65,520 at first and then by 65,512, in seventeen reads, and one more tells the end.
    for workers in [1, 4] {
        for read in [1, 18] {
            let told = told_at(&rt, rt.alloc(), &lanes, read, workers);
            assert!(rt; told == (Told::ReadFault, 1), "read {read} by {workers}");
        }
        let told = told_at(&rt, rt.alloc(), &lanes, 19, workers);
        assert!(rt; told == (Told::Good, 0), "by {workers}");
    }
}

#[test]
fn a_log_that_is_cut_short_beside_others_is_told(rt: HostRuntime) {
    let mut folder = team(&rt, rt.alloc(), &[PLAIN, forking(PLAIN), PLAIN, PLAIN]);
    let records = records_of(&rt, rt.alloc(), &PLAIN);
    let short = records.as_slice().get(..7).expect(&rt, "records");
    let cut = log_of(&rt, rt.alloc(), short);
    folder.hold("d/t-0.2.swl", &cut).expect(&rt, "memory");
    assert!(rt;
        is_told(
            &rt,
            rt.alloc(),
            &mut folder,
            Told::Record(3, 8, RecordWhy::Cut)
        )
    );
}
