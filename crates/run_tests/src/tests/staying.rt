//! Teams of numbers on threads that stay. `counted` shows how a caller says what its lanes do, and learns it of the whole team.

mod counting;
mod nesting;
mod telling;

use crate::tests::staying::counting::counted;
use crate::tests::staying::nesting::nested;
use meeting_gate::MeetingGate;
use std::alloc::{AllocError, Global};
use std::marker::{Brand, Send};
use std::process::Abort;
use std::sync::Wait;
use std::sync::atomic::{AtomicU64, Ordering};
use std::test::Fail;
use std::thread::{Builder, Threads};
use sw_base::Gate;
use team_live::in_phases;

/// How often the thread of a lane started, and how often the lane entered a phase.
#[derive(Drop)]
struct Count {
    started: AtomicU64,
    entered: AtomicU64,
}

/// What each lane did, and where all are to meet in their first phase, if they are.
#[derive(Drop)]
struct Counts {
    lanes: Vec<Count>,
    meeting: Option<MeetingGate>,
}

impl Counts {
    fn new(rt: &impl Abort, alloc: Global, lanes: usize, meeting: Option<MeetingGate>) -> Counts {
        let mut counts = Counts {
            lanes: Vec::new(alloc),
            meeting,
        };
        for _ in 0..lanes {
            let count = Count {
                started: AtomicU64::new(0),
                entered: AtomicU64::new(0),
            };
            counts.lanes.push(count).expect(rt, "memory");
        }
        counts
    }

    fn start(&self, lane: usize) {
        if let Some(count) = self.lanes.get(lane) {
            count.started.fetch_add(1, Ordering::SeqCst);
        }
    }

    fn meet(&self, lane: usize) {
        if let Some(meeting) = &self.meeting {
            meeting.enter(lane);
        }
    }

    // Whether so many lanes had a thread, from the second on, and each lane entered so many phases.
    fn are(&self, threads: usize, phases: u64) -> bool {
        self.lanes.iter().enumerate().all(|(lane, count)| {
            let started = count.started.load(Ordering::SeqCst);
            let entered = count.entered.load(Ordering::SeqCst);
            started == u64::from(0 < lane && lane <= threads) && entered == phases
        })
    }

    fn have_met(&self) -> bool {
        match &self.meeting {
            Some(meeting) => meeting.have_met(),
            None => false,
        }
    }
}

impl Gate for Counts {
    fn enter(&self, number: usize) {
        if let Some(count) = self.lanes.get(number) {
            count.entered.fetch_add(1, Ordering::SeqCst);
        }
    }
}

/// A team, and what is to come of it.
struct Case {
    lanes: usize,
    phases: usize,
    /// The lanes, by their bits, whose threads can't be started.
    refused: u64,
    /// The hand at which the team stops.
    stop: u64,
    /// Whether it did all phases; the hand and each lane at the end; how many threads it had, and how many phases it did.
    whole: bool,
    hand: u64,
    lane: u64,
    threads: usize,
    done: u64,
}

// The number with one digit more.
fn with_digit(number: u64, digit: u64) -> u64 {
    number.wrapping_mul(10).wrapping_add(digit)
}

// How the thread of a lane is started, or that it can't be.
fn builder(refused: u64, lane: usize) -> Builder {
    if lane < 64 && refused >> lane & 1 == 1 {
        Builder::new().stack_size(usize::MAX)
    } else {
        Builder::new().stack_size(256 * 1024)
    }
}

// A team, in each phase of which each lane gets the phase's digit, and the hand 1 before it and 2 after it.
fn team<R: Abort + Threads + Wait + Copy + Send + Sync + 'static>(
    rt: &R,
    alloc: Global,
    gate: &Counts,
    case: &Case,
    stays: bool,
) -> Result<(u64, Vec<u64>, bool), AllocError> {
    let mut lanes = Vec::new(alloc);
    lanes.resize(case.lanes.clamp(1, 64), 0u64)?;
    let stop = case.stop;
    let refused = case.refused;
    Ok(in_phases::<Brand, R, u64, u64, _, _, _, _, _>(
        rt,
        alloc,
        stays,
        case.phases,
        0,
        lanes,
        &|number: usize, index: usize, lane: &mut u64| {
            gate.enter(index);
            if number == 0 {
                gate.meet(index);
            }
            *lane = with_digit(*lane, (number as u64).wrapping_add(1));
        },
        &|index: usize| gate.start(index),
        &|index: usize| builder(refused, index),
        &|hand: &mut u64, _lanes: &mut Vec<u64>| *hand = with_digit(*hand, 1),
        &|hand: &mut u64, _lanes: &mut Vec<u64>| -> bool {
            *hand = with_digit(*hand, 2);
            *hand != stop
        },
    ))
}

// Whether the team of this case does what is to come of it, with threads that stay, or without one that tells of its start.
fn holds<R: Abort + Threads + Wait + Copy + Send + Sync + 'static>(
    rt: &R,
    alloc: Global,
    case: &Case,
    stays: bool,
) -> bool {
    let gate = Counts::new(rt, alloc, case.lanes, None);
    let (hand, lanes, whole) = team(rt, alloc, &gate, case, stays).expect(rt, "memory");
    let each = lanes.iter().all(|lane| *lane == case.lane);
    let threads = if stays { case.threads } else { 0 };
    each && lanes.len() == case.lanes
        && (whole, hand) == (case.whole, case.hand)
        && gate.are(threads, case.done)
}

// A team of four that does three phases.
const FOUR: Case = Case {
    lanes: 4,
    phases: 3,
    refused: 0,
    stop: 0,
    whole: true,
    hand: 121212,
    lane: 123,
    threads: 3,
    done: 3,
};

const CASES: [Case; 14] = [
    FOUR,
    // No phase, one and two: where nothing stays, no thread tells of its start.
    Case {
        phases: 0,
        hand: 0,
        lane: 0,
        threads: 0,
        done: 0,
        ..FOUR
    },
    Case {
        phases: 1,
        hand: 12,
        lane: 1,
        threads: 0,
        done: 1,
        ..FOUR
    },
    Case {
        phases: 2,
        hand: 1212,
        lane: 12,
        done: 2,
        ..FOUR
    },
    // One lane, two, and as many as there may be.
    Case {
        lanes: 1,
        threads: 0,
        ..FOUR
    },
    Case {
        lanes: 2,
        threads: 1,
        ..FOUR
    },
    Case {
        lanes: 64,
        threads: 63,
        ..FOUR
    },
    // The first thread that is to start can't be, the second, the last, and none.
    Case {
        refused: 2,
        threads: 0,
        ..FOUR
    },
    Case {
        refused: 4,
        threads: 1,
        ..FOUR
    },
    Case {
        refused: 8,
        threads: 2,
        ..FOUR
    },
    Case {
        refused: u64::MAX,
        threads: 0,
        ..FOUR
    },
    // A stop in the first phase, the second, and the last.
    Case {
        stop: 12,
        whole: false,
        hand: 12,
        lane: 1,
        done: 1,
        ..FOUR
    },
    Case {
        stop: 1212,
        whole: false,
        hand: 1212,
        lane: 12,
        done: 2,
        ..FOUR
    },
    Case {
        stop: 121212,
        whole: false,
        refused: 4,
        threads: 1,
        ..FOUR
    },
];

#[test]
fn lanes_do_their_phases_in_order_on_threads_that_start_once(rt: HostRuntime) {
    for (row, case) in CASES.iter().enumerate() {
        for stays in [false, true] {
            assert!(rt; holds(&rt, rt.alloc(), case, stays), "row {row}, {stays}");
        }
    }
}

// As many lanes as there may be, in two phases.
const CROWD: Case = Case {
    lanes: 64,
    phases: 2,
    ..FOUR
};

#[test]
fn lanes_run_at_once(rt: HostRuntime) {
    let gate = Counts::new(&rt, rt.alloc(), 64, Some(MeetingGate::new(64)));
    let (_, _, whole) = team(&rt, rt.alloc(), &gate, &CROWD, true).expect(&rt, "memory");
    assert!(rt; whole && gate.have_met());
}

#[test]
fn each_lane_counts_the_phases(rt: HostRuntime) -> Result<(), Fail> {
    let mut lanes = Vec::new(rt.alloc());
    lanes.resize(3, 0u64)?;
    let after = counted(&rt, rt.alloc(), 5, lanes);
    assert!(rt; after.as_slice() == [5, 5, 5].as_slice());
    Ok(())
}

// A team of four, in each of whose three phases each lane runs such a team, as does each of theirs: 157 teams.
#[test]
fn teams_nest(rt: HostRuntime) {
    let gate = Counts::new(&rt, rt.alloc(), 4, None);
    let after = nested::<_, u64, _>(&rt, rt.alloc(), 2, 4, &gate).expect(&rt, "memory");
    assert!(rt; after.len() == 4 && gate.are(0, 471));
}
