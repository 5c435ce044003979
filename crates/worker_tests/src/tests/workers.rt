//! `check` with each number of workers: the same report. Workers run at once, and so do the lanes of a run.
ghost use Rattle.std.specs.Prelude.{◌<◌, ◌^◌};

use super::asking::{asked, folder_of, printed};
use command_answer::{DONE, RACES};
use generated_run::generate;
use made_folders::{BARRIER, END, ROOT, Rec, Step, Task, region, store};
use meeting_gate::MeetingGate;
use memory_environment::{MemFolder, MemOut};
use std::alloc::Global;
use std::marker::Send;
use std::process::Abort;
use std::sync::Wait;
use std::thread::Threads;

// Aborts where so many workers are answered otherwise.
fn check_answers<R: Abort + Threads + Wait + Sync + Copy + Send + 'static>(
    rt: &R,
    alloc: Global,
    folder: &mut MemFolder,
    workers: &str,
    status: u8,
    text: &str,
) {
    let (answered, out) = printed(rt, alloc, folder, &["check", "d", workers]);
    assert!(rt;
        answered == status && out.written() == text.as_bytes(),
        "{workers} workers, status {answered}"
    );
}

/// Aborts where some number of workers is answered otherwise.
pub fn each_answers<R: Abort + Threads + Wait + Sync + Copy + Send + 'static>(
    rt: &R,
    alloc: Global,
    folder: &mut MemFolder,
    status: u8,
    text: &str,
) {
    for workers in ["1", "2", "3", "7", "64"] {
        check_answers(rt, alloc, folder, workers, status, text);
    }
}

/// A lane of the root's one region.
#[derive(Drop)]
struct Lane {
    steps: [Step; 1],
    records: Vec<Rec>,
}

// The folder of a root with these lanes.
fn with_lanes(rt: &impl Abort, alloc: Global, lanes: &[Lane]) -> MemFolder {
    let root = [region!(1, lanes.len() as u64), END];
    let mut tasks: Vec<(&[Step], &[Rec])> = Vec::new(alloc);
    tasks.push((&[], &root)).expect(rt, "memory");
    for lane in lanes {
        tasks
            .push((&lane.steps, &lane.records))
            .expect(rt, "memory");
    }
    folder_of(rt, alloc, &tasks)
}

// Whether a lane has no access.
fn is_idle(lane: u16) -> bool {
    lane % 5 == 3
}

// What a lane does: it writes an element of its own and reads the next lane's, and after a barrier it writes that one.
fn neighbour(rt: &impl Abort, alloc: Global, lane: u16) -> Vec<Rec>
    requires { lane < 2 ^ 10 }
{
    if is_idle(lane) {
        return vec![in alloc; BARRIER, END].expect(rt, "memory");
    }
    let line = 1000 + u32::from(lane);
    let own = 4096 + 8 * u64::from(lane);
    let read = (1, 8, line + 1000, own + 8, 0);
    vec![in alloc;
        store!(line, own),
        read,
        BARRIER,
        store!(line + 2000, own + 8),
        END,
    ]
    .expect(rt, "memory")
}

fn team(rt: &impl Abort, alloc: Global, span: u16) -> Vec<Lane>
    requires { span < 2 ^ 10 }
{
    let mut lanes = Vec::new(alloc);
    for lane in 0..span {
        lanes
            .push(Lane {
                steps: [(0, lane, span)],
                records: neighbour(rt, alloc, lane),
            })
            .expect(rt, "memory");
    }
    lanes
}

// Each read races with the next lane's write, where both lanes do something.
fn report(rt: &impl Abort, alloc: Global, span: u16) -> String
    requires { span < 2 ^ 10 }
{
    let mut text = String::new(alloc);
    let mut races: u32 = 0;
    for lane in 1..span {
        if !is_idle(lane) && !is_idle(lane - 1) {
            let line = 1000 + u32::from(lane);
            let other = 1999 + u32::from(lane);
            write!(text, "race {line} {other}\n").expect(rt, "memory");
            races = races.wrapping_add(1);
        }
    }
    write!(text, "races {races}\n").expect(rt, "memory");
    text
}

#[test]
fn each_number_of_workers_reports_the_same(rt: HostRuntime) {
    let alloc = rt.alloc();
    for span in [1, 2, 3, 7, 64] {
        let lanes = team(&rt, alloc, span);
        let mut folder = with_lanes(&rt, alloc, &lanes);
        let text = report(&rt, alloc, span);
        let status = if span == 1 { DONE } else { RACES };
        each_answers(&rt, alloc, &mut folder, status, &text);
    }
}

// The lines in which each lane writes one element.
const LINES: [[u32; 3]; 4] = [[11, 12, 13], [21, 22, 23], [31, 32, 33], [41, 42, 43]];

fn writing(rt: &impl Abort, alloc: Global, lines: &[u32]) -> Vec<Rec> {
    let mut records = Vec::new(alloc);
    for line in lines {
        records.push(store!(*line, 4096)).expect(rt, "memory");
    }
    records.push(END).expect(rt, "memory");
    records
}

fn writing_lanes(rt: &impl Abort, alloc: Global) -> Vec<Lane> {
    let mut lanes = Vec::new(alloc);
    for (lane, lines) in LINES.iter().enumerate() {
        lanes
            .push(Lane {
                steps: [(0, lane as u16, 4)],
                records: writing(rt, alloc, lines),
            })
            .expect(rt, "memory");
    }
    lanes
}

// The races of one line with those of later lanes.
fn add_races(rt: &impl Abort, text: &mut String, line: u32, later: &[[u32; 3]]) {
    for others in later {
        for other in others {
            write!(text, "race {line} {other}\n").expect(rt, "memory");
        }
    }
}

fn all_races(rt: &impl Abort, alloc: Global) -> String {
    let mut text = String::new(alloc);
    for (lane, lines) in LINES.iter().enumerate() {
        let later = LINES.get(lane.saturating_add(1)..).unwrap_or(&[]);
        for line in lines {
            add_races(rt, &mut text, *line, later);
        }
    }
    text.push_str("races 54\n").expect(rt, "memory");
    text
}

#[test]
fn every_access_races_with_every_other_lane(rt: HostRuntime) {
    let alloc = rt.alloc();
    let lanes = writing_lanes(&rt, alloc);
    let mut folder = with_lanes(&rt, alloc, &lanes);
    each_answers(&rt, alloc, &mut folder, RACES, &all_races(&rt, alloc));
}

// So many intervals of one write each.
fn one_each(rt: &impl Abort, alloc: Global, line: u32, addr: u64) -> Vec<Rec> {
    let mut records = Vec::new(alloc);
    for _ in 0..32_768 {
        records.push(store!(line, addr)).expect(rt, "memory");
        records.push(BARRIER).expect(rt, "memory");
    }
    records.push(END).expect(rt, "memory");
    records
}

// Two lanes of such intervals.
fn intervals(rt: &impl Abort, alloc: Global, addr: u64) -> Vec<Lane> {
    let mut lanes = Vec::new(alloc);
    for (lane, line, own) in [(0u16, 5u32, 4096), (1, 6, addr)] {
        lanes
            .push(Lane {
                steps: [(0, lane, 2)],
                records: one_each(rt, alloc, line, own),
            })
            .expect(rt, "memory");
    }
    lanes
}

#[test]
fn many_barrier_intervals_are_compared_each_with_its_own(rt: HostRuntime) {
    let alloc = rt.alloc();
    for (addr, status, text) in [
        (4104, DONE, "races 0\n"),
        (4096, RACES, "race 5 6\nraces 1\n"),
    ] {
        let lanes = intervals(&rt, alloc, addr);
        let mut folder = with_lanes(&rt, alloc, &lanes);
        check_answers(&rt, alloc, &mut folder, "2", status, text);
    }
}

#[test]
fn a_large_generated_folder_is_checked(rt: HostRuntime) {
    let alloc = rt.alloc();
    let mut folder = MemFolder::new(alloc).expect(&rt, "memory");
    generate(alloc, &mut folder, "d", 100_000).expect(&rt, "memory");
    check_answers(&rt, alloc, &mut folder, "8", RACES, "race 30 40\nraces 1\n");
}

// A lane that accesses one element in sixteen lines, by records of this kind.
fn sixteen(rt: &impl Abort, alloc: Global, kind: u8) -> Vec<Rec> {
    let mut records = Vec::new(alloc);
    for line in 1..17u32 {
        records.push((kind, 8, line, 4096, 1)).expect(rt, "memory");
    }
    records.push(END).expect(rt, "memory");
    records
}

// Sixty-four such lanes, so a thousand accesses of it.
fn crowd(rt: &impl Abort, alloc: Global, kind: u8) -> Vec<Lane> {
    let mut lanes = Vec::new(alloc);
    for lane in 0..64u16 {
        lanes
            .push(Lane {
                steps: [(0, lane, 64)],
                records: sixteen(rt, alloc, kind),
            })
            .expect(rt, "memory");
    }
    lanes
}

// Reads, and then updates: none is compared with another one.
#[test]
fn many_reads_or_updates_of_one_element_are_not_compared(rt: HostRuntime) {
    let alloc = rt.alloc();
    for kind in [1, 9] {
        let lanes = crowd(&rt, alloc, kind);
        let mut folder = with_lanes(&rt, alloc, &lanes);
        check_answers(&rt, alloc, &mut folder, "4", DONE, "races 0\n");
    }
}

// Aborts where not so many meet, or where another status or text comes out.
fn at_once<R: Abort + Threads + Wait + Sync + Copy + Send + 'static>(
    rt: &R,
    alloc: Global,
    folder: &mut MemFolder,
    given: &[&str],
    count: usize,
    status: u8,
    text: &str,
) {
    let mut out = MemOut::new(alloc).expect(rt, "memory");
    let gate = MeetingGate::new(count);
    let answered = asked(rt, alloc, folder, given, &mut out, &gate);
    assert!(rt; answered == status && out.written() == text.as_bytes() && gate.have_met());
}

// So many run at once, as the words are written.
const COUNTS: &[(&str, usize)] = &[("2", 2), ("4", 4), ("64", 64)];

const TWO_LANES: &[Task<'static>] = &[
    (&[], ROOT),
    (&[(0, 0, 2)], &[store!(3, 4128), BARRIER, END]),
    (&[(0, 1, 2)], &[(1, 8, 3, 4128, 0), BARRIER, END]),
];

#[test]
fn each_number_of_workers_finds_a_race(rt: HostRuntime) {
    let alloc = rt.alloc();
    let mut folder = folder_of(&rt, alloc, TWO_LANES);
    for workers in 1..65u8 {
        let word = format!(in alloc; "{workers}").expect(&rt, "memory");
        check_answers(&rt, alloc, &mut folder, &word, RACES, "race 3 3\nraces 1\n");
    }
}

#[test]
fn the_workers_of_a_check_run_at_once(rt: HostRuntime) {
    let alloc = rt.alloc();
    let text = "race 3 3\nraces 1\n";
    for (workers, count) in COUNTS {
        let mut folder = folder_of(&rt, alloc, TWO_LANES);
        let check = ["check", "d", *workers];
        at_once(&rt, alloc, &mut folder, &check, *count, RACES, text);
    }
}

#[test]
fn the_workers_of_a_generated_run_run_at_once(rt: HostRuntime) {
    let alloc = rt.alloc();
    let text = "accesses 65\nsegments 16\nrace 30 40\nraces 1\n";
    let mut folder = MemFolder::new(alloc).expect(&rt, "memory");
    for (workers, count) in COUNTS {
        at_once(
            &rt,
            alloc,
            &mut folder,
            &["gen", "4", *workers],
            *count,
            RACES,
            text,
        );
    }
}

#[test]
fn the_lanes_of_a_run_run_at_once(rt: HostRuntime) {
    let alloc = rt.alloc();
    for (lanes, count) in COUNTS {
        let mut folder = MemFolder::new(alloc).expect(&rt, "memory");
        let kernel = format!(in alloc;
            "array a i64 64\nmain {{ parallel {lanes} {{ a[tid] = 1 }} }}\n"
        ).expect(&rt, "memory");
        folder.hold("k", kernel.as_bytes()).expect(&rt, "memory");
        let text = format!(in alloc;
            "tasks {}\nrecords {}\nsum a {lanes}\n",
            count + 1,
            2 * count + 2
        )
        .expect(&rt, "memory");
        let run = ["run", "k", "d", "4096"];
        at_once(&rt, alloc, &mut folder, &run, *count, DONE, &text);
    }
}
