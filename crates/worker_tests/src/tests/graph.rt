//! The checker against a search of the graph of edges: small and slow on purpose, and written from the definition alone.
ghost use Rattle.std.specs.Prelude.{◌<◌};

use super::asking::folder_of;
use super::workers::each_answers;
use command_answer::RACES;
use explain::{RacePair, confirm, explain};
use made_folders::{Rec, Step};
use memory_environment::MemFolder;
use std::alloc::Global;
use std::process::Abort;

const READ: u8 = 1;

const WRITE: u8 = 2;

const LOCK: u8 = 3;

const UNLOCK: u8 = 4;

const BARRIER: u8 = 5;

const REGION: u8 = 6;

const END: u8 = 8;

/// A task of a run.
#[derive(Drop)]
struct Task {
    steps: Vec<Step>,
    /// How many barriers its team passes.
    barriers: u64,
    records: Vec<Rec>,
}

/// A linear congruential sequence, how many accesses were made, and at how many lines.
#[derive(Drop)]
struct Numbers {
    state: u64,
    accesses: u32,
    lines: u32,
}

impl Numbers {
    fn below(&mut self, limit: u64) -> u64
        requires { 0 < limit }
        ensures { result < limit }
    {
        self.state = self
            .state
            .wrapping_mul(6_364_136_223_846_793_005)
            .wrapping_add(1_442_695_040_888_963_407);
        (self.state >> 33) % limit
    }

    /// A read or a write at the next line, of some of 71 bytes.
    fn access(&mut self) -> Rec {
        self.accesses = self.accesses.wrapping_add(1);
        let line = self
            .accesses
            .checked_rem(self.lines)
            .unwrap_or(0)
            .wrapping_add(100);
        let size = [1, 2, 4, 8][self.below(4) as usize];
        let kind = if self.below(3) == 0 { WRITE } else { READ };
        (kind, size, line, 4096 + self.below(64), 0)
    }
}

/// Some accesses, with no mutex, one or two. The mutexes are 1 and 2, so that a set of them is told by a sum.
fn add_accesses(rt: &impl Abort, numbers: &mut Numbers, records: &mut Vec<Rec>) {
    let mutexes = numbers.below(6);
    for mutex in [1, 2] {
        if mutexes & mutex != 0 && mutexes < 4 {
            records.push((LOCK, 0, 2, mutex, 0)).expect(rt, "memory");
        }
    }
    for _ in 0..numbers.below(3) {
        records.push(numbers.access()).expect(rt, "memory");
    }
    for mutex in [2, 1] {
        if mutexes & mutex != 0 && mutexes < 4 {
            records.push((UNLOCK, 0, 4, mutex, 0)).expect(rt, "memory");
        }
    }
}

/// Forks the task's next region: its lanes with no record yet.
fn fork(
    rt: &impl Abort,
    alloc: Global,
    numbers: &mut Numbers,
    task: &mut Task,
    region: u32,
    lanes: &mut Vec<Task>,
) {
    let span = numbers.below(3) as u16 + 1;
    let barriers = numbers.below(3);
    task.records
        .push((REGION, 0, 6, 0, u64::from(span)))
        .expect(rt, "memory");
    for lane in 0..span {
        let mut steps = task.steps.clone().expect(rt, "memory");
        steps.push((region, lane, span)).expect(rt, "memory");
        lanes
            .push(Task {
                steps,
                barriers,
                records: Vec::new(alloc),
            })
            .expect(rt, "memory");
    }
}

/// How many regions a task forks, by its depth.
type Regions = [u32; 4];

/// Gives the task its records, and adds the lanes that it forks.
fn fill(
    rt: &impl Abort,
    alloc: Global,
    numbers: &mut Numbers,
    regions: &Regions,
    task: &mut Task,
    lanes: &mut Vec<Task>,
) {
    let regions = regions.get(task.steps.len()).copied().unwrap_or(0);
    for turn in 0..3 {
        let barrier_first = numbers.below(2) == 0;
        let has_barrier = u64::from(turn) < task.barriers;
        add_accesses(rt, numbers, &mut task.records);
        if has_barrier && barrier_first {
            task.records
                .push((BARRIER, 0, 5, 0, 0))
                .expect(rt, "memory");
        }
        if turn < regions {
            fork(rt, alloc, numbers, task, turn, lanes);
            add_accesses(rt, numbers, &mut task.records);
        }
        if has_barrier && !barrier_first {
            task.records
                .push((BARRIER, 0, 5, 0, 0))
                .expect(rt, "memory");
        }
    }
    add_accesses(rt, numbers, &mut task.records);
    task.records.push((END, 0, 8, 0, 0)).expect(rt, "memory");
}

/// Takes the task that waits on top, gives it its records, and has its lanes wait, the first on top.
fn finish_next(
    rt: &impl Abort,
    alloc: Global,
    numbers: &mut Numbers,
    regions: &Regions,
    waiting: &mut Vec<Task>,
    tasks: &mut Vec<Task>,
) {
    let Some(mut task) = waiting.pop() else {
        return;
    };
    let mut lanes = Vec::new(alloc);
    fill(rt, alloc, numbers, regions, &mut task, &mut lanes);
    lanes.reverse();
    waiting.append(&mut lanes).expect(rt, "memory");
    tasks.push(task).expect(rt, "memory");
}

/// The tasks of a run with accesses at so many lines, in the order of their rows.
fn run(rt: &impl Abort, alloc: Global, state: u64, lines: u32, regions: &Regions) -> Vec<Task> {
    let mut numbers = Numbers {
        state,
        accesses: 0,
        lines,
    };
    let root = Task {
        steps: Vec::new(alloc),
        barriers: 0,
        records: Vec::new(alloc),
    };
    let mut waiting = vec![in alloc; root].expect(rt, "memory");
    let mut tasks = Vec::new(alloc);
    for _ in 0..1000 {
        finish_next(rt, alloc, &mut numbers, regions, &mut waiting, &mut tasks);
    }
    tasks
}

/// The folder of the run.
fn folder_of_run(rt: &impl Abort, alloc: Global, tasks: &[Task]) -> MemFolder {
    let mut all: Vec<(&[Step], &[Rec])> = Vec::new(alloc);
    for task in tasks {
        all.push((&task.steps, &task.records)).expect(rt, "memory");
    }
    folder_of(rt, alloc, &all)
}

/// A record of the run, by its log and its place there.
#[derive(Drop)]
struct Node<'a> {
    /// The number of its task's row.
    row: u32,
    steps: &'a [Step],
    index: usize,
    record: Rec,
    /// How many regions and barriers its log has before it.
    regions: u32,
    barriers: u32,
    /// The sum of the mutexes that are held there.
    held: u64,
}

/// The records of one task.
fn add_nodes<'a>(rt: &impl Abort, nodes: &mut Vec<Node<'a>>, row: u32, task: &'a Task) {
    let mut regions: u32 = 0;
    let mut barriers: u32 = 0;
    let mut held = 0;
    for (index, record) in task.records.iter().enumerate() {
        nodes
            .push(Node {
                row,
                steps: &task.steps,
                index,
                record: *record,
                regions,
                barriers,
                held,
            })
            .expect(rt, "memory");
        match record.0 {
            REGION => regions = regions.wrapping_add(1),
            BARRIER => barriers = barriers.wrapping_add(1),
            LOCK => held |= record.3,
            UNLOCK => held &= !record.3,
            _ => {}
        }
    }
}

/// The record forks the task of this path.
fn forks(fork: &Node<'_>, path: &[Step]) -> bool {
    let Some((step, above)) = path.split_last() else {
        return false;
    };
    fork.record.0 == REGION
        && fork.steps == above
        && fork.regions == step.0
        && fork.record.4 == u64::from(step.2)
}

/// The paths are those of lanes of one team.
fn are_of_one_team(one: &[Step], other: &[Step]) -> bool {
    match (one.split_last(), other.split_last()) {
        (Some((step, above)), Some((beside, other_above))) => {
            above == other_above && step.0 == beside.0
        }
        _ => false,
    }
}

/// There is an edge from x to the record after `before`, which stands in the same log.
fn is_edge_past(x: &Node<'_>, before: &Node<'_>) -> bool {
    let is_next = x.steps == before.steps && x.index == before.index;
    let joins = x.record.0 == END && forks(before, x.steps);
    let meets = x.record.0 == BARRIER
        && before.record.0 == BARRIER
        && x.barriers == before.barriers
        && are_of_one_team(x.steps, before.steps);
    is_next || joins || meets
}

/// For each record the numbers of those to which it has an edge.
fn edges(rt: &impl Abort, alloc: Global, nodes: &[Node<'_>]) -> Vec<Vec<usize>> {
    let mut all = Vec::new(alloc);
    for x in nodes {
        let mut after = Vec::new(alloc);
        let mut before = None;
        for (number, y) in nodes.iter().enumerate() {
            let is_edge = match before {
                Some(before) if y.index > 0 => is_edge_past(x, before),
                _ => forks(x, y.steps),
            };
            if is_edge {
                after.push(number).expect(rt, "memory");
            }
            before = Some(y);
        }
        all.push(after).expect(rt, "memory");
    }
    all
}

/// Finds these records, and has those wait that weren't found before.
fn find(rt: &impl Abort, after: &[usize], found: &mut [bool], waiting: &mut Vec<usize>) {
    for y in after {
        if let Some(is_found) = found.get_mut(*y)
            && !*is_found
        {
            *is_found = true;
            waiting.push(*y).expect(rt, "memory");
        }
    }
}

/// Which records are reached along edges from this one.
fn reached(rt: &impl Abort, alloc: Global, edges: &[Vec<usize>], from: usize) -> Vec<bool> {
    let mut found = vec![in alloc; false; edges.len()].expect(rt, "memory");
    let mut waiting = vec![in alloc; from].expect(rt, "memory");
    for _ in edges {
        let Some(x) = waiting.pop() else {
            break;
        };
        if let Some(after) = edges.get(x) {
            find(rt, after, &mut found, &mut waiting);
        }
    }
    found
}

/// The records are accesses of a common byte, one a write, with no common mutex.
fn conflict(x: &Node<'_>, y: &Node<'_>) -> bool {
    let (kind, size, _, addr, _) = x.record;
    let (other_kind, other_size, _, other_addr, _) = y.record;
    let one_writes = (kind == WRITE && other_kind <= WRITE)
        || (other_kind == WRITE && kind <= WRITE);
    let shares = addr < other_addr.saturating_add(u64::from(other_size))
        && other_addr < addr.saturating_add(u64::from(size));
    one_writes && shares && x.held & y.held == 0
}

/// For each record which records are reached along edges from it.
fn all_reached(rt: &impl Abort, alloc: Global, nodes: &[Node<'_>]) -> Vec<Vec<bool>> {
    let edges = edges(rt, alloc, nodes);
    let mut after = Vec::new(alloc);
    for number in 0..nodes.len() {
        after
            .push(reached(rt, alloc, &edges, number))
            .expect(rt, "memory");
    }
    after
}

/// The smaller line of two records, and the greater one.
fn lines_of(x: &Node<'_>, y: &Node<'_>) -> (u32, u32) {
    (x.record.2.min(y.record.2), x.record.2.max(y.record.2))
}

/// The record's number in its log.
fn number_of(x: &Node<'_>) -> u32 {
    match u32::try_from(x.index) {
        Ok(index) => index.wrapping_add(1),
        Err(_) => 0,
    }
}

/// Two accesses that race, by row and number, and the first byte that they have in common.
fn race_of(x: &Node<'_>, y: &Node<'_>) -> RacePair {
    RacePair {
        first_row: x.row,
        first: number_of(x),
        second_row: y.row,
        second: number_of(y),
        byte: x.record.3.max(y.record.3),
    }
}

/// Two accesses that race, with their lines, the smaller first.
type Race = ((u32, u32), RacePair);

/// There is a path of edges from one record to the other.
fn is_reached(after: &[Vec<bool>], from: usize, to: usize) -> bool {
    match after.get(from) {
        Some(reached) => reached.get(to).copied().unwrap_or(true),
        None => true,
    }
}

/// The accesses that race: in order of the first one, and then of the second.
fn races(rt: &impl Abort, alloc: Global, nodes: &[Node<'_>]) -> Vec<Race> {
    let after = all_reached(rt, alloc, nodes);
    let mut found = Vec::new(alloc);
    for (x, one) in nodes.iter().enumerate() {
        for (y, other) in nodes.iter().enumerate() {
            let is_ordered = is_reached(&after, x, y) || is_reached(&after, y, x);
            if x < y && conflict(one, other) && !is_ordered {
                found
                    .push((lines_of(one, other), race_of(one, other)))
                    .expect(rt, "memory");
            }
        }
    }
    found
}

/// The lines of the accesses that race, the smaller first.
fn race_pairs(rt: &impl Abort, alloc: Global, nodes: &[Node<'_>]) -> Vec<(u32, u32)> {
    let mut pairs = Vec::new(alloc);
    for (lines, _) in &races(rt, alloc, nodes) {
        pairs.push(*lines).expect(rt, "memory");
    }
    pairs.sort().expect(rt, "memory");
    pairs
}

/// The report of the race pairs.
fn report(rt: &impl Abort, alloc: Global, pairs: &[(u32, u32)]) -> String {
    let mut text = String::new(alloc);
    for (line, other) in pairs {
        write!(text, "race {line} {other}\n").expect(rt, "memory");
    }
    let count = pairs.len();
    write!(text, "races {count}\n").expect(rt, "memory");
    text
}

/// How many segments the tasks have.
fn segments(tasks: &[Task]) -> usize {
    let mut count: usize = 0;
    for task in tasks {
        let mut is_open = false;
        for record in task.records.iter() {
            if record.0 <= WRITE && !is_open {
                count = count.wrapping_add(1);
            }
            is_open = record.0 <= WRITE || (is_open && record.0 != REGION && record.0 != BARRIER);
        }
    }
    count
}

/// Some lane at the greatest depth passes a barrier.
fn has_deep_barrier(tasks: &[Task]) -> bool {
    for task in tasks {
        if task.steps.len() == 4 && task.barriers > 0 {
            return true;
        }
    }
    false
}

/// The records of the run.
fn nodes_of<'a>(rt: &impl Abort, alloc: Global, tasks: &'a [Task]) -> Vec<Node<'a>> {
    let mut nodes = Vec::new(alloc);
    let mut row: u32 = 0;
    for task in tasks {
        row = row.wrapping_add(1);
        add_nodes(rt, &mut nodes, row, task);
    }
    nodes
}

/// The report of the run's race pairs.
fn due_report(rt: &impl Abort, alloc: Global, tasks: &[Task]) -> String {
    let nodes = nodes_of(rt, alloc, tasks);
    let pairs = race_pairs(rt, alloc, &nodes);
    report(rt, alloc, &pairs)
}

#[test]
fn races_are_those_of_a_search_of_the_graph(rt: HostRuntime) {
    let alloc = rt.alloc();
    for state in [3, 6] {
        let tasks = run(&rt, alloc, state, u32::MAX, &[3, 3, 1, 1]);
        assert!(rt; segments(&tasks) >= 300 && has_deep_barrier(&tasks));
        let text = due_report(&rt, alloc, &tasks);
        let mut folder = folder_of_run(&rt, alloc, &tasks);
        each_answers(&rt, alloc, &mut folder, RACES, &text);
    }
}

/// The byte at which two records are confirmed to race.
fn confirmed(
    alloc: Global,
    folder: &mut MemFolder,
    x: &Node<'_>,
    y: &Node<'_>,
) -> Option<Option<u64>> {
    confirm(alloc, folder, "d", x.row, number_of(x), y.row, number_of(y)).ok()
}

/// The byte at which these two are to race: the races are in order of their first records, and then of the second ones.
fn due_byte(found: &[Race], x: &Node<'_>, y: &Node<'_>) -> Option<u64> {
    for (_, pair) in found {
        let is_it = pair.first_row == x.row
            && pair.first == number_of(x)
            && pair.second_row == y.row
            && pair.second == number_of(y);
        if is_it {
            return Some(pair.byte);
        }
    }
    None
}

/// How many of each two records of the run are confirmed otherwise than the search says, in either order.
fn others(alloc: Global, folder: &mut MemFolder, nodes: &[Node<'_>], found: &[Race]) -> usize {
    let mut others: usize = 0;
    for x in nodes {
        for y in nodes {
            let due = due_byte(found, x, y).or(due_byte(found, y, x));
            if confirmed(alloc, folder, x, y) != Some(due) {
                others = others.wrapping_add(1);
            }
        }
    }
    others
}

/// The first of the races in these lines.
fn least(found: &[Race], lines: (u32, u32)) -> Option<RacePair> {
    for (beside, pair) in found {
        if *beside == lines {
            return Some(*pair);
        }
    }
    None
}

/// How many pairs of lines have another least race than the search says.
fn other_least(alloc: Global, folder: &mut MemFolder, found: &[Race]) -> usize {
    let mut others: usize = 0;
    for low in 99..104 {
        for high in low..104 {
            let is_due = match explain(alloc, folder, "d", low, high) {
                Ok(pair) => pair == least(found, (low, high)),
                Err(_) => false,
            };
            others = others.wrapping_add(usize::from(!is_due));
        }
    }
    others
}

#[test]
fn witnesses_are_those_of_a_search_of_the_graph(rt: HostRuntime) {
    let alloc = rt.alloc();
    for state in 1..11 {
        let tasks = run(&rt, alloc, state, 3, &[2, 1, 0, 0]);
        let nodes = nodes_of(&rt, alloc, &tasks);
        let found = races(&rt, alloc, &nodes);
        let mut folder = folder_of_run(&rt, alloc, &tasks);
        assert!(rt; others(alloc, &mut folder, &nodes, &found) == 0);
        assert!(rt; other_least(alloc, &mut folder, &found) == 0);
    }
}
