//! A log that is read before its turn, as if its team owed no barriers.
ghost use Rattle.std.specs.Prelude.{◌≡◌, ◌≤◌, ℕ, List, All, Option, length};
ghost use Rattle.sw_base.specs.Environment.{Content};
ghost use Rattle.log_format.specs.declared.format.Format.{Format};
ghost use Rattle.race_model.specs.Row.{Row};
ghost use Rattle.log_walk.specs.Ahead.{IsJob};

use crate::check::{Checked, LogFault, check_log};
use crate::task::Task;
use crate::window::Window;
use log_format::Format;
use log_segment::Segment;
use span_label::Label;
use std::alloc::Global;
use std::marker::Sync;
use std::thread;
use std::thread::Threads;
use sw_base::File;

/// What a log is read by before its turn.
#[derive(Drop)]
pub struct Source {
    /// The number of its row, from 0.
    pub place: usize,
    /// Its task, as if its team owed no barriers.
    pub task: Task,
    /// The label of its first record.
    pub label: Label,
    /// From how many segments on it is counted, so that it is let go past its share.
    pub opened: u32,
}

/// A log that is good by what its records and its row alone tell, and its segments.
#[derive(Drop)]
pub struct Ahead {
    pub source: Source,
    pub checked: Checked,
    pub found: Vec<Segment>,
}

/// A log that was opened, and what its check answered, if it was gone over.
#[derive(Drop)]
pub struct Job<T: File> {
    pub source: Source,
    pub file: T,
    pub answer: Option<Result<Checked, LogFault>>,
    pub found: Vec<Segment>,
}

impl<T: File> Job<T> {
    /// Goes over the log, if it wasn't yet.
    fn go(&mut self, alloc: Global, format: Format, window: &mut Window)
        requires so { (told : Option Content) × (dir : List ℕ) × (rows : List Row) × IsJob T.rest T.faults format told dir rows self.old }
        ensures goes { (told : Option Content) (dir : List ℕ) (rows : List Row) → IsJob T.rest T.faults format told dir rows self.old → IsJob T.rest T.faults format told dir rows self.new }
    {
        if self.answer.is_some() {
            return;
        }
        let source = &self.source;
        self.answer = Some(check_log(
            alloc,
            format,
            &mut self.file,
            window,
            &source.task,
            source.opened,
            source.label.copy(),
            &mut self.found,
        ));
    }

    /// Whether a record of the log breaks a rule, or it couldn't be read.
    fn is_bad(&self) -> bool {
        matches!(
            &self.answer,
            Some(Err(LogFault::Bad { .. } | LogFault::ReadFault))
        )
    }
}

/// Goes over logs, one after another through one window, up to the first that is bad: none after it has a turn.
fn go_in_turn<T: File>(alloc: Global, format: Format, jobs: &mut [Job<T>])
    requires so { (told : Option Content) × (dir : List ℕ) × (rows : List Row) × All (IsJob T.rest T.faults format told dir rows) jobs.old }
    ensures goes { (told : Option Content) (dir : List ℕ) (rows : List Row) → All (IsJob T.rest T.faults format told dir rows) jobs.old → All (IsJob T.rest T.faults format told dir rows) jobs.new }
{
    let Ok(mut window) = Window::new(alloc) else {
        return;
    };
    for job in jobs.iter_mut() {
        job.go(alloc, format, &mut window);
        if job.is_bad() {
            return;
        }
    }
}

/// Goes over the logs, by so many workers at once.
pub fn go_all<R: Threads + Sync, T: File>(
    rt: &R,
    alloc: Global,
    format: Format,
    jobs: &mut [Job<T>],
    workers: usize,
)
    requires workers { 1 ≤ workers }
    requires so { (told : Option Content) × (dir : List ℕ) × (rows : List Row) × All (IsJob T.rest T.faults format told dir rows) jobs.old }
    ensures goes { (told : Option Content) (dir : List ℕ) (rows : List Row) → All (IsJob T.rest T.faults format told dir rows) jobs.old → All (IsJob T.rest T.faults format told dir rows) jobs.new }
{
    let size = jobs.len().div_ceil(workers).max(1);
    thread::for_each_chunk_mut(
        rt,
        jobs,
        size,
        &|_from: usize, part: &mut [Job<T>]|
            requires so { (told : Option Content) × (dir : List ℕ) × (rows : List Row) × All (IsJob T.rest T.faults format told dir rows) part.old }
            ensures goes { (told : Option Content) (dir : List ℕ) (rows : List Row) → All (IsJob T.rest T.faults format told dir rows) part.old → All (IsJob T.rest T.faults format told dir rows) part.new }
            ensures length { length part.new ≡ length part.old }
        {
            go_in_turn(alloc, format, part);
        },
    );
}
