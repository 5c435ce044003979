//! A folder gone over region by region.
ghost use Rattle.std.specs.Prelude.{◌≡◌, ◌≤◌, ◌<◌, ◌↔◌, ℕ, List, All, None, length, IfOk, IfErr, IsErrOf, IsTrue, OnErr};
ghost use Rattle.sw_base.specs.Environment.{WhereTold};
ghost use Rattle.sw_base.specs.OnlyReads.{OnlyReads};
ghost use Rattle.log_format.specs.declared.format.Format.{Format};
ghost use Rattle.log_format.specs.declared.format.TheConstants.{FORMAT};
ghost use Rattle.race_model.specs.Trace.{Trace};
ghost use Rattle.race_model.specs.IndexFault.{AreRows};
ghost use Rattle.log_segment.specs.Regions.{IsUnderRegion};
ghost use Rattle.log_walk.specs.Ahead.{IsAhead};
ghost use Rattle.log_walk.specs.Stack.{IsStackAfter};
ghost use Rattle.log_walk.specs.Sweep.{AnswersNext, AreRegions, BeginsSweep, FailsNow, IsUnderWay, RefusesIndexOrRoot, WalksRegion, logs_left};
ghost use Rattle.log_walk.specs.Walk.{TellsFirstBad, RefusesLogOf, Walked};

use crate::ahead::Ahead;
use crate::fault::WalkFault;
use crate::log::walk_log;
use crate::stack::Stack;
use crate::taking::walk_next;
use crate::together::read_ahead;
use log_format::{FORMAT, Format};
use log_index::{Row as IndexRow, read_index_as};
use log_segment::Segment;
use std::alloc::Global;
use std::marker::{Model, Sync};
use std::thread::Threads;
use sw_base::{Folder, Path, Trouble};

/// The logs of a folder, gone over once: the root's first, and then those of one region of the root at a time. It keeps no
/// record and no segment.
#[derive(Drop)]
pub struct Sweep {
    format: Format,
    dir: String,
    rows: Vec<IndexRow>,
    stack: Stack,
    /// The root's region that comes next.
    region: u64,
    /// What `next` refused.
    refused: Option<WalkFault>,
}

impl Model for Sweep {
    ghost use Rattle.std.specs.Prelude.{string_bytes};
    ghost use Rattle.log_walk.specs.SweepValue.{SweepValue};

    ghost Value = { SweepValue };

    ghost view = { λ s. record {
      format = s.format;
      dir = string_bytes s.dir;
      rows = s.rows.items;
      region = s.region;
      stack = s.stack;
      refused = s.refused;
    } };
}

/// Whether the task is under the root's region of this number.
pub fn is_under(path: &Path, region: u64) -> bool
    ensures { IsTrue result ↔ IsUnderRegion region path.now }
{
    match path.steps().first() {
        Some(step) => u64::from(step.region) == region,
        None => false,
    }
}

/// Goes over the logs of the root's next region. Some may have been read before their turns.
fn walk_region<F: Folder>(
    alloc: Global,
    format: Format,
    folder: &mut F,
    dir: &str,
    rows: &[IndexRow],
    stack: &mut Stack,
    region: u64,
    mut ahead: Vec<Ahead>,
) -> Result<Vec<Segment>, WalkFault>
    requires rows { AreRows rows.now }
    requires read { All (IsAhead format (F.state folder.old).content dir.now rows.now) ahead.items }
    requires fits { (trace : Trace) × IsStackAfter format rows.now stack.old trace }
    requires ahead { stack.old.place < length rows.now }
    ensures walks { (trace : Trace) → IsStackAfter format rows.now stack.old trace → AreRegions region rows.now trace
        → IfOk result (λ found. WalksRegion format (F.state folder.old).content dir.now rows.now region stack.new trace found.items) }
    ensures refused { (trace : Trace) → IsStackAfter format rows.now stack.old trace → WhereTold (F.state folder.old).content (λ c. Walked format c.held dir.now rows.now trace)
        → IfErr result (λ e. RefusesLogOf (IsUnderRegion region) e × WhereTold (F.state folder.old).content (λ c. TellsFirstBad format c.held dir.now e)) }
    ensures reads { OnlyReads F.Folder folder.old folder.new (IsErrOf result WalkFault.ReadFault) }
{
    let mut found = Vec::new(alloc);
    'tasks: for index in stack.place..rows.len() {
        let row = &rows[index];
        if !is_under(&row.path, region) {
            return Ok(found);
        }
        walk_next(
            alloc, format, folder, dir, rows, stack, &mut ahead, &mut found,
        )?;
    }
    Ok(found)
}

impl Sweep {
    /// Reads the folder's index and goes over the root's log: its segments, where both are good.
    pub fn open<F: Folder>(
        alloc: Global,
        folder: &mut F,
        dir: &str,
    ) -> Result<(Sweep, Vec<Segment>), WalkFault>
        ensures begins { IfOk result (λ pair. BeginsSweep FORMAT (F.state folder.old).content dir.now pair.0 pair.1.items) }
        ensures refused { IfErr result (λ e. RefusesIndexOrRoot e × WhereTold (F.state folder.old).content (λ c. TellsFirstBad FORMAT c.held dir.now e)) }

        ensures reads { OnlyReads F.Folder folder.old folder.new (IsErrOf result WalkFault.ReadFault) }
    {
        Sweep::open_as(alloc, FORMAT, folder, dir)
    }

    /// The same of a folder of this format.
    pub fn open_as<F: Folder>(
        alloc: Global,
        format: Format,
        folder: &mut F,
        dir: &str,
    ) -> Result<(Sweep, Vec<Segment>), WalkFault>
        ensures begins { IfOk result (λ pair. BeginsSweep format (F.state folder.old).content dir.now pair.0 pair.1.items) }
        ensures refused { IfErr result (λ e. RefusesIndexOrRoot e × WhereTold (F.state folder.old).content (λ c. TellsFirstBad format c.held dir.now e)) }

        ensures reads { OnlyReads F.Folder folder.old folder.new (IsErrOf result WalkFault.ReadFault) }
    {
        let mut found = Vec::new(alloc);
        let rows = read_index_as(alloc, format, folder, dir)?;
        let mut stack = Stack::new(alloc)?;
        walk_log(alloc, format, folder, dir, &rows, &mut stack, &mut found)?;
        let sweep = Sweep {
            format,
            dir: String::from_str(alloc, dir)?,
            rows,
            stack,
            region: 0,
            refused: None,
        };
        Ok((sweep, found))
    }

    /// The rows of the index.
    pub fn rows(&self) -> &[IndexRow]
        ensures { result.now ≡ self.now.rows }
    {
        &self.rows
    }

    /// How many logs are ahead.
    pub fn left(&self) -> usize
        ensures { result ≡ logs_left self.now }
    {
        self.rows.len().saturating_sub(self.stack.place)
    }

    /// The segments under the root's next region, where its logs are good; none after the last. A refusal is answered again
    /// by each later call.
    pub fn next<F: Folder>(
        &mut self,
        alloc: Global,
        folder: &mut F,
    ) -> Result<Option<Vec<Segment>>, WalkFault>
        requires swept { IsUnderWay (F.state folder.old).content self.old }
        ensures next { AnswersNext (F.state folder.old).content self.old self.new result }

        ensures reads { OnlyReads F.Folder folder.old folder.new (FailsNow self.old result) }
    {
        self.next_with(alloc, folder, Vec::new(alloc))
    }

    /// The same, by so many workers, each of which reads whole logs.
    pub fn next_by<R: Threads + Sync, F: Folder>(
        &mut self,
        rt: &R,
        alloc: Global,
        folder: &mut F,
        workers: usize,
    ) -> Result<Option<Vec<Segment>>, WalkFault>
        requires workers { 1 ≤ workers }
        requires swept { IsUnderWay (F.state folder.old).content self.old }
        ensures next { AnswersNext (F.state folder.old).content self.old self.new result }

        ensures reads { OnlyReads F.Folder folder.old folder.new (FailsNow self.old result) }
    {
        match self.read(rt, alloc, folder, workers) {
            Ok(ahead) => self.next_with(alloc, folder, ahead),
            Err(trouble) => {
                let refusal = WalkFault::from(trouble);
                self.refused = Some(refusal.copy());
                Err(refusal)
            }
        }
    }

    /// What workers read of the root's next region before the turns of its logs; nothing after a refusal.
    fn read<R: Threads + Sync, F: Folder>(
        &self,
        rt: &R,
        alloc: Global,
        folder: &mut F,
        workers: usize,
    ) -> Result<Vec<Ahead>, Trouble>
        requires rows { AreRows self.now.rows }
        requires workers { 1 ≤ workers }
        ensures ahead { IfOk result (λ ahead. All (IsAhead self.now.format (F.state folder.old).content self.now.dir self.now.rows) ahead.items) }
        ensures fresh { OnErr result (self.now.refused ≡ None) }

        ensures reads { OnlyReads F.Folder folder.old folder.new (IsErrOf result Trouble.Failed) }
    {
        if self.refused.is_some() {
            return Ok(Vec::new(alloc));
        }
        read_ahead(
            rt,
            alloc,
            self.format,
            folder,
            &self.dir,
            &self.rows,
            &self.stack,
            self.region,
            workers,
        )
    }

    /// The segments under the root's next region, of which some logs were read before their turns.
    fn next_with<F: Folder>(
        &mut self,
        alloc: Global,
        folder: &mut F,
        ahead: Vec<Ahead>,
    ) -> Result<Option<Vec<Segment>>, WalkFault>
        requires read { All (IsAhead self.old.format (F.state folder.old).content self.old.dir self.old.rows) ahead.items }
        requires swept { IsUnderWay (F.state folder.old).content self.old }
        ensures next { AnswersNext (F.state folder.old).content self.old self.new result }

        ensures reads { OnlyReads F.Folder folder.old folder.new (FailsNow self.old result) }
    {
        if let Some(refusal) = &self.refused {
            return Err(refusal.copy());
        }
        if self.stack.place >= self.rows.len() {
            return Ok(None);
        }
        match walk_region(
            alloc,
            self.format,
            folder,
            &self.dir,
            &self.rows,
            &mut self.stack,
            self.region,
            ahead,
        ) {
            Ok(found) => {
                self.region += 1;
                Ok(Some(found))
            }
            Err(refusal) => {
                self.refused = Some(refusal.copy());
                Err(refusal)
            }
        }
    }
}
