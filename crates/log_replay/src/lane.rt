//! A task that follows its log: its locals, the regions that it forked, and the log, read record by record.
ghost use Rattle.std.specs.Prelude.{◌≡◌, ◌↔◌, ◌+◌, ◌≤◌, ◌<◌, min, List, IfOk, IsTrue, slice_set, IsErrOf};
ghost use Rattle.sw_base.specs.OnlyReads.{OnlyReads};
ghost use Rattle.log_format.specs.declared.record.Kind.{Kind};
ghost use Rattle.log_format.specs.declared.record.Record.{Record};
ghost use Rattle.log_format.specs.declared.record.Kind.TheVariants as kind;
ghost use Rattle.kernel_model.specs.State.{put, event};
ghost use Rattle.kernel_model.specs.Trace.{draw};
ghost use Rattle.kernel_model.specs.Value.{access, read};
ghost use Rattle.log_format.specs.Fitting.{IsWidth};
ghost use Rattle.log_replay.specs.Following.{FollowsPart, HasReadTo, IsMark, TakesNext};
ghost use Rattle.log_replay.specs.Forks.{standing};
ghost use Rattle.task_place.specs.Placing.{meant};
ghost use Rattle.log_replay.specs.declared.stray.Stray.TheVariants as stray;

use crate::forked::Forked;
use crate::stray::Stray;
use kernel_syntax::fit;
use log_format::{Kind, Record};
use log_reader::LogReader;
use std::alloc::Global;
use sw_base::Folder;
use task_place::{Element, Locals, access, event};

/// A task that follows its log.
#[derive(Drop)]
pub struct ReplayLane<'k> {
    pub locals: Locals,
    pub forks: Vec<Forked<'k>>,
    pub reader: LogReader,
    /// How many records were read.
    pub count: u32,
}

fn is_same_kind(a: Kind, b: Kind) -> bool
    ensures { IsTrue result ↔ (a ≡ b) }
{
    a == b
}

pub(crate) fn is_same(a: &Record, b: &Record) -> bool
    ensures { IsTrue result ↔ (a.now ≡ b.now) }
{
    is_same_kind(a.kind, b.kind)
        && a.size == b.size
        && a.site == b.site
        && a.line == b.line
        && a.addr == b.addr
        && a.value == b.value
}

impl<'k> ReplayLane<'k> {
    /// Sets a local variable.
    pub fn set(&mut self, slot: u32, value: i64)
        ensures set { standing self.new ≡ record (standing self.old) { slots = slice_set self.old.locals.slots.items slot value } }
        ensures reader { self.new.reader ≡ self.old.reader }
    {
        self.locals.set(slot, value);
    }

    /// The task leaves its log here: the next record isn't the trace's.
    pub fn stray(&self) -> Stray
        ensures { result ≡ stray.Differs (min (self.now.count + 1) 4294967295) }
    {
        Stray::Differs {
            number: self.count.saturating_add(1),
        }
    }

    // The next record of the log.
    pub(crate) fn next<F: Folder>(&mut self, alloc: Global, folder: &mut F) -> Result<Record, Stray>
        ensures takes { (log done rest : List Record) → HasReadTo (F.state folder.old) log done rest (standing self.old) → TakesNext (F.state folder.old) rest (standing self.old) (standing self.new) result }
        ensures less { IfOk result (λ _. self.new.reader.left < self.old.reader.left) }
        ensures reads { OnlyReads F.Folder folder.old folder.new (IsErrOf result Stray.ReadFault) }
    {
        match self.reader.next(alloc, folder)? {
            Some(next) => {
                self.count = self.count.saturating_add(1);
                Ok(next)
            }
            None => Err(self.stray()),
        }
    }

    /// Reads an element: its value is that of the log's next record, which is to be this read.
    pub fn read<F: Folder>(
        &mut self,
        alloc: Global,
        folder: &mut F,
        element: &Element,
        line: u32,
        site: u16,
    ) -> Result<i64, Stray>
        requires { IsWidth element.now.width }
        ensures follows { FollowsPart (F.state folder.old) (read (meant element.now) site line) (standing self.old) (standing self.new) result }
        ensures fewer { IfOk result (λ _. self.new.reader.left ≤ self.old.reader.left) }
        ensures reads { OnlyReads F.Folder folder.old folder.new (IsErrOf result Stray.ReadFault) }
    {
        let next = self.next(alloc, folder)?;
        let value = fit(next.value.cast_signed(), element.width);
        let due = access(Kind::Read, element, line, site, value);
        if !is_same(&next, &due) {
            return Err(Stray::Differs { number: self.count });
        }
        Ok(value)
    }

    /// Puts a record that tells no value: the log's next one is to be the same.
    pub fn put<F: Folder>(
        &mut self,
        alloc: Global,
        folder: &mut F,
        due: Record,
    ) -> Result<(), Stray>
        requires { IsMark due.kind }
        ensures follows { FollowsPart (F.state folder.old) (put due) (standing self.old) (standing self.new) result }
        ensures fewer { IfOk result (λ _. self.new.reader.left ≤ self.old.reader.left) }
        ensures reads { OnlyReads F.Folder folder.old folder.new (IsErrOf result Stray.ReadFault) }
    {
        let next = self.next(alloc, folder)?;
        if !is_same(&next, &due) {
            return Err(Stray::Differs { number: self.count });
        }
        Ok(())
    }

    /// Draws a chunk of a loop of so many: its number is that of the log's next record, which is to be this draw.
    pub fn draw<F: Folder>(
        &mut self,
        alloc: Global,
        folder: &mut F,
        line: u32,
        chunks: u64,
    ) -> Result<u64, Stray>
        ensures follows { FollowsPart (F.state folder.old) (draw line chunks) (standing self.old) (standing self.new) result }
        ensures within { IfOk result (λ number. number ≤ chunks) }
        ensures less { IfOk result (λ _. self.new.reader.left < self.old.reader.left) }
        ensures reads { OnlyReads F.Folder folder.old folder.new (IsErrOf result Stray.ReadFault) }
    {
        let next = self.next(alloc, folder)?;
        let due = event(Kind::Chunk, line, next.addr.min(chunks), chunks);
        if !is_same(&next, &due) {
            return Err(Stray::Differs { number: self.count });
        }
        Ok(next.addr)
    }
}
