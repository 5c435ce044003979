//! Going over the records of one log.
ghost use Rattle.std.specs.Prelude.{◌≡◌, ◌≢◌, ◌↔◌, true, cond, ◌+◌, ◌-◌, ◌^◌, ◌<◌, ◌≤◌, ℕ, List, [], ◌∷◌, ◌++◌, length, Some, None, OnOk, IfOk};
ghost use Rattle.std.specs.Option.{ForSome};
ghost use Rattle.log_format.specs.Fitting.{IsWidth};
ghost use Rattle.log_format.specs.Limit.{record_limit};
ghost use Rattle.sw_base.specs.declared.path.Step.{Step};
ghost use Rattle.log_format.specs.declared.record.Record.{Record};
ghost use Rattle.log_format.specs.Table.{HasAddress, HasSize};
ghost use Rattle.race_model.specs.Label.{Triple};
ghost use Rattle.race_model.specs.Race.{held_after};
ghost use Rattle.race_model.specs.Segment.{Event};
ghost use Rattle.race_model.specs.Trace.{Logs, is_region_kind};
ghost use Rattle.span_label.specs.Levels.{own_level};
ghost use Rattle.stride_summary.specs.Summary.{IsSummed};
ghost use Rattle.stride_summary.specs.declared.summary.Summary.{Summary};
ghost use Rattle.stride_summary.specs.declared.key.Key.{Key};
ghost use Rattle.log_segment.specs.Accesses.{key_at};
ghost use Rattle.log_segment.specs.declared.segment.Segment.{Segment};
ghost use Rattle.log_segment.specs.Walking.{AddsSegments, Follows, GainsAccess, HasSum, IsClosed, IsNextOf, IsOwnAfter, OrdersInLane, begun_after, ended_by, event_after, has_summary, open_after};

use crate::segment::Segment;
use crate::spare::Spare;
use log_format::{Kind, Record};
use mutex_set::Held;
use span_label::Label;
use std::alloc::Global;
use stride_summary::{Access, Summary};
use sw_base::{Memory, Path};

/// What is kept of the records of a log that were gone over.
#[derive(Drop)]
pub struct Walk {
    /// The label of the next record.
    pub label: Label,
    /// The number of the first record after the last Region or Barrier.
    pub first: u32,
    /// The accesses since then, if there are any.
    pub summary: Option<Summary>,
    /// The label of each Region so far.
    pub forks: Vec<Label>,
    /// A summary for the next accesses, so that an interval needs no room of its own.
    pub spare: Option<Spare>,
}

impl Walk {
    /// Before the first record of a log.
    pub fn new(alloc: Global, label: Label) -> Walk
        ensures label { result.label ≡ label }
        ensures first { result.first ≡ 1 }
        ensures summary { result.summary ≡ None }
        ensures forks { result.forks.items ≡ [] }
    {
        Walk {
            label,
            first: 1,
            summary: None,
            forks: Vec::new(alloc),
            spare: None,
        }
    }

    /// Goes over the next record of the log, which the task does under these mutexes.
    pub fn step(
        &mut self,
        alloc: Global,
        path: &Path,
        number: u32,
        next: &Record,
        held: &Held,
        found: &mut Vec<Segment>,
    ) -> Result<(), Memory>
        requires from_one { 1 ≤ number }
        requires number { number ≤ record_limit }
        requires own { IsOwnAfter self.old.label number }
        requires size { HasSize next.now.kind next.now.size }
        requires address { HasAddress next.now.kind next.now }
        requires lane { OrdersInLane next.now.kind path.now }
        ensures own { OnOk result (IsOwnAfter self.new.label (number + 1)) }
        ensures forks { OnOk result (length self.new.forks.items ≡ length self.old.forks.items + cond (is_region_kind next.now.kind) 1 0) }
        ensures begun { OnOk result (has_summary self.new.summary ≡ open_after next.now.kind (has_summary self.old.summary)) }
        ensures follows { (logs : Logs) (before : List Record) (begun : List Event) → IsNextOf logs path.now before next.now → number ≡ length before + 1
            → held.now ≡ held_after [] (before ++ next.now ∷ []) → Follows logs path.now before self.old begun
            → OnOk result (Follows logs path.now (before ++ next.now ∷ []) self.new (begun_after next.now.kind (event_after before next.now) begun)) }
        ensures adds { (logs : Logs) (before : List Record) (begun : List Event) → IsNextOf logs path.now before next.now → number ≡ length before + 1
            → Follows logs path.now before self.old begun
            → OnOk result (AddsSegments logs (ended_by path.now next.now.kind begun) found.old.items found.new.items) }
    {
        match next.kind {
            Kind::Read | Kind::Write | Kind::Update => self.access(alloc, next, held)?,
            Kind::Region => {
                self.close(path, number - 1, found)?;
                self.fork()?;
            }
            Kind::Barrier => {
                self.close(path, number - 1, found)?;
                self.pass();
            }
            Kind::Lock | Kind::Unlock | Kind::Chunk | Kind::End => {}
        }
        Ok(())
    }

    /// Ends what began after the last Region or Barrier: a segment, where it has an access.
    #[inline(never)]
    pub fn close(&mut self, path: &Path, last: u32, found: &mut Vec<Segment>) -> Result<(), Memory>
        requires { last < 2 ^ 32 - 2 }
        ensures empty { OnOk result (self.old.summary ≡ None → found.new.items ≡ found.old.items) }
        ensures added { OnOk result ((summary : Summary) → self.old.summary ≡ Some summary → IsClosed path.now last self.old summary found.old.items found.new.items) }
        ensures first { self.new.first ≡ last + 2 }
        ensures summary { self.new.summary ≡ None }
        ensures same { self.new ≡ record self.old { first = self.new.first; summary = self.new.summary; spare = self.new.spare } }
    {
        let first = self.first;
        self.first = last + 2;
        let Some(mut summary) = self.summary.take() else {
            return Ok(());
        };
        let runs = summary.take_runs();
        self.spare = Some(Spare::of(summary));
        found.push(Segment {
            path: path.copy(),
            first,
            last,
            label: self.label.copy(),
            runs,
        })?;
        Ok(())
    }

    /// Whether an access was added since the last Region or Barrier.
    pub fn is_open(&self) -> bool
        ensures { result ≡ has_summary self.now.summary }
    {
        self.summary.is_some()
    }

    // Begins to add accesses, where none was added since the last Region or Barrier.
    fn begin(&mut self, alloc: Global) -> Result<(), Memory>
        ensures begun { OnOk result (has_summary self.new.summary ≡ true) }
        ensures sums { OnOk result ((key : Key) (address : ℕ) → HasSum self.new.summary key address ↔ HasSum self.old.summary key address) }
        ensures same { self.new ≡ record self.old { summary = self.new.summary; spare = self.new.spare } }
    {
        if self.summary.is_none() {
            self.start(alloc)?;
        }
        Ok(())
    }

    // Takes an empty summary. It stands apart, so that an access needs no room for it.
    #[inline(never)]
    fn start(&mut self, alloc: Global) -> Result<(), Memory>
        ensures begun { OnOk result (has_summary self.new.summary ≡ true) }
        ensures none { OnOk result ((key : Key) (address : ℕ) → HasSum self.new.summary key address → ⊥) }
        ensures same { self.new ≡ record self.old { summary = self.new.summary; spare = self.new.spare } }
    {
        let summary = self.empty_summary(alloc)?;
        self.summary = Some(summary);
        Ok(())
    }

    // A summary of no access: the one that is kept, or a new one.
    fn empty_summary(&mut self, alloc: Global) -> Result<Summary, Memory>
        ensures none { IfOk result (λ summary. (key : Key) (address : ℕ) → IsSummed summary key address → ⊥) }
        ensures same { self.new ≡ record self.old { spare = self.new.spare } }
    {
        match self.spare.take() {
            Some(spare) => Ok(spare.into_summary()),
            None => Summary::new(alloc),
        }
    }

    fn access(&mut self, alloc: Global, event: &Record, held: &Held) -> Result<(), Memory>
        requires size { IsWidth event.now.size }
        requires end { event.now.addr + event.now.size ≤ 2 ^ 48 }
        ensures added { OnOk result (GainsAccess self.old.summary self.new.summary (key_at event.now held.now) event.now.addr) }
        ensures same { self.new ≡ record self.old { summary = self.new.summary; spare = self.new.spare } }
    {
        let access = Access {
            write: event.kind.is_change(),
            atomic: event.kind.is_update(),
            size: event.size,
            site: event.site,
            line: event.line,
            addr: event.addr,
            held,
        };
        self.begin(alloc)?;
        if let Some(summary) = &mut self.summary {
            summary.add(&access)?;
        }
        Ok(())
    }

    /// Forks a region, and joins it.
    #[inline(never)]
    fn fork(&mut self) -> Result<(), Memory>
        requires { ForSome (own_level self.old.label) (λ own. own.offset < 2 ^ 40) }
        ensures forks { OnOk result (self.new.forks.items ≡ self.old.forks.items ++ self.old.label ∷ []) }
        ensures levels { OnOk result (length self.new.label ≡ length self.old.label) }
        ensures raised { OnOk result ((above : List Triple) (own : Triple) → self.old.label ≡ above ++ own ∷ []
            → self.new.label ≡ above ++ record own { offset = own.offset + own.span } ∷ []) }
        ensures same { self.new ≡ record self.old { label = self.new.label; forks = self.new.forks } }
    {
        self.forks.push(self.label.copy())?;
        self.label = self.label.joined();
        Ok(())
    }

    /// Passes a barrier.
    #[inline(never)]
    fn pass(&mut self)
        requires { ForSome (own_level self.old.label) (λ own. own.barrier < 2 ^ 32 - 1) }
        ensures levels { length self.new.label ≡ length self.old.label }
        ensures raised { (above : List Triple) (own : Triple) → self.old.label ≡ above ++ own ∷ []
            → self.new.label ≡ above ++ record own { barrier = own.barrier + 1 } ∷ [] }
        ensures same { self.new ≡ record self.old { label = self.new.label } }
    {
        self.label = self.label.barrier();
    }
}
