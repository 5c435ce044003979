ghost use Rattle.std.specs.Prelude.{[], ◌≡◌, IsTrue, OnOk};
ghost use Rattle.pair_compare.specs.Sweeps.{AddsHull, AreOfKind, DropsBefore, DropsEnded, IsActive};

use crate::hull::Hull;
use std::alloc::Global;
use sw_base::Memory;

/// How many hulls there may be before it is looked for those that have ended.
const FEW: usize = 64;

/// Some hulls. Those that have ended may still be there.
#[derive(Drop)]
pub struct Hulls<'r> {
    pub list: Vec<Hull<'r>>,
    /// How many there may be before those that have ended are dropped.
    pub room: usize,
}

impl<'r> Hulls<'r> {
    fn new(alloc: Global) -> Hulls<'r>
        ensures { result.list.items ≡ [] }
    {
        Hulls {
            list: Vec::new(alloc),
            room: FEW,
        }
    }

    // Drops what ends before the byte where it is asked for, or where there are many.
    fn settle(&mut self, low: u64, all: bool)
        ensures { DropsBefore low all self.old.list.items self.new.list.items }
    {
        if !all && self.list.len() < self.room {
            return;
        }
        self.list.retain(|other| other.high >= low);
        self.room = FEW.max(self.list.len().saturating_mul(2));
    }
}

/// The hulls of a sweep that the next ones may meet. Reads don't meet reads, nor updates updates, however many there are.
#[derive(Drop)]
pub struct Active<'r> {
    pub reads: Hulls<'r>,
    pub updates: Hulls<'r>,
    pub writes: Hulls<'r>,
}

impl<'r> Active<'r> {
    pub fn new(alloc: Global) -> Active<'r>
        ensures none { (hull : _) → IsActive result hull → ⊥ }
        ensures kinds { AreOfKind result }
    {
        Active {
            reads: Hulls::new(alloc),
            updates: Hulls::new(alloc),
            writes: Hulls::new(alloc),
        }
    }

    /// Whether there is no hull.
    pub fn is_empty(&self) -> bool
        ensures { IsTrue result → (hull : _) → IsActive self.now hull → ⊥ }
    {
        self.reads.list.is_empty() && self.updates.list.is_empty() && self.writes.list.is_empty()
    }

    /// Drops what ends before this hull, but only where it may meet them, or where there are many.
    pub fn settle(&mut self, hull: &Hull)
        requires { AreOfKind self.old }
        ensures { DropsEnded hull.now self.old self.new }
    {
        self.writes.settle(hull.low, true);
        self.updates.settle(hull.low, !hull.run.atomic);
        self.reads.settle(hull.low, hull.run.write);
    }

    pub fn put(&mut self, hull: &Hull<'r>) -> Result<(), Memory>
        requires { AreOfKind self.old }
        ensures { OnOk result (AddsHull hull.now self.old self.new) }
    {
        if hull.run.atomic {
            self.updates.list.push(*hull)?;
            return Ok(());
        }
        if hull.run.write {
            self.writes.list.push(*hull)?;
            return Ok(());
        }
        self.reads.list.push(*hull)?;
        Ok(())
    }
}
