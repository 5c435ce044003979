//! Statements that give a variable or an element a value.
ghost use Rattle.std.specs.Prelude.{◌≡◌, List, ℤ};
ghost use Rattle.kernel_syntax.specs.Bounds.{IsBoundedTerm, IsPlace};
ghost use Rattle.kernel_syntax.specs.Program.{term_of};
ghost use Rattle.kernel_syntax.specs.Tree as tree;
ghost use Rattle.kernel_model.specs.Changing.{changing, kind_of};
ghost use Rattle.kernel_model.specs.Trace.{changed, run};
ghost use Rattle.kernel_model.specs.Value.{element_at};
ghost use Rattle.lane_runner.specs.Going.{CanGo, Goes, IsSameLog, site};

use crate::frame::Frame;
use crate::stop::{Halt, Stop};
use crate::track::Track;
use crate::value::value;
use crate::world::World;
use kernel_model::Change;
use kernel_syntax::{Expr, fit};
use std::alloc::Global;
use std::marker::Send;
use std::sync::Wait;
use std::thread::Threads;
use sw_base::Log;

// Stores or adds an amount, after the index and the value.
fn put_value<L: Log, R: Threads + Wait + Copy + Send + 'static>(
    rt: &R,
    alloc: Global,
    world: &World,
    track: &mut Track<L>,
    change: Change,
    array: u32,
    index: i64,
    amount: i64,
    line: u32,
    place: u16,
) -> Result<(), Halt>
    requires can { CanGo world.now track.old }
    requires bounded { IsPlace line place }
    ensures goes { (slots : List ℤ) → Goes world.now (changed (kind_of change) (element_at world.now.arrays array index) amount line place) slots slots track.old track.new result }
    ensures log { IsSameLog track.old.buffer track.new.buffer }
    ensures tally { track.new.tally ≡ track.old.tally }
{
    let Some(element) = world.element(array, index) else {
        return Err(Halt::Own(Stop::Index { line }));
    };
    let fitted = fit(amount, element.width);
    track.change(rt, alloc, world, change, &element, fitted, line, place)
}

impl<L: Log> Frame<L> {
    /// Executes `let` or an assignment.
    pub fn set<R: Threads + Wait + Copy + Send + 'static>(
        &mut self,
        rt: &R,
        alloc: Global,
        world: &World,
        slot: u32,
        expr: &Expr,
    ) -> Result<(), Halt>
        requires can { CanGo world.now self.old.track }
        requires bounded { IsBoundedTerm (term_of expr.now) }
        ensures goes { Goes world.now (run (site world.now) (tree.Set slot (term_of expr.now) tree.Done)) self.old.locals.slots.items self.new.locals.slots.items self.old.track self.new.track result }
        ensures log { IsSameLog self.old.track.buffer self.new.track.buffer }
        ensures tally { self.new.track.tally ≡ self.old.track.tally }
    {
        let number = value(rt, alloc, world, &self.locals, &mut self.track, expr)?;
        self.locals.set(slot, number);
        Ok(())
    }

    /// Executes a store or an update.
    pub fn change<R: Threads + Wait + Copy + Send + 'static>(
        &mut self,
        rt: &R,
        alloc: Global,
        world: &World,
        change: Change,
        array: u32,
        index: &Expr,
        expr: &Expr,
        line: u32,
        place: u16,
    ) -> Result<(), Halt>
        requires can { CanGo world.now self.old.track }
        requires index { IsBoundedTerm (term_of index.now) }
        requires bounded { IsBoundedTerm (term_of expr.now) }
        requires place { IsPlace line place }
        ensures goes { Goes world.now (run (site world.now) (changing change array (term_of index.now) (term_of expr.now) line place tree.Done)) self.old.locals.slots.items self.old.locals.slots.items self.old.track self.new.track result }
        ensures log { IsSameLog self.old.track.buffer self.new.track.buffer }
        ensures tally { self.new.track.tally ≡ self.old.track.tally }
        ensures locals { self.new.locals ≡ self.old.locals }
    {
        let at = value(rt, alloc, world, &self.locals, &mut self.track, index)?;
        let number = value(rt, alloc, world, &self.locals, &mut self.track, expr)?;
        put_value(
            rt,
            alloc,
            world,
            &mut self.track,
            change,
            array,
            at,
            change.amount(number),
            line,
            place,
        )
    }
}
