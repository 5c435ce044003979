//! The value of an expression.
ghost use Rattle.std.specs.Prelude.{◌≡◌, List, ℤ};
ghost use Rattle.kernel_syntax.specs.Bounds.{IsBoundedTerm, IsPlace};
ghost use Rattle.kernel_syntax.specs.Program.{term_of};
ghost use Rattle.kernel_model.specs.Value.{element_at, loaded, value};
ghost use Rattle.lane_runner.specs.Compound.{IsCompound};
ghost use Rattle.lane_runner.specs.Going.{CanGo, Goes, IsSameLog, lane_answer, site};
ghost use Rattle.task_place.specs.Operands.{with_left};

use crate::stop::Stop;
use crate::track::Track;
use crate::world::World;
use kernel_model::negate;
use kernel_syntax::Expr;
use std::alloc::Global;
use std::marker::Send;
use std::sync::Wait;
use std::thread::Threads;
use sw_base::Log;
use task_place::{Locals, left_by, left_depth, operate};

// How many left operands, one within the other, are followed by calls. Deeper ones are followed by halves, which is slower and needs less stack.
const CALLS: usize = 32;

// Reads an element, after its index.
fn load<L: Log, R: Threads + Wait + Copy + Send + 'static>(
    rt: &R,
    alloc: Global,
    world: &World,
    track: &mut Track<L>,
    array: u32,
    index: i64,
    line: u32,
    place: u16,
) -> Result<i64, Stop>
    requires can { CanGo world.now track.old }
    requires bounded { IsPlace line place }
    ensures goes { (slots : List ℤ) → Goes world.now (loaded (element_at world.now.arrays array index) line place) slots slots track.old track.new (lane_answer result) }
    ensures log { IsSameLog track.old.buffer track.new.buffer }
    ensures tally { track.new.tally ≡ track.old.tally }
{
    let Some(element) = world.element(array, index) else {
        return Err(Stop::Index { line });
    };
    track.read(rt, alloc, world, &element, line, place)
}

// The value of an operation from that of its left operand. What is no operation has this value itself.
#[cycle(valuing)]
#[inline(always)]
fn top<L: Log, R: Threads + Wait + Copy + Send + 'static>(
    rt: &R,
    alloc: Global,
    world: &World,
    locals: &Locals,
    track: &mut Track<L>,
    expr: &Expr,
    first: i64,
    calls: usize,
) -> Result<i64, Stop>
    requires can { CanGo world.now track.old }
    requires bounded { IsBoundedTerm (term_of expr.now) }
    ensures goes { Goes world.now (value (site world.now) (with_left (term_of expr.now) 1 first)) locals.now.slots.items locals.now.slots.items track.old track.new (lane_answer result) }
    ensures log { IsSameLog track.old.buffer track.new.buffer }
    ensures tally { track.new.tally ≡ track.old.tally }
{
    match expr {
        Expr::Binary {
            op,
            line,
            right,
            ..
        } => {
            let second = valued(rt, alloc, world, locals, track, right, calls)?;
            operate(*op, first, second, Stop::DivZero { line: *line })
        }
        _ => Ok(first),
    }
}

// The value of an expression from that of its left operand so many levels below. It is found by halves, so that the depth of the calls grows as the
// logarithm of the levels.
#[cycle(valuing)]
#[inline(never)]
fn climb<L: Log, R: Threads + Wait + Copy + Send + 'static>(
    rt: &R,
    alloc: Global,
    world: &World,
    locals: &Locals,
    track: &mut Track<L>,
    expr: &Expr,
    levels: usize,
    first: i64,
) -> Result<i64, Stop>
    requires can { CanGo world.now track.old }
    requires bounded { IsBoundedTerm (term_of expr.now) }
    ensures goes { Goes world.now (value (site world.now) (with_left (term_of expr.now) levels first)) locals.now.slots.items locals.now.slots.items track.old track.new (lane_answer result) }
    ensures log { IsSameLog track.old.buffer track.new.buffer }
    ensures tally { track.new.tally ≡ track.old.tally }
{
    if levels == 0 {
        return Ok(first);
    }
    if levels == 1 {
        return top(rt, alloc, world, locals, track, expr, first, 0);
    }
    let half = levels / 2;
    let below = left_by(expr, half);
    let middle = climb(rt, alloc, world, locals, track, below, levels - half, first)?;
    climb(rt, alloc, world, locals, track, expr, half, middle)
}

// The value of an expression that loads or computes. It stands apart, so that `value` needs no room for what it keeps.
#[cycle(valuing)]
#[inline(never)]
fn compound<L: Log, R: Threads + Wait + Copy + Send + 'static>(
    rt: &R,
    alloc: Global,
    world: &World,
    locals: &Locals,
    track: &mut Track<L>,
    expr: &Expr,
    calls: usize,
) -> Result<i64, Stop>
    requires compound { IsCompound (term_of expr.now) }
    requires can { CanGo world.now track.old }
    requires bounded { IsBoundedTerm (term_of expr.now) }
    ensures goes { Goes world.now (value (site world.now) (term_of expr.now)) locals.now.slots.items locals.now.slots.items track.old track.new (lane_answer result) }
    ensures log { IsSameLog track.old.buffer track.new.buffer }
    ensures tally { track.new.tally ≡ track.old.tally }
{
    match expr {
        Expr::Load {
            array,
            index,
            line,
            site,
        } => {
            let at = valued(rt, alloc, world, locals, track, index, calls)?;
            load(rt, alloc, world, track, *array, at, *line, *site)
        }
        Expr::Neg(operand) => {
            let negated = valued(rt, alloc, world, locals, track, operand, calls)?;
            Ok(negate(negated))
        }
        Expr::Binary { .. } if calls == 0 => {
            let levels = left_depth(expr);
            let lowest = valued(rt, alloc, world, locals, track, left_by(expr, levels), 0)?;
            climb(rt, alloc, world, locals, track, expr, levels, lowest)
        }
        Expr::Binary { left, .. } => {
            let first = valued(rt, alloc, world, locals, track, left, calls - 1)?;
            top(rt, alloc, world, locals, track, expr, first, calls)
        }
        Expr::Number(_) => unreachable!(),
        Expr::Slot(_) => unreachable!(),
        Expr::Tid => unreachable!(),
        Expr::Span => unreachable!(),
    }
}

// The value of an expression, where so many left operands may still be followed by calls. It is inlined, so that the value of a leaf doesn't go through
// memory.
#[cycle(valuing)]
#[inline(always)]
fn valued<L: Log, R: Threads + Wait + Copy + Send + 'static>(
    rt: &R,
    alloc: Global,
    world: &World,
    locals: &Locals,
    track: &mut Track<L>,
    expr: &Expr,
    calls: usize,
) -> Result<i64, Stop>
    requires can { CanGo world.now track.old }
    requires bounded { IsBoundedTerm (term_of expr.now) }
    ensures goes { Goes world.now (value (site world.now) (term_of expr.now)) locals.now.slots.items locals.now.slots.items track.old track.new (lane_answer result) }
    ensures log { IsSameLog track.old.buffer track.new.buffer }
    ensures tally { track.new.tally ≡ track.old.tally }
{
    match expr {
        Expr::Number(number) => Ok(*number),
        Expr::Slot(slot) => Ok(locals.get(*slot)),
        Expr::Tid => Ok(i64::from(world.lane())),
        Expr::Span => Ok(i64::from(world.span())),
        Expr::Load { .. } => compound(rt, alloc, world, locals, track, expr, calls),
        Expr::Neg(_) => compound(rt, alloc, world, locals, track, expr, calls),
        Expr::Binary { .. } => compound(rt, alloc, world, locals, track, expr, calls),
    }
}

/// The value of an expression. Its reads are recorded.
#[inline(always)]
pub fn value<L: Log, R: Threads + Wait + Copy + Send + 'static>(
    rt: &R,
    alloc: Global,
    world: &World,
    locals: &Locals,
    track: &mut Track<L>,
    expr: &Expr,
) -> Result<i64, Stop>
    requires can { CanGo world.now track.old }
    requires bounded { IsBoundedTerm (term_of expr.now) }
    ensures goes { Goes world.now (value (site world.now) (term_of expr.now)) locals.now.slots.items locals.now.slots.items track.old track.new (lane_answer result) }
    ensures log { IsSameLog track.old.buffer track.new.buffer }
    ensures tally { track.new.tally ≡ track.old.tally }
{
    valued(rt, alloc, world, locals, track, expr, CALLS)
}
