ghost use Rattle.std.specs.Prelude.{◌≡◌, ◌<◌, ◌≤◌, ℕ, All, Contains, IsTrue, false, length, slice_index_or, OnOk};
ghost use Rattle.std.specs.List.Sorted.{IsNonDecreasingBy};
ghost use Rattle.pair_compare.specs.Conflict.{AddsPairs, IsRunConflict, OneHas};
ghost use Rattle.pair_compare.specs.Sweeps.{AddsHulls, AreOfKind, OpensHulls, DropsEnded, IsActivePair, IsHullOf, IsHullPair, IsMetPair, IsReachedPair, DropsOnlyEnded};
ghost use Rattle.pair_compare.specs.declared.hull.Hull.{Hull};

use crate::active::Active;
use crate::conflict::add_conflict;
use crate::hull::Hull;
use std::alloc::Global;
use std::collections::BTreeSet;
use sw_base::Memory;

// Adds the line pair of two runs of different parts, if they conflict.
fn meet(a: &Hull, b: &Hull, pairs: &mut BTreeSet<(u32, u32)>) -> Result<(), Memory>
    ensures { OnOk result (AddsPairs pairs.old.keys pairs.new.keys (IsHullPair a.now b.now)) }
{
    if a.part == b.part {
        return Ok(());
    }
    add_conflict(a.run, b.run, pairs)
}

fn meet_all(hull: &Hull, others: &[Hull], pairs: &mut BTreeSet<(u32, u32)>) -> Result<(), Memory>
    ensures { OnOk result (AddsPairs pairs.old.keys pairs.new.keys (OneHas (IsHullPair hull.now) others.now)) }
{
    for other in others {
        meet(hull, other, pairs)?;
    }
    Ok(())
}

// Compares a hull with others, if it may conflict with them.
fn meet_if(
    may: bool,
    hull: &Hull,
    others: &[Hull],
    pairs: &mut BTreeSet<(u32, u32)>,
) -> Result<(), Memory>
    requires { may ≡ false → (other : _) → Contains others.now other → IsRunConflict hull.now.run.now other.run.now → ⊥ }
    ensures { OnOk result (AddsPairs pairs.old.keys pairs.new.keys (OneHas (IsHullPair hull.now) others.now)) }
{
    if may {
        return meet_all(hull, others, pairs);
    }
    Ok(())
}

// Compares a hull that doesn't begin before the byte with the active ones, but no read with reads and no update with updates.
fn meet_active(
    hull: &Hull,
    from: u64,
    active: &Active,
    pairs: &mut BTreeSet<(u32, u32)>,
) -> Result<(), Memory>
    requires { AreOfKind active.now }
    ensures { OnOk result (AddsPairs pairs.old.keys pairs.new.keys (IsActivePair from hull.now active.now)) }
{
    if hull.low < from {
        return Ok(());
    }
    meet_if(hull.run.write, hull, &active.reads.list, pairs)?;
    meet_if(!hull.run.atomic, hull, &active.updates.list, pairs)?;
    meet_all(hull, &active.writes.list, pairs)
}

// Adds the line pairs of the hull and the active ones, of which those that ended before it may go.
fn step<'r>(
    hull: &Hull<'r>,
    from: u64,
    active: &mut Active<'r>,
    pairs: &mut BTreeSet<(u32, u32)>,
) -> Result<(), Memory>
    requires { AreOfKind active.old }
    ensures active { OnOk result (DropsEnded hull.now active.old active.new) }
    ensures added { OnOk result (AddsPairs pairs.old.keys pairs.new.keys (IsReachedPair from hull.now active.old)) }
{
    active.settle(hull);
    meet_active(hull, from, active, pairs)
}

// The same for hulls in order of their first bytes.
fn meet_block<'r>(
    block: &[Hull<'r>],
    from: u64,
    active: &mut Active<'r>,
    pairs: &mut BTreeSet<(u32, u32)>,
) -> Result<(), Memory>
    requires kinds { AreOfKind active.old }
    requires rising { IsNonDecreasingBy (λ hull. hull.low) block.now }
    ensures active { OnOk result (DropsOnlyEnded block.now active.old active.new) }
    ensures added { OnOk result (AddsPairs pairs.old.keys pairs.new.keys (OneHas (λ hull. IsReachedPair from hull active.old) block.now)) }
{
    if active.is_empty() {
        return Ok(());
    }
    for hull in block {
        step(hull, from, active, pairs)?;
    }
    Ok(())
}

fn put_all<'r>(block: &[Hull<'r>], active: &mut Active<'r>) -> Result<(), Memory>
    requires { AreOfKind active.old }
    ensures { OnOk result (AddsHulls block.now active.old active.new) }
{
    for hull in block {
        active.put(hull)?;
    }
    Ok(())
}

fn end_under(hulls: &[Hull], byte: u64) -> bool
    ensures { IsTrue result → All (λ hull. hull.high < byte) hulls.now }
{
    hulls.iter().all(|hull| hull.high < byte)
}

// Whether the hulls of the block end before the later ones begin.
fn end_before(block: &[Hull], later: &[Hull]) -> bool
    requires { IsNonDecreasingBy (λ hull. hull.low) later.now }
    ensures { IsTrue result → (hull other : Hull) → Contains block.now hull → Contains later.now other → hull.high < other.low }
{
    let Some(next) = later.first() else {
        return true;
    };
    end_under(block, next.low)
}

// Has the hulls be active, if a later one may meet them.
fn put_open<'r>(block: &[Hull<'r>], later: &[Hull], active: &mut Active<'r>) -> Result<(), Memory>
    requires kinds { AreOfKind active.old }
    requires rising { IsNonDecreasingBy (λ hull. hull.low) later.now }
    ensures { OnOk result (OpensHulls block.now later.now active.old active.new) }
{
    if end_before(block, later) {
        return Ok(());
    }
    put_all(block, active)
}

// How many of the first hulls are of one part.
fn part_count(hulls: &[Hull]) -> usize
    requires some { 0 < length hulls.now }
    ensures within { (1 ≤ result) × (result ≤ length hulls.now) }
    ensures alike { (i : ℕ) (d : Hull) → i < result → (slice_index_or hulls.now i d).part ≡ (slice_index_or hulls.now 0 d).part }
{
    let mut count = 1;
    'alike: while count < hulls.len() && hulls[count].part == hulls[0].part {
        count += 1;
    }
    count
}

/// Adds the line pairs of the conflicts of runs of different parts whose hulls meet, where the later one doesn't begin before
/// the byte. The hulls are in order of their first bytes: each is compared with those before it that haven't ended, but for those
/// of its own part that stand right before it.
pub fn sweep(
    alloc: Global,
    hulls: &[Hull],
    from: u64,
    pairs: &mut BTreeSet<(u32, u32)>,
) -> Result<(), Memory>
    requires { IsNonDecreasingBy (λ hull. hull.low) hulls.now }
    ensures { OnOk result (AddsPairs pairs.old.keys pairs.new.keys (IsMetPair from (OneHas IsHullOf hulls.now))) }
{
    let mut active = Active::new(alloc);
    let mut start = 0;
    'parts: while start < hulls.len() {
        let (_, rest) = hulls.split_at(start);
        let count = part_count(rest);
        let (block, later) = rest.split_at(count);
        meet_block(block, from, &mut active, pairs)?;
        put_open(block, later, &mut active)?;
        start += count;
    }
    Ok(())
}
