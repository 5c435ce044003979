ghost use Rattle.std.specs.Prelude.{◌≡◌, ◌⊎◌, ◌↔◌, [], ◌∷◌, IsTrue, OnOk, OnErr};
ghost use Rattle.mutex_set.specs.Held.{AreDisjoint};
ghost use Rattle.stride_summary.specs.Run.{SharesRunByte};
ghost use Rattle.pair_compare.specs.Conflict.{IsRunPair, AddsPairs, AddsSome, line_pair};

use std::collections::BTreeSet;
use stride_overlap::overlap;
use stride_summary::Run;
use sw_base::Memory;

/// What an access does to memory.
#[derive(Clone, Copy)]
pub struct Effect {
    /// Whether it changes memory.
    pub write: bool,
    /// Whether it reads and changes memory in one step.
    pub atomic: bool,
}

/// Whether two accesses with these effects race where they share a byte and nothing orders them: one changes memory, and not both in one step.
pub fn may_conflict(one: Effect, other: Effect) -> bool
    ensures { IsTrue result ↔ ((IsTrue one.write ⊎ IsTrue other.write) × (IsTrue one.atomic → IsTrue other.atomic → ⊥)) }
{
    (one.write || other.write) && !(one.atomic && other.atomic)
}

fn effect_of(run: &Run) -> Effect
    ensures write { result.write ≡ run.now.write }
    ensures atomic { result.atomic ≡ run.now.atomic }
{
    Effect {
        write: run.write,
        atomic: run.atomic,
    }
}

// Whether one of them writes, and not both are atomic.
fn may_race(a: &Run, b: &Run) -> bool
    ensures { IsTrue result ↔ ((IsTrue a.now.write ⊎ IsTrue b.now.write) × (IsTrue a.now.atomic → IsTrue b.now.atomic → ⊥)) }
{
    may_conflict(effect_of(a), effect_of(b))
}

/// Whether the two runs have a common byte, and no mutex was held at both.
fn collide(a: &Run, b: &Run) -> bool
    ensures { IsTrue result ↔ (AreDisjoint a.now.held b.now.held × SharesRunByte a.now b.now) }
{
    a.held.disjoint(&b.held) && overlap(a, b)
}

fn lines_of(a: &Run, b: &Run) -> (u32, u32)
    ensures { result ≡ line_pair a.now.line b.now.line }
{
    (a.line.min(b.line), a.line.max(b.line))
}

/// Adds the line pair of the two runs, if they conflict.
pub fn add_conflict(a: &Run, b: &Run, pairs: &mut BTreeSet<(u32, u32)>) -> Result<(), Memory>
    ensures added { OnOk result (AddsPairs pairs.old.keys pairs.new.keys (IsRunPair a.now (b.now ∷ []))) }
    ensures refused { OnErr result (AddsSome pairs.old.keys pairs.new.keys (IsRunPair a.now (b.now ∷ []))) }
{
    if !may_race(a, b) {
        return Ok(());
    }
    let lines = lines_of(a, b);
    if pairs.contains(&lines) {
        return Ok(());
    }
    if collide(a, b) {
        pairs.insert(lines)?;
    }
    Ok(())
}
