//! Whether two accesses race, if nothing orders them.
ghost use Rattle.std.specs.Prelude.{◌≡◌, ◌⊎◌, ◌↔◌, ℕ, Some, IsTrue};
ghost use Rattle.log_format.specs.declared.record.Kind.TheVariants.{Update};
ghost use Rattle.race_model.specs.Race.{IsAccess, IsChange};
ghost use Rattle.explain.specs.Witness.{ConflictAt, IsLeastByte};

use crate::finding::Found;
use log_format::Record;
use pair_compare::{Effect, may_conflict};

fn effect_of(access: &Record) -> Effect
    ensures write { IsTrue result.write ↔ IsChange access.now }
    ensures atomic { IsTrue result.atomic ↔ (access.now.kind ≡ Update) }
{
    Effect {
        write: access.kind.is_change(),
        atomic: access.kind.is_update(),
    }
}

/// Whether both are accesses, one of them changes memory, and not both update it.
fn may_race(one: &Record, other: &Record) -> bool
    ensures { IsTrue result ↔ (IsAccess one.now × IsAccess other.now × (IsChange one.now ⊎ IsChange other.now) × (one.now.kind ≡ Update → other.now.kind ≡ Update → ⊥)) }
{
    one.kind.is_access() && other.kind.is_access() && may_conflict(effect_of(one), effect_of(other))
}

/// The first byte that two accesses have in common.
fn common_byte(one: &Record, other: &Record) -> Option<u64>
    ensures { (byte : ℕ) → (result ≡ Some byte) ↔ IsLeastByte one.now other.now byte }
{
    let byte = one.addr.max(other.addr);
    let within = byte - one.addr < u64::from(one.size) && byte - other.addr < u64::from(other.size);
    within.then_some(byte)
}

/// The first common byte of two accesses that race if nothing orders them.
pub fn conflict(one: &Found, other: &Found) -> Option<u64>
    ensures { (byte : ℕ) → (result ≡ Some byte) ↔ ConflictAt one.now other.now byte }
{
    if may_race(&one.event, &other.event) && one.held.disjoint(&other.held) {
        common_byte(&one.event, &other.event)
    } else {
        None
    }
}
