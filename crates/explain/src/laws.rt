//! What is told of a race is one thing.
ghost use Rattle.std.specs.Prelude.{◌≡◌, ℕ};
ghost use Rattle.race_model.specs.Trace.{Trace};
ghost use Rattle.explain.specs.Least.{IsLeastWitness};
ghost use Rattle.explain.specs.Witness.{IsConfirmed};
ghost use Rattle.explain.specs.declared.explaining.RacePair.{RacePair as AnyPair};

/// Two lines have one least race, and two records that race one first byte.
pub fn a_race_is_told_in_one_way()
    ensures least { (trace : Trace) (lines : ℕ × ℕ) (found other : AnyPair) → IsLeastWitness trace lines found → IsLeastWitness trace lines other → found ≡ other }
    ensures byte { (trace : Trace) (first_row first second_row second byte other : ℕ) → IsConfirmed trace first_row first second_row second byte
        → IsConfirmed trace first_row first second_row second other → byte ≡ other }
{}
