ghost use Rattle.std.specs.Prelude.{◌↔◌, ℕ, Option};
ghost use Rattle.explain.specs.Least.{FindsLeast};
ghost use Rattle.explain.specs.Witness.{IsConfirmed};
ghost use Rattle.explain.specs.declared.explaining.RacePair.{RacePair};
ghost use Rattle.race_model.specs.ForkJoin.{IsForkJoin};
ghost use Rattle.race_model.specs.Trace.{Trace, logs_of};
ghost use Rattle.writer_laws.specs.Values.{TasksDifferInValues};

/// In traces that differ in values and sites alone, the same two records are confirmed to race, at the same first byte, and of any two lines the same
/// race is the least one.
pub fn values_do_not_matter_to_witnesses()
    ensures confirmed { (trace other : Trace) (first_row first second_row second byte : ℕ) → IsForkJoin (logs_of trace) → TasksDifferInValues trace other
        → IsConfirmed trace first_row first second_row second byte ↔ IsConfirmed other first_row first second_row second byte }
    ensures least { (trace other : Trace) (lines : ℕ × ℕ) (found : Option RacePair) → IsForkJoin (logs_of trace) → TasksDifferInValues trace other
        → FindsLeast trace lines found ↔ FindsLeast other lines found }
{}
