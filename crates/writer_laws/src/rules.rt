ghost use Rattle.std.specs.Prelude.{◌≡◌, ◌↔◌, ℕ, Bool, []};
ghost use Rattle.log_format.specs.declared.format.Format.{Format};
ghost use Rattle.race_model.specs.FirstBad.{rows_of};
ghost use Rattle.race_model.specs.ForkJoin.{IsForkJoin};
ghost use Rattle.race_model.specs.IndexFault.{AreRows};
ghost use Rattle.race_model.specs.KeepsRules.{KeepsRules};
ghost use Rattle.race_model.specs.Race.{held_after};
ghost use Rattle.race_model.specs.Trace.{Trace, Logs, Node, logs_of};
ghost use Rattle.writer_laws.specs.Cutting.{IsCut};
ghost use Rattle.writer_laws.specs.Dropping.{Drops};
ghost use Rattle.writer_laws.specs.Guards.{DifferInLocks};
ghost use Rattle.writer_laws.specs.Rules.{AreNested, AreTabled};
ghost use Rattle.writer_laws.specs.Splitting.{IsSplit};
ghost use Rattle.writer_laws.specs.Values.{DifferInValues};

/// A trace keeps every rule of a folder exactly where it is that of a fork-join run, its rows are those of an index, each record is of the table,
/// and mutexes nest in each log.
pub fn fork_join_runs_keep_rules()
    ensures { (format : Format) (trace : Trace) →
        KeepsRules format trace ↔ (IsForkJoin (logs_of trace) × AreRows (rows_of trace) × AreTabled format (logs_of trace) × AreNested (logs_of trace)) }
{}

/// What is written keeps every rule where the run does, with the rows of an index, and records of the table where they are new: for locks that were moved,
/// where mutexes nest in their new order, and for a run that was split, where the root holds none there.
pub fn written_folders_keep_rules()
    ensures dropped { (format : Format) (keep : Node → Bool) (trace other : Trace) → KeepsRules format trace → AreRows (rows_of other)
        → Drops keep (logs_of trace) (logs_of other) → KeepsRules format other }
    ensures moved { (format : Format) (trace other : Trace) → KeepsRules format trace → AreRows (rows_of other) → AreTabled format (logs_of other) → AreNested (logs_of other)
        → DifferInLocks (logs_of trace) (logs_of other) → KeepsRules format other }
    ensures changed { (format : Format) (trace other : Trace) → KeepsRules format trace → AreRows (rows_of other) → AreTabled format (logs_of other)
        → DifferInValues (logs_of trace) (logs_of other) → KeepsRules format other }
    ensures cut { (format : Format) (region barriers span : ℕ) (trace other : Trace) → KeepsRules format trace → AreRows (rows_of other) → AreTabled format (logs_of other)
        → IsCut region barriers span (logs_of trace) (logs_of other) → KeepsRules format other }
    ensures split { (format : Format) (trace one two : Trace) → KeepsRules format trace → AreRows (rows_of one) → AreRows (rows_of two)
        → AreTabled format (logs_of one) → AreTabled format (logs_of two)
        → (split : IsSplit (logs_of trace) (logs_of one) (logs_of two)) → held_after [] split.before ≡ [] → KeepsRules format one × KeepsRules format two }
{}
