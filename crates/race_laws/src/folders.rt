ghost use Rattle.std.specs.Prelude.{◌≡◌, List, ℕ};
ghost use Rattle.sw_base.specs.Environment.{Files};
ghost use Rattle.log_format.specs.declared.format.Format.{Format};
ghost use Rattle.log_format.specs.declared.format.Format.TheVariants.{First, Second};
ghost use Rattle.race_model.specs.FirstBad.{HoldsTrace, IsBad};
ghost use Rattle.race_model.specs.WellFormed.{IsWellFormed};
ghost use Rattle.race_model.specs.KeepsRules.{KeepsRules};
ghost use Rattle.race_model.specs.BadPlace.{BadPlace, IsTooMany};
ghost use Rattle.race_model.specs.Trace.{Trace, logs_of};
ghost use Rattle.race_model.specs.ForkJoin.{IsForkJoin};

/// The trace that a folder without a bad place holds keeps every rule, and one that does is the trace of a fork-join run.
pub fn well_formed_folder_is_fork_join()
    ensures keeps { (format : Format) (files : Files) (dir : List ℕ) (trace : Trace) →
        IsWellFormed format files dir → HoldsTrace format files dir trace → KeepsRules format trace }
    ensures fork_join { (format : Format) (trace : Trace) → KeepsRules format trace → IsForkJoin (logs_of trace) }
{}

/// A folder holds at most one trace.
pub fn folder_tells_its_trace()
    ensures { (format : Format) (files : Files) (dir : List ℕ) (trace other : Trace) →
        HoldsTrace format files dir trace → HoldsTrace format files dir other → trace ≡ other }
{}

/// A folder that holds a trace which keeps every rule is bad at most where a segment is one too many.
pub fn kept_rules_leave_no_bad_place()
    ensures { (format : Format) (files : Files) (dir : List ℕ) (trace : Trace) → KeepsRules format trace → HoldsTrace format files dir trace →
        (place : BadPlace) → IsBad format files dir place → IsTooMany place }
{}

/// A trace that keeps the rules of the first format keeps those of the second.
pub fn first_rules_are_second()
    ensures { (trace : Trace) → KeepsRules First trace → KeepsRules Second trace }
{}
