ghost use Rattle.std.specs.Prelude.{ℕ, [], ◌∷◌};
ghost use Rattle.race_model.specs.Race.{IsRacePair};
ghost use Rattle.race_model.specs.ForkJoin.{IsForkJoin};
ghost use Rattle.race_model.specs.Trace.{logs_of};
ghost use Rattle.writer_laws.specs.Cases.{
  Premise,
  LosesWithout,
  LosesPair,
  DifferInLocksAlone,
  unlocked_access,
  locked_access,
  held_over_barrier,
  cut_where_held,
  team_inside,
  cut_inside,
  no_barrier,
  span_changed,
  first_half,
  second_half,
  lane,
  all_but,
  no_root_access,
  whole_run,
  without_root,
  without_repeated,
  with_locks_moved,
  without_values,
  cut_run,
  first_folder,
  second_folder,
};
ghost use Rattle.writer_laws.specs.Cutting.{IsCut};
ghost use Rattle.writer_laws.specs.Dropping.{Drops, DropsAtRoot};
ghost use Rattle.writer_laws.specs.Guards.{DifferInLocks};
ghost use Rattle.writer_laws.specs.Splitting.{IsSplit};
ghost use Rattle.writer_laws.specs.Values.{DifferInValues};
ghost use Rattle.writer_laws.specs.Writing.{IsWritten};

/// A run to which all laws apply, one after another: the root's accesses are left out, and one that is repeated across a fork; the mutex that lane 0
/// holds over a fork and a barrier is spelled as a folder's rules want it; values become 0; the region is cut at its barrier, with a team before it and one
/// after it; and the two regions go to two folders.
pub fn all_laws_apply()
    ensures run { IsForkJoin (logs_of whole_run) }
    ensures root { DropsAtRoot no_root_access (logs_of whole_run) (logs_of without_root) }
    ensures repeated { Drops (all_but (lane 0 0) 3) (logs_of without_root) (logs_of without_repeated) }
    ensures locks { DifferInLocks (logs_of without_repeated) (logs_of with_locks_moved) }
    ensures values { DifferInValues (logs_of with_locks_moved) (logs_of without_values) }
    ensures cut { IsCut 0 0 2 (logs_of without_values) (logs_of cut_run) }
    ensures split { IsSplit (logs_of cut_run) (logs_of first_folder) (logs_of second_folder) }
    ensures written { IsWritten (logs_of whole_run) (logs_of first_folder ∷ logs_of second_folder ∷ []) }
{}

/// Whichever premise isn't met by the access that is kept for one that is left out, a race pair may be lost: that both are of one task,
/// that no barrier of the task comes between them, that they are of one line, that the kept one touches all the bytes, that it is of the same kind or a
/// write for a read, and that it is under no other mutexes.
pub fn premises_of_dropping_are_needed()
    ensures { (p : Premise) → LosesWithout p }
{}

/// What goes wrong with the other laws: a lock that is moved before an access hides a race; a region that is cut where a mutex is held has
/// a race that the run hasn't; one that is cut at a barrier of a team inside, which not all its lanes meet, loses one; so do two folders, each
/// of which has the logs of some lanes of a region; and with another span a Region's lanes aren't there.
pub fn other_premises_are_needed()
    ensures lock_moved { DifferInLocksAlone (logs_of unlocked_access) (logs_of locked_access) × LosesPair (logs_of unlocked_access) (logs_of locked_access) }
    ensures cut_where_held { LosesPair (logs_of cut_where_held) (logs_of held_over_barrier) }
    ensures cut_inside { LosesPair (logs_of team_inside) (logs_of cut_inside) }
    ensures split_within { (pair : ℕ × ℕ) × IsRacePair (logs_of no_barrier) pair × (IsRacePair (logs_of first_half) pair → ⊥) × (IsRacePair (logs_of second_half) pair → ⊥) }
    ensures span_changed { IsForkJoin (logs_of span_changed) → ⊥ }
{}
