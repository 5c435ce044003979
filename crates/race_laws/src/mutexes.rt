ghost use Rattle.std.specs.Prelude.{◌↔◌, ℕ, Contains};
ghost use Rattle.race_model.specs.Mutexes.{HoldsMutex};
ghost use Rattle.race_model.specs.Race.{held_at};
ghost use Rattle.race_model.specs.Trace.{Logs, Node};

/// A task holds a mutex at a record exactly where it locked the mutex before and hasn't unlocked it since.
pub fn mutexes_are_held_from_lock_to_unlock()
    ensures { (logs : Logs) (x : Node) (mutex : ℕ) → Contains (held_at logs x) mutex ↔ HoldsMutex (logs x.path) x.index mutex }
{}
