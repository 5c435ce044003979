ghost use Rattle.std.specs.Prelude.{◌↔◌};
ghost use Rattle.counted_order.specs.Counting.{IsCountedBefore, AreBetweenBarriers};
ghost use Rattle.counted_order.specs.Parting.{PartBetweenBarriers};
ghost use Rattle.race_model.specs.Order.{HappensBefore};
ghost use Rattle.race_model.specs.Race.{IsUnordered};
ghost use Rattle.race_model.specs.Trace.{Logs, Node, IsThere};
ghost use Rattle.race_model.specs.ForkJoin.{IsForkJoin};

/// Counting tells happens-before exactly: a record of a fork-join run happens before another exactly where it is that one or a Region above it,
/// where one task has a record above the first before one above the second, or where two lanes of one region have such records and the
/// first of them passed fewer barriers. Two records are unordered exactly where two lanes of one region have records above them
/// that passed as many barriers.
pub fn counts_are_happens_before()
    ensures ordered { (logs : Logs) (x y : Node) → IsForkJoin logs → IsThere logs x → IsThere logs y → HappensBefore logs x y ↔ IsCountedBefore logs x y }
    ensures unordered { (logs : Logs) (x y : Node) → IsForkJoin logs → IsThere logs x → IsThere logs y → IsUnordered logs x y ↔ AreBetweenBarriers logs x y }
{}

/// The same told by paths: two records of a fork-join run are unordered exactly where the paths of their tasks part at two lanes of one
/// region, and in these lanes the records, or the Regions through which they hang, come after equally many barriers.
pub fn paths_tell_unordered()
    ensures { (logs : Logs) (x y : Node) → IsForkJoin logs → IsThere logs x → IsThere logs y → IsUnordered logs x y ↔ PartBetweenBarriers logs x y }
{}
