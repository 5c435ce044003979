ghost use Rattle.std.specs.Prelude.{◌↔◌};
ghost use Rattle.log_segment.specs.declared.segment.Segment.{Segment};
ghost use Rattle.pair_compare.specs.Accesses.{AreDifferent, IsAccessOf};
ghost use Rattle.race_model.specs.ForkJoin.{IsForkJoin};
ghost use Rattle.race_model.specs.Label.{IsConcurrent, IsLabelBefore};
ghost use Rattle.race_model.specs.Order.{HappensBefore};
ghost use Rattle.race_model.specs.Race.{IsUnordered};
ghost use Rattle.race_model.specs.Trace.{Logs, Node};

/// The labels of two different segments of a fork-join run order their accesses: one label is before the other exactly where
/// each access of the one happens before each of the other, and they are concurrent exactly where no two are ordered.
pub fn labels_order_accesses()
    ensures before { (logs : Logs) (a b : Segment) (x y : Node) → IsForkJoin logs → AreDifferent a b → IsAccessOf logs a x → IsAccessOf logs b y
        → IsLabelBefore a.label b.label ↔ HappensBefore logs x y }
    ensures concurrent { (logs : Logs) (a b : Segment) (x y : Node) → IsForkJoin logs → IsAccessOf logs a x → IsAccessOf logs b y
        → IsConcurrent a.label b.label ↔ IsUnordered logs x y }
{}
