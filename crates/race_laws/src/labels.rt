ghost use Rattle.std.specs.Prelude.{◌≡◌, ◌↔◌, ◌⊎◌, ◌≤◌, List};
ghost use Rattle.race_model.specs.Label.{Triple, IsLabel, IsLabelBefore, IsConcurrent};
ghost use Rattle.race_model.specs.Order.{HappensBefore};
ghost use Rattle.race_model.specs.Race.{IsUnordered};
ghost use Rattle.race_model.specs.Trace.{Logs, Node, IsThere, regions_before, barriers_before};
ghost use Rattle.race_model.specs.ForkJoin.{IsForkJoin};

/// Offset-span labels with barrier numbers tell happens-before exactly (Mellor-Crummey 1991): each record of a fork-join run
/// has one label, and a record happens before another exactly where its label is before the other's, or both have the same
/// label and it isn't later in their log. Records have the same label exactly where no fork, join or barrier parts their log
/// between them.
pub fn labels_are_happens_before()
    ensures labelled { (logs : Logs) (x : Node) → IsForkJoin logs → IsThere logs x → (label : List Triple) × IsLabel logs x label }
    ensures one_label { (logs : Logs) (x : Node) (l m : List Triple) → IsLabel logs x l → IsLabel logs x m → l ≡ m }
    ensures ordered { (logs : Logs) (x y : Node) (l m : List Triple) → IsForkJoin logs → IsThere logs x → IsThere logs y → IsLabel logs x l → IsLabel logs y m →
        HappensBefore logs x y ↔ (IsLabelBefore l m ⊎ ((l ≡ m) × (x.index ≤ y.index))) }
    ensures concurrent { (logs : Logs) (x y : Node) (l m : List Triple) → IsForkJoin logs → IsThere logs x → IsThere logs y → IsLabel logs x l → IsLabel logs y m →
        IsUnordered logs x y ↔ IsConcurrent l m }
    ensures same_label { (logs : Logs) (x y : Node) (l m : List Triple) → IsForkJoin logs → IsLabel logs x l → IsLabel logs y m →
        (l ≡ m) ↔ ((x.path ≡ y.path) × (regions_before logs x ≡ regions_before logs y) × (barriers_before logs x ≡ barriers_before logs y)) }
{}

/// Happens-before is a partial order of the records of a fork-join run, and each log is in its own order there.
pub fn happens_before_is_an_order()
    ensures reflexive { (logs : Logs) (x : Node) → HappensBefore logs x x }
    ensures transitive { (logs : Logs) (x y z : Node) → HappensBefore logs x y → HappensBefore logs y z → HappensBefore logs x z }
    ensures antisymmetric { (logs : Logs) (x y : Node) → IsForkJoin logs → IsThere logs x → IsThere logs y → HappensBefore logs x y → HappensBefore logs y x → x ≡ y }
    ensures program_order { (logs : Logs) (x y : Node) → IsForkJoin logs → IsThere logs x → IsThere logs y → x.path ≡ y.path → HappensBefore logs x y ↔ (x.index ≤ y.index) }
{}
