ghost use Rattle.std.specs.Prelude.{◌≡◌, ◌↔◌, ◌⊎◌, ℕ, Bool, [], List, All, Some};
ghost use Rattle.log_format.specs.declared.format.Format.{Format};
ghost use Rattle.log_format.specs.declared.record.Record.{Record};
ghost use Rattle.race_model.specs.ForkJoin.{IsForkJoin};
ghost use Rattle.race_model.specs.Race.{IsUnordered, IsRace, IsRacePair, held_after};
ghost use Rattle.race_model.specs.Trace.{Logs, Node, record_at, IsThere};
ghost use Rattle.writer_laws.specs.Rules.{AreNested, AreTabled};
ghost use Rattle.writer_laws.specs.Places.{ForkAlike, IsAtPlace};
ghost use Rattle.writer_laws.specs.Cutting.{IsCut};
ghost use Rattle.writer_laws.specs.Dropping.{Drops, DropsAtRoot};
ghost use Rattle.writer_laws.specs.Guards.{DifferInLocks};
ghost use Rattle.writer_laws.specs.Splitting.{IsSplit};
ghost use Rattle.writer_laws.specs.StandIns.{IsReplaced};
ghost use Rattle.writer_laws.specs.Values.{DifferInValues};
ghost use Rattle.writer_laws.specs.Writing.{IsWritten, IsPairOfParts};

/// Where the tasks of two runs fork the same regions after as many barriers, records are unordered exactly where those at the same places are.
pub fn unordered_by_places()
    ensures { (logs others : Logs) (x y v w : Node) → IsForkJoin logs → IsForkJoin others → ForkAlike logs others
        → IsThere logs x → IsThere logs y → IsThere others v → IsThere others w → IsAtPlace logs others x v → IsAtPlace logs others y w
        → IsUnordered logs x y ↔ IsUnordered others v w }
{}

/// Where each access of a run has a stand-in in another one, the other has every race pair of it.
pub fn stand_ins_lose_no_pair()
    ensures { (logs others : Logs) (pair : ℕ × ℕ) → IsForkJoin logs → IsReplaced (IsAtPlace logs others) logs others → IsRacePair logs pair → IsRacePair others pair }
{}

/// Accesses may be left out that are ordered with all records, or that one which is kept stands for: what is left is a fork-join
/// run with the same race pairs.
pub fn accesses_may_be_dropped()
    ensures run { (keep : Node → Bool) (logs others : Logs) → IsForkJoin logs → Drops keep logs others → IsForkJoin others }
    ensures nested { (keep : Node → Bool) (logs others : Logs) → AreNested logs → Drops keep logs others → AreNested others }
    ensures tabled { (format : Format) (keep : Node → Bool) (logs others : Logs) → AreTabled format logs → Drops keep logs others → AreTabled format others }
    ensures pairs { (keep : Node → Bool) (logs others : Logs) (pair : ℕ × ℕ) → IsForkJoin logs → Drops keep logs others → IsRacePair logs pair ↔ IsRacePair others pair }
{}

/// The root's accesses may be left out.
pub fn root_accesses_may_be_dropped()
    ensures run { (keep : Node → Bool) (logs others : Logs) → IsForkJoin logs → DropsAtRoot keep logs others → IsForkJoin others }
    ensures pairs { (keep : Node → Bool) (logs others : Logs) (pair : ℕ × ℕ) → IsForkJoin logs → DropsAtRoot keep logs others → IsRacePair logs pair ↔ IsRacePair others pair }
{}

/// Runs that differ in values and sites alone have the same race pairs, and the same records race.
pub fn values_do_not_matter()
    ensures run { (logs others : Logs) → IsForkJoin logs → DifferInValues logs others → IsForkJoin others }
    ensures nested { (logs others : Logs) → AreNested logs → DifferInValues logs others → AreNested others }
    ensures pairs { (logs others : Logs) (pair : ℕ × ℕ) → IsForkJoin logs → DifferInValues logs others → IsRacePair logs pair ↔ IsRacePair others pair }
    ensures races { (logs others : Logs) (x y : Node) (r s q t : Record) → IsForkJoin logs → DifferInValues logs others → IsRace logs x y r s
        → record_at others x ≡ Some q → record_at others y ≡ Some t → IsRace others x y q t }
{}

/// Mutexes may be locked and unlocked elsewhere, as long as the same are held at each access: it is a fork-join run again, with the
/// same race pairs.
pub fn locks_may_move()
    ensures run { (logs others : Logs) → IsForkJoin logs → DifferInLocks logs others → IsForkJoin others }
    ensures pairs { (logs others : Logs) (pair : ℕ × ℕ) → IsForkJoin logs → DifferInLocks logs others → IsRacePair logs pair ↔ IsRacePair others pair }
{}

/// A region of the root may be cut at a barrier into two regions of the root with the same lanes: it is a fork-join run again, with the
/// same race pairs.
pub fn region_may_be_cut()
    ensures run { (region barriers span : ℕ) (logs others : Logs) → IsForkJoin logs → IsCut region barriers span logs others → IsForkJoin others }
    ensures nested { (region barriers span : ℕ) (logs others : Logs) → IsForkJoin logs → AreNested logs → IsCut region barriers span logs others → AreNested others }
    ensures pairs { (region barriers span : ℕ) (logs others : Logs) (pair : ℕ × ℕ) → IsForkJoin logs → IsCut region barriers span logs others
        → IsRacePair logs pair ↔ IsRacePair others pair }
{}

/// All records of the root are ordered with all others.
pub fn root_is_ordered()
    ensures { (logs : Logs) (x y : Node) → IsForkJoin logs → IsThere logs x → IsThere logs y → x.path ≡ [] → IsUnordered logs x y → ⊥ }
{}

/// A run may be split between two regions of the root: the parts are fork-join runs, and its race pairs are theirs.
pub fn run_may_be_split()
    ensures runs { (logs one two : Logs) → IsForkJoin logs → IsSplit logs one two → IsForkJoin one × IsForkJoin two }
    ensures nested { (logs one two : Logs) → IsForkJoin logs → AreNested logs → (split : IsSplit logs one two) → held_after [] split.before ≡ [] → AreNested one × AreNested two }
    ensures pairs { (logs one two : Logs) (pair : ℕ × ℕ) → IsForkJoin logs → IsSplit logs one two → IsRacePair logs pair ↔ (IsRacePair one pair ⊎ IsRacePair two pair) }
{}

/// A recorder may do all this, one step after another: it writes fork-join runs, and the race pairs of the run are theirs.
pub fn recorders_keep_pairs()
    ensures runs { (logs : Logs) (parts : List Logs) → IsForkJoin logs → IsWritten logs parts → All IsForkJoin parts }
    ensures pairs { (logs : Logs) (parts : List Logs) (pair : ℕ × ℕ) → IsForkJoin logs → IsWritten logs parts → IsRacePair logs pair ↔ IsPairOfParts parts pair }
{}
