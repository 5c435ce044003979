//! Suspects by what they are looked for by.
ghost use Rattle.std.specs.Prelude.{◌≡◌, Contains, IfOk, IsSomeAnd, OnOk};
ghost use Rattle.log_segment.specs.declared.segment.Segment.{Segment as Interval};
ghost use Rattle.explain.specs.Filed.{HasOne, IsFiled};
ghost use Rattle.explain.specs.Suspects.{root_team};

use crate::suspect::Suspect;
use span_label::Label;
use std::alloc::Global;
use std::collections::BTreeMap;
use std::marker::Model;
use sw_base::{Memory, Path};

/// What an interval has in common with each that may be concurrent with it: how many regions the root forked before, and how many barriers
/// the team of the root's region has passed.
fn root_team(label: &Label) -> (u64, u32)
    ensures { result ≡ root_team label.now }
{
    let triples = label.triples();
    let region = match triples.get(0) {
        Some(triple) => triple.offset,
        None => 0,
    };
    let barrier = match triples.get(1) {
        Some(triple) => triple.barrier,
        None => 0,
    };
    (region, barrier)
}

/// Puts a suspect with those of a key.
fn file<'a, 's, K: Ord + Drop>(
    alloc: Global,
    filed: &mut BTreeMap<K, Vec<&'a Suspect<'s>>>,
    key: K,
    suspect: &'a Suspect<'s>,
) -> Result<(), Memory>
    ensures put { OnOk result (IsFiled K.cmp filed.new key suspect.now) }
    ensures old { OnOk result ((other : K) (s : Interval) → IsFiled K.cmp filed.old other s → IsFiled K.cmp filed.new other s) }
{
    let mut suspects = match filed.remove(&key) {
        Some(suspects) => suspects,
        None => Vec::new(alloc),
    };
    suspects.push(suspect)?;
    filed.insert(key, suspects)?;
    Ok(())
}

/// The suspects of a key.
fn of<'m, 'a, 's, K: Ord>(
    filed: &'m BTreeMap<K, Vec<&'a Suspect<'s>>>,
    key: &K,
) -> Option<&'m Vec<&'a Suspect<'s>>>
    ensures { (own : Interval) → IsFiled K.cmp filed.now key.now own → IsSomeAnd result (λ found. HasOne own found.now.items) }
{
    filed.get(key)
}

/// Suspects by their tasks and by their teams. Contracts see all of them.
#[derive(Drop)]
pub struct Suspects<'a, 's> {
    all: &'a [Suspect<'s>],
    tasks: BTreeMap<Path, Vec<&'a Suspect<'s>>>,
    teams: BTreeMap<(u64, u32), Vec<&'a Suspect<'s>>>,
}

impl<'a, 's> Model for Suspects<'a, 's> {
    ghost use Rattle.std.specs.Prelude.{List};
    ghost use Rattle.log_segment.specs.declared.segment.Segment.{Segment};
    ghost use Rattle.race_model.specs.Race.{pair_cmp};
    ghost use Rattle.sw_base.specs.Names.{path_cmp};
    ghost use Rattle.explain.specs.Filed.{AreFiled};
    ghost use Rattle.explain.specs.Suspects.{root_team};

    ghost Value = { List Segment };

    ghost view = { λ s. s.all.now };

    ghost invariant = { λ s. AreFiled path_cmp (λ own. own.path) s.tasks s.all.now × AreFiled pair_cmp (λ own. root_team own.label) s.teams s.all.now };
}

impl<'a, 's> Suspects<'a, 's> {
    /// These suspects.
    pub fn build(alloc: Global, all: &'a [Suspect<'s>]) -> Result<Suspects<'a, 's>, Memory>
        ensures { IfOk result (λ suspects. suspects ≡ all.now) }
    {
        let mut tasks = BTreeMap::new(alloc);
        let mut teams = BTreeMap::new(alloc);
        for suspect in all {
            let own = suspect.segment();
            file(alloc, &mut tasks, own.path.copy(), suspect)?;
            file(alloc, &mut teams, root_team(&own.label), suspect)?;
        }
        Ok(Suspects { all, tasks, teams })
    }

    /// The suspects of a task, where it has any.
    pub fn of_task(&self, path: &Path) -> Option<&Vec<&'a Suspect<'s>>>
        ensures { (own : Interval) → Contains self.now own → own.path ≡ path.now → IsSomeAnd result (λ found. HasOne own found.now.items) }
    {
        of(&self.tasks, path)
    }

    /// The suspects that may be concurrent with an interval of this label, where there are any.
    pub fn beside(&self, label: &Label) -> Option<&Vec<&'a Suspect<'s>>>
        ensures { (their : Interval) → Contains self.now their → root_team label.now ≡ root_team their.label → IsSomeAnd result (λ found. HasOne their found.now.items) }
    {
        of(&self.teams, &root_team(label))
    }
}
