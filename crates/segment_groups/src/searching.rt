ghost use Rattle.std.specs.Prelude.{◌≡◌, ◌+◌, ◌^◌, ◌<◌, ◌≤◌, ℕ, length, OnOk, OnErr};
ghost use Rattle.pair_compare.specs.Conflict.{IsPairOfRuns, IsRunPair, AddsPairs, AddsSome};
ghost use Rattle.segment_groups.specs.Search.{search_cost, searches_cost};

use crate::finder::Finder;
use interval_tree::{Steps, Tree};
use std::alloc::Global;
use std::collections::BTreeSet;
use std::mem;
use std::sync::ledger::Ledger;
use stride_summary::Run;
use sw_base::Memory;

// Adds the line pairs of a run and those of the tree.
fn search_for<L: Ledger>(
    alloc: Global,
    run: &Run,
    tree: &Tree,
    pairs: &mut BTreeSet<(u32, u32)>,
    steps: &mut Steps<L>,
) -> Result<(), Memory>
    ensures added { OnOk result (AddsPairs pairs.old.keys pairs.new.keys (IsRunPair run.now tree.now)) }
    ensures refused { OnErr result (AddsSome pairs.old.keys pairs.new.keys (IsRunPair run.now tree.now)) }
    ensures cost { (digits : ℕ) → length tree.now < 2 ^ digits → steps.new ≤ steps.old + search_cost tree.now digits run.now }
{
    let mut finder = Finder {
        run,
        pairs: mem::replace(pairs, BTreeSet::new(alloc)),
    };
    let answer = tree.meet(run.low(), run.high(), &mut finder, steps);
    let Finder {
        run: _,
        pairs: found,
    } = finder;
    *pairs = found;
    answer
}

/// Adds the line pairs of the conflicts of the runs with those of the tree. After an error some of them may have been added,
/// and nothing else changed.
pub fn search_for_all<L: Ledger>(
    alloc: Global,
    runs: &[Run],
    tree: &Tree,
    pairs: &mut BTreeSet<(u32, u32)>,
    steps: &mut Steps<L>,
) -> Result<(), Memory>
    ensures added { OnOk result (AddsPairs pairs.old.keys pairs.new.keys (IsPairOfRuns tree.now runs.now)) }
    ensures refused { OnErr result (AddsSome pairs.old.keys pairs.new.keys (IsPairOfRuns tree.now runs.now)) }
    ensures cost { (digits : ℕ) → length tree.now < 2 ^ digits → steps.new ≤ steps.old + searches_cost tree.now digits runs.now }
{
    for run in runs {
        search_for(alloc, run, tree, pairs, steps)?;
    }
    Ok(())
}
