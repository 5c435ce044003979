ghost use Rattle.std.specs.Prelude.{◌≡◌, ◌+◌, ◌^◌, ◌<◌, ◌≤◌, ℕ, length, OnOk, OnErr};
ghost use Rattle.interval_tree.specs.Order.{IsInOrder};
ghost use Rattle.pair_compare.specs.Conflict.{AddsPairs, AddsSome};
ghost use Rattle.pair_compare.specs.Compare.{IsRacingPair};
ghost use Rattle.segment_groups.specs.Search.{searches_cost};

use crate::searching::search_for_all;
use interval_tree::{Steps, Tree};
use log_segment::Segment;
use std::alloc::Global;
use std::collections::BTreeSet;
use std::sync::ledger::Ledger;
use sw_base::Memory;

/// Adds the line pairs of the races of two segments, the smaller line first: none where the labels aren't concurrent. The
/// tree is over the second segment's runs. After an error some of the pairs may have been added, and nothing else changed.
pub fn compare<L: Ledger>(
    alloc: Global,
    a: &Segment,
    b: &Segment,
    tree: &Tree,
    pairs: &mut BTreeSet<(u32, u32)>,
    steps: &mut Steps<L>,
) -> Result<(), Memory>
    requires { IsInOrder b.now.runs.items tree.now }
    ensures added { OnOk result (AddsPairs pairs.old.keys pairs.new.keys (IsRacingPair a.now b.now)) }
    ensures refused { OnErr result (AddsSome pairs.old.keys pairs.new.keys (IsRacingPair a.now b.now)) }
    ensures cost { (digits : ℕ) → length b.now.runs.items < 2 ^ digits → steps.new ≤ steps.old + searches_cost b.now.runs.items digits a.now.runs.items }
{
    if a.label.concurrent(&b.label) {
        search_for_all(alloc, &a.runs, tree, pairs, steps)?;
    }
    Ok(())
}
