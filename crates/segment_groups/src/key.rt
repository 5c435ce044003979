ghost use Rattle.std.specs.Prelude.{◌≡◌, ◌++◌, OnOk, IfOk};
ghost use Rattle.segment_groups.specs.Group.{group_key, lane_at};

use span_label::{Label, Triple};
use std::alloc::Global;
use sw_base::Memory;

/// Adds the numbers that tell a group at this depth apart.
fn push_key(triples: &[Triple], depth: usize, key: &mut Vec<u64>) -> Result<(), Memory>
    ensures { OnOk result (key.new.items ≡ key.old.items ++ group_key depth triples.now) }
{
    let Some((triple, below)) = triples.split_first() else {
        return Ok(());
    };
    key.push(u64::from(triple.span))?;
    key.push(u64::from(triple.barrier))?;
    if depth == 0 {
        return Ok(());
    }
    key.push(triple.offset)?;
    push_key(below, depth - 1, key)
}

/// The key of the label's group at this depth.
pub fn key_at(alloc: Global, label: &Label, depth: usize) -> Result<Vec<u64>, Memory>
    ensures { IfOk result (λ key. key.items ≡ group_key depth label.now) }
{
    let mut key = Vec::new(alloc);
    push_key(label.triples(), depth, &mut key)?;
    Ok(key)
}

/// The lane of the label's task at this depth.
pub fn lane_of(label: &Label, depth: usize) -> u64
    ensures { result ≡ lane_at depth label.now }
{
    match label.triples().get(depth) {
        Some(triple) => triple.offset % u64::from(triple.span),
        None => 0,
    }
}
