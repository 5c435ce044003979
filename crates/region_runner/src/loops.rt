//! The loops of a team whose chunks are drawn.
ghost use Rattle.std.specs.Prelude.{◌≡◌, ◌+◌, ◌<◌, ◌≤◌, IfSome, None, map};
ghost use Rattle.kernel_model.specs.Parts.{drawn_count, is_drawn};
ghost use Rattle.kernel_model.specs.Phases.{part_of, parts_in};

use kernel_model::{Item, Phase};
use team_phases::is_drawing;

// Whether the item is a worksharing loop whose chunks are drawn.
fn is_drawn(item: &Item<'_>) -> bool
    ensures { result ≡ is_drawn (part_of item.now) }
{
    match item {
        Item::Run { stmt, .. } => is_drawing(stmt),
        Item::Set { .. } | Item::Bar { .. } => false,
    }
}

// This number, and how many of the items are such loops; none exactly where that is past 2^32 - 1.
fn with_drawn(count: u32, items: &[Item<'_>]) -> Option<u32>
    ensures some { IfSome result (λ n. n ≡ count + drawn_count (map part_of items.now)) }
    ensures none { result ≡ None → 4294967296 ≤ count + drawn_count (map part_of items.now) }
{
    let mut count = count;
    for item in items {
        if is_drawn(item) {
            count = count.checked_add(1)?;
        }
    }
    Some(count)
}

// How many such loops the phases have; none exactly where they are more than 2^32 - 1.
pub(crate) fn drawn_in(phases: &[Phase<'_>]) -> Option<u32>
    ensures some { IfSome result (λ n. n ≡ drawn_count (parts_in phases.now)) }
    ensures none { result ≡ None → 4294967296 ≤ drawn_count (parts_in phases.now) }
{
    let mut count = 0;
    for phase in phases {
        count = with_drawn(count, phase.items())?;
    }
    Some(count)
}
