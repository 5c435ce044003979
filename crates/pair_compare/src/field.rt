ghost use Rattle.std.specs.Prelude.{◌≡◌, ◌%◌, ◌^◌, ◌<◌, IfOk};
ghost use Rattle.std.specs.List.Sorted.{IsPermutation};
ghost use Rattle.pair_compare.specs.Fields.{AreCut, AreInOrder, AreWithin, label_value};

use log_segment::Segment;
use span_label::Label;
use std::alloc::Global;
use sw_base::Memory;

/// What labels are compared by at a level, in this order: whether the level is there, and then its triple.
#[derive(Clone, Copy)]
pub enum Field {
    Depth,
    Span,
    Barrier,
    Residue,
    Offset,
}

fn residue(offset: u64, span: u16) -> u64
    ensures { result ≡ offset % span }
{
    if span == 0 {
        return offset;
    }
    offset % u64::from(span)
}

pub fn value(label: &Label, level: usize, field: Field) -> u64
    ensures { result ≡ label_value level field label.now }
{
    let Some(triple) = label.triples().get(level) else {
        return 0;
    };
    match field {
        Field::Depth => 1,
        Field::Span => u64::from(triple.span),
        Field::Barrier => u64::from(triple.barrier),
        Field::Residue => residue(triple.offset, triple.span),
        Field::Offset => triple.offset,
    }
}

// A pair of such numbers, which are below 2 ^ 64.
fn ranged(least: u64, most: u64) -> (u64, u64)
    ensures same { result ≡ (least, most) }
    ensures fits { result.1 < 2 ^ 64 }
{
    (least, most)
}

/// The least and the greatest value.
pub fn extremes(members: &[&Segment], level: usize, field: Field) -> (u64, u64)
    ensures between { AreWithin level field result.0 result.1 members.now }
    ensures fits { result.1 < 2 ^ 64 }
{
    let mut least = u64::MAX;
    let mut most = 0;
    for member in members {
        let value = value(&member.label, level, field);
        least = least.min(value);
        most = most.max(value);
    }
    ranged(least, most)
}

/// The members in order of their values of the field.
pub fn ordered<'s>(
    alloc: Global,
    members: &[&'s Segment],
    level: usize,
    field: Field,
) -> Result<Vec<&'s Segment>, Memory>
    ensures same { IfOk result (λ found. IsPermutation members.now found.items) }
    ensures in_order { IfOk result (λ found. AreInOrder level field found.items) }
{
    let mut found = Vec::from_slice(alloc, members)?;
    found.sort_by_key(|member| value(&member.label, level, field))?;
    Ok(found)
}

/// How many of the members, which are in order, have a value up to the middle.
pub fn count_up_to(members: &[&Segment], level: usize, field: Field, middle: u64) -> usize
    requires { AreInOrder level field members.now }
    ensures { AreCut level field middle result members.now }
{
    let mut low = 0;
    let mut high = members.len();
    'search: while low < high {
        let at = low + (high - low) / 2;
        if value(&members[at].label, level, field) <= middle {
            low = at + 1;
        } else {
            high = at;
        }
    }
    low
}
