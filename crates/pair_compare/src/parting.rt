ghost use Rattle.std.specs.Prelude.{◌↔◌, ◌<◌, ℕ, IfOk, OnOk};
ghost use Rattle.pair_compare.specs.Conflict.{GrowsBy, OneHas};
ghost use Rattle.pair_compare.specs.Fields.{IsRunIn};
ghost use Rattle.pair_compare.specs.Groups.{IsNumbered, IsRunOf};

use crate::field::{Field, value};
use crate::member::Member;
use log_segment::Segment;
use std::alloc::Global;
use stride_summary::Run;
use sw_base::Memory;

/// How many runs a member has at most: a task looks at all of a member that meets its bytes.
const MOST: usize = 128;

// Adds the runs, which are of this part, as members.
fn add_members<'s>(part: u64, runs: &'s [Run], members: &mut Vec<Member<'s>>) -> Result<(), Memory>
    ensures { OnOk result (GrowsBy (OneHas IsRunOf members.old.items) (OneHas IsRunOf members.new.items) (OneHas (IsNumbered part) runs.now)) }
{
    let mut rest = runs;
    'rest: while !rest.is_empty() {
        let (some, others) = rest.split_at(rest.len().min(MOST));
        members.push(Member::new(part, some))?;
        rest = others;
    }
    Ok(())
}

/// The runs of the segments, each with its segment's value of the field as the number of its part.
pub fn members_of<'s>(
    alloc: Global,
    segments: &[&'s Segment],
    level: usize,
    field: Field,
) -> Result<Vec<Member<'s>>, Memory>
    ensures { IfOk result (λ members. (run : ℕ × _) → OneHas IsRunOf members.items run ↔ OneHas (IsRunIn level field) segments.now run) }
{
    let mut members = Vec::new(alloc);
    for segment in segments {
        let part = value(&segment.label, level, field);
        add_members(part, segment.runs.as_slice(), &mut members)?;
    }
    Ok(members)
}
