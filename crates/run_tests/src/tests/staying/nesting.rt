//! Teams in teams: in each phase each lane runs a team of its own, as deep as is asked.
ghost use Rattle.std.specs.Prelude.{◌≡◌, ◌+◌, ◌<◌, ◌≤◌, [], All, length, IfOk, IfSome};
ghost use contract.BorrowLft.{◌⊑◌};
ghost use Rattle.std.specs.Thread.{IsSend, IsSync};

use crate::tests::staying::telling::{Seen, count_phases};
use std::alloc::{AllocError, Global};
use std::marker::Send;
use std::sync::Wait;
use std::thread::Threads;
use sw_base::Gate;

/// How many phases each team has.
const PHASES: usize = 3;

/// A lane that counts its phases, and may have something of its own.
#[derive(Drop)]
pub struct Tally<D> {
    count: usize,
    own: Option<D>,
}

impl<D> Seen for Tally<D> {
    ghost seen = { λ tally. tally.count };
}

// So many lanes that have counted nothing.
fn fresh<D: Drop>(alloc: Global, span: usize) -> Result<Vec<Tally<D>>, AllocError>
    ensures count { IfOk result (λ lanes. length lanes.items ≡ span) }
    ensures none { IfOk result (λ lanes. All (λ tally. tally.count ≡ 0) lanes.items) }
{
    let mut lanes = Vec::new(alloc);
    for made in 0..span {
        lanes.push(Tally {
            count: 0,
            own: None,
        })?;
    }
    Ok(lanes)
}

/// A team of so many lanes, each of which runs such a team in each phase, as deep as this. `None` where no memory is found.
#[cycle(nested)]
pub fn nested<R: Threads + Wait + Copy + Send + Sync + 'static, D: Drop + Send + 'static, G: Gate>(
    rt: &R,
    alloc: Global,
    depth: u32,
    span: usize,
    gate: &G,
) -> Option<Vec<Tally<D>>>
    requires { (1 ≤ span) × (span ≤ 64) }
    ensures { IfSome result (λ lanes. All (λ tally. tally.count ≡ PHASES) lanes.items) }
{
    let lanes = fresh::<D>(alloc, span).ok()?;
    Some(count_phases(
        rt,
        alloc,
        PHASES,
        lanes,
        &|number: usize, index: usize, lane: &mut Tally<D>|
            requires sent { IsSync R.row × IsSend R.row × IsSend D.row }
            requires lives { [] ⊑ D.row.lives }
            requires span { (1 ≤ span) × (span ≤ 64) }
            requires number { number < 3 }
            requires count { lane.old.count ≡ number }
            ensures { lane.new.count ≡ number + 1 }
        {
            gate.enter(index);
            lane.count += 1;
            if depth > 0 {
                let _inner = nested::<R, D, G>(rt, alloc, depth - 1, span, gate);
            }
        },
    ))
}
