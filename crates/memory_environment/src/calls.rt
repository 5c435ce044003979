//! Which calls of an object in memory are to fail, and what a call that fails leaves of a piece.
ghost use Rattle.std.specs.Prelude.{◌≡◌, ◌-◌, ◌≤◌, [], OnOk, OnErr, IsTrue};
ghost use Rattle.sw_base.specs.Environment.{Rose};
ghost use Rattle.memory_environment.specs.InMemory.{CountsCall, TornEnd};

use std::alloc::Global;
use sw_base::Memory;

/// How many calls there were, and the numbers of those that are to fail, from 1.
#[derive(Drop)]
pub struct Calls {
    made: u64,
    failing: Vec<u64>,
}

impl Calls {
    /// No call yet, and none is to fail.
    pub fn new(alloc: Global) -> Calls
        ensures made { result.made ≡ 0 }
        ensures failing { result.failing.items ≡ [] }
    {
        Calls {
            made: 0,
            failing: Vec::new(alloc),
        }
    }

    /// No call yet, and these are to fail.
    pub fn failing(failing: Vec<u64>) -> Calls
        ensures made { result.made ≡ 0 }
        ensures failing { result.failing ≡ failing }
    {
        Calls { made: 0, failing }
    }

    /// Counts one more call, and tells whether it is to fail, which is a fault.
    pub fn fails(&mut self, faults: &mut u64) -> bool
        ensures counts { CountsCall (IsTrue result) (record { calls = self.old.made; failing = self.old.failing.items; faults = faults.old })
            (record { calls = self.new.made; failing = self.new.failing.items; faults = faults.new }) }
        ensures later { faults.old ≤ faults.new }
        ensures rose { IsTrue result → Rose faults.old faults.new }
    {
        self.made = self.made.saturating_add(1);
        let fails = self.failing.contains(&self.made);
        if fails {
            *faults = faults.saturating_add(1);
        }
        fails
    }

    /// Sets the numbers of the calls that are to fail.
    pub fn fail(&mut self, calls: &[u64]) -> Result<(), Memory>
        ensures ok { OnOk result (self.new.failing.items ≡ calls.now) }
        ensures err { OnErr result (self.new.failing.items ≡ self.old.failing.items) }
        ensures made { self.new.made ≡ self.old.made }
    {
        self.failing = calls.to_vec(*self.failing.allocator())?;
        Ok(())
    }
}

/// Appends the first half of a piece, or nothing where there is no memory: what is left of a write that failed.
#[tactic(auto, using(crate::proofs::Prefixes::torn_end_half))]
pub fn tear(bytes: &mut Vec<u8>, piece: &[u8])
    ensures { TornEnd bytes.old.items bytes.new.items piece.now }
{
    let half = piece.len() / 2;
    let _ = bytes.extend_from_slice(&piece[..half]);
}
