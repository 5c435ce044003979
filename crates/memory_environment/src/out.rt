//! What is printed, kept in memory.
ghost use Rattle.std.specs.Prelude.{◌≡◌, ◌↔◌, [], IfOk, OnOk, OnErr, IsErrOf};
ghost use Rattle.sw_base.specs.Environment.{HasCause, GainsPrefix, gained};
ghost use Rattle.memory_environment.specs.InMemory.{CountsCall};
ghost use Rattle.memory_environment.specs.MemOut.{bytes_of, written_of, faults_of, calls_of, failing_of, counted_of};

use crate::calls::{Calls, tear};
use std::alloc::Global;
use sw_base::{Memory, Out, Trouble};

/// An `Out` that keeps what was written.
#[derive(Drop)]
pub struct MemOut {
    written: Vec<u8>,
    faults: u64,
    calls: Calls,
}

impl MemOut {
    /// Nothing is written yet, and no call is to fail.
    pub fn new(alloc: Global) -> Result<MemOut, Memory>
        ensures written { IfOk result (λ out. bytes_of out ≡ []) }
        ensures faults { IfOk result (λ out. faults_of out ≡ 0) }
        ensures calls { IfOk result (λ out. calls_of out ≡ 0) }
        ensures failing { IfOk result (λ out. failing_of out ≡ []) }
    {
        Ok(MemOut {
            written: Vec::new(alloc),
            faults: 0,
            calls: Calls::new(alloc),
        })
    }

    /// Sets the numbers of the calls of `append` that are to fail, from 1. Where there is no memory nothing changes.
    pub fn fail(&mut self, calls: &[u64]) -> Result<(), Memory>
        ensures ok { OnOk result (failing_of self.new ≡ calls.now) }
        ensures err { OnErr result (failing_of self.new ≡ failing_of self.old) }
        ensures same_bytes { bytes_of self.new ≡ bytes_of self.old }
        ensures same_faults { faults_of self.new ≡ faults_of self.old }
        ensures same_calls { calls_of self.new ≡ calls_of self.old }
    {
        self.calls.fail(calls)
    }

    /// The bytes that were written.
    pub fn written(&self) -> &[u8]
        ensures { result.now ≡ bytes_of self.now }
    {
        &self.written
    }

    /// How often a write failed.
    pub fn faults(&self) -> u64
        ensures { result ≡ faults_of self.now }
    {
        self.faults
    }
}

impl Out for MemOut {
    ghost written = { written_of };

    ghost faults = { faults_of };

    #[tactic(auto, using(crate::proofs::Prefixes::gains_prefix_same))]
    fn append(&mut self, _alloc: Global, piece: &[u8]) -> Result<(), Trouble>
        ensures done { OnOk result (written_of self.new ≡ gained (written_of self.old) piece.now) }
        ensures refused { OnErr result (GainsPrefix (written_of self.old) (written_of self.new) piece.now) }
        ensures memory { IsErrOf result Trouble.Memory → written_of self.new ≡ written_of self.old }
        ensures cause { HasCause (faults_of self.old) (faults_of self.new) result }
        ensures no_fault { OnOk result (faults_of self.new ≡ faults_of self.old) }

        ensures counts { CountsCall (IsErrOf result Trouble.Failed) (counted_of self.old) (counted_of self.new) }
    {
        if self.calls.fails(&mut self.faults) {
            tear(&mut self.written, piece);
            return Err(Trouble::Failed);
        }
        self.written.extend_from_slice(piece)?;
        Ok(())
    }
}
