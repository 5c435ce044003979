//! An opened file, in memory.
ghost use Rattle.std.specs.Prelude.{◌≡◌, ◌≤◌, ◌↔◌, [], length, drop, IfOk, OnOk, OnErr, IsErrOf};
ghost use Rattle.std.specs.Option.{option_map};
ghost use Rattle.sw_base.specs.Environment.{HasCause, Reads, WhereTold};
ghost use Rattle.memory_environment.specs.InMemory.{CountsCall};
ghost use Rattle.memory_environment.specs.MemFile.{bytes_left, told_rest, faults_of, calls_of, failing_of, counted_of};

use crate::calls::Calls;
use crate::files::copy_from;
use std::alloc::Global;
use sw_base::{File, Memory, Trouble};

/// A copy of a file's bytes, and how many of them were read.
#[derive(Drop)]
pub struct MemFile {
    bytes: Vec<u8>,
    place: usize,
    faults: u64,
    calls: Calls,
}

impl MemFile {
    // A file with these bytes, of which these reads are to fail.
    pub(crate) fn new(alloc: Global, bytes: &[u8], failing: &[u64]) -> Result<MemFile, Memory>
        ensures left { IfOk result (λ file. bytes_left file ≡ bytes.now) }
        ensures faults { IfOk result (λ file. faults_of file ≡ 0) }
        ensures calls { IfOk result (λ file. calls_of file ≡ 0) }
        ensures failing { IfOk result (λ file. failing_of file ≡ failing.now) }
    {
        Ok(MemFile {
            bytes: bytes.to_vec(alloc)?,
            place: 0,
            faults: 0,
            calls: Calls::failing(failing.to_vec(alloc)?),
        })
    }

    // How often a read failed.
    pub(crate) fn faults(&self) -> u64
        ensures { result ≡ faults_of self.now }
    {
        self.faults
    }
}

impl File for MemFile {
    ghost rest = { told_rest };

    ghost faults = { faults_of };

    #[tactic(auto, using(crate::proofs::Rests::reads_rest))]
    fn read(&mut self, _alloc: Global, into: &mut [u8]) -> Result<usize, Trouble>
        ensures fits { IfOk result (λ count. count ≤ length into.old) }
        ensures bytes { IfOk result (λ count. WhereTold (told_rest self.old) (λ bytes. Reads bytes 0 count into.new)) }
        ensures passed { IfOk result (λ count. told_rest self.new ≡ option_map (drop count) (told_rest self.old)) }
        ensures rest { IfOk result (λ count. drop count into.new ≡ drop count into.old) }
        ensures unread { OnErr result (into.new ≡ into.old) }
        ensures kept { OnErr result (bytes_left self.new ≡ bytes_left self.old) }

        ensures cause { HasCause (faults_of self.old) (faults_of self.new) result }
        ensures no_fault { (IsErrOf result Trouble.Failed → ⊥) → faults_of self.new ≡ faults_of self.old }

        ensures counts { CountsCall (IsErrOf result Trouble.Failed) (counted_of self.old) (counted_of self.new) }
        ensures no_memory { IsErrOf result Trouble.Memory → ⊥ }
    {
        if self.calls.fails(&mut self.faults) {
            return Err(Trouble::Failed);
        }
        let count = copy_from(&self.bytes, self.place as u64, into);
        self.place += count;
        Ok(count)
    }
}
