//! A task's log, kept in memory.
ghost use Rattle.std.specs.Prelude.{◌≡◌, ◌<◌, ◌↔◌, [], ◌∷◌, ◌++◌, length, map, string_bytes, IfOk, OnOk, OnErr, IsErrOf};
ghost use Rattle.std.specs.Option.{option_map};
ghost use Rattle.sw_base.specs.Environment.{HasCause, TearsPiece, empty_text, with_piece};
ghost use Rattle.sw_base.specs.Names.{log_name};
ghost use Rattle.memory_environment.specs.Plans.{plans_by, FailsAsPlanned};

use crate::calls::{Calls, tear};
use crate::plans::Plans;
use std::alloc::Global;
use sw_base::{Log, Memory, Path, Trouble};

/// A log that keeps its bytes, and its pieces. After an append that failed the bytes are more than the pieces. The logs that
/// are made from it take over the plans for calls that are to fail.
#[derive(Drop)]
pub struct MemLog {
    dir: String,
    path: Path,
    bytes: Vec<u8>,
    pieces: Vec<Vec<u8>>,
    lengths: Vec<usize>,
    faults: u64,
    calls: Calls,
    plans: Plans,
    ghost lengths_of_pieces: { lengths.items ≡ map length (map (λ piece. piece.items) pieces.items) },
}

impl MemLog {
    ghost use Rattle.memory_environment.specs.MemLog.{dir_of, path_of, bytes_of, pieces_of, text_of, faults_of, calls_of, failing_of, plans_of};

    /// An empty log of the root task, in the folder `dir`.
    #[tactic(auto, using(crate::proofs::Planned::none_planned))]
    pub fn new(alloc: Global, dir: &str) -> Result<MemLog, Memory>
        ensures dir { IfOk result (λ log. dir_of log ≡ dir.now) }
        ensures path { IfOk result (λ log. path_of log ≡ []) }
        ensures bytes { IfOk result (λ log. bytes_of log ≡ []) }
        ensures pieces { IfOk result (λ log. pieces_of log ≡ []) }
        ensures faults { IfOk result (λ log. faults_of log ≡ 0) }
        ensures calls { IfOk result (λ log. calls_of log ≡ 0) }
        ensures failing { IfOk result (λ log. failing_of log ≡ []) }
        ensures plans { IfOk result (λ log. plans_of log ≡ []) }
    {
        MemLog::planned(alloc, dir, Path::root(), &Plans::new(alloc))
    }

    // An empty log of this task, whose calls fail as they are planned for it.
    pub(crate) fn planned(
        alloc: Global,
        dir: &str,
        path: Path,
        plans: &Plans,
    ) -> Result<MemLog, Memory>
        ensures dir { IfOk result (λ log. dir_of log ≡ dir.now) }
        ensures path { IfOk result (λ log. path_of log ≡ path) }
        ensures bytes { IfOk result (λ log. bytes_of log ≡ []) }
        ensures pieces { IfOk result (λ log. pieces_of log ≡ []) }
        ensures faults { IfOk result (λ log. faults_of log ≡ 0) }
        ensures calls { IfOk result (λ log. calls_of log ≡ 0) }
        ensures failing { IfOk result (λ log. FailsAsPlanned (plans_by plans.now) path (failing_of log)) }
        ensures plans { IfOk result (λ log. plans_of log ≡ plans_by plans.now) }
    {
        let calls = Calls::failing(plans.of(alloc, &path)?);
        Ok(MemLog {
            dir: String::from_str(alloc, dir)?,
            path,
            bytes: Vec::new(alloc),
            pieces: Vec::new(alloc),
            lengths: Vec::new(alloc),
            faults: 0,
            calls,
            plans: plans.copy(alloc)?,
        })
    }

    /// Sets the numbers of the calls of `append` and `child` that are to fail, counted together from 1. Where there is no
    /// memory nothing changes.
    pub fn fail(&mut self, calls: &[u64]) -> Result<(), Memory>
        ensures ok { OnOk result (failing_of self.new ≡ calls.now) }
        ensures err { OnErr result (failing_of self.new ≡ failing_of self.old) }
        ensures same_dir { dir_of self.new ≡ dir_of self.old }
        ensures same_path { path_of self.new ≡ path_of self.old }
        ensures same_text { text_of self.new ≡ text_of self.old }
        ensures same_faults { faults_of self.new ≡ faults_of self.old }
        ensures same_calls { calls_of self.new ≡ calls_of self.old }
        ensures same_plans { plans_of self.new ≡ plans_of self.old }
    {
        self.calls.fail(calls)
    }

    /// The bytes.
    pub fn bytes(&self) -> &[u8]
        ensures { result.now ≡ bytes_of self.now }
    {
        &self.bytes
    }

    /// The lengths of the pieces that were appended with success.
    pub fn lengths(&self) -> &[usize]
        ensures { result.now ≡ map length (pieces_of self.now) }
    {
        &self.lengths
    }

    // The name under which a folder seals this log.
    pub(crate) fn name(&self, alloc: Global) -> Result<String, Memory>
        ensures { IfOk result (λ name. string_bytes name ≡ log_name (dir_of self.now) (path_of self.now)) }
    {
        self.path.name(alloc, self.dir.as_str())
    }

    // How often a call on this log failed.
    pub(crate) fn faults(&self) -> u64
        ensures { result ≡ faults_of self.now }
    {
        self.faults
    }

    // Adds a piece.
    fn add(&mut self, alloc: Global, piece: &[u8]) -> Result<(), Memory>
        ensures ok_bytes { OnOk result (bytes_of self.new ≡ bytes_of self.old ++ piece.now) }
        ensures ok_pieces { OnOk result (pieces_of self.new ≡ pieces_of self.old ++ piece.now ∷ []) }
        ensures err { OnErr result (text_of self.new ≡ text_of self.old) }
        ensures same_dir { dir_of self.new ≡ dir_of self.old }
        ensures same_path { path_of self.new ≡ path_of self.old }
        ensures same_faults { faults_of self.new ≡ faults_of self.old }
        ensures same_calls { calls_of self.new ≡ calls_of self.old }
        ensures same_failing { failing_of self.new ≡ failing_of self.old }
        ensures same_plans { plans_of self.new ≡ plans_of self.old }
    {
        let kept = piece.to_vec(alloc)?;
        self.pieces.try_reserve(1)?;
        self.lengths.try_reserve(1)?;
        self.bytes.extend_from_slice(piece)?;
        self.pieces.push(kept).unwrap();
        self.lengths.push(piece.len()).unwrap();
        Ok(())
    }
}

impl Log for MemLog {
    ghost use Rattle.memory_environment.specs.MemLog.{dir_of, path_of, text_of, faults_of, calls_of, failing_of, plans_of, CountsLogCall};

    ghost dir = { dir_of };

    ghost path = { path_of };

    ghost text = { text_of };

    ghost faults = { faults_of };

    fn child(&mut self, alloc: Global, region: u32, lane: u16, span: u16) -> Result<Self, Trouble>
        requires { length (path_of self.old) < 4 }

        ensures child_dir { IfOk result (λ log. dir_of log ≡ dir_of self.old) }
        ensures child_path { IfOk result (λ log. path_of log ≡ path_of self.old ++ record { region = region; lane = lane; span = span } ∷ []) }
        ensures child_text { IfOk result (λ log. text_of log ≡ option_map (λ _. empty_text) (text_of self.old)) }
        ensures child_faults { IfOk result (λ log. faults_of log ≡ 0) }
        ensures child_calls { IfOk result (λ log. calls_of log ≡ 0) }
        ensures child_failing { IfOk result (λ log. FailsAsPlanned (plans_of self.old) (path_of log) (failing_of log)) }
        ensures child_plans { IfOk result (λ log. plans_of log ≡ plans_of self.old) }

        ensures same_dir { dir_of self.new ≡ dir_of self.old }
        ensures same_path { path_of self.new ≡ path_of self.old }
        ensures same_text { text_of self.new ≡ text_of self.old }
        ensures memory_faults { IsErrOf result Trouble.Memory → faults_of self.new ≡ faults_of self.old }
        ensures cause { HasCause (faults_of self.old) (faults_of self.new) result }
        ensures no_fault { OnOk result (faults_of self.new ≡ faults_of self.old) }

        ensures counts { CountsLogCall (IsErrOf result Trouble.Failed) self.old self.new }
    {
        if self.calls.fails(&mut self.faults) {
            return Err(Trouble::Failed);
        }
        let path = self.path.child(region, lane, span);
        Ok(MemLog::planned(alloc, self.dir.as_str(), path, &self.plans)?)
    }

    #[tactic(auto, using(crate::proofs::Prefixes::tears_piece_same))]
    fn append(&mut self, alloc: Global, piece: &[u8]) -> Result<(), Trouble>
        ensures done { OnOk result (text_of self.new ≡ option_map (with_piece piece.now) (text_of self.old)) }
        ensures refused { OnErr result (TearsPiece (text_of self.old) (text_of self.new) piece.now) }
        ensures memory { IsErrOf result Trouble.Memory → text_of self.new ≡ text_of self.old }
        ensures memory_faults { IsErrOf result Trouble.Memory → faults_of self.new ≡ faults_of self.old }

        ensures same_dir { dir_of self.new ≡ dir_of self.old }
        ensures same_path { path_of self.new ≡ path_of self.old }
        ensures cause { HasCause (faults_of self.old) (faults_of self.new) result }
        ensures no_fault { OnOk result (faults_of self.new ≡ faults_of self.old) }

        ensures counts { CountsLogCall (IsErrOf result Trouble.Failed) self.old self.new }
    {
        if self.calls.fails(&mut self.faults) {
            tear(&mut self.bytes, piece);
            return Err(Trouble::Failed);
        }
        self.add(alloc, piece)?;
        Ok(())
    }
}
