//! A folder, kept in memory.
ghost use Rattle.std.specs.Prelude.{◌≡◌, ◌<◌, ◌≤◌, ◌↔◌, [], ◌∷◌, ◌++◌, length, drop, unwrap_or, is_some, IfOk, IfErr, IfSome, OnOk, OnErr, IsErrOf, IsErrAnd, IsTrue, Some, slice_get};
ghost use Rattle.std.specs.Bool.{OnFalse};
ghost use Rattle.std.specs.Option.{option_copied, option_map};
ghost use Rattle.sw_base.specs.Environment.{HasCause, LeavesPrefix, Reads, Rose, TakesFaults, WhereTold, empty_text, next_count, no_files, with_file, with_log, with_put};
ghost use Rattle.memory_environment.specs.MemFolder.{content_of, held_of, sealed_of, read_faults_of, roots_of, folder_state, write_faults_of, calls_of, failing_of, plans_of, CountsRead, CountsSeal, CountsWrite, IsSame, IsUncounted};
ghost use Rattle.memory_environment.specs.MemFile.{told_rest, faults_of as file_faults_of, calls_of as file_calls_of, failing_of as file_failing_of};
ghost use Rattle.memory_environment.specs.MemLog.{dir_of, path_of, text_of, faults_of, bytes_of, pieces_of, failing_of as log_failing_of, plans_of as log_plans_of};
ghost use Rattle.sw_base.specs.Names.{log_name};
ghost use Rattle.memory_environment.specs.Plans.{FailsAsPlanned};

use crate::calls::Calls;
use crate::file::MemFile;
use crate::files::{Held, copy_from, find, store};
use crate::log::MemLog;
use crate::plans::Plans;
use std::alloc::Global;
use std::collections::BTreeMap;
use sw_base::{Folder, Memory, Path, Trouble, take_faults};

/// A log that was sealed: its name, and the lengths of its pieces.
#[derive(Drop)]
pub struct SealedLog {
    name: String,
    lengths: Vec<usize>,
}

/// A folder that keeps its files and the logs that it sealed. It shares nothing with a log until it is sealed or discarded.
#[derive(Drop)]
pub struct MemFolder {
    alloc: Global,
    files: Held,
    sealed: Vec<SealedLog>,
    read_faults: u64,
    write_faults: u64,
    roots: u64,
    calls: Calls,
    plans: Plans,
    file_plans: BTreeMap<String, Vec<u64>>,
}

impl MemFolder {
    /// No file, no log, and no call is to fail.
    #[tactic(auto, unfolding(crate::specs::MemFolder::held_by))]
    pub fn new(alloc: Global) -> Result<MemFolder, Memory>
        ensures held { IfOk result (λ folder. held_of folder ≡ no_files) }
        ensures sealed { IfOk result (λ folder. sealed_of folder ≡ []) }
        ensures read_faults { IfOk result (λ folder. read_faults_of folder ≡ 0) }
        ensures write_faults { IfOk result (λ folder. write_faults_of folder ≡ 0) }
        ensures roots { IfOk result (λ folder. roots_of folder ≡ 0) }
        ensures calls { IfOk result (λ folder. calls_of folder ≡ 0) }
        ensures failing { IfOk result (λ folder. failing_of folder ≡ []) }
        ensures log_plans { IfOk result (λ folder. (plans_of folder).logs ≡ []) }
        ensures file_plans { IfOk result (λ folder. (plans_of folder).files ≡ no_files) }
    {
        Ok(MemFolder {
            alloc,
            files: BTreeMap::new(alloc),
            sealed: Vec::new(alloc),
            read_faults: 0,
            write_faults: 0,
            roots: 0,
            calls: Calls::new(alloc),
            plans: Plans::new(alloc),
            file_plans: BTreeMap::new(alloc),
        })
    }

    /// Sets the numbers of the calls that are to fail: all calls of `Folder` but `discard` and `close_file` are counted together, from 1.
    /// Where there is no memory nothing changes.
    pub fn fail(&mut self, calls: &[u64]) -> Result<(), Memory>
        ensures ok { OnOk result (failing_of self.new ≡ calls.now) }
        ensures err { OnErr result (failing_of self.new ≡ failing_of self.old) }
        ensures same_held { held_of self.new ≡ held_of self.old }
        ensures same_sealed { sealed_of self.new ≡ sealed_of self.old }
        ensures uncounted { IsUncounted self.old self.new }
    {
        self.calls.fail(calls)
    }

    /// Plans that these calls on the log of this task, of those that this folder's later logs make, are to fail. Where there is
    /// no memory nothing changes.
    pub fn fail_log(&mut self, path: &Path, calls: &[u64]) -> Result<(), Memory>
        ensures ok { OnOk result ((plans_of self.new).logs ≡ (plans_of self.old).logs ++ (path.now, calls.now) ∷ []) }
        ensures err { OnErr result ((plans_of self.new).logs ≡ (plans_of self.old).logs) }
        ensures same_files { (plans_of self.new).files ≡ (plans_of self.old).files }
        ensures same { IsSame self.old self.new }
    {
        self.plans.add(path, calls)
    }

    /// Plans that these reads of each file that is opened under this name later are to fail, and no others. Where there is no memory
    /// nothing changes.
    pub fn fail_file(&mut self, name: &str, reads: &[u64]) -> Result<(), Memory>
        ensures ok { OnOk result ((plans_of self.new).files ≡ with_file name.now reads.now (plans_of self.old).files) }
        ensures err { OnErr result ((plans_of self.new).files ≡ (plans_of self.old).files) }
        ensures same_logs { (plans_of self.new).logs ≡ (plans_of self.old).logs }
        ensures same { IsSame self.old self.new }
    {
        let reads = reads.to_vec(self.alloc)?;
        store(&mut self.file_plans, self.alloc, name, reads)
    }

    /// Makes the name hold the bytes. It is no call that is counted. Where there is no memory nothing changes.
    pub fn hold(&mut self, name: &str, bytes: &[u8]) -> Result<(), Memory>
        ensures ok { OnOk result (held_of self.new ≡ with_file name.now bytes.now (held_of self.old)) }
        ensures err { OnErr result (held_of self.new ≡ held_of self.old) }
        ensures same_sealed { sealed_of self.new ≡ sealed_of self.old }
        ensures uncounted { IsUncounted self.old self.new }
        ensures same_failing { failing_of self.new ≡ failing_of self.old }
    {
        let bytes = bytes.to_vec(self.alloc)?;
        store(&mut self.files, self.alloc, name, bytes)
    }

    /// The bytes of the named file. `None` where there is none.
    pub fn file(&self, name: &str) -> Option<&[u8]>
        ensures { option_copied result ≡ held_of self.now name.now }
    {
        find(&self.files, name)
    }

    /// How many calls that read have failed, and how many that write: a file's or a log's faults count once it was given back.
    pub fn faults(&self) -> (u64, u64)
        ensures { result ≡ (read_faults_of self.now, write_faults_of self.now) }
    {
        (self.read_faults, self.write_faults)
    }

    /// How often `root` was called.
    pub fn roots(&self) -> u64
        ensures { result ≡ roots_of self.now }
    {
        self.roots
    }

    /// The name of the log that was sealed at this place, from 0. `None` past the end.
    pub fn sealed_name(&self, at: usize) -> Option<&str>
        ensures { option_copied result ≡ option_map (λ log. log.name) (slice_get (sealed_of self.now) at) }
    {
        match self.sealed.get(at) {
            Some(log) => Some(log.name.as_str()),
            None => None,
        }
    }

    /// The lengths of the pieces of the log that was sealed at this place, from 0. `None` past the end.
    pub fn sealed_lengths(&self, at: usize) -> Option<&[usize]>
        ensures { option_copied result ≡ option_map (λ log. log.lengths) (slice_get (sealed_of self.now) at) }
    {
        match self.sealed.get(at) {
            Some(log) => Some(log.lengths.as_slice()),
            None => None,
        }
    }
}

impl MemFolder {
    // What a call that failed leaves: the name holds the first half of the bytes, or all is as before.
    fn tear_file(&mut self, name: &str, bytes: &[u8])
        ensures torn { LeavesPrefix (content_of self.old) (content_of self.new) name.now bytes.now }
        ensures uncounted { IsUncounted self.old self.new }
        ensures same_failing { failing_of self.new ≡ failing_of self.old }
    {
        let half = bytes.len() / 2;
        let _ = self.hold(name, &bytes[..half]);
    }

    // Makes the log's name hold its bytes, and notes the lengths of its pieces.
    fn add_log(&mut self, alloc: Global, log: &MemLog) -> Result<(), Memory>
        ensures ok { OnOk result (content_of self.new
            ≡ option_map (with_log (log_name (dir_of log.now) (path_of log.now)) (record { bytes = bytes_of log.now; pieces = pieces_of log.now })) (content_of self.old)) }
        ensures err { OnErr result (content_of self.new ≡ content_of self.old) }
        ensures uncounted { IsUncounted self.old self.new }
        ensures same_failing { failing_of self.new ≡ failing_of self.old }
    {
        let name = log.name(alloc)?;
        let lengths = log.lengths().to_vec(alloc)?;
        let bytes = log.bytes().to_vec(alloc)?;
        self.sealed.try_reserve(1)?;
        store(&mut self.files, alloc, name.as_str(), bytes)?;
        self.sealed.push(SealedLog { name, lengths }).unwrap();
        Ok(())
    }

    // Counts that a root's log is asked for.
    pub(crate) fn count_root(&mut self)
        ensures counts { folder_state self.new ≡ record (folder_state self.old) { roots = next_count (roots_of self.old) } }
        ensures same_reads { read_faults_of self.new ≡ read_faults_of self.old }
        ensures same_calls { calls_of self.new ≡ calls_of self.old }
        ensures same_failing { failing_of self.new ≡ failing_of self.old }
        ensures same_plans { plans_of self.new ≡ plans_of self.old }
    {
        self.roots = self.roots.saturating_add(1);
    }
}

impl Folder for MemFolder {
    type Log = MemLog;

    type File = MemFile;

    ghost state = { folder_state };

    ghost read_faults = { read_faults_of };

    fn size(&mut self, _alloc: Global, name: &str) -> Result<Option<u64>, Trouble>
        ensures size { IfOk result (λ size. WhereTold (content_of self.old) (λ c. size ≡ option_map length (c.held name.now))) }

        ensures same { folder_state self.new ≡ folder_state self.old }
        ensures cause { HasCause (read_faults_of self.old) (read_faults_of self.new) result }
        ensures no_fault { (IsErrOf result Trouble.Failed → ⊥) → read_faults_of self.new ≡ read_faults_of self.old }

        ensures counts { CountsRead (IsErrOf result Trouble.Failed) self.old self.new }
        ensures no_memory { IsErrOf result Trouble.Memory → ⊥ }
    {
        if self.calls.fails(&mut self.read_faults) {
            return Err(Trouble::Failed);
        }
        Ok(find(&self.files, name).map(|bytes| bytes.len() as u64))
    }

    fn read(
        &mut self,
        _alloc: Global,
        name: &str,
        at: u64,
        into: &mut [u8],
    ) -> Result<usize, Trouble>
        ensures fits { IfOk result (λ count. count ≤ length into.old) }
        ensures bytes { IfOk result (λ count. WhereTold (content_of self.old) (λ c. Reads (unwrap_or (c.held name.now) []) at count into.new)) }
        ensures rest { IfOk result (λ count. drop count into.new ≡ drop count into.old) }
        ensures unread { OnErr result (into.new ≡ into.old) }

        ensures same { folder_state self.new ≡ folder_state self.old }
        ensures cause { HasCause (read_faults_of self.old) (read_faults_of self.new) result }
        ensures no_fault { (IsErrOf result Trouble.Failed → ⊥) → read_faults_of self.new ≡ read_faults_of self.old }

        ensures counts { CountsRead (IsErrOf result Trouble.Failed) self.old self.new }
        ensures no_memory { IsErrOf result Trouble.Memory → ⊥ }
    {
        if self.calls.fails(&mut self.read_faults) {
            return Err(Trouble::Failed);
        }
        let Some(bytes) = find(&self.files, name) else {
            return Ok(0);
        };
        Ok(copy_from(bytes, at, into))
    }

    fn open_file(&mut self, alloc: Global, name: &str) -> Result<Option<MemFile>, Trouble>
        ensures rest { IfOk result (λ found. WhereTold (content_of self.old) (λ c. option_map told_rest found ≡ option_map Some (c.held name.now))) }
        ensures file_faults { IfOk result (λ found. IfSome found (λ file. file_faults_of file ≡ 0)) }
        ensures file_calls { IfOk result (λ found. IfSome found (λ file. file_calls_of file ≡ 0)) }
        ensures file_failing { IfOk result (λ found. IfSome found (λ file. file_failing_of file ≡ unwrap_or ((plans_of self.old).files name.now) [])) }

        ensures same { folder_state self.new ≡ folder_state self.old }
        ensures cause { HasCause (read_faults_of self.old) (read_faults_of self.new) result }
        ensures no_fault { (IsErrOf result Trouble.Failed → ⊥) → read_faults_of self.new ≡ read_faults_of self.old }

        ensures counts { CountsRead (IsErrOf result Trouble.Failed) self.old self.new }
    {
        if self.calls.fails(&mut self.read_faults) {
            return Err(Trouble::Failed);
        }
        let Some(bytes) = find(&self.files, name) else {
            return Ok(None);
        };
        let failing = find(&self.file_plans, name).unwrap_or(&[]);
        Ok(Some(MemFile::new(alloc, bytes, failing)?))
    }

    fn close_file(&mut self, file: MemFile)
        ensures same { folder_state self.new ≡ folder_state self.old }
        ensures file_faults { TakesFaults (file_faults_of file) (read_faults_of self.old) (read_faults_of self.new) }
        ensures no_faults { file_faults_of file ≡ 0 → read_faults_of self.new ≡ read_faults_of self.old }

        ensures same_calls { calls_of self.new ≡ calls_of self.old }
        ensures same_failing { failing_of self.new ≡ failing_of self.old }
        ensures same_plans { plans_of self.new ≡ plans_of self.old }
    {
        take_faults(&mut self.read_faults, file.faults());
    }

    fn put(&mut self, _alloc: Global, name: &str, bytes: &[u8]) -> Result<(), Trouble>
        ensures done { OnOk result (content_of self.new ≡ option_map (with_put name.now bytes.now) (content_of self.old)) }
        ensures refused { OnErr result (LeavesPrefix (content_of self.old) (content_of self.new) name.now bytes.now) }
        ensures memory { IsErrOf result Trouble.Memory → content_of self.new ≡ content_of self.old }

        ensures cause { HasCause (write_faults_of self.old) (write_faults_of self.new) result }
        ensures no_fault { OnOk result (write_faults_of self.new ≡ write_faults_of self.old) }
        ensures same_roots { roots_of self.new ≡ roots_of self.old }
        ensures same_reads { read_faults_of self.new ≡ read_faults_of self.old }

        ensures counts { CountsWrite (IsErrOf result Trouble.Failed) self.old self.new }
    {
        if self.calls.fails(&mut self.write_faults) {
            self.tear_file(name, bytes);
            return Err(Trouble::Failed);
        }
        self.hold(name, bytes)?;
        Ok(())
    }

    fn root(&mut self, alloc: Global, dir: &str) -> Result<MemLog, Trouble>
        ensures log_dir { IfOk result (λ log. dir_of log ≡ dir.now) }
        ensures log_path { IfOk result (λ log. path_of log ≡ []) }
        ensures log_text { IfOk result (λ log. text_of log ≡ option_map (λ _. empty_text) (content_of self.old)) }
        ensures log_faults { IfOk result (λ log. faults_of log ≡ 0) }
        ensures log_failing { IfOk result (λ log. FailsAsPlanned (plans_of self.old).logs [] (log_failing_of log)) }
        ensures log_plans { IfOk result (λ log. log_plans_of log ≡ (plans_of self.old).logs) }

        ensures same { content_of self.new ≡ content_of self.old }
        ensures cause { HasCause (write_faults_of self.old) (write_faults_of self.new) result }
        ensures no_fault { OnOk result (write_faults_of self.new ≡ write_faults_of self.old) }
        ensures roots { roots_of self.new ≡ next_count (roots_of self.old) }
        ensures same_reads { read_faults_of self.new ≡ read_faults_of self.old }

        ensures counts { CountsWrite (IsErrOf result Trouble.Failed) self.old self.new }
    {
        self.count_root();
        if self.calls.fails(&mut self.write_faults) {
            return Err(Trouble::Failed);
        }
        Ok(MemLog::planned(alloc, dir, Path::root(), &self.plans)?)
    }

    fn seal(&mut self, alloc: Global, log: MemLog) -> Result<(), (Trouble, MemLog)>
        ensures done { OnOk result (WhereTold (text_of log) (λ text.
            content_of self.new ≡ option_map (with_log (log_name (dir_of log) (path_of log)) text) (content_of self.old))) }
        ensures refused { OnErr result (WhereTold (text_of log) (λ text.
            LeavesPrefix (content_of self.old) (content_of self.new) (log_name (dir_of log) (path_of log)) text.bytes)) }
        ensures memory { IsErrAnd result (λ error. error.0 ≡ Trouble.Memory) → content_of self.new ≡ content_of self.old }
        ensures tells { is_some (content_of self.new) ≡ is_some (content_of self.old) }
        ensures given_back { IfErr result (λ error. error.1 ≡ log) }

        ensures log_faults { TakesFaults (faults_of log) (write_faults_of self.old) (write_faults_of self.new) }
        ensures cause { IfErr result (λ error. error.0 ≡ Trouble.Failed → Rose (write_faults_of self.old) (write_faults_of self.new)) }
        ensures no_fault { OnOk result (faults_of log ≡ 0 → write_faults_of self.new ≡ write_faults_of self.old) }
        ensures same_roots { roots_of self.new ≡ roots_of self.old }
        ensures same_reads { read_faults_of self.new ≡ read_faults_of self.old }

        ensures counts { CountsSeal (faults_of log ≡ 0) (IsErrAnd result (λ error. error.0 ≡ Trouble.Failed)) self.old self.new }
    {
        take_faults(&mut self.write_faults, log.faults());
        if self.calls.fails(&mut self.write_faults) {
            if let Ok(name) = log.name(alloc) {
                self.tear_file(name.as_str(), log.bytes());
            }
            return Err((Trouble::Failed, log));
        }
        match self.add_log(alloc, &log) {
            Ok(()) => Ok(()),
            Err(Memory) => Err((Trouble::Memory, log)),
        }
    }

    fn discard(&mut self, log: MemLog)
        ensures same { content_of self.new ≡ content_of self.old }
        ensures log_faults { TakesFaults (faults_of log) (write_faults_of self.old) (write_faults_of self.new) }
        ensures no_faults { faults_of log ≡ 0 → write_faults_of self.new ≡ write_faults_of self.old }
        ensures same_roots { roots_of self.new ≡ roots_of self.old }
        ensures same_reads { read_faults_of self.new ≡ read_faults_of self.old }

        ensures same_calls { calls_of self.new ≡ calls_of self.old }
        ensures same_failing { failing_of self.new ≡ failing_of self.old }
        ensures same_plans { plans_of self.new ≡ plans_of self.old }
    {
        take_faults(&mut self.write_faults, log.faults());
    }
}
