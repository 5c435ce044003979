//! The environment as the rest of the program sees it: a folder with its logs and its opened files, what is printed, and a gate.
//!
//! What an object holds is optional: a real file tells nothing, and the versions in memory tell all. A clause on content
//! says what holds where the object tells it. Counts of faults are always there, and never fall; they stay where a call did what it
//! should, so a call that failed and was made again shows.
ghost use Rattle.std.specs.Prelude.{◌≡◌, ◌+◌, ◌<◌, ◌≤◌, ℕ, List, [], ◌∷◌, ◌++◌, length, drop, Option, Some, unwrap_or, is_some, IfOk, IfErr, IfSome, OnOk, OnErr, IsErrOf};
ghost use Rattle.std.specs.Option.{option_map};
ghost use Rattle.sw_base.specs.Environment.{FolderState, Text, WhereTold, Rose, next_count, HasCause, TakesFaults, Reads, LeavesPrefix, TearsPiece, GainsPrefix, with_put, with_log, with_piece, empty_text, gained};
ghost use Rattle.sw_base.specs.Names.{log_name};
ghost use Rattle.sw_base.specs.declared.path.Step.{Step};

use crate::trouble::Trouble;
use std::alloc::Global;

/// Sees each lane of a region start a phase, and each worker of a comparison start. In the program it does nothing.
pub trait Gate: Sync {
    /// The lane or worker of this number is here.
    fn enter(&self, number: usize);
}

/// A gate that does nothing.
pub struct NoGate;

impl Gate for NoGate {
    fn enter(&self, _number: usize) {}
}

/// What is printed.
pub trait Out {
    /// The bytes that were written, where the object tells them.
    ghost written: { Self → Option (List ℕ) };

    /// How often a write failed.
    ghost faults: { Self → ℕ };

    /// Writes the piece after what was written.
    fn append(&mut self, alloc: Global, piece: &[u8]) -> Result<(), Trouble>
        ensures done { OnOk result (written self.new ≡ gained (written self.old) piece.now) }
        ensures refused { OnErr result (GainsPrefix (written self.old) (written self.new) piece.now) }
        ensures memory { IsErrOf result Trouble.Memory → written self.new ≡ written self.old }
        ensures cause { HasCause (faults self.old) (faults self.new) result }
        ensures no_fault { OnOk result (faults self.new ≡ faults self.old) };
}

/// The log of one task: the pieces of its bytes, as they are appended.
pub trait Log: Drop + Send + Sized + 'static {
    /// The folder's name.
    ghost dir: { Self → List ℕ };

    /// The task's path.
    ghost path: { Self → List Step };

    /// The bytes, and the pieces that were appended with success, where the log tells them.
    ghost text: { Self → Option Text };

    /// How often a call on this log failed, from 0 on.
    ghost faults: { Self → ℕ };

    /// A new empty log of the same folder, for a lane of one of this task's regions.
    fn child(&mut self, alloc: Global, region: u32, lane: u16, span: u16) -> Result<Self, Trouble>
        requires { length (path self.old) < 4 }

        ensures child_dir { IfOk result (λ log. dir log ≡ dir self.old) }
        ensures child_path { IfOk result (λ log. path log ≡ path self.old ++ record { region = region; lane = lane; span = span } ∷ []) }
        ensures child_text { IfOk result (λ log. text log ≡ option_map (λ _. empty_text) (text self.old)) }
        ensures child_faults { IfOk result (λ log. faults log ≡ 0) }

        ensures same_dir { dir self.new ≡ dir self.old }
        ensures same_path { path self.new ≡ path self.old }
        ensures same_text { text self.new ≡ text self.old }
        ensures memory_faults { IsErrOf result Trouble.Memory → faults self.new ≡ faults self.old }
        ensures cause { HasCause (faults self.old) (faults self.new) result }
        ensures no_fault { OnOk result (faults self.new ≡ faults self.old) };

    /// Adds the piece to the log's end.
    fn append(&mut self, alloc: Global, piece: &[u8]) -> Result<(), Trouble>
        ensures done { OnOk result (text self.new ≡ option_map (with_piece piece.now) (text self.old)) }
        ensures refused { OnErr result (TearsPiece (text self.old) (text self.new) piece.now) }
        ensures memory { IsErrOf result Trouble.Memory → text self.new ≡ text self.old }
        ensures memory_faults { IsErrOf result Trouble.Memory → faults self.new ≡ faults self.old }

        ensures same_dir { dir self.new ≡ dir self.old }
        ensures same_path { path self.new ≡ path self.old }
        ensures cause { HasCause (faults self.old) (faults self.new) result }
        ensures no_fault { OnOk result (faults self.new ≡ faults self.old) };
}

/// A file that was opened, which is read from its start on by whoever owns it.
pub trait File: Drop + Send + Sized {
    /// The bytes that are still to be read, where the file tells them.
    ghost rest: { Self → Option (List ℕ) };

    /// How often a read of this file failed, from 0 on.
    ghost faults: { Self → ℕ };

    /// Reads the next bytes into the start of `into`, and answers how many. Fewer may come than `into` has room for, but none only
    /// at the end or where there is no room. Behind them, and after an error, `into` may hold anything. After an error the file
    /// may stand anywhere.
    fn read(&mut self, alloc: Global, into: &mut [u8]) -> Result<usize, Trouble>
        ensures fits { IfOk result (λ count. count ≤ length into.old) }
        ensures bytes { IfOk result (λ count. WhereTold (rest self.old) (λ bytes. Reads bytes 0 count into.new)) }
        ensures passed { IfOk result (λ count. rest self.new ≡ option_map (drop count) (rest self.old)) }

        ensures cause { HasCause (faults self.old) (faults self.new) result }
        ensures no_fault { (IsErrOf result Trouble.Failed → ⊥) → faults self.new ≡ faults self.old };
}

/// A map from names to files, in which logs are made and sealed. Calls that only read count their faults by themselves.
pub trait Folder {
    type Log: Log;

    type File: File;

    /// The files that the folder holds and the logs that it sealed, where the folder tells them; how often a call that writes
    /// failed, or a log with faults came back; and how often `root` was called.
    ghost state: { Self → FolderState };

    /// How often `size`, `read` or `open_file` failed, or a file with faults came back.
    ghost read_faults: { Self → ℕ };

    /// How many bytes the named file has. `None` where there is none.
    fn size(&mut self, alloc: Global, name: &str) -> Result<Option<u64>, Trouble>
        ensures size { IfOk result (λ size. WhereTold (state self.old).content (λ c. size ≡ option_map length (c.held name.now))) }

        ensures same { state self.new ≡ state self.old }
        ensures cause { HasCause (read_faults self.old) (read_faults self.new) result }
        ensures no_fault { (IsErrOf result Trouble.Failed → ⊥) → read_faults self.new ≡ read_faults self.old };

    /// Reads bytes of the named file, from the place `at` on, into the start of `into`, and answers how many. A file that
    /// isn't there is read as one without a byte. Fewer may come than `into` has room for, but none only at the end or where
    /// there is no room. Behind them, and after an error, `into` may hold anything.
    fn read(
        &mut self,
        alloc: Global,
        name: &str,
        at: u64,
        into: &mut [u8],
    ) -> Result<usize, Trouble>
        ensures fits { IfOk result (λ count. count ≤ length into.old) }
        ensures bytes { IfOk result (λ count. WhereTold (state self.old).content (λ c. Reads (unwrap_or (c.held name.now) []) at count into.new)) }

        ensures same { state self.new ≡ state self.old }
        ensures cause { HasCause (read_faults self.old) (read_faults self.new) result }
        ensures no_fault { (IsErrOf result Trouble.Failed → ⊥) → read_faults self.new ≡ read_faults self.old };

    /// The named file, before its first byte. `None` where there is none.
    fn open_file(&mut self, alloc: Global, name: &str) -> Result<Option<Self::File>, Trouble>
        ensures rest { IfOk result (λ found. WhereTold (state self.old).content (λ c. option_map Self.File.rest found ≡ option_map Some (c.held name.now))) }
        ensures file_faults { IfOk result (λ found. IfSome found (λ file. Self.File.faults file ≡ 0)) }

        ensures same { state self.new ≡ state self.old }
        ensures cause { HasCause (read_faults self.old) (read_faults self.new) result }
        ensures no_fault { (IsErrOf result Trouble.Failed → ⊥) → read_faults self.new ≡ read_faults self.old };

    /// Takes a file back.
    fn close_file(&mut self, file: Self::File)
        ensures same { state self.new ≡ state self.old }
        ensures file_faults { TakesFaults (Self.File.faults file) (read_faults self.old) (read_faults self.new) }
        ensures no_faults { Self.File.faults file ≡ 0 → read_faults self.new ≡ read_faults self.old };

    /// Makes the named file hold these bytes.
    fn put(&mut self, alloc: Global, name: &str, bytes: &[u8]) -> Result<(), Trouble>
        ensures done { OnOk result ((state self.new).content ≡ option_map (with_put name.now bytes.now) (state self.old).content) }
        ensures refused { OnErr result (LeavesPrefix (state self.old).content (state self.new).content name.now bytes.now) }

        ensures cause { HasCause (state self.old).write_faults (state self.new).write_faults result }
        ensures no_fault { OnOk result ((state self.new).write_faults ≡ (state self.old).write_faults) }
        ensures same_roots { (state self.new).roots ≡ (state self.old).roots }
        ensures same_reads { read_faults self.new ≡ read_faults self.old };

    /// A new empty log for the root task, in the folder `dir`.
    fn root(&mut self, alloc: Global, dir: &str) -> Result<Self::Log, Trouble>
        ensures log_dir { IfOk result (λ log. Self.Log.dir log ≡ dir.now) }
        ensures log_path { IfOk result (λ log. Self.Log.path log ≡ []) }
        ensures log_text { IfOk result (λ log. Self.Log.text log ≡ option_map (λ _. empty_text) (state self.old).content) }
        ensures log_faults { IfOk result (λ log. Self.Log.faults log ≡ 0) }

        ensures same { (state self.new).content ≡ (state self.old).content }
        ensures cause { HasCause (state self.old).write_faults (state self.new).write_faults result }
        ensures no_fault { OnOk result ((state self.new).write_faults ≡ (state self.old).write_faults) }
        ensures roots { (state self.new).roots ≡ next_count (state self.old).roots }
        ensures same_reads { read_faults self.new ≡ read_faults self.old };

    /// Makes the log's name hold its bytes, and notes the lengths of its pieces. An error hands the log back.
    fn seal(&mut self, alloc: Global, log: Self::Log) -> Result<(), (Trouble, Self::Log)>
        ensures done { OnOk result (WhereTold (Self.Log.text log) (λ text.
            (state self.new).content ≡ option_map (with_log (log_name (Self.Log.dir log) (Self.Log.path log)) text) (state self.old).content)) }
        ensures refused { OnErr result (WhereTold (Self.Log.text log) (λ text.
            LeavesPrefix (state self.old).content (state self.new).content (log_name (Self.Log.dir log) (Self.Log.path log)) text.bytes)) }
        ensures tells { is_some (state self.new).content ≡ is_some (state self.old).content }
        ensures given_back { IfErr result (λ error. error.1 ≡ log) }

        ensures log_faults { TakesFaults (Self.Log.faults log) (state self.old).write_faults (state self.new).write_faults }
        ensures cause { IfErr result (λ error. error.0 ≡ Trouble.Failed → Rose (state self.old).write_faults (state self.new).write_faults) }
        ensures no_fault { OnOk result (Self.Log.faults log ≡ 0 → (state self.new).write_faults ≡ (state self.old).write_faults) }
        ensures same_roots { (state self.new).roots ≡ (state self.old).roots }
        ensures same_reads { read_faults self.new ≡ read_faults self.old };

    /// Gives up a log.
    fn discard(&mut self, log: Self::Log)
        ensures same { (state self.new).content ≡ (state self.old).content }
        ensures log_faults { TakesFaults (Self.Log.faults log) (state self.old).write_faults (state self.new).write_faults }
        ensures no_faults { Self.Log.faults log ≡ 0 → (state self.new).write_faults ≡ (state self.old).write_faults }
        ensures same_roots { (state self.new).roots ≡ (state self.old).roots }
        ensures same_reads { read_faults self.new ≡ read_faults self.old };
}
