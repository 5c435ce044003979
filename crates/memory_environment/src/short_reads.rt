//! A folder of which one read gives at most five bytes. It tells nothing of what it holds.
ghost use Rattle.std.specs.Prelude.{None};
ghost use Rattle.memory_environment.specs.MemFile.{faults_of};
ghost use Rattle.memory_environment.specs.MemFolder.{read_faults_of, roots_of, write_faults_of};

use crate::file::MemFile;
use crate::folder::MemFolder;
use crate::log::MemLog;
use std::alloc::Global;
use sw_base::{File, Folder, Trouble};

/// A file in memory, whose reads come in short pieces.
#[derive(Drop)]
pub struct ShortFile {
    file: MemFile,
}

impl File for ShortFile {
    ghost rest = { λ _. None };

    ghost faults = { λ f. faults_of f.file };

    fn read(&mut self, alloc: Global, into: &mut [u8]) -> Result<usize, Trouble> {
        let most = into.len().min(5);
        self.file.read(alloc, &mut into[..most])
    }
}

/// A folder in memory, whose reads come in short pieces.
#[derive(Drop)]
pub struct ShortReads {
    pub folder: MemFolder,
}

impl Folder for ShortReads {
    type Log = MemLog;

    type File = ShortFile;

    ghost state = { λ s. record { content = None; write_faults = write_faults_of s.folder; roots = roots_of s.folder } };

    ghost read_faults = { λ s. read_faults_of s.folder };

    fn size(&mut self, alloc: Global, name: &str) -> Result<Option<u64>, Trouble> {
        self.folder.size(alloc, name)
    }

    fn read(
        &mut self,
        alloc: Global,
        name: &str,
        at: u64,
        into: &mut [u8],
    ) -> Result<usize, Trouble> {
        let most = into.len().min(5);
        self.folder.read(alloc, name, at, &mut into[..most])
    }

    fn open_file(&mut self, alloc: Global, name: &str) -> Result<Option<ShortFile>, Trouble> {
        let file = self.folder.open_file(alloc, name)?;
        Ok(file.map(|file| ShortFile { file }))
    }

    fn close_file(&mut self, file: ShortFile) {
        self.folder.close_file(file.file)
    }

    fn put(&mut self, alloc: Global, name: &str, bytes: &[u8]) -> Result<(), Trouble> {
        self.folder.put(alloc, name, bytes)
    }

    fn root(&mut self, _alloc: Global, _dir: &str) -> Result<MemLog, Trouble> {
        self.folder.count_root();
        Err(Trouble::Memory)
    }

    fn seal(&mut self, alloc: Global, log: MemLog) -> Result<(), (Trouble, MemLog)> {
        self.folder.seal(alloc, log)
    }

    fn discard(&mut self, log: MemLog) {
        self.folder.discard(log)
    }
}
