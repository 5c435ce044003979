//! A folder of real files.
ghost use Rattle.std.specs.Prelude.{◌≡◌, ◌≤◌, None, length, IfOk};

use crate::file::HostFile;
use crate::log::HostLog;
use crate::system::{counted, is_missing, make_empty, open_regular, put_whole, size_of, trouble};
use std::alloc::Global;
use std::fs;
use std::fs::File;
use std::io::{self, Read, Seek, SeekFrom};
use std::rt::Files;
use sw_base::{Folder, Path, Trouble, take_faults};

/// Real files, under the names that the calls give.
#[derive(Drop)]
pub struct HostFolder<R> {
    rt: R,
    read_faults: u64,
    write_faults: u64,
    roots: u64,
}

impl<R: Files> HostFolder<R> {
    /// Real files, with no fault yet.
    pub fn new(rt: R) -> Self {
        HostFolder {
            rt,
            read_faults: 0,
            write_faults: 0,
            roots: 0,
        }
    }

    /// How many calls that read have failed, and how many that write: a file's or a log's faults count once it was given back.
    pub fn faults(&self) -> (u64, u64)
        ensures { result ≡ (self.now.read_faults, self.now.write_faults) }
    {
        (self.read_faults, self.write_faults)
    }
}

fn read_at<R: Files>(rt: &R, name: &str, at: u64, into: &mut [u8]) -> io::Result<usize>
    ensures { IfOk result (λ count. count ≤ length into.old) }
{
    let mut file = File::open(rt, name)?;
    file.seek(SeekFrom::Start(at))?;
    file.read(into)
}

fn make_root<R: Files>(rt: &R, dir: &str, name: &str) -> io::Result<()> {
    fs::create_dir_all(rt, dir)?;
    make_empty(rt, name)
}

impl<R: Files<File = File> + Clone + Drop + Send + 'static> Folder for HostFolder<R> {
    type Log = HostLog<R>;

    type File = HostFile;

    ghost state = { λ folder. record { content = None; write_faults = folder.write_faults; roots = folder.roots } };

    ghost read_faults = { λ folder. folder.read_faults };

    fn size(&mut self, _alloc: Global, name: &str) -> Result<Option<u64>, Trouble> {
        match size_of(&self.rt, name) {
            Ok(size) => Ok(Some(size)),
            Err(error) if is_missing(&error) => Ok(None),
            Err(error) => Err(trouble(error, &mut self.read_faults)),
        }
    }

    fn read(
        &mut self,
        _alloc: Global,
        name: &str,
        at: u64,
        into: &mut [u8],
    ) -> Result<usize, Trouble> {
        match read_at(&self.rt, name, at, into) {
            Ok(count) => Ok(count),
            Err(error) if is_missing(&error) => Ok(0),
            Err(error) => Err(trouble(error, &mut self.read_faults)),
        }
    }

    fn open_file(&mut self, _alloc: Global, name: &str) -> Result<Option<HostFile>, Trouble> {
        match open_regular(&self.rt, name) {
            Ok((file, size)) => Ok(Some(HostFile::new(file, size))),
            Err(error) if is_missing(&error) => Ok(None),
            Err(error) => Err(trouble(error, &mut self.read_faults)),
        }
    }

    fn close_file(&mut self, file: HostFile) {
        take_faults(&mut self.read_faults, file.faults());
    }

    fn put(&mut self, _alloc: Global, name: &str, bytes: &[u8]) -> Result<(), Trouble> {
        counted(put_whole(&self.rt, name, bytes), &mut self.write_faults)
    }

    fn root(&mut self, alloc: Global, dir: &str) -> Result<HostLog<R>, Trouble> {
        self.roots = self.roots.saturating_add(1);
        let path = Path::root();
        let name = path.name(alloc, dir)?;
        let rt = self.rt.clone()?;
        let dir = String::from_str(alloc, dir)?;
        match make_root(&rt, dir.as_str(), name.as_str()) {
            Ok(()) => Ok(HostLog::new(rt, dir, path)),
            Err(error) => Err(trouble(error, &mut self.write_faults)),
        }
    }

    fn seal(&mut self, alloc: Global, log: HostLog<R>) -> Result<(), (Trouble, HostLog<R>)> {
        take_faults(&mut self.write_faults, log.faults());
        match log.check_end(alloc, &mut self.write_faults) {
            Ok(()) => Ok(()),
            Err(trouble) => Err((trouble, log)),
        }
    }

    fn discard(&mut self, log: HostLog<R>) {
        take_faults(&mut self.write_faults, log.faults());
    }
}
