//! An opened file as a real one.
ghost use Rattle.std.specs.Prelude.{◌≡◌, List, None, Option};

use crate::system::trouble;
use std::alloc::Global;
use std::fs;
use std::io::Read;
use sw_base::{File, Trouble};

/// A real file that is open. It ends where it ended when it was opened, so that no call of the system is made at its end.
#[derive(Drop)]
pub struct HostFile {
    file: fs::File,
    left: u64,
    faults: u64,
}

impl HostFile {
    // A file of so many bytes, of which no read failed yet.
    pub(crate) fn new(file: fs::File, size: u64) -> HostFile
        ensures { result.faults ≡ 0 }
    {
        HostFile {
            file,
            left: size,
            faults: 0,
        }
    }

    // How often a read failed.
    pub(crate) fn faults(&self) -> u64
        ensures { result ≡ self.now.faults }
    {
        self.faults
    }
}

impl File for HostFile {
    ghost rest = { λ _. None };

    ghost faults = { λ file. file.faults };

    fn read(&mut self, _alloc: Global, into: &mut [u8]) -> Result<usize, Trouble> {
        if self.left == 0 {
            return Ok(0);
        }
        match self.file.read(into) {
            Ok(count) => {
                self.left = self.left.saturating_sub(count as u64);
                Ok(count)
            }
            Err(error) => Err(trouble(error, &mut self.faults)),
        }
    }
}
