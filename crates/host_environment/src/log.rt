//! A log as a real file.
ghost use Rattle.std.specs.Prelude.{◌≡◌, List, None, OnOk, Option, string_bytes};
ghost use Rattle.sw_base.specs.Environment.{HasCause, Text};
ghost use Rattle.sw_base.specs.declared.path.Step.{Step};

use crate::system::{append_at, counted, find_end, make_empty, trouble};
use std::alloc::Global;
use std::rt::Files;
use sw_base::{Log, Path, Trouble};

/// The log of one task as a real file, which is open only while a piece is appended. It knows where the file ends, so that a change by
/// someone else is a fault.
#[derive(Drop)]
pub struct HostLog<R> {
    rt: R,
    dir: String,
    path: Path,
    end: u64,
    faults: u64,
}

impl<R: Files> HostLog<R> {
    // The log of this task, whose file has no byte.
    pub(crate) fn new(rt: R, dir: String, path: Path) -> HostLog<R>
        ensures dir { string_bytes result.dir ≡ string_bytes dir }
        ensures path { result.path ≡ path }
        ensures faults { result.faults ≡ 0 }
    {
        HostLog {
            rt,
            dir,
            path,
            end: 0,
            faults: 0,
        }
    }

    // How often a call on this log failed.
    pub(crate) fn faults(&self) -> u64
        ensures { result ≡ self.now.faults }
    {
        self.faults
    }

    // Counts a fault where the file doesn't end where the last append left it.
    pub(crate) fn check_end(&self, alloc: Global, faults: &mut u64) -> Result<(), Trouble>
        ensures cause { HasCause faults.old faults.new result }
        ensures no_fault { OnOk result (faults.new ≡ faults.old) }
    {
        let name = self.path.name(alloc, self.dir.as_str())?;
        counted(find_end(&self.rt, name.as_str(), self.end), faults)
    }
}

impl<R: Files + Clone + Drop + Send + 'static> Log for HostLog<R> {
    ghost dir = { λ log. string_bytes log.dir };

    ghost path = { λ log. log.path };

    ghost text = { λ _. None };

    ghost faults = { λ log. log.faults };

    fn child(&mut self, alloc: Global, region: u32, lane: u16, span: u16) -> Result<Self, Trouble> {
        let path = self.path.child(region, lane, span);
        let dir = self.dir.clone()?;
        let name = path.name(alloc, dir.as_str())?;
        let rt = self.rt.clone()?;
        match make_empty(&rt, name.as_str()) {
            Ok(()) => Ok(HostLog::new(rt, dir, path)),
            Err(error) => Err(trouble(error, &mut self.faults)),
        }
    }

    fn append(&mut self, alloc: Global, piece: &[u8]) -> Result<(), Trouble> {
        let name = self.path.name(alloc, self.dir.as_str())?;
        let appended = append_at(&self.rt, name.as_str(), self.end, piece);
        counted(appended, &mut self.faults)?;
        self.end = self.end.saturating_add(piece.len() as u64);
        Ok(())
    }
}
