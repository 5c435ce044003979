//! How far a task may be ahead of its log.
ghost use Rattle.std.specs.Prelude.{None, string_bytes};
ghost use Rattle.memory_environment.specs.MemFolder.{read_faults_of, write_faults_of};

use super::asking::asked;
use command_answer::DONE;
use memory_environment::{MemFile, MemFolder, MemOut};
use std::alloc::Global;
use std::sync::Arc;
use std::sync::atomic::{AtomicBool, AtomicU64, Ordering};
use std::test::Fail;
use sw_base::{Folder, Gate, Log, Path, Trouble};

// How many pieces the logs of the two lanes took.
#[derive(Drop)]
struct Pieces {
    lanes: [AtomicU64; 2],
}

// A log that counts its pieces where it is a lane's, and keeps none.
#[derive(Drop)]
struct CountedLog {
    dir: String,
    path: Path,
    lane: Option<usize>,
    pieces: Arc<Pieces>,
}

impl Log for CountedLog {
    ghost dir = { λ log. string_bytes log.dir };

    ghost path = { λ log. log.path };

    ghost text = { λ _. None };

    ghost faults = { λ _. 0 };

    fn child(
        &mut self,
        _alloc: Global,
        region: u32,
        lane: u16,
        span: u16,
    ) -> Result<Self, Trouble> {
        let Ok(pieces) = Arc::try_clone(&self.pieces) else {
            return Err(Trouble::Memory);
        };
        Ok(CountedLog {
            dir: self.dir.clone()?,
            path: self.path.child(region, lane, span),
            lane: Some(usize::from(lane)),
            pieces,
        })
    }

    fn append(&mut self, _alloc: Global, _piece: &[u8]) -> Result<(), Trouble> {
        if let Some(lane) = self.lane
            && let Some(pieces) = self.pieces.lanes.get(lane)
        {
            pieces.fetch_add(1, Ordering::SeqCst);
        }
        Ok(())
    }
}

// A folder whose logs are counted and not kept.
#[derive(Drop)]
struct CountingFolder {
    files: MemFolder,
    roots: u64,
    pieces: Arc<Pieces>,
}

impl Folder for CountingFolder {
    type Log = CountedLog;

    type File = MemFile;

    ghost state = { λ f. record { content = None; write_faults = write_faults_of f.files; roots = f.roots } };

    ghost read_faults = { λ f. read_faults_of f.files };

    fn size(&mut self, alloc: Global, name: &str) -> Result<Option<u64>, Trouble> {
        self.files.size(alloc, name)
    }

    fn read(
        &mut self,
        alloc: Global,
        name: &str,
        at: u64,
        into: &mut [u8],
    ) -> Result<usize, Trouble> {
        self.files.read(alloc, name, at, into)
    }

    fn open_file(&mut self, alloc: Global, name: &str) -> Result<Option<MemFile>, Trouble> {
        self.files.open_file(alloc, name)
    }

    fn close_file(&mut self, file: MemFile) {
        self.files.close_file(file);
    }

    fn put(&mut self, alloc: Global, name: &str, bytes: &[u8]) -> Result<(), Trouble> {
        self.files.put(alloc, name, bytes)
    }

    fn root(&mut self, alloc: Global, dir: &str) -> Result<CountedLog, Trouble> {
        self.roots = self.roots.saturating_add(1);
        let Ok(pieces) = Arc::try_clone(&self.pieces) else {
            return Err(Trouble::Memory);
        };
        Ok(CountedLog {
            dir: String::from_str(alloc, dir)?,
            path: Path::root(),
            lane: None,
            pieces,
        })
    }

    fn seal(&mut self, _alloc: Global, log: CountedLog) -> Result<(), (Trouble, CountedLog)> {
        drop(log);
        Ok(())
    }

    fn discard(&mut self, log: CountedLog) {
        drop(log);
    }
}

// Each lane has five records in its first phase. With a block for one record, its log has the header and three more pieces at the end of it.
const TWO_PHASES: &str = "array a i64 8
main { parallel 2 {
for i in 0 .. 8 { a[i] = i }
a[tid] = 7
} }
";

const PIECES: u64 = 4;

// Notes a lane that starts its second phase before its log has so many pieces.
#[derive(Drop)]
struct LateGate {
    pieces: Arc<Pieces>,
    started: [AtomicU64; 2],
    is_ahead: AtomicBool,
}

impl Gate for LateGate {
    fn enter(&self, number: usize) {
        let (Some(started), Some(pieces)) = (
            self.started.get(number),
            self.pieces.lanes.get(number),
        ) else {
            return;
        };
        let phase = started.fetch_add(1, Ordering::SeqCst);
        if phase == 1 && pieces.load(Ordering::SeqCst) < PIECES {
            self.is_ahead.store(true, Ordering::SeqCst);
        }
    }
}

#[test]
fn a_task_is_ahead_of_its_log_by_two_blocks_at_most(rt: HostRuntime) -> Result<(), Fail> {
    let alloc = rt.alloc();
    let lanes = [AtomicU64::new(0), AtomicU64::new(0)];
    let pieces = Arc::new(alloc, Pieces { lanes })?;
    let gate = LateGate {
        pieces: Arc::try_clone(&pieces)?,
        started: [AtomicU64::new(0), AtomicU64::new(0)],
        is_ahead: AtomicBool::new(false),
    };
    let mut folder = CountingFolder {
        files: MemFolder::new(alloc)?,
        roots: 0,
        pieces,
    };
    folder.files.hold("k", TWO_PHASES.as_bytes())?;
    let mut out = MemOut::new(alloc)?;
    let words = &["run", "k", "d", "24"];
    let status = asked(&rt, alloc, &mut folder, words, &mut out, &gate);
    assert!(rt; status == DONE);
    assert!(rt; !gate.is_ahead.load(Ordering::SeqCst));
    assert!(rt; gate.started[0].load(Ordering::SeqCst) == 2);
    Ok(())
}
