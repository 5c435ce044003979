//! How many logs `check` reads at once.
ghost use Rattle.memory_environment.specs.MemFile.{faults_of, told_rest};
ghost use Rattle.memory_environment.specs.MemFolder.{folder_state, read_faults_of};

use super::asking::{asked, folder_of};
use command_answer::DONE;
use made_folders::{END, Rec, Step, region, store};
use meeting_gate::MeetingGate;
use memory_environment::{MemFile, MemFolder, MemLog, MemOut};
use std::alloc::Global;
use std::process::Abort;
use std::sync::Arc;
use std::test::Fail;
use sw_base::{File, Folder, Gate, NoGate, Trouble};

// A lane's log, whose first read waits for those of the other lanes.
#[derive(Drop)]
struct MeetingFile {
    file: MemFile,
    waits: Option<usize>,
    gate: Arc<MeetingGate>,
}

impl File for MeetingFile {
    ghost rest = { λ f. told_rest f.file };

    ghost faults = { λ f. faults_of f.file };

    fn read(&mut self, alloc: Global, into: &mut [u8]) -> Result<usize, Trouble> {
        if let Some(number) = self.waits.take() {
            self.gate.enter(number);
        }
        self.file.read(alloc, into)
    }
}

// A folder of which each log that is opened but the first, the root's, is one that waits.
#[derive(Drop)]
struct MeetingFolder {
    files: MemFolder,
    opened: usize,
    gate: Arc<MeetingGate>,
}

impl Folder for MeetingFolder {
    type Log = MemLog;

    type File = MeetingFile;

    ghost state = { λ f. folder_state f.files };

    ghost read_faults = { λ f. read_faults_of f.files };

    fn size(&mut self, alloc: Global, name: &str) -> Result<Option<u64>, Trouble> {
        self.files.size(alloc, name)
    }

    fn read(
        &mut self,
        alloc: Global,
        name: &str,
        at: u64,
        into: &mut [u8],
    ) -> Result<usize, Trouble> {
        self.files.read(alloc, name, at, into)
    }

    fn open_file(&mut self, alloc: Global, name: &str) -> Result<Option<MeetingFile>, Trouble> {
        let Ok(gate) = Arc::try_clone(&self.gate) else {
            return Err(Trouble::Memory);
        };
        let waits = self.opened.checked_sub(1);
        self.opened = self.opened.saturating_add(1);
        let Some(file) = self.files.open_file(alloc, name)? else {
            return Ok(None);
        };
        Ok(Some(MeetingFile { file, waits, gate }))
    }

    fn close_file(&mut self, file: MeetingFile) {
        self.files.close_file(file.file);
    }

    fn put(&mut self, alloc: Global, name: &str, bytes: &[u8]) -> Result<(), Trouble> {
        self.files.put(alloc, name, bytes)
    }

    fn root(&mut self, alloc: Global, dir: &str) -> Result<MemLog, Trouble> {
        self.files.root(alloc, dir)
    }

    fn seal(&mut self, alloc: Global, log: MemLog) -> Result<(), (Trouble, MemLog)> {
        self.files.seal(alloc, log)
    }

    fn discard(&mut self, log: MemLog) {
        self.files.discard(log);
    }
}

// So many writes of one element, which are several reads of a log.
const WRITES: usize = 8192;

// The folder of a root with so many lanes, each of which writes an element of its own.
fn writing(rt: &impl Abort, alloc: Global, span: u16) -> MemFolder {
    let root = [region!(1, u64::from(span)), END];
    let mut lanes: Vec<([Step; 1], Vec<Rec>)> = Vec::new(alloc);
    for lane in 0..span {
        let write = store!(2, 4096 + 8 * u64::from(lane));
        let mut records = vec![in alloc; write; WRITES].expect(rt, "memory");
        records.push(END).expect(rt, "memory");
        lanes
            .push(([(0, lane, span)], records))
            .expect(rt, "memory");
    }
    let mut tasks: Vec<(&[Step], &[Rec])> = Vec::new(alloc);
    tasks.push((&[], &root)).expect(rt, "memory");
    for (steps, records) in &lanes {
        tasks.push((steps, records)).expect(rt, "memory");
    }
    folder_of(rt, alloc, &tasks)
}

#[test]
fn each_worker_reads_a_log_at_once(rt: HostRuntime) -> Result<(), Fail> {
    let alloc = rt.alloc();
    for (workers, span) in [("2", 2u16), ("4", 4), ("64", 64)] {
        let mut folder = MeetingFolder {
            files: writing(&rt, alloc, span),
            opened: 0,
            gate: Arc::new(alloc, MeetingGate::new(usize::from(span)))?,
        };
        let mut out = MemOut::new(alloc)?;
        let words = ["check", "d", workers];
        let status = asked(&rt, alloc, &mut folder, &words, &mut out, &NoGate);
        assert!(rt; status == DONE && out.written() == "races 0\n".as_bytes());
        assert!(rt; folder.gate.have_met(), "{workers} workers");
    }
    Ok(())
}
