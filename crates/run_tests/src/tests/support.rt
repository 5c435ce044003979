//! Kernels of texts, run over logs in memory, and what their logs have.
ghost use Rattle.std.specs.Prelude.{IfOk};
ghost use Rattle.kernel_syntax.specs.Program.{program_of};
ghost use Rattle.kernel_model.specs.Lawful.{IsLawful};
ghost use Rattle.region_runner.specs.Answer.{IsBufferSize};

use kernel_reader::read_kernel;
use kernel_syntax::Kernel;
use lane_runner::Stop;
use log_index::Row;
use log_listing::list;
use memory_environment::{MemFolder, MemLog, MemOut};
use region_runner::{Finished, Stopped, run_kernel, run_live};
use std::alloc::Global;
use std::marker::Send;
use std::process::Abort;
use std::sync::Wait;
use std::test::Fail;
use std::thread::Threads;
use sw_base::{ClosedLog, Folder, NoGate, Path, Trouble};
use team_live::{LiveGate, WithoutStart};

/// What the run of a kernel answers.
pub(crate) type Ran = Result<Finished<MemLog>, Stopped<MemLog>>;

/// The kernel of a text.
pub(crate) fn kernel_of(alloc: Global, text: &str) -> Result<Kernel, Fail>
    ensures { IfOk result (λ k. IsLawful (program_of k)) }
{
    Ok(read_kernel(alloc, text.as_bytes())?)
}

/// Runs the kernel of a text, with this gate, where these calls on the log of this task are to fail. The threads of a team stay, or don't.
pub(crate) fn run_with<R: Abort + Threads + Wait + Sync + Copy + Send + 'static, G: LiveGate>(
    rt: &R,
    alloc: Global,
    text: &str,
    size: usize,
    gate: &G,
    failing: (&Path, &[u64]),
    stays: bool,
) -> Ran
    requires { IsBufferSize size }
{
    let (path, calls) = failing;
    let mut folder = MemFolder::new(alloc).expect(rt, "memory");
    folder.fail_log(path, calls).expect(rt, "memory");
    let root = folder.root(alloc, "d").expect(rt, "memory");
    let kernel = match kernel_of(alloc, text) {
        Ok(kernel) => kernel,
        Err(_fail) => panic!(rt; "no kernel"),
    };
    if stays {
        run_live(rt, alloc, &kernel, root, size, gate)
    } else {
        run_kernel(rt, alloc, &kernel, root, size, gate)
    }
}

/// The end of a run of the kernel.
pub(crate) fn finished<R: Abort + Threads + Wait + Sync + Copy + Send + 'static>(
    rt: &R,
    alloc: Global,
    text: &str,
    size: usize,
    stays: bool,
) -> Finished<MemLog>
    requires { IsBufferSize size }
{
    let gate = WithoutStart::new(&NoGate);
    let ran = run_with(rt, alloc, text, size, &gate, (&Path::root(), &[]), stays);
    ran.ok().expect(rt, "an end")
}

/// The stop of a run of the kernel, where these calls on the log of this task fail.
pub(crate) fn stopped<R: Abort + Threads + Wait + Sync + Copy + Send + 'static>(
    rt: &R,
    alloc: Global,
    text: &str,
    size: usize,
    failing: (&Path, &[u64]),
    stays: bool,
) -> Stopped<MemLog>
    requires { IsBufferSize size }
{
    let gate = WithoutStart::new(&NoGate);
    let ran = run_with(rt, alloc, text, size, &gate, failing, stays);
    ran.err().expect(rt, "a stop")
}

// Seals these logs, up to one that can't be, and gives their rows.
fn sealed(
    rt: &impl Abort,
    alloc: Global,
    folder: &mut MemFolder,
    logs: Vec<ClosedLog<MemLog>>,
) -> Vec<Row> {
    let mut rows = Vec::new(alloc);
    for ClosedLog { path, log, records } in logs {
        if folder.seal(alloc, log).is_err() {
            break;
        }
        rows.push(Row { path, records }).expect(rt, "memory");
    }
    rows
}

/// Whether these are the names of the logs, in order, each with the records that it has.
pub(crate) fn are_listed(
    rt: &impl Abort,
    alloc: Global,
    logs: Vec<ClosedLog<MemLog>>,
    text: &str,
) -> bool {
    let mut folder = MemFolder::new(alloc).expect(rt, "memory");
    let rows = sealed(rt, alloc, &mut folder, logs);
    let mut out = MemOut::new(alloc).expect(rt, "memory");
    let is_listed = list(alloc, &mut folder, &mut out, "d", &rows).is_ok();
    is_listed && out.written() == text.as_bytes()
}

/// Whether these logs have the same bytes, one by one.
pub(crate) fn have_same_bytes(one: &[ClosedLog<MemLog>], other: &[ClosedLog<MemLog>]) -> bool {
    one.len() == other.len()
        && one
            .iter()
            .zip(other)
            .all(|(one, other)| one.log.bytes() == other.log.bytes())
}

/// Whether a run stopped in the task of this name, for this reason, with these words.
pub(crate) fn is_stopped_so(
    rt: &impl Abort,
    alloc: Global,
    stopped: &Stopped<MemLog>,
    name: &str,
    why: Stop,
    words: &[u64],
) -> bool {
    let found = stopped.path.bare_name(alloc).expect(rt, "memory");
    found.as_str() == name && stopped.why == why && stopped.words.as_slice() == words
}

/// Whether a run stopped since a call on the log of this task failed.
pub(crate) fn has_failed(stopped: &Stopped<MemLog>, task: &Path) -> bool {
    stopped.path == *task && stopped.why == Stop::Trouble(Trouble::Failed)
}
