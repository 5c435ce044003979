//! A whole run.
ghost use Rattle.std.specs.Prelude.{◌≡◌, ℕ};
ghost use Rattle.kernel_syntax.specs.Layout.{IsWithinLimits, elements};
ghost use Rattle.kernel_syntax.specs.Program.{program_of};
ghost use Rattle.kernel_model.specs.Lawful.{IsLawful};
ghost use Rattle.log_format.specs.Fitting.{IsWidth};
ghost use Rattle.history_model.specs.Sound.{AreFitted};
ghost use Rattle.execution_model.specs.Elements.{element_width, layout_of};
ghost use Rattle.region_runner.specs.Answer.{AnswersRun, IsBufferSize, IsRootLog};

use crate::ground::Ground;
use crate::root::{run_root, settle};
use kernel_syntax::{Array, Kernel};
use lane_runner::{Stop, fit_words};
use shared_words::Words;
use std::alloc::Global;
use std::marker::Send;
use std::sync::Wait;
use std::thread::Threads;
use sw_base::{ClosedLog, Gate, Log, Path, Trouble};
use team_live::{LiveGate, WithoutStart};

/// A run that ended: the logs of the tasks, in the order of their paths, and the last value of each element.
#[derive(Drop)]
pub struct Finished<L: Log> {
    pub logs: Vec<ClosedLog<L>>,
    pub words: Vec<u64>,
}

/// A run that stopped: the task that made the stop, the logs of the tasks that were made, in the order of their paths, and the last
/// value of each element.
#[derive(Drop)]
pub struct Stopped<L: Log> {
    pub path: Path,
    pub why: Stop,
    pub logs: Vec<ClosedLog<L>>,
    pub words: Vec<u64>,
}

// How many elements the arrays have.
fn element_count(arrays: &[Array]) -> usize
    requires { IsWithinLimits arrays.now }
    ensures { result ≡ elements arrays.now }
{
    arrays.iter().map(|array| array.count as usize).sum()
}

// The values of the elements in these words.
fn values(arrays: &[Array], words: Vec<u64>) -> Vec<u64>
    requires widths { (word : ℕ) → IsWidth (element_width arrays.now word) }
    ensures fitted { AreFitted (layout_of arrays.now) words.items result.items }
{
    let mut values = words;
    fit_words(arrays, &mut values);
    values
}

/// Runs a kernel: its root, and the lanes of each region on threads of their own, phase by phase. The threads of a region stay through its
/// phases, where it has several, or start in each.
///
/// The buffer of each log has `size` bytes, from 24 to 4,194,304. The gate sees each lane of a region start each of its phases, and where
/// threads stay also the start of each thread, once a region: one for each lane but the first.
pub fn run_in_teams<R: Threads + Wait + Sync + Copy + Send + 'static, L: Log, G: LiveGate>(
    rt: &R,
    alloc: Global,
    kernel: &Kernel,
    root: L,
    size: usize,
    gate: &G,
    stays: bool,
) -> Result<Finished<L>, Stopped<L>>
    requires lawful { IsLawful (program_of kernel.now) }
    requires root { IsRootLog L.Log root }
    requires size { IsBufferSize size }
    ensures answers { AnswersRun L.Log (program_of kernel.now) root size result }
{
    let arrays = kernel.arrays.as_slice();
    let locks = kernel.mutexes.as_slice().len() + 1;
    let Ok((words, mut hand)) = Words::new(alloc, element_count(arrays), locks) else {
        return Err(Stopped {
            path: Path::root(),
            why: Stop::Trouble(Trouble::Memory),
            logs: Vec::new(alloc),
            words: Vec::new(alloc),
        });
    };
    let (logs, answer) = {
        let ground = Ground::new(arrays, &words, gate, size, stays);
        let closed = run_root(rt, alloc, &ground, kernel, &mut hand, root);
        settle(alloc, closed)
    };
    let words = values(arrays, words.close(hand).words);
    match answer {
        Ok(()) => Ok(Finished { logs, words }),
        Err((path, why)) => Err(Stopped {
            path,
            why,
            logs,
            words,
        }),
    }
}

/// Runs a kernel, with threads that start in each phase of a region.
pub fn run_kernel<R: Threads + Wait + Sync + Copy + Send + 'static, L: Log, G: Gate>(
    rt: &R,
    alloc: Global,
    kernel: &Kernel,
    root: L,
    size: usize,
    gate: &G,
) -> Result<Finished<L>, Stopped<L>>
    requires lawful { IsLawful (program_of kernel.now) }
    requires root { IsRootLog L.Log root }
    requires size { IsBufferSize size }
    ensures answers { AnswersRun L.Log (program_of kernel.now) root size result }
{
    let gate = WithoutStart::new(gate);
    run_in_teams(rt, alloc, kernel, root, size, &gate, false)
}

/// Runs a kernel, with threads that start once in a region of several phases, and stay through them.
pub fn run_live<R: Threads + Wait + Sync + Copy + Send + 'static, L: Log, G: LiveGate>(
    rt: &R,
    alloc: Global,
    kernel: &Kernel,
    root: L,
    size: usize,
    gate: &G,
) -> Result<Finished<L>, Stopped<L>>
    requires lawful { IsLawful (program_of kernel.now) }
    requires root { IsRootLog L.Log root }
    requires size { IsBufferSize size }
    ensures answers { AnswersRun L.Log (program_of kernel.now) root size result }
{
    run_in_teams(rt, alloc, kernel, root, size, gate, true)
}
