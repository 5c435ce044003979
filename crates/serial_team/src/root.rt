//! The root: the task that executes `main`.
ghost use Rattle.std.specs.Prelude.{◌≡◌, ◌≤◌, ℕ, map, pos, replicate, IfErr, IfOk};
ghost use Rattle.kernel_syntax.specs.Bounds.{IsBounded};
ghost use Rattle.kernel_syntax.specs.Layout.{IsWithinLimits, elements};
ghost use Rattle.kernel_syntax.specs.Program.{program_of};
ghost use Rattle.serial_run.specs.Placing.{ElementLayout, TellsWords};
ghost use Rattle.serial_team.specs.Members.{whole_log};
ghost use Rattle.serial_team.specs.Running.{DidRoot};
ghost use Rattle.serial_team.specs.Stopping.{IfStopped, RootLong, RootStopped};

use crate::member::{Member, Stage, TaskLog, is_at};
use crate::region::go;
use crate::stop::Stop;
use kernel_syntax::{Array, Kernel};
use serial_run::{Locals, SerialMemory};
use std::alloc::{AllocError, Global};
use sw_base::Path;

/// A serial run that ended: the whole logs of all tasks, in the order of their paths, and the words of all elements.
#[derive(Drop)]
pub struct SerialRun {
    pub logs: Vec<TaskLog>,
    pub words: Vec<u64>,
}

// How many elements the arrays have.
fn element_count(arrays: &[Array]) -> usize
    requires { IsWithinLimits arrays.now }
    ensures { result ≡ elements arrays.now }
{
    arrays.iter().map(|array| array.count as usize).sum()
}

// All locals 0.
fn locals(alloc: Global, slots: u32) -> Result<Locals, AllocError>
    ensures { IfOk result (λ locals. locals.slots.items ≡ replicate slots (pos 0)) }
{
    let mut values = Vec::new(alloc);
    values.resize(slots as usize, 0i64)?;
    Ok(Locals { slots: values })
}

// All words 0, and room for so many records.
fn memory(alloc: Global, count: usize, left: u32) -> Result<SerialMemory, AllocError>
    ensures words { IfOk result (λ memory. memory.words.items ≡ replicate count 0) }
    ensures left { IfOk result (λ memory. memory.left ≡ left) }
{
    let mut words = Vec::new(alloc);
    words.resize(count, 0u64)?;
    Ok(SerialMemory { words, left })
}

/// Runs a kernel serially, with room for so many records in all.
pub fn run_serially(alloc: Global, kernel: &Kernel, left: u32) -> Result<SerialRun, Stop>
    requires bounded { IsBounded (program_of kernel.now) }
    requires alone { (program_of kernel.now).main.span ≡ 1 }
    ensures ran { (layout : ElementLayout) → TellsWords kernel.now.arrays layout
        → IfOk result (λ r. DidRoot layout (program_of kernel.now) left (map whole_log r.logs.items) r.words.items) }
    ensures stopped { (layout : ElementLayout) → TellsWords kernel.now.arrays layout → IfErr result (λ e. IfStopped (RootStopped layout (program_of kernel.now) left) (RootLong layout (program_of kernel.now) left) e) }
{
    let arrays = kernel.arrays.as_slice();
    let locals = locals(alloc, kernel.slots)?;
    let mut memory = memory(alloc, element_count(arrays), left)?;
    let mut root = Member::begin(alloc, arrays, &kernel.main, &locals, 0)?;
    go(alloc, 4, arrays, &Path::root(), &mut root, &mut memory)?;
    if !is_at(&root, Stage::Ended) {
        return Err(Stop::Memory);
    }
    let mut logs = Vec::new(alloc);
    root.hand_on(Path::root(), &mut logs)?;
    Ok(SerialRun {
        logs,
        words: memory.words,
    })
}
