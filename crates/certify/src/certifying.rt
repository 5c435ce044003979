//! One serial run, and what it tells.
ghost use Rattle.std.specs.Prelude.{◌≡◌, ◌≤◌, ◌<◌, ◌↔◌, codes, map, length, sum_by, IfOk, IfErr, IsTrue};
ghost use Rattle.kernel_syntax.specs.Program.{program_of};
ghost use Rattle.kernel_model.specs.Lawful.{IsLawful};
ghost use Rattle.memory_environment.specs.MemFolder.{content_of};
ghost use Rattle.serial_team.specs.Members.{WholeLog, whole_log};
ghost use Rattle.certify.specs.Holding.{HoldsTasks};
ghost use Rattle.certify.specs.Verdicts.{Tells, RunSpells};

use crate::finding::first_construct;
use crate::holding::{DIR, folder_of};
use crate::verdict::Verdict;
use folder_races::folder_pairs;
use kernel_syntax::Kernel;
use log_walk::WalkFault;
use serial_team::{SerialRun, Stop, TaskLog, run_serially};
use std::alloc::Global;
use std::collections::BTreeSet;
use std::thread::Threads;
use sw_base::{Gate, Memory};

/// The most records that a serial run makes in all.
pub const MOST_RECORDS: u32 = 16_777_216;

// How many logs there are.
fn count_of(logs: &[TaskLog]) -> u64
    ensures { result ≡ length logs.now }
{
    logs.len() as u64
}

// How many records the logs have.
fn records_of(logs: &[TaskLog]) -> u64
    requires { sum_by (λ (log : WholeLog). log.count) (map whole_log logs.now) ≤ 16777216 }
    ensures { result ≡ sum_by (λ (log : WholeLog). log.count) (map whole_log logs.now) }
{
    logs.iter().map(|log| u64::from(log.records)).sum()
}

// Whether no lines race.
fn is_free(pairs: &BTreeSet<(u32, u32)>) -> bool
    ensures { IsTrue result ↔ (length pairs.now.keys ≡ 0) }
{
    pairs.is_empty()
}

// What the folder of a serial run that ended tells, compared by one worker.
fn judge<R: Threads + Sync, G: Gate>(
    rt: &R,
    alloc: Global,
    gate: &G,
    kernel: &Kernel,
    run: SerialRun,
) -> Result<Verdict, Memory>
    requires { RunSpells (program_of kernel.now) (map whole_log run.logs.items) run.words.items }
    ensures { IfOk result (Tells (program_of kernel.now)) }
{
    let SerialRun { logs, words } = run;
    let tasks = count_of(&logs);
    let records = records_of(&logs);
    let mut folder = folder_of(alloc, logs)?;
    match folder_pairs(rt, alloc, &mut folder, gate, DIR, 1) {
        Ok(pairs) if is_free(&pairs) => Ok(Verdict::Certain {
            tasks,
            records,
            words,
        }),
        Ok(pairs) => Ok(Verdict::Racy { pairs }),
        Err(WalkFault::TooManySegments { path, number }) => Ok(Verdict::Segments { path, number }),
        // The folder keeps every other rule and is read without a fault.
        Err(_) => Err(Memory),
    }
}

/// Runs the kernel once, serially and in memory, and tells what follows for all of its runs.
pub fn certify<R: Threads + Sync, G: Gate>(
    rt: &R,
    alloc: Global,
    kernel: &Kernel,
    gate: &G,
) -> Result<Verdict, Memory>
    requires { IsLawful (program_of kernel.now) }
    ensures tells { IfOk result (Tells (program_of kernel.now)) }
{
    if let Some(line) = first_construct(kernel) {
        return Ok(Verdict::Construct { line });
    }
    match run_serially(alloc, kernel, MOST_RECORDS) {
        Ok(run) => judge(rt, alloc, gate, kernel, run),
        Err(Stop::Stopped { path, line, why }) => Ok(Verdict::Stopped { path, line, why }),
        Err(Stop::Long { path, number }) => Ok(Verdict::Long { path, number }),
        Err(Stop::Memory) => Err(Memory),
    }
}
