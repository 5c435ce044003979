//! `run`: a kernel is run, and its logs and their index are written.
ghost use Rattle.std.specs.Prelude.{◌≡◌, ◌⊎◌, ◌≤◌, ℕ, List, Some, map, is_some, string_bytes, Ok, Err, MatchResult};
ghost use Rattle.sw_base.specs.Environment.{Rose, Text, WhereTold, next_count};
ghost use Rattle.sw_base.specs.declared.trouble.Trouble.TheVariants as trouble;
ghost use Rattle.race_model.specs.IndexFault.{AreRows};
ghost use Rattle.command_answer.specs.declared.status.TheConstants.{DONE};
ghost use Rattle.kernel_syntax.specs.Program.{Program, program_of};
ghost use Rattle.kernel_model.specs.Lawful.{IsLawful};
ghost use Rattle.lane_runner.specs.Handed.{HasFaultyLog, entries_of};
ghost use Rattle.lane_runner.specs.declared.stop.Stop.TheVariants as stop;
ghost use Rattle.region_runner.specs.Answer.{AreFaultless, HasRun, HasStoppedRun, IsBufferSize};
ghost use Rattle.run_command.specs.Outcomes.{due_status, unwritten};
ghost use Rattle.run_command.specs.Run.{CameOut, CanRun, EndsSo};
ghost use Rattle.run_command.specs.Told.{told_stop};
ghost use Rattle.run_command.specs.Seals.{RaiseFaults, all_logged, row_of_entry};
ghost use Rattle.run_command.specs.declared.outcome.Outcome.TheVariants as outcome;

use crate::beginning::begin;
use crate::outcome::Outcome;
use crate::sealing::{discard_all, records_in, seal_all, store};
use kernel_model::StopWhy;
use kernel_syntax::Kernel;
use lane_runner::Stop;
use region_runner::{Finished, Stopped, run_in_teams};
use std::alloc::Global;
use std::marker::Send;
use std::sync::Wait;
use std::thread::Threads;
use sw_base::{Folder, Gate, Trouble};
use team_live::WithoutStart;

/// What comes out where a call that writes failed.
fn unwritten(trouble: Trouble) -> Outcome
    ensures { result ≡ unwritten trouble }
{
    match trouble {
        Trouble::Memory => Outcome::NoMemory,
        Trouble::Failed => Outcome::WriteFault,
    }
}

/// Stores a run that ended.
fn finish<F: Folder>(
    alloc: Global,
    kernel: Kernel,
    dir: &str,
    finished: Finished<F::Log>,
    folder: &mut F,
) -> Outcome
    requires { AreRows (map row_of_entry finished.logs.items) }
    ensures ends { (before : ℕ) (file : List ℕ) (size : ℕ) (root : Text)
        → HasRun (program_of kernel) dir.now size (Some root) (all_logged F.Log.dir F.Log.path F.Log.text finished.logs.items) finished.words.items
        → EndsSo (Rose before (F.state folder.new).write_faults) file dir.now size (program_of kernel) (F.state folder.old).content (F.state folder.new).content result }
    ensures tells { is_some (F.state folder.new).content ≡ is_some (F.state folder.old).content }
    ensures faulty { RaiseFaults F.Log.faults finished.logs.items (Rose (F.state folder.old).write_faults (F.state folder.new).write_faults) }
    ensures write_fault { result ≡ outcome.WriteFault → Rose (F.state folder.old).write_faults (F.state folder.new).write_faults }
    ensures no_fault { AreFaultless F.Log.faults finished.logs.items → due_status result ≡ DONE → (F.state folder.new).write_faults ≡ (F.state folder.old).write_faults }
    ensures no_read { result ≡ outcome.ReadFault → ⊥ }
    ensures same_roots { (F.state folder.new).roots ≡ (F.state folder.old).roots }
    ensures same_reads { F.read_faults folder.new ≡ F.read_faults folder.old }
{
    let Finished { logs, words } = finished;
    match store(alloc, folder, dir, logs) {
        Ok(rows) => Outcome::Ran {
            kernel,
            tasks: rows.len(),
            records: records_in(&rows),
            words,
        },
        Err(trouble) => unwritten(trouble),
    }
}

/// The line of a stop and why the task stops, or the trouble that it was.
fn told(why: Stop) -> Result<(u32, StopWhy), Trouble>
    ensures { MatchResult result (λ told. told_stop why ≡ Some told) (λ trouble. why ≡ stop.Trouble trouble) }
{
    match why {
        Stop::DivZero { line } => Ok((line, StopWhy::DivZero)),
        Stop::Index { line } => Ok((line, StopWhy::Index)),
        Stop::LogFull { line } => Ok((line, StopWhy::LogFull)),
        Stop::Tasks { line } => Ok((line, StopWhy::Tasks)),
        Stop::Trouble(trouble) => Err(trouble),
    }
}

/// Seals the logs of a kernel that stopped. After trouble they are given up.
fn stop<F: Folder>(alloc: Global, stopped: Stopped<F::Log>, folder: &mut F) -> Outcome
    ensures ends { (before : ℕ) (file : List ℕ) (program : Program) (dir : List ℕ) (size : ℕ) (root : Text) → before ≤ (F.state folder.old).write_faults
        → HasStoppedRun program dir size (Some root) (entries_of F.Log.Log stopped.logs.items) stopped.path stopped.why stopped.words.items
        → EndsSo (Rose before (F.state folder.new).write_faults) file dir size program (F.state folder.old).content (F.state folder.new).content result }
    ensures tells { is_some (F.state folder.new).content ≡ is_some (F.state folder.old).content }
    ensures faulty { RaiseFaults F.Log.faults stopped.logs.items (Rose (F.state folder.old).write_faults (F.state folder.new).write_faults) }
    ensures write_fault { (stopped.why ≡ stop.Trouble trouble.Failed
        → HasFaultyLog stopped.path (entries_of F.Log.Log stopped.logs.items))
        → result ≡ outcome.WriteFault → Rose (F.state folder.old).write_faults (F.state folder.new).write_faults }
    ensures not_done { due_status result ≡ DONE → ⊥ }
    ensures no_read { result ≡ outcome.ReadFault → ⊥ }
    ensures same_roots { (F.state folder.new).roots ≡ (F.state folder.old).roots }
    ensures same_reads { F.read_faults folder.new ≡ F.read_faults folder.old }
{
    let Stopped {
        path,
        why,
        logs,
        ..
    } = stopped;
    match told(why) {
        Ok((line, why)) => match seal_all(alloc, folder, logs) {
            Ok(()) => Outcome::Stopped { path, line, why },
            Err(trouble) => unwritten(trouble),
        },
        Err(trouble) => {
            discard_all(folder, logs);
            unwritten(trouble)
        }
    }
}

/// Runs a kernel in a folder that has no index.
fn execute<R: Threads + Wait + Sync + Copy + Send + 'static, F: Folder, G: Gate>(
    rt: &R,
    alloc: Global,
    kernel: Kernel,
    dir: &str,
    size: usize,
    folder: &mut F,
    gate: &G,
    stays: bool,
) -> Outcome
    requires lawful { IsLawful (program_of kernel) }
    requires size { IsBufferSize size }
    ensures ends { (file : List ℕ) → EndsSo (Rose (F.state folder.old).write_faults (F.state folder.new).write_faults) file dir.now size (program_of kernel)
        (F.state folder.old).content (F.state folder.new).content result }
    ensures tells { is_some (F.state folder.new).content ≡ is_some (F.state folder.old).content }
    ensures write_fault { result ≡ outcome.WriteFault → Rose (F.state folder.old).write_faults (F.state folder.new).write_faults }
    ensures no_fault { due_status result ≡ DONE → (F.state folder.new).write_faults ≡ (F.state folder.old).write_faults }
    ensures no_read { result ≡ outcome.ReadFault → ⊥ }
    ensures asks_once { (F.state folder.new).roots ≡ next_count (F.state folder.old).roots }
    ensures same_reads { F.read_faults folder.new ≡ F.read_faults folder.old }
{
    let root = match folder.root(alloc, dir) {
        Ok(root) => root,
        Err(trouble) => return unwritten(trouble),
    };
    let gate = WithoutStart::new(gate);
    match run_in_teams(rt, alloc, &kernel, root, size, &gate, stays) {
        Ok(finished) => finish(alloc, kernel, dir, finished, folder),
        Err(stopped) => stop(alloc, stopped, folder),
    }
}

/// Runs the kernel that the file `kernel` holds, with buffers of `size` bytes, and writes its logs and their index into the
/// folder `dir`. The threads of a team stay from its first phase to its last, or are started in each phase.
pub fn run<R: Threads + Wait + Sync + Copy + Send + 'static, F: Folder, G: Gate>(
    rt: &R,
    alloc: Global,
    kernel: &str,
    dir: &str,
    size: usize,
    folder: &mut F,
    gate: &G,
    stays: bool,
) -> Outcome
    requires { IsBufferSize size }
    ensures came { WhereTold (F.state folder.old).content (λ c. WhereTold (F.state folder.new).content (λ d.
        CameOut (Rose (F.state folder.old).write_faults (F.state folder.new).write_faults) kernel.now dir.now size c d result)) }
    ensures tells { is_some (F.state folder.new).content ≡ is_some (F.state folder.old).content }
    ensures reads { result ≡ outcome.ReadFault → F.state folder.new ≡ F.state folder.old }
    ensures read_fault { result ≡ outcome.ReadFault → Rose (F.read_faults folder.old) (F.read_faults folder.new) }
    ensures no_read_fault { (result ≡ outcome.ReadFault → ⊥) → F.read_faults folder.new ≡ F.read_faults folder.old }
    ensures write_fault { result ≡ outcome.WriteFault → Rose (F.state folder.old).write_faults (F.state folder.new).write_faults }
    ensures no_fault { due_status result ≡ DONE → (F.state folder.new).write_faults ≡ (F.state folder.old).write_faults }
    ensures only_runs_write { WhereTold (F.state folder.old).content (λ c. ((p : Program) → CanRun c.held kernel.now dir.now p → ⊥) → result ≡ outcome.WriteFault → ⊥) }
    ensures untouched { WhereTold (F.state folder.old).content (λ c. ((p : Program) → CanRun c.held kernel.now dir.now p → ⊥) →
        F.state folder.new ≡ F.state folder.old) }
    // The root's log is asked for once at most, and not where the run can't begin.
    ensures asks_once { ((F.state folder.new).roots ≡ (F.state folder.old).roots) ⊎ ((F.state folder.new).roots ≡ next_count (F.state folder.old).roots) }
{
    match begin(alloc, folder, kernel, dir) {
        Ok(kernel) => execute(rt, alloc, kernel, dir, size, folder, gate, stays),
        Err(outcome) => outcome,
    }
}
