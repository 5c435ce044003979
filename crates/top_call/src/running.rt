//! `run` and `live`: what comes out of a run is printed.
ghost use Rattle.std.specs.Prelude.{◌≡◌, ◌⊎◌, is_some};
ghost use Rattle.sw_base.specs.Environment.{Rose, WhereTold, next_count};
ghost use Rattle.kernel_syntax.specs.Program.{Program};
ghost use Rattle.region_runner.specs.Answer.{IsBufferSize};
ghost use Rattle.run_command.specs.Run.{CanRun, LeavesPart, RunDue};
ghost use Rattle.command_answer.specs.Answer.{IsFailure, Tries};
ghost use Rattle.command_answer.specs.declared.status.TheConstants.{DONE, USAGE, READ_FAULT, WRITE_FAULT};

use run_command::{print_outcome, run};
use std::alloc::Global;
use std::marker::Send;
use std::sync::Wait;
use std::thread::Threads;
use sw_base::{Folder, Gate, Out};

/// Runs the kernel that the file `kernel` holds, with buffers of `size` bytes, into the folder `dir`, and prints what came out.
/// The threads of a team stay from its first phase to its last, or are started in each phase.
pub fn run_file<R: Threads + Wait + Sync + Copy + Send + 'static, F: Folder, O: Out, G: Gate>(
    rt: &R,
    alloc: Global,
    kernel: &str,
    dir: &str,
    size: usize,
    folder: &mut F,
    out: &mut O,
    gate: &G,
    stays: bool,
) -> u8
    requires { IsBufferSize size }
    ensures answers { WhereTold (F.state folder.old).content (λ c. WhereTold (F.state folder.new).content (λ d.
        Tries (RunDue (Rose (F.state folder.old).write_faults (F.state folder.new).write_faults) kernel.now dir.now size c d) (O.written out.old) (O.written out.new) result)) }
    ensures leaves { WhereTold (F.state folder.old).content (λ c. WhereTold (F.state folder.new).content (λ d.
        IsFailure result → LeavesPart (Rose (F.state folder.old).write_faults (F.state folder.new).write_faults) kernel.now dir.now size c d)) }
    ensures reads { result ≡ READ_FAULT → F.state folder.new ≡ F.state folder.old }
    ensures read_fault { result ≡ READ_FAULT → Rose (F.read_faults folder.old) (F.read_faults folder.new) }
    ensures no_read_fault { (result ≡ READ_FAULT → ⊥) → F.read_faults folder.new ≡ F.read_faults folder.old }
    ensures write_fault { result ≡ WRITE_FAULT → Rose (O.faults out.old) (O.faults out.new) ⊎ Rose (F.state folder.old).write_faults (F.state folder.new).write_faults }
    ensures no_fault { result ≡ DONE → (F.state folder.new).write_faults ≡ (F.state folder.old).write_faults }
    ensures only_printed { WhereTold (F.state folder.old).content (λ c. ((p : Program) → CanRun c.held kernel.now dir.now p → ⊥) →
        result ≡ WRITE_FAULT → Rose (O.faults out.old) (O.faults out.new)) }
    ensures untouched { WhereTold (F.state folder.old).content (λ c. ((p : Program) → CanRun c.held kernel.now dir.now p → ⊥) →
        F.state folder.new ≡ F.state folder.old) }
    ensures asks_once { ((F.state folder.new).roots ≡ (F.state folder.old).roots) ⊎ ((F.state folder.new).roots ≡ next_count (F.state folder.old).roots) }
    ensures tells { is_some (F.state folder.new).content ≡ is_some (F.state folder.old).content }
    ensures no_usage { result ≡ USAGE → ⊥ }
{
    let outcome = run(rt, alloc, kernel, dir, size, folder, gate, stays);
    print_outcome(alloc, out, &outcome)
}
