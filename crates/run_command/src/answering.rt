//! What is printed of what came out of a run, and with which status.
ghost use Rattle.std.specs.Prelude.{◌≡◌, ◌⊎◌, ◌↔◌};
ghost use Rattle.sw_base.specs.Environment.{Rose};
ghost use Rattle.command_answer.specs.Answer.{Tries};
ghost use Rattle.command_answer.specs.declared.status.TheConstants.{READ_FAULT, USAGE, WRITE_FAULT};
ghost use Rattle.run_command.specs.Outcomes.{IsDue};
ghost use Rattle.run_command.specs.declared.outcome.Outcome.TheVariants as came;

use crate::outcome::Outcome;
use command_answer::{
    DONE, INDEX_THERE, KERNEL_STOPPED, NO_MEMORY, READ_FAULT, WRITE_FAULT, print, print_made,
    run_text, stop_line,
};
use kernel_file::{KernelRefusal, refuse_kernel};
use std::alloc::Global;
use sw_base::Out;

const INDEX_EXISTS: &[u8] = b"index exists\n";

/// Prints what came out of a run, and answers its status.
pub fn print_outcome<O: Out>(alloc: Global, out: &mut O, outcome: &Outcome) -> u8
    ensures prints { Tries (IsDue outcome.now) (O.written out.old) (O.written out.new) result }
    ensures write_fault { result ≡ WRITE_FAULT → (outcome.now ≡ came.WriteFault) ⊎ Rose (O.faults out.old) (O.faults out.new) }
    ensures read_fault { (result ≡ READ_FAULT) ↔ (outcome.now ≡ came.ReadFault) }
    ensures no_usage { result ≡ USAGE → ⊥ }
{
    match outcome {
        Outcome::NoKernel => refuse_kernel(alloc, out, KernelRefusal::NoKernel),
        Outcome::Refused { line, why } => {
            refuse_kernel(
                alloc,
                out,
                KernelRefusal::Refused {
                    line: *line,
                    why: *why,
                },
            )
        }
        Outcome::IndexThere => print(alloc, out, INDEX_EXISTS, INDEX_THERE),
        Outcome::Stopped { path, line, why } => {
            print_made(
                alloc,
                out,
                stop_line(alloc, path, *line, why.name()),
                KERNEL_STOPPED,
            )
        }
        Outcome::Ran {
            kernel,
            tasks,
            records,
            words,
        } => {
            let text = run_text(alloc, *tasks, *records, kernel.arrays.as_slice(), words);
            print_made(alloc, out, text, DONE)
        }
        Outcome::ReadFault => READ_FAULT,
        Outcome::WriteFault => WRITE_FAULT,
        Outcome::NoMemory => NO_MEMORY,
    }
}
