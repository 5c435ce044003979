//! `certify`: the verdict on the kernel of a file is printed.
ghost use Rattle.std.specs.Prelude.{◌≡◌};
ghost use Rattle.sw_base.specs.Environment.{Rose, WhereTold};
ghost use Rattle.sw_base.specs.OnlyReads.{OnlyReads};
ghost use Rattle.kernel_syntax.specs.Program.{program_of};
ghost use Rattle.kernel_model.specs.Lawful.{IsLawful};
ghost use Rattle.command_answer.specs.Answer.{Tries};
ghost use Rattle.command_answer.specs.declared.status.TheConstants.{READ_FAULT, USAGE, WRITE_FAULT};
ghost use Rattle.certify_command.specs.Certify.{CertifyDue, HasVerdict};

use crate::answering::print_verdict;
use certify::certify;
use command_answer::NO_MEMORY;
use kernel_file::{read_kernel_file, refuse_kernel};
use kernel_syntax::Kernel;
use std::alloc::Global;
use std::thread::Threads;
use sw_base::{Folder, Gate, Out};

// Prints the verdict on a kernel.
fn certify_kernel<R: Threads + Sync, O: Out, G: Gate>(
    rt: &R,
    alloc: Global,
    out: &mut O,
    gate: &G,
    kernel: &Kernel,
) -> u8
    requires { IsLawful (program_of kernel.now) }
    ensures answers { Tries (HasVerdict (program_of kernel.now)) (O.written out.old) (O.written out.new) result }
    ensures write_fault { result ≡ WRITE_FAULT → Rose (O.faults out.old) (O.faults out.new) }
    ensures no_read { result ≡ READ_FAULT → ⊥ }
    ensures no_usage { result ≡ USAGE → ⊥ }
{
    match certify(rt, alloc, kernel, gate) {
        Ok(verdict) => print_verdict(alloc, out, kernel.arrays.as_slice(), &verdict),
        Err(_) => NO_MEMORY,
    }
}

/// Reads the kernel, runs it once, serially and in memory, and prints whether every run of it must write the same logs: then the text of that
/// run, and else why not. The folder is only read.
pub fn certify_file<R: Threads + Sync, F: Folder, O: Out, G: Gate>(
    rt: &R,
    alloc: Global,
    folder: &mut F,
    out: &mut O,
    gate: &G,
    kernel: &str,
) -> u8
    ensures answers { WhereTold (F.state folder.old).content (λ c. Tries (CertifyDue c.held kernel.now) (O.written out.old) (O.written out.new) result) }
    ensures write_fault { result ≡ WRITE_FAULT → Rose (O.faults out.old) (O.faults out.new) }
    ensures reads { OnlyReads F.Folder folder.old folder.new (result ≡ READ_FAULT) }
    ensures no_usage { result ≡ USAGE → ⊥ }
{
    match read_kernel_file(alloc, folder, kernel) {
        Ok(kernel) => certify_kernel(rt, alloc, out, gate, &kernel),
        Err(why) => refuse_kernel(alloc, out, why),
    }
}
