//! What is printed where a file holds no kernel.
ghost use Rattle.std.specs.Prelude.{◌≡◌, ◌↔◌, ◌≤◌, string_bytes, IfOk};
ghost use Rattle.sw_base.specs.Environment.{Rose};
ghost use Rattle.sw_base.specs.declared.trouble.Trouble.TheVariants as trouble;
ghost use Rattle.command_answer.specs.Answer.{Tries};
ghost use Rattle.command_answer.specs.declared.status.TheConstants.{USAGE, READ_FAULT, WRITE_FAULT};
ghost use Rattle.kernel_file.specs.Refusing.{RefusalDue, refused_line, why_name};
ghost use Rattle.kernel_file.specs.declared.reading.KernelRefusal.TheVariants as refusal;

use crate::reading::KernelRefusal;
use command_answer::{KERNEL_REFUSED, NO_MEMORY, READ_FAULT, print};
use kernel_text::KernelWhy;
use std::alloc::Global;
use sw_base::{Memory, Out, Trouble};

const NO_KERNEL: &[u8] = b"no kernel\n";

/// The name of a reason.
fn why_name(why: KernelWhy) -> &'static str
    ensures { result.now ≡ why_name why }
{
    match why {
        KernelWhy::Token => "Token",
        KernelWhy::Syntax => "Syntax",
        KernelWhy::Unknown => "Unknown",
        KernelWhy::Twice => "Twice",
        KernelWhy::Width => "Width",
        KernelWhy::Count => "Count",
        KernelWhy::NotUniform => "NotUniform",
        KernelWhy::BarrierHere => "BarrierHere",
        KernelWhy::WorkHere => "WorkHere",
        KernelWhy::CriticalOrder => "CriticalOrder",
        KernelWhy::ParallelHere => "ParallelHere",
        KernelWhy::Deep => "Deep",
        KernelWhy::Large => "Large",
        KernelWhy::NotUtf8 => "NotUtf8",
    }
}

/// Where and why a text is no kernel.
fn refused(alloc: Global, line: u32, why: &str) -> Result<String, Memory>
    ensures { IfOk result (λ text. string_bytes text ≡ refused_line line why.now) }
{
    Ok(format!(in alloc; "kernel line {line}: {why}\n")?)
}

/// Prints where and why a text is no kernel.
fn refuse_text<O: Out>(alloc: Global, out: &mut O, line: u32, why: KernelWhy) -> u8
    ensures answers { Tries (RefusalDue (refusal.Refused line why)) (O.written out.old) (O.written out.new) result }
    ensures later { O.faults out.old ≤ O.faults out.new }
    ensures write_fault { result ≡ WRITE_FAULT → Rose (O.faults out.old) (O.faults out.new) }
    ensures no_read { result ≡ READ_FAULT → ⊥ }
    ensures no_usage { result ≡ USAGE → ⊥ }
{
    match refused(alloc, line, why_name(why)) {
        Ok(text) => print(alloc, out, text.as_bytes(), KERNEL_REFUSED),
        Err(_) => NO_MEMORY,
    }
}

/// Prints why no kernel was read.
pub fn refuse_kernel<O: Out>(alloc: Global, out: &mut O, why: KernelRefusal) -> u8
    ensures answers { Tries (RefusalDue why) (O.written out.old) (O.written out.new) result }
    ensures later { O.faults out.old ≤ O.faults out.new }
    ensures write_fault { result ≡ WRITE_FAULT → Rose (O.faults out.old) (O.faults out.new) }
    ensures read_fault { (result ≡ READ_FAULT) ↔ (why ≡ refusal.Trouble trouble.Failed) }
    ensures no_usage { result ≡ USAGE → ⊥ }
{
    match why {
        KernelRefusal::NoKernel => print(alloc, out, NO_KERNEL, KERNEL_REFUSED),
        KernelRefusal::Refused { line, why } => refuse_text(alloc, out, line, why),
        KernelRefusal::Trouble(Trouble::Failed) => READ_FAULT,
        KernelRefusal::Trouble(Trouble::Memory) => NO_MEMORY,
    }
}
