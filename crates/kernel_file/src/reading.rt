//! Reads a kernel's file.
ghost use Rattle.std.specs.Prelude.{◌≡◌, IfOk, IfErr, IsErrOf};
ghost use Rattle.sw_base.specs.Environment.{WhereTold};
ghost use Rattle.sw_base.specs.OnlyReads.{OnlyReads};
ghost use Rattle.kernel_syntax.specs.Bounds.{IsBounded};
ghost use Rattle.kernel_syntax.specs.Program.{program_of};
ghost use Rattle.kernel_file.specs.Holding.{HoldsKernel, IsOfText, IsRefusal};
ghost use Rattle.kernel_file.specs.declared.reading.KernelRefusal.TheVariants as refusal;
ghost use Rattle.sw_base.specs.declared.trouble.Trouble.TheVariants as trouble;

use kernel_reader::{ReadKernelFault, read_kernel};
use kernel_syntax::Kernel;
use kernel_text::KernelWhy;
use std::alloc::Global;
use sw_base::{Folder, Trouble, read_file};

/// Why no kernel was read.
#[derive(Clone, Copy)]
pub enum KernelRefusal {
    /// There is no file of this name.
    NoKernel,
    /// The file's text is no kernel, first for this reason at this line.
    Refused { line: u32, why: KernelWhy },
    /// A read failed, or no memory was found.
    Trouble(Trouble),
}

impl From<Trouble> for KernelRefusal {
    ghost use Rattle.std.specs.Prelude.{◌≡◌};
    ghost use Rattle.kernel_file.specs.declared.reading.KernelRefusal.TheVariants as refusal;

    ghost from_gives = { λ trouble e. e ≡ refusal.Trouble trouble };

    fn from(trouble: Trouble) -> Self {
        KernelRefusal::Trouble(trouble)
    }
}

impl From<ReadKernelFault> for KernelRefusal {
    ghost use Rattle.std.specs.Prelude.{◌≡◌};
    ghost use Rattle.kernel_file.specs.Holding.{refusal_of_text};

    ghost from_gives = { λ fault e. e ≡ refusal_of_text fault };

    fn from(fault: ReadKernelFault) -> Self {
        match fault {
            ReadKernelFault::Refused { line, why } => KernelRefusal::Refused { line, why },
            ReadKernelFault::Memory => KernelRefusal::Trouble(Trouble::Memory),
        }
    }
}

/// The kernel that the named file holds.
pub fn read_kernel_file<F: Folder>(
    alloc: Global,
    folder: &mut F,
    name: &str,
) -> Result<Kernel, KernelRefusal>
    ensures kernel { IfOk result (λ k. WhereTold (F.state folder.old).content (λ c. HoldsKernel c.held name.now (program_of k))) }
    ensures text { IfOk result (λ k. IsOfText (program_of k)) }
    ensures bounded { IfOk result (λ k. IsBounded (program_of k)) }
    ensures alone { IfOk result (λ k. k.main.span ≡ 1) }
    ensures refused { IfErr result (λ why. WhereTold (F.state folder.old).content (λ c. IsRefusal c.held name.now why)) }

    ensures reads { OnlyReads F.Folder folder.old folder.new (IsErrOf result (refusal.Trouble trouble.Failed)) }
{
    let Some(text) = read_file(alloc, folder, name)? else {
        return Err(KernelRefusal::NoKernel);
    };
    Ok(read_kernel(alloc, &text)?)
}
