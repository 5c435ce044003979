//! What `run` reads before a kernel runs.
ghost use Rattle.std.specs.Prelude.{◌≡◌, ℕ, IfOk, IfErr, IsErrOf};
ghost use Rattle.sw_base.specs.Environment.{Rose, WhereTold};
ghost use Rattle.sw_base.specs.OnlyReads.{OnlyReads};
ghost use Rattle.kernel_syntax.specs.Program.{program_of};
ghost use Rattle.kernel_model.specs.Lawful.{IsLawful};
ghost use Rattle.run_command.specs.Run.{CameOut, CanRun};
ghost use Rattle.run_command.specs.declared.outcome.Outcome.TheVariants as outcome;

use crate::outcome::Outcome;
use kernel_file::read_kernel_file;
use kernel_syntax::Kernel;
use std::alloc::Global;
use sw_base::{Folder, index_name};

/// The kernel that the named file holds, for a folder that has no index.
pub fn begin<F: Folder>(
    alloc: Global,
    folder: &mut F,
    kernel: &str,
    dir: &str,
) -> Result<Kernel, Outcome>
    ensures lawful { IfOk result (λ k. IsLawful (program_of k)) }
    ensures can { IfOk result (λ k. WhereTold (F.state folder.old).content (λ c. CanRun c.held kernel.now dir.now (program_of k))) }
    ensures came { IfErr result (λ o. WhereTold (F.state folder.old).content (λ c. (size before after : ℕ) → CameOut (Rose before after) kernel.now dir.now size c c o)) }
    ensures reads { OnlyReads F.Folder folder.old folder.new (IsErrOf result outcome.ReadFault) }
    ensures no_write { IfErr result (λ o. o ≡ outcome.WriteFault → ⊥) }
{
    let kernel = read_kernel_file(alloc, folder, kernel)?;
    let index = index_name(alloc, dir)?;
    match folder.size(alloc, &index)? {
        Some(_) => Err(Outcome::IndexThere),
        None => Ok(kernel),
    }
}
