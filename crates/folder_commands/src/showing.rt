//! `show`: every record of a folder.
ghost use Rattle.std.specs.Prelude.{◌≡◌, ◌↔◌, IfErr, OnOk, IsErrOf};
ghost use Rattle.log_format.specs.declared.format.TheConstants.{FORMAT};
ghost use Rattle.sw_base.specs.Environment.{Rose, WhereTold};
ghost use Rattle.sw_base.specs.OnlyReads.{OnlyReads};
ghost use Rattle.command_answer.specs.Answer.{Answers, IsFailure};
ghost use Rattle.command_answer.specs.declared.status.TheConstants.{DONE, USAGE, READ_FAULT, WRITE_FAULT};
ghost use Rattle.log_listing.specs.declared.unlisted.Unlisted.TheVariants as why;
ghost use Rattle.folder_commands.specs.Check.{FolderDue};
ghost use Rattle.folder_commands.specs.Show.{ShowsRecords};

use crate::refusing::refuse;
use command_answer::{DONE, NO_MEMORY, READ_FAULT, WRITE_FAULT};
use log_listing::{Unlisted, list};
use log_walk::sweep_all;
use std::alloc::Global;
use sw_base::{Folder, Out};

/// The status of a listing.
fn status_of(outcome: Result<(), Unlisted>) -> u8
    ensures done { OnOk outcome (result ≡ DONE) }
    ensures failed { IfErr outcome (λ _. IsFailure result) }
    ensures read_fault { (result ≡ READ_FAULT) ↔ IsErrOf outcome why.ReadFault }
    ensures write_fault { result ≡ WRITE_FAULT → IsErrOf outcome why.WriteFault }
    ensures no_usage { result ≡ USAGE → ⊥ }
{
    match outcome {
        Ok(()) => DONE,
        Err(Unlisted::ReadFault) => READ_FAULT,
        Err(Unlisted::WriteFault) => WRITE_FAULT,
        Err(Unlisted::Memory) => NO_MEMORY,
    }
}

/// Sweeps through the folder, and prints the records of its run, read once more.
pub fn show<F: Folder, O: Out>(alloc: Global, folder: &mut F, out: &mut O, dir: &str) -> u8
    ensures answers { WhereTold (F.state folder.old).content (λ c. Answers (FolderDue ShowsRecords c.held dir.now) (O.written out.old) (O.written out.new) result) }
    ensures write_fault { result ≡ WRITE_FAULT → Rose (O.faults out.old) (O.faults out.new) }
    ensures reads { OnlyReads F.Folder folder.old folder.new (result ≡ READ_FAULT) }
    ensures no_usage { result ≡ USAGE → ⊥ }
{
    match sweep_all(alloc, folder, dir) {
        Ok(sweep) => status_of(list(alloc, folder, out, dir, sweep.rows())),
        Err(refused) => refuse(alloc, out, refused),
    }
}
