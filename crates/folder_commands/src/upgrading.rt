//! `upgrade`: a folder of the first format brought over to another folder.
ghost use Rattle.std.specs.Prelude.{◌≡◌, ◌↔◌, ◌⊎◌, is_some};
ghost use Rattle.sw_base.specs.Environment.{Rose, WhereTold};
ghost use Rattle.sw_base.specs.declared.trouble.Trouble.TheVariants as troubles;
ghost use Rattle.command_answer.specs.Answer.{Answers, IsFailure};
ghost use Rattle.command_answer.specs.declared.status.TheConstants.{DONE, USAGE, READ_FAULT, WRITE_FAULT};
ghost use Rattle.log_upgrade.specs.Upgrade.{LeavesUpgrade};
ghost use Rattle.folder_commands.specs.Upgrade.{CanNotUpgrade, IsUpgraded, UpgradeDue};

use crate::refusing::refuse;
use crate::texts;
use command_answer::{DONE, INDEX_THERE, NO_MEMORY, READ_FAULT, WRITE_FAULT, print, print_made};
use log_upgrade::{UpgradeFault, upgrade};
use std::alloc::Global;
use sw_base::{Folder, Out, Trouble, index_name};

const INDEX_EXISTS: &[u8] = b"index exists\n";

/// The status of a read that failed, or for which no memory was found.
fn read_failure(trouble: Trouble) -> u8
    ensures failure { IsFailure result }
    ensures read { (result ≡ READ_FAULT) ↔ (trouble ≡ troubles.Failed) }
    ensures no_write { result ≡ WRITE_FAULT → ⊥ }
{
    match trouble {
        Trouble::Memory => NO_MEMORY,
        Trouble::Failed => READ_FAULT,
    }
}

/// Brings a folder of the first format over to another folder, if that one has no index, and prints how many logs it has.
pub fn upgrade_folder<F: Folder, O: Out>(
    alloc: Global,
    folder: &mut F,
    out: &mut O,
    dir: &str,
    new: &str,
) -> u8
    ensures answers { WhereTold (F.state folder.old).content (λ c. Answers (UpgradeDue c.held dir.now new.now) (O.written out.old) (O.written out.new) result) }
    ensures upgrades { result ≡ DONE → WhereTold (F.state folder.old).content (λ c. WhereTold (F.state folder.new).content (λ d. IsUpgraded dir.now new.now c d)) }
    ensures leaves { IsFailure result → WhereTold (F.state folder.old).content (λ c. WhereTold (F.state folder.new).content (λ d. LeavesUpgrade dir.now new.now c d)) }
    ensures read_fault { result ≡ READ_FAULT → Rose (F.read_faults folder.old) (F.read_faults folder.new) }
    ensures no_read_fault { (result ≡ READ_FAULT → ⊥) → F.read_faults folder.new ≡ F.read_faults folder.old }
    ensures write_fault { result ≡ WRITE_FAULT → Rose (O.faults out.old) (O.faults out.new) ⊎ Rose (F.state folder.old).write_faults (F.state folder.new).write_faults }
    ensures no_fault { result ≡ DONE → (F.state folder.new).write_faults ≡ (F.state folder.old).write_faults }
    ensures only_printed { WhereTold (F.state folder.old).content (λ c. CanNotUpgrade c.held dir.now new.now → result ≡ WRITE_FAULT → Rose (O.faults out.old) (O.faults out.new)) }
    ensures untouched { WhereTold (F.state folder.old).content (λ c. CanNotUpgrade c.held dir.now new.now → F.state folder.new ≡ F.state folder.old) }
    ensures same_roots { (F.state folder.new).roots ≡ (F.state folder.old).roots }
    ensures tells { is_some (F.state folder.new).content ≡ is_some (F.state folder.old).content }
    ensures no_usage { result ≡ USAGE → ⊥ }
{
    let name = match index_name(alloc, new) {
        Ok(name) => name,
        Err(_) => return NO_MEMORY,
    };
    match folder.size(alloc, &name) {
        Ok(Some(_)) => print(alloc, out, INDEX_EXISTS, INDEX_THERE),
        Ok(None) => match upgrade(alloc, folder, dir, new) {
            Ok(count) => print_made(alloc, out, texts::upgraded(alloc, count), DONE),
            Err(UpgradeFault::Walk(refused)) => refuse(alloc, out, refused),
            Err(UpgradeFault::WriteFault) => WRITE_FAULT,
            Err(UpgradeFault::Memory) => NO_MEMORY,
        },
        Err(trouble) => read_failure(trouble),
    }
}
