//! `confirm`: whether two records of a folder race.
ghost use Rattle.std.specs.Prelude.{◌≡◌, ◌↔◌, ℕ, Some};
ghost use Rattle.sw_base.specs.Environment.{Rose, WhereTold};
ghost use Rattle.sw_base.specs.OnlyReads.{OnlyReads};
ghost use Rattle.race_model.specs.Trace.{Trace};
ghost use Rattle.command_answer.specs.Answer.{Tries};
ghost use Rattle.command_answer.specs.declared.status.TheConstants.{USAGE, READ_FAULT, WRITE_FAULT};
ghost use Rattle.explain.specs.Witness.{IsConfirmed};
ghost use Rattle.folder_commands.specs.Check.{FolderDue};
ghost use Rattle.folder_commands.specs.Confirm.{HasConfirmation};

use crate::refusing::refuse;
use crate::texts;
use command_answer::{DONE, RACES, print, print_made};
use explain::confirm;
use std::alloc::Global;
use sw_base::{Folder, Out};

const NO_RACE: &[u8] = b"no race\n";

/// Prints the first common byte of two records that race, or that they don't.
fn print_confirmed<O: Out>(alloc: Global, out: &mut O, answer: Option<u64>) -> u8
    ensures answers { (trace : Trace) (first_row first second_row second : ℕ) → ((byte : ℕ) → (answer ≡ Some byte) ↔ IsConfirmed trace first_row first second_row second byte)
        → Tries (HasConfirmation first_row first second_row second trace) (O.written out.old) (O.written out.new) result }
    ensures write_fault { result ≡ WRITE_FAULT → Rose (O.faults out.old) (O.faults out.new) }
    ensures no_read { result ≡ READ_FAULT → ⊥ }
    ensures no_usage { result ≡ USAGE → ⊥ }
{
    match answer {
        Some(byte) => print_made(alloc, out, texts::race_byte(alloc, byte), RACES),
        None => print(alloc, out, NO_RACE, DONE),
    }
}

/// Looks the two records up, each by its row and number from 1, and prints whether they race. It compares no labels.
pub fn confirm_records<F: Folder, O: Out>(
    alloc: Global,
    folder: &mut F,
    out: &mut O,
    dir: &str,
    first_row: u32,
    first: u32,
    second_row: u32,
    second: u32,
) -> u8
    ensures answers { WhereTold (F.state folder.old).content (λ c. Tries (FolderDue (HasConfirmation first_row first second_row second) c.held dir.now) (O.written out.old) (O.written out.new) result) }
    ensures write_fault { result ≡ WRITE_FAULT → Rose (O.faults out.old) (O.faults out.new) }
    ensures reads { OnlyReads F.Folder folder.old folder.new (result ≡ READ_FAULT) }
    ensures no_usage { result ≡ USAGE → ⊥ }
{
    match confirm(alloc, folder, dir, first_row, first, second_row, second) {
        Ok(answer) => print_confirmed(alloc, out, answer),
        Err(refused) => refuse(alloc, out, refused),
    }
}
