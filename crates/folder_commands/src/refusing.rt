//! What is printed for a folder that is refused.
ghost use Rattle.std.specs.Prelude.{◌≡◌, ◌⊎◌, ◌≤◌, ◌↔◌, List, None, ℕ, string_bytes, IfOk, IfSome, IsTrue};
ghost use Rattle.log_format.specs.declared.format.Format.{Format};
ghost use Rattle.sw_base.specs.Environment.{Files, Rose};
ghost use Rattle.log_walk.specs.Walk.{TellsFirstBad};
ghost use Rattle.log_walk.specs.declared.fault.WalkFault.TheVariants as fault;
ghost use Rattle.command_answer.specs.Answer.{Tries};
ghost use Rattle.command_answer.specs.declared.status.TheConstants.{DONE, USAGE, FOLDER_REFUSED, READ_FAULT, WRITE_FAULT};
ghost use Rattle.folder_commands.specs.Check.{IsRefusedFolder};

use crate::texts;
use command_answer::{FOLDER_REFUSED, NO_MEMORY, READ_FAULT, print};
use log_walk::WalkFault;
use std::alloc::Global;
use sw_base::{Memory, Out};

/// The text of the first bad place, where the fault tells one.
fn place_text(alloc: Global, refused: &WalkFault) -> Result<Option<String>, Memory>
    ensures place { IfOk result (λ found. IfSome found (λ text. (format : Format) (files : Files) (dir : List ℕ) → TellsFirstBad format files dir refused.now
        → IsRefusedFolder format files dir FOLDER_REFUSED (string_bytes text))) }
    ensures none { IfOk result (λ found. (found ≡ None) ↔ ((refused.now ≡ fault.ReadFault) ⊎ (refused.now ≡ fault.Memory))) }
{
    Ok(Some(match refused {
        WalkFault::NoIndex => texts::no_index(alloc)?,
        WalkFault::BadIndex { row, why } => texts::bad_row(alloc, *row, *why)?,
        WalkFault::MissingLog { path } => texts::missing_log(alloc, path)?,
        WalkFault::BadRecord { path, number, why } => {
            texts::bad_record(alloc, path, *number, *why)?
        }
        WalkFault::TooManySegments { path, number } => {
            texts::too_many_segments(alloc, path, *number)?
        }
        WalkFault::ReadFault | WalkFault::Memory => return Ok(None),
    }))
}

fn is_read_fault(refused: &WalkFault) -> bool
    ensures { IsTrue result ↔ (refused.now ≡ fault.ReadFault) }
{
    matches!(refused, WalkFault::ReadFault)
}

/// Prints why a folder is refused.
pub fn refuse<O: Out>(alloc: Global, out: &mut O, refused: WalkFault) -> u8
    ensures answers { (format : Format) (files : Files) (dir : List ℕ) → TellsFirstBad format files dir refused → Tries (IsRefusedFolder format files dir) (O.written out.old) (O.written out.new) result }
    ensures later { O.faults out.old ≤ O.faults out.new }
    ensures write_fault { result ≡ WRITE_FAULT → Rose (O.faults out.old) (O.faults out.new) }
    ensures read_fault { (result ≡ READ_FAULT) ↔ (refused ≡ fault.ReadFault) }
    ensures no_usage { result ≡ USAGE → ⊥ }
    ensures no_done { result ≡ DONE → ⊥ }
{
    match place_text(alloc, &refused) {
        Ok(Some(text)) => print(alloc, out, text.as_bytes(), FOLDER_REFUSED),
        _ if is_read_fault(&refused) => READ_FAULT,
        _ => NO_MEMORY,
    }
}
