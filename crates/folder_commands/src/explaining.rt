//! `explain`: the two records behind a race pair.
ghost use Rattle.std.specs.Prelude.{◌≡◌, ◌-◌, ℕ, Some, IfOk, slice_get, string_bytes};
ghost use Rattle.log_format.specs.declared.format.TheConstants.{FORMAT};
ghost use Rattle.sw_base.specs.Environment.{Rose, WhereTold};
ghost use Rattle.sw_base.specs.OnlyReads.{OnlyReads};
ghost use Rattle.race_model.specs.FirstBad.{HoldsTrace};
ghost use Rattle.race_model.specs.Row.{Row as TaskRow};
ghost use Rattle.race_model.specs.Trace.{Trace};
ghost use Rattle.race_model.specs.WellFormed.{IsWellFormed};
ghost use Rattle.command_answer.specs.Answer.{Tries};
ghost use Rattle.command_answer.specs.declared.status.TheConstants.{USAGE, READ_FAULT, WRITE_FAULT};
ghost use Rattle.explain.specs.Least.{IsLeastWitness};
ghost use Rattle.folder_commands.specs.Check.{FolderDue};
ghost use Rattle.folder_commands.specs.Explain.{HasExplanation};
ghost use Rattle.folder_commands.specs.Texts.{race_text};

use crate::refusing::refuse;
use crate::texts;
use command_answer::{DONE, RACES, print_made};
use explain::{RacePair, explain};
use log_index::{Row, read_index};
use log_walk::WalkFault;
use std::alloc::Global;
use sw_base::{Folder, Memory, Out, Path};

/// The path of the row of this number, from 1.
fn path_at(rows: &[Row], number: u32) -> Result<Path, Memory>
    ensures { IfOk result (λ path. (row : TaskRow) → slice_get rows.now (number - 1) ≡ Some row → path ≡ row.path) }
{
    // There is such a row, unless the folder has changed since.
    match rows.get((number as usize).saturating_sub(1)) {
        Some(row) => Ok(row.path.copy()),
        None => Err(Memory),
    }
}

fn text_of(alloc: Global, rows: &[Row], found: &RacePair) -> Result<String, Memory>
    ensures { IfOk result (λ text. (one other : TaskRow) → slice_get rows.now (found.now.first_row - 1) ≡ Some one → slice_get rows.now (found.now.second_row - 1) ≡ Some other
        → string_bytes text ≡ race_text found.now one.path other.path) }
{
    let one = path_at(rows, found.first_row)?;
    let other = path_at(rows, found.second_row)?;
    texts::race_pair(alloc, found, &one, &other)
}

/// Prints two records that race, with the names of their logs.
fn print_race<F: Folder, O: Out>(
    alloc: Global,
    folder: &mut F,
    out: &mut O,
    dir: &str,
    found: &RacePair,
) -> u8
    ensures answers { WhereTold (F.state folder.old).content (λ c. (trace : Trace) (low high : ℕ) → HoldsTrace FORMAT c.held dir.now trace → IsWellFormed FORMAT c.held dir.now
        → IsLeastWitness trace (low, high) found.now → Tries (FolderDue (HasExplanation low high) c.held dir.now) (O.written out.old) (O.written out.new) result) }
    ensures write_fault { result ≡ WRITE_FAULT → Rose (O.faults out.old) (O.faults out.new) }
    ensures reads { OnlyReads F.Folder folder.old folder.new (result ≡ READ_FAULT) }
    ensures no_usage { result ≡ USAGE → ⊥ }
{
    match read_index(alloc, folder, dir) {
        Ok(rows) => print_made(alloc, out, text_of(alloc, &rows, found), RACES),
        Err(answer) => refuse(alloc, out, WalkFault::from(answer)),
    }
}

/// Finds the least race of these two lines, and prints its records, or that there is none.
pub fn explain_lines<F: Folder, O: Out>(
    alloc: Global,
    folder: &mut F,
    out: &mut O,
    dir: &str,
    low: u32,
    high: u32,
) -> u8
    ensures answers { WhereTold (F.state folder.old).content (λ c. Tries (FolderDue (HasExplanation low high) c.held dir.now) (O.written out.old) (O.written out.new) result) }
    ensures write_fault { result ≡ WRITE_FAULT → Rose (O.faults out.old) (O.faults out.new) }
    ensures reads { OnlyReads F.Folder folder.old folder.new (result ≡ READ_FAULT) }
    ensures no_usage { result ≡ USAGE → ⊥ }
{
    match explain(alloc, folder, dir, low, high) {
        Ok(Some(found)) => print_race(alloc, folder, out, dir, &found),
        Ok(None) => print_made(alloc, out, texts::no_race_pair(alloc, low, high), DONE),
        Err(refused) => refuse(alloc, out, refused),
    }
}
