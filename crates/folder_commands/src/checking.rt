//! `check`: the race pairs of the run that a folder holds.
ghost use Rattle.std.specs.Prelude.{◌≡◌, ◌≤◌, List, IfOk};
ghost use Rattle.log_format.specs.declared.format.TheConstants.{FORMAT};
ghost use Rattle.sw_base.specs.Environment.{Rose, WhereTold};
ghost use Rattle.sw_base.specs.OnlyReads.{OnlyReads};
ghost use Rattle.command_answer.specs.Answer.{Answers};
ghost use Rattle.command_answer.specs.declared.status.TheConstants.{USAGE, READ_FAULT, WRITE_FAULT};
ghost use Rattle.folder_commands.specs.Check.{FolderDue, HasReport};

use crate::printing::print_report;
use crate::refusing::refuse;
use folder_races::folder_pairs;
use std::alloc::Global;
use std::thread::Threads;
use sw_base::{Folder, Gate, Out};

/// Compares the accesses of a folder's logs, region by region, and reports the race pairs of its run.
pub fn check<R: Threads + Sync, F: Folder, O: Out, G: Gate>(
    rt: &R,
    alloc: Global,
    folder: &mut F,
    out: &mut O,
    gate: &G,
    dir: &str,
    workers: usize,
) -> u8
    requires workers { (1 ≤ workers) × (workers ≤ 64) }
    ensures answers { WhereTold (F.state folder.old).content (λ c. Answers (FolderDue HasReport c.held dir.now) (O.written out.old) (O.written out.new) result) }
    ensures write_fault { result ≡ WRITE_FAULT → Rose (O.faults out.old) (O.faults out.new) }
    ensures reads { OnlyReads F.Folder folder.old folder.new (result ≡ READ_FAULT) }
    ensures no_usage { result ≡ USAGE → ⊥ }
{
    match folder_pairs(rt, alloc, folder, gate, dir, workers) {
        Ok(pairs) => print_report(alloc, out, &pairs),
        Err(refused) => refuse(alloc, out, refused),
    }
}
