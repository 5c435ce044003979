//! `replay`: whether each log of a folder is the trace of its task of a kernel under what it read and drew.
ghost use Rattle.std.specs.Prelude.{◌≡◌};
ghost use Rattle.sw_base.specs.Environment.{Rose, WhereTold};
ghost use Rattle.sw_base.specs.OnlyReads.{OnlyReads};
ghost use Rattle.race_model.specs.Trace.{Trace};
ghost use Rattle.kernel_syntax.specs.Program.{Program, program_of};
ghost use Rattle.log_replay.specs.Replaying.{IsReplayable, IsReplayed};
ghost use Rattle.command_answer.specs.Answer.{Tries};
ghost use Rattle.command_answer.specs.declared.status.TheConstants.{USAGE, READ_FAULT, WRITE_FAULT};
ghost use Rattle.folder_commands.specs.Check.{FolderDue};
ghost use Rattle.folder_commands.specs.Replay.{HasReplay, ReplayDue};

use crate::refusing::refuse;
use crate::texts;
use command_answer::{DIFFERS, DONE, print, print_made};
use kernel_file::{read_kernel_file, refuse_kernel};
use kernel_syntax::Kernel;
use log_replay::{Replayed, replay};
use std::alloc::Global;
use sw_base::{Folder, Out};

const SAME: &[u8] = b"same\n";

/// Prints what was found of a folder and a kernel.
fn print_found<O: Out>(alloc: Global, out: &mut O, found: &Replayed) -> u8
    ensures answers { (program : Program) (tasks : Trace) → IsReplayed program tasks found.now → Tries (HasReplay program tasks) (O.written out.old) (O.written out.new) result }
    ensures write_fault { result ≡ WRITE_FAULT → Rose (O.faults out.old) (O.faults out.new) }
    ensures no_read { result ≡ READ_FAULT → ⊥ }
    ensures no_usage { result ≡ USAGE → ⊥ }
{
    match found {
        Replayed::Same => print(alloc, out, SAME, DONE),
        Replayed::Differs { path, number } => {
            print_made(alloc, out, texts::differs(alloc, path, *number), DIFFERS)
        }
    }
}

/// Compares the folder with a kernel.
fn compare<F: Folder, O: Out>(
    alloc: Global,
    folder: &mut F,
    out: &mut O,
    kernel: &Kernel,
    dir: &str,
) -> u8
    requires { IsReplayable (program_of kernel.now) }
    ensures answers { WhereTold (F.state folder.old).content (λ c. Tries (FolderDue (HasReplay (program_of kernel.now)) c.held dir.now) (O.written out.old) (O.written out.new) result) }
    ensures write_fault { result ≡ WRITE_FAULT → Rose (O.faults out.old) (O.faults out.new) }
    ensures reads { OnlyReads F.Folder folder.old folder.new (result ≡ READ_FAULT) }
    ensures no_usage { result ≡ USAGE → ⊥ }
{
    match replay(alloc, kernel, folder, dir) {
        Ok(found) => print_found(alloc, out, &found),
        Err(refused) => refuse(alloc, out, refused),
    }
}

/// Reads the kernel, compares the folder's logs with the traces of its tasks, and prints whether they are the same, or the first record
/// that isn't the kernel's.
pub fn replay_file<F: Folder, O: Out>(
    alloc: Global,
    folder: &mut F,
    out: &mut O,
    kernel: &str,
    dir: &str,
) -> u8
    ensures answers { WhereTold (F.state folder.old).content (λ c. Tries (ReplayDue c.held kernel.now dir.now) (O.written out.old) (O.written out.new) result) }
    ensures write_fault { result ≡ WRITE_FAULT → Rose (O.faults out.old) (O.faults out.new) }
    ensures reads { OnlyReads F.Folder folder.old folder.new (result ≡ READ_FAULT) }
    ensures no_usage { result ≡ USAGE → ⊥ }
{
    match read_kernel_file(alloc, folder, kernel) {
        Ok(kernel) => compare(alloc, folder, out, &kernel, dir),
        Err(why) => refuse_kernel(alloc, out, why),
    }
}
