//! The top call: what the program does for the arguments that it is given.
ghost use Rattle.std.specs.Prelude.{◌≡◌, ◌⊎◌, ℕ, List, is_some};
ghost use Rattle.sw_base.specs.Environment.{Rose, WhereTold, next_count};
ghost use Rattle.command_answer.specs.Answer.{Answers, IsFailure, Tries};
ghost use Rattle.certify_command.specs.Certify.{CertifyDue};
ghost use Rattle.folder_commands.specs.Check.{AnswersForRun, AnswersRefusal, HasReport};
ghost use Rattle.folder_commands.specs.Confirm.{HasConfirmation};
ghost use Rattle.folder_commands.specs.Explain.{HasExplanation};
ghost use Rattle.run_command.specs.Run.{LeavesPart, RunDue};
ghost use Rattle.folder_commands.specs.Gen.{GenDue};
ghost use Rattle.folder_commands.specs.Replay.{ReplayDue};
ghost use Rattle.folder_commands.specs.Show.{ShowsRecords};
ghost use Rattle.folder_commands.specs.Upgrade.{IsUpgraded, UpgradeDue};
ghost use Rattle.log_upgrade.specs.Upgrade.{LeavesUpgrade};
ghost use Rattle.command_line.specs.Arguments.{AsksOfRun, AsksToRead, AsksToWrite, AsksUpgrade, IsUsage, SaysCertify, SaysCheck, SaysConfirm, SaysExplain, SaysGen, SaysReplay, SaysRun, SaysShow, SaysUpgrade, texts};
ghost use Rattle.top_call.specs.Requests.{BeginsToWrite, UsageDue};
ghost use Rattle.command_answer.specs.declared.status.TheConstants.{DONE, USAGE, READ_FAULT, WRITE_FAULT};

use crate::running::run_file;
use certify_command::certify_file;
use command_answer::{NO_MEMORY, USAGE, print};
use command_line::{Command, read_arguments};
use folder_commands::{
    check, check_generated, confirm_records, explain_lines, replay_file, show, upgrade_folder,
};
use std::alloc::Global;
use std::marker::Send;
use std::sync::Wait;
use std::thread::Threads;
use sw_base::{Folder, Gate, Out};

/// How many bytes of stack the call is given. An expression may be nearly as deep as its kernel's text is long, and so are the calls that
/// compute it.
pub const STACK: usize = 1 << 28;

const USAGE_LINE: &[u8] =
    b"usage: sword check DIR W | run KERNEL DIR SIZE | replay KERNEL DIR | show DIR | gen N W | upgrade DIR NEW | certify KERNEL | explain DIR L M | confirm DIR A I B J | live KERNEL DIR SIZE\n";

/// Does what the arguments after the program's name ask for, and answers the status that the program ends with.
///
/// The gate sees each lane of a region start each of its phases, and each worker of a check, of `gen` or of `certify` start. Lanes and
/// workers are threads of the runtime.
pub fn sword<R: Threads + Wait + Sync + Copy + Send + 'static, F: Folder, O: Out, G: Gate>(
    rt: &R,
    alloc: Global,
    arguments: &[String],
    folder: &mut F,
    out: &mut O,
    gate: &G,
) -> u8
    // Words that ask for nothing are answered by the usage line, and nothing else is.
    ensures usage { IsUsage (texts arguments.now) → Answers UsageDue (O.written out.old) (O.written out.new) result }
    ensures only_usage { result ≡ USAGE → IsUsage (texts arguments.now) }

    // `check` answers, of the good run that a folder holds, exactly the line pairs of accesses that share a byte, one that writes or updates and
    // not both updates, unordered by forks, joins and barriers, without a common mutex, once and in order. A folder that holds none is refused.
    ensures check { (dir : List ℕ) (workers : ℕ) → SaysCheck (texts arguments.now) dir workers → WhereTold (F.state folder.old).content (λ c.
        AnswersForRun HasReport c.held dir (O.written out.old) (O.written out.new) result) }

    // `show` answers every record of the good run that a folder holds.
    ensures show { (dir : List ℕ) → SaysShow (texts arguments.now) dir → WhereTold (F.state folder.old).content (λ c.
        AnswersForRun ShowsRecords c.held dir (O.written out.old) (O.written out.new) result) }

    // `replay` answers that there is no kernel, or the first bad place of the folder; that each log is the whole trace of its task under what
    // it read and drew, whether or not one run could read and draw that; or the first record, in the order of the rows and then by number,
    // that isn't the trace's.
    ensures replay { (kernel dir : List ℕ) → SaysReplay (texts arguments.now) kernel dir → WhereTold (F.state folder.old).content (λ c.
        Answers (ReplayDue c.held kernel dir) (O.written out.old) (O.written out.new) result) }

    // `gen` answers how many accesses and barrier intervals the run of so many rounds has, and the line pairs of its races.
    ensures gen_ { (rounds workers : ℕ) → SaysGen (texts arguments.now) rounds workers → Answers (GenDue rounds) (O.written out.old) (O.written out.new) result }

    // `run` and `live` answer that there is no kernel; that the folder has an index; where the kernel stopped, with the logs of one execution of it;
    // or the counts of a run and the sums in which a legal history of it ends. Its logs and index are then there: those of the kernel's
    // tasks, each with its whole trace under what it read, cut into pieces that fill the buffer.
    ensures run { (kernel dir : List ℕ) (size : ℕ) → SaysRun (texts arguments.now) kernel dir size → WhereTold (F.state folder.old).content (λ c.
        WhereTold (F.state folder.new).content (λ d. Tries (RunDue (Rose (F.state folder.old).write_faults (F.state folder.new).write_faults) kernel dir size c d) (O.written out.old) (O.written out.new) result)) }
    ensures run_leaves { (kernel dir : List ℕ) (size : ℕ) → SaysRun (texts arguments.now) kernel dir size → WhereTold (F.state folder.old).content (λ c.
        WhereTold (F.state folder.new).content (λ d. IsFailure result → LeavesPart (Rose (F.state folder.old).write_faults (F.state folder.new).write_faults) kernel dir size c d)) }

    // `upgrade` answers that the new folder has an index; the first bad place of the old one by the first format; or how many logs it has,
    // which are then in the new folder with their index. That one is bad nowhere and holds the run that the old one holds by the first
    // format, and nothing else changed.
    ensures upgrade { (dir new : List ℕ) → SaysUpgrade (texts arguments.now) dir new → WhereTold (F.state folder.old).content (λ c.
        Answers (UpgradeDue c.held dir new) (O.written out.old) (O.written out.new) result) }
    ensures upgrades { (dir new : List ℕ) → SaysUpgrade (texts arguments.now) dir new → result ≡ DONE → WhereTold (F.state folder.old).content (λ c.
        WhereTold (F.state folder.new).content (λ d. IsUpgraded dir new c d)) }
    ensures upgrade_leaves { (dir new : List ℕ) → SaysUpgrade (texts arguments.now) dir new → IsFailure result → WhereTold (F.state folder.old).content (λ c.
        WhereTold (F.state folder.new).content (λ d. LeavesUpgrade dir new c d)) }

    // `explain` answers, of the good run that a folder holds, the least race of the two lines, whose records `confirm` confirms, or that the lines are
    // no race pair.
    ensures explain { (dir : List ℕ) (low high : ℕ) → SaysExplain (texts arguments.now) dir low high → WhereTold (F.state folder.old).content (λ c.
        AnswersForRun (HasExplanation low high) c.held dir (O.written out.old) (O.written out.new) result) }

    // `confirm` answers, of the good run that a folder holds, the first byte that the two records have in common if they race, or that they don't.
    ensures confirm { (dir : List ℕ) (first_row first second_row second : ℕ) → SaysConfirm (texts arguments.now) dir first_row first second_row second → WhereTold (F.state folder.old).content (λ c.
        AnswersForRun (HasConfirmation first_row first second_row second) c.held dir (O.written out.old) (O.written out.new) result) }

    // A folder that `check`, `show`, `explain` or `confirm` refuses is refused by its first bad place.
    ensures refusal { (dir : List ℕ) → AsksOfRun (texts arguments.now) dir → WhereTold (F.state folder.old).content (λ c.
        AnswersRefusal c.held dir (O.written out.old) (O.written out.new) result) }

    // `certify` answers that there is no kernel, or a verdict on the kernel whose cause is there: that each of its runs that ends has the logs of its
    // serial run, of which it prints the text of `run`; or the first reason for which that isn't certain.
    ensures certify { (kernel : List ℕ) → SaysCertify (texts arguments.now) kernel → WhereTold (F.state folder.old).content (λ c.
        Tries (CertifyDue c.held kernel) (O.written out.old) (O.written out.new) result) }

    // A fault has its cause, and only a run or an upgrade that can begin writes anything. With status 0 no call failed that writes: none was
    // made again. After a read that failed only an upgrade has written.
    ensures run_reads { (AsksUpgrade (texts arguments.now) → ⊥) → result ≡ READ_FAULT → F.state folder.new ≡ F.state folder.old }
    ensures read_fault { result ≡ READ_FAULT → Rose (F.read_faults folder.old) (F.read_faults folder.new) }
    // No read that failed was made again, or is told as something else.
    ensures no_read_fault { (result ≡ READ_FAULT → ⊥) → F.read_faults folder.new ≡ F.read_faults folder.old }
    ensures only_reads { result ≡ READ_FAULT → AsksToRead (texts arguments.now) }
    ensures write_fault { result ≡ WRITE_FAULT → Rose (O.faults out.old) (O.faults out.new)
        ⊎ (AsksToWrite (texts arguments.now) × Rose (F.state folder.old).write_faults (F.state folder.new).write_faults) }
    ensures no_fault { result ≡ DONE → (F.state folder.new).write_faults ≡ (F.state folder.old).write_faults }
    ensures only_printed { WhereTold (F.state folder.old).content (λ c. (BeginsToWrite (texts arguments.now) c.held → ⊥) →
        result ≡ WRITE_FAULT → Rose (O.faults out.old) (O.faults out.new)) }
    ensures untouched { WhereTold (F.state folder.old).content (λ c. (BeginsToWrite (texts arguments.now) c.held → ⊥) →
        F.state folder.new ≡ F.state folder.old) }
    ensures same { (AsksToWrite (texts arguments.now) → ⊥) → F.state folder.new ≡ F.state folder.old }
    // No run is made twice: the root's log is asked for once at most.
    ensures asks_once { ((F.state folder.new).roots ≡ (F.state folder.old).roots) ⊎ ((F.state folder.new).roots ≡ next_count (F.state folder.old).roots) }
    ensures tells { is_some (F.state folder.new).content ≡ is_some (F.state folder.old).content }
{
    match read_arguments(alloc, arguments) {
        Ok(None) => print(alloc, out, USAGE_LINE, USAGE),
        Ok(Some(Command::Check { dir, workers })) => {
            check(rt, alloc, folder, out, gate, dir, workers as usize)
        }
        Ok(
            Some(
                Command::Run {
                    kernel,
                    dir,
                    size,
                    stays,
                },
            ),
        ) => run_file(
            rt,
            alloc,
            kernel,
            dir,
            size as usize,
            folder,
            out,
            gate,
            stays,
        ),
        Ok(Some(Command::Replay { kernel, dir })) => replay_file(alloc, folder, out, kernel, dir),
        Ok(Some(Command::Show { dir })) => show(alloc, folder, out, dir),
        Ok(Some(Command::Gen { rounds, workers })) => {
            check_generated(rt, alloc, out, gate, rounds as u32, workers as usize)
        }
        Ok(Some(Command::Upgrade { dir, new })) => upgrade_folder(alloc, folder, out, dir, new),
        Ok(Some(Command::Explain { dir, low, high })) => {
            explain_lines(alloc, folder, out, dir, low as u32, high as u32)
        }
        Ok(Some(Command::Confirm { dir, one, other })) => confirm_records(
            alloc,
            folder,
            out,
            dir,
            one.row as u32,
            one.number as u32,
            other.row as u32,
            other.number as u32,
        ),
        Ok(Some(Command::Certify { kernel })) => certify_file(rt, alloc, folder, out, gate, kernel),
        Err(_) => NO_MEMORY,
    }
}
