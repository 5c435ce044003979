//! The report of a check, and the status that goes with it.
ghost use Rattle.std.specs.Prelude.{◌≡◌, ◌≤◌};
ghost use Rattle.sw_base.specs.Environment.{Rose};
ghost use Rattle.race_report.specs.Report.{report_text};
ghost use Rattle.command_answer.specs.Answer.{Prints};
ghost use Rattle.command_answer.specs.declared.status.TheConstants.{USAGE, READ_FAULT, WRITE_FAULT};
ghost use Rattle.folder_commands.specs.Check.{report_status};

use command_answer::{DONE, RACES, failure};
use race_report::report;
use std::alloc::Global;
use std::collections::BTreeSet;
use sw_base::Out;

/// Prints the report of a check. The answer is whether there are races, or that the printing failed.
pub fn print_report<O: Out>(alloc: Global, out: &mut O, pairs: &BTreeSet<(u32, u32)>) -> u8
    ensures prints { Prints (report_status pairs.now.keys) (report_text pairs.now.keys) (O.written out.old) (O.written out.new) result }
    ensures later { O.faults out.old ≤ O.faults out.new }
    ensures failed { result ≡ WRITE_FAULT → Rose (O.faults out.old) (O.faults out.new) }
    ensures no_read { result ≡ READ_FAULT → ⊥ }
    ensures no_usage { result ≡ USAGE → ⊥ }
{
    match report(alloc, out, pairs) {
        Ok(()) if pairs.is_empty() => DONE,
        Ok(()) => RACES,
        Err(trouble) => failure(trouble),
    }
}
