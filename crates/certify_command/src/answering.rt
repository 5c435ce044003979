//! What is printed of a verdict, and with which status.
ghost use Rattle.std.specs.Prelude.{◌≡◌};
ghost use Rattle.sw_base.specs.Environment.{Rose};
ghost use Rattle.command_answer.specs.Answer.{Prints, Tries};
ghost use Rattle.command_answer.specs.declared.status.TheConstants.{READ_FAULT, UNCERTAIN, USAGE, WRITE_FAULT};
ghost use Rattle.certify_command.specs.Certify.{IsVerdictText};
ghost use Rattle.certify_command.specs.Texts.{races_text};

use crate::texts;
use certify::Verdict;
use command_answer::{DONE, UNCERTAIN, failure, print, print_made};
use kernel_syntax::Array;
use race_report::report;
use std::alloc::Global;
use std::collections::BTreeSet;
use sw_base::Out;

const RACES: &[u8] = b"uncertain: races\n";

// Prints the report of races, and that they leave it uncertain.
fn print_races<O: Out>(alloc: Global, out: &mut O, pairs: &BTreeSet<(u32, u32)>) -> u8
    ensures prints { Prints UNCERTAIN (races_text pairs.now.keys) (O.written out.old) (O.written out.new) result }
    ensures write_fault { result ≡ WRITE_FAULT → Rose (O.faults out.old) (O.faults out.new) }
    ensures no_read { result ≡ READ_FAULT → ⊥ }
    ensures no_usage { result ≡ USAGE → ⊥ }
{
    match report(alloc, out, pairs) {
        Ok(()) => print(alloc, out, RACES, UNCERTAIN),
        Err(trouble) => failure(trouble),
    }
}

/// Prints a verdict on a kernel of these arrays, and answers its status.
pub fn print_verdict<O: Out>(alloc: Global, out: &mut O, arrays: &[Array], verdict: &Verdict) -> u8
    ensures prints { Tries (IsVerdictText arrays.now verdict.now) (O.written out.old) (O.written out.new) result }
    ensures write_fault { result ≡ WRITE_FAULT → Rose (O.faults out.old) (O.faults out.new) }
    ensures no_read { result ≡ READ_FAULT → ⊥ }
    ensures no_usage { result ≡ USAGE → ⊥ }
{
    match verdict {
        Verdict::Construct { line } => {
            print_made(alloc, out, texts::construct(alloc, *line), UNCERTAIN)
        }
        Verdict::Long { path, number } => {
            print_made(alloc, out, texts::long(alloc, path, *number), UNCERTAIN)
        }
        Verdict::Stopped { path, line, why } => {
            let text = texts::stopped(alloc, path, *line, *why);
            print_made(alloc, out, text, UNCERTAIN)
        }
        Verdict::Segments { path, number } => {
            print_made(alloc, out, texts::segments(alloc, path, *number), UNCERTAIN)
        }
        Verdict::Racy { pairs } => print_races(alloc, out, pairs),
        Verdict::Certain {
            tasks,
            records,
            words,
        } => {
            let text = texts::certain(alloc, *tasks, *records, arrays, words);
            print_made(alloc, out, text, DONE)
        }
    }
}
