//! `gen`: the race pairs of a run that is made from a number.
ghost use Rattle.std.specs.Prelude.{◌≡◌, ◌≤◌, codes, IfOk, OnErr, OnOk};
ghost use Rattle.sw_base.specs.Environment.{GainsPrefix, HasCause, Rose, gained};
ghost use Rattle.memory_environment.specs.MemFolder.{content_of};
ghost use Rattle.command_answer.specs.Answer.{Answers, Prints};
ghost use Rattle.command_answer.specs.declared.status.TheConstants.{USAGE, READ_FAULT, WRITE_FAULT};
ghost use Rattle.folder_commands.specs.Check.{report_status};
ghost use Rattle.folder_commands.specs.Gen.{AreGeneratedPairs, GenDue, HoldsRun, counts_text, summary_text};

use crate::printing::print_report;
use command_answer::{NO_MEMORY, failure};
use folder_races::folder_pairs;
use generated_run::{accesses, generate, segments};
use memory_environment::MemFolder;
use std::alloc::Global;
use std::collections::BTreeSet;
use std::thread::Threads;
use sw_base::{Gate, Memory, Out, Trouble};

/// The folder's name.
const DIR: &str = "g";

/// A folder in memory that holds the run of so many rounds. None of its calls is to fail, so that it wants nothing but memory.
fn generated_folder(alloc: Global, rounds: u32) -> Result<MemFolder, Memory>
    requires { (1 ≤ rounds) × (rounds ≤ 100000) }
    ensures { IfOk result (λ folder. HoldsRun (codes "g") rounds (content_of folder)) }
{
    let mut folder = MemFolder::new(alloc)?;
    match generate(alloc, &mut folder, DIR, rounds) {
        Ok(()) => Ok(folder),
        Err(_) => Err(Memory),
    }
}

/// The race pairs of the run of so many rounds. Its folder is read without a fault and has no bad place.
fn generated_pairs<R: Threads + Sync, G: Gate>(
    rt: &R,
    alloc: Global,
    gate: &G,
    rounds: u32,
    workers: usize,
) -> Result<BTreeSet<(u32, u32)>, Memory>
    requires rounds { (1 ≤ rounds) × (rounds ≤ 100000) }
    requires workers { (1 ≤ workers) × (workers ≤ 64) }
    ensures { IfOk result (λ pairs. AreGeneratedPairs rounds pairs.keys) }
{
    let mut folder = generated_folder(alloc, rounds)?;
    match folder_pairs(rt, alloc, &mut folder, gate, DIR, workers) {
        Ok(pairs) => Ok(pairs),
        Err(_) => Err(Memory),
    }
}

/// Prints how many accesses and barrier intervals a run has.
fn print_counts<O: Out>(
    alloc: Global,
    out: &mut O,
    accesses: u64,
    segments: u64,
) -> Result<(), Trouble>
    ensures done { OnOk result (O.written out.new ≡ gained (O.written out.old) (counts_text accesses segments)) }
    ensures prefix { OnErr result (GainsPrefix (O.written out.old) (O.written out.new) (counts_text accesses segments)) }
    ensures cause { HasCause (O.faults out.old) (O.faults out.new) result }
{
    let text = format!(in alloc; "accesses {accesses}\nsegments {segments}\n")?;
    out.append(alloc, text.as_bytes())
}

fn print_summary<O: Out>(
    alloc: Global,
    out: &mut O,
    rounds: u32,
    pairs: &BTreeSet<(u32, u32)>,
) -> u8
    requires { 1 ≤ rounds }
    ensures prints { Prints (report_status pairs.now.keys) (summary_text rounds pairs.now.keys) (O.written out.old) (O.written out.new) result }
    ensures failed { result ≡ WRITE_FAULT → Rose (O.faults out.old) (O.faults out.new) }
    ensures no_read { result ≡ READ_FAULT → ⊥ }
    ensures no_usage { result ≡ USAGE → ⊥ }
{
    match print_counts(alloc, out, accesses(rounds), segments(rounds)) {
        Ok(()) => print_report(alloc, out, pairs),
        Err(trouble) => failure(trouble),
    }
}

/// Makes the run of so many rounds, compares it with so many workers, and prints its counts and its report.
pub fn check_generated<R: Threads + Sync, O: Out, G: Gate>(
    rt: &R,
    alloc: Global,
    out: &mut O,
    gate: &G,
    rounds: u32,
    workers: usize,
) -> u8
    requires rounds { (1 ≤ rounds) × (rounds ≤ 100000) }
    requires workers { (1 ≤ workers) × (workers ≤ 64) }
    ensures answers { Answers (GenDue rounds) (O.written out.old) (O.written out.new) result }
    ensures failed { result ≡ WRITE_FAULT → Rose (O.faults out.old) (O.faults out.new) }
    ensures no_read { result ≡ READ_FAULT → ⊥ }
    ensures no_usage { result ≡ USAGE → ⊥ }
{
    match generated_pairs(rt, alloc, gate, rounds, workers) {
        Ok(pairs) => print_summary(alloc, out, rounds, &pairs),
        Err(_) => NO_MEMORY,
    }
}
