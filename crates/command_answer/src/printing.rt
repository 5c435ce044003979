//! What is printed, and the status that goes with it.
ghost use Rattle.std.specs.Prelude.{◌≡◌, ◌↔◌, ◌≤◌, string_bytes, IfOk, OnErr};
ghost use Rattle.sw_base.specs.Environment.{Rose};
ghost use Rattle.sw_base.specs.declared.trouble.Trouble.TheVariants as troubles;
ghost use Rattle.command_answer.specs.Answer.{IsFailure, Prints};
ghost use Rattle.command_answer.specs.declared.status.TheConstants.{USAGE, READ_FAULT, WRITE_FAULT, NO_MEMORY};

use crate::status::{NO_MEMORY, WRITE_FAULT};
use std::alloc::Global;
use sw_base::{Memory, Out, Trouble};

/// The status of a write that failed, or for which no memory was found.
pub fn failure(trouble: Trouble) -> u8
    ensures failure { IsFailure result }
    ensures no_read { result ≡ READ_FAULT → ⊥ }
    ensures no_usage { result ≡ USAGE → ⊥ }
    ensures failed { (result ≡ WRITE_FAULT) ↔ (trouble ≡ troubles.Failed) }
    ensures no_memory { (result ≡ NO_MEMORY) ↔ (trouble ≡ troubles.Memory) }
{
    match trouble {
        Trouble::Memory => NO_MEMORY,
        Trouble::Failed => WRITE_FAULT,
    }
}

/// Prints a text. The answer is the status, or that the printing failed.
pub fn print<O: Out>(alloc: Global, out: &mut O, text: &[u8], status: u8) -> u8
    ensures prints { Prints status text.now (O.written out.old) (O.written out.new) result }
    ensures later { O.faults out.old ≤ O.faults out.new }
    ensures failed { result ≡ WRITE_FAULT → (status ≡ WRITE_FAULT → ⊥) → Rose (O.faults out.old) (O.faults out.new) }
    ensures no_read { result ≡ READ_FAULT → status ≡ READ_FAULT }
    ensures no_usage { result ≡ USAGE → status ≡ USAGE }
{
    match out.append(alloc, text) {
        Ok(()) => status,
        Err(trouble) => failure(trouble),
    }
}

/// Prints a text, where memory was found for it.
pub fn print_made<O: Out>(
    alloc: Global,
    out: &mut O,
    made: Result<String, Memory>,
    status: u8,
) -> u8
    ensures prints { IfOk made (λ text. Prints status (string_bytes text) (O.written out.old) (O.written out.new) result) }
    ensures silent { OnErr made ((result ≡ NO_MEMORY) × (O.written out.new ≡ O.written out.old)) }
    ensures write_fault { result ≡ WRITE_FAULT → (status ≡ WRITE_FAULT → ⊥) → Rose (O.faults out.old) (O.faults out.new) }
    ensures no_read { result ≡ READ_FAULT → status ≡ READ_FAULT }
    ensures no_usage { result ≡ USAGE → status ≡ USAGE }
{
    match made {
        Ok(text) => print(alloc, out, text.as_bytes(), status),
        Err(_) => NO_MEMORY,
    }
}
