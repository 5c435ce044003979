//! Lines that wait until they are printed together.
ghost use Rattle.std.specs.Prelude.{◌≡◌, ◌++◌, ◌≤◌, [], ℕ, List, OnOk, OnErr, IsErrOf, string_bytes};
ghost use Rattle.sw_base.specs.Environment.{Rose, GainsPrefix, gained};
ghost use Rattle.log_format.specs.declared.record.Record.{Record};
ghost use Rattle.log_listing.specs.Listing.{record_line, log_line};
ghost use Rattle.log_listing.specs.Printing.{PrintsInPieces, PrintsPrefix};

use crate::lines::{line_of_log, put_record};
use crate::unlisted::{Unlisted, unwritten};
use log_format::Record;
use std::alloc::Global;
use sw_base::{Out, Path};

/// How many bytes are printed at once, at most.
pub const PIECE: usize = 65_536;

/// A line has fewer bytes.
const LINE: usize = 256;

/// PrintsInPieces the lines that wait.
pub fn print_lines<O: Out>(alloc: Global, out: &mut O, lines: &mut String) -> Result<(), Unlisted>
    ensures none { string_bytes lines.new ≡ [] }
    ensures done { OnOk result (O.written out.new ≡ gained (O.written out.old) (string_bytes lines.old)) }
    ensures refused { OnErr result (GainsPrefix (O.written out.old) (O.written out.new) (string_bytes lines.old)) }
    ensures later { O.faults out.old ≤ O.faults out.new }
    ensures write_cause { IsErrOf result Unlisted.WriteFault → Rose (O.faults out.old) (O.faults out.new) }
    ensures no_read { IsErrOf result Unlisted.ReadFault → ⊥ }
{
    if lines.is_empty() {
        return Ok(());
    }
    let printed = out.append(alloc, lines.as_bytes());
    lines.clear();
    match printed {
        Ok(()) => Ok(()),
        Err(trouble) => Err(unwritten(trouble)),
    }
}

// PrintsInPieces the lines that wait, where there may be no room for another.
fn make_room<O: Out>(alloc: Global, out: &mut O, lines: &mut String) -> Result<(), Unlisted>
    ensures done { OnOk result (PrintsInPieces (O.written out.old) (string_bytes lines.old) (O.written out.new) (string_bytes lines.new) []) }
    ensures refused { (text : List ℕ) → OnErr result (PrintsPrefix (O.written out.old) (string_bytes lines.old) (O.written out.new) (string_bytes lines.new) text) }
    ensures later { O.faults out.old ≤ O.faults out.new }
    ensures write_cause { IsErrOf result Unlisted.WriteFault → Rose (O.faults out.old) (O.faults out.new) }
    ensures no_read { IsErrOf result Unlisted.ReadFault → ⊥ }
{
    if lines.len() <= PIECE - LINE {
        return Ok(());
    }
    print_lines(alloc, out, lines)
}

// Adds the line of a record. Where no memory is found for it, the lines are lost.
fn add_record(lines: &mut String, number: u64, r: &Record) -> Result<(), Unlisted>
    ensures done { OnOk result (string_bytes lines.new ≡ string_bytes lines.old ++ record_line number r.now) }
    ensures lost { OnErr result (string_bytes lines.new ≡ []) }
    ensures no_write { IsErrOf result Unlisted.WriteFault → ⊥ }
    ensures no_read { IsErrOf result Unlisted.ReadFault → ⊥ }
{
    match put_record(lines, number, r) {
        Ok(()) => Ok(()),
        Err(memory) => {
            lines.clear();
            Err(Unlisted::from(memory))
        }
    }
}

/// Lists a record.
pub fn list_record<O: Out>(
    alloc: Global,
    out: &mut O,
    lines: &mut String,
    number: u64,
    r: &Record,
) -> Result<(), Unlisted>
    ensures done { OnOk result (PrintsInPieces (O.written out.old) (string_bytes lines.old) (O.written out.new) (string_bytes lines.new) (record_line number r.now)) }
    ensures refused { OnErr result (PrintsPrefix (O.written out.old) (string_bytes lines.old) (O.written out.new) (string_bytes lines.new) (record_line number r.now)) }
    ensures later { O.faults out.old ≤ O.faults out.new }
    ensures write_cause { IsErrOf result Unlisted.WriteFault → Rose (O.faults out.old) (O.faults out.new) }
    ensures no_read { IsErrOf result Unlisted.ReadFault → ⊥ }
{
    make_room(alloc, out, lines)?;
    add_record(lines, number, r)
}

/// Lists a log's name and number of records.
pub fn list_name<O: Out>(
    alloc: Global,
    out: &mut O,
    lines: &mut String,
    path: &Path,
    count: u32,
) -> Result<(), Unlisted>
    ensures done { OnOk result (PrintsInPieces (O.written out.old) (string_bytes lines.old) (O.written out.new) (string_bytes lines.new) (log_line path.now count)) }
    ensures refused { OnErr result (PrintsPrefix (O.written out.old) (string_bytes lines.old) (O.written out.new) (string_bytes lines.new) (log_line path.now count)) }
    ensures later { O.faults out.old ≤ O.faults out.new }
    ensures write_cause { IsErrOf result Unlisted.WriteFault → Rose (O.faults out.old) (O.faults out.new) }
    ensures no_read { IsErrOf result Unlisted.ReadFault → ⊥ }
{
    make_room(alloc, out, lines)?;
    let line = line_of_log(alloc, path, count)?;
    match lines.push_str(line.as_str()) {
        Ok(()) => Ok(()),
        Err(_) => Err(Unlisted::Memory),
    }
}
