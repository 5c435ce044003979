//! Lists logs.
ghost use Rattle.std.specs.Prelude.{◌≡◌, ◌^◌, ◌<◌, ◌≤◌, List, length, is_some, IsTrue, IfOk, OnOk, OnErr, IsErrOf, string_bytes};
ghost use Rattle.log_format.specs.declared.format.TheConstants.{FORMAT};
ghost use Rattle.sw_base.specs.Environment.{WhereTold, Rose, GainsPrefix, gained};
ghost use Rattle.sw_base.specs.OnlyReads.{OnlyReads};
ghost use Rattle.log_format.specs.declared.record.Record.{Record};
ghost use Rattle.log_reader.specs.Reading.{StandsBefore, GivesNext};
ghost use Rattle.race_model.specs.FirstBad.{HoldsLogs, rows_of};
ghost use Rattle.race_model.specs.LogFault.{IsWholeLog};
ghost use Rattle.race_model.specs.Trace.{Trace};
ghost use Rattle.log_listing.specs.Listing.{log_text, records_text, show_text};
ghost use Rattle.log_listing.specs.Printing.{PrintsInPieces, PrintsPrefix};

use crate::printing::{PIECE, list_name, list_record, print_lines};
use crate::unlisted::{Unlisted, unread};
use log_format::{FORMAT, Record};
use log_index::Row;
use log_reader::LogReader;
use std::alloc::Global;
use sw_base::{Folder, Out, Path};

fn next_record<F: Folder>(
    alloc: Global,
    folder: &mut F,
    reader: &mut LogReader,
) -> Result<Option<Record>, Unlisted>
    ensures gives { WhereTold (F.state folder.old).content (λ c. (events : List Record) → StandsBefore c reader.old events → IfOk result (λ answer. GivesNext c events answer reader.new)) }
    ensures fewer { IfOk result (λ answer. IsTrue (is_some answer) → reader.new.left < reader.old.left) }
    ensures reads { OnlyReads F.Folder folder.old folder.new (IsErrOf result Unlisted.ReadFault) }
    ensures no_write { IsErrOf result Unlisted.WriteFault → ⊥ }
{
    match reader.next(alloc, folder) {
        Ok(next) => Ok(next),
        Err(trouble) => Err(unread(trouble)),
    }
}

fn open_log<F: Folder>(
    alloc: Global,
    folder: &mut F,
    dir: &str,
    path: &Path,
    records: u32,
    reader: &mut LogReader,
) -> Result<(), Unlisted>
    ensures stands { OnOk result (WhereTold (F.state folder.old).content (λ c. (events : List Record) → IsWholeLog FORMAT c.held dir.now path.now events → records ≡ length events → StandsBefore c reader.new events)) }
    ensures most { reader.new.left ≤ records }
    ensures reads { OnlyReads F.Folder folder.old folder.new (IsErrOf result Unlisted.ReadFault) }
    ensures no_write { IsErrOf result Unlisted.WriteFault → ⊥ }
{
    match reader.open(alloc, FORMAT, folder, dir, path, records) {
        Ok(()) => Ok(()),
        Err(trouble) => Err(unread(trouble)),
    }
}

// Lists the records that the reader stands before.
fn list_records<F: Folder, O: Out>(
    alloc: Global,
    folder: &mut F,
    out: &mut O,
    lines: &mut String,
    reader: &mut LogReader,
) -> Result<(), Unlisted>
    requires { reader.old.left < 2 ^ 32 }
    ensures done { WhereTold (F.state folder.old).content (λ c. (events : List Record) → StandsBefore c reader.old events → OnOk result (PrintsInPieces (O.written out.old) (string_bytes lines.old) (O.written out.new) (string_bytes lines.new) (records_text events))) }
    ensures refused { WhereTold (F.state folder.old).content (λ c. (events : List Record) → StandsBefore c reader.old events → OnErr result (PrintsPrefix (O.written out.old) (string_bytes lines.old) (O.written out.new) (string_bytes lines.new) (records_text events))) }
    ensures reads { OnlyReads F.Folder folder.old folder.new (IsErrOf result Unlisted.ReadFault) }
    ensures later_out { O.faults out.old ≤ O.faults out.new }
    ensures write_cause { IsErrOf result Unlisted.WriteFault → Rose (O.faults out.old) (O.faults out.new) }
{
    let mut number = 1;
    'records: while let Some(next) = next_record(alloc, folder, reader)? {
        list_record(alloc, out, lines, number, &next)?;
        number += 1;
    }
    Ok(())
}

fn list_log<F: Folder, O: Out>(
    alloc: Global,
    folder: &mut F,
    out: &mut O,
    lines: &mut String,
    dir: &str,
    path: &Path,
    records: u32,
    reader: &mut LogReader,
) -> Result<(), Unlisted>
    ensures done { WhereTold (F.state folder.old).content (λ c. (events : List Record) → IsWholeLog FORMAT c.held dir.now path.now events → records ≡ length events
        → OnOk result (PrintsInPieces (O.written out.old) (string_bytes lines.old) (O.written out.new) (string_bytes lines.new) (log_text path.now events))) }
    ensures refused { WhereTold (F.state folder.old).content (λ c. (events : List Record) → IsWholeLog FORMAT c.held dir.now path.now events → records ≡ length events
        → OnErr result (PrintsPrefix (O.written out.old) (string_bytes lines.old) (O.written out.new) (string_bytes lines.new) (log_text path.now events))) }
    ensures reads { OnlyReads F.Folder folder.old folder.new (IsErrOf result Unlisted.ReadFault) }
    ensures later_out { O.faults out.old ≤ O.faults out.new }
    ensures write_cause { IsErrOf result Unlisted.WriteFault → Rose (O.faults out.old) (O.faults out.new) }
{
    list_name(alloc, out, lines, path, records)?;
    open_log(alloc, folder, dir, path, records, reader)?;
    list_records(alloc, folder, out, lines, reader)
}

// Lists the logs of these rows, each with its records. The last lines wait.
fn list_rows<F: Folder, O: Out>(
    alloc: Global,
    folder: &mut F,
    out: &mut O,
    lines: &mut String,
    dir: &str,
    rows: &[Row],
) -> Result<(), Unlisted>
    ensures done { WhereTold (F.state folder.old).content (λ c. (trace : Trace) → rows_of trace ≡ rows.now → HoldsLogs FORMAT c.held dir.now trace
        → OnOk result (PrintsInPieces (O.written out.old) (string_bytes lines.old) (O.written out.new) (string_bytes lines.new) (show_text trace))) }
    ensures refused { WhereTold (F.state folder.old).content (λ c. (trace : Trace) → rows_of trace ≡ rows.now → HoldsLogs FORMAT c.held dir.now trace
        → OnErr result (PrintsPrefix (O.written out.old) (string_bytes lines.old) (O.written out.new) (string_bytes lines.new) (show_text trace))) }
    ensures reads { OnlyReads F.Folder folder.old folder.new (IsErrOf result Unlisted.ReadFault) }
    ensures later_out { O.faults out.old ≤ O.faults out.new }
    ensures write_cause { IsErrOf result Unlisted.WriteFault → Rose (O.faults out.old) (O.faults out.new) }
{
    let mut reader = LogReader::new(alloc)?;
    'rows: for row in rows {
        list_log(
            alloc,
            folder,
            out,
            lines,
            dir,
            &row.path,
            row.records,
            &mut reader,
        )?;
    }
    Ok(())
}

/// Lists the logs of these rows, which are good, and each of their records, as a line. What was listed before a read failed is printed.
pub fn list<F: Folder, O: Out>(
    alloc: Global,
    folder: &mut F,
    out: &mut O,
    dir: &str,
    rows: &[Row],
) -> Result<(), Unlisted>
    ensures done { WhereTold (F.state folder.old).content (λ c. (trace : Trace) → rows_of trace ≡ rows.now → HoldsLogs FORMAT c.held dir.now trace
        → OnOk result (O.written out.new ≡ gained (O.written out.old) (show_text trace))) }
    ensures refused { WhereTold (F.state folder.old).content (λ c. (trace : Trace) → rows_of trace ≡ rows.now → HoldsLogs FORMAT c.held dir.now trace
        → OnErr result (GainsPrefix (O.written out.old) (O.written out.new) (show_text trace))) }

    ensures reads { OnlyReads F.Folder folder.old folder.new (IsErrOf result Unlisted.ReadFault) }
    ensures later_out { O.faults out.old ≤ O.faults out.new }
    ensures write_cause { IsErrOf result Unlisted.WriteFault → Rose (O.faults out.old) (O.faults out.new) }
{
    let Ok(mut lines) = String::with_capacity(alloc, PIECE) else {
        return Err(Unlisted::Memory);
    };
    let listed = list_rows(alloc, folder, out, &mut lines, dir, rows);
    let printed = print_lines(alloc, out, &mut lines);
    listed?;
    printed
}
