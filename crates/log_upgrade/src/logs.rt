//! Logs of the first format, put into another folder.
ghost use Rattle.std.specs.Prelude.{◌≡◌, List, Some, length, IfOk, OnErr, OnOk, IsErrOf};
ghost use Rattle.log_format.specs.declared.format.Format.TheVariants.{First};
ghost use Rattle.log_format.specs.declared.format.TheConstants.{FORMAT};
ghost use Rattle.log_format.specs.declared.record.Record.{Record};
ghost use Rattle.log_format.specs.Format.{log_header};
ghost use Rattle.log_format.specs.Spelling.{log_bytes};
ghost use Rattle.sw_base.specs.Environment.{HasCause, LeavesPrefix, WhereTold, with_put};
ghost use Rattle.sw_base.specs.OnlyReads.{OnlyReads};
ghost use Rattle.sw_base.specs.Names.{log_name};
ghost use Rattle.std.specs.Option.{option_map};
ghost use Rattle.race_model.specs.LogFault.{IsWholeLog};
ghost use Rattle.race_model.specs.Trace.{Trace};
ghost use Rattle.log_reader.specs.Reading.{StandsBefore};
ghost use Rattle.log_index.specs.Puts.{with_tasks};
ghost use Rattle.log_upgrade.specs.Upgrade.{BringsPart, CanBring, CountsBringing};

use crate::fault::{UpgradeFault, unread, unwritten};
use log_format::{FORMAT, Format, encode};
use log_index::Row;
use log_reader::LogReader;
use std::alloc::Global;
use sw_base::{Folder, Path, Trouble};

/// The bytes of a log with the records that the reader stands before.
fn spell_records<F: Folder>(
    alloc: Global,
    folder: &mut F,
    reader: &mut LogReader,
) -> Result<Vec<u8>, Trouble>
    ensures spelled { WhereTold (F.state folder.old).content (λ c. (events : List Record) → StandsBefore c reader.old events → IfOk result (λ bytes. bytes.items ≡ log_bytes (log_header FORMAT) events)) }
    ensures reads { OnlyReads F.Folder folder.old folder.new (IsErrOf result Trouble.Failed) }
{
    let mut bytes = Vec::from_slice(alloc, &FORMAT.log_header())?;
    'records: while let Some(next) = reader.next(alloc, folder)? {
        bytes.extend_from_slice(&encode(&next))?;
    }
    Ok(bytes)
}

/// The bytes of a log of the first format, as they are in the format that the program reads.
fn spell_log<F: Folder>(
    alloc: Global,
    folder: &mut F,
    reader: &mut LogReader,
    dir: &str,
    path: &Path,
    records: u32,
) -> Result<Vec<u8>, Trouble>
    ensures spelled { WhereTold (F.state folder.old).content (λ c. (events : List Record) → IsWholeLog First c.held dir.now path.now events → records ≡ length events
        → IfOk result (λ bytes. bytes.items ≡ log_bytes (log_header FORMAT) events)) }
    ensures reads { OnlyReads F.Folder folder.old folder.new (IsErrOf result Trouble.Failed) }
{
    reader.open(alloc, Format::First, folder, dir, path, records)?;
    spell_records(alloc, folder, reader)
}

/// Puts the bytes of a task's log.
fn put_log<F: Folder>(
    alloc: Global,
    folder: &mut F,
    new: &str,
    path: &Path,
    bytes: &[u8],
) -> Result<(), Trouble>
    ensures done { OnOk result ((F.state folder.new).content ≡ option_map (with_put (log_name new.now path.now) bytes.now) (F.state folder.old).content) }
    ensures refused { OnErr result (LeavesPrefix (F.state folder.old).content (F.state folder.new).content (log_name new.now path.now) bytes.now) }
    ensures cause { HasCause (F.state folder.old).write_faults (F.state folder.new).write_faults result }
    ensures no_fault { OnOk result ((F.state folder.new).write_faults ≡ (F.state folder.old).write_faults) }
    ensures same_roots { (F.state folder.new).roots ≡ (F.state folder.old).roots }
    ensures same_reads { F.read_faults folder.new ≡ F.read_faults folder.old }
{
    let name = path.name(alloc, new)?;
    folder.put(alloc, &name, bytes)
}

/// Brings one log over.
fn bring_log<F: Folder>(
    alloc: Global,
    folder: &mut F,
    reader: &mut LogReader,
    dir: &str,
    new: &str,
    path: &Path,
    records: u32,
) -> Result<(), UpgradeFault>
    ensures done { WhereTold (F.state folder.old).content (λ c. (events : List Record) → IsWholeLog First c.held dir.now path.now events → records ≡ length events
        → OnOk result ((F.state folder.new).content ≡ Some (with_put (log_name new.now path.now) (log_bytes (log_header FORMAT) events) c))) }
    ensures refused { WhereTold (F.state folder.old).content (λ c. (events : List Record) → IsWholeLog First c.held dir.now path.now events → records ≡ length events
        → OnErr result (LeavesPrefix (Some c) (F.state folder.new).content (log_name new.now path.now) (log_bytes (log_header FORMAT) events))) }
    ensures counts { CountsBringing (F.read_faults folder.old) (F.read_faults folder.new) (F.state folder.old) (F.state folder.new) result }
{
    let bytes = match spell_log(alloc, folder, reader, dir, path, records) {
        Ok(bytes) => bytes,
        Err(trouble) => return Err(unread(trouble)),
    };
    match put_log(alloc, folder, new, path, &bytes) {
        Ok(()) => Ok(()),
        Err(trouble) => Err(unwritten(trouble)),
    }
}

/// Brings the logs of these rows over, one after another.
pub fn bring_logs<F: Folder>(
    alloc: Global,
    folder: &mut F,
    dir: &str,
    new: &str,
    rows: &[Row],
) -> Result<(), UpgradeFault>
    ensures done { WhereTold (F.state folder.old).content (λ c. (trace : Trace) → CanBring c.held dir.now new.now rows.now trace
        → OnOk result ((F.state folder.new).content ≡ Some (with_tasks new.now trace c))) }
    ensures refused { WhereTold (F.state folder.old).content (λ c. (trace : Trace) → CanBring c.held dir.now new.now rows.now trace
        → OnErr result (BringsPart new.now trace c (F.state folder.new).content)) }
    ensures counts { CountsBringing (F.read_faults folder.old) (F.read_faults folder.new) (F.state folder.old) (F.state folder.new) result }
{
    let mut reader = LogReader::new(alloc)?;
    'rows: for row in rows {
        bring_log(alloc, folder, &mut reader, dir, new, &row.path, row.records)?;
    }
    Ok(())
}
